ghost use Rattle.std.specs.Prelude.{◌≡◌, ◌+◌, ◌*◌, ◌≤◌, ◌++◌, List, OnOk, Some, length};
ghost use Rattle.cell_core.specs.Cells.{same_cell};
ghost use Rattle.cell_core.specs.declared.schema.Column.{Column as ColumnData};
ghost use Rattle.row_batch.specs.Batches.{without};
ghost use Rattle.row_batch.specs.Changes.{row_at};
ghost use Rattle.table_core.specs.Lookups.{pairs_of};
ghost use Rattle.pivot_tree.specs.Groups.{IsApart};
ghost use Rattle.pivot_tree.specs.Trees.{IsTreeOf};
ghost use Rattle.group_show.specs.Plans.{IsGroupedPlan};
ghost use Rattle.live_tree.specs.Rows.{change_paths, kept_change, kept_changes, kept_of, path_of, paths_along, with_kept};

use crate::fitting::fits_columns;
use crate::paths::group_path;
use crate::rows::{Rows, put};
use cell_core::{Cell, Column, Copies, MAX_ROWS, Memory, Path, Row, Steps};
use flat_show::full_row;
use pivot_tree::PivotTree;
use plan_types::Plan;
use row_batch::RowChange;
use row_filter::keeps;
use std::alloc::Global;
use std::sync::ledger::Ledger;

/// Acts on changes in order, and notes the group cells of each row that goes or comes.
pub(crate) fn settle_each<L: Ledger>(
    alloc: Global,
    columns: &[Column],
    plan: &Plan,
    changes: &[RowChange],
    tree: &mut PivotTree,
    rows: &mut Rows,
    paths: &mut Vec<Path>,
    steps: &mut Steps<L>,
) -> Result<(), Memory>
    requires fits { IsGroupedPlan columns.now plan.now }
    requires tree { IsTreeOf columns.now plan.now tree.old (pairs_of rows.old.entries) }
    ensures tree { OnOk result (IsTreeOf columns.now plan.now tree.new (pairs_of rows.new.entries)) }
    ensures rows { OnOk result (pairs_of rows.new.entries ≡ kept_changes plan.now (pairs_of rows.old.entries) changes.now) }
    ensures paths { OnOk result (paths.new.items ≡ paths.old.items ++ paths_along plan.now (pairs_of rows.old.entries) changes.now) }
    ensures steps { steps.new ≤ steps.old + length changes.now * (2 * (length plan.now.group_by + 1)) }
{
    for change in changes {
        settle(alloc, columns, plan, change, tree, rows, paths, steps)?;
    }
    Ok(())
}

/// Acts on one change: the row under its key goes, and its new row comes, where the plan keeps it.
fn settle<L: Ledger>(
    alloc: Global,
    columns: &[Column],
    plan: &Plan,
    change: &RowChange,
    tree: &mut PivotTree,
    rows: &mut Rows,
    paths: &mut Vec<Path>,
    steps: &mut Steps<L>,
) -> Result<(), Memory>
    requires fits { IsGroupedPlan columns.now plan.now }
    requires tree { IsTreeOf columns.now plan.now tree.old (pairs_of rows.old.entries) }
    ensures tree { OnOk result (IsTreeOf columns.now plan.now tree.new (pairs_of rows.new.entries)) }
    ensures rows { OnOk result (pairs_of rows.new.entries ≡ kept_change plan.now (pairs_of rows.old.entries) change.now) }
    ensures paths { OnOk result (paths.new.items ≡ paths.old.items ++ change_paths plan.now (pairs_of rows.old.entries) change.now) }
    ensures steps { steps.new ≤ steps.old + 2 * (length plan.now.group_by + 1) }
{
    take_off(alloc, plan, &change.key, tree, rows, paths, steps)?;
    match &change.new {
        Some(row) => put_in(
            alloc,
            columns,
            plan,
            &change.key,
            row,
            tree,
            rows,
            paths,
            steps,
        ),
        None => Ok(()),
    }
}

/// Takes the row under a key off, where there is one.
fn take_off<L: Ledger>(
    alloc: Global,
    plan: &Plan,
    key: &Cell,
    tree: &mut PivotTree,
    rows: &mut Rows,
    paths: &mut Vec<Path>,
    steps: &mut Steps<L>,
) -> Result<(), Memory>
    requires { (columns : List ColumnData) × IsTreeOf columns plan.now tree.old (pairs_of rows.old.entries) }
    ensures tree { (columns : List ColumnData) → IsTreeOf columns plan.now tree.old (pairs_of rows.old.entries)
        → OnOk result (IsTreeOf columns plan.now tree.new (pairs_of rows.new.entries)) }
    ensures rows { OnOk result (pairs_of rows.new.entries ≡ without (same_cell key.now) (pairs_of rows.old.entries)) }
    ensures paths { OnOk result (paths.new.items ≡ paths.old.items ++ path_of plan.now key.now (row_at (pairs_of rows.old.entries) key.now)) }
    ensures steps { steps.new ≤ steps.old + (length plan.now.group_by + 1) }
{
    match rows.remove(key) {
        Some(row) => {
            tree.take_row(alloc, key, &row, steps)?;
            paths.push(group_path(alloc, plan, row.as_slice())?)?;
            Ok(())
        }
        None => Ok(()),
    }
}

/// Puts a row in under a key that has none, where the plan keeps it. A row that isn't one of the columns, or for which
/// there is no room, is answered as want of memory.
fn put_in<L: Ledger>(
    alloc: Global,
    columns: &[Column],
    plan: &Plan,
    key: &Cell,
    row: &Row,
    tree: &mut PivotTree,
    rows: &mut Rows,
    paths: &mut Vec<Path>,
    steps: &mut Steps<L>,
) -> Result<(), Memory>
    requires fits { IsGroupedPlan columns.now plan.now }
    requires tree { IsTreeOf columns.now plan.now tree.old (pairs_of rows.old.entries) }
    requires absent { IsApart key.now (pairs_of rows.old.entries) }
    ensures tree { OnOk result (IsTreeOf columns.now plan.now tree.new (pairs_of rows.new.entries)) }
    ensures rows { OnOk result (pairs_of rows.new.entries ≡ with_kept (pairs_of rows.old.entries) key.now (kept_of plan.now (Some row.now))) }
    ensures paths { OnOk result (paths.new.items ≡ paths.old.items ++ path_of plan.now key.now (kept_of plan.now (Some row.now))) }
    ensures steps { steps.new ≤ steps.old + (length plan.now.group_by + 1) }
{
    let full = full_row(alloc, plan, row)?;
    if !keeps(&plan.filters, full.as_slice()) {
        return Ok(());
    }
    if rows.len() >= MAX_ROWS as usize || !fits_columns(columns, row.as_slice()) {
        return Err(Memory);
    }
    paths.push(group_path(alloc, plan, full.as_slice())?)?;
    put(alloc, tree, rows, key.copy(alloc)?, full, steps)
}
