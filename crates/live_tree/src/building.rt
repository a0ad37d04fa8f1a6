ghost use Rattle.std.specs.Prelude.{◌≡◌, ◌+◌, ◌<◌, IfOk, List, OnOk, Some, length, take};
ghost use Rattle.cell_core.specs.declared.schema.Column.{Column as ColumnData};
ghost use Rattle.row_batch.specs.Batches.{pair_of};
ghost use Rattle.table_core.specs.Lookups.{pairs_of};
ghost use Rattle.view_kept.specs.Steps.{side_of};
ghost use Rattle.view_spec.specs.Kept.{full_pair, kept};
ghost use Rattle.view_spec.specs.Openings.{Opening};
ghost use Rattle.pivot_tree.specs.Trees.{CanAddRow, IsTreeOf};
ghost use Rattle.group_show.specs.Plans.{IsGroupedPlan};
ghost use Rattle.live_tree.specs.Rows.{kept_of, with_kept};
ghost use Rattle.live_tree.specs.Trees.{StandsTree};

use crate::live::LiveTree;
use crate::rows::{Rows, put};
use cell_core::{Cell, Copies, Memory, Row, Steps};
use flat_show::full_row;
use pivot_tree::PivotTree;
use plan_types::Plan;
use row_filter::keeps;
use std::alloc::Global;
use std::sync::ledger::Ledger;
use table_core::Table;
use view_columns::columns_copied;

/// The rows of a table that a plan with groups keeps, with the tree of their groups. `steps` counts the visits of rows
/// and groups.
///
/// Want of memory is the only refusal.
pub fn build<L: Ledger>(
    alloc: Global,
    plan: Plan,
    table: &Table,
    steps: &mut Steps<L>,
) -> Result<LiveTree, Memory>
    requires { IsGroupedPlan table.now.schema.columns plan }
    ensures { (opening : Opening) → IfOk result (λ live. StandsTree live (side_of plan opening table.now)) }
{
    let columns = columns_copied(alloc, table.schema().columns())?;
    let mut tree = PivotTree::make(alloc, table.schema().columns(), &plan)?;
    let mut rows = Rows::new(alloc);
    for i in 0..table.len() {
        keep_at(alloc, &plan, table, i, &mut tree, &mut rows, steps)?;
    }
    Ok(LiveTree::of(columns, plan, rows, tree))
}

/// Puts the row at a place of the table in, where the plan keeps it.
fn keep_at<L: Ledger>(
    alloc: Global,
    plan: &Plan,
    table: &Table,
    i: usize,
    tree: &mut PivotTree,
    rows: &mut Rows,
    steps: &mut Steps<L>,
) -> Result<(), Memory>
    requires fits { IsGroupedPlan table.now.schema.columns plan.now }
    requires within { i < length table.now.store.pairs }
    requires tree { IsTreeOf table.now.schema.columns plan.now tree.old (pairs_of rows.old.entries) }
    requires rows { pairs_of rows.old.entries ≡ kept plan.now (take i table.now.store.pairs) }
    ensures tree { OnOk result (IsTreeOf table.now.schema.columns plan.now tree.new (pairs_of rows.new.entries)) }
    ensures rows { OnOk result (pairs_of rows.new.entries ≡ kept plan.now (take (i + 1) table.now.store.pairs)) }
{
    let _count = table.len();
    match table.at(i, steps) {
        Some((key, row)) => keep(alloc, plan, key, row, tree, rows, steps),
        None => Ok(()),
    }
}

/// Puts a row of the table in, where the plan keeps it.
fn keep<L: Ledger>(
    alloc: Global,
    plan: &Plan,
    key: &Cell,
    row: &Row,
    tree: &mut PivotTree,
    rows: &mut Rows,
    steps: &mut Steps<L>,
) -> Result<(), Memory>
    requires { (columns : List ColumnData) × IsTreeOf columns plan.now tree.old (pairs_of rows.old.entries) × CanAddRow columns plan.now (pairs_of rows.old.entries) (full_pair plan.now (pair_of key.now row.now)) }
    ensures tree { (columns : List ColumnData) → IsTreeOf columns plan.now tree.old (pairs_of rows.old.entries) → CanAddRow columns plan.now (pairs_of rows.old.entries) (full_pair plan.now (pair_of key.now row.now))
        → OnOk result (IsTreeOf columns plan.now tree.new (pairs_of rows.new.entries)) }
    ensures rows { OnOk result (pairs_of rows.new.entries ≡ with_kept (pairs_of rows.old.entries) key.now (kept_of plan.now (Some row.now))) }
{
    let full = full_row(alloc, plan, row)?;
    if !keeps(&plan.filters, full.as_slice()) {
        return Ok(());
    }
    put(alloc, tree, rows, key.copy(alloc)?, full, steps)
}
