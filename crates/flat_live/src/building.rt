ghost use Rattle.std.specs.Prelude.{◌+◌, ◌<◌, IfOk, OnOk, drop, length};
ghost use Rattle.view_spec.specs.Openings.{Opening};
ghost use Rattle.view_kept.specs.Steps.{side_of};
ghost use Rattle.flat_show.specs.Plans.{IsFlatPlan};
ghost use Rattle.flat_live.specs.Flat.{StandsFlat};
ghost use Rattle.flat_live.specs.Rows.{IsKeptOf};

use crate::header::header_over;
use crate::keep::keep;
use crate::live::FlatLive;
use crate::rows::FlatRows;
use cell_core::{Listed, Memory, Steps};
use plan_types::Plan;
use std::alloc::Global;
use std::sync::ledger::Ledger;
use table_core::Table;
use view_columns::columns_copied;

/// The view of the table's rows by a flat plan. `steps` counts the visits of rows.
///
/// Want of memory is the only refusal.
pub fn build<L: Ledger>(
    alloc: Global,
    plan: Plan,
    table: &Table,
    steps: &mut Steps<L>,
) -> Result<FlatLive, Memory>
    requires { IsFlatPlan table.now.schema.columns plan }
    ensures { (opening : Opening) → IfOk result (λ view. StandsFlat view (side_of plan opening table.now)) }
{
    let _size = table.len();
    let columns = columns_copied(alloc, table.schema().columns())?;
    let rows = all_rows(alloc, &plan, table, steps)?;
    let header = header_over(alloc, &columns, &plan, &rows)?;
    let _count = rows.len();
    Ok(FlatLive {
        columns: Listed::from_vec(columns),
        plan,
        header,
        rows,
    })
}

/// The rows of the table that the plan keeps.
fn all_rows<L: Ledger>(
    alloc: Global,
    plan: &Plan,
    table: &Table,
    steps: &mut Steps<L>,
) -> Result<FlatRows, Memory>
    ensures { IfOk result (λ rows. IsKeptOf plan.now table.now.store.pairs rows) }
{
    let mut rows = FlatRows::new(alloc);
    let count = table.len();
    for i in 0..count {
        keep_at(alloc, plan, table, count - 1 - i, &mut rows, steps)?;
    }
    Ok(rows)
}

/// Puts the row at a place of the table in, after those behind it.
fn keep_at<L: Ledger>(
    alloc: Global,
    plan: &Plan,
    table: &Table,
    at: usize,
    rows: &mut FlatRows,
    steps: &mut Steps<L>,
) -> Result<(), Memory>
    requires within { at < length table.now.store.pairs }
    requires kept { IsKeptOf plan.now (drop (at + 1) table.now.store.pairs) rows.old }
    ensures { OnOk result (IsKeptOf plan.now (drop at table.now.store.pairs) rows.new) }
{
    let _size = table.len();
    let mut splits_moved = false;
    match table.at(at, steps) {
        Some((key, row)) => keep(alloc, plan, key, row, rows, &mut splits_moved),
        None => Ok(()),
    }
}
