ghost use Rattle.std.specs.Prelude.{◌≡◌, ◌++◌, ◌+◌, ◌<◌, All, IfOk, OnOk, drop, filter, length, map, take};
ghost use Rattle.row_batch.specs.Batches.{pair_of};
ghost use Rattle.view_spec.specs.Kept.{full_pair, full_row as whole_row, is_kept};

use cell_core::{Copies, Memory, Row, Steps};
use expr_eval::eval;
use plan_types::Plan;
use row_batch::Pair;
use row_filter::keeps;
use std::alloc::Global;
use std::sync::ledger::Ledger;
use table_core::Table;

/// The rows that a plan keeps, with the cells of its expressions, in the table's own order. `steps` counts the visits
/// of rows.
pub fn kept_rows<L: Ledger>(
    alloc: Global,
    plan: &Plan,
    table: &Table,
    steps: &mut Steps<L>,
) -> Result<Vec<Pair>, Memory>
    ensures { IfOk result (λ rows. rows.items ≡ filter (is_kept plan.now) (map (full_pair plan.now) table.now.store.pairs)) }
{
    let mut rows = Vec::new(alloc);
    for i in 0..table.len() {
        keep_row(alloc, plan, table, i, &mut rows, steps)?;
    }
    Ok(rows)
}

/// Adds the row at a place, where it is kept.
fn keep_row<L: Ledger>(
    alloc: Global,
    plan: &Plan,
    table: &Table,
    i: usize,
    rows: &mut Vec<Pair>,
    steps: &mut Steps<L>,
) -> Result<(), Memory>
    requires { i < length table.now.store.pairs }
    ensures { OnOk result (rows.new.items ≡ rows.old.items ++ filter (is_kept plan.now) (map (full_pair plan.now) (take 1 (drop i table.now.store.pairs)))) }
{
    if let Some((key, row)) = table.at(i, steps) {
        let row = full_row(alloc, plan, row)?;
        if keeps(&plan.filters, row.as_slice()) {
            rows.push(Pair {
                key: key.copy(alloc)?,
                row,
            })?;
        }
    }
    Ok(())
}

/// A row's cells, and then those of the plan's expressions. Want of memory is the only refusal.
pub fn full_row(alloc: Global, plan: &Plan, row: &Row) -> Result<Row, Memory>
    ensures { IfOk result (λ full. full ≡ whole_row plan.now row.now) }
{
    let mut cells = row.copy(alloc)?;
    for expression in plan.expressions.as_slice() {
        cells.push(eval(alloc, &expression.tree, row)?)?;
    }
    Ok(cells)
}
