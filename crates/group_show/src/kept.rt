ghost use Rattle.std.specs.Prelude.{◌≡◌, ◌+◌, ◌<◌, IfOk, OnOk, length, take};
ghost use Rattle.view_spec.specs.Kept.{kept};
ghost use Rattle.pivot_tree.specs.Trees.{IsTreeOf};
ghost use Rattle.group_show.specs.Plans.{IsGroupedPlan};

use cell_core::{Memory, Steps};
use flat_show::full_row;
use pivot_tree::PivotTree;
use plan_types::Plan;
use row_filter::keeps;
use std::alloc::Global;
use std::sync::ledger::Ledger;
use table_core::Table;

/// The tree of the rows that a plan keeps, with the cells of its expressions. `steps` counts the visits of rows and
/// groups.
///
/// Want of memory is the only refusal.
pub fn kept_tree<L: Ledger>(
    alloc: Global,
    plan: &Plan,
    table: &Table,
    steps: &mut Steps<L>,
) -> Result<PivotTree, Memory>
    requires { IsGroupedPlan table.now.schema.columns plan.now }
    ensures { IfOk result (λ tree. IsTreeOf table.now.schema.columns plan.now tree (kept plan.now table.now.store.pairs)) }
{
    let mut tree = PivotTree::make(alloc, table.schema().columns(), plan)?;
    for i in 0..table.len() {
        keep_row(alloc, plan, table, i, &mut tree, steps)?;
    }
    Ok(tree)
}

/// Puts the row at a place of the table in, where the plan keeps it.
fn keep_row<L: Ledger>(
    alloc: Global,
    plan: &Plan,
    table: &Table,
    i: usize,
    tree: &mut PivotTree,
    steps: &mut Steps<L>,
) -> Result<(), Memory>
    requires fits { IsGroupedPlan table.now.schema.columns plan.now }
    requires within { i < length table.now.store.pairs }
    requires tree { IsTreeOf table.now.schema.columns plan.now tree.old (kept plan.now (take i table.now.store.pairs)) }
    ensures { OnOk result (IsTreeOf table.now.schema.columns plan.now tree.new (kept plan.now (take (i + 1) table.now.store.pairs))) }
{
    let _count = table.len();
    if let Some((key, row)) = table.at(i, steps) {
        let full = full_row(alloc, plan, row)?;
        if keeps(&plan.filters, full.as_slice()) {
            tree.add_row(alloc, key, &full, steps)?;
        }
    }
    Ok(())
}
