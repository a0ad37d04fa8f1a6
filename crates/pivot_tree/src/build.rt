ghost use Rattle.std.specs.Prelude.{◌≡◌, ◌+◌, ◌*◌, length, OnOk, IfOk};
ghost use Rattle.plain_data.specs.Sorting.{sorted_by};
ghost use Rattle.view_spec.specs.Kept.{by_key};
ghost use Rattle.pivot_tree.specs.Trees.{AreRows, IsTreeOf};

use crate::tree::PivotTree;
use cell_core::{Column, Memory, Steps};
use plan_types::Plan;
use row_batch::Pair;
use std::alloc::Global;
use std::sync::ledger::Ledger;

/// The tree of some kept rows, in whatever order they come. Want of memory is the only refusal.
pub fn tree_of<L: Ledger>(
    alloc: Global,
    columns: &[Column],
    plan: &Plan,
    pairs: &[Pair],
    steps: &mut Steps<L>,
) -> Result<PivotTree, Memory>
    requires { AreRows columns.now plan.now pairs.now }
    ensures tree { IfOk result (λ tree. IsTreeOf columns.now plan.now tree (sorted_by by_key pairs.now)) }
    ensures steps { OnOk result (steps.new ≡ steps.old + length pairs.now * (length plan.now.group_by + 1)) }
{
    let mut tree = PivotTree::make(alloc, columns, plan)?;
    for pair in pairs {
        tree.add_row(alloc, &pair.key, &pair.row, steps)?;
    }
    Ok(tree)
}
