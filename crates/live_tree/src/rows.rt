ghost use Rattle.std.specs.Prelude.{◌≡◌, ◌+◌, ◌≤◌, List, OnOk, length};
ghost use Rattle.cell_core.specs.declared.schema.Column.{Column as ColumnData};
ghost use Rattle.plan_types.specs.declared.plan.Plan.{Plan as PlanData};
ghost use Rattle.row_batch.specs.Batches.{pair_of};
ghost use Rattle.table_core.specs.Lookups.{pairs_of};
ghost use Rattle.pivot_tree.specs.Groups.{with_row};
ghost use Rattle.pivot_tree.specs.Trees.{CanAddRow, IsTreeOf};

use cell_core::{Cell, Memory, Row, Steps};
use pivot_tree::PivotTree;
use std::alloc::Global;
use std::collections::BTreeMap;
use std::sync::ledger::Ledger;

/// The kept rows by their keys.
pub(crate) type Rows = BTreeMap<Cell, Row>;

/// Puts a row both into the tree and into the rows that it stands for.
pub(crate) fn put<L: Ledger>(
    alloc: Global,
    tree: &mut PivotTree,
    rows: &mut Rows,
    key: Cell,
    row: Row,
    steps: &mut Steps<L>,
) -> Result<(), Memory>
    requires { (columns : List ColumnData) × (plan : PlanData) × IsTreeOf columns plan tree.old (pairs_of rows.old.entries) × CanAddRow columns plan (pairs_of rows.old.entries) (pair_of key row) }
    ensures rows { OnOk result (pairs_of rows.new.entries ≡ with_row (pairs_of rows.old.entries) (pair_of key row)) }
    ensures tree { (columns : List ColumnData) (plan : PlanData) → IsTreeOf columns plan tree.old (pairs_of rows.old.entries) → CanAddRow columns plan (pairs_of rows.old.entries) (pair_of key row)
        → OnOk result (IsTreeOf columns plan tree.new (pairs_of rows.new.entries)) }
    ensures steps { (columns : List ColumnData) (plan : PlanData) → IsTreeOf columns plan tree.old (pairs_of rows.old.entries)
        → steps.new ≤ steps.old + (length plan.group_by + 1) }
{
    tree.add_row(alloc, &key, &row, steps)?;
    rows.insert(key, row)?;
    Ok(())
}
