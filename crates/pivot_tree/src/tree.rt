ghost use Rattle.std.specs.Prelude.{◌≡◌, ◌+◌, ◌≤◌, List, [], ◌∷◌, ◌++◌, length, OnOk, IfOk};
ghost use Rattle.std.specs.List.{list_any};
ghost use Rattle.std.specs.List.Sorted.{IsStrictlySortedBy};
ghost use Rattle.std.specs.Option.{option_copied};
ghost use Rattle.cell_core.specs.Cells.{cell_order, same_cell};
ghost use Rattle.cell_core.specs.declared.cell.Cell.{Cell as CellData};
ghost use Rattle.cell_core.specs.declared.schema.Column.{Column as ColumnData};
ghost use Rattle.row_batch.specs.Batches.{pair_of};
ghost use Rattle.row_batch.specs.declared.batch.Pair.{Pair};
ghost use Rattle.plan_types.specs.declared.plan.Plan.{Plan as PlanData};
ghost use Rattle.view_spec.specs.Entries.{is_there};
ghost use Rattle.view_spec.specs.Members.{splits as splits_of};
ghost use Rattle.pivot_tree.specs.Groups.{HasRow, with_row, without_row};

use crate::level::{Nodes, add_below, take_below};
use crate::node::Node;
use crate::path::cells_of;
use crate::used::used_columns;
use cell_core::{Cell, Cells, Column, Memory, Path, Row, Steps};
use plan_types::{Named, Plan};
use std::alloc::Global;
use std::collections::BTreeMap;
use std::sync::ledger::Ledger;

/// The groups of a view's kept rows: the total, and a node at each path that some row's group cells begin with.
///
/// `IsTreeOf` says for which lists of kept rows it stands, ascending by key.
#[derive(Drop)]
pub struct PivotTree {
    group_by: Vec<usize>,
    split_by: Vec<usize>,
    used: Vec<Named>,
    total: Node,
    nodes: Nodes,
}

impl PivotTree {
    ghost use Rattle.pivot_tree.specs.Trees.{CanAddRow, FoundAt, IsTreeOf};

    /// A tree of no rows, for a plan over a schema's columns. Want of memory is the only refusal.
    pub fn make(alloc: Global, columns: &[Column], plan: &Plan) -> Result<PivotTree, Memory>
        ensures { IfOk result (λ tree. IsTreeOf columns.now plan.now tree []) }
    {
        let used = used_columns(alloc, columns, plan)?;
        Ok(PivotTree {
            group_by: plan.group_by.as_slice().to_vec(alloc)?,
            split_by: plan.split_by.as_slice().to_vec(alloc)?,
            total: Node::make(alloc, &used)?,
            used,
            nodes: BTreeMap::new(alloc),
        })
    }

    /// Puts a kept row in, with its expression cells: one visit for each group column, and one for the total.
    ///
    /// Want of memory is the only refusal, and after it the tree is given up.
    pub fn add_row<L: Ledger>(
        &mut self,
        alloc: Global,
        key: &Cell,
        row: &Row,
        steps: &mut Steps<L>,
    ) -> Result<(), Memory>
        requires { (columns : List ColumnData) × (plan : PlanData) × (rows : List Pair)
            × IsTreeOf columns plan self.old rows × CanAddRow columns plan rows (pair_of key.now row.now) }
        ensures stands { OnOk result ((columns : List ColumnData) (plan : PlanData) (rows : List Pair)
            → IsTreeOf columns plan self.old rows
            → CanAddRow columns plan rows (pair_of key.now row.now)
            → IsTreeOf columns plan self.new (with_row rows (pair_of key.now row.now))) }
        ensures steps { (columns : List ColumnData) (plan : PlanData) (rows : List Pair)
            → IsTreeOf columns plan self.old rows
            → OnOk result (steps.new ≡ steps.old + (length plan.group_by + 1)) }
        ensures at_most { (columns : List ColumnData) (plan : PlanData) (rows : List Pair)
            → IsTreeOf columns plan self.old rows
            → steps.new ≤ steps.old + (length plan.group_by + 1) }
    {
        let split = cells_of(alloc, row, &self.split_by)?;
        let group = cells_of(alloc, row, &self.group_by)?;
        steps.tick();
        self.total
            .add(alloc, &self.used, &split, group.get(0), key, row)?;
        add_below(
            alloc,
            &mut self.nodes,
            &self.used,
            &group,
            &split,
            key,
            row,
            steps,
        )
    }

    /// Takes a row off that is there: one visit for each group column, and one for the total.
    ///
    /// Want of memory is the only refusal, and after it the tree is given up.
    pub fn take_row<L: Ledger>(
        &mut self,
        alloc: Global,
        key: &Cell,
        row: &Row,
        steps: &mut Steps<L>,
    ) -> Result<(), Memory>
        requires { (columns : List ColumnData) × (plan : PlanData) × (rows : List Pair)
            × IsTreeOf columns plan self.old rows × HasRow rows (pair_of key.now row.now) }
        ensures stands { OnOk result ((columns : List ColumnData) (plan : PlanData) (rows : List Pair)
            → IsTreeOf columns plan self.old rows
            → HasRow rows (pair_of key.now row.now)
            → IsTreeOf columns plan self.new (without_row rows (pair_of key.now row.now))) }
        ensures steps { (columns : List ColumnData) (plan : PlanData) (rows : List Pair)
            → IsTreeOf columns plan self.old rows
            → OnOk result (steps.new ≡ steps.old + (length plan.group_by + 1)) }
        ensures at_most { (columns : List ColumnData) (plan : PlanData) (rows : List Pair)
            → IsTreeOf columns plan self.old rows
            → steps.new ≤ steps.old + (length plan.group_by + 1) }
    {
        let split = cells_of(alloc, row, &self.split_by)?;
        let group = cells_of(alloc, row, &self.group_by)?;
        steps.tick();
        self.total.take_off(&split, group.get(0), key, row);
        take_below(alloc, &mut self.nodes, &group, &split, key, row, steps)
    }

    /// The node at a path, or none where the view has no such path. It is one visit.
    pub fn node<L: Ledger>(&self, path: &Path, steps: &mut Steps<L>) -> Option<&Node>
        ensures found { (columns : List ColumnData) (plan : PlanData) (rows : List Pair)
            → IsTreeOf columns plan self.now rows
            → FoundAt columns plan rows (option_copied result) path.now }
        ensures steps { steps.new ≡ steps.old + 1 }
    {
        steps.tick();
        self.find(path)
    }

    /// The values with which the paths of a path's members go on, ascending. No visit is counted.
    pub fn children(&self, alloc: Global, path: &Path) -> Result<Cells, Memory>
        ensures ascend { IfOk result (λ cells. IsStrictlySortedBy cell_order cells) }
        ensures each { IfOk result (λ cells. (columns : List ColumnData) (plan : PlanData) (rows : List Pair) → IsTreeOf columns plan self.now rows
            → (c : CellData) → list_any (same_cell c) cells ≡ is_there plan rows (path.now ++ c ∷ [])) }
    {
        match self.find(path) {
            Some(node) => node.next_values(alloc),
            None => Ok(Cells::new(alloc)),
        }
    }

    /// The split paths of the kept rows, ascending; one empty path where nothing is split. No visit is counted.
    pub fn splits(&self, alloc: Global) -> Result<Vec<Path>, Memory>
        ensures { IfOk result (λ paths. (columns : List ColumnData) (plan : PlanData) (rows : List Pair) → IsTreeOf columns plan self.now rows
            → paths.items ≡ splits_of plan rows) }
    {
        if !self.split_by.is_empty() {
            return self.total.split_paths(alloc);
        }
        let mut paths = Vec::new(alloc);
        paths.push(Path::new(alloc))?;
        Ok(paths)
    }

    fn find(&self, path: &Path) -> Option<&Node>
        ensures { (columns : List ColumnData) (plan : PlanData) (rows : List Pair)
            → IsTreeOf columns plan self.now rows
            → FoundAt columns plan rows (option_copied result) path.now }
    {
        if path.is_empty() {
            return Some(&self.total);
        }
        self.nodes.get(path)
    }
}
