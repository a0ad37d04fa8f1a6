ghost use Rattle.std.specs.Prelude.{◌≡◌, true, List, [], OnOk, IfOk};
ghost use Rattle.std.specs.Map.{keys_of};
ghost use Rattle.cell_core.specs.Cells.{cell_order};
ghost use Rattle.cell_core.specs.declared.schema.Column.{Column as ColumnData};
ghost use Rattle.std.specs.Option.{option_copied};
ghost use Rattle.cell_core.specs.declared.cell.Cell.{Cell as CellData};
ghost use Rattle.row_batch.specs.Batches.{pair_of};
ghost use Rattle.row_batch.specs.declared.batch.Pair.{Pair};
ghost use Rattle.plan_types.specs.declared.plan.Named.{Named as NamedData};
ghost use Rattle.plan_types.specs.declared.plan.Plan.{Plan as PlanData};
ghost use Rattle.view_spec.specs.Members.{members, within};
ghost use Rattle.view_spec.specs.Paths.{path_order};
ghost use Rattle.view_spec.specs.Places.{rows_value};
ghost use Rattle.pivot_tree.specs.Groups.{CanPut, HasRow, with_row, without_row};

use crate::count::{Counts, count_down, count_up};
use crate::group::Group;
use crate::split::{Splits, add_to_split, take_from_split};
use cell_core::{Cell, Cells, Copies, Memory, Path, Row, Value};
use plan_types::Named;
use std::alloc::Global;
use std::collections::BTreeMap;

/// What a tree has at a path: the aggregates of the path's members, over all and per split path, and how many members
/// go on with each value.
#[derive(Drop)]
pub struct Node {
    pub(crate) all: Group,
    pub(crate) splits: Splits,
    pub(crate) next: Counts,
}

impl Node {
    ghost use Rattle.pivot_tree.specs.Nodes.{IsNodeOf, StandsAt};
    ghost use Rattle.pivot_tree.specs.Columns.{is_used};
    ghost use Rattle.pivot_tree.specs.Trees.{IsNode, rows_of};
    ghost use Rattle.std.specs.List.Sorted.{IsStrictlySortedBy};
    ghost use Rattle.view_spec.specs.Kept.{by_key};

    /// A node without members.
    pub(crate) fn make(alloc: Global, used: &[Named]) -> Result<Node, Memory>
        ensures { IfOk result (λ node. (plan : PlanData) (path : List CellData) (rows : List Pair)
            → members plan rows path ≡ [] → IsNodeOf plan used.now path node rows) }
    {
        Ok(Node {
            all: Group::make(alloc, used)?,
            splits: BTreeMap::new(alloc),
            next: BTreeMap::new(alloc),
        })
    }

    /// Takes a member in. `next` is the value with which its path goes on, if it does.
    pub(crate) fn add(
        &mut self,
        alloc: Global,
        used: &[Named],
        split: &Path,
        next: Option<&Cell>,
        key: &Cell,
        row: &Row,
    ) -> Result<(), Memory>
        requires { (plan : PlanData) × (path : List CellData) × (rows : List Pair)
            × IsNodeOf plan used.now path self.old rows
            × IsStrictlySortedBy by_key rows × CanPut used.now rows (pair_of key.now row.now)
            × StandsAt plan path split.now (option_copied next) (pair_of key.now row.now) }
        ensures { OnOk result ((plan : PlanData) (path : List CellData) (rows : List Pair)
            → IsNodeOf plan used.now path self.old rows
            → IsStrictlySortedBy by_key rows → CanPut used.now rows (pair_of key.now row.now)
            → StandsAt plan path split.now (option_copied next.entry) (pair_of key.now row.now)
            → IsNodeOf plan used.now path self.new (with_row rows (pair_of key.now row.now))) }
    {
        self.all.add(key, row)?;
        add_to_split(alloc, &mut self.splits, used, split, key, row)?;
        if let Some(cell) = next {
            count_up(alloc, &mut self.next, cell)?;
        }
        Ok(())
    }

    /// Takes a member out again.
    pub(crate) fn take_off(&mut self, split: &Path, next: Option<&Cell>, key: &Cell, row: &Row)
        requires { (plan : PlanData) × (used : List NamedData) × (path : List CellData) × (rows : List Pair)
            × IsNodeOf plan used path self.old rows
            × HasRow rows (pair_of key.now row.now)
            × StandsAt plan path split.now (option_copied next) (pair_of key.now row.now) }
        ensures { (plan : PlanData) (used : List NamedData) (path : List CellData) (rows : List Pair)
            → IsNodeOf plan used path self.old rows
            → HasRow rows (pair_of key.now row.now)
            → StandsAt plan path split.now (option_copied next.entry) (pair_of key.now row.now)
            → IsNodeOf plan used path self.new (without_row rows (pair_of key.now row.now)) }
    {
        self.all.take_off(key, row);
        take_from_split(&mut self.splits, split, key, row);
        if let Some(cell) = next {
            count_down(&mut self.next, cell);
        }
    }

    /// A column's aggregate over the members of the path, or over those under split values; none where it is null. A
    /// column that the plan neither shows nor sorts by has no aggregate here.
    ///
    /// Want of memory is the only refusal.
    pub fn value(&self, split: Option<&Path>, column: usize) -> Result<Option<Value>, Memory>
        ensures { IfOk result (λ value. (columns : List ColumnData) (plan : PlanData) (path : List CellData) (rows : List Pair) → IsNode columns plan path self.now rows
            → is_used plan column ≡ true
            → value ≡ rows_value columns plan (rows_of plan (option_copied split.entry) (members plan rows path)) column) }
    {
        match split {
            Some(split) => self.split_value(split, column),
            None => self.all.value(column),
        }
    }

    fn split_value(&self, split: &Path, column: usize) -> Result<Option<Value>, Memory>
        ensures { IfOk result (λ value. (columns : List ColumnData) (plan : PlanData) (path : List CellData) (rows : List Pair) → IsNode columns plan path self.now rows
            → is_used plan column ≡ true
            → value ≡ rows_value columns plan (within plan split.now (members plan rows path)) column) }
    {
        if let Some(group) = self.splits.get(split) {
            return group.value(column);
        }
        // Nothing is split, or there are no members.
        if split.is_empty() && self.splits.is_empty() {
            return self.all.value(column);
        }
        Ok(self.all.value_of_none(column))
    }

    /// The values with which the paths of members go on, ascending.
    pub(crate) fn next_values(&self, alloc: Global) -> Result<Cells, Memory>
        ensures values { IfOk result (λ cells. cells ≡ keys_of self.now.next.entries) }
        ensures ascend { IsStrictlySortedBy cell_order (keys_of self.now.next.entries) }
    {
        let mut cells = Cells::new(alloc);
        for (cell, _) in &self.next {
            cells.push(cell.copy(alloc)?)?;
        }
        Ok(cells)
    }

    /// The split paths of members, ascending; none where nothing is split.
    pub(crate) fn split_paths(&self, alloc: Global) -> Result<Vec<Path>, Memory>
        ensures paths { IfOk result (λ paths. paths.items ≡ keys_of self.now.splits.entries) }
        ensures ascend { IsStrictlySortedBy path_order (keys_of self.now.splits.entries) }
    {
        let mut paths = Vec::new(alloc);
        for (path, _) in &self.splits {
            paths.push(path.copy(alloc)?)?;
        }
        Ok(paths)
    }
}
