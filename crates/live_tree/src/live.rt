use crate::rows::Rows;
use crate::settling::settle_each;
use cell_core::{Cell, Column, Memory, Path, Row, Steps};
use pivot_tree::PivotTree;
use plan_types::Plan;
use row_batch::RowChange;
use std::alloc::Global;
use std::marker::Model;
use std::mem;
use std::sync::ledger::Ledger;
use table_core::Table;
use view_columns::same_columns;

/// The kept rows of a view with groups by their keys, and the tree of their groups.
///
/// It has a copy of the table's columns, since its plan fits those.
#[derive(Drop)]
pub struct LiveTree {
    columns: Vec<Column>,
    plan: Plan,
    rows: Rows,
    tree: PivotTree,
}

impl Model for LiveTree {
    ghost use Rattle.std.specs.Coded.{codes};
    ghost use Rattle.plan_types.specs.contracts.tree.TreeNode as node;
    ghost use Rattle.table_core.specs.Lookups.{pairs_of};
    ghost use Rattle.live_tree.specs.Trees.{IsLiveTree, LiveTreeData};

    ghost Value = { LiveTreeData };

    ghost coded = { Prim.hlevel (codes, node.the_row.coded) };

    ghost view = { λ t. record { columns = t.columns.items; plan = t.plan; rows = pairs_of t.rows.entries } };

    ghost invariant = { λ t. IsLiveTree t.columns.items t.plan t.tree (pairs_of t.rows.entries) };
}

impl LiveTree {
    ghost use Rattle.std.specs.Prelude.{◌≡◌, ◌+◌, ◌*◌, ◌≤◌, ◌++◌, false, length, List, OnOk};
    ghost use Rattle.std.specs.List.{list_any};
    ghost use Rattle.std.specs.Option.{option_copied};
    ghost use Rattle.cell_core.specs.declared.cell.Cell.{Cell as CellData};
    ghost use Rattle.row_batch.specs.Changes.{row_at};
    ghost use Rattle.table_core.specs.Lookups.{pairs_of};
    ghost use Rattle.view_kept.specs.Steps.{IsStep, side_at};
    ghost use Rattle.view_spec.specs.Paths.{begins_with};
    ghost use Rattle.view_spec.specs.Steps.{PassesGroup};
    ghost use Rattle.view_spec.specs.Views.{Side};
    ghost use Rattle.pivot_tree.specs.Trees.{IsTreeOf};
    ghost use Rattle.group_show.specs.Plans.{IsGroupedPlan};
    ghost use Rattle.live_tree.specs.Rows.{paths_along};
    ghost use Rattle.live_tree.specs.Trees.{IsLiveTree, StandsTree};

    /// The rows with their tree.
    pub(crate) fn of(columns: Vec<Column>, plan: Plan, rows: Rows, tree: PivotTree) -> LiveTree
        requires { IsLiveTree columns.items plan tree (pairs_of rows.entries) }
        ensures columns { result.columns ≡ columns.items }
        ensures plan { result.plan ≡ plan }
        ensures rows { result.rows ≡ pairs_of rows.entries }
    {
        LiveTree {
            columns,
            plan,
            rows,
            tree,
        }
    }

    /// The columns that the plan fits.
    pub fn columns(&self) -> &[Column]
        ensures { result.now ≡ self.now.columns }
    {
        self.columns.as_slice()
    }

    /// The plan that it is a view by.
    pub fn plan(&self) -> &Plan
        ensures plan { result.now ≡ self.now.plan }
        ensures fits { IsGroupedPlan self.now.columns self.now.plan }
    {
        &self.plan
    }

    /// The groups of the kept rows.
    pub fn tree(&self) -> &PivotTree
        ensures { IsTreeOf self.now.columns self.now.plan result.now self.now.rows }
    {
        &self.tree
    }

    /// The kept row with that key, with the cells of the plan's expressions.
    pub fn row(&self, key: &Cell) -> Option<&Row>
        ensures { option_copied result ≡ row_at self.now.rows key.now }
    {
        self.rows.get(key)
    }

    /// Brings the rows to what the changes lead to, and adds to `paths` the group cells of each row that goes or comes.
    /// A change's row goes and comes even where it is as before, or where a later change names its key too.
    ///
    /// Want of memory is the only refusal, and after it the live tree is given up. As that counts too what no changes of
    /// its table have: a table with other columns, a new row that isn't one of them, and more than 65,536 rows.
    pub fn settle_all<L: Ledger>(
        &mut self,
        alloc: Global,
        table: &Table,
        changes: &[RowChange],
        paths: &mut Vec<Path>,
        steps: &mut Steps<L>,
    ) -> Result<(), Memory>
        ensures stands { (s : Side) → StandsTree self.old s → IsStep s changes.now table.now → OnOk result (StandsTree self.new (side_at s table.now)) }
        ensures passes { (s : Side) (path : List CellData) → StandsTree self.old s → IsStep s changes.now table.now
            → OnOk result (list_any (begins_with path) paths.new.items ≡ false → PassesGroup s changes.now path) }
        ensures paths { OnOk result (paths.new.items ≡ paths.old.items ++ paths_along self.old.plan self.old.rows changes.now) }
        ensures few { OnOk result (length paths.new.items ≤ length paths.old.items + 2 * length changes.now) }
        ensures columns { self.new.columns ≡ self.old.columns }
        ensures plan { self.new.plan ≡ self.old.plan }
        ensures steps { steps.new ≤ steps.old + length changes.now * (2 * (length self.old.plan.group_by + 1)) }
    {
        let _size = table.len();
        if !same_columns(self.columns.as_slice(), table.schema().columns()) {
            return Err(Memory);
        }
        // After want of memory a tree stands for nothing, so one of no rows is here until all changes were acted on.
        let none = PivotTree::make(alloc, self.columns.as_slice(), &self.plan)?;
        let mut tree = mem::replace(&mut self.tree, none);
        let mut rows = mem::replace(&mut self.rows, Rows::new(alloc));
        settle_each(
            alloc,
            self.columns.as_slice(),
            &self.plan,
            changes,
            &mut tree,
            &mut rows,
            paths,
            steps,
        )?;
        self.tree = tree;
        self.rows = rows;
        Ok(())
    }
}
