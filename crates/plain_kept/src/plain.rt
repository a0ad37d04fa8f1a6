ghost use Rattle.std.specs.Prelude.{◌≡◌, ◌-◌, IfOk, drop, map, take};
ghost use Rattle.view_kept.specs.Steps.{side_of};
ghost use Rattle.view_spec.specs.declared.placed.PlacedRow.{PlacedRow as PlacedData};
ghost use Rattle.plain_kept.specs.Plain.{StandsPlain};
ghost use Rattle.plain_kept.specs.Plans.{IsViewPlan};

use crate::keyed::{KeyedView, show_keyed};
use crate::touching::touched;
use cell_core::{Column, Copies, Listed, Memory, Steps};
use delta_core::{ShownNow, Touched};
use plan_types::Plan;
use row_batch::RowChange;
use std::alloc::Global;
use std::marker::Model;
use std::sync::ledger::Ledger;
use table_core::Table;
use view_columns::{columns_copied, same_columns};
use view_kept::KeptView;
use view_shape::OpenState;
use view_spec::PlacedRow;
use view_types::{Header, ShownRow, ShownRows, ViewKey};

/// A view, flat or with groups, that is computed anew at each step.
///
/// It has a copy of the table's columns, since its plan fits those.
#[derive(Drop)]
pub struct PlainView {
    columns: Vec<Column>,
    plan: Plan,
    opening: OpenState,
    shown: KeyedView,
}

impl Model for PlainView {
    ghost use Rattle.std.specs.Coded.{codes};
    ghost use Rattle.plan_types.specs.contracts.tree.TreeNode as node;
    ghost use Rattle.plain_kept.specs.Plain.{PlainData};
    ghost use Rattle.plain_kept.specs.Plans.{IsViewPlan};

    ghost Value = { PlainData };

    ghost coded = { Prim.hlevel (codes, node.the_row.coded) };

    ghost view = { λ v. record { columns = v.columns.items; plan = v.plan; opening = v.opening; shown = v.shown } };

    ghost invariant = { λ v. IsViewPlan v.columns.items v.plan };
}

impl PlainView {
    ghost use Rattle.std.specs.Prelude.{◌≡◌, [], false, IfOk, OnOk};
    ghost use Rattle.view_kept.specs.Steps.{IsOfTable, side_of, touched_between};
    ghost use Rattle.view_spec.specs.Touching.{head_touched};
    ghost use Rattle.view_spec.specs.Views.{Side};
    ghost use Rattle.plain_kept.specs.Plain.{StandsPlain};

    /// The plan that it is a view by.
    pub fn plan(&self) -> &Plan
        ensures { result.now ≡ self.now.plan }
    {
        &self.plan
    }

    /// What it shows.
    pub fn keyed(&self) -> &KeyedView
        ensures { result.now ≡ self.now.shown }
    {
        &self.shown
    }

    /// The view of the same rows by the same plan and another opening, and what that touches. This view stays as it is.
    ///
    /// Want of memory is the only refusal.
    pub fn reopened<L: Ledger>(
        &self,
        alloc: Global,
        opening: &OpenState,
        table: &Table,
        touched_now: &mut Touched,
        steps: &mut Steps<L>,
    ) -> Result<PlainView, Memory>
        requires empty { touched_now.old.keys ≡ [] }
        requires clear { touched_now.old.header ≡ false }
        ensures stands { (s : Side) → StandsPlain self.now s → IsOfTable s table.now → IfOk result (λ other. StandsPlain other (side_of s.plan opening.now table.now)) }
        ensures keys { (s : Side) → StandsPlain self.now s → IsOfTable s table.now → OnOk result (touched_now.new.keys ≡ touched_between s (side_of s.plan opening.now table.now)) }
        ensures header { (s : Side) → StandsPlain self.now s → IsOfTable s table.now → OnOk result (touched_now.new.header ≡ head_touched s (side_of s.plan opening.now table.now)) }
    {
        if !same_columns(self.columns.as_slice(), table.schema().columns()) {
            return Err(Memory);
        }
        let plan = self.plan.copy(alloc)?;
        self.reshape(alloc, plan, opening, table, touched_now, steps)
    }
}

impl ShownNow for PlainView {
    ghost use Rattle.plain_kept.specs.Plain.{shown_of};

    ghost shown = { shown_of };

    fn position(&self, key: &ViewKey) -> Option<usize> {
        let _shown = self.shown.rows.as_slice();
        self.shown.rows.position(key)
    }

    fn row(&self, alloc: Global, key: &ViewKey) -> Result<Option<ShownRow>, Memory> {
        match self.shown.rows.get(key) {
            Some(row) => Ok(Some(row.row.copy(alloc)?)),
            None => Ok(None),
        }
    }

    fn header(&self, alloc: Global) -> Result<Header, Memory> {
        self.shown.header.copy(alloc)
    }
}

impl KeptView for PlainView {
    ghost use Rattle.plain_kept.specs.Plain.{StandsPlain, counts_plain, fits_plain, shows_plain};

    ghost stands_for = { StandsPlain };

    ghost fits = { fits_plain };

    ghost counts = { counts_plain };

    fn len(&self) -> usize {
        self.shown.rows.as_slice().len()
    }

    fn window(&self, alloc: Global, from: u64, to: u64) -> Result<ShownRows, Memory> {
        let rows = rows_between(alloc, self.shown.rows.as_slice(), from, to)?;
        Ok(ShownRows::from_listed(Listed::from_vec(rows)))
    }

    /// A table keeps its columns, so they are the view's. That is tested and no demand on the caller: a table with other
    /// columns, of which the view is none, is answered as want of memory.
    fn apply<L: Ledger>(
        &mut self,
        alloc: Global,
        table: &Table,
        _changes: &[RowChange],
        touched_now: &mut Touched,
        steps: &mut Steps<L>,
    ) -> Result<(), Memory> {
        if !same_columns(self.columns.as_slice(), table.schema().columns()) {
            return Err(Memory);
        }
        let now = show_keyed(alloc, &self.plan, &self.opening, table, steps)?;
        *touched_now = touched(alloc, &self.shown, &now)?;
        self.shown = now;
        Ok(())
    }

    fn reshape<L: Ledger>(
        &self,
        alloc: Global,
        plan: Plan,
        opening: &OpenState,
        table: &Table,
        touched_now: &mut Touched,
        steps: &mut Steps<L>,
    ) -> Result<PlainView, Memory> {
        let other = build(alloc, plan, opening, table, steps)?;
        *touched_now = touched(alloc, &self.shown, other.keyed())?;
        Ok(other)
    }

    ghost shows = { shows_plain };
}

/// The view of the table's rows by a plan and an opening. `steps` counts the visits of rows and groups.
///
/// Want of memory is the only refusal.
pub fn build<L: Ledger>(
    alloc: Global,
    plan: Plan,
    opening: &OpenState,
    table: &Table,
    steps: &mut Steps<L>,
) -> Result<PlainView, Memory>
    requires { IsViewPlan table.now.schema.columns plan }
    ensures { IfOk result (λ view. StandsPlain view (side_of plan opening.now table.now)) }
{
    let columns = columns_copied(alloc, table.schema().columns())?;
    let shown = show_keyed(alloc, &plan, opening, table, steps)?;
    Ok(PlainView {
        columns,
        plan,
        opening: opening.copy(alloc)?,
        shown,
    })
}

/// Copies of the rows at positions from `from` up to and without `to`.
fn rows_between(
    alloc: Global,
    rows: &[PlacedRow],
    from: u64,
    to: u64,
) -> Result<Vec<ShownRow>, Memory>
    ensures { IfOk result (λ copies. copies.items ≡ take (to - from) (drop from (map (λ (p : PlacedData). p.row) rows.now))) }
{
    let mut copies = Vec::new(alloc);
    let part = rows_at(rows, from, to);
    for row in part {
        copies.push(row.row.copy(alloc)?)?;
    }
    Ok(copies)
}

/// The rows at positions from `from` up to and without `to`, as far as there are any.
fn rows_at(rows: &[PlacedRow], from: u64, to: u64) -> &[PlacedRow]
    ensures { result.now ≡ take (to - from) (drop from rows.now) }
{
    let rest = &rows[(from as usize).min(rows.len())..];
    let count = to.saturating_sub(from) as usize;
    &rest[..count.min(rest.len())]
}
