ghost use Rattle.std.specs.Prelude.{◌≡◌, [], false, map, IfOk, OnOk};
ghost use Rattle.view_kept.specs.Steps.{IsOfTable, side_of, touched_between};
ghost use Rattle.view_spec.specs.Touching.{head_touched};
ghost use Rattle.view_spec.specs.Views.{Side};
ghost use Rattle.view_columns.specs.Headers.{under};
ghost use Rattle.flat_live.specs.Flat.{StandsFlat};
ghost use Rattle.flat_live.specs.Rows.{as_placed};
ghost use Rattle.plain_kept.specs.Plain.{StandsPlain};
ghost use Rattle.plain_kept.specs.Plans.{IsViewPlan};
ghost use Rattle.live_rows.specs.Live.{StandsLive};

use crate::building::is_flat;
use crate::live::LiveRows;
use cell_core::{Copies, Memory, Steps};
use delta_core::Touched;
use flat_live::FlatLive;
use plain_kept::{KeyedRows, KeyedView, PlainView, touched};
use plan_types::Plan;
use std::alloc::Global;
use std::sync::ledger::Ledger;
use table_core::Table;
use view_kept::KeptView;
use view_shape::OpenState;

/// The view of the same rows by another plan, after one that is kept by the changes, and what that touches.
pub(crate) fn after_flat<L: Ledger>(
    alloc: Global,
    view: &FlatLive,
    plan: Plan,
    opening: &OpenState,
    table: &Table,
    touched_now: &mut Touched,
    steps: &mut Steps<L>,
) -> Result<LiveRows, Memory>
    requires fit { IsViewPlan table.now.schema.columns plan }
    requires empty { touched_now.old.keys ≡ [] }
    requires clear { touched_now.old.header ≡ false }
    ensures stands { IfOk result (λ other. StandsLive other (side_of plan opening.now table.now)) }
    ensures keys { (s : Side) → StandsFlat view.now s → IsOfTable s table.now → OnOk result (touched_now.new.keys ≡ touched_between s (side_of plan opening.now table.now)) }
    ensures header { (s : Side) → StandsFlat view.now s → IsOfTable s table.now → OnOk result (touched_now.new.header ≡ head_touched s (side_of plan opening.now table.now)) }
{
    if is_flat(&plan) {
        let other = view.reshape(alloc, plan, opening, table, touched_now, steps)?;
        return Ok(LiveRows::Flat(other));
    }
    let was = keyed_of(alloc, view)?;
    let other = plain_kept::build(alloc, plan, opening, table, steps)?;
    *touched_now = touched(alloc, &was, other.keyed())?;
    Ok(LiveRows::Plain(other))
}

/// The view of the same rows by another plan, after one that is computed anew, and what that touches.
pub(crate) fn after_plain<L: Ledger>(
    alloc: Global,
    view: &PlainView,
    plan: Plan,
    opening: &OpenState,
    table: &Table,
    touched_now: &mut Touched,
    steps: &mut Steps<L>,
) -> Result<LiveRows, Memory>
    requires fit { IsViewPlan table.now.schema.columns plan }
    requires empty { touched_now.old.keys ≡ [] }
    requires clear { touched_now.old.header ≡ false }
    ensures stands { IfOk result (λ other. StandsLive other (side_of plan opening.now table.now)) }
    ensures keys { (s : Side) → StandsPlain view.now s → IsOfTable s table.now → OnOk result (touched_now.new.keys ≡ touched_between s (side_of plan opening.now table.now)) }
    ensures header { (s : Side) → StandsPlain view.now s → IsOfTable s table.now → OnOk result (touched_now.new.header ≡ head_touched s (side_of plan opening.now table.now)) }
{
    if !is_flat(&plan) {
        let other = view.reshape(alloc, plan, opening, table, touched_now, steps)?;
        return Ok(LiveRows::Plain(other));
    }
    let other = flat_live::build(alloc, plan, table, steps)?;
    let now = keyed_of(alloc, &other)?;
    *touched_now = touched(alloc, view.keyed(), &now)?;
    Ok(LiveRows::Flat(other))
}

/// What a view that is kept by the changes shows, asked by key.
fn keyed_of(alloc: Global, view: &FlatLive) -> Result<KeyedView, Memory>
    ensures header { IfOk result (λ keyed. keyed.header ≡ view.now.header) }
    ensures rows { IfOk result (λ keyed. keyed.rows ≡ map (as_placed (under view.now.columns view.now.plan)) view.now.rows) }
{
    let header = view.header.copy(alloc)?;
    let rows = KeyedRows::of(alloc, view.placed_rows(alloc)?)?;
    Ok(KeyedView { header, rows })
}
