ghost use Rattle.std.specs.Prelude.{◌≡◌, IfOk};
ghost use Rattle.view_kept.specs.Steps.{side_of};
ghost use Rattle.view_spec.specs.Columns.{is_flat};
ghost use Rattle.plain_kept.specs.Plans.{IsViewPlan};
ghost use Rattle.live_rows.specs.Live.{StandsLive};

use crate::live::LiveRows;
use cell_core::{Memory, Steps};
use plan_types::Plan;
use std::alloc::Global;
use std::sync::ledger::Ledger;
use table_core::Table;
use view_shape::OpenState;

/// The rows of the view of a table's rows by a plan. `steps` counts the visits of rows and groups.
///
/// Want of memory is the only refusal.
pub fn build<L: Ledger>(
    alloc: Global,
    plan: Plan,
    opening: &OpenState,
    table: &Table,
    steps: &mut Steps<L>,
) -> Result<LiveRows, Memory>
    requires { IsViewPlan table.now.schema.columns plan }
    ensures { IfOk result (λ rows. StandsLive rows (side_of plan opening.now table.now)) }
{
    if is_flat(&plan) {
        Ok(LiveRows::Flat(flat_live::build(alloc, plan, table, steps)?))
    } else {
        let view = plain_kept::build(alloc, plan, opening, table, steps)?;
        Ok(LiveRows::Plain(view))
    }
}

/// Whether a view by a plan shows rows: whether it has no groups.
pub(crate) fn is_flat(plan: &Plan) -> bool
    ensures { result ≡ is_flat plan.now }
{
    plan.group_by.as_slice().is_empty()
}
