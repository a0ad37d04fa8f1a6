ghost use Rattle.std.specs.Prelude.{◌≡◌, IfOk};
ghost use Rattle.cell_core.specs.RawViews.{raw_view};
ghost use Rattle.plan_json.specs.Plans.{raw_plan_view};
ghost use Rattle.plan_check.specs.Plans.{checked};
ghost use Rattle.hub_spec.specs.Plans.{plan_asked, plan_checked};

use crate::refused;
use cell_core::{Memory, Raw, Schema};
use frame_types::Refusal;
use plan_check::{PlanRefused, check};
use plan_json::{PlanFormRefused, RawPlan, read_plan};
use plan_types::Plan;
use std::alloc::Global;

/// The plan that a value stands for on a table of that schema, or why there is none. Want of memory is the only other
/// refusal.
pub fn plan_asked(
    alloc: Global,
    schema: &Schema,
    plan: &Raw,
) -> Result<Result<Plan, Refusal>, Memory>
    ensures { IfOk result (λ read. read ≡ plan_asked schema.now (raw_view plan.now)) }
{
    match read_plan(alloc, plan) {
        Ok(raw) => checked(alloc, schema, &raw),
        Err(PlanFormRefused::Form) => Ok(Err(refused::plan_form())),
        Err(PlanFormRefused::Memory) => Err(Memory),
    }
}

fn checked(alloc: Global, schema: &Schema, raw: &RawPlan) -> Result<Result<Plan, Refusal>, Memory>
    ensures { IfOk result (λ read. read ≡ plan_checked (checked schema.now (raw_plan_view raw.now))) }
{
    match check(alloc, schema, raw) {
        Ok(plan) => Ok(Ok(plan)),
        Err(PlanRefused::Bad { part, cause, at }) => Ok(Err(refused::bad_plan(part, cause, at))),
        Err(PlanRefused::Memory) => Err(Memory),
    }
}
