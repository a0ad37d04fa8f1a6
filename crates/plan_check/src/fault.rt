ghost use Rattle.std.specs.Prelude.{◌≡◌};
ghost use Rattle.cell_core.specs.declared.schema.Numbers.TheVariants.{One};
ghost use Rattle.plan_check.specs.Faults.{fault, found};
ghost use Rattle.plan_json.specs.declared.words.PlanCause.TheVariants as cause;

use crate::refused::PlanFault;
use cell_core::Numbers;
use plan_json::{PlanCause, PlanPart};

/// What a part of a plan is, or its first fault.
pub(crate) type Checked<T> = Result<T, PlanFault>;

/// The fault of item `i` of a member.
pub(crate) fn fault_at(part: PlanPart, cause: PlanCause, i: usize) -> PlanFault
    ensures { result ≡ fault part cause (One i) }
{
    PlanFault {
        part,
        cause,
        at: Numbers::One(i as u64),
    }
}

/// The fault of a member that has so many items.
pub(crate) fn too_many(part: PlanPart, count: usize) -> PlanFault
    ensures { result ≡ fault part cause.TooMany (One count) }
{
    fault_at(part, PlanCause::TooMany, count)
}

/// What was looked up, or why it is missed.
pub(crate) fn found<T>(option: Option<T>, why: PlanFault) -> Checked<T>
    ensures { result ≡ found why option }
{
    match option {
        Some(value) => Ok(value),
        None => Err(why),
    }
}
