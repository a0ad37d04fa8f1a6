use cell_core::{Memory, Numbers};
use plan_json::{PlanCause, PlanPart};
use std::error::Error;
use std::fmt;

/// The first fault of a plan: its member, what it is, and the place in the member.
#[derive(Clone, Copy, Debug, Drop, PartialEq, Eq)]
pub struct PlanFault {
    pub part: PlanPart,
    pub cause: PlanCause,
    pub at: Numbers,
}

/// Why there is no plan.
#[derive(Clone, Copy, Debug, Drop, PartialEq, Eq)]
pub enum PlanRefused {
    /// The plan's first fault.
    Bad {
        part: PlanPart,
        cause: PlanCause,
        at: Numbers,
    },
    /// Memory was wanted and not given.
    Memory,
}

impl fmt::Display for PlanRefused {
    fn fmt<W: fmt::Write>(&self, f: &mut fmt::Formatter<W>) -> fmt::Result {
        match self {
            PlanRefused::Bad { part, cause, at } => write!(f, "{part}: {cause}{at}"),
            PlanRefused::Memory => write!(f, "{}", Memory),
        }
    }
}

impl Error for PlanRefused {}

impl From<Memory> for PlanRefused {
    ghost use Rattle.std.specs.Prelude.{◌≡◌};
    ghost use Rattle.plan_check.specs.declared.refused.PlanRefused.TheVariants as refused;

    ghost from_gives = { λ want made. made ≡ refused.Memory };

    fn from(_refused: Memory) -> PlanRefused {
        PlanRefused::Memory
    }
}
