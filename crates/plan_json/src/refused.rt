use plain_data::Memory;
use std::error::Error;
use std::fmt;

/// Why a JSON value was not read as a plan.
#[derive(Clone, Copy, Debug, Drop, PartialEq, Eq)]
pub enum PlanFormRefused {
    /// The value is no object, has an unknown member, or a member is not of its form.
    Form,
    /// Memory was wanted and not given.
    Memory,
}

impl fmt::Display for PlanFormRefused {
    fn fmt<W: fmt::Write>(&self, f: &mut fmt::Formatter<W>) -> fmt::Result {
        f.write_str(match self {
            PlanFormRefused::Form => "no object of a plan's members",
            PlanFormRefused::Memory => "out of memory",
        })
    }
}

impl Error for PlanFormRefused {}

impl From<Memory> for PlanFormRefused {
    ghost use Rattle.std.specs.Prelude.{◌≡◌};
    ghost use Rattle.plan_json.specs.declared.refused.PlanFormRefused.TheVariants as refused;

    ghost from_gives = { λ _ e. e ≡ refused.Memory };

    fn from(_refused: Memory) -> PlanFormRefused {
        PlanFormRefused::Memory
    }
}
