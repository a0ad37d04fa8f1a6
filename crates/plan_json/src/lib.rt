//! Plans as JSON values (RFC 8259): read, before anything in them is judged, and written.
//!
//! It stands on `cell_core`, whose `Raw` is a JSON value. `specs/Reading.antt` says which plan a value is, and
//! `specs/Writing.antt` which value a plan is written as. Contracts see a `RawPlan` through `raw_plan_view` of
//! `specs/Plans.antt`, in which the value of a filter stands as its data. Its callers may rely on this: a value is
//! read exactly where it has the form of a plan, and a plan that was written is read back as it was. Want of memory is
//! the only other refusal. `PlanPart` and `PlanCause` are the words in which a plan is refused.
#![tactic(auto)]

mod forms;
mod laws;
mod named;
mod plan;
mod read;
mod refused;
mod words;
mod write;

pub use laws::plans_are_read_back;
pub use named::{NamedText, NamedTexts};
pub use plan::{RawFilter, RawFilters, RawPlan, RawSort, RawSorts};
pub use read::{plan_member, read_plan};
pub use refused::PlanFormRefused;
pub use words::{PlanCause, PlanPart};
pub use write::write_plan;
