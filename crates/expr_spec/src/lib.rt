//! What the type and the value of an expression tree are, as definitions that the crates above cite.
//!
//! It stands on `plan_types`, `cell_core`, `row_batch` and `cal_units`. `specs/Typing.antt` says which
//! type a tree has against a schema's columns, or where its first fault is; `specs/Values.antt` which
//! cell a tree gives on a row. Its callers may rely on this law: a tree that was checked gives, on a row
//! that fits the columns, null or a cell of the tree's type and in range. No call takes memory.
#![tactic(auto)]

mod function;
mod laws;
mod refused;
mod units;

pub use function::Function;
pub use laws::{checked_value_laws, rounding_laws};
pub use refused::{TreeCause, TreeRefused};
pub use units::{date_unit_named, unit_named};
