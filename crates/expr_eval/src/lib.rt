//! The value of an expression tree on a row.
//!
//! It stands on `expr_spec`, whose `specs/Values.antt` says which cell a tree gives, and on `cal_units`
//! for the calendar. Its callers may rely on this: `eval` answers that cell, and want of memory, for a
//! text that is copied or joined, is the only refusal.
#![tactic(auto)]

mod calendar;
mod functions;
mod numbers;
mod operators;
mod texts;
mod tree_value;

pub use tree_value::eval;
