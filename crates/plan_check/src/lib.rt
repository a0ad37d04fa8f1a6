//! Tests of plans against a table's schema: which plan a written one is, or its first fault; and the type of each
//! expression.
//!
//! It stands on `plan_json`, whose `RawPlan` is a plan of its form, on `expr_parse` and `expr_spec` for the texts of
//! expressions, on `agg_core` for the types of aggregates, and on `json_rows` for the values of filters.
//! `specs/Plans.antt` says member by member what a plan is. Its callers may rely on this: `check` answers exactly
//! that, but for want of memory; `check_tree` answers the type that `expr_spec` gives a tree, takes no memory, and
//! numbers the tree's columns, so that `expr_eval` finds them.
#![tactic(auto)]

mod columns;
mod expressions;
mod fault;
mod filters;
mod kinds;
mod laws;
mod number;
mod plan;
mod refused;
mod sorts;
mod trees;
mod typing;

pub use expr_spec::{TreeCause, TreeRefused};
pub use laws::texts_are_read;
pub use plan::check;
pub use refused::{PlanFault, PlanRefused};
pub use trees::check_tree;
