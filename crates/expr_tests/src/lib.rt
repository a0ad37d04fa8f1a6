//! Tests of `agg_core`, `plan_types`, `expr_parse`, `plan_check` and `expr_eval` over their public calls: values
//! from outside, and each call that may want memory once with memory enough.
//!
//! It has no call of its own, and nothing stands on it.
#![tactic(auto)]

#[cfg(test)]
mod aggregates;
#[cfg(test)]
mod checking;
#[cfg(test)]
mod evaluation;
#[cfg(test)]
mod given;
#[cfg(test)]
mod parsing;
#[cfg(test)]
mod plans;
