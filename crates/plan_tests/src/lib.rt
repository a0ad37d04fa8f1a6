//! Tests of `plan_check` and `plan_json` over their public calls: plans from their texts, with what they are refused for.
//!
//! It has no call of its own, and nothing stands on it.
#![tactic(auto)]

#[cfg(test)]
mod plans;
