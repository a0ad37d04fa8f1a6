//! Tests of `rank_list` and `pivot_tree` over their public calls: values from outside, and each call that may want
//! memory once with memory enough, but `splits`, which the scripts of `examples/` run.
//!
//! It has no call of its own, and nothing stands on it.
#![tactic(auto)]

#[cfg(test)]
mod kept;
#[cfg(test)]
mod ranks;
#[cfg(test)]
mod trees;
