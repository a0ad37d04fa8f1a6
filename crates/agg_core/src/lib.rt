//! Aggregates: what a group of rows shows of a column, kept while rows come and go.
//!
//! It stands on `cell_core`, `value_core` and `plan_types`. `aggregate` of `specs/Aggregates.antt` says what
//! each of the fourteen names is of a list of cells, which stand in the order of row keys. An `AnyAggregate`
//! keeps one of them, chosen by its name when it is made: a count of the rows, a running sum, a bag of the cells with
//! their counts, or the whole rows by their keys.
//!
//! Its callers may rely on this: an aggregate that stands for some rows stands, after `add`, for these with the
//! new one, and after `take_off` for those without it, and its `value` is `aggregate` of their cells. After want of
//! memory it is as before. No sum wraps, since no sum is 2^69 or more away from 0 (`sums_are_small`), and a
//! mean is in its lowest terms (`fractions_are_lowest`).
#![tactic(auto)]

mod aggregate;
mod any;
mod bag;
mod bagged;
mod by_key;
mod end_row;
mod laws;
mod row_count;
mod show;
mod summed;
mod total;
mod types;
mod walk;

pub use aggregate::Aggregate;
pub use any::AnyAggregate;
pub use laws::{fractions_are_lowest, sums_are_small};
pub use types::{
    ResultType, aggregate_for, default_aggregate, is_numeric, of_none, result_type, takes,
};
