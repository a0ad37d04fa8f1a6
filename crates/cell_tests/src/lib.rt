//! Tests of `plain_data`, `cal_units`, `value_core`, `cell_core`, `row_batch` and `row_cells` over their public
//! calls: values from outside, and each call that may want memory once with memory enough.
//!
//! It has no call of its own, and nothing stands on it.
#![tactic(auto)]

#[cfg(test)]
mod batches;
#[cfg(test)]
mod calendar;
#[cfg(test)]
mod cells;
#[cfg(test)]
mod read_cells;
#[cfg(test)]
mod schemas;
#[cfg(test)]
mod texts;
#[cfg(test)]
mod values;
