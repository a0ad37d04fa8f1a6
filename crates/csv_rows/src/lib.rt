//! Rows of a table, read from a text of CSV: comma, double quotes, a first record that names columns.
//!
//! It stands on the crate `csv`, whose records of a text it takes as they are, and on `row_cells`.
//! `specs/Reading.antt` says what rows a text stands for, or the first cause against it. Callers may rely on
//! this: the answer is that one, but for want of memory, and what was read is a batch that the table takes.
#![tactic(auto)]

mod fields;
mod numbers;
mod records;
mod rows;

pub use rows::csv_patches;
