//! The columns that a view shows, under each split path: their texts, their types and what is put under them.
//!
//! It stands on `view_spec` for what a column's text and type are, and on `cal_units` for dates. Its callers may rely on
//! this: a column is asked for by its number, first the schema's columns and then the plan's expressions; the text of a
//! column under a split path is `path_text` of the definitions, by which the columns of one header are told apart where
//! their names differ and the split values are of their columns' types (`texts_are_told` of `view_spec`); and
//! `header_of` is the header of the definitions where the columns under each split path were made by
//! `split_columns`. Want of memory is the only refusal. A view that keeps the columns that its plan fits has copies of
//! them (`columns_copied`), and tells whether a table's are these (`same_columns`).
#![tactic(auto)]

mod columns;
mod copies;
mod headers;
mod texts;
mod values;

pub use columns::{aggregate_of, column_kind, column_name, shown_type_of};
pub use copies::{columns_copied, same_columns};
pub use headers::{SplitColumns, columns_under, header_of, split_columns};
pub use texts::path_text;
pub use values::put_value;
