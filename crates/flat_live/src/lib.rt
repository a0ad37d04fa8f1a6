//! Flat views that are kept from step to step by the changes of the table's rows.
//!
//! A `FlatLive` is a `KeptView` that keeps of each row its split cells and the cells of the shown columns, in a
//! `LiveList`, and beside them how many rows have each split path; texts are made only where a row is shown or two rows
//! at one place are compared. A step acts on the last change at each key, from the last change to the first, so that a
//! key that was changed and changed back is not touched. The header is made anew where a split path came or went. It
//! stands on `live_list` for the rows, on `view_kept` for what a kept view promises, on `view_columns` for texts and the
//! header, and on `flat_show`, `row_filter` and `view_spec` for what is kept and shown of a row. Its callers may rely on
//! what `KeptView` says, for every flat plan: what is shown and what is touched is what the definitions say of the
//! table's rows, whatever came before.
//!
//! What a call costs is no clause. A step visits the rows of its changes alone, each in a few walks down balanced
//! trees, and goes over the split paths only where one came or went; `build` and `reshape` visit each row of the table.
#![tactic(auto)]

mod building;
mod changes;
mod comparing;
mod counts;
mod header;
mod keep;
mod live;
mod rows;
mod settle;
mod showing;

pub use building::build;
pub use live::FlatLive;
pub use rows::{FlatCells, FlatRows};
