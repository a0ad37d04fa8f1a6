//! Rows and keys of a table, read from JSON values (RFC 8259).
//!
//! It stands on `serde_json` and `row_cells`. `specs/Reading.antt` says what rows and keys a value stands
//! for, or the first cause against it. Callers may rely on this: the answer is that one, but for want of
//! memory, and what was read is a batch that the table takes.
#![tactic(auto)]

mod across;
mod cells;
mod convert;
mod keys;
mod rows;

pub use cells::cell_of;
pub use convert::raw_of;
pub use keys::batch_keys;
pub use rows::batch_rows;
