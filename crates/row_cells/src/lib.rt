//! What rows in every form of text share: the cells that numbers and texts are, the patch of a row, and the
//! causes against a row's cells and against too many rows.
//!
//! It stands on `cal_units` for dates and datetimes and on `row_batch` for patches and causes. Its callers
//! may rely on this: each call answers what the definition of its name gives. `specs/Rows.antt` says how rows
//! and keys are read one by one, for the crates above to cite.
#![tactic(auto)]

mod cells;
mod rows;

pub use cells::{CellRead, date_cell, integer_cell, millis_cell, moment_cell, words_cell};
pub use rows::{placed, placed_key, refused, too_many};
