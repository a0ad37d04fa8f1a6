//! The rows of a table, hashed by their keys.
//!
//! It stands on `row_batch`, whose `put_batch` says what rows are after a batch, and on `indexmap`. A batch is
//! taken in two parts: `Table::prepare` makes all room and all copies and leaves the rows as they are, and
//! `Table::apply` then takes no memory. Its callers may rely on this: after `apply` the rows are those of
//! `put_batch` in some order, and its changes lead from the old rows to the new ones; every table keeps what
//! `IsTable` says; a look-up counts one visit.
//!
//! A look-up is one in a hash map, whatever the number of rows. `prepare` takes time in proportion to the cells
//! of the batch's rows; where the batch clears the table, or the map has to grow, also to all rows of the table.
//! `apply` moves one row for each key that the batch names. These costs are no clause: nothing is claimed of
//! time or of how much memory a call takes.
#![tactic(auto)]

mod draft;
mod lookup;
mod table;

pub use table::{Prepared, Table};
