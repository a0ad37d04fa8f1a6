//! Batches of row changes, what is against them, and what a batch makes of a table's rows.
//!
//! It stands on `cell_core` and `cal_units`. `specs/Batches.antt` says what rows are after a batch, for
//! each way in which a table keeps its rows, `specs/Checks.antt` which batches a schema takes, and
//! `specs/Changes.antt` which changes lead from rows to others; every crate above cites these
//! definitions. `PlainTable` is the plain, slow table whose contract is the first of them word for word. Its
//! callers may rely on this: no key stands twice, and a batch is taken whole or not at all; `check` answers the
//! first cause against a batch; the order of rows does not matter to a batch, and a checked batch keeps what every
//! table keeps.
#![tactic(auto)]

mod batch;
mod change;
mod checking;
mod draft;
mod laws;
mod refused;
mod rows;
mod table;

pub use batch::{Batch, MAX_BATCH, Pair, Patch, PatchCell, Patches};
pub use cell_core::MAX_INTEGER;
pub use change::{Changes, RowChange};
pub use checking::{check, is_shaped, key_of};
pub use laws::{checked_patches_law, order_law, table_law};
pub use refused::{BatchRefused, RowCause, RowsRefused};
pub use rows::{key_in, new_row, patched};
pub use table::PlainTable;
