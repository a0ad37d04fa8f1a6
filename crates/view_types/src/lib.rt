//! What a view shows, as data: keys, headers, cells, rows.
//!
//! It stands on `cell_core`. Its callers may rely on this: the cells of a shown row ascend by
//! column text and no column stands twice, no key stands twice among shown rows, and keys have one
//! total order (`key_order_laws`). Rows and headers are `same` exactly where they are equal
//! (`same_rows_are_equal`). The lemmas behind those laws stand in `proofs/KeyOrder.antt` and
//! `proofs/SameRows.antt`. `proofs/PutCells.antt` has what a value makes of an ascending list that a
//! search puts it into, and `proofs/MapCopies.antt` what a map is that is copied entry by entry.
#![tactic(auto)]

mod key;
mod laws;
mod shown;

pub use key::ViewKey;
pub use laws::{key_order_laws, same_rows_are_equal};
pub use shown::{
    Header, HeaderColumn, Shown, ShownCells, ShownRow, ShownRows, ShownType, same_header,
};
