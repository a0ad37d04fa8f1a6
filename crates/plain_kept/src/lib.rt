//! Views of every kind, computed anew at each step.
//!
//! A `PlainView` is a `KeptView` that shows a table's rows from scratch and compares them with what was shown. It
//! stands on `flat_show` and `group_show` for what is shown, on `view_columns` for the columns that it keeps, on
//! `view_kept` for what a kept view promises, and on `key_map` for the positions of keys. Its callers may rely on what
//! `KeptView` says, and on `touched`, which tells of any two shown views which keys differ. It is the plain way to keep a
//! view: views that are kept by the changes alone have the same contract.
//!
//! What a call costs is no clause. A step visits each row of the table and each group that is shown, and a key is
//! looked up in a map.
#![tactic(auto)]

mod keyed;
mod plain;
mod touching;

pub use keyed::{KeyedRows, KeyedView, show_keyed};
pub use plain::{PlainView, build};
pub use touching::touched;
