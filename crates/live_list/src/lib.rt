//! The rows of a live view, by place and by key.
//!
//! A `LiveList` keeps the rows that a view shows: each once, in a balanced tree by place with positions, and beside it
//! the place of each key. It is generic in what a row keeps besides its place and its key. It stands on `rank_list`
//! for the tree, on `key_map` for the places by key, and on `place_order` for places and their order. Its callers may
//! rely on this: contracts see it as the list of its entries, whose places ascend strictly and whose keys all differ
//! (`IsLive`); after want of memory a list is as before; and `take`, `get`, `position` and `at` take no memory.
//!
//! What a call costs is no clause. A row is put in, taken out or found in a few walks down two balanced trees, and a
//! window in one walk and as many steps as it has rows.
#![tactic(auto)]

mod list;
mod place;

pub use list::{LiveList, LiveRow};
pub use place::{RowPlace, place_copied};
