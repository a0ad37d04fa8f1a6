//! Ordered lists and maps with positions.
//!
//! A `RankList` keeps items that all differ in ascending order, by the strict total order that their type states as a
//! `Placed`. A `RankMap` keeps values at places that all differ, in the order of the places. Both are height-balanced
//! binary trees whose nodes carry counts.
//!
//! They stand on `plain_data`, for the error for want of memory. Their callers may rely on this: contracts see a
//! `RankList` as the ascending list of its items and a `RankMap` as the list of its entries, ascending by place, and
//! a call answers the positions of exactly that list. An insert allocates once, and after want of memory the list or
//! the map is as before; a removal takes no memory.
//!
//! What a call costs is no clause. That the tree is balanced is an invariant of it, and `RankList::height` says that
//! it is never higher than `2 * log2(len + 1) + 1`. A look-up by position walks down the tree once, an insert and a
//! look-up of a position twice, a removal three times; a window of a map walks down along its two ends and visits
//! what lies between.
#![tactic(auto)]

mod list;
mod map;
mod placed;
mod tree;

pub use list::RankList;
pub use map::RankMap;
pub use placed::Placed;
