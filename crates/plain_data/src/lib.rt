//! The small types that every crate of the engine shares: a text and a list that contracts see as a
//! list, the error for want of memory, deep copies, and a counter of visits that contracts alone see.
//!
//! It stands on the standard library alone. Its callers may rely on this: contracts see a `Text` as
//! its bytes and a `Listed` as the list of its items, so that two of them are equal in a clause
//! exactly where they hold the same, whatever room they have.
#![tactic(auto)]

mod copying;
mod listed;
mod memory;
mod steps;
mod text;

pub use copying::Copies;
pub use listed::{Bytes, Listed, Texts};
pub use memory::Memory;
pub use steps::Steps;
pub use text::Text;
