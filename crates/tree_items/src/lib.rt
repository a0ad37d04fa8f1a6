//! A `Box` and a `Vec` for types that lead back to themselves.
//!
//! It stands on the standard library alone. Its callers may rely on this: contracts see a `Boxed` as its value and an
//! `Items` as the list of its elements, so that a tree made of them is plain data in a clause, and two of them are
//! equal exactly where they hold the same; what is lent for change by `get_mut` or `as_mut_slice` is written back.
#![tactic(auto)]

mod boxed;
mod items;

pub use boxed::Boxed;
pub use items::Items;
