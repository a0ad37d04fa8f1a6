//! Deltas of views: what a client that holds a view as it was needs to hold it as it is, and how it folds
//! that in.
//!
//! It stands on `view_types`, which it passes on. Its callers may rely on this: `fold` gives `folded` of
//! `specs/Folding.antt` or refuses by the first of its causes; a `DirtySet` answers for the union of all
//! keys that were joined since it was made or cleared; `DirtySet::make_delta` gives `delta_of` of
//! `specs/Deltas.antt` for that union. Which keys a step touched, who computes the steps says. `laws` says why
//! folding restores a view.
#![tactic(auto)]

mod checking;
mod delta;
mod dirty;
mod folding;
mod gap;
mod keys;
pub mod laws;
mod making;
#[cfg(test)]
mod tests;
mod touched;

pub use delta::{Delta, Mark, Put, Puts};
pub use dirty::{DirtySet, ShownNow};
pub use folding::{FoldRefused, Held, fold};
pub use keys::Keys;
pub use touched::{Touch, Touched, TouchedKeys};
pub use view_types::{
    Header, HeaderColumn, Shown, ShownCells, ShownRow, ShownRows, ShownType, ViewKey,
};
