//! Maps by the key of a view's row.
//!
//! A `KeyMap` is an ordered map whose keys are view keys. It stands on `view_types` for keys and their order, and on
//! `delta_core` for what stands under a key in a list. Its callers may rely on this: contracts see it as the list of
//! its entries and say what a look-up by `same_key` gives before and after each call, so that no caller speaks of the
//! order in which the entries stand; after want of memory a map is as before, and a removal takes none.
//!
//! `specs/Keyed.antt` has positions of keys in lists of any kind, and `proofs/Keyed.antt` what holds of them.
#![tactic(auto)]

mod map;

pub use map::KeyMap;
