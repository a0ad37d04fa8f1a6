ghost use Rattle.std.specs.Prelude.{◌≡◌, ◌-◌, ◌↔◌, [], drop, length, map, take, insert, remove, slice_get, Contains, IsSome, IsOkAnd, IfOk, IfErr, IfSome, IfNone, OnOk, OnErr, OnSome, Some};
ghost use Rattle.std.specs.Map.{keys_of};
ghost use Rattle.std.specs.Option.{option_copied};
ghost use Rattle.std.specs.List.Sorted.{IsStrictlySortedBy};
ghost use Rattle.rank_list.specs.Place.{place_in};

use crate::placed::Placed;
use crate::tree::{Fork, Taken, Tree};
use plain_data::Memory;
use std::alloc::Global;
use std::marker::Model;
use std::mem;

/// Values at places that all differ, in ascending order of the places. Contracts see it as the list of its entries.
/// Positions count from 0.
#[derive(Drop)]
pub struct RankMap<P: Placed, V> {
    tree: Tree<(P, V)>,
    alloc: Global,
}

impl<P: Placed, V> Model for RankMap<P, V> {
    ghost use Rattle.std.specs.Prelude.{List};
    ghost use Rattle.std.specs.Coded.{coded_list, coded×};
    ghost use Rattle.std.specs.Map.{keys_of};
    ghost use Rattle.std.specs.List.Sorted.{IsStrictlySortedBy};

    ghost Value = { List (P × V) };

    ghost coded = { coded_list (coded× P.code V.code) };

    ghost view = { λ map. map.tree.0 };

    ghost invariant = { λ map. IsStrictlySortedBy P.order (keys_of map.tree.0) };
}

impl<P: Placed, V> RankMap<P, V> {
    /// The empty map, which keeps `alloc` for what is inserted. It takes no memory itself.
    #[tactic(auto, using(crate::proofs::Order::sorted_nil))]
    pub fn new(alloc: Global) -> RankMap<P, V>
        ensures { result ≡ [] }
    {
        RankMap {
            tree: Tree::empty(),
            alloc,
        }
    }

    /// How many entries there are.
    pub fn len(&self) -> usize
        ensures value { result ≡ length self.now }
        ensures ascending { IsStrictlySortedBy P.order (keys_of self.now) }
    {
        self.tree.len()
    }

    /// The entry at position `i`, or None past the end.
    pub fn at(&self, i: usize) -> Option<&(P, V)>
        ensures { option_copied result ≡ slice_get self.now i }
    {
        self.tree.get(i)
    }

    /// The entries at positions from `from` up to and without `to`, as far as there are any. It takes memory for the
    /// references alone.
    pub fn window(&self, from: usize, to: usize) -> Result<Vec<&(P, V)>, Memory>
        ensures { IfOk result (λ entries. map (λ e. e.now) entries.items ≡ take (to - from) (drop from self.now)) }
    {
        let mut entries = Vec::new(self.alloc);
        self.tree.collect(from, to, &mut entries)?;
        Ok(entries)
    }

    /// The position of the entry at `place`, or None where nothing stands there.
    #[tactic(auto, using(crate::proofs::Entries::keyed_presence))]
    pub fn place_of(&self, place: &P) -> Option<usize>
        ensures there { IsSome result ↔ Contains (keys_of self.now) place.now }
        ensures place { IfSome result (λ at. at ≡ place_in P.order (keys_of self.now) place.now) }
        ensures found { IfSome result (λ at. slice_get (keys_of self.now) at ≡ Some place.now) }
    {
        let at = self.tree.entry_place(place);
        match self.tree.get(at) {
            None => None,
            Some(found) if place.before(&found.0) => None,
            Some(_) => Some(at),
        }
    }
}

impl<P: Placed + Drop, V: Drop> RankMap<P, V> {
    /// Puts an entry into its place, and answers the position that it has then. It allocates once. After want of
    /// memory, as which a length past `usize::MAX` counts, the entry comes back and the map is as before.
    pub fn insert(&mut self, place: P, value: V) -> Result<usize, (Memory, (P, V))>
        requires absent { ¬ Contains (keys_of self.old) place }

        ensures ok { OnOk result (self.new ≡ insert self.old (place_in P.order (keys_of self.old) place) (place, value)) }
        ensures place { IfOk result (λ at. at ≡ place_in P.order (keys_of self.old) place) }
        ensures ascending { IsStrictlySortedBy P.order (keys_of self.new) }

        ensures err { OnErr result (self.new ≡ self.old) }
        ensures handed_back { IfErr result (λ refused. refused.1 ≡ (place, value)) }
    {
        if self.tree.len() == usize::MAX {
            return Err((Memory, (place, value)));
        }
        let at = self.tree.entry_place(&place);
        let leaf = match Fork::leaf(self.alloc, (place, value)) {
            Ok(leaf) => leaf,
            Err(entry) => return Err((Memory, entry)),
        };
        let tree = mem::replace(&mut self.tree, Tree::empty());
        self.tree = tree.insert(at, leaf);
        Ok(at)
    }

    /// Takes the entry at `place` out, or answers None where nothing stands there. The call takes no memory, and
    /// gives some back.
    #[tactic(auto, using(crate::proofs::Entries::keyed_removal))]
    pub fn take_out(&mut self, place: &P) -> Option<(P, V)>
        ensures there { IsSome result ↔ Contains (keys_of self.old) place.now }
        ensures taken { IfSome result (λ entry. slice_get self.old (place_in P.order (keys_of self.old) place.now) ≡ Some entry) }
        ensures at { IfSome result (λ entry. entry.0 ≡ place.now) }
        ensures rest { OnSome result (self.new ≡ remove self.old (place_in P.order (keys_of self.old) place.now)) }
        ensures absent { IfNone result (self.new ≡ self.old) }
        ensures ascending { IsStrictlySortedBy P.order (keys_of self.new) }
    {
        let at = self.place_of(place)?;
        let tree = mem::replace(&mut self.tree, Tree::empty());
        let Taken { fork, rest } = tree.take_out(at);
        self.tree = rest;
        Some(Box::into_inner(fork).into_item())
    }
}
