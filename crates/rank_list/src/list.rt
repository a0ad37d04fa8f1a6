ghost use Rattle.std.specs.Prelude.{◌≡◌, ◌+◌, ◌/◌, ◌^◌, ◌≤◌, ◌↔◌, [], length, insert, remove, slice_get, Contains, IsTrue, IsSome, IsOkAnd, IfOk, IfErr, IfSome, IfNone, OnOk, OnErr, OnSome, Some};
ghost use Rattle.std.specs.Option.{option_copied};
ghost use Rattle.std.specs.List.Sorted.{IsStrictlySortedBy};
ghost use Rattle.rank_list.specs.Place.{place_in};

use crate::placed::Placed;
use crate::tree::{Fork, Taken, Tree};
use plain_data::Memory;
use std::alloc::Global;
use std::marker::Model;
use std::mem;

/// A list of items that all differ, in ascending order, which contracts see as that list. Positions count from 0.
#[derive(Drop)]
pub struct RankList<T: Placed> {
    tree: Tree<T>,
    alloc: Global,
}

impl<T: Placed> Model for RankList<T> {
    ghost use Rattle.std.specs.Prelude.{List};
    ghost use Rattle.std.specs.Coded.{coded_list};
    ghost use Rattle.std.specs.List.Sorted.{IsStrictlySortedBy};

    ghost Value = { List T };

    ghost coded = { coded_list T.code };

    ghost view = { λ list. list.tree.0 };

    ghost invariant = { λ list. IsStrictlySortedBy T.order list.tree.0 };
}

impl<T: Placed> RankList<T> {
    /// The empty list, which keeps `alloc` for what is inserted. It takes no memory itself.
    #[tactic(auto, using(crate::proofs::Order::sorted_nil))]
    pub fn make(alloc: Global) -> Result<RankList<T>, Memory>
        ensures { IsOkAnd result (λ list. list ≡ []) }
    {
        Ok(RankList {
            tree: Tree::empty(),
            alloc,
        })
    }

    /// How many items there are.
    pub fn len(&self) -> usize
        ensures value { result ≡ length self.now }
        ensures ascending { IsStrictlySortedBy T.order self.now }
    {
        self.tree.len()
    }

    /// Whether there is no item.
    pub fn is_empty(&self) -> bool
        ensures { IsTrue result ↔ (self.now ≡ []) }
    {
        self.len() == 0
    }

    /// How many nodes a walk down the tree visits at most: between `log2(len + 1)` and `2 * log2(len + 1) + 1`.
    pub fn height(&self) -> usize
        ensures not_too_high { 2 ^ (result / 2) ≤ length self.now + 1 }
        ensures high_enough { length self.now + 1 ≤ 2 ^ result }
    {
        self.tree.height()
    }

    /// The item at position `i`, or None past the end.
    pub fn at(&self, i: usize) -> Option<&T>
        ensures { option_copied result ≡ slice_get self.now i }
    {
        self.tree.get(i)
    }

    /// The position of `item`, or None where it isn't in the list.
    #[tactic(auto, using(crate::proofs::Order::presence))]
    pub fn place_of(&self, item: &T) -> Option<usize>
        ensures there { IsSome result ↔ Contains self.now item.now }
        ensures place { IfSome result (λ place. place ≡ place_in T.order self.now item.now) }
        ensures found { IfSome result (λ place. slice_get self.now place ≡ Some item.now) }
    {
        let place = self.tree.place(item);
        match self.tree.get(place) {
            None => None,
            Some(found) if item.before(found) => None,
            Some(_) => Some(place),
        }
    }
}

impl<T: Placed + Drop> RankList<T> {
    /// Puts `item` into its place, and answers the position that it has then. It allocates once. After want of
    /// memory, as which a length past `usize::MAX` counts, the item comes back and the list is as before.
    pub fn insert(&mut self, item: T) -> Result<usize, (Memory, T)>
        requires absent { ¬ Contains self.old item }

        ensures ok { OnOk result (self.new ≡ insert self.old (place_in T.order self.old item) item) }
        ensures place { IfOk result (λ place. place ≡ place_in T.order self.old item) }
        ensures found { IfOk result (λ place. slice_get self.new place ≡ Some item) }
        ensures ascending { IsStrictlySortedBy T.order self.new }

        ensures err { OnErr result (self.new ≡ self.old) }
        ensures handed_back { IfErr result (λ refused. refused.1 ≡ item) }
    {
        if self.tree.len() == usize::MAX {
            return Err((Memory, item));
        }
        let place = self.tree.place(&item);
        let leaf = match Fork::leaf(self.alloc, item) {
            Ok(leaf) => leaf,
            Err(item) => return Err((Memory, item)),
        };
        let tree = mem::replace(&mut self.tree, Tree::empty());
        self.tree = tree.insert(place, leaf);
        Ok(place)
    }

    /// Takes `item` out, or answers None where it isn't in the list. The call takes no memory, and gives some back.
    #[tactic(auto, using(crate::proofs::Order::sorted_remove))]
    pub fn take_out(&mut self, item: &T) -> Option<T>
        ensures there { IsSome result ↔ Contains self.old item.now }
        ensures taken { IfSome result (λ taken. taken ≡ item.now) }
        ensures rest { OnSome result (self.new ≡ remove self.old (place_in T.order self.old item.now)) }
        ensures absent { IfNone result (self.new ≡ self.old) }
        ensures ascending { IsStrictlySortedBy T.order self.new }
    {
        let place = self.place_of(item)?;
        let tree = mem::replace(&mut self.tree, Tree::empty());
        let Taken { fork, rest } = tree.take_out(place);
        self.tree = rest;
        Some(Box::into_inner(fork).into_item())
    }
}
