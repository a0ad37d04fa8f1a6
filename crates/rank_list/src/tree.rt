//! A height-balanced binary tree (an AVL tree) with counts, which knows positions and, but for one walk, no order.
//! Contracts see a tree as its items in order, and its height.
ghost use Rattle.std.specs.Prelude.{◌≡◌, ◌+◌, ◌-◌, ◌^◌, ◌<◌, ◌≤◌, max, [], ◌∷◌, ◌++◌, length, map, take, drop, slice_get, insert, remove, MatchOption, IfOk, IfErr, OnOk, Some};
ghost use Rattle.std.specs.Map.{keys_of};
ghost use Rattle.std.specs.Option.{option_copied};
ghost use Rattle.std.specs.List.Sorted.{IsStrictlySortedBy};
ghost use Rattle.rank_list.specs.Parts.{ArePartsOf};
ghost use Rattle.rank_list.specs.Place.{place_in};
ghost use Rattle.rank_list.specs.Shape.{IsHeightFor, DifferByAtMost, IsHeightAfterRotation};

use crate::placed::Placed;
use plain_data::Memory;
use std::alloc::Global;
use std::marker::Model;
use std::mem;

/// A tree, whose root is a fork unless it is empty.
#[cycle(tree)]
#[derive(Drop)]
pub(crate) struct Tree<T> {
    root: Option<Box<Fork<T>>>,
}

/// An item with what stands before it and after it. The count is that of all these items.
#[cycle(tree)]
#[derive(Drop)]
pub(crate) struct Fork<T> {
    left: Tree<T>,
    item: T,
    right: Tree<T>,
    count: usize,
    height: usize,
}

impl<T> Model for Tree<T> {
    ghost use Rattle.std.specs.Prelude.{ℕ, List, length};

    ghost Value = { List T × ℕ };

    ghost use Rattle.rank_list.specs.Tree.{items_and_height, IsBalanced};

    ghost view = { λ tree. items_and_height tree.root };

    ghost invariant = { λ tree. IsBalanced tree.root };

    ghost size = { λ shape. length shape.0 };

    ghost use Rattle.std.proofs.Common.{arith, length-append};

    ghost size_decreases = { λ a h. Prim.grind (arith, length-append) };
}

/// A tree taken apart at its root. What stands beside the item in `middle` counts for nothing.
#[derive(Drop)]
pub(crate) struct Parts<T> {
    left: Tree<T>,
    middle: Box<Fork<T>>,
    right: Tree<T>,
}

/// What was taken out of a tree, as the item of a fork, and the tree that is left.
#[derive(Drop)]
pub(crate) struct Taken<T> {
    pub(crate) fork: Box<Fork<T>>,
    pub(crate) rest: Tree<T>,
}

impl<T: Drop> Fork<T> {
    /// A fork with nothing beside its item, or the item back where memory is wanted.
    pub(crate) fn leaf(alloc: Global, item: T) -> Result<Box<Fork<T>>, T>
        ensures ok { IfOk result (λ leaf. leaf.value.item ≡ item) }
        ensures handed_back { IfErr result (λ refused. refused ≡ item) }
    {
        let fork = Fork {
            left: Tree::empty(),
            item,
            right: Tree::empty(),
            count: 1,
            height: 1,
        };
        match Box::new(alloc, fork) {
            Ok(leaf) => Ok(leaf),
            Err(refused) => Err(refused.value.into_item()),
        }
    }

    pub(crate) fn into_item(self) -> T
        ensures { result ≡ self.item }
    {
        self.item
    }
}

impl<T> Tree<T> {
    pub(crate) fn empty() -> Tree<T>
        ensures { result ≡ ([], 0) }
    {
        Tree { root: None }
    }

    pub(crate) fn len(&self) -> usize
        ensures { result ≡ length self.now.0 }
    {
        match &self.root {
            None => 0,
            Some(fork) => fork.count,
        }
    }

    pub(crate) fn height(&self) -> usize
        ensures value { result ≡ self.now.1 }
        ensures suits { IsHeightFor self.now.0 self.now.1 }
    {
        match &self.root {
            None => 0,
            Some(fork) => fork.height,
        }
    }

    pub(crate) fn get(&self, place: usize) -> Option<&T>
        ensures { option_copied result ≡ slice_get self.now.0 place }
    {
        let Some(fork) = &self.root else {
            return None;
        };
        let before = fork.left.len();
        if place < before {
            return fork.left.get(place);
        }
        if place > before {
            return fork.right.get(place - before - 1);
        }
        Some(&fork.item)
    }

    /// Puts the items at positions from `from` up to and without `to` behind those that `found` has. What stands
    /// outside is passed by, so that the walk goes down along both ends and visits what lies between.
    pub(crate) fn collect<'t>(
        &'t self,
        from: usize,
        to: usize,
        found: &mut Vec<&'t T>,
    ) -> Result<(), Memory>
        ensures { OnOk result (map (λ x. x.now) found.new.items ≡ map (λ x. x.now) found.old.items ++ take (to - from) (drop from self.now.0)) }
    {
        let Some(fork) = &self.root else {
            return Ok(());
        };
        if from >= to {
            return Ok(());
        }
        let before = fork.left.len();
        fork.left.collect(from, to.min(before), found)?;
        put_within(&fork.item, before, from, to, found)?;
        let past = before + 1;
        let (from, to) = (from.saturating_sub(past), to.saturating_sub(past));
        fork.right.collect(from, to, found)?;
        Ok(())
    }
}

/// Puts the item at position `at` behind those that `found` has, where the position is from `from` up to and
/// without `to`.
fn put_within<'t, T>(
    item: &'t T,
    at: usize,
    from: usize,
    to: usize,
    found: &mut Vec<&'t T>,
) -> Result<(), Memory>
    ensures { OnOk result (map (λ x. x.now) found.new.items ≡ map (λ x. x.now) found.old.items ++ take (to - at - (from - at)) (drop (from - at) (item.now ∷ []))) }
{
    if from <= at && at < to {
        found.push(item)?;
    }
    Ok(())
}

impl<T: Placed> Tree<T> {
    /// How many items stand before `item`, found in one walk down, with one comparison at each level.
    #[tactic(auto, using(crate::proofs::Order::descent))]
    pub(crate) fn place(&self, item: &T) -> usize
        requires { IsStrictlySortedBy T.order self.now.0 }
        ensures { result ≡ place_in T.order self.now.0 item.now }
    {
        let Some(fork) = &self.root else {
            return 0;
        };
        if fork.item.before(item) {
            return fork.left.len() + 1 + fork.right.place(item);
        }
        fork.left.place(item)
    }
}

impl<P: Placed, V> Tree<(P, V)> {
    /// How many entries stand at places before `place`, found in one walk down, with one comparison at each level.
    #[tactic(auto, using(crate::proofs::Entries::keyed_descent))]
    pub(crate) fn entry_place(&self, place: &P) -> usize
        requires { IsStrictlySortedBy P.order (keys_of self.now.0) }
        ensures { result ≡ place_in P.order (keys_of self.now.0) place.now }
    {
        let Some(fork) = &self.root else {
            return 0;
        };
        if fork.item.0.before(place) {
            return fork.left.len() + 1 + fork.right.entry_place(place);
        }
        fork.left.entry_place(place)
    }
}

impl<T: Drop> Tree<T> {
    /// The tree with the item of `new` at `place`. It takes no memory.
    #[tactic(auto, using(crate::proofs::Seams::seams))]
    pub(crate) fn insert(self, place: usize, new: Box<Fork<T>>) -> Tree<T>
        requires within { place ≤ length self.0 }
        requires fits { length self.0 + 1 < 2 ^ 64 }
        ensures items { result.0 ≡ insert self.0 place new.value.item }
        ensures not_lower { self.1 ≤ result.1 }
        ensures at_most_one_higher { result.1 ≤ self.1 + 1 }
    {
        let Some(parts) = self.take_apart() else {
            return join(Tree::empty(), new, Tree::empty());
        };
        let before = parts.left.len();
        if place <= before {
            let left = parts.left.insert(place, new);
            return rebalance(left, parts.middle, parts.right);
        }
        let right = parts.right.insert(place - before - 1, new);
        rebalance(parts.left, parts.middle, right)
    }

    /// Takes out what is at `place`. It takes no memory.
    #[tactic(auto, using(crate::proofs::Seams::seams))]
    pub(crate) fn take_out(self, place: usize) -> Taken<T>
        requires within { place < length self.0 }
        ensures taken { slice_get self.0 place ≡ Some result.fork.value.item }
        ensures rest { result.rest.0 ≡ remove self.0 place }
        ensures not_higher { result.rest.1 ≤ self.1 }
        ensures at_most_one_lower { self.1 ≤ result.rest.1 + 1 }
    {
        let Some(parts) = self.take_apart() else {
            unreachable!()
        };
        let before = parts.left.len();
        if place < before {
            let Taken { fork, rest } = parts.left.take_out(place);
            let rest = rebalance(rest, parts.middle, parts.right);
            return Taken { fork, rest };
        }
        if place > before {
            let Taken { fork, rest } = parts.right.take_out(place - before - 1);
            let rest = rebalance(parts.left, parts.middle, rest);
            return Taken { fork, rest };
        }
        let fork = parts.middle;
        if parts.right.len() == 0 {
            return Taken {
                fork,
                rest: parts.left,
            };
        }
        let next = parts.right.take_out(0);
        let rest = rebalance(parts.left, next.fork, next.rest);
        Taken { fork, rest }
    }

    fn take_apart(self) -> Option<Parts<T>>
        ensures { MatchOption result (self ≡ ([], 0)) (λ parts. ArePartsOf parts self.0 self.1) }
    {
        let Tree {
            root: Some(mut middle),
        } = self
        else {
            return None;
        };
        let left = mem::replace(&mut middle.left, Tree::empty());
        let right = mem::replace(&mut middle.right, Tree::empty());
        Some(Parts {
            left,
            middle,
            right,
        })
    }
}

/// The tree of two level sides, with the item of `middle` between them.
#[tactic(auto, using(crate::proofs::Heights::height_below))]
fn join<T: Drop>(left: Tree<T>, mut middle: Box<Fork<T>>, right: Tree<T>) -> Tree<T>
    requires fits { length left.0 + 1 + length right.0 < 2 ^ 64 }
    requires level { DifferByAtMost 1 left.1 right.1 }
    ensures items { result.0 ≡ left.0 ++ middle.value.item ∷ right.0 }
    ensures height { result.1 ≡ max left.1 right.1 + 1 }
{
    let count = left.len() + 1 + right.len();
    let higher = left.height().max(right.height());
    let fork = &mut *middle;
    fork.left = left;
    fork.right = right;
    fork.count = count;
    fork.height = higher + 1;
    Tree { root: Some(middle) }
}

/// The same, with a rotation where one side is two levels higher than the other.
#[tactic(auto, using(crate::proofs::Heights::height_below))]
fn rebalance<T: Drop>(left: Tree<T>, middle: Box<Fork<T>>, right: Tree<T>) -> Tree<T>
    requires fits { length left.0 + 1 + length right.0 < 2 ^ 64 }
    requires nearly_level { DifferByAtMost 2 left.1 right.1 }
    ensures items { result.0 ≡ left.0 ++ middle.value.item ∷ right.0 }
    ensures height { IsHeightAfterRotation left.1 right.1 result.1 }
{
    let (left_height, right_height) = (left.height(), right.height());
    if left_height > right_height + 1 {
        return rotate_right(left, middle, right);
    }
    if right_height > left_height + 1 {
        return rotate_left(left, middle, right);
    }
    join(left, middle, right)
}

#[tactic(auto, using(crate::proofs::Heights::lengths))]
fn rotate_right<T: Drop>(left: Tree<T>, middle: Box<Fork<T>>, right: Tree<T>) -> Tree<T>
    requires fits { length left.0 + 1 + length right.0 < 2 ^ 64 }
    requires left_higher { left.1 ≡ right.1 + 2 }
    ensures items { result.0 ≡ left.0 ++ middle.value.item ∷ right.0 }
    ensures not_lower { left.1 ≤ result.1 }
    ensures at_most_one_higher { result.1 ≤ left.1 + 1 }
{
    let Some(outer) = left.take_apart() else {
        unreachable!()
    };
    if outer.left.height() >= outer.right.height() {
        let lower = join(outer.right, middle, right);
        return join(outer.left, outer.middle, lower);
    }
    let Some(inner) = outer.right.take_apart() else {
        unreachable!()
    };
    let before = join(outer.left, outer.middle, inner.left);
    let after = join(inner.right, middle, right);
    join(before, inner.middle, after)
}

#[tactic(auto, using(crate::proofs::Heights::lengths))]
fn rotate_left<T: Drop>(left: Tree<T>, middle: Box<Fork<T>>, right: Tree<T>) -> Tree<T>
    requires fits { length left.0 + 1 + length right.0 < 2 ^ 64 }
    requires right_higher { right.1 ≡ left.1 + 2 }
    ensures items { result.0 ≡ left.0 ++ middle.value.item ∷ right.0 }
    ensures not_lower { right.1 ≤ result.1 }
    ensures at_most_one_higher { result.1 ≤ right.1 + 1 }
{
    let Some(outer) = right.take_apart() else {
        unreachable!()
    };
    if outer.right.height() >= outer.left.height() {
        let lower = join(left, middle, outer.left);
        return join(lower, outer.middle, outer.right);
    }
    let Some(inner) = outer.left.take_apart() else {
        unreachable!()
    };
    let before = join(left, middle, inner.left);
    let after = join(inner.right, outer.middle, outer.right);
    join(before, inner.middle, after)
}
