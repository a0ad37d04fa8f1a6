ghost use Rattle.std.specs.Prelude.{◌≡◌, ◌-◌, [], cond, drop, length, insert, map, slice_get, take, IfOk, OnOk, OnErr, Some, None};
ghost use Rattle.std.specs.Map.{keys_of};
ghost use Rattle.std.specs.Option.{option_copied};
ghost use Rattle.delta_core.specs.Rows.{at_key};
ghost use Rattle.place_order.specs.Places.{place_order};
ghost use Rattle.rank_list.specs.Place.{place_in};
ghost use Rattle.view_types.specs.Keys.{same_key};
ghost use Rattle.view_types.specs.declared.key.ViewKey.{ViewKey as KeyData};
ghost use Rattle.key_map.specs.Keyed.{index_of};

use crate::place::RowPlace;
use cell_core::{Copies, Memory};
use key_map::KeyMap;
use rank_list::RankMap;
use std::alloc::Global;
use std::marker::Model;
use view_types::ViewKey;

/// A row of a live list: its key, and what is kept of it.
#[derive(Debug, Drop)]
pub struct LiveRow<V> {
    pub key: ViewKey,
    pub value: V,
}

/// Rows by place and by key. Contracts see it as the list of its entries, ascending by place. Positions count from 0.
#[derive(Drop)]
pub struct LiveList<V> {
    rows: RankMap<RowPlace, LiveRow<V>>,
    places: KeyMap<RowPlace>,
}

impl<V> Model for LiveList<V> {
    ghost use Rattle.std.specs.Prelude.{List};
    ghost use Rattle.place_order.specs.declared.rank.Rank.{Rank};
    ghost use Rattle.live_list.specs.declared.list.LiveRow.{LiveRow};
    ghost use Rattle.live_list.specs.Live.{IsIndexed};

    ghost Value = { List (List Rank × LiveRow V) };

    ghost view = { λ list. list.rows };

    ghost invariant = { λ list. IsIndexed list.rows list.places };
}

impl<V> LiveList<V> {
    ghost use Rattle.live_list.specs.Live.{IsLive, live_key};

    /// The empty list. It takes no memory.
    #[tactic(auto, using(crate::proofs::Indexed::indexes))]
    pub fn new(alloc: Global) -> LiveList<V>
        ensures { result ≡ [] }
    {
        LiveList {
            rows: RankMap::new(alloc),
            places: KeyMap::new(alloc),
        }
    }

    /// How many rows there are.
    pub fn len(&self) -> usize
        ensures value { result ≡ length self.now }
        ensures live { IsLive self.now }
    {
        let _places = &self.places;
        self.rows.len()
    }

    /// The entry at a position.
    pub fn at(&self, i: usize) -> Option<&(RowPlace, LiveRow<V>)>
        ensures { option_copied result ≡ slice_get self.now i }
    {
        self.rows.at(i)
    }

    /// The entries at positions from `from` up to and without `to`, as far as there are any. It takes memory for the
    /// references.
    pub fn window(&self, from: usize, to: usize) -> Result<Vec<&(RowPlace, LiveRow<V>)>, Memory>
        ensures { IfOk result (λ entries. map (λ e. e.now) entries.items ≡ take (to - from) (drop from self.now)) }
    {
        self.rows.window(from, to)
    }

    /// The position of a key.
    #[tactic(auto, using(crate::proofs::Indexed::indexes))]
    pub fn position(&self, key: &ViewKey) -> Option<usize>
        ensures { result ≡ index_of live_key key.now self.now }
    {
        let _count = self.rows.len();
        let place = self.places.get(key)?;
        self.rows.place_of(place)
    }

    /// The entry of a key.
    #[tactic(auto, using(crate::proofs::Indexed::indexes))]
    pub fn get(&self, key: &ViewKey) -> Option<&(RowPlace, LiveRow<V>)>
        ensures { option_copied result ≡ at_key live_key key.now self.now }
    {
        let position = self.position(key)?;
        self.rows.at(position)
    }
}

impl<V: Drop> LiveList<V> {
    ghost use Rattle.live_list.specs.Live.{live_key};

    /// Puts a row at its place. After want of memory, as which a place counts that is taken, the list is as before, and
    /// the row is gone.
    pub fn put(
        &mut self,
        alloc: Global,
        place: RowPlace,
        key: ViewKey,
        value: V,
    ) -> Result<(), Memory>
        requires new_key { at_key live_key key self.old ≡ None }
        ensures list { OnOk result (self.new ≡ insert self.old (place_in place_order (keys_of self.old) place) (place, record { key = key; value = value })) }
        ensures told { (k : KeyData) → OnOk result (at_key live_key k self.new ≡ cond (same_key key k) (Some (place, record { key = key; value = value })) (at_key live_key k self.old)) }
        ensures err { OnErr result (self.new ≡ self.old) }
    {
        if self.rows.place_of(&place).is_some() {
            return Err(Memory);
        }
        let key_copy = key.copy(alloc)?;
        let place_copy = place.copy(alloc)?;
        self.places.insert(key_copy, place_copy)?;
        match self.rows.insert(place, LiveRow { key, value }) {
            Ok(_) => Ok(()),
            Err((refused, (_, row))) => {
                drop(self.places.remove(&row.key));
                Err(refused)
            }
        }
    }

    /// Takes the row of a key out. It gives memory back.
    pub fn take(&mut self, key: &ViewKey) -> Option<(RowPlace, LiveRow<V>)>
        ensures taken { result ≡ at_key live_key key.now self.old }
        ensures told { (k : KeyData) → at_key live_key k self.new ≡ cond (same_key key.now k) None (at_key live_key k self.old) }
    {
        let _count = self.rows.len();
        let place = self.places.remove(key)?;
        self.rows.take_out(&place)
    }
}
