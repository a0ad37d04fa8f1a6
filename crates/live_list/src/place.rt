ghost use Rattle.std.specs.Prelude.{◌≡◌, IfOk};
ghost use Rattle.place_order.specs.PlaceLaws.{place_order-exact, place_order-total};
ghost use Rattle.place_order.specs.Places.{place_order};

use cell_core::{Copies, Listed, Memory};
use place_order::{Place, Rank, RankValue};
use rank_list::Placed;
use std::alloc::Global;
use std::marker::Model;

/// The place of a row, which contracts see as its list of ranks.
#[derive(Debug, Drop)]
pub struct RowPlace {
    place: Place,
}

impl Model for RowPlace {
    ghost use Rattle.std.specs.Prelude.{List};
    ghost use Rattle.place_order.specs.declared.rank.Rank.{Rank};

    ghost Value = { List Rank };

    ghost view = { λ p. p.place };
}

impl RowPlace {
    /// The place of these ranks, with no copy made.
    pub fn new(place: Place) -> RowPlace
        ensures { result ≡ place }
    {
        RowPlace { place }
    }

    /// Its ranks.
    pub fn as_place(&self) -> &Place
        ensures { result.now ≡ self.now }
    {
        &self.place
    }
}

impl Placed for RowPlace {
    ghost order = { place_order };

    fn before(&self, other: &RowPlace) -> bool {
        self.place.cmp(&other.place).is_lt()
    }

    ghost total = { place_order-total };

    ghost exact = { place_order-exact };
}

impl Copies for RowPlace {
    /// An equal one, with no room to spare.
    fn copy(&self, alloc: Global) -> Result<RowPlace, Memory> {
        Ok(RowPlace {
            place: place_copied(alloc, &self.place)?,
        })
    }
}

/// An equal place, with no room to spare. Want of memory is the only refusal.
pub fn place_copied(alloc: Global, place: &Place) -> Result<Place, Memory>
    ensures { IfOk result (λ copy. copy ≡ place.now) }
{
    let ranks = place.as_slice();
    let mut copy = Vec::with_capacity(alloc, ranks.len())?;
    for rank in ranks {
        copy.push(copied(alloc, rank)?)?;
    }
    Ok(Listed::from_vec(copy))
}

fn copied(alloc: Global, rank: &Rank) -> Result<Rank, Memory>
    ensures { IfOk result (λ copy. copy ≡ rank.now) }
{
    Ok(match rank {
        Rank::Asc(value) => Rank::Asc(value_copied(alloc, value)?),
        Rank::Desc(value) => Rank::Desc(value_copied(alloc, value)?),
    })
}

fn value_copied(alloc: Global, value: &RankValue) -> Result<RankValue, Memory>
    ensures { IfOk result (λ copy. copy ≡ value.now) }
{
    match value {
        Some(value) => Ok(Some(value.copy(alloc)?)),
        None => Ok(None),
    }
}
