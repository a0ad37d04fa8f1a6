ghost use Rattle.std.specs.Prelude.{◌<◌};

use crate::spot::Spot;
use rank_list::RankList;
use std::alloc::{AllocError, Global};

/// The order in which numbers come.
#[derive(Clone, Copy, Debug, PartialEq, Eq)]
pub enum Spread {
    Ascending,
    Descending,
    /// Each number once where the length is a power of two.
    Shuffled,
}

impl Spread {
    fn number(self, i: u32, count: u32) -> u64
        requires { i < count }
    {
        match self {
            Spread::Ascending => u64::from(i),
            Spread::Descending => u64::from(count - 1 - i),
            Spread::Shuffled => u64::from(i) * 40503 % u64::from(count),
        }
    }
}

fn mixed(checksum: u64, next: u64) -> u64 {
    checksum.wrapping_mul(31).wrapping_add(next)
}

fn put(list: &mut RankList<Spot>, spot: Spot) -> Result<usize, AllocError> {
    match list.place_of(&spot) {
        Some(place) => Ok(place),
        None => list.insert(spot).map_err(|_| AllocError),
    }
}

fn fill(
    alloc: Global,
    list: &mut RankList<Spot>,
    count: u32,
    spread: Spread,
) -> Result<u64, AllocError> {
    let mut checksum = 0;
    for i in 0..count {
        let place = put(list, Spot::make(alloc, spread.number(i, count))?)?;
        checksum = mixed(checksum, place as u64);
    }
    Ok(checksum)
}

fn look(
    alloc: Global,
    list: &RankList<Spot>,
    count: u32,
    spread: Spread,
) -> Result<u64, AllocError> {
    let mut checksum = 0;
    for i in 0..count {
        let spot = Spot::make(alloc, spread.number(i, count))?;
        let Some(place) = list.place_of(&spot) else {
            continue;
        };
        let found = list.at(place).map_or(0, Spot::number);
        checksum = mixed(mixed(checksum, place as u64), found);
    }
    Ok(checksum)
}

fn clear(
    alloc: Global,
    list: &mut RankList<Spot>,
    count: u32,
    spread: Spread,
) -> Result<u64, AllocError> {
    let mut checksum = 0;
    for i in 0..count {
        let spot = Spot::make(alloc, spread.number(i, count))?;
        let taken = list.take_out(&spot);
        checksum = mixed(checksum, taken.map_or(0, |spot| spot.number()));
    }
    Ok(mixed(checksum, list.len() as u64))
}

/// Fills a list with `count` spots, looks each up and takes each out, and answers a checksum of what was answered.
pub fn churn(alloc: Global, count: u32, spread: Spread) -> Result<u64, AllocError> {
    let mut list = RankList::make(alloc).map_err(|_| AllocError)?;
    let filled = fill(alloc, &mut list, count, spread)?;
    let looked = look(alloc, &list, count, spread)?;
    let cleared = clear(alloc, &mut list, count, spread)?;
    Ok(mixed(mixed(filled, looked), cleared))
}
