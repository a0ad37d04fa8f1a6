ghost use Rattle.std.specs.Ordering.{nat_cmp, on};
ghost use Rattle.std.proofs.lemmas.Cmp.{nat_cmp_total, on_total};
ghost use Rattle.std.proofs.Common.{ap};
ghost use Rattle.rank_list.specs.Exact.{IsExact-nat_cmp, IsExact-on};

use rank_list::{Placed, RankList, RankMap};
use std::alloc::Global;
use std::test::Fail;

#[derive(Debug, Drop)]
struct Number {
    value: u64,
}

impl Placed for Number {
    ghost order = { on (λ n. n.value) nat_cmp };

    ghost total = { on_total (λ n. n.value) nat_cmp_total };

    ghost exact = { IsExact-on (λ n. n.value) nat_cmp IsExact-nat_cmp (λ x y same. ap (λ v. record { value = v }) same) };

    fn before(&self, other: &Number) -> bool {
        self.value < other.value
    }
}

/// Puts a number in where it isn't there yet.
fn put(list: &mut RankList<Number>, value: u64) -> Result<(), Fail> {
    let number = Number { value };
    if list.place_of(&number).is_none() && list.insert(number).is_err() {
        return Err("memory".into());
    }
    Ok(())
}

fn list_of(alloc: Global, values: &[u64]) -> Result<RankList<Number>, Fail> {
    let mut list = match RankList::make(alloc) {
        Ok(list) => list,
        Err(refused) => return Err(refused.into()),
    };
    for value in values {
        put(&mut list, *value)?;
    }
    Ok(list)
}

fn value_at(list: &RankList<Number>, place: usize) -> Option<u64> {
    Some(list.at(place)?.value)
}

/// Whether the list has just these values, in this order.
fn holds(list: &RankList<Number>, values: &[u64]) -> bool {
    for (place, value) in values.iter().enumerate() {
        if value_at(list, place) != Some(*value) {
            return false;
        }
    }
    list.len() == values.len()
}

fn takes(list: &mut RankList<Number>, value: u64) -> bool {
    list.take_out(&Number { value }).is_some()
}

#[test]
fn a_list_keeps_items_in_order(rt: HostRuntime) -> Result<(), Fail> {
    let list = list_of(rt.alloc(), &[50, 20, 90, 30, 40, 45, 10, 40])?;
    assert!(rt; holds(&list, &[10, 20, 30, 40, 45, 50, 90]));
    assert_eq!(rt; list.height(), 3);
    Ok(())
}

#[test]
fn items_go_out_once(rt: HostRuntime) -> Result<(), Fail> {
    let mut list = list_of(rt.alloc(), &[50, 20, 90, 30, 40])?;
    for (value, taken) in [(40, true), (40, false), (91, false), (20, true)] {
        assert_eq!(rt; takes(&mut list, value), taken, "{value}");
    }
    assert!(rt; holds(&list, &[30, 50, 90]));
    Ok(())
}

fn put_at(map: &mut RankMap<Number, u64>, place: u64, value: u64) -> Result<(), Fail> {
    let place = Number { value: place };
    if map.place_of(&place).is_none() && map.insert(place, value).is_err() {
        return Err("memory".into());
    }
    Ok(())
}

/// The value of the one entry in a window.
fn value_in(map: &RankMap<Number, u64>, from: usize, to: usize) -> Result<Option<u64>, Fail> {
    let entries = map.window(from, to)?;
    Ok(match entries.as_slice() {
        [entry] => Some(entry.1),
        _ => None,
    })
}

#[test]
fn a_map_keeps_entries_in_order(rt: HostRuntime) -> Result<(), Fail> {
    let mut map = RankMap::new(rt.alloc());
    for (place, value) in [(30, 3), (10, 1), (20, 2)] {
        put_at(&mut map, place, value)?;
    }
    assert_eq!(rt; value_in(&map, 1, 2)?, Some(2));
    Ok(())
}
