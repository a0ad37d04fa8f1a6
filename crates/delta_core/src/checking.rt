ghost use Rattle.std.specs.Prelude.{◌≡◌, ◌<◌, ◌≤◌, ◌^◌, [], length, find, not, option_copied, IfOk, IfErr, OnOk};
ghost use Rattle.view_types.specs.declared.key.ViewKey.{ViewKey};
ghost use Rattle.delta_core.specs.Folding.{drops, fold_fault, is_same_mark, keys_put, RefusesFold};
ghost use Rattle.delta_core.specs.KeySets.{is_among, with_key, with_keys};
ghost use Rattle.delta_core.specs.Preparing.{found_among, kept_rows, others, past_after};

use crate::delta::{Delta, Mark, Put};
use crate::folding::{FoldRefused, Held};
use cell_core::{Copies, Memory};
use std::alloc::Global;
use std::collections::BTreeSet;
use view_types::{ShownRow, ViewKey};

pub(crate) type KeySet = BTreeSet<ViewKey>;

pub(crate) fn has(keys: &KeySet, key: &ViewKey) -> bool
    ensures { result ≡ is_among keys.now.keys key.now }
{
    keys.contains(key)
}

/// The keys that a delta removes or puts.
pub(crate) fn dropped_keys(alloc: Global, delta: &Delta) -> Result<KeySet, Memory>
    ensures { IfOk result (λ keys. (k : ViewKey) → is_among keys.keys k ≡ drops delta.now k) }
{
    let mut keys = KeySet::new(alloc);
    add_keys(alloc, &mut keys, delta.removed.as_slice())?;
    add_keys_put(alloc, &mut keys, delta.puts.as_slice())?;
    Ok(keys)
}

fn add_keys(alloc: Global, keys: &mut KeySet, more: &[ViewKey]) -> Result<(), Memory>
    ensures { OnOk result (keys.new.keys ≡ with_keys keys.old.keys more.now) }
{
    for key in more {
        add_key(alloc, keys, key)?;
    }
    Ok(())
}

fn add_keys_put(alloc: Global, keys: &mut KeySet, puts: &[Put]) -> Result<(), Memory>
    ensures { OnOk result (keys.new.keys ≡ with_keys keys.old.keys (keys_put puts.now)) }
{
    for put in puts {
        add_key(alloc, keys, &put.row.key)?;
    }
    Ok(())
}

fn add_key(alloc: Global, keys: &mut KeySet, key: &ViewKey) -> Result<(), Memory>
    ensures { OnOk result (keys.new.keys ≡ with_key keys.old.keys key.now) }
{
    keys.insert(key.copy(alloc)?)?;
    Ok(())
}

/// Checks the mark of a delta, then that each removed key is held, and then the positions of its puts. The answer
/// is how many held rows the delta leaves.
pub(crate) fn check_delta(
    alloc: Global,
    held: &Held,
    delta: &Delta,
    dropped: &KeySet,
) -> Result<usize, FoldRefused>
    requires { (k : ViewKey) → is_among dropped.now.keys k ≡ drops delta.now k }
    ensures ok { IfOk result (λ kept. fold_fault held.now delta.now ≡ None) }
    ensures kept { IfOk result (λ kept. kept ≡ length (kept_rows delta.now held.now.shown.rows)) }
    ensures few { IfOk result (λ kept. kept < 2 ^ 63) }
    ensures why { IfErr result (RefusesFold (fold_fault held.now delta.now)) }
{
    if !is_same(held.mark, delta.from) {
        return Err(FoldRefused::Gap {
            have: held.mark,
            got: delta.from,
        });
    }
    let rows = held.shown.rows.as_slice();
    let found = found_keys(alloc, rows, dropped)?;
    if let Some(key) = first_missing(delta.removed.as_slice(), &found) {
        return Err(FoldRefused::Absent(key.copy(alloc)?));
    }
    let kept = count_others(rows, dropped);
    match first_past(kept, delta.puts.as_slice()) {
        Some(position) => Err(FoldRefused::Past(position)),
        None => Ok(kept),
    }
}

fn is_same(a: Mark, b: Mark) -> bool
    ensures { result ≡ is_same_mark a b }
{
    a == b
}

/// Those of the keys that some row has.
fn found_keys(alloc: Global, rows: &[ShownRow], keys: &KeySet) -> Result<KeySet, Memory>
    ensures { IfOk result (λ found. found.keys ≡ found_among keys.now.keys [] rows.now) }
{
    let mut found = KeySet::new(alloc);
    for row in rows {
        if has(keys, &row.key) {
            add_key(alloc, &mut found, &row.key)?;
        }
    }
    Ok(found)
}

/// The first key that isn't in a set.
fn first_missing<'d>(keys: &'d [ViewKey], set: &KeySet) -> Option<&'d ViewKey>
    ensures { option_copied result ≡ find (λ k. not (is_among set.now.keys k)) keys.now }
{
    keys.iter().find(|key| !has(set, key))
}

/// How many rows have none of the keys.
fn count_others(rows: &[ShownRow], keys: &KeySet) -> usize
    ensures count { result ≡ length (others keys.now.keys rows.now) }
    ensures few { result < 2 ^ 63 }
{
    rows.iter().filter(|row| !has(keys, &row.key)).count()
}

/// The first position past the end of a list of so many rows, where each put adds one.
fn first_past(count: usize, puts: &[Put]) -> Option<u64>
    requires { count < 2 ^ 63 }
    ensures { result ≡ past_after count puts.now }
{
    let mut size = count as u64;
    for put in puts {
        if put.position > size {
            return Some(put.position);
        }
        size += 1;
    }
    None
}
