ghost use Rattle.std.specs.Prelude.{◌≡◌, ◌+◌, ◌<◌, OnOk, [], drop, length};
ghost use Rattle.std.specs.List.Sorted.{IsStrictlySortedBy};
ghost use Rattle.std.specs.Map.{keys_of};
ghost use Rattle.view_columns.specs.Headers.{under};
ghost use Rattle.view_types.specs.Keys.{key_order};
ghost use Rattle.flat_live.specs.Rows.{TellsNew, TellsOld};

use crate::live::FlatLive;
use crate::showing::stays;
use cell_core::{Copies, Memory};
use delta_core::{Touch, TouchedKeys};
use std::alloc::Global;

/// Notes each key of the old view under which something else is shown now.
pub(crate) fn compare_old(
    alloc: Global,
    was: &FlatLive,
    now: &FlatLive,
    touched: &mut TouchedKeys,
) -> Result<(), Memory>
    requires { touched.old ≡ [] }
    ensures { OnOk result (TellsOld (under was.now.columns was.now.plan) (under now.now.columns now.now.plan) was.now.rows now.now.rows was.now.rows touched.new) }
{
    let count = was.rows.len();
    for i in 0..count {
        note_old(alloc, was, now, count - 1 - i, touched)?;
    }
    Ok(())
}

/// Notes each key that only the new view has.
pub(crate) fn compare_new(
    alloc: Global,
    was: &FlatLive,
    now: &FlatLive,
    touched: &mut TouchedKeys,
) -> Result<(), Memory>
    requires { TellsOld (under was.now.columns was.now.plan) (under now.now.columns now.now.plan) was.now.rows now.now.rows was.now.rows touched.old }
    ensures tells { OnOk result (TellsNew (under was.now.columns was.now.plan) (under now.now.columns now.now.plan) was.now.rows now.now.rows now.now.rows touched.new) }
    ensures ascending { OnOk result (IsStrictlySortedBy key_order (keys_of touched.new)) }
{
    let count = now.rows.len();
    for i in 0..count {
        note_new(alloc, was, now, count - 1 - i, touched)?;
    }
    let _count = touched.entries().len();
    Ok(())
}

/// Notes a key of the old view, where what is shown of it differs.
fn note_old(
    alloc: Global,
    was: &FlatLive,
    now: &FlatLive,
    at: usize,
    touched: &mut TouchedKeys,
) -> Result<(), Memory>
    requires within { at < length was.now.rows }
    requires tells { TellsOld (under was.now.columns was.now.plan) (under now.now.columns now.now.plan) was.now.rows now.now.rows (drop (at + 1) was.now.rows) touched.old }
    ensures { OnOk result (TellsOld (under was.now.columns was.now.plan) (under now.now.columns now.now.plan) was.now.rows now.now.rows (drop at was.now.rows) touched.new) }
{
    let _count = was.rows.len();
    let Some(entry) = was.rows.at(at) else {
        return Ok(());
    };
    let other = now.rows.get(&entry.1.key);
    if stays(
        alloc,
        was.columns.as_slice(),
        &was.plan,
        Some(entry),
        now.columns.as_slice(),
        &now.plan,
        other,
    )? {
        return Ok(());
    }
    touched.add(entry.1.key.copy(alloc)?, Touch { was_shown: true })
}

/// Notes a key of the new view, where the old one doesn't have it.
fn note_new(
    alloc: Global,
    was: &FlatLive,
    now: &FlatLive,
    at: usize,
    touched: &mut TouchedKeys,
) -> Result<(), Memory>
    requires within { at < length now.now.rows }
    requires tells { TellsNew (under was.now.columns was.now.plan) (under now.now.columns now.now.plan) was.now.rows now.now.rows (drop (at + 1) now.now.rows) touched.old }
    ensures { OnOk result (TellsNew (under was.now.columns was.now.plan) (under now.now.columns now.now.plan) was.now.rows now.now.rows (drop at now.now.rows) touched.new) }
{
    let _count = now.rows.len();
    let Some(entry) = now.rows.at(at) else {
        return Ok(());
    };
    if was.rows.get(&entry.1.key).is_some() {
        return Ok(());
    }
    touched.add(entry.1.key.copy(alloc)?, Touch { was_shown: false })
}
