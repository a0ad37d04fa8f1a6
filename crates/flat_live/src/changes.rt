ghost use Rattle.std.specs.Prelude.{◌≡◌, ◌+◌, ◌<◌, List, [], false, OnOk, drop, length};
ghost use Rattle.std.specs.List.Sorted.{IsStrictlySortedBy};
ghost use Rattle.std.specs.Map.{keys_of, lookup};
ghost use Rattle.delta_core.specs.Rows.{at_key};
ghost use Rattle.view_columns.specs.Headers.{under};
ghost use Rattle.view_types.specs.Keys.{key_order, same_key};
ghost use Rattle.view_types.specs.declared.key.ViewKey.{ViewKey as KeyData};
ghost use Rattle.live_list.specs.Live.{live_key};
ghost use Rattle.flat_live.specs.FlatRows.{FlatRow, NotesSplits};
ghost use Rattle.flat_live.specs.Rows.{IsSettled, settled, told};

use crate::rows::FlatRows;
use crate::settle::settle;
use cell_core::{Column, Copies, Memory};
use delta_core::Touched;
use key_map::KeyMap;
use plan_types::Plan;
use row_batch::RowChange;
use std::alloc::Global;
use view_types::ViewKey;

/// The keys of the changes that were met.
type Seen = KeyMap<bool>;

/// Brings the rows to what the changes lead to, and notes each key under which something else is shown then. Of the
/// changes at one key only the last is acted on. The header is noted where a split path came or went.
pub(crate) fn settle_all(
    alloc: Global,
    columns: &[Column],
    plan: &Plan,
    changes: &[RowChange],
    rows: &mut FlatRows,
    touched: &mut Touched,
) -> Result<(), Memory>
    requires empty { touched.old.keys ≡ [] }
    requires clear { touched.old.header ≡ false }
    ensures rows { (k : KeyData) → OnOk result (at_key live_key k rows.new ≡ settled plan.now rows.old changes.now k) }
    ensures touched { (k : KeyData) → OnOk result (lookup (same_key k) touched.new.keys ≡ told (under columns.now plan.now) (under columns.now plan.now) (at_key live_key k rows.old) (settled plan.now rows.old changes.now k)) }
    ensures ascending { OnOk result (IsStrictlySortedBy key_order (keys_of touched.new.keys)) }
    ensures splits { OnOk result (NotesSplits touched.old.header touched.new.header rows.old rows.new) }
{
    let mut seen = Seen::new(alloc);
    let count = changes.len();
    for i in 0..count {
        let at = count - 1 - i;
        settle_last(alloc, columns, plan, changes, at, &mut seen, rows, touched)?;
    }
    let _count = touched.keys.entries().len();
    Ok(())
}

/// Acts on a change, where no later one is at its key.
fn settle_last(
    alloc: Global,
    columns: &[Column],
    plan: &Plan,
    changes: &[RowChange],
    at: usize,
    seen: &mut Seen,
    rows: &mut FlatRows,
    touched: &mut Touched,
) -> Result<(), Memory>
    requires within { at < length changes.now }
    requires settled { (first : List FlatRow) × IsSettled plan.now (under columns.now plan.now) first (drop (at + 1) changes.now) seen.old rows.old touched.old.keys touched.old.header }
    ensures { (first : List FlatRow) → IsSettled plan.now (under columns.now plan.now) first (drop (at + 1) changes.now) seen.old rows.old touched.old.keys touched.old.header
        → OnOk result (IsSettled plan.now (under columns.now plan.now) first (drop at changes.now) seen.new rows.new touched.new.keys touched.new.header) }
{
    let change = &changes[at];
    let key = ViewKey::Row(change.key.copy(alloc)?);
    if seen.get(&key).is_some() {
        return Ok(());
    }
    seen.insert(key, true)?;
    settle(alloc, columns, plan, change, rows, touched)
}
