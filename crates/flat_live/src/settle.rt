ghost use Rattle.std.specs.Prelude.{◌≡◌, None, OnOk, cond};
ghost use Rattle.std.specs.Map.{lookup};
ghost use Rattle.std.specs.Option.{option_copied};
ghost use Rattle.delta_core.specs.Rows.{at_key};
ghost use Rattle.view_columns.specs.Headers.{under};
ghost use Rattle.view_types.specs.Keys.{same_key};
ghost use Rattle.view_types.specs.declared.key.ViewKey.{ViewKey as KeyData};
ghost use Rattle.view_types.specs.declared.key.ViewKey.TheVariants.{Row as RowKey};
ghost use Rattle.live_list.specs.Live.{live_key};
ghost use Rattle.flat_live.specs.FlatRows.{NotesSplits};
ghost use Rattle.flat_live.specs.Rows.{live_of, told};

use crate::keep::keep;
use crate::rows::{FlatEntry, FlatRows};
use crate::showing::stays;
use cell_core::{Column, Copies, Memory};
use delta_core::{Touch, Touched, TouchedKeys};
use plan_types::Plan;
use row_batch::RowChange;
use std::alloc::Global;
use view_types::ViewKey;

/// Brings one key to what a change leads to, and notes it where that shows something else. The header is noted where a
/// split path came or went.
pub(crate) fn settle(
    alloc: Global,
    columns: &[Column],
    plan: &Plan,
    change: &RowChange,
    rows: &mut FlatRows,
    touched: &mut Touched,
) -> Result<(), Memory>
    requires unknown { lookup (same_key (RowKey change.now.key)) touched.old.keys ≡ None }
    ensures rows { (k : KeyData) → OnOk result (at_key live_key k rows.new ≡ cond (same_key (RowKey change.now.key) k) (live_of plan.now change.now) (at_key live_key k rows.old)) }
    ensures touched { (k : KeyData) → OnOk result (lookup (same_key k) touched.new.keys
        ≡ cond (same_key (RowKey change.now.key) k) (told (under columns.now plan.now) (under columns.now plan.now) (at_key live_key k rows.old) (live_of plan.now change.now)) (lookup (same_key k) touched.old.keys)) }
    ensures splits { OnOk result (NotesSplits touched.old.header touched.new.header rows.old rows.new) }
{
    let key = ViewKey::Row(change.key.copy(alloc)?);
    let was = rows.take(&key, &mut touched.header);
    keep_new(alloc, plan, change, rows, &mut touched.header)?;
    let now = rows.get(&key);
    note(
        alloc,
        columns,
        plan,
        key,
        was.as_ref(),
        now,
        &mut touched.keys,
    )
}

/// Puts the row that a change leads to in, where there is one and the plan keeps it, and notes where it is the first of
/// its split path.
fn keep_new(
    alloc: Global,
    plan: &Plan,
    change: &RowChange,
    rows: &mut FlatRows,
    splits_moved: &mut bool,
) -> Result<(), Memory>
    requires absent { at_key live_key (RowKey change.now.key) rows.old ≡ None }
    ensures rows { (k : KeyData) → OnOk result (at_key live_key k rows.new ≡ cond (same_key (RowKey change.now.key) k) (live_of plan.now change.now) (at_key live_key k rows.old)) }
    ensures splits { OnOk result (NotesSplits splits_moved.old splits_moved.new rows.old rows.new) }
{
    match &change.new {
        Some(row) => keep(alloc, plan, &change.key, row, rows, splits_moved),
        None => Ok(()),
    }
}

/// Notes a key, where what is shown differs.
fn note(
    alloc: Global,
    columns: &[Column],
    plan: &Plan,
    key: ViewKey,
    was: Option<&FlatEntry>,
    now: Option<&FlatEntry>,
    touched: &mut TouchedKeys,
) -> Result<(), Memory>
    requires { lookup (same_key key) touched.old ≡ None }
    ensures { (k : KeyData) → OnOk result (lookup (same_key k) touched.new
        ≡ cond (same_key key k) (told (under columns.now plan.now) (under columns.now plan.now) (option_copied was.entry) (option_copied now.entry)) (lookup (same_key k) touched.old)) }
{
    if stays(alloc, columns, plan, was, columns, plan, now)? {
        return Ok(());
    }
    let touch = Touch {
        was_shown: was.is_some(),
    };
    touched.add(key, touch)
}
