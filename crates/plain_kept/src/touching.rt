ghost use Rattle.std.specs.Prelude.{◌≡◌, IfOk, OnOk, true, false, not};
ghost use Rattle.delta_core.specs.DirtySets.{joined};
ghost use Rattle.view_types.specs.Same.{same_header as is_same_header};
ghost use Rattle.view_spec.specs.LookUps.{has_placed, keys_where, marked_in, stays_in};
ghost use Rattle.view_spec.specs.Touching.{key_of, touched_keys};

use crate::keyed::{KeyedRows, KeyedView};
use cell_core::{Copies, Memory};
use delta_core::{Touch, Touched, TouchedKeys};
use std::alloc::Global;
use view_spec::PlacedRow;
use view_types::same_header;

/// What a step touched: the keys that are shown on just one side of it, or on both with another place or another
/// row, each beside whether it was shown before; and whether the header is another. Each row is looked up once.
///
/// Want of memory is the only refusal.
pub fn touched(alloc: Global, before: &KeyedView, after: &KeyedView) -> Result<Touched, Memory>
    ensures keys { IfOk result (λ t. t.keys ≡ marked_in before.now.rows (touched_keys before.now.rows after.now.rows)) }
    ensures header { IfOk result (λ t. t.header ≡ not (is_same_header before.now.header after.now.header)) }
{
    let mut keys = TouchedKeys::new(alloc);
    let was = before.rows.as_slice();
    let now = after.rows.as_slice();
    add_changed(alloc, &mut keys, was, &after.rows)?;
    add_new(alloc, &mut keys, &before.rows, now)?;
    let header = !same_header(before.header.as_slice(), after.header.as_slice());
    Ok(Touched { keys, header })
}

/// Adds the keys of the rows that were shown and don't stay as they were.
fn add_changed(
    alloc: Global,
    keys: &mut TouchedKeys,
    was: &[PlacedRow],
    now: &KeyedRows,
) -> Result<(), Memory>
    ensures { OnOk result (keys.new ≡ joined keys.old (keys_where (λ r. not (stays_in now.now r)) true was.now)) }
{
    for row in was {
        if !stays(row, now) {
            keys.add(row.row.key.copy(alloc)?, Touch { was_shown: true })?;
        }
    }
    Ok(())
}

/// Adds the keys of the rows that are shown and weren't.
fn add_new(
    alloc: Global,
    keys: &mut TouchedKeys,
    was: &KeyedRows,
    now: &[PlacedRow],
) -> Result<(), Memory>
    ensures { OnOk result (keys.new ≡ joined keys.old (keys_where (λ r. not (has_placed (key_of r) was.now)) false now.now)) }
{
    for row in now {
        if was.get(&row.row.key).is_none() {
            keys.add(row.row.key.copy(alloc)?, Touch { was_shown: false })?;
        }
    }
    Ok(())
}

/// Whether a row is shown after the step as it was.
fn stays(row: &PlacedRow, now: &KeyedRows) -> bool
    ensures { result ≡ stays_in now.now row.now }
{
    match now.get(&row.row.key) {
        Some(other) => row.place.cmp(&other.place).is_eq() && row.row.same(&other.row),
        None => false,
    }
}
