ghost use Rattle.std.specs.Prelude.{◌≡◌, [], ◌∷◌, ◌++◌, map, IfOk, OnOk, List};
ghost use Rattle.std.specs.Map.{keys_of, values_of};
ghost use Rattle.view_types.specs.Rows.{AreShownRows};
ghost use Rattle.view_types.specs.declared.key.ViewKey.{ViewKey};
ghost use Rattle.delta_core.specs.Deltas.{puts_from, removed_keys};
ghost use Rattle.delta_core.specs.Rows.{has_row};

use crate::delta::{Put, Puts};
use crate::dirty::ShownNow;
use crate::keys::Keys;
use crate::touched::Touch;
use cell_core::{Copies, Listed, Memory};
use std::alloc::{AllocError, Global};
use std::collections::BTreeMap;
use view_types::{ShownRow, ViewKey};

/// The keys that were shown and aren't now, ascending.
pub(crate) fn removed_of<V: ShownNow>(
    alloc: Global,
    keys: &BTreeMap<ViewKey, Touch>,
    view: &V,
) -> Result<Keys, Memory>
    ensures { IfOk result (λ removed. removed ≡ removed_keys keys.now.entries (V.shown view.now).rows) }
{
    // The keys ascend, as `len` says: so none of those that are gone stands twice.
    let _ascending = keys.len();
    let removed = gone(alloc, keys, view)?;
    Ok(Keys::from_listed(Listed::from_vec(removed)))
}

fn gone<V: ShownNow>(
    alloc: Global,
    keys: &BTreeMap<ViewKey, Touch>,
    view: &V,
) -> Result<Vec<ViewKey>, Memory>
    ensures { IfOk result (λ removed. removed.items ≡ removed_keys keys.now.entries (V.shown view.now).rows) }
{
    let mut removed = Vec::new(alloc);
    for (key, touch) in keys {
        if touch.was_shown && !is_shown(view, key) {
            removed.push(key.copy(alloc)?)?;
        }
    }
    Ok(removed)
}

fn is_shown<V: ShownNow>(view: &V, key: &ViewKey) -> bool
    ensures { result ≡ has_row key.now (V.shown view.now).rows }
{
    view.position(key).is_some()
}

/// The rows that are shown under one of these keys, each with its position, by position.
pub(crate) fn puts_of<V: ShownNow>(
    alloc: Global,
    keys: &BTreeMap<ViewKey, Touch>,
    view: &V,
) -> Result<Puts, Memory>
    ensures { IfOk result (λ puts. puts ≡ puts_from (map (λ e. e.0) keys.now.entries) 0 (V.shown view.now).rows) }
{
    let by_place = rows_by_place(alloc, keys, view)?;
    let puts = in_order(alloc, by_place)?;
    Ok(Puts::from_listed(Listed::from_vec(puts)))
}

/// The rows that are shown under one of these keys, each under its position.
fn rows_by_place<V: ShownNow>(
    alloc: Global,
    keys: &BTreeMap<ViewKey, Touch>,
    view: &V,
) -> Result<BTreeMap<u64, ShownRow>, Memory>
    ensures rows { IfOk result (λ by_place. by_place.entries
        ≡ map (λ p. (p.position, p.row)) (puts_from (keys_of keys.now.entries) 0 (V.shown view.now).rows)) }
    ensures shown { IfOk result (λ by_place. AreShownRows (values_of by_place.entries)) }
{
    let mut by_place = BTreeMap::new(alloc);
    for key in keys.keys() {
        place_row(alloc, &mut by_place, view, key)?;
    }
    Ok(by_place)
}

/// Puts the row with that key, where there is one, under its position.
fn place_row<V: ShownNow>(
    alloc: Global,
    by_place: &mut BTreeMap<u64, ShownRow>,
    view: &V,
    key: &ViewKey,
) -> Result<(), Memory>
    ensures rows { (keys : List ViewKey)
        → by_place.old.entries ≡ map (λ p. (p.position, p.row)) (puts_from keys 0 (V.shown view.now).rows)
        → OnOk result (by_place.new.entries
        ≡ map (λ p. (p.position, p.row)) (puts_from (keys ++ key.now ∷ []) 0 (V.shown view.now).rows)) }
    ensures shown { AreShownRows (V.shown view.now).rows }
{
    let Some(position) = view.position(key) else {
        return Ok(());
    };
    if let Some(row) = view.row(alloc, key)? {
        drop(by_place.insert(position as u64, row)?);
    }
    Ok(())
}

fn in_order(alloc: Global, by_place: BTreeMap<u64, ShownRow>) -> Result<Vec<Put>, AllocError>
    ensures { IfOk result (λ puts. puts.items ≡ map (λ e. record { position = e.0; row = e.1 }) by_place.entries) }
{
    by_place
        .into_iter()
        .map(|(position, row)| Put { position, row })
        .collect(alloc)
}
