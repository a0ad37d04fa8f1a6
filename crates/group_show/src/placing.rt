ghost use Rattle.std.specs.Prelude.{◌≡◌, [], IfOk, OnOk, fold, map};
ghost use Rattle.group_show.specs.Entries.{put_entry};

use cell_core::Memory;
use place_order::Place;
use std::alloc::{AllocError, Global};
use std::collections::BTreeMap;
use view_spec::PlacedRow;
use view_types::ShownRow;

/// Shown rows at their places.
type ByPlace = BTreeMap<Place, ShownRow>;

/// The rows, sorted by their places.
pub(crate) fn sorted(alloc: Global, rows: Vec<PlacedRow>) -> Result<Vec<PlacedRow>, Memory>
    ensures { IfOk result (λ sorted. sorted.items ≡ map (λ e. record { place = e.0; row = e.1 }) (fold put_entry [] rows.items)) }
{
    let mut by_place = ByPlace::new(alloc);
    put_all(&mut by_place, rows)?;
    Ok(collected(alloc, by_place)?)
}

/// Puts rows at their places.
fn put_all(by_place: &mut ByPlace, rows: Vec<PlacedRow>) -> Result<(), Memory>
    ensures { OnOk result (by_place.new.entries ≡ fold put_entry by_place.old.entries rows.items) }
{
    for shown in rows {
        put_row(by_place, shown)?;
    }
    Ok(())
}

fn put_row(by_place: &mut ByPlace, shown: PlacedRow) -> Result<(), Memory>
    ensures { OnOk result (by_place.new.entries ≡ put_entry by_place.old.entries shown) }
{
    let PlacedRow { place, row } = shown;
    drop(by_place.insert(place, row)?);
    Ok(())
}

/// The rows at their places, as a list.
fn collected(alloc: Global, by_place: ByPlace) -> Result<Vec<PlacedRow>, AllocError>
    ensures { IfOk result (λ rows. rows.items ≡ map (λ e. record { place = e.0; row = e.1 }) by_place.entries) }
{
    by_place
        .into_iter()
        .map(|(place, row)| PlacedRow { place, row })
        .collect(alloc)
}
