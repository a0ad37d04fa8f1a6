ghost use Rattle.std.specs.Prelude.{◌≡◌, IfOk, OnOk, map};
ghost use Rattle.std.specs.BTreeMap.{insert_entry};
ghost use Rattle.plain_data.specs.Distinct.{AreDistinct};
ghost use Rattle.place_order.specs.Places.{place_order};
ghost use Rattle.row_batch.specs.Tables.{keys_of_rows};
ghost use Rattle.view_spec.specs.Cells.{header_of as header_under};
ghost use Rattle.view_spec.specs.Members.{splits};
ghost use Rattle.view_spec.specs.Openings.{Opening};
ghost use Rattle.view_spec.specs.Views.{placed, placed_row, view};
ghost use Rattle.flat_show.specs.Entries.{entries_by_place};
ghost use Rattle.view_kept.specs.Steps.{side_of};
ghost use Rattle.flat_show.specs.Plans.{IsFlatPlan};

use crate::cells::shown_cells;
use crate::kept::kept_rows;
use crate::placed::PlacedRows;
use crate::places::place_of_row;
use crate::splits::splits_of;
use cell_core::{Copies, Listed, Memory, Schema, Steps};
use place_order::Place;
use plan_types::Plan;
use row_batch::Pair;
use std::alloc::{AllocError, Global};
use std::collections::BTreeMap;
use std::sync::ledger::Ledger;
use table_core::Table;
use view_columns::{header_of, split_columns};
use view_spec::PlacedRow;
use view_types::{Header, ShownRow, ViewKey};

/// Shown rows at their places.
type ByPlace = BTreeMap<Place, ShownRow>;

/// What a flat view shows, with the places of its rows.
#[derive(Drop)]
pub struct PlacedView {
    /// The text and type of each shown column.
    pub header: Header,
    /// The rows in the order in which they are shown.
    pub rows: PlacedRows,
}

/// What a flat view shows of the table's rows, in whatever order the table has them. `steps` counts the visits of
/// rows.
///
/// Want of memory is the only refusal.
pub fn show_placed<L: Ledger>(
    alloc: Global,
    plan: &Plan,
    table: &Table,
    steps: &mut Steps<L>,
) -> Result<PlacedView, Memory>
    requires { IsFlatPlan table.now.schema.columns plan.now }
    ensures header { (opening : Opening) → IfOk result (λ shown. shown.header ≡ (view (side_of plan.now opening table.now)).header) }
    ensures rows { (opening : Opening) → IfOk result (λ shown. shown.rows ≡ placed (side_of plan.now opening table.now)) }
{
    let _table = table.len();
    let kept = kept_rows(alloc, plan, table, steps)?;
    let header = header_over(alloc, table.schema(), plan, kept.as_slice())?;
    let by_place = placed_rows(alloc, table.schema(), plan, kept.as_slice())?;
    let rows = collected(alloc, by_place)?;
    Ok(PlacedView {
        header,
        rows: PlacedRows::from_listed(Listed::from_vec(rows)),
    })
}

/// The header of a view of kept rows.
fn header_over(alloc: Global, schema: &Schema, plan: &Plan, rows: &[Pair]) -> Result<Header, Memory>
    ensures { IfOk result (λ header. header ≡ header_under schema.now.columns plan.now (splits plan.now rows.now)) }
{
    let paths = splits_of(alloc, plan, rows)?;
    let made = split_columns(alloc, schema.columns(), plan, paths)?;
    header_of(alloc, &made)
}

/// The rows at their places, as a list.
fn collected(alloc: Global, by_place: ByPlace) -> Result<Vec<PlacedRow>, AllocError>
    ensures { IfOk result (λ rows. rows.items ≡ map (λ e. record { place = e.0; row = e.1 }) by_place.entries) }
{
    by_place
        .into_iter()
        .map(|(place, row)| PlacedRow { place, row })
        .collect(alloc)
}

/// The rows as they are shown, at their places.
fn placed_rows(
    alloc: Global,
    schema: &Schema,
    plan: &Plan,
    rows: &[Pair],
) -> Result<ByPlace, Memory>
    requires { AreDistinct (keys_of_rows rows.now) }
    ensures { IfOk result (λ by_place. by_place.entries ≡ entries_by_place schema.now.columns plan.now rows.now) }
{
    let mut by_place = ByPlace::new(alloc);
    for row in rows {
        put_row(alloc, schema, plan, row, &mut by_place)?;
    }
    Ok(by_place)
}

/// Puts a row at its place, as it is shown.
fn put_row(
    alloc: Global,
    schema: &Schema,
    plan: &Plan,
    pair: &Pair,
    by_place: &mut ByPlace,
) -> Result<(), Memory>
    ensures { OnOk result (by_place.new.entries ≡ insert_entry place_order by_place.old.entries
        (placed_row schema.now.columns plan.now pair.now).place (placed_row schema.now.columns plan.now pair.now).row) }
{
    let place = place_of_row(alloc, plan, &pair.key, &pair.row)?;
    let cells = shown_cells(alloc, schema, plan, &pair.key, pair.row.as_slice())?;
    let row = ShownRow {
        key: ViewKey::Row(pair.key.copy(alloc)?),
        mark: false,
        cells,
    };
    drop(by_place.insert(place, row)?);
    Ok(())
}
