ghost use Rattle.std.specs.Prelude.{◌≡◌, [], option_map, IfOk};
ghost use Rattle.std.specs.Option.{option_copied};
ghost use Rattle.view_columns.specs.Headers.{under};
ghost use Rattle.view_spec.specs.Touching.{same_found, same_placed};
ghost use Rattle.flat_live.specs.Rows.{as_placed, cells_under, shown_row};

use crate::rows::{FlatCells, FlatEntry};
use cell_core::{Column, Copies, Memory};
use live_list::place_copied;
use plan_types::Plan;
use std::alloc::Global;
use view_columns::{column_name, path_text, put_value};
use view_spec::PlacedRow;
use view_types::{ShownCells, ShownRow};

/// A kept row as it is shown.
pub(crate) fn show_row(
    alloc: Global,
    columns: &[Column],
    plan: &Plan,
    entry: &FlatEntry,
) -> Result<ShownRow, Memory>
    ensures { IfOk result (λ row. row ≡ shown_row (under columns.now plan.now) entry.now) }
{
    let row = &entry.1;
    Ok(ShownRow {
        key: row.key.copy(alloc)?,
        mark: false,
        cells: show_cells(alloc, columns, plan, &row.value)?,
    })
}

/// A kept row as it is shown, at its place.
pub(crate) fn place_row(
    alloc: Global,
    columns: &[Column],
    plan: &Plan,
    entry: &FlatEntry,
) -> Result<PlacedRow, Memory>
    ensures { IfOk result (λ row. row ≡ as_placed (under columns.now plan.now) entry.now) }
{
    Ok(PlacedRow {
        place: place_copied(alloc, entry.0.as_place())?,
        row: show_row(alloc, columns, plan, entry)?,
    })
}

/// The values of a row's cells, each under the text of its column by the row's own split path.
fn show_cells(
    alloc: Global,
    columns: &[Column],
    plan: &Plan,
    row: &FlatCells,
) -> Result<ShownCells, Memory>
    ensures { IfOk result (λ shown. shown ≡ cells_under (under columns.now plan.now row.now.split) row.now.cells []) }
{
    let mut shown = ShownCells::new(alloc);
    for (i, column) in plan.columns.as_slice().iter().enumerate() {
        if let Some(cell) = row.cells.get(i) {
            let name = column_name(columns, plan, *column);
            let text = path_text(alloc, row.split.as_slice(), name)?;
            put_value(alloc, &mut shown, &text, cell.value(alloc)?)?;
        }
    }
    Ok(shown)
}

/// Whether a key is shown as it was: not at all, or at the same place with the same cells. Each row is shown under its
/// own columns.
pub(crate) fn stays(
    alloc: Global,
    first_columns: &[Column],
    first_plan: &Plan,
    was: Option<&FlatEntry>,
    last_columns: &[Column],
    last_plan: &Plan,
    now: Option<&FlatEntry>,
) -> Result<bool, Memory>
    ensures { IfOk result (λ same. same ≡ same_found (option_map (as_placed (under first_columns.now first_plan.now)) (option_copied was.entry)) (option_map (as_placed (under last_columns.now last_plan.now)) (option_copied now.entry))) }
{
    match (was, now) {
        (Some(was), Some(now)) => same_shown(
            alloc,
            first_columns,
            first_plan,
            was,
            last_columns,
            last_plan,
            now,
        ),
        (None, None) => Ok(true),
        _ => Ok(false),
    }
}

/// Whether two rows are shown at one place with the same key and cells. Texts are made only where the places agree.
fn same_shown(
    alloc: Global,
    first_columns: &[Column],
    first_plan: &Plan,
    was: &FlatEntry,
    last_columns: &[Column],
    last_plan: &Plan,
    now: &FlatEntry,
) -> Result<bool, Memory>
    ensures { IfOk result (λ same. same ≡ same_placed (as_placed (under first_columns.now first_plan.now) was.now) (as_placed (under last_columns.now last_plan.now) now.now)) }
{
    let (was_place, now_place) = (&was.0, &now.0);
    if !was_place.as_place().cmp(now_place.as_place()).is_eq() {
        return Ok(false);
    }
    let before = show_row(alloc, first_columns, first_plan, was)?;
    let after = show_row(alloc, last_columns, last_plan, now)?;
    Ok(before.same(&after))
}
