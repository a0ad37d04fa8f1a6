ghost use Rattle.std.specs.Prelude.{◌≡◌, None, OnOk, IfOk, Some, cond, map};
ghost use Rattle.row_batch.specs.Batches.{pair_of};
ghost use Rattle.delta_core.specs.Rows.{at_key};
ghost use Rattle.view_types.specs.Keys.{same_key};
ghost use Rattle.view_types.specs.declared.key.ViewKey.{ViewKey as KeyData};
ghost use Rattle.view_types.specs.declared.key.ViewKey.TheVariants.{Row as RowKey};
ghost use Rattle.view_spec.specs.Filters.{cell_in};
ghost use Rattle.live_list.specs.Live.{live_key};
ghost use Rattle.flat_live.specs.FlatRows.{NotesSplits};
ghost use Rattle.flat_live.specs.Rows.{live_at};

use crate::rows::{FlatCells, FlatRows};
use cell_core::{Cell, Copies, Listed, Memory, Row};
use flat_show::{full_row, place_of_row, split_path};
use live_list::RowPlace;
use plan_types::Plan;
use row_filter::keeps;
use std::alloc::Global;
use view_types::ViewKey;

/// Puts a row of the table in, where the plan keeps it, and notes where it is the first of its split path.
pub(crate) fn keep(
    alloc: Global,
    plan: &Plan,
    key: &Cell,
    row: &Row,
    rows: &mut FlatRows,
    splits_moved: &mut bool,
) -> Result<(), Memory>
    requires absent { at_key live_key (RowKey key.now) rows.old ≡ None }
    ensures rows { (k : KeyData) → OnOk result (at_key live_key k rows.new ≡ cond (same_key (RowKey key.now) k) (live_at plan.now (Some (pair_of key.now row.now))) (at_key live_key k rows.old)) }
    ensures splits { OnOk result (NotesSplits splits_moved.old splits_moved.new rows.old rows.new) }
{
    let full = full_row(alloc, plan, row)?;
    if !keeps(&plan.filters, full.as_slice()) {
        return Ok(());
    }
    let place = RowPlace::new(place_of_row(alloc, plan, key, &full)?);
    let value = FlatCells {
        split: split_path(alloc, plan, full.as_slice())?,
        cells: cells_of(alloc, plan, full.as_slice())?,
    };
    let key = ViewKey::Row(key.copy(alloc)?);
    rows.put(alloc, place, key, value, splits_moved)
}

/// The cells of the shown columns.
fn cells_of(alloc: Global, plan: &Plan, row: &[Cell]) -> Result<Row, Memory>
    ensures { IfOk result (λ cells. cells ≡ map (cell_in row.now) plan.now.columns) }
{
    let columns = plan.columns.as_slice();
    let mut cells = Vec::with_capacity(alloc, columns.len())?;
    for column in columns {
        cells.push(cell_of(alloc, row, *column)?)?;
    }
    Ok(Listed::from_vec(cells))
}

/// The cell of a column. A row has null past its last cell.
fn cell_of(alloc: Global, row: &[Cell], column: usize) -> Result<Cell, Memory>
    ensures { IfOk result (λ cell. cell ≡ cell_in row.now column) }
{
    match row.get(column) {
        Some(cell) => cell.copy(alloc),
        None => Ok(Cell::Null),
    }
}
