ghost use Rattle.std.specs.Prelude.{◌≡◌, IfOk, option_map};
ghost use Rattle.cell_core.specs.RawData.{get_raw};
ghost use Rattle.cell_core.specs.RawViews.{raw_view, map_view};
ghost use Rattle.json_rows.specs.Reading.{cell_of, patch_cell_of, member_of, value_at};

use cell_core::{Cell, CellType, Column, Memory, Raw, RawMap};
use row_batch::{PatchCell, RowCause};
use row_cells::{CellRead, date_cell, integer_cell, millis_cell, moment_cell, words_cell};
use std::alloc::Global;

/// What a row does to a column, or the cause against what it has there.
type PatchRead = Result<PatchCell, RowCause>;

/// The cell that a value is in a column of that type, or the cause against it: null is a cell of every type. Want of
/// memory is the only outer refusal.
pub fn cell_of(alloc: Global, kind: CellType, value: &Raw) -> Result<CellRead, Memory>
    ensures { IfOk result (λ read. read ≡ cell_of kind (raw_view value.now)) }
{
    Ok(match (kind, value) {
        (_, Raw::Null) => Ok(Cell::Null),
        (CellType::Integer, Raw::Int(number)) => integer_cell(*number),
        (CellType::Boolean, Raw::Bool(truth)) => Ok(Cell::Bool(*truth)),
        (CellType::Date, Raw::Words(text)) => date_cell(text.as_str()),
        (CellType::Moment, Raw::Int(millis)) => millis_cell(*millis),
        (CellType::Moment, Raw::Words(text)) => moment_cell(text.as_str()),
        (CellType::Words, Raw::Words(text)) => words_cell(alloc, text.as_str())?,
        _ => Err(RowCause::BadType),
    })
}

/// What an object does to a column: it keeps its cell where the object has no member of its name.
pub(crate) fn member_of(alloc: Global, row: &RawMap, column: &Column) -> Result<PatchRead, Memory>
    ensures { IfOk result (λ read. read ≡ member_of (map_view row.now) column.now) }
{
    match row.get(&column.name) {
        None => Ok(Ok(PatchCell::Keep)),
        Some(value) => Ok(cell_of(alloc, column.kind, value)?.map(PatchCell::Set)),
    }
}

/// The same of row `row` across an object of lists.
pub(crate) fn across_of(
    alloc: Global,
    lists: &RawMap,
    row: usize,
    column: &Column,
) -> Result<PatchRead, Memory>
    ensures { IfOk result (λ read. read ≡ patch_cell_of column.now.kind
        (option_map (value_at row) (get_raw column.now.name (map_view lists.now)))) }
{
    match lists.get(&column.name) {
        None => Ok(Ok(PatchCell::Keep)),
        Some(list) => Ok(listed_cell(alloc, column.kind, list, row)?.map(PatchCell::Set)),
    }
}

/// The cell at a place of a list; past its end, and where there is no list, null.
fn listed_cell(alloc: Global, kind: CellType, list: &Raw, row: usize) -> Result<CellRead, Memory>
    ensures { IfOk result (λ read. read ≡ cell_of kind (value_at row (raw_view list.now))) }
{
    let Raw::List(values) = list else {
        return Ok(Ok(Cell::Null));
    };
    match values.as_slice().get(row) {
        Some(value) => cell_of(alloc, kind, value),
        None => Ok(Ok(Cell::Null)),
    }
}
