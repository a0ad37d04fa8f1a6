ghost use Rattle.std.specs.Prelude.{◌≡◌, IsTrue, None};
ghost use Rattle.cal_units.specs.Calendar.{is_day as is_day_number, is_moment as is_moment_number};
ghost use Rattle.row_batch.specs.Changes.{FitsColumns};
ghost use Rattle.row_batch.specs.Checks.{cell_fault};

use cell_core::{Cell, CellType, Column, Day, MAX_TEXT, Moment, is_integer};

/// Whether a row has one cell for each column, null or of the column's type and in its range.
pub(crate) fn fits_columns(columns: &[Column], row: &[Cell]) -> bool
    ensures { IsTrue result → FitsColumns columns.now row.now }
{
    if columns.len() != row.len() {
        return false;
    }
    for i in 0..columns.len() {
        if !fits_kind(columns[i].kind, &row[i]) {
            return false;
        }
    }
    true
}

/// Whether a cell is null, or of the type and in its range.
fn fits_kind(kind: CellType, cell: &Cell) -> bool
    ensures { IsTrue result → cell_fault kind cell.now ≡ None }
{
    match (kind, cell) {
        (_, Cell::Null) => true,
        (CellType::Integer, Cell::Int(number)) => is_integer(*number),
        (CellType::Boolean, Cell::Bool(_)) => true,
        (CellType::Date, Cell::Date(day)) => is_day(*day),
        (CellType::Moment, Cell::Moment(moment)) => is_moment(*moment),
        (CellType::Words, Cell::Words(text)) => text.as_str().len() <= MAX_TEXT,
        _ => false,
    }
}

/// A day is in range by its type.
fn is_day(day: Day) -> bool
    ensures { IsTrue (is_day_number day) }
{
    let _in_range = day.number();
    true
}

/// A datetime is in range by its type.
fn is_moment(moment: Moment) -> bool
    ensures { IsTrue (is_moment_number moment) }
{
    let _in_range = moment.number();
    true
}
