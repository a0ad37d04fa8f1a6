ghost use Rattle.std.specs.Prelude.{◌≡◌, IfOk};
ghost use Rattle.row_cells.specs.Cells.{integer_cell, millis_cell, date_cell, moment_cell, words_cell};

use cal_units::{Moment, MomentRefused, read_date, read_moment};
use cell_core::{Cell, MAX_TEXT, Memory, Text, is_integer};
use row_batch::RowCause;
use std::alloc::Global;

/// The cell that a value is, or the cause against it.
pub type CellRead = Result<Cell, RowCause>;

/// A whole number in a column of integers: `Range` outside -(2^53-1) to 2^53-1.
pub fn integer_cell(number: i64) -> CellRead
    ensures { result ≡ integer_cell number }
{
    if is_integer(number) {
        Ok(Cell::Int(number))
    } else {
        Err(RowCause::Range)
    }
}

/// Whole milliseconds since 1970-01-01T00:00:00Z in a column of datetimes: `Range` before 0001-01-01 and
/// after 9999-12-31.
pub fn millis_cell(millis: i64) -> CellRead
    ensures { result ≡ millis_cell millis }
{
    match Moment::try_of(millis) {
        Some(moment) => Ok(Cell::Moment(moment)),
        None => Err(RowCause::Range),
    }
}

/// A text in a column of dates: the day that `YYYY-MM-DD` of ISO 8601 names, from 0001-01-01 to 9999-12-31,
/// and `Date` where it names none.
pub fn date_cell(text: &str) -> CellRead
    ensures { result ≡ date_cell text.now }
{
    match read_date(text.as_bytes()) {
        Ok(day) => Ok(Cell::Date(day)),
        Err(_) => Err(RowCause::Date),
    }
}

/// A text in a column of datetimes, of the form of ISO 8601 that `cal_units::read_moment` reads: `Date` where
/// it is not of the form, and `Range` where its datetime is out of range.
pub fn moment_cell(text: &str) -> CellRead
    ensures { result ≡ moment_cell text.now }
{
    match read_moment(text.as_bytes()) {
        Ok(moment) => Ok(Cell::Moment(moment)),
        Err(MomentRefused::NotAMoment) => Err(RowCause::Date),
        Err(MomentRefused::OutOfRange) => Err(RowCause::Range),
    }
}

/// A text in a column of texts: `Long` where it has more than 256 bytes. It is copied, and want of memory is
/// the only outer refusal.
pub fn words_cell(alloc: Global, text: &str) -> Result<CellRead, Memory>
    ensures { IfOk result (λ read. read ≡ words_cell text.now) }
{
    if text.len() > MAX_TEXT {
        return Ok(Err(RowCause::Long));
    }
    Ok(Ok(Cell::Words(Text::from_str(alloc, text)?)))
}
