ghost use Rattle.std.specs.Prelude.{◌≡◌, true};
ghost use Rattle.std.specs.Char.{is_ascii_digit};
ghost use Rattle.std.specs.List.{list_all};
ghost use Rattle.csv_rows.specs.Reading.{is_digits, is_number, integer_field, millis_field};

use row_batch::RowCause;
use row_cells::{CellRead, integer_cell, millis_cell};

/// Whether a text is decimal digits, at least one.
fn is_digits(text: &[u8]) -> bool
    ensures { result ≡ is_digits text.now }
{
    !text.is_empty() && are_digits(text)
}

fn are_digits(text: &[u8]) -> bool
    ensures { result ≡ list_all is_ascii_digit text.now }
{
    text.iter().all(|byte| byte.is_ascii_digit())
}

/// Whether a text is an optional `-` and decimal digits.
pub(crate) fn is_number(text: &[u8]) -> bool
    ensures { result ≡ is_number text.now }
{
    if !text.is_empty() && text[0] == b'-' {
        is_digits(&text[1..])
    } else {
        is_digits(text)
    }
}

/// The integer that digits write: `Range` where it is out of a cell's range.
pub(crate) fn integer_field(text: &str) -> CellRead
    requires { is_number text.now ≡ true }
    ensures { result ≡ integer_field text.now }
{
    match text.parse::<i64>() {
        Ok(number) => integer_cell(number),
        Err(_) => Err(RowCause::Range),
    }
}

/// The datetime of the milliseconds that digits write: `Range` where it is out of a cell's range.
pub(crate) fn millis_field(text: &str) -> CellRead
    requires { is_number text.now ≡ true }
    ensures { result ≡ millis_field text.now }
{
    match text.parse::<i64>() {
        Ok(millis) => millis_cell(millis),
        Err(_) => Err(RowCause::Range),
    }
}
