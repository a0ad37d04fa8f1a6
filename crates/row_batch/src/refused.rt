use cell_core::{Memory, Numbers};
use std::fmt;

/// Why rows, keys or a text of rows are refused. The tests that a reader makes, and their order, are in
/// the definitions of its crate.
#[derive(Clone, Copy, Debug, Drop, PartialEq, Eq)]
pub enum RowCause {
    /// Not a list, an object or a list of objects as required. `at` has the row, or nothing for the
    /// whole.
    Shape,
    /// A record of CSV has another number of fields than the first.
    Csv,
    /// The CSV text has no record.
    Header,
    /// `at` has the place of a header field that stands earlier too.
    Twice,
    /// A name that is no column. `at` has the row, or nothing for the whole.
    Unknown,
    /// The lists of an object of lists are not of one length.
    Length,
    /// More than 1,024 rows or keys. `at` has their number.
    Rows,
    /// The index cell, or a key, is left out or null. `at` has the row.
    Index,
    /// The cell is not of the form that its column's type accepts. `at` has the row and the column, as
    /// in the next three.
    BadType,
    /// The text is no date, or no datetime.
    Date,
    /// A whole number, a date or a datetime is out of range.
    Range,
    /// A text has more than 256 bytes.
    Long,
}

/// Why a batch is refused, and where.
#[derive(Clone, Copy, Debug, Drop, PartialEq, Eq)]
pub struct BatchRefused {
    pub cause: RowCause,
    pub at: Numbers,
}

/// Why rows or keys can't be read: the first cause against them, or want of memory.
#[derive(Clone, Copy, Debug, Drop, PartialEq, Eq)]
pub enum RowsRefused {
    Bad(BatchRefused),
    Memory,
}

impl fmt::Display for RowCause {
    fn fmt<W: fmt::Write>(&self, f: &mut fmt::Formatter<W>) -> fmt::Result {
        f.write_str(match self {
            RowCause::Shape => "not of the form of rows",
            RowCause::Csv => "another number of fields than in the header",
            RowCause::Header => "no header",
            RowCause::Twice => "a header field stands twice",
            RowCause::Unknown => "a name of no column",
            RowCause::Length => "lists of different lengths",
            RowCause::Rows => "more than 1024 rows or keys",
            RowCause::Index => "an index cell or a key is left out or null",
            RowCause::BadType => "a cell of another type",
            RowCause::Date => "neither a date nor a datetime",
            RowCause::Range => "a value out of range",
            RowCause::Long => "a text of more than 256 bytes",
        })
    }
}

impl fmt::Display for BatchRefused {
    fn fmt<W: fmt::Write>(&self, f: &mut fmt::Formatter<W>) -> fmt::Result {
        write!(f, "{}{}", self.cause, self.at)
    }
}

impl fmt::Display for RowsRefused {
    fn fmt<W: fmt::Write>(&self, f: &mut fmt::Formatter<W>) -> fmt::Result {
        match self {
            RowsRefused::Bad(refused) => write!(f, "{refused}"),
            RowsRefused::Memory => write!(f, "{}", Memory),
        }
    }
}

impl From<Memory> for RowsRefused {
    ghost use Rattle.std.specs.Prelude.{◌≡◌};
    ghost use Rattle.row_batch.specs.declared.refused.RowsRefused.TheVariants as refused;

    ghost from_gives = { λ want made. made ≡ refused.Memory };

    fn from(_refused: Memory) -> RowsRefused {
        RowsRefused::Memory
    }
}
