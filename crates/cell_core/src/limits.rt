ghost use Rattle.std.specs.Prelude.{◌≡◌};
ghost use Rattle.cell_core.specs.Limits.{is_integer};

/// The most columns of a table.
pub const MAX_COLUMNS: usize = 32;

/// The most bytes of a column's name.
pub const MAX_NAME: usize = 256;

/// The most bytes of a cell's text.
pub const MAX_TEXT: usize = 256;

/// The most rows of a table, and so its greatest `limit`.
pub const MAX_ROWS: u32 = 65_536;

/// The greatest whole number of a cell, 2^53 - 1; the least is its negative.
pub const MAX_INTEGER: i64 = 9_007_199_254_740_991;

/// Whether a whole number is one that a cell can have, from -(2^53-1) to 2^53-1.
pub fn is_integer(number: i64) -> bool
    ensures { result ≡ is_integer number }
{
    -MAX_INTEGER <= number && number <= MAX_INTEGER
}
