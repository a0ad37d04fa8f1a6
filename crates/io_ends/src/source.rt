ghost use Rattle.std.specs.Prelude.{ℕ, ◌<◌, length, List, Option, is_err};
ghost use Rattle.std.specs.Io.{ReadsAtMost};
ghost use Rattle.std.specs.Io.KnownBytes.{ReadConsumes};
ghost use Rattle.io_ends.specs.Causes.{Counts};

use std::error::Error;
use std::fmt;

/// The outside failed to give bytes.
#[derive(Clone, Copy, Debug, Drop, PartialEq, Eq)]
pub struct SourceFailed;

impl fmt::Display for SourceFailed {
    fn fmt<W: fmt::Write>(&self, f: &mut fmt::Formatter<W>) -> fmt::Result {
        f.write_str("reading failed")
    }
}

impl Error for SourceFailed {}

/// Where bytes come from.
///
/// `left` is the bytes still to come, where the source tells them, and `faults` counts its failures.
/// A count that stands at 2^64 - 1 counts as risen.
pub trait Source {
    ghost left: { Self → Option (List ℕ) };

    ghost faults: { Self → ℕ };

    /// Puts the next bytes at the front of `piece` and answers how many. 0 is the end of input.
    fn read(&mut self, piece: &mut [u8]) -> Result<usize, SourceFailed>
        requires { 0 < length piece.old }
        ensures bound { ReadsAtMost result piece.new }
        ensures bytes { ReadConsumes (left self.old) (left self.new) result piece.new }
        ensures count { Counts (is_err result) (faults self.old) (faults self.new) };
}
