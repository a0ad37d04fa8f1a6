use crate::source::SourceFailed;
use plain_data::Bytes;
use std::alloc::AllocError;
use std::error::Error;
use std::fmt;

/// What the line reader gives.
#[derive(Debug, Drop)]
pub enum Line {
    /// A line, without the byte 10 that ended it.
    Words(Bytes),
    /// A line of more than the reader's longest, which was read past and not kept.
    Long,
    /// No line is left.
    End,
}

/// Why the line reader gives none.
#[derive(Clone, Copy, Debug, Drop, PartialEq, Eq)]
pub enum LineFault {
    /// The source failed.
    Read,
    /// More than 2^30 bytes were given since the reader was made.
    TooMany,
    /// Memory was wanted and not given.
    Memory,
}

impl fmt::Display for LineFault {
    fn fmt<W: fmt::Write>(&self, f: &mut fmt::Formatter<W>) -> fmt::Result {
        match self {
            LineFault::Read => f.write_str("reading failed"),
            LineFault::TooMany => f.write_str("more than 2^30 bytes were given"),
            LineFault::Memory => f.write_str("memory was wanted for a line"),
        }
    }
}

impl Error for LineFault {}

impl From<SourceFailed> for LineFault {
    ghost use Rattle.std.specs.Prelude.{◌≡◌};
    ghost use Rattle.io_ends.specs.declared.line.LineFault.TheVariants.{Read};

    ghost from_gives = { λ _ fault. fault ≡ Read };

    fn from(_failed: SourceFailed) -> LineFault {
        LineFault::Read
    }
}

impl From<AllocError> for LineFault {
    ghost use Rattle.std.specs.Prelude.{◌≡◌};
    ghost use Rattle.io_ends.specs.declared.line.LineFault.TheVariants.{Memory};

    ghost from_gives = { λ _ fault. fault ≡ Memory };

    fn from(_refused: AllocError) -> LineFault {
        LineFault::Memory
    }
}
