ghost use Rattle.std.specs.Prelude.{◌≡◌, ℕ, ◌<◌, ◌≤◌, length, take, List, Option, IfOk, OnOk, OnErr};
ghost use Rattle.std.specs.Io.KnownBytes.{Appends, Keeps, WriteAppends};
ghost use Rattle.io_ends.specs.Causes.{Counts, is_sink_fault};

use std::alloc::AllocError;
use std::error::Error;
use std::fmt;

/// Why a call of a sink took nothing.
#[derive(Clone, Copy, Debug, Drop, PartialEq, Eq)]
pub enum SinkFault {
    /// The outside failed.
    Failed,
    /// Memory was wanted and not given.
    Memory,
}

impl fmt::Display for SinkFault {
    fn fmt<W: fmt::Write>(&self, f: &mut fmt::Formatter<W>) -> fmt::Result {
        match self {
            SinkFault::Failed => f.write_str("writing failed"),
            SinkFault::Memory => f.write_str("memory was wanted for what is written"),
        }
    }
}

impl Error for SinkFault {}

impl From<AllocError> for SinkFault {
    ghost use Rattle.std.specs.Prelude.{◌≡◌};
    ghost use Rattle.io_ends.specs.declared.sink.SinkFault.TheVariants.{Memory};

    ghost from_gives = { λ _ fault. fault ≡ Memory };

    fn from(_refused: AllocError) -> SinkFault {
        SinkFault::Memory
    }
}

/// Where bytes go.
///
/// `written` is all bytes taken, where the sink tells them, and `faults` counts its failures. A count
/// that stands at 2^64 - 1 counts as risen.
pub trait Sink {
    ghost written: { Self → Option (List ℕ) };

    ghost faults: { Self → ℕ };

    /// Takes bytes off the front of `piece` and answers how many. An outside that takes none of a
    /// piece that isn't empty has failed.
    fn write(&mut self, piece: &[u8]) -> Result<usize, SinkFault>
        ensures bound { IfOk result (λ taken. taken ≤ length piece.now) }
        ensures some { IfOk result (λ taken. 0 < length piece.now → 0 < taken) }
        ensures bytes { WriteAppends (written self.old) (written self.new) result piece.now }
        ensures count { Counts (is_sink_fault result) (faults self.old) (faults self.new) };

    /// Hands on what the sink may still keep back of the bytes taken.
    fn flush(&mut self) -> Result<(), SinkFault>
        ensures bytes { Keeps (written self.old) (written self.new) }
        ensures count { Counts (is_sink_fault result) (faults self.old) (faults self.new) };
}

/// Writes all of `bytes`. What a write doesn't take is offered again. After a fault a front of the
/// bytes was taken, and not all of them.
pub fn write_whole<K: Sink>(sink: &mut K, bytes: &[u8]) -> Result<(), SinkFault>
    ensures ok { OnOk result (Appends (K.written sink.old) (K.written sink.new) bytes.now) }
    ensures err { OnErr result ((n : ℕ) × (n < length bytes.now)
        × Appends (K.written sink.old) (K.written sink.new) (take n bytes.now)) }
    ensures count { Counts (is_sink_fault result) (K.faults sink.old) (K.faults sink.new) }
{
    let mut taken = 0;
    'pieces: while taken < bytes.len() {
        taken += sink.write(&bytes[taken..])?;
    }
    Ok(())
}
