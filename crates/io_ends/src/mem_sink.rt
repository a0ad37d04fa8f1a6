ghost use Rattle.std.specs.Prelude.{◌≡◌, ◌<◌, ◌≤◌, ◌↔◌, [], length, min, IfOk, IsErr, IsErrOf, IsTrue};
ghost use Rattle.std.specs.Io.KnownBytes.{Keeps, WriteAppends};
ghost use Rattle.io_ends.specs.Causes.{Counts, is_sink_fault, one_more};
ghost use Rattle.io_ends.specs.Memory.{is_to_fail, faults_after};

use crate::calls::{Calls, Tally};
use crate::sink::{Sink, SinkFault};
use std::alloc::Global;
use std::marker::Model;

/// A sink that keeps what it takes in memory, takes it in pieces and fails at the calls that it is
/// told. Where it finds no memory it answers `Memory` and has taken nothing.
#[derive(Debug, Drop)]
pub struct MemSink {
    taken: Vec<u8>,
    piece: usize,
    tally: Tally,
}

impl Model for MemSink {
    ghost use Rattle.std.specs.Prelude.{◌<◌};
    ghost use Rattle.io_ends.specs.Memory.{SinkState};

    ghost Value = { SinkState };

    ghost view = { λ s. record {
      taken = s.taken.items;
      piece = s.piece;
      fails = s.tally.fails;
      calls = s.tally.calls;
      faults = s.tally.faults;
    } };

    ghost invariant = { λ s. 0 < s.piece };
}

impl MemSink {
    /// A sink that takes pieces of at most `piece`, and fails at the calls of `fails`. It takes no
    /// memory before the first write.
    pub fn new(alloc: Global, piece: usize, fails: Calls) -> MemSink
        requires { 0 < piece }
        ensures { result ≡ record { taken = []; piece = piece; fails = fails; calls = 0; faults = 0 } }
    {
        MemSink {
            taken: Vec::new(alloc),
            piece,
            tally: Tally::new(fails),
        }
    }

    /// All bytes taken so far.
    pub fn bytes(&self) -> &[u8]
        ensures { result.now ≡ self.now.taken }
    {
        self.taken.as_slice()
    }
}

impl Sink for MemSink {
    ghost use Rattle.std.specs.Prelude.{Some};

    ghost written = { λ s. Some s.taken };

    ghost faults = { λ s. s.faults };

    fn write(&mut self, piece: &[u8]) -> Result<usize, SinkFault>
        ensures bound { IfOk result (λ taken. taken ≤ length piece.now) }
        ensures some { IfOk result (λ taken. 0 < length piece.now → 0 < taken) }
        ensures bytes { WriteAppends (Some self.old.taken) (Some self.new.taken) result piece.now }
        ensures count { Counts (is_sink_fault result) self.old.faults self.new.faults }

        // What the form in memory tells beyond the trait.
        ensures taken { IfOk result (λ taken. taken ≡ min self.old.piece (length piece.now)) }
        ensures fails { IsErrOf result SinkFault.Failed ↔ IsTrue (is_to_fail self.old.fails self.new.calls) }
        ensures calls { self.new.calls ≡ one_more self.old.calls }
        ensures counted { self.new.faults ≡ faults_after self.old.fails self.new.calls self.old.faults }
        ensures same_piece { self.new.piece ≡ self.old.piece }
        ensures same_fails { self.new.fails ≡ self.old.fails }
    {
        if self.tally.next_fails() {
            return Err(SinkFault::Failed);
        }
        let taken = self.piece.min(piece.len());
        self.taken.extend_from_slice(&piece[..taken])?;
        Ok(taken)
    }

    fn flush(&mut self) -> Result<(), SinkFault>
        ensures bytes { Keeps (Some self.old.taken) (Some self.new.taken) }
        ensures count { Counts (is_sink_fault result) self.old.faults self.new.faults }

        // What the form in memory tells beyond the trait. A flush is a call too.
        ensures fails { IsErr result ↔ IsTrue (is_to_fail self.old.fails self.new.calls) }
        ensures only { IsErr result → IsErrOf result SinkFault.Failed }
        ensures calls { self.new.calls ≡ one_more self.old.calls }
        ensures counted { self.new.faults ≡ faults_after self.old.fails self.new.calls self.old.faults }
        ensures same_piece { self.new.piece ≡ self.old.piece }
        ensures same_fails { self.new.fails ≡ self.old.fails }
    {
        if self.tally.next_fails() {
            return Err(SinkFault::Failed);
        }
        Ok(())
    }
}
