ghost use Rattle.std.specs.Prelude.{◌≡◌, ◌<◌, ◌↔◌, length, min, IfOk, IsErr, is_err, IsTrue};
ghost use Rattle.std.specs.Io.{ReadsAtMost};
ghost use Rattle.std.specs.Io.KnownBytes.{ReadConsumes};
ghost use Rattle.io_ends.specs.Causes.{Counts, one_more};
ghost use Rattle.io_ends.specs.Memory.{is_to_fail, faults_after};

use crate::calls::{Calls, Tally};
use crate::source::{Source, SourceFailed};
use plain_data::Bytes;
use std::marker::Model;

/// A source over bytes in memory, which gives them in pieces and fails at the calls that it is told.
#[derive(Debug, Drop)]
pub struct MemSource {
    bytes: Bytes,
    from: usize,
    piece: usize,
    tally: Tally,
}

impl Model for MemSource {
    ghost use Rattle.std.specs.Prelude.{◌≤◌, ◌<◌, length, drop};
    ghost use Rattle.io_ends.specs.Memory.{SourceState};

    ghost Value = { SourceState };

    ghost view = { λ s. record {
      left = drop s.from s.bytes;
      piece = s.piece;
      fails = s.tally.fails;
      calls = s.tally.calls;
      faults = s.tally.faults;
    } };

    ghost invariant = { λ s. (s.from ≤ length s.bytes) × (0 < s.piece) };
}

impl MemSource {
    /// A source that gives `bytes` in pieces of at most `piece`, and fails at the calls of `fails`.
    pub fn new(bytes: Bytes, piece: usize, fails: Calls) -> MemSource
        requires { 0 < piece }
        ensures { result ≡ record { left = bytes; piece = piece; fails = fails; calls = 0; faults = 0 } }
    {
        MemSource {
            bytes,
            from: 0,
            piece,
            tally: Tally::new(fails),
        }
    }
}

impl Source for MemSource {
    ghost use Rattle.std.specs.Prelude.{Some};

    ghost left = { λ s. Some s.left };

    ghost faults = { λ s. s.faults };

    fn read(&mut self, piece: &mut [u8]) -> Result<usize, SourceFailed>
        requires { 0 < length piece.old }
        ensures bound { ReadsAtMost result piece.new }
        ensures bytes { ReadConsumes (Some self.old.left) (Some self.new.left) result piece.new }
        ensures count { Counts (is_err result) self.old.faults self.new.faults }

        // What the form in memory tells beyond the trait.
        ensures given { IfOk result (λ given.
            given ≡ min self.old.piece (min (length piece.old) (length self.old.left))) }
        ensures fails { IsErr result ↔ IsTrue (is_to_fail self.old.fails self.new.calls) }
        ensures calls { self.new.calls ≡ one_more self.old.calls }
        ensures counted { self.new.faults ≡ faults_after self.old.fails self.new.calls self.old.faults }
        ensures same_piece { self.new.piece ≡ self.old.piece }
        ensures same_fails { self.new.fails ≡ self.old.fails }
    {
        if self.tally.next_fails() {
            return Err(SourceFailed);
        }
        let left = &self.bytes.as_slice()[self.from..];
        let given = self.piece.min(piece.len()).min(left.len());
        piece[..given].copy_from_slice(&left[..given]);
        self.from += given;
        Ok(given)
    }
}
