ghost use Rattle.std.specs.Prelude.{◌≡◌, ◌↔◌, true, false, [], ◌++◌, IfOk, IfErr, OnOk, IsErr, IsTrue};
ghost use Rattle.std.specs.Io.KnownBytes.{IsAtEnd};
ghost use Rattle.io_ends.specs.Causes.{Counts, is_read_fault};
ghost use Rattle.io_ends.specs.Lines.{has_end};
ghost use Rattle.io_ends.specs.Reading.{Came, Gives, NextOf, LeavesNone, IsWithin, Takes};
ghost use Rattle.io_ends.specs.Told.{Told};

use crate::intake::Intake;
use crate::line::{Line, LineFault};
use crate::source::Source;
use plain_data::Memory;
use std::alloc::Global;
use std::marker::Model;

/// Cuts the bytes of a source into lines at byte 10, whatever pieces they come in.
///
/// It keeps what was read past a line, so one source goes with one reader.
#[derive(Drop)]
pub struct LineReader {
    intake: Intake,
    longest: u64,
    failed: bool,
    alloc: Global,
}

impl Model for LineReader {
    ghost use Rattle.std.specs.Prelude.{◌≡◌, ◌^◌, ◌≤◌, true, false, []};
    ghost use Rattle.io_ends.specs.Intake.{held};
    ghost use Rattle.io_ends.specs.Reading.{ReaderState};

    ghost Value = { ReaderState };

    ghost view = { λ r. record {
      held = held r.intake;
      given = r.intake.given;
      longest = r.longest;
      ended = r.intake.ended;
      failed = r.failed;
    } };

    ghost invariant = { λ r. r.failed ≡ false
        → (r.intake.given ≤ 2 ^ 30) × (r.intake.ended ≡ true → held r.intake ≡ []) };
}

impl LineReader {
    /// A reader that was given nothing. Lines of more than `longest` bytes are read past.
    pub fn make(alloc: Global, longest: u64) -> Result<LineReader, Memory>
        ensures { IfOk result (λ reader. reader ≡ record {
          held = [];
          given = 0;
          longest = longest;
          ended = false;
          failed = false;
        }) }
    {
        let intake = Intake::make(alloc)?;
        Ok(LineReader {
            intake,
            longest,
            failed: false,
            alloc,
        })
    }

    /// The next line. An empty rest at the end of input is no line.
    ///
    /// It reads only where it holds no whole line, never asks for more than is left to 2^30 given
    /// bytes, and once so many were given asks for one byte more. Once a read gave the end it never
    /// reads again. After an error the reader gives no more lines.
    pub fn next<S: Source>(&mut self, source: &mut S) -> Result<Line, LineFault>
        requires { self.old.failed ≡ false }

        // What came in this call, and the answer as the first line of what was held and what came.
        ensures line { IfOk result (λ line. Came (S.left source.old) (S.left source.new) self.old.given self.new.given
            (λ came. Gives self.old.longest (self.old.held ++ came) line self.new.held self.new.ended)) }
        ensures end { OnOk result (self.new.ended ≡ true → self.old.ended ≡ false → IsAtEnd (S.left source.new)) }
        ensures fault { IfErr result (λ fault. Came (S.left source.old) (S.left source.new) self.old.given self.new.given
            (λ came. LeavesNone fault self.old.held self.old.given came)) }

        // Where the source isn't called.
        ensures ended { self.old.ended ≡ true → self.old.held ≡ []
            → (result ≡ Ok Line.End) × (source.new ≡ source.old) × (self.new.ended ≡ true) }
        ensures idle { has_end self.old.held ≡ true → source.new ≡ source.old }

        // Of a source that tells its bytes: the answer is the next of their lines.
        ensures next { IfOk result (λ line. self.old.ended ≡ false → Told (S.left source.old) (S.left source.new)
            (λ before after. NextOf self.old.longest (self.old.held ++ before) line (self.new.held ++ after))) }
        ensures takes { IfOk result (λ line. Takes line self.old self.new) }

        // When each error comes.
        ensures within { IsWithin result self.new.given }
        ensures count { Counts (is_read_fault result) (S.faults source.old) (S.faults source.new) }

        ensures longest { self.new.longest ≡ self.old.longest }
        ensures failed { IsTrue self.new.failed ↔ IsErr result }
    {
        if self.intake.ended {
            return Ok(Line::End);
        }
        let line = self.intake.next_line(self.alloc, self.longest, source);
        self.failed = line.is_err();
        line
    }
}
