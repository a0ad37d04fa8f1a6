ghost use Rattle.std.specs.Prelude.{◌≡◌, ℕ, ◌+◌, ◌-◌, ◌^◌, ◌<◌, ◌≤◌, max, true, false, [], ◌++◌, length, take, vec_len, slice_index, MatchOption, IfOk, IfErr, OnOk, OnErr, is_err};
ghost use Rattle.std.specs.Io.KnownBytes.{IsAtEnd, ReadConsumes};
ghost use Rattle.io_ends.specs.Causes.{Counts, is_read_fault};
ghost use Rattle.io_ends.specs.Lines.{NoEnd, has_end};
ghost use Rattle.io_ends.specs.Reading.{Came, Gives, LeavesNone, IsWithin};

use crate::line::{Line, LineFault};
use crate::partial::Partial;
use crate::source::{Source, SourceFailed};
use memchr::memchr;
use std::alloc::{AllocError, Global};

/// How many bytes are asked for at most in one read.
const CHUNK: usize = 8192;

/// How many bytes a reader may be given.
const LIMIT: u64 = 1 << 30;

/// The bytes that came and weren't handed out, and the count of all that came.
#[derive(Drop)]
pub struct Intake {
    pub chunk: Vec<u8>,
    pub from: usize,
    pub to: usize,
    pub given: u64,
    pub ended: bool,
    ghost from_in: { from ≤ to },
    ghost to_in: { to ≤ vec_len chunk },
    ghost size: { vec_len chunk ≡ 8192 },
}

/// The place of the first byte 10.
fn end_of_line(bytes: &[u8]) -> Option<usize>
    ensures { MatchOption result (NoEnd bytes.now)
        (λ at. (at < length bytes.now) × (slice_index bytes.now at ≡ 10) × NoEnd (take at bytes.now)) }
{
    memchr(b'\n', bytes)
}

/// Reads up to `want` bytes to the front of `chunk`.
fn read_front<S: Source>(
    source: &mut S,
    chunk: &mut [u8],
    want: usize,
) -> Result<usize, SourceFailed>
    requires some { 0 < want }
    requires room { want ≤ length chunk.old }
    ensures bound { IfOk result (λ given. given ≤ want) }
    ensures bytes { ReadConsumes (S.left source.old) (S.left source.new) result chunk.new }
    ensures count { Counts (is_err result) (S.faults source.old) (S.faults source.new) }
{
    source.read(&mut chunk[..want])
}

impl Intake {
    ghost use Rattle.io_ends.specs.Intake.{held, TakesPart, Refilled};

    /// An intake that nothing came to.
    pub fn make(alloc: Global) -> Result<Intake, AllocError>
        ensures { IfOk result (λ intake.
            (held intake ≡ []) × (intake.given ≡ 0) × (intake.ended ≡ false)) }
    {
        Ok(Intake {
            chunk: vec![in alloc; 0; CHUNK]?,
            from: 0,
            to: 0,
            given: 0,
            ended: false,
        })
    }

    /// How many bytes to ask for: up to the limit, and there one byte more.
    fn want(&self) -> usize
        requires { self.now.given ≤ 2 ^ 30 }
        ensures some { 0 < result }
        ensures room { result ≤ 8192 }
        ensures limit { result ≤ max 1 (2 ^ 30 - self.now.given) }
    {
        (LIMIT - self.given).max(1).min(CHUNK as u64) as usize
    }

    /// Takes what is held into `front`, up to the end of the line. True says that the line ended.
    fn take_part(&mut self, longest: u64, front: &mut Partial) -> Result<bool, AllocError>
        ensures part { IfOk result (TakesPart longest (held self.old) (held self.new) front.old front.new) }
        ensures given { self.new.given ≡ self.old.given }
        ensures ended { self.new.ended ≡ self.old.ended }
    {
        let part = &self.chunk[self.from..self.to];
        match end_of_line(part) {
            Some(at) => {
                front.add(longest, &part[..at])?;
                self.from += at + 1;
                Ok(true)
            }
            None => {
                front.add(longest, part)?;
                self.from = self.to;
                Ok(false)
            }
        }
    }

    /// Asks the source for more, where nothing is held. False says that it is at its end.
    fn refill<S: Source>(&mut self, source: &mut S) -> Result<bool, LineFault>
        requires empty { held self.old ≡ [] }
        requires within { self.old.given ≤ 2 ^ 30 }
        ensures came { Came (S.left source.old) (S.left source.new) self.old.given self.new.given
            (λ came. (held self.new ≡ came) × OnErr result (take (2 ^ 30 - self.old.given) came ≡ [])) }
        ensures more { IfOk result (λ more. Refilled more (held self.new) self.new.ended (S.left source.new)) }
        ensures within { IsWithin result self.new.given }
        ensures count { Counts (is_read_fault result) (S.faults source.old) (S.faults source.new) }
    {
        let want = self.want();
        let given = read_front(source, &mut self.chunk, want)?;
        self.from = 0;
        self.to = given;
        self.given += given as u64;
        if self.given > LIMIT {
            return Err(LineFault::TooMany);
        }
        self.ended = given == 0;
        Ok(given > 0)
    }

    /// The next line, of which no more than `longest` bytes are kept.
    pub fn next_line<S: Source>(
        &mut self,
        alloc: Global,
        longest: u64,
        source: &mut S,
    ) -> Result<Line, LineFault>
        requires open { self.old.ended ≡ false }
        requires within { self.old.given ≤ 2 ^ 30 }
        ensures line { IfOk result (λ line. Came (S.left source.old) (S.left source.new) self.old.given self.new.given
            (λ came. Gives longest (held self.old ++ came) line (held self.new) self.new.ended)) }
        ensures end { OnOk result (self.new.ended ≡ true → IsAtEnd (S.left source.new)) }
        ensures fault { IfErr result (λ fault. Came (S.left source.old) (S.left source.new) self.old.given self.new.given
            (λ came. LeavesNone fault (held self.old) self.old.given came)) }
        ensures idle { has_end (held self.old) ≡ true → source.new ≡ source.old }
        ensures within { IsWithin result self.new.given }
        ensures count { Counts (is_read_fault result) (S.faults source.old) (S.faults source.new) }
    {
        let mut front = Partial::new(alloc);
        'parts: loop {
            if self.take_part(longest, &mut front)? {
                return Ok(front.whole());
            }
            if !self.refill(source)? {
                return Ok(front.last());
            }
        }
    }
}
