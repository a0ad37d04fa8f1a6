ghost use Rattle.std.specs.Prelude.{◌≡◌, ◌+◌, ◌^◌, ◌<◌, ◌≤◌, ℕ, true, false, [], List, Option, length, string_bytes, option_map, OnOk, OnErr, IsErrOf, IfOk, IfErr, IfSome};
ghost use Rattle.io_ends.specs.Causes.{Counts};
ghost use Rattle.frame_types.specs.Asks.{asked_view};
ghost use Rattle.frame_types.specs.Limits.{sessions};
ghost use Rattle.hub_spec.specs.Callers.{SpeaksForAll};
ghost use Rattle.hub_spec.specs.Histories.{Entry};
ghost use Rattle.session_core.specs.Faults.{end_of, fault_end, has_read_fault, has_write_fault, is_read_fault, is_write_fault};
ghost use Rattle.session_core.specs.Outcome.{Moved, Outcome};
ghost use Rattle.session_core.specs.Script.{asked_in, reply_line, script_limit};
ghost use Rattle.session_core.specs.Underway.{IsCaughtUp, IsReplied, IsPartlyReplied, counted};

use cell_core::Memory;
use frame_json::{read_request, write_reply};
use frame_types::{Asked, FrameCause, Reply, Request};
use hub_spec::{Caller, call_alone};
use io_ends::{Line, LineFault, LineReader, Sink, SinkFault, Source, write_whole};
use std::alloc::Global;

/// The most bytes of a request line.
const LONGEST: u64 = 1_048_576;

/// How a script ended.
#[derive(Clone, Copy, Debug, Drop, PartialEq, Eq)]
pub enum ScriptEnd {
    /// The input was read to its end, and so many lines were answered.
    Done { lines: u64 },
    /// Memory was wanted outside a step.
    Memory,
    /// More than 2^30 bytes were given.
    TooLong,
    /// The source failed.
    ReadFault,
    /// The sink failed.
    WriteFault,
}

/// Why a script ended before its input did.
#[derive(Clone, Copy, Debug, Drop, PartialEq, Eq)]
enum Fault {
    Memory,
    TooLong,
    Read,
    Write,
}

impl From<Memory> for Fault {
    ghost use Rattle.std.specs.Prelude.{◌≡◌};
    ghost use Rattle.session_core.specs.declared.script.Fault.TheVariants as fault;

    ghost from_gives = { λ want made. made ≡ fault.Memory };

    fn from(_refused: Memory) -> Fault {
        Fault::Memory
    }
}

impl From<LineFault> for Fault {
    ghost use Rattle.std.specs.Prelude.{◌≡◌};
    ghost use Rattle.session_core.specs.Faults.{of_line};

    ghost from_gives = { λ why made. made ≡ of_line why };

    fn from(why: LineFault) -> Fault {
        match why {
            LineFault::Read => Fault::Read,
            LineFault::TooMany => Fault::TooLong,
            LineFault::Memory => Fault::Memory,
        }
    }
}

impl From<SinkFault> for Fault {
    ghost use Rattle.std.specs.Prelude.{◌≡◌};
    ghost use Rattle.session_core.specs.Faults.{of_sink};

    ghost from_gives = { λ why made. made ≡ of_sink why };

    fn from(why: SinkFault) -> Fault {
        match why {
            SinkFault::Failed => Fault::Write,
            SinkFault::Memory => Fault::Memory,
        }
    }
}

/// Answers the lines of a script, each by one reply line.
///
/// A reply line and its line end are offered to the sink as one piece, what wasn't taken is offered
/// again, and a flush comes last. Lines of more than 1,048,576 bytes are no requests.
pub fn run_script<S: Source, K: Sink, C: Caller>(
    alloc: Global,
    caller: &mut C,
    source: &mut S,
    sink: &mut K,
) -> ScriptEnd
    requires alone { SpeaksForAll (C.speaks caller.old) }
    requires stands { C.stands caller.old [] }
    requires limit { C.limit caller.old ≡ script_limit }

    // What was read and written, and the history that the caller then stands for.
    ensures ran { Moved (S.left source.old) (S.left source.new) (K.written sink.old) (K.written sink.new)
        (Outcome result (S.left source.new) (C.stands caller.new)) }
    ensures limit { C.limit caller.new ≡ C.limit caller.old }
    ensures speaks { (session : ℕ) → C.speaks caller.new session ≡ C.speaks caller.old session }

    // Each fault of an end shows, and nothing else does.
    ensures read { Counts (is_read_fault result) (S.faults source.old) (S.faults source.new) }
    ensures write { Counts (is_write_fault result) (K.faults sink.old) (K.faults sink.new) }
{
    end_of_script(answer_lines(alloc, caller, source, sink))
}

fn end_of_script(lines: Result<u64, Fault>) -> ScriptEnd
    ensures { result ≡ end_of lines }
{
    match lines {
        Ok(lines) => ScriptEnd::Done { lines },
        Err(Fault::Memory) => ScriptEnd::Memory,
        Err(Fault::TooLong) => ScriptEnd::TooLong,
        Err(Fault::Read) => ScriptEnd::ReadFault,
        Err(Fault::Write) => ScriptEnd::WriteFault,
    }
}

/// The number of lines answered, at the end of input.
fn answer_lines<S: Source, K: Sink, C: Caller>(
    alloc: Global,
    caller: &mut C,
    source: &mut S,
    sink: &mut K,
) -> Result<u64, Fault>
    requires alone { SpeaksForAll (C.speaks caller.old) }
    requires stands { C.stands caller.old [] }
    requires limit { C.limit caller.old ≡ script_limit }
    ensures ran { Moved (S.left source.old) (S.left source.new) (K.written sink.old) (K.written sink.new)
        (Outcome (end_of result) (S.left source.new) (C.stands caller.new)) }
    ensures alone { SpeaksForAll (C.speaks caller.new) }
    ensures limit { C.limit caller.new ≡ script_limit }
    ensures read { Counts (has_read_fault result) (S.faults source.old) (S.faults source.new) }
    ensures write { Counts (has_write_fault result) (K.faults sink.old) (K.faults sink.new) }
{
    let mut reader = LineReader::make(alloc, LONGEST)?;
    let mut count: u64 = 0;
    'lines: loop {
        if !answer_next(alloc, caller, &mut reader, source, sink)? {
            break 'lines;
        }
        count = count.saturating_add(1);
    }
    sink.flush()?;
    Ok(count)
}

/// Answers the next line, and tells whether there was one.
fn answer_next<S: Source, K: Sink, C: Caller>(
    alloc: Global,
    caller: &mut C,
    reader: &mut LineReader,
    source: &mut S,
    sink: &mut K,
) -> Result<bool, Fault>
    requires usable { reader.old.failed ≡ false }
    requires within { reader.old.given ≤ 2 ^ 30 }
    requires longest { reader.old.longest ≡ LONGEST }
    requires alone { SpeaksForAll (C.speaks caller.old) }
    requires limit { C.limit caller.old ≡ script_limit }

    // What was read and written so far, from whatever it began with.
    ensures ok { IfOk result (λ more. (before : Option (List ℕ)) (into : Option (List ℕ)) (count : ℕ)
        → IsCaughtUp before (S.left source.old) into (K.written sink.old) reader.old count (C.stands caller.old)
        → IsCaughtUp before (S.left source.new) into (K.written sink.new) reader.new (counted more count)
        (C.stands caller.new)) }
    ensures last { IfOk result (λ more. more ≡ false → reader.new.ended ≡ true) }
    ensures err { IfErr result (λ why. (before : Option (List ℕ)) (into : Option (List ℕ)) (count : ℕ)
        → IsCaughtUp before (S.left source.old) into (K.written sink.old) reader.old count (C.stands caller.old)
        → Moved before (S.left source.new) into (K.written sink.new)
        (Outcome (fault_end why) (S.left source.new) (C.stands caller.new))) }

    // What the next call needs.
    ensures usable { OnOk result (reader.new.failed ≡ false) }
    ensures within { OnOk result (reader.new.given ≤ 2 ^ 30) }
    ensures takes { IfOk result (λ more. more ≡ true
        → reader.old.given + length reader.new.held < reader.new.given + length reader.old.held) }
    ensures longest { reader.new.longest ≡ LONGEST }
    ensures alone { SpeaksForAll (C.speaks caller.new) }
    ensures limit { C.limit caller.new ≡ script_limit }

    // Each fault of an end shows.
    ensures read { Counts (has_read_fault result) (S.faults source.old) (S.faults source.new) }
    ensures write { Counts (has_write_fault result) (K.faults sink.old) (K.faults sink.new) }
{
    let line = reader.next(source)?;
    let Some(asked) = asked_by(alloc, line)? else {
        return Ok(false);
    };
    answer(alloc, caller, asked, sink)?;
    Ok(true)
}

/// What a line asks, and nothing at the end.
fn asked_by(alloc: Global, line: Line) -> Result<Option<Asked>, Memory>
    ensures asked { IfOk result (λ found. option_map asked_view found ≡ asked_in line) }
    ensures session { IfOk result (λ found. IfSome found (λ asked. asked.session < sessions)) }
{
    match line {
        Line::Words(bytes) => {
            let asked = read_request(alloc, bytes.as_slice(), true)?;
            Ok(Some(asked))
        }
        Line::Long => Ok(Some(Asked {
            session: 0,
            request: Request::Unread(FrameCause::Long),
        })),
        Line::End => Ok(None),
    }
}

/// Answers one request by one reply line.
fn answer<K: Sink, C: Caller>(
    alloc: Global,
    caller: &mut C,
    asked: Asked,
    sink: &mut K,
) -> Result<(), Fault>
    requires session { asked.session < sessions }
    requires alone { SpeaksForAll (C.speaks caller.old) }
    ensures replied { OnOk result ((h : List Entry) → C.stands caller.old h → IsReplied (C.limit caller.old) h
        (asked_view asked) (C.stands caller.new) (K.written sink.old) (K.written sink.new)) }
    ensures partly { OnErr result ((h : List Entry) → C.stands caller.old h → IsPartlyReplied (C.limit caller.old) h
        (asked_view asked) (C.stands caller.new) (K.written sink.old) (K.written sink.new)) }
    ensures alone { SpeaksForAll (C.speaks caller.new) }
    ensures limit { C.limit caller.new ≡ C.limit caller.old }
    ensures write { Counts (has_write_fault result) (K.faults sink.old) (K.faults sink.new) }
    ensures no_read { IsErrOf result Fault.Read → ⊥ }
    ensures no_many { IsErrOf result Fault.TooLong → ⊥ }
{
    let reply = call_alone(caller, asked.session, asked.request);
    let line = rendered(alloc, &reply)?;
    write_whole(sink, line.as_bytes())?;
    Ok(())
}

/// The reply's text and its line end.
fn rendered(alloc: Global, reply: &Reply) -> Result<String, Memory>
    ensures { IfOk result (λ line. string_bytes line ≡ reply_line reply.now) }
{
    let mut line = write_reply(alloc, reply)?.into_string();
    line.push('\n')?;
    Ok(line)
}
