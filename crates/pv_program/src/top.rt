ghost use Rattle.std.specs.Prelude.{◌≡◌, ◌≤◌, ◌==◌, ◌↔◌, false, map};
ghost use Rattle.io_ends.specs.Causes.{Counts};
ghost use Rattle.session_core.specs.Outcome.{Moved};
ghost use Rattle.pv_program.specs.Statuses.{StatusSays, code_of};
ghost use Rattle.pv_program.specs.Words.{is_form};

use hub_core::{Hub, LocalCaller};
use io_ends::{Sink, Source};
use session_core::{ScriptEnd, run_script};
use std::alloc::Global;

/// The most requests that one run answers.
const LIMIT: u64 = 9_007_199_254_740_991;

/// The status that the program ends with.
#[derive(Clone, Copy, Debug, Drop, PartialEq, Eq)]
pub struct Status {
    pub code: u8,
}

/// Runs the command that the words name, over the source and the sink.
///
/// `script` is the only command: each line of the input is a request and is answered by one reply
/// line. The statuses are 0 where the input was read to its end and all output taken, 1 where memory
/// was wanted outside a request, 2 for other words, 3 where more than 2^30 bytes were given, 4 where
/// the source failed, and 5 where the sink did.
pub fn pv_main<S: Source, K: Sink>(
    alloc: Global,
    words: &[&str],
    source: &mut S,
    sink: &mut K,
) -> Status
    // What was read and written, for each status.
    ensures ran { Moved (S.left source.old) (S.left source.new) (K.written sink.old) (K.written sink.new)
        (λ given out. StatusSays result.code (S.left source.new) given out) }
    ensures known { result.code ≤ 5 }

    // When each status comes.
    ensures form { (result.code ≡ 2) ↔ (is_form (map (λ word. word.now) words.now) ≡ false) }
    ensures read { Counts (result.code == 4) (S.faults source.old) (S.faults source.new) }
    ensures write { Counts (result.code == 5) (K.faults sink.old) (K.faults sink.new) }
{
    if !is_script(words) {
        return Status { code: 2 };
    }
    match Hub::make(alloc, LIMIT) {
        Ok(hub) => status_of(run_script(alloc, &mut LocalCaller::new(hub), source, sink)),
        Err(_) => Status { code: 1 },
    }
}

fn is_script(words: &[&str]) -> bool
    ensures { result ≡ is_form (map (λ word. word.now) words.now) }
{
    words.len() == 1 && words[0] == "script"
}

fn status_of(end: ScriptEnd) -> Status
    ensures { result.code ≡ code_of end }
{
    let code = match end {
        ScriptEnd::Done { .. } => 0,
        ScriptEnd::Memory => 1,
        ScriptEnd::TooLong => 3,
        ScriptEnd::ReadFault => 4,
        ScriptEnd::WriteFault => 5,
    };
    Status { code }
}
