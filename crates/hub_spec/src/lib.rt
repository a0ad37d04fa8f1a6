//! What a history of requests is answered: the definitions that every claim of the engine rests on.
//!
//! `specs/` has, from below: steps with their replies (`Past`), the batch that a request asks
//! for (`Reading`), the plan that a request asks for (`Plans`), ports and their batches (`Ports`), the
//! table's rows (`Rows`), the views that are held (`HeldViews`), what was told of a view and touched
//! since (`Bases`), the answer where memory is plenty (`Answers`), choices and legal histories
//! (`Histories`), and runs (`Runs`). `proofs/Worked.antt` computes answers of short ones.
//!
//! `Caller` is what a loop over requests asks of whatever answers them. The other functions are laws:
//! they do nothing, and their contracts say what holds of every history.
#![tactic(auto)]

ghost use Rattle.hub_spec.specs.Laws.{AppliedThenWaiting, AppliedInOrder, DeltasFold, RowsAreApplied, RefusalsChangeNothing};

mod caller;

pub use caller::{Caller, call_alone};

/// No batch is lost or made on the way: on each port, the applied batches and then the waiting ones
/// are the accepted ones, and they were applied in the order of their numbers, each once. The rows
/// come from the applied batches alone. It does nothing, and its contract is the law.
pub fn batches_are_kept()
    ensures all { AppliedThenWaiting }
    ensures in_order { AppliedInOrder }
    ensures rows { RowsAreApplied }
{}

/// A step that is refused changes nothing but the session's count of requests. It does nothing, and its contract
/// is the law.
pub fn refusals_change_nothing()
    ensures { RefusalsChangeNothing }
{}

/// A client that begins with a view's opening, folds in each delta of it and takes each
/// resynchronisation holds what the view showed at the last of them, with its mark, and no delta is
/// refused. It does nothing, and its contract is the law.
pub fn deltas_fold()
    ensures { DeltasFold }
{}
