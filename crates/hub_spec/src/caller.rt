ghost use Rattle.std.specs.Prelude.{◌≡◌, ◌<◌, ℕ, List, Bool, true};
ghost use Rattle.frame_types.specs.Asks.{request_view};
ghost use Rattle.frame_types.specs.Limits.{sessions};
ghost use Rattle.hub_spec.specs.Histories.{Entry};
ghost use Rattle.hub_spec.specs.Runs.{AnswersOneStep};
ghost use Rattle.hub_spec.specs.Callers.{Calls, SpeaksForAll};

use frame_types::{Reply, Request};

/// What answers the requests of some sessions, one after the other.
///
/// It stands for a history: `stands` says for which, `speaks` for which sessions it asks, and `limit`
/// is how many steps a history has at most. Between its calls others' steps may come.
pub trait Caller {
    ghost stands: { Self → List Entry → Type 0 };

    ghost speaks: { Self → ℕ → Bool };

    ghost limit: { Self → ℕ };

    /// Answers one request of a session, in one step.
    fn call(&mut self, session: u32, request: Request) -> Reply
        requires session { session < sessions }
        requires own { speaks self.old session ≡ true }
        ensures calls { (h : List Entry) → stands self.old h
            → Calls (limit self.old) (speaks self.old) h session (request_view request) result (stands self.new) }
        ensures limit { limit self.new ≡ limit self.old }
        ensures speaks { (s : ℕ) → speaks self.new s ≡ speaks self.old s };

    /// Returns once the view that the session holds under a number may have changed. It asks
    /// nothing, so it is no step.
    fn await_change(&mut self, session: u32, view: u64)
        requires session { session < sessions }
        requires own { speaks self.old session ≡ true }
        ensures stands { (h : List Entry) → stands self.old h → stands self.new h }
        ensures limit { limit self.new ≡ limit self.old }
        ensures speaks { (s : ℕ) → speaks self.new s ≡ speaks self.old s };
}

/// Answers one request by a caller that speaks for every session: nothing comes before the step.
pub fn call_alone<C: Caller>(caller: &mut C, session: u32, request: Request) -> Reply
    requires session { session < sessions }
    requires alone { SpeaksForAll (C.speaks caller.old) }
    ensures steps { (h : List Entry) → C.stands caller.old h
        → AnswersOneStep (C.limit caller.old) h session (request_view request) result (C.stands caller.new) }
    ensures limit { C.limit caller.new ≡ C.limit caller.old }
    ensures alone { SpeaksForAll (C.speaks caller.new) }
{
    caller.call(session, request)
}
