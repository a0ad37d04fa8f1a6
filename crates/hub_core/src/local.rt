ghost use Rattle.std.specs.Prelude.{◌≡◌, ◌<◌, List};
ghost use Rattle.frame_types.specs.Asks.{request_view};
ghost use Rattle.frame_types.specs.Limits.{sessions};
ghost use Rattle.hub_spec.specs.Histories.{Entry};
ghost use Rattle.hub_spec.specs.Runs.{AnswersOneStep};
ghost use Rattle.hub_core.specs.Standing.{StandsFor, limit_of};

use crate::hub::Hub;
use cell_core::Steps;
use frame_types::{Reply, Request};
use hub_spec::Caller;
use std::marker::Brand;
use std::sync::ledger::{Blank, Ledger};

/// A hub of one's own, which answers the requests of every session. It stands for what its hub
/// stands for.
#[derive(Drop)]
pub struct LocalCaller {
    hub: Hub,
}

impl LocalCaller {
    ghost use Rattle.std.specs.Prelude.{◌≡◌};
    ghost use Rattle.hub_core.specs.Callers.{hub_of};

    pub fn new(hub: Hub) -> LocalCaller
        ensures { hub_of result ≡ hub }
    {
        LocalCaller { hub }
    }

    /// The hub, after what was asked of it.
    pub fn end(self) -> Hub
        ensures { result ≡ hub_of self }
    {
        let LocalCaller { hub } = self;
        hub
    }
}

impl Caller for LocalCaller {
    ghost use Rattle.hub_core.specs.Callers.{hub_of};
    ghost use Rattle.std.specs.Prelude.{true};

    ghost stands = { λ c. StandsFor (hub_of c) };

    ghost speaks = { λ _ _. true };

    ghost limit = { λ c. limit_of (hub_of c) };

    fn call(&mut self, session: u32, request: Request) -> Reply {
        counted_step::<Brand>(&mut self.hub, session, request, Blank::new(1))
    }

    /// Nobody else asks this hub, so nothing is waited for.
    fn await_change(&mut self, _session: u32, _view: u64) {}
}

/// Answers one request, with a counter of visits for this step alone.
fn counted_step<L: Ledger>(hub: &mut Hub, session: u32, request: Request, blank: Blank) -> Reply
    requires session { session < sessions }
    requires name { blank.name ≡ L.name }
    requires parts { blank.parts ≡ L.parts }
    requires some { 0 < L.parts }
    ensures steps { (h : List Entry) → StandsFor hub.old h
        → AnswersOneStep (limit_of hub.old) h session (request_view request) result (StandsFor hub.new) }
    ensures limit { limit_of hub.new ≡ limit_of hub.old }
{
    let mut steps = Steps::<L>::new(blank);
    hub.step(session, request, &mut steps)
}
