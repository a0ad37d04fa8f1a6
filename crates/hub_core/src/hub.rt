ghost use Rattle.std.specs.Prelude.{◌≡◌, List, [], length, ◌<◌, ◌^◌, IfOk};
ghost use Rattle.frame_types.specs.Asks.{request_view};
ghost use Rattle.frame_types.specs.Limits.{sessions};
ghost use Rattle.hub_spec.specs.Histories.{Entry};
ghost use Rattle.hub_spec.specs.Runs.{AnswersOneStep};
ghost use Rattle.hub_core.specs.Standing.{StandsFor, limit_of};

use crate::machine::Machine;
use crate::refused;
use cell_core::{Memory, Steps};
use frame_types::{Body, Reply, Request, SESSIONS};
use std::alloc::Global;
use std::sync::ledger::Ledger;

/// A table with its ports and the views of every session.
#[derive(Drop)]
pub struct Hub {
    limit: u64,
    /// How many requests were answered.
    entries: u64,
    /// How many of them each session asked.
    counts: [u64; SESSIONS],
    machine: Machine,
}

impl Hub {
    /// A hub without a table, which answers at most `limit` requests and refuses the rest.
    pub fn make(alloc: Global, limit: u64) -> Result<Hub, Memory>
        requires some { 0 < limit }
        requires small { limit < 2 ^ 53 }
        ensures stands { IfOk result (λ hub. StandsFor hub []) }
        ensures limit { IfOk result (λ hub. limit_of hub ≡ limit) }
    {
        Ok(Hub {
            limit,
            entries: 0,
            counts: [0; SESSIONS],
            machine: Machine::new(alloc),
        })
    }

    /// The length of the history: how many requests were answered, the refusals for a full history
    /// left out.
    pub fn entries(&self) -> u64
        ensures { (h : List Entry) → StandsFor self.now h → result ≡ length h }
    {
        self.entries
    }

    /// Answers one request of a session whole. `steps` counts the visits of the table's rows.
    ///
    /// The refusal for a full history changes nothing. Every other refusal changes the session's
    /// count of requests alone.
    pub fn step<L: Ledger>(&mut self, session: u32, request: Request, steps: &mut Steps<L>) -> Reply
        requires { session < sessions }
        ensures steps { (h : List Entry) → StandsFor self.old h
            → AnswersOneStep (limit_of self.old) h session (request_view request) result (StandsFor self.new) }
        ensures limit { limit_of self.new ≡ limit_of self.old }
    {
        let n = self.counts[session as usize].saturating_add(1);
        if self.entries >= self.limit {
            return Reply {
                n,
                version: self.machine.version(),
                body: Body::Refused(refused::history_full(self.limit)),
            };
        }
        self.entries += 1;
        self.counts[session as usize] = n;
        let body = self.machine.act(session, request, steps);
        Reply {
            n,
            version: self.machine.version(),
            body,
        }
    }
}
