ghost use Rattle.std.specs.Prelude.{◌≡◌, ◌<◌, ℕ, [], None};
ghost use Rattle.frame_types.specs.Asks as ask;
ghost use Rattle.frame_types.specs.Limits.{sessions};
ghost use Rattle.frame_types.specs.ReplyData.{EndsAt};
ghost use Rattle.hub_spec.specs.Giving.{AfterEach, AnswersAfter, body_in};
ghost use Rattle.hub_spec.specs.Ports as ports;
ghost use Rattle.hub_core.specs.Holding.{Holds, version_of};

use crate::engine::Engine;
use crate::refused;
use cell_core::{Columns, Schema, SchemaRefused, Steps, Text};
use frame_types::{Body, Refusal, Request};
use std::alloc::Global;
use std::sync::ledger::Ledger;
use table_core::Table;

/// What a hub holds besides its counts of requests: nothing until a table is made.
#[derive(Drop)]
pub struct Machine {
    alloc: Global,
    pub engine: Option<Engine>,
}

impl Machine {
    /// The machine before any request.
    pub fn new(alloc: Global) -> Machine
        ensures { Holds result [] }
    {
        Machine {
            alloc,
            engine: None,
        }
    }

    /// How many batches were applied.
    pub fn version(&self) -> u64
        ensures value { result ≡ version_of self.now }
        ensures holds { AfterEach (Holds self.now) (λ past. result ≡ ports.version past) }
    {
        match &self.engine {
            Some(engine) => engine.version,
            None => 0,
        }
    }

    /// Answers one request of a session, where the history isn't full.
    pub fn act<L: Ledger>(&mut self, session: u32, request: Request, steps: &mut Steps<L>) -> Body
        requires { session < sessions }
        ensures gives { AnswersAfter (Holds self.old) session (ask.request_view request) result (Holds self.new) }
        ensures ends { EndsAt (version_of self.new) result }
    {
        match self.answer(session, request, steps) {
            Ok(answer) => answer,
            Err(why) => Body::Refused(why),
        }
    }

    /// The answer to a request, or why it is refused.
    fn answer<L: Ledger>(
        &mut self,
        session: u32,
        request: Request,
        steps: &mut Steps<L>,
    ) -> Result<Body, Refusal>
        requires { session < sessions }
        ensures gives { AnswersAfter (Holds self.old) session (ask.request_view request) (body_in result) (Holds self.new) }
        ensures ends { EndsAt (version_of self.new) (body_in result) }
    {
        match &mut self.engine {
            Some(engine) => engine.answer(session, request, steps),
            None => self.begin(request),
        }
    }

    /// The answer where no table was made.
    fn begin(&mut self, request: Request) -> Result<Body, Refusal>
        requires { self.old.engine ≡ None }
        ensures gives { (session : ℕ) → AnswersAfter (Holds self.old) session (ask.request_view request) (body_in result) (Holds self.new) }
        ensures ends { (at : ℕ) → EndsAt at (body_in result) }
    {
        match request {
            Request::Table {
                columns,
                index,
                limit,
            } => self.make_table(columns, index, limit),
            Request::Leave => Ok(Body::Left { closed: 0 }),
            Request::Unread(why) => Err(refused::unread(why)),
            _ => Err(refused::no_table()),
        }
    }

    /// Makes the table.
    fn make_table(
        &mut self,
        columns: Columns,
        index: Option<Text>,
        limit: Option<i64>,
    ) -> Result<Body, Refusal>
        requires { self.old.engine ≡ None }
        ensures gives { (session : ℕ) → AnswersAfter (Holds self.old) session (ask.table columns index limit) (body_in result) (Holds self.new) }
        ensures ends { (at : ℕ) → EndsAt at (body_in result) }
    {
        let schema = match Schema::make(self.alloc, columns, index, limit) {
            Ok(schema) => schema,
            Err(SchemaRefused::Bad { cause, at }) => return Err(refused::bad_schema(cause, at)),
            Err(SchemaRefused::Memory) => return Err(refused::memory()),
        };
        let Ok(table) = Table::make(self.alloc, schema) else {
            return Err(refused::memory());
        };
        self.engine = Some(Engine::new(self.alloc, table));
        Ok(Body::Table)
    }
}
