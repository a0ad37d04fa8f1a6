ghost use Rattle.hub_core.specs.Taken.{AreTaken, AreTaken-prop};

use crate::contents::Contents;
use crate::refused;
use cell_core::Steps;
use frame_types::{Body, Refusal, Request};
use hub_ports::Ports;
use hub_views::{Change, Views};
use std::alloc::Global;
use std::sync::ledger::Ledger;
use table_core::Table;

/// A table with its ports and the views of every session.
#[derive(Drop)]
pub struct Engine {
    pub alloc: Global,
    pub table: Table,
    /// How many batches were applied.
    pub version: u64,
    pub ports: Ports,
    pub views: Views,
    /// The table takes each batch that waits.
    ghost taken: { AreTaken table.schema ports.live } by { AreTaken-prop table.schema ports.live },
}

impl Engine {
    ghost use Rattle.std.specs.Prelude.{◌≡◌, ◌<◌, Some};
    ghost use Rattle.row_batch.specs.Batches.{empty_store};
    ghost use Rattle.frame_types.specs.Asks as ask;
    ghost use Rattle.frame_types.specs.Limits.{sessions};
    ghost use Rattle.frame_types.specs.ReplyData.{EndsAt};
    ghost use Rattle.hub_spec.specs.Giving.{AfterEach, AnswersAfter, body_in};
    ghost use Rattle.hub_core.specs.Holding.{HoldsAll, HoldsSchema};
    ghost use Rattle.hub_views.specs.Changing.{asked_by};

    /// A table with no rows, without ports and views.
    pub fn new(alloc: Global, table: Table) -> Engine
        requires { table.store ≡ empty_store }
        ensures { AfterEach (HoldsSchema (Some table.schema)) (HoldsAll result) }
    {
        Engine {
            alloc,
            table,
            version: 0,
            ports: Ports::new(alloc),
            views: Views::new(alloc),
        }
    }

    /// The answer to a request, or why it is refused.
    pub fn answer<L: Ledger>(
        &mut self,
        session: u32,
        request: Request,
        steps: &mut Steps<L>,
    ) -> Result<Body, Refusal>
        requires { session < sessions }
        ensures gives { AnswersAfter (HoldsAll self.old) session (ask.request_view request) (body_in result) (HoldsAll self.new) }
        ensures ends { EndsAt self.new.version (body_in result) }
    {
        match request {
            Request::Table { .. } => Err(refused::table_set()),
            Request::Port => self.make_port(),
            Request::Leave => Ok(self.views.leave(session)),
            Request::Info => self.info(),
            Request::Update { port, rows } => self.queue(port, Contents::Update(rows), steps),
            Request::Replace { port, rows } => self.queue(port, Contents::Replace(rows), steps),
            Request::Csv { port, text } => self.queue(port, Contents::Csv(text), steps),
            Request::Remove { port, keys } => self.queue(port, Contents::Remove(keys), steps),
            Request::Clear { port } => self.queue(port, Contents::Clear, steps),
            Request::ClosePort { port } => self.close_port(port),
            Request::Apply { port } => self.apply(port, steps),
            Request::Open { plan, bound } => {
                self.views
                    .open(session, &plan, bound, &self.table, self.version, steps)
            }
            Request::Edit { view, plan } => self.change(session, view, Change::Plan(plan), steps),
            Request::Depth { view, depth } => {
                self.change(session, view, Change::Depth(depth), steps)
            }
            Request::Expand { view, path } => {
                self.change(session, view, Change::Expand(path), steps)
            }
            Request::Collapse { view, path } => {
                self.change(session, view, Change::Collapse(path), steps)
            }
            Request::Take { view, wait: _ } => self.views.take(session, view, self.version),
            Request::Rows { view, from, to } => self.views.rows(session, view, from, to),
            Request::Close { view } => self.views.close(session, view),
            Request::Unread(why) => Err(refused::unread(why)),
        }
    }

    /// Makes a change of a view.
    fn change<L: Ledger>(
        &mut self,
        session: u32,
        view: u64,
        change: Change,
        steps: &mut Steps<L>,
    ) -> Result<Body, Refusal>
        ensures gives { AnswersAfter (HoldsAll self.old) session (asked_by view change) (body_in result) (HoldsAll self.new) }
        ensures ends { EndsAt self.new.version (body_in result) }
    {
        self.views
            .change(session, view, &change, &self.table, steps)
    }
}
