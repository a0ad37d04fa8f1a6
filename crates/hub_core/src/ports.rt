ghost use Rattle.std.specs.Prelude.{◌≡◌, ◌<◌, ℕ, [], ◌∷◌, length, slice_get, Some, false, IfOk};
ghost use Rattle.frame_types.specs.Asks as ask;
ghost use Rattle.frame_types.specs.ReplyData.{EndsAt};
ghost use Rattle.hub_ports.specs.Ports.{port_at};
ghost use Rattle.hub_spec.specs.Answers.{closed_port, full_port, full_table_for, nothing_waits, without_port};
ghost use Rattle.hub_spec.specs.Giving.{AfterEach, AnswersAfter, body_in};
ghost use Rattle.hub_core.specs.Holding.{HoldsAll, HoldsPorts};
ghost use Rattle.hub_core.specs.Queueing.{asked_by, without_room};
ghost use Rattle.hub_core.specs.Refusing.{Tested, TestedInMemory};
ghost use Rattle.hub_views.specs.Refreshing.{applied_body};

use crate::contents::Contents;
use crate::engine::Engine;
use crate::refused;
use cell_core::Steps;
use frame_types::{Body, Lost, Refusal};
use hub_ports::Ports;
use row_batch::Batch;
use std::sync::ledger::Ledger;

impl Engine {
    /// Makes a port.
    pub fn make_port(&mut self) -> Result<Body, Refusal>
        ensures gives { (session : ℕ) → AnswersAfter (HoldsAll self.old) session ask.port (body_in result) (HoldsAll self.new) }
        ensures ends { (at : ℕ) → EndsAt at (body_in result) }
    {
        if self.ports.is_full() {
            return Err(refused::too_many_ports());
        }
        match self.ports.add(self.alloc) {
            Ok(port) => Ok(Body::Port { port }),
            Err(_) => Err(refused::memory()),
        }
    }

    /// Queues a batch on an open port.
    pub fn queue<L: Ledger>(
        &mut self,
        port: u64,
        contents: Contents,
        steps: &mut Steps<L>,
    ) -> Result<Body, Refusal>
        ensures gives { (session : ℕ) → AnswersAfter (HoldsAll self.old) session (asked_by port contents) (body_in result) (HoldsAll self.new) }
        ensures ends { (at : ℕ) → EndsAt at (body_in result) }
    {
        let place = open_place(&self.ports, port)?;
        let batch = contents.read(self.alloc, self.table.schema())?;
        self.check_room(place, &batch, steps)?;
        match self.ports.put(place, batch) {
            Ok(seq) => Ok(Body::Queued { port, seq }),
            // An open port that is not full refuses for want of numbers alone.
            Err(_) => Err(refused::memory()),
        }
    }

    /// Whether the port at a place has room for a batch more, and the table for its rows.
    fn check_room<L: Ledger>(
        &self,
        place: usize,
        batch: &Batch,
        steps: &mut Steps<L>,
    ) -> Result<(), Refusal>
        requires { place < length self.now.ports.live }
        ensures { AfterEach (HoldsAll self.now) (λ past.
            TestedInMemory (full_port past (port_at self.now.ports.live place).number ∷ without_room past batch.now ∷ []) result) }
    {
        if self.ports.queue(place).is_full() {
            return Err(refused::port_full());
        }
        match batch {
            Batch::Update(_) | Batch::Replace(_) => self.check_rows(batch, steps),
            Batch::Remove(_) | Batch::Clear => Ok(()),
        }
    }

    /// Whether the table has room for the rows of a batch more.
    fn check_rows<L: Ledger>(&self, batch: &Batch, steps: &mut Steps<L>) -> Result<(), Refusal>
        ensures { AfterEach (HoldsAll self.now) (λ past. TestedInMemory (full_table_for past (Some batch.now) ∷ []) result) }
    {
        match self.too_many_rows(batch, steps) {
            Ok(None) => Ok(()),
            Ok(Some(would)) => Err(refused::table_full(would)),
            Err(_) => Err(refused::memory()),
        }
    }

    /// Closes a port.
    pub fn close_port(&mut self, port: u64) -> Result<Body, Refusal>
        ensures gives { (session : ℕ) → AnswersAfter (HoldsAll self.old) session (ask.close_port port) (body_in result) (HoldsAll self.new) }
        ensures ends { (at : ℕ) → EndsAt at (body_in result) }
    {
        let place = open_place(&self.ports, port)?;
        self.ports.close(place);
        Ok(Body::PortClosed { port })
    }

    /// Applies the oldest batch that waits on a port.
    pub fn apply<L: Ledger>(&mut self, port: u64, steps: &mut Steps<L>) -> Result<Body, Refusal>
        ensures gives { (session : ℕ) → AnswersAfter (HoldsAll self.old) session (ask.apply port) (body_in result) (HoldsAll self.new) }
        ensures ends { (at : ℕ) → EndsAt at (body_in result) }
    {
        let (place, batch) = oldest_batch(&self.ports, port)?;
        let Ok(room) = self.views.loss_room() else {
            return Err(refused::memory());
        };
        let Ok(prepared) = self.table.prepare(self.alloc, batch) else {
            return Err(refused::memory());
        };
        let seq = self.ports.queue(place).taken().saturating_add(1);
        let changes = self.table.apply(prepared);
        drop(self.ports.take_front(place));
        self.version = self.version.saturating_add(1);
        let lost = self
            .views
            .refresh(&self.table, changes.as_slice(), self.version, room, steps);
        Ok(applied(port, seq, lost))
    }
}

/// The place of the open port of that number.
fn open_place(ports: &Ports, port: u64) -> Result<usize, Refusal>
    ensures tested { AfterEach (HoldsPorts ports.now) (λ past. Tested (without_port past port ∷ closed_port past port ∷ []) result) }
    ensures number { IfOk result (λ place. (port_at ports.now.live place).number ≡ port) }
    ensures open { IfOk result (λ place. (port_at ports.now.live place).queue.closed ≡ false) }
    ensures within { IfOk result (λ place. place < length ports.now.live) }
{
    if port >= ports.made() {
        return Err(refused::no_port());
    }
    match ports.find(port) {
        Some(place) if !ports.queue(place).is_closed() => Ok(place),
        _ => Err(refused::port_closed()),
    }
}

/// The place of the port of that number, and the oldest batch that waits there.
fn oldest_batch(ports: &Ports, port: u64) -> Result<(usize, &Batch), Refusal>
    ensures tested { AfterEach (HoldsPorts ports.now) (λ past. Tested (without_port past port ∷ nothing_waits past port ∷ []) result) }
    ensures number { IfOk result (λ found. (port_at ports.now.live found.0).number ≡ port) }
    ensures front { IfOk result (λ found. slice_get (port_at ports.now.live found.0).queue.waiting 0 ≡ Some found.1.now) }
    ensures within { IfOk result (λ found. found.0 < length ports.now.live) }
{
    if port >= ports.made() {
        return Err(refused::no_port());
    }
    let Some(place) = ports.find(port) else {
        return Err(refused::empty());
    };
    match ports.queue(place).front() {
        Some(batch) => Ok((place, batch)),
        None => Err(refused::empty()),
    }
}

/// The answer to an applied batch, by the views that were lost.
fn applied(port: u64, seq: u64, lost: Lost) -> Body
    ensures value { result ≡ applied_body port seq lost }
    ensures ends { (at : ℕ) → EndsAt at result }
{
    if lost.as_slice().is_empty() {
        Body::Applied { port, seq }
    } else {
        Body::AppliedLosing { lost, port, seq }
    }
}
