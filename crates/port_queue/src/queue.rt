ghost use Rattle.std.specs.Prelude.{◌≡◌, ◌+◌, ◌-◌, ◌*◌, ◌<◌, ◌≤◌, ◌^◌, nat_le, length, slice_get, sum_by};
ghost use Rattle.std.specs.Prelude.{Some, option_map, true, OnOk, OnErr, IfOk};
ghost use Rattle.std.specs.Option.{option_copied};
ghost use Rattle.row_batch.specs.Batches.{rows_in};
ghost use Rattle.port_queue.specs.Queues.{empty_queue, put_outcome, with_batch, without_first};

use cell_core::Memory;
use circular_buffer::HeapCircularBuffer;
use row_batch::{Batch, MAX_BATCH};
use std::alloc::Global;
use std::error::Error;
use std::fmt;
use std::marker::Model;

/// The most batches that may wait on one port.
pub const MAX_WAITING: usize = 64;

/// Why a queue takes no batch.
#[derive(Clone, Copy, Debug, Drop, PartialEq, Eq)]
pub enum QueueRefused {
    /// The port was closed.
    Closed,
    /// 64 batches wait.
    Full,
}

impl fmt::Display for QueueRefused {
    fn fmt<W: fmt::Write>(&self, f: &mut fmt::Formatter<W>) -> fmt::Result {
        match self {
            QueueRefused::Closed => write!(f, "the port is closed"),
            QueueRefused::Full => write!(f, "{MAX_WAITING} batches wait on the port"),
        }
    }
}

impl Error for QueueRefused {}

/// The batches that wait on a port, the oldest first.
#[derive(Drop)]
pub struct PortQueue {
    ring: HeapCircularBuffer<Batch>,
    /// How many batches were put in.
    accepted: u64,
    closed: bool,
}

impl Model for PortQueue {
    ghost use Rattle.std.specs.Prelude.{◌≡◌, All};
    ghost use Rattle.port_queue.specs.Queues.{QueueData, IsSmall};

    ghost Value = { QueueData };

    ghost view = { λ q. record { waiting = q.ring.items; accepted = q.accepted; closed = q.closed } };

    ghost invariant = { λ q. (q.ring.capacity ≡ 64) × All IsSmall q.ring.items };
}

impl PortQueue {
    /// A queue on which no batch was put, with room for 64.
    pub fn make(alloc: Global) -> Result<PortQueue, Memory>
        ensures { IfOk result (λ queue. queue ≡ empty_queue) }
    {
        Ok(PortQueue {
            ring: HeapCircularBuffer::with_capacity(alloc, MAX_WAITING)?,
            accepted: 0,
            closed: false,
        })
    }

    /// Puts a batch at the end, and answers its number, counted from 1. A closed queue refuses it, and
    /// so does one on which 64 batches wait; the batch comes back, and the queue is as before.
    pub fn put(&mut self, batch: Batch) -> Result<u64, (QueueRefused, Batch)>
        requires small { rows_in batch ≤ MAX_BATCH }
        requires room { self.old.accepted < 2 ^ 63 }
        ensures outcome { result ≡ put_outcome self.old batch }
        ensures ok { OnOk result (self.new ≡ with_batch self.old batch) }
        ensures err { OnErr result (self.new ≡ self.old) }
    {
        if self.closed {
            return Err((QueueRefused::Closed, batch));
        }
        match self.ring.try_push_back(batch) {
            Ok(()) => {
                self.accepted += 1;
                Ok(self.accepted)
            }
            Err(batch) => Err((QueueRefused::Full, batch)),
        }
    }

    /// The oldest batch that waits.
    pub fn front(&self) -> Option<&Batch>
        ensures { option_copied result ≡ slice_get self.now.waiting 0 }
    {
        self.ring.front()
    }

    /// The waiting batch at a place, counted from 0 at the oldest.
    pub fn at(&self, i: usize) -> Option<&Batch>
        ensures { option_copied result ≡ slice_get self.now.waiting i }
    {
        self.ring.get(i)
    }

    /// Takes the oldest batch off.
    pub fn take_front(&mut self) -> Option<Batch>
        ensures batch { result ≡ slice_get self.old.waiting 0 }
        ensures queue { self.new ≡ without_first self.old }
    {
        self.ring.pop_front()
    }

    /// Closes the port: it takes no more batches, and those that wait stay.
    pub fn close(&mut self)
        ensures { self.new ≡ record self.old { closed = true } }
    {
        self.closed = true;
    }

    /// Whether the port was closed.
    pub fn is_closed(&self) -> bool
        ensures { result ≡ self.now.closed }
    {
        self.closed
    }

    /// How many batches were put in since the queue was made.
    pub fn accepted(&self) -> u64
        ensures { result ≡ self.now.accepted }
    {
        self.accepted
    }

    /// How many batches were taken off.
    pub fn taken(&self) -> u64
        ensures { result ≡ self.now.accepted - length self.now.waiting }
    {
        self.accepted.saturating_sub(self.ring.len() as u64)
    }

    /// Whether 64 batches wait.
    pub fn is_full(&self) -> bool
        ensures { result ≡ nat_le 64 (length self.now.waiting) }
    {
        self.ring.len() >= MAX_WAITING
    }

    /// The number of waiting batches.
    pub fn waiting(&self) -> usize
        ensures waiting { result ≡ length self.now.waiting }
        ensures few { result ≤ MAX_WAITING }
    {
        self.ring.len()
    }

    /// The number of rows that wait to be put.
    pub fn waiting_rows(&self) -> u64
        ensures rows { result ≡ sum_by rows_in self.now.waiting }
        ensures few { result ≤ 64 * 1024 }
    {
        let mut rows: u64 = 0;
        for i in 0..self.ring.len() {
            rows += self.rows_at(i);
        }
        rows
    }

    /// The rows of the waiting batch at a place.
    fn rows_at(&self, i: usize) -> u64
        requires { i < length self.now.waiting }
        ensures rows { Some result ≡ option_map rows_in (slice_get self.now.waiting i) }
        ensures few { result ≤ 1024 }
    {
        self.ring.get(i).unwrap().rows() as u64
    }
}
