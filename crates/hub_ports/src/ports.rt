ghost use Rattle.std.specs.Prelude.{◌≡◌, ◌*◌, ◌<◌, ◌≤◌, ◌==◌, ◌↔◌, nat_le, length, position, slice_get, sum_by};
ghost use Rattle.std.specs.Prelude.{false, None, IfOk, IfSome, IsErrOf, OnOk, OnErr};
ghost use Rattle.std.specs.List.{list_any};
ghost use Rattle.row_batch.specs.Batches.{rows_in};
ghost use Rattle.port_queue.specs.Queues.{put_outcome};
ghost use Rattle.hub_ports.specs.Ports.{no_ports, with_port, port_at, put_on, taken_off, closed_at, settled};
ghost use Rattle.hub_ports.specs.Ports.{waiting_on, PutAnswers};

use cell_core::Memory;
use port_queue::{MAX_WAITING, PortQueue, QueueRefused};
use row_batch::{Batch, MAX_BATCH};
use std::alloc::Global;
use std::error::Error;
use std::fmt;
use std::marker::Model;

/// The most ports that are open or hold waiting batches.
pub const MAX_PORTS: usize = 16;

/// How many ports can be made, and how many batches put on one: 2^62. No history is so long.
pub const MAX_NUMBER: u64 = 1 << 62;

/// A port that is open or holds waiting batches.
#[derive(Drop)]
pub struct Port {
    /// Its number among the ports that were made, counted from 0.
    pub number: u64,
    pub queue: PortQueue,
}

/// Why a batch is not put on a port.
#[derive(Clone, Copy, Debug, Drop, PartialEq, Eq)]
pub enum PutRefused {
    /// The port was closed.
    Closed,
    /// 64 batches wait.
    Full,
    /// `MAX_NUMBER` batches were put on the port, so that its numbers are used up. It counts as want of memory.
    Memory,
}

impl fmt::Display for PutRefused {
    fn fmt<W: fmt::Write>(&self, f: &mut fmt::Formatter<W>) -> fmt::Result {
        match self {
            PutRefused::Closed => write!(f, "the port is closed"),
            PutRefused::Full => write!(f, "{MAX_WAITING} batches wait on the port"),
            PutRefused::Memory => write!(f, "the numbers of the port's batches are used up"),
        }
    }
}

impl Error for PutRefused {}

/// The ports that are open or hold waiting batches, ascending by number.
#[derive(Drop)]
pub struct Ports {
    made: u64,
    live: Vec<Port>,
}

impl Model for Ports {
    ghost use Rattle.std.specs.Prelude.{◌≤◌, length};
    ghost use Rattle.hub_ports.specs.Ports.{PortsData};

    ghost Value = { PortsData };

    ghost view = { λ p. record { made = p.made; live = p.live.items } };

    ghost invariant = { λ p. length p.live.items ≤ 16 };
}

impl Ports {
    /// No ports. It takes no memory.
    pub fn new(alloc: Global) -> Ports
        ensures { result ≡ no_ports }
    {
        Ports {
            made: 0,
            live: Vec::new(alloc),
        }
    }

    /// Whether 16 ports are open or hold waiting batches.
    pub fn is_full(&self) -> bool
        ensures { result ≡ nat_le 16 (length self.now.live) }
    {
        self.live.len() >= MAX_PORTS
    }

    /// How many ports were made.
    pub fn made(&self) -> u64
        ensures { result ≡ self.now.made }
    {
        self.made
    }

    /// Makes a port, and answers its number. Want of memory, after which nothing has changed, is the answer too
    /// once `MAX_NUMBER` ports were made.
    pub fn add(&mut self, alloc: Global) -> Result<u64, Memory>
        requires { length self.old.live < 16 }
        ensures number { IfOk result (λ number. number ≡ self.old.made) }
        ensures ok { OnOk result (self.new ≡ with_port self.old) }
        ensures err { OnErr result (self.new ≡ self.old) }
    {
        let number = self.made;
        if number >= MAX_NUMBER {
            return Err(Memory);
        }
        let queue = PortQueue::make(alloc)?;
        self.live.push(Port { number, queue })?;
        self.made = number + 1;
        Ok(number)
    }

    /// The place of the port of that number.
    pub fn find(&self, number: u64) -> Option<usize>
        ensures found { IfSome result (λ place. (port_at self.now.live place).number ≡ number) }
        ensures within { IfSome result (λ place. place < length self.now.live) }
        ensures missing { (result ≡ None) → list_any (λ p. p.number == number) self.now.live ≡ false }
    {
        place_of(self.live.as_slice(), number)
    }

    /// The ports, ascending by number.
    pub fn as_slice(&self) -> &[Port]
        ensures ports { result.now ≡ self.now.live }
        ensures few { length self.now.live ≤ 16 }
    {
        self.live.as_slice()
    }

    /// The number of the port at a place.
    pub fn number(&self, place: usize) -> u64
        requires { place < length self.now.live }
        ensures { result ≡ (port_at self.now.live place).number }
    {
        self.live[place].number
    }

    /// The queue of the port at a place.
    pub fn queue(&self, place: usize) -> &PortQueue
        requires { place < length self.now.live }
        ensures { result.now ≡ (port_at self.now.live place).queue }
    {
        &self.live[place].queue
    }

    /// Puts a batch on the port at a place, and answers the batch's number there, counted from 1. It takes
    /// no memory. After a refusal nothing has changed, and the batch is gone.
    pub fn put(&mut self, place: usize, batch: Batch) -> Result<u64, PutRefused>
        requires within { place < length self.old.live }
        requires small { rows_in batch ≤ MAX_BATCH }
        ensures outcome { PutAnswers (put_outcome (port_at self.old.live place).queue batch) batch result }
        ensures memory { IsErrOf result PutRefused.Memory
            ↔ (MAX_NUMBER ≤ (port_at self.old.live place).queue.accepted) }
        ensures ok { OnOk result (self.new ≡ record self.old { live = put_on self.old.live place batch }) }
        ensures err { OnErr result (self.new ≡ self.old) }
    {
        let queue = &mut self.live[place].queue;
        if queue.accepted() >= MAX_NUMBER {
            return Err(PutRefused::Memory);
        }
        match queue.put(batch) {
            Ok(seq) => Ok(seq),
            Err((QueueRefused::Closed, _)) => Err(PutRefused::Closed),
            Err((QueueRefused::Full, _)) => Err(PutRefused::Full),
        }
    }

    /// Takes the oldest batch off the port at a place. A closed port goes with its last batch.
    pub fn take_front(&mut self, place: usize) -> Option<Batch>
        requires { place < length self.old.live }
        ensures batch { result ≡ slice_get (port_at self.old.live place).queue.waiting 0 }
        ensures ports { self.new ≡ record self.old { live = taken_off self.old.live place } }
    {
        let batch = self.live[place].queue.take_front();
        self.settle(place);
        batch
    }

    /// Closes the port at a place, which goes if no batch waits on it.
    pub fn close(&mut self, place: usize)
        requires { place < length self.old.live }
        ensures { self.new ≡ record self.old { live = closed_at self.old.live place } }
    {
        self.live[place].queue.close();
        self.settle(place);
    }

    /// Drops the port at a place if it is used no more.
    fn settle(&mut self, place: usize)
        requires { place < length self.old.live }
        ensures { self.new ≡ record self.old { live = settled self.old.live place } }
    {
        let queue = &self.live[place].queue;
        if queue.is_closed() && queue.waiting() == 0 {
            drop(self.live.remove(place));
        }
    }

    /// How many batches wait on all ports.
    pub fn batches_waiting(&self) -> u64
        ensures batches { result ≡ length (waiting_on self.now.live) }
        ensures few { result ≤ 16 * 64 }
    {
        let mut batches: u64 = 0;
        for port in &self.live {
            batches += port.queue.waiting() as u64;
        }
        batches
    }

    /// How many rows wait on all ports to be put.
    pub fn rows_waiting(&self) -> u64
        ensures rows { result ≡ sum_by rows_in (waiting_on self.now.live) }
        ensures few { result ≤ 16 * 65536 }
    {
        let mut rows: u64 = 0;
        for port in &self.live {
            rows += port.queue.waiting_rows();
        }
        rows
    }
}

fn place_of(ports: &[Port], number: u64) -> Option<usize>
    ensures { result ≡ position (λ p. p.number == number) ports.now }
{
    ports.iter().position(|port| port.number == number)
}
