//! The batches that wait on a port.
//!
//! It stands on `row_batch` and on the ring of `circular_buffer`. Its callers may rely on this: batches
//! come out in the order in which they were put in, their numbers count on from 1, a full or a closed
//! queue hands a batch back and stays as it was, and no call but `make` takes memory.
#![tactic(auto)]

mod queue;

pub use queue::{MAX_WAITING, PortQueue, QueueRefused};
