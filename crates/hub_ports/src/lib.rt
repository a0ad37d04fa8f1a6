//! The ports of a hub: those that are open or hold waiting batches, each with its queue.
//!
//! It stands on `port_queue`. Its callers may rely on this: there are at most 16 such ports, numbers
//! count on from 0 and none is given twice, and a closed port goes once no batch waits on it.
#![tactic(auto)]

mod ports;

pub use ports::{MAX_NUMBER, MAX_PORTS, Port, Ports, PutRefused};
