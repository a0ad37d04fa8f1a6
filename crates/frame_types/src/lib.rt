//! Requests and replies, as data: what a client asks of the engine, and what it is answered.
//!
//! It stands on `cell_core`, `row_batch`, `view_types` and `delta_core`. How they are read from JSON and
//! written as JSON is in `frame_json`; what is answered to what is in `hub_spec`. Contracts see a `Reply` as
//! its fields (`ReplyData`), and a `Request` through `request_view` of `specs/Asks.antt`, in which a JSON value
//! that is judged later stands as its data. Callers may rely on this: a delta in a reply ends at its version.
#![tactic(auto)]

mod limits;
mod reply;
mod request;

pub use limits::{CLIENT_SESSIONS, MAX_BOUND, MAX_DEPTH, MAX_LINE, SESSIONS};
pub use reply::{Body, Cause, Lost, Refusal, Reply};
pub use request::{Asked, FrameCause, Request};
