//! The machine: one hub holds a table, its ports and the views of every session, and answers one
//! request after another.
//!
//! It stands on `hub_spec`, whose definitions say what each request is answered after a history of
//! requests, on `hub_ports` and on `hub_views`. Its callers may rely on this alone: for every history that a
//! hub stands for, `Hub::step` answers what that history is answered, under a choice that the answer names,
//! and the hub then stands for the history with that step (`StandsFor` of `specs/Standing.antt`,
//! `AnswersOneStep` of `hub_spec`). Crates above know of a hub's state nothing else. `LocalCaller` is a hub as
//! a `Caller`.
#![tactic(auto)]

mod contents;
mod engine;
mod hub;
mod info;
mod local;
mod machine;
mod ports;
mod refused;
mod room;

pub use hub::Hub;
pub use local::LocalCaller;
