//! Hooks that hear which views an applied batch touched, and jobs that are called at a view's end.
//!
//! It stands on `plain_data` alone. Its callers may rely on this: after a notice each hook's state is its own stated
//! step of the state before, in the order in which hooks were added; each job is called at most once, with the end of
//! its view, and answers that end's version; and neither `call_all` nor `end_view` takes memory. That `end_view` calls a
//! job and doesn't only keep the version is shown by a test alone.
//!
//! `Hooks` is generic in what hears and in what is called. A program that keeps hooks of several kinds puts each into a
//! box, of a type of its own that implements `Hears`: a crate between could not be lent a boxed hook.
#![tactic(auto)]

mod booked;
mod end_job;
mod hook;
mod hooks;
mod notice;
mod tally_hook;
#[cfg(test)]
mod tests;

pub use end_job::{EndJob, Ends, Job};
pub use hook::{Hears, Hook, TalliedHook};
pub use hooks::Hooks;
pub use notice::{Notice, ViewEnd};
pub use tally_hook::TallyHook;
