//! Tests of `frame_json` over its public calls: lines that are read, and replies that are written.
//!
//! It has no call of its own, and nothing stands on it.
#![tactic(auto)]

#[cfg(test)]
mod replies;
#[cfg(test)]
mod requests;
