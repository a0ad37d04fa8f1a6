//! The loop of a script: request lines in, reply lines out.
//!
//! It stands on `hub_spec` (what a request is answered), `frame_json` (requests and replies as lines)
//! and `io_ends` (where lines come from and go to). Its callers may rely on `run_script`: over ends
//! that tell their bytes it says, for each way in which a script can end, which lines were read and
//! which bytes were written.
#![tactic(auto)]

mod laws;
mod script;

pub use laws::answers_tell_histories;
pub use script::{ScriptEnd, run_script};
