//! Requests and replies as JSON (RFC 8259): the request that a line is, and the text of a reply.
//!
//! It stands on `serde_json`, whose reading and compact writing it takes as they are, and on
//! `frame_types`. Its callers may rely on this: `read_request` answers the one request that
//! `request_of` of `specs/Requests.antt` names, for every line, and `write_reply` writes the one text
//! that `text` of `specs/Replies.antt` names, for every reply. Only want of memory is a refusal.
#![tactic(auto)]

mod build;
mod forms;
mod member;
mod op;
mod parse;
mod part;
mod read;
mod show;
mod write;

pub use read::read_request;
pub use write::write_reply;
