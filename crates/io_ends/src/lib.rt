//! The ends outside: where bytes come from and where they go, each as a trait with a form in memory,
//! and the reader that cuts what comes into lines.
//!
//! It stands on `plain_data` for lists and on `memchr` for the search of a line's end. Its callers may
//! rely on this: an end answers that it failed where its count of faults rose in that call, and else
//! the count stays; what it has left or written then stays as it was, where it tells that. The ends in
//! memory tell all; the real ones tell nothing of content. The lines that `LineReader::next` gives are
//! those of the bytes, in whatever pieces they come, and it reads only where it holds no whole line.
#![tactic(auto)]

mod calls;
mod intake;
mod line;
mod mem_sink;
mod mem_source;
mod partial;
mod reader;
mod sink;
mod source;

pub use calls::Calls;
pub use line::{Line, LineFault};
pub use mem_sink::MemSink;
pub use mem_source::MemSource;
pub use reader::LineReader;
pub use sink::{Sink, SinkFault, write_whole};
pub use source::{Source, SourceFailed};
