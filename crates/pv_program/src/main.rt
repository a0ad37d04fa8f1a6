//! The program `pv`: a pivot engine with live views, driven by request lines.
//!
//! It stands on `session_core` (the loop of a script) and `hub_core` (what answers a request). `main`
//! gives `pv_main` standard input and output and ends with its status; what is promised of a run is
//! the contract of `pv_main`.
#![tactic(auto)]

mod ends;
#[cfg(test)]
mod tests;
mod top;

use ends::{Input, Output};
use io_ends::{Sink, Source};
use std::alloc::Global;
use std::process::ExitCode;
use std::{env, io};
use top::{Status, pv_main};

/// The words after the program's name, or the status to end with where they can't be read or kept.
fn words_given(rt: &HostRuntime) -> Result<Vec<String>, Status> {
    let given = env::args(rt).map_err(|_| Status { code: 2 })?;
    let mut words = Vec::new(rt.alloc());
    for word in given.skip(1) {
        words.push(word).map_err(|_| Status { code: 1 })?;
    }
    Ok(words)
}

fn run<S: Source, K: Sink>(
    alloc: Global,
    given: &[String],
    source: &mut S,
    sink: &mut K,
) -> Status {
    let mut words = Vec::new(alloc);
    for word in given {
        if words.push(word.as_str()).is_err() {
            return Status { code: 1 };
        }
    }
    pv_main(alloc, words.as_slice(), source, sink)
}

fn main(rt: HostRuntime) -> ExitCode {
    let mut source = Input::new(rt.reader());
    let mut sink = Output::new(io::writer(&rt));
    let status = match words_given(&rt) {
        Ok(words) => run(rt.alloc(), words.as_slice(), &mut source, &mut sink),
        Err(status) => status,
    };
    if status.code == 2 {
        let _ = eprintln!(rt; "usage: pv script < REQUESTS");
    }
    ExitCode::from(status.code)
}
