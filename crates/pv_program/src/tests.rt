use crate::top::pv_main;
use cell_core::{Bytes, Listed, Memory};
use io_ends::{Calls, MemSink, MemSource};
use std::alloc::Global;
use std::test::Fail;

const FIRST: &str = r#"{"op":"table","columns":[["k","integer"],["v","integer"]],"index":"k"}
{"op":"port"}
{"op":"update","port":0,"rows":[{"k":2,"v":5},{"k":1,"v":7}]}
{"op":"apply","port":0}
{"op":"open","plan":{},"bound":10}
"#;

const FIRST_REPLIES: &str = r#"{"is":"table","n":1,"version":0}
{"is":"port","n":2,"port":0,"version":0}
{"is":"queued","n":3,"port":0,"seq":1,"version":0}
{"is":"applied","n":4,"port":0,"seq":1,"version":1}
{"edit":0,"header":[["k","integer"],["v","integer"]],"is":"opened","n":5,"rows":[[["r",1],{"k":1,"v":7}],[["r",2],{"k":2,"v":5}]],"version":1,"view":0}
"#;

/// What a run ended with, and what it wrote.
#[derive(Drop)]
struct Run {
    code: u8,
    sink: MemSink,
}

fn calls(alloc: Global, failing: u64) -> Result<Calls, Memory> {
    let mut calls = Listed::new(alloc);
    calls.push(failing)?;
    Ok(calls)
}

fn bytes(alloc: Global, input: &[u8]) -> Result<Bytes, Memory> {
    Ok(Listed::from_vec(input.to_vec(alloc)?))
}

/// `script` over ends in memory that move `piece` bytes at a time. The call of the source or the
/// sink with the given number fails; none has the number 0.
fn script(
    alloc: Global,
    input: &[u8],
    piece: usize,
    read_fails: u64,
    write_fails: u64,
) -> Result<Run, Memory> {
    let piece = piece.max(1);
    let mut source = MemSource::new(bytes(alloc, input)?, piece, calls(alloc, read_fails)?);
    let mut sink = MemSink::new(alloc, piece, calls(alloc, write_fails)?);
    let status = pv_main(alloc, &["script"], &mut source, &mut sink);
    Ok(Run {
        code: status.code,
        sink,
    })
}

#[test]
fn replies_do_not_depend_on_the_pieces(rt: HostRuntime) -> Result<(), Fail> {
    for piece in 1..30 {
        let run = script(rt.alloc(), FIRST.as_bytes(), piece, 0, 0)?;
        assert_eq!(rt; run.code, 0, "{piece}");
        assert!(rt; run.sink.bytes() == FIRST_REPLIES.as_bytes(), "{piece}");
    }
    Ok(())
}

#[test]
fn a_fault_ends_the_run_with_the_replies_before_it(rt: HostRuntime) -> Result<(), Fail> {
    let alloc = rt.alloc();
    let run = script(alloc, FIRST.as_bytes(), 4096, 1, 0)?;
    assert_eq!(rt; run.code, 4);
    assert!(rt; run.sink.bytes().is_empty());
    let run = script(alloc, FIRST.as_bytes(), 4096, 2, 0)?;
    assert_eq!(rt; run.code, 4);
    assert!(rt; run.sink.bytes() == FIRST_REPLIES.as_bytes());
    let run = script(alloc, FIRST.as_bytes(), 4096, 0, 3)?;
    assert_eq!(rt; run.code, 5);
    assert_eq!(rt; run.sink.bytes().len(), 33 + 41);
    assert!(rt; FIRST_REPLIES.as_bytes().starts_with(run.sink.bytes()));
    let run = script(alloc, FIRST.as_bytes(), 4096, 0, 6)?;
    assert_eq!(rt; run.code, 5);
    assert!(rt; run.sink.bytes() == FIRST_REPLIES.as_bytes());
    Ok(())
}

#[test]
fn other_words_read_and_write_nothing(rt: HostRuntime) -> Result<(), Fail> {
    let alloc = rt.alloc();
    let mut source = MemSource::new(bytes(alloc, b"{}\n")?, 8, Listed::new(alloc));
    let mut sink = MemSink::new(alloc, 8, Listed::new(alloc));
    assert_eq!(rt; pv_main(alloc, &[], &mut source, &mut sink).code, 2);
    assert_eq!(rt; pv_main(alloc, &["help"], &mut source, &mut sink).code, 2);
    assert_eq!(rt;
        pv_main(alloc, &["script", "x"], &mut source, &mut sink).code,
        2
    );
    assert!(rt; sink.bytes().is_empty());
    Ok(())
}
