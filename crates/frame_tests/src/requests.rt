use cell_core::Memory;
use frame_json::read_request;
use frame_types::{FrameCause, Request};
use std::alloc::Global;
use std::test::Fail;

fn form(request: &Request) -> &'static str {
    match request {
        Request::Table { .. } => "table",
        Request::Port => "port",
        Request::Leave => "leave",
        Request::Info => "info",
        Request::Update { .. } => "update",
        Request::Replace { .. } => "replace",
        Request::Csv { .. } => "csv",
        Request::Remove { .. } => "remove",
        Request::Clear { .. } => "clear",
        Request::ClosePort { .. } => "close_port",
        Request::Apply { .. } => "apply",
        Request::Open { .. } => "open",
        Request::Edit { .. } => "edit",
        Request::Depth { .. } => "depth",
        Request::Expand { .. } => "expand",
        Request::Collapse { .. } => "collapse",
        Request::Take { wait: false, .. } => "take",
        Request::Take { wait: true, .. } => "take, waiting",
        Request::Rows { .. } => "rows",
        Request::Close { .. } => "close",
        Request::Unread(cause) => cause_name(*cause),
    }
}

fn cause_name(cause: FrameCause) -> &'static str {
    match cause {
        FrameCause::Long => "long",
        FrameCause::Json => "json",
        FrameCause::Object => "object",
        FrameCause::Op => "no op",
        FrameCause::Member => "member",
    }
}

/// The form of a line, and the session that asks it.
fn read(alloc: Global, line: &[u8], scripted: bool) -> Result<(&'static str, u32), Memory> {
    let asked = read_request(alloc, line, scripted)?;
    Ok((form(&asked.request), asked.session))
}

#[test]
fn lines_are_read(rt: HostRuntime) -> Result<(), Fail> {
    let lines: [(&[u8], &str); 48] = [
        (
            b"{\"op\":\"table\",\"columns\":[[\"k\",\"integer\"],[\"v\",\"date\"]],\"index\":\"k\"}",
            "table",
        ),
        (b"{\"op\":\"table\",\"columns\":[],\"limit\":-3}", "table"),
        (b"{\"op\":\"port\"}", "port"),
        (b"{\"op\":\"update\",\"port\":0,\"rows\":null}", "update"),
        (b"{\"op\":\"replace\",\"port\":0,\"rows\":{}}", "replace"),
        (b"{\"op\":\"csv\",\"port\":0,\"text\":\"\"}", "csv"),
        (b"{\"op\":\"remove\",\"port\":0,\"keys\":[null]}", "remove"),
        (b"{\"op\":\"clear\",\"port\":1}", "clear"),
        (b"{\"op\":\"close_port\",\"port\":1}", "close_port"),
        (b"{\"op\":\"apply\",\"port\":0}", "apply"),
        (b"{\"op\":\"open\",\"plan\":7,\"bound\":65536}", "open"),
        (b"{\"op\":\"edit\",\"view\":0,\"plan\":7}", "edit"),
        (b"{\"op\":\"edit\",\"view\":0}", "member"),
        (
            b" {\"to\":9,\"from\":0,\"view\":3,\"op\":\"rows\"} ",
            "rows",
        ),
        (b"{\"op\":\"close\",\"view\":3}", "close"),
        (b"{\"op\":\"leave\"}", "leave"),
        (b"{\"op\":\"port\",\"op\":\"info\"}", "info"),
        (b"7", "object"),
        (b"[]", "object"),
        (b"{}", "no op"),
        (b"{\"op\":\"ports\",\"x\":1}", "no op"),
        (b"{\"op\":\"port\",\"x\":1}", "member"),
        (b"{\"op\":\"apply\"}", "member"),
        (b"{\"op\":\"apply\",\"port\":-1}", "member"),
        (b"{\"op\":\"apply\",\"port\":1.0}", "member"),
        (b"{\"op\":\"open\",\"plan\":{},\"bound\":65537}", "member"),
        (b"{\"op\":\"remove\",\"port\":0,\"keys\":{}}", "member"),
        (b"{\"op\":\"take\",\"view\":0}", "take"),
        (
            b"{\"op\":\"take\",\"view\":0,\"wait\":true}",
            "take, waiting",
        ),
        (b"{\"op\":\"take\",\"view\":0,\"wait\":1}", "member"),
        (b"{\"op\":\"take\",\"view\":0,\"to\":1}", "member"),
        (b"{\"op\":\"take\",\"wait\":true}", "member"),
        (b"{\"op\":\"depth\",\"view\":0,\"depth\":0}", "depth"),
        (b"{\"op\":\"depth\",\"view\":0,\"depth\":9}", "member"),
        (b"{\"op\":\"depth\",\"depth\":0}", "member"),
        (
            b"{\"op\":\"expand\",\"view\":0,\"path\":[null,true,-9007199254740991,\"x\",[\"d\",\"2024-02-29\"],[\"t\",0],0,1]}",
            "expand",
        ),
        (b"{\"op\":\"collapse\",\"view\":0,\"path\":[]}", "collapse"),
        (b"{\"op\":\"collapse\",\"view\":0}", "member"),
        (b"{\"op\":\"expand\",\"view\":0,\"path\":null}", "member"),
        (
            b"{\"op\":\"expand\",\"view\":0,\"path\":[0,1,2,3,4,5,6,7,8]}",
            "member",
        ),
        (
            b"{\"op\":\"expand\",\"view\":0,\"path\":[9007199254740992]}",
            "member",
        ),
        (b"{\"op\":\"expand\",\"view\":0,\"path\":[0.5]}", "member"),
        (
            b"{\"op\":\"expand\",\"view\":0,\"path\":[[\"d\",\"2023-02-29\"]]}",
            "member",
        ),
        (
            b"{\"op\":\"expand\",\"view\":0,\"path\":[[\"t\",253402300800000]]}",
            "member",
        ),
        (
            b"{\"op\":\"expand\",\"view\":0,\"path\":[[\"t\",0,0]]}",
            "member",
        ),
        (b"{\"op\":\"expand\",\"view\":0,\"path\":[{}]}", "member"),
        (b"{\"op\":\"port\"", "json"),
        (b"\"\xff\"", "json"),
    ];
    for (line, want) in lines {
        assert_eq!(rt; read(rt.alloc(), line, false)?, (want, 0));
    }
    Ok(())
}

#[test]
fn a_script_names_sessions(rt: HostRuntime) -> Result<(), Fail> {
    let alloc = rt.alloc();
    let last = b"{\"op\":\"port\",\"session\":63}";
    assert_eq!(rt; read(alloc, last, true)?, ("port", 63));
    assert_eq!(rt; read(alloc, last, false)?, ("member", 0));
    let many = b"{\"op\":\"port\",\"session\":64}";
    assert_eq!(rt; read(alloc, many, true)?, ("member", 0));
    let deepest = b"{\"op\":\"depth\",\"session\":3,\"view\":0,\"depth\":8}";
    assert_eq!(rt; read(alloc, deepest, true)?, ("depth", 3));
    Ok(())
}
