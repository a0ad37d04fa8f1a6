ghost use Rattle.std.specs.Prelude.{◌≡◌, ◌<◌, IfOk, IfSome, option_map};
ghost use Rattle.serde_json.specs.Find.{as_object};
ghost use Rattle.serde_json.specs.View.{view, members_view};
ghost use Rattle.frame_types.specs.Asks.{request_view, asked_view};
ghost use Rattle.frame_json.specs.Requests.{all_belong, unread_by, asked, of_op, of_object, request_of};

use crate::forms::requested;
use crate::member::{Members, session_at, words_at};
use crate::op::{Op, has_member, op_of};
use crate::parse::parsed;
use cell_core::Memory;
use frame_types::{Asked, CLIENT_SESSIONS, FrameCause, MAX_LINE, Request};
use json_rows::raw_of;
use serde_json::Value;
use std::alloc::Global;

fn has_all(scripted: bool, op: Op, members: &Members) -> bool
    ensures { result ≡ all_belong scripted op (members_view members.now.entries) }
{
    for (name, _) in members.iter() {
        if !has_member(scripted, op, name.as_str()) {
            return false;
        }
    }
    true
}

fn unread(cause: FrameCause) -> Asked
    ensures asked { asked_view result ≡ unread_by cause }
    ensures session { result.session ≡ 0 }
{
    Asked {
        session: 0,
        request: Request::Unread(cause),
    }
}

fn asked(session: Option<u32>, request: Option<Request>) -> Asked
    requires { IfSome session (λ s. s < CLIENT_SESSIONS) }
    ensures asked { asked_view result ≡ asked session (option_map request_view request) }
    ensures session { result.session < CLIENT_SESSIONS }
{
    match (session, request) {
        (Some(session), Some(request)) => Asked { session, request },
        _ => unread(FrameCause::Member),
    }
}

fn of_known(
    alloc: Global,
    scripted: bool,
    members: Members,
    op: Option<Op>,
) -> Result<Asked, Memory>
    ensures asked { IfOk result (λ a. asked_view a
        ≡ of_op scripted (members_view members.entries) op) }
    ensures session { IfOk result (λ a. a.session < CLIENT_SESSIONS) }
{
    let Some(op) = op else {
        return Ok(unread(FrameCause::Op));
    };
    if !has_all(scripted, op, &members) {
        return Ok(unread(FrameCause::Member));
    }
    let session = session_at(&members);
    Ok(asked(session, requested(alloc, op, members)?))
}

fn of_value(alloc: Global, scripted: bool, value: Value) -> Result<Asked, Memory>
    ensures asked { IfOk result (λ a. asked_view a ≡ of_object scripted (as_object (view value))) }
    ensures session { IfOk result (λ a. a.session < CLIENT_SESSIONS) }
{
    match value {
        Value::Object(members) => {
            let op = words_at(&members, "op").and_then(op_of);
            of_known(alloc, scripted, members, op)
        }
        _ => Ok(unread(FrameCause::Object)),
    }
}

/// The request that a line is, without its line end, or why it is none.
///
/// What is no request is `Unread` of session 0, with the first cause in the order of `FrameCause`. The
/// last of two members of one name counts. `scripted` tells whether the line stands in a script, where
/// a request may name its session; elsewhere `session` is an unknown member.
pub fn read_request(alloc: Global, line: &[u8], scripted: bool) -> Result<Asked, Memory>
    ensures request { IfOk result (λ a. asked_view a ≡ request_of line.now scripted) }
    ensures session { IfOk result (λ a. a.session < CLIENT_SESSIONS) }
{
    if line.len() > MAX_LINE {
        return Ok(unread(FrameCause::Long));
    }
    match parsed(alloc, line)? {
        Some(value) => of_value(alloc, scripted, value),
        None => Ok(unread(FrameCause::Json)),
    }
}
