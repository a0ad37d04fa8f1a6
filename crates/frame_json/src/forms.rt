ghost use Rattle.std.specs.Prelude.{◌≡◌, IfOk, option_map};
ghost use Rattle.serde_json.specs.View.{view, members_view};
ghost use Rattle.frame_types.specs.Asks.{request_view};
ghost use Rattle.frame_json.specs.Requests.{table_of, port_of, view_of, update_of, replace_of, csv_of, list_of, remove_of, open_of, edit_of, depth_of, path, expand_of, collapse_of, take_of, rows_of, ask_of};

use crate::member::{
    Members, bound_at, columns_at, member, natural_at, taken, wait_at, whole_if_given, words_at,
    words_if_given,
};
use crate::op::Op;
use crate::part::path_of;
use cell_core::{Memory, Path, Text};
use frame_types::{MAX_DEPTH, Request};
use json_rows::raw_of;
use serde_json::Value;
use std::alloc::Global;

/// The request of a form, if its members are of their forms.
pub(crate) fn requested(alloc: Global, op: Op, members: Members) -> Result<Option<Request>, Memory>
    ensures { IfOk result (λ found. option_map request_view found
        ≡ ask_of op (members_view members.entries)) }
{
    match op {
        Op::Table => table(alloc, &members),
        Op::Port => Ok(Some(Request::Port)),
        Op::Leave => Ok(Some(Request::Leave)),
        Op::Info => Ok(Some(Request::Info)),
        Op::Update => update(alloc, members),
        Op::Replace => replace(alloc, members),
        Op::Csv => csv(alloc, &members),
        Op::Remove => remove(alloc, members),
        Op::Clear => Ok(port_at(&members).map(|port| Request::Clear { port })),
        Op::ClosePort => Ok(port_at(&members).map(|port| Request::ClosePort { port })),
        Op::Apply => Ok(port_at(&members).map(|port| Request::Apply { port })),
        Op::Open => open(alloc, members),
        Op::Edit => edit(alloc, members),
        Op::Depth => Ok(depth(&members)),
        Op::Expand => expand(alloc, &members),
        Op::Collapse => collapse(alloc, &members),
        Op::Take => Ok(take(&members)),
        Op::Rows => Ok(rows(&members)),
        Op::Close => Ok(view_at(&members).map(|view| Request::Close { view })),
    }
}

fn port_at(members: &Members) -> Option<u64>
    ensures { result ≡ port_of (members_view members.now.entries) }
{
    natural_at(members, "port")
}

fn view_at(members: &Members) -> Option<u64>
    ensures { result ≡ view_of (members_view members.now.entries) }
{
    natural_at(members, "view")
}

fn table(alloc: Global, members: &Members) -> Result<Option<Request>, Memory>
    ensures { IfOk result (λ found. option_map request_view found
        ≡ table_of (members_view members.now.entries)) }
{
    let Some(columns) = columns_at(alloc, members)? else {
        return Ok(None);
    };
    let Some(index) = words_if_given(alloc, members, "index")? else {
        return Ok(None);
    };
    let Some(limit) = whole_if_given(members, "limit") else {
        return Ok(None);
    };
    Ok(Some(Request::Table {
        columns,
        index,
        limit,
    }))
}

fn update(alloc: Global, members: Members) -> Result<Option<Request>, Memory>
    ensures { IfOk result (λ found. option_map request_view found
        ≡ update_of (members_view members.entries)) }
{
    let Some(port) = port_at(&members) else {
        return Ok(None);
    };
    let Some(rows) = taken(members, "rows") else {
        return Ok(None);
    };
    let rows = raw_of(alloc, rows)?;
    Ok(Some(Request::Update { port, rows }))
}

fn replace(alloc: Global, members: Members) -> Result<Option<Request>, Memory>
    ensures { IfOk result (λ found. option_map request_view found
        ≡ replace_of (members_view members.entries)) }
{
    let Some(port) = port_at(&members) else {
        return Ok(None);
    };
    let Some(rows) = taken(members, "rows") else {
        return Ok(None);
    };
    let rows = raw_of(alloc, rows)?;
    Ok(Some(Request::Replace { port, rows }))
}

fn csv(alloc: Global, members: &Members) -> Result<Option<Request>, Memory>
    ensures { IfOk result (λ found. option_map request_view found
        ≡ csv_of (members_view members.now.entries)) }
{
    let Some(port) = port_at(members) else {
        return Ok(None);
    };
    let Some(text) = words_at(members, "text") else {
        return Ok(None);
    };
    let text = Text::from_str(alloc, text)?;
    Ok(Some(Request::Csv { port, text }))
}

fn remove(alloc: Global, members: Members) -> Result<Option<Request>, Memory>
    ensures { IfOk result (λ found. option_map request_view found
        ≡ remove_of (members_view members.entries)) }
{
    let Some(port) = port_at(&members) else {
        return Ok(None);
    };
    let Some(keys) = taken(members, "keys").and_then(if_list) else {
        return Ok(None);
    };
    let keys = raw_of(alloc, keys)?;
    Ok(Some(Request::Remove { port, keys }))
}

/// The value where it is a list.
fn if_list(value: Value) -> Option<Value>
    ensures { option_map view result ≡ list_of (view value) }
{
    match value {
        Value::Array(items) => Some(Value::Array(items)),
        _ => None,
    }
}

fn open(alloc: Global, members: Members) -> Result<Option<Request>, Memory>
    ensures { IfOk result (λ found. option_map request_view found
        ≡ open_of (members_view members.entries)) }
{
    let Some(bound) = bound_at(&members) else {
        return Ok(None);
    };
    let Some(plan) = taken(members, "plan") else {
        return Ok(None);
    };
    let plan = raw_of(alloc, plan)?;
    Ok(Some(Request::Open { plan, bound }))
}

fn rows(members: &Members) -> Option<Request>
    ensures { option_map request_view result ≡ rows_of (members_view members.now.entries) }
{
    let view = view_at(members)?;
    let from = natural_at(members, "from")?;
    let to = natural_at(members, "to")?;
    Some(Request::Rows { view, from, to })
}

fn take(members: &Members) -> Option<Request>
    ensures { option_map request_view result ≡ take_of (members_view members.now.entries) }
{
    let view = view_at(members)?;
    let wait = wait_at(members)?;
    Some(Request::Take { view, wait })
}

fn edit(alloc: Global, members: Members) -> Result<Option<Request>, Memory>
    ensures { IfOk result (λ found. option_map request_view found
        ≡ edit_of (members_view members.entries)) }
{
    let Some(view) = view_at(&members) else {
        return Ok(None);
    };
    let Some(plan) = taken(members, "plan") else {
        return Ok(None);
    };
    let plan = raw_of(alloc, plan)?;
    Ok(Some(Request::Edit { view, plan }))
}

fn depth(members: &Members) -> Option<Request>
    ensures { option_map request_view result ≡ depth_of (members_view members.now.entries) }
{
    let view = view_at(members)?;
    let depth = natural_at(members, "depth")?;
    if depth > MAX_DEPTH {
        return None;
    }
    Some(Request::Depth { view, depth })
}

/// The path of a group.
fn path_at(alloc: Global, members: &Members) -> Result<Option<Path>, Memory>
    ensures { IfOk result (λ found. found ≡ path (members_view members.now.entries)) }
{
    match member(members, "path") {
        Some(value) => path_of(alloc, value),
        None => Ok(None),
    }
}

fn expand(alloc: Global, members: &Members) -> Result<Option<Request>, Memory>
    ensures { IfOk result (λ found. option_map request_view found
        ≡ expand_of (members_view members.now.entries)) }
{
    let Some(view) = view_at(members) else {
        return Ok(None);
    };
    let Some(path) = path_at(alloc, members)? else {
        return Ok(None);
    };
    Ok(Some(Request::Expand { view, path }))
}

fn collapse(alloc: Global, members: &Members) -> Result<Option<Request>, Memory>
    ensures { IfOk result (λ found. option_map request_view found
        ≡ collapse_of (members_view members.now.entries)) }
{
    let Some(view) = view_at(members) else {
        return Ok(None);
    };
    let Some(path) = path_at(alloc, members)? else {
        return Ok(None);
    };
    Ok(Some(Request::Collapse { view, path }))
}
