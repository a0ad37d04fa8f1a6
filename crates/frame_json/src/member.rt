ghost use Rattle.std.specs.Prelude.{◌≡◌, ◌<◌, IfOk, IfSome, codes, option_map};
ghost use Rattle.serde_json.specs.Find.{get_member, as_str};
ghost use Rattle.serde_json.specs.View.{view, items_view, members_view};
ghost use Rattle.frame_json.specs.Parts.{whole_of};
ghost use Rattle.frame_json.specs.Requests.{natural_of, natural, words, optional, bound_of, wait_of, session_of, words_of, pair_of, column_of, columns_of, columns};

use cell_core::{ColumnWords, Columns, Listed, Memory, Text};
use frame_types::{CLIENT_SESSIONS, MAX_BOUND};
use serde_json::{Map, Value};
use std::alloc::Global;

/// The members of an object.
pub(crate) type Members = Map<String, Value>;

/// The value of the member of that name.
pub(crate) fn member<'m>(members: &'m Members, name: &str) -> Option<&'m Value>
    ensures { option_map (λ v. view v.now) result
        ≡ get_member name.now (members_view members.now.entries) }
{
    members.get(name)
}

/// The same, where the other members are not needed any more.
pub(crate) fn taken(members: Members, name: &str) -> Option<Value>
    ensures { option_map view result ≡ get_member name.now (members_view members.entries) }
{
    let mut members = members;
    members.remove(name)
}

/// A whole number that may be left out.
pub(crate) fn whole_if_given(members: &Members, name: &str) -> Option<Option<i64>>
    ensures { result ≡ optional whole_of (get_member name.now (members_view members.now.entries)) }
{
    match member(members, name) {
        None => Some(None),
        Some(value) => Some(Some(value.as_i64()?)),
    }
}

/// A text that may be left out.
pub(crate) fn words_if_given(
    alloc: Global,
    members: &Members,
    name: &str,
) -> Result<Option<Option<Text>>, Memory>
    ensures { IfOk result (λ found. found
        ≡ optional as_str (get_member name.now (members_view members.now.entries))) }
{
    let Some(value) = member(members, name) else {
        return Ok(Some(None));
    };
    match value.as_str() {
        Some(text) => Ok(Some(Some(Text::from_str(alloc, text)?))),
        None => Ok(None),
    }
}

/// A whole number that is at least 0.
fn natural_in(value: &Value) -> Option<u64>
    ensures { result ≡ natural_of (view value.now) }
{
    let whole = value.as_i64()?;
    if whole < 0 { None } else { Some(whole as u64) }
}

pub(crate) fn natural_at(members: &Members, name: &str) -> Option<u64>
    ensures { result ≡ natural name.now (members_view members.now.entries) }
{
    natural_in(member(members, name)?)
}

/// The `bound` of an `open`, which may be left out.
pub(crate) fn bound_at(members: &Members) -> Option<u64>
    ensures { result ≡ bound_of (get_member (codes "bound") (members_view members.now.entries)) }
{
    let Some(value) = member(members, "bound") else {
        return Some(MAX_BOUND);
    };
    let bound = natural_in(value)?;
    if bound <= MAX_BOUND {
        Some(bound)
    } else {
        None
    }
}

/// The `wait` of a `take`, which may be left out.
pub(crate) fn wait_at(members: &Members) -> Option<bool>
    ensures { result ≡ wait_of (get_member (codes "wait") (members_view members.now.entries)) }
{
    match member(members, "wait") {
        None => Some(false),
        Some(value) => value.as_bool(),
    }
}

/// The session that asks, which a script may name.
pub(crate) fn session_at(members: &Members) -> Option<u32>
    ensures session { result ≡ session_of (get_member (codes "session") (members_view members.now.entries)) }
    ensures within { IfSome result (λ session. session < CLIENT_SESSIONS) }
{
    let Some(value) = member(members, "session") else {
        return Some(0);
    };
    let session = natural_in(value)?;
    if session < u64::from(CLIENT_SESSIONS) {
        Some(session as u32)
    } else {
        None
    }
}

pub(crate) fn words_at<'m>(members: &'m Members, name: &str) -> Option<&'m str>
    ensures { option_map (λ s. s.now) result
        ≡ words name.now (members_view members.now.entries) }
{
    member(members, name).and_then(Value::as_str)
}

fn column_words(alloc: Global, name: &Value, kind: &Value) -> Result<Option<ColumnWords>, Memory>
    ensures { IfOk result (λ found. found ≡ words_of (view name.now) (view kind.now)) }
{
    let (Some(name), Some(kind)) = (name.as_str(), kind.as_str()) else {
        return Ok(None);
    };
    Ok(Some(ColumnWords {
        name: Text::from_str(alloc, name)?,
        kind: Text::from_str(alloc, kind)?,
    }))
}

fn column_pair(alloc: Global, items: &[Value]) -> Result<Option<ColumnWords>, Memory>
    ensures { IfOk result (λ found. found ≡ pair_of (items_view items.now)) }
{
    if items.len() != 2 {
        return Ok(None);
    }
    column_words(alloc, &items[0], &items[1])
}

fn column(alloc: Global, value: &Value) -> Result<Option<ColumnWords>, Memory>
    ensures { IfOk result (λ found. found ≡ column_of (view value.now)) }
{
    match value.as_array() {
        Some(items) => column_pair(alloc, items.as_slice()),
        None => Ok(None),
    }
}

fn columns_in(alloc: Global, values: &[Value]) -> Result<Option<Columns>, Memory>
    ensures { IfOk result (λ found. found ≡ columns_of (items_view values.now)) }
{
    let mut found = Vec::new(alloc);
    for value in values {
        match column(alloc, value)? {
            Some(column) => found.push(column)?,
            None => return Ok(None),
        }
    }
    Ok(Some(Listed::from_vec(found)))
}

/// The columns of a table.
pub(crate) fn columns_at(alloc: Global, members: &Members) -> Result<Option<Columns>, Memory>
    ensures { IfOk result (λ found. found ≡ columns (members_view members.now.entries)) }
{
    let Some(items) = member(members, "columns").and_then(Value::as_array) else {
        return Ok(None);
    };
    columns_in(alloc, items.as_slice())
}
