ghost use Rattle.std.specs.Prelude.{◌≡◌, IfOk};
ghost use Rattle.serde_json.specs.View.{view, number_view, items_view, members_view};
ghost use Rattle.cell_core.specs.RawViews.{raw_view, list_view, map_view};
ghost use Rattle.json_rows.specs.RawOf.{number_data, raw_data, items_data, members_data};

use cell_core::{Memory, Raw, RawList, RawMap, Text};
use serde_json::{Map, Number, Value};
use sqlite_items::Items;
use std::alloc::Global;
use std::collections::BTreeMap;

/// The value as one that is judged later. Its texts are moved, and only the lists and objects round
/// them take memory.
#[cycle(convert)]
pub fn raw_of(alloc: Global, value: Value) -> Result<Raw, Memory>
    ensures { IfOk result (λ r. raw_view r ≡ raw_data (view value)) }
{
    match value {
        Value::Null => Ok(Raw::Null),
        Value::Bool(truth) => Ok(Raw::Bool(truth)),
        Value::Number(number) => Ok(raw_number(&number)),
        Value::String(text) => Ok(Raw::Words(Text::from_string(text))),
        Value::Array(items) => Ok(Raw::List(raw_list(alloc, items)?)),
        Value::Object(members) => Ok(Raw::Map(raw_map(alloc, members)?)),
    }
}

fn raw_number(number: &Number) -> Raw
    ensures { raw_view result ≡ number_data (number_view number.now) }
{
    match number.as_i64() {
        Some(whole) => Raw::Int(whole),
        None => Raw::OtherNumber,
    }
}

#[cycle(convert)]
fn raw_list(alloc: Global, items: Vec<Value>) -> Result<RawList, Memory>
    ensures { IfOk result (λ l. list_view l ≡ items_data (items_view items.items)) }
{
    let mut found = Items::new(alloc);
    for item in items {
        found.push(raw_of(alloc, item)?)?;
    }
    Ok(RawList::from_items(found))
}

#[cycle(convert)]
fn raw_map(alloc: Global, members: Map<String, Value>) -> Result<RawMap, Memory>
    ensures { IfOk result (λ m. map_view m ≡ members_data (members_view members.entries)) }
{
    // Its clause says that the names ascend.
    let _count = members.len();
    let mut found = BTreeMap::new(alloc);
    for (name, member) in members {
        drop(found.insert(Text::from_string(name), raw_of(alloc, member)?)?);
    }
    Ok(RawMap::from_entries(found))
}
