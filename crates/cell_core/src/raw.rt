use plain_data::{Copies, Memory, Text};
use sqlite_items::Items;
use std::alloc::Global;
use std::collections::BTreeMap;

/// A JSON value (RFC 8259) that is judged later. A number that is no whole number of 64 bits with
/// a sign is only marked, and in an object no name stands twice.
#[cycle(raw)]
#[derive(Drop)]
pub enum Raw {
    Null,
    Bool(bool),
    Int(i64),
    OtherNumber,
    Words(Text),
    List(RawList),
    Map(RawMap),
}

/// The items of a JSON array.
#[cycle(raw)]
#[derive(Drop)]
pub struct RawList {
    items: Items<Raw>,
}

/// The members of a JSON object, ascending by name. No name stands twice.
#[cycle(raw)]
#[derive(Drop)]
pub struct RawMap {
    entries: BTreeMap<Text, Raw>,
}

impl Raw {
    ghost use Rattle.std.specs.Prelude.{◌≡◌, IfOk};
    ghost use Rattle.cell_core.specs.RawViews.{raw_view};

    /// An equal value, with all that it holds. Want of memory is the only refusal.
    pub fn copy(&self, alloc: Global) -> Result<Raw, Memory>
        ensures { IfOk result (λ copy. raw_view copy ≡ raw_view self.now) }
    {
        copy_of(alloc, self)
    }
}

impl RawList {
    ghost use Rattle.std.specs.Prelude.{◌≡◌, map};
    ghost use Rattle.cell_core.specs.RawViews.{raw_view, items_of, list_view};

    /// The array of a list, with no copy made.
    pub fn from_items(items: Items<Raw>) -> RawList
        ensures { list_view result ≡ items_of (map raw_view items) }
    {
        RawList { items }
    }

    /// The items, in place.
    pub fn as_slice(&self) -> &[Raw]
        ensures { items_of (map raw_view result.now) ≡ list_view self.now }
    {
        self.items.as_slice()
    }
}

impl RawMap {
    ghost use Rattle.std.specs.Prelude.{◌≡◌, map, option_map};
    ghost use Rattle.cell_core.specs.RawData.{get_raw};
    ghost use Rattle.cell_core.specs.RawViews.{raw_view, members_of, map_view};

    /// The object of a map, with no copy made.
    pub fn from_entries(entries: BTreeMap<Text, Raw>) -> RawMap
        ensures { map_view result ≡ members_of (map (λ m. (m.0, raw_view m.1)) entries.entries) }
    {
        RawMap { entries }
    }

    /// The members by their names, in place.
    pub fn entries(&self) -> &BTreeMap<Text, Raw>
        ensures { members_of (map (λ m. (m.0, raw_view m.1)) result.now.entries)
            ≡ map_view self.now }
    {
        &self.entries
    }

    /// The value under a name.
    pub fn get(&self, name: &Text) -> Option<&Raw>
        ensures { option_map (λ r. raw_view r.now) result ≡ get_raw name.now (map_view self.now) }
    {
        found(&self.entries, name)
    }
}

ghost use Rattle.std.specs.Prelude.{◌≡◌, IfOk, map, option_map};
ghost use Rattle.cell_core.specs.RawData.{get_raw};
ghost use Rattle.cell_core.specs.RawViews.{raw_view, list_view, map_view, members_of};

#[cycle(copy)]
fn copy_of(alloc: Global, value: &Raw) -> Result<Raw, Memory>
    ensures { IfOk result (λ copy. raw_view copy ≡ raw_view value.now) }
{
    match value {
        Raw::Null => Ok(Raw::Null),
        Raw::Bool(truth) => Ok(Raw::Bool(*truth)),
        Raw::Int(number) => Ok(Raw::Int(*number)),
        Raw::OtherNumber => Ok(Raw::OtherNumber),
        Raw::Words(text) => Ok(Raw::Words(text.copy(alloc)?)),
        Raw::List(list) => Ok(Raw::List(copy_of_list(alloc, list)?)),
        Raw::Map(map) => Ok(Raw::Map(copy_of_map(alloc, map)?)),
    }
}

#[cycle(copy)]
fn copy_of_list(alloc: Global, list: &RawList) -> Result<RawList, Memory>
    ensures { IfOk result (λ copy. list_view copy ≡ list_view list.now) }
{
    let mut items = Items::new(alloc);
    for item in list.items.as_slice() {
        items.push(copy_of(alloc, item)?)?;
    }
    Ok(RawList { items })
}

#[cycle(copy)]
fn copy_of_map(alloc: Global, map: &RawMap) -> Result<RawMap, Memory>
    ensures { IfOk result (λ copy. map_view copy ≡ map_view map.now) }
{
    let mut entries = BTreeMap::new(alloc);
    for (name, value) in map.entries.iter() {
        let name = name.copy(alloc)?;
        drop(entries.insert(name, copy_of(alloc, value)?)?);
    }
    Ok(RawMap { entries })
}

fn found<'m>(entries: &'m BTreeMap<Text, Raw>, name: &Text) -> Option<&'m Raw>
    ensures { option_map (λ r. raw_view r.now) result
        ≡ get_raw name.now (members_of (map (λ m. (m.0, raw_view m.1)) entries.now.entries)) }
{
    entries.get(name)
}
