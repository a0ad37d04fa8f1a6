ghost use Rattle.std.specs.Prelude.{◌≡◌, IfOk, length, map, option_map};
ghost use Rattle.cell_core.specs.RawViews.{raw_view, items_of};
ghost use Rattle.plan_json.specs.Members.{members_data};
ghost use Rattle.plan_json.specs.Plans.{filter_view};
ghost use Rattle.plan_json.specs.Reading.{each, filter_from, filter_in, filter_of, list_of, names_of, sort_from, sort_in, sort_of, text_of, texts_in, texts_of};

use crate::named::{NamedText, NamedTexts};
use crate::plan::{RawFilter, RawFilters, RawSort, RawSorts};
use cell_core::{Copies, Listed, Memory, Raw, Text, Texts};
use std::alloc::Global;
use std::collections::BTreeMap;

/// The members of an object.
pub(crate) type Members = BTreeMap<Text, Raw>;

/// The text, where the value is one.
pub(crate) fn text(alloc: Global, value: &Raw) -> Result<Option<Text>, Memory>
    ensures { IfOk result (λ found. found ≡ text_of (raw_view value.now)) }
{
    match value {
        Raw::Words(text) => Ok(Some(text.copy(alloc)?)),
        _ => Ok(None),
    }
}

/// A list of names.
pub(crate) fn names(alloc: Global, value: &Raw) -> Result<Option<Texts>, Memory>
    ensures { IfOk result (λ found. found ≡ names_of (raw_view value.now)) }
{
    match value {
        Raw::List(list) => names_in(alloc, list.as_slice()),
        _ => Ok(None),
    }
}

fn names_in(alloc: Global, values: &[Raw]) -> Result<Option<Texts>, Memory>
    ensures { IfOk result (λ found. found ≡ each text_of (items_of (map raw_view values.now))) }
{
    let mut found = Vec::new(alloc);
    for value in values {
        match text(alloc, value)? {
            Some(name) => found.push(name)?,
            None => return Ok(None),
        }
    }
    Ok(Some(Listed::from_vec(found)))
}

/// An object from names to texts.
pub(crate) fn named_texts(alloc: Global, value: &Raw) -> Result<Option<NamedTexts>, Memory>
    ensures { IfOk result (λ found. found ≡ texts_of (raw_view value.now)) }
{
    match value {
        Raw::Map(map) => named_texts_in(alloc, map.entries()),
        _ => Ok(None),
    }
}

fn named_texts_in(alloc: Global, members: &Members) -> Result<Option<NamedTexts>, Memory>
    ensures { IfOk result (λ found. found ≡ texts_in (members_data members.now.entries)) }
{
    let mut found = Vec::new(alloc);
    for (name, value) in members {
        match text(alloc, value)? {
            Some(text) => found.push(NamedText {
                name: name.copy(alloc)?,
                text,
            })?,
            None => return Ok(None),
        }
    }
    Ok(Some(NamedTexts::from_listed(Listed::from_vec(found))))
}

/// A list of filters.
pub(crate) fn filters(alloc: Global, value: &Raw) -> Result<Option<RawFilters>, Memory>
    ensures { IfOk result (λ found. option_map (map filter_view) found
        ≡ list_of filter_of (raw_view value.now)) }
{
    match value {
        Raw::List(list) => filters_in(alloc, list.as_slice()),
        _ => Ok(None),
    }
}

fn filters_in(alloc: Global, values: &[Raw]) -> Result<Option<RawFilters>, Memory>
    ensures { IfOk result (λ found. option_map (map filter_view) found
        ≡ each filter_of (items_of (map raw_view values.now))) }
{
    let mut found = Vec::new(alloc);
    for value in values {
        match filter(alloc, value)? {
            Some(filter) => found.push(filter)?,
            None => return Ok(None),
        }
    }
    Ok(Some(Listed::from_vec(found)))
}

fn filter(alloc: Global, value: &Raw) -> Result<Option<RawFilter>, Memory>
    ensures { IfOk result (λ found. option_map filter_view found ≡ filter_of (raw_view value.now)) }
{
    match value {
        Raw::List(list) => filter_in(alloc, list.as_slice()),
        _ => Ok(None),
    }
}

/// `[name, operator]` or `[name, operator, value]`.
fn filter_in(alloc: Global, items: &[Raw]) -> Result<Option<RawFilter>, Memory>
    ensures { IfOk result (λ found. option_map filter_view found
        ≡ filter_in (items_of (map raw_view items.now))) }
{
    if items.len() == 2 {
        return filter_pair(alloc, items);
    }
    if items.len() == 3 {
        return filter_triple(alloc, items);
    }
    Ok(None)
}

fn filter_pair(alloc: Global, items: &[Raw]) -> Result<Option<RawFilter>, Memory>
    requires { length items.now ≡ 2 }
    ensures { IfOk result (λ found. option_map filter_view found
        ≡ filter_in (items_of (map raw_view items.now))) }
{
    filter_from(alloc, &items[0], &items[1], None)
}

fn filter_triple(alloc: Global, items: &[Raw]) -> Result<Option<RawFilter>, Memory>
    requires { length items.now ≡ 3 }
    ensures { IfOk result (λ found. option_map filter_view found
        ≡ filter_in (items_of (map raw_view items.now))) }
{
    let value = items[2].copy(alloc)?;
    filter_from(alloc, &items[0], &items[1], Some(value))
}

fn filter_from(
    alloc: Global,
    name: &Raw,
    operator: &Raw,
    value: Option<Raw>,
) -> Result<Option<RawFilter>, Memory>
    ensures { IfOk result (λ found. option_map filter_view found
        ≡ filter_from (raw_view name.now) (raw_view operator.now) (option_map raw_view value)) }
{
    let Some(name) = text(alloc, name)? else {
        return Ok(None);
    };
    let Some(operator) = text(alloc, operator)? else {
        return Ok(None);
    };
    Ok(Some(RawFilter {
        name,
        operator,
        value,
    }))
}

/// A list of sorts.
pub(crate) fn sorts(alloc: Global, value: &Raw) -> Result<Option<RawSorts>, Memory>
    ensures { IfOk result (λ found. found ≡ list_of sort_of (raw_view value.now)) }
{
    match value {
        Raw::List(list) => sorts_in(alloc, list.as_slice()),
        _ => Ok(None),
    }
}

fn sorts_in(alloc: Global, values: &[Raw]) -> Result<Option<RawSorts>, Memory>
    ensures { IfOk result (λ found. found ≡ each sort_of (items_of (map raw_view values.now))) }
{
    let mut found = Vec::new(alloc);
    for value in values {
        match sort(alloc, value)? {
            Some(sort) => found.push(sort)?,
            None => return Ok(None),
        }
    }
    Ok(Some(Listed::from_vec(found)))
}

fn sort(alloc: Global, value: &Raw) -> Result<Option<RawSort>, Memory>
    ensures { IfOk result (λ found. found ≡ sort_of (raw_view value.now)) }
{
    match value {
        Raw::List(list) => sort_in(alloc, list.as_slice()),
        _ => Ok(None),
    }
}

/// `[name, direction]`.
fn sort_in(alloc: Global, items: &[Raw]) -> Result<Option<RawSort>, Memory>
    ensures { IfOk result (λ found. found ≡ sort_in (items_of (map raw_view items.now))) }
{
    if items.len() != 2 {
        return Ok(None);
    }
    sort_from(alloc, &items[0], &items[1])
}

fn sort_from(alloc: Global, name: &Raw, direction: &Raw) -> Result<Option<RawSort>, Memory>
    ensures { IfOk result (λ found. found ≡ sort_from (raw_view name.now) (raw_view direction.now)) }
{
    let Some(name) = text(alloc, name)? else {
        return Ok(None);
    };
    let Some(direction) = text(alloc, direction)? else {
        return Ok(None);
    };
    Ok(Some(RawSort { name, direction }))
}
