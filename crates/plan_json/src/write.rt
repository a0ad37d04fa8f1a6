ghost use Rattle.std.specs.Prelude.{◌≡◌, ◌++◌, IfOk, OnOk, map, option_map};
ghost use Rattle.cell_core.specs.RawData.{raw_words};
ghost use Rattle.cell_core.specs.RawViews.{raw_view};
ghost use Rattle.plan_json.specs.Members.{with_entry, with_given};
ghost use Rattle.plan_json.specs.Plans.{filter_view, raw_plan_view};
ghost use Rattle.plan_json.specs.Writing.{if_some, raw_of_filter, raw_of_names, raw_of_plan, raw_of_sort, raw_of_texts, raw_items};

use crate::forms::Members;
use crate::named::NamedTexts;
use crate::plan::{RawFilter, RawPlan, RawSort};
use cell_core::{Copies, Memory, Raw, RawList, RawMap, Text, Texts};
use sqlite_items::Items;
use std::alloc::Global;

/// Writes a plan as an object of its members. Empty lists are written too, `columns` and `filter_op` where they are
/// given. Want of memory is the only refusal.
pub fn write_plan(alloc: Global, plan: &RawPlan) -> Result<Raw, Memory>
    ensures { IfOk result (λ raw. raw_view raw ≡ raw_of_plan (raw_plan_view plan.now)) }
{
    let aggregates = raw_texts(alloc, &plan.aggregates)?;
    let columns = raw_columns(alloc, &plan.columns)?;
    let expressions = raw_texts(alloc, &plan.expressions)?;
    let filter = raw_filters(alloc, plan.filter.as_slice())?;
    let filter_op = raw_filter_op(alloc, &plan.filter_op)?;
    let group_by = raw_names(alloc, plan.group_by.as_slice())?;
    let sort = raw_sorts(alloc, plan.sort.as_slice())?;
    let split_by = raw_names(alloc, plan.split_by.as_slice())?;
    let mut members = Members::new(alloc);
    put(alloc, &mut members, "aggregates", aggregates)?;
    put_given(alloc, &mut members, "columns", columns)?;
    put(alloc, &mut members, "expressions", expressions)?;
    put(alloc, &mut members, "filter", filter)?;
    put_given(alloc, &mut members, "filter_op", filter_op)?;
    put(alloc, &mut members, "group_by", group_by)?;
    put(alloc, &mut members, "sort", sort)?;
    put(alloc, &mut members, "split_by", split_by)?;
    Ok(Raw::Map(RawMap::from_entries(members)))
}

/// Puts a member under its name.
fn put(alloc: Global, members: &mut Members, name: &str, value: Raw) -> Result<(), Memory>
    ensures { OnOk result (members.new.entries ≡ with_entry members.old.entries name.now value) }
{
    drop(members.insert(Text::from_str(alloc, name)?, value)?);
    Ok(())
}

/// Puts a member under its name, where it is given.
fn put_given(
    alloc: Global,
    members: &mut Members,
    name: &str,
    value: Option<Raw>,
) -> Result<(), Memory>
    ensures { OnOk result (members.new.entries ≡ with_given members.old.entries name.now value) }
{
    match value {
        Some(value) => put(alloc, members, name, value),
        None => Ok(()),
    }
}

fn raw_columns(alloc: Global, columns: &Option<Texts>) -> Result<Option<Raw>, Memory>
    ensures { IfOk result (λ raw. option_map raw_view raw ≡ option_map raw_of_names columns.now) }
{
    match columns {
        Some(names) => Ok(Some(raw_names(alloc, names.as_slice())?)),
        None => Ok(None),
    }
}

fn raw_filter_op(alloc: Global, filter_op: &Option<Text>) -> Result<Option<Raw>, Memory>
    ensures { IfOk result (λ raw. option_map raw_view raw ≡ option_map raw_words filter_op.now) }
{
    match filter_op {
        Some(word) => Ok(Some(raw_text(alloc, word)?)),
        None => Ok(None),
    }
}

fn raw_text(alloc: Global, text: &Text) -> Result<Raw, Memory>
    ensures { IfOk result (λ raw. raw_view raw ≡ raw_words text.now) }
{
    Ok(Raw::Words(text.copy(alloc)?))
}

fn raw_names(alloc: Global, names: &[Text]) -> Result<Raw, Memory>
    ensures { IfOk result (λ raw. raw_view raw ≡ raw_of_names names.now) }
{
    let mut items = Items::new(alloc);
    for name in names {
        items.push(raw_text(alloc, name)?)?;
    }
    Ok(Raw::List(RawList::from_items(items)))
}

fn raw_texts(alloc: Global, texts: &NamedTexts) -> Result<Raw, Memory>
    ensures { IfOk result (λ raw. raw_view raw ≡ raw_of_texts texts.now) }
{
    let mut members = Members::new(alloc);
    for named in texts.as_slice() {
        let text = raw_text(alloc, &named.text)?;
        put(alloc, &mut members, named.name.as_str(), text)?;
    }
    Ok(Raw::Map(RawMap::from_entries(members)))
}

fn raw_filters(alloc: Global, filters: &[RawFilter]) -> Result<Raw, Memory>
    ensures { IfOk result (λ raw. raw_view raw
        ≡ raw_items (map raw_of_filter (map filter_view filters.now))) }
{
    let mut items = Items::new(alloc);
    for filter in filters {
        items.push(raw_filter(alloc, filter)?)?;
    }
    Ok(Raw::List(RawList::from_items(items)))
}

fn raw_filter(alloc: Global, filter: &RawFilter) -> Result<Raw, Memory>
    ensures { IfOk result (λ raw. raw_view raw ≡ raw_of_filter (filter_view filter.now)) }
{
    let mut items = Items::new(alloc);
    items.push(raw_text(alloc, &filter.name)?)?;
    items.push(raw_text(alloc, &filter.operator)?)?;
    push_given(alloc, &mut items, &filter.value)?;
    Ok(Raw::List(RawList::from_items(items)))
}

/// Puts a copy of a value at the end, where it is given.
fn push_given(alloc: Global, items: &mut Items<Raw>, value: &Option<Raw>) -> Result<(), Memory>
    ensures { OnOk result (map raw_view items.new
        ≡ map raw_view items.old ++ if_some (option_map raw_view value.now)) }
{
    if let Some(value) = value {
        items.push(value.copy(alloc)?)?;
    }
    Ok(())
}

fn raw_sorts(alloc: Global, sorts: &[RawSort]) -> Result<Raw, Memory>
    ensures { IfOk result (λ raw. raw_view raw ≡ raw_items (map raw_of_sort sorts.now)) }
{
    let mut items = Items::new(alloc);
    for sort in sorts {
        items.push(raw_sort(alloc, sort)?)?;
    }
    Ok(Raw::List(RawList::from_items(items)))
}

fn raw_sort(alloc: Global, sort: &RawSort) -> Result<Raw, Memory>
    ensures { IfOk result (λ raw. raw_view raw ≡ raw_of_sort sort.now) }
{
    let mut items = Items::new(alloc);
    items.push(raw_text(alloc, &sort.name)?)?;
    items.push(raw_text(alloc, &sort.direction)?)?;
    Ok(Raw::List(RawList::from_items(items)))
}
