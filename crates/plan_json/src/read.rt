ghost use Rattle.std.specs.Prelude.{◌≡◌, IfOk, IfErr, Some, codes, map, option_map};
ghost use Rattle.cell_core.specs.RawData.{get_raw};
ghost use Rattle.cell_core.specs.RawViews.{map_view, raw_view};
ghost use Rattle.plan_json.specs.Members.{members_data};
ghost use Rattle.plan_json.specs.Plans.{filter_view, raw_plan_view};
ghost use Rattle.plan_json.specs.Reading.{RefusesForm, are_members, filter_of, if_given, is_member, list_of, names_of, or_empty, plan_in, plan_of, sort_of, text_of, texts_of};

use crate::forms::{Members, filters, named_texts, names, sorts, text};
use crate::named::NamedTexts;
use crate::plan::{RawFilters, RawPlan, RawSorts};
use crate::refused::PlanFormRefused;
use cell_core::{Listed, Memory, Raw, RawMap, Text, Texts};
use std::alloc::Global;

/// Reads a plan: an object in which each member may be left out. Nothing in it is judged but its form.
pub fn read_plan(alloc: Global, raw: &Raw) -> Result<RawPlan, PlanFormRefused>
    ensures ok { IfOk result (λ plan. plan_of (raw_view raw.now) ≡ Some (raw_plan_view plan)) }
    ensures err { IfErr result (RefusesForm (plan_of (raw_view raw.now))) }
{
    match plan_if_formed(alloc, raw)? {
        Some(plan) => Ok(plan),
        None => Err(PlanFormRefused::Form),
    }
}

fn plan_if_formed(alloc: Global, raw: &Raw) -> Result<Option<RawPlan>, Memory>
    ensures { IfOk result (λ found. option_map raw_plan_view found ≡ plan_of (raw_view raw.now)) }
{
    let Raw::Map(map) = raw else {
        return Ok(None);
    };
    let members = map.entries();
    if !are_members(members) {
        return Ok(None);
    }
    plan_in(alloc, members)
}

/// Whether every member is one that a plan has.
fn are_members(members: &Members) -> bool
    ensures { result ≡ are_members (members_data members.now.entries) }
{
    for (name, _) in members {
        if !is_member(name.as_str()) {
            return false;
        }
    }
    true
}

fn is_member(name: &str) -> bool
    ensures { result ≡ is_member name.now }
{
    matches!(
        name,
        "aggregates"
            | "columns"
            | "expressions"
            | "filter"
            | "filter_op"
            | "group_by"
            | "sort"
            | "split_by"
    )
}

fn plan_in(alloc: Global, members: &Members) -> Result<Option<RawPlan>, Memory>
    ensures { IfOk result (λ found. option_map raw_plan_view found ≡ plan_in (members_data members.now.entries)) }
{
    let Some(columns) = columns_at(alloc, members)? else {
        return Ok(None);
    };
    let Some(group_by) = names_at(alloc, members, "group_by")? else {
        return Ok(None);
    };
    let Some(split_by) = names_at(alloc, members, "split_by")? else {
        return Ok(None);
    };
    let Some(aggregates) = texts_at(alloc, members, "aggregates")? else {
        return Ok(None);
    };
    let Some(expressions) = texts_at(alloc, members, "expressions")? else {
        return Ok(None);
    };
    let Some(filter) = filters_at(alloc, members)? else {
        return Ok(None);
    };
    let Some(filter_op) = filter_op_at(alloc, members)? else {
        return Ok(None);
    };
    let Some(sort) = sorts_at(alloc, members)? else {
        return Ok(None);
    };
    Ok(Some(RawPlan {
        columns,
        group_by,
        split_by,
        aggregates,
        expressions,
        filter,
        filter_op,
        sort,
    }))
}

/// The value of a plan's member, where the object has one of that name.
pub fn plan_member<'m>(plan: &'m RawMap, name: &str) -> Option<&'m Raw>
    ensures { option_map (λ value. raw_view value.now) result ≡ get_raw name.now (map_view plan.now) }
{
    member(plan.entries(), name)
}

/// The value of the member of that name.
fn member<'m>(members: &'m Members, name: &str) -> Option<&'m Raw>
    ensures { option_map (λ value. raw_view value.now) result
        ≡ get_raw name.now (members_data members.now.entries) }
{
    for (other, value) in members {
        if name == other.as_str() {
            return Some(value);
        }
    }
    None
}

fn columns_at(alloc: Global, members: &Members) -> Result<Option<Option<Texts>>, Memory>
    ensures { IfOk result (λ found. found
        ≡ if_given names_of (get_raw (codes "columns") (members_data members.now.entries))) }
{
    match member(members, "columns") {
        None => Ok(Some(None)),
        Some(value) => Ok(names(alloc, value)?.map(Some)),
    }
}

fn names_at(alloc: Global, members: &Members, name: &str) -> Result<Option<Texts>, Memory>
    ensures { IfOk result (λ found. found ≡ or_empty names_of (get_raw name.now (members_data members.now.entries))) }
{
    match member(members, name) {
        None => Ok(Some(Listed::new(alloc))),
        Some(value) => names(alloc, value),
    }
}

fn texts_at(alloc: Global, members: &Members, name: &str) -> Result<Option<NamedTexts>, Memory>
    ensures { IfOk result (λ found. found ≡ or_empty texts_of (get_raw name.now (members_data members.now.entries))) }
{
    match member(members, name) {
        None => Ok(Some(NamedTexts::from_listed(Listed::new(alloc)))),
        Some(value) => named_texts(alloc, value),
    }
}

fn filters_at(alloc: Global, members: &Members) -> Result<Option<RawFilters>, Memory>
    ensures { IfOk result (λ found. option_map (map filter_view) found
        ≡ or_empty (list_of filter_of) (get_raw (codes "filter") (members_data members.now.entries))) }
{
    match member(members, "filter") {
        None => Ok(Some(Listed::new(alloc))),
        Some(value) => filters(alloc, value),
    }
}

fn filter_op_at(alloc: Global, members: &Members) -> Result<Option<Option<Text>>, Memory>
    ensures { IfOk result (λ found. found
        ≡ if_given text_of (get_raw (codes "filter_op") (members_data members.now.entries))) }
{
    match member(members, "filter_op") {
        None => Ok(Some(None)),
        Some(value) => Ok(text(alloc, value)?.map(Some)),
    }
}

fn sorts_at(alloc: Global, members: &Members) -> Result<Option<RawSorts>, Memory>
    ensures { IfOk result (λ found. found
        ≡ or_empty (list_of sort_of) (get_raw (codes "sort") (members_data members.now.entries))) }
{
    match member(members, "sort") {
        None => Ok(Some(Listed::new(alloc))),
        Some(value) => sorts(alloc, value),
    }
}
