use cell_core::{Cell, CellType, ColumnWords, Direction, Listed, Schema, Text};
use json_rows::raw_of;
use plan_check::{PlanRefused, check};
use plan_json::{read_plan, write_plan};
use plan_types::{AggName, FilterTest, Named, Plan, Sort};
use serde_json::Value;
use std::alloc::Global;
use std::test::Fail;

/// The schema of an integer `v`, a text `s` and a date `d`.
fn schema(alloc: Global) -> Result<Schema, Fail> {
    let mut columns = Listed::new(alloc);
    for (name, kind) in [("v", "integer"), ("s", "string"), ("d", "date")] {
        columns.push(ColumnWords {
            name: Text::from_str(alloc, name)?,
            kind: Text::from_str(alloc, kind)?,
        })?;
    }
    Ok(Schema::make(alloc, columns, None, None)?)
}

/// What a plan's text is checked as, once the plan was written and read again.
fn checked(alloc: Global, text: &str) -> Result<Result<Plan, PlanRefused>, Fail> {
    let raw = raw_of(alloc, Value::from_str(alloc, text)?)?;
    let plan = read_plan(alloc, &raw)?;
    let written = write_plan(alloc, &plan)?;
    let again = read_plan(alloc, &written)?;
    Ok(check(alloc, &schema(alloc)?, &again))
}

/// A text so many times over.
fn repeated(alloc: Global, text: &str, count: usize) -> Result<String, Fail> {
    let mut whole = String::new(alloc);
    for _ in 0..count {
        whole.push_str(text)?;
    }
    Ok(whole)
}

#[test]
fn each_fault_has_its_word_and_place(rt: HostRuntime) -> Result<(), Fail> {
    let alloc = rt.alloc();
    let cases = [
        ("{\"expressions\":{\"\":\"1\"}}", "expressions: name: 0"),
        (
            "{\"expressions\":{\"a\":\"1\",\"v\":\"1\"}}",
            "expressions: name: 1",
        ),
        (
            "{\"expressions\":{\"a\":\"9007199254740992\"}}",
            "expressions: number: 0, 0",
        ),
        (
            "{\"expressions\":{\"a\":\"1 +\"}}",
            "expressions: syntax: 0, 3",
        ),
        (
            "{\"expressions\":{\"a\":\"1 + \\\"w\\\"\"}}",
            "expressions: unknown: 0, 4",
        ),
        (
            "{\"expressions\":{\"a\":\"\\\"v\\\" + \\\"s\\\"\"}}",
            "expressions: type: 0, 4",
        ),
        (
            "{\"expressions\":{\"a\":\"bucket(\\\"d\\\", 'h')\"}}",
            "expressions: unit: 0, 0",
        ),
        ("{\"columns\":[\"v\",\"w\"]}", "columns: unknown: 1"),
        ("{\"columns\":[\"v\",\"v\"]}", "columns: twice: 1"),
        ("{\"group_by\":[\"w\"]}", "group_by: unknown: 0"),
        ("{\"group_by\":[\"v\",\"s\",\"v\"]}", "group_by: twice: 2"),
        (
            "{\"group_by\":[\"v\",\"v\",\"v\",\"v\",\"v\",\"v\",\"v\",\"v\",\"v\"]}",
            "group_by: too many: 9",
        ),
        ("{\"split_by\":[\"w\"]}", "split_by: unknown: 0"),
        ("{\"split_by\":[\"v\",\"v\"]}", "split_by: twice: 1"),
        (
            "{\"split_by\":[\"v\",\"v\",\"v\",\"v\",\"v\"]}",
            "split_by: too many: 5",
        ),
        (
            "{\"aggregates\":{\"s\":\"count\",\"w\":\"sum\"}}",
            "aggregates: unknown: 1",
        ),
        (
            "{\"aggregates\":{\"v\":\"total\"}}",
            "aggregates: aggregate: 0",
        ),
        ("{\"aggregates\":{\"s\":\"sum\"}}", "aggregates: type: 0"),
        ("{\"filter\":[[\"w\",\"is null\"]]}", "filter: unknown: 0"),
        ("{\"filter\":[[\"v\",\"=\",1]]}", "filter: operator: 0"),
        (
            "{\"filter\":[[\"v\",\"contains\",\"x\"]]}",
            "filter: type: 0",
        ),
        (
            "{\"filter\":[[\"v\",\"==\",1],[\"v\",\"==\",null]]}",
            "filter: value: 1",
        ),
        ("{\"filter\":[[\"v\",\"is null\",1]]}", "filter: value: 0"),
        (
            "{\"filter\":[[\"d\",\"in\",[\"2024-02-30\"]]]}",
            "filter: value: 0",
        ),
        ("{\"filter_op\":\"xor\"}", "filter_op: name"),
        ("{\"sort\":[[\"w\",\"asc\"]]}", "sort: unknown: 0"),
        (
            "{\"sort\":[[\"v\",\"asc\"],[\"v\",\"desc\"]]}",
            "sort: twice: 1",
        ),
        ("{\"sort\":[[\"v\",\"up\"]]}", "sort: direction: 0"),
        ("{\"sort\":[[\"s\",\"asc abs\"]]}", "sort: type: 0"),
        // The first member in order counts, not the first that is written.
        (
            "{\"sort\":[[\"w\",\"asc\"]],\"filter_op\":\"xor\",\"filter\":[[\"w\",\"is null\"]]}",
            "filter: unknown: 0",
        ),
    ];
    for (text, want) in cases {
        let refused = checked(alloc, text)?.err().ok_or("taken")?;
        let told = refused.to_string(alloc)?;
        assert_eq!(rt; told.as_str(), want, "{text}");
    }
    Ok(())
}

#[test]
fn long_texts_and_many_items_are_refused(rt: HostRuntime) -> Result<(), Fail> {
    let alloc = rt.alloc();
    let deep = repeated(alloc, "(", 65)?;
    let nested = format!(in alloc; "{{\"expressions\":{{\"a\":\"{deep}\"}}}}")?;
    let blanks = repeated(alloc, " ", 1025)?;
    let long = format!(in alloc; "{{\"expressions\":{{\"a\":\"{blanks}\"}}}}")?;
    let filters = repeated(alloc, "[\"v\",\"is null\"],", 32)?;
    let filtered = format!(in alloc; "{{\"filter\":[{filters}[\"v\",\"is null\"]]}}")?;
    let sorts = repeated(alloc, "[\"v\",\"asc\"],", 8)?;
    let sorted = format!(in alloc; "{{\"sort\":[{sorts}[\"v\",\"asc\"]]}}")?;
    let cases = [
        (nested.as_str(), "expressions: nesting: 0, 64"),
        (long.as_str(), "expressions: long: 0"),
        (filtered.as_str(), "filter: too many: 33"),
        (sorted.as_str(), "sort: too many: 9"),
    ];
    for (text, want) in cases {
        let refused = checked(alloc, text)?.err().ok_or("taken")?;
        let told = refused.to_string(alloc)?;
        assert_eq!(rt; told.as_str(), want);
    }
    Ok(())
}

#[test]
fn a_plan_with_every_member_is_resolved(rt: HostRuntime) -> Result<(), Fail> {
    let alloc = rt.alloc();
    let text =
        "{\"columns\":[\"n\",\"v\"],\"group_by\":[\"s\"],\"split_by\":[\"d\"],\"aggregates\":{\"n\":\"mean\"},\"filter\":[[\"v\",\">=\",3],[\"s\",\"begins with\",\"x\"]],\"filter_op\":\"or\",\"sort\":[[\"n\",\"desc abs\"]],\"expressions\":{\"n\":\"length(\\\"s\\\")\"}}";
    let plan = checked(alloc, text)??;
    assert_eq!(rt; plan.columns.as_slice(), [3, 0].as_slice());
    assert_eq!(rt; plan.group_by.as_slice(), [1].as_slice());
    assert_eq!(rt; plan.split_by.as_slice(), [2].as_slice());
    let mean = Named {
        column: 3,
        aggregate: AggName::Mean,
    };
    assert_eq!(rt; plan.aggregates.as_slice(), [mean].as_slice());
    assert!(rt; !plan.filters.every);
    assert_eq!(rt; plan.filters.list.len(), 2);
    let first = plan.filters.list.get(0).ok_or("no filter")?;
    assert_eq!(rt; first.column, 0);
    assert!(rt; matches!(first.test, FilterTest::AtLeast(Cell::Int(3))));
    let sort = Sort {
        column: 3,
        direction: Direction::DescAbs,
    };
    assert_eq!(rt; plan.sorts.as_slice(), [sort].as_slice());
    assert_eq!(rt; plan.expressions.len(), 1);
    let made = plan.expressions.get(0).ok_or("no expression")?;
    assert_eq!(rt; made.kind, CellType::Integer);
    Ok(())
}

#[test]
fn columns_left_out_are_the_schemas(rt: HostRuntime) -> Result<(), Fail> {
    let alloc = rt.alloc();
    let all = checked(alloc, "{\"expressions\":{\"n\":\"1\"}}")??;
    assert_eq!(rt; all.columns.as_slice(), [0, 1, 2].as_slice());
    assert!(rt; all.filters.every);
    let none = checked(alloc, "{\"columns\":[]}")??;
    assert!(rt; none.columns.is_empty());
    Ok(())
}
