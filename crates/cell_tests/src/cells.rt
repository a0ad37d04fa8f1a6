use crate::schemas::columns;
use cell_core::{
    Cell, Copies, Day, Keeping, MAX_INTEGER, Memory, Moment, Raw, RawList, RawMap, Schema,
    SchemaRefused, Text,
};
use sqlite_items::Items;
use std::alloc::Global;
use std::collections::BTreeMap;
use std::test::Fail;

/// What the rows of a table of these columns are kept under.
fn keeping(
    alloc: Global,
    words: &[(&str, &str)],
    index: &str,
    limit: Option<i64>,
) -> Result<Keeping, SchemaRefused> {
    let columns = columns(alloc, words)?;
    let index = Text::from_str(alloc, index)?;
    let schema = Schema::make(alloc, columns, Some(index), limit)?;
    Ok(schema.keeping())
}

#[test]
fn a_schema_is_made(rt: HostRuntime) -> Result<(), Fail> {
    let words = [("when", "datetime"), ("k", "integer")];
    assert_eq!(rt;
        keeping(rt.alloc(), &words, "k", None)?,
        Keeping::Indexed(1)
    );
    Ok(())
}

/// What is against the columns, in words.
fn refusal(alloc: Global, words: &[(&str, &str)]) -> Result<String, Fail> {
    match keeping(alloc, words, "k", Some(0)) {
        Ok(_) => Err("a schema".into()),
        Err(refused) => Ok(refused.to_string(alloc)?),
    }
}

#[test]
fn the_first_cause_refuses_a_schema(rt: HostRuntime) -> Result<(), Fail> {
    let words = [("v", "date"), ("v", "date")];
    assert_eq!(rt;
        refusal(rt.alloc(), &words)?.as_str(),
        "a column's name stands twice: 1"
    );
    Ok(())
}

/// The cell of that place in an ascending list.
fn ascending(alloc: Global, place: u8) -> Result<Cell, Memory> {
    Ok(match place {
        0 => Cell::Null,
        1 => Cell::Bool(false),
        2 => Cell::Int(-MAX_INTEGER),
        3 => Cell::Date(Day::of(-719162)),
        4 => Cell::Moment(Moment::of(-62135596800000)),
        5 => Cell::Words(Text::from_str(alloc, "Z")?),
        _ => Cell::Words(Text::from_str(alloc, "a")?),
    })
}

/// Whether a cell stands before the next, is equal to its copy, and has a value unless it is null.
fn stands_before(alloc: Global, place: u8, next: u8) -> Result<bool, Memory> {
    let cell = ascending(alloc, place)?;
    let value = cell.value(alloc)?;
    Ok(
        cell.order(&ascending(alloc, next)?).is_lt()
            && cell.copy(alloc)? == cell
            && value.is_none() == cell.is_null(),
    )
}

#[test]
fn cells_ascend_by_kind(rt: HostRuntime) -> Result<(), Fail> {
    for place in 0u8..6 {
        assert!(rt; stands_before(rt.alloc(), place, place + 1)?, "{place}");
    }
    Ok(())
}

/// An object of a text under these names.
fn object(alloc: Global, names: &[&str]) -> Result<Raw, Memory> {
    let mut entries = BTreeMap::new(alloc);
    for name in names {
        let word = Raw::Words(Text::from_str(alloc, "é")?);
        drop(entries.insert(Text::from_str(alloc, name)?, word)?);
    }
    Ok(Raw::Map(RawMap::from_entries(entries)))
}

/// An array of a number and an object.
fn array(alloc: Global) -> Result<Raw, Memory> {
    let mut items = Items::new(alloc);
    items.push(Raw::Int(7))?;
    items.push(object(alloc, &["b", "a"])?)?;
    Ok(Raw::List(RawList::from_items(items)))
}

/// Whether it is an array of a number and of an object with so many members.
fn is_array(raw: &Raw, members: usize) -> bool {
    let Raw::List(list) = raw else {
        return false;
    };
    match list.as_slice() {
        [Raw::Int(7), Raw::Map(object)] => object.entries().len() == members,
        _ => false,
    }
}

#[test]
fn values_that_are_judged_later_are_copied(rt: HostRuntime) -> Result<(), Fail> {
    let copy = array(rt.alloc())?.copy(rt.alloc())?;
    assert!(rt; is_array(&copy, 2));
    Ok(())
}
