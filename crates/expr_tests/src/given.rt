use cell_core::{Cell, ColumnWords, Columns, Day, Memory, Moment, Row, Schema, Text};
use expr_parse::parse;
use plan_types::Tree;
use std::alloc::Global;
use std::test::Fail;

/// A cell, as it stands in a table of cases.
#[derive(Clone, Copy, Drop)]
pub enum Given<'a> {
    Null,
    Truth(bool),
    Number(i64),
    Day(i64),
    Millis(i64),
    Words(&'a str),
}

fn date(number: i64) -> Cell {
    match Day::try_of(number) {
        Some(day) => Cell::Date(day),
        None => Cell::Null,
    }
}

fn moment(number: i64) -> Cell {
    match Moment::try_of(number) {
        Some(moment) => Cell::Moment(moment),
        None => Cell::Null,
    }
}

/// The cell. A day or a datetime out of range is null.
pub fn cell(alloc: Global, given: Given) -> Result<Cell, Memory> {
    Ok(match given {
        Given::Null => Cell::Null,
        Given::Truth(truth) => Cell::Bool(truth),
        Given::Number(number) => Cell::Int(number),
        Given::Day(number) => date(number),
        Given::Millis(number) => moment(number),
        Given::Words(text) => Cell::Words(Text::from_str(alloc, text)?),
    })
}

pub fn row(alloc: Global, cells: &[Given]) -> Result<Row, Memory> {
    let mut row = Row::new(alloc);
    for given in cells {
        row.push(cell(alloc, *given)?)?;
    }
    Ok(row)
}

fn column(alloc: Global, name: &str, kind: &str) -> Result<ColumnWords, Memory> {
    let name = Text::from_str(alloc, name)?;
    let kind = Text::from_str(alloc, kind)?;
    Ok(ColumnWords { name, kind })
}

fn columns(alloc: Global, words: &[(&str, &str)]) -> Result<Columns, Memory> {
    let mut columns = Columns::new(alloc);
    for (name, kind) in words {
        columns.push(column(alloc, name, kind)?)?;
    }
    Ok(columns)
}

/// The schema of columns of these names and types.
pub fn schema(alloc: Global, words: &[(&str, &str)]) -> Result<Schema, Fail> {
    let columns = columns(alloc, words)?;
    Ok(Schema::make(alloc, columns, None, None)?)
}

/// The tree of an expression.
pub fn tree(alloc: Global, text: &str) -> Result<Tree, Fail> {
    let text = Text::from_str(alloc, text)?;
    Ok(parse(alloc, &text)?)
}
