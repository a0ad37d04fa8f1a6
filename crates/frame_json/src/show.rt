ghost use Rattle.std.specs.Prelude.{◌≡◌, [], IfOk, map};
ghost use Rattle.serde_json.specs.Data.{no_members, string};
ghost use Rattle.serde_json.specs.View.{view, members_view};
ghost use Rattle.cal_units.specs.DateText.{date_text};
ghost use Rattle.frame_json.specs.Replies.{pair as pair_data, triple as triple_data, tagged as tagged_data, whole_data, fraction_data, day_data, date_data, moment_data, value_data, part_data, row_key as row_key_data, group_key as group_key_data, key_data, keys_data, column_data, header_data, with_cells, cells_data, row_data, rows_data, put_data, puts_data};

use cal_units::{Day, Moment, write_date};
use cell_core::{Cell, Fraction, Memory, Value as ShownValue};
use delta_core::Put;
use row_batch::MAX_INTEGER;
use serde_json::{Map, Value, json, put};
use std::alloc::Global;
use view_types::{HeaderColumn, ShownCells, ShownRow, ViewKey};

/// The greatest whole number that is written as a number.
const MAX_EXACT: i128 = MAX_INTEGER as i128;

pub(crate) fn words(alloc: Global, text: &str) -> Result<Value, Memory>
    ensures { IfOk result (λ v. view v ≡ string text.now) }
{
    Ok(Value::try_from_str(alloc, text)?)
}

pub(crate) fn pair(alloc: Global, first: Value, second: Value) -> Result<Value, Memory>
    ensures { IfOk result (λ v. view v ≡ pair_data (view first) (view second)) }
{
    Ok(json!(in alloc; [first, second])?)
}

fn triple(alloc: Global, first: Value, second: Value, third: Value) -> Result<Value, Memory>
    ensures { IfOk result (λ v. view v ≡ triple_data (view first) (view second) (view third)) }
{
    Ok(json!(in alloc; [first, second, third])?)
}

/// A value under a letter that tells its kind.
fn tagged(alloc: Global, letter: &str, value: Value) -> Result<Value, Memory>
    ensures { IfOk result (λ v. view v ≡ tagged_data letter.now (view value)) }
{
    pair(alloc, words(alloc, letter)?, value)
}

fn whole_number(alloc: Global, number: i128) -> Result<Value, Memory>
    ensures { IfOk result (λ v. view v ≡ whole_data number) }
{
    if -MAX_EXACT <= number && number <= MAX_EXACT {
        return Ok(Value::from(number as i64));
    }
    let digits = number.to_string(alloc)?;
    tagged(alloc, "i", Value::from(digits))
}

fn fraction(alloc: Global, fraction: &Fraction) -> Result<Value, Memory>
    ensures { IfOk result (λ v. view v ≡ fraction_data fraction.now) }
{
    let numerator = whole_number(alloc, fraction.n)?;
    let denominator = whole_number(alloc, fraction.d)?;
    pair(alloc, numerator, denominator)
}

fn date_words(alloc: Global, day: Day) -> Result<Value, Memory>
    ensures { IfOk result (λ v. view v ≡ string (date_text day)) }
{
    let digits = write_date(day);
    match str::from_utf8(&digits) {
        Ok(text) => words(alloc, text),
        Err(_) => unreachable!(),
    }
}

/// A day is in range by its type, and so it is written as its date.
fn day_value(alloc: Global, day: Day) -> Result<Value, Memory>
    ensures { IfOk result (λ v. view v ≡ day_data day) }
{
    let _in_range = day.number();
    date_words(alloc, day)
}

fn date(alloc: Global, day: Day) -> Result<Value, Memory>
    ensures { IfOk result (λ v. view v ≡ date_data day) }
{
    tagged(alloc, "d", day_value(alloc, day)?)
}

fn moment(alloc: Global, time: Moment) -> Result<Value, Memory>
    ensures { IfOk result (λ v. view v ≡ moment_data time) }
{
    tagged(alloc, "t", Value::from(time.number()))
}

fn value_of(alloc: Global, value: &ShownValue) -> Result<Value, Memory>
    ensures { IfOk result (λ v. view v ≡ value_data value.now) }
{
    match value {
        ShownValue::Bool(truth) => Ok(Value::from(*truth)),
        ShownValue::Whole(number) => whole_number(alloc, *number),
        ShownValue::Fraction(number) => fraction(alloc, number),
        ShownValue::Date(day) => date(alloc, *day),
        ShownValue::Moment(time) => moment(alloc, *time),
        ShownValue::Words(text) => words(alloc, text.as_str()),
    }
}

fn part(alloc: Global, cell: &Cell) -> Result<Value, Memory>
    ensures { IfOk result (λ v. view v ≡ part_data cell.now) }
{
    match cell {
        Cell::Null => Ok(Value::Null),
        Cell::Bool(truth) => Ok(Value::from(*truth)),
        Cell::Int(number) => Ok(Value::from(*number)),
        Cell::Date(day) => date(alloc, *day),
        Cell::Moment(time) => moment(alloc, *time),
        Cell::Words(text) => words(alloc, text.as_str()),
    }
}

fn group_key(alloc: Global, path: &[Cell]) -> Result<Value, Memory>
    ensures { IfOk result (λ v. view v ≡ group_key_data path.now) }
{
    let mut found = Vec::new(alloc);
    found.push(words(alloc, "g")?)?;
    for cell in path {
        found.push(part(alloc, cell)?)?;
    }
    Ok(Value::Array(found))
}

fn row_key(alloc: Global, cell: &Cell) -> Result<Value, Memory>
    ensures { IfOk result (λ v. view v ≡ row_key_data cell.now) }
{
    tagged(alloc, "r", part(alloc, cell)?)
}

fn key(alloc: Global, key: &ViewKey) -> Result<Value, Memory>
    ensures { IfOk result (λ v. view v ≡ key_data key.now) }
{
    match key {
        ViewKey::Row(cell) => row_key(alloc, cell),
        ViewKey::Group(path) => group_key(alloc, path.as_slice()),
    }
}

pub(crate) fn keys(alloc: Global, keys: &[ViewKey]) -> Result<Value, Memory>
    ensures { IfOk result (λ v. view v ≡ keys_data keys.now) }
{
    let mut found = Vec::new(alloc);
    for item in keys {
        found.push(key(alloc, item)?)?;
    }
    Ok(Value::Array(found))
}

fn column(alloc: Global, column: &HeaderColumn) -> Result<Value, Memory>
    ensures { IfOk result (λ v. view v ≡ column_data column.now) }
{
    let text = words(alloc, column.text.as_str())?;
    let kind = words(alloc, column.kind.name())?;
    pair(alloc, text, kind)
}

pub(crate) fn header(alloc: Global, columns: &[HeaderColumn]) -> Result<Value, Memory>
    ensures { IfOk result (λ v. view v ≡ header_data columns.now) }
{
    let mut found = Vec::new(alloc);
    for item in columns {
        found.push(column(alloc, item)?)?;
    }
    Ok(Value::Array(found))
}

fn cells(alloc: Global, cells: &ShownCells) -> Result<Value, Memory>
    ensures { IfOk result (λ v. view v ≡ cells_data cells.now) }
{
    let mut found = Map::new(alloc);
    for (column, value) in cells.entries().iter() {
        let value = value_of(alloc, value)?;
        put(&mut found, alloc, column.as_str(), value)?;
    }
    Ok(Value::Object(found))
}

fn row(alloc: Global, row: &ShownRow) -> Result<Value, Memory>
    ensures { IfOk result (λ v. view v ≡ row_data row.now) }
{
    let cells = cells(alloc, &row.cells)?;
    match &row.key {
        ViewKey::Row(cell) => pair(alloc, row_key(alloc, cell)?, cells),
        ViewKey::Group(path) => {
            let key = group_key(alloc, path.as_slice())?;
            triple(alloc, key, Value::from(row.mark), cells)
        }
    }
}

pub(crate) fn rows(alloc: Global, rows: &[ShownRow]) -> Result<Value, Memory>
    ensures { IfOk result (λ v. view v ≡ rows_data rows.now) }
{
    let mut found = Vec::new(alloc);
    for item in rows {
        found.push(row(alloc, item)?)?;
    }
    Ok(Value::Array(found))
}

/// A row, with the position at which it is put.
fn placed_row(alloc: Global, placed: &Put) -> Result<Value, Memory>
    ensures { IfOk result (λ v. view v ≡ put_data placed.now) }
{
    let shown = row(alloc, &placed.row)?;
    pair(alloc, Value::from(placed.position), shown)
}

pub(crate) fn placed_rows(alloc: Global, placed: &[Put]) -> Result<Value, Memory>
    ensures { IfOk result (λ v. view v ≡ puts_data placed.now) }
{
    let mut found = Vec::new(alloc);
    for item in placed {
        found.push(placed_row(alloc, item)?)?;
    }
    Ok(Value::Array(found))
}
