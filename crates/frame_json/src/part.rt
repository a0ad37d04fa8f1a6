ghost use Rattle.std.specs.Prelude.{◌≡◌, IfOk, option_and_then};
ghost use Rattle.serde_json.specs.View.{view, number_view, items_view};
ghost use Rattle.serde_json.specs.Find.{as_i64};
ghost use Rattle.cell_core.specs.Limits.{is_integer};
ghost use Rattle.frame_json.specs.Parts.{if_meets, tagged_part, pair_part, part_of, parts_of, few_parts, path_of};

use cal_units::{Moment, read_date};
use cell_core::{Cell, Listed, Memory, Path, Text, is_integer};
use frame_types::MAX_DEPTH;
use serde_json::{Number, Value};
use std::alloc::Global;

/// The path of a group that a value is: a list of at most 8 parts.
pub(crate) fn path_of(alloc: Global, value: &Value) -> Result<Option<Path>, Memory>
    ensures { IfOk result (λ path. path ≡ path_of (view value.now)) }
{
    match value.as_array() {
        Some(parts) => few_parts(alloc, parts.as_slice()),
        None => Ok(None),
    }
}

fn few_parts(alloc: Global, parts: &[Value]) -> Result<Option<Path>, Memory>
    ensures { IfOk result (λ path. path ≡ few_parts (items_view parts.now)) }
{
    if parts.len() as u64 > MAX_DEPTH {
        return Ok(None);
    }
    parts_of(alloc, parts)
}

fn parts_of(alloc: Global, values: &[Value]) -> Result<Option<Path>, Memory>
    ensures { IfOk result (λ parts. parts ≡ parts_of (items_view values.now)) }
{
    let mut parts = Vec::new(alloc);
    for value in values {
        match part_of(alloc, value)? {
            Some(cell) => parts.push(cell)?,
            None => return Ok(None),
        }
    }
    Ok(Some(Listed::from_vec(parts)))
}

/// The cell that a value of a path is: null, a boolean, a whole number, a string, a date or a datetime.
fn part_of(alloc: Global, value: &Value) -> Result<Option<Cell>, Memory>
    ensures { IfOk result (λ part. part ≡ part_of (view value.now)) }
{
    match value {
        Value::Null => Ok(Some(Cell::Null)),
        Value::Bool(truth) => Ok(Some(Cell::Bool(*truth))),
        Value::Number(number) => Ok(integer_of(number).map(|whole| Cell::Int(whole))),
        Value::String(text) => Ok(Some(Cell::Words(Text::from_str(alloc, text.as_str())?))),
        Value::Array(pair) => Ok(pair_part(pair.as_slice())),
        Value::Object(_) => Ok(None),
    }
}

fn integer_of(number: &Number) -> Option<i64>
    ensures { result ≡ option_and_then (if_meets is_integer) (as_i64 (number_view number.now)) }
{
    let whole = number.as_i64()?;
    if is_integer(whole) { Some(whole) } else { None }
}

fn pair_part(pair: &[Value]) -> Option<Cell>
    ensures { result ≡ pair_part (items_view pair.now) }
{
    if pair.len() != 2 {
        return None;
    }
    tagged_part(pair[0].as_str()?, &pair[1])
}

/// A date or a datetime, by the letter that stands before it.
fn tagged_part(letter: &str, value: &Value) -> Option<Cell>
    ensures { result ≡ tagged_part letter.now (view value.now) }
{
    match letter {
        "d" => {
            let day = read_date(value.as_str()?.as_bytes()).ok()?;
            Some(Cell::Date(day))
        }
        "t" => {
            let moment = Moment::try_of(value.as_i64()?)?;
            Some(Cell::Moment(moment))
        }
        _ => None,
    }
}
