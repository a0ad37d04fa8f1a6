ghost use Rattle.std.specs.Prelude.{◌≡◌, IfOk, position, slice_get};
ghost use Rattle.std.specs.Option.{option_copied};
ghost use Rattle.std.specs.Str.{bytes_eq};
ghost use Rattle.csv_rows.specs.Reading.{boolean_field, field_cell, field_of, field_under};

use crate::numbers::{integer_field, is_number, millis_field};
use cell_core::{Cell, CellType, Column, Memory, Text};
use row_batch::{PatchCell, RowCause};
use row_cells::{CellRead, date_cell, moment_cell, words_cell};
use std::alloc::Global;

/// What a row does to a column, or the cause against what it has there.
type PatchRead = Result<PatchCell, RowCause>;

/// The cell that a field is in a column of that type, or the cause against it. An empty field is null.
fn field_cell(alloc: Global, kind: CellType, field: &str) -> Result<CellRead, Memory>
    ensures { IfOk result (λ read. read ≡ field_cell kind field.now) }
{
    if field.is_empty() {
        return Ok(Ok(Cell::Null));
    }
    Ok(match kind {
        CellType::Integer if is_number(field.as_bytes()) => integer_field(field),
        CellType::Integer => Err(RowCause::BadType),
        CellType::Boolean => boolean_field(field),
        CellType::Date => date_cell(field),
        CellType::Moment if is_number(field.as_bytes()) => millis_field(field),
        CellType::Moment => moment_cell(field),
        CellType::Words => words_cell(alloc, field)?,
    })
}

fn boolean_field(field: &str) -> CellRead
    ensures { result ≡ boolean_field field.now }
{
    match field {
        "true" => Ok(Cell::Bool(true)),
        "false" => Ok(Cell::Bool(false)),
        _ => Err(RowCause::BadType),
    }
}

/// What a record does to a column: it keeps its cell where the header doesn't name it.
pub(crate) fn field_of(
    alloc: Global,
    names: &[Text],
    fields: &[Text],
    column: &Column,
) -> Result<PatchRead, Memory>
    ensures { IfOk result (λ read. read ≡ field_of names.now fields.now column.now) }
{
    match field_under(names, fields, &column.name) {
        None => Ok(Ok(PatchCell::Keep)),
        Some(field) => Ok(field_cell(alloc, column.kind, field.as_str())?.map(PatchCell::Set)),
    }
}

/// The field under a name of the header.
fn field_under<'f>(names: &[Text], fields: &'f [Text], name: &Text) -> Option<&'f Text>
    ensures { option_copied result ≡ field_under names.now fields.now name.now }
{
    match place_of(names, name) {
        Some(place) => field_at(fields, place),
        None => None,
    }
}

fn place_of(names: &[Text], name: &Text) -> Option<usize>
    ensures { result ≡ position (λ other. bytes_eq other name.now) names.now }
{
    names
        .iter()
        .position(|other| other.as_str() == name.as_str())
}

fn field_at(fields: &[Text], place: usize) -> Option<&Text>
    ensures { option_copied result ≡ slice_get fields.now place }
{
    fields.get(place)
}
