ghost use Rattle.std.specs.Prelude.{◌≡◌, IfOk, IfErr, Ok, map};
ghost use Rattle.cell_core.specs.RawViews.{raw_view, map_view, members_of};
ghost use Rattle.row_batch.specs.Checks.{IsChecked};
ghost use Rattle.row_batch.specs.Reading.{RefusesRows};
ghost use Rattle.row_batch.specs.declared.batch.Batch.TheVariants as batch;
ghost use Rattle.row_cells.specs.Rows.{read_batch, read_each, read_patch};
ghost use Rattle.json_rows.specs.Reading.{member_of, names_columns, read_row, read_rows};

use crate::across::across_rows;
use crate::cells::member_of;
use cell_core::{Listed, Numbers, Raw, RawMap, Schema, Text};
use row_batch::{MAX_BATCH, Patch, Patches, RowCause, RowsRefused};
use row_cells::{placed, refused, too_many};
use std::alloc::Global;
use std::collections::BTreeMap;

/// Reads the rows of an update: a list of objects, or an object of lists, which stands for the list of rows
/// across. A member that is left out keeps the old cell, and `null` sets null. The answer is the patches in
/// the order of the rows, the first cause against the value, or want of memory.
pub fn batch_rows(alloc: Global, schema: &Schema, rows: &Raw) -> Result<Patches, RowsRefused>
    ensures ok { IfOk result (λ patches. read_rows schema.now (raw_view rows.now) ≡ Ok patches) }
    ensures err { IfErr result (RefusesRows (read_rows schema.now (raw_view rows.now))) }
    ensures checked { IfOk result (λ patches. IsChecked schema.now (batch.Update patches)) }
{
    read_rows(alloc, schema, rows)
}

fn read_rows(alloc: Global, schema: &Schema, rows: &Raw) -> Result<Patches, RowsRefused>
    ensures ok { IfOk result (λ patches. read_rows schema.now (raw_view rows.now) ≡ Ok patches) }
    ensures err { IfErr result (RefusesRows (read_rows schema.now (raw_view rows.now))) }
{
    match rows {
        Raw::List(list) => list_rows(alloc, schema, list.as_slice()),
        Raw::Map(lists) => across_rows(alloc, schema, lists),
        _ => Err(refused(RowCause::Shape, Numbers::Zero)),
    }
}

fn list_rows(alloc: Global, schema: &Schema, rows: &[Raw]) -> Result<Patches, RowsRefused>
    ensures ok { IfOk result (λ patches. read_batch (read_row schema.now) (map raw_view rows.now) ≡ Ok patches) }
    ensures err { IfErr result (RefusesRows (read_batch (read_row schema.now) (map raw_view rows.now))) }
{
    if rows.len() > MAX_BATCH {
        return Err(too_many(rows.len()));
    }
    patches(alloc, schema, rows)
}

fn patches(alloc: Global, schema: &Schema, rows: &[Raw]) -> Result<Patches, RowsRefused>
    ensures ok { IfOk result (λ patches. read_each (read_row schema.now) 0 (map raw_view rows.now) ≡ Ok patches) }
    ensures err { IfErr result (RefusesRows (read_each (read_row schema.now) 0 (map raw_view rows.now))) }
{
    let mut found = Listed::new(alloc);
    for (row, value) in rows.iter().enumerate() {
        found.push(row_patch(alloc, schema, row, value)?)?;
    }
    Ok(found)
}

fn row_patch(alloc: Global, schema: &Schema, row: usize, value: &Raw) -> Result<Patch, RowsRefused>
    ensures ok { IfOk result (λ patch. read_row schema.now row (raw_view value.now) ≡ Ok patch) }
    ensures err { IfErr result (RefusesRows (read_row schema.now row (raw_view value.now))) }
{
    let Raw::Map(members) = value else {
        return Err(refused(RowCause::Shape, Numbers::One(row as u64)));
    };
    if !names_columns(schema, members.entries()) {
        return Err(refused(RowCause::Unknown, Numbers::One(row as u64)));
    }
    members_patch(alloc, schema, row, members)
}

fn members_patch(
    alloc: Global,
    schema: &Schema,
    row: usize,
    members: &RawMap,
) -> Result<Patch, RowsRefused>
    ensures ok { IfOk result (λ patch. read_patch schema.now row (member_of (map_view members.now)) ≡ Ok patch) }
    ensures err { IfErr result (RefusesRows (read_patch schema.now row (member_of (map_view members.now)))) }
{
    let columns = schema.columns();
    let mut cells = Listed::new(alloc);
    for (i, column) in columns.iter().enumerate() {
        let read = member_of(alloc, members, column)?;
        cells.push(placed(schema.keeping(), row, i, read)?)?;
    }
    Ok(cells)
}

/// Whether every member is named by a column.
pub(crate) fn names_columns(schema: &Schema, members: &BTreeMap<Text, Raw>) -> bool
    ensures { result
        ≡ names_columns schema.now.columns (members_of (map (λ m. (m.0, raw_view m.1)) members.now.entries)) }
{
    for (name, _) in members {
        if schema.find(name).is_none() {
            return false;
        }
    }
    true
}
