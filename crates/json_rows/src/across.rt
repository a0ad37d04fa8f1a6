ghost use Rattle.std.specs.Prelude.{◌≡◌, true, IfOk, IfErr, Ok, map};
ghost use Rattle.plain_data.specs.Faults.{first_fault};
ghost use Rattle.cell_core.specs.RawViews.{raw_view, map_view, members_of};
ghost use Rattle.row_batch.specs.Reading.{RefusesRows};
ghost use Rattle.row_cells.specs.Rows.{of_whole, read_each, read_patch};
ghost use Rattle.json_rows.specs.Reading.{are_lists, have_len, is_list, list_len, lists_faults, member_of, names_columns};
ghost use Rattle.json_rows.specs.Reading.{read_lists, read_row, row_across, row_count, rows_across};

use crate::cells::across_of;
use crate::rows::names_columns;
use cell_core::{Listed, Numbers, Raw, RawMap, Schema, Text};
use row_batch::{BatchRefused, MAX_BATCH, Patch, Patches, RowCause, RowsRefused};
use row_cells::{placed, too_many};
use std::alloc::Global;
use std::collections::BTreeMap;

/// Reads an object of lists as the list of rows across.
pub(crate) fn across_rows(
    alloc: Global,
    schema: &Schema,
    lists: &RawMap,
) -> Result<Patches, RowsRefused>
    ensures ok { IfOk result (λ patches. read_lists schema.now (map_view lists.now) ≡ Ok patches) }
    ensures err { IfErr result (RefusesRows (read_lists schema.now (map_view lists.now))) }
{
    let members = lists.entries();
    if let Some(why) = lists_fault(schema, members) {
        return Err(RowsRefused::Bad(why));
    }
    let count = row_count(members);
    if count > MAX_BATCH {
        return Err(too_many(count));
    }
    patches(alloc, schema, lists, count)
}

/// The first cause against the whole.
fn lists_fault(schema: &Schema, members: &BTreeMap<Text, Raw>) -> Option<BatchRefused>
    ensures { result ≡ first_fault (lists_faults schema.now.columns
        (members_of (map (λ m. (m.0, raw_view m.1)) members.now.entries))) }
{
    if !names_columns(schema, members) {
        return Some(of_whole(RowCause::Unknown));
    }
    if !are_lists(members) {
        return Some(of_whole(RowCause::Shape));
    }
    if !have_len(row_count(members), members) {
        return Some(of_whole(RowCause::Length));
    }
    None
}

fn of_whole(cause: RowCause) -> BatchRefused
    ensures { result ≡ of_whole cause }
{
    BatchRefused {
        cause,
        at: Numbers::Zero,
    }
}

fn are_lists(members: &BTreeMap<Text, Raw>) -> bool
    ensures { result ≡ are_lists (members_of (map (λ m. (m.0, raw_view m.1)) members.now.entries)) }
{
    for (_, value) in members {
        if !is_list(value) {
            return false;
        }
    }
    true
}

fn is_list(value: &Raw) -> bool
    ensures { result ≡ is_list (raw_view value.now) }
{
    matches!(value, Raw::List(_))
}

fn list_len(value: &Raw) -> usize
    ensures { result ≡ list_len (raw_view value.now) }
{
    match value {
        Raw::List(values) => values.as_slice().len(),
        _ => 0,
    }
}

/// Whether each list has so many values.
fn have_len(count: usize, members: &BTreeMap<Text, Raw>) -> bool
    ensures { result ≡ have_len count (members_of (map (λ m. (m.0, raw_view m.1)) members.now.entries)) }
{
    for (_, value) in members {
        if list_len(value) != count {
            return false;
        }
    }
    true
}

/// The length of the first list, and 0 where there is none.
fn row_count(members: &BTreeMap<Text, Raw>) -> usize
    ensures { result ≡ row_count (members_of (map (λ m. (m.0, raw_view m.1)) members.now.entries)) }
{
    match members.iter().next() {
        Some((_, value)) => list_len(value),
        None => 0,
    }
}

fn patches(
    alloc: Global,
    schema: &Schema,
    lists: &RawMap,
    count: usize,
) -> Result<Patches, RowsRefused>
    requires { names_columns schema.now.columns (map_view lists.now) ≡ true }
    ensures ok { IfOk result (λ patches.
        read_each (read_row schema.now) 0 (rows_across (map_view lists.now) 0 count) ≡ Ok patches) }
    ensures err { IfErr result (RefusesRows
        (read_each (read_row schema.now) 0 (rows_across (map_view lists.now) 0 count))) }
{
    let mut found = Listed::new(alloc);
    for row in 0..count {
        found.push(across_patch(alloc, schema, lists, row)?)?;
    }
    Ok(found)
}

fn across_patch(
    alloc: Global,
    schema: &Schema,
    lists: &RawMap,
    row: usize,
) -> Result<Patch, RowsRefused>
    ensures ok { IfOk result (λ patch.
        read_patch schema.now row (member_of (row_across row (map_view lists.now))) ≡ Ok patch) }
    ensures err { IfErr result (RefusesRows
        (read_patch schema.now row (member_of (row_across row (map_view lists.now))))) }
{
    let columns = schema.columns();
    let mut cells = Listed::new(alloc);
    for (i, column) in columns.iter().enumerate() {
        let read = across_of(alloc, lists, row, column)?;
        cells.push(placed(schema.keeping(), row, i, read)?)?;
    }
    Ok(cells)
}
