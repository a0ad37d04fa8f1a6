ghost use Rattle.std.specs.Prelude.{◌≡◌, [], IfOk, IfErr, Ok};
ghost use Rattle.std.specs.List.{list_all};
ghost use Rattle.row_batch.specs.Checks.{IsChecked};
ghost use Rattle.row_batch.specs.Reading.{RefusesRows};
ghost use Rattle.row_batch.specs.declared.batch.Batch.TheVariants as batch;
ghost use Rattle.row_cells.specs.Rows.{names_column, read_each};
ghost use Rattle.csv_rows.specs.Reading.{are_even, field_of, header_fault, twice_from, unknown_in};
ghost use Rattle.csv_rows.specs.Reading.{read_csv, read_record, read_records};

use crate::fields::field_of;
use crate::records::records;
use cell_core::{Listed, Memory, Numbers, Schema, Text, Texts};
use row_batch::{BatchRefused, MAX_BATCH, Patch, Patches, RowCause, RowsRefused};
use row_cells::{placed, refused, too_many};
use std::alloc::Global;
use std::collections::BTreeMap;

/// Names that were found.
type Names<'n> = BTreeMap<&'n str, ()>;

/// Reads the rows of a text of CSV. The first record names columns, each later one is a row, and a column that
/// isn't named keeps its cells. An empty field is null. The answer is the patches in the order of the rows, the
/// first cause against the text, or want of memory.
pub fn csv_patches(alloc: Global, schema: &Schema, text: &Text) -> Result<Patches, RowsRefused>
    ensures ok { IfOk result (λ patches. read_csv schema.now text.now ≡ Ok patches) }
    ensures err { IfErr result (RefusesRows (read_csv schema.now text.now)) }
    ensures checked { IfOk result (λ patches. IsChecked schema.now (batch.Update patches)) }
{
    read_csv(alloc, schema, text)
}

fn read_csv(alloc: Global, schema: &Schema, text: &Text) -> Result<Patches, RowsRefused>
    ensures ok { IfOk result (λ patches. read_csv schema.now text.now ≡ Ok patches) }
    ensures err { IfErr result (RefusesRows (read_csv schema.now text.now)) }
{
    let found = records(alloc, text)?;
    read_records(alloc, schema, found.as_slice())
}

fn read_records(alloc: Global, schema: &Schema, records: &[Texts]) -> Result<Patches, RowsRefused>
    ensures ok { IfOk result (λ patches. read_records schema.now records.now ≡ Ok patches) }
    ensures err { IfErr result (RefusesRows (read_records schema.now records.now)) }
{
    let Some((names, rows)) = records.split_first() else {
        return Err(refused(RowCause::Header, Numbers::Zero));
    };
    if !are_even(names.len(), rows) {
        return Err(refused(RowCause::Csv, Numbers::Zero));
    }
    if let Some(why) = header_fault(alloc, schema, names.as_slice())? {
        return Err(RowsRefused::Bad(why));
    }
    if rows.len() > MAX_BATCH {
        return Err(too_many(rows.len()));
    }
    patches(alloc, schema, names.as_slice(), rows)
}

/// Whether each record has so many fields.
fn are_even(count: usize, rows: &[Texts]) -> bool
    ensures { result ≡ are_even count rows.now }
{
    rows.iter().all(|fields| fields.len() == count)
}

/// The first cause against the header's names, or want of memory.
fn header_fault(
    alloc: Global,
    schema: &Schema,
    names: &[Text],
) -> Result<Option<BatchRefused>, Memory>
    ensures { IfOk result (λ why. why ≡ header_fault schema.now.columns names.now) }
{
    let twice = twice(alloc, names)?;
    if twice.is_some() {
        return Ok(twice);
    }
    Ok(unknown(schema, names))
}

/// The first name that stands earlier too. Each name is looked up once among those before it.
fn twice(alloc: Global, names: &[Text]) -> Result<Option<BatchRefused>, Memory>
    ensures { IfOk result (λ why. why ≡ twice_from [] 0 names.now) }
{
    let mut found = Names::new(alloc);
    for (i, name) in names.iter().enumerate() {
        if found.insert(name.as_str(), ())?.is_some() {
            return Ok(Some(BatchRefused {
                cause: RowCause::Twice,
                at: Numbers::One(i as u64),
            }));
        }
    }
    Ok(None)
}

/// A name that is no column.
fn unknown(schema: &Schema, names: &[Text]) -> Option<BatchRefused>
    ensures { result ≡ unknown_in schema.now.columns names.now }
{
    if are_columns(schema, names) {
        None
    } else {
        Some(BatchRefused {
            cause: RowCause::Unknown,
            at: Numbers::Zero,
        })
    }
}

fn are_columns(schema: &Schema, names: &[Text]) -> bool
    ensures { result ≡ list_all (names_column schema.now.columns) names.now }
{
    names.iter().all(|name| schema.find(name).is_some())
}

fn patches(
    alloc: Global,
    schema: &Schema,
    names: &[Text],
    rows: &[Texts],
) -> Result<Patches, RowsRefused>
    ensures ok { IfOk result (λ patches. read_each (read_record schema.now names.now) 0 rows.now ≡ Ok patches) }
    ensures err { IfErr result (RefusesRows (read_each (read_record schema.now names.now) 0 rows.now)) }
{
    let mut found = Listed::new(alloc);
    for (row, fields) in rows.iter().enumerate() {
        found.push(record_patch(alloc, schema, row, names, fields.as_slice())?)?;
    }
    Ok(found)
}

fn record_patch(
    alloc: Global,
    schema: &Schema,
    row: usize,
    names: &[Text],
    fields: &[Text],
) -> Result<Patch, RowsRefused>
    ensures ok { IfOk result (λ patch. read_record schema.now names.now row fields.now ≡ Ok patch) }
    ensures err { IfErr result (RefusesRows (read_record schema.now names.now row fields.now)) }
{
    let columns = schema.columns();
    let mut cells = Listed::new(alloc);
    for (i, column) in columns.iter().enumerate() {
        let read = field_of(alloc, names, fields, column)?;
        cells.push(placed(schema.keeping(), row, i, read)?)?;
    }
    Ok(cells)
}
