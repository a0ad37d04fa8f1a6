ghost use Rattle.std.specs.Prelude.{◌≡◌, false, nat_lt, Option, option_map, option_copied, slice_index_or, IfSome, IsTrue, All, ◌↔◌, if◌then◌else◌};
ghost use Rattle.row_batch.specs.Batches.{key_in};
ghost use Rattle.row_batch.specs.declared.batch.PatchCell.TheVariants as patch_cell;
ghost use Rattle.cal_units.specs.Calendar.{is_day, is_moment};
ghost use Rattle.cell_core.specs.Limits.{max_text};
ghost use Rattle.cell_core.specs.Schemas.{outcome_of};
ghost use Rattle.row_batch.specs.Checks.{HasWidth, IsShaped, cell_fault, unless_in, refused, without_key, sets_nothing, column_fault, patch_fault, patches_fault, is_null, key_fault, keys_fault, removed_fault, counted_fault, batch_fault, index_cell, IsCheckedPatch};

use crate::batch::{Batch, MAX_BATCH, Patch, PatchCell};
use crate::refused::{BatchRefused, RowCause};
use cal_units::{Day, Moment};
use cell_core::{Cell, CellType, Column, Keeping, MAX_TEXT, Numbers, Schema, is_integer};

/// Says whether a table of that schema takes the batch, or else the first cause against it. It takes no
/// memory.
pub fn check(schema: &Schema, batch: &Batch) -> Result<(), BatchRefused>
    requires shaped { IsShaped schema.now batch.now }
    ensures { result ≡ outcome_of (batch_fault schema.now batch.now) tt }
{
    match first_fault(schema, batch) {
        Some(refused) => Err(refused),
        None => Ok(()),
    }
}

fn first_fault(schema: &Schema, batch: &Batch) -> Option<BatchRefused>
    ensures { result ≡ batch_fault schema.now batch.now }
{
    match batch {
        Batch::Update(patches) | Batch::Replace(patches) => match too_many(patches.len()) {
            Some(refused) => Some(refused),
            None => patches_fault(schema, patches.as_slice()),
        },
        Batch::Remove(keys) => match too_many(keys.len()) {
            Some(refused) => Some(refused),
            None => removed_fault(schema, keys.as_slice()),
        },
        Batch::Clear => None,
    }
}

fn too_many(count: usize) -> Option<BatchRefused>
    ensures { result ≡ counted_fault count None }
{
    if count <= MAX_BATCH {
        return None;
    }
    Some(BatchRefused {
        cause: RowCause::Rows,
        at: Numbers::One(count as u64),
    })
}

fn patches_fault(schema: &Schema, patches: &[Patch]) -> Option<BatchRefused>
    ensures { result ≡ patches_fault schema.now 0 patches.now }
{
    for (row, patch) in patches.iter().enumerate() {
        let refused = patch_fault(schema, row as u64, patch.as_slice());
        if refused.is_some() {
            return refused;
        }
    }
    None
}

/// The first cause against a row.
fn patch_fault(schema: &Schema, row: u64, patch: &[PatchCell]) -> Option<BatchRefused>
    ensures { result ≡ patch_fault schema.now.keeping row 0 schema.now.columns patch.now }
{
    let keeping = schema.keeping();
    for (i, column) in schema.columns().iter().enumerate() {
        let refused = match patch.get(i) {
            Some(cell) => column_fault(keeping, row, i, column, cell),
            None => return None,
        };
        if refused.is_some() {
            return refused;
        }
    }
    None
}

fn column_fault(
    keeping: Keeping,
    row: u64,
    i: usize,
    column: &Column,
    cell: &PatchCell,
) -> Option<BatchRefused>
    ensures { result ≡ column_fault keeping row i column.now cell.now }
{
    if keeping.is_key_column(i) && cell.sets_nothing() {
        return Some(without_key(row));
    }
    match cell {
        PatchCell::Keep => None,
        PatchCell::Set(cell) => refused(cell_fault(column.kind, cell), row, i),
    }
}

/// The cause in column `column` of row `row`.
fn refused(cause: Option<RowCause>, row: u64, column: usize) -> Option<BatchRefused>
    ensures { result ≡ option_map (λ why. refused why row column) cause }
{
    match cause {
        Some(cause) => Some(BatchRefused {
            cause,
            at: Numbers::Two(row, column as u64),
        }),
        None => None,
    }
}

fn without_key(row: u64) -> BatchRefused
    ensures { result ≡ without_key row }
{
    BatchRefused {
        cause: RowCause::Index,
        at: Numbers::One(row),
    }
}

/// The first cause against keys that are to be removed.
fn removed_fault(schema: &Schema, keys: &[Cell]) -> Option<BatchRefused>
    ensures { result ≡ removed_fault schema.now schema.now.keeping keys.now }
{
    match schema.keeping() {
        Keeping::Indexed(column) => keys_fault(schema.type_of(column), column, keys),
        Keeping::Limited(_) | Keeping::Free => None,
    }
}

fn keys_fault(kind: CellType, column: usize, keys: &[Cell]) -> Option<BatchRefused>
    ensures { result ≡ keys_fault (Option.Some kind) column 0 keys.now }
{
    for (row, key) in keys.iter().enumerate() {
        let refused = key_fault(kind, row as u64, column, key);
        if refused.is_some() {
            return refused;
        }
    }
    None
}

fn key_fault(kind: CellType, row: u64, column: usize, key: &Cell) -> Option<BatchRefused>
    ensures { result ≡ key_fault (Option.Some kind) row column key.now }
{
    if key.is_null() {
        return Some(without_key(row));
    }
    refused(cell_fault(kind, key), row, column)
}

/// The cause against a cell of a column of that type. Null fits every type.
fn cell_fault(kind: CellType, cell: &Cell) -> Option<RowCause>
    ensures { result ≡ cell_fault kind cell.now }
{
    match (kind, cell) {
        (_, Cell::Null) => None,
        (CellType::Integer, Cell::Int(number)) => unless_in(is_integer(*number)),
        (CellType::Boolean, Cell::Bool(_)) => None,
        (CellType::Date, Cell::Date(day)) => day_fault(*day),
        (CellType::Moment, Cell::Moment(moment)) => moment_fault(*moment),
        (CellType::Words, Cell::Words(text)) => too_long(text.as_str().len()),
        _ => Some(RowCause::BadType),
    }
}

/// A day is in range by its type.
fn day_fault(day: Day) -> Option<RowCause>
    ensures { result ≡ unless_in (is_day day) RowCause.Range }
{
    let _in_range = day.number();
    None
}

/// A datetime is in range by its type.
fn moment_fault(moment: Moment) -> Option<RowCause>
    ensures { result ≡ unless_in (is_moment moment) RowCause.Range }
{
    let _in_range = moment.number();
    None
}

fn unless_in(fits: bool) -> Option<RowCause>
    ensures { result ≡ unless_in fits RowCause.Range }
{
    if fits { None } else { Some(RowCause::Range) }
}

fn too_long(size: usize) -> Option<RowCause>
    ensures { result ≡ (if nat_lt max_text size then Option.Some RowCause.Long else Option.None) }
{
    if size <= MAX_TEXT {
        None
    } else {
        Some(RowCause::Long)
    }
}

/// The index cell of a patch, which it sets to a cell that isn't null; nothing where the table has no index.
pub fn key_of<'p>(schema: &Schema, patch: &'p Patch) -> Option<&'p Cell>
    requires checked { IsCheckedPatch schema.now patch.now }
    ensures key { option_copied result ≡ index_cell schema.now.keeping patch.now }
    ensures not_null { IfSome result (λ key. is_null key.now ≡ false) }
{
    match schema.keeping() {
        Keeping::Indexed(column) => cell_set(patch.as_slice(), column),
        Keeping::Limited(_) | Keeping::Free => None,
    }
}

fn cell_set(patch: &[PatchCell], column: usize) -> Option<&Cell>
    requires { sets_nothing (slice_index_or patch.now column patch_cell.Keep) ≡ false }
    ensures key { option_copied result ≡ Option.Some (key_in column patch.now) }
    ensures not_null { is_null (key_in column patch.now) ≡ false }
{
    match patch.get(column) {
        Some(PatchCell::Set(cell)) => Some(cell),
        _ => None,
    }
}

/// Whether each row has one cell for each column, and keys are removed from a table with an index alone.
pub fn is_shaped(schema: &Schema, batch: &Batch) -> bool
    ensures { IsTrue result ↔ IsShaped schema.now batch.now }
{
    match batch {
        Batch::Update(patches) | Batch::Replace(patches) => {
            are_wide(schema.width(), patches.as_slice())
        }
        Batch::Remove(_) => schema.keeping().is_indexed(),
        Batch::Clear => true,
    }
}

fn are_wide(width: usize, patches: &[Patch]) -> bool
    ensures { IsTrue result ↔ All (HasWidth width) patches.now }
{
    patches.iter().all(|patch| patch.len() == width)
}
