ghost use Rattle.std.specs.Prelude.{◌≡◌, IfOk, IfErr, Ok, map, Some};
ghost use Rattle.cell_core.specs.Keepings.{IsIndexed};
ghost use Rattle.cell_core.specs.RawViews.{raw_view};
ghost use Rattle.row_batch.specs.Checks.{IsChecked};
ghost use Rattle.row_batch.specs.Reading.{RefusesRows};
ghost use Rattle.row_batch.specs.declared.batch.Batch.TheVariants as batch;
ghost use Rattle.row_cells.specs.Rows.{read_each};
ghost use Rattle.json_rows.specs.Reading.{read_key, read_keys};

use crate::cells::cell_of;
use cell_core::{CellType, Cells, Keeping, Listed, Numbers, Raw, Schema};
use row_batch::{MAX_BATCH, RowCause, RowsRefused};
use row_cells::{placed_key, refused, too_many};
use std::alloc::Global;

/// Reads the keys of rows to be removed: a list of cells of the index column, none of them null. The answer is
/// the keys in their order, the first cause against the value, or want of memory.
pub fn batch_keys(alloc: Global, schema: &Schema, keys: &Raw) -> Result<Cells, RowsRefused>
    requires { IsIndexed schema.now.keeping }
    ensures ok { IfOk result (λ cells. read_keys schema.now (raw_view keys.now) ≡ Ok cells) }
    ensures err { IfErr result (RefusesRows (read_keys schema.now (raw_view keys.now))) }
    ensures checked { IfOk result (λ cells. IsChecked schema.now (batch.Remove cells)) }
{
    read_keys(alloc, schema, keys)
}

fn read_keys(alloc: Global, schema: &Schema, keys: &Raw) -> Result<Cells, RowsRefused>
    requires { IsIndexed schema.now.keeping }
    ensures ok { IfOk result (λ cells. read_keys schema.now (raw_view keys.now) ≡ Ok cells) }
    ensures err { IfErr result (RefusesRows (read_keys schema.now (raw_view keys.now))) }
{
    let Raw::List(list) = keys else {
        return Err(refused(RowCause::Shape, Numbers::Zero));
    };
    let values = list.as_slice();
    if values.len() > MAX_BATCH {
        return Err(too_many(values.len()));
    }
    match schema.keeping() {
        Keeping::Indexed(column) => cells(alloc, column, schema.type_of(column), values),
        Keeping::Limited(_) | Keeping::Free => unreachable!(),
    }
}

fn cells(alloc: Global, column: usize, kind: CellType, keys: &[Raw]) -> Result<Cells, RowsRefused>
    ensures ok { IfOk result (λ cells.
        read_each (read_key (Some (column, kind))) 0 (map raw_view keys.now) ≡ Ok cells) }
    ensures err { IfErr result (RefusesRows (read_each (read_key (Some (column, kind))) 0 (map raw_view keys.now))) }
{
    let mut found = Listed::new(alloc);
    for (row, key) in keys.iter().enumerate() {
        let read = cell_of(alloc, kind, key)?;
        found.push(placed_key(row, column, read)?)?;
    }
    Ok(found)
}
