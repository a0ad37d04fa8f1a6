ghost use Rattle.std.specs.Prelude.{◌≡◌};
ghost use Rattle.row_batch.specs.declared.refused.RowsRefused.TheVariants as refused;
ghost use Rattle.row_cells.specs.Rows.{answer_of, placed, placed_key, too_many};

use crate::cells::CellRead;
use cell_core::{Cell, Keeping, Numbers};
use row_batch::{BatchRefused, PatchCell, RowCause, RowsRefused};

/// The refusal of a batch for that cause, at that place.
pub fn refused(cause: RowCause, at: Numbers) -> RowsRefused
    ensures { result ≡ refused.Bad (record { cause = cause; at = at }) }
{
    RowsRefused::Bad(BatchRefused { cause, at })
}

/// The refusal of so many rows or keys.
pub fn too_many(count: usize) -> RowsRefused
    ensures { result ≡ refused.Bad (too_many count) }
{
    refused(RowCause::Rows, Numbers::One(count as u64))
}

/// What row `row` does to column `column`, from what was read there: the cause against that cell, or `Index`
/// where the index column is left out or null.
pub fn placed(
    keeping: Keeping,
    row: usize,
    column: usize,
    read: Result<PatchCell, RowCause>,
) -> Result<PatchCell, RowsRefused>
    ensures { result ≡ answer_of (placed keeping row column read) }
{
    match read {
        Ok(cell) if keeping.is_key_column(column) && cell.sets_nothing() => {
            Err(refused(RowCause::Index, Numbers::One(row as u64)))
        }
        Ok(cell) => Ok(cell),
        Err(cause) => Err(refused(cause, Numbers::Two(row as u64, column as u64))),
    }
}

/// Key `row`, from what was read in the index column, which is column `column`: the cause against that cell,
/// or `Index` where it is null.
pub fn placed_key(row: usize, column: usize, read: CellRead) -> Result<Cell, RowsRefused>
    ensures { result ≡ answer_of (placed_key row column read) }
{
    match read {
        Ok(Cell::Null) => Err(refused(RowCause::Index, Numbers::One(row as u64))),
        Ok(key) => Ok(key),
        Err(cause) => Err(refused(cause, Numbers::Two(row as u64, column as u64))),
    }
}
