ghost use Rattle.std.specs.Prelude.{◌≡◌, map, IfOk};
ghost use Rattle.view_spec.specs.Filters.{cell_in};

use cell_core::{Cell, Copies, Memory, Path, Row};
use std::alloc::Global;

/// A row's cells in some columns, null where the row has none.
pub fn cells_of(alloc: Global, row: &Row, columns: &[usize]) -> Result<Path, Memory>
    ensures { IfOk result (λ cells. cells ≡ map (cell_in row.now) columns.now) }
{
    let mut cells = Path::new(alloc);
    for column in columns {
        cells.push(cell_of(alloc, row, *column)?)?;
    }
    Ok(cells)
}

fn cell_of(alloc: Global, row: &Row, column: usize) -> Result<Cell, Memory>
    ensures { IfOk result (λ cell. cell ≡ cell_in row.now column) }
{
    match row.get(column) {
        Some(cell) => cell.copy(alloc),
        None => Ok(Cell::Null),
    }
}
