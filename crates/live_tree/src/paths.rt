ghost use Rattle.std.specs.Prelude.{◌≡◌, IfOk, map};
ghost use Rattle.view_spec.specs.Filters.{cell_in};

use cell_core::{Cell, Copies, Listed, Memory, Path};
use plan_types::Plan;
use std::alloc::Global;

/// A kept row's cells of the columns by which the plan groups. Want of memory is the only refusal.
pub(crate) fn group_path(alloc: Global, plan: &Plan, row: &[Cell]) -> Result<Path, Memory>
    ensures { IfOk result (λ path. path ≡ map (cell_in row.now) plan.now.group_by) }
{
    let columns = plan.group_by.as_slice();
    let mut path = Vec::with_capacity(alloc, columns.len())?;
    for column in columns {
        path.push(cell_of(alloc, row, *column)?)?;
    }
    Ok(Listed::from_vec(path))
}

/// The cell of a column. A row has null past its last cell.
fn cell_of(alloc: Global, row: &[Cell], column: usize) -> Result<Cell, Memory>
    ensures { IfOk result (λ cell. cell ≡ cell_in row.now column) }
{
    match row.get(column) {
        Some(cell) => cell.copy(alloc),
        None => Ok(Cell::Null),
    }
}
