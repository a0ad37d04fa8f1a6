ghost use Rattle.std.specs.Prelude.{◌≡◌, [], IfOk, OnOk};
ghost use Rattle.cell_core.specs.Cells.{value_of};
ghost use Rattle.row_batch.specs.Batches.{pair_of};
ghost use Rattle.view_spec.specs.Cells.{cells_of_row, text_at, with_columns, with_value};
ghost use Rattle.view_spec.specs.Filters.{cell_in};

use crate::splits::split_path;
use cell_core::{Cell, Memory, Schema};
use plan_types::Plan;
use std::alloc::Global;
use view_columns::{column_name, path_text, put_value};
use view_types::ShownCells;

/// The values of a row under its columns' texts, by its own split path alone.
pub fn shown_cells(
    alloc: Global,
    schema: &Schema,
    plan: &Plan,
    key: &Cell,
    row: &[Cell],
) -> Result<ShownCells, Memory>
    ensures { IfOk result (λ cells. cells ≡ cells_of_row schema.now.columns plan.now (pair_of key.now row.now)) }
{
    let split = split_path(alloc, plan, row)?;
    cells_under(alloc, schema, plan, split.as_slice(), row)
}

/// The values of a row under its columns' texts by a split path.
fn cells_under(
    alloc: Global,
    schema: &Schema,
    plan: &Plan,
    split: &[Cell],
    row: &[Cell],
) -> Result<ShownCells, Memory>
    ensures { IfOk result (λ cells. cells ≡
        with_columns schema.now.columns plan.now split.now (λ i. value_of (cell_in row.now i)) plan.now.columns []) }
{
    let mut cells = ShownCells::new(alloc);
    for column in plan.columns.as_slice() {
        put_column(alloc, schema, plan, split, *column, row, &mut cells)?;
    }
    Ok(cells)
}

/// Puts the value of a row's cell under its column's text, and nothing for null.
fn put_column(
    alloc: Global,
    schema: &Schema,
    plan: &Plan,
    split: &[Cell],
    column: usize,
    row: &[Cell],
    cells: &mut ShownCells,
) -> Result<(), Memory>
    ensures { OnOk result (cells.new ≡ with_value cells.old (text_at schema.now.columns plan.now split.now column)
        (value_of (cell_in row.now column))) }
{
    let Some(cell) = row.get(column) else {
        return Ok(());
    };
    let text = path_text(alloc, split, column_name(schema.columns(), plan, column))?;
    put_value(alloc, cells, &text, cell.value(alloc)?)
}
