ghost use Rattle.std.specs.Prelude.{◌≡◌, IfOk};
ghost use Rattle.std.specs.Option.{option_copied};
ghost use Rattle.agg_core.specs.Aggregates.{shown};

use cell_core::{Cell, Memory, Value};
use std::alloc::Global;

/// The value that a cell shows, and none where there is no cell.
pub fn show(alloc: Global, cell: Option<&Cell>) -> Result<Option<Value>, Memory>
    ensures { IfOk result (λ value. value ≡ shown (option_copied cell.entry)) }
{
    match cell {
        Some(cell) => cell.value(alloc),
        None => Ok(None),
    }
}
