ghost use Rattle.std.specs.Prelude.{◌≡◌, OnOk};
ghost use Rattle.view_spec.specs.Cells.{with_value};

use cell_core::{Copies, Memory, Text, Value};
use std::alloc::Global;
use view_types::ShownCells;

/// Puts a value under a text, and nothing for null. Want of memory is the only refusal.
pub fn put_value(
    alloc: Global,
    cells: &mut ShownCells,
    text: &Text,
    value: Option<Value>,
) -> Result<(), Memory>
    ensures { OnOk result (cells.new ≡ with_value cells.old text.now value) }
{
    if let Some(value) = value {
        cells.put(text.copy(alloc)?, value)?;
    }
    Ok(())
}
