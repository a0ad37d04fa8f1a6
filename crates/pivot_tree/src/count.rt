ghost use Rattle.std.specs.Prelude.{◌≡◌, ◌<◌, List, false, length, OnOk};
ghost use Rattle.cell_core.specs.Cells.{same_cell};
ghost use Rattle.cell_core.specs.Limits.{max_rows};
ghost use Rattle.cell_core.specs.declared.cell.Cell.{Cell as CellData};
ghost use Rattle.row_batch.specs.declared.batch.Pair.{Pair};
ghost use Rattle.pivot_tree.specs.Families.{At, IsCountOf, at_cell};
ghost use Rattle.pivot_tree.specs.Groups.{HasRow, with_row, without_row};

use cell_core::{Cell, Copies, Memory};
use std::alloc::Global;
use std::collections::BTreeMap;

/// How many rows there are of each cell.
pub type Counts = BTreeMap<Cell, u64>;

/// Counts one row more of a cell.
pub fn count_up(alloc: Global, counts: &mut Counts, cell: &Cell) -> Result<(), Memory>
    requires { (rows : List Pair) × At IsCountOf (at_cell counts.old.entries cell.now) rows
        × (length rows < max_rows) }
    ensures here { OnOk result ((rows : List Pair) (p : Pair)
        → At IsCountOf (at_cell counts.old.entries cell.now) rows
        → At IsCountOf (at_cell counts.new.entries cell.now) (with_row rows p)) }
    ensures others { OnOk result ((c : CellData) → same_cell cell.now c ≡ false
        → at_cell counts.new.entries c ≡ at_cell counts.old.entries c) }
{
    if let Some(count) = counts.get_mut(cell) {
        *count += 1;
        return Ok(());
    }
    counts.insert(cell.copy(alloc)?, 1)?;
    Ok(())
}

/// Counts one row less of a cell, which goes with its last row.
pub fn count_down(counts: &mut Counts, cell: &Cell)
    ensures here { (rows : List Pair) (p : Pair) → At IsCountOf (at_cell counts.old.entries cell.now) rows
        → HasRow rows p
        → At IsCountOf (at_cell counts.new.entries cell.now) (without_row rows p) }
    ensures others { (c : CellData) → same_cell cell.now c ≡ false
        → at_cell counts.new.entries c ≡ at_cell counts.old.entries c }
{
    if let Some(count) = counts.get_mut(cell) {
        if *count > 1 {
            *count -= 1;
        } else {
            counts.remove(cell);
        }
    }
}
