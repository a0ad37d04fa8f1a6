ghost use Rattle.std.specs.Prelude.{◌≡◌, [], slice_get, OnOk, OnErr};
ghost use Rattle.std.specs.Option.{option_copied};
ghost use Rattle.agg_core.specs.Aggregates.{last_of};
ghost use Rattle.agg_core.specs.Pairs.{cells_of, with_pair, without_key};

use cell_core::{Cell, Copies, Memory};
use std::alloc::Global;
use std::collections::BTreeMap;
use std::marker::Model;

/// Cells under row keys, which contracts see as the list of pairs, ascending by row key.
#[derive(Drop)]
pub struct ByKey {
    cells: BTreeMap<Cell, Cell>,
    alloc: Global,
}

impl Model for ByKey {
    ghost use Rattle.std.specs.Prelude.{List};
    ghost use Rattle.cell_core.specs.declared.cell.Cell.{Cell};

    ghost Value = { List (Cell × Cell) };

    ghost view = { λ rows. rows.cells.entries };
}

impl ByKey {
    pub fn new(alloc: Global) -> ByKey
        ensures { result ≡ [] }
    {
        ByKey {
            cells: BTreeMap::new(alloc),
            alloc,
        }
    }

    /// Puts a cell under a key. After want of memory all is as before.
    pub fn add(&mut self, key: &Cell, cell: &Cell) -> Result<(), Memory>
        ensures ok { OnOk result (self.new ≡ with_pair self.old key.now cell.now) }
        ensures err { OnErr result (self.new ≡ self.old) }
    {
        let key = key.copy(self.alloc)?;
        let cell = cell.copy(self.alloc)?;
        self.cells.insert(key, cell)?;
        Ok(())
    }

    /// Takes a key out with its cell, where it is there. The call takes no memory.
    pub fn take_off(&mut self, key: &Cell)
        ensures { self.new ≡ without_key self.old key.now }
    {
        self.cells.remove(key);
    }

    /// The cell of the least key.
    pub fn first(&self) -> Option<&Cell>
        ensures { option_copied result ≡ slice_get (cells_of self.now) 0 }
    {
        let (_, cell) = self.cells.first_key_value()?;
        Some(cell)
    }

    /// The cell of the greatest key.
    pub fn last(&self) -> Option<&Cell>
        ensures { option_copied result ≡ last_of (cells_of self.now) }
    {
        let (_, cell) = self.cells.last_key_value()?;
        Some(cell)
    }
}
