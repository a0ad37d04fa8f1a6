ghost use Rattle.std.specs.Prelude.{◌≡◌};

use cell_core::{Cell, Cells, Copies, Listed, Memory, Row};
use std::alloc::Global;

/// The most rows or keys of one batch.
pub const MAX_BATCH: usize = 1024;

/// What an update does to one cell of a row.
#[derive(Debug, Drop)]
pub enum PatchCell {
    /// The old cell stays; in a new row it is null.
    Keep,
    Set(Cell),
}

/// One row of an update: what it does to each column's cell, in the schema's order.
pub type Patch = Listed<PatchCell>;

/// The rows of an update, in the order in which they act.
pub type Patches = Listed<Patch>;

/// A change of a table, which is applied whole. Rows act in their order.
#[derive(Debug, Drop)]
pub enum Batch {
    Update(Patches),
    /// Drops the rows of these keys.
    Remove(Cells),
    /// Drops every row, and counts rows from 0 again.
    Clear,
    /// `Clear`, and then `Update`.
    Replace(Patches),
}

/// A row under its key.
#[derive(Debug, Drop)]
pub struct Pair {
    pub key: Cell,
    pub row: Row,
}

impl Batch {
    ghost use Rattle.row_batch.specs.Batches.{rows_in};

    /// How many rows it has that wait to be put.
    pub fn rows(&self) -> usize
        ensures { result ≡ rows_in self.now }
    {
        match self {
            Batch::Update(patches) | Batch::Replace(patches) => patches.len(),
            Batch::Remove(_) | Batch::Clear => 0,
        }
    }
}

impl PatchCell {
    ghost use Rattle.row_batch.specs.Checks.{sets_nothing};

    /// Whether the column is left out or set to null.
    pub fn sets_nothing(&self) -> bool
        ensures { result ≡ sets_nothing self.now }
    {
        matches!(self, PatchCell::Keep | PatchCell::Set(Cell::Null))
    }
}

impl Copies for Pair {
    fn copy(&self, alloc: Global) -> Result<Pair, Memory> {
        Ok(Pair {
            key: self.key.copy(alloc)?,
            row: self.row.copy(alloc)?,
        })
    }
}
