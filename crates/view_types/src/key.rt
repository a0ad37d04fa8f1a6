ghost use Rattle.std.specs.Prelude.{◌≡◌, IfOk};
ghost use Rattle.view_types.specs.Keys.{key_order};

use cell_core::{Cell, Copies, Memory, Path};
use std::alloc::Global;
use std::cmp::Ordering;

/// What a shown row is known by in a view.
#[derive(Debug, Drop, PartialEq, Eq, PartialOrd, Ord)]
pub enum ViewKey {
    /// A row of a flat view, by its key in the table.
    Row(Cell),
    /// A group, by the values that lead to it. The total's path is empty.
    Group(Path),
}

impl ViewKey {
    /// The total order of keys: rows before groups, rows by their cell, groups value by value, and
    /// a group before those inside it.
    pub fn order(&self, other: &ViewKey) -> Ordering
        ensures { result ≡ key_order self.now other.now }
    {
        self.cmp(other)
    }
}

impl Copies for ViewKey {
    fn copy(&self, alloc: Global) -> Result<ViewKey, Memory> {
        match self {
            ViewKey::Row(cell) => Ok(ViewKey::Row(cell.copy(alloc)?)),
            ViewKey::Group(path) => Ok(ViewKey::Group(path.copy(alloc)?)),
        }
    }
}
