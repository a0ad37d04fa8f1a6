ghost use Rattle.std.specs.Prelude.{◌≡◌, List, OnOk, IfOk};
ghost use Rattle.row_batch.specs.declared.batch.Pair.{Pair};
ghost use Rattle.row_batch.specs.Batches.{pair_of};
ghost use Rattle.agg_core.specs.Aggregates.{aggregate};
ghost use Rattle.pivot_tree.specs.Groups.{CanHold, HasRow, Holds, cells_in, named_of, with_row, without_row};

use agg_core::{Aggregate, AnyAggregate};
use cell_core::{Cell, Memory, Row, Value};

/// A column, and its aggregate over the rows of a group.
#[derive(Drop)]
pub struct ColumnAggregate {
    pub column: usize,
    pub aggregate: AnyAggregate,
}

impl ColumnAggregate {
    /// Takes a row in, whose cell is one that the aggregate takes.
    pub fn add(&mut self, key: &Cell, row: &Row) -> Result<(), Memory>
        requires { (rows : List Pair) × Holds rows self.old
            × CanHold (named_of self.old) rows (pair_of key.now row.now) }
        ensures ok { OnOk result ((rows : List Pair) → Holds rows self.old
            → CanHold (named_of self.old) rows (pair_of key.now row.now)
            → Holds (with_row rows (pair_of key.now row.now)) self.new) }
        ensures used { named_of self.new ≡ named_of self.old }
    {
        match row.get(self.column) {
            Some(cell) => self.aggregate.add(key, cell),
            None => self.aggregate.add(key, &Cell::Null),
        }
    }

    /// Takes a row out again.
    pub fn take_off(&mut self, key: &Cell, row: &Row)
        requires { (rows : List Pair) × Holds rows self.old × HasRow rows (pair_of key.now row.now) }
        ensures stands { (rows : List Pair) → Holds rows self.old → HasRow rows (pair_of key.now row.now)
            → Holds (without_row rows (pair_of key.now row.now)) self.new }
        ensures used { named_of self.new ≡ named_of self.old }
    {
        match row.get(self.column) {
            Some(cell) => self.aggregate.take_off(key, cell),
            None => self.aggregate.take_off(key, &Cell::Null),
        }
    }

    /// The aggregate over the rows, and none where it is null.
    pub fn value(&self) -> Result<Option<Value>, Memory>
        ensures { IfOk result (λ value. (rows : List Pair) → Holds rows self.now
            → value ≡ aggregate (named_of self.now).aggregate (cells_in self.now.column rows)) }
    {
        self.aggregate.value()
    }
}
