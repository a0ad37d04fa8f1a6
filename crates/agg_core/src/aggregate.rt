ghost use Rattle.std.specs.Prelude.{◌≡◌, List, Some, IfOk, OnOk, OnErr};
ghost use Rattle.cell_core.specs.declared.cell.Cell.{Cell};
ghost use Rattle.plan_types.specs.declared.aggregate.AggName.{AggName};
ghost use Rattle.agg_core.specs.Pairs.{cell_at, cells_of, with_pair, without_key};
ghost use Rattle.agg_core.specs.Aggregates.{aggregate};
ghost use Rattle.agg_core.specs.Standing.{ArePairs, CanAdd};

use cell_core::{Cell, Memory, Value};

/// What keeps one aggregate of a group's column, while rows come and go.
///
/// It stands for the list of the group's pairs of a row key and a cell, ascending by row key:
/// `stands_for` says for which lists. One that keeps a sum forgets its rows, so it stands for each
/// list that it may have come from, and `value` answers for all of them. `name` says which aggregate
/// it is, and stays.
pub trait Aggregate {
    ghost name: { Self → AggName };

    ghost stands_for: { Self → List (Cell × Cell) → Type 0 };

    /// Takes a row in. The row's key isn't there yet, there are fewer rows than a table may have, and
    /// the cell is null or of a type that the aggregate takes, a whole number in range. After want of memory all is as
    /// before.
    fn add(&mut self, key: &Cell, cell: &Cell) -> Result<(), Memory>
        requires { (pairs : List (Cell × Cell)) × stands_for self.old pairs
            × CanAdd (name self.old) pairs key.now cell.now }
        ensures ok { OnOk result ((pairs : List (Cell × Cell)) → stands_for self.old pairs
            → CanAdd (name self.old) pairs key.now cell.now → stands_for self.new (with_pair pairs key.now cell.now)) }
        ensures named { name self.new ≡ name self.old }
        ensures err { OnErr result (self.new ≡ self.old) };

    /// Takes a row out again, whose key is there with that cell. The call takes no memory.
    fn take_off(&mut self, key: &Cell, cell: &Cell)
        requires { (pairs : List (Cell × Cell)) × stands_for self.old pairs × (cell_at pairs key.now ≡ Some cell.now) }
        ensures stands { (pairs : List (Cell × Cell)) → stands_for self.old pairs
            → cell_at pairs key.now ≡ Some cell.now → stands_for self.new (without_key pairs key.now) }
        ensures named { name self.new ≡ name self.old };

    /// The aggregate of the cells in the order of row keys, and none where it is null.
    fn value(&self) -> Result<Option<Value>, Memory>
        ensures { IfOk result (λ value. (pairs : List (Cell × Cell)) → stands_for self.now pairs
            → value ≡ aggregate (name self.now) (cells_of pairs)) };

    /// The lists that an aggregate stands for ascend by row key, and are not too long.
    ghost pairs_of: { (it : Self) (pairs : List (Cell × Cell)) → stands_for it pairs → ArePairs (name it) pairs };
}
