ghost use Rattle.std.specs.Prelude.{[]};
ghost use Rattle.agg_core.specs.Counting.{IsCountOf};

use crate::aggregate::Aggregate;
use cell_core::{Cell, Memory, Value};

/// The number of rows. Each call takes constant time, and no memory.
#[derive(Drop)]
pub struct RowCount {
    rows: u64,
}

impl RowCount {
    /// The count of no rows.
    pub fn new() -> RowCount
        ensures { IsCountOf result.rows [] }
    {
        RowCount { rows: 0 }
    }
}

impl Aggregate for RowCount {
    ghost use Rattle.plan_types.specs.declared.aggregate.AggName.TheVariants as name;
    ghost use Rattle.agg_core.specs.Counting.{IsCountOf};

    ghost name = { λ _. name.Count };

    ghost stands_for = { λ it pairs. IsCountOf it.rows pairs };

    fn add(&mut self, _key: &Cell, _cell: &Cell) -> Result<(), Memory> {
        self.rows += 1;
        Ok(())
    }

    fn take_off(&mut self, _key: &Cell, _cell: &Cell) {
        self.rows -= 1;
    }

    fn value(&self) -> Result<Option<Value>, Memory> {
        Ok(Some(Value::Whole(self.rows as i128)))
    }

    ghost pairs_of = { λ it pairs h. h.are_pairs };
}
