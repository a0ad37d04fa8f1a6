ghost use Rattle.std.specs.Prelude.{◌≡◌, []};
ghost use Rattle.agg_core.specs.Rows.{AreRowsOf, end_name};

use crate::aggregate::Aggregate;
use crate::by_key::ByKey;
use crate::show::show;
use cell_core::{Cell, Memory, Value};
use plan_types::AggName;
use std::alloc::Global;

/// An end of the rows in the order of their keys.
#[derive(Clone, Copy, Debug, Drop, PartialEq, Eq)]
pub enum End {
    First,
    Last,
}

/// The cell of the row at an end, which may be null. Each call takes time that is logarithmic in the number of rows.
#[derive(Drop)]
pub struct EndRow {
    end: End,
    rows: ByKey,
    alloc: Global,
}

impl EndRow {
    /// The cell at that end of no rows.
    pub fn new(alloc: Global, end: End) -> EndRow
        ensures end { result.end ≡ end }
        ensures stands { AreRowsOf (end_name end) result.rows [] }
    {
        EndRow {
            end,
            rows: ByKey::new(alloc),
            alloc,
        }
    }

    /// Which aggregate it is.
    pub fn name(&self) -> AggName
        ensures { result ≡ end_name self.now.end }
    {
        match self.end {
            End::First => AggName::First,
            End::Last => AggName::Last,
        }
    }
}

impl Aggregate for EndRow {
    ghost name = { λ it. end_name it.end };

    ghost stands_for = { λ it pairs. AreRowsOf (end_name it.end) it.rows pairs };

    fn add(&mut self, key: &Cell, cell: &Cell) -> Result<(), Memory> {
        self.rows.add(key, cell)
    }

    fn take_off(&mut self, key: &Cell, _cell: &Cell) {
        self.rows.take_off(key);
    }

    fn value(&self) -> Result<Option<Value>, Memory> {
        match self.end {
            End::First => show(self.alloc, self.rows.first()),
            End::Last => show(self.alloc, self.rows.last()),
        }
    }

    ghost pairs_of = { λ it pairs h. h.are_pairs };
}
