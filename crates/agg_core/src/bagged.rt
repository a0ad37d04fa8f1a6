ghost use Rattle.std.specs.Prelude.{◌≡◌, []};
ghost use Rattle.agg_core.specs.Bags.{IsBagOf};
ghost use Rattle.agg_core.specs.Choices.{choice_name};

use crate::aggregate::Aggregate;
use crate::bag::Bag;
use crate::show::show;
use cell_core::{Cell, Memory, Value};
use plan_types::AggName;
use std::alloc::Global;

/// What is read off the cells that aren't null, in their order.
#[derive(Clone, Copy, Debug, Drop, PartialEq, Eq)]
pub enum Choice {
    DistinctCount,
    Min,
    Max,
    Unique,
    Dominant,
    Median,
}

/// The aggregates of a bag of cells. `add` and `take_off` take time that is logarithmic in the number of different
/// cells. So does `value`, but for `dominant` and `median`, which walk over the different cells.
#[derive(Drop)]
pub struct Bagged {
    choice: Choice,
    bag: Bag,
    alloc: Global,
}

impl Bagged {
    /// That aggregate of no rows.
    pub fn new(alloc: Global, choice: Choice) -> Bagged
        ensures choice { result.choice ≡ choice }
        ensures stands { IsBagOf (choice_name choice) result.bag [] }
    {
        Bagged {
            choice,
            bag: Bag::new(alloc),
            alloc,
        }
    }

    /// Which aggregate it is.
    pub fn name(&self) -> AggName
        ensures { result ≡ choice_name self.now.choice }
    {
        match self.choice {
            Choice::DistinctCount => AggName::DistinctCount,
            Choice::Min => AggName::Min,
            Choice::Max => AggName::Max,
            Choice::Unique => AggName::Unique,
            Choice::Dominant => AggName::Dominant,
            Choice::Median => AggName::Median,
        }
    }
}

impl Aggregate for Bagged {
    ghost name = { λ it. choice_name it.choice };

    ghost stands_for = { λ it pairs. IsBagOf (choice_name it.choice) it.bag pairs };

    fn add(&mut self, _key: &Cell, cell: &Cell) -> Result<(), Memory> {
        self.bag.add(cell)
    }

    fn take_off(&mut self, _key: &Cell, cell: &Cell) {
        self.bag.take_off(cell);
    }

    fn value(&self) -> Result<Option<Value>, Memory> {
        match self.choice {
            Choice::DistinctCount => Ok(Some(Value::Whole(self.bag.different() as i128))),
            Choice::Min => show(self.alloc, self.bag.least()),
            Choice::Max => show(self.alloc, self.bag.greatest()),
            Choice::Unique => show(self.alloc, self.bag.only_one()),
            Choice::Dominant => show(self.alloc, self.bag.most_frequent()),
            Choice::Median => show(self.alloc, self.bag.middle()),
        }
    }

    ghost pairs_of = { λ it pairs h. h.are_pairs };
}
