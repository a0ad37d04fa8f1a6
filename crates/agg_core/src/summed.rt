ghost use Rattle.std.specs.Prelude.{◌≡◌, []};
ghost use Rattle.agg_core.specs.Sums.{counted, counted_in, sum_name};
ghost use Rattle.agg_core.specs.Numbers.{IsTotalOf};

use crate::aggregate::Aggregate;
use crate::total::{Total, mean, number_in, size, size_in, whole};
use cell_core::{Cell, Memory, Value};
use plan_types::AggName;

/// What is read off a running sum.
#[derive(Clone, Copy, Debug, Drop, PartialEq, Eq)]
pub enum SumForm {
    Sum,
    AbsSum,
    SumAbs,
    Mean,
    Avg,
}

/// The aggregates of a sum. No call takes memory, and each takes constant time, but for the fraction of a mean, which
/// is reduced as by Euclid's algorithm.
#[derive(Drop)]
pub struct Summed {
    form: SumForm,
    total: Total,
}

impl SumForm {
    /// The number that a cell adds to the sum.
    fn number_in(self, cell: &Cell) -> Option<i128>
        ensures { result ≡ counted_in self cell.now }
    {
        match self {
            SumForm::SumAbs => size_in(cell),
            SumForm::Sum | SumForm::AbsSum | SumForm::Mean | SumForm::Avg => number_in(cell),
        }
    }
}

impl Summed {
    /// That aggregate of no rows.
    pub fn new(form: SumForm) -> Summed
        ensures form { result.form ≡ form }
        ensures stands { IsTotalOf (sum_name form) (counted form) result.total.sum result.total.count [] }
    {
        Summed {
            form,
            total: Total::zero(),
        }
    }

    /// Which aggregate it is.
    pub fn name(&self) -> AggName
        ensures { result ≡ sum_name self.now.form }
    {
        match self.form {
            SumForm::Sum => AggName::Sum,
            SumForm::AbsSum => AggName::AbsSum,
            SumForm::SumAbs => AggName::SumAbs,
            SumForm::Mean => AggName::Mean,
            SumForm::Avg => AggName::Avg,
        }
    }
}

impl Aggregate for Summed {
    ghost name = { λ it. sum_name it.form };

    ghost stands_for = { λ it pairs. IsTotalOf (sum_name it.form) (counted it.form) it.total.sum it.total.count pairs };

    fn add(&mut self, _key: &Cell, cell: &Cell) -> Result<(), Memory> {
        let number = self.form.number_in(cell);
        self.total.add(number);
        Ok(())
    }

    fn take_off(&mut self, _key: &Cell, cell: &Cell) {
        let number = self.form.number_in(cell);
        self.total.take_off(number);
    }

    fn value(&self) -> Result<Option<Value>, Memory> {
        match self.form {
            SumForm::Sum => Ok(whole(self.total.count, self.total.sum)),
            SumForm::AbsSum => Ok(whole(self.total.count, size(self.total.sum))),
            SumForm::SumAbs => Ok(whole(self.total.count, self.total.sum)),
            SumForm::Mean => Ok(mean(&self.total)),
            SumForm::Avg => Ok(mean(&self.total)),
        }
    }

    ghost pairs_of = { λ it pairs h. h.are_pairs };
}
