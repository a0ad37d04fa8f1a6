ghost use Rattle.std.specs.Prelude.{◌≡◌, [], IfOk};
ghost use Rattle.agg_core.specs.Any.{any_name, any_stands};
ghost use Rattle.agg_core.specs.Choices.{choice_name};
ghost use Rattle.agg_core.specs.Rows.{end_name};
ghost use Rattle.agg_core.specs.Sums.{sum_name};

use crate::aggregate::Aggregate;
use crate::bagged::{Bagged, Choice};
use crate::end_row::{End, EndRow};
use crate::row_count::RowCount;
use crate::summed::{SumForm, Summed};
use cell_core::{Cell, Memory, Value};
use plan_types::AggName;
use std::alloc::Global;

/// One of the aggregates, chosen when it is made.
#[derive(Drop)]
pub enum AnyAggregate {
    Rows(RowCount),
    Sum(Summed),
    Bag(Bagged),
    End(EndRow),
}

impl AnyAggregate {
    /// The aggregate of that name, of no rows.
    pub fn make(alloc: Global, name: AggName) -> Result<AnyAggregate, Memory>
        ensures named { IfOk result (λ it. any_name it ≡ name) }
        ensures stands { IfOk result (λ it. any_stands it []) }
    {
        match name {
            AggName::Count => Ok(AnyAggregate::Rows(RowCount::new())),
            AggName::Sum => Ok(summed(SumForm::Sum)),
            AggName::AbsSum => Ok(summed(SumForm::AbsSum)),
            AggName::SumAbs => Ok(summed(SumForm::SumAbs)),
            AggName::Mean => Ok(summed(SumForm::Mean)),
            AggName::Avg => Ok(summed(SumForm::Avg)),
            AggName::DistinctCount => Ok(chosen(alloc, Choice::DistinctCount)),
            AggName::Min => Ok(chosen(alloc, Choice::Min)),
            AggName::Max => Ok(chosen(alloc, Choice::Max)),
            AggName::Unique => Ok(chosen(alloc, Choice::Unique)),
            AggName::Dominant => Ok(chosen(alloc, Choice::Dominant)),
            AggName::Median => Ok(chosen(alloc, Choice::Median)),
            AggName::First => Ok(at_end(alloc, End::First)),
            AggName::Last => Ok(at_end(alloc, End::Last)),
        }
    }

    /// Which aggregate it is.
    pub fn name(&self) -> AggName
        ensures { result ≡ any_name self.now }
    {
        match self {
            AnyAggregate::Rows(_) => AggName::Count,
            AnyAggregate::Sum(it) => it.name(),
            AnyAggregate::Bag(it) => it.name(),
            AnyAggregate::End(it) => it.name(),
        }
    }
}

impl Aggregate for AnyAggregate {
    ghost use Rattle.agg_core.specs.Any.{any_name, any_stands, any_pairs_of};

    ghost name = { any_name };

    ghost stands_for = { any_stands };

    fn add(&mut self, key: &Cell, cell: &Cell) -> Result<(), Memory> {
        match self {
            AnyAggregate::Rows(it) => it.add(key, cell),
            AnyAggregate::Sum(it) => it.add(key, cell),
            AnyAggregate::Bag(it) => it.add(key, cell),
            AnyAggregate::End(it) => it.add(key, cell),
        }
    }

    fn take_off(&mut self, key: &Cell, cell: &Cell) {
        match self {
            AnyAggregate::Rows(it) => it.take_off(key, cell),
            AnyAggregate::Sum(it) => it.take_off(key, cell),
            AnyAggregate::Bag(it) => it.take_off(key, cell),
            AnyAggregate::End(it) => it.take_off(key, cell),
        }
    }

    fn value(&self) -> Result<Option<Value>, Memory> {
        match self {
            AnyAggregate::Rows(it) => it.value(),
            AnyAggregate::Sum(it) => it.value(),
            AnyAggregate::Bag(it) => it.value(),
            AnyAggregate::End(it) => it.value(),
        }
    }

    ghost pairs_of = { any_pairs_of };
}

fn summed(form: SumForm) -> AnyAggregate
    ensures named { any_name result ≡ sum_name form }
    ensures stands { any_stands result [] }
{
    AnyAggregate::Sum(Summed::new(form))
}

fn chosen(alloc: Global, choice: Choice) -> AnyAggregate
    ensures named { any_name result ≡ choice_name choice }
    ensures stands { any_stands result [] }
{
    AnyAggregate::Bag(Bagged::new(alloc, choice))
}

fn at_end(alloc: Global, end: End) -> AnyAggregate
    ensures named { any_name result ≡ end_name end }
    ensures stands { any_stands result [] }
{
    AnyAggregate::End(EndRow::new(alloc, end))
}
