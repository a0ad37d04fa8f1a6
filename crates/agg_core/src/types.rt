ghost use Rattle.std.specs.Prelude.{◌≡◌, []};
ghost use Rattle.agg_core.specs.Aggregates.{aggregate};
ghost use Rattle.agg_core.specs.Types.{aggregate_for, default_aggregate, is_numeric, result_type, takes};

use cell_core::{CellType, Value};
use plan_types::{AggName, Named};

/// The type of an aggregate's values.
#[derive(Clone, Copy, Debug, Drop, PartialEq, Eq)]
pub enum ResultType {
    /// Null, or a value of that type, where a sum or a count has any size.
    Column(CellType),
    /// Null, or a fraction.
    Fraction,
}

/// Whether an aggregate takes columns of that type. Sums and means take integers alone.
pub fn takes(name: AggName, kind: CellType) -> bool
    ensures { result ≡ takes name kind }
{
    match name {
        AggName::Sum | AggName::AbsSum | AggName::SumAbs | AggName::Mean | AggName::Avg => {
            is_numeric(kind)
        }
        AggName::Count | AggName::DistinctCount => true,
        AggName::Min | AggName::Max | AggName::Unique => true,
        AggName::First | AggName::Last | AggName::Dominant | AggName::Median => true,
    }
}

/// Whether a column has whole numbers.
pub fn is_numeric(kind: CellType) -> bool
    ensures { result ≡ is_numeric kind }
{
    matches!(kind, CellType::Integer)
}

/// The type of an aggregate's values over a column of that type.
pub fn result_type(name: AggName, kind: CellType) -> ResultType
    ensures { result ≡ result_type name kind }
{
    match name {
        AggName::Sum | AggName::AbsSum | AggName::SumAbs => ResultType::Column(CellType::Integer),
        AggName::Count | AggName::DistinctCount => ResultType::Column(CellType::Integer),
        AggName::Mean | AggName::Avg => ResultType::Fraction,
        AggName::Min | AggName::Max | AggName::Unique => ResultType::Column(kind),
        AggName::First | AggName::Last => ResultType::Column(kind),
        AggName::Dominant | AggName::Median => ResultType::Column(kind),
    }
}

/// The aggregate of a column that none is named for: the sum of integers, and else the count.
pub fn default_aggregate(kind: CellType) -> AggName
    ensures { result ≡ default_aggregate kind }
{
    if is_numeric(kind) {
        return AggName::Sum;
    }
    AggName::Count
}

/// The aggregate that is named for column `column`, and else that of its type.
pub fn aggregate_for(aggregates: &[Named], column: usize, kind: CellType) -> AggName
    ensures { result ≡ aggregate_for aggregates.now column kind }
{
    for named in aggregates {
        if named.column == column {
            return named.aggregate;
        }
    }
    default_aggregate(kind)
}

/// An aggregate of no cells: a count is 0 there, and any other is null.
pub fn of_none(name: AggName) -> Option<Value>
    ensures { result ≡ aggregate name [] }
{
    match name {
        AggName::Count | AggName::DistinctCount => Some(Value::Whole(0)),
        AggName::Mean | AggName::Avg => None,
        AggName::Sum | AggName::AbsSum | AggName::SumAbs => None,
        AggName::Min | AggName::Max | AggName::Unique | AggName::First | AggName::Last => None,
        AggName::Dominant | AggName::Median => None,
    }
}
