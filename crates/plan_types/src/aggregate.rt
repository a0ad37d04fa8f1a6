ghost use Rattle.std.specs.Prelude.{◌≡◌};
ghost use Rattle.plan_types.specs.AggregateNames.{aggregate_named, aggregate_name};

/// The name of an aggregate: how the cells of a group's rows become one value.
#[derive(Clone, Copy, Debug, Drop, PartialEq, Eq)]
pub enum AggName {
    /// The sum of the cells that aren't null.
    Sum,
    /// The absolute value of the sum.
    AbsSum,
    /// The sum of the absolute values.
    SumAbs,
    /// The number of rows.
    Count,
    /// The number of different cells that aren't null.
    DistinctCount,
    /// The sum over the number of the cells that aren't null, as a fraction.
    Mean,
    /// Another name of `Mean`.
    Avg,
    Min,
    Max,
    /// The one cell that isn't null, where there is exactly one different.
    Unique,
    /// The cell of the row with the least key.
    First,
    /// The cell of the row with the greatest key.
    Last,
    /// The most frequent cell that isn't null, and the least of these on a tie.
    Dominant,
    /// The middle of the cells that aren't null, and the lower of two.
    Median,
}

impl AggName {
    /// The aggregate of that name, as plans write it.
    pub fn named(name: &str) -> Option<AggName>
        ensures { result ≡ aggregate_named name.now }
    {
        match name {
            "sum" => Some(AggName::Sum),
            "abs sum" => Some(AggName::AbsSum),
            "sum abs" => Some(AggName::SumAbs),
            "count" => Some(AggName::Count),
            "distinct count" => Some(AggName::DistinctCount),
            "mean" => Some(AggName::Mean),
            "avg" => Some(AggName::Avg),
            "min" => Some(AggName::Min),
            "max" => Some(AggName::Max),
            "unique" => Some(AggName::Unique),
            "first" => Some(AggName::First),
            "last" => Some(AggName::Last),
            "dominant" => Some(AggName::Dominant),
            "median" => Some(AggName::Median),
            _ => None,
        }
    }

    /// The name, as plans write it.
    pub fn name(self) -> &'static str
        ensures { result.now ≡ aggregate_name self }
    {
        match self {
            AggName::Sum => "sum",
            AggName::AbsSum => "abs sum",
            AggName::SumAbs => "sum abs",
            AggName::Count => "count",
            AggName::DistinctCount => "distinct count",
            AggName::Mean => "mean",
            AggName::Avg => "avg",
            AggName::Min => "min",
            AggName::Max => "max",
            AggName::Unique => "unique",
            AggName::First => "first",
            AggName::Last => "last",
            AggName::Dominant => "dominant",
            AggName::Median => "median",
        }
    }
}
