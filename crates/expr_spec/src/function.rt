ghost use Rattle.std.specs.Prelude.{◌≡◌};
ghost use Rattle.expr_spec.specs.Functions.{function_named};

/// A function of expressions. Its name is that of the variant in snake case.
#[derive(Clone, Copy, Debug, Drop, PartialEq, Eq)]
pub enum Function {
    Abs,
    Min,
    Max,
    /// The second argument where the first is true, and else the third.
    If,
    IsNull,
    IsNotNull,
    /// The number of characters (Unicode scalar values).
    Length,
    Concat,
    Contains,
    Begins,
    Ends,
    /// A number, a date or a datetime rounded down to its second argument.
    Bucket,
    Year,
    Month,
    Day,
    DateOf,
    /// The hour of a datetime in UTC, 0 to 23.
    Hour,
}

impl Function {
    /// The function of that name, as expressions write it.
    pub fn named(name: &str) -> Option<Function>
        ensures { result ≡ function_named name.now }
    {
        match name {
            "abs" => Some(Function::Abs),
            "min" => Some(Function::Min),
            "max" => Some(Function::Max),
            "if" => Some(Function::If),
            "is_null" => Some(Function::IsNull),
            "is_not_null" => Some(Function::IsNotNull),
            "length" => Some(Function::Length),
            "concat" => Some(Function::Concat),
            "contains" => Some(Function::Contains),
            "begins" => Some(Function::Begins),
            "ends" => Some(Function::Ends),
            "bucket" => Some(Function::Bucket),
            "year" => Some(Function::Year),
            "month" => Some(Function::Month),
            "day" => Some(Function::Day),
            "date_of" => Some(Function::DateOf),
            "hour" => Some(Function::Hour),
            _ => None,
        }
    }
}
