ghost use Rattle.std.specs.Prelude.{◌≡◌};
ghost use Rattle.plan_json.specs.Words.{part_name, plan_word};

use std::fmt;

/// The member of a plan that is refused. They are tested in this order.
#[derive(Clone, Copy, Debug, Drop, PartialEq, Eq)]
pub enum PlanPart {
    Expressions,
    Columns,
    GroupBy,
    SplitBy,
    Aggregates,
    Filter,
    FilterOp,
    Sort,
}

/// What a member of a plan is refused for.
#[derive(Clone, Copy, Debug, Drop, PartialEq, Eq)]
pub enum PlanCause {
    /// `at` has how many there are.
    TooMany,
    /// An expression's name has no byte or more than 256, or is a column of the schema; a `filter_op` is neither
    /// `and` nor `or`, and has no place.
    Name,
    /// An expression's text has more than 1,024 bytes.
    Long,
    /// A number above 2^53-1. `at` has the expression's place and the byte place in it, as for `Nesting`, `Syntax` and
    /// `Unit`.
    Number,
    /// More than 64 levels of nesting.
    Nesting,
    /// No token, or one that can't stand there.
    Syntax,
    /// No column of that name, or in an expression no function. There `at` has a byte place too, and elsewhere the
    /// item's place alone.
    Unknown,
    /// A type that doesn't fit, with the places of `Unknown`.
    BadType,
    /// The second argument of `bucket` doesn't fit.
    Unit,
    /// A name that stood before.
    Twice,
    /// No aggregate of that name.
    Aggregate,
    /// No operator of that name.
    Operator,
    /// A filter's value is none that its operator and its column take.
    Value,
    /// No direction of that name.
    Direction,
}

impl PlanPart {
    /// The member's name, as plans write it.
    pub fn name(self) -> &'static str
        ensures { result.now ≡ part_name self }
    {
        match self {
            PlanPart::Expressions => "expressions",
            PlanPart::Columns => "columns",
            PlanPart::GroupBy => "group_by",
            PlanPart::SplitBy => "split_by",
            PlanPart::Aggregates => "aggregates",
            PlanPart::Filter => "filter",
            PlanPart::FilterOp => "filter_op",
            PlanPart::Sort => "sort",
        }
    }
}

impl PlanCause {
    /// The word for it in a refusal.
    pub fn word(self) -> &'static str
        ensures { result.now ≡ plan_word self }
    {
        match self {
            PlanCause::TooMany => "too many",
            PlanCause::Name => "name",
            PlanCause::Long => "long",
            PlanCause::Number => "number",
            PlanCause::Nesting => "nesting",
            PlanCause::Syntax => "syntax",
            PlanCause::Unknown => "unknown",
            PlanCause::BadType => "type",
            PlanCause::Unit => "unit",
            PlanCause::Twice => "twice",
            PlanCause::Aggregate => "aggregate",
            PlanCause::Operator => "operator",
            PlanCause::Value => "value",
            PlanCause::Direction => "direction",
        }
    }
}

impl fmt::Display for PlanPart {
    fn fmt<W: fmt::Write>(&self, f: &mut fmt::Formatter<W>) -> fmt::Result {
        f.write_str(self.name())
    }
}

impl fmt::Display for PlanCause {
    fn fmt<W: fmt::Write>(&self, f: &mut fmt::Formatter<W>) -> fmt::Result {
        f.write_str(self.word())
    }
}
