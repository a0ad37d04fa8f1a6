ghost use Rattle.std.specs.Prelude.{◌≡◌, refl};
ghost use Rattle.std.specs.Cmp.{eq_by_cmp_equiv, partial_equiv_from_equiv, partial_order_from_total};
ghost use Rattle.std.specs.Ordering.{as_partial_cmp, eq_by_cmp};
ghost use Rattle.value_core.specs.ValueLaws.{value_order_total};
ghost use Rattle.value_core.specs.Values.{kind, value_order};

use crate::fraction::Fraction;
use cal_units::{Day, Moment};
use plain_data::{Copies, Memory, Text};
use std::alloc::Global;
use std::cmp::Ordering;

/// A value that isn't null. All values have one total order: by kind, in the order below, then by
/// value.
#[derive(Debug, Drop)]
pub enum Value {
    /// False stands before true.
    Bool(bool),
    /// A whole number, as an integer column's cell, a sum or a count.
    Whole(i128),
    /// A fraction. It stands after every whole number, also where it is a lesser number.
    Fraction(Fraction),
    Date(Day),
    /// A datetime.
    Moment(Moment),
    /// A text. Texts compare by their bytes.
    Words(Text),
}

impl Value {
    /// How two values stand in the one order. It answers `Equal` only for equal values.
    #[tactic(auto, unfolding(crate::specs::Values::value_order))]
    pub fn order(&self, other: &Value) -> Ordering
        ensures { result ≡ value_order self.now other.now }
    {
        match (self, other) {
            (Value::Bool(a), Value::Bool(b)) => a.cmp(b),
            (Value::Whole(a), Value::Whole(b)) => a.cmp(b),
            (Value::Fraction(a), Value::Fraction(b)) => a.order(b),
            (Value::Date(a), Value::Date(b)) => a.cmp(b),
            (Value::Moment(a), Value::Moment(b)) => a.cmp(b),
            (Value::Words(a), Value::Words(b)) => a.cmp(b),
            _ => self.kind().cmp(&other.kind()),
        }
    }

    /// The place of the value's kind among all kinds. Null, which is no value, has the place 0.
    fn kind(&self) -> u8
        ensures { result ≡ kind self.now }
    {
        match self {
            Value::Bool(_) => 1,
            Value::Whole(_) => 2,
            Value::Fraction(_) => 3,
            Value::Date(_) => 4,
            Value::Moment(_) => 5,
            Value::Words(_) => 6,
        }
    }
}

impl PartialEq for Value {
    ghost eq = { eq_by_cmp value_order };

    ghost laws = { partial_equiv_from_equiv (eq_by_cmp_equiv value_order_total) };

    fn eq(&self, other: &Value) -> bool {
        self.order(other).is_eq()
    }
}

impl Eq for Value {
    ghost laws = { eq_by_cmp_equiv value_order_total };
}

impl PartialOrd for Value {
    ghost partial_cmp = { as_partial_cmp value_order };

    ghost laws = { partial_order_from_total value_order_total };

    fn partial_cmp(&self, other: &Value) -> Option<Ordering> {
        Some(self.cmp(other))
    }
}

impl Ord for Value {
    ghost cmp = { value_order };

    ghost total = { value_order_total };

    ghost matches_partial_cmp = { λ x y. refl };

    ghost matches_eq = { λ x y. refl };

    fn cmp(&self, other: &Value) -> Ordering {
        self.order(other)
    }
}

impl Copies for Value {
    fn copy(&self, alloc: Global) -> Result<Value, Memory> {
        Ok(match self {
            Value::Bool(x) => Value::Bool(*x),
            Value::Whole(x) => Value::Whole(*x),
            Value::Fraction(x) => Value::Fraction(*x),
            Value::Date(x) => Value::Date(*x),
            Value::Moment(x) => Value::Moment(*x),
            Value::Words(x) => Value::Words(x.copy(alloc)?),
        })
    }
}
