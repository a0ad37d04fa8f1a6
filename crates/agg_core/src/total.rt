ghost use Rattle.std.specs.Prelude.{◌≡◌, ◌+◌, ◌<◌, ◌≤◌, ◌==◌, List, length, ℤ, pos, is_some, None, Some, if◌then◌else◌};
ghost use Rattle.value_core.specs.declared.value.Value.TheVariants as value;
ghost use Rattle.value_core.specs.Reduced.{IsInReach};
ghost use Rattle.cell_core.specs.Limits.{max_rows};
ghost use Rattle.agg_core.specs.Aggregates.{mean, number_in, size_of, sum_of};
ghost use Rattle.agg_core.specs.Numbers.{plus, minus, size_in};

use cell_core::{Cell, Fraction, Value};

/// The sum of some whole numbers, and how many they are.
#[derive(Drop)]
pub struct Total {
    pub sum: i128,
    pub count: u64,
    pub ghost sum_in_reach: { IsInReach sum },
    pub ghost few: { count ≤ max_rows },
}

impl Total {
    pub fn zero() -> Total
        ensures sum { result.sum ≡ pos 0 }
        ensures count { result.count ≡ 0 }
    {
        Total { sum: 0, count: 0 }
    }

    /// Counts a number in, where there is one.
    pub fn add(&mut self, number: Option<i128>)
        requires reach { IsInReach (plus self.old.sum number) }
        requires room { self.old.count < max_rows }
        ensures sum { self.new.sum ≡ plus self.old.sum number }
        ensures count { self.new.count ≡ self.old.count + (if is_some number then 1 else 0) }
    {
        if let Some(n) = number {
            self.sum += n;
            self.count += 1;
        }
    }

    /// Counts a number out, where there is one.
    pub fn take_off(&mut self, number: Option<i128>)
        requires reach { IsInReach (minus self.old.sum number) }
        requires some { (if is_some number then 1 else 0) ≤ self.old.count }
        ensures sum { self.new.sum ≡ minus self.old.sum number }
        ensures count { self.old.count ≡ self.new.count + (if is_some number then 1 else 0) }
    {
        if let Some(n) = number {
            self.sum -= n;
            self.count -= 1;
        }
    }
}

/// The whole number of an integer cell.
pub fn number_in(cell: &Cell) -> Option<i128>
    ensures { result ≡ number_in cell.now }
{
    match cell {
        Cell::Int(n) => Some(*n as i128),
        _ => None,
    }
}

/// How far the whole number of an integer cell is from 0.
pub fn size_in(cell: &Cell) -> Option<i128>
    ensures { result ≡ size_in cell.now }
{
    match cell {
        Cell::Int(n) => Some(n.unsigned_abs() as i128),
        _ => None,
    }
}

/// A whole number as a value, and none where it is of no cells.
pub fn whole(count: u64, number: i128) -> Option<Value>
    ensures { result ≡ (if count == 0 then None else Some (value.Whole number)) }
{
    if count == 0 {
        return None;
    }
    Some(Value::Whole(number))
}

/// How far a number is from 0.
pub fn size(number: i128) -> i128
    requires { IsInReach number }
    ensures { result ≡ size_of number }
{
    number.unsigned_abs() as i128
}

/// The mean of the numbers that the total is of, and none where there are none.
pub fn mean(total: &Total) -> Option<Value>
    ensures { (ns : List ℤ) → total.now.sum ≡ sum_of ns → total.now.count ≡ length ns → result ≡ mean ns }
{
    if total.count == 0 {
        return None;
    }
    let mean = Fraction::reduced(total.sum, total.count as i128);
    Some(Value::Fraction(mean))
}
