ghost use Rattle.std.specs.Prelude.{◌≡◌, Some, None, if◌then◌else◌};
ghost use Rattle.cal_units.specs.Calendar.{IsDay, is_day};

use std::marker::Model;

/// The day number of 0001-01-01.
pub const FIRST_DAY: i32 = -719_162;

/// The day number of 9999-12-31.
pub const LAST_DAY: i32 = 2_932_896;

/// A day from 0001-01-01 to 9999-12-31, which contracts see as its number of days since 1970-01-01. Days
/// compare by their numbers.
#[derive(Clone, Copy, Debug, PartialEq, Eq, PartialOrd, Ord, Hash)]
pub struct Day {
    number: i32,
}

impl Model for Day {
    ghost use Rattle.std.specs.Prelude.{ℤ};
    ghost use Rattle.cal_units.specs.Calendar.{IsDay};

    ghost Value = { ℤ };

    ghost view = { λ d. d.number };

    ghost invariant = { λ d. IsDay d.number };

    ghost inverse = { λ number. record { number = number } };
}

impl Day {
    /// The day of that number.
    pub fn of(number: i32) -> Day
        requires { IsDay number }
        ensures { result ≡ number }
    {
        Day { number }
    }

    /// The day of that number, if it is from 0001-01-01 to 9999-12-31.
    pub fn try_of(number: i64) -> Option<Day>
        ensures { result ≡ (if is_day number then Some number else None) }
    {
        if i64::from(FIRST_DAY) <= number && number <= i64::from(LAST_DAY) {
            Some(Day::of(number as i32))
        } else {
            None
        }
    }

    /// Its number of days since 1970-01-01, from -719162 to 2932896.
    pub fn number(self) -> i32
        ensures number { result ≡ self }
        ensures range { IsDay result }
    {
        self.number
    }
}
