ghost use Rattle.std.specs.Prelude.{◌≡◌, Some, None, if◌then◌else◌};
ghost use Rattle.cal_units.specs.Calendar.{IsMoment, is_moment, day_at};

use crate::day::Day;
use std::marker::Model;

/// The milliseconds of 0001-01-01T00:00:00Z.
pub const FIRST_MOMENT: i64 = -62_135_596_800_000;

/// The milliseconds of the last millisecond of 9999-12-31, in UTC.
pub const LAST_MOMENT: i64 = 253_402_300_799_999;

/// The milliseconds of a day.
const DAY: i64 = 86_400_000;

/// A datetime: a millisecond of one of the days from 0001-01-01 to 9999-12-31 in UTC. Contracts see it as
/// its number of whole milliseconds since 1970-01-01T00:00:00Z, and datetimes compare by these numbers.
#[derive(Clone, Copy, Debug, PartialEq, Eq, PartialOrd, Ord, Hash)]
pub struct Moment {
    number: i64,
}

impl Model for Moment {
    ghost use Rattle.std.specs.Prelude.{ℤ};
    ghost use Rattle.cal_units.specs.Calendar.{IsMoment};

    ghost Value = { ℤ };

    ghost view = { λ m. m.number };

    ghost invariant = { λ m. IsMoment m.number };

    ghost inverse = { λ number. record { number = number } };
}

impl Moment {
    /// The datetime of that number of milliseconds.
    pub fn of(number: i64) -> Moment
        requires { IsMoment number }
        ensures { result ≡ number }
    {
        Moment { number }
    }

    /// The datetime of that number of milliseconds, if it is on one of the days from 0001-01-01 to 9999-12-31.
    pub fn try_of(number: i64) -> Option<Moment>
        ensures { result ≡ (if is_moment number then Some number else None) }
    {
        if FIRST_MOMENT <= number && number <= LAST_MOMENT {
            Some(Moment::of(number))
        } else {
            None
        }
    }

    /// Its whole milliseconds since 1970-01-01T00:00:00Z, from -62135596800000 to 253402300799999.
    pub fn number(self) -> i64
        ensures number { result ≡ self }
        ensures range { IsMoment result }
    {
        self.number
    }

    /// The day on which it lies, in UTC.
    pub fn day(self) -> Day
        ensures { result ≡ day_at self }
    {
        Day::of(self.number.div_euclid(DAY) as i32)
    }
}
