ghost use Rattle.std.specs.Prelude.{◌≡◌, ◌<◌, ◌≤◌, pos, ◌-ℤ◌, ◌*ℤ◌, unsigned_abs};
ghost use Rattle.jiff_core.specs.Calendar.{IsBetween, days_from_civil, weekday_number};
ghost use Rattle.cal_units.specs.Calendar.{IsDay, IsMoment, year_of, month_of, day_at};
ghost use Rattle.cal_units.specs.Buckets.{IsDateUnit, IsDateBucket, IsMomentBucket, date_bucket, moment_bucket, floor_to};

use crate::dates::date_at;
use crate::day::Day;
use crate::moment::Moment;

const DAY: i64 = 86_400_000;

const HOUR: i64 = 3_600_000;

const MINUTE: i64 = 60_000;

const SECOND: i64 = 1_000;

/// A unit that a date or a moment is rounded down to: a year, a month, a week from Monday, a day,
/// an hour, a minute or a second, in UTC.
#[derive(Clone, Copy, Debug, Drop, PartialEq, Eq)]
pub enum Unit {
    Y,
    M,
    W,
    D,
    H,
    Min,
    S,
}

/// The first day of the year, month, week or day that a day lies in.
pub fn bucket_date(day: Day, unit: Unit) -> Day
    requires unit { IsDateUnit unit }
    ensures bucket { IsDateBucket unit day result }
    ensures value { result ≡ date_bucket unit day }
{
    Day::of(unit_start(day.number(), unit))
}

fn unit_start(day: i32, unit: Unit) -> i32
    requires day { IsDay day }
    requires unit { IsDateUnit unit }
    ensures bucket { IsDateBucket unit day result }
    ensures value { result ≡ date_bucket unit day }
{
    match unit {
        Unit::Y => year_start(day),
        Unit::M => month_start(day),
        Unit::W => week_start(day),
        _ => day,
    }
}

fn year_start(day: i32) -> i32
    requires { IsDay day }
    ensures { result ≡ days_from_civil (pos (year_of day)) 1 1 }
{
    date_at(Day::of(day))
        .first_of_year()
        .to_plain()
        .to_unix_epoch_day()
}

fn month_start(day: i32) -> i32
    requires { IsDay day }
    ensures { result ≡ days_from_civil (pos (year_of day)) (month_of day) 1 }
{
    date_at(Day::of(day))
        .first_of_month()
        .to_plain()
        .to_unix_epoch_day()
}

fn week_start(day: i32) -> i32
    requires { IsDay day }
    ensures { result ≡ day -ℤ pos (weekday_number day) }
{
    day - i32::from(date_at(Day::of(day)).weekday().to_monday_zero_offset())
}

/// The first millisecond of the year, month, .. or second that a moment lies in.
pub fn bucket_moment(moment: Moment, unit: Unit) -> Moment
    ensures bucket { IsMomentBucket unit moment result }
    ensures value { result ≡ moment_bucket unit moment }
{
    Moment::of(unit_start_at(moment.number(), unit))
}

fn unit_start_at(ms: i64, unit: Unit) -> i64
    requires { IsMoment ms }
    ensures bucket { IsMomentBucket unit ms result }
    ensures value { result ≡ moment_bucket unit ms }
{
    match unit {
        Unit::Y => first_milli(year_start(day_at(ms))),
        Unit::M => first_milli(month_start(day_at(ms))),
        Unit::W => first_milli(week_start(day_at(ms))),
        Unit::D => floor_to(ms, DAY),
        Unit::H => floor_to(ms, HOUR),
        Unit::Min => floor_to(ms, MINUTE),
        Unit::S => floor_to(ms, SECOND),
    }
}

/// The day on which a moment lies.
fn day_at(ms: i64) -> i32
    requires { IsMoment ms }
    ensures value { result ≡ day_at ms }
    ensures range { IsDay result }
{
    ms.div_euclid(DAY) as i32
}

/// The first millisecond of a day.
fn first_milli(day: i32) -> i64
    ensures { result ≡ day *ℤ pos 86_400_000 }
{
    i64::from(day) * DAY
}

/// The greatest whole number of such lengths that is not above.
fn floor_to(ms: i64, length: i64) -> i64
    requires ms { IsMoment ms }
    requires length { IsBetween (pos 1) (pos 86_400_000) length }
    ensures { result ≡ floor_to (unsigned_abs length) ms }
{
    ms - ms.rem_euclid(length)
}
