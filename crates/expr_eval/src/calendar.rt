ghost use Rattle.std.specs.Prelude.{◌≡◌, pos, option_and_then};
ghost use Rattle.cal_units.specs.Calendar.{year_of, month_of, day_of_month, day_at};
ghost use Rattle.expr_spec.specs.Functions.{unit_named, date_unit};
ghost use Rattle.expr_spec.specs.Values.{on_date, on_moment, bucket_value, date_in, moment_in, hour_of};

use crate::numbers::number_bucket;
use cal_units::{Day, Moment, bucket_date, bucket_moment, date_parts};
use cell_core::Cell;
use expr_spec::{date_unit_named, unit_named};

const DAY: i64 = 86_400_000;

const HOUR: i64 = 3_600_000;

pub fn year(a: &Cell) -> Cell
    ensures { result ≡ on_date (λ day. Cell.Int (pos (year_of day))) a.now }
{
    match a {
        Cell::Date(day) => Cell::Int(i64::from(date_parts(*day).year)),
        _ => Cell::Null,
    }
}

pub fn month(a: &Cell) -> Cell
    ensures { result ≡ on_date (λ day. Cell.Int (pos (month_of day))) a.now }
{
    match a {
        Cell::Date(day) => Cell::Int(i64::from(date_parts(*day).month)),
        _ => Cell::Null,
    }
}

pub fn day(a: &Cell) -> Cell
    ensures { result ≡ on_date (λ day. Cell.Int (pos (day_of_month day))) a.now }
{
    match a {
        Cell::Date(day) => Cell::Int(i64::from(date_parts(*day).day)),
        _ => Cell::Null,
    }
}

/// The day on which a moment lies, in UTC.
pub fn date_of(a: &Cell) -> Cell
    ensures { result ≡ on_moment (λ ms. Cell.Date (day_at ms)) a.now }
{
    match a {
        Cell::Moment(moment) => Cell::Date(moment.day()),
        _ => Cell::Null,
    }
}

/// The hour of a moment, in UTC.
pub fn hour(a: &Cell) -> Cell
    ensures { result ≡ on_moment (λ ms. Cell.Int (hour_of ms)) a.now }
{
    match a {
        Cell::Moment(moment) => Cell::Int(moment.number().rem_euclid(DAY).div_euclid(HOUR)),
        _ => Cell::Null,
    }
}

/// The start of the unit `u` in which `a` lies, and of a number the greatest multiple that is at most
/// the number.
pub fn bucket(a: &Cell, u: &Cell) -> Cell
    ensures { result ≡ bucket_value a.now u.now }
{
    match (a, u) {
        (Cell::Int(a), Cell::Int(n)) => number_bucket(*a, *n),
        (Cell::Date(day), Cell::Words(unit)) => date_in(unit.as_str(), *day),
        (Cell::Moment(moment), Cell::Words(unit)) => moment_in(unit.as_str(), *moment),
        _ => Cell::Null,
    }
}

fn date_in(unit: &str, day: Day) -> Cell
    ensures { result ≡ date_in (option_and_then date_unit (unit_named unit.now)) day }
{
    match date_unit_named(unit) {
        Some(unit) => Cell::Date(bucket_date(day, unit)),
        None => Cell::Null,
    }
}

fn moment_in(unit: &str, moment: Moment) -> Cell
    ensures { result ≡ moment_in (unit_named unit.now) moment }
{
    match unit_named(unit) {
        Some(unit) => Cell::Moment(bucket_moment(moment, unit)),
        None => Cell::Null,
    }
}
