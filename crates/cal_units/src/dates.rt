ghost use Rattle.std.specs.Prelude.{◌≡◌, ◌<◌, pos, neg_ℤ, IfOk, Some};
ghost use Rattle.std.specs.Result.{result_ok};
ghost use Rattle.jiff_core.specs.Calendar.{days_from_civil};
ghost use Rattle.jiff_core.specs.Date.{epoch_day};
ghost use Rattle.cal_units.specs.Calendar.{IsDay, IsCalendarDay, year_of, month_of, day_of_month};
ghost use Rattle.cal_units.specs.DateText.{day_number, date_of, date_text};

use crate::day::Day;
use crate::digits::{fits, last_digit, number};
use jiff::civil::Date;
use jiff_core::civil;
use std::fmt;

/// The text is not `YYYY-MM-DD` of a day from 0001-01-01 to 9999-12-31.
#[derive(Clone, Copy, Debug, Drop, PartialEq, Eq)]
pub struct NotADate;

impl fmt::Display for NotADate {
    fn fmt<W: fmt::Write>(&self, f: &mut fmt::Formatter<W>) -> fmt::Result {
        f.write_str("not a date from 0001-01-01 to 9999-12-31")
    }
}

/// The year, 1 to 9999, the month, 1 to 12, and the day of the month, from 1.
#[derive(Clone, Copy, Debug, Drop, PartialEq, Eq)]
pub struct DateParts {
    pub year: i32,
    pub month: u8,
    pub day: u8,
}

/// The calendar's date of a day.
pub(crate) fn date_at(day: Day) -> Date
    ensures number { epoch_day result ≡ day }
    ensures year { result.year ≡ pos (year_of day) }
    ensures month { result.month ≡ month_of day }
    ensures day { result.day ≡ day_of_month day }
    ensures range { IsDay day }
{
    Date::from_plain(civil::Date::from_unix_epoch_day(i64::from(day.number())).unwrap())
}

/// Reads the calendar date `YYYY-MM-DD` of ISO 8601 as its day.
pub fn read_date(text: &[u8]) -> Result<Day, NotADate>
    ensures value { result_ok result ≡ date_of text.now }
    ensures in_range { IfOk result IsDay }
    ensures written { IfOk result (λ day. text.now ≡ date_text day) }
{
    if !fits(b"dddd-dd-dd", text) {
        return Err(NotADate);
    }
    let year = number(&text[..4]);
    let month = number(&text[5..7]);
    let day = number(&text[8..10]);
    day_number(year, month, day).ok_or(NotADate)
}

/// The day of the calendar with that year, month and day of the month, if there is one.
fn day_number(year: u32, month: u32, day: u32) -> Option<Day>
    requires year { year < 10_000 }
    requires month { month < 100 }
    requires day { day < 100 }
    ensures { result ≡ day_number year month day }
{
    if year == 0 {
        return None;
    }
    match Date::new(year as i16, month as i8, day as i8) {
        Ok(date) => Some(Day::of(date.to_plain().to_unix_epoch_day())),
        Err(_) => None,
    }
}

/// Writes the day as `YYYY-MM-DD`, the calendar date of ISO 8601.
pub fn write_date(day: Day) -> [u8; 10]
    ensures text { result ≡ date_text day }
    ensures read_back { date_of result ≡ Some day }
{
    let parts = date_parts(day);
    let (year, month, day) = (
        parts.year as u32,
        u32::from(parts.month),
        u32::from(parts.day),
    );
    [
        last_digit(year / 1000),
        last_digit(year / 100),
        last_digit(year / 10),
        last_digit(year),
        b'-',
        last_digit(month / 10),
        last_digit(month),
        b'-',
        last_digit(day / 10),
        last_digit(day),
    ]
}

/// Takes a day apart into the year, the month and the day of the month.
pub fn date_parts(day: Day) -> DateParts
    ensures year { result.year ≡ pos (year_of day) }
    ensures month { result.month ≡ month_of day }
    ensures day { result.day ≡ day_of_month day }
    ensures range { IsDay day }
    ensures calendar { IsCalendarDay (year_of day) (month_of day) (day_of_month day) }
    ensures number { days_from_civil result.year result.month result.day ≡ day }
{
    let date = date_at(day).to_plain();
    DateParts {
        year: i32::from(date.year),
        month: date.month,
        day: date.day,
    }
}
