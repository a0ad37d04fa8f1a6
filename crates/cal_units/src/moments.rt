ghost use Rattle.std.specs.Prelude.{◌≡◌, ◌↔◌, ◌≤◌, ◌<◌, length, pos, neg_ℤ, slice_range, IfOk, IfSome, IsSomeAnd, Some, None, Err};
ghost use Rattle.std.specs.List.{prefix_len};
ghost use Rattle.std.specs.Char.{is_ascii_digit};
ghost use Rattle.std.specs.Str.Parse.{AllDigits};
ghost use Rattle.jiff_core.specs.Calendar.{IsWithin};
ghost use Rattle.cal_units.specs.Calendar.{IsMoment};
ghost use Rattle.cal_units.specs.MomentText.{clock_millis, clock_of, offset_of, zone_of, tail_of, instant_of, in_range, moment_of, fraction_millis, fraction_of};

use crate::dates::read_date;
use crate::digits::{fits, number};
use crate::moment::Moment;
use std::fmt;

const DAY: i64 = 86_400_000;

const HOUR: u32 = 3_600_000;

const MINUTE: u32 = 60_000;

const SECOND: u32 = 1_000;

/// Why a text is no moment.
#[derive(Clone, Copy, Debug, Drop, PartialEq, Eq)]
pub enum MomentRefused {
    /// The text is not of the form.
    NotAMoment,
    /// It is of the form, and its moment lies before 0001-01-01 or after 9999-12-31, in UTC.
    OutOfRange,
}

impl fmt::Display for MomentRefused {
    fn fmt<W: fmt::Write>(&self, f: &mut fmt::Formatter<W>) -> fmt::Result {
        f.write_str(match self {
            MomentRefused::NotAMoment => "not a datetime",
            MomentRefused::OutOfRange => "a datetime before 0001-01-01 or after 9999-12-31",
        })
    }
}

/// Reads the date and time of ISO 8601 `YYYY-MM-DDThh:mm:ss`, then `.` and one to nine digits or
/// neither, then `Z`, `+hh:mm` or `-hh:mm`. The date exists and its year is 0001 to 9999, hours are
/// 00 to 23, and minutes and seconds 00 to 59, in the offset too. The answer is in whole
/// milliseconds since 1970-01-01T00:00:00Z: digits after the third of the fraction are dropped, and
/// then the offset is subtracted.
pub fn read_moment(text: &[u8]) -> Result<Moment, MomentRefused>
    ensures value { result ≡ moment_of text.now }
    ensures moment { IfOk result (λ ms. IsMoment ms × (instant_of text.now ≡ Some ms)) }
    ensures not_a_moment { (result ≡ Err MomentRefused.NotAMoment) ↔ (instant_of text.now ≡ None) }
    ensures out_of_range { (result ≡ Err MomentRefused.OutOfRange)
        ↔ IsSomeAnd (instant_of text.now) (λ ms. ¬ (IsMoment ms)) }
{
    match instant(text) {
        None => Err(MomentRefused::NotAMoment),
        Some(ms) => in_range(ms),
    }
}

/// The moment of so many milliseconds, where it is in range.
fn in_range(ms: i64) -> Result<Moment, MomentRefused>
    ensures { result ≡ in_range (Some ms) }
{
    Moment::try_of(ms).ok_or(MomentRefused::OutOfRange)
}

/// The moment of a text of the form, in range or not.
fn instant(text: &[u8]) -> Option<i64>
    ensures { result ≡ instant_of text.now }
{
    if text.len() < 19 {
        return None;
    }
    let Ok(day) = read_date(&text[..10]) else {
        return None;
    };
    let clock = clock(&text[10..19])?;
    let rest = tail(&text[19..])?;
    Some(i64::from(day.number()) * DAY + i64::from(clock) + rest)
}

/// The milliseconds since midnight of `Thh:mm:ss`.
fn clock(text: &[u8]) -> Option<u32>
    ensures value { result ≡ clock_of text.now }
    ensures bound { IfSome result (λ ms. ms < 86_400_000) }
{
    if !fits(b"Tdd:dd:dd", text) {
        return None;
    }
    let hour = number(&text[1..3]);
    let minute = number(&text[4..6]);
    let second = number(&text[7..9]);
    clock_millis(hour, minute, second)
}

/// The milliseconds since midnight of a time that a clock shows, with no leap second.
fn clock_millis(hour: u32, minute: u32, second: u32) -> Option<u32>
    ensures value { result ≡ clock_millis hour minute second }
    ensures bound { IfSome result (λ ms. ms < 86_400_000) }
{
    if hour > 23 || minute > 59 || second > 59 {
        return None;
    }
    Some(hour * HOUR + minute * MINUTE + second * SECOND)
}

/// The milliseconds of what follows the seconds: a fraction or none, and a zone, which counts
/// against them.
fn tail(text: &[u8]) -> Option<i64>
    ensures value { result ≡ tail_of text.now }
    ensures bound { IfSome result (IsWithin 86_400_999) }
{
    if text.starts_with(b".") {
        return fraction(&text[1..]);
    }
    let ahead = zone(text)?;
    Some(-ahead)
}

/// The milliseconds of a fraction's digits, less those by which the zone after them is ahead.
fn fraction(text: &[u8]) -> Option<i64>
    ensures value { result ≡ fraction_of text.now }
    ensures bound { IfSome result (IsWithin 86_400_999) }
{
    let (digits, rest) = text.split_at(leading_digits(text));
    let ms = fraction_millis(digits)?;
    let ahead = zone(rest)?;
    Some(i64::from(ms) - ahead)
}

/// How many digits a text begins with.
fn leading_digits(text: &[u8]) -> usize
    ensures value { result ≡ prefix_len is_ascii_digit text.now }
    ensures bound { result ≤ length text.now }
{
    for (i, byte) in text.iter().enumerate() {
        if !byte.is_ascii_digit() {
            return i;
        }
    }
    text.len()
}

/// The milliseconds of a fraction's digits.
fn fraction_millis(digits: &[u8]) -> Option<u32>
    requires { AllDigits 10 digits.now }
    ensures value { result ≡ fraction_millis digits.now }
    ensures bound { IfSome result (λ ms. ms < 1_000) }
{
    match digits.len() {
        1 => Some(number(digits) * 100),
        2 => Some(number(digits) * 10),
        3..=9 => Some(number(&digits[..3])),
        _ => None,
    }
}

/// The milliseconds by which the time of a zone is ahead of UTC.
fn zone(text: &[u8]) -> Option<i64>
    ensures value { result ≡ zone_of text.now }
    ensures bound { IfSome result (IsWithin 86_400_000) }
{
    if fits(b"Z", text) {
        return Some(0);
    }
    if fits(b"+dd:dd", text) {
        let ahead = offset(text)?;
        return Some(i64::from(ahead));
    }
    if fits(b"-dd:dd", text) {
        let behind = offset(text)?;
        return Some(-i64::from(behind));
    }
    None
}

/// The milliseconds of the `hh:mm` that follows a sign.
fn offset(text: &[u8]) -> Option<u32>
    requires len { length text.now ≡ 6 }
    requires hour { AllDigits 10 (slice_range text.now 1 3) }
    requires minute { AllDigits 10 (slice_range text.now 4 6) }
    ensures value { result ≡ offset_of text.now }
    ensures bound { IfSome result (λ ms. ms < 86_400_000) }
{
    clock_millis(number(&text[1..3]), number(&text[4..6]), 0)
}
