//! Days, datetimes and their texts, and the buckets of years, months, weeks, days, hours, minutes
//! and seconds that they fall into.
//!
//! Contracts see a `Day` as its day number, counted from 1970-01-01, and a `Moment`, a datetime, as
//! whole milliseconds since 1970-01-01T00:00:00Z; by their types both lie on the days from 0001-01-01
//! to 9999-12-31 of the calendar of ISO 8601. Calendar arithmetic is `jiff`'s.
//!
//! Its callers may rely on this: each text is read exactly, with the day or moment that the
//! definitions `date_of` and `moment_of` give; a date that was written is read back; a bucket is
//! the greatest start of its unit that is not later. No call takes memory.
#![tactic(auto)]

mod buckets;
mod dates;
mod day;
mod digits;
mod moment;
mod moments;

pub use buckets::{Unit, bucket_date, bucket_moment};
pub use dates::{DateParts, NotADate, date_parts, read_date, write_date};
pub use day::{Day, FIRST_DAY, LAST_DAY};
pub use moment::{FIRST_MOMENT, LAST_MOMENT, Moment};
pub use moments::{MomentRefused, read_moment};
