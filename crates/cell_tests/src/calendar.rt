use cal_units::{
    Day, FIRST_MOMENT, LAST_MOMENT, Moment, MomentRefused, NotADate, Unit, bucket_date,
    bucket_moment, date_parts, read_date, read_moment, write_date,
};

fn day_read(text: &str) -> Result<i32, NotADate> {
    Ok(read_date(text.as_bytes())?.number())
}

#[test]
fn dates_are_read(rt: HostRuntime) {
    let dates = [
        ("1970-01-01", Ok(0)),
        ("1969-12-31", Ok(-1)),
        ("2024-02-29", Ok(19_782)),
        ("2000-02-29", Ok(11_016)),
        ("1900-02-28", Ok(-25_509)),
        ("0001-01-01", Ok(-719_162)),
        ("9999-12-31", Ok(2_932_896)),
        ("", Err(NotADate)),
        ("2023-02-29", Err(NotADate)),
        ("1900-02-29", Err(NotADate)),
        ("0000-12-31", Err(NotADate)),
        ("2024-13-01", Err(NotADate)),
        ("2024-01-00", Err(NotADate)),
        ("2024-04-31", Err(NotADate)),
        ("2024-1-01", Err(NotADate)),
        ("20240101", Err(NotADate)),
        ("2024-01-01 ", Err(NotADate)),
        ("2024/01/01", Err(NotADate)),
        ("12024-01-01", Err(NotADate)),
    ];
    for (text, want) in dates {
        assert_eq!(rt; day_read(text), want, "{text}");
    }
}

fn is_written(number: i64, text: &str) -> bool {
    match Day::try_of(number) {
        Some(day) => write_date(day).as_slice() == text.as_bytes(),
        None => false,
    }
}

#[test]
fn dates_are_written(rt: HostRuntime) {
    for (number, text) in [
        (19_782, "2024-02-29"),
        (-719_162, "0001-01-01"),
        (2_932_896, "9999-12-31"),
    ] {
        assert!(rt; is_written(number, text), "{text}");
    }
}

fn moment_read(text: &str) -> Result<i64, MomentRefused> {
    Ok(read_moment(text.as_bytes())?.number())
}

#[test]
fn moments_are_read(rt: HostRuntime) {
    let moments = [
        ("1970-01-01T00:00:00Z", Ok(0)),
        ("2024-02-29T13:05:07.1239Z", Ok(1_709_211_907_123)),
        ("2024-02-29T13:05:07.12Z", Ok(1_709_211_907_120)),
        ("2024-02-29T13:05:07.1Z", Ok(1_709_211_907_100)),
        ("2024-02-29T14:35:07.123999999+01:30", Ok(1_709_211_907_123)),
        ("2024-02-29T11:05:07-02:00", Ok(1_709_211_907_000)),
        ("1969-12-31T23:59:59.999Z", Ok(-1)),
        ("0001-01-01T00:00:00.5Z", Ok(-62_135_596_799_500)),
        ("0001-01-01T23:59:00+23:59", Ok(FIRST_MOMENT)),
        ("9999-12-31T00:00:59.999-23:59", Ok(LAST_MOMENT)),
        ("2023-02-29T00:00:00Z", Err(MomentRefused::NotAMoment)),
        ("2024-02-29T24:00:00Z", Err(MomentRefused::NotAMoment)),
        ("2016-12-31T23:59:60Z", Err(MomentRefused::NotAMoment)),
        ("2024-02-29 00:00:00Z", Err(MomentRefused::NotAMoment)),
        ("2024-02-29t00:00:00z", Err(MomentRefused::NotAMoment)),
        ("2024-02-29T00:00:00", Err(MomentRefused::NotAMoment)),
        ("2024-02-29T00:00:00.Z", Err(MomentRefused::NotAMoment)),
        (
            "2024-02-29T00:00:00.1234567890Z",
            Err(MomentRefused::NotAMoment),
        ),
        ("2024-02-29T00:00:00,5Z", Err(MomentRefused::NotAMoment)),
        ("2024-02-29T00:00:00+24:00", Err(MomentRefused::NotAMoment)),
        ("2024-02-29T00:00:00+0000", Err(MomentRefused::NotAMoment)),
        ("2024-02-29T00:00:00Z ", Err(MomentRefused::NotAMoment)),
        ("2024-02-29", Err(MomentRefused::NotAMoment)),
        ("0001-01-01T00:00:00+00:01", Err(MomentRefused::OutOfRange)),
        ("9999-12-31T00:01:00-23:59", Err(MomentRefused::OutOfRange)),
    ];
    for (text, want) in moments {
        assert_eq!(rt; moment_read(text), want, "{text}");
    }
}

/// The first days of the year, the month and the week that a day lies in.
fn day_starts(number: i64) -> Option<(i32, i32, i32)> {
    let day = Day::try_of(number)?;
    let year = bucket_date(day, Unit::Y).number();
    let month = bucket_date(day, Unit::M).number();
    Some((year, month, bucket_date(day, Unit::W).number()))
}

#[test]
fn buckets_of_days_begin_at_their_units(rt: HostRuntime) {
    let days = [
        (19_782, (19_723, 19_754, 19_779)),
        (-1, (-365, -31, -3)),
        (-719_162, (-719_162, -719_162, -719_162)),
    ];
    for (number, starts) in days {
        assert_eq!(rt; day_starts(number), Some(starts), "{number}");
    }
    let parts = date_parts(Day::of(19_782));
    assert_eq!(rt; (parts.year, parts.month, parts.day), (2024, 2, 29));
}

fn moment_start(number: i64, unit: Unit) -> Option<i64> {
    Some(bucket_moment(Moment::try_of(number)?, unit).number())
}

#[test]
fn buckets_of_moments_begin_at_their_units(rt: HostRuntime) {
    let moments = [
        (1_709_211_907_123, Unit::M, 1_706_745_600_000),
        (1_709_211_907_123, Unit::D, 1_709_164_800_000),
        (1_709_211_907_123, Unit::H, 1_709_211_600_000),
        (1_709_211_907_123, Unit::Min, 1_709_211_900_000),
        (-1, Unit::S, -1_000),
        (-1, Unit::Y, -31_536_000_000),
        (FIRST_MOMENT, Unit::W, FIRST_MOMENT),
    ];
    for (number, unit, start) in moments {
        assert_eq!(rt; moment_start(number, unit), Some(start), "{number}");
    }
}
