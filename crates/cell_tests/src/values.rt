use cal_units::{Day, FIRST_MOMENT, LAST_DAY, Moment};
use plain_data::{Copies, Memory, Text};
use std::alloc::Global;
use std::test::Fail;
use value_core::{Fraction, Value};

/// The value of that place in an ascending list.
fn ascending(alloc: Global, place: u8) -> Result<Value, Memory> {
    Ok(match place {
        0 => Value::Bool(false),
        1 => Value::Bool(true),
        2 => Value::Whole(-(1 << 69)),
        3 => Value::Whole(3),
        4 => Value::Fraction(Fraction::reduced(-1, 2)),
        5 => Value::Fraction(Fraction::reduced(7, 3)),
        6 => Value::Date(Day::of(LAST_DAY)),
        7 => Value::Moment(Moment::of(FIRST_MOMENT)),
        8 => Value::Words(Text::from_str(alloc, "Z")?),
        _ => Value::Words(Text::from_str(alloc, "a")?),
    })
}

/// Whether a value stands before the next, and is equal to its copy.
fn stands_before(alloc: Global, place: u8, next: u8) -> Result<bool, Memory> {
    let value = ascending(alloc, place)?;
    Ok(value < ascending(alloc, next)? && value.copy(alloc)? == value)
}

#[test]
fn each_value_stands_before_the_next(rt: HostRuntime) -> Result<(), Fail> {
    for place in 0u8..9 {
        assert!(rt; stands_before(rt.alloc(), place, place + 1)?, "{place}");
    }
    Ok(())
}

const REACH: i128 = 1 << 100;

#[test]
fn fractions_are_reduced_and_ordered(rt: HostRuntime) {
    assert_eq!(rt; Fraction::reduced(-6, 4), Fraction::reduced(-3, 2));
    assert_eq!(rt; Fraction::reduced(0, 5).d, 1);
    let least = Fraction::reduced(1 - REACH, REACH);
    assert!(rt; least < Fraction::reduced(2 - REACH, REACH - 1));
    assert!(rt; Fraction::reduced(7, 3) < Fraction::reduced(5, 2));
}
