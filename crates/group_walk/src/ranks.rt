ghost use Rattle.std.specs.Prelude.{◌≡◌, IfOk};
ghost use Rattle.place_order.specs.Places.{rank, size_of, size_of_value};
ghost use Rattle.place_order.specs.Sizes.{fraction_size as size_of_fraction};

use cell_core::{Direction, Fraction, Memory, Value};
use place_order::{Rank, RankValue};

/// The rank of a value by a direction. A number whose size is past its type is want of memory; no aggregate gives one.
pub fn rank_of(direction: Direction, value: RankValue) -> Result<Rank, Memory>
    ensures { IfOk result (λ made. made ≡ rank direction value) }
{
    Ok(match direction {
        Direction::Asc => Rank::Asc(value),
        Direction::Desc => Rank::Desc(value),
        Direction::AscAbs => Rank::Asc(size(value)?),
        Direction::DescAbs => Rank::Desc(size(value)?),
    })
}

/// How far a number is from 0; what is no number stays.
fn size(value: RankValue) -> Result<RankValue, Memory>
    ensures { IfOk result (λ size. size ≡ size_of value) }
{
    match value {
        Some(value) => Ok(Some(value_size(value)?)),
        None => Ok(None),
    }
}

fn value_size(value: Value) -> Result<Value, Memory>
    ensures { IfOk result (λ size. size ≡ size_of_value value) }
{
    Ok(match value {
        Value::Whole(number) => {
            if number == i128::MIN {
                return Err(Memory);
            }
            Value::Whole(number.unsigned_abs() as i128)
        }
        Value::Fraction(fraction) => Value::Fraction(fraction_size(fraction)),
        Value::Bool(truth) => Value::Bool(truth),
        Value::Date(day) => Value::Date(day),
        Value::Moment(moment) => Value::Moment(moment),
        Value::Words(words) => Value::Words(words),
    })
}

/// The fraction without its sign.
fn fraction_size(fraction: Fraction) -> Fraction
    ensures { result ≡ size_of_fraction fraction }
{
    Fraction::reduced(fraction.n.unsigned_abs() as i128, fraction.d)
}
