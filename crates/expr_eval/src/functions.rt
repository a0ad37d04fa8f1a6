ghost use Rattle.std.specs.Prelude.{◌≡◌, IfOk};
ghost use Rattle.expr_spec.specs.Values.{one_value, two_value, three_value, function_value, if_value};

use crate::calendar::{bucket, date_of, day, hour, month, year};
use crate::numbers::{absolute, greatest, least};
use crate::texts::{begins, characters, contains, ends, joined};
use cell_core::{Cell, Copies, Memory};
use expr_spec::Function;
use std::alloc::Global;

/// The value of a function at the values of its arguments, and null where it doesn't take so many.
pub fn function_value(alloc: Global, function: Function, cells: &[Cell]) -> Result<Cell, Memory>
    ensures { IfOk result (λ value. value ≡ function_value function cells.now) }
{
    match cells {
        [a] => Ok(one(function, a)),
        [a, b] => two(alloc, function, a, b),
        [condition, a, b] => three(alloc, function, condition, a, b),
        _ => Ok(Cell::Null),
    }
}

fn one(function: Function, a: &Cell) -> Cell
    ensures { result ≡ one_value function a.now }
{
    match function {
        Function::Abs => absolute(a),
        Function::IsNull => Cell::Bool(a.is_null()),
        Function::IsNotNull => Cell::Bool(!a.is_null()),
        Function::Length => characters(a),
        Function::Year => year(a),
        Function::Month => month(a),
        Function::Day => day(a),
        Function::DateOf => date_of(a),
        Function::Hour => hour(a),
        _ => Cell::Null,
    }
}

fn two(alloc: Global, function: Function, a: &Cell, b: &Cell) -> Result<Cell, Memory>
    ensures { IfOk result (λ value. value ≡ two_value function a.now b.now) }
{
    match function {
        Function::Min => Ok(least(a, b)),
        Function::Max => Ok(greatest(a, b)),
        Function::Concat => joined(alloc, a, b),
        Function::Contains => Ok(contains(a, b)),
        Function::Begins => Ok(begins(a, b)),
        Function::Ends => Ok(ends(a, b)),
        Function::Bucket => Ok(bucket(a, b)),
        _ => Ok(Cell::Null),
    }
}

fn three(
    alloc: Global,
    function: Function,
    condition: &Cell,
    a: &Cell,
    b: &Cell,
) -> Result<Cell, Memory>
    ensures { IfOk result (λ value. value ≡ three_value function condition.now a.now b.now) }
{
    match (function, condition) {
        (Function::If, Cell::Bool(true)) => a.copy(alloc),
        (Function::If, _) => b.copy(alloc),
        _ => Ok(Cell::Null),
    }
}
