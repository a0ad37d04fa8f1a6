ghost use Rattle.std.specs.Prelude.{◌≡◌, ◌||◌, Some, None, if◌then◌else◌};
ghost use Rattle.cell_core.specs.Cells.{cell_order, is_null};
ghost use Rattle.expr_eval.specs.Answers.{truth_or_null};
ghost use Rattle.expr_spec.specs.Values.{unary_value, binary_value, and_value, or_value};

use crate::numbers::{difference, product, quotient, rest, sum, whole};
use cell_core::Cell;
use plan_types::{BinaryOp, UnaryOp};
use std::cmp::Ordering;

pub fn unary(op: UnaryOp, a: &Cell) -> Cell
    ensures { result ≡ unary_value op a.now }
{
    match (op, a) {
        (UnaryOp::Not, Cell::Bool(truth)) => Cell::Bool(!*truth),
        (UnaryOp::Minus, Cell::Int(number)) => whole(-i128::from(*number)),
        _ => Cell::Null,
    }
}

pub fn binary(op: BinaryOp, a: &Cell, b: &Cell) -> Cell
    ensures { result ≡ binary_value op a.now b.now }
{
    match op {
        BinaryOp::Or => or(a, b),
        BinaryOp::And => and(a, b),
        BinaryOp::Equal => truth(order_of(a, b).map(|order| order.is_eq())),
        BinaryOp::Unequal => truth(order_of(a, b).map(|order| order.is_ne())),
        BinaryOp::Less => truth(order_of(a, b).map(|order| order.is_lt())),
        BinaryOp::AtMost => truth(order_of(a, b).map(|order| order.is_le())),
        BinaryOp::Greater => truth(order_of(a, b).map(|order| order.is_gt())),
        BinaryOp::AtLeast => truth(order_of(a, b).map(|order| order.is_ge())),
        BinaryOp::Plus => sum(a, b),
        BinaryOp::Minus => difference(a, b),
        BinaryOp::Times => product(a, b),
        BinaryOp::Quotient => quotient(a, b),
        BinaryOp::Rest => rest(a, b),
    }
}

/// True decides; else null where one is null.
fn or(a: &Cell, b: &Cell) -> Cell
    ensures { result ≡ or_value a.now b.now }
{
    match (a, b) {
        (Cell::Bool(true), _) => Cell::Bool(true),
        (_, Cell::Bool(true)) => Cell::Bool(true),
        (Cell::Bool(false), Cell::Bool(false)) => Cell::Bool(false),
        _ => Cell::Null,
    }
}

/// False decides; else null where one is null.
fn and(a: &Cell, b: &Cell) -> Cell
    ensures { result ≡ and_value a.now b.now }
{
    match (a, b) {
        (Cell::Bool(false), _) => Cell::Bool(false),
        (_, Cell::Bool(false)) => Cell::Bool(false),
        (Cell::Bool(true), Cell::Bool(true)) => Cell::Bool(true),
        _ => Cell::Null,
    }
}

/// How two cells lie in the order of cells, where neither is null.
fn order_of(a: &Cell, b: &Cell) -> Option<Ordering>
    ensures { result ≡ (if is_null a.now || is_null b.now then None else Some (cell_order a.now b.now)) }
{
    match (a, b) {
        (Cell::Null, _) | (_, Cell::Null) => None,
        _ => Some(a.order(b)),
    }
}

/// A truth that is known, or null.
fn truth(known: Option<bool>) -> Cell
    ensures { result ≡ truth_or_null known }
{
    match known {
        Some(truth) => Cell::Bool(truth),
        None => Cell::Null,
    }
}
