ghost use Rattle.std.specs.Prelude.{◌≡◌, pos, ◌+ℤ◌, ◌-ℤ◌, ◌*ℤ◌, ◌<ℤ◌, neg_ℤ, unsigned_abs};
ghost use Rattle.std.specs.Int.{int_min, int_max, int_rem_euclid, IsNonNegative};
ghost use Rattle.expr_spec.specs.Values.{whole, quotient, rest, number_bucket, on_number, on_numbers};

use cell_core::{Cell, is_integer};

/// The number as a cell, and null where it is out of range.
pub fn whole(number: i128) -> Cell
    ensures { result ≡ whole number }
{
    match i64::try_from(number) {
        Ok(number) if is_integer(number) => Cell::Int(number),
        _ => Cell::Null,
    }
}

pub fn sum(a: &Cell, b: &Cell) -> Cell
    ensures { result ≡ on_numbers (λ x y. whole (x +ℤ y)) a.now b.now }
{
    match (a, b) {
        (Cell::Int(a), Cell::Int(b)) => whole(i128::from(*a) + i128::from(*b)),
        _ => Cell::Null,
    }
}

pub fn difference(a: &Cell, b: &Cell) -> Cell
    ensures { result ≡ on_numbers (λ x y. whole (x -ℤ y)) a.now b.now }
{
    match (a, b) {
        (Cell::Int(a), Cell::Int(b)) => whole(i128::from(*a) - i128::from(*b)),
        _ => Cell::Null,
    }
}

pub fn product(a: &Cell, b: &Cell) -> Cell
    ensures { result ≡ on_numbers (λ x y. whole (x *ℤ y)) a.now b.now }
{
    match (a, b) {
        (Cell::Int(a), Cell::Int(b)) => times(*a, *b),
        _ => Cell::Null,
    }
}

// A product that does not fit 64 bits is out of range too.
fn times(a: i64, b: i64) -> Cell
    ensures { result ≡ whole (a *ℤ b) }
{
    match a.checked_mul(b) {
        Some(product) => whole(i128::from(product)),
        None => Cell::Null,
    }
}

pub fn quotient(a: &Cell, b: &Cell) -> Cell
    ensures { result ≡ on_numbers quotient a.now b.now }
{
    match (a, b) {
        (Cell::Int(a), Cell::Int(b)) => floor_quotient(*a, *b),
        _ => Cell::Null,
    }
}

/// The quotient, rounded toward minus infinity. Below zero, a divisor is turned with what it divides.
#[tactic(auto, using(crate::proofs::NumberLemmas::quotient_negative))]
fn floor_quotient(a: i64, b: i64) -> Cell
    ensures { result ≡ quotient a b }
{
    if b > 0 {
        whole(i128::from(a).div_euclid(i128::from(b)))
    } else if b < 0 {
        whole(opposite(a).div_euclid(opposite(b)))
    } else {
        Cell::Null
    }
}

fn opposite(number: i64) -> i128
    ensures { result ≡ neg_ℤ number }
{
    -i128::from(number)
}

pub fn rest(a: &Cell, b: &Cell) -> Cell
    ensures { result ≡ on_numbers rest a.now b.now }
{
    match (a, b) {
        (Cell::Int(a), Cell::Int(b)) => floor_rest(*a, *b),
        _ => Cell::Null,
    }
}

/// What that quotient leaves.
#[tactic(auto, using(crate::proofs::NumberLemmas::rest_positive, crate::proofs::NumberLemmas::rest_negative))]
fn floor_rest(a: i64, b: i64) -> Cell
    ensures { result ≡ rest a b }
{
    if b > 0 {
        whole(i128::from(a).rem_euclid(i128::from(b)))
    } else if b < 0 {
        rest_below(a, b)
    } else {
        Cell::Null
    }
}

/// What the quotient by a divisor below zero leaves, where both are turned.
fn turned_rest(a: i64, b: i64) -> i128
    requires { b <ℤ pos 0 }
    ensures value { result ≡ int_rem_euclid (neg_ℤ a) (neg_ℤ b) }
    ensures low { IsNonNegative result }
{
    opposite(a).rem_euclid(opposite(b))
}

fn rest_below(a: i64, b: i64) -> Cell
    requires { b <ℤ pos 0 }
    ensures { result ≡ whole (neg_ℤ (int_rem_euclid (neg_ℤ a) (neg_ℤ b))) }
{
    whole_below(turned_rest(a, b))
}

/// The number below zero of that size.
fn whole_below(size: i128) -> Cell
    requires { IsNonNegative size }
    ensures { result ≡ whole (neg_ℤ size) }
{
    whole(-size)
}

/// The greatest multiple of `n` that is at most `a`.
pub fn number_bucket(a: i64, n: i64) -> Cell
    ensures { result ≡ number_bucket a n }
{
    if n == 0 {
        return Cell::Null;
    }
    let a = i128::from(a);
    whole(a - a.rem_euclid(i128::from(n)))
}

/// The number without its sign.
pub fn absolute(a: &Cell) -> Cell
    ensures { result ≡ on_number (λ z. whole (pos (unsigned_abs z))) a.now }
{
    match a {
        Cell::Int(number) => whole(i128::from(*number).abs()),
        _ => Cell::Null,
    }
}

pub fn least(a: &Cell, b: &Cell) -> Cell
    ensures { result ≡ on_numbers (λ x y. Cell.Int (int_min x y)) a.now b.now }
{
    match (a, b) {
        (Cell::Int(a), Cell::Int(b)) => Cell::Int((*a).min(*b)),
        _ => Cell::Null,
    }
}

pub fn greatest(a: &Cell, b: &Cell) -> Cell
    ensures { result ≡ on_numbers (λ x y. Cell.Int (int_max x y)) a.now b.now }
{
    match (a, b) {
        (Cell::Int(a), Cell::Int(b)) => Cell::Int((*a).max(*b)),
        _ => Cell::Null,
    }
}
