ghost use Rattle.std.specs.Prelude.{◌≡◌, ◌≤◌, nat_eq, length, IfOk};
ghost use Rattle.std.specs.Str.{chars};
ghost use Rattle.std.specs.List.{starts_with, ends_with};
ghost use Rattle.expr_spec.specs.Values.{on_text, on_texts, length_value, concat_value, stands_within};

use cell_core::{Cell, MAX_TEXT, Memory, Text};
use std::alloc::Global;

/// The number of characters (Unicode scalar values).
pub fn characters(a: &Cell) -> Cell
    ensures { result ≡ on_text length_value a.now }
{
    match a {
        Cell::Words(text) => Cell::Int(char_count(text.as_str()) as i64),
        _ => Cell::Null,
    }
}

fn char_count(text: &str) -> usize
    ensures value { result ≡ length (chars text.now) }
    ensures bound { result ≤ length text.now }
{
    text.chars().count()
}

/// Both texts joined, and null where that has more bytes than a cell's text may have.
pub fn joined(alloc: Global, a: &Cell, b: &Cell) -> Result<Cell, Memory>
    ensures { IfOk result (λ value. value ≡ on_texts concat_value a.now b.now) }
{
    match (a, b) {
        (Cell::Words(a), Cell::Words(b)) => joined_texts(alloc, a.as_str(), b.as_str()),
        _ => Ok(Cell::Null),
    }
}

fn joined_texts(alloc: Global, a: &str, b: &str) -> Result<Cell, Memory>
    ensures { IfOk result (λ value. value ≡ concat_value a.now b.now) }
{
    if a.len() + b.len() > MAX_TEXT {
        return Ok(Cell::Null);
    }
    let mut joined = String::from_str(alloc, a)?;
    joined.push_str(b)?;
    Ok(Cell::Words(Text::from_string(joined)))
}

/// Whether `b` stands within `a`, by bytes.
pub fn contains(a: &Cell, b: &Cell) -> Cell
    ensures { result ≡ on_texts (λ s t. Cell.Bool (stands_within t s)) a.now b.now }
{
    match (a, b) {
        (Cell::Words(a), Cell::Words(b)) => Cell::Bool(stands_within(b.as_str(), a.as_str())),
        _ => Cell::Null,
    }
}

fn stands_within(part: &str, text: &str) -> bool
    ensures { result ≡ stands_within part.now text.now }
{
    text.contains(part)
}

/// Whether `a` begins with `b`, by bytes.
pub fn begins(a: &Cell, b: &Cell) -> Cell
    ensures { result ≡ on_texts (λ s t. Cell.Bool (starts_with nat_eq s t)) a.now b.now }
{
    match (a, b) {
        (Cell::Words(a), Cell::Words(b)) => Cell::Bool(starts_with(a.as_str(), b.as_str())),
        _ => Cell::Null,
    }
}

fn starts_with(text: &str, part: &str) -> bool
    ensures { result ≡ starts_with nat_eq text.now part.now }
{
    text.starts_with(part)
}

/// Whether `a` ends with `b`, by bytes.
pub fn ends(a: &Cell, b: &Cell) -> Cell
    ensures { result ≡ on_texts (λ s t. Cell.Bool (ends_with nat_eq s t)) a.now b.now }
{
    match (a, b) {
        (Cell::Words(a), Cell::Words(b)) => Cell::Bool(ends_with(a.as_str(), b.as_str())),
        _ => Cell::Null,
    }
}

fn ends_with(text: &str, part: &str) -> bool
    ensures { result ≡ ends_with nat_eq text.now part.now }
{
    text.ends_with(part)
}
