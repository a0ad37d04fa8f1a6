ghost use Rattle.std.specs.Prelude.{◌≡◌, ◌<◌, ◌≤◌, ◌+◌, IfOk, IfSome, drop, take, true, false, length, slice_index};
ghost use Rattle.std.specs.List.{prefix_len};
ghost use Rattle.std.specs.Char.{is_ascii_digit};
ghost use Rattle.expr_parse.specs.Tokens.{is_blank, begins_word, goes_on_word, decimal, number_kind, word_kind};
ghost use Rattle.expr_parse.specs.Tokens.{closing_quote, plain, quoted, quoted_token, symbol, front_token, lexeme};

use crate::token::{Kind, Lexeme};
use cell_core::MAX_INTEGER;
use plain_data::{Memory, Text};
use plan_types::BinaryOp;
use std::alloc::Global;

/// The greatest number, 2^53-1.
const MAX_NUMBER: u64 = MAX_INTEGER as u64;

/// A space, a tab, a line feed or a carriage return.
pub fn is_blank(byte: u8) -> bool
    ensures { result ≡ is_blank byte }
{
    byte == b' ' || byte == b'\t' || byte == b'\n' || byte == b'\r'
}

fn begins_word(byte: u8) -> bool
    ensures { result ≡ begins_word byte }
{
    byte.is_ascii_alphabetic() || byte == b'_'
}

fn goes_on_word(byte: u8) -> bool
    ensures { result ≡ goes_on_word byte }
{
    byte.is_ascii_alphanumeric() || byte == b'_'
}

fn digits_len(bytes: &[u8]) -> usize
    ensures value { result ≡ prefix_len is_ascii_digit bytes.now }
    ensures within { result ≤ length bytes.now }
{
    let mut len = 0;
    for byte in bytes {
        if !byte.is_ascii_digit() {
            break;
        }
        len += 1;
    }
    len
}

fn word_len(bytes: &[u8]) -> usize
    ensures value { result ≡ prefix_len goes_on_word bytes.now }
    ensures within { result ≤ length bytes.now }
{
    let mut len = 0;
    for byte in bytes {
        if !goes_on_word(*byte) {
            break;
        }
        len += 1;
    }
    len
}

#[tactic(auto, unfolding(crate::specs::Tokens::number_kind))]
fn number_kind(digits: &[u8]) -> Kind
    ensures { result ≡ number_kind digits.now }
{
    let mut number: u64 = 0;
    for digit in digits {
        if number <= MAX_NUMBER {
            number = number * 10 + digit.saturating_sub(b'0') as u64;
        }
    }
    if number <= MAX_NUMBER {
        Kind::Number(number as i64)
    } else {
        Kind::TooLarge
    }
}

#[tactic(auto, unfolding(crate::specs::Tokens::word_kind))]
fn word_kind(alloc: Global, word: &str) -> Result<Kind, Memory>
    ensures { IfOk result (λ k. k ≡ word_kind word.now) }
{
    match word {
        "or" => Ok(Kind::Operator(BinaryOp::Or)),
        "and" => Ok(Kind::Operator(BinaryOp::And)),
        "not" => Ok(Kind::Not),
        "true" => Ok(Kind::Truth(true)),
        "false" => Ok(Kind::Truth(false)),
        _ => Ok(Kind::Name(Text::from_str(alloc, word)?)),
    }
}

/// The place of the closing quote among the bytes behind the opening one.
#[tactic(auto, unfolding(crate::specs::Tokens::closing_quote))]
fn closing_quote(bytes: &[u8], quote: u8) -> Option<usize>
    ensures value { result ≡ closing_quote quote false 0 bytes.now }
    ensures within { IfSome result (λ n. n < length bytes.now) }
    ensures found { IfSome result (λ n. slice_index bytes.now n ≡ quote) }
{
    let mut escaped = false;
    for (at, byte) in bytes.iter().enumerate() {
        if escaped {
            if *byte != quote && *byte != b'\\' {
                return None;
            }
            escaped = false;
        } else if *byte == quote {
            return Some(at);
        } else {
            escaped = *byte == b'\\';
        }
    }
    None
}

#[tactic(auto, unfolding(crate::specs::Tokens::plain))]
fn plain_bytes(alloc: Global, bytes: &[u8]) -> Result<Vec<u8>, Memory>
    ensures { IfOk result (λ v. v.items ≡ plain false bytes.now) }
{
    let mut plain = Vec::new(alloc);
    let mut escaped = false;
    for byte in bytes {
        if !escaped && *byte == b'\\' {
            escaped = true;
        } else {
            plain.push(*byte)?;
            escaped = false;
        }
    }
    Ok(plain)
}

/// The text between quotes, each escape undone.
fn plain(alloc: Global, text: &str) -> Result<Text, Memory>
    ensures { IfOk result (λ t. t ≡ plain false text.now) }
{
    let bytes = plain_bytes(alloc, text.as_bytes())?;
    Ok(Text::from_string(String::from_utf8(bytes).unwrap()))
}

fn one(kind: Kind) -> Lexeme
    ensures { result ≡ lexeme kind 1 }
{
    Lexeme { kind, length: 1 }
}

fn two(kind: Kind) -> Lexeme
    ensures { result ≡ lexeme kind 2 }
{
    Lexeme { kind, length: 2 }
}

/// The longest token that begins with these two bytes, of which the second is 0 where there is none.
#[tactic(auto, unfolding(crate::specs::Tokens::symbol))]
fn symbol(byte: u8, next: u8) -> Lexeme
    ensures value { result ≡ symbol byte next }
    ensures some { 1 ≤ result.length }
    ensures most { result.length ≤ 2 }
    ensures second { 1 < result.length → next ≡ 61 }
{
    match byte {
        b'(' => one(Kind::Open),
        b')' => one(Kind::Close),
        b',' => one(Kind::Comma),
        b'+' => one(Kind::Operator(BinaryOp::Plus)),
        b'-' => one(Kind::Operator(BinaryOp::Minus)),
        b'*' => one(Kind::Operator(BinaryOp::Times)),
        b'/' => one(Kind::Operator(BinaryOp::Quotient)),
        b'%' => one(Kind::Operator(BinaryOp::Rest)),
        b'=' if next == b'=' => two(Kind::Operator(BinaryOp::Equal)),
        b'!' if next == b'=' => two(Kind::Operator(BinaryOp::Unequal)),
        b'<' if next == b'=' => two(Kind::Operator(BinaryOp::AtMost)),
        b'<' => one(Kind::Operator(BinaryOp::Less)),
        b'>' if next == b'=' => two(Kind::Operator(BinaryOp::AtLeast)),
        b'>' => one(Kind::Operator(BinaryOp::Greater)),
        _ => one(Kind::Bad),
    }
}

#[tactic(auto, using(crate::proofs::Words::prefix_some))]
fn number_at(bytes: &[u8]) -> Lexeme
    requires some { 0 < length bytes.now }
    requires begins { is_ascii_digit (slice_index bytes.now 0) ≡ true }
    ensures some { 1 ≤ result.length }
    ensures within { result.length ≤ length bytes.now }
    ensures value { result ≡ lexeme
        (number_kind (take (prefix_len is_ascii_digit bytes.now) bytes.now))
        (prefix_len is_ascii_digit bytes.now) }
{
    let length = digits_len(bytes);
    Lexeme {
        kind: number_kind(&bytes[..length]),
        length,
    }
}

fn word_at(alloc: Global, text: &str, at: usize) -> Result<Lexeme, Memory>
    requires within { at < length text.now }
    requires begins { begins_word (slice_index text.now at) ≡ true }
    ensures size { IfOk result (λ l. (1 ≤ l.length) × (at + l.length ≤ length text.now)) }
    ensures value { IfOk result (λ l. l ≡ lexeme
        (word_kind (take (prefix_len goes_on_word (drop at text.now)) (drop at text.now)))
        (prefix_len goes_on_word (drop at text.now))) }
{
    let length = word_len(&text.as_bytes()[at..]);
    let kind = word_kind(alloc, &text[at..at + length])?;
    Ok(Lexeme { kind, length })
}

/// What stands between quotes of which the first is at that place, and how many bytes they take with it.
#[tactic(auto, unfolding(crate::specs::Tokens::quoted))]
fn quoted_at(
    alloc: Global,
    text: &str,
    at: usize,
    quote: u8,
) -> Result<Option<(Text, usize)>, Memory>
    requires within { at < length text.now }
    requires opens { slice_index text.now at ≡ quote }
    requires ascii { quote < 128 }
    ensures size { IfOk result (λ q. IfSome q (λ p. (1 ≤ p.1) × (at + p.1 ≤ length text.now))) }
    ensures value { IfOk result (λ q. q ≡ quoted quote (drop (at + 1) text.now)) }
{
    let start = at + 1;
    let Some(length) = closing_quote(&text.as_bytes()[start..], quote) else {
        return Ok(None);
    };
    let inner = plain(alloc, &text[start..start + length])?;
    Ok(Some((inner, length + 2)))
}

/// The byte at that place, and 0 past the end.
fn byte_at(bytes: &[u8], at: usize) -> u8
    ensures value { result ≡ slice_index bytes.now at }
    ensures within { 0 < result → at < length bytes.now }
{
    match bytes.get(at) {
        Some(byte) => *byte,
        None => 0,
    }
}

/// The longest token at that place.
#[tactic(auto, unfolding(crate::specs::Tokens::front_token))]
pub fn token_at(alloc: Global, text: &str, at: usize) -> Result<Lexeme, Memory>
    requires { at < length text.now }
    ensures size { IfOk result (λ l. (1 ≤ l.length) × (at + l.length ≤ length text.now)) }
    ensures value { IfOk result (λ l. l ≡ front_token (slice_index text.now at) (drop at text.now)) }
{
    let bytes = text.as_bytes();
    let first = bytes[at];
    if first.is_ascii_digit() {
        return Ok(number_at(&bytes[at..]));
    }
    if begins_word(first) {
        return word_at(alloc, text, at);
    }
    if first == b'"' {
        return column_at(alloc, text, at);
    }
    if first == b'\'' {
        return words_at(alloc, text, at);
    }
    Ok(symbol(first, byte_at(bytes, at + 1)))
}

fn column_at(alloc: Global, text: &str, at: usize) -> Result<Lexeme, Memory>
    requires within { at < length text.now }
    requires opens { slice_index text.now at ≡ 34 }
    ensures size { IfOk result (λ l. (1 ≤ l.length) × (at + l.length ≤ length text.now)) }
    ensures value { IfOk result (λ l. l ≡ quoted_token Kind.Column (quoted 34 (drop (at + 1) text.now))) }
{
    match quoted_at(alloc, text, at, b'"')? {
        Some((name, length)) => Ok(Lexeme {
            kind: Kind::Column(name),
            length,
        }),
        None => Ok(one(Kind::Bad)),
    }
}

fn words_at(alloc: Global, text: &str, at: usize) -> Result<Lexeme, Memory>
    requires within { at < length text.now }
    requires opens { slice_index text.now at ≡ 39 }
    ensures size { IfOk result (λ l. (1 ≤ l.length) × (at + l.length ≤ length text.now)) }
    ensures value { IfOk result (λ l. l ≡ quoted_token Kind.Words (quoted 39 (drop (at + 1) text.now))) }
{
    match quoted_at(alloc, text, at, b'\'')? {
        Some((words, length)) => Ok(Lexeme {
            kind: Kind::Words(words),
            length,
        }),
        None => Ok(one(Kind::Bad)),
    }
}
