ghost use Rattle.std.specs.Prelude.{◌≡◌, Some, None};
ghost use Rattle.expr_spec.specs.Typing.{same_kind, of_one, of_two, compared_kind, unary_kind, binary_kind};
ghost use Rattle.expr_spec.specs.Typing.{takes_one, takes_two, takes_any, if_kind, bucket_kind, call_kind};
ghost use Rattle.plan_check.specs.Kinds.{list_of, with_kind};

use cell_core::CellType;
use expr_spec::Function;
use plan_types::{BinaryOp, UnaryOp};

/// The types of a call's arguments. No function takes more than three.
#[derive(Clone, Copy, Debug, Drop)]
pub enum Kinds {
    Zero,
    One(CellType),
    Two(CellType, CellType),
    Three(CellType, CellType, CellType),
    More,
}

impl Kinds {
    /// These types, and one more.
    pub fn with(self, kind: CellType) -> Kinds
        ensures { result ≡ with_kind self kind }
    {
        match self {
            Kinds::Zero => Kinds::One(kind),
            Kinds::One(a) => Kinds::Two(a, kind),
            Kinds::Two(a, b) => Kinds::Three(a, b, kind),
            Kinds::Three(_, _, _) | Kinds::More => Kinds::More,
        }
    }
}

fn same(a: CellType, b: CellType) -> bool
    ensures { result ≡ same_kind a b }
{
    match a {
        CellType::Integer => matches!(b, CellType::Integer),
        CellType::Boolean => matches!(b, CellType::Boolean),
        CellType::Date => matches!(b, CellType::Date),
        CellType::Moment => matches!(b, CellType::Moment),
        CellType::Words => matches!(b, CellType::Words),
    }
}

fn of_one(want: CellType, gives: CellType, a: CellType) -> Option<CellType>
    ensures { result ≡ of_one want gives a }
{
    if same(a, want) { Some(gives) } else { None }
}

fn of_two(want: CellType, gives: CellType, a: CellType, b: CellType) -> Option<CellType>
    ensures { result ≡ of_two want gives a b }
{
    if same(a, want) && same(b, want) {
        Some(gives)
    } else {
        None
    }
}

fn compared(a: CellType, b: CellType) -> Option<CellType>
    ensures { result ≡ compared_kind a b }
{
    if same(a, b) {
        Some(CellType::Boolean)
    } else {
        None
    }
}

pub fn unary_kind(op: UnaryOp, a: CellType) -> Option<CellType>
    ensures { result ≡ unary_kind op a }
{
    match op {
        UnaryOp::Not => of_one(CellType::Boolean, CellType::Boolean, a),
        UnaryOp::Minus => of_one(CellType::Integer, CellType::Integer, a),
    }
}

pub fn binary_kind(op: BinaryOp, a: CellType, b: CellType) -> Option<CellType>
    ensures { result ≡ binary_kind op a b }
{
    match op {
        BinaryOp::Or | BinaryOp::And => of_two(CellType::Boolean, CellType::Boolean, a, b),
        BinaryOp::Equal
        | BinaryOp::Unequal
        | BinaryOp::Less
        | BinaryOp::AtMost
        | BinaryOp::Greater
        | BinaryOp::AtLeast => compared(a, b),
        BinaryOp::Plus | BinaryOp::Minus | BinaryOp::Times | BinaryOp::Quotient | BinaryOp::Rest =>
            of_two(CellType::Integer, CellType::Integer, a, b),
    }
}

/// The type of a call, where its arguments have types that the function takes.
pub fn call_kind(function: Function, kinds: Kinds) -> Option<CellType>
    ensures { result ≡ call_kind function (list_of kinds) }
{
    match function {
        Function::Abs => takes_one(CellType::Integer, CellType::Integer, kinds),
        Function::Min | Function::Max => takes_two(CellType::Integer, CellType::Integer, kinds),
        Function::If => if_kind(kinds),
        Function::IsNull | Function::IsNotNull => takes_any(kinds),
        Function::Length => takes_one(CellType::Words, CellType::Integer, kinds),
        Function::Concat => takes_two(CellType::Words, CellType::Words, kinds),
        Function::Contains | Function::Begins | Function::Ends => {
            takes_two(CellType::Words, CellType::Boolean, kinds)
        }
        Function::Bucket => bucket_kind(kinds),
        Function::Year | Function::Month | Function::Day => {
            takes_one(CellType::Date, CellType::Integer, kinds)
        }
        Function::DateOf => takes_one(CellType::Moment, CellType::Date, kinds),
        Function::Hour => takes_one(CellType::Moment, CellType::Integer, kinds),
    }
}

fn takes_one(want: CellType, gives: CellType, kinds: Kinds) -> Option<CellType>
    ensures { result ≡ takes_one want gives (list_of kinds) }
{
    match kinds {
        Kinds::One(a) => of_one(want, gives, a),
        _ => None,
    }
}

fn takes_two(want: CellType, gives: CellType, kinds: Kinds) -> Option<CellType>
    ensures { result ≡ takes_two want gives (list_of kinds) }
{
    match kinds {
        Kinds::Two(a, b) => of_two(want, gives, a, b),
        _ => None,
    }
}

fn takes_any(kinds: Kinds) -> Option<CellType>
    ensures { result ≡ takes_any (list_of kinds) }
{
    match kinds {
        Kinds::One(_) => Some(CellType::Boolean),
        _ => None,
    }
}

fn if_kind(kinds: Kinds) -> Option<CellType>
    ensures { result ≡ if_kind (list_of kinds) }
{
    match kinds {
        Kinds::Three(CellType::Boolean, a, b) if same(a, b) => Some(a),
        _ => None,
    }
}

fn bucket_kind(kinds: Kinds) -> Option<CellType>
    ensures { result ≡ bucket_kind (list_of kinds) }
{
    match kinds {
        Kinds::Two(CellType::Integer, _) => Some(CellType::Integer),
        Kinds::Two(CellType::Date, _) => Some(CellType::Date),
        Kinds::Two(CellType::Moment, _) => Some(CellType::Moment),
        _ => None,
    }
}
