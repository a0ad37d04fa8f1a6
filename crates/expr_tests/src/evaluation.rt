use crate::given::{Given, cell, row, schema, tree};
use cell_core::{Cell, MAX_INTEGER};
use expr_eval::eval;
use plan_check::check_tree;
use plan_types::Tree;
use std::alloc::Global;
use std::test::Fail;

/// The columns of the row on which the expressions are evaluated.
const COLUMNS: &[(&str, &str)] = &[
    ("v", "integer"),
    ("b", "boolean"),
    ("s", "string"),
    ("d", "date"),
    ("e", "date"),
    ("first", "date"),
    ("last", "date"),
    ("t", "datetime"),
    ("u", "datetime"),
];

/// The row's cells: 2024-02-29, the day before 1970, the first and the last day, and the last millisecond
/// before 1970 among them.
const CELLS: &[Given] = &[
    Given::Null,
    Given::Null,
    Given::Words("né€"),
    Given::Day(19_782),
    Given::Day(-1),
    Given::Day(-719_162),
    Given::Day(2_932_896),
    Given::Millis(-1),
    Given::Null,
];

/// The tree of an expression, with its columns numbered.
fn checked(alloc: Global, text: &str) -> Result<Tree, Fail> {
    let schema = schema(alloc, COLUMNS)?;
    let mut tree = tree(alloc, text)?;
    check_tree(&schema, &mut tree)?;
    Ok(tree)
}

fn value(alloc: Global, text: &str) -> Result<Cell, Fail> {
    let tree = checked(alloc, text)?;
    let row = row(alloc, CELLS)?;
    Ok(eval(alloc, &tree, &row)?)
}

/// Whether the expression gives that cell.
fn gives(alloc: Global, text: &str, want: Given) -> Result<bool, Fail> {
    Ok(value(alloc, text)? == cell(alloc, want)?)
}

#[test]
fn operators(rt: HostRuntime) -> Result<(), Fail> {
    let cases = [
        ("-7 / 2", Given::Number(-4)),
        ("-7 % 2", Given::Number(1)),
        ("7 / -2", Given::Number(-4)),
        ("7 % -2", Given::Number(-1)),
        ("1 / 0", Given::Null),
        ("1 % 0", Given::Null),
        ("9007199254740991 + 0", Given::Number(MAX_INTEGER)),
        ("9007199254740991 + 1", Given::Null),
        ("-9007199254740991 - 0", Given::Number(-MAX_INTEGER)),
        ("-9007199254740991 - 1", Given::Null),
        ("9007199254740991 * -1", Given::Number(-MAX_INTEGER)),
        ("9007199254740991 * -9007199254740991", Given::Null),
        ("false and \"b\"", Given::Truth(false)),
        ("\"b\" and false", Given::Truth(false)),
        ("true and \"b\"", Given::Null),
        ("\"b\" or true", Given::Truth(true)),
        ("false or \"b\"", Given::Null),
        ("\"b\" == \"b\"", Given::Null),
        ("false < true", Given::Truth(true)),
    ];
    for (text, want) in cases {
        assert!(rt; gives(rt.alloc(), text, want)?, "{text}");
    }
    Ok(())
}

#[test]
fn functions(rt: HostRuntime) -> Result<(), Fail> {
    let cases = [
        ("abs(-7)", Given::Number(7)),
        ("min(-3, 1)", Given::Number(-3)),
        ("max(-3, 1)", Given::Number(1)),
        ("max(\"v\", 1)", Given::Null),
        ("bucket(-7, 5)", Given::Number(-10)),
        ("bucket(-9007199254740991, 2)", Given::Null),
        ("is_null(\"b\")", Given::Truth(true)),
        ("is_not_null(0)", Given::Truth(true)),
        ("if(\"b\", 1, -7 / 2)", Given::Number(-4)),
        ("length(\"s\")", Given::Number(3)),
        ("contains('abc', 'b')", Given::Truth(true)),
        ("contains('abc', 'ac')", Given::Truth(false)),
        ("begins('abc', 'ab')", Given::Truth(true)),
        ("ends('abc', 'b')", Given::Truth(false)),
        ("concat(\"s\", 'e')", Given::Words("né€e")),
        ("year(\"d\")", Given::Number(2024)),
        ("month(\"d\")", Given::Number(2)),
        ("day(\"d\")", Given::Number(29)),
        ("date_of(\"t\")", Given::Day(-1)),
        ("date_of(\"u\")", Given::Null),
        ("hour(\"t\")", Given::Number(23)),
        ("bucket(\"d\", 'M')", Given::Day(19_754)),
        ("bucket(\"e\", 'M')", Given::Day(-31)),
        ("bucket(\"first\", 'W')", Given::Day(-719_162)),
        ("bucket(\"last\", 'W')", Given::Day(2_932_892)),
        ("bucket(\"t\", 'm')", Given::Millis(-60_000)),
    ];
    for (text, want) in cases {
        assert!(rt; gives(rt.alloc(), text, want)?, "{text}");
    }
    Ok(())
}
