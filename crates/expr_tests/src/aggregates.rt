ghost use Rattle.std.specs.Prelude.{◌≡◌, [], IsTrue, OnOk};
ghost use Rattle.agg_core.specs.Types.{IsTaken};

use crate::given::{Given, cell};
use agg_core::{Aggregate, AnyAggregate, takes};
use cell_core::{Cell, CellType, Copies, MAX_INTEGER, MAX_ROWS, Value, is_integer};
use plan_types::AggName;
use std::alloc::Global;
use std::collections::BTreeMap;
use std::test::Fail;

/// A row that comes, with its key and cell, or the row of a key that goes.
#[derive(Clone, Copy, Drop)]
enum Step<'a> {
    Put(i64, Given<'a>),
    Take(i64),
}

/// Whether the aggregate takes the cell.
fn is_taken(name: AggName, cell: &Cell) -> bool
    ensures { IsTrue result → IsTaken name cell.now }
{
    match cell {
        Cell::Null => true,
        Cell::Bool(_) => takes(name, CellType::Boolean),
        Cell::Int(n) => takes(name, CellType::Integer) && is_integer(*n),
        Cell::Date(_) => takes(name, CellType::Date),
        Cell::Moment(_) => takes(name, CellType::Moment),
        Cell::Words(_) => takes(name, CellType::Words),
    }
}

/// Puts a row both into the rows and into the aggregate that stands for them.
fn put<A: Aggregate>(
    alloc: Global,
    aggregate: &mut A,
    rows: &mut BTreeMap<Cell, Cell>,
    name: AggName,
    key: &Cell,
    cell: &Cell,
) -> Result<(), Fail>
    requires named { name ≡ A.name aggregate.old }
    requires stands { A.stands_for aggregate.old rows.old.entries }
    ensures stands { OnOk result (A.stands_for aggregate.new rows.new.entries) }
    ensures named { OnOk result (A.name aggregate.new ≡ A.name aggregate.old) }
{
    if rows.contains_key(key) || rows.len() >= MAX_ROWS as usize || !is_taken(name, cell) {
        return Err(Fail::new("not a row that may be put"));
    }
    aggregate.add(key, cell)?;
    rows.insert(key.copy(alloc)?, cell.copy(alloc)?)?;
    Ok(())
}

/// Takes a row off both.
fn take<A: Aggregate>(
    aggregate: &mut A,
    rows: &mut BTreeMap<Cell, Cell>,
    key: &Cell,
) -> Result<(), Fail>
    requires { A.stands_for aggregate.old rows.old.entries }
    ensures stands { OnOk result (A.stands_for aggregate.new rows.new.entries) }
    ensures named { OnOk result (A.name aggregate.new ≡ A.name aggregate.old) }
{
    match rows.remove(key) {
        Some(cell) => {
            aggregate.take_off(key, &cell);
            Ok(())
        }
        None => Err(Fail::new("no such row")),
    }
}

fn take_step<A: Aggregate>(
    alloc: Global,
    aggregate: &mut A,
    rows: &mut BTreeMap<Cell, Cell>,
    name: AggName,
    step: Step,
) -> Result<(), Fail>
    requires named { name ≡ A.name aggregate.old }
    requires stands { A.stands_for aggregate.old rows.old.entries }
    ensures stands { OnOk result (A.stands_for aggregate.new rows.new.entries) }
    ensures named { OnOk result (A.name aggregate.new ≡ A.name aggregate.old) }
{
    match step {
        Step::Put(key, given) => {
            let cell = cell(alloc, given)?;
            put(alloc, aggregate, rows, name, &Cell::Int(key), &cell)
        }
        Step::Take(key) => take(aggregate, rows, &Cell::Int(key)),
    }
}

/// What an aggregate answers after some steps.
fn value_after<A: Aggregate + Drop>(
    alloc: Global,
    mut aggregate: A,
    name: AggName,
    steps: &[Step],
) -> Result<Option<Value>, Fail>
    requires named { name ≡ A.name aggregate }
    requires empty { A.stands_for aggregate [] }
{
    let mut rows = BTreeMap::new(alloc);
    for step in steps {
        take_step(alloc, &mut aggregate, &mut rows, name, *step)?;
    }
    Ok(aggregate.value()?)
}

/// The value as a text; null is `-`.
fn text_of(alloc: Global, value: Option<Value>) -> Result<String, Fail> {
    Ok(match value {
        None => format!(in alloc; "-")?,
        Some(Value::Whole(number)) => format!(in alloc; "{number}")?,
        Some(Value::Fraction(part)) => format!(in alloc; "{}/{}", part.n, part.d)?,
        Some(Value::Words(text)) => text.into_string(),
        Some(_) => format!(in alloc; "?")?,
    })
}

fn shown_by(alloc: Global, name: AggName, steps: &[Step]) -> Result<String, Fail> {
    let aggregate = AnyAggregate::make(alloc, name)?;
    text_of(alloc, value_after(alloc, aggregate, name, steps)?)
}

/// The values of aggregates after some steps, each behind a space.
fn shown(alloc: Global, names: &[AggName], steps: &[Step]) -> Result<String, Fail> {
    let mut out = String::new(alloc);
    for name in names {
        out.push_str(" ")?;
        out.push_str(shown_by(alloc, *name, steps)?.as_str())?;
    }
    Ok(out)
}

/// The aggregates that take every type.
const CHOICES: &[AggName] = &[
    AggName::Count,
    AggName::DistinctCount,
    AggName::Min,
    AggName::Max,
    AggName::Unique,
    AggName::First,
    AggName::Last,
    AggName::Dominant,
    AggName::Median,
];

/// Those that take integers alone.
const SUMS: &[AggName] = &[
    AggName::Sum,
    AggName::AbsSum,
    AggName::SumAbs,
    AggName::Mean,
    AggName::Avg,
];

const NONE: &[Step] = &[];

const FEW: &[Step] = &[
    Step::Put(0, Given::Null),
    Step::Put(1, Given::Number(-7)),
    Step::Put(2, Given::Null),
];

const LARGE: &[Step] = &[
    Step::Put(0, Given::Number(MAX_INTEGER)),
    Step::Put(1, Given::Number(1)),
];

const REPEATED: &[Step] = &[
    Step::Put(0, Given::Number(5)),
    Step::Put(1, Given::Number(-3)),
    Step::Put(2, Given::Null),
    Step::Put(3, Given::Number(5)),
    Step::Put(4, Given::Number(-3)),
    Step::Put(5, Given::Number(9)),
];

const GONE: &[Step] = &[
    Step::Put(0, Given::Number(4)),
    Step::Put(1, Given::Null),
    Step::Put(2, Given::Number(7)),
    Step::Put(3, Given::Number(7)),
    Step::Put(4, Given::Number(-2)),
    Step::Take(4),
    Step::Take(3),
];

const TEXTS: &[Step] = &[
    Step::Put(5, Given::Words("b")),
    Step::Put(2, Given::Words("a")),
    Step::Put(3, Given::Words("b")),
    Step::Put(4, Given::Words("b")),
    Step::Put(1, Given::Words("c")),
    Step::Put(0, Given::Null),
    Step::Take(4),
];

#[test]
fn aggregates_of_rows_that_come_and_go(rt: HostRuntime) -> Result<(), Fail> {
    let cases = [
        (CHOICES, NONE, " 0 0 - - - - - - -"),
        (SUMS, NONE, " - - - - -"),
        (CHOICES, FEW, " 3 1 -7 -7 -7 - - -7 -7"),
        (SUMS, FEW, " -7 7 7 -7/1 -7/1"),
        (
            CHOICES,
            LARGE,
            " 2 2 1 9007199254740991 - 9007199254740991 1 1 1",
        ),
        (
            SUMS,
            LARGE,
            " 9007199254740992 9007199254740992 9007199254740992 4503599627370496/1 4503599627370496/1",
        ),
        (CHOICES, REPEATED, " 6 3 -3 9 - 5 9 -3 5"),
        (SUMS, REPEATED, " 13 13 25 13/5 13/5"),
        (CHOICES, GONE, " 3 2 4 7 - 4 7 4 4"),
        (SUMS, GONE, " 11 11 11 11/2 11/2"),
        (CHOICES, TEXTS, " 5 3 a c - - b b b"),
    ];
    for (names, steps, want) in cases {
        assert_eq!(rt; shown(rt.alloc(), names, steps)?.as_str(), want);
    }
    Ok(())
}
