ghost use Rattle.std.specs.Prelude.{◌≡◌, ◌+◌, ◌*◌, ◌<◌, length, IfOk, OnOk};

use crate::kept::{Given, Move, Rows, act, cells, pair, tree_of_two};
use cell_core::{Cell, CellType, Column, Direction, Listed, Memory, Path, Steps, Text, Value};
use pivot_tree::{Node, PivotTree};
use plan_types::{AggName, Filters, Named, Plan, Sort};
use std::alloc::Global;
use std::marker::Brand;
use std::sync::ledger::{Blank, Ledger};
use std::test::Fail;

/// Whole numbers `a`, `b`, `s`, `v` and `w`.
fn columns(alloc: Global) -> Result<Vec<Column>, Memory> {
    let mut columns = Vec::new(alloc);
    for name in ["a", "b", "s", "v", "w"] {
        columns.push(Column {
            name: Text::from_str(alloc, name)?,
            kind: CellType::Integer,
        })?;
    }
    Ok(columns)
}

/// By `a` and `b`, split by `s`: the sum of `v`, for which none is named, an aggregate of `w`, and as a sort alone how
/// many different `b` there are.
fn plan(alloc: Global, of_w: AggName) -> Result<Plan, Memory>
    ensures { IfOk result (λ plan. length plan.group_by ≡ 2) }
{
    let distinct = AggName::DistinctCount;
    Ok(Plan {
        columns: Listed::from_vec(vec![in alloc; 3usize, 4usize]?),
        group_by: Listed::from_vec(vec![in alloc; 0usize, 1usize]?),
        split_by: Listed::from_vec(vec![in alloc; 2usize]?),
        aggregates: Listed::from_vec(vec![in alloc; named(4, of_w), named(1, distinct)]?),
        filters: Filters {
            list: Listed::new(alloc),
            every: true,
        },
        sorts: Listed::from_vec(vec![in alloc;
            Sort {
                column: 1,
                direction: Direction::Desc
            },
        ]?),
        expressions: Listed::new(alloc),
    })
}

fn named(column: usize, aggregate: AggName) -> Named {
    Named { column, aggregate }
}

/// The tree of the rows that are left after some moves.
fn tree_after<L: Ledger>(
    alloc: Global,
    columns: &[Column],
    plan: &Plan,
    moves: &[Move],
    steps: &mut Steps<L>,
) -> Result<PivotTree, Fail>
    ensures { OnOk result (steps.new ≡ steps.old + length moves.now * (length plan.now.group_by + 1)) }
{
    let mut tree = PivotTree::make(alloc, columns, plan)?;
    let mut rows = Rows::new(alloc);
    for one in moves {
        act(alloc, &mut tree, &mut rows, *one, steps)?;
    }
    Ok(tree)
}

/// The value as a text; null is `-`.
fn text_of(alloc: Global, value: Option<Value>) -> Result<String, Fail> {
    Ok(match value {
        None => format!(in alloc; "-")?,
        Some(Value::Whole(number)) => format!(in alloc; "{number}")?,
        Some(Value::Fraction(part)) => format!(in alloc; "{}/{}", part.n, part.d)?,
        Some(_) => format!(in alloc; "?")?,
    })
}

fn add_value(alloc: Global, out: &mut String, value: Option<Value>) -> Result<(), Fail> {
    out.push_str(" ")?;
    out.push_str(text_of(alloc, value)?.as_str())?;
    Ok(())
}

/// The values of `v`, `w` and `b` over all members, or those of a split path.
fn add_values(
    alloc: Global,
    out: &mut String,
    node: &Node,
    split: Option<&Path>,
) -> Result<(), Fail> {
    out.push_str(" |")?;
    for column in [3, 4, 1] {
        add_value(alloc, out, node.value(split, column)?)?;
    }
    Ok(())
}

/// The values over all members, and over those with `s` at 7, 8 and null.
fn add_splits(alloc: Global, out: &mut String, node: &Node) -> Result<(), Fail> {
    add_values(alloc, out, node, None)?;
    for split in [Some(7), Some(8), None] {
        add_values(alloc, out, node, Some(&cells(alloc, &[split])?))?;
    }
    Ok(())
}

fn add_children(
    alloc: Global,
    out: &mut String,
    tree: &PivotTree,
    path: &Path,
) -> Result<(), Fail> {
    for cell in tree.children(alloc, path)?.as_slice() {
        add_value(alloc, out, cell.value(alloc)?)?;
    }
    Ok(())
}

/// What the node at a path tells: the values that lead on, and the aggregates.
fn told<L: Ledger>(
    alloc: Global,
    tree: &PivotTree,
    path: &Path,
    steps: &mut Steps<L>,
) -> Result<String, Fail>
    ensures { OnOk result (steps.new ≡ steps.old + 1) }
{
    let mut out = String::new(alloc);
    add_children(alloc, &mut out, tree, path)?;
    match tree.node(path, steps) {
        Some(node) => add_splits(alloc, &mut out, node)?,
        None => out.push_str(" none")?,
    }
    Ok(out)
}

/// What the node at a path tells after some moves. Each move is one visit for each of the two group columns and one
/// for the total, and the path is one visit.
fn told_after<L: Ledger>(
    alloc: Global,
    of_w: AggName,
    moves: &[Move],
    path: Given,
    steps: &mut Steps<L>,
) -> Result<String, Fail>
    ensures { OnOk result (steps.new ≡ steps.old + length moves.now * 3 + 1) }
{
    let columns = columns(alloc)?;
    let plan = plan(alloc, of_w)?;
    let tree = tree_after(alloc, &columns, &plan, moves, steps)?;
    told(alloc, &tree, &cells(alloc, path)?, steps)
}

/// What the total of two rows tells that are put in at once, the greater key first. Each is three visits.
fn told_of_two<L: Ledger>(
    alloc: Global,
    of_w: AggName,
    steps: &mut Steps<L>,
) -> Result<String, Fail>
    ensures { OnOk result (steps.new ≡ steps.old + 7) }
{
    let first = pair(alloc, 2, &[Some(10), Some(20), Some(7), Some(5), Some(4)])?;
    let second = pair(alloc, 1, &[Some(10), Some(21), Some(8), Some(6), None])?;
    let columns = columns(alloc)?;
    let plan = plan(alloc, of_w)?;
    let tree = tree_of_two(alloc, &columns, &plan, first, second, steps)?;
    told(alloc, &tree, &Path::new(alloc), steps)
}

fn told_of_two_counted<L: Ledger>(
    alloc: Global,
    of_w: AggName,
    blank: Blank,
) -> Result<String, Fail>
    requires name { blank.name ≡ L.name }
    requires parts { blank.parts ≡ L.parts }
    requires some { 0 < L.parts }
{
    let mut steps = Steps::<L>::new(blank);
    told_of_two(alloc, of_w, &mut steps)
}

fn told_counted<L: Ledger>(
    alloc: Global,
    of_w: AggName,
    moves: &[Move],
    path: Given,
    blank: Blank,
) -> Result<String, Fail>
    requires name { blank.name ≡ L.name }
    requires parts { blank.parts ≡ L.parts }
    requires some { 0 < L.parts }
{
    let mut steps = Steps::<L>::new(blank);
    told_after(alloc, of_w, moves, path, &mut steps)
}

fn told_of(alloc: Global, of_w: AggName, moves: &[Move], path: Given) -> Result<String, Fail> {
    told_counted::<Brand>(alloc, of_w, moves, path, Blank::new(1))
}

const ONE: Move = Move::Put(1, &[Some(10), Some(20), Some(7), Some(5), Some(-1)]);

const TWO: Move = Move::Put(2, &[Some(10), Some(21), Some(7), Some(6), Some(4)]);

const THREE: Move = Move::Put(3, &[Some(11), Some(20), Some(8), Some(7), None]);

const FOUR: Move = Move::Put(4, &[Some(10), Some(20), Some(8), None, Some(2)]);

const FIVE: Move = Move::Put(5, &[None, Some(20), Some(7), Some(-2), Some(3)]);

const SIX: Move = Move::Put(6, &[Some(10), None, None, Some(9), Some(4)]);

/// Another row under the key 4, and one under a key of its own.
const OTHER: Move = Move::Put(4, &[Some(11), Some(22), Some(9), Some(100), Some(100)]);

const SEVEN: Move = Move::Put(7, &[Some(12), Some(20), Some(7), Some(-50), Some(-50)]);

const ASCENDING: &[Move] = &[ONE, TWO, THREE, FOUR, FIVE, SIX];

const DESCENDING: &[Move] = &[SIX, FIVE, FOUR, THREE, TWO, ONE];

/// The same rows are left as in the orders above.
const MIXED: &[Move] = &[
    SEVEN,
    THREE,
    OTHER,
    SIX,
    ONE,
    Move::Take(7),
    TWO,
    Move::Take(4),
    FOUR,
    FIVE,
    Move::Take(2),
    Move::Take(3),
    TWO,
    THREE,
];

const GONE: &[Move] = &[ONE, FIVE, SIX, Move::Take(5), Move::Take(1), Move::Take(6)];

/// Paths, and what stands there: the values that lead on, and then the sum of `v`, the median of `w` and the number of
/// different `b`, over all and with `s` at 7, 8 and null.
const NODES: &[(Given, &str)] = &[
    (&[], " - 10 11 | 25 3 2 | 9 3 2 | 7 2 1 | 9 4 0"),
    (&[None], " 20 | -2 3 1 | -2 3 1 | - - 0 | - - 0"),
    (&[Some(10)], " - 20 21 | 20 2 2 | 11 -1 2 | - 2 1 | 9 4 0"),
    (&[Some(10), None], " | 9 4 0 | - - 0 | - - 0 | 9 4 0"),
    (&[Some(10), Some(20)], " | 5 -1 1 | 5 -1 1 | - 2 1 | - - 0"),
    (&[Some(10), Some(21)], " | 6 4 1 | 6 4 1 | - - 0 | - - 0"),
    (&[Some(11)], " 20 | 7 - 1 | - - 0 | 7 - 1 | - - 0"),
    (&[Some(11), Some(22)], " none"),
    (&[Some(12)], " none"),
    (&[Some(20)], " none"),
    (&[Some(10), Some(20), Some(7)], " none"),
];

#[test]
fn groups_have_the_rows_that_are_left(rt: HostRuntime) -> Result<(), Fail> {
    for moves in [ASCENDING, DESCENDING, MIXED] {
        for (path, want) in NODES {
            let told = told_of(rt.alloc(), AggName::Median, moves, path)?;
            assert_eq!(rt; told.as_str(), *want, "{path:?}");
        }
    }
    let total = told_of(rt.alloc(), AggName::Median, GONE, &[])?;
    assert_eq!(rt; total.as_str(), " | - - 0 | - - 0 | - - 0 | - - 0");
    let group = told_of(rt.alloc(), AggName::Median, GONE, &[Some(10)])?;
    assert_eq!(rt; group.as_str(), " none");
    Ok(())
}

/// Each aggregate of `w` at `a` of 10: over all, and with `s` at 7, 8 and null.
const VALUES: &[(AggName, &str)] = &[
    (AggName::Sum, " - 20 21 | 20 9 2 | 11 3 2 | - 2 1 | 9 4 0"),
    (
        AggName::AbsSum,
        " - 20 21 | 20 9 2 | 11 3 2 | - 2 1 | 9 4 0",
    ),
    (
        AggName::SumAbs,
        " - 20 21 | 20 11 2 | 11 5 2 | - 2 1 | 9 4 0",
    ),
    (AggName::Count, " - 20 21 | 20 4 2 | 11 2 2 | - 1 1 | 9 1 0"),
    (
        AggName::DistinctCount,
        " - 20 21 | 20 3 2 | 11 2 2 | - 1 1 | 9 1 0",
    ),
    (
        AggName::Mean,
        " - 20 21 | 20 9/4 2 | 11 3/2 2 | - 2/1 1 | 9 4/1 0",
    ),
    (
        AggName::Avg,
        " - 20 21 | 20 9/4 2 | 11 3/2 2 | - 2/1 1 | 9 4/1 0",
    ),
    (AggName::Min, " - 20 21 | 20 -1 2 | 11 -1 2 | - 2 1 | 9 4 0"),
    (AggName::Max, " - 20 21 | 20 4 2 | 11 4 2 | - 2 1 | 9 4 0"),
    (
        AggName::Unique,
        " - 20 21 | 20 - 2 | 11 - 2 | - 2 1 | 9 4 0",
    ),
    (
        AggName::First,
        " - 20 21 | 20 -1 2 | 11 -1 2 | - 2 1 | 9 4 0",
    ),
    (AggName::Last, " - 20 21 | 20 4 2 | 11 4 2 | - 2 1 | 9 4 0"),
    (
        AggName::Dominant,
        " - 20 21 | 20 4 2 | 11 -1 2 | - 2 1 | 9 4 0",
    ),
    (
        AggName::Median,
        " - 20 21 | 20 2 2 | 11 -1 2 | - 2 1 | 9 4 0",
    ),
];

#[test]
fn each_aggregate_is_kept(rt: HostRuntime) -> Result<(), Fail> {
    for (name, want) in VALUES {
        let told = told_of(rt.alloc(), *name, MIXED, &[Some(10)])?;
        assert_eq!(rt; told.as_str(), *want, "{name:?}");
    }
    Ok(())
}

#[test]
fn a_tree_is_made_of_rows_in_any_order(rt: HostRuntime) -> Result<(), Fail> {
    let first = " 10 | 11 - 2 | 5 4 1 | 6 - 1 | - - 0";
    let last = " 10 | 11 4 2 | 5 4 1 | 6 - 1 | - - 0";
    for (name, want) in [(AggName::First, first), (AggName::Last, last)] {
        let told = told_of_two_counted::<Brand>(rt.alloc(), name, Blank::new(1))?;
        assert_eq!(rt; told.as_str(), want, "{name:?}");
    }
    Ok(())
}
