ghost use Rattle.std.specs.Prelude.{◌≡◌, ◌+◌, ◌*◌, List, All, length, IsTrue, ◌↔◌, OnOk};
ghost use Rattle.cell_core.specs.declared.schema.Column.{Column as ColumnData};
ghost use Rattle.plan_types.specs.declared.plan.Plan.{Plan as PlanData};
ghost use Rattle.pivot_tree.specs.Trees.{IsTreeOf};
ghost use Rattle.view_tests.specs.Rows.{IsNumber, rows_of};

use cell_core::{Cell, Cells, Column, MAX_ROWS, Memory, Row, Steps, is_integer};
use pivot_tree::{PivotTree, keys_tell_rows, tree_of};
use plan_types::Plan;
use row_batch::Pair;
use std::alloc::Global;
use std::collections::BTreeMap;
use std::sync::ledger::Ledger;
use std::test::Fail;

/// The numbers of a row or a path, none for null.
pub type Given<'a> = &'a [Option<i64>];

/// A row that comes under a key, or the row of a key that goes.
#[derive(Clone, Copy, Drop)]
pub enum Move<'a> {
    Put(i64, Given<'a>),
    Take(i64),
}

/// The rows that a tree stands for, by their keys.
pub type Rows = BTreeMap<Cell, Row>;

fn cell(number: Option<i64>) -> Cell {
    match number {
        Some(number) => Cell::Int(number),
        None => Cell::Null,
    }
}

pub fn cells(alloc: Global, numbers: Given) -> Result<Cells, Memory> {
    let mut cells = Cells::new(alloc);
    for number in numbers {
        cells.push(cell(*number))?;
    }
    Ok(cells)
}

fn is_number(cell: &Cell) -> bool
    ensures { IsTrue result ↔ IsNumber cell.now }
{
    match cell {
        Cell::Null => true,
        Cell::Int(number) => is_integer(*number),
        _ => false,
    }
}

fn are_numbers(cells: &[Cell]) -> bool
    ensures { IsTrue result ↔ All IsNumber cells.now }
{
    cells.iter().all(|cell| is_number(cell))
}

/// Puts a row both into the tree and into the rows that it stands for.
fn put<L: Ledger>(
    alloc: Global,
    tree: &mut PivotTree,
    rows: &mut Rows,
    key: Cell,
    row: Row,
    steps: &mut Steps<L>,
) -> Result<(), Fail>
    requires { (columns : List ColumnData) × (plan : PlanData) × IsTreeOf columns plan tree.old (rows_of rows.old.entries) }
    ensures stands { OnOk result ((columns : List ColumnData) (plan : PlanData)
        → IsTreeOf columns plan tree.old (rows_of rows.old.entries)
        → IsTreeOf columns plan tree.new (rows_of rows.new.entries)) }
    ensures steps { (columns : List ColumnData) (plan : PlanData)
        → IsTreeOf columns plan tree.old (rows_of rows.old.entries)
        → OnOk result (steps.new ≡ steps.old + (length plan.group_by + 1)) }
{
    if rows.contains_key(&key) || rows.len() >= MAX_ROWS as usize || !are_numbers(row.as_slice()) {
        return Err(Fail::new("not a row that may be put"));
    }
    keys_tell_rows();
    tree.add_row(alloc, &key, &row, steps)?;
    rows.insert(key, row)?;
    Ok(())
}

/// Takes a row off both.
fn take<L: Ledger>(
    alloc: Global,
    tree: &mut PivotTree,
    rows: &mut Rows,
    key: &Cell,
    steps: &mut Steps<L>,
) -> Result<(), Fail>
    requires { (columns : List ColumnData) × (plan : PlanData) × IsTreeOf columns plan tree.old (rows_of rows.old.entries) }
    ensures stands { OnOk result ((columns : List ColumnData) (plan : PlanData)
        → IsTreeOf columns plan tree.old (rows_of rows.old.entries)
        → IsTreeOf columns plan tree.new (rows_of rows.new.entries)) }
    ensures steps { (columns : List ColumnData) (plan : PlanData)
        → IsTreeOf columns plan tree.old (rows_of rows.old.entries)
        → OnOk result (steps.new ≡ steps.old + (length plan.group_by + 1)) }
{
    keys_tell_rows();
    match rows.remove(key) {
        Some(row) => {
            tree.take_row(alloc, key, &row, steps)?;
            Ok(())
        }
        None => Err(Fail::new("no such row")),
    }
}

pub fn act<L: Ledger>(
    alloc: Global,
    tree: &mut PivotTree,
    rows: &mut Rows,
    one: Move,
    steps: &mut Steps<L>,
) -> Result<(), Fail>
    requires { (columns : List ColumnData) × (plan : PlanData) × IsTreeOf columns plan tree.old (rows_of rows.old.entries) }
    ensures stands { OnOk result ((columns : List ColumnData) (plan : PlanData)
        → IsTreeOf columns plan tree.old (rows_of rows.old.entries)
        → IsTreeOf columns plan tree.new (rows_of rows.new.entries)) }
    ensures steps { (columns : List ColumnData) (plan : PlanData)
        → IsTreeOf columns plan tree.old (rows_of rows.old.entries)
        → OnOk result (steps.new ≡ steps.old + (length plan.group_by + 1)) }
{
    match one {
        Move::Put(key, numbers) => {
            let row = cells(alloc, numbers)?;
            put(alloc, tree, rows, Cell::Int(key), row, steps)
        }
        Move::Take(key) => take(alloc, tree, rows, &Cell::Int(key), steps),
    }
}

/// The row of a key.
pub fn pair(alloc: Global, key: i64, numbers: Given) -> Result<Pair, Memory> {
    Ok(Pair {
        key: Cell::Int(key),
        row: cells(alloc, numbers)?,
    })
}

/// The tree of two rows, made at once.
pub fn tree_of_two<L: Ledger>(
    alloc: Global,
    columns: &[Column],
    plan: &Plan,
    first: Pair,
    second: Pair,
    steps: &mut Steps<L>,
) -> Result<PivotTree, Fail>
    ensures { OnOk result (steps.new ≡ steps.old + 2 * (length plan.now.group_by + 1)) }
{
    if first.key.order(&second.key).is_eq()
        || !are_numbers(first.row.as_slice())
        || !are_numbers(second.row.as_slice())
    {
        return Err(Fail::new("not rows that a tree may be made of"));
    }
    let pairs = vec![in alloc; first, second]?;
    Ok(tree_of(alloc, columns, plan, &pairs, steps)?)
}
