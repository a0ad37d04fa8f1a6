ghost use Rattle.row_batch.specs.Tables.{IsCounted};

use crate::schemas::columns;
use cell_core::{Cell, Cells, MAX_INTEGER, Memory, Numbers, Row, Schema, Text};
use row_batch::{
    Batch, BatchRefused, Patch, PatchCell, Patches, PlainTable, RowCause, check, is_shaped,
};
use std::alloc::Global;
use std::test::Fail;

/// The numbers of a row; of a patch, none where its cell is kept, and of a table, none for null.
type Given<'a> = &'a [Option<i64>];

/// A batch of rows of whole numbers.
#[derive(Clone, Copy, Drop)]
enum Step<'a> {
    Update(&'a [Given<'a>]),
    Replace(&'a [Given<'a>]),
    Remove(&'a [i64]),
    Clear,
}

fn patch(alloc: Global, row: Given) -> Result<Patch, Memory> {
    let mut patch = Patch::new(alloc);
    for number in row {
        patch.push(match number {
            Some(number) => PatchCell::Set(Cell::Int(*number)),
            None => PatchCell::Keep,
        })?;
    }
    Ok(patch)
}

fn patches(alloc: Global, rows: &[Given]) -> Result<Patches, Memory> {
    let mut made = Patches::new(alloc);
    for row in rows {
        made.push(patch(alloc, row)?)?;
    }
    Ok(made)
}

fn keys(alloc: Global, numbers: &[i64]) -> Result<Cells, Memory> {
    let mut keys = Cells::new(alloc);
    for number in numbers {
        keys.push(Cell::Int(*number))?;
    }
    Ok(keys)
}

fn batch(alloc: Global, step: Step) -> Result<Batch, Memory> {
    Ok(match step {
        Step::Update(rows) => Batch::Update(patches(alloc, rows)?),
        Step::Replace(rows) => Batch::Replace(patches(alloc, rows)?),
        Step::Remove(numbers) => Batch::Remove(keys(alloc, numbers)?),
        Step::Clear => Batch::Clear,
    })
}

/// The schema of an index `id` and two more columns.
fn indexed(alloc: Global) -> Result<Schema, Fail> {
    let words = [("id", "integer"), ("v", "integer"), ("w", "integer")];
    let columns = columns(alloc, &words)?;
    let index = Text::from_str(alloc, "id")?;
    Ok(Schema::make(alloc, columns, Some(index), None)?)
}

/// The schema of one column, without an index.
fn counted(alloc: Global, limit: Option<i64>) -> Result<Schema, Fail> {
    let columns = columns(alloc, &[("v", "integer")])?;
    Ok(Schema::make(alloc, columns, None, limit)?)
}

fn put(alloc: Global, table: &mut PlainTable, schema: &Schema, batch: &Batch) -> Result<(), Fail>
    requires { IsCounted schema.now.keeping table.old }
    ensures { IsCounted schema.now.keeping table.new }
{
    if table.number() >= 1000 || batch.rows() >= 1000 {
        return Err(Fail::new("too many rows"));
    }
    table.put(alloc, schema, batch)?;
    Ok(())
}

/// The table that comes of these batches.
fn table_after(alloc: Global, schema: &Schema, steps: &[Step]) -> Result<PlainTable, Fail> {
    let mut table = PlainTable::new(alloc);
    for step in steps {
        put(alloc, &mut table, schema, &batch(alloc, *step)?)?;
    }
    Ok(table)
}

fn is_number(cell: &Cell, number: Option<i64>) -> bool {
    match (cell, number) {
        (Cell::Null, None) => true,
        (Cell::Int(held), Some(number)) => *held == number,
        _ => false,
    }
}

fn is_row(row: &Row, numbers: &[Option<i64>]) -> bool {
    for (cell, number) in row.as_slice().iter().zip(numbers) {
        if !is_number(cell, *number) {
            return false;
        }
    }
    row.len() == numbers.len()
}

/// Whether the table has these rows, each behind its key.
fn holds(table: &PlainTable, rows: &[(i64, Given)]) -> bool {
    for (pair, (key, row)) in table.pairs().iter().zip(rows) {
        if !is_number(&pair.key, Some(*key)) || !is_row(&pair.row, row) {
            return false;
        }
    }
    table.len() == rows.len()
}

/// Whether a table with an index has these rows after these batches.
fn indexed_holds(alloc: Global, steps: &[Step], rows: &[(i64, Given)]) -> Result<bool, Fail> {
    let schema = indexed(alloc)?;
    Ok(holds(&table_after(alloc, &schema, steps)?, rows))
}

/// Two patches name one key, a column that is left out keeps its cell, and is null in a new row.
const UPDATE: Step = Step::Update(&[
    &[Some(1), Some(10), None],
    &[Some(2), Some(20), Some(5)],
    &[Some(1), None, Some(7)],
]);

/// The key 9 is absent.
const REMOVE: Step = Step::Remove(&[9, 2]);

const REPLACE: Step = Step::Replace(&[&[Some(3), None, Some(9)]]);

#[test]
fn indexed_rows_change_in_place(rt: HostRuntime) -> Result<(), Fail> {
    let one: (i64, Given) = (1, &[Some(1), Some(10), Some(7)]);
    assert!(rt; indexed_holds(rt.alloc(), &[UPDATE, REMOVE], &[one])?);
    let other: (i64, Given) = (3, &[Some(3), None, Some(9)]);
    assert!(rt; indexed_holds(rt.alloc(), &[UPDATE, REPLACE], &[other])?);
    Ok(())
}

/// Whether a table without an index has these rows after these batches.
fn counted_holds(
    alloc: Global,
    limit: Option<i64>,
    steps: &[Step],
    rows: &[(i64, Given)],
) -> Result<bool, Fail> {
    let schema = counted(alloc, limit)?;
    Ok(holds(&table_after(alloc, &schema, steps)?, rows))
}

const THREE: Step = Step::Update(&[&[Some(5)], &[Some(6)], &[None]]);

const ONE: Step = Step::Update(&[&[Some(7)]]);

/// The fourth row takes the older of two slots, and a cleared table counts from 0.
#[test]
fn a_limit_takes_the_oldest_slot(rt: HostRuntime) -> Result<(), Fail> {
    let full: [(i64, Given); 2] = [(0, &[None]), (1, &[Some(7)])];
    assert!(rt; counted_holds(rt.alloc(), Some(2), &[THREE, ONE], &full)?);
    let first: (i64, Given) = (0, &[Some(7)]);
    assert!(rt; counted_holds(rt.alloc(), Some(2), &[THREE, Step::Clear, ONE], &[first])?);
    Ok(())
}

#[test]
fn free_rows_have_running_numbers(rt: HostRuntime) -> Result<(), Fail> {
    let left: [(i64, Given); 2] = [(0, &[Some(5)]), (3, &[Some(7)])];
    assert!(rt;
        counted_holds(
            rt.alloc(),
            None,
            &[THREE, Step::Remove(&[1, 2]), ONE],
            &left
        )?
    );
    Ok(())
}

/// What is against a batch, under the schema of an index and two more columns.
fn fault(alloc: Global, step: Step) -> Result<Option<BatchRefused>, Fail> {
    let schema = indexed(alloc)?;
    let batch = batch(alloc, step)?;
    if !is_shaped(&schema, &batch) {
        return Err(Fail::new("rows of another width"));
    }
    Ok(check(&schema, &batch).err())
}

#[test]
fn the_first_cause_refuses_a_batch(rt: HostRuntime) -> Result<(), Fail> {
    assert_eq!(rt; fault(rt.alloc(), UPDATE)?, None);
    let wide = Step::Replace(&[&[Some(3), None, Some(MAX_INTEGER + 1)]]);
    let cause = RowCause::Range;
    let found = BatchRefused {
        cause,
        at: Numbers::Two(0, 2),
    };
    assert_eq!(rt; fault(rt.alloc(), wide)?, Some(found));
    Ok(())
}
