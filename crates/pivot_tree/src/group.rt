ghost use Rattle.std.specs.Prelude.{◌≡◌, List, [], All, map, OnOk, IfOk, Some};
ghost use Rattle.row_batch.specs.declared.batch.Pair.{Pair};
ghost use Rattle.row_batch.specs.Batches.{pair_of};
ghost use Rattle.plan_types.specs.declared.aggregate.AggName.{AggName};
ghost use Rattle.plan_types.specs.declared.plan.Named.{Named as NamedData};
ghost use Rattle.agg_core.specs.Aggregates.{aggregate};
ghost use Rattle.pivot_tree.specs.Columns.{aggregate_in};
ghost use Rattle.pivot_tree.specs.Groups.{CanPut, HasRow, Holds, IsGroupOf, cells_in, names_of, with_row, without_row};

use crate::column::ColumnAggregate;
use agg_core::{AnyAggregate, of_none};
use cell_core::{Cell, Memory, Row, Value};
use plan_types::Named;
use std::alloc::Global;

/// How many rows a group has, and the aggregates of columns over them.
#[derive(Drop)]
pub struct Group {
    pub rows: u64,
    pub aggregates: Vec<ColumnAggregate>,
}

impl Group {
    /// A group of no rows.
    pub fn make(alloc: Global, used: &[Named]) -> Result<Group, Memory>
        ensures { IfOk result (λ g. IsGroupOf used.now g []) }
    {
        let mut aggregates = Vec::new(alloc);
        for named in used {
            let aggregate = AnyAggregate::make(alloc, named.aggregate)?;
            aggregates.push(ColumnAggregate {
                column: named.column,
                aggregate,
            })?;
        }
        Ok(Group {
            rows: 0,
            aggregates,
        })
    }

    /// Takes a row in.
    pub fn add(&mut self, key: &Cell, row: &Row) -> Result<(), Memory>
        requires { (used : List NamedData) × (rows : List Pair) × IsGroupOf used self.old rows
            × CanPut used rows (pair_of key.now row.now) }
        ensures { OnOk result ((used : List NamedData) (rows : List Pair) → IsGroupOf used self.old rows
            → CanPut used rows (pair_of key.now row.now)
            → IsGroupOf used self.new (with_row rows (pair_of key.now row.now))) }
    {
        add_to_all(&mut self.aggregates, key, row)?;
        self.rows += 1;
        Ok(())
    }

    /// Takes a row out again.
    pub fn take_off(&mut self, key: &Cell, row: &Row)
        requires { (used : List NamedData) × (rows : List Pair) × IsGroupOf used self.old rows
            × HasRow rows (pair_of key.now row.now) }
        ensures { (used : List NamedData) (rows : List Pair) → IsGroupOf used self.old rows
            → HasRow rows (pair_of key.now row.now)
            → IsGroupOf used self.new (without_row rows (pair_of key.now row.now)) }
    {
        take_from_all(&mut self.aggregates, key, row);
        self.rows -= 1;
    }

    /// A column's aggregate over the rows, and none where it is null.
    pub fn value(&self, column: usize) -> Result<Option<Value>, Memory>
        ensures { IfOk result (λ value. (used : List NamedData) (rows : List Pair) (name : AggName)
            → IsGroupOf used self.now rows
            → aggregate_in used column ≡ Some name → value ≡ aggregate name (cells_in column rows)) }
    {
        for held in &self.aggregates {
            if held.column == column {
                return held.value();
            }
        }
        Ok(None)
    }

    /// A column's aggregate over no rows.
    pub fn value_of_none(&self, column: usize) -> Option<Value>
        ensures { (used : List NamedData) (rows : List Pair) (name : AggName) → IsGroupOf used self.now rows
            → aggregate_in used column ≡ Some name → result ≡ aggregate name [] }
    {
        for held in &self.aggregates {
            if held.column == column {
                return of_none(held.aggregate.name());
            }
        }
        None
    }
}

fn add_to_all(all: &mut Vec<ColumnAggregate>, key: &Cell, row: &Row) -> Result<(), Memory>
    requires { (rows : List Pair) × All (Holds rows) all.old.items
        × CanPut (names_of all.old.items) rows (pair_of key.now row.now) }
    ensures each { OnOk result ((rows : List Pair) → All (Holds rows) all.old.items
        → CanPut (names_of all.old.items) rows (pair_of key.now row.now)
        → All (Holds (with_row rows (pair_of key.now row.now))) all.new.items) }
    ensures names { OnOk result (names_of all.new.items ≡ names_of all.old.items) }
{
    for held in all.iter_mut() {
        held.add(key, row)?;
    }
    Ok(())
}

fn take_from_all(all: &mut Vec<ColumnAggregate>, key: &Cell, row: &Row)
    requires { (rows : List Pair) × All (Holds rows) all.old.items × HasRow rows (pair_of key.now row.now) }
    ensures each { (rows : List Pair) → All (Holds rows) all.old.items → HasRow rows (pair_of key.now row.now)
        → All (Holds (without_row rows (pair_of key.now row.now))) all.new.items }
    ensures names { names_of all.new.items ≡ names_of all.old.items }
{
    for held in all.iter_mut() {
        held.take_off(key, row);
    }
}
