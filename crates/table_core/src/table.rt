ghost use Rattle.std.specs.Prelude.{◌≡◌, ◌+◌, length, option_copied, option_map, slice_get, IfOk, IfErr};
ghost use Rattle.row_batch.specs.Batches.{empty_store, pair_of, put_batch};
ghost use Rattle.row_batch.specs.Changes.{row_at, AreChangesOf};
ghost use Rattle.row_batch.specs.Checks.{IsChecked};
ghost use Rattle.row_batch.specs.Tables.{IsTable, IsReordered};
ghost use Rattle.table_core.specs.Tables.{IsStill};

use crate::draft::DraftedBatch;
use crate::lookup::{Finals, Rows, find, puts, settle, size};
use cell_core::{Cell, Listed, Memory, Row, Schema, Steps};
use indexmap::IndexMap;
use row_batch::{Batch, Changes, RowChange};
use std::alloc::Global;
use std::marker::Model;
use std::snapshot::Snapshot;
use std::sync::ledger::Ledger;

/// The rows of a table by their keys. Contracts see them as a list in an order that is the table's own.
#[derive(Drop)]
pub struct Table {
    schema: Schema,
    rows: Rows,
    number: u64,
}

impl Model for Table {
    ghost use Rattle.indexmap.specs.IndexMap.{spare};
    ghost use Rattle.row_batch.specs.Tables.{IsTable};
    ghost use Rattle.table_core.specs.Lookups.{pairs_of};
    ghost use Rattle.table_core.specs.Tables.{TableData};

    ghost Value = { TableData };

    ghost view = { λ t. record {
      schema = t.schema;
      store = record { pairs = pairs_of t.rows.entries; number = t.number };
      room = spare t.rows;
    } };

    ghost invariant = { λ t. IsTable t.schema (record { pairs = pairs_of t.rows.entries; number = t.number }) };
}

/// All that a batch needs to be applied: its changes, and copies of the rows after it.
#[derive(Drop)]
pub struct Prepared {
    table: Snapshot<Table>,
    batch: Snapshot<Batch>,
    changes: Vec<RowChange>,
    finals: Finals,
    number: u64,
}

impl Model for Prepared {
    ghost use Rattle.table_core.specs.Tables.{PreparedData};
    ghost use Rattle.table_core.specs.Prepared.{IsPrepared};

    ghost Value = { PreparedData };

    ghost view = { λ p. record { table = p.table.value; batch = p.batch.value } };

    ghost invariant = { λ p. IsPrepared p.table.value p.batch.value p.changes.items p.finals.entries p.number };
}

/// For how many rows a new table has room.
const FIRST_ROOM: usize = 8;

impl Table {
    /// A table with no rows. After want of memory the schema comes back.
    pub fn make(alloc: Global, schema: Schema) -> Result<Table, (Memory, Schema)>
        ensures schema { IfOk result (λ table. table.schema ≡ schema) }
        ensures empty { IfOk result (λ table. table.store ≡ empty_store) }
        ensures err { IfErr result (λ refused. refused.1 ≡ schema) }
    {
        match IndexMap::with_capacity(alloc, FIRST_ROOM) {
            Ok(rows) => Ok(Table {
                schema,
                rows,
                number: 0,
            }),
            Err(_refused) => Err((Memory, schema)),
        }
    }

    pub fn schema(&self) -> &Schema
        ensures { result.now ≡ self.now.schema }
    {
        &self.schema
    }

    /// The number of rows.
    pub fn len(&self) -> usize
        ensures size { result ≡ length self.now.store.pairs }
        ensures table { IsTable self.now.schema self.now.store }
    {
        self.rows.len()
    }

    /// The row at a key.
    pub fn row<L: Ledger>(&self, key: &Cell, steps: &mut Steps<L>) -> Option<&Row>
        ensures row { option_copied result ≡ row_at self.now.store.pairs key.now }
        ensures steps { steps.new ≡ steps.old + 1 }
    {
        steps.tick();
        find(&self.rows, key)
    }

    /// The row at a place below `len`, in the table's own order.
    pub fn at<L: Ledger>(&self, i: usize, steps: &mut Steps<L>) -> Option<(&Cell, &Row)>
        ensures pair { option_map (λ p. pair_of p.0.now p.1.now) result ≡ slice_get self.now.store.pairs i }
        ensures steps { steps.new ≡ steps.old + 1 }
    {
        steps.tick();
        self.rows.get_index(i)
    }

    /// Makes all room and all copies that a batch needs, and leaves the rows as they are, also after want of
    /// memory. Each old row is copied once and each new row twice. Want of memory is the answer too where the
    /// batch would make more than 65,536 rows, or a running number above 2^63 - 1.
    pub fn prepare(&mut self, alloc: Global, batch: &Batch) -> Result<Prepared, Memory>
        requires checked { IsChecked self.old.schema batch.now }
        ensures still { IsStill self.old self.new }
        ensures table { IfOk result (λ prepared. prepared.table ≡ self.new) }
        ensures batch { IfOk result (λ prepared. prepared.batch ≡ batch.now) }
    {
        let draft = DraftedBatch::of(alloc, &self.schema, &self.rows, self.number, batch)?;
        self.rows.reserve(puts(&draft.finals))?;
        let DraftedBatch {
            changes,
            finals,
            size: _,
            number,
        } = draft;
        Ok(Prepared {
            table: Snapshot::of(self),
            batch: Snapshot::of(batch),
            changes,
            finals,
            number,
        })
    }

    /// Applies a batch that was prepared while the rows were as they are, and answers its changes. It takes no
    /// memory.
    pub fn apply(&mut self, prepared: Prepared) -> Changes
        requires still { IsStill prepared.table self.old }
        ensures schema { self.new.schema ≡ self.old.schema }
        ensures rows { IsReordered (put_batch self.old.schema self.old.store prepared.batch) self.new.store }
        ensures changes { AreChangesOf self.old.schema self.old.store prepared.batch result }
    {
        let Prepared {
            table: _,
            batch: _,
            changes,
            finals,
            number,
        } = prepared;
        settle(&mut self.rows, finals);
        self.number = number;
        Listed::from_vec(changes)
    }
}
