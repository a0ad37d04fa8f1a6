ghost use Rattle.std.specs.Prelude.{◌≡◌, ◌+◌, ◌^◌, ◌<◌, ◌≤◌, length, IfOk, OnOk, OnErr};
ghost use Rattle.plain_data.specs.Distinct.{AreDistinct};
ghost use Rattle.cell_core.specs.declared.schema.Keeping.{Keeping};
ghost use Rattle.row_batch.specs.Batches.{empty_store, put_batch, rows_in};
ghost use Rattle.row_batch.specs.Tables.{keys_of_rows, IsCounted};

use crate::batch::{Batch, Pair};
use crate::draft::Draft;
use cell_core::{Copies, Listed, Memory, Schema};
use std::alloc::Global;
use std::marker::Model;

/// A table as a plain list of rows, each under its key, in the order in which their keys came. No
/// key stands twice. Each batch takes time in proportion to the rows of the table.
#[derive(Drop)]
pub struct PlainTable {
    pairs: Listed<Pair>,
    number: u64,
}

impl Model for PlainTable {
    ghost use Rattle.plain_data.specs.Distinct.{AreDistinct};
    ghost use Rattle.row_batch.specs.Batches.{Store};
    ghost use Rattle.row_batch.specs.Tables.{keys_of_rows};

    ghost Value = { Store };

    ghost view = { λ t. record { pairs = t.pairs; number = t.number } };

    ghost invariant = { λ t. AreDistinct (keys_of_rows t.pairs) };
}

impl PlainTable {
    /// A table with no rows. It takes no memory.
    pub fn new(alloc: Global) -> PlainTable
        ensures empty { result ≡ empty_store }
        ensures counted { (keeping : Keeping) → IsCounted keeping result }
    {
        PlainTable {
            pairs: Listed::new(alloc),
            number: 0,
        }
    }

    /// The rows under their keys.
    pub fn pairs(&self) -> &[Pair]
        ensures pairs { result.now ≡ self.now.pairs }
        ensures distinct { AreDistinct (keys_of_rows self.now.pairs) }
    {
        self.pairs.as_slice()
    }

    /// The number of rows.
    pub fn len(&self) -> usize
        ensures { result ≡ length self.now.pairs }
    {
        self.pairs.len()
    }

    /// How many rows a table without an index has been given since it was made or cleared.
    pub fn number(&self) -> u64
        ensures { result ≡ self.now.number }
    {
        self.number
    }

    /// Takes a batch whole. After want of memory the table is as before.
    pub fn put(&mut self, alloc: Global, schema: &Schema, batch: &Batch) -> Result<(), Memory>
        requires counted { IsCounted schema.now.keeping self.old }
        requires room { self.old.number + rows_in batch.now < 2 ^ 63 }
        ensures ok { OnOk result (self.new ≡ put_batch schema.now self.old batch.now) }
        ensures err { OnErr result (self.new ≡ self.old) }
        ensures counted { IsCounted schema.now.keeping self.new }
        ensures number { self.new.number ≤ self.old.number + rows_in batch.now }
    {
        let draft = self.draft(alloc)?;
        *self = PlainTable::from_draft(draft.after(alloc, schema, batch)?);
        Ok(())
    }

    /// A copy of the rows, to be changed beside them.
    fn draft(&self, alloc: Global) -> Result<Draft, Memory>
        ensures copy { IfOk result (λ draft. draft ≡ self.now) }
        ensures distinct { AreDistinct (keys_of_rows self.now.pairs) }
    {
        let pairs = self.pairs.copy(alloc)?;
        Ok(Draft {
            pairs: pairs.into_vec(),
            number: self.number,
        })
    }

    fn from_draft(draft: Draft) -> PlainTable
        requires { AreDistinct (keys_of_rows draft.pairs) }
        ensures { result ≡ draft }
    {
        let Draft { pairs, number } = draft;
        PlainTable {
            pairs: Listed::from_vec(pairs),
            number,
        }
    }
}
