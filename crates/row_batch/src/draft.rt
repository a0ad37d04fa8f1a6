ghost use Rattle.std.specs.Prelude.{◌≡◌, ◌+◌, ◌^◌, ◌<◌, ◌≤◌, [], ◌∷◌, ◌++◌, length, IfOk, OnOk};
ghost use Rattle.cell_core.specs.Schemas.{IsKeeping};
ghost use Rattle.row_batch.specs.Batches.{empty_store, put_patch, put_patches, put_batch, rows_in, pair_of, new_row};

use crate::batch::{Batch, Pair, Patch, PatchCell};
use crate::rows::{drop_key, drop_keys, key_in, new_row, put_at};
use cell_core::{Cell, Keeping, Memory, Schema};
use std::alloc::Global;
use std::marker::Model;

/// Rows that are made beside those of a table, and take their place once they are whole.
#[derive(Drop)]
pub struct Draft {
    pub pairs: Vec<Pair>,
    pub number: u64,
}

impl Model for Draft {
    ghost use Rattle.row_batch.specs.Batches.{Store};

    ghost Value = { Store };

    ghost view = { λ d. record { pairs = d.pairs.items; number = d.number } };
}

impl Draft {
    /// No rows.
    pub fn new(alloc: Global) -> Draft
        ensures { result ≡ empty_store }
    {
        Draft {
            pairs: Vec::new(alloc),
            number: 0,
        }
    }

    /// What the batch makes of these rows. After want of memory they are gone.
    pub fn after(mut self, alloc: Global, schema: &Schema, batch: &Batch) -> Result<Draft, Memory>
        requires { self.number + rows_in batch.now < 2 ^ 63 }
        ensures { IfOk result (λ draft. draft ≡ put_batch schema.now self batch.now) }
    {
        match batch {
            Batch::Update(patches) => {
                self.put_patches(alloc, schema, patches.as_slice())?;
                Ok(self)
            }
            Batch::Remove(keys) => {
                drop_keys(keys.as_slice(), &mut self.pairs);
                Ok(self)
            }
            Batch::Clear => Ok(Draft::new(alloc)),
            Batch::Replace(patches) => {
                let mut draft = Draft::new(alloc);
                draft.put_patches(alloc, schema, patches.as_slice())?;
                Ok(draft)
            }
        }
    }

    fn put_patches(
        &mut self,
        alloc: Global,
        schema: &Schema,
        patches: &[Patch],
    ) -> Result<(), Memory>
        requires { self.old.number + length patches.now < 2 ^ 63 }
        ensures { OnOk result (self.new ≡ put_patches schema.now self.old patches.now) }
    {
        let keeping = schema.keeping();
        let width = schema.width();
        for patch in patches {
            self.put_patch(alloc, keeping, width, patch.as_slice())?;
        }
        Ok(())
    }

    fn put_patch(
        &mut self,
        alloc: Global,
        keeping: Keeping,
        width: usize,
        patch: &[PatchCell],
    ) -> Result<(), Memory>
        requires fits { IsKeeping width keeping }
        requires room { self.old.number < 2 ^ 63 }
        ensures ok { OnOk result (self.new ≡ put_patch keeping width self.old patch.now) }
        ensures number { self.new.number ≤ self.old.number + 1 }
    {
        match keeping {
            Keeping::Indexed(column) => {
                let key = key_in(alloc, column, patch)?;
                put_at(alloc, width, key, patch, &mut self.pairs)
            }
            Keeping::Limited(slots) => {
                let slot = Cell::Int((self.number % slots as u64) as i64);
                drop_key(&slot, &mut self.pairs);
                self.append(alloc, slot, width, patch)
            }
            Keeping::Free => {
                let key = Cell::Int(self.number as i64);
                self.append(alloc, key, width, patch)
            }
        }
    }

    /// Puts a new row at the end, and counts it.
    fn append(
        &mut self,
        alloc: Global,
        key: Cell,
        width: usize,
        patch: &[PatchCell],
    ) -> Result<(), Memory>
        requires { self.old.number < 2 ^ 63 }
        ensures pairs { OnOk result (self.new.pairs ≡ self.old.pairs ++ pair_of key (new_row width patch.now) ∷ []) }
        ensures counted { OnOk result (self.new.number ≡ self.old.number + 1) }
        ensures number { self.new.number ≤ self.old.number + 1 }
    {
        let row = new_row(alloc, width, patch)?;
        self.pairs.push(Pair { key, row })?;
        self.number += 1;
        Ok(())
    }
}
