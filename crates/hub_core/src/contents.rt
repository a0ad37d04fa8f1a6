ghost use Rattle.std.specs.Prelude.{◌≡◌, ℕ, Some, Ok, false, IfOk, IfErr};
ghost use Rattle.row_batch.specs.Checks.{IsChecked};
ghost use Rattle.hub_spec.specs.Reading.{read_batch};
ghost use Rattle.hub_core.specs.Queueing.{asked_by, lacks_index, reading};
ghost use Rattle.hub_core.specs.Refusing.{IsUnread, TestedInMemory};

use crate::refused;
use cell_core::{Raw, Schema, Text};
use csv_rows::csv_patches;
use frame_types::Refusal;
use json_rows::{batch_keys, batch_rows};
use row_batch::{Batch, RowsRefused};
use std::alloc::Global;

/// What a request asks to queue, before it is read for the table.
#[derive(Drop)]
pub enum Contents {
    /// Rows to be put.
    Update(Raw),
    /// Rows to be put once all others are removed.
    Replace(Raw),
    /// Rows to be put, as a text of CSV.
    Csv(Text),
    /// Keys of rows to be removed.
    Remove(Raw),
    /// That all rows be removed.
    Clear,
}

impl Contents {
    /// The batch that it is for a table of that schema, or the first cause against it.
    pub fn read(&self, alloc: Global, schema: &Schema) -> Result<Batch, Refusal>
        ensures tested { (port : ℕ) → TestedInMemory (reading schema.now port self.now) result }
        ensures ok { IfOk result (λ batch. (port : ℕ) → read_batch schema.now (asked_by port self.now) ≡ Some (Ok batch)) }
        ensures checked { IfOk result (IsChecked schema.now) }
    {
        if self.lacks_index(schema) {
            return Err(refused::not_indexed());
        }
        match self.batch(alloc, schema) {
            Ok(batch) => Ok(batch),
            Err(why) => Err(refused::rows(why)),
        }
    }

    /// Whether these are keys for a table that has no primary key.
    fn lacks_index(&self, schema: &Schema) -> bool
        ensures { result ≡ lacks_index schema.now self.now }
    {
        match self {
            Contents::Remove(_) => !schema.keeping().is_indexed(),
            _ => false,
        }
    }

    fn batch(&self, alloc: Global, schema: &Schema) -> Result<Batch, RowsRefused>
        requires { lacks_index schema.now self.now ≡ false }
        ensures ok { IfOk result (λ batch. (port : ℕ) → read_batch schema.now (asked_by port self.now) ≡ Some (Ok batch)) }
        ensures err { IfErr result (λ why. (port : ℕ) → IsUnread (read_batch schema.now (asked_by port self.now)) why) }
        ensures checked { IfOk result (IsChecked schema.now) }
    {
        Ok(match self {
            Contents::Update(rows) => Batch::Update(batch_rows(alloc, schema, rows)?),
            Contents::Replace(rows) => Batch::Replace(batch_rows(alloc, schema, rows)?),
            Contents::Csv(text) => Batch::Update(csv_patches(alloc, schema, text)?),
            Contents::Remove(keys) => Batch::Remove(batch_keys(alloc, schema, keys)?),
            Contents::Clear => Batch::Clear,
        })
    }
}
