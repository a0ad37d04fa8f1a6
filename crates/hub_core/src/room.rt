ghost use Rattle.std.specs.Prelude.{◌≡◌, List, [], ◌∷◌, ◌++◌, ◌+◌, map, IfOk, IfSome, OnOk};
ghost use Rattle.std.specs.List.{flat_map, list_any};
ghost use Rattle.cell_core.specs.Cells.{same_cell};
ghost use Rattle.cell_core.specs.declared.cell.Cell.{Cell};
ghost use Rattle.row_batch.specs.Batches.{key_in};
ghost use Rattle.row_batch.specs.Tables.{keys_of_rows};
ghost use Rattle.hub_ports.specs.Ports.{waiting_on};
ghost use Rattle.hub_spec.specs.Room.{different, keys_put};
ghost use Rattle.hub_core.specs.Rooms.{IsCounted, over, room_taken};

use crate::engine::Engine;
use cell_core::{Cell, Copies, Keeping, MAX_ROWS, Memory, Steps};
use port_queue::PortQueue;
use row_batch::{Batch, Patch, PatchCell};
use std::alloc::Global;
use std::collections::BTreeMap;
use std::sync::ledger::Ledger;
use table_core::Table;

/// Keys that the table doesn't hold.
type NewKeys = BTreeMap<Cell, ()>;

impl Engine {
    /// How many rows the table may come to with the waiting batches and one more, where these are more
    /// than 65,536.
    pub fn too_many_rows<L: Ledger>(
        &self,
        batch: &Batch,
        steps: &mut Steps<L>,
    ) -> Result<Option<u64>, Memory>
        ensures { IfOk result (λ would. would ≡ over (room_taken self.now.table self.now.ports batch.now)) }
    {
        let rows = self.table.len() as u64;
        let Some(all) = sum_of(rows, self.ports.rows_waiting(), batch.rows() as u64) else {
            return Err(Memory);
        };
        if all <= MAX_ROWS as u64 {
            return Ok(None);
        }
        match self.table.schema().keeping() {
            Keeping::Indexed(column) => self.too_many_keys(column, batch, steps),
            Keeping::Limited(_) => Ok(None),
            Keeping::Free => Ok(Some(all)),
        }
    }

    /// The same of a table with an index: rows of one key are one row.
    fn too_many_keys<L: Ledger>(
        &self,
        column: usize,
        batch: &Batch,
        steps: &mut Steps<L>,
    ) -> Result<Option<u64>, Memory>
        ensures { IfOk result (λ would. would
            ≡ over (different (keys_of_rows self.now.table.store.pairs ++ flat_map (keys_put column) (waiting_on self.now.ports.live ++ batch.now ∷ [])))) }
    {
        let table = &self.table;
        let rows = table.len() as u64;
        let mut found = NewKeys::new(self.alloc);
        for port in self.ports.as_slice() {
            note_queue(table, column, &port.queue, self.alloc, &mut found, steps)?;
        }
        note_batch(table, column, batch, self.alloc, &mut found, steps)?;
        match rows.checked_add(found.len() as u64) {
            Some(would) => Ok(if_over(would)),
            None => Err(Memory),
        }
    }
}

fn sum_of(a: u64, b: u64, c: u64) -> Option<u64>
    ensures { IfSome result (λ sum. sum ≡ a + b + c) }
{
    a.checked_add(b)?.checked_add(c)
}

/// The number of rows, where a table may not have so many.
fn if_over(would: u64) -> Option<u64>
    ensures { result ≡ over would }
{
    if would > MAX_ROWS as u64 {
        Some(would)
    } else {
        None
    }
}

/// Notes the keys under which the batches of a queue put rows.
fn note_queue<L: Ledger>(
    table: &Table,
    column: usize,
    queue: &PortQueue,
    alloc: Global,
    found: &mut NewKeys,
    steps: &mut Steps<L>,
) -> Result<(), Memory>
    ensures { OnOk result ((keys : List Cell) → IsCounted (keys_of_rows table.now.store.pairs) found.old keys
        → IsCounted (keys_of_rows table.now.store.pairs) found.new (keys ++ flat_map (keys_put column) queue.now.waiting)) }
{
    for i in 0..queue.waiting() {
        if let Some(batch) = queue.at(i) {
            note_batch(table, column, batch, alloc, found, steps)?;
        }
    }
    Ok(())
}

/// Notes the keys under which a batch puts rows.
fn note_batch<L: Ledger>(
    table: &Table,
    column: usize,
    batch: &Batch,
    alloc: Global,
    found: &mut NewKeys,
    steps: &mut Steps<L>,
) -> Result<(), Memory>
    ensures { OnOk result ((keys : List Cell) → IsCounted (keys_of_rows table.now.store.pairs) found.old keys
        → IsCounted (keys_of_rows table.now.store.pairs) found.new (keys ++ keys_put column batch.now)) }
{
    match batch {
        Batch::Update(patches) | Batch::Replace(patches) => {
            note_patches(table, column, patches.as_slice(), alloc, found, steps)
        }
        Batch::Remove(_) | Batch::Clear => Ok(()),
    }
}

fn note_patches<L: Ledger>(
    table: &Table,
    column: usize,
    patches: &[Patch],
    alloc: Global,
    found: &mut NewKeys,
    steps: &mut Steps<L>,
) -> Result<(), Memory>
    ensures { OnOk result ((keys : List Cell) → IsCounted (keys_of_rows table.now.store.pairs) found.old keys
        → IsCounted (keys_of_rows table.now.store.pairs) found.new (keys ++ map (key_in column) patches.now)) }
{
    for patch in patches {
        note_patch(table, column, patch.as_slice(), alloc, found, steps)?;
    }
    Ok(())
}

fn note_patch<L: Ledger>(
    table: &Table,
    column: usize,
    patch: &[PatchCell],
    alloc: Global,
    found: &mut NewKeys,
    steps: &mut Steps<L>,
) -> Result<(), Memory>
    ensures { OnOk result ((keys : List Cell) → IsCounted (keys_of_rows table.now.store.pairs) found.old keys
        → IsCounted (keys_of_rows table.now.store.pairs) found.new (keys ++ key_in column patch.now ∷ [])) }
{
    match patch.get(column) {
        Some(PatchCell::Set(key)) => note_key(table, key, alloc, found, steps),
        _ => note_key(table, &Cell::Null, alloc, found, steps),
    }
}

/// Notes a key that neither the table holds nor was found before.
fn note_key<L: Ledger>(
    table: &Table,
    key: &Cell,
    alloc: Global,
    found: &mut NewKeys,
    steps: &mut Steps<L>,
) -> Result<(), Memory>
    ensures { OnOk result ((keys : List Cell) → IsCounted (keys_of_rows table.now.store.pairs) found.old keys
        → IsCounted (keys_of_rows table.now.store.pairs) found.new (keys ++ key.now ∷ [])) }
{
    if !has_row(table, key, steps) && !found.contains_key(key) {
        drop(found.insert(key.copy(alloc)?, ())?);
    }
    Ok(())
}

/// Whether the table holds a row of that key.
fn has_row<L: Ledger>(table: &Table, key: &Cell, steps: &mut Steps<L>) -> bool
    ensures { result ≡ list_any (λ p. same_cell key.now p.key) table.now.store.pairs }
{
    table.row(key, steps).is_some()
}
