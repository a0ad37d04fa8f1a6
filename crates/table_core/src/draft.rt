ghost use Rattle.std.specs.Prelude.{◌≡◌, ◌+◌, ◌^◌, ◌<◌, ◌≤◌, ◌||◌, [], ◌∷◌, ◌++◌, length, take, fold, IsTrue};
ghost use Rattle.std.specs.Prelude.{is_some, option_copied, option_map, option_to_list, Option, IfOk, OnOk};
ghost use Rattle.cell_core.specs.Schemas.{IsKeeping, IsSchema};
ghost use Rattle.row_batch.specs.Batches.{put_batch};
ghost use Rattle.row_batch.specs.Changes.{max_rows, row_at};
ghost use Rattle.row_batch.specs.Steps.{key_of_step, row_of_step, number_of_step, change_of_step, after_step};
ghost use Rattle.row_batch.specs.Steps.{step_changes, removal, removals, clearing, changes_of};
ghost use Rattle.table_core.specs.Lookups.{pairs_of, one_if};

use crate::lookup::{Finals, Rows, find, put, size};
use cell_core::{Cell, Copies, Keeping, MAX_ROWS, Memory, Row, Schema};
use indexmap::IndexMap;
use row_batch::{Batch, Patch, PatchCell, RowChange, key_in, new_row, patched};
use std::alloc::Global;

/// The changes of a batch, and what they make of rows that stay as they are meanwhile.
#[derive(Drop)]
pub struct DraftedBatch {
    pub changes: Vec<RowChange>,
    pub finals: Finals,
    /// How many rows there are after the changes.
    pub size: usize,
    /// How far rows are counted after them.
    pub number: u64,
}

/// The greatest running number, 2^63 - 1.
const LAST_NUMBER: u64 = 9_223_372_036_854_775_807;

impl DraftedBatch {
    ghost use Rattle.table_core.specs.Drafts.{drafted_store, change_at, IsDraftFor};

    /// The draft of a batch.
    pub fn of(
        alloc: Global,
        schema: &Schema,
        rows: &Rows,
        number: u64,
        batch: &Batch,
    ) -> Result<DraftedBatch, Memory>
        requires few { length rows.now.entries ≤ max_rows }
        requires counted { number < 2 ^ 63 }
        ensures schema { IsSchema schema.now }
        ensures draft { IfOk result (IsDraftFor (pairs_of rows.now.entries)) }
        ensures changes { IfOk result (λ d. d.changes.items
            ≡ changes_of schema.now (record { pairs = pairs_of rows.now.entries; number = number }) batch.now) }
        ensures number { IfOk result (λ d. d.number
            ≡ (put_batch schema.now (record { pairs = pairs_of rows.now.entries; number = number }) batch.now).number) }
    {
        let keeping = schema.keeping();
        let width = schema.width();
        let mut draft = DraftedBatch::new(alloc, rows, number);
        match batch {
            Batch::Update(patches) => {
                draft.put_patches(alloc, rows, keeping, width, patches.as_slice())?;
                Ok(draft)
            }
            Batch::Remove(keys) => {
                draft.remove_keys(alloc, rows, keys.as_slice())?;
                Ok(draft)
            }
            Batch::Clear => {
                draft.clear(alloc, rows)?;
                Ok(draft)
            }
            Batch::Replace(patches) => {
                draft.clear(alloc, rows)?;
                draft.put_patches(alloc, rows, keeping, width, patches.as_slice())?;
                Ok(draft)
            }
        }
    }

    fn new(alloc: Global, rows: &Rows, number: u64) -> DraftedBatch
        requires few { length rows.now.entries ≤ max_rows }
        requires counted { number < 2 ^ 63 }
        ensures draft { IsDraftFor (pairs_of rows.now.entries) result }
        ensures changes { result.changes.items ≡ [] }
        ensures number { result.number ≡ number }
    {
        DraftedBatch {
            changes: Vec::new(alloc),
            finals: IndexMap::new(alloc),
            size: size(rows),
            number,
        }
    }

    fn put_patches(
        &mut self,
        alloc: Global,
        rows: &Rows,
        keeping: Keeping,
        width: usize,
        patches: &[Patch],
    ) -> Result<(), Memory>
        requires fits { IsKeeping width keeping }
        requires draft { IsDraftFor (pairs_of rows.now.entries) self.old }
        ensures draft { OnOk result (IsDraftFor (pairs_of rows.now.entries) self.new) }
        ensures changes { OnOk result (self.new.changes.items
            ≡ self.old.changes.items
            ++ step_changes keeping width (drafted_store (pairs_of rows.now.entries) self.old) patches.now) }
        ensures number { OnOk result (self.new.number
            ≡ (fold (after_step keeping width)
            (drafted_store (pairs_of rows.now.entries) self.old) patches.now).number) }
    {
        for patch in patches {
            self.put_patch(alloc, rows, keeping, width, patch.as_slice())?;
        }
        Ok(())
    }

    fn put_patch(
        &mut self,
        alloc: Global,
        rows: &Rows,
        keeping: Keeping,
        width: usize,
        patch: &[PatchCell],
    ) -> Result<(), Memory>
        requires fits { IsKeeping width keeping }
        requires draft { IsDraftFor (pairs_of rows.now.entries) self.old }
        ensures draft { OnOk result (IsDraftFor (pairs_of rows.now.entries) self.new) }
        ensures changes { OnOk result (self.new.changes.items
            ≡ self.old.changes.items
            ++ change_of_step keeping width (drafted_store (pairs_of rows.now.entries) self.old) patch.now ∷ []) }
        ensures number { OnOk result (self.new.number ≡ number_of_step keeping self.old.number) }
    {
        let key = step_key(alloc, keeping, width, self.number, patch)?;
        let row = step_row(alloc, keeping, width, self.current(rows, &key), patch)?;
        let number = step_number(keeping, self.number)?;
        self.change(alloc, rows, key, Some(row))?;
        self.number = number;
        Ok(())
    }

    fn remove_keys(&mut self, alloc: Global, rows: &Rows, keys: &[Cell]) -> Result<(), Memory>
        requires draft { IsDraftFor (pairs_of rows.now.entries) self.old }
        ensures draft { OnOk result (IsDraftFor (pairs_of rows.now.entries) self.new) }
        ensures changes { OnOk result (self.new.changes.items
            ≡ self.old.changes.items
            ++ removals (drafted_store (pairs_of rows.now.entries) self.old).pairs keys.now) }
        ensures number { self.new.number ≡ self.old.number }
    {
        for key in keys {
            self.remove(alloc, rows, key)?;
        }
        Ok(())
    }

    /// Removes the row of that key, where there is one.
    fn remove(&mut self, alloc: Global, rows: &Rows, key: &Cell) -> Result<(), Memory>
        requires draft { IsDraftFor (pairs_of rows.now.entries) self.old }
        ensures draft { OnOk result (IsDraftFor (pairs_of rows.now.entries) self.new) }
        ensures changes { OnOk result (self.new.changes.items
            ≡ self.old.changes.items ++ option_to_list (option_map (removal key.now)
            (row_at (drafted_store (pairs_of rows.now.entries) self.old).pairs key.now))) }
        ensures number { self.new.number ≡ self.old.number }
    {
        if self.current(rows, key).is_none() {
            return Ok(());
        }
        let key = key.copy(alloc)?;
        self.change(alloc, rows, key, None)
    }

    /// Removes every row, and counts rows from 0 again.
    fn clear(&mut self, alloc: Global, rows: &Rows) -> Result<(), Memory>
        requires draft { IsDraftFor (pairs_of rows.now.entries) self.old }
        requires begins { self.old.changes.items ≡ [] }
        ensures draft { OnOk result (IsDraftFor (pairs_of rows.now.entries) self.new) }
        ensures changes { OnOk result (self.new.changes.items ≡ clearing (pairs_of rows.now.entries)) }
        ensures number { OnOk result (self.new.number ≡ 0) }
    {
        for i in 0..size(rows) {
            self.clear_at(alloc, rows, i)?;
        }
        self.number = 0;
        Ok(())
    }

    /// Removes the row at a place, after all before it.
    fn clear_at(&mut self, alloc: Global, rows: &Rows, i: usize) -> Result<(), Memory>
        requires draft { IsDraftFor (pairs_of rows.now.entries) self.old }
        requires within { i < length rows.now.entries }
        requires begins { self.old.changes.items ≡ clearing (take i (pairs_of rows.now.entries)) }
        ensures draft { OnOk result (IsDraftFor (pairs_of rows.now.entries) self.new) }
        ensures changes { OnOk result (self.new.changes.items ≡ clearing (take (i + 1) (pairs_of rows.now.entries))) }
    {
        let (key, _) = rows.get_index(i).unwrap();
        let key = key.copy(alloc)?;
        self.change(alloc, rows, key, None)?;
        Ok(())
    }

    /// The row that stands at the key after the changes.
    fn current<'a>(&'a self, rows: &'a Rows, key: &Cell) -> Option<&'a Row>
        requires draft { IsDraftFor (pairs_of rows.now.entries) self.now }
        ensures { option_copied result ≡ row_at (drafted_store (pairs_of rows.now.entries) self.now).pairs key.now }
    {
        match find(&self.finals, key) {
            Some(row) => row.as_ref(),
            None => find(rows, key),
        }
    }

    /// One more change: the row at the key becomes `new`.
    fn change(
        &mut self,
        alloc: Global,
        rows: &Rows,
        key: Cell,
        new: Option<Row>,
    ) -> Result<(), Memory>
        requires draft { IsDraftFor (pairs_of rows.now.entries) self.old }
        requires row { IsTrue
            (is_some (row_at (drafted_store (pairs_of rows.now.entries) self.old).pairs key) || is_some new) }
        ensures draft { OnOk result (IsDraftFor (pairs_of rows.now.entries) self.new) }
        ensures changes { OnOk result (self.new.changes.items
            ≡ self.old.changes.items ++ change_at (pairs_of rows.now.entries) self.old key new ∷ []) }
        ensures number { self.new.number ≡ self.old.number }
    {
        let old = copied(alloc, self.current(rows, &key))?;
        let size = size_after(self.size, old.is_some(), new.is_some())?;
        let row = copied(alloc, new.as_ref())?;
        put(&mut self.finals, key.copy(alloc)?, row)?;
        self.changes.push(RowChange { key, old, new })?;
        self.size = size;
        Ok(())
    }
}

fn copied(alloc: Global, row: Option<&Row>) -> Result<Option<Row>, Memory>
    ensures { IfOk result (λ copy. copy ≡ option_copied row.entry) }
{
    match row {
        Some(row) => Ok(Some(row.copy(alloc)?)),
        None => Ok(None),
    }
}

/// The number of rows once a key that had a row, or none, has one, or none. More than a table may have
/// are want of memory.
fn size_after(size: usize, had: bool, has: bool) -> Result<usize, Memory>
    requires some { one_if had ≤ size }
    requires few { size ≤ max_rows }
    ensures size { IfOk result (λ after. after + one_if had ≡ size + one_if has) }
    ensures few { IfOk result (λ after. after ≤ max_rows) }
{
    match (had, has) {
        (true, false) => Ok(size - 1),
        (false, true) if size < MAX_ROWS as usize => Ok(size + 1),
        (false, true) => Err(Memory),
        _ => Ok(size),
    }
}

fn step_key(
    alloc: Global,
    keeping: Keeping,
    width: usize,
    number: u64,
    patch: &[PatchCell],
) -> Result<Cell, Memory>
    requires counted { number < 2 ^ 63 }
    requires fits { IsKeeping width keeping }
    ensures { IfOk result (λ key. key ≡ key_of_step keeping number patch.now) }
{
    match keeping {
        Keeping::Indexed(column) => key_in(alloc, column, patch),
        Keeping::Limited(slots) => Ok(Cell::Int((number % slots as u64) as i64)),
        Keeping::Free => Ok(Cell::Int(number as i64)),
    }
}

fn step_row(
    alloc: Global,
    keeping: Keeping,
    width: usize,
    old: Option<&Row>,
    patch: &[PatchCell],
) -> Result<Row, Memory>
    ensures { IfOk result (λ row. row ≡ row_of_step keeping width patch.now (option_copied old.entry)) }
{
    match (keeping, old) {
        (Keeping::Indexed(_), Some(row)) => patched(alloc, row.as_slice(), patch),
        _ => new_row(alloc, width, patch),
    }
}

/// The running number after a row. A greater one than the last is want of memory.
fn step_number(keeping: Keeping, number: u64) -> Result<u64, Memory>
    requires counted { number < 2 ^ 63 }
    ensures number { IfOk result (λ after. after ≡ number_of_step keeping number) }
    ensures counted { IfOk result (λ after. after < 2 ^ 63) }
{
    match keeping {
        Keeping::Indexed(_) => Ok(number),
        Keeping::Limited(_) | Keeping::Free => {
            if number < LAST_NUMBER {
                Ok(number + 1)
            } else {
                Err(Memory)
            }
        }
    }
}
