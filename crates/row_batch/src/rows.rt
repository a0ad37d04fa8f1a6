ghost use Rattle.std.specs.Prelude.{◌≡◌, ◌<◌, length, position, replicate, slice_index_or, IfOk, IfSome, OnOk};
ghost use Rattle.std.specs.List.{list_any};
ghost use Rattle.cell_core.specs.Cells.{same_cell};
ghost use Rattle.cell_core.specs.declared.cell.Cell.TheVariants as cell;
ghost use Rattle.row_batch.specs.declared.batch.PatchCell.TheVariants as patch_cell;
ghost use Rattle.row_batch.specs.Batches.{patched_cell, patched, new_row, put_at, key_in, without};

use crate::batch::{Pair, PatchCell};
use cell_core::{Cell, Copies, Listed, Memory, Row};
use std::alloc::Global;

/// The row after a patch: the old cell where the patch keeps it, and else the cell that it sets.
pub fn patched(alloc: Global, row: &[Cell], patch: &[PatchCell]) -> Result<Row, Memory>
    ensures { IfOk result (λ new. new ≡ patched row.now patch.now) }
{
    let mut cells = Vec::new(alloc);
    for (i, old) in row.iter().enumerate() {
        cells.push(patched_at(alloc, old, patch, i)?)?;
    }
    Ok(Listed::from_vec(cells))
}

/// What a patch makes of the cell of one column.
fn patched_at(alloc: Global, old: &Cell, patch: &[PatchCell], column: usize) -> Result<Cell, Memory>
    ensures { IfOk result (λ new. new
        ≡ patched_cell old.now (slice_index_or patch.now column patch_cell.Keep)) }
{
    match patch.get(column) {
        Some(PatchCell::Set(cell)) => cell.copy(alloc),
        _ => old.copy(alloc),
    }
}

/// A new row: null in each column that its patch keeps.
pub fn new_row(alloc: Global, width: usize, patch: &[PatchCell]) -> Result<Row, Memory>
    ensures { IfOk result (λ row. row ≡ new_row width patch.now) }
{
    let nulls = nulls(alloc, width)?;
    patched(alloc, nulls.as_slice(), patch)
}

fn nulls(alloc: Global, width: usize) -> Result<Vec<Cell>, Memory>
    ensures { IfOk result (λ row. row.items ≡ replicate width cell.Null) }
{
    let mut row = Vec::new(alloc);
    for _ in 0..width {
        row.push(Cell::Null)?;
    }
    Ok(row)
}

/// The cell that a patch sets in a column, and null where it keeps that column.
pub fn key_in(alloc: Global, column: usize, patch: &[PatchCell]) -> Result<Cell, Memory>
    ensures { IfOk result (λ key. key ≡ key_in column patch.now) }
{
    patched_at(alloc, &Cell::Null, patch, column)
}

/// Patches the row of that key, or puts a new row at the end. After want of memory nothing is said
/// of the rows.
pub fn put_at(
    alloc: Global,
    width: usize,
    key: Cell,
    patch: &[PatchCell],
    pairs: &mut Vec<Pair>,
) -> Result<(), Memory>
    ensures { OnOk result (pairs.new.items ≡ put_at width key patch.now pairs.old.items) }
{
    match place_of(pairs.as_slice(), &key) {
        Some(place) => {
            let pair = &mut pairs[place];
            let row = patched(alloc, pair.row.as_slice(), patch)?;
            pair.row = row;
        }
        None => {
            let row = new_row(alloc, width, patch)?;
            pairs.push(Pair { key, row })?;
        }
    }
    Ok(())
}

fn place_of(pairs: &[Pair], key: &Cell) -> Option<usize>
    ensures place { result ≡ position (λ p. same_cell p.key key.now) pairs.now }
    ensures within { IfSome result (λ place. place < length pairs.now) }
{
    pairs.iter().position(|pair| pair.key.order(key).is_eq())
}

/// Drops the row of that key.
pub fn drop_key(key: &Cell, pairs: &mut Vec<Pair>)
    ensures { pairs.new.items ≡ without (same_cell key.now) pairs.old.items }
{
    pairs.retain(|pair| !key.order(&pair.key).is_eq());
}

/// Drops the rows of those keys.
pub fn drop_keys(keys: &[Cell], pairs: &mut Vec<Pair>)
    ensures { pairs.new.items ≡ without (λ key. list_any (same_cell key) keys.now) pairs.old.items }
{
    pairs.retain(|pair| !is_among(&pair.key, keys));
}

fn is_among(key: &Cell, keys: &[Cell]) -> bool
    ensures { result ≡ list_any (same_cell key.now) keys.now }
{
    keys.iter().any(|other| key.order(other).is_eq())
}
