ghost use Rattle.std.specs.Prelude.{◌≡◌, ◌<◌, ◌^◌, [], length, is_some, slice_get, IfSome, OnOk, OnErr};
ghost use Rattle.std.specs.List.{All};
ghost use Rattle.std.specs.List.Sorted.{IsStrictlySortedBy};
ghost use Rattle.std.specs.Map.{keys_of, values_of, lookup};
ghost use Rattle.std.specs.Option.{option_copied};
ghost use Rattle.std.specs.Set.{remove_key};
ghost use Rattle.plain_data.specs.Sorting.{insert_by};
ghost use Rattle.cell_core.specs.Cells.{cell_order, same_cell};
ghost use Rattle.cell_core.specs.Limits.{max_rows};
ghost use Rattle.agg_core.specs.Aggregates.{different, is_other, last_of, middle, most_frequent, only_one};
ghost use Rattle.agg_core.specs.Bags.{repeated, with_other, without_other};

use crate::walk;
use cell_core::{Cell, Copies, Memory};
use std::alloc::Global;
use std::collections::BTreeMap;
use std::marker::Model;

/// Cells that aren't null, each as often as it was put in, which contracts see as their ascending
/// list. It keeps each different cell once, with its count, in an ordered map.
#[derive(Drop)]
pub struct Bag {
    counts: BTreeMap<Cell, u64>,
    count: u64,
    alloc: Global,
}

impl Model for Bag {
    ghost use Rattle.std.specs.Prelude.{List};
    ghost use Rattle.cell_core.specs.declared.cell.Cell.{Cell};
    ghost use Rattle.agg_core.specs.Bags.{AreCounts, repeated};

    ghost Value = { List Cell };

    ghost view = { λ bag. repeated bag.counts.entries };

    ghost invariant = { λ bag. AreCounts bag.counts.entries bag.count };
}

impl Bag {
    pub fn new(alloc: Global) -> Bag
        ensures { result ≡ [] }
    {
        Bag {
            counts: BTreeMap::new(alloc),
            count: 0,
            alloc,
        }
    }

    /// Puts a cell in, unless it is null. After want of memory all is as before.
    pub fn add(&mut self, cell: &Cell) -> Result<(), Memory>
        requires { length self.old < max_rows }
        ensures ok { OnOk result (self.new ≡ with_other self.old cell.now) }
        ensures err { OnErr result (self.new ≡ self.old) }
    {
        if !is_other(cell) {
            return Ok(());
        }
        count_in(self.alloc, &mut self.counts, cell)?;
        self.count += 1;
        Ok(())
    }

    /// Takes a cell out, once, where it is there. The call takes no memory.
    pub fn take_off(&mut self, cell: &Cell)
        ensures { self.new ≡ without_other self.old cell.now }
    {
        if is_other(cell) && count_out(&mut self.counts, cell) {
            self.count -= 1;
        }
    }

    /// The least cell.
    pub fn least(&self) -> Option<&Cell>
        ensures { option_copied result ≡ slice_get self.now 0 }
    {
        let (cell, _) = self.counts.first_key_value()?;
        Some(cell)
    }

    /// The greatest cell.
    pub fn greatest(&self) -> Option<&Cell>
        ensures { option_copied result ≡ last_of self.now }
    {
        let (cell, _) = self.counts.last_key_value()?;
        Some(cell)
    }

    /// How many different cells there are.
    pub fn different(&self) -> u64
        ensures { result ≡ different self.now }
    {
        self.counts.len() as u64
    }

    /// The cell where all are the same.
    pub fn only_one(&self) -> Option<&Cell>
        ensures { option_copied result ≡ only_one self.now }
    {
        if self.different() != 1 {
            return None;
        }
        self.least()
    }

    /// The most frequent cell, and the least of these on a tie. It walks over the different cells.
    pub fn most_frequent(&self) -> Option<&Cell>
        ensures { option_copied result ≡ most_frequent self.now }
    {
        walk::most_frequent(&self.counts)
    }

    /// The middle cell, and the lower of two. It walks over the different cells.
    pub fn middle(&self) -> Option<&Cell>
        ensures { option_copied result ≡ middle self.now }
    {
        walk::at_place(&self.counts, self.count.saturating_sub(1) / 2)
    }
}

/// Whether a cell isn't null.
fn is_other(cell: &Cell) -> bool
    ensures { result ≡ is_other cell.now }
{
    !matches!(cell, Cell::Null)
}

/// Raises the count of a cell.
fn count_in(alloc: Global, counts: &mut BTreeMap<Cell, u64>, cell: &Cell) -> Result<(), Memory>
    requires { IfSome (lookup (same_cell cell.now) counts.old.entries) (λ n. n < 2 ^ 63) }
    ensures ok { OnOk result (repeated counts.new.entries
        ≡ insert_by cell_order cell.now (repeated counts.old.entries)) }
    ensures some { All (λ n. 0 < n) (values_of counts.old.entries) → All (λ n. 0 < n) (values_of counts.new.entries) }
    ensures by_cell { IsStrictlySortedBy cell_order (keys_of counts.new.entries) }
    ensures err { OnErr result (counts.new.entries ≡ counts.old.entries) }
{
    if let Some(count) = counts.get_mut(cell) {
        *count += 1;
        return Ok(());
    }
    let copy = cell.copy(alloc)?;
    counts.insert(copy, 1)?;
    Ok(())
}

/// Lowers the count of a cell, where there is one, and drops a count that would be 0.
fn count_out(counts: &mut BTreeMap<Cell, u64>, cell: &Cell) -> bool
    requires { All (λ n. 0 < n) (values_of counts.old.entries) }
    ensures there { result ≡ is_some (lookup (same_cell cell.now) counts.old.entries) }
    ensures repeated { repeated counts.new.entries ≡ remove_key (same_cell cell.now) (repeated counts.old.entries) }
    ensures some { All (λ n. 0 < n) (values_of counts.new.entries) }
    ensures by_cell { IsStrictlySortedBy cell_order (keys_of counts.new.entries) }
{
    let Some(count) = counts.get_mut(cell) else {
        return false;
    };
    if *count > 1 {
        *count -= 1;
    } else {
        counts.remove(cell);
    }
    true
}
