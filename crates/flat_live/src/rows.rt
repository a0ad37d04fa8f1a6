ghost use Rattle.std.specs.Prelude.{◌≡◌, ◌-◌, List, [], cond, drop, length, map, slice_get, take, IfOk, OnOk, Some, None};
ghost use Rattle.std.specs.List.{list_any};
ghost use Rattle.std.specs.List.Sorted.{IsStrictlySortedBy};
ghost use Rattle.std.specs.Option.{option_copied};
ghost use Rattle.cell_core.specs.declared.cell.Cell.{Cell as CellData};
ghost use Rattle.delta_core.specs.Rows.{at_key};
ghost use Rattle.view_types.specs.Keys.{same_key};
ghost use Rattle.view_types.specs.declared.key.ViewKey.{ViewKey as KeyData};
ghost use Rattle.view_spec.specs.Paths.{path_order, same_path};
ghost use Rattle.key_map.specs.Keyed.{index_of};
ghost use Rattle.live_list.specs.Live.{live_key};
ghost use Rattle.flat_live.specs.FlatRows.{AreCounted, NotesSplits};

use crate::counts::{SplitCounts, count_down, count_up, counted_paths};
use cell_core::{Memory, Path, Row};
use live_list::{LiveList, LiveRow, RowPlace};
use std::alloc::Global;
use std::marker::Model;
use view_types::ViewKey;

/// What a live flat view keeps of a row besides its place and its key.
#[derive(Debug, Drop)]
pub struct FlatCells {
    /// The cells of the columns by which the plan splits; none where nothing is split.
    pub split: Path,
    /// The cells of the shown columns.
    pub cells: Row,
}

/// What a live flat view keeps of a row.
pub(crate) type FlatEntry = (RowPlace, LiveRow<FlatCells>);

/// The kept rows of a flat view by place and by key, and how many of them have each split path. Contracts see it as the
/// list of its entries, ascending by place. Positions count from 0.
#[derive(Drop)]
pub struct FlatRows {
    list: LiveList<FlatCells>,
    counts: SplitCounts,
}

impl Model for FlatRows {
    ghost use Rattle.std.specs.Prelude.{List};
    ghost use Rattle.flat_live.specs.FlatRows.{AreCounted, FlatRow};

    ghost Value = { List FlatRow };

    ghost view = { λ rows. rows.list };

    ghost invariant = { λ rows. AreCounted rows.list rows.counts.entries };
}

impl FlatRows {
    ghost use Rattle.live_list.specs.Live.{IsLive};
    ghost use Rattle.flat_live.specs.FlatRows.{is_counted};

    /// No rows. It takes no memory.
    pub(crate) fn new(alloc: Global) -> FlatRows
        ensures { result ≡ [] }
    {
        FlatRows {
            list: LiveList::new(alloc),
            counts: SplitCounts::new(alloc),
        }
    }

    /// How many rows there are.
    pub(crate) fn len(&self) -> usize
        ensures value { result ≡ length self.now }
        ensures live { IsLive self.now }
    {
        self.list.len()
    }

    /// The row at a position.
    pub(crate) fn at(&self, i: usize) -> Option<&FlatEntry>
        ensures { option_copied result ≡ slice_get self.now i }
    {
        self.list.at(i)
    }

    /// The rows at positions from `from` up to and without `to`, as far as there are any. It takes memory for the
    /// references.
    pub(crate) fn window(&self, from: usize, to: usize) -> Result<Vec<&FlatEntry>, Memory>
        ensures { IfOk result (λ entries. map (λ e. e.now) entries.items ≡ take (to - from) (drop from self.now)) }
    {
        self.list.window(from, to)
    }

    /// The position of a key.
    pub(crate) fn position(&self, key: &ViewKey) -> Option<usize>
        ensures { result ≡ index_of live_key key.now self.now }
    {
        self.list.position(key)
    }

    /// The row of a key.
    pub(crate) fn get(&self, key: &ViewKey) -> Option<&FlatEntry>
        ensures { option_copied result ≡ at_key live_key key.now self.now }
    {
        self.list.get(key)
    }

    /// The split paths of the rows, without the empty one, ascending. Want of memory is the only refusal.
    pub(crate) fn split_paths(&self, alloc: Global) -> Result<Vec<Path>, Memory>
        ensures ascend { IfOk result (λ paths. IsStrictlySortedBy path_order paths.items) }
        ensures told { (path : List CellData) → IfOk result (λ paths. list_any (same_path path) paths.items ≡ is_counted self.now path) }
    {
        counted_paths(alloc, &self.counts)
    }

    /// Puts a row at its place, and notes where it is the first of its split path. Want of memory, as which a place
    /// counts that is taken, is the only refusal, and after it no row is left.
    pub(crate) fn put(
        &mut self,
        alloc: Global,
        place: RowPlace,
        key: ViewKey,
        value: FlatCells,
        splits_moved: &mut bool,
    ) -> Result<(), Memory>
        requires new_key { at_key live_key key self.old ≡ None }
        ensures told { (k : KeyData) → OnOk result (at_key live_key k self.new ≡ cond (same_key key k) (Some (place, record { key = key; value = value })) (at_key live_key k self.old)) }
        ensures splits { OnOk result (NotesSplits splits_moved.old splits_moved.new self.old self.new) }
    {
        let (list, counts) = (&mut self.list, &mut self.counts);
        match put_counted(alloc, list, counts, place, key, value, splits_moved) {
            Ok(()) => Ok(()),
            Err(refused) => {
                *self = FlatRows::new(alloc);
                Err(refused)
            }
        }
    }

    /// Takes the row of a key out, and notes where it was the last of its split path. It gives memory back.
    pub(crate) fn take(&mut self, key: &ViewKey, splits_moved: &mut bool) -> Option<FlatEntry>
        ensures taken { result ≡ at_key live_key key.now self.old }
        ensures told { (k : KeyData) → at_key live_key k self.new ≡ cond (same_key key.now k) None (at_key live_key k self.old) }
        ensures splits { NotesSplits splits_moved.old splits_moved.new self.old self.new }
    {
        let _first = self.list.len();
        let taken = self.list.take(key);
        let _last = self.list.len();
        let row = taken?;
        count_down(&mut self.counts, &row.1.value.split, splits_moved);
        Some(row)
    }
}

/// Counts a row under its split path, and puts it at its place.
fn put_counted(
    alloc: Global,
    list: &mut LiveList<FlatCells>,
    counts: &mut SplitCounts,
    place: RowPlace,
    key: ViewKey,
    value: FlatCells,
    splits_moved: &mut bool,
) -> Result<(), Memory>
    requires new_key { at_key live_key key list.old ≡ None }
    ensures told { (k : KeyData) → OnOk result (at_key live_key k list.new ≡ cond (same_key key k) (Some (place, record { key = key; value = value })) (at_key live_key k list.old)) }
    ensures counts { AreCounted list.old counts.old.entries → OnOk result (AreCounted list.new counts.new.entries) }
    ensures splits { AreCounted list.old counts.old.entries → OnOk result (NotesSplits splits_moved.old splits_moved.new list.old list.new) }
{
    count_up(alloc, counts, &value.split, splits_moved)?;
    list.put(alloc, place, key, value)
}
