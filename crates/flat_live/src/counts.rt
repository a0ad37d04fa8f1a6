ghost use Rattle.std.specs.Prelude.{◌≡◌, ◌∷◌, List, IfOk, OnOk};
ghost use Rattle.std.specs.List.Sorted.{IsStrictlySortedBy};
ghost use Rattle.std.specs.Map.{keys_of};
ghost use Rattle.view_spec.specs.Paths.{path_order};
ghost use Rattle.flat_live.specs.FlatRows.{AreCounted, FlatRow, NotesSplits};

use cell_core::{Copies, Memory, Path};
use std::alloc::Global;
use std::collections::BTreeMap;

/// How many rows have each split path. None is counted at 0, and nothing under the empty path.
pub(crate) type SplitCounts = BTreeMap<Path, usize>;

/// Counts one row more under a split path, and notes where it is the first. Want of memory is the only refusal; as
/// that counts a number of rows past `usize`.
pub(crate) fn count_up(
    alloc: Global,
    counts: &mut SplitCounts,
    split: &Path,
    moved: &mut bool,
) -> Result<(), Memory>
    ensures counts { (rows : List FlatRow) (row : FlatRow) → row.1.value.split ≡ split.now → AreCounted rows counts.old.entries
        → OnOk result (AreCounted (row ∷ rows) counts.new.entries) }
    ensures moved { (rows : List FlatRow) (row : FlatRow) → row.1.value.split ≡ split.now → AreCounted rows counts.old.entries
        → OnOk result (NotesSplits moved.old moved.new rows (row ∷ rows)) }
{
    if split.is_empty() {
        return Ok(());
    }
    if let Some(count) = counts.get_mut(split) {
        *count = count.checked_add(1).ok_or(Memory)?;
        return Ok(());
    }
    counts.insert(split.copy(alloc)?, 1)?;
    *moved = true;
    Ok(())
}

/// Counts one row less under a split path, and notes where it was the last.
pub(crate) fn count_down(counts: &mut SplitCounts, split: &Path, moved: &mut bool)
    ensures counts { (rows : List FlatRow) (row : FlatRow) → row.1.value.split ≡ split.now → AreCounted (row ∷ rows) counts.old.entries
        → AreCounted rows counts.new.entries }
    ensures moved { (rows : List FlatRow) (row : FlatRow) → row.1.value.split ≡ split.now → AreCounted (row ∷ rows) counts.old.entries
        → NotesSplits moved.old moved.new (row ∷ rows) rows }
{
    if let Some(count) = counts.get_mut(split) {
        if *count > 1 {
            *count -= 1;
        } else {
            counts.remove(split);
            *moved = true;
        }
    }
}

/// The split paths under which rows are counted, ascending. Want of memory is the only refusal.
pub(crate) fn counted_paths(alloc: Global, counts: &SplitCounts) -> Result<Vec<Path>, Memory>
    ensures paths { IfOk result (λ paths. paths.items ≡ keys_of counts.now.entries) }
    ensures ascend { IsStrictlySortedBy path_order (keys_of counts.now.entries) }
{
    let mut paths = Vec::with_capacity(alloc, counts.len())?;
    for (path, _) in counts {
        paths.push(path.copy(alloc)?)?;
    }
    Ok(paths)
}
