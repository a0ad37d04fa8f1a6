ghost use Rattle.std.specs.Prelude.{◌≡◌, List, false, OnOk};
ghost use Rattle.cell_core.specs.declared.cell.Cell.{Cell as CellData};
ghost use Rattle.row_batch.specs.Batches.{pair_of};
ghost use Rattle.row_batch.specs.declared.batch.Pair.{Pair};
ghost use Rattle.plan_types.specs.declared.plan.Named.{Named as NamedData};
ghost use Rattle.view_spec.specs.Paths.{same_path};
ghost use Rattle.pivot_tree.specs.Families.{At, at_path, rows_under};
ghost use Rattle.pivot_tree.specs.Groups.{CanPut, HasRow, IsGroupOf, with_row, without_row};

use crate::group::Group;
use cell_core::{Cell, Copies, Memory, Path, Row};
use plan_types::Named;
use std::alloc::Global;
use std::collections::BTreeMap;

/// The groups of a node's members by their split values. None is kept under the empty path: where nothing is split,
/// its rows are all members.
pub type Splits = BTreeMap<Path, Group>;

/// Puts a row into the group of its split values, if it has any.
pub fn add_to_split(
    alloc: Global,
    splits: &mut Splits,
    used: &[Named],
    split: &Path,
    key: &Cell,
    row: &Row,
) -> Result<(), Memory>
    requires { (rows : List Pair)
        × At (IsGroupOf used.now) (at_path splits.old.entries split.now) (rows_under split.now rows)
        × CanPut used.now rows (pair_of key.now row.now) }
    ensures here { OnOk result ((rows : List Pair)
        → At (IsGroupOf used.now) (at_path splits.old.entries split.now) (rows_under split.now rows)
        → CanPut used.now rows (pair_of key.now row.now)
        → At (IsGroupOf used.now) (at_path splits.new.entries split.now) (rows_under split.now (with_row rows (pair_of key.now row.now)))) }
    ensures others { OnOk result ((s : List CellData) → same_path split.now s ≡ false
        → at_path splits.new.entries s ≡ at_path splits.old.entries s) }
{
    if split.is_empty() {
        return Ok(());
    }
    add_to_group(alloc, splits, used, split, key, row)
}

/// Takes a row off the group of its split values, if it has any.
pub fn take_from_split(splits: &mut Splits, split: &Path, key: &Cell, row: &Row)
    requires { (used : List NamedData) × (rows : List Pair)
        × At (IsGroupOf used) (at_path splits.old.entries split.now) (rows_under split.now rows)
        × HasRow rows (pair_of key.now row.now) }
    ensures here { (used : List NamedData) (rows : List Pair)
        → At (IsGroupOf used) (at_path splits.old.entries split.now) (rows_under split.now rows)
        → HasRow rows (pair_of key.now row.now)
        → At (IsGroupOf used) (at_path splits.new.entries split.now) (rows_under split.now (without_row rows (pair_of key.now row.now))) }
    ensures others { (s : List CellData) → same_path split.now s ≡ false
        → at_path splits.new.entries s ≡ at_path splits.old.entries s }
{
    if !split.is_empty() {
        take_from_group(splits, split, key, row);
    }
}

/// Puts a row into a group, which is made if it isn't there.
fn add_to_group(
    alloc: Global,
    splits: &mut Splits,
    used: &[Named],
    split: &Path,
    key: &Cell,
    row: &Row,
) -> Result<(), Memory>
    requires { (rows : List Pair) × At (IsGroupOf used.now) (at_path splits.old.entries split.now) rows
        × CanPut used.now rows (pair_of key.now row.now) }
    ensures here { OnOk result ((rows : List Pair)
        → At (IsGroupOf used.now) (at_path splits.old.entries split.now) rows
        → CanPut used.now rows (pair_of key.now row.now)
        → At (IsGroupOf used.now) (at_path splits.new.entries split.now) (with_row rows (pair_of key.now row.now))) }
    ensures others { OnOk result ((s : List CellData) → same_path split.now s ≡ false
        → at_path splits.new.entries s ≡ at_path splits.old.entries s) }
{
    if let Some(group) = splits.get_mut(split) {
        return group.add(key, row);
    }
    let mut group = Group::make(alloc, used)?;
    group.add(key, row)?;
    splits.insert(split.copy(alloc)?, group)?;
    Ok(())
}

/// Takes a row off a group, which goes with its last row.
fn take_from_group(splits: &mut Splits, split: &Path, key: &Cell, row: &Row)
    requires { (used : List NamedData) × (rows : List Pair)
        × At (IsGroupOf used) (at_path splits.old.entries split.now) rows
        × HasRow rows (pair_of key.now row.now) }
    ensures here { (used : List NamedData) (rows : List Pair)
        → At (IsGroupOf used) (at_path splits.old.entries split.now) rows
        → HasRow rows (pair_of key.now row.now)
        → At (IsGroupOf used) (at_path splits.new.entries split.now) (without_row rows (pair_of key.now row.now)) }
    ensures others { (s : List CellData) → same_path split.now s ≡ false
        → at_path splits.new.entries s ≡ at_path splits.old.entries s }
{
    if let Some(group) = splits.get_mut(split) {
        group.take_off(key, row);
        if group.rows == 0 {
            splits.remove(split);
        }
    }
}
