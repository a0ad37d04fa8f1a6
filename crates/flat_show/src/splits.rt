ghost use Rattle.std.specs.Prelude.{◌≡◌, [], ◌∷◌, IfOk, OnOk, map};
ghost use Rattle.std.specs.BTreeSet.{insert_key};
ghost use Rattle.view_spec.specs.Filters.{cell_in};
ghost use Rattle.view_spec.specs.Members.{split_of, splits};
ghost use Rattle.view_spec.specs.Paths.{path_order, path_set};

use cell_core::{Cell, Copies, Listed, Memory, Path};
use plan_types::Plan;
use row_batch::Pair;
use std::alloc::{AllocError, Global};
use std::collections::BTreeSet;

/// Split paths, ascending.
type Paths = BTreeSet<Path>;

/// The split paths of kept rows, ascending and without repeats; one empty path where nothing is split. Want of memory
/// is the only refusal.
pub fn splits_of(alloc: Global, plan: &Plan, rows: &[Pair]) -> Result<Vec<Path>, Memory>
    ensures { IfOk result (λ paths. paths.items ≡ splits plan.now rows.now) }
{
    if plan.split_by.is_empty() {
        return one_path(alloc);
    }
    let paths = paths_of(alloc, plan, rows)?;
    Ok(listed(alloc, paths)?)
}

/// The empty path alone.
fn one_path(alloc: Global) -> Result<Vec<Path>, Memory>
    ensures { IfOk result (λ paths. paths.items ≡ [] ∷ []) }
{
    let mut paths = Vec::with_capacity(alloc, 1)?;
    paths.push(Path::new(alloc))?;
    Ok(paths)
}

/// The split cells of each row, as a set.
fn paths_of(alloc: Global, plan: &Plan, rows: &[Pair]) -> Result<Paths, Memory>
    ensures { IfOk result (λ paths. paths.keys ≡ path_set (map (split_of plan.now) rows.now)) }
{
    let mut paths = Paths::new(alloc);
    for pair in rows {
        add_path(&mut paths, split_path(alloc, plan, pair.row.as_slice())?)?;
    }
    Ok(paths)
}

fn add_path(paths: &mut Paths, path: Path) -> Result<(), Memory>
    ensures { OnOk result (paths.new.keys ≡ insert_key path_order paths.old.keys path) }
{
    paths.insert(path)?;
    Ok(())
}

/// The paths of a set, as a list.
fn listed(alloc: Global, paths: Paths) -> Result<Vec<Path>, AllocError>
    ensures { IfOk result (λ list. list.items ≡ paths.keys) }
{
    paths.into_iter().collect(alloc)
}

/// A row's own split path: its cells of the columns by which the plan splits. Want of memory is the only refusal.
pub fn split_path(alloc: Global, plan: &Plan, row: &[Cell]) -> Result<Path, Memory>
    ensures { IfOk result (λ path. path ≡ map (cell_in row.now) plan.now.split_by) }
{
    let columns = plan.split_by.as_slice();
    let mut path = Vec::with_capacity(alloc, columns.len())?;
    for column in columns {
        path.push(cell_of(alloc, row, *column)?)?;
    }
    Ok(Listed::from_vec(path))
}

/// The cell of a column; a row has no cell past its last, which counts as null.
fn cell_of(alloc: Global, row: &[Cell], column: usize) -> Result<Cell, Memory>
    ensures { IfOk result (λ cell. cell ≡ cell_in row.now column) }
{
    match row.get(column) {
        Some(cell) => cell.copy(alloc),
        None => Ok(Cell::Null),
    }
}
