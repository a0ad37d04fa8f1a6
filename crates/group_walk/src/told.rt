ghost use Rattle.std.specs.Prelude.{◌≡◌, List, [], ◌∷◌, ◌++◌, ◌||◌, ◌&&◌, IfOk, OnOk, is_some};
ghost use Rattle.std.specs.List.{IsDistinct, list_any};
ghost use Rattle.std.specs.List.Sorted.{IsStrictlySortedBy};
ghost use Rattle.std.specs.Map.{keys_of};
ghost use Rattle.std.specs.Option.{option_copied};
ghost use Rattle.cell_core.specs.Cells.{cell_order, same_cell};
ghost use Rattle.cell_core.specs.declared.cell.Cell.{Cell as CellData};
ghost use Rattle.view_spec.specs.Paths.{begins_with, path_order, same_path};
ghost use Rattle.pivot_tree.specs.Families.{at_path};
ghost use Rattle.group_walk.specs.Told.{leads_to, values_at};

use cell_core::{Cell, Cells, Copies, Memory, Path};
use std::alloc::Global;
use std::collections::{BTreeMap, BTreeSet};
use std::marker::Model;

/// The values with which paths go on, ascending.
type Values = BTreeSet<Cell>;

/// Beginnings of paths, each with the values with which some path goes on there.
type Beginnings = BTreeMap<Path, Values>;

/// The paths that were told, asked by beginnings. Contracts see it as the list of told paths, which it borrows.
#[derive(Drop)]
pub struct ToldPaths<'a> {
    paths: &'a [Path],
    beginnings: Beginnings,
}

impl<'a> Model for ToldPaths<'a> {
    ghost use Rattle.std.specs.Prelude.{List};
    ghost use Rattle.cell_core.specs.declared.cell.Cell.{Cell};
    ghost use Rattle.group_walk.specs.Told.{AreBeginnings};

    ghost Value = { List (List Cell) };

    ghost view = { λ told. told.paths.now };

    ghost invariant = { λ told. AreBeginnings told.paths.now told.beginnings.entries };
}

impl<'a> ToldPaths<'a> {
    ghost use Rattle.group_walk.specs.Walks.{is_told};

    /// No path. It takes no memory.
    pub fn new(alloc: Global) -> ToldPaths<'a>
        ensures { result ≡ [] }
    {
        ToldPaths {
            paths: &[],
            beginnings: Beginnings::new(alloc),
        }
    }

    /// These paths; a path may stand among them more than once. Want of memory is the only refusal.
    pub fn of(alloc: Global, paths: &'a [Path]) -> Result<ToldPaths<'a>, Memory>
        ensures { IfOk result (λ told. told ≡ paths.now) }
    {
        let mut beginnings = Beginnings::new(alloc);
        for path in paths {
            add(alloc, &mut beginnings, path)?;
        }
        Ok(ToldPaths { paths, beginnings })
    }

    /// The values with which told paths go on after `path`, ascending. Want of memory is the only refusal.
    pub fn next_values(&self, alloc: Global, path: &Path) -> Result<Cells, Memory>
        ensures ascend { IfOk result (λ cells. IsStrictlySortedBy cell_order cells) }
        ensures each { IfOk result (λ cells. (c : CellData) → list_any (same_cell c) cells ≡ is_told self.now (path.now ++ c ∷ [])) }
    {
        match self.beginnings.get(path) {
            Some(values) => cells_of(alloc, values),
            None => Ok(Cells::new(alloc)),
        }
    }

    /// The paths with which told ones begin, the empty one and the told ones themselves among them, each once. Want of
    /// memory is the only refusal.
    pub fn beginnings(&self, alloc: Global) -> Result<Vec<Path>, Memory>
        ensures each { IfOk result (λ paths. (q : List CellData) → list_any (same_path q) paths.items ≡ is_told self.now q) }
        ensures distinct { IfOk result (λ paths. IsDistinct same_path paths.items) }
    {
        paths_of(alloc, &self.beginnings)
    }
}

/// The beginnings themselves, ascending.
fn paths_of(alloc: Global, beginnings: &Beginnings) -> Result<Vec<Path>, Memory>
    ensures paths { IfOk result (λ paths. paths.items ≡ keys_of beginnings.now.entries) }
    ensures ascend { IfOk result (λ paths. IsStrictlySortedBy path_order paths.items) }
{
    let mut paths = Vec::with_capacity(alloc, beginnings.len())?;
    for (path, _) in beginnings {
        paths.push(path.copy(alloc)?)?;
    }
    Ok(paths)
}

/// The values, as cells.
fn cells_of(alloc: Global, values: &Values) -> Result<Cells, Memory>
    ensures values { IfOk result (λ cells. cells ≡ values.now.keys) }
    ensures ascend { IfOk result (λ cells. IsStrictlySortedBy cell_order cells) }
{
    let mut cells = Cells::new(alloc);
    for value in values {
        cells.push(value.copy(alloc)?)?;
    }
    Ok(cells)
}

/// Adds the beginnings of a path.
fn add(alloc: Global, beginnings: &mut Beginnings, path: &Path) -> Result<(), Memory>
    ensures each { OnOk result ((q : List CellData) → is_some (at_path beginnings.new.entries q) ≡ (is_some (at_path beginnings.old.entries q) || begins_with q path.now)) }
    ensures next { OnOk result ((q : List CellData) (c : CellData) → list_any (same_cell c) (values_at (at_path beginnings.new.entries q))
        ≡ (list_any (same_cell c) (values_at (at_path beginnings.old.entries q)) || begins_with (q ++ c ∷ []) path.now)) }
{
    let mut beginning = Path::new(alloc);
    for value in path.as_slice() {
        add_one(alloc, beginnings, &beginning, Some(value))?;
        beginning.push(value.copy(alloc)?)?;
    }
    add_one(alloc, beginnings, &beginning, None)
}

/// Adds one beginning, with the value with which a path goes on there, if it does.
fn add_one(
    alloc: Global,
    beginnings: &mut Beginnings,
    beginning: &Path,
    next: Option<&Cell>,
) -> Result<(), Memory>
    ensures each { OnOk result ((q : List CellData) → is_some (at_path beginnings.new.entries q) ≡ (is_some (at_path beginnings.old.entries q) || same_path q beginning.now)) }
    ensures next { OnOk result ((q : List CellData) (c : CellData) → list_any (same_cell c) (values_at (at_path beginnings.new.entries q))
        ≡ (list_any (same_cell c) (values_at (at_path beginnings.old.entries q)) || (same_path q beginning.now && leads_to (option_copied next.entry) c))) }
{
    if let Some(values) = beginnings.get_mut(beginning) {
        return put(alloc, values, next);
    }
    let mut values = Values::new(alloc);
    put(alloc, &mut values, next)?;
    beginnings.insert(beginning.copy(alloc)?, values)?;
    Ok(())
}

/// Puts a value in, if there is one.
fn put(alloc: Global, values: &mut Values, next: Option<&Cell>) -> Result<(), Memory>
    ensures { OnOk result ((c : CellData) → list_any (same_cell c) values.new.keys ≡ (list_any (same_cell c) values.old.keys || leads_to (option_copied next.entry) c)) }
{
    if let Some(cell) = next {
        values.insert(cell.copy(alloc)?)?;
    }
    Ok(())
}
