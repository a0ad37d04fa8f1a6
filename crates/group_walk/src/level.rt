ghost use Rattle.std.specs.Prelude.{◌≡◌, ◌+◌, ◌≤◌, [], ◌∷◌, ◌++◌, All, List, IfOk, OnOk, length, filter, map, not, option_map};
ghost use Rattle.std.specs.List.{IsDistinct, list_any};
ghost use Rattle.std.specs.List.Sorted.{IsStrictlySortedBy};
ghost use Rattle.cell_core.specs.Cells.{cell_order, same_cell};
ghost use Rattle.cell_core.specs.declared.cell.Cell.{Cell as CellData};
ghost use Rattle.cell_core.specs.declared.schema.Column.{Column as ColumnData};
ghost use Rattle.delta_core.specs.Rows.{at_key};
ghost use Rattle.row_batch.specs.declared.batch.Pair.{Pair};
ghost use Rattle.plan_types.specs.declared.plan.Plan.{Plan as PlanData};
ghost use Rattle.view_spec.specs.Entries.{is_there};
ghost use Rattle.view_spec.specs.Openings.{mark_of};
ghost use Rattle.view_spec.specs.Paths.{same_path};
ghost use Rattle.view_spec.specs.Places.{place_of_group};
ghost use Rattle.view_spec.specs.Views.{placed_group};
ghost use Rattle.live_list.specs.Live.{live_key};
ghost use Rattle.group_walk.specs.Levels.{AddsAhead, AreAhead, AreRowsBelow, AreVisitsBelow, IsBelowPlace, IsShape, looks_at, looks_on, path_ahead};
ghost use Rattle.group_walk.specs.Walks.{goes_on, is_place, place_in};

use crate::groups::{group_row, place_below};
use crate::told::ToldPaths;
use cell_core::{Cell, Cells, Copies, Memory, Path, Steps};
use live_list::LiveList;
use pivot_tree::PivotTree;
use place_order::Place;
use plan_types::Plan;
use std::alloc::Global;
use std::sync::ledger::Ledger;
use view_columns::SplitColumns;
use view_shape::OpenState;
use view_spec::PlacedRow;
use view_types::ViewKey;

/// What a walk goes by.
#[derive(Drop)]
pub(crate) struct Course<'a, V> {
    pub(crate) plan: &'a Plan,
    pub(crate) opening: &'a OpenState,
    /// The shown columns under each split path.
    pub(crate) split_columns: &'a [SplitColumns],
    pub(crate) tree: &'a PivotTree,
    /// The paths into which it goes.
    pub(crate) told: &'a ToldPaths<'a>,
    /// The rows with the places at which groups stood.
    pub(crate) was: &'a LiveList<V>,
}

/// A group at which the walk will look: one right below a group that was met.
#[derive(Drop)]
pub(crate) struct Ahead<'a> {
    /// The place of the group above it.
    pub(crate) place: &'a Place,
    /// The path of the group above it.
    pub(crate) above: &'a Path,
    /// The value with which its own path goes on from there.
    pub(crate) value: Cell,
}

/// The row of the total, alone. It is one visit.
pub(crate) fn total_level<V, L: Ledger>(
    alloc: Global,
    course: &Course<V>,
    steps: &mut Steps<L>,
) -> Result<Vec<PlacedRow>, Memory>
    ensures rows { (columns : List ColumnData) (rows : List Pair) → IsShape columns course.now.plan.now course.now.split_columns.now course.now.tree.now rows
        → IfOk result (λ level. level.items ≡ placed_group columns course.now.plan.now course.now.opening.now rows [] ∷ []) }
    ensures steps { steps.new ≤ steps.old + 1 }
{
    let mut level = Vec::new(alloc);
    let path = Path::new(alloc);
    if let Some(node) = course.tree.node(&path, steps) {
        let place = Place::new(alloc);
        level.push(group_row(
            alloc,
            course.plan,
            course.opening,
            course.split_columns,
            node,
            place,
            path,
        )?)?;
    }
    Ok(level)
}

/// The rows of the groups right below those of a level to which the walk goes on.
pub(crate) fn level_below<V, L: Ledger>(
    alloc: Global,
    course: &Course<V>,
    level: &[PlacedRow],
    steps: &mut Steps<L>,
) -> Result<Vec<PlacedRow>, Memory>
    ensures rows { (columns : List ColumnData) (rows : List Pair) (paths : List (List CellData)) → IsShape columns course.now.plan.now course.now.split_columns.now course.now.tree.now rows
        → level.now ≡ map (placed_group columns course.now.plan.now course.now.opening.now rows) paths → IsDistinct same_path paths
        → IfOk result (λ below. AreRowsBelow columns course.now.plan.now course.now.opening.now rows
        (goes_on columns course.now.plan.now course.now.opening.now rows course.now.told.now (place_in course.now.was.now)) paths below.items) }
    ensures visits { (columns : List ColumnData) (rows : List Pair) (paths : List (List CellData)) → IsShape columns course.now.plan.now course.now.split_columns.now course.now.tree.now rows
        → level.now ≡ map (placed_group columns course.now.plan.now course.now.opening.now rows) paths → IsDistinct same_path paths
        → AreVisitsBelow (looks_on columns course.now.plan.now course.now.opening.now rows course.now.told.now (place_in course.now.was.now)) paths steps.old steps.new }
{
    let ahead = groups_ahead(alloc, course, level)?;
    visit_all(alloc, course, &ahead, steps)
}

/// The groups right below those of a level at which the walk has to look. No visit is counted.
fn groups_ahead<'a, V>(
    alloc: Global,
    course: &Course<V>,
    level: &'a [PlacedRow],
) -> Result<Vec<Ahead<'a>>, Memory>
    ensures { (columns : List ColumnData) (rows : List Pair) (paths : List (List CellData)) → IsShape columns course.now.plan.now course.now.split_columns.now course.now.tree.now rows
        → level.now ≡ map (placed_group columns course.now.plan.now course.now.opening.now rows) paths → IsDistinct same_path paths
        → IfOk result (λ ahead. AreAhead columns course.now.plan.now course.now.opening.now rows course.now.told.now (place_in course.now.was.now) paths ahead.items) }
{
    let mut ahead = Vec::new(alloc);
    for above in level {
        add_below(alloc, course, above, &mut ahead)?;
    }
    Ok(ahead)
}

/// Adds the groups right below a group at which the walk has to look, where it is open.
fn add_below<'a, V>(
    alloc: Global,
    course: &Course<V>,
    above: &'a PlacedRow,
    ahead: &mut Vec<Ahead<'a>>,
) -> Result<(), Memory>
    ensures { (columns : List ColumnData) (rows : List Pair) (path : List CellData) → IsShape columns course.now.plan.now course.now.split_columns.now course.now.tree.now rows
        → above.now ≡ placed_group columns course.now.plan.now course.now.opening.now rows path
        → OnOk result (AddsAhead columns course.now.plan.now rows path
        (looks_on columns course.now.plan.now course.now.opening.now rows course.now.told.now (place_in course.now.was.now) path) ahead.old.items ahead.new.items) }
{
    match &above.row.key {
        ViewKey::Group(path) if above.row.mark => {
            let values = next_values(alloc, course, above, path)?;
            add_each(&above.place, path, values, ahead)
        }
        _ => Ok(()),
    }
}

/// The values at which the walk looks below a group, ascending: all where the group moved, and else those that are told.
fn next_values<V>(
    alloc: Global,
    course: &Course<V>,
    above: &PlacedRow,
    path: &Path,
) -> Result<Cells, Memory>
    ensures ascend { IfOk result (λ cells. IsStrictlySortedBy cell_order cells) }
    ensures each { (columns : List ColumnData) (rows : List Pair) → IsShape columns course.now.plan.now course.now.split_columns.now course.now.tree.now rows
        → above.now ≡ placed_group columns course.now.plan.now course.now.opening.now rows path.now
        → IfOk result (λ cells. (c : CellData) → list_any (same_cell c) cells
        ≡ looks_at columns course.now.plan.now rows course.now.told.now (place_in course.now.was.now) path.now c) }
{
    if has_moved(course.was, above) {
        course.tree.children(alloc, path)
    } else {
        course.told.next_values(alloc, path)
    }
}

/// Whether a row stood nowhere before, or at another place.
fn has_moved<V>(was: &LiveList<V>, shown: &PlacedRow) -> bool
    ensures { result ≡ not (is_place (option_map (λ e. e.0) (at_key live_key shown.now.row.key was.now)) shown.now.place) }
{
    match was.get(&shown.row.key) {
        Some((place, _)) => !place.as_place().cmp(&shown.place).is_eq(),
        None => true,
    }
}

/// Adds the groups to which the values lead on from a path.
fn add_each<'a>(
    place: &'a Place,
    above: &'a Path,
    values: Cells,
    ahead: &mut Vec<Ahead<'a>>,
) -> Result<(), Memory>
    ensures placed { (columns : List ColumnData) (plan : PlanData) (rows : List Pair) → place.now ≡ place_of_group columns plan rows above.now
        → OnOk result (All (IsBelowPlace columns plan rows) ahead.old.items → All (IsBelowPlace columns plan rows) ahead.new.items) }
    ensures added { OnOk result (map path_ahead ahead.new.items ≡ map path_ahead ahead.old.items ++ map (λ c. above.now ++ c ∷ []) values) }
{
    for value in values.into_vec() {
        ahead.push(Ahead {
            place,
            above,
            value,
        })?;
    }
    Ok(())
}

/// The rows of the groups ahead that are there. Each is one visit.
fn visit_all<V, L: Ledger>(
    alloc: Global,
    course: &Course<V>,
    ahead: &[Ahead],
    steps: &mut Steps<L>,
) -> Result<Vec<PlacedRow>, Memory>
    ensures rows { (columns : List ColumnData) (rows : List Pair) → IsShape columns course.now.plan.now course.now.split_columns.now course.now.tree.now rows
        → All (IsBelowPlace columns course.now.plan.now rows) ahead.now
        → IfOk result (λ met. met.items ≡ map (placed_group columns course.now.plan.now course.now.opening.now rows) (filter (is_there course.now.plan.now rows) (map path_ahead ahead.now))) }
    ensures steps { steps.new ≤ steps.old + length ahead.now }
{
    let mut met = Vec::new(alloc);
    for one in ahead {
        visit(alloc, course, one, &mut met, steps)?;
    }
    Ok(met)
}

/// Adds the row of a group ahead, where it is there. It is one visit.
fn visit<V, L: Ledger>(
    alloc: Global,
    course: &Course<V>,
    one: &Ahead,
    met: &mut Vec<PlacedRow>,
    steps: &mut Steps<L>,
) -> Result<(), Memory>
    ensures row { (columns : List ColumnData) (rows : List Pair) → IsShape columns course.now.plan.now course.now.split_columns.now course.now.tree.now rows
        → IsBelowPlace columns course.now.plan.now rows one.now
        → OnOk result (met.new.items ≡ met.old.items ++ map (placed_group columns course.now.plan.now course.now.opening.now rows) (filter (is_there course.now.plan.now rows) (path_ahead one.now ∷ []))) }
    ensures steps { steps.new ≤ steps.old + 1 }
{
    let mut path = one.above.copy(alloc)?;
    path.push(one.value.copy(alloc)?)?;
    if let Some(node) = course.tree.node(&path, steps) {
        let place = place_below(alloc, course.plan, node, one.place, &one.value)?;
        met.push(group_row(
            alloc,
            course.plan,
            course.opening,
            course.split_columns,
            node,
            place,
            path,
        )?)?;
    }
    Ok(())
}
