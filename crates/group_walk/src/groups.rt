ghost use Rattle.std.specs.Prelude.{◌≡◌, [], ◌∷◌, ◌++◌, List, IfOk, OnOk};
ghost use Rattle.cell_core.specs.Cells.{value_of};
ghost use Rattle.cell_core.specs.declared.cell.Cell.{Cell as CellData};
ghost use Rattle.cell_core.specs.declared.schema.Column.{Column as ColumnData};
ghost use Rattle.place_order.specs.declared.rank.Rank.TheVariants.{Asc as AscRank};
ghost use Rattle.row_batch.specs.declared.batch.Pair.{Pair};
ghost use Rattle.view_spec.specs.Cells.{cells_of_group, with_columns};
ghost use Rattle.view_spec.specs.Members.{members, splits, within};
ghost use Rattle.view_spec.specs.Places.{group_ranks, place_of_group, rows_value};
ghost use Rattle.view_spec.specs.Views.{placed_group};
ghost use Rattle.view_columns.specs.Headers.{each_under, under};
ghost use Rattle.pivot_tree.specs.Trees.{IsNode};

use crate::ranks::rank_of;
use cell_core::{Cell, Copies, Memory, Path};
use live_list::place_copied;
use pivot_tree::Node;
use place_order::{Place, Rank};
use plan_types::Plan;
use std::alloc::Global;
use view_columns::{SplitColumns, put_value};
use view_shape::OpenState;
use view_spec::PlacedRow;
use view_types::{ShownCells, ShownRow, ViewKey};

/// A group as it is shown, of its node, at its place. Want of memory is the only refusal.
pub fn group_row(
    alloc: Global,
    plan: &Plan,
    opening: &OpenState,
    split_columns: &[SplitColumns],
    node: &Node,
    place: Place,
    path: Path,
) -> Result<PlacedRow, Memory>
    ensures { (columns : List ColumnData) (rows : List Pair) → IsNode columns plan.now path node.now rows
        → split_columns.now ≡ each_under columns plan.now (splits plan.now rows)
        → place ≡ place_of_group columns plan.now rows path
        → IfOk result (λ row. row ≡ placed_group columns plan.now opening.now rows path) }
{
    let cells = group_cells(alloc, plan, split_columns, node)?;
    let mark = path.len() < plan.group_by.len() && opening.is_open(&path);
    Ok(PlacedRow {
        place,
        row: ShownRow {
            key: ViewKey::Group(path),
            mark,
            cells,
        },
    })
}

/// The place of a group: that of the group above it, and then its own sort ranks and the last value of its path. Want
/// of memory is the only refusal.
pub fn place_below(
    alloc: Global,
    plan: &Plan,
    node: &Node,
    above: &Place,
    last: &Cell,
) -> Result<Place, Memory>
    ensures { (columns : List ColumnData) (path : List CellData) (rows : List Pair) → IsNode columns plan.now path node.now rows
        → IfOk result (λ place. place ≡ above.now ++ (group_ranks columns plan.now rows path ++ AscRank (value_of last.now) ∷ [])) }
{
    let mut place = place_copied(alloc, above)?;
    for sort in plan.sorts.as_slice() {
        let value = node.value(None, sort.column)?;
        place.push(rank_of(sort.direction, value)?)?;
    }
    place.push(Rank::Asc(last.value(alloc)?))?;
    Ok(place)
}

/// The aggregates of a group's shown columns under each split path, each under the text of its column there.
fn group_cells(
    alloc: Global,
    plan: &Plan,
    split_columns: &[SplitColumns],
    node: &Node,
) -> Result<ShownCells, Memory>
    ensures { (columns : List ColumnData) (path : List CellData) (rows : List Pair) (paths : List (List CellData)) → IsNode columns plan.now path node.now rows
        → split_columns.now ≡ each_under columns plan.now paths
        → IfOk result (λ cells. cells ≡ cells_of_group columns plan.now paths (members plan.now rows path)) }
{
    let mut cells = ShownCells::new(alloc);
    for one in split_columns {
        put_split(alloc, plan, one, node, &mut cells)?;
    }
    Ok(cells)
}

/// Puts the aggregates of a group's shown columns over its members of one split, each under the text of its column there.
fn put_split(
    alloc: Global,
    plan: &Plan,
    one: &SplitColumns,
    node: &Node,
    cells: &mut ShownCells,
) -> Result<(), Memory>
    ensures { (columns : List ColumnData) (path : List CellData) (rows : List Pair) → IsNode columns plan.now path node.now rows
        → one.now.columns ≡ under columns plan.now one.now.split
        → OnOk result (cells.new ≡ with_columns columns plan.now one.now.split
        (rows_value columns plan.now (within plan.now one.now.split (members plan.now rows path))) plan.now.columns cells.old) }
{
    let header = one.columns.as_slice();
    for (i, column) in plan.columns.as_slice().iter().enumerate() {
        if let Some(head) = header.get(i) {
            let value = node.value(Some(&one.split), *column)?;
            put_value(alloc, cells, &head.text, value)?;
        }
    }
    Ok(())
}
