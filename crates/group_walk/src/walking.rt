ghost use Rattle.std.specs.Prelude.{List, IfOk};
ghost use Rattle.cell_core.specs.declared.schema.Column.{Column as ColumnData};
ghost use Rattle.row_batch.specs.declared.batch.Pair.{Pair};
ghost use Rattle.group_walk.specs.Levels.{IsShape};
ghost use Rattle.group_walk.specs.Walks.{AreMet, AreVisits, place_in};

use crate::level::{Course, level_below, total_level};
use crate::told::ToldPaths;
use cell_core::{Memory, Steps};
use live_list::LiveList;
use pivot_tree::PivotTree;
use plan_types::Plan;
use std::alloc::Global;
use std::sync::ledger::Ledger;
use view_columns::SplitColumns;
use view_shape::OpenState;
use view_spec::PlacedRow;

/// The rows of the groups that a walk meets, each at its place: the total, and from each group that was met and is open
/// those right below it, all of them where the group stands in `was` nowhere or at another place, and else those with
/// which a path of `told` begins. The rows come in no promised order. `steps` counts the visits of groups.
///
/// Want of memory is the only refusal.
pub fn walk<V, L: Ledger>(
    alloc: Global,
    plan: &Plan,
    opening: &OpenState,
    split_columns: &[SplitColumns],
    tree: &PivotTree,
    told: &ToldPaths,
    was: &LiveList<V>,
    steps: &mut Steps<L>,
) -> Result<Vec<PlacedRow>, Memory>
    ensures met { (columns : List ColumnData) (rows : List Pair) → IsShape columns plan.now split_columns.now tree.now rows
        → IfOk result (λ shown. AreMet columns plan.now opening.now rows told.now (place_in was.now) shown.items) }
    ensures visits { (columns : List ColumnData) (rows : List Pair) → IsShape columns plan.now split_columns.now tree.now rows
        → AreVisits columns plan.now opening.now rows told.now (place_in was.now) steps.old steps.new }
{
    let course = Course {
        plan,
        opening,
        split_columns,
        tree,
        told,
        was,
    };
    let mut met = Vec::new(alloc);
    let mut level = total_level(alloc, &course, steps)?;
    for _depth in 0..plan.group_by.len() {
        let below = level_below(alloc, &course, &level, steps)?;
        met.append(&mut level)?;
        level = below;
    }
    met.append(&mut level)?;
    Ok(met)
}
