ghost use Rattle.std.specs.Prelude.{◌≡◌, IfOk};
ghost use Rattle.view_kept.specs.Steps.{side_of};
ghost use Rattle.view_spec.specs.Views.{placed, view};
ghost use Rattle.group_show.specs.Plans.{IsGroupedPlan};

use crate::kept::kept_tree;
use crate::placing::sorted;
use cell_core::{Listed, Memory, Steps};
use flat_show::PlacedRows;
use group_walk::{ToldPaths, walk};
use live_list::LiveList;
use plan_types::Plan;
use std::alloc::Global;
use std::sync::ledger::Ledger;
use table_core::Table;
use view_columns::{header_of, split_columns};
use view_shape::OpenState;
use view_types::Header;

/// What a view with groups shows, with the places of its rows.
#[derive(Drop)]
pub struct PlacedGroups {
    /// The text and type of each shown column.
    pub header: Header,
    /// The rows in the order in which they are shown.
    pub rows: PlacedRows,
}

/// What a view with groups shows of the table's rows, in whatever order the table has them. `steps`
/// counts the visits of rows and groups.
///
/// Want of memory is the only refusal.
pub fn show_groups<L: Ledger>(
    alloc: Global,
    plan: &Plan,
    opening: &OpenState,
    table: &Table,
    steps: &mut Steps<L>,
) -> Result<PlacedGroups, Memory>
    requires { IsGroupedPlan table.now.schema.columns plan.now }
    ensures header { IfOk result (λ shown. shown.header ≡ (view (side_of plan.now opening.now table.now)).header) }
    ensures rows { IfOk result (λ shown. shown.rows ≡ placed (side_of plan.now opening.now table.now)) }
{
    let _count = table.len();
    let tree = kept_tree(alloc, plan, table, steps)?;
    let splits = tree.splits(alloc)?;
    let columns = split_columns(alloc, table.schema().columns(), plan, splits)?;
    // No group stood anywhere before, so the walk meets all that are shown.
    let told = ToldPaths::new(alloc);
    let was = LiveList::<()>::new(alloc);
    let met = walk(alloc, plan, opening, &columns, &tree, &told, &was, steps)?;
    let rows = sorted(alloc, met)?;
    Ok(PlacedGroups {
        header: header_of(alloc, &columns)?,
        rows: PlacedRows::from_listed(Listed::from_vec(rows)),
    })
}
