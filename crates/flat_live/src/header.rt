ghost use Rattle.std.specs.Prelude.{◌≡◌, List, IfOk, OnOk, false, not};
ghost use Rattle.plain_data.specs.Distinct.{AreDistinct};
ghost use Rattle.row_batch.specs.Tables.{keys_of_rows};
ghost use Rattle.row_batch.specs.declared.batch.Pair.{Pair as PairData};
ghost use Rattle.view_spec.specs.Cells.{header_of as header_under};
ghost use Rattle.view_spec.specs.Kept.{kept};
ghost use Rattle.view_spec.specs.Members.{splits};
ghost use Rattle.view_types.specs.Same.{same_header as same_head};
ghost use Rattle.flat_live.specs.Rows.{IsKeptOf};

use crate::rows::FlatRows;
use cell_core::{Column, Memory, Path};
use flat_show::splits_of;
use plan_types::Plan;
use row_batch::Pair;
use std::alloc::Global;
use view_columns::{header_of, split_columns};
use view_types::{Header, same_header};

/// The header of the view of kept rows: the shown columns under each split path that a row has. Want of memory is the
/// only refusal.
pub(crate) fn header_over(
    alloc: Global,
    columns: &[Column],
    plan: &Plan,
    rows: &FlatRows,
) -> Result<Header, Memory>
    ensures { (pairs : List PairData) → IsKeptOf plan.now pairs rows.now → AreDistinct (keys_of_rows pairs)
        → IfOk result (λ header. header ≡ header_under columns.now plan.now (splits plan.now (kept plan.now pairs))) }
{
    let paths = paths_of(alloc, plan, rows)?;
    let made = split_columns(alloc, columns, plan, paths)?;
    header_of(alloc, &made)
}

/// The split paths of kept rows, ascending; one empty path where nothing is split.
fn paths_of(alloc: Global, plan: &Plan, rows: &FlatRows) -> Result<Vec<Path>, Memory>
    ensures { (pairs : List PairData) → IsKeptOf plan.now pairs rows.now → AreDistinct (keys_of_rows pairs)
        → IfOk result (λ paths. paths.items ≡ splits plan.now (kept plan.now pairs)) }
{
    let _count = rows.len();
    if plan.split_by.is_empty() {
        let none: Vec<Pair> = Vec::new(alloc);
        return splits_of(alloc, plan, &none);
    }
    rows.split_paths(alloc)
}

/// Makes the header anew where that is noted, as where a split path came or went, and notes whether it is another then.
/// Want of memory is the only refusal.
pub(crate) fn renew_header(
    alloc: Global,
    columns: &[Column],
    plan: &Plan,
    rows: &FlatRows,
    header: &mut Header,
    moved: &mut bool,
) -> Result<(), Memory>
    ensures header { (pairs : List PairData) → IsKeptOf plan.now pairs rows.now → AreDistinct (keys_of_rows pairs)
        → (moved.old ≡ false → header.old ≡ header_under columns.now plan.now (splits plan.now (kept plan.now pairs)))
        → OnOk result (header.new ≡ header_under columns.now plan.now (splits plan.now (kept plan.now pairs))) }
    ensures moved { OnOk result (moved.new ≡ not (same_head header.old header.new)) }
{
    if !*moved {
        return Ok(());
    }
    let renewed = header_over(alloc, columns, plan, rows)?;
    *moved = !same_header(header.as_slice(), renewed.as_slice());
    *header = renewed;
    Ok(())
}
