ghost use Rattle.std.specs.Prelude.{◌≡◌, ℕ, List, ◌∷◌, ◌++◌, [], IfOk, OnOk};
ghost use Rattle.pivot_tree.specs.Columns.{HaveAggregates, Uses, aggregate_in};

use cell_core::{Column, Memory};
use plan_types::{AggName, Named, Plan};
use std::alloc::Global;
use view_columns::aggregate_of;

/// The columns that a plan shows or sorts by, each once, with its aggregate.
pub fn used_columns(alloc: Global, columns: &[Column], plan: &Plan) -> Result<Vec<Named>, Memory>
    ensures { IfOk result (λ used. Uses columns.now plan.now used.items) }
{
    let mut used = Vec::new(alloc);
    for column in plan.columns.as_slice() {
        use_column(&mut used, columns, plan, *column)?;
    }
    for sort in plan.sorts.as_slice() {
        use_column(&mut used, columns, plan, sort.column)?;
    }
    Ok(used)
}

/// Adds a column with its aggregate, unless it is there.
fn use_column(
    used: &mut Vec<Named>,
    columns: &[Column],
    plan: &Plan,
    column: usize,
) -> Result<(), Memory>
    ensures { OnOk result ((numbers : List ℕ) → HaveAggregates columns.now plan.now numbers used.old.items
        → HaveAggregates columns.now plan.now (numbers ++ column ∷ []) used.new.items) }
{
    if named_aggregate(used.as_slice(), column).is_some() {
        return Ok(());
    }
    let aggregate = aggregate_of(columns, plan, column);
    used.push(Named { column, aggregate })?;
    Ok(())
}

fn named_aggregate(named: &[Named], column: usize) -> Option<AggName>
    ensures { result ≡ aggregate_in named.now column }
{
    for one in named {
        if one.column == column {
            return Some(one.aggregate);
        }
    }
    None
}
