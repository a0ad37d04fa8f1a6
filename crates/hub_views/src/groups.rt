ghost use Rattle.std.specs.Prelude.{◌≡◌, IfOk};
ghost use Rattle.hub_spec.specs.HeldViews.{group_names, opening_after, same_names};
ghost use Rattle.view_shape.specs.Singles.{with_single};
ghost use Rattle.view_spec.specs.Columns.{column_at};
ghost use Rattle.view_spec.specs.Openings.{first_opening};
ghost use Rattle.hub_views.specs.Changing.{IsReopened};

use crate::refused;
use cell_core::{Copies, Memory, Path, Schema};
use frame_types::Refusal;
use plan_types::Plan;
use std::alloc::Global;
use view_shape::{OpenRefused, OpenState};

/// The opening of a view as it is when the view is opened.
pub fn first_opening(alloc: Global, plan: &Plan) -> OpenState
    ensures { result ≡ first_opening plan.now }
{
    let mut opening = OpenState::new(alloc, 0);
    opening.set_depth(plan.group_by.len() as u64);
    opening
}

/// The opening of a view once it has another plan: the one that it has where both plans group by columns of the same
/// names in the same order, and else that of a new view. Want of memory is the only refusal.
pub fn opening_after(
    alloc: Global,
    schema: &Schema,
    before: &Plan,
    after: &Plan,
    opening: &OpenState,
) -> Result<OpenState, Memory>
    ensures { IfOk result (λ now. now ≡ opening_after schema.now.columns before.now after.now opening.now) }
{
    if have_same_groups(schema, before, after) {
        opening.copy(alloc)
    } else {
        Ok(first_opening(alloc, after))
    }
}

fn have_same_groups(schema: &Schema, before: &Plan, after: &Plan) -> bool
    ensures { result ≡ same_names (group_names schema.now.columns before.now) (group_names schema.now.columns after.now) }
{
    let was = before.group_by.as_slice();
    let now = after.group_by.as_slice();
    if was.len() != now.len() {
        return false;
    }
    for i in 0..was.len() {
        if column_name(schema, before, was[i]) != column_name(schema, after, now[i]) {
            return false;
        }
    }
    true
}

/// The name of a column, by its number. One that isn't there has none.
fn column_name<'a>(schema: &'a Schema, plan: &'a Plan, i: usize) -> &'a str
    ensures { result.now ≡ (column_at schema.now.columns plan.now i).name }
{
    let columns = schema.columns();
    if i < columns.len() {
        return columns[i].name.as_str();
    }
    match plan.expressions.get(i - columns.len()) {
        Some(expression) => expression.name.as_str(),
        None => "",
    }
}

/// The opening with one group opened or closed, unless too many others are.
pub fn reopened(
    alloc: Global,
    opening: &OpenState,
    path: &Path,
    opened: bool,
) -> Result<OpenState, Refusal>
    ensures { IsReopened path.now opened opening.now result }
{
    let mut other = opening.copy(alloc)?;
    let changed = if opened {
        other.expand(alloc, path)
    } else {
        other.collapse(alloc, path)
    };
    match changed {
        Ok(()) => Ok(other),
        Err(OpenRefused::TooManyOpen) => Err(refused::too_many_open()),
        Err(OpenRefused::Memory) => Err(refused::memory()),
    }
}
