ghost use Rattle.std.specs.Prelude.{◌≡◌};
ghost use Rattle.view_spec.specs.Columns.{aggregate_at, column_at, shown_kind, shown_result as shown_result_of};

use agg_core::{ResultType, aggregate_for, result_type};
use cell_core::{CellType, Column};
use plan_types::{AggName, Plan};
use view_types::ShownType;

/// The name of a column, by its number. One that isn't there has the empty name.
pub fn column_name<'a>(columns: &'a [Column], plan: &'a Plan, i: usize) -> &'a str
    ensures { result.now ≡ (column_at columns.now plan.now i).name }
{
    if i < columns.len() {
        return columns[i].name.as_str();
    }
    match plan.expressions.get(i - columns.len()) {
        Some(expression) => expression.name.as_str(),
        None => "",
    }
}

/// The type of a column, by its number. One that isn't there counts as a column of whole numbers.
pub fn column_kind(columns: &[Column], plan: &Plan, i: usize) -> CellType
    ensures { result ≡ (column_at columns.now plan.now i).kind }
{
    if i < columns.len() {
        return columns[i].kind;
    }
    match plan.expressions.get(i - columns.len()) {
        Some(expression) => expression.kind,
        None => CellType::Integer,
    }
}

/// The aggregate that a plan names for a column, and else that of its type.
pub fn aggregate_of(columns: &[Column], plan: &Plan, i: usize) -> AggName
    ensures { result ≡ aggregate_at columns.now plan.now i }
{
    aggregate_for(plan.aggregates.as_slice(), i, column_kind(columns, plan, i))
}

/// The type of what a view shows of a column: its own in a flat view, and that of its aggregate in one with groups.
pub fn shown_type_of(columns: &[Column], plan: &Plan, i: usize) -> ShownType
    ensures { result ≡ shown_kind columns.now plan.now i }
{
    let kind = column_kind(columns, plan, i);
    if plan.group_by.is_empty() {
        return ShownType::of(kind);
    }
    shown_result(result_type(aggregate_of(columns, plan, i), kind))
}

/// The type of what an aggregate shows.
fn shown_result(kind: ResultType) -> ShownType
    ensures { result ≡ shown_result_of kind }
{
    match kind {
        ResultType::Column(kind) => ShownType::of(kind),
        ResultType::Fraction => ShownType::Fraction,
    }
}
