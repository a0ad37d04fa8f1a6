ghost use Rattle.std.specs.Prelude.{◌≡◌, IfOk, take};
ghost use Rattle.std.specs.List.{list_any};
ghost use Rattle.std.specs.Str.{bytes_eq};
ghost use Rattle.row_cells.specs.Rows.{read_each};
ghost use Rattle.plan_check.specs.Sorts.{direction_named, has_size, is_absolute, is_sized, sort_at};
ghost use Rattle.plan_check.specs.Sorts.{sorts_of};

use crate::columns::{ColumnPlace, known};
use crate::fault::{Checked, fault_at, found, too_many};
use agg_core::{ResultType, aggregate_for, is_numeric, result_type};
use cell_core::{Column, Direction, Listed, Memory, Text};
use plan_json::{PlanCause, PlanPart, RawSort};
use plan_types::{Named, Sort, Sorts};
use std::alloc::Global;

/// The most sorts of a plan.
const MAX_SORTS: usize = 8;

/// The sorts of a plan with those groups and aggregates.
pub(crate) fn sorts(
    alloc: Global,
    columns: &[Column],
    groups: &[usize],
    aggregates: &[Named],
    sorts: &[RawSort],
) -> Result<Checked<Sorts>, Memory>
    ensures { IfOk result (λ found. found ≡ sorts_of columns.now groups.now aggregates.now sorts.now) }
{
    if sorts.len() > MAX_SORTS {
        return Ok(Err(too_many(PlanPart::Sort, sorts.len())));
    }
    sort_list(alloc, columns, groups, aggregates, sorts)
}

fn sort_list(
    alloc: Global,
    columns: &[Column],
    groups: &[usize],
    aggregates: &[Named],
    sorts: &[RawSort],
) -> Result<Checked<Sorts>, Memory>
    ensures { IfOk result (λ found. found
        ≡ read_each (sort_at columns.now groups.now aggregates.now sorts.now) 0 sorts.now) }
{
    let mut found = Listed::new(alloc);
    for (i, sort) in sorts.iter().enumerate() {
        match sort_at(columns, groups, aggregates, sorts, i, sort) {
            Ok(sort) => found.push(sort)?,
            Err(fault) => return Ok(Err(fault)),
        }
    }
    Ok(Ok(found))
}

/// Sort `i`: `Unknown`, `Twice`, `Direction`, and then `BadType`.
fn sort_at(
    columns: &[Column],
    groups: &[usize],
    aggregates: &[Named],
    sorts: &[RawSort],
    i: usize,
    sort: &RawSort,
) -> Checked<Sort>
    ensures { result ≡ sort_at columns.now groups.now aggregates.now sorts.now i sort.now }
{
    let part = PlanPart::Sort;
    let place = known(columns, part, i, &sort.name)?;
    if stands_before(&sort.name, sorts, i) {
        return Err(fault_at(part, PlanCause::Twice, i));
    }
    let direction = found(
        direction_named(sort.direction.as_str()),
        fault_at(part, PlanCause::Direction, i),
    )?;
    if is_absolute(direction) && !is_sized(groups, aggregates, place) {
        return Err(fault_at(part, PlanCause::BadType, i));
    }
    Ok(Sort {
        column: place.number,
        direction,
    })
}

/// Whether the name of sort `i` stands before it.
fn stands_before(name: &Text, sorts: &[RawSort], i: usize) -> bool
    ensures { result ≡ list_any (λ other. bytes_eq name.now other.name) (take i sorts.now) }
{
    sorts
        .iter()
        .take(i)
        .any(|other| name.as_str() == other.name.as_str())
}

fn direction_named(name: &str) -> Option<Direction>
    ensures { result ≡ direction_named name.now }
{
    match name {
        "asc" => Some(Direction::Asc),
        "desc" => Some(Direction::Desc),
        "asc abs" => Some(Direction::AscAbs),
        "desc abs" => Some(Direction::DescAbs),
        _ => None,
    }
}

fn is_absolute(direction: Direction) -> bool
    ensures { result ≡ is_absolute direction }
{
    matches!(direction, Direction::AscAbs | Direction::DescAbs)
}

/// Whether what a view shows of a column has an absolute value: its cells, or in a view with groups those of its
/// aggregate.
fn is_sized(groups: &[usize], aggregates: &[Named], place: ColumnPlace) -> bool
    ensures { result ≡ is_sized groups.now aggregates.now place }
{
    if groups.is_empty() {
        return is_numeric(place.kind);
    }
    let aggregate = aggregate_for(aggregates, place.number, place.kind);
    has_size(result_type(aggregate, place.kind))
}

fn has_size(shown: ResultType) -> bool
    ensures { result ≡ has_size shown }
{
    match shown {
        ResultType::Column(kind) => is_numeric(kind),
        ResultType::Fraction => true,
    }
}
