ghost use Rattle.std.specs.Prelude.{◌≡◌, ◌++◌, IfOk, map, take};
ghost use Rattle.std.specs.List.{list_any};
ghost use Rattle.std.specs.Str.{bytes_eq};
ghost use Rattle.plan_types.specs.Columns.{all_columns, expression_column};
ghost use Rattle.expr_spec.specs.Typing.{column_named};
ghost use Rattle.row_batch.specs.Checks.{kind_at};
ghost use Rattle.plan_check.specs.Columns.{aggregate_at, aggregates_of, groups_of, known};
ghost use Rattle.plan_check.specs.Columns.{number_at, numbers_from, numbers_of, place_named, shown_of, splits_of};

use crate::fault::{Checked, fault_at, found, too_many};
use agg_core::takes;
use cell_core::{CellType, Column, Copies, Listed, Memory, Schema, Text, Texts};
use plan_json::{NamedText, PlanCause, PlanPart};
use plan_types::{AggName, Expression, Named, NamedList, Numbered};
use std::alloc::Global;

/// A column by its number, and its type.
#[derive(Clone, Copy, Debug, Drop)]
pub struct ColumnPlace {
    pub number: usize,
    pub kind: CellType,
}

/// The most columns to group by.
const MAX_GROUPS: usize = 8;

/// The most columns to split by.
const MAX_SPLITS: usize = 4;

/// The schema's columns, and then those that expressions make.
pub(crate) fn all_columns(
    alloc: Global,
    schema: &Schema,
    expressions: &[Expression],
) -> Result<Listed<Column>, Memory>
    ensures { IfOk result (λ columns. columns ≡ all_columns schema.now.columns expressions.now) }
{
    let mut columns = Vec::new(alloc);
    push_columns(alloc, &mut columns, schema.columns())?;
    push_made(alloc, &mut columns, expressions)?;
    Ok(Listed::from_vec(columns))
}

fn push_columns(alloc: Global, columns: &mut Vec<Column>, more: &[Column]) -> Result<(), Memory>
    ensures { IfOk result (λ _. columns.new.items ≡ columns.old.items ++ more.now) }
{
    for column in more {
        columns.push(Column {
            name: column.name.copy(alloc)?,
            kind: column.kind,
        })?;
    }
    Ok(())
}

fn push_made(alloc: Global, columns: &mut Vec<Column>, made: &[Expression]) -> Result<(), Memory>
    ensures { IfOk result (λ _. columns.new.items ≡ columns.old.items ++ map expression_column made.now) }
{
    for expression in made {
        columns.push(Column {
            name: expression.name.copy(alloc)?,
            kind: expression.kind,
        })?;
    }
    Ok(())
}

fn number_of(columns: &[Column], name: &Text) -> Option<usize>
    ensures { result ≡ column_named columns.now name.now }
{
    columns
        .iter()
        .position(|column| column.name.as_str() == name.as_str())
}

fn kind_at(columns: &[Column], number: usize) -> Option<CellType>
    ensures { result ≡ kind_at columns.now number }
{
    columns.get(number).map(|column| column.kind)
}

fn place_of(columns: &[Column], name: &Text) -> Option<ColumnPlace>
    ensures { result ≡ place_named columns.now name.now }
{
    let number = number_of(columns, name)?;
    let kind = kind_at(columns, number)?;
    Some(ColumnPlace { number, kind })
}

/// The column of the name of an item of a member, or `Unknown`.
pub(crate) fn known(
    columns: &[Column],
    part: PlanPart,
    i: usize,
    name: &Text,
) -> Checked<ColumnPlace>
    ensures { result ≡ known columns.now part i name.now }
{
    found(
        place_of(columns, name),
        fault_at(part, PlanCause::Unknown, i),
    )
}

/// Whether name `i` of a list stands before it.
fn stands_before(name: &Text, names: &[Text], i: usize) -> bool
    ensures { result ≡ list_any (bytes_eq name.now) (take i names.now) }
{
    names
        .iter()
        .take(i)
        .any(|other| name.as_str() == other.as_str())
}

/// Name `i` of a list: `Unknown`, and then `Twice`.
fn number_at(
    columns: &[Column],
    part: PlanPart,
    names: &[Text],
    i: usize,
    name: &Text,
) -> Checked<usize>
    ensures { result ≡ number_at columns.now part names.now i name.now }
{
    let place = known(columns, part, i, name)?;
    if stands_before(name, names, i) {
        return Err(fault_at(part, PlanCause::Twice, i));
    }
    Ok(place.number)
}

/// The numbers of the columns that a list names.
fn numbers(
    alloc: Global,
    columns: &[Column],
    part: PlanPart,
    names: &[Text],
) -> Result<Checked<Numbered>, Memory>
    ensures { IfOk result (λ found. found ≡ numbers_of columns.now part names.now) }
{
    let mut found = Listed::new(alloc);
    for (i, name) in names.iter().enumerate() {
        match number_at(columns, part, names, i, name) {
            Ok(number) => found.push(number)?,
            Err(fault) => return Ok(Err(fault)),
        }
    }
    Ok(Ok(found))
}

/// The shown columns. Left out they are the schema's.
pub(crate) fn shown(
    alloc: Global,
    schema: &Schema,
    columns: &[Column],
    names: &Option<Texts>,
) -> Result<Checked<Numbered>, Memory>
    ensures { IfOk result (λ found. found ≡ shown_of schema.now.columns columns.now names.now) }
{
    match names {
        None => Ok(Ok(schema_numbers(alloc, schema.columns())?)),
        Some(names) => numbers(alloc, columns, PlanPart::Columns, names.as_slice()),
    }
}

fn schema_numbers(alloc: Global, columns: &[Column]) -> Result<Numbered, Memory>
    ensures { IfOk result (λ found. found ≡ numbers_from 0 columns.now) }
{
    let mut found = Listed::new(alloc);
    for (i, _) in columns.iter().enumerate() {
        found.push(i)?;
    }
    Ok(found)
}

/// The columns that rows are grouped by.
pub(crate) fn groups(
    alloc: Global,
    columns: &[Column],
    names: &[Text],
) -> Result<Checked<Numbered>, Memory>
    ensures { IfOk result (λ found. found ≡ groups_of columns.now names.now) }
{
    if names.len() > MAX_GROUPS {
        return Ok(Err(too_many(PlanPart::GroupBy, names.len())));
    }
    numbers(alloc, columns, PlanPart::GroupBy, names)
}

/// The columns that groups are split by.
pub(crate) fn splits(
    alloc: Global,
    columns: &[Column],
    names: &[Text],
) -> Result<Checked<Numbered>, Memory>
    ensures { IfOk result (λ found. found ≡ splits_of columns.now names.now) }
{
    if names.len() > MAX_SPLITS {
        return Ok(Err(too_many(PlanPart::SplitBy, names.len())));
    }
    numbers(alloc, columns, PlanPart::SplitBy, names)
}

/// Aggregate `i`: `Unknown`, `Aggregate`, and then `BadType`.
fn aggregate_at(columns: &[Column], i: usize, named: &NamedText) -> Checked<Named>
    ensures { result ≡ aggregate_at columns.now i named.now }
{
    let part = PlanPart::Aggregates;
    let place = known(columns, part, i, &named.name)?;
    let aggregate = found(
        AggName::named(named.text.as_str()),
        fault_at(part, PlanCause::Aggregate, i),
    )?;
    if !takes(aggregate, place.kind) {
        return Err(fault_at(part, PlanCause::BadType, i));
    }
    Ok(Named {
        column: place.number,
        aggregate,
    })
}

/// The aggregates that a plan names.
pub(crate) fn aggregates(
    alloc: Global,
    columns: &[Column],
    texts: &[NamedText],
) -> Result<Checked<NamedList>, Memory>
    ensures { IfOk result (λ found. found ≡ aggregates_of columns.now texts.now) }
{
    let mut found = Listed::new(alloc);
    for (i, named) in texts.iter().enumerate() {
        match aggregate_at(columns, i, named) {
            Ok(aggregate) => found.push(aggregate)?,
            Err(fault) => return Ok(Err(fault)),
        }
    }
    Ok(Ok(found))
}
