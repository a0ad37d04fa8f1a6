ghost use Rattle.std.specs.Prelude.{◌≡◌, IfOk, map, option_map};
ghost use Rattle.cell_core.specs.RawViews.{raw_view, items_of};
ghost use Rattle.plan_json.specs.Plans.{filter_view};
ghost use Rattle.plan_json.specs.Reading.{each};
ghost use Rattle.row_cells.specs.Rows.{read_each};
ghost use Rattle.plan_check.specs.Filters.{asked_at, cell_in, cell_value, cells_value, every_named, every_of, filter_at};
ghost use Rattle.plan_check.specs.Filters.{filters_of, is_left_out, is_words, operator_named, takes_kind, test_of, text_value};

use crate::columns::{ColumnPlace, known};
use crate::fault::{Checked, fault_at, found, too_many};
use crate::refused::PlanFault;
use cell_core::{
    Cell, CellType, Cells, Column, Copies, Listed, MAX_TEXT, Memory, Numbers, Raw, Text,
};
use json_rows::cell_of;
use plan_json::{PlanCause, PlanPart, RawFilter};
use plan_types::{Filter, FilterList, FilterTest};
use std::alloc::Global;

/// The most filters of a plan.
const MAX_FILTERS: usize = 32;

/// What a filter asks, before its value is read.
#[derive(Clone, Copy, Debug, Drop)]
pub enum Operator {
    Equal,
    Unequal,
    Less,
    AtMost,
    Greater,
    AtLeast,
    Begins,
    Ends,
    Contains,
    Among,
    NotAmong,
    IsNull,
    IsNotNull,
}

impl Operator {
    /// The operator of that name, as plans write it.
    fn named(name: &str) -> Option<Operator>
        ensures { result ≡ operator_named name.now }
    {
        match name {
            "==" => Some(Operator::Equal),
            "!=" => Some(Operator::Unequal),
            "<" => Some(Operator::Less),
            "<=" => Some(Operator::AtMost),
            ">" => Some(Operator::Greater),
            ">=" => Some(Operator::AtLeast),
            "begins with" => Some(Operator::Begins),
            "ends with" => Some(Operator::Ends),
            "contains" => Some(Operator::Contains),
            "in" => Some(Operator::Among),
            "not in" => Some(Operator::NotAmong),
            "is null" => Some(Operator::IsNull),
            "is not null" => Some(Operator::IsNotNull),
            _ => None,
        }
    }

    /// Whether it asks of cells of that type. Three ask of texts alone.
    fn takes(self, kind: CellType) -> bool
        ensures { result ≡ takes_kind self kind }
    {
        match self {
            Operator::Begins | Operator::Ends | Operator::Contains => is_words(kind),
            Operator::Equal | Operator::Unequal | Operator::Less | Operator::AtMost => true,
            Operator::Greater | Operator::AtLeast | Operator::Among | Operator::NotAmong => true,
            Operator::IsNull | Operator::IsNotNull => true,
        }
    }
}

fn is_words(kind: CellType) -> bool
    ensures { result ≡ is_words kind }
{
    matches!(kind, CellType::Words)
}

/// The filters of a plan.
pub(crate) fn filters(
    alloc: Global,
    columns: &[Column],
    filters: &[RawFilter],
) -> Result<Checked<FilterList>, Memory>
    ensures { IfOk result (λ found. found ≡ filters_of columns.now (map filter_view filters.now)) }
{
    if filters.len() > MAX_FILTERS {
        return Ok(Err(too_many(PlanPart::Filter, filters.len())));
    }
    filter_list(alloc, columns, filters)
}

fn filter_list(
    alloc: Global,
    columns: &[Column],
    filters: &[RawFilter],
) -> Result<Checked<FilterList>, Memory>
    ensures { IfOk result (λ found. found ≡ read_each (filter_at columns.now) 0 (map filter_view filters.now)) }
{
    let mut found = Listed::new(alloc);
    for (i, filter) in filters.iter().enumerate() {
        match filter_at(alloc, columns, i, filter)? {
            Ok(filter) => found.push(filter)?,
            Err(fault) => return Ok(Err(fault)),
        }
    }
    Ok(Ok(found))
}

/// Filter `i`: `Unknown`, `Operator`, `BadType`, and then `Value`.
fn filter_at(
    alloc: Global,
    columns: &[Column],
    i: usize,
    filter: &RawFilter,
) -> Result<Checked<Filter>, Memory>
    ensures { IfOk result (λ found. found ≡ filter_at columns.now i (filter_view filter.now)) }
{
    let (place, operator) = match asked(columns, i, filter) {
        Ok(asked) => asked,
        Err(fault) => return Ok(Err(fault)),
    };
    let Some(test) = test_of(alloc, operator, place.kind, &filter.value)? else {
        return Ok(Err(fault_at(PlanPart::Filter, PlanCause::Value, i)));
    };
    Ok(Ok(Filter {
        column: place.number,
        test,
    }))
}

/// The column and the operator of filter `i`, which takes the column's type.
fn asked(columns: &[Column], i: usize, filter: &RawFilter) -> Checked<(ColumnPlace, Operator)>
    ensures { result ≡ asked_at columns.now i (filter_view filter.now) }
{
    let part = PlanPart::Filter;
    let place = known(columns, part, i, &filter.name)?;
    let operator = found(
        Operator::named(filter.operator.as_str()),
        fault_at(part, PlanCause::Operator, i),
    )?;
    if !operator.takes(place.kind) {
        return Err(fault_at(part, PlanCause::BadType, i));
    }
    Ok((place, operator))
}

/// The test that an operator and a value make of a column of that type, if they make one.
fn test_of(
    alloc: Global,
    operator: Operator,
    kind: CellType,
    value: &Option<Raw>,
) -> Result<Option<FilterTest>, Memory>
    ensures { IfOk result (λ test. test ≡ test_of operator kind (option_map raw_view value.now)) }
{
    Ok(match operator {
        Operator::Equal => cell_value(alloc, kind, value)?.map(FilterTest::Equal),
        Operator::Unequal => cell_value(alloc, kind, value)?.map(FilterTest::Unequal),
        Operator::Less => cell_value(alloc, kind, value)?.map(FilterTest::Less),
        Operator::AtMost => cell_value(alloc, kind, value)?.map(FilterTest::AtMost),
        Operator::Greater => cell_value(alloc, kind, value)?.map(FilterTest::Greater),
        Operator::AtLeast => cell_value(alloc, kind, value)?.map(FilterTest::AtLeast),
        Operator::Begins => text_value(alloc, value)?.map(FilterTest::Begins),
        Operator::Ends => text_value(alloc, value)?.map(FilterTest::Ends),
        Operator::Contains => text_value(alloc, value)?.map(FilterTest::Contains),
        Operator::Among => cells_value(alloc, kind, value)?.map(FilterTest::Among),
        Operator::NotAmong => cells_value(alloc, kind, value)?.map(FilterTest::NotAmong),
        Operator::IsNull => is_left_out(value).then_some(FilterTest::IsNull),
        Operator::IsNotNull => is_left_out(value).then_some(FilterTest::IsNotNull),
    })
}

/// A cell of the column's type that isn't null.
fn cell_value(alloc: Global, kind: CellType, value: &Option<Raw>) -> Result<Option<Cell>, Memory>
    ensures { IfOk result (λ cell. cell ≡ cell_value kind (option_map raw_view value.now)) }
{
    match value {
        Some(value) => cell_in(alloc, kind, value),
        None => Ok(None),
    }
}

fn cell_in(alloc: Global, kind: CellType, value: &Raw) -> Result<Option<Cell>, Memory>
    ensures { IfOk result (λ cell. cell ≡ cell_in kind (raw_view value.now)) }
{
    match cell_of(alloc, kind, value)? {
        Ok(Cell::Null) => Ok(None),
        Ok(cell) => Ok(Some(cell)),
        Err(_) => Ok(None),
    }
}

/// A text that a cell may have.
fn text_value(alloc: Global, value: &Option<Raw>) -> Result<Option<Text>, Memory>
    ensures { IfOk result (λ text. text ≡ text_value (option_map raw_view value.now)) }
{
    match value {
        Some(Raw::Words(text)) if text.as_str().len() <= MAX_TEXT => Ok(Some(text.copy(alloc)?)),
        _ => Ok(None),
    }
}

/// A list of such cells.
fn cells_value(alloc: Global, kind: CellType, value: &Option<Raw>) -> Result<Option<Cells>, Memory>
    ensures { IfOk result (λ cells. cells ≡ cells_value kind (option_map raw_view value.now)) }
{
    match value {
        Some(Raw::List(list)) => cells_in(alloc, kind, list.as_slice()),
        _ => Ok(None),
    }
}

fn cells_in(alloc: Global, kind: CellType, values: &[Raw]) -> Result<Option<Cells>, Memory>
    ensures { IfOk result (λ cells. cells ≡ each (cell_in kind) (items_of (map raw_view values.now))) }
{
    let mut found = Vec::new(alloc);
    for value in values {
        match cell_in(alloc, kind, value)? {
            Some(cell) => found.push(cell)?,
            None => return Ok(None),
        }
    }
    Ok(Some(Listed::from_vec(found)))
}

fn is_left_out(value: &Option<Raw>) -> bool
    ensures { result ≡ is_left_out (option_map raw_view value.now) }
{
    matches!(value, None | Some(Raw::Null))
}

/// Whether a row has to meet every filter.
pub(crate) fn every(filter_op: &Option<Text>) -> Checked<bool>
    ensures { result ≡ every_of filter_op.now }
{
    match filter_op {
        None => Ok(true),
        Some(word) => every_named(word.as_str()),
    }
}

fn every_named(word: &str) -> Checked<bool>
    ensures { result ≡ every_named word.now }
{
    match word {
        "and" => Ok(true),
        "or" => Ok(false),
        _ => Err(PlanFault {
            part: PlanPart::FilterOp,
            cause: PlanCause::Name,
            at: Numbers::Zero,
        }),
    }
}
