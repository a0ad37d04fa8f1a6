//! Which rows the filters of a plan keep.
//!
//! `keeps` answers whether a row meets a plan's filters: every one of them, or at least one, as the plan asks. It
//! stands on `plan_types` for filters, and on `view_spec` for what they mean (`specs/Filters.antt` there). Its callers
//! may rely on this: it answers for each row and each list of filters what the definition says, whatever the types
//! of cells and filters are; null meets `is null` and no other filter; and it takes no memory. What it costs is no
//! clause: each filter is tried at most once, in order, and a text is searched from its front.
#![tactic(auto)]

ghost use Rattle.std.specs.Prelude.{◌≡◌, nat_eq};
ghost use Rattle.std.specs.List.{list_all, list_any, starts_with as list_starts_with, ends_with as list_ends_with};
ghost use Rattle.cell_core.specs.Cells.{same_cell};
ghost use Rattle.row_batch.specs.Checks.{is_null as is_null_cell};
ghost use Rattle.expr_spec.specs.Values.{stands_within as is_within};
ghost use Rattle.view_spec.specs.Filters.{asks_null as is_null_test, cell_in, is_met as meets_test, keeps as are_kept, meets as meets_filter, meets_one as meets_at_least_one, passes as passes_test};

use cell_core::Cell;
use plan_types::{Filter, FilterTest, Filters};

/// Whether the filters keep a row: whether it meets every one of them or at least one, as they ask. An empty list
/// keeps all rows. A row has null past its last cell.
pub fn keeps(filters: &Filters, row: &[Cell]) -> bool
    ensures { result ≡ are_kept filters.now row.now }
{
    let list = filters.list.as_slice();
    if filters.every {
        meets_all(list, row)
    } else {
        meets_one(list, row)
    }
}

/// Whether the list is empty, or a row meets at least one of its filters.
fn meets_one(list: &[Filter], row: &[Cell]) -> bool
    ensures { result ≡ meets_at_least_one row.now list.now }
{
    list.is_empty() || meets_any(list, row)
}

fn meets_all(list: &[Filter], row: &[Cell]) -> bool
    ensures { result ≡ list_all (meets_filter row.now) list.now }
{
    list.iter().all(|filter| meets(filter, row))
}

fn meets_any(list: &[Filter], row: &[Cell]) -> bool
    ensures { result ≡ list_any (meets_filter row.now) list.now }
{
    list.iter().any(|filter| meets(filter, row))
}

fn meets(filter: &Filter, row: &[Cell]) -> bool
    ensures { result ≡ meets_filter row.now filter.now }
{
    match row.get(filter.column) {
        Some(cell) => is_met(&filter.test, cell),
        None => is_met(&filter.test, &Cell::Null),
    }
}

/// Whether a cell meets a test. Null meets only the test for it.
fn is_met(test: &FilterTest, cell: &Cell) -> bool
    ensures { result ≡ meets_test test.now cell.now }
{
    if is_null(cell) {
        asks_null(test)
    } else {
        passes(test, cell)
    }
}

fn is_null(cell: &Cell) -> bool
    ensures { result ≡ is_null_cell cell.now }
{
    matches!(cell, Cell::Null)
}

fn asks_null(test: &FilterTest) -> bool
    ensures { result ≡ is_null_test test.now }
{
    matches!(test, FilterTest::IsNull)
}

/// Whether a cell that isn't null meets a test.
fn passes(test: &FilterTest, cell: &Cell) -> bool
    ensures { result ≡ passes_test test.now cell.now }
{
    match test {
        FilterTest::Equal(value) => cell.order(value).is_eq(),
        FilterTest::Unequal(value) => cell.order(value).is_ne(),
        FilterTest::Less(value) => cell.order(value).is_lt(),
        FilterTest::AtMost(value) => cell.order(value).is_le(),
        FilterTest::Greater(value) => cell.order(value).is_gt(),
        FilterTest::AtLeast(value) => cell.order(value).is_ge(),
        FilterTest::Begins(part) => match cell {
            Cell::Words(text) => starts_with(text.as_str(), part.as_str()),
            _ => false,
        },
        FilterTest::Ends(part) => match cell {
            Cell::Words(text) => ends_with(text.as_str(), part.as_str()),
            _ => false,
        },
        FilterTest::Contains(part) => match cell {
            Cell::Words(text) => stands_within(part.as_str(), text.as_str()),
            _ => false,
        },
        FilterTest::Among(cells) => is_among(cells.as_slice(), cell),
        FilterTest::NotAmong(cells) => !is_among(cells.as_slice(), cell),
        FilterTest::IsNull => false,
        FilterTest::IsNotNull => true,
    }
}

fn is_among(cells: &[Cell], cell: &Cell) -> bool
    ensures { result ≡ list_any (same_cell cell.now) cells.now }
{
    cells.iter().any(|other| cell.order(other).is_eq())
}

fn stands_within(part: &str, text: &str) -> bool
    ensures { result ≡ is_within part.now text.now }
{
    text.contains(part)
}

fn starts_with(text: &str, part: &str) -> bool
    ensures { result ≡ list_starts_with nat_eq text.now part.now }
{
    text.starts_with(part)
}

fn ends_with(text: &str, part: &str) -> bool
    ensures { result ≡ list_ends_with nat_eq text.now part.now }
{
    text.ends_with(part)
}
