ghost use Rattle.std.specs.Prelude.{◌≡◌, IfOk};
ghost use Rattle.cell_core.specs.Cells.{value_of};
ghost use Rattle.row_batch.specs.Batches.{pair_of};
ghost use Rattle.place_order.specs.Places.{rank as rank_of, size_of};
ghost use Rattle.view_spec.specs.Filters.{cell_in};
ghost use Rattle.view_spec.specs.Places.{place_of_row as row_place};

use cell_core::{Cell, Direction, Listed, Memory, Row, Value};
use place_order::{Place, Rank, RankValue};
use plan_types::{Plan, Sort};
use std::alloc::Global;

/// A row's place: its ranks in the order of the plan's sorts, and then its key, with no room to spare. Want of memory
/// is the only refusal.
pub fn place_of_row(alloc: Global, plan: &Plan, key: &Cell, row: &Row) -> Result<Place, Memory>
    ensures { IfOk result (λ place. place ≡ row_place plan.now (pair_of key.now row.now)) }
{
    let sorts = plan.sorts.as_slice();
    let mut ranks = Vec::with_capacity(alloc, sorts.len() + 1)?;
    for sort in sorts {
        ranks.push(sort_rank(alloc, sort, row.as_slice())?)?;
    }
    ranks.push(Rank::Asc(key.value(alloc)?))?;
    Ok(Listed::from_vec(ranks))
}

/// The rank of a row by one sort.
fn sort_rank(alloc: Global, sort: &Sort, row: &[Cell]) -> Result<Rank, Memory>
    ensures { IfOk result (λ rank. rank ≡ rank_of sort.now.direction (value_of (cell_in row.now sort.now.column))) }
{
    match row.get(sort.column) {
        Some(cell) => cell_rank(alloc, sort.direction, cell),
        None => cell_rank(alloc, sort.direction, &Cell::Null),
    }
}

fn cell_rank(alloc: Global, direction: Direction, cell: &Cell) -> Result<Rank, Memory>
    ensures { IfOk result (λ rank. rank ≡ rank_of direction (value_of cell.now)) }
{
    Ok(match direction {
        Direction::Asc => Rank::Asc(cell.value(alloc)?),
        Direction::Desc => Rank::Desc(cell.value(alloc)?),
        Direction::AscAbs => Rank::Asc(cell_size(alloc, cell)?),
        Direction::DescAbs => Rank::Desc(cell_size(alloc, cell)?),
    })
}

/// How far a number is from 0; what is no number stays.
fn cell_size(alloc: Global, cell: &Cell) -> Result<RankValue, Memory>
    ensures { IfOk result (λ size. size ≡ size_of (value_of cell.now)) }
{
    match cell {
        Cell::Int(number) => Ok(Some(Value::Whole(number.unsigned_abs() as i128))),
        _ => cell.value(alloc),
    }
}
