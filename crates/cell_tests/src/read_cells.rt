use cell_core::{Cell, Keeping, Memory, Numbers};
use row_batch::{PatchCell, RowCause, RowsRefused};
use row_cells::{
    CellRead, date_cell, integer_cell, millis_cell, moment_cell, placed, placed_key, refused,
    too_many, words_cell,
};
use std::alloc::Global;
use std::test::Fail;

/// The number of an integer, of a day or of a datetime.
fn number_in(cell: &Cell) -> i64 {
    match cell {
        Cell::Int(number) => *number,
        Cell::Date(day) => i64::from(day.number()),
        Cell::Moment(moment) => moment.number(),
        _ => 0,
    }
}

fn number(read: CellRead) -> Result<i64, RowCause> {
    Ok(number_in(&read?))
}

#[test]
fn numbers_and_dates_are_read(rt: HostRuntime) {
    assert_eq!(rt;
        number(integer_cell(9_007_199_254_740_992)),
        Err(RowCause::Range)
    );
    assert_eq!(rt;
        number(millis_cell(253_402_300_800_000)),
        Err(RowCause::Range)
    );
    assert_eq!(rt; number(date_cell("9999-12-31")), Ok(2_932_896));
    assert_eq!(rt; number(moment_cell("1970-01-01T00:00:00.0019Z")), Ok(1));
}

fn is_kept(alloc: Global, text: &str) -> Result<bool, Memory> {
    Ok(match words_cell(alloc, text)? {
        Ok(Cell::Words(kept)) => kept.as_str() == text,
        _ => false,
    })
}

#[test]
fn texts_are_read(rt: HostRuntime) -> Result<(), Fail> {
    assert!(rt; is_kept(rt.alloc(), "é")?);
    let words = too_many(1025).to_string(rt.alloc())?;
    assert_eq!(rt; words.as_str(), "more than 1024 rows or keys: 1025");
    Ok(())
}

/// What is against a row that leaves this column out, where column 1 is the index.
fn left_out(column: usize) -> Option<RowsRefused> {
    placed(Keeping::Indexed(1), 3, column, Ok(PatchCell::Keep)).err()
}

fn null_key() -> Option<RowsRefused> {
    placed_key(3, 1, Ok(Cell::Null)).err()
}

#[test]
fn a_row_wants_its_key(rt: HostRuntime) {
    let keyless = refused(RowCause::Index, Numbers::One(3));
    assert_eq!(rt; left_out(1), Some(keyless));
    assert_eq!(rt; left_out(0), None);
    assert_eq!(rt; null_key(), Some(keyless));
}
