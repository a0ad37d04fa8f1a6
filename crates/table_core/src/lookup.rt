ghost use Rattle.std.specs.Prelude.{◌≡◌, ◌+◌, ◌<◌, ◌≤◌, length, slice_get, OnOk};
ghost use Rattle.std.specs.Prelude.{option_copied, option_map, is_some, Option};
ghost use Rattle.std.specs.Map.{keys_of, lookup};
ghost use Rattle.plain_data.specs.Distinct.{AreDistinct};
ghost use Rattle.cell_core.specs.declared.cell.Cell.{Cell as CellData};
ghost use Rattle.cell_core.specs.Cells.{same_cell};
ghost use Rattle.indexmap.specs.IndexMap.{spare};
ghost use Rattle.table_core.specs.Lookups.{ChangesKey, one_if, puts_in, settled_row};

use cell_core::{Cell, Memory, Row};
use indexmap::IndexMap;

/// Rows by their keys.
pub type Rows = IndexMap<Cell, Row>;

/// The keys that changes name, each with the row that it has after them, or none.
pub type Finals = IndexMap<Cell, Option<Row>>;

/// The value under that key.
pub fn find<'m, V>(map: &'m IndexMap<Cell, V>, key: &Cell) -> Option<&'m V>
    ensures { option_copied result ≡ lookup (same_cell key.now) map.now.entries }
{
    map.get(key)
}

/// The number of keys, no two of which are one.
pub fn size<V>(map: &IndexMap<Cell, V>) -> usize
    ensures size { result ≡ length map.now.entries }
    ensures distinct { AreDistinct (keys_of map.now.entries) }
{
    map.len()
}

/// Sets the value under the key, in place of one that stands there.
pub fn put<V: Drop>(map: &mut IndexMap<Cell, V>, key: Cell, value: V) -> Result<(), Memory>
    ensures { OnOk result (ChangesKey map.old.entries key (Option.Some value) map.new.entries) }
{
    map.insert(key, value)?;
    Ok(())
}

/// How many of the keys have a row.
pub fn puts(finals: &Finals) -> usize
    ensures { result ≡ puts_in finals.now.entries }
{
    let mut count = 0;
    for i in 0..size(finals) {
        if has_row(finals, i) {
            count += 1;
        }
    }
    count
}

fn has_row(finals: &Finals, i: usize) -> bool
    requires { i < length finals.now.entries }
    ensures { option_map (λ e. is_some e.1) (slice_get finals.now.entries i) ≡ Option.Some result }
{
    match finals.get_index(i) {
        Some((_, row)) => row.is_some(),
        None => false,
    }
}

/// Gives each key of `finals` its row. It takes no memory.
pub fn settle(rows: &mut Rows, finals: Finals)
    requires room { puts_in finals.entries ≤ spare rows.old }
    requires distinct { AreDistinct (keys_of rows.old.entries) }
    ensures rows { (q : CellData) →
        lookup (same_cell q) rows.new.entries ≡ settled_row finals.entries rows.old.entries q }
    ensures distinct { AreDistinct (keys_of rows.new.entries) }
{
    for (key, row) in finals {
        settle_one(rows, key, row);
    }
}

fn settle_one(rows: &mut Rows, key: Cell, row: Option<Row>)
    requires room { one_if (is_some row) ≤ spare rows.old }
    ensures rows { ChangesKey rows.old.entries key row rows.new.entries }
    ensures distinct { AreDistinct (keys_of rows.new.entries) }
    ensures room { spare rows.old ≤ spare rows.new + one_if (is_some row) }
{
    match row {
        Some(row) => put_reserved(rows, key, row),
        None => drop_key(rows, &key),
    }
}

fn put_reserved(rows: &mut Rows, key: Cell, row: Row)
    requires room { 0 < spare rows.old }
    ensures rows { ChangesKey rows.old.entries key (Option.Some row) rows.new.entries }
    ensures distinct { AreDistinct (keys_of rows.new.entries) }
    ensures room { spare rows.old ≤ spare rows.new + 1 }
{
    rows.insert(key, row).unwrap();
}

fn drop_key(rows: &mut Rows, key: &Cell)
    ensures rows { ChangesKey rows.old.entries key.now Option.None rows.new.entries }
    ensures distinct { AreDistinct (keys_of rows.new.entries) }
    ensures room { spare rows.old ≤ spare rows.new }
{
    rows.swap_remove(key);
}
