ghost use Rattle.std.specs.Prelude.{◌≡◌, false, position, option_copied, IfOk};
ghost use Rattle.view_types.specs.Keys.{same_key};
ghost use Rattle.delta_core.specs.Rows.{has_row, row_at};

use crate::{
    Delta, DirtySet, Held, Keys, Mark, Put, Puts, ShownNow, Touch, Touched, TouchedKeys, fold,
};
use cell_core::{Cell, Copies, Listed, Memory, Text, Value};
use std::alloc::Global;
use std::process::Abort;
use std::test::Fail;
use view_types::{
    Header, HeaderColumn, Shown, ShownCells, ShownRow, ShownRows, ShownType, ViewKey, same_header,
};

/// What is shown now, as a list that is searched.
#[derive(Drop)]
struct Now {
    shown: Shown,
}

impl ShownNow for Now {
    ghost shown = { λ now. now.shown };

    fn position(&self, key: &ViewKey) -> Option<usize> {
        place_of(self.shown.rows.as_slice(), key)
    }

    fn row(&self, alloc: Global, key: &ViewKey) -> Result<Option<ShownRow>, Memory> {
        match found(self.shown.rows.as_slice(), key) {
            Some(row) => Ok(Some(row.copy(alloc)?)),
            None => Ok(None),
        }
    }

    fn header(&self, alloc: Global) -> Result<Header, Memory> {
        self.shown.header.copy(alloc)
    }
}

fn place_of(rows: &[ShownRow], key: &ViewKey) -> Option<usize>
    ensures { result ≡ position (λ r. same_key r.key key.now) rows.now }
{
    rows.iter().position(|row| row.key.order(key).is_eq())
}

fn found<'r>(rows: &'r [ShownRow], key: &ViewKey) -> Option<&'r ShownRow>
    ensures { option_copied result ≡ row_at key.now rows.now }
{
    rows.iter().find(|row| row.key.order(key).is_eq())
}

fn row_of(alloc: Global, key: i64) -> Result<ShownRow, Memory>
    ensures key { IfOk result (λ row. row.key ≡ ViewKey.Row (Cell.Int key)) }
    ensures mark { IfOk result (λ row. row.mark ≡ false) }
{
    let mut cells = ShownCells::new(alloc);
    cells.put(Text::from_str(alloc, "v")?, Value::Whole(key as i128))?;
    Ok(ShownRow {
        key: ViewKey::Row(Cell::Int(key)),
        mark: false,
        cells,
    })
}

/// Whether a row has that key.
fn holds(rows: &[ShownRow], key: &ViewKey) -> bool
    ensures { result ≡ has_row key.now rows.now }
{
    rows.iter().any(|row| row.key.order(key).is_eq())
}

/// The rows of these keys, none of which may stand twice.
fn rows_of(alloc: Global, keys: &[i64]) -> Result<ShownRows, Fail> {
    let mut rows = Vec::new(alloc);
    for key in keys {
        let row = row_of(alloc, *key)?;
        if holds(&rows, &row.key) {
            return Err("a key stands twice".into());
        }
        rows.push(row)?;
    }
    Ok(ShownRows::from_listed(Listed::from_vec(rows)))
}

/// The rows of these keys under a header of one column.
fn shown_of(alloc: Global, column: &str, keys: &[i64]) -> Result<Shown, Fail> {
    let mut header = Listed::new(alloc);
    header.push(HeaderColumn {
        text: Text::from_str(alloc, column)?,
        kind: ShownType::Integer,
    })?;
    Ok(Shown {
        header,
        rows: rows_of(alloc, keys)?,
    })
}

fn is_shown(shown: &Shown, other: &Shown) -> bool {
    let rows = shown.rows.as_slice();
    let others = other.rows.as_slice();
    same_header(shown.header.as_slice(), other.header.as_slice())
        && rows.len() == others.len()
        && rows.iter().zip(others).all(|(row, other)| row.same(other))
}

fn touched(alloc: Global, keys: &[(i64, bool)], header: bool) -> Result<Touched, Memory> {
    let mut touched = TouchedKeys::new(alloc);
    for (key, was_shown) in keys {
        let touch = Touch {
            was_shown: *was_shown,
        };
        touched.add(ViewKey::Row(Cell::Int(*key)), touch)?;
    }
    Ok(Touched {
        keys: touched,
        header,
    })
}

const START: Mark = Mark {
    version: 3,
    edit: 1,
};

const END: Mark = Mark {
    version: 5,
    edit: 1,
};

fn delta_to(alloc: Global, now: Shown, steps: &[Touched]) -> Result<Delta, Fail> {
    let mut set = DirtySet::new(alloc, 9);
    for step in steps {
        set.join(alloc, step)?;
    }
    if set.is_over() {
        return Err("too many keys".into());
    }
    Ok(set.make_delta(alloc, &Now { shown: now }, START, END)?)
}

/// Key 2 goes, key 5 comes into the middle, key 3 moves to the front, and keys 1 and 4 stay.
#[test]
fn a_delta_folds_into_what_is_shown(rt: HostRuntime) -> Result<(), Fail> {
    let alloc = rt.alloc();
    let steps = [
        touched(alloc, &[(2, true), (5, false)], false)?,
        touched(alloc, &[(3, true), (6, false), (5, true)], true)?,
    ];
    let now = shown_of(alloc, "new", &[3, 1, 5, 4])?;
    let delta = delta_to(alloc, now, &steps)?;
    let held = Held {
        shown: shown_of(alloc, "old", &[1, 2, 3, 4])?,
        mark: START,
    };
    let text = format!(in alloc; "{:?}", delta.removed.as_slice())?;
    assert_eq!(rt; text.as_str(), "[Row(Int(2))]");
    let after = shown_of(alloc, "new", &[3, 1, 5, 4])?;
    match fold(alloc, held, &delta) {
        Ok(held) => assert!(rt; held.mark == END && is_shown(&held.shown, &after)),
        Err(_) => return Err("not folded".into()),
    }
    Ok(())
}

/// A delta that removes a key and puts a row.
fn one_row_put(alloc: Global, from: Mark, removed: i64, position: u64) -> Result<Delta, Memory> {
    let mut keys = Listed::new(alloc);
    keys.push(ViewKey::Row(Cell::Int(removed)))?;
    let mut puts = Listed::new(alloc);
    puts.push(Put {
        position,
        row: row_of(alloc, 8)?,
    })?;
    Ok(Delta {
        from,
        to: END,
        removed: Keys::from_listed(keys),
        puts: Puts::from_listed(puts),
        header: None,
    })
}

/// Each cause is told in words, and the held value comes back.
#[test]
fn the_first_cause_refuses_a_delta(rt: HostRuntime) -> Result<(), Fail> {
    let alloc = rt.alloc();
    let cases = [
        (
            END,
            9,
            "version 3, edit 1 is held, and the delta begins at version 5, edit 1",
        ),
        (START, 9, "a removed key isn't held: Row(Int(9))"),
        (START, 2, "a position past the end: 2"),
    ];
    for (from, removed, expected) in cases {
        let held = Held {
            shown: shown_of(alloc, "v", &[2, 1])?,
            mark: START,
        };
        let Err((why, back)) = fold(alloc, held, &one_row_put(alloc, from, removed, 2)?) else {
            return Err("folded".into());
        };
        let text = format!(in alloc; "{why}")?;
        assert_eq!(rt; text.as_str(), expected);
        let before = shown_of(alloc, "v", &[2, 1])?;
        assert!(rt; back.mark == START && is_shown(&back.shown, &before));
    }
    Ok(())
}
