ghost use Rattle.std.specs.Prelude.{◌≡◌, ◌&&◌, [], length, IfOk, OnOk, OnErr};
ghost use Rattle.std.specs.Cmp.Lexicographic.{slice_cmp};
ghost use Rattle.std.specs.List.Sorted.{IsBinarySearchResult, IsSearchInRange, IsStrictlySortedBy};
ghost use Rattle.std.specs.Map.{keys_of};
ghost use Rattle.std.specs.Ordering.{nat_cmp};
ghost use Rattle.view_types.specs.Cells.{put_cell};
ghost use Rattle.view_types.specs.Same.{same_cells, same_header as is_same_header, same_row, same_text};
ghost use Rattle.view_types.specs.Types.{shown_type_name};

use crate::key::ViewKey;
use cell_core::{CellType, Copies, Listed, Memory, Text, Value};
use std::alloc::Global;
use std::marker::Model;

/// The type of a shown column: a column's type, or the type of a mean.
#[derive(Clone, Copy, Debug, Drop, PartialEq, Eq)]
pub enum ShownType {
    Integer,
    Boolean,
    Date,
    Moment,
    Words,
    Fraction,
}

/// A shown column: its text, and the type of its values.
#[derive(Debug, Drop)]
pub struct HeaderColumn {
    pub text: Text,
    pub kind: ShownType,
}

pub type Header = Listed<HeaderColumn>;

/// The values of a shown row, each under its column's text. Null values are left out.
///
/// They stand in one list, ascending by text, and no text stands twice.
#[derive(Debug, Drop)]
pub struct ShownCells {
    cells: Vec<(Text, Value)>,
}

impl Model for ShownCells {
    ghost use Rattle.std.specs.Prelude.{List, ℕ};
    ghost use Rattle.std.specs.Cmp.Lexicographic.{slice_cmp};
    ghost use Rattle.std.specs.List.Sorted.{IsStrictlySortedBy};
    ghost use Rattle.std.specs.Map.{keys_of};
    ghost use Rattle.std.specs.Ordering.{nat_cmp};
    ghost use Rattle.value_core.specs.declared.value.Value.{Value as ShownValue};

    ghost Value = { List (List ℕ × ShownValue) };

    ghost view = { λ c. c.cells.items };

    ghost invariant = { λ c. IsStrictlySortedBy (slice_cmp nat_cmp) (keys_of c.cells.items) };
}

impl ShownCells {
    /// No values. It takes no memory.
    pub fn new(alloc: Global) -> ShownCells
        ensures { result ≡ [] }
    {
        ShownCells {
            cells: Vec::new(alloc),
        }
    }

    /// No values, with room for as many as `count`. Want of memory is the only refusal.
    pub fn with_capacity(alloc: Global, count: usize) -> Result<ShownCells, Memory>
        ensures { IfOk result (λ cells. cells ≡ []) }
    {
        Ok(ShownCells {
            cells: Vec::with_capacity(alloc, count)?,
        })
    }

    /// Puts the value under a column's text, in place of the one there.
    pub fn put(&mut self, column: Text, value: Value) -> Result<(), Memory>
        ensures ok { OnOk result (self.new ≡ put_cell self.old column value) }
        ensures err { OnErr result (self.new ≡ self.old) }
    {
        match place_of(&self.cells, &column) {
            Ok(at) => self.cells[at].1 = value,
            Err(at) => self.cells.insert(at, (column, value))?,
        }
        Ok(())
    }

    /// The values, ascending by column text.
    pub fn entries(&self) -> &[(Text, Value)]
        ensures { result.now ≡ self.now }
    {
        &self.cells
    }

    /// Whether the same values stand under the same texts.
    pub fn same(&self, other: &ShownCells) -> bool
        ensures { result ≡ same_cells self.now other.now }
    {
        let mut others = other.cells.iter();
        for (text, value) in &self.cells {
            match others.next() {
                Some((other_text, other_value))
                    if text.cmp(other_text).is_eq() && value.order(other_value).is_eq() => {}
                _ => return false,
            }
        }
        others.next().is_none()
    }

    /// The number of values.
    pub fn len(&self) -> usize
        ensures count { result ≡ length self.now }
        ensures ascending { IsStrictlySortedBy (slice_cmp nat_cmp) (keys_of self.now) }
    {
        self.cells.len()
    }
}

/// Where the column's value stands, or else where it would go.
fn place_of(cells: &[(Text, Value)], column: &Text) -> Result<usize, usize>
    ensures within { IsSearchInRange result (length cells.now) }
    ensures place { IsBinarySearchResult (λ c. slice_cmp nat_cmp c.0 column.now) cells.now result }
{
    cells.binary_search_by(|cell| cell.0.cmp(column))
}

impl Copies for ShownCells {
    /// An equal value, with room for no more than it has.
    fn copy(&self, alloc: Global) -> Result<ShownCells, Memory> {
        let mut cells = Vec::with_capacity(alloc, self.cells.len())?;
        for (column, value) in &self.cells {
            cells.push((column.copy(alloc)?, value.copy(alloc)?))?;
        }
        Ok(ShownCells { cells })
    }
}

/// A row of a view.
#[derive(Debug, Drop)]
pub struct ShownRow {
    pub key: ViewKey,
    /// Whether it is a group that is open.
    pub mark: bool,
    pub cells: ShownCells,
}

impl ShownRow {
    /// Whether the key, the mark and the cells are the same.
    pub fn same(&self, other: &ShownRow) -> bool
        ensures { result ≡ same_row self.now other.now }
    {
        self.key.order(&other.key).is_eq()
            && self.mark == other.mark
            && self.cells.same(&other.cells)
    }
}

impl Copies for ShownRow {
    fn copy(&self, alloc: Global) -> Result<ShownRow, Memory> {
        Ok(ShownRow {
            key: self.key.copy(alloc)?,
            mark: self.mark,
            cells: self.cells.copy(alloc)?,
        })
    }
}

/// Rows in the order in which they are shown. No key stands twice, and a row that is no group has no
/// mark.
#[derive(Debug, Drop)]
pub struct ShownRows {
    rows: Listed<ShownRow>,
}

impl Model for ShownRows {
    ghost use Rattle.std.specs.Prelude.{List};
    ghost use Rattle.view_types.specs.declared.shown.ShownRow.{ShownRow};
    ghost use Rattle.view_types.specs.Rows.{AreShownRows};

    ghost Value = { List ShownRow };

    ghost view = { λ s. s.rows };

    ghost invariant = { λ s. AreShownRows s.rows };
}

impl ShownRows {
    ghost use Rattle.std.specs.Prelude.{◌≡◌};
    ghost use Rattle.view_types.specs.Rows.{AreShownRows};

    pub fn from_listed(rows: Listed<ShownRow>) -> ShownRows
        requires { AreShownRows rows }
        ensures { result ≡ rows }
    {
        ShownRows { rows }
    }

    /// The rows, with no copy made.
    pub fn into_listed(self) -> Listed<ShownRow>
        ensures rows { result ≡ self }
        ensures shown { AreShownRows self }
    {
        let ShownRows { rows } = self;
        rows
    }

    pub fn as_slice(&self) -> &[ShownRow]
        ensures rows { result.now ≡ self.now }
        ensures shown { AreShownRows self.now }
    {
        self.rows.as_slice()
    }
}

impl Copies for ShownRows {
    fn copy(&self, alloc: Global) -> Result<ShownRows, Memory> {
        Ok(ShownRows {
            rows: self.rows.copy(alloc)?,
        })
    }
}

impl Copies for HeaderColumn {
    fn copy(&self, alloc: Global) -> Result<HeaderColumn, Memory> {
        Ok(HeaderColumn {
            text: self.text.copy(alloc)?,
            kind: self.kind,
        })
    }
}

impl HeaderColumn {
    /// Whether the text and the type are the same.
    fn same(&self, other: &HeaderColumn) -> bool
        ensures { result ≡ same_text self.now.text other.now.text && same_text (shown_type_name self.now.kind) (shown_type_name other.now.kind) }
    {
        self.text.cmp(&other.text).is_eq() && self.kind.name().cmp(other.kind.name()).is_eq()
    }
}

/// Whether two headers have the same texts and types in the same order.
pub fn same_header(a: &[HeaderColumn], b: &[HeaderColumn]) -> bool
    ensures { result ≡ is_same_header a.now b.now }
{
    let mut others = b.iter();
    for column in a {
        match others.next() {
            Some(other) if column.same(other) => {}
            _ => return false,
        }
    }
    others.next().is_none()
}

/// What a view shows.
#[derive(Debug, Drop)]
pub struct Shown {
    pub header: Header,
    pub rows: ShownRows,
}

impl Copies for Shown {
    fn copy(&self, alloc: Global) -> Result<Shown, Memory> {
        Ok(Shown {
            header: self.header.copy(alloc)?,
            rows: self.rows.copy(alloc)?,
        })
    }
}

impl ShownType {
    ghost use Rattle.view_types.specs.Types.{shown_type, shown_type_name};

    pub fn of(kind: CellType) -> ShownType
        ensures { result ≡ shown_type kind }
    {
        match kind {
            CellType::Integer => ShownType::Integer,
            CellType::Boolean => ShownType::Boolean,
            CellType::Date => ShownType::Date,
            CellType::Moment => ShownType::Moment,
            CellType::Words => ShownType::Words,
        }
    }

    pub fn name(self) -> &'static str
        ensures { result.now ≡ shown_type_name self }
    {
        match self {
            ShownType::Integer => "integer",
            ShownType::Boolean => "boolean",
            ShownType::Date => "date",
            ShownType::Moment => "datetime",
            ShownType::Words => "string",
            ShownType::Fraction => "fraction",
        }
    }
}
