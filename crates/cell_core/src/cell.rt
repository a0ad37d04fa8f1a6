ghost use Rattle.std.specs.Prelude.{◌≡◌, IfOk};
ghost use Rattle.cell_core.specs.Cells.{cell_order, value_of};

use cal_units::{Day, Moment};
use plain_data::{Copies, Listed, Memory, Text};
use std::alloc::Global;
use std::cmp::Ordering;
use value_core::Value;

/// The type of a column, whose cells are null or of this type.
#[derive(Clone, Copy, Debug, Drop, PartialEq, Eq)]
pub enum CellType {
    Integer,
    Boolean,
    Date,
    Moment,
    Words,
}

/// A cell of a table.
///
/// The derived comparisons are those of `Cell::order`, since the variants stand in its order.
#[derive(Debug, Drop, PartialEq, Eq, PartialOrd, Ord, Hash)]
pub enum Cell {
    Null,
    Bool(bool),
    /// From -(2^53-1) to 2^53-1 in a table.
    Int(i64),
    Date(Day),
    /// A datetime.
    Moment(Moment),
    /// At most 256 bytes in a table.
    Words(Text),
}

/// Cells of no certain row, as keys.
pub type Cells = Listed<Cell>;

/// A row's cells, one for each column of the schema.
pub type Row = Listed<Cell>;

/// The group or split values that lead to a group.
pub type Path = Listed<Cell>;

/// How a sort orders: by value, or by absolute value.
#[derive(Clone, Copy, Debug, Drop, PartialEq, Eq)]
pub enum Direction {
    Asc,
    Desc,
    AscAbs,
    DescAbs,
}

impl Cell {
    /// The total order of cells: by kind, then by value. Null is least, and false is before true.
    pub fn order(&self, other: &Cell) -> Ordering
        ensures { result ≡ cell_order self.now other.now }
    {
        match (self, other) {
            (Cell::Bool(a), Cell::Bool(b)) => a.cmp(b),
            (Cell::Int(a), Cell::Int(b)) => a.cmp(b),
            (Cell::Date(a), Cell::Date(b)) => a.cmp(b),
            (Cell::Moment(a), Cell::Moment(b)) => a.cmp(b),
            (Cell::Words(a), Cell::Words(b)) => a.cmp(b),
            _ => self.kind().cmp(&other.kind()),
        }
    }

    /// The cell as a shown value, and none for null.
    pub fn value(&self, alloc: Global) -> Result<Option<Value>, Memory>
        ensures { IfOk result (λ value. value ≡ value_of self.now) }
    {
        Ok(match self {
            Cell::Null => None,
            Cell::Bool(truth) => Some(Value::Bool(*truth)),
            Cell::Int(number) => Some(Value::Whole(*number as i128)),
            Cell::Date(day) => Some(Value::Date(*day)),
            Cell::Moment(time) => Some(Value::Moment(*time)),
            Cell::Words(text) => Some(Value::Words(text.copy(alloc)?)),
        })
    }
}

impl Cell {
    ghost use Rattle.cell_core.specs.Cells.{is_null, kind};

    /// Whether the cell has no value.
    pub fn is_null(&self) -> bool
        ensures { result ≡ is_null self.now }
    {
        matches!(self, Cell::Null)
    }

    fn kind(&self) -> u8
        ensures { result ≡ kind self.now }
    {
        match self {
            Cell::Null => 0,
            Cell::Bool(_) => 1,
            Cell::Int(_) => 2,
            Cell::Date(_) => 4,
            Cell::Moment(_) => 5,
            Cell::Words(_) => 6,
        }
    }
}

impl Copies for Cell {
    fn copy(&self, alloc: Global) -> Result<Cell, Memory> {
        match self {
            Cell::Null => Ok(Cell::Null),
            Cell::Bool(truth) => Ok(Cell::Bool(*truth)),
            Cell::Int(number) => Ok(Cell::Int(*number)),
            Cell::Date(day) => Ok(Cell::Date(*day)),
            Cell::Moment(time) => Ok(Cell::Moment(*time)),
            Cell::Words(text) => Ok(Cell::Words(text.copy(alloc)?)),
        }
    }
}

ghost use Rattle.std.specs.Cmp.{IsTotalOrder};
ghost use Rattle.std.proofs.lemmas.Map.Lookups.{CmpEqualImpliesEq};

/// The laws of the order of cells, which code cannot call for anything else: it is a total order,
/// and only one cell is equal to a cell.
pub fn cell_order_laws()
    ensures total { IsTotalOrder cell_order }
    ensures exact { CmpEqualImpliesEq cell_order }
{}
