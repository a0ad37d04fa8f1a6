ghost use Rattle.std.specs.Prelude.{◌≡◌, IfOk};

use crate::aggregate::AggName;
use crate::tree::Tree;
use cell_core::{Cell, CellType, Cells, Copies, Direction, Listed, Memory, Text};
use std::alloc::Global;

/// Columns by their numbers.
pub type Numbered = Listed<usize>;

/// A column that is computed of a row's own cells.
#[derive(Debug, Drop)]
pub struct Expression {
    pub name: Text,
    /// The type of its cells.
    pub kind: CellType,
    pub tree: Tree,
}

/// Expressions in the order in which their columns are numbered.
pub type Expressions = Listed<Expression>;

/// A column and the aggregate that a plan names for it.
#[derive(Clone, Copy, Debug, Drop, PartialEq, Eq)]
pub struct Named {
    pub column: usize,
    pub aggregate: AggName,
}

/// Columns with the aggregates that a plan names for them.
pub type NamedList = Listed<Named>;

/// A column that rows are sorted by, and how.
#[derive(Clone, Copy, Debug, Drop, PartialEq, Eq)]
pub struct Sort {
    pub column: usize,
    pub direction: Direction,
}

/// Sorts, the first before those behind it.
pub type Sorts = Listed<Sort>;

/// What a filter asks of a cell. Cells compare by their order, and texts byte for byte.
#[derive(Debug, Drop)]
pub enum FilterTest {
    Equal(Cell),
    Unequal(Cell),
    Less(Cell),
    AtMost(Cell),
    Greater(Cell),
    AtLeast(Cell),
    /// Whether the cell's text begins with this one.
    Begins(Text),
    Ends(Text),
    /// Whether this text stands within the cell's.
    Contains(Text),
    Among(Cells),
    NotAmong(Cells),
    IsNull,
    IsNotNull,
}

/// A test of the cells of one column.
#[derive(Debug, Drop)]
pub struct Filter {
    pub column: usize,
    pub test: FilterTest,
}

/// Filters, in the order in which a plan lists them.
pub type FilterList = Listed<Filter>;

/// Which rows a plan keeps.
#[derive(Debug, Drop)]
pub struct Filters {
    pub list: FilterList,
    /// Whether a row has to meet every filter, or at least one.
    pub every: bool,
}

/// What a view shows of a table.
#[derive(Debug, Drop)]
pub struct Plan {
    /// The shown columns, in order.
    pub columns: Numbered,
    pub group_by: Numbered,
    pub split_by: Numbered,
    pub aggregates: NamedList,
    pub filters: Filters,
    pub sorts: Sorts,
    pub expressions: Expressions,
}

impl FilterTest {
    /// An equal test.
    pub fn copy(&self, alloc: Global) -> Result<FilterTest, Memory>
        ensures { IfOk result (λ copy. copy ≡ self.now) }
    {
        match self {
            FilterTest::Equal(cell) => Ok(FilterTest::Equal(cell.copy(alloc)?)),
            FilterTest::Unequal(cell) => Ok(FilterTest::Unequal(cell.copy(alloc)?)),
            FilterTest::Less(cell) => Ok(FilterTest::Less(cell.copy(alloc)?)),
            FilterTest::AtMost(cell) => Ok(FilterTest::AtMost(cell.copy(alloc)?)),
            FilterTest::Greater(cell) => Ok(FilterTest::Greater(cell.copy(alloc)?)),
            FilterTest::AtLeast(cell) => Ok(FilterTest::AtLeast(cell.copy(alloc)?)),
            FilterTest::Begins(text) => Ok(FilterTest::Begins(text.copy(alloc)?)),
            FilterTest::Ends(text) => Ok(FilterTest::Ends(text.copy(alloc)?)),
            FilterTest::Contains(text) => Ok(FilterTest::Contains(text.copy(alloc)?)),
            FilterTest::Among(cells) => Ok(FilterTest::Among(cells.copy(alloc)?)),
            FilterTest::NotAmong(cells) => Ok(FilterTest::NotAmong(cells.copy(alloc)?)),
            FilterTest::IsNull => Ok(FilterTest::IsNull),
            FilterTest::IsNotNull => Ok(FilterTest::IsNotNull),
        }
    }
}

impl Filters {
    /// Equal filters.
    pub fn copy(&self, alloc: Global) -> Result<Filters, Memory>
        ensures { IfOk result (λ copy. copy ≡ self.now) }
    {
        Ok(Filters {
            list: self.list.copy(alloc)?,
            every: self.every,
        })
    }
}

impl Plan {
    /// An equal plan.
    pub fn copy(&self, alloc: Global) -> Result<Plan, Memory>
        ensures { IfOk result (λ copy. copy ≡ self.now) }
    {
        Ok(Plan {
            columns: copied(alloc, &self.columns)?,
            group_by: copied(alloc, &self.group_by)?,
            split_by: copied(alloc, &self.split_by)?,
            aggregates: copied(alloc, &self.aggregates)?,
            filters: self.filters.copy(alloc)?,
            sorts: copied(alloc, &self.sorts)?,
            expressions: self.expressions.copy(alloc)?,
        })
    }
}

/// An equal list of items that are copied by themselves.
fn copied<T: Copy>(alloc: Global, list: &Listed<T>) -> Result<Listed<T>, Memory>
    ensures { IfOk result (λ copy. copy ≡ list.now) }
{
    let items = Vec::from_slice(alloc, list.as_slice())?;
    Ok(Listed::from_vec(items))
}

impl Copies for Expression {
    fn copy(&self, alloc: Global) -> Result<Expression, Memory> {
        Ok(Expression {
            name: self.name.copy(alloc)?,
            kind: self.kind,
            tree: self.tree.copy(alloc)?,
        })
    }
}

impl Copies for Filter {
    fn copy(&self, alloc: Global) -> Result<Filter, Memory> {
        Ok(Filter {
            column: self.column,
            test: self.test.copy(alloc)?,
        })
    }
}
