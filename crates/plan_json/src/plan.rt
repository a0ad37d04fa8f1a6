use crate::named::NamedTexts;
use cell_core::{Listed, Raw, Text, Texts};

/// A filter as it is written.
#[derive(Drop)]
pub struct RawFilter {
    pub name: Text,
    pub operator: Text,
    /// A cell or a list of cells, judged later.
    pub value: Option<Raw>,
}

/// Filters in the order in which a plan lists them.
pub type RawFilters = Listed<RawFilter>;

/// A sort as it is written.
#[derive(Debug, Drop)]
pub struct RawSort {
    pub name: Text,
    pub direction: Text,
}

/// Sorts, the first before those behind it.
pub type RawSorts = Listed<RawSort>;

/// A plan as it is written, before it is judged: columns by their names, and each word as it stands.
#[derive(Drop)]
pub struct RawPlan {
    /// The shown columns. Left out they are the schema's; an empty list shows none.
    pub columns: Option<Texts>,
    pub group_by: Texts,
    pub split_by: Texts,
    /// The name of an aggregate under that of a column.
    pub aggregates: NamedTexts,
    /// The text of an expression under the name of its column.
    pub expressions: NamedTexts,
    pub filter: RawFilters,
    /// Left out it is `and`.
    pub filter_op: Option<Text>,
    pub sort: RawSorts,
}
