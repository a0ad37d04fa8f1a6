use cell_core::{Cell, Listed, Row};

/// What a batch did at one key: the row that stood there, and the row that stands there now. One of
/// them is there.
#[derive(Debug, Drop)]
pub struct RowChange {
    pub key: Cell,
    pub old: Option<Row>,
    pub new: Option<Row>,
}

/// Changes in the order in which they act.
pub type Changes = Listed<RowChange>;
