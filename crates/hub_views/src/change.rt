use cell_core::{Path, Raw};

/// What a request changes of a view.
#[derive(Drop)]
pub enum Change {
    /// Its plan, to the one that a value stands for.
    Plan(Raw),
    /// To what depth its groups are open.
    Depth(u64),
    /// A group is opened.
    Expand(Path),
    /// A group is closed.
    Collapse(Path),
}
