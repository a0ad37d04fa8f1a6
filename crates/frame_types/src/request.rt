use cell_core::{Columns, Path, Raw, Text};

/// Why a line is no request. The causes are tested in this order.
#[derive(Clone, Copy, Debug, Drop, PartialEq, Eq)]
pub enum FrameCause {
    /// The line has more than 1 MiB (1,048,576 bytes).
    Long,
    /// The bytes are not one JSON text (RFC 8259) in UTF-8.
    Json,
    /// The value is no object.
    Object,
    /// The member `op` is missing, or names no form.
    Op,
    /// A member is missing, unknown or not of its form.
    Member,
}

/// What a client asks.
#[derive(Drop)]
pub enum Request {
    /// Makes the one table, with its primary key or its greatest number of rows.
    Table {
        columns: Columns,
        index: Option<Text>,
        limit: Option<i64>,
    },
    /// Makes a port.
    Port,
    /// Closes all views that the session holds.
    Leave,
    /// Asks for the table's columns and what its rows are kept under, and for the numbers of rows and
    /// of waiting batches.
    Info,
    /// Queues an update on a port. The rows are judged against the schema.
    Update {
        port: u64,
        rows: Raw,
    },
    /// Queues an update that comes after the table was cleared.
    Replace {
        port: u64,
        rows: Raw,
    },
    /// Queues an update whose rows are CSV text.
    Csv {
        port: u64,
        text: Text,
    },
    /// Queues the removal of the rows of these keys.
    Remove {
        port: u64,
        keys: Raw,
    },
    /// Queues the removal of all rows.
    Clear {
        port: u64,
    },
    /// Closes a port: it takes no more batches, and those that wait are still applied.
    ClosePort {
        port: u64,
    },
    /// Applies the oldest batch that waits on a port.
    Apply {
        port: u64,
    },
    /// Opens a view. The plan is judged against the schema; `bound` is the most keys of the
    /// view that may be touched since its base before a take shows all rows anew.
    Open {
        plan: Raw,
        bound: u64,
    },
    /// Changes a view's plan. The plan is judged against the schema.
    Edit {
        view: u64,
        plan: Raw,
    },
    /// Opens all groups of a view whose paths are shorter than `depth` and closes the others. What was opened or closed
    /// one by one is forgotten.
    Depth {
        view: u64,
        depth: u64,
    },
    /// Opens a group of a view that is shown.
    Expand {
        view: u64,
        path: Path,
    },
    /// Closes a group of a view that is shown.
    Collapse {
        view: u64,
        path: Path,
    },
    /// Asks for what changed in a view since the last opening, delta or resynchronisation that was answered
    /// for it. `wait` has no effect on the answer.
    Take {
        view: u64,
        wait: bool,
    },
    /// Asks for the rows at positions `from` up to and without `to`.
    Rows {
        view: u64,
        from: u64,
        to: u64,
    },
    /// Closes a view.
    Close {
        view: u64,
    },
    /// What could not be read as a request.
    Unread(FrameCause),
}

/// A request, and the session that asks it.
#[derive(Drop)]
pub struct Asked {
    pub session: u32,
    pub request: Request,
}
