use cell_core::{Columns, Listed, Memory, Numbers, Text};
use delta_core::Delta;
use plan_json::{PlanCause, PlanPart};
use std::marker::Model;
use view_types::Shown;

/// Why a request was refused, in a refusal's words. One cause can stand under several codes.
#[derive(Clone, Copy, Debug, Drop, PartialEq, Eq)]
pub enum Cause {
    /// A line or a text is too long.
    Long,
    /// A line is no JSON text in UTF-8.
    Json,
    /// A line is no JSON object.
    Object,
    /// A request names no form.
    Op,
    /// A member of a request is missing, unknown or not of its form.
    Member,
    /// A table was made before.
    TableSet,
    /// A table is to have no columns.
    NoColumns,
    /// A table is to have too many columns.
    TooManyColumns,
    /// A column's name is empty or too long.
    NameLength,
    /// A column's type is none, or a cell is not of its column's type.
    BadType,
    /// A name stands twice.
    Twice,
    /// A table is to have both a primary key and a greatest number of rows.
    IndexAndLimit,
    /// A primary key is no column, or a row's is left out or null.
    Index,
    /// A greatest number of rows is out of its range.
    Limit,
    /// Too many ports are in use.
    TooManyPorts,
    /// No port of that number was made.
    NoPort,
    /// The port was closed.
    PortClosed,
    /// A value is not of the shape of rows or of keys.
    Shape,
    /// A record has another number of fields than the first.
    Csv,
    /// A text has no record, so that no column is named.
    Header,
    /// A name is that of no column.
    Unknown,
    /// Lists that stand for rows are not of one length.
    Length,
    /// A batch has too many rows or keys.
    Rows,
    /// A text is no date, or no datetime.
    Date,
    /// A whole number or a datetime is out of its range.
    Range,
    /// The table has no primary key.
    NotIndexed,
    /// Too many batches wait on the port.
    PortFull,
    /// The table would have too many rows.
    TableFull,
    /// Too many requests were answered.
    HistoryFull,
    /// No batch waits on the port.
    Empty,
    /// A plan is no object of a plan's members.
    PlanForm,
    /// A member of a plan is refused.
    Plan(PlanPart, PlanCause),
    /// Too many views are held.
    TooManyViews,
    /// The session holds no view of that number.
    NoView,
    /// An update of the view found no memory.
    ViewLost,
    /// No shown group row has that path.
    NoRow,
    /// A path is as long as the view's group columns, so that no group lies below it.
    NotAGroup,
    /// Too many other groups of the view were opened or closed one by one.
    TooManyOpen,
    /// A window of rows ends before it begins.
    Window,
    /// No table was made.
    NoTable,
    /// Memory was wanted and not given.
    Memory,
}

/// A refusal: its code, its cause, and where the cause was found.
#[derive(Clone, Copy, Debug, Drop, PartialEq, Eq)]
pub struct Refusal {
    pub code: u8,
    pub cause: Cause,
    pub at: Numbers,
}

impl From<Memory> for Refusal {
    ghost use Rattle.std.specs.Prelude.{◌≡◌};
    ghost use Rattle.frame_types.specs.Refusals.{memory};

    ghost from_gives = { λ want made. made ≡ memory };

    fn from(_refused: Memory) -> Refusal {
        Refusal {
            code: 22,
            cause: Cause::Memory,
            at: Numbers::Zero,
        }
    }
}

/// Views, each by its session and its number there.
pub type Lost = Listed<(u32, u64)>;

/// What a request is answered, besides the numbers that every reply has.
#[derive(Debug, Drop)]
pub enum Body {
    /// The table was made.
    Table,
    /// The port of that number was made.
    Port {
        port: u64,
    },
    /// The port was closed.
    PortClosed {
        port: u64,
    },
    /// The batch waits on the port as its number `seq`, counted from 1.
    Queued {
        port: u64,
        seq: u64,
    },
    /// The batch that was number `seq` of the port was applied.
    Applied {
        port: u64,
        seq: u64,
    },
    /// The batch was applied, and the update of these views found no memory.
    AppliedLosing {
        lost: Lost,
        port: u64,
        seq: u64,
    },
    /// The view of that number was opened, and this is what it shows.
    Opened {
        edit: u64,
        shown: Shown,
        view: u64,
    },
    /// The view's plan was changed, or which of its groups are open; `edit` counts such changes.
    Edited {
        edit: u64,
        view: u64,
    },
    /// What changed in the view since the last opening, delta or resynchronisation that was answered for
    /// it.
    Delta {
        delta: Delta,
        view: u64,
    },
    /// What the view shows, in place of a delta: more of its keys were touched since then than `bound`.
    Resync {
        bound: u64,
        edit: u64,
        shown: Shown,
        view: u64,
    },
    /// The rows of the view from position `from` on.
    Rows {
        edit: u64,
        from: u64,
        shown: Shown,
        /// The number of rows of the whole view.
        size: u64,
        view: u64,
    },
    /// The view was closed.
    Closed {
        view: u64,
    },
    /// How many held views the session's leaving closed.
    Left {
        closed: u64,
    },
    /// What the table is kept under, and how much it holds.
    Info {
        columns: Columns,
        index: Option<Text>,
        limit: Option<u64>,
        /// The number of rows.
        size: u64,
        /// How many batches wait on all ports.
        waiting: u64,
    },
    /// Why the request was refused.
    Refused(Refusal),
}

/// The reply to one request. A delta in it ends at the reply's version.
#[derive(Debug, Drop)]
pub struct Reply {
    /// The request's number in its session, counted from 1.
    pub n: u64,
    /// How many batches were applied by then.
    pub version: u64,
    pub body: Body,
}

impl Model for Reply {
    ghost use Rattle.frame_types.specs.ReplyData.{ReplyData, EndsAt};

    ghost Value = { ReplyData };

    ghost view = { λ r. record { n = r.n; version = r.version; body = r.body } };

    ghost invariant = { λ r. EndsAt r.version r.body };
}
