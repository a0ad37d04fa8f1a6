ghost use Rattle.std.specs.Prelude.{◌≡◌};
ghost use Rattle.frame_types.specs.Refusals as refusals;
ghost use Rattle.hub_core.specs.Refusing.{rows_refusal};
ghost use Rattle.frame_types.specs.declared.reply.Cause.TheVariants as cause;

use cell_core::{MAX_ROWS, Numbers, SchemaCause};
use frame_types::{Cause, FrameCause, Refusal};
use hub_ports::MAX_PORTS;
use port_queue::MAX_WAITING;
use row_batch::{BatchRefused, RowCause, RowsRefused};

fn refused(code: u8, cause: Cause, at: Numbers) -> Refusal
    ensures { result ≡ record { code = code; cause = cause; at = at } }
{
    Refusal { code, cause, at }
}

/// The line is no request.
pub fn unread(why: FrameCause) -> Refusal
    ensures { result ≡ refusals.bad_frame (refusals.frame_cause why) }
{
    let cause = match why {
        FrameCause::Long => Cause::Long,
        FrameCause::Json => Cause::Json,
        FrameCause::Object => Cause::Object,
        FrameCause::Op => Cause::Op,
        FrameCause::Member => Cause::Member,
    };
    refused(1, cause, Numbers::Zero)
}

/// A table was made before.
pub fn table_set() -> Refusal
    ensures { result ≡ refusals.table_set }
{
    refused(2, Cause::TableSet, Numbers::Zero)
}

/// The first cause against a schema.
pub fn bad_schema(why: SchemaCause, at: Numbers) -> Refusal
    ensures { result ≡ refusals.bad_schema why at }
{
    let cause = match why {
        SchemaCause::NoColumns => Cause::NoColumns,
        SchemaCause::TooManyColumns => Cause::TooManyColumns,
        SchemaCause::NameLength => Cause::NameLength,
        SchemaCause::BadType => Cause::BadType,
        SchemaCause::Twice => Cause::Twice,
        SchemaCause::IndexAndLimit => Cause::IndexAndLimit,
        SchemaCause::Index => Cause::Index,
        SchemaCause::Limit => Cause::Limit,
    };
    refused(3, cause, at)
}

/// 16 ports are open or hold waiting batches.
pub fn too_many_ports() -> Refusal
    ensures { result ≡ refusals.too_many_ports }
{
    refused(4, Cause::TooManyPorts, Numbers::One(MAX_PORTS as u64))
}

/// No port of that number was made.
pub fn no_port() -> Refusal
    ensures { result ≡ refusals.no_port }
{
    refused(5, Cause::NoPort, Numbers::Zero)
}

/// The port was closed.
pub fn port_closed() -> Refusal
    ensures { result ≡ refusals.port_closed }
{
    refused(6, Cause::PortClosed, Numbers::Zero)
}

/// The first cause against rows or keys.
pub fn bad_rows(why: BatchRefused) -> Refusal
    ensures { result ≡ refusals.bad_rows why }
{
    let cause = match why.cause {
        RowCause::Shape => Cause::Shape,
        RowCause::Csv => Cause::Csv,
        RowCause::Header => Cause::Header,
        RowCause::Twice => Cause::Twice,
        RowCause::Unknown => Cause::Unknown,
        RowCause::Length => Cause::Length,
        RowCause::Rows => Cause::Rows,
        RowCause::Index => Cause::Index,
        RowCause::BadType => Cause::BadType,
        RowCause::Date => Cause::Date,
        RowCause::Range => Cause::Range,
        RowCause::Long => Cause::Long,
    };
    refused(7, cause, why.at)
}

/// The first cause against rows or keys, or want of memory.
pub fn rows(why: RowsRefused) -> Refusal
    ensures { result ≡ rows_refusal why }
{
    match why {
        RowsRefused::Bad(why) => bad_rows(why),
        RowsRefused::Memory => memory(),
    }
}

/// The table has no index.
pub fn not_indexed() -> Refusal
    ensures { result ≡ refusals.not_indexed }
{
    refused(8, Cause::NotIndexed, Numbers::Zero)
}

/// 64 batches wait on the port.
pub fn port_full() -> Refusal
    ensures { result ≡ refusals.port_full }
{
    refused(9, Cause::PortFull, Numbers::One(MAX_WAITING as u64))
}

/// With the batch the table might have so many rows.
pub fn table_full(would: u64) -> Refusal
    ensures { result ≡ refusals.table_full would }
{
    refused(10, Cause::TableFull, Numbers::Two(would, MAX_ROWS as u64))
}

/// As many requests were answered as the history may have.
pub fn history_full(limit: u64) -> Refusal
    ensures { result ≡ refusals.history_full limit }
{
    refused(11, Cause::HistoryFull, Numbers::One(limit))
}

/// No batch waits on the port.
pub fn empty() -> Refusal
    ensures { result ≡ refusals.empty }
{
    refused(12, Cause::Empty, Numbers::Zero)
}

pub fn no_table() -> Refusal
    ensures { result ≡ refusals.no_table }
{
    refused(21, Cause::NoTable, Numbers::Zero)
}

pub fn memory() -> Refusal
    ensures { result ≡ refusals.memory }
{
    refused(22, Cause::Memory, Numbers::Zero)
}
