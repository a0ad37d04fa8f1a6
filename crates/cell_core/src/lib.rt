//! Cells, JSON values that are judged later, and schemas: what a table of the engine holds.
//!
//! It stands on `plain_data`, `cal_units` and `value_core`, whose types it passes on. Its callers may
//! rely on one total order of cells (`specs/Cells.antt`), on a `Raw` in which no name stands twice, and
//! on a `Schema` that `Schema::make` alone makes, by the rules of `specs/Schemas.antt`. The limits of
//! tables stand in `specs/Limits.antt`, for all crates above.
#![tactic(auto)]

mod cell;
mod limits;
mod raw;
mod schema;

pub use cal_units::{Day, Moment};
pub use cell::{Cell, CellType, Cells, Direction, Path, Row, cell_order_laws};
pub use limits::{MAX_COLUMNS, MAX_INTEGER, MAX_NAME, MAX_ROWS, MAX_TEXT, is_integer};
pub use plain_data::{Bytes, Copies, Listed, Memory, Steps, Text, Texts};
pub use raw::{Raw, RawList, RawMap};
pub use schema::{
    Column, ColumnWords, Columns, Keeping, Numbers, Schema, SchemaCause, SchemaRefused,
};
pub use value_core::{Fraction, Value};
