//! The views that sessions hold over one table: what each shows, and what was touched since its session was
//! last told.
//!
//! It stands on `live_rows`, which keeps the rows of a view, on `view_kept` for what that promises, on `view_shape` for
//! which groups are open, on `delta_core`, and on `hub_spec`, whose definitions say what each request is answered
//! after a history of requests. Its callers may rely on this: for every history that `Views` holds
//! (`HoldsViews` of `specs/Keeping.antt`) each call answers what that history is answered, and holds the
//! history with that step. What they keep of a view is their own. The views that an update loses are named; that
//! these are those alone of which it found no memory is no clause.
#![tactic(auto)]

mod change;
mod groups;
mod list;
mod live;
mod plans;
mod refused;
mod showing;
mod view;
mod views;

pub use change::Change;
pub use views::{LossRoom, MAX_VIEWS, Views};
