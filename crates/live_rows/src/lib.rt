//! The rows of a view, kept in the way that its plan allows.
//!
//! A `LiveRows` is a `KeptView`: a `FlatLive` where the plan has no groups, whose step costs what its changes cost, and
//! else a `PlainView`, which is computed anew at each step. By another plan it may become the other
//! kind; what that touches is told from the rows of both, key by key. It stands on `flat_live` and on `plain_kept` for
//! the two kinds, and on `view_kept` for what a kept view promises. Its callers may rely on what `KeptView` says for
//! every plan that fits the table's columns (`IsViewPlan`), before and after: what is shown and what is touched is what
//! the definitions say of the table's rows, whatever kind it is.
//!
//! What a call costs is no clause. `build`, and a `reshape` to the other kind, visit each row of the table.
#![tactic(auto)]

mod building;
mod live;
mod turning;

pub use building::build;
pub use live::LiveRows;
