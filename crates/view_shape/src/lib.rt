//! Which groups of a view are open.
//!
//! An `OpenState` is the depth to which a view's groups are open, and the groups that were opened or closed one by
//! one, of which there are at most 4,096. It stands on `view_spec`, whose `Opening` it is. Its callers may rely on
//! this: a call answers what the definitions say of exactly that opening, only `copy`, `expand` and `collapse` can
//! want memory, and a refused `expand` or `collapse` changes nothing. `specs/Singles.antt` says how an opening
//! changes.
//!
//! Single openings stand in an ordered map, so that a group is looked up in the time of the logarithm of their
//! number, and whether it is shown in that time for each group above it. What a call costs is no clause.
#![tactic(auto)]

mod open_state;

pub use open_state::{MAX_SINGLES, OpenRefused, OpenState};
