//! What a view with groups shows of a table's rows, computed from scratch.
//!
//! `show_groups` answers the header and the rows of the view, each row at the place by which it is sorted. The kept
//! rows go one by one into an aggregate tree, and the groups of the tree are then walked over from the total downwards,
//! into open groups alone. It stands on `view_spec` for what a view is, on `pivot_tree` for the tree and the split paths,
//! on `group_walk` for the walk, on `view_columns` for the columns under each split path, on `view_shape` for openings,
//! on `table_core` for the rows, on `flat_show` and `row_filter` for which rows are kept, and on `place_order` for
//! places. Its callers may rely on this: for each plan that `IsGroupedPlan` describes what is answered is the view of the
//! definitions, in whatever order the table has its rows, and want of memory is the only refusal.
//!
//! The tree of the kept rows is there for views that are kept by changes, too. What a call costs is no clause:
//! `show_groups` visits each row of the table once and each group that is shown once, and sorts the shown rows by a map.
#![tactic(auto)]

mod kept;
mod placing;
mod show;

pub use group_walk::{group_row, place_below};
pub use kept::kept_tree;
pub use show::{PlacedGroups, show_groups};
