//! What a flat view shows of a table's rows, computed from scratch.
//!
//! `show_placed` answers the header and the rows of the view, each row at the place by which it is sorted. It stands
//! on `view_spec` for what a view is, on `view_columns` for the shown columns under each split path, on `table_core`
//! for the rows, on `expr_eval` and `row_filter` for the plan's expressions and filters, and on `place_order` for
//! places. Its callers may rely on this: for each plan that is flat (`IsFlatPlan`) what is answered is the view of the
//! definitions, in whatever order the table has its rows, and want of memory is the only refusal.
//!
//! The parts of which it is made are there for views that are kept by changes: the split paths of rows, a row's own
//! split path, a row with the cells of the expressions, and a row's place. What a call costs is no clause:
//! `show_placed` visits each row of the table once, and sorts the kept ones by a map and their split paths by a set.
#![tactic(auto)]

mod cells;
mod flat;
mod kept;
mod placed;
mod places;
mod splits;

pub use flat::{PlacedView, show_placed};
pub use kept::full_row;
pub use placed::PlacedRows;
pub use places::place_of_row;
pub use splits::{split_path, splits_of};
