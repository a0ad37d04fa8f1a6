//! Laws of a step of a view with groups that is kept by the changes of a table: what the step has to set right, why that
//! is enough, and how many groups it visits at most.
//!
//! A step learns the group cells of the rows that came or went, the told paths, and walks over the groups that they
//! reach. The keys that it sets right are those of the groups with which a told path begins and those of the groups that
//! the walk met (`specs/Affected.antt`). `specs/Stepping.antt` says what the walk knows: the place of each group before
//! the step, or nothing, so that it meets every shown group. It knows nothing where split paths came or went and a count
//! is shown, since every group's cells are then other ones.
//!
//! It stands on `group_walk` for what a walk meets and visits, on `live_tree` for the paths that changes tell, on
//! `view_kept` for what a step is, and on `view_spec` for views and for what touches them. Its callers may rely on the
//! laws of `walked_steps_are_right`. No body stands on them yet.
#![tactic(auto)]

mod laws;

pub use laws::walked_steps_are_right;
