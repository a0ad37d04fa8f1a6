//! A walk over the groups of a view, from the total downwards into open groups.
//!
//! `walk` makes the rows of the groups that it meets: the total, and from each group that it met and that is open those
//! right below it, all of them where the group stands at another place than before or stood nowhere, and else those
//! with which a told path begins. With no told path and no row from before these are all the groups that a view shows.
//! It stands on `pivot_tree` for groups and their aggregates, on `view_spec` for what is shown of a group and where, on
//! `view_columns` for the columns under each split path, on `view_shape` for openings, on `live_list` for the places of
//! groups as they were, and on `place_order` for places. Its callers may rely on this: what is met is told from the
//! rows that the tree stands for (`AreMet`), and the counter of visits rises by no more than the number of groups that
//! the walk may visit (`AreVisits`), also where it ends for want of memory, which is the only refusal.
//!
//! What else a call costs is no clause. A walk goes level by level, and a visit is a look-up of the group's node and the
//! making of its row. `ToldPaths` looks each beginning of a told path up once while it is made, and then finds the
//! values with which told paths go on in one look-up.
#![tactic(auto)]

mod groups;
mod level;
mod ranks;
mod told;
mod walking;

pub use groups::{group_row, place_below};
pub use told::ToldPaths;
pub use walking::walk;
