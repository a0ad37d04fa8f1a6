//! The groups of a view's kept rows, with the aggregates of their members, while rows come and go.
//!
//! A `PivotTree` has the total, and a node at each path that some kept row's group cells begin with. A node has the
//! aggregates of the columns that the plan shows or sorts by, over all members of its path and for each split path, and
//! it knows with which values the paths of its members go on. The crate stands on `agg_core` for aggregates, on
//! `view_spec` for what members and split paths are, and on `view_columns` for which aggregate a column has.
//!
//! Its callers may rely on this: a tree that stands for some kept rows (`IsTreeOf` of `specs/Trees.antt`) stands, after
//! `add_row` and `take_row`, for these with the row or without it. `node` answers a node exactly at the paths that a view
//! of these rows has, `Node::value` is `rows_value` of the members there, `children` are the values that lead on to
//! paths, ascending, and `splits` are the split paths of the rows, ascending. With g group columns, `add_row` and
//! `take_row` count g + 1 visits and `node` counts 1. After want of memory a tree is given up.
#![tactic(auto)]

mod build;
mod column;
mod count;
mod group;
mod laws;
mod level;
mod node;
mod path;
mod split;
mod tree;
mod used;

pub use build::tree_of;
pub use laws::keys_tell_rows;
pub use node::Node;
pub use tree::PivotTree;
