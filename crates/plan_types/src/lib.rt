//! A view's plan as data: columns by number, filters, sorts, expressions, and the names of aggregates.
//!
//! It stands on `cell_core` and `tree_items`. It reads and computes nothing: the crates above say what a tree
//! is read from and what an aggregate is. Columns are numbered: first the schema's, and then the
//! plan's expressions. Contracts see each type as it is written here, a list in it as its items and a box as
//! its value. Its callers may rely on this: `copy` answers an equal value, and refuses for want of memory alone.
#![tactic(auto)]

mod aggregate;
mod plan;
mod tree;

pub use aggregate::AggName;
pub use plan::{
    Expression, Expressions, Filter, FilterList, FilterTest, Filters, Named, NamedList, Numbered,
    Plan, Sort, Sorts,
};
pub use tree::{BinaryOp, Tree, TreeNode, Trees, UnaryOp};
