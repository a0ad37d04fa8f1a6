//! The kept rows of a view with groups by their keys, and the aggregate tree of their groups, kept by the changes of a
//! table.
//!
//! A `LiveTree` has the rows that its plan keeps, each with the cells of the plan's expressions, and a `PivotTree` of
//! them. `build` makes it of all rows of a table. `settle_all` acts on the changes one by one: the row under a change's
//! key is taken off, and the change's new row is put in, where the plan keeps it. It tells the group cells of each row
//! that it takes off or puts in. The crate stands on `pivot_tree` for groups and their aggregates, on `group_show` for
//! which plans have groups, on `table_core` and `row_batch` for rows and changes, on `flat_show` and `row_filter` for
//! which rows are kept, on `view_columns` for copies of columns, and on `view_kept` and `view_spec` for what a step of a
//! table is, what a view keeps and which groups a change passes by.
//!
//! Its callers may rely on this: the tree stands for the rows at any time. Where the changes lead from the rows of which
//! the kept ones were computed to those of the table, in some order, the rows are then the table's kept ones, and a group
//! with whose path none of the told paths begins is one in which no changed row counts. Each change counts at most two
//! visits for each group column and two for the total, and none of the table.
//!
//! Want of memory is the only refusal. As that counts too what no table's changes have: a row that isn't one of the
//! columns, more than 65,536 rows, and a table of other columns. After it a live tree is given up.
#![tactic(auto)]

mod building;
mod fitting;
mod live;
mod paths;
mod rows;
mod settling;

pub use building::build;
pub use live::LiveTree;
