//! What the hub asks of a view that is kept from step to step, however it is kept.
//!
//! A `KeptView` stands for sides (`view_spec`'s columns, plan, opening and rows) and shows what the definitions show
//! of them. It is brought from step to step by the changes of a table's rows, tells which keys that touched, and is
//! made over by another plan or opening. The crate stands on `view_spec` for what a view is and what touches it, on
//! `table_core` for the rows, on `delta_core` for touched keys and on `view_shape` for openings. Its callers may rely
//! on this: what is said of `KeptView` holds of each body, so that one proof over it is a proof over all of them. Each
//! body says how many visits a step may count; what else a call costs is no clause.
//!
//! `specs/Steps.antt` says what a step is, and `tables_make_steps` that a table's batches are steps; `proofs/` has
//! what bodies share.
#![tactic(auto)]

mod kept;
mod laws;

pub use kept::KeptView;
pub use laws::tables_make_steps;
