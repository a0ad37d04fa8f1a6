//! Expressions of a view, read from their text.
//!
//! It stands on `plain_data` and `plan_types`. The definitions say what `parse` answers, apart from how it reads:
//! `specs/Tokens.antt` cuts a text into tokens, `specs/Grammar.antt` relates tokens and trees, a constructor
//! for each production, and `specs/Faults.antt` says which place is the first fault: the first token at which
//! no reading goes on. Callers may rely on this: some tokens have exactly one tree or exactly one first fault,
//! and `parse` answers it, unless memory runs out.
//!
//! The text is read once from the left, by a machine with a stack of what stands open (`specs/Machine.antt`),
//! so that long chains of operators need no deep recursion.
#![tactic(auto)]

mod frame;
mod lexer;
mod parser;
mod reading;
mod refusal;
mod stack;
mod token;

pub use reading::{one_answer, parse};
pub use refusal::{ParseCause, ParseRefused};
