//! Shown values: what a view shows in a cell of a row or of a group, fractions among them.
//!
//! A `Value` is a value that isn't null. All values have one total order: by kind, then by value. A
//! `Fraction` is always in its lowest terms, so that two fractions are the same number only where
//! they are the same value. No product of two fractions' parts is ever formed, so nothing can wrap.
//!
//! It stands on `plain_data`, whose `Text` it shows, and on `cal_units`, whose `Day` and `Moment` it
//! shows. Its callers may rely on this: `Value::order`, `Value`'s `Ord` and the definition
//! `value_order` are one order, in which two values are equal only where they are one, and likewise for
//! fractions (`values_are_ordered`, `fractions_are_ordered`). The lemmas behind those laws stand in
//! `specs/ValueLaws.antt` and `specs/FractionLaws.antt`.
#![tactic(auto)]

mod fraction;
mod laws;
mod value;

pub use fraction::Fraction;
pub use laws::{fractions_are_ordered, lowest_form_is_unique, values_are_ordered};
pub use value::Value;
