//! The types that a type consists of, as premises of built-in rules. The candidates of the solver and the checker of proofs read them.
//! rustc: `structural_traits`.
#![tactic(auto)]

pub mod asked;
pub mod constituents;
pub mod fields;
