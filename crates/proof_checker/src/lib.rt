//! Proofs as data, and a checker of them. What it accepts is a proof by the definitions, however it was found.
#![tactic(auto)]

pub mod checker;
mod lifetimes;
pub mod links;
pub mod rows;
pub mod rules;
pub mod steps;
pub mod supertraits;
