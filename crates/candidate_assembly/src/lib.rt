//! The solver: the candidates of a goal, computed from the declarations that a crate sees. They come from where-clauses, built-in rules,
//! impls, the bounds of a `dyn`, and what crates outside the view may say. The candidates considered so far determine the next one. After
//! the last one their responses are merged.
#![tactic(auto)]

pub mod assembly;
pub mod decided;
pub mod impls;
mod instances;
pub mod knowable;
pub mod laws;
pub mod merge;
pub mod param_env;
pub mod solver;
pub mod trait_goals;
pub mod unknowable;
pub mod visitors;
