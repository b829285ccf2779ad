//! The candidates of a goal by built-in rules: those that depend on the self type alone, calls of `fn` pointers, `Unsize`, and the bounds
//! of a `dyn`. A candidate depends on the goal and the visible declarations, and not on other candidates.
#![tactic(auto)]

pub mod built_in;
pub mod built_in_rules;
pub mod calls;
pub mod dyn_type;
pub mod object;
pub mod outlives;
pub mod parts;
pub mod relate;
pub mod unsize;
pub mod unsize_struct;
pub mod unsize_to_dyn;
pub mod upcast;
pub mod variables;
