//! The paths between goals of a search, and what a result depends on.
//!
//! A path has a kind: inductive, coinductive, unknown or forced to be ambiguous. A result depends on the goals of the stack that were read
//! on its way (the heads), each with the kinds of the paths that lead to it. A part of the port of `rustc_type_ir::search_graph`.
#![tactic(auto)]

mod dependencies;
mod head_usages;
mod nested_goals;
mod path_kind;

pub use dependencies::{
    CycleHead, Dependencies, EvaluationResult, add_all_paths, forget_paths, merge_heads,
    nearest_head, places_of, rest_through, take_head,
};
pub use head_usages::{CandidateHeadUsages, HeadUsages};
pub use nested_goals::{NestedGoals, Span};
pub use path_kind::{PathKind, PathsToNested};
