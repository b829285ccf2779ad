//! The search graph: goals that evaluate nested goals, with cycles, reruns, a limit on the depth and a cache.
//!
//! A port of `rustc_type_ir::search_graph`. Paths and what a result depends on are in `search_paths`. From the lowest module up: the
//! delegate of a search, its budget, its stack, its provisional entries and its cache, the steps that evaluate no nested goal, and the
//! evaluation.
#![tactic(auto)]

mod budget;
mod cache;
mod candidates;
mod delegate;
mod evaluation;
mod fault;
mod global_cache;
mod graph;
mod moves;
mod newest;
mod provisional;
mod reads;
mod search;
mod stack;
mod steps;

pub use cache::{Asked, CacheEntry, CachedResults};
pub use candidates::Candidates;
pub use delegate::{Cx, Delegate, InputOf, Reply, Request, ResultOf};
pub use fault::GraphFault;
pub use global_cache::{GlobalCache, MAX_KEPT_RESULTS};
pub use graph::SearchGraph;
pub use newest::{Chain, Newest};
pub use provisional::{ProvisionalEntries, ProvisionalEntry};
pub use search::{Evaluation, Search, finish, is_last_run, nested_depth, run_limit};
pub use search_paths::{
    CandidateHeadUsages, CycleHead, Dependencies, EvaluationResult, HeadUsages, NestedGoals,
    PathKind, PathsToNested, Span, take_head,
};
pub use stack::{Cycle, NestedGoal, StackEntry};
