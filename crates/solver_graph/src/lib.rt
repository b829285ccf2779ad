//! The goals of a handler in a search graph, and the root of the solver: goals of an inference table, evaluated by a search.
//!
//! A search needs goals and responses that it can copy and compare. So a [`SolverCx`] stores each canonical goal and each
//! response once, under a number, together with their interner and the handler with the rules. [`SolverGraph`] is the search's
//! delegate for every lawful handler. Its frames are `GoalFrame`s, on the heap, and its meaning for the search is the handler's meaning for
//! goals, over terms. rustc has `SolverDelegate` and `SearchGraphDelegate` here.
//!
//! For example, `?3: Show` has the canonical form `^0: Show`, and the response `^0 = V<^0>` equates `?3` with `V<?9>`, where `?9`
//! is a new inference variable. What a search promises of canonical goals is promised here of goals, of their instances and of
//! the table's solutions.
#![tactic(auto)]

mod applying;
mod asking;
mod context;
mod frame;
mod graph;
mod handle;
mod laws;
mod outcome;
mod requests;
mod root;
mod searching;
mod settling;
mod silent;
mod size;

pub use asking::{Asked, ask};
pub use context::SolverCx;
pub use frame::SolverFrame;
pub use graph::SolverGraph;
pub use handle::Search;
pub use laws::{canonical_variable_laws, context_laws};
pub use outcome::{GoalEvaluation, RootError};
pub use root::evaluate_root_goal;
pub use settling::{MAX_ASKINGS, Outcome, ask_until_settled};
