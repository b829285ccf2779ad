//! Frames. A frame is the evaluation of one goal by a handler. It stops at each nested goal and continues with the goal's result.
//!
//! The crate states what frames mean to a search, and has the handlers that are lists of rules over terms and the store of goals
//! and responses. `goal_evaluator` evaluates the candidates of a frame.
#![tactic(auto)]

mod frame;
mod handler;
mod keep;
pub mod laws;
mod merge;
mod read;
mod rules;
mod searches;
pub mod store;

pub use frame::GoalFrame;
pub use handler::{GoalHandler, frames_keep_promises, handlers_are_programs};
pub use merge::merged;
pub use rules::{
    Listed, candidates_fit, canonical_goals_are_asked, listings_are_lawful,
    rule_handlers_are_lawful, rules_are_programs,
};
pub use searches::{
    Searching, frames_are_lawful, frames_end, frames_keep_order, graphs_prove,
    silent_answers_are_fair,
};
