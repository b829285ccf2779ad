//! Why a search answers a goal as it does: the goal's candidates, one after the other as the solver considers them, and the goals that
//! these ask, each with the answer that the search gives it.
//!
//! A walk shows goals over the table of the one who asks, so parameters and unknowns keep their names. Nothing that it finds changes an
//! answer: it asks the search, and opens each candidate once more over that table. A goal that is met again is shown once. A walk that
//! took what it may opens no further goal, and shows what it has.
#![tactic(auto)]

mod asking;
mod candidates;
mod effort;
mod frames;
mod nodes;
mod opening;
mod settling;
mod walking;

pub use asking::TracedGoal;
pub use nodes::{Answer, CandidateNode, GoalWalk, Node, Standing};
pub use settling::settle;
pub use walking::walk_goal;
