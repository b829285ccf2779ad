//! An inference context at run time: what a type checker tells of a function's types, kept in one table of variables.
//!
//! Of `let v = s.into(); v.push(1u8)` a type checker does not know the type of `v`. So it makes a variable for it, makes terms equal, and
//! registers the goals `Str: Into<?v>` and `?v: Push<u8>` with an [`Infer`]. The context selects the goals, and [`Infer::resolve`] shows what
//! they fix. No solution of all that it was asked is lost, and a goal that is done has a proof at each solution that is left.
#![tactic(auto)]

mod context;
mod laws;

pub use context::{Infer, Snapshot};
pub use laws::{adopting_laws, growing_laws, resting_laws, restoring_laws};
