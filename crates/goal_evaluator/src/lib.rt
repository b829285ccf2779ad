//! Goals, frames, and the evaluation of candidates step by step: a candidate's equations, region constraints and nested goals,
//! and what is known so far.
//!
//! The crate also defines the tables of frames over terms, and states how the evaluation in code corresponds to them (`laws`).
#![tactic(auto)]

pub mod apply;
mod candidate;
pub mod context;
mod error;
mod goal;
mod laws;
mod merge;
pub mod promises;
mod response;
mod resuming;
mod rounds;
mod trial;

pub use candidate::{
    BuiltinImplSource, CandidateSource, CandidateSpec, Considered, HandlerStep, ParamEnvSource,
};
pub use context::{EvalCtxt, EvalStep};
pub use error::EvalError;
pub use goal::{GoalSource, HasChanged};
pub use infer_table::certainty::{Certainty, MaybeCause, NoSolution, TypingMode};
pub use infer_table::goal::Goal;
pub use infer_table::input::CanonicalInput;
pub use infer_table::response::CanonicalResponse;
pub use laws::{
    answers_are_well_formed, candidates_are_one, equation_laws, question_laws, rounds_are_one,
    tables_are_lawful,
};
pub use merge::{
    MergeCandidateInfo, ambiguous_certainty, bail_with_ambiguity, flounder, try_merge_candidates,
};
pub use response::{
    copy_response, has_no_inference_or_external_constraints, is_identity_modulo_regions,
    is_same_response,
};
pub use resuming::{BoxedCandidate, CandidateStep, OpenCandidate, resuming_replays};
pub use rounds::have_same_sorts;
pub use trial::{begin_candidate, evaluate_candidate};

/// The greatest number of rounds in which a candidate's nested goals are evaluated (rustc has the same constant).
pub const FIXPOINT_STEP_LIMIT: usize = 8;
