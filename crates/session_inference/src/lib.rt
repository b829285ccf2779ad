//! Inference in a session: what a type checker tells of a function's types, asked of one crate of a text.
//!
//! An [`InferenceSession`] owns a `Session` and an inference context over its search. Terms are numbers ([`TermId`]), which are checked at
//! each call. So no call depends on what the caller knows of an interner or of a table.
//!
//! Of `let v = s.into(); v.push(1u8)` a type checker does not know the type of `v`. It makes a variable for it, registers
//! `Str: Into<?v>` and `?v: Push<u8>`, selects, and resolves `?v` to `V<u8>`. Nothing that solves all that was asked is lost, and a goal
//! that is done has a proof at each solution that is left.
#![tactic(auto)]

mod assuming;
mod assumption;
mod calls;
mod error;
mod inferring;
mod left_inference;
mod making;
mod open_snapshot;
mod operation;
mod primitive;
mod shape;
mod term_id;
mod term_text;
mod terms;

pub use assumption::Assumption;
pub use error::InferenceError;
pub use fulfillment::{Obligation, ObligationId, Selected, Standing};
pub use inferring::InferenceSession;
pub use left_inference::LeftInference;
pub use open_snapshot::OpenSnapshot;
pub use operation::Operation;
pub use primitive::Primitive;
pub use shape::Shape;
pub use term_id::TermId;
