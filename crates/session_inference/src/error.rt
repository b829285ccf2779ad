//! Why calls of an inference session fail.

ghost use Rattle.std.specs.Prelude.{◌≡◌};
ghost use Rattle.type_terms.specs.declared.Fault.TheVariants.{Memory};
ghost use Rattle.session_inference.specs.declared.error.InferenceError.TheVariants as error;

use std::alloc::{AllocError, AllocFailed};
use type_terms::Fault;

/// Why a call failed.
#[derive(Clone, Copy, Debug, PartialEq, Eq, thiserror::Error)]
pub enum InferenceError {
    /// There is no term of this number: it was never given, or a rollback took it.
    #[error("there is no term of this number")]
    NoSuchTerm,
    /// The shape takes other parts: more, fewer, or of other kinds.
    #[error("a type of this shape has other parts")]
    WrongParts,
    /// No solution of all that was asked makes the terms equal.
    #[error("there is no solution")]
    NoSolution,
    /// Memory was refused, or a table of the session is full.
    #[error("{0}")]
    Fault(Fault),
}

impl From<Fault> for InferenceError {
    ghost from_gives = { λ fault e. e ≡ error.Fault fault };

    fn from(fault: Fault) -> InferenceError {
        InferenceError::Fault(fault)
    }
}

impl From<AllocError> for InferenceError {
    ghost from_gives = { λ _ e. e ≡ error.Fault Memory };

    fn from(_error: AllocError) -> InferenceError {
        InferenceError::Fault(Fault::Memory)
    }
}

impl<T: Drop> From<AllocFailed<T>> for InferenceError {
    ghost from_gives = { λ _ e. e ≡ error.Fault Memory };

    fn from(_error: AllocFailed<T>) -> InferenceError {
        InferenceError::Fault(Fault::Memory)
    }
}
