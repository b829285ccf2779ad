//! Why an evaluation failed.
ghost use Rattle.std.specs.Prelude.{◌≡◌};
ghost use Rattle.goal_evaluator.specs.declared.error.EvalError.TheVariants as error;
ghost use Rattle.goal_evaluator.specs.Errors.{eval_error};
ghost use Rattle.type_terms.specs.declared.Fault.TheVariants.{Memory};

use infer_table::certainty::EqError;
use std::alloc::{AllocError, AllocFailed};
use type_terms::Fault;

/// Why an evaluation failed.
#[derive(Clone, Copy, Debug, PartialEq, Eq, thiserror::Error)]
pub enum EvalError {
    /// The goal or candidate does not hold.
    #[error("there is no solution")]
    NoSolution,
    /// A shortage: there is no result.
    #[error("{0}")]
    Fault(Fault),
}

impl From<Fault> for EvalError {
    ghost from_gives = { λ fault e. e ≡ error.Fault fault };

    fn from(fault: Fault) -> EvalError {
        EvalError::Fault(fault)
    }
}

impl From<EqError> for EvalError {
    ghost from_gives = { λ error e. e ≡ eval_error error };

    fn from(error: EqError) -> EvalError {
        match error {
            EqError::NoSolution => EvalError::NoSolution,
            EqError::Fault(fault) => EvalError::Fault(fault),
        }
    }
}

impl From<AllocError> for EvalError {
    ghost from_gives = { λ _ e. e ≡ error.Fault Memory };

    fn from(_error: AllocError) -> EvalError {
        EvalError::Fault(Fault::Memory)
    }
}

impl<T: Drop> From<AllocFailed<T>> for EvalError {
    ghost from_gives = { λ _ e. e ≡ error.Fault Memory };

    fn from(_error: AllocFailed<T>) -> EvalError {
        EvalError::Fault(Fault::Memory)
    }
}
