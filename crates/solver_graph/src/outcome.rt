//! The result of evaluating a goal, and its errors.

ghost use Rattle.std.specs.Prelude.{◌≡◌};
ghost use Rattle.solver_graph.specs.declared.outcome.RootError.TheVariants as error;
ghost use Rattle.solver_graph.specs.Errors.{error_of_equation};
ghost use Rattle.type_terms.specs.declared.Fault.TheVariants.{Memory};

use goal_evaluator::HasChanged;
use infer_table::certainty::{Certainty, EqError};
use infer_table::goal::Goal;
use std::alloc::AllocError;
use type_terms::Fault;

/// The result of evaluating a goal (`rustc_next_trait_solver::solve::GoalEvaluation`).
#[derive(Drop)]
pub struct GoalEvaluation {
    /// The goal, with its variables resolved as they were at the start of the call.
    pub goal: Goal,
    /// How certain it is that the goal holds.
    pub certainty: Certainty,
    /// Whether the response gave values to types or constants of the goal.
    pub has_changed: HasChanged,
}

/// Why evaluating a goal failed.
#[derive(Clone, Copy, PartialEq, Eq, Debug, thiserror::Error)]
pub enum RootError {
    /// The goal has no solution.
    #[error("there is no solution")]
    NoSolution,
    /// A new response to some goal differs from the cached one.
    #[error("a cached result differs from a new one")]
    Conflict,
    /// Memory was refused, or a table is full.
    #[error("{0}")]
    Fault(Fault),
}

impl From<Fault> for RootError {
    ghost from_gives = { λ fault e. e ≡ error.Fault fault };

    fn from(fault: Fault) -> RootError {
        RootError::Fault(fault)
    }
}

impl From<AllocError> for RootError {
    ghost from_gives = { λ _ e. e ≡ error.Fault Memory };

    fn from(_error: AllocError) -> RootError {
        RootError::Fault(Fault::Memory)
    }
}

impl From<EqError> for RootError {
    ghost from_gives = { λ error e. e ≡ error_of_equation error };

    fn from(error: EqError) -> RootError {
        match error {
            EqError::NoSolution => RootError::NoSolution,
            EqError::Fault(fault) => RootError::Fault(fault),
        }
    }
}
