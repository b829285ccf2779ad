//! Certainties of results, errors, and modes of goals.
ghost use Rattle.std.specs.Prelude.{◌≡◌};
ghost use Rattle.infer_table.specs.declared.certainty.EqError.TheVariants as error;
ghost use Rattle.type_terms.specs.declared.Fault.TheVariants.{Memory};

use std::alloc::{AllocError, AllocFailed};
use type_terms::Fault;

/// A goal or an equation has no solution. rustc's `NoSolution`.
#[derive(Clone, Copy, PartialEq, Eq, Debug, thiserror::Error)]
#[error("there is no solution")]
pub struct NoSolution;

/// Why an equation failed.
#[derive(Clone, Copy, Debug, PartialEq, Eq, thiserror::Error)]
pub enum EqError {
    /// No values of the variables make the two sides equal.
    #[error("there is no solution")]
    NoSolution,
    /// Memory was refused, or a table is full. Whether there is a solution is not known.
    #[error("{0}")]
    Fault(Fault),
}

impl From<Fault> for EqError {
    ghost from_gives = { λ fault e. e ≡ error.Fault fault };

    fn from(fault: Fault) -> EqError {
        EqError::Fault(fault)
    }
}

impl From<AllocError> for EqError {
    ghost from_gives = { λ _ e. e ≡ error.Fault Memory };

    fn from(_error: AllocError) -> EqError {
        EqError::Fault(Fault::Memory)
    }
}

impl<T: Drop> From<AllocFailed<T>> for EqError {
    ghost from_gives = { λ _ e. e ≡ error.Fault Memory };

    fn from(_error: AllocFailed<T>) -> EqError {
        EqError::Fault(Fault::Memory)
    }
}

/// How certain it is that a goal holds. rustc's `Certainty`.
#[derive(Clone, Copy, PartialEq, Eq, Hash)]
pub enum Certainty {
    /// The goal holds.
    Yes,
    /// The goal may hold.
    Maybe(MaybeCause),
}

/// Why the solver cannot decide a goal. rustc's `MaybeCause`.
#[derive(Clone, Copy, PartialEq, Eq, Hash)]
pub enum MaybeCause {
    /// Several candidates may apply, or an inference variable leaves the goal open.
    Ambiguity,
    /// The search reached a limit.
    Overflow,
}

impl MaybeCause {
    ghost use Rattle.infer_table.specs.Certainties.{joined_cause};

    /// The cause of two uncertain results together. It is an overflow if one of them is.
    pub fn or(self, other: MaybeCause) -> MaybeCause
        ensures { result ≡ joined_cause self other }
    {
        match self {
            MaybeCause::Ambiguity => other,
            MaybeCause::Overflow => MaybeCause::Overflow,
        }
    }
}

impl Certainty {
    ghost use Rattle.infer_table.specs.Certainties.{joined};

    /// The certainty of two results together. It is yes if both are.
    pub fn and(self, other: Certainty) -> Certainty
        ensures { result ≡ joined self other }
    {
        match (self, other) {
            (Certainty::Yes, _) => other,
            (Certainty::Maybe(cause), Certainty::Yes) => Certainty::Maybe(cause),
            (Certainty::Maybe(cause), Certainty::Maybe(other_cause)) => {
                Certainty::Maybe(cause.or(other_cause))
            }
        }
    }
}

/// For which crates a goal is evaluated. rustc's `TypingMode`.
#[derive(Clone, Copy, PartialEq, Eq, Hash)]
pub enum TypingMode {
    /// For overlap checks. A result must hold in every set of crates that can be linked with this one, so also in crates that
    /// are not visible.
    Coherence,
    /// A result holds in the visible crates.
    PostAnalysis,
}
