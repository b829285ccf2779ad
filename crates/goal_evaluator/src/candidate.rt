//! Candidates: their sources, and their requirements.

use crate::goal::GoalSource;
use infer_table::canonical::CanonicalVarKind;
use infer_table::certainty::Certainty;
use infer_table::goal::Goal;
use infer_table::response::CanonicalResponse;
use infer_table::terms::{Equation, RegionConstraint};
use type_terms::ImplId;

/// The kind of a built-in rule (`rustc_type_ir::solve::BuiltinImplSource`).
#[derive(Clone, Copy, PartialEq, Eq)]
pub enum BuiltinImplSource {
    /// A rule that wins over every other candidate, such as `u8: Sized`.
    Trivial,
    /// Any other rule, except a bound of a `dyn` type.
    Misc,
    /// A bound of the `dyn` type that is the self type, by its index among the bounds.
    Object(usize),
    /// An upcast to a supertrait of the `dyn` type, by its index among the supertraits.
    TraitUpcasting(usize),
}

/// Whether a where-clause is independent of the item that it is written at (`rustc_type_ir::solve::ParamEnvSource`).
#[derive(Clone, Copy, PartialEq, Eq)]
pub enum ParamEnvSource {
    /// It contains no parameter, inference variable, bound variable, or lifetime except `'static`.
    Global,
    NonGlobal,
}

/// Where a candidate comes from (`rustc_type_ir::solve::CandidateSource`).
#[derive(Clone, Copy, PartialEq, Eq)]
pub enum CandidateSource {
    Impl(ImplId),
    BuiltinImpl(BuiltinImplSource),
    ParamEnv(ParamEnvSource),
    /// In coherence: the trait reference is not knowable. Another crate may have an impl for it.
    CoherenceUnknowable,
}

/// A candidate as data: one way to prove a goal, and what the evaluator does for it. rustc has closures here.
///
/// Its terms contain the variables of the canonical goal and inference variables of its own, numbered together. If the goal has n
/// variables, `^0` to `^(n-1)` are the goal's, and `^(n+i)` is the new inference variable of the kind `variables[i]`. The
/// evaluator makes these variables first. Then it makes the equations hold, records the constraints and evaluates the nested
/// goals in order.
pub struct CandidateSpec {
    pub source: CandidateSource,
    pub variables: Vec<CanonicalVarKind>,
    pub equations: Vec<Equation>,
    pub region_constraints: Vec<RegionConstraint>,
    pub nested_goals: Vec<(GoalSource, Goal)>,
    /// The candidate's response is at most this certain.
    pub certainty: Certainty,
}

// Hand-written so that the prover sees one drop call: docs/PROVING.md#drop.
impl Drop for CandidateSpec {
    fn drop(self) {
        let CandidateSpec {
            source: _,
            variables: _,
            equations: _,
            region_constraints: _,
            nested_goals: _,
            certainty: _,
        } = self;
    }
}

/// A candidate that was considered (`rustc_next_trait_solver::solve::assembly::Candidate`).
pub struct Considered {
    pub source: CandidateSource,
    /// `None` if the candidate has no solution.
    pub result: Option<CanonicalResponse>,
    /// The number by which the search graph finds how often the candidate's nested goals used results of goals on the stack.
    pub head_usages: usize,
}

// Hand-written so that the prover sees one drop call: docs/PROVING.md#drop.
impl Drop for Considered {
    fn drop(self) {
        let Considered {
            source: _,
            result: _,
            head_usages: _,
        } = self;
    }
}

/// What a handler requests next.
#[derive(Drop)]
pub enum HandlerStep {
    /// Evaluate this candidate. Then the handler is called again with its result.
    Consider(CandidateSpec),
    /// Return this response, and ignore the candidates with these numbers.
    Answer(CanonicalResponse, Vec<usize>),
    /// Return that the goal has no solution.
    NoSolution,
}
