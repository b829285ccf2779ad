//! What is displayed of an answer.

use explain_traces::GoalWalk;
use sessions::proof_checker::steps::Step;
use sessions::term_folds::predicate::TraitRef;

/// A step of a proof as it is displayed.
#[derive(Drop)]
pub struct ShownStep {
    /// The index of its goal in the trace.
    pub place: usize,
    /// The numbers of the steps for the nested goals of its candidate, in their order. They are here also if the checker takes the step as
    /// assumed.
    ///
    /// One that is no earlier step is assumed: its goal is an open one above, and the trait of the step is coinductive.
    pub premises: Vec<usize>,
}

/// The trace of the bound of a query that explains the query's answer.
pub struct BoundWalk {
    /// The number of the bound in the query, from 0.
    pub number: usize,
    /// With what all bounds of the query fix of its variables. Of one bound alone it is as it is evaluated first.
    pub walk: GoalWalk,
    /// Whether they fix variables of this bound, so that the trace begins with another trait reference than that of the query.
    pub is_narrowed: bool,
    /// Whether its answers had values as often as is allowed, so that it was evaluated no more.
    pub is_exhausted: bool,
}

// Hand-written so that the prover sees one drop call: docs/PROVING.md#drop.
impl Drop for BoundWalk {
    fn drop(self) {
        let BoundWalk {
            number: _,
            walk: _,
            is_narrowed: _,
            is_exhausted: _,
        } = self;
    }
}

/// The trace of a goal that holds, and a proof of it.
pub struct ProofWalk {
    pub walk: GoalWalk,
    /// The steps of the proof. The last one concludes the trait reference of the goal at index 0. Empty if the trace has no proof.
    pub steps: Vec<Step>,
    /// How these are displayed, one for one.
    pub shown: Vec<ShownStep>,
    /// Whether the checker accepts the steps. What a step assumes (`Way::Assumed`), such as a built-in rule, is not checked.
    pub is_checked: bool,
}

// Hand-written so that the prover sees one drop call: docs/PROVING.md#drop.
impl Drop for ProofWalk {
    fn drop(self) {
        let ProofWalk {
            walk: _,
            steps: _,
            shown: _,
            is_checked: _,
        } = self;
    }
}

/// The candidates of a trace that are checked, each by the index of its goal and its number among the candidates there, from 0.
pub struct CheckedCandidates {
    /// Those that are rules for their goals.
    pub rules: Vec<(usize, usize)>,
    /// Those that may apply: their impls have rules for instances of their goals.
    pub chances: Vec<(usize, usize)>,
}

// Hand-written so that the prover sees one drop call: docs/PROVING.md#drop.
impl Drop for CheckedCandidates {
    fn drop(self) {
        let CheckedCandidates {
            rules: _,
            chances: _,
        } = self;
    }
}

/// Two impls whose headers have a common instance, and their where-clauses there, each evaluated alone in coherence.
pub struct PairWalk {
    /// The common instance of both headers. Its variables stand for any terms.
    pub common: TraitRef,
    /// Whether the checker finds that each of the impls concludes the common instance from its where-clauses.
    pub is_checked: bool,
    pub walk: GoalWalk,
    /// The indices of the where-clauses of the first impl, in their order.
    pub left: Vec<usize>,
    /// The indices of those of the second impl.
    pub right: Vec<usize>,
}

// Hand-written so that the prover sees one drop call: docs/PROVING.md#drop.
impl Drop for PairWalk {
    fn drop(self) {
        let PairWalk {
            common: _,
            is_checked: _,
            walk: _,
            left: _,
            right: _,
        } = self;
    }
}
