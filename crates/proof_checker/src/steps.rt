//! Proofs as data.
use std::alloc::Global;
use term_folds::predicate::TraitRef;
use type_terms::ImplId;
use type_terms::kinds::GenericArgs;

/// An impl with an argument for each of its parameters (`ImplSourceUserDefinedData`). Arguments of lifetimes do not matter.
#[derive(Clone, Copy)]
pub struct ImplSource {
    pub impl_def_id: ImplId,
    pub args: GenericArgs,
}

/// A rule instance that concludes a trait reference (`CandidateSource`).
#[derive(Clone, Copy)]
pub enum Way {
    /// An impl with arguments.
    Impl(ImplSource),
    /// The where-clause at this position.
    Clause(usize),
    /// A supertrait of the where-clause at this position, through any number of levels.
    Supertrait(usize),
    /// A built-in rule: of `Sized`, `Copy`, `Clone`, `Tuple` or `FnPtr`, or an auto trait's own.
    BuiltIn,
    /// Nothing: the trait reference is assumed, and the proof is one under it as a further where-clause. It serves what no rule of
    /// this list concludes, for example another built-in rule.
    Assumed,
}

/// A trait reference, what concludes it, and the positions of the steps that are its premises, in the order of the rule.
///
/// The premises of an impl are its where-clauses. A built-in rule has its own. Other rule instances have none.
pub struct Step {
    pub reference: TraitRef,
    pub way: Way,
    pub premises: Vec<usize>,
}

// Written out, so that an owner drops it by one call at each exit.
impl Drop for Step {
    fn drop(self) {
        let Step {
            reference: _,
            way: _,
            premises: _,
        } = self;
    }
}
