//! What an inference session assumes.

use crate::term_id::TermId;
use type_terms::TraitId;

/// That terms implement a trait, the self type first: a bound of the function whose types are inferred.
///
/// rustc: a clause of a `ParamEnv`.
#[derive(Drop)]
pub struct Assumption {
    pub trait_id: TraitId,
    pub args: Vec<TermId>,
}
