//! Responses to canonical goals.
use crate::canonical::CanonicalVarKind;
use crate::certainty::Certainty;
use crate::terms::RegionConstraint;
use std::alloc::AllocError;
use type_terms::kinds::GenericArgKind;

/// The response to a canonical goal, in canonical form.
///
/// rustc's `Canonical<Response>`, without `max_universe` and opaque types. Value i of `var_values` is the value of variable
/// i of the goal. Constraints are in the order of recording. Both are over the response's own `variables`.
#[derive(PartialEq, Eq, Hash)]
pub struct CanonicalResponse {
    pub variables: Vec<CanonicalVarKind>,
    pub certainty: Certainty,
    pub var_values: Vec<GenericArgKind>,
    pub region_constraints: Vec<RegionConstraint>,
}

// Written by hand, so that an owner drops it by one call instead of field by field.
impl Drop for CanonicalResponse {
    fn drop(self) {
        let CanonicalResponse {
            variables: _,
            certainty: _,
            var_values: _,
            region_constraints: _,
        } = self;
    }
}

impl Clone for CanonicalResponse {
    ghost use Rattle.infer_table.specs.Responses.{SayTheSame};

    ghost is_clone = { λ r s. SayTheSame s r };

    fn clone(&self) -> Result<CanonicalResponse, AllocError> {
        let alloc = *self.variables.allocator();
        let variables = Vec::from_slice(alloc, &self.variables)?;
        let var_values = Vec::from_slice(alloc, &self.var_values)?;
        let region_constraints = Vec::from_slice(alloc, &self.region_constraints)?;
        Ok(CanonicalResponse {
            variables,
            certainty: self.certainty,
            var_values,
            region_constraints,
        })
    }
}
