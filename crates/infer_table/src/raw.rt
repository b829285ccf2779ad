//! The response that constrains nothing.
ghost use Rattle.type_terms.specs.Growth.{Grew};
ghost use Rattle.std.specs.Prelude.{◌≡◌, ℕ, ◌<◌, List, [], IfOk, OnErr, Err};
ghost use Rattle.type_terms.specs.Promised.Handles.{types, consts, held};
ghost use Rattle.type_terms.specs.Promised.Handles.{ArgHeld, ArgsHeld};
ghost use Rattle.type_terms.specs.Kinds.{args_trees};
ghost use Rattle.type_terms.specs.declared.TheConstants.{MAX_INDEX};
ghost use Rattle.infer_table.specs.Values.{value_of, values_of};
ghost use Rattle.infer_table.specs.Raw.{variable_value, variables_from, IsFull};
ghost use Rattle.infer_table.specs.Covers.{AreNumbered};
ghost use Rattle.infer_table.specs.AnswersApplied.{AgreesWithAllOf};
ghost use Rattle.type_terms.specs.Promised.Label.{canonical};
ghost use Rattle.type_terms.specs.Promised.Trees.{leaf};

use crate::canonical::CanonicalVarKind;
use crate::certainty::Certainty;
use crate::response::CanonicalResponse;
use std::alloc::Global;
use type_terms::interner::Interner;
use type_terms::kinds::{ConstKind, GenericArgKind, TyKind};
use type_terms::number::{BoundVar, BoundVarIndexKind};
use type_terms::region::{Region, RegionKind};
use type_terms::{Fault, MAX_INDEX};

/// The canonical variable with this number, as a value of its kind.
pub fn canonical_variable(
    cx: &mut Interner,
    kind: CanonicalVarKind,
    variable: BoundVar,
) -> Result<GenericArgKind, Fault>
    ensures is { IfOk result (λ a. value_of cx.new.entries a ≡ variable_value kind variable.index) }
    ensures held { IfOk result (λ a. ArgHeld cx.new.entries a) }
    ensures grew { Grew cx.old cx.new }
    ensures full { result ≡ Err Fault.Full → IsFull cx.new.entries cx.new.limit }
{
    let index = BoundVarIndexKind::Canonical;
    match kind {
        CanonicalVarKind::Ty | CanonicalVarKind::PlaceholderTy => {
            let ty = cx.mk_ty(TyKind::Bound(index, variable))?;
            Ok(GenericArgKind::Ty(ty))
        }
        CanonicalVarKind::Const | CanonicalVarKind::PlaceholderConst => {
            let ct = cx.mk_const(ConstKind::Bound(index, variable))?;
            Ok(GenericArgKind::Const(ct))
        }
        CanonicalVarKind::Region => Ok(GenericArgKind::Lifetime(Region {
            kind: RegionKind::ReBound(index, variable),
        })),
    }
}

/// The response in which each variable is its own value and no lifetime is constrained.
///
/// It is the response of a search that gave up, which is an overflow. `canonicalize_response` does not check for this, so
/// callers choose between the two. The call also fails with `Memory` if there are more variables than numbers. rustc's
/// `response_no_constraints_raw`.
pub fn response_no_constraints_raw(
    alloc: Global,
    cx: &mut Interner,
    variables: Vec<CanonicalVarKind>,
    certainty: Certainty,
) -> Result<CanonicalResponse, Fault>
    ensures grew { Grew cx.old cx.new }
    ensures variables { IfOk result (λ r. r.variables ≡ variables) }
    ensures certainty { IfOk result (λ r. r.certainty ≡ certainty) }
    ensures constraints { IfOk result (λ r. r.region_constraints.items ≡ []) }
    ensures held { IfOk result (λ r. ArgsHeld cx.new.entries r.var_values.items) }
    ensures values { IfOk result (λ r. values_of cx.new.entries r.var_values.items ≡ variables_from 0 variables.items) }

    // The variables of the response are of its kinds, and it agrees with all values of these kinds.
    ensures numbered { IfOk result (λ r. AreNumbered r.variables.items (args_trees cx.new.entries r.var_values.items)) }
    ensures agrees { IfOk result (λ r. AgreesWithAllOf variables.items (args_trees cx.new.entries r.var_values.items)) }
    ensures full { result ≡ Err Fault.Full → IsFull cx.new.entries cx.new.limit }
{
    let mut var_values = Vec::new(alloc);
    for (place, kind) in variables.iter().enumerate() {
        if place >= MAX_INDEX as usize {
            return Err(Fault::Memory);
        }
        let variable = BoundVar {
            index: place as u32,
        };
        let value = canonical_variable(cx, *kind, variable)?;
        var_values.push(value)?;
    }
    Ok(CanonicalResponse {
        variables,
        certainty,
        var_values,
        region_constraints: Vec::new(alloc),
    })
}
