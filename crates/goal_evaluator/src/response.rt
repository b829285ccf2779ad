//! What a response states.

ghost use Rattle.std.specs.Prelude.{◌≡◌, ◌↔◌, ◌+◌, ◌<◌, ◌^◌, length, IsTrue, IfOk};
ghost use Rattle.type_terms.specs.Promised.Label.{Sort};
ghost use Rattle.type_terms.specs.Promised.Handles.{ArgHeld, ArgsHeld, bound_label};
ghost use Rattle.infer_table.specs.Leaves.{leaf_label};
ghost use Rattle.infer_table.specs.Values.{values_of};
ghost use Rattle.goal_evaluator.specs.Responses.{is_this_variable, are_variables, is_identity_modulo_regions, says_nothing, ValuesHeld, content};

use infer_table::response::CanonicalResponse;
use std::alloc::{AllocError, Global};
use type_terms::interner::Interner;
use type_terms::kinds::{ConstKind, GenericArgKind, TyKind};
use type_terms::number::{BoundVar, BoundVarIndexKind};
use type_terms::region::RegionKind;

fn is_canonical(index: BoundVarIndexKind, variable: BoundVar, number: usize) -> bool
    ensures { (s : Sort) → result ≡ is_this_variable number (bound_label s index variable) }
{
    match index {
        BoundVarIndexKind::Canonical => number == variable.index as usize,
        BoundVarIndexKind::Bound(_) => false,
    }
}

fn is_canonical_variable(cx: &Interner, value: GenericArgKind, number: usize) -> bool
    requires { ArgHeld cx.now.entries value }
    ensures { result ≡ is_this_variable number (leaf_label cx.now.entries value) }
{
    match value {
        GenericArgKind::Lifetime(region) => match region.kind {
            RegionKind::ReBound(index, variable) => is_canonical(index, variable, number),
            _ => false,
        },
        GenericArgKind::Ty(ty) => match cx.kind(ty) {
            TyKind::Bound(index, variable) => is_canonical(index, variable, number),
            _ => false,
        },
        GenericArgKind::Const(ct) => match cx.const_kind(ct) {
            ConstKind::Bound(index, variable) => is_canonical(index, variable, number),
            _ => false,
        },
    }
}

/// Whether each value i is the canonical variable i.
fn is_identity(cx: &Interner, var_values: &[GenericArgKind]) -> bool
    requires { ArgsHeld cx.now.entries var_values.now }
    ensures { result ≡ are_variables cx.now.entries 0 var_values.now }
{
    'values: for (place, value) in var_values.iter().enumerate() {
        if !is_canonical_variable(cx, *value, place) {
            return false;
        }
    }
    true
}

/// Whether each type or constant among the values is the next canonical variable, starting with this number.
fn is_identity_from(cx: &Interner, var_values: &[GenericArgKind], next: usize) -> bool
    requires held { ArgsHeld cx.now.entries var_values.now }
    requires room { next + length var_values.now < 2 ^ 64 }
    ensures { result ≡ is_identity_modulo_regions next (values_of cx.now.entries var_values.now) }
{
    match var_values {
        [] => true,
        [value, rest @ ..] => {
            if is_canonical_variable(cx, *value, next) {
                is_identity_from(cx, rest, next + 1)
            } else {
                matches!(value, GenericArgKind::Lifetime(_)) && is_identity_from(cx, rest, next)
            }
        }
    }
}

/// Whether the values state nothing about types and constants: each type or constant is the next canonical variable in the order
/// of first occurrence. A lifetime may have any value. rustc: `CanonicalVarValues::is_identity_modulo_regions`.
pub fn is_identity_modulo_regions(cx: &Interner, var_values: &[GenericArgKind]) -> bool
    requires { ArgsHeld cx.now.entries var_values.now }
    ensures { result ≡ is_identity_modulo_regions 0 (values_of cx.now.entries var_values.now) }
{
    let _length = var_values.len();
    is_identity_from(cx, var_values, 0)
}

/// Whether the response states nothing about its goal's variables: each value i is the canonical variable i, and there are no
/// region constraints (`rustc_next_trait_solver::solve::has_no_inference_or_external_constraints`).
pub fn has_no_inference_or_external_constraints(cx: &Interner, response: &CanonicalResponse) -> bool
    requires { ValuesHeld cx.now.entries response.now }
    ensures { result ≡ says_nothing cx.now.entries response.now }
{
    is_identity(cx, &response.var_values) && response.region_constraints.is_empty()
}

/// Whether two responses are equal.
pub fn is_same_response(left: &CanonicalResponse, right: &CanonicalResponse) -> bool
    ensures equal { result ≡ ⟦<CanonicalResponse as PartialEq>⟧.eq left.now right.now }
    ensures same { IsTrue result ↔ (content left.now ≡ content right.now) }
{
    left == right
}

/// A copy of the response. The only error is `AllocError`.
pub fn copy_response(
    alloc: Global,
    response: &CanonicalResponse,
) -> Result<CanonicalResponse, AllocError>
    ensures { IfOk result (λ r. content r ≡ content response.now) }
{
    Ok(CanonicalResponse {
        variables: Vec::from_slice(alloc, &response.variables)?,
        certainty: response.certainty,
        var_values: Vec::from_slice(alloc, &response.var_values)?,
        region_constraints: Vec::from_slice(alloc, &response.region_constraints)?,
    })
}
