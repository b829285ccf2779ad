//! The constraint on lifetimes that unsizing to a `dyn` records. Nothing checks it: outlives premises always hold.
ghost use Rattle.std.specs.Prelude.{◌≡◌, ℕ, List, Some, IfOk, IfErr, IfSome, option_map};
ghost use Rattle.type_terms.specs.Promised.Worlds.{World};
ghost use Rattle.type_terms.specs.Promised.Handles.{Has, Entry, types, trees_at};
ghost use Rattle.type_terms.specs.Promised.Handles.{region_trees, RegionHeld};
ghost use Rattle.type_terms.specs.declared.Fault.TheVariants.{Memory};
ghost use Rattle.infer_table.specs.Constraints.{constraints_trees};
ghost use Rattle.infer_table.specs.Content.{IsHeldConstraint};
ghost use Rattle.goal_evaluator.specs.Merge.{if_there};
ghost use Rattle.goal_evaluator.specs.Readings.{SpecHeld};
ghost use Rattle.candidate_model.specs.Candidates.{recording, lifetime_of, outlives};
ghost use Rattle.built_in_candidates.specs.Goals.{candidate_of};

use goal_evaluator::CandidateSpec;
use infer_table::terms::RegionConstraint;
use type_terms::Fault;
use type_terms::interner::Interner;
use type_terms::kinds::{Ty, TyKind};
use type_terms::region::Region;

/// The lifetime of a `dyn`, if the type is one.
fn dyn_lifetime(cx: &Interner, ty: Ty) -> Option<Region>
    requires { Has cx.now.entries types ty.0 }
    ensures is { option_map region_trees result ≡ lifetime_of (trees_at cx.now.entries ty.0) }
    ensures held { IfSome result (λ r. RegionHeld r.kind) }
{
    match cx.kind(ty) {
        TyKind::Dynamic(_, lifetime) => Some(lifetime),
        TyKind::Bool
        | TyKind::Char
        | TyKind::Int(_)
        | TyKind::Uint(_)
        | TyKind::Str
        | TyKind::Never
        | TyKind::Adt(_, _)
        | TyKind::Ref(_, _, _)
        | TyKind::RawPtr(_, _)
        | TyKind::Array(_, _)
        | TyKind::Slice(_)
        | TyKind::Tuple(_)
        | TyKind::FnPtr(_, _)
        | TyKind::Param(_)
        | TyKind::Placeholder(_)
        | TyKind::Bound(_, _)
        | TyKind::Infer(_) => None,
    }
}

/// The constraint that unsizing a type to another records. From `dyn A + 'a` to `dyn B + 'b` it is `'a: 'b`. From any other type `T` to
/// `dyn B + 'b` it is `T: 'b`. Returns `None` if the target is no `dyn`.
fn unsizing_outlives(cx: &Interner, self_ty: Ty, target: Ty) -> Option<RegionConstraint>
    requires self_held { Has cx.now.entries types self_ty.0 }
    requires target { Has cx.now.entries types target.0 }
    ensures is { let S = trees_at cx.now.entries self_ty.0 in
        constraints_trees cx.now.entries (if_there result) ≡ outlives S (lifetime_of S) (lifetime_of (trees_at cx.now.entries target.0)) }
    ensures held { IfSome result (IsHeldConstraint cx.now.entries) }
{
    match (dyn_lifetime(cx, self_ty), dyn_lifetime(cx, target)) {
        (Some(from), Some(to)) => Some(RegionConstraint::RegionOutlives(from, to)),
        (None, Some(to)) => Some(RegionConstraint::TypeOutlives(self_ty, to)),
        (Some(_), None) => None,
        (None, None) => None,
    }
}

/// The candidate with this constraint in addition. Fails only with `Memory`.
fn recording(
    mut candidate: CandidateSpec,
    constraint: RegionConstraint,
) -> Result<CandidateSpec, Fault>
    ensures is { IfOk result (λ s. (V : World) (t : ℕ) (es : List Entry)
        → candidate_of V t es s ≡ recording (constraints_trees es (if_there (Some constraint))) (candidate_of V t es candidate)) }
    ensures held { IfOk result (λ s. (es : List Entry) → SpecHeld es candidate → IsHeldConstraint es constraint → SpecHeld es s) }
    ensures memory { IfErr result (λ fault. fault ≡ Memory) }
{
    candidate.region_constraints.push(constraint)?;
    Ok(candidate)
}

/// The candidate by which a type unsizes to the target, if there is one, with the constraint that this records. Fails only with `Memory`.
pub fn recording_outlives(
    cx: &Interner,
    self_ty: Ty,
    target: Ty,
    candidate: Option<CandidateSpec>,
) -> Result<Option<CandidateSpec>, Fault>
    requires self_held { Has cx.now.entries types self_ty.0 }
    requires target { Has cx.now.entries types target.0 }
    requires candidate { IfSome candidate (SpecHeld cx.now.entries) }
    ensures is { let es = cx.now.entries in let S = trees_at es self_ty.0 in
        let says = outlives S (lifetime_of S) (lifetime_of (trees_at es target.0)) in
        IfOk result (λ o. (V : World) (t : ℕ) → option_map (candidate_of V t es) o ≡ option_map (recording says) (option_map (candidate_of V t es) candidate)) }
    ensures held { IfOk result (λ o. IfSome o (SpecHeld cx.now.entries)) }
    ensures memory { IfErr result (λ fault. fault ≡ Memory) }
{
    match (candidate, unsizing_outlives(cx, self_ty, target)) {
        (Some(candidate), Some(constraint)) => Ok(Some(recording(candidate, constraint)?)),
        (Some(candidate), None) => Ok(Some(candidate)),
        (None, Some(_)) => Ok(None),
        (None, None) => Ok(None),
    }
}
