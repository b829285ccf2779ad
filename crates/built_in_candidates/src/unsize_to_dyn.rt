//! The candidate by which a type that is no `dyn` unsizes to a `dyn`.
ghost use Rattle.type_terms.specs.Growth.{GrewOrFull};
ghost use Rattle.std.specs.Prelude.{◌≡◌, [], ◌∷◌, ◌++◌, IfOk, IfErr, IfSome};
ghost use Rattle.type_terms.specs.Promised.Trees.{◌+++◌};
ghost use Rattle.type_terms.specs.Promised.Rules.{asked, sized, principal_with, autos_with, unsize_to_dyn_rules};
ghost use Rattle.type_terms.specs.Promised.Handles.{Has, types, bounds_lists, trees_at};
ghost use Rattle.type_terms.specs.declared.Fault.TheVariants.{Memory};
ghost use Rattle.infer_table.specs.Goals.{GoalHeld};
ghost use Rattle.goal_evaluator.specs.Merge.{if_there};
ghost use Rattle.goal_evaluator.specs.Readings.{SpecHeld};
ghost use Rattle.declarations.specs.Items.{written};
ghost use Rattle.declarations.specs.Held.{AreHeld};
ghost use Rattle.declarations.specs.Promised.Elaboration.{Each};
ghost use Rattle.declarations.specs.Applied.{references_in, TraitRefsHeld, HaveBounds};
ghost use Rattle.candidate_model.specs.Asking.{with_plain_head};
ghost use Rattle.candidate_model.specs.Candidates.{as_written, misc};
ghost use Rattle.built_in_candidates.specs.Goals.{asked_of};
ghost use Rattle.built_in_candidates.specs.Constituents.{candidates_of};
ghost use Rattle.built_in_candidates.specs.Objects.{AreArgumentsOf, WithLifetime};
ghost use Rattle.built_in_candidates.specs.Unsizing.{traits_asked, to_dyn, TargetIsApplied};

use crate::dyn_type::{dyn_bounds, elaborated_principal, is_dyn_compatible};
use crate::parts::{Coercion, by_rule};
use declarations::core_traits::SIZED;
use declarations::declarations::Declarations;
use goal_evaluator::{BuiltinImplSource, CandidateSource, CandidateSpec};
use infer_table::input::CanonicalInput;
use std::alloc::Global;
use structural_traits::asked::type_asked;
use term_folds::predicate::TraitRef;
use type_terms::interner::Interner;
use type_terms::kinds::{Bounds, Ty, TyKind};
use type_terms::{Fault, TraitId};

/// The type, but a `fn` pointer without the number of lifetimes that it binds.
fn with_plain_head(cx: &mut Interner, ty: Ty) -> Result<Ty, Fault>
    requires { Has cx.old.entries types ty.0 }
    ensures terms { GrewOrFull cx.old cx.new result }
    ensures held { IfOk result (λ r. Has cx.new.entries types r.0) }
    ensures is { IfOk result (λ r. trees_at cx.new.entries r.0 ≡ with_plain_head (trees_at cx.old.entries ty.0)) }
{
    match cx.kind(ty) {
        TyKind::FnPtr(_, inputs_and_output) => {
            let plain = cx.mk_ty(TyKind::FnPtr(0, inputs_and_output))?;
            Ok(plain)
        }
        TyKind::Bool
        | TyKind::Char
        | TyKind::Int(_)
        | TyKind::Uint(_)
        | TyKind::Str
        | TyKind::Never
        | TyKind::Adt(_, _)
        | TyKind::Ref(_, _, _)
        | TyKind::RawPtr(_, _)
        | TyKind::Array(_, _)
        | TyKind::Slice(_)
        | TyKind::Tuple(_)
        | TyKind::Dynamic(_, _)
        | TyKind::Param(_)
        | TyKind::Placeholder(_)
        | TyKind::Bound(_, _)
        | TyKind::Infer(_) => Ok(ty),
    }
}

/// The trait reference as a list, which is empty for `None`. Fails only with `Memory`.
fn if_there(alloc: Global, trait_ref: Option<TraitRef>) -> Result<Vec<TraitRef>, Fault>
    ensures is { IfOk result (λ v. v.items ≡ if_there trait_ref) }
    ensures memory { IfErr result (λ fault. fault ≡ Memory) }
{
    match trait_ref {
        Some(trait_ref) => Ok(vec![in alloc; trait_ref]?),
        None => Ok(Vec::new(alloc)),
    }
}

/// A trait reference, if there is one, followed by `ty: Trait` for each of the traits.
fn with_traits_asked(
    alloc: Global,
    cx: &mut Interner,
    first: Option<TraitRef>,
    def_ids: &[TraitId],
    ty: Ty,
) -> Result<Vec<TraitRef>, Fault>
    requires first { TraitRefsHeld cx.old.entries (if_there first) }
    requires ty { Has cx.old.entries types ty.0 }
    ensures terms { GrewOrFull cx.old cx.new result }
    ensures held { IfOk result (λ v. TraitRefsHeld cx.new.entries v.items) }
    ensures are { IfOk result (λ v. references_in cx.new.entries v.items
        ≡ references_in cx.old.entries (if_there first) ++ traits_asked def_ids.now (trees_at cx.old.entries ty.0)) }
{
    let mut found = if_there(alloc, first)?;
    let mut left = def_ids;
    'traits: while let Some((def_id, others)) = left.split_first() {
        let trait_ref = type_asked(alloc, cx, *def_id, ty)?;
        found.push(trait_ref)?;
        left = others;
    }
    Ok(found)
}

/// The premises for a type to unsize to a `dyn`: it has the principal, each auto trait of the bounds, and `Sized`.
fn unsizing_obligations(
    alloc: Global,
    cx: &mut Interner,
    self_ty: Ty,
    principal: Option<TraitRef>,
    bounds: Bounds,
) -> Result<Vec<TraitRef>, Fault>
    requires self_held { Has cx.old.entries types self_ty.0 }
    requires principal { TraitRefsHeld cx.old.entries (if_there principal) }
    requires bounds { Has cx.old.entries bounds_lists bounds.0 }
    ensures terms { GrewOrFull cx.old cx.new result }
    ensures held { IfOk result (λ v. TraitRefsHeld cx.new.entries v.items) }
    ensures are { let S = trees_at cx.old.entries self_ty.0 in
        IfOk result (λ v. WithLifetime cx.old.entries bounds (λ b. references_in cx.new.entries v.items
        ≡ references_in cx.old.entries (if_there principal) ++ (autos_with S b ++ asked sized S ∷ []))) }
{
    let autos = Vec::from_slice(alloc, &cx.bounds(bounds).autos)?;
    let mut premises = with_traits_asked(alloc, cx, principal, &autos, self_ty)?;
    let is_sized = type_asked(alloc, cx, TraitId { index: SIZED }, self_ty)?;
    premises.push(is_sized)?;
    Ok(premises)
}

/// The candidate by which a type unsizes to a `dyn` with these bounds. Returns `None` if the principal is not dyn compatible.
fn to_dyn_candidate(
    alloc: Global,
    cx: &mut Interner,
    declarations: &Declarations,
    goal: &CanonicalInput,
    self_ty: Ty,
    bounds: Bounds,
) -> Result<Option<CandidateSpec>, Fault>
    requires goal { GoalHeld cx.old.entries goal.now.goal }
    requires declared { AreHeld cx.old.entries declarations.now }
    requires traits { HaveBounds cx.old.entries declarations.now }
    requires self_held { Has cx.old.entries types self_ty.0 }
    requires bounds { Has cx.old.entries bounds_lists bounds.0 }
    requires applied { WithLifetime cx.old.entries bounds (λ b. Each (AreArgumentsOf declarations.now) (principal_with (trees_at cx.old.entries self_ty.0) b)) }
    ensures terms { GrewOrFull cx.old cx.new result }
    ensures held { IfOk result (λ o. IfSome o (SpecHeld cx.new.entries)) }
    ensures is { let V = written cx.old.entries declarations.now in
        IfOk result (λ o. WithLifetime cx.old.entries bounds (λ b. candidates_of V goal.now.goal.predicate.trait_ref.def_id.index cx.new.entries o
        ≡ to_dyn V (asked_of cx.old.entries goal.now) (trees_at cx.old.entries self_ty.0) b)) }
{
    let from = elaborated_principal(alloc, cx, declarations, self_ty, bounds)?;
    if is_dyn_compatible(declarations, from.principal, &from.elaborated) {
        let premises = unsizing_obligations(alloc, cx, self_ty, from.principal, bounds)?;
        let source = CandidateSource::BuiltinImpl(BuiltinImplSource::Misc);
        let candidate = by_rule(alloc, goal, source, Vec::new(alloc), &premises)?;
        Ok(Some(candidate))
    } else {
        Ok(None)
    }
}

/// The candidate by which a type that is no `dyn` unsizes to a `dyn`. Its premises are that the type has each of the bounds, and is
/// `Sized`. Those of `u8: Unsize<dyn Show + Send>` are `u8: Show`, `u8: Send` and `u8: Sized`. There is none if the principal is not dyn
/// compatible. rustc: `consider_builtin_unsize_candidates`.
pub fn consider_builtin_unsize_to_dyn_candidate(
    alloc: Global,
    cx: &mut Interner,
    declarations: &Declarations,
    goal: &CanonicalInput,
    coercion: Coercion,
) -> Result<Option<CandidateSpec>, Fault>
    requires goal { GoalHeld cx.old.entries goal.now.goal }
    requires declared { AreHeld cx.old.entries declarations.now }
    requires traits { HaveBounds cx.old.entries declarations.now }
    requires self_held { Has cx.old.entries types coercion.self_ty.0 }
    requires target { Has cx.old.entries types coercion.target.0 }
    requires applied { let es = cx.old.entries in
        TargetIsApplied declarations.now (with_plain_head (trees_at es coercion.self_ty.0) +++ trees_at es coercion.target.0) }
    ensures terms { GrewOrFull cx.old cx.new result }
    ensures held { IfOk result (λ o. IfSome o (SpecHeld cx.new.entries)) }
    ensures is { let V = written cx.old.entries declarations.now in
        let types = with_plain_head (trees_at cx.old.entries coercion.self_ty.0) +++ trees_at cx.old.entries coercion.target.0 in
        IfOk result (λ o. candidates_of V goal.now.goal.predicate.trait_ref.def_id.index cx.new.entries o
        ≡ as_written V (asked_of cx.old.entries goal.now) misc (unsize_to_dyn_rules V types)) }
{
    cx.lawful();
    match (
        dyn_bounds(cx, coercion.self_ty),
        dyn_bounds(cx, coercion.target),
    ) {
        (None, Some(bounds)) => {
            let plain = with_plain_head(cx, coercion.self_ty)?;
            to_dyn_candidate(alloc, cx, declarations, goal, plain, bounds)
        }
        (Some(_), None) => Ok(None),
        (Some(_), Some(_)) => Ok(None),
        (None, None) => Ok(None),
    }
}
