//! Candidates by the built-in rules of `Unsize`: the rule of arrays, and the choice among all rules.
ghost use Rattle.type_terms.specs.Growth.{GrewOrFull};
ghost use Rattle.std.specs.Prelude.{◌≡◌, ◌==◌, ℕ, true, List, [], IfOk, IfErr, IfSome, option_map};
ghost use Rattle.std.specs.List.{slice_get};
ghost use Rattle.type_terms.specs.Promised.Trees.{Trees, ◌+++◌};
ghost use Rattle.type_terms.specs.Promised.Worlds.{World};
ghost use Rattle.type_terms.specs.Promised.Rules.{unsize};
ghost use Rattle.type_terms.specs.Promised.Handles.{Has, Entry, types, trees_at};
ghost use Rattle.type_terms.specs.declared.Fault.TheVariants.{Memory};
ghost use Rattle.term_folds.specs.Signatures.{StartsWithType};
ghost use Rattle.infer_table.specs.Goals.{GoalHeld};
ghost use Rattle.goal_evaluator.specs.Readings.{SpecHeld};
ghost use Rattle.declarations.specs.Items.{written};
ghost use Rattle.declarations.specs.Held.{AreHeld};
ghost use Rattle.declarations.specs.Applied.{HaveBounds};
ghost use Rattle.candidate_model.specs.Asking.{self_of, next_of, with_plain_head};
ghost use Rattle.candidate_model.specs.Candidates.{by_rule, misc, all_equal, unsize_array_of, unsize_known, by_unsize};
ghost use Rattle.built_in_candidates.specs.Goals.{asked_of, candidate_of};
ghost use Rattle.structural_traits.specs.Constituents.{StructIsApplied, HaveFields};
ghost use Rattle.built_in_candidates.specs.Constituents.{CanBeConsidered, candidates_of};
ghost use Rattle.built_in_candidates.specs.Objects.{ObjectIsApplied, bounds_of};
ghost use Rattle.built_in_candidates.specs.Unsizing.{array_element_of, slice_element_of, BeginsWith, TargetIsApplied, CanUnsize};

use crate::calls::second_argument;
use crate::dyn_type::dyn_bounds;
use crate::outlives::recording_outlives;
use crate::parts::{Coercion, by_rule, unsure};
use crate::unsize_struct::consider_builtin_struct_unsize_candidate;
use crate::unsize_to_dyn::consider_builtin_unsize_to_dyn_candidate;
use crate::upcast::consider_builtin_dyn_upcast_candidates;
use crate::variables::is_unknown;
use declarations::core_traits::UNSIZE;
use declarations::declarations::Declarations;
use goal_evaluator::{BuiltinImplSource, CandidateSource, CandidateSpec};
use infer_table::input::CanonicalInput;
use infer_table::terms::Equation;
use std::alloc::Global;
use type_terms::Fault;
use type_terms::interner::Interner;
use type_terms::kinds::{GenericArgKind, Ty, TyKind};

fn array_element(cx: &Interner, ty: Ty) -> Option<Ty>
    requires { Has cx.now.entries types ty.0 }
    ensures is { option_map (λ e. trees_at cx.now.entries e.0) result ≡ array_element_of (trees_at cx.now.entries ty.0) }
    ensures held { IfSome result (λ e. Has cx.now.entries types e.0) }
{
    cx.lawful();
    match cx.kind(ty) {
        TyKind::Array(element, _) => Some(element),
        TyKind::Bool
        | TyKind::Char
        | TyKind::Int(_)
        | TyKind::Uint(_)
        | TyKind::Str
        | TyKind::Never
        | TyKind::Adt(_, _)
        | TyKind::Ref(_, _, _)
        | TyKind::RawPtr(_, _)
        | TyKind::Slice(_)
        | TyKind::Tuple(_)
        | TyKind::FnPtr(_, _)
        | TyKind::Dynamic(_, _)
        | TyKind::Param(_)
        | TyKind::Placeholder(_)
        | TyKind::Bound(_, _)
        | TyKind::Infer(_) => None,
    }
}

fn slice_element(cx: &Interner, ty: Ty) -> Option<Ty>
    requires { Has cx.now.entries types ty.0 }
    ensures is { option_map (λ e. trees_at cx.now.entries e.0) result ≡ slice_element_of (trees_at cx.now.entries ty.0) }
    ensures held { IfSome result (λ e. Has cx.now.entries types e.0) }
{
    cx.lawful();
    match cx.kind(ty) {
        TyKind::Slice(element) => Some(element),
        TyKind::Bool
        | TyKind::Char
        | TyKind::Int(_)
        | TyKind::Uint(_)
        | TyKind::Str
        | TyKind::Never
        | TyKind::Adt(_, _)
        | TyKind::Ref(_, _, _)
        | TyKind::RawPtr(_, _)
        | TyKind::Array(_, _)
        | TyKind::Tuple(_)
        | TyKind::FnPtr(_, _)
        | TyKind::Dynamic(_, _)
        | TyKind::Param(_)
        | TyKind::Placeholder(_)
        | TyKind::Bound(_, _)
        | TyKind::Infer(_) => None,
    }
}

/// The candidate by which an array unsizes to a slice. It equates their element types.
fn unsize_array(
    alloc: Global,
    cx: &Interner,
    goal: &CanonicalInput,
    element: Ty,
    target: Ty,
) -> Result<CandidateSpec, Fault>
    requires goal { GoalHeld cx.now.entries goal.now.goal }
    requires element { Has cx.now.entries types element.0 }
    requires target { Has cx.now.entries types target.0 }
    ensures held { IfOk result (SpecHeld cx.now.entries) }
    ensures is { let equations = all_equal (trees_at cx.now.entries element.0) (trees_at cx.now.entries target.0) in
        IfOk result (λ s. (V : World)
        → candidate_of V goal.now.goal.predicate.trait_ref.def_id.index cx.now.entries s ≡ by_rule V (asked_of cx.now.entries goal.now) misc equations []) }
    ensures memory { IfErr result (λ fault. fault ≡ Memory) }
{
    cx.lawful();
    let equation = Equation {
        left: GenericArgKind::Ty(element),
        right: GenericArgKind::Ty(target),
    };
    let equations = vec![in alloc; equation]?;
    let source = CandidateSource::BuiltinImpl(BuiltinImplSource::Misc);
    by_rule(alloc, goal, source, equations, &[])
}

/// The candidate by which `[T; N]` unsizes to `[U]`. It equates `T` with `U` and has no premises. Returns `None` for other types. Fails
/// only with `Memory`. rustc: `consider_structural_builtin_unsize_candidates`.
pub fn consider_array_to_slice_candidate(
    alloc: Global,
    cx: &Interner,
    goal: &CanonicalInput,
    coercion: Coercion,
) -> Result<Option<CandidateSpec>, Fault>
    requires goal { GoalHeld cx.now.entries goal.now.goal }
    requires self_held { Has cx.now.entries types coercion.self_ty.0 }
    requires target { Has cx.now.entries types coercion.target.0 }
    ensures held { IfOk result (λ o. IfSome o (SpecHeld cx.now.entries)) }
    ensures is { let types = trees_at cx.now.entries coercion.self_ty.0 +++ trees_at cx.now.entries coercion.target.0 in
        IfOk result (λ o. (V : World)
        → candidates_of V goal.now.goal.predicate.trait_ref.def_id.index cx.now.entries o ≡ unsize_array_of V (asked_of cx.now.entries goal.now) types) }
    ensures memory { IfErr result (λ fault. fault ≡ Memory) }
{
    cx.lawful();
    match (
        array_element(cx, coercion.self_ty),
        slice_element(cx, coercion.target),
    ) {
        (Some(element), Some(target_element)) => {
            let candidate = unsize_array(alloc, cx, goal, element, target_element)?;
            Ok(Some(candidate))
        }
        (Some(_), None) => Ok(None),
        (None, Some(_)) => Ok(None),
        (None, None) => Ok(None),
    }
}

/// The candidate if the index is 0, and `None` for any other index.
fn at_place(candidate: Option<CandidateSpec>, place: usize) -> Option<CandidateSpec>
    ensures is { (V : World) (t : ℕ) (es : List Entry) → option_map (candidate_of V t es) result ≡ slice_get (candidates_of V t es candidate) place }
    ensures held { (es : List Entry) → IfSome candidate (SpecHeld es) → IfSome result (SpecHeld es) }
{
    if place == 0 { candidate } else { None }
}

/// The candidate with this index by which a type unsizes to a type that is no `dyn`.
fn unsize_to_no_dyn(
    alloc: Global,
    cx: &mut Interner,
    declarations: &Declarations,
    goal: &CanonicalInput,
    coercion: Coercion,
    place: usize,
) -> Result<Option<CandidateSpec>, Fault>
    requires goal { GoalHeld cx.old.entries goal.now.goal }
    requires declared { AreHeld cx.old.entries declarations.now }
    requires fields { HaveFields cx.old.entries declarations.now }
    requires self_held { Has cx.old.entries types coercion.self_ty.0 }
    requires target { Has cx.old.entries types coercion.target.0 }
    requires applied { StructIsApplied declarations.now (trees_at cx.old.entries coercion.self_ty.0) }
    requires target_applied { StructIsApplied declarations.now (trees_at cx.old.entries coercion.target.0) }
    requires no_dyn { bounds_of (trees_at cx.old.entries coercion.target.0) ≡ None }
    ensures terms { GrewOrFull cx.old cx.new result }
    ensures held { IfOk result (λ o. IfSome o (SpecHeld cx.new.entries)) }
    ensures is { let V = written cx.old.entries declarations.now in let a = asked_of cx.old.entries goal.now in
        let types = with_plain_head (trees_at cx.old.entries coercion.self_ty.0) +++ trees_at cx.old.entries coercion.target.0 in
        IfOk result (λ o. option_map (candidate_of V a.reference.trait cx.new.entries) o ≡ slice_get (unsize_known V a types) place) }
{
    cx.lawful();
    let array = consider_array_to_slice_candidate(alloc, cx, goal, coercion)?;
    match array {
        Some(candidate) => Ok(at_place(Some(candidate), place)),
        None => {
            let candidate = consider_builtin_struct_unsize_candidate(
                alloc,
                cx,
                declarations,
                goal,
                coercion,
            )?;
            Ok(at_place(candidate, place))
        }
    }
}

/// The candidate with this index by which a type unsizes to another. Neither is an inference variable.
fn unsize_to(
    alloc: Global,
    cx: &mut Interner,
    declarations: &Declarations,
    goal: &CanonicalInput,
    coercion: Coercion,
    place: usize,
) -> Result<Option<CandidateSpec>, Fault>
    requires goal { GoalHeld cx.old.entries goal.now.goal }
    requires declared { AreHeld cx.old.entries declarations.now }
    requires fields { HaveFields cx.old.entries declarations.now }
    requires traits { HaveBounds cx.old.entries declarations.now }
    requires self_held { Has cx.old.entries types coercion.self_ty.0 }
    requires target { Has cx.old.entries types coercion.target.0 }
    requires applied { StructIsApplied declarations.now (trees_at cx.old.entries coercion.self_ty.0) }
    requires object { ObjectIsApplied declarations.now (trees_at cx.old.entries coercion.self_ty.0) }
    requires target_applied { let es = cx.old.entries in
        TargetIsApplied declarations.now (with_plain_head (trees_at es coercion.self_ty.0) +++ trees_at es coercion.target.0) }
    ensures terms { GrewOrFull cx.old cx.new result }
    ensures held { IfOk result (λ o. IfSome o (SpecHeld cx.new.entries)) }
    ensures is { let V = written cx.old.entries declarations.now in let a = asked_of cx.old.entries goal.now in
        let types = with_plain_head (trees_at cx.old.entries coercion.self_ty.0) +++ trees_at cx.old.entries coercion.target.0 in
        IfOk result (λ o. option_map (candidate_of V a.reference.trait cx.new.entries) o ≡ slice_get (unsize_known V a types) place) }
{
    cx.lawful();
    match (
        dyn_bounds(cx, coercion.self_ty),
        dyn_bounds(cx, coercion.target),
    ) {
        (Some(_), Some(_)) => {
            consider_builtin_dyn_upcast_candidates(alloc, cx, declarations, goal, coercion, place)
        }
        (None, Some(_)) => {
            let candidate = consider_builtin_unsize_to_dyn_candidate(
                alloc,
                cx,
                declarations,
                goal,
                coercion,
            )?;
            Ok(at_place(candidate, place))
        }
        (Some(_), None) => { unsize_to_no_dyn(alloc, cx, declarations, goal, coercion, place) }
        (None, None) => { unsize_to_no_dyn(alloc, cx, declarations, goal, coercion, place) }
    }
}

/// The target of a goal of `Unsize`: the type after the self type.
fn unsizing_target(cx: &Interner, goal: &CanonicalInput) -> Ty
    requires goal { GoalHeld cx.now.entries goal.now.goal }
    requires first { StartsWithType (next_of (trees_at cx.now.entries goal.now.goal.predicate.trait_ref.args.0)) }
    ensures held { Has cx.now.entries types result.0 }
    ensures is { BeginsWith (next_of (trees_at cx.now.entries goal.now.goal.predicate.trait_ref.args.0)) (trees_at cx.now.entries result.0) }
{
    cx.lawful();
    match second_argument(cx, goal.goal.predicate.trait_ref.args) {
        Some(argument) => match argument {
            GenericArgKind::Ty(ty) => ty,
            GenericArgKind::Lifetime(_) => unreachable!(),
            GenericArgKind::Const(_) => unreachable!(),
        },
        None => unreachable!(),
    }
}

/// The candidate with this index by the built-in rules of `Unsize`, if there is one. rustc: `consider_builtin_unsize_candidates`.
///
/// - An array unsizes to a slice.
/// - A `dyn` unsizes to a `dyn`, and then `dyn A + 'a` to `dyn B + 'b` records `'a: 'b`.
/// - Any other type unsizes to a `dyn`, and then `T` to `dyn B + 'b` records `T: 'b`.
/// - A struct unsizes to itself with other arguments.
/// - If the target is an inference variable, the only candidate is ambiguous.
pub fn consider_builtin_unsize_candidate(
    alloc: Global,
    cx: &mut Interner,
    declarations: &Declarations,
    goal: &CanonicalInput,
    place: usize,
) -> Result<Option<CandidateSpec>, Fault>
    requires considered { CanBeConsidered cx.old.entries declarations.now goal.now }
    requires bounds { HaveBounds cx.old.entries declarations.now }
    requires object { ObjectIsApplied declarations.now (trees_at cx.old.entries goal.now.goal.predicate.trait_ref.args.0) }
    requires unsizing { (goal.now.goal.predicate.trait_ref.def_id.index == unsize) ≡ true
        → CanUnsize declarations.now (self_of (asked_of cx.old.entries goal.now)) }
    ensures terms { GrewOrFull cx.old cx.new result }
    ensures held { IfOk result (λ o. IfSome o (SpecHeld cx.new.entries)) }
    ensures is { let V = written cx.old.entries declarations.now in let a = asked_of cx.old.entries goal.now in
        IfOk result (λ o. option_map (candidate_of V a.reference.trait cx.new.entries) o ≡ slice_get (by_unsize V a) place) }
{
    cx.lawful();
    let def_id = goal.goal.predicate.trait_ref.def_id;
    if def_id.index != UNSIZE {
        return Ok(None);
    }
    let self_ty = goal.goal.predicate.self_ty(cx);
    let target = unsizing_target(cx, goal);
    if is_unknown(cx, &goal.variables, target) {
        return Ok(at_place(Some(unsure(alloc)), place));
    }
    let coercion = Coercion { self_ty, target };
    let candidate = unsize_to(alloc, cx, declarations, goal, coercion, place)?;
    recording_outlives(cx, self_ty, target, candidate)
}
