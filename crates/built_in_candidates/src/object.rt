//! Candidates by the bounds of a `dyn`, if the self type is one.
ghost use Rattle.type_terms.specs.Growth.{GrewOrFull};
ghost use Rattle.std.specs.Prelude.{◌≡◌, ℕ, suc, length, filter, IfOk, IfSome, option_map, OnOk};
ghost use Rattle.std.specs.List.{slice_get};
ghost use Rattle.type_terms.specs.Promised.Rules.{principal_with, autos_with};
ghost use Rattle.type_terms.specs.Promised.Handles.{Has, types, bounds_lists, trees_at};
ghost use Rattle.term_folds.specs.Signatures.{StartsWithType};
ghost use Rattle.infer_table.specs.Goals.{GoalHeld};
ghost use Rattle.goal_evaluator.specs.Readings.{SpecHeld};
ghost use Rattle.goal_evaluator.specs.declared.candidate.CandidateSource.TheVariants.{BuiltinImpl};
ghost use Rattle.declarations.specs.Items.{reference_in, written};
ghost use Rattle.declarations.specs.Held.{AreHeld, ReferenceHeld};
ghost use Rattle.declarations.specs.Promised.Elaboration.{Each};
ghost use Rattle.declarations.specs.Applied.{references_in, TraitRefsHeld, IsApplied, HaveBounds};
ghost use Rattle.declarations.specs.Promised.Elaboration.{supertraits};
ghost use Rattle.candidate_model.specs.Candidates.{all_equal, can_be, by_rule, by_objects};
ghost use Rattle.built_in_candidates.specs.Goals.{asked_of, candidate_of};
ghost use Rattle.built_in_candidates.specs.Noted.{StayElaborated};
ghost use Rattle.built_in_candidates.specs.Objects.{ObjectIsApplied, AreArgumentsOf, IsByBound, IsOfBound, WithLifetime, bound_in, object_bounds, written_and_elaborated};

use crate::dyn_type::{
    bound_after, bound_from, count_autos, dyn_bounds, is_dyn_compatible, noted_principal,
};
use crate::parts::by_rule;
use crate::relate::{can_be, relate_args};
use declarations::core_traits::SIZED;
use declarations::declarations::Declarations;
use goal_evaluator::{BuiltinImplSource, CandidateSource, CandidateSpec};
use infer_table::input::CanonicalInput;
use std::alloc::Global;
use structural_traits::asked::type_asked;
use term_folds::predicate::TraitRef;
use type_terms::Fault;
use type_terms::interner::Interner;
use type_terms::kinds::{Bounds, Ty};

/// A `dyn` type with the bounds that it is written with, and the trait reference that is asked of it.
#[derive(Clone, Copy)]
struct AskedObject {
    asked: TraitRef,
    self_ty: Ty,
    bounds: Bounds,
}

/// How many of the auto traits that a `dyn` is written with can be what is asked. All of them are asked of the `dyn` alone.
fn count_written(alloc: Global, cx: &mut Interner, object: AskedObject) -> Result<usize, Fault>
    requires asked { ReferenceHeld cx.old.entries object.asked }
    requires self_held { Has cx.old.entries types object.self_ty.0 }
    requires bounds { Has cx.old.entries bounds_lists object.bounds.0 }
    ensures terms { GrewOrFull cx.old cx.new result }
    ensures is { let q = reference_in cx.old.entries object.asked in let S = trees_at cx.old.entries object.self_ty.0 in
        IfOk result (λ n. WithLifetime cx.old.entries object.bounds (λ b. n ≡ length (filter (can_be q) (autos_with S b)))) }
{
    let autos = count_autos(cx, object.bounds, object.asked.def_id);
    if autos == 0 {
        return Ok(0);
    }
    let bound = type_asked(alloc, cx, object.asked.def_id, object.self_ty)?;
    if can_be(cx, object.asked, bound) {
        Ok(autos)
    } else {
        Ok(0)
    }
}

/// The bound with this index among those that can be what is asked: the auto traits that the `dyn` is written with, then its principal with
/// the supertraits. No bound is of `Sized`.
fn bound_of_trait(
    alloc: Global,
    cx: &mut Interner,
    object: AskedObject,
    elaborated: &[TraitRef],
    place: usize,
) -> Result<Option<(BuiltinImplSource, TraitRef)>, Fault>
    requires asked { ReferenceHeld cx.old.entries object.asked }
    requires self_held { Has cx.old.entries types object.self_ty.0 }
    requires bounds { Has cx.old.entries bounds_lists object.bounds.0 }
    requires elaborated { TraitRefsHeld cx.old.entries elaborated.now }
    ensures terms { GrewOrFull cx.old cx.new result }
    ensures held { IfOk result (λ o. IfSome o (λ x. ReferenceHeld cx.new.entries x.1)) }
    ensures is { let q = reference_in cx.old.entries object.asked in let S = trees_at cx.old.entries object.self_ty.0 in
        IfOk result (λ o. WithLifetime cx.old.entries object.bounds (λ b. option_map (bound_in cx.new.entries) o
        ≡ slice_get (written_and_elaborated q S b (references_in cx.old.entries elaborated.now)) place)) }
{
    if object.asked.def_id.index == SIZED {
        return Ok(None);
    }
    let autos = count_written(alloc, cx, object)?;
    if place < autos {
        let bound = type_asked(alloc, cx, object.asked.def_id, object.self_ty)?;
        return Ok(Some((BuiltinImplSource::Misc, bound)));
    }
    match bound_from(cx, elaborated, object.asked, 0, place - autos) {
        Some((number, bound)) => Ok(Some((BuiltinImplSource::Object(number), bound))),
        None => Ok(None),
    }
}

/// The bound of a `dyn` with this index among those that can be what is asked, if the principal is dyn compatible.
fn object_bound_at(
    alloc: Global,
    cx: &mut Interner,
    declarations: &Declarations,
    object: AskedObject,
    place: usize,
    notes: &mut Vec<TraitRef>,
) -> Result<Option<(BuiltinImplSource, TraitRef)>, Fault>
    requires declared { AreHeld cx.old.entries declarations.now }
    requires traits { HaveBounds cx.old.entries declarations.now }
    requires asked { ReferenceHeld cx.old.entries object.asked }
    requires self_held { Has cx.old.entries types object.self_ty.0 }
    requires bounds { Has cx.old.entries bounds_lists object.bounds.0 }
    requires applied { let S = trees_at cx.old.entries object.self_ty.0 in
        WithLifetime cx.old.entries object.bounds (λ b. Each (AreArgumentsOf declarations.now) (principal_with S b)) }
    requires notes { StayElaborated cx.old.entries declarations.now notes.old.items }
    ensures terms { GrewOrFull cx.old cx.new result }
    ensures notes { OnOk result (StayElaborated cx.new.entries declarations.now notes.new.items) }
    ensures held { IfOk result (λ o. IfSome o (λ x. ReferenceHeld cx.new.entries x.1)) }
    ensures is { let V = written cx.old.entries declarations.now in let S = trees_at cx.old.entries object.self_ty.0 in
        IfOk result (λ o. WithLifetime cx.old.entries object.bounds (λ b. option_map (bound_in cx.new.entries) o
        ≡ slice_get (object_bounds V (reference_in cx.old.entries object.asked) S b) place)) }
{
    let principal = noted_principal(
        alloc,
        cx,
        declarations,
        object.self_ty,
        object.bounds,
        notes,
    )?;
    if is_dyn_compatible(declarations, principal, notes) {
        bound_of_trait(alloc, cx, object, notes, place)
    } else {
        Ok(None)
    }
}

/// The bound of a `dyn` that comes next, among those that can be what is asked, after the one with this number in the elaborated list. That
/// one is a bound, so the principal is dyn compatible.
fn object_bound_after(
    alloc: Global,
    cx: &mut Interner,
    declarations: &Declarations,
    object: AskedObject,
    number: usize,
    notes: &mut Vec<TraitRef>,
) -> Result<Option<(BuiltinImplSource, TraitRef)>, Fault>
    requires declared { AreHeld cx.old.entries declarations.now }
    requires traits { HaveBounds cx.old.entries declarations.now }
    requires asked { ReferenceHeld cx.old.entries object.asked }
    requires self_held { Has cx.old.entries types object.self_ty.0 }
    requires bounds { Has cx.old.entries bounds_lists object.bounds.0 }
    requires applied { let S = trees_at cx.old.entries object.self_ty.0 in
        WithLifetime cx.old.entries object.bounds (λ b. Each (AreArgumentsOf declarations.now) (principal_with S b)) }
    requires notes { StayElaborated cx.old.entries declarations.now notes.old.items }
    ensures terms { GrewOrFull cx.old cx.new result }
    ensures notes { OnOk result (StayElaborated cx.new.entries declarations.now notes.new.items) }
    ensures held { IfOk result (λ o. IfSome o (λ x. ReferenceHeld cx.new.entries x.1)) }
    ensures is { let V = written cx.old.entries declarations.now in let S = trees_at cx.old.entries object.self_ty.0 in
        let q = reference_in cx.old.entries object.asked in
        IfOk result (λ o. WithLifetime cx.old.entries object.bounds (λ b. (place : ℕ) → IsOfBound (object_bounds V q S b) number place
        → option_map (bound_in cx.new.entries) o ≡ slice_get (object_bounds V q S b) (suc place))) }
{
    let self_ty = object.self_ty;
    noted_principal(alloc, cx, declarations, self_ty, object.bounds, notes)?;
    match bound_after(cx, notes, object.asked, number) {
        Some((next, bound)) => Ok(Some((BuiltinImplSource::Object(next), bound))),
        None => Ok(None),
    }
}

/// The candidate by a bound of a `dyn`. It equates the goal's arguments with those of the bound. Its premises are the goal's
/// supertraits. rustc: `probe_and_consider_object_bound_candidate`.
fn bound_candidate(
    alloc: Global,
    cx: &mut Interner,
    declarations: &Declarations,
    goal: &CanonicalInput,
    source: BuiltinImplSource,
    bound: TraitRef,
) -> Result<CandidateSpec, Fault>
    requires goal { GoalHeld cx.old.entries goal.now.goal }
    requires declared { AreHeld cx.old.entries declarations.now }
    requires traits { HaveBounds cx.old.entries declarations.now }
    requires applied { IsApplied cx.old.entries declarations.now goal.now.goal.predicate.trait_ref }
    requires bound { ReferenceHeld cx.old.entries bound }
    ensures terms { GrewOrFull cx.old cx.new result }
    ensures held { IfOk result (SpecHeld cx.new.entries) }
    ensures is { let V = written cx.old.entries declarations.now in let a = asked_of cx.old.entries goal.now in
        IfOk result (λ s. candidate_of V a.reference.trait cx.new.entries s
        ≡ by_rule V a (BuiltinImpl source) (all_equal a.reference.args (reference_in cx.old.entries bound).args) (supertraits V a.reference)) }
{
    let asked = goal.goal.predicate.trait_ref;
    let supertraits = declarations.supertraits(alloc, cx, asked)?;
    let equations = relate_args(alloc, cx, asked.args, bound.args)?;
    let source = CandidateSource::BuiltinImpl(source);
    by_rule(alloc, goal, source, equations, &supertraits)
}

/// The candidate by the bound with this index among the bounds that can be the goal, if the self type is a `dyn` that has so many. The
/// auto traits that the `dyn` is written with come first, then its principal and the supertraits. The source of a candidate by one of
/// the latter has its index in the elaborated list. rustc: `consider_object_bound_candidate`.
///
/// The notes are left as the elaborated list, and a later call for the same `dyn` does not elaborate it again.
pub fn consider_object_bound_candidate(
    alloc: Global,
    cx: &mut Interner,
    declarations: &Declarations,
    goal: &CanonicalInput,
    place: usize,
    notes: &mut Vec<TraitRef>,
) -> Result<Option<CandidateSpec>, Fault>
    requires goal { GoalHeld cx.old.entries goal.now.goal }
    requires first { StartsWithType (trees_at cx.old.entries goal.now.goal.predicate.trait_ref.args.0) }
    requires declared { AreHeld cx.old.entries declarations.now }
    requires bounds { HaveBounds cx.old.entries declarations.now }
    requires applied { IsApplied cx.old.entries declarations.now goal.now.goal.predicate.trait_ref }
    requires object { ObjectIsApplied declarations.now (trees_at cx.old.entries goal.now.goal.predicate.trait_ref.args.0) }
    requires notes { StayElaborated cx.old.entries declarations.now notes.old.items }
    ensures terms { GrewOrFull cx.old cx.new result }
    ensures notes { OnOk result (StayElaborated cx.new.entries declarations.now notes.new.items) }
    ensures held { IfOk result (λ o. IfSome o (SpecHeld cx.new.entries)) }
    ensures is { let V = written cx.old.entries declarations.now in let a = asked_of cx.old.entries goal.now in
        IfOk result (λ o. option_map (candidate_of V a.reference.trait cx.new.entries) o ≡ slice_get (by_objects V a) place) }
{
    let asked = goal.goal.predicate.trait_ref;
    let self_ty = asked.self_ty(cx);
    match dyn_bounds(cx, self_ty) {
        Some(bounds) => {
            let object = AskedObject {
                asked,
                self_ty,
                bounds,
            };
            match object_bound_at(alloc, cx, declarations, object, place, notes)? {
                Some((source, bound)) => {
                    let candidate = bound_candidate(alloc, cx, declarations, goal, source, bound)?;
                    Ok(Some(candidate))
                }
                None => Ok(None),
            }
        }
        None => Ok(None),
    }
}

/// The candidate by the bound that comes next, after one of the principal or of its supertraits: that has this number in the elaborated
/// list, and is the source of the candidate that was considered last. Nothing before it is looked at again.
pub fn consider_next_object_bound_candidate(
    alloc: Global,
    cx: &mut Interner,
    declarations: &Declarations,
    goal: &CanonicalInput,
    number: usize,
    notes: &mut Vec<TraitRef>,
) -> Result<Option<CandidateSpec>, Fault>
    requires goal { GoalHeld cx.old.entries goal.now.goal }
    requires first { StartsWithType (trees_at cx.old.entries goal.now.goal.predicate.trait_ref.args.0) }
    requires declared { AreHeld cx.old.entries declarations.now }
    requires bounds { HaveBounds cx.old.entries declarations.now }
    requires applied { IsApplied cx.old.entries declarations.now goal.now.goal.predicate.trait_ref }
    requires object { ObjectIsApplied declarations.now (trees_at cx.old.entries goal.now.goal.predicate.trait_ref.args.0) }
    requires notes { StayElaborated cx.old.entries declarations.now notes.old.items }
    ensures terms { GrewOrFull cx.old cx.new result }
    ensures notes { OnOk result (StayElaborated cx.new.entries declarations.now notes.new.items) }
    ensures held { IfOk result (λ o. IfSome o (SpecHeld cx.new.entries)) }
    ensures is { let V = written cx.old.entries declarations.now in let a = asked_of cx.old.entries goal.now in
        IfOk result (λ o. (place : ℕ) → IsByBound V a number place
        → option_map (candidate_of V a.reference.trait cx.new.entries) o ≡ slice_get (by_objects V a) (suc place)) }
{
    let asked = goal.goal.predicate.trait_ref;
    let self_ty = asked.self_ty(cx);
    match dyn_bounds(cx, self_ty) {
        Some(bounds) => {
            let object = AskedObject {
                asked,
                self_ty,
                bounds,
            };
            match object_bound_after(alloc, cx, declarations, object, number, notes)? {
                Some((source, bound)) => {
                    let candidate = bound_candidate(alloc, cx, declarations, goal, source, bound)?;
                    Ok(Some(candidate))
                }
                None => Ok(None),
            }
        }
        None => Ok(None),
    }
}
