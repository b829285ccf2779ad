//! Candidates by which a `dyn` unsizes to a `dyn`.
ghost use Rattle.type_terms.specs.Growth.{GrewOrFull};
ghost use Rattle.std.specs.Prelude.{◌≡◌, ◌==◌, ◌||◌, ◌&&◌, ◌∷◌, [], List, IfOk, IfSome, IfErr, option_map};
ghost use Rattle.std.specs.List.{slice_get, list_all, list_any};
ghost use Rattle.type_terms.specs.Promised.Trees.{Trees, ◌+++◌};
ghost use Rattle.type_terms.specs.Promised.Worlds.{World};
ghost use Rattle.type_terms.specs.Promised.Rules.{principal_with, autos_with, are_declared, upcasts_autos};
ghost use Rattle.type_terms.specs.Promised.Handles.{Has, Entry, types, bounds_lists, trees_at};
ghost use Rattle.type_terms.specs.Terms.{args_lists};
ghost use Rattle.type_terms.specs.declared.Fault.TheVariants.{Memory};
ghost use Rattle.infer_table.specs.Goals.{GoalHeld};
ghost use Rattle.goal_evaluator.specs.Merge.{if_there};
ghost use Rattle.goal_evaluator.specs.Readings.{SpecHeld};
ghost use Rattle.goal_evaluator.specs.declared.candidate.CandidateSource.TheVariants.{BuiltinImpl};
ghost use Rattle.declarations.specs.Items.{written};
ghost use Rattle.declarations.specs.Held.{AreHeld, ReferenceHeld};
ghost use Rattle.declarations.specs.Promised.Elaboration.{Each};
ghost use Rattle.declarations.specs.Applied.{references_in, TraitRefsHeld, HaveBounds};
ghost use Rattle.declarations.specs.Promised.Elaboration.{elaborate};
ghost use Rattle.candidate_model.specs.Candidates.{all_equal, by_rule, misc, upcasts_to, upcasts_of};
ghost use Rattle.built_in_candidates.specs.Goals.{asked_of, candidate_of};
ghost use Rattle.built_in_candidates.specs.Objects.{ObjectIsApplied, AreArgumentsOf, WithLifetime, bound_in, upcast_bounds, upcasts_between};

use crate::dyn_type::{
    Elaborated, dyn_bounds, elaborated_principal, has_trait, is_declared, principal_with,
    reference_at,
};
use crate::parts::{Coercion, by_rule};
use crate::relate::relate_args;
use declarations::declarations::Declarations;
use goal_evaluator::{BuiltinImplSource, CandidateSource, CandidateSpec};
use infer_table::input::CanonicalInput;
use std::alloc::Global;
use term_folds::predicate::TraitRef;
use type_terms::interner::Interner;
use type_terms::kinds::{Bounds, GenericArgs, Ty};
use type_terms::{Fault, TraitId};

fn has_auto(autos: &[TraitId], auto: TraitId) -> bool
    ensures { result ≡ list_any (λ q. q.index == auto.index) autos.now }
{
    autos.iter().any(|other| other.index == auto.index)
}

fn is_written_or_elaborated(autos: &[TraitId], elaborated: &[TraitRef], auto: TraitId) -> bool
    ensures { result ≡ list_any (λ q. q.index == auto.index) autos.now || list_any (λ r. r.def_id.index == auto.index) elaborated.now }
{
    has_auto(autos, auto) || has_trait(elaborated, auto)
}

/// Whether each of the target's auto traits occurs among those of the source, or among its principal and the supertraits.
fn has_autos(autos: &[TraitId], elaborated: &[TraitRef], targets: &[TraitId]) -> bool
    ensures { result ≡ list_all (λ b. list_any (λ q. q.index == b.index) autos.now || list_any (λ r. r.def_id.index == b.index) elaborated.now) targets.now }
{
    targets
        .iter()
        .all(|auto| is_written_or_elaborated(autos, elaborated, *auto))
}

/// Whether a `dyn` meets the conditions of an upcast that do not depend on the target's principal: its own principal is declared, and it
/// has the target's auto traits.
fn can_upcast(
    cx: &Interner,
    declarations: &Declarations,
    from: &Elaborated,
    source: Bounds,
    target: Bounds,
) -> bool
    requires source { Has cx.now.entries bounds_lists source.0 }
    requires target { Has cx.now.entries bounds_lists target.0 }
    ensures { (es now : List Entry) (self : Trees) → let V = written es declarations.now in let ps = references_in now (if_there from.now.principal) in
        HaveBounds es declarations.now → references_in now from.now.elaborated.items ≡ elaborate V ps
        → WithLifetime cx.now.entries source
        (λ b. WithLifetime cx.now.entries target (λ d. result ≡ are_declared V ps && upcasts_autos V ps (autos_with self b) (autos_with self d))) }
{
    is_declared(declarations, from.principal)
        && has_autos(
            &cx.bounds(source).autos,
            &from.elaborated,
            &cx.bounds(target).autos,
        )
}

/// The bound with this index to which a `dyn` is upcast: its principal if that is of the trait, and else a supertrait of the trait.
fn upcast_bound(
    from: &Elaborated,
    def_id: TraitId,
    place: usize,
) -> Option<(BuiltinImplSource, TraitRef)>
    ensures is { (es : List Entry) (V : World) → let ps = references_in es (if_there from.now.principal) in
        references_in es from.now.elaborated.items ≡ elaborate V ps → option_map (bound_in es) result ≡ slice_get (upcast_bounds V def_id.index ps) place }
    ensures held { (es : List Entry) → TraitRefsHeld es (if_there from.now.principal) → TraitRefsHeld es from.now.elaborated.items
        → IfSome result (λ x. ReferenceHeld es x.1) }
{
    match from.principal {
        Some(principal) => {
            if principal.def_id.index == def_id.index {
                if place == 0 {
                    Some((BuiltinImplSource::Misc, principal))
                } else {
                    None
                }
            } else {
                match reference_at(&from.elaborated, def_id, place) {
                    Some((number, bound)) => {
                        Some((BuiltinImplSource::TraitUpcasting(number), bound))
                    }
                    None => None,
                }
            }
        }
        None => None,
    }
}

/// The candidate that equates two lists of arguments and has no premises.
fn equated_candidate(
    alloc: Global,
    cx: &mut Interner,
    goal: &CanonicalInput,
    source: BuiltinImplSource,
    left: GenericArgs,
    right: GenericArgs,
) -> Result<CandidateSpec, Fault>
    requires goal { GoalHeld cx.old.entries goal.now.goal }
    requires left { Has cx.old.entries args_lists left.0 }
    requires right { Has cx.old.entries args_lists right.0 }
    ensures terms { GrewOrFull cx.old cx.new result }
    ensures held { IfOk result (SpecHeld cx.new.entries) }
    ensures is { let equations = all_equal (trees_at cx.old.entries left.0) (trees_at cx.old.entries right.0) in
        IfOk result (λ s. (V : World) → candidate_of V goal.now.goal.predicate.trait_ref.def_id.index cx.new.entries s
        ≡ by_rule V (asked_of cx.old.entries goal.now) (BuiltinImpl source) equations []) }
{
    let equations = relate_args(alloc, cx, left, right)?;
    let source = CandidateSource::BuiltinImpl(source);
    by_rule(alloc, goal, source, equations, &[])
}

/// The candidate that drops the principal, if the index is 0. There is no other such candidate. Fails only with `Memory`.
fn drop_candidate(
    alloc: Global,
    goal: &CanonicalInput,
    place: usize,
) -> Result<Option<CandidateSpec>, Fault>
    ensures is { IfOk result (λ o. (es : List Entry) (V : World) → let a = asked_of es goal.now in
        option_map (candidate_of V a.reference.trait es) o ≡ slice_get (by_rule V a misc [] [] ∷ []) place) }
    ensures held { IfOk result (λ o. (es : List Entry) → GoalHeld es goal.now.goal → IfSome o (SpecHeld es)) }
    ensures memory { IfErr result (λ fault. fault ≡ Memory) }
{
    if place == 0 {
        let source = CandidateSource::BuiltinImpl(BuiltinImplSource::Misc);
        let candidate = by_rule(alloc, goal, source, Vec::new(alloc), &[])?;
        return Ok(Some(candidate));
    }
    Ok(None)
}

/// The candidate with this index by which a `dyn` is upcast to this principal, or to a `dyn` without one.
fn upcast_candidate(
    alloc: Global,
    cx: &mut Interner,
    goal: &CanonicalInput,
    from: &Elaborated,
    to: Option<TraitRef>,
    place: usize,
) -> Result<Option<CandidateSpec>, Fault>
    requires goal { GoalHeld cx.old.entries goal.now.goal }
    requires principal { TraitRefsHeld cx.old.entries (if_there from.now.principal) }
    requires elaborated { TraitRefsHeld cx.old.entries from.now.elaborated.items }
    requires to { TraitRefsHeld cx.old.entries (if_there to) }
    ensures terms { GrewOrFull cx.old cx.new result }
    ensures held { IfOk result (λ o. IfSome o (SpecHeld cx.new.entries)) }
    ensures is { let a = asked_of cx.old.entries goal.now in let ps = references_in cx.old.entries (if_there from.now.principal) in
        IfOk result (λ o. (V : World) → references_in cx.old.entries from.now.elaborated.items ≡ elaborate V ps
        → option_map (candidate_of V a.reference.trait cx.new.entries) o ≡ slice_get (upcasts_to V a ps (references_in cx.old.entries (if_there to))) place) }
{
    match to {
        Some(to) => match upcast_bound(from, to.def_id, place) {
            Some((source, bound)) => {
                let candidate = equated_candidate(alloc, cx, goal, source, bound.args, to.args)?;
                Ok(Some(candidate))
            }
            None => Ok(None),
        },
        None => drop_candidate(alloc, goal, place),
    }
}

/// The principals of a `dyn` and of its target, both with the `dyn` as Self. The first has its supertraits.
#[derive(Drop)]
struct Ends {
    from: Elaborated,
    to: Option<TraitRef>,
}

/// A `dyn`, its bounds, and the bounds of the `dyn` to which it is upcast.
#[derive(Clone, Copy)]
struct Upcast {
    self_ty: Ty,
    source: Bounds,
    target: Bounds,
}

/// The principals of a `dyn` and of its target. The first has its supertraits.
fn upcast_ends(
    alloc: Global,
    cx: &mut Interner,
    declarations: &Declarations,
    upcast: Upcast,
) -> Result<Ends, Fault>
    requires declared { AreHeld cx.old.entries declarations.now }
    requires traits { HaveBounds cx.old.entries declarations.now }
    requires self_held { Has cx.old.entries types upcast.self_ty.0 }
    requires source { Has cx.old.entries bounds_lists upcast.source.0 }
    requires target { Has cx.old.entries bounds_lists upcast.target.0 }
    requires applied { let S = trees_at cx.old.entries upcast.self_ty.0 in
        WithLifetime cx.old.entries upcast.source (λ b. Each (AreArgumentsOf declarations.now) (principal_with S b)) }
    ensures terms { GrewOrFull cx.old cx.new result }
    ensures principal_held { IfOk result (λ e. TraitRefsHeld cx.new.entries (if_there e.from.principal)) }
    ensures principal { IfOk result (λ e. WithLifetime cx.old.entries upcast.source (λ b. references_in cx.new.entries (if_there e.from.principal)
        ≡ principal_with (trees_at cx.old.entries upcast.self_ty.0) b)) }
    ensures elaborated_held { IfOk result (λ e. TraitRefsHeld cx.new.entries e.from.elaborated.items) }
    ensures elaborated { let V = written cx.old.entries declarations.now in
        IfOk result (λ e. WithLifetime cx.old.entries upcast.source (λ b. references_in cx.new.entries e.from.elaborated.items
        ≡ elaborate V (principal_with (trees_at cx.old.entries upcast.self_ty.0) b))) }
    ensures to_held { IfOk result (λ e. TraitRefsHeld cx.new.entries (if_there e.to)) }
    ensures to { let S = trees_at cx.old.entries upcast.self_ty.0 in
        IfOk result (λ e. WithLifetime cx.old.entries upcast.target (λ b. references_in cx.new.entries (if_there e.to) ≡ principal_with S b)) }
{
    let from = elaborated_principal(alloc, cx, declarations, upcast.self_ty, upcast.source)?;
    let to = principal_with(alloc, cx, upcast.self_ty, upcast.target)?;
    Ok(Ends { from, to })
}

/// The candidate with this index by which a `dyn` is upcast to another. The bounds of both are given.
fn consider_upcast(
    alloc: Global,
    cx: &mut Interner,
    declarations: &Declarations,
    goal: &CanonicalInput,
    upcast: Upcast,
    place: usize,
) -> Result<Option<CandidateSpec>, Fault>
    requires goal { GoalHeld cx.old.entries goal.now.goal }
    requires declared { AreHeld cx.old.entries declarations.now }
    requires traits { HaveBounds cx.old.entries declarations.now }
    requires self_held { Has cx.old.entries types upcast.self_ty.0 }
    requires source { Has cx.old.entries bounds_lists upcast.source.0 }
    requires target { Has cx.old.entries bounds_lists upcast.target.0 }
    requires applied { let S = trees_at cx.old.entries upcast.self_ty.0 in
        WithLifetime cx.old.entries upcast.source (λ b. Each (AreArgumentsOf declarations.now) (principal_with S b)) }
    ensures terms { GrewOrFull cx.old cx.new result }
    ensures held { IfOk result (λ o. IfSome o (SpecHeld cx.new.entries)) }
    ensures is { let V = written cx.old.entries declarations.now in let a = asked_of cx.old.entries goal.now in
        let S = trees_at cx.old.entries upcast.self_ty.0 in
        IfOk result (λ o. WithLifetime cx.old.entries upcast.source (λ b. WithLifetime cx.old.entries upcast.target (λ d.
        option_map (candidate_of V a.reference.trait cx.new.entries) o ≡ slice_get (upcasts_between V a S b d) place))) }
{
    let ends = upcast_ends(alloc, cx, declarations, upcast)?;
    if can_upcast(cx, declarations, &ends.from, upcast.source, upcast.target) {
        upcast_candidate(alloc, cx, goal, &ends.from, ends.to, place)
    } else {
        Ok(None)
    }
}

/// The candidate with this index by which a `dyn` unsizes to a `dyn`. The `dyn` must have the target's auto traits. rustc:
/// `consider_builtin_dyn_upcast_candidates`.
///
/// If the target has no principal, the principal is dropped. If both principals are of one trait, their arguments are equated. In any
/// other case there is a candidate for each supertrait that is of the trait of the target's principal.
pub fn consider_builtin_dyn_upcast_candidates(
    alloc: Global,
    cx: &mut Interner,
    declarations: &Declarations,
    goal: &CanonicalInput,
    coercion: Coercion,
    place: usize,
) -> Result<Option<CandidateSpec>, Fault>
    requires goal { GoalHeld cx.old.entries goal.now.goal }
    requires self_held { Has cx.old.entries types coercion.self_ty.0 }
    requires target { Has cx.old.entries types coercion.target.0 }
    requires declared { AreHeld cx.old.entries declarations.now }
    requires bounds { HaveBounds cx.old.entries declarations.now }
    requires object { ObjectIsApplied declarations.now (trees_at cx.old.entries coercion.self_ty.0) }
    ensures terms { GrewOrFull cx.old cx.new result }
    ensures held { IfOk result (λ o. IfSome o (SpecHeld cx.new.entries)) }
    ensures is { let V = written cx.old.entries declarations.now in let a = asked_of cx.old.entries goal.now in
        let args = trees_at cx.old.entries coercion.self_ty.0 +++ trees_at cx.old.entries coercion.target.0 in
        IfOk result (λ o. option_map (candidate_of V a.reference.trait cx.new.entries) o ≡ slice_get (upcasts_of V a args) place) }
{
    let self_ty = coercion.self_ty;
    match (dyn_bounds(cx, self_ty), dyn_bounds(cx, coercion.target)) {
        (Some(source), Some(target)) => {
            let upcast = Upcast {
                self_ty,
                source,
                target,
            };
            consider_upcast(alloc, cx, declarations, goal, upcast, place)
        }
        (Some(_), None) => Ok(None),
        (None, Some(_)) => Ok(None),
        (None, None) => Ok(None),
    }
}
