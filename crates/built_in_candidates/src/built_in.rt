//! Candidates by the built-in rules of single traits and of auto traits.
ghost use Rattle.type_terms.specs.Growth.{GrewOrFull};
ghost use Rattle.std.specs.Prelude.{◌≡◌, List, IfOk, IfSome};
ghost use Rattle.type_terms.specs.Promised.Worlds.{World};
ghost use Rattle.type_terms.specs.Kinds.{TysHeld};
ghost use Rattle.type_terms.specs.Promised.Rules.{Rule};
ghost use Rattle.type_terms.specs.Promised.Handles.{trees_at};
ghost use Rattle.term_folds.specs.Signatures.{StartsWithType};
ghost use Rattle.infer_table.specs.Goals.{GoalHeld};
ghost use Rattle.goal_evaluator.specs.Readings.{SpecHeld};
ghost use Rattle.declarations.specs.Items.{written};
ghost use Rattle.candidate_model.specs.Candidates.{as_written};
ghost use Rattle.built_in_candidates.specs.Goals.{asked_of};
ghost use Rattle.structural_traits.specs.Constituents.{AreConstituents};
ghost use Rattle.built_in_candidates.specs.Constituents.{CanBeConsidered, candidates_of};
ghost use Rattle.built_in_candidates.specs.BuiltIn.{sized_candidates, copy_candidates, auto_candidates, tuple_candidates, fn_ptr_candidates, HavePlainHeads};

use crate::parts::by_rule;
use declarations::core_traits::SIZED;
use declarations::declarations::Declarations;
use goal_evaluator::{BuiltinImplSource, CandidateSource, CandidateSpec};
use infer_table::input::CanonicalInput;
use std::alloc::Global;
use structural_traits::asked::types_asked;
use structural_traits::constituents::{
    constituents_for_fn_ptr_trait, constituents_for_tuple_trait,
    instantiate_constituent_tys_for_auto_trait, instantiate_constituent_tys_for_copy_clone_trait,
    instantiate_constituent_tys_for_sized_trait,
};
use type_terms::interner::Interner;
use type_terms::kinds::Ty;
use type_terms::{Fault, TraitId};

/// The candidate whose premises are the constituents of a type, each with the trait. Returns `None` if the type has no such rule.
/// rustc: `probe_and_evaluate_goal_for_constituent_tys`.
fn for_constituent_tys(
    alloc: Global,
    cx: &mut Interner,
    goal: &CanonicalInput,
    source: CandidateSource,
    def_id: TraitId,
    tys: Option<Vec<Ty>>,
) -> Result<Option<CandidateSpec>, Fault>
    requires goal { GoalHeld cx.old.entries goal.now.goal }
    requires held { IfSome tys (λ v. TysHeld cx.old.entries v.items) }
    ensures terms { GrewOrFull cx.old cx.new result }
    ensures held { IfOk result (λ o. IfSome o (SpecHeld cx.new.entries)) }
    ensures is { IfOk result (λ o. (V : World) (us : List Rule) → AreConstituents (λ v. v.items) cx.old.entries def_id.index us tys
        → candidates_of V goal.now.goal.predicate.trait_ref.def_id.index cx.new.entries o ≡ as_written V (asked_of cx.old.entries goal.now) source us) }
{
    match tys {
        Some(tys) => {
            let premises = types_asked(alloc, cx, def_id, &tys)?;
            let candidate = by_rule(alloc, goal, source, Vec::new(alloc), &premises)?;
            Ok(Some(candidate))
        }
        None => Ok(None),
    }
}

/// The candidate by the rule of `Sized`. Scalars, pointers and arrays have no premises. The premise of a tuple is its last item, and
/// that of a struct its last field. rustc: `consider_builtin_sized_candidate`.
pub fn consider_builtin_sized_candidate(
    alloc: Global,
    cx: &mut Interner,
    declarations: &Declarations,
    goal: &CanonicalInput,
) -> Result<Option<CandidateSpec>, Fault>
    requires { CanBeConsidered cx.old.entries declarations.now goal.now }
    ensures terms { GrewOrFull cx.old cx.new result }
    ensures held { IfOk result (λ o. IfSome o (SpecHeld cx.new.entries)) }
    ensures is { let V = written cx.old.entries declarations.now in
        IfOk result (λ o. candidates_of V goal.now.goal.predicate.trait_ref.def_id.index cx.new.entries o
        ≡ sized_candidates V (asked_of cx.old.entries goal.now)) }
{
    let self_ty = goal.goal.predicate.self_ty(cx);
    let tys = instantiate_constituent_tys_for_sized_trait(alloc, cx, declarations, self_ty)?;
    let source = CandidateSource::BuiltinImpl(BuiltinImplSource::Trivial);
    let def_id = TraitId { index: SIZED };
    for_constituent_tys(alloc, cx, goal, source, def_id, tys)
}

/// The candidate by the rule of `Copy` and `Clone`, for `fn` pointers and tuples. rustc: `consider_builtin_copy_clone_candidate`.
pub fn consider_builtin_copy_clone_candidate(
    alloc: Global,
    cx: &mut Interner,
    goal: &CanonicalInput,
) -> Result<Option<CandidateSpec>, Fault>
    requires goal { GoalHeld cx.old.entries goal.now.goal }
    requires first { StartsWithType (trees_at cx.old.entries goal.now.goal.predicate.trait_ref.args.0) }
    ensures terms { GrewOrFull cx.old cx.new result }
    ensures held { IfOk result (λ o. IfSome o (SpecHeld cx.new.entries)) }
    ensures is { IfOk result (λ o. (V : World)
        → candidates_of V goal.now.goal.predicate.trait_ref.def_id.index cx.new.entries o ≡ copy_candidates V (asked_of cx.old.entries goal.now)) }
{
    let self_ty = goal.goal.predicate.self_ty(cx);
    let tys = instantiate_constituent_tys_for_copy_clone_trait(alloc, cx, self_ty)?;
    let source = CandidateSource::BuiltinImpl(BuiltinImplSource::Misc);
    for_constituent_tys(
        alloc,
        cx,
        goal,
        source,
        goal.goal.predicate.trait_ref.def_id,
        tys,
    )
}

/// The candidate by the rule of `Tuple`, for tuples. rustc: `consider_builtin_tuple_candidate`.
pub fn consider_builtin_tuple_candidate(
    alloc: Global,
    cx: &mut Interner,
    goal: &CanonicalInput,
) -> Result<Option<CandidateSpec>, Fault>
    requires goal { GoalHeld cx.old.entries goal.now.goal }
    requires first { StartsWithType (trees_at cx.old.entries goal.now.goal.predicate.trait_ref.args.0) }
    ensures terms { GrewOrFull cx.old cx.new result }
    ensures held { IfOk result (λ o. IfSome o (SpecHeld cx.new.entries)) }
    ensures is { IfOk result (λ o. (V : World)
        → candidates_of V goal.now.goal.predicate.trait_ref.def_id.index cx.new.entries o ≡ tuple_candidates V (asked_of cx.old.entries goal.now)) }
{
    let self_ty = goal.goal.predicate.self_ty(cx);
    let tys = constituents_for_tuple_trait(alloc, cx, self_ty);
    let source = CandidateSource::BuiltinImpl(BuiltinImplSource::Misc);
    for_constituent_tys(
        alloc,
        cx,
        goal,
        source,
        goal.goal.predicate.trait_ref.def_id,
        tys,
    )
}

/// The candidate by the rule of `FnPtr`, for `fn` pointers. rustc: `consider_builtin_fn_ptr_trait_candidate`.
pub fn consider_builtin_fn_ptr_trait_candidate(
    alloc: Global,
    cx: &mut Interner,
    goal: &CanonicalInput,
) -> Result<Option<CandidateSpec>, Fault>
    requires goal { GoalHeld cx.old.entries goal.now.goal }
    requires first { StartsWithType (trees_at cx.old.entries goal.now.goal.predicate.trait_ref.args.0) }
    ensures terms { GrewOrFull cx.old cx.new result }
    ensures held { IfOk result (λ o. IfSome o (SpecHeld cx.new.entries)) }
    ensures is { IfOk result (λ o. (V : World)
        → candidates_of V goal.now.goal.predicate.trait_ref.def_id.index cx.new.entries o ≡ fn_ptr_candidates V (asked_of cx.old.entries goal.now)) }
{
    let self_ty = goal.goal.predicate.self_ty(cx);
    let tys = constituents_for_fn_ptr_trait(alloc, cx, self_ty);
    let source = CandidateSource::BuiltinImpl(BuiltinImplSource::Misc);
    for_constituent_tys(
        alloc,
        cx,
        goal,
        source,
        goal.goal.predicate.trait_ref.def_id,
        tys,
    )
}

/// The candidate by an auto trait's own rule. Its premises are the types that the self type consists of. There is none if the trait
/// has an impl for types with this head. rustc: `consider_auto_trait_candidate`.
pub fn consider_auto_trait_candidate(
    alloc: Global,
    cx: &mut Interner,
    declarations: &Declarations,
    goal: &CanonicalInput,
) -> Result<Option<CandidateSpec>, Fault>
    requires considered { CanBeConsidered cx.old.entries declarations.now goal.now }
    requires impls { HavePlainHeads cx.old.entries declarations.now }
    ensures terms { GrewOrFull cx.old cx.new result }
    ensures held { IfOk result (λ o. IfSome o (SpecHeld cx.new.entries)) }
    ensures is { let V = written cx.old.entries declarations.now in
        IfOk result (λ o. candidates_of V goal.now.goal.predicate.trait_ref.def_id.index cx.new.entries o
        ≡ auto_candidates V (asked_of cx.old.entries goal.now)) }
{
    let trait_ref = goal.goal.predicate.trait_ref;
    let self_ty = goal.goal.predicate.self_ty(cx);
    match declarations.next_relevant_impl(cx, trait_ref.def_id, self_ty, None) {
        Some(_) => Ok(None),
        None => {
            let tys = instantiate_constituent_tys_for_auto_trait(alloc, cx, declarations, self_ty)?;
            let source = CandidateSource::BuiltinImpl(BuiltinImplSource::Misc);
            for_constituent_tys(alloc, cx, goal, source, trait_ref.def_id, tys)
        }
    }
}
