//! Candidates by the built-in rule of `Fn`, `FnMut` and `FnOnce`.
ghost use Rattle.type_terms.specs.Growth.{GrewOrFull};
ghost use Rattle.std.specs.Prelude.{◌≡◌, List, IfOk, IfSome};
ghost use Rattle.std.specs.Option.{option_map};
ghost use Rattle.type_terms.specs.Promised.Label.{tuple};
ghost use Rattle.type_terms.specs.Promised.Trees.{tree, none};
ghost use Rattle.type_terms.specs.Promised.Worlds.{World};
ghost use Rattle.type_terms.specs.Promised.Rules.{but_last, last_asked, sized};
ghost use Rattle.type_terms.specs.Promised.Handles.{Has, Entry, types, trees_at};
ghost use Rattle.type_terms.specs.Terms.{Lawful, type_lists, args_lists};
ghost use Rattle.type_terms.specs.Promised.Handles.{ArgHeld, arg_trees};
ghost use Rattle.type_terms.specs.Kinds.{TysHeld, tys_trees};
ghost use Rattle.term_folds.specs.Signatures.{StartsWithType};
ghost use Rattle.infer_table.specs.Goals.{GoalHeld};
ghost use Rattle.goal_evaluator.specs.Readings.{SpecHeld};
ghost use Rattle.declarations.specs.Applied.{references_in, TraitRefsHeld};
ghost use Rattle.candidate_model.specs.Asking.{next_of};
ghost use Rattle.candidate_model.specs.Candidates.{all_equal, by_rule, misc};
ghost use Rattle.built_in_candidates.specs.Goals.{asked_of, candidate_of};
ghost use Rattle.built_in_candidates.specs.Constituents.{candidates_of};
ghost use Rattle.built_in_candidates.specs.FnPointers.{call_candidates, signature_of, IsFirst};

use crate::parts::by_rule;
use declarations::core_traits::SIZED;
use goal_evaluator::{BuiltinImplSource, CandidateSource, CandidateSpec};
use infer_table::input::CanonicalInput;
use infer_table::terms::Equation;
use std::alloc::Global;
use structural_traits::asked::types_asked;
use structural_traits::constituents::last_alone;
use term_folds::predicate::TraitRef;
use type_terms::interner::Interner;
use type_terms::kinds::{GenericArgKind, GenericArgs, Ty, TyKind, Tys};
use type_terms::{Fault, TraitId};

/// The inputs and the output of a `fn` pointer, if the type is one.
fn signature(cx: &Interner, self_ty: Ty) -> Option<Tys>
    requires { Has cx.now.entries types self_ty.0 }
    ensures is { option_map (λ tys. trees_at cx.now.entries tys.0) result ≡ signature_of (trees_at cx.now.entries self_ty.0) }
    ensures held { IfSome result (λ tys. Has cx.now.entries type_lists tys.0) }
{
    match cx.kind(self_ty) {
        TyKind::FnPtr(_, inputs_and_output) => Some(inputs_and_output),
        TyKind::Bool
        | TyKind::Char
        | TyKind::Int(_)
        | TyKind::Uint(_)
        | TyKind::Str
        | TyKind::Never
        | TyKind::Adt(_, _)
        | TyKind::Ref(_, _, _)
        | TyKind::RawPtr(_, _)
        | TyKind::Array(_, _)
        | TyKind::Slice(_)
        | TyKind::Tuple(_)
        | TyKind::Dynamic(_, _)
        | TyKind::Param(_)
        | TyKind::Placeholder(_)
        | TyKind::Bound(_, _)
        | TyKind::Infer(_) => None,
    }
}

/// The second argument, if there is one.
pub fn second_argument(cx: &Interner, args: GenericArgs) -> Option<GenericArgKind>
    requires { Has cx.now.entries args_lists args.0 }
    ensures { IsFirst cx.now.entries (next_of (trees_at cx.now.entries args.0)) result }
{
    cx.lawful();
    cx.args(args).get(1).copied()
}

/// All types except the last.
fn inputs(inputs_and_output: &[Ty]) -> &[Ty]
    ensures is { (es : List Entry) → Lawful es → TysHeld es inputs_and_output.now → tys_trees es result.now ≡ but_last (tys_trees es inputs_and_output.now) }
    ensures held { (es : List Entry) → TysHeld es inputs_and_output.now → TysHeld es result.now }
{
    match inputs_and_output.split_last() {
        Some((_, inputs)) => inputs,
        None => &[],
    }
}

/// The inputs of a `fn` pointer as a tuple.
fn tupled_inputs(alloc: Global, cx: &mut Interner, inputs_and_output: Tys) -> Result<Ty, Fault>
    requires { Has cx.old.entries type_lists inputs_and_output.0 }
    ensures terms { GrewOrFull cx.old cx.new result }
    ensures held { IfOk result (λ r. Has cx.new.entries types r.0) }
    ensures is { IfOk result (λ r. trees_at cx.new.entries r.0 ≡ tree tuple (but_last (trees_at cx.old.entries inputs_and_output.0)) none) }
{
    cx.lawful();
    let list = Vec::from_slice(alloc, inputs(cx.tys(inputs_and_output)))?;
    let tys = cx.mk_tys(list)?;
    let ty = cx.mk_ty(TyKind::Tuple(tys))?;
    Ok(ty)
}

/// The trait reference `R: Sized` for the output `R` of a `fn` pointer.
fn output_is_sized(
    alloc: Global,
    cx: &mut Interner,
    inputs_and_output: Tys,
) -> Result<Vec<TraitRef>, Fault>
    requires { Has cx.old.entries type_lists inputs_and_output.0 }
    ensures terms { GrewOrFull cx.old cx.new result }
    ensures held { IfOk result (λ v. TraitRefsHeld cx.new.entries v.items) }
    ensures are { IfOk result (λ v. references_in cx.new.entries v.items ≡ last_asked sized (trees_at cx.old.entries inputs_and_output.0)) }
{
    cx.lawful();
    let output = last_alone(alloc, cx.tys(inputs_and_output))?;
    types_asked(alloc, cx, TraitId { index: SIZED }, &output)
}

/// The candidate that equates a `fn` pointer's inputs with these arguments. Its premise is that the output is `Sized`.
fn call_candidate(
    alloc: Global,
    cx: &mut Interner,
    goal: &CanonicalInput,
    inputs_and_output: Tys,
    arguments: GenericArgKind,
) -> Result<CandidateSpec, Fault>
    requires goal { GoalHeld cx.old.entries goal.now.goal }
    requires signature { Has cx.old.entries type_lists inputs_and_output.0 }
    requires arguments { ArgHeld cx.old.entries arguments }
    ensures terms { GrewOrFull cx.old cx.new result }
    ensures held { IfOk result (SpecHeld cx.new.entries) }
    ensures is { let types = trees_at cx.old.entries inputs_and_output.0 in
        let equations = all_equal (tree tuple (but_last types) none) (arg_trees cx.old.entries arguments) in
        IfOk result (λ s. (V : World) → candidate_of V goal.now.goal.predicate.trait_ref.def_id.index cx.new.entries s
        ≡ by_rule V (asked_of cx.old.entries goal.now) misc equations (last_asked sized types)) }
{
    let inputs = tupled_inputs(alloc, cx, inputs_and_output)?;
    let premises = output_is_sized(alloc, cx, inputs_and_output)?;
    cx.lawful();
    let equation = Equation {
        left: GenericArgKind::Ty(inputs),
        right: arguments,
    };
    let equations = vec![in alloc; equation]?;
    let source = CandidateSource::BuiltinImpl(BuiltinImplSource::Misc);
    by_rule(alloc, goal, source, equations, &premises)
}

/// The candidate by the rule of `Fn`, `FnMut` and `FnOnce`, for `fn` pointers. For `fn(u8, bool) -> R: FnOnce<A>` it equates `A` with
/// `(u8, bool)`, and its premise is `R: Sized`. rustc: `consider_builtin_fn_trait_candidates`.
pub fn consider_builtin_fn_trait_candidates(
    alloc: Global,
    cx: &mut Interner,
    goal: &CanonicalInput,
) -> Result<Option<CandidateSpec>, Fault>
    requires goal { GoalHeld cx.old.entries goal.now.goal }
    requires first { StartsWithType (trees_at cx.old.entries goal.now.goal.predicate.trait_ref.args.0) }
    ensures terms { GrewOrFull cx.old cx.new result }
    ensures held { IfOk result (λ o. IfSome o (SpecHeld cx.new.entries)) }
    ensures is { IfOk result (λ o. (V : World)
        → candidates_of V goal.now.goal.predicate.trait_ref.def_id.index cx.new.entries o ≡ call_candidates V (asked_of cx.old.entries goal.now)) }
{
    cx.lawful();
    let self_ty = goal.goal.predicate.self_ty(cx);
    let signature = signature(cx, self_ty);
    let arguments = second_argument(cx, goal.goal.predicate.trait_ref.args);
    match (signature, arguments) {
        (Some(inputs_and_output), Some(arguments)) => {
            let candidate = call_candidate(alloc, cx, goal, inputs_and_output, arguments)?;
            Ok(Some(candidate))
        }
        (Some(_), None) => Ok(None),
        (None, _) => Ok(None),
    }
}
