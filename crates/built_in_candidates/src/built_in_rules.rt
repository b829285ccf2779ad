//! The candidates by built-in rules, rule after rule.
ghost use Rattle.type_terms.specs.Growth.{GrewOrFull};
ghost use Rattle.std.specs.Prelude.{◌≡◌, ◌==◌, true, List, IfOk, IfSome, option_map};
ghost use Rattle.std.specs.List.{slice_get};
ghost use Rattle.type_terms.specs.Promised.Rules.{unsize, is_auto};
ghost use Rattle.type_terms.specs.Promised.Handles.{Entry, trees_at};
ghost use Rattle.goal_evaluator.specs.Readings.{SpecHeld};
ghost use Rattle.declarations.specs.Items.{written};
ghost use Rattle.declarations.specs.Applied.{HaveBounds};
ghost use Rattle.candidate_model.specs.Asking.{self_of};
ghost use Rattle.candidate_model.specs.Candidates.{built_in};
ghost use Rattle.built_in_candidates.specs.Goals.{asked_of, candidate_of};
ghost use Rattle.built_in_candidates.specs.Constituents.{CanBeConsidered, candidates_of};
ghost use Rattle.built_in_candidates.specs.BuiltIn.{HavePlainHeads};
ghost use Rattle.built_in_candidates.specs.Objects.{ObjectIsApplied};
ghost use Rattle.built_in_candidates.specs.Unsizing.{CanUnsize};
ghost use Rattle.built_in_candidates.specs.BuiltInRules.{speaks_of, of_rule, by_the_rule, IsBehind};

use crate::built_in::{
    consider_auto_trait_candidate, consider_builtin_copy_clone_candidate,
    consider_builtin_fn_ptr_trait_candidate, consider_builtin_sized_candidate,
    consider_builtin_tuple_candidate,
};
use crate::calls::consider_builtin_fn_trait_candidates;
use crate::unsize::consider_builtin_unsize_candidate;
use declarations::core_traits::{CLONE, COPY, FN, FN_MUT, FN_ONCE, FN_PTR, SIZED, TUPLE};
use declarations::declarations::Declarations;
use goal_evaluator::CandidateSpec;
use infer_table::input::CanonicalInput;
use std::alloc::Global;
use type_terms::interner::Interner;
use type_terms::{Fault, TraitId};

/// The built-in rules that give at most one candidate.
#[derive(Clone, Copy)]
enum BuiltInRule {
    Sized,
    CopyClone,
    AutoTrait,
    Tuple,
    FnPtr,
    Calls,
}

/// Whether the trait is an auto trait. rustc: `trait_is_auto`.
pub fn is_auto(declarations: &Declarations, def_id: TraitId) -> bool
    ensures { (es : List Entry) → result ≡ is_auto (written es declarations.now) def_id.index }
{
    match declarations.trait_def(def_id) {
        Some(def) => def.is_auto,
        None => false,
    }
}

fn speaks_of(declarations: &Declarations, rule: BuiltInRule, def_id: TraitId) -> bool
    ensures { (es : List Entry) → result ≡ speaks_of (written es declarations.now) def_id.index rule }
{
    let number = def_id.index;
    match rule {
        BuiltInRule::Sized => number == SIZED,
        BuiltInRule::CopyClone => number == COPY || number == CLONE,
        BuiltInRule::AutoTrait => is_auto(declarations, def_id),
        BuiltInRule::Tuple => number == TUPLE,
        BuiltInRule::FnPtr => number == FN_PTR,
        BuiltInRule::Calls => number == FN_ONCE || (number == FN_MUT || number == FN),
    }
}

/// The candidate by the rule. The goal's trait is one of the rule's.
fn consider_rule_for(
    alloc: Global,
    cx: &mut Interner,
    declarations: &Declarations,
    goal: &CanonicalInput,
    rule: BuiltInRule,
) -> Result<Option<CandidateSpec>, Fault>
    requires considered { CanBeConsidered cx.old.entries declarations.now goal.now }
    requires impls { HavePlainHeads cx.old.entries declarations.now }
    ensures terms { GrewOrFull cx.old cx.new result }
    ensures held { IfOk result (λ o. IfSome o (SpecHeld cx.new.entries)) }
    ensures is { let V = written cx.old.entries declarations.now in
        IfOk result (λ o. candidates_of V goal.now.goal.predicate.trait_ref.def_id.index cx.new.entries o ≡ of_rule V (asked_of cx.old.entries goal.now) rule) }
{
    match rule {
        BuiltInRule::Sized => consider_builtin_sized_candidate(alloc, cx, declarations, goal),
        BuiltInRule::CopyClone => consider_builtin_copy_clone_candidate(alloc, cx, goal),
        BuiltInRule::AutoTrait => consider_auto_trait_candidate(alloc, cx, declarations, goal),
        BuiltInRule::Tuple => consider_builtin_tuple_candidate(alloc, cx, goal),
        BuiltInRule::FnPtr => consider_builtin_fn_ptr_trait_candidate(alloc, cx, goal),
        BuiltInRule::Calls => consider_builtin_fn_trait_candidates(alloc, cx, goal),
    }
}

/// The candidate by the rule, if the rule applies to the goal's trait and gives one.
fn consider_rule(
    alloc: Global,
    cx: &mut Interner,
    declarations: &Declarations,
    goal: &CanonicalInput,
    rule: BuiltInRule,
) -> Result<Option<CandidateSpec>, Fault>
    requires considered { CanBeConsidered cx.old.entries declarations.now goal.now }
    requires impls { HavePlainHeads cx.old.entries declarations.now }
    ensures terms { GrewOrFull cx.old cx.new result }
    ensures held { IfOk result (λ o. IfSome o (SpecHeld cx.new.entries)) }
    ensures is { let V = written cx.old.entries declarations.now in
        IfOk result (λ o. candidates_of V goal.now.goal.predicate.trait_ref.def_id.index cx.new.entries o
        ≡ by_the_rule V (asked_of cx.old.entries goal.now) rule) }
{
    if speaks_of(declarations, rule, goal.goal.predicate.trait_ref.def_id) {
        consider_rule_for(alloc, cx, declarations, goal, rule)
    } else {
        Ok(None)
    }
}

/// The index among the candidates after this one. Returns `None` if the index is that of this candidate.
fn place_behind(candidate: &Option<CandidateSpec>, place: usize) -> Option<usize>
    ensures { IsBehind candidate.now place result }
{
    match candidate {
        Some(_) => { if place == 0 { None } else { Some(place - 1) } }
        None => Some(place),
    }
}

/// The candidate with this index among those by built-in rules, if there is one. rustc: `assemble_builtin_impl_candidates`.
///
/// No goal has many of them. A trait has at most one rule of its own, in addition to the rule of auto traits. Only upcasts give more
/// than one candidate.
pub fn consider_builtin_candidate(
    alloc: Global,
    cx: &mut Interner,
    declarations: &Declarations,
    goal: &CanonicalInput,
    place: usize,
) -> Result<Option<CandidateSpec>, Fault>
    requires considered { CanBeConsidered cx.old.entries declarations.now goal.now }
    requires impls { HavePlainHeads cx.old.entries declarations.now }
    requires bounds { HaveBounds cx.old.entries declarations.now }
    requires object { ObjectIsApplied declarations.now (trees_at cx.old.entries goal.now.goal.predicate.trait_ref.args.0) }
    requires unsizing { (goal.now.goal.predicate.trait_ref.def_id.index == unsize) ≡ true
        → CanUnsize declarations.now (self_of (asked_of cx.old.entries goal.now)) }
    ensures terms { GrewOrFull cx.old cx.new result }
    ensures held { IfOk result (λ o. IfSome o (SpecHeld cx.new.entries)) }
    ensures is { let V = written cx.old.entries declarations.now in let a = asked_of cx.old.entries goal.now in
        IfOk result (λ o. option_map (candidate_of V a.reference.trait cx.new.entries) o ≡ slice_get (built_in V a) place) }
{
    let rules = [
        BuiltInRule::Sized,
        BuiltInRule::CopyClone,
        BuiltInRule::AutoTrait,
        BuiltInRule::Tuple,
        BuiltInRule::FnPtr,
        BuiltInRule::Calls,
    ];
    let mut before = place;
    let mut left: &[BuiltInRule] = &rules;
    'rules: while let Some((rule, others)) = left.split_first() {
        let candidate = consider_rule(alloc, cx, declarations, goal, *rule)?;
        match place_behind(&candidate, before) {
            Some(place) => {
                before = place;
                left = others;
            }
            None => return Ok(candidate),
        }
    }
    consider_builtin_unsize_candidate(alloc, cx, declarations, goal, before)
}
