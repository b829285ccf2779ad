//! Candidates by where-clauses.
ghost use Rattle.type_terms.specs.Growth.{GrewOrFull};
ghost use Rattle.std.specs.Prelude.{◌≡◌, IfOk, IfSome, option_map};
ghost use Rattle.std.specs.List.{slice_get};
ghost use Rattle.type_terms.specs.Promised.Worlds.{World};
ghost use Rattle.term_folds.specs.Clauses.{ClauseHeld};
ghost use Rattle.infer_table.specs.Goals.{GoalHeld, ClausesHeld};
ghost use Rattle.goal_evaluator.specs.Readings.{SpecHeld};
ghost use Rattle.declarations.specs.Items.{reference_in};
ghost use Rattle.declarations.specs.Held.{ReferenceHeld};
ghost use Rattle.candidate_model.specs.Asking.{clauses};
ghost use Rattle.candidate_model.specs.Candidates.{clause_source, by_clauses};
ghost use Rattle.built_in_candidates.specs.Goals.{asked_of, candidate_of};
ghost use Rattle.candidate_assembly.specs.Clauses.{reference_of, references_to};

use crate::visitors::has_open_places;
use built_in_candidates::parts::by_rule;
use built_in_candidates::relate::{can_be, relate_args};
use goal_evaluator::{CandidateSource, CandidateSpec, ParamEnvSource};
use infer_table::input::CanonicalInput;
use std::alloc::Global;
use term_folds::predicate::{Clause, TraitRef};
use type_terms::Fault;
use type_terms::interner::Interner;

/// Whether a where-clause is global: it holds no parameter, variable or bound variable, and no lifetime but `'static`. Its flags say so.
///
/// rustc: `characterize_param_env_assumption`, which uses a visitor (`FindParamInClause`).
fn clause_source(cx: &Interner, trait_ref: TraitRef) -> ParamEnvSource
    requires { ReferenceHeld cx.now.entries trait_ref }
    ensures { result ≡ clause_source (reference_in cx.now.entries trait_ref) }
{
    if has_open_places(cx, trait_ref.args) {
        ParamEnvSource::NonGlobal
    } else {
        ParamEnvSource::Global
    }
}

fn reference_of(cx: &Interner, asked: TraitRef, clause: &Clause) -> Option<TraitRef>
    requires asked { ReferenceHeld cx.now.entries asked }
    requires held { ClauseHeld cx.now.entries clause.now }
    ensures { result ≡ reference_of cx.now.entries (reference_in cx.now.entries asked) clause.now }
{
    match clause {
        Clause::Trait(predicate) => {
            if can_be(cx, asked, predicate.trait_ref) {
                Some(predicate.trait_ref)
            } else {
                None
            }
        }
        Clause::RegionOutlives(_, _) => None,
        Clause::TypeOutlives(_, _) => None,
    }
}

/// The trait reference at this index among those that can be the one that is asked.
fn reference_at(
    cx: &Interner,
    clauses: &[Clause],
    asked: TraitRef,
    place: usize,
) -> Option<TraitRef>
    requires asked { ReferenceHeld cx.now.entries asked }
    requires held { ClausesHeld cx.now.entries clauses.now }
    ensures { result ≡ slice_get (references_to cx.now.entries (reference_in cx.now.entries asked) clauses.now) place }
{
    let mut before = place;
    let mut left = clauses;
    'clauses: while let Some((clause, others)) = left.split_first() {
        left = others;
        match reference_of(cx, asked, clause) {
            Some(trait_ref) => {
                if before == 0 {
                    return Some(trait_ref);
                }
                before -= 1;
            }
            None => {}
        }
    }
    None
}

/// The candidate by the where-clause at this index among those that can be the goal, if there is one. It holds if the arguments are equal.
///
/// Fails with `Memory`, or with `Full` if a table of the interner is full. rustc: `consider_param_env_candidate`.
pub fn consider_param_env_candidate(
    alloc: Global,
    cx: &mut Interner,
    goal: &CanonicalInput,
    place: usize,
) -> Result<Option<CandidateSpec>, Fault>
    requires { GoalHeld cx.old.entries goal.now.goal }
    ensures terms { GrewOrFull cx.old cx.new result }
    ensures held { IfOk result (λ o. IfSome o (SpecHeld cx.new.entries)) }
    ensures is { IfOk result (λ o. (V : World) → option_map (candidate_of V goal.now.goal.predicate.trait_ref.def_id.index cx.new.entries) o
        ≡ slice_get (by_clauses V (asked_of cx.old.entries goal.now) (clauses (asked_of cx.old.entries goal.now))) place) }
{
    let asked = goal.goal.predicate.trait_ref;
    match reference_at(cx, &goal.goal.param_env, asked, place) {
        Some(trait_ref) => {
            let source = CandidateSource::ParamEnv(clause_source(cx, trait_ref));
            let equations = relate_args(alloc, cx, asked.args, trait_ref.args)?;
            let candidate = by_rule(alloc, goal, source, equations, &[])?;
            Ok(Some(candidate))
        }
        None => Ok(None),
    }
}
