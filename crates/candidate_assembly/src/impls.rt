//! Candidates by impls. For the goal `V<u8>: Show`, the candidate by `impl<T> Show for V<T> where T: Show` equates `V<?0>` with `V<u8>`,
//! and `?0: Show` is its nested goal.
ghost use Rattle.type_terms.specs.Growth.{GrewOrFull};
ghost use Rattle.std.specs.Prelude.{◌≡◌, map, IfOk, IfSome, option_map};
ghost use Rattle.std.specs.List.{slice_get};
ghost use Rattle.type_terms.specs.Promised.Worlds.{World};
ghost use Rattle.type_terms.specs.Promised.Handles.{trees_at};
ghost use Rattle.term_folds.specs.Signatures.{StartsWithType};
ghost use Rattle.infer_table.specs.Goals.{GoalHeld};
ghost use Rattle.goal_evaluator.specs.Readings.{SpecHeld};
ghost use Rattle.declarations.specs.Applied.{references_in, TraitRefsHeld};
ghost use Rattle.declarations.specs.Items.{reference_in, impl_in, written};
ghost use Rattle.declarations.specs.Held.{AreHeld, ImplHeld, ReferenceHeld};
ghost use Rattle.declarations.specs.Merges.{Rises};
ghost use Rattle.declarations.specs.Relevant.{next_above};
ghost use Rattle.candidate_model.specs.Candidates.{rules_behind, by_the_impl, by_impls};
ghost use Rattle.built_in_candidates.specs.Goals.{asked_of, candidate_of};
ghost use Rattle.candidate_assembly.specs.Headers.{var_kind, StandInHeader, SpeaksOfParameters, HaveCandidates, impls_above, matching_in};

use crate::instances::{variable_kinds, variables_behind};
use built_in_candidates::parts::nested_goals;
use built_in_candidates::relate::relate_args;
use declarations::arguments::{all_with_arguments, with_arguments};
use declarations::declarations::Declarations;
use declarations::items::ImplDef;
use goal_evaluator::{CandidateSource, CandidateSpec, Certainty, GoalSource};
use infer_table::canonical::CanonicalVarKind;
use infer_table::input::CanonicalInput;
use std::alloc::Global;
use term_folds::predicate::TraitRef;
use type_terms::interner::Interner;
use type_terms::{Fault, ImplId};

/// An impl with variables for its parameters: their kinds, its header and its where-clauses.
#[derive(Drop)]
struct Instance {
    variables: Vec<CanonicalVarKind>,
    header: TraitRef,
    clauses: Vec<TraitRef>,
}

/// The impl with variables for its parameters, numbered after this many others.
fn instance_behind(
    alloc: Global,
    cx: &mut Interner,
    others: usize,
    def: &ImplDef,
) -> Result<Instance, Fault>
    requires held { ImplHeld cx.old.entries def.now }
    requires speaks { SpeaksOfParameters cx.old.entries def.now }
    ensures terms { GrewOrFull cx.old cx.new result }
    ensures header_held { IfOk result (λ n. ReferenceHeld cx.new.entries n.header) }
    ensures clauses_held { IfOk result (λ n. TraitRefsHeld cx.new.entries n.clauses.items) }
    ensures variables { IfOk result (λ n. n.variables.items ≡ map var_kind def.now.params.items) }
    ensures header { IfOk result (λ n. reference_in cx.new.entries n.header ≡ rules_behind others (reference_in cx.old.entries def.now.header)) }
    ensures clauses { IfOk result (λ n. references_in cx.new.entries n.clauses.items
        ≡ map (rules_behind others) (references_in cx.old.entries def.now.clauses.items)) }
{
    let variables = variable_kinds(alloc, &def.params)?;
    let values = variables_behind(alloc, cx, others, &variables)?;
    let args = cx.mk_args(values)?;
    let header = with_arguments(alloc, cx, def.header, args)?;
    let clauses = all_with_arguments(alloc, cx, &def.clauses, args)?;
    Ok(Instance {
        variables,
        header,
        clauses,
    })
}

/// The candidate by an impl. Its parameters are variables after those of the goal, the goal's arguments are equated with those of the
/// header, and the where-clauses are nested goals.
///
/// Fails with `Memory`, or with `Full` if a table of the interner is full. rustc: `consider_impl_candidate`.
pub fn consider_impl_candidate(
    alloc: Global,
    cx: &mut Interner,
    goal: &CanonicalInput,
    id: ImplId,
    def: &ImplDef,
) -> Result<CandidateSpec, Fault>
    requires goal { GoalHeld cx.old.entries goal.now.goal }
    requires held { ImplHeld cx.old.entries def.now }
    requires params { StandInHeader cx.old.entries def.now }
    requires speaks { SpeaksOfParameters cx.old.entries def.now }
    ensures terms { GrewOrFull cx.old cx.new result }
    ensures held { IfOk result (SpecHeld cx.new.entries) }
    ensures is { IfOk result (λ s. (V : World)
        → candidate_of V goal.now.goal.predicate.trait_ref.def_id.index cx.new.entries s
        ≡ by_the_impl V (asked_of cx.old.entries goal.now) (impl_in cx.old.entries id def.now)) }
{
    let instance = instance_behind(alloc, cx, goal.variables.len(), def)?;
    let asked = goal.goal.predicate.trait_ref.args;
    let equations = relate_args(alloc, cx, asked, instance.header.args)?;
    let nested_goals = nested_goals(alloc, goal, GoalSource::ImplWhereBound, &instance.clauses)?;
    Ok(CandidateSpec {
        source: CandidateSource::Impl(id),
        variables: instance.variables,
        equations,
        region_constraints: Vec::new(alloc),
        nested_goals,
        certainty: Certainty::Yes,
    })
}

/// The impl with the lowest number above `last` that can match the goal: its self type is a parameter or has the same head as the goal's,
/// and its arguments and the goal's are not disjoint. rustc: `DeepRejectCtxt`.
///
/// A goal without variables finds an equal header by its handle, and looks at no other header without variables.
fn next_matching_impl(
    cx: &Interner,
    declarations: &Declarations,
    goal: &CanonicalInput,
    last: Option<ImplId>,
) -> Option<ImplId>
    requires goal { GoalHeld cx.now.entries goal.now.goal }
    requires first { StartsWithType (trees_at cx.now.entries goal.now.goal.predicate.trait_ref.args.0) }
    requires declared { AreHeld cx.now.entries declarations.now }
    requires impls { HaveCandidates cx.now.entries declarations.now }
    ensures is { option_map (λ i. i.index) result ≡ next_above last (matching_in cx.now.entries declarations.now (asked_of cx.now.entries goal.now)) }
    ensures rises { Rises (map (λ i. i.id) declarations.now.impls) }
{
    declarations.next_matching_impl(cx, goal.goal.predicate.trait_ref, last)
}

/// The candidate by the impl with the lowest number above `last` that can match the goal, if there is one. So no impl before the last one
/// is looked at again.
///
/// Fails with `Memory`, or with `Full` if a table of the interner is full. rustc: `assemble_impl_candidates`.
pub fn next_impl_candidate(
    alloc: Global,
    cx: &mut Interner,
    declarations: &Declarations,
    goal: &CanonicalInput,
    last: Option<ImplId>,
) -> Result<Option<CandidateSpec>, Fault>
    requires goal { GoalHeld cx.old.entries goal.now.goal }
    requires first { StartsWithType (trees_at cx.old.entries goal.now.goal.predicate.trait_ref.args.0) }
    requires declared { AreHeld cx.old.entries declarations.now }
    requires impls { HaveCandidates cx.old.entries declarations.now }
    ensures terms { GrewOrFull cx.old cx.new result }
    ensures held { IfOk result (λ o. IfSome o (SpecHeld cx.new.entries)) }
    ensures is { let V = written cx.old.entries declarations.now in
        IfOk result (λ o. option_map (candidate_of V goal.now.goal.predicate.trait_ref.def_id.index cx.new.entries) o
        ≡ slice_get (by_impls V (asked_of cx.old.entries goal.now) (impls_above last V.impls)) 0) }
    ensures rises { Rises (map (λ i. i.id) declarations.now.impls) }
{
    match next_matching_impl(cx, declarations, goal, last) {
        Some(id) => match declarations.impl_def(id) {
            Some(def) => {
                let candidate = consider_impl_candidate(alloc, cx, goal, id, def)?;
                Ok(Some(candidate))
            }
            None => unreachable!(),
        },
        None => Ok(None),
    }
}
