//! Goals under what is assumed, over the interner of a search.

ghost use Rattle.std.specs.Prelude.{◌≡◌, ◌≤◌, true, Any, Err, IfErr, IfOk, length};
ghost use Rattle.type_terms.specs.Promised.Handles.{ArgsHeld};
ghost use Rattle.declarations.specs.Applied.{AreApplied, IsApplied, TraitRefsHeld, references_in};
ghost use Rattle.declarations.specs.Held.{ReferenceHeld};
ghost use Rattle.declarations.specs.Items.{reference_in, written};
ghost use Rattle.infer_table.specs.Goals.{GoalHeld, goal_trees};
ghost use Rattle.sessions.specs.Proving.{SolverAdvances, SolverIsReady};
ghost use Rattle.session_inference.specs.Assuming.{FullInGoal, LacksTerm, bound_over, bounds_over, goal_by};

use crate::assumption::Assumption;
use crate::error::InferenceError;
use crate::making::args_in;
use crate::term_id::TermId;
use crate::terms::terms_at;
use candidate_assembly::decided::args_are_for_trait;
use candidate_assembly::solver::Solver;
use infer_table::goal::Goal;
use sessions::{elaborate_in, goal_under, references_are_goals};
use solver_graph::{SolverCx, context_laws};
use term_folds::predicate::TraitRef;
use type_terms::TraitId;
use type_terms::kinds::GenericArgKind;

/// Terms with their numbers, and what is assumed of them.
#[derive(Clone, Copy)]
pub(crate) struct Stated<'a> {
    pub terms: &'a [GenericArgKind],
    pub assumptions: &'a [Assumption],
}

/// The trait reference of these terms, by their numbers.
fn reference_at(
    cx: &mut SolverCx<Solver>,
    terms: &[GenericArgKind],
    trait_id: TraitId,
    ids: &[TermId],
) -> Result<TraitRef, InferenceError>
    requires ready { SolverIsReady cx.old }
    requires terms { ArgsHeld cx.old.interner.entries terms.now }
    ensures advances { SolverAdvances cx.old cx.new }
    ensures held { IfOk result (ReferenceHeld cx.new.interner.entries) }
    ensures is { IfOk result (λ r. reference_in cx.new.interner.entries r ≡ bound_over cx.old.interner.entries terms.now trait_id.index ids.now) }
    ensures none { result ≡ Err InferenceError.NoSuchTerm → Any (λ id. length terms.now ≤ id.index) ids.now }
    ensures fault { IfErr result (FullInGoal cx.new.interner) }
{
    context_laws::<Solver>();
    let list = terms_at(cx.alloc, terms, ids)?;
    let args = args_in(cx, list)?;
    Ok(TraitRef {
        def_id: trait_id,
        args,
    })
}

/// What is assumed.
fn assumed_in(
    cx: &mut SolverCx<Solver>,
    stated: Stated<'_>,
) -> Result<Vec<TraitRef>, InferenceError>
    requires ready { SolverIsReady cx.old }
    requires terms { ArgsHeld cx.old.interner.entries stated.terms.now }
    ensures advances { SolverAdvances cx.old cx.new }
    ensures held { IfOk result (λ v. TraitRefsHeld cx.new.interner.entries v.items) }
    ensures are { IfOk result (λ v. references_in cx.new.interner.entries v.items
        ≡ bounds_over cx.old.interner.entries stated.entry.terms.now stated.entry.assumptions.now) }
    ensures none { result ≡ Err InferenceError.NoSuchTerm
        → Any (λ a. Any (λ id. length stated.entry.terms.now ≤ id.index) a.args.items) stated.entry.assumptions.now }
    ensures fault { IfErr result (FullInGoal cx.new.interner) }
{
    context_laws::<Solver>();
    let mut references = Vec::new(cx.alloc);
    'assumptions: for assumption in stated.assumptions {
        let reference = reference_at(cx, stated.terms, assumption.trait_id, &assumption.args)?;
        references.push(reference)?;
    }
    Ok(references)
}

/// Whether the trait reference has an argument of its kind for each parameter of its trait.
fn is_applied(cx: &SolverCx<Solver>, reference: TraitRef) -> bool
    requires { ReferenceHeld cx.now.interner.entries reference }
    ensures { result ≡ true → IsApplied cx.now.interner.entries cx.now.handler.declarations reference }
{
    args_are_for_trait(
        &cx.interner,
        &cx.handler.declarations,
        reference.def_id,
        reference.args,
    ) && cx.interner.outer_exclusive_binder(reference.args).index == 0
}

/// Whether each of them has.
fn are_applied(cx: &SolverCx<Solver>, references: &[TraitRef]) -> bool
    requires { TraitRefsHeld cx.now.interner.entries references.now }
    ensures { result ≡ true → AreApplied cx.now.interner.entries cx.now.handler.declarations references.now }
{
    let mut left = references;
    'references: while let Some((reference, others)) = left.split_first() {
        if !is_applied(cx, *reference) {
            return false;
        }
        left = others;
    }
    true
}

/// The goal to prove that these terms implement this trait, under what is assumed with all its supertraits. Fails with `WrongParts` if
/// something is assumed that does not have its trait's arguments in number and kind.
pub(crate) fn goal_in(
    cx: &mut SolverCx<Solver>,
    stated: Stated<'_>,
    trait_id: TraitId,
    ids: &[TermId],
) -> Result<Goal, InferenceError>
    requires ready { SolverIsReady cx.old }
    requires terms { ArgsHeld cx.old.interner.entries stated.terms.now }
    ensures advances { SolverAdvances cx.old cx.new }
    ensures held { IfOk result (GoalHeld cx.new.interner.entries) }
    ensures is { IfOk result (λ goal. goal_trees cx.new.interner.entries goal
        ≡ goal_by (written cx.old.interner.entries cx.old.handler.declarations) cx.old.interner.entries stated.entry.terms.now stated.entry.assumptions.now trait_id.index ids.now) }
    ensures none { result ≡ Err InferenceError.NoSuchTerm → LacksTerm stated.entry.terms.now stated.entry.assumptions.now ids.now }
    ensures fault { IfErr result (FullInGoal cx.new.interner) }
{
    context_laws::<Solver>();
    references_are_goals();
    let asked = reference_at(cx, stated.terms, trait_id, ids)?;
    let assumed = assumed_in(cx, stated)?;
    if !are_applied(cx, &assumed) {
        return Err(InferenceError::WrongParts);
    }
    let clauses = elaborate_in(cx, &assumed)?;
    let goal = goal_under(cx.alloc, &clauses, asked)?;
    Ok(goal)
}
