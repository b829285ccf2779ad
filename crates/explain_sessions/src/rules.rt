//! The candidates of a trace that are rules: their goals follow from their nested goals, by their impls or by built-in rules. And those
//! that may apply: instances of their goals follow.
//!
//! With `impl<T> Show for V<T> where T: Show`, the candidate of `V<u8>: Show` with the nested goal `u8: Show` is a rule. The candidate of
//! `V<?x>: Show` by `impl Show for V<u8>` may apply.

ghost use Rattle.std.specs.Prelude.{◌≡◌, true, List, [], ◌∷◌, ◌++◌, if◌then◌else◌, Some, IfOk, IfSome, OnOk};
ghost use Rattle.std.specs.List.{AllZip, slice_get};
ghost use Rattle.sessions.specs.TypeTerms.Promised.Rules.{by_impl};
ghost use Rattle.sessions.specs.TypeTerms.Promised.Worlds.{Reference};
ghost use Rattle.sessions.specs.TypeTerms.Growth.{Grew};
ghost use Rattle.sessions.specs.Declarations.Applied.{TraitRefsHeld};
ghost use Rattle.sessions.specs.Declarations.Held.{ReferenceHeld};
ghost use Rattle.sessions.specs.Declarations.Items.{declared};
ghost use Rattle.sessions.specs.InferTable.Content.{Ready};
ghost use Rattle.sessions.specs.CandidateAssembly.Ready.{AreReadyDeclarations};
ghost use Rattle.explain_traces.specs.Walking.{ReferencesHeld};
ghost use Rattle.sessions.specs.ProofChecker.Checked.{IsConcludedFrom};
ghost use Rattle.sessions.specs.ProofChecker.Steps.{term_of, terms_of};
ghost use Rattle.sessions.specs.Checking.{rules_in};
ghost use Rattle.sessions.specs.Promised.Promises.{view_in};
ghost use Rattle.sessions.specs.Proving.{SolverAdvances, SolverIsReady};
ghost use Rattle.sessions.specs.Promised.Subjects.{StaysOn};
ghost use Rattle.explain_sessions.specs.Rules.{AreChecked, Concludes, IsRuleAt, IsRuleCandidate, MayApplyAt};
ghost use Rattle.explain_sessions.specs.Walked.{WalkHeld};

use crate::instances::may_follow;
use crate::places::{push_if, reference_at};
use crate::steps::impl_args;
use crate::walks::CheckedCandidates;
use explain_traces::{CandidateNode, GoalWalk};
use sessions::candidate_assembly::solver::Solver;
use sessions::declarations::declarations::Declarations;
use sessions::declarations::laws::declarations_are_kept;
use sessions::goal_evaluator::CandidateSource;
use sessions::infer_table::infer_ctxt::InferCtxt;
use sessions::proof_checker::links::{follows_by_built_in, follows_by_impl};
use sessions::proof_checker::steps::ImplSource;
use sessions::solver_graph::SolverCx;
use sessions::term_folds::predicate::TraitRef;
use sessions::type_terms::interner::Interner;
use sessions::type_terms::{Fault, ImplId};
use sessions::{Session, ready_impls_are_written_well};
use std::alloc::{AllocError, Global};

/// The trait references at these indices. `None` if there is none at one of them.
fn references_at(
    alloc: Global,
    references: &[TraitRef],
    places: &[usize],
) -> Result<Option<Vec<TraitRef>>, AllocError>
    ensures { IfOk result (λ o. IfSome o (λ v. AllZip (λ k r. slice_get references.now k ≡ Some r) places.now v.items)) }
{
    let mut found = Vec::new(alloc);
    for place in places {
        match reference_at(references, *place) {
            Some(reference) => found.push(reference)?,
            None => return Ok(None),
        }
    }
    Ok(Some(found))
}

/// Whether a trait reference follows by an impl from premises that begin with these.
fn follows_by(
    cx: &mut Interner,
    declarations: &Declarations,
    table: &mut InferCtxt,
    reference: TraitRef,
    id: ImplId,
    premises: &[TraitRef],
) -> Result<bool, Fault>
    requires ready { AreReadyDeclarations cx.old.entries declarations.now }
    requires table { Ready cx.old.entries table.old }
    requires reference { ReferenceHeld cx.old.entries reference }
    requires premises { TraitRefsHeld cx.old.entries premises.now }
    ensures grew { Grew cx.old cx.new }
    ensures table { Ready cx.new.entries table.new }
    ensures follows { IfOk result (λ b. b ≡ true → (E : List Reference) → IsConcludedFrom (declared cx.old.entries declarations.now) E
        (term_of cx.old.entries reference) (by_impl id.index) (terms_of cx.old.entries premises.now)) }
{
    let alloc = cx.allocator();
    ready_impls_are_written_well();
    declarations_are_kept();
    let Some(def) = declarations.impl_def(id) else {
        return Ok(false);
    };
    let Some(args) = impl_args(alloc, cx, table, def, reference)? else {
        return Ok(false);
    };
    let source = ImplSource {
        impl_def_id: id,
        args,
    };
    follows_by_impl(alloc, cx, declarations, reference, source, premises)
}

/// Whether a trait reference follows by the source of a candidate, an impl or a built-in rule, from premises that begin with these.
fn concludes(
    cx: &mut Interner,
    declarations: &Declarations,
    table: &mut InferCtxt,
    source: CandidateSource,
    reference: TraitRef,
    premises: &[TraitRef],
) -> Result<bool, Fault>
    requires ready { AreReadyDeclarations cx.old.entries declarations.now }
    requires table { Ready cx.old.entries table.old }
    requires reference { ReferenceHeld cx.old.entries reference }
    requires premises { TraitRefsHeld cx.old.entries premises.now }
    ensures grew { Grew cx.old cx.new }
    ensures table { Ready cx.new.entries table.new }
    ensures concludes { IfOk result
        (λ b. b ≡ true → Concludes cx.old.entries (declared cx.old.entries declarations.now) source reference premises.now) }
{
    let alloc = cx.allocator();
    match source {
        CandidateSource::Impl(id) => {
            follows_by(cx, declarations, table, reference, id, premises)
        }
        CandidateSource::BuiltinImpl(_) => {
            follows_by_built_in(alloc, cx, declarations, reference, premises)
        }
        CandidateSource::ParamEnv(_) => Ok(false),
        CandidateSource::CoherenceUnknowable => Ok(false),
    }
}

/// Whether the goal at this index follows by the source of a candidate from its nested goals, and maybe further ones.
fn is_rule(
    cx: &mut Interner,
    declarations: &Declarations,
    table: &mut InferCtxt,
    walk: &GoalWalk,
    place: usize,
    candidate: &CandidateNode,
) -> Result<bool, Fault>
    requires ready { AreReadyDeclarations cx.old.entries declarations.now }
    requires table { Ready cx.old.entries table.old }
    requires walked { ReferencesHeld cx.old.entries walk.now.references.items }
    ensures grew { Grew cx.old cx.new }
    ensures table { Ready cx.new.entries table.new }
    ensures rule { IfOk result (λ b. b ≡ true
        → IsRuleCandidate cx.old.entries (declared cx.old.entries declarations.now) walk.now.references.items place candidate.now) }
{
    let alloc = cx.allocator();
    let Some(reference) = reference_at(&walk.references, place) else {
        return Ok(false);
    };
    let Some(premises) = references_at(alloc, &walk.references, &candidate.premises)? else {
        return Ok(false);
    };
    concludes(
        cx,
        declarations,
        table,
        candidate.source,
        reference,
        &premises,
    )
}

/// The same for the candidate with this number, of the goal at this index.
fn is_rule_at(
    cx: &mut Interner,
    declarations: &Declarations,
    table: &mut InferCtxt,
    walk: &GoalWalk,
    at: (usize, usize),
) -> Result<bool, Fault>
    requires ready { AreReadyDeclarations cx.old.entries declarations.now }
    requires table { Ready cx.old.entries table.old }
    requires walked { ReferencesHeld cx.old.entries walk.now.references.items }
    ensures grew { Grew cx.old cx.new }
    ensures table { Ready cx.new.entries table.new }
    ensures rule { IfOk result (λ b. b ≡ true → IsRuleAt cx.old.entries (declared cx.old.entries declarations.now) walk.now at) }
{
    let Some(node) = walk.nodes.get(at.0) else {
        return Ok(false);
    };
    let Some(candidate) = node.candidates.get(at.1) else {
        return Ok(false);
    };
    is_rule(cx, declarations, table, walk, at.0, candidate)
}

/// Whether the candidate with this number, of the goal at this index, may apply: it is by an impl, and an instance of the goal follows by
/// it.
fn may_apply_at(
    alloc: Global,
    cx: &mut Interner,
    declarations: &Declarations,
    walk: &GoalWalk,
    at: (usize, usize),
) -> Result<bool, Fault>
    requires ready { AreReadyDeclarations cx.old.entries declarations.now }
    requires walked { ReferencesHeld cx.old.entries walk.now.references.items }
    ensures grew { Grew cx.old cx.new }
    ensures may { IfOk result (λ b. b ≡ true → MayApplyAt cx.old.entries (declared cx.old.entries declarations.now) walk.now at) }
{
    let Some(node) = walk.nodes.get(at.0) else {
        return Ok(false);
    };
    let Some(candidate) = node.candidates.get(at.1) else {
        return Ok(false);
    };
    let Some(reference) = reference_at(&walk.references, at.0) else {
        return Ok(false);
    };
    match candidate.source {
        CandidateSource::Impl(id) => may_follow(alloc, cx, declarations, reference, id),
        CandidateSource::BuiltinImpl(_) => Ok(false),
        CandidateSource::ParamEnv(_) => Ok(false),
        CandidateSource::CoherenceUnknowable => Ok(false),
    }
}

/// The candidates of a trace, by the indices of their goals and their numbers there.
fn candidates_of(alloc: Global, walk: &GoalWalk) -> Result<Vec<(usize, usize)>, AllocError> {
    let mut found = Vec::new(alloc);
    for (place, node) in walk.nodes.iter().enumerate() {
        for number in 0..node.candidates.len() {
            found.push((place, number))?;
        }
    }
    Ok(found)
}

/// Those of these candidates that are rules, and those of the others that may apply.
fn checked_among(
    alloc: Global,
    cx: &mut Interner,
    declarations: &Declarations,
    table: &mut InferCtxt,
    walk: &GoalWalk,
    candidates: &[(usize, usize)],
) -> Result<CheckedCandidates, Fault>
    requires ready { AreReadyDeclarations cx.old.entries declarations.now }
    requires table { Ready cx.old.entries table.old }
    requires walked { ReferencesHeld cx.old.entries walk.now.references.items }
    ensures grew { Grew cx.old cx.new }
    ensures checked { IfOk result (AreChecked cx.old.entries (declared cx.old.entries declarations.now) walk.now) }
{
    declarations_are_kept();
    let mut rules = Vec::new(alloc);
    let mut chances = Vec::new(alloc);
    for at in candidates {
        let is_rule = is_rule_at(cx, declarations, table, walk, *at)?;
        push_if(&mut rules, *at, is_rule)?;
        let may_apply = may_apply_at(alloc, cx, declarations, walk, *at)?;
        push_if(&mut chances, *at, may_apply)?;
    }
    Ok(CheckedCandidates { rules, chances })
}

/// The same over the interner of a context, for all candidates of a trace.
fn checked_in(cx: &mut SolverCx<Solver>, walk: &GoalWalk) -> Result<CheckedCandidates, Fault>
    requires ready { SolverIsReady cx.old }
    requires walked { ReferencesHeld cx.old.interner.entries walk.now.references.items }
    ensures advances { SolverAdvances cx.old cx.new }
    ensures checked { IfOk result (AreChecked cx.old.interner.entries (rules_in cx.old) walk.now) }
{
    let candidates = candidates_of(cx.alloc, walk)?;
    let mut table = InferCtxt::new(cx.alloc);
    let declarations = &cx.handler.declarations;
    let checked = checked_among(
        cx.alloc,
        &mut cx.interner,
        declarations,
        &mut table,
        walk,
        &candidates,
    );
    cx.interner.lawful();
    checked
}

/// Which candidates of a trace are rules by what the session's crate sees, and which may apply.
///
/// - A rule: the goal follows by the candidate's impl, or by a built-in rule, from its nested goals, and maybe further ones after them.
/// - A candidate by an impl may apply: an instance of its goal follows by that impl, whatever its where-clauses are. An instance is the
///   goal with some types, lifetimes and constants for its variables.
///
/// A candidate that is not named may be a rule too, for example if the impl needs values for variables of its goal, or if the built-in rule
/// is not checked. Fails with `Memory` if memory is refused, or with `Full` if a table of the session is full.
pub(crate) fn checked_candidates(
    session: &mut Session<'_>,
    walk: &GoalWalk,
) -> Result<CheckedCandidates, Fault>
    requires { WalkHeld session.old.terms walk.now }
    ensures checked { IfOk result
        (AreChecked session.old.terms (view_in session.old.declarations session.old.of_crate) walk.now) }
    ensures held { WalkHeld session.new.terms walk.now }
    ensures stays { StaysOn session.old session.new }
{
    checked_in(&mut session.search.cx, walk)
}
