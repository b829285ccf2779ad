//! The goals of a trace that have a proof which the checker accepts, without where-clauses. With `impl<T> Show for V<T> where T: Show` and
//! `impl Show for u8`, `V<u8>: Show` is one, and `V<T>: Show` is none.

ghost use Rattle.std.specs.Prelude.{◌≡◌, [], true, false, List, IfOk};
ghost use Rattle.sessions.specs.TypeTerms.Promised.Handles.{Entry};
ghost use Rattle.sessions.specs.TypeTerms.Promised.Proofs.{HasProof};
ghost use Rattle.sessions.specs.TermFolds.declared.predicate.TraitRef.{TraitRef};
ghost use Rattle.sessions.specs.Declarations.Held.{ReferenceHeld};
ghost use Rattle.sessions.specs.Declarations.Promised.Elaboration.{Each};
ghost use Rattle.sessions.specs.ProofChecker.Steps.{StepHeld, assumed_by, assumed_in, term_of};
ghost use Rattle.explain_traces.specs.Walking.{ReferencesHeld};
ghost use Rattle.sessions.specs.Checking.{rules_in};
ghost use Rattle.sessions.specs.Promised.Promises.{view_in};
ghost use Rattle.sessions.specs.Proving.{SolverAdvances, SolverIsReady};
ghost use Rattle.sessions.specs.Promised.Subjects.{StaysOn};
ghost use Rattle.explain_sessions.specs.Refusals.{HoldsAt};
ghost use Rattle.explain_sessions.specs.Walked.{WalkHeld};

use crate::alone::is_held_alone_at;
use crate::places::{TOLD_LIMIT, is_answered, push_if, reference_at};
use crate::shown::shown_steps;
use crate::steps::steps_in;
use explain_traces::{Answer, GoalWalk};
use sessions::candidate_assembly::solver::Solver;
use sessions::goal_evaluator::MaybeCause;
use sessions::infer_table::infer_ctxt::InferCtxt;
use sessions::proof_checker::checker::is_proof_of;
use sessions::proof_checker::steps::{Step, Way};
use sessions::solver_graph::SolverCx;
use sessions::term_folds::predicate::TraitRef;
use sessions::type_terms::Fault;
use sessions::{Session, ready_impls_are_written_well};

/// Whether a step by this rule instance is assumed.
fn is_assumed(way: Way) -> bool
    ensures { result ≡ false → (es : List Entry) (r : TraitRef) → assumed_by es r way ≡ [] }
{
    match way {
        Way::Impl(_) => false,
        Way::Clause(_) => false,
        Way::Supertrait(_) => false,
        Way::BuiltIn => false,
        Way::Assumed => true,
    }
}

/// Whether no step is assumed.
fn assumes_nothing(steps: &[Step]) -> bool
    ensures { result ≡ true → (es : List Entry) → assumed_in es steps.now ≡ [] }
{
    let mut left = steps;
    'steps: while let Some((step, others)) = left.split_first() {
        if is_assumed(step.way) {
            return false;
        }
        left = others;
    }
    true
}

/// Whether steps are a proof of a trait reference by the declarations of a context, with nothing assumed.
pub(crate) fn is_proved_by(
    cx: &mut SolverCx<Solver>,
    reference: TraitRef,
    steps: &[Step],
) -> Result<bool, Fault>
    requires ready { SolverIsReady cx.old }
    requires held { ReferenceHeld cx.old.interner.entries reference }
    requires steps { Each (StepHeld cx.old.interner.entries) steps.now }
    ensures advances { SolverAdvances cx.old cx.new }
    ensures proof { IfOk result (λ b. b ≡ true → HasProof (rules_in cx.old) [] (term_of cx.old.interner.entries reference)) }
{
    ready_impls_are_written_well();
    if !assumes_nothing(steps) {
        return Ok(false);
    }
    let declarations = &cx.handler.declarations;
    let found = is_proof_of(
        cx.alloc,
        &mut cx.interner,
        declarations,
        &[],
        reference,
        steps,
    );
    cx.interner.lawful();
    found
}

/// Whether the steps of the goal at this index of a trace are such a proof.
fn holds_at(cx: &mut SolverCx<Solver>, walk: &GoalWalk, place: usize) -> Result<bool, Fault>
    requires ready { SolverIsReady cx.old }
    requires walked { ReferencesHeld cx.old.interner.entries walk.now.references.items }
    ensures advances { SolverAdvances cx.old cx.new }
    ensures holds { IfOk result (λ b. b ≡ true → HoldsAt cx.old.interner.entries (rules_in cx.old) walk.now.references.items place) }
{
    let Some(reference) = reference_at(&walk.references, place) else {
        return Ok(false);
    };
    let shown = shown_steps(cx.alloc, walk, place)?;
    let mut table = InferCtxt::new(cx.alloc);
    match steps_in(cx, &mut table, &[], walk, &shown)? {
        Some(steps) => is_proved_by(cx, reference, &steps),
        None => Ok(false),
    }
}

/// The same by what a session's crate sees, if the trace has the goal as proved.
fn is_held_at(session: &mut Session<'_>, walk: &GoalWalk, place: usize) -> Result<bool, Fault>
    requires { WalkHeld session.old.terms walk.now }
    ensures holds { IfOk result (λ b. b ≡ true
        → HoldsAt session.old.terms (view_in session.old.declarations session.old.of_crate) walk.now.references.items place) }
    ensures held { WalkHeld session.new.terms walk.now }
    ensures stays { StaysOn session.old session.new }
{
    if !is_answered(walk, place, Answer::Yes) {
        return Ok(false);
    }
    holds_at(&mut session.search.cx, walk, place)
}

/// The same, where the walk is one in coherence too: a goal that is not settled there is asked alone.
fn is_held(session: &mut Session<'_>, walk: &GoalWalk, place: usize) -> Result<bool, Fault>
    requires { WalkHeld session.old.terms walk.now }
    ensures holds { IfOk result (λ b. b ≡ true
        → HoldsAt session.old.terms (view_in session.old.declarations session.old.of_crate) walk.now.references.items place) }
    ensures held { WalkHeld session.new.terms walk.now }
    ensures stays { StaysOn session.old session.new }
{
    if place < TOLD_LIMIT && is_answered(walk, place, Answer::Maybe(MaybeCause::Ambiguity)) {
        is_held_alone_at(session, walk, place)
    } else {
        is_held_at(session, walk, place)
    }
}

/// Which goals of a walk have a proof without where-clauses by what the session's crate sees, by their places. Unknowns stand for themselves.
///
/// Of those that the walk shows as proved the steps are checked; one that is not settled, as in coherence where other crates may have impls,
/// is asked once more outside it, and the steps of that walk are checked. One that is not named may have a proof too, as where it needs a
/// where-clause or a rule that is not checked. The fault is `Memory` where memory is refused, or `Full` where a table of the session is full.
pub(crate) fn held_goals(session: &mut Session<'_>, walk: &GoalWalk) -> Result<Vec<usize>, Fault>
    requires { WalkHeld session.old.terms walk.now }
    ensures holds { IfOk result (λ ps. Each
        (HoldsAt session.old.terms (view_in session.old.declarations session.old.of_crate) walk.now.references.items) ps.items) }
    ensures held { WalkHeld session.new.terms walk.now }
    ensures stays { StaysOn session.old session.new }
{
    let mut found = Vec::new(session.search.cx.alloc);
    for place in 0..walk.nodes.len() {
        let holds = is_held(session, walk, place)?;
        push_if(&mut found, place, holds)?;
    }
    Ok(found)
}
