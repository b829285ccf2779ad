//! Which goals of a walk hold, asked alone outside coherence.

ghost use Rattle.std.specs.Prelude.{◌≡◌, [], true, IfOk, IfSome};
ghost use Rattle.sessions.specs.TypeTerms.Promised.Proofs.{HasProof};
ghost use Rattle.sessions.specs.Declarations.Held.{ReferenceHeld};
ghost use Rattle.sessions.specs.ProofChecker.Steps.{term_of};
ghost use Rattle.sessions.specs.Checking.{rules_in};
ghost use Rattle.sessions.specs.Promised.Promises.{view_in};
ghost use Rattle.sessions.specs.Sessions.{SolverRests};
ghost use Rattle.sessions.specs.Promised.Subjects.{StaysOn};
ghost use Rattle.explain_sessions.specs.Refusals.{HoldsAt};
ghost use Rattle.explain_sessions.specs.Walked.{ProofWalkHeld, RestsAfter, WalkHeld};

use crate::holding::is_proved_by;
use crate::places::reference_at;
use crate::refusals::goal_table_in;
use crate::steps::with_steps;
use crate::unknowns::is_of_table;
use crate::walking::{bare_goal, walk_alone};
use crate::walks::ProofWalk;
use explain_traces::{GoalWalk, TracedGoal};
use sessions::Session;
use sessions::candidate_assembly::solver::Solver;
use sessions::goal_evaluator::TypingMode;
use sessions::solver_graph::Search;
use sessions::term_folds::predicate::TraitRef;
use sessions::type_terms::Fault;

/// Walks a reference outside coherence, without where-clauses, and finds the steps of its proof. They are not checked. Of one with other
/// open places than unknowns, or with too many of these, that is not done.
///
/// All stays at rest, after a fault too. The fault is a refusal of memory, or `Full`.
fn walk_reference(
    search: &mut Search<Solver>,
    reference: TraitRef,
    depth: u32,
) -> Result<Option<ProofWalk>, Fault>
    requires rest { SolverRests search.old.graph.root_depth search.old.cx search.old.graph search.old.cache }
    requires held { ReferenceHeld search.old.cx.interner.entries reference }
    ensures rests { RestsAfter search.old.graph.root_depth search.old.cx search.new.cx search.new.graph search.new.cache }
    ensures held { IfOk result (λ o. IfSome o (ProofWalkHeld search.new.cx.interner.entries)) }
{
    let mut table = goal_table_in(&mut search.cx)?;
    if !is_of_table(&search.cx.interner, &table, reference.args) {
        return Ok(None);
    }
    let goal = bare_goal(search.cx.alloc, reference);
    let traced = TracedGoal {
        goal: &goal,
        mode: TypingMode::PostAnalysis,
        depth,
    };
    let walk = walk_alone(search, &mut table, traced)?;
    let proof = with_steps(&mut search.cx, &mut table, &[], walk)?;
    Ok(Some(proof))
}

/// Whether a reference has a proof, by steps that a walk finds and the checker lets through.
///
/// All stays at rest, after a fault too. The fault is a refusal of memory, or `Full`.
fn holds_alone(search: &mut Search<Solver>, reference: TraitRef, depth: u32) -> Result<bool, Fault>
    requires rest { SolverRests search.old.graph.root_depth search.old.cx search.old.graph search.old.cache }
    requires held { ReferenceHeld search.old.cx.interner.entries reference }
    ensures rests { RestsAfter search.old.graph.root_depth search.old.cx search.new.cx search.new.graph search.new.cache }
    ensures holds { IfOk result (λ b. b ≡ true → HasProof (rules_in search.old.cx) [] (term_of search.old.cx.interner.entries reference)) }
{
    let found = walk_reference(search, reference, depth)?;
    let Some(proof) = found else {
        return Ok(false);
    };
    is_proved_by(&mut search.cx, reference, &proof.steps)
}

/// Whether the goal at a place of a walk has a proof without where-clauses by what the session's crate sees: it is asked alone.
pub(crate) fn is_held_alone_at(
    session: &mut Session<'_>,
    walk: &GoalWalk,
    place: usize,
) -> Result<bool, Fault>
    requires { WalkHeld session.old.terms walk.now }
    ensures holds { IfOk result (λ b. b ≡ true
        → HoldsAt session.old.terms (view_in session.old.declarations session.old.of_crate) walk.now.references.items place) }
    ensures held { WalkHeld session.new.terms walk.now }
    ensures stays { StaysOn session.old session.new }
{
    let Some(reference) = reference_at(&walk.references, place) else {
        return Ok(false);
    };
    holds_alone(&mut session.search, reference, session.limits.depth)
}
