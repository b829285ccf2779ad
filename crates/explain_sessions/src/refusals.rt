//! The goals that have no proof in any linked set with the session's crate.

ghost use Rattle.std.specs.Prelude.{◌≡◌, ℕ, true, [], IfOk};
ghost use Rattle.sessions.specs.Declarations.Held.{ReferenceHeld};
ghost use Rattle.sessions.specs.Declarations.Promised.Elaboration.{Each};
ghost use Rattle.sessions.specs.InferTable.Content.{Ready};
ghost use Rattle.sessions.specs.ProofChecker.Steps.{term_of};
ghost use Rattle.sessions.specs.Promised.Promises.{view_in};
ghost use Rattle.sessions.specs.Proving.{SolverAdvances, SolverIsReady};
ghost use Rattle.sessions.specs.Sessions.{SolverRests, SolvesView};
ghost use Rattle.sessions.specs.Promised.Subjects.{StaysOn};
ghost use Rattle.explain_sessions.specs.Refusals.{IsRefusedAt, IsRefusedGoal};
ghost use Rattle.explain_sessions.specs.Walked.{RestsAfter, WalkHeld};
ghost use Rattle.sessions.specs.TextLanguage.Promised.Declarations.{Declarations};

use crate::instances::table_for_goals;
use crate::places::{is_answered, push_if, reference_at};
use crate::unknowns::is_of_table;
use explain_traces::{Answer, GoalWalk};
use sessions::Session;
use sessions::candidate_assembly::solver::Solver;
use sessions::infer_table::infer_ctxt::InferCtxt;
use sessions::pair_checks::is_impossible;
use sessions::solver_graph::{Search, SolverCx};
use sessions::term_folds::predicate::TraitRef;
use sessions::type_terms::Fault;

/// A table in which the numbers of a goal's variables are taken, over the interner of a context.
pub(crate) fn goal_table_in(cx: &mut SolverCx<Solver>) -> Result<InferCtxt, Fault>
    requires { SolverIsReady cx.old }
    ensures advances { SolverAdvances cx.old cx.new }
    ensures ready { IfOk result (Ready cx.new.interner.entries) }
    ensures no_values { IfOk result (λ table. table.values ≡ []) }
{
    let table = table_for_goals(cx.alloc, &mut cx.interner);
    cx.interner.lawful();
    table
}

/// Whether a trait reference is refused in coherence, evaluated alone. It is not evaluated if it has parameters or placeholders, or too
/// many variables.
///
/// Everything stays at rest, after a fault too. Fails with `Memory` if memory is refused, or with `Full` if a table is full.
fn is_refused(search: &mut Search<Solver>, reference: TraitRef) -> Result<bool, Fault>
    requires rest { SolverRests search.old.graph.root_depth search.old.cx search.old.graph search.old.cache }
    requires held { ReferenceHeld search.old.cx.interner.entries reference }
    ensures rests { RestsAfter search.old.graph.root_depth search.old.cx search.new.cx search.new.graph search.new.cache }
    ensures refused { IfOk result (λ b. b ≡ true → (d : Declarations) (c : ℕ) → SolvesView d c search.old.cx
        → IsRefusedGoal (view_in d c) c (term_of search.old.cx.interner.entries reference)) }
{
    let mut table = goal_table_in(&mut search.cx)?;
    if !is_of_table(&search.cx.interner, &table, reference.args) {
        return Ok(false);
    }
    is_impossible(search, &mut table, reference)
}

/// The same for the goal at this index of a trace, if the trace has it as refused.
fn is_refused_at(session: &mut Session<'_>, walk: &GoalWalk, place: usize) -> Result<bool, Fault>
    requires { WalkHeld session.old.terms walk.now }
    ensures refused { IfOk result (λ b. b ≡ true
        → IsRefusedAt session.old.terms (view_in session.old.declarations session.old.of_crate) session.old.of_crate walk.now.references.items place) }
    ensures held { WalkHeld session.new.terms walk.now }
    ensures stays { StaysOn session.old session.new }
{
    if !is_answered(walk, place, Answer::Refused) {
        return Ok(false);
    }
    let Some(reference) = reference_at(&walk.references, place) else {
        return Ok(false);
    };
    is_refused(&mut session.search, reference)
}

/// The indices of goals of a trace that are refused like a `refute` query with the answer `No`: they have no proof in any linked set with
/// the session's crate, whatever types and constants their variables stand for.
///
/// Each goal that the trace has as refused is evaluated once more in coherence, without where-clauses. A goal that is not named may be
/// refused too, for example if it has a parameter or too many variables. Fails with `Memory` if memory is refused, or with `Full` if a
/// table of the session is full.
pub(crate) fn refused_goals(session: &mut Session<'_>, walk: &GoalWalk) -> Result<Vec<usize>, Fault>
    requires { WalkHeld session.old.terms walk.now }
    ensures refused { IfOk result (λ ps. Each
        (IsRefusedAt session.old.terms (view_in session.old.declarations session.old.of_crate) session.old.of_crate walk.now.references.items) ps.items) }
    ensures held { WalkHeld session.new.terms walk.now }
    ensures stays { StaysOn session.old session.new }
{
    let mut found = Vec::new(session.search.cx.alloc);
    for place in 0..walk.nodes.len() {
        let is_refused = is_refused_at(session, walk, place)?;
        push_if(&mut found, place, is_refused)?;
    }
    Ok(found)
}
