//! A supertrait of an impl's header, traced as a session evaluates it.

ghost use Rattle.std.specs.Prelude.{◌≡◌, IfOk, IfSome};
ghost use Rattle.sessions.specs.Declarations.Applied.{TraitRefsHeld};
ghost use Rattle.sessions.specs.Declarations.Held.{ReferenceHeld};
ghost use Rattle.sessions.specs.Declarations.Items.{written};
ghost use Rattle.explain_traces.specs.Walking.{ReferencesHeld};
ghost use Rattle.sessions.specs.Sessions.{SolverRests};
ghost use Rattle.sessions.specs.Supertraits.{ImplsApply};
ghost use Rattle.explain_sessions.specs.Walked.{RestsAfter};

use crate::places::reference_at;
use crate::walking::walk_alone;
use explain_traces::{GoalWalk, TracedGoal};
use sessions::candidate_assembly::solver::Solver;
use sessions::goal_evaluator::TypingMode;
use sessions::solver_graph::Search;
use sessions::term_folds::predicate::TraitRef;
use sessions::type_terms::{Fault, ImplId};
use sessions::{SupertraitGoals, goal_under, own_goals_in, question_table_in};

/// Traces the goal for a trait reference without variables outside coherence, under just these where-clauses.
fn walk_under(
    search: &mut Search<Solver>,
    clauses: &[TraitRef],
    asked: TraitRef,
    depth: u32,
) -> Result<GoalWalk, Fault>
    requires rest { SolverRests search.old.graph.root_depth search.old.cx search.old.graph search.old.cache }
    requires clauses { TraitRefsHeld search.old.cx.interner.entries clauses.now }
    requires asked { ReferenceHeld search.old.cx.interner.entries asked }
    ensures rests { RestsAfter search.old.graph.root_depth search.old.cx search.new.cx search.new.graph search.new.cache }
    ensures held { IfOk result (λ w. ReferencesHeld search.new.cx.interner.entries w.references.items) }
{
    let goal = goal_under(search.cx.alloc, clauses, asked)?;
    let mut table = question_table_in(&mut search.cx, &[])?;
    let traced = TracedGoal {
        goal: &goal,
        mode: TypingMode::PostAnalysis,
        depth,
    };
    walk_alone(search, &mut table, traced)
}

/// Traces a supertrait, by its number from 1. `None` if there are fewer.
fn walk_numbered(
    search: &mut Search<Solver>,
    goals: &SupertraitGoals,
    number: u32,
    depth: u32,
) -> Result<Option<GoalWalk>, Fault>
    requires rest { SolverRests search.old.graph.root_depth search.old.cx search.old.graph search.old.cache }
    requires supertraits { TraitRefsHeld search.old.cx.interner.entries goals.now.supertraits.items }
    requires clauses { TraitRefsHeld search.old.cx.interner.entries goals.now.clauses.items }
    ensures rests { RestsAfter search.old.graph.root_depth search.old.cx search.new.cx search.new.graph search.new.cache }
    ensures held { IfOk result (λ o. IfSome o (λ w. ReferencesHeld search.new.cx.interner.entries w.references.items)) }
{
    let Some(place) = number.checked_sub(1) else {
        return Ok(None);
    };
    let Some(asked) = reference_at(&goals.supertraits, place as usize) else {
        return Ok(None);
    };
    let walk = walk_under(search, &goals.clauses, asked, depth)?;
    Ok(Some(walk))
}

/// Traces a supertrait of the header of an impl of the local crate, by its number from 1. `None` if there is no such impl or supertrait.
///
/// Everything stays at rest, after a fault too. Fails with `Memory` if memory is refused, or with `Full` if a table is full.
pub(crate) fn walk_supertrait(
    search: &mut Search<Solver>,
    id: ImplId,
    number: u32,
    depth: u32,
) -> Result<Option<GoalWalk>, Fault>
    requires rest { SolverRests search.old.graph.root_depth search.old.cx search.old.graph search.old.cache }
    requires applied { ImplsApply search.old.cx.handler.declarations (written search.old.cx.interner.entries search.old.cx.handler.declarations) }
    ensures rests { RestsAfter search.old.graph.root_depth search.old.cx search.new.cx search.new.graph search.new.cache }
    ensures held { IfOk result (λ o. IfSome o (λ w. ReferencesHeld search.new.cx.interner.entries w.references.items)) }
{
    let Some(goals) = own_goals_in(&mut search.cx, id)? else {
        return Ok(None);
    };
    walk_numbered(search, &goals, number, depth)
}
