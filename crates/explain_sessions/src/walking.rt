//! Traces of the solver's goals that begin without any goal.

ghost use Rattle.std.specs.Prelude.{◌≡◌, [], IfOk};
ghost use Rattle.sessions.specs.InferTable.Content.{Ready};
ghost use Rattle.sessions.specs.InferTable.Goals.{GoalHeld};
ghost use Rattle.explain_traces.specs.Walking.{ReferencesHeld};
ghost use Rattle.sessions.specs.Sessions.{SolverRests};
ghost use Rattle.explain_sessions.specs.Walked.{RestsAfter};

use explain_traces::{GoalWalk, TracedGoal, settle, walk_goal};
use sessions::candidate_assembly::solver::Solver;
use sessions::goal_evaluator::{Goal, TypingMode};
use sessions::infer_table::infer_ctxt::InferCtxt;
use sessions::solver_graph::Search;
use sessions::term_folds::predicate::{TraitPredicate, TraitRef};
use sessions::type_terms::Fault;
use std::alloc::Global;

/// The goal for a trait reference without where-clauses.
pub(crate) fn bare_goal(alloc: Global, asked: TraitRef) -> Goal
    ensures clauses { result.param_env.items ≡ [] }
    ensures asked { result.predicate.trait_ref ≡ asked }
{
    Goal {
        param_env: Vec::new(alloc),
        predicate: TraitPredicate { trait_ref: asked },
    }
}

/// Traces a goal over a table.
///
/// Everything stays at rest, after a fault too. Fails with `Memory` if memory is refused, or with `Full` if a table is full.
pub(crate) fn walk_alone(
    search: &mut Search<Solver>,
    table: &mut InferCtxt,
    traced: TracedGoal<'_>,
) -> Result<GoalWalk, Fault>
    requires rest { SolverRests search.old.graph.root_depth search.old.cx search.old.graph search.old.cache }
    requires table { Ready search.old.cx.interner.entries table.old }
    requires goal { GoalHeld search.old.cx.interner.entries traced.goal.now }
    ensures rests { RestsAfter search.old.graph.root_depth search.old.cx search.new.cx search.new.graph search.new.cache }
    ensures table { Ready search.new.cx.interner.entries table.new }
    ensures held { IfOk result (λ w. ReferencesHeld search.new.cx.interner.entries w.references.items) }
{
    let mut walk = GoalWalk::new(search.cx.alloc);
    let _root = walk_goal(search, table, &mut walk, traced)?;
    Ok(walk)
}

/// Traces a goal over a table, after the values that the search gives its variables are put in.
///
/// Everything stays at rest, after a fault too. Fails with `Memory` if memory is refused, or with `Full` if a table is full.
pub(crate) fn walk_settled(
    search: &mut Search<Solver>,
    table: &mut InferCtxt,
    goal: &Goal,
    depth: u32,
) -> Result<GoalWalk, Fault>
    requires rest { SolverRests search.old.graph.root_depth search.old.cx search.old.graph search.old.cache }
    requires table { Ready search.old.cx.interner.entries table.old }
    requires goal { GoalHeld search.old.cx.interner.entries goal.now }
    ensures rests { RestsAfter search.old.graph.root_depth search.old.cx search.new.cx search.new.graph search.new.cache }
    ensures table { Ready search.new.cx.interner.entries table.new }
    ensures held { IfOk result (λ w. ReferencesHeld search.new.cx.interner.entries w.references.items) }
{
    settle(search, table, TypingMode::PostAnalysis, goal)?;
    let traced = TracedGoal {
        goal,
        mode: TypingMode::PostAnalysis,
        depth,
    };
    walk_alone(search, table, traced)
}
