//! The bounds of a query as goals over one table, selected together as a session selects them for its answer.

ghost use Rattle.std.specs.Prelude.{◌≡◌, ◌==◌, ◌∷◌, false, not, slice_get, IfOk, All, Any};
ghost use Rattle.std.specs.List.{AllWithin, HoldsAt};
ghost use Rattle.std.specs.Option.{option_map_or};
ghost use Rattle.fulfillment.specs.Obligations.{ObligationsHeld};
ghost use Rattle.fulfillment.specs.declared.obligation.Obligation.{Obligation};
ghost use Rattle.fulfillment.specs.declared.obligation.Standing.TheVariants.{Done};
ghost use Rattle.sessions.specs.Declarations.Applied.{TraitRefsHeld};
ghost use Rattle.sessions.specs.InferTable.Content.{Ready};
ghost use Rattle.sessions.specs.Proving.{SolverAdvances, SolverIsReady};
ghost use Rattle.sessions.specs.Sessions.{SolverRests};
ghost use Rattle.sessions.specs.TermFolds.declared.predicate.TraitRef.{TraitRef};
ghost use Rattle.explain_traces.specs.Walking.{ReferencesHeld};
ghost use Rattle.explain_sessions.specs.Walked.{RestsAfter, WalkHeld};

use crate::walking::{walk_alone, walk_settled};
use crate::walks::BoundWalk;
use explain_traces::{GoalWalk, TracedGoal};
use fulfillment::{FulfillmentCtxt, Obligation, Selected};
use sessions::candidate_assembly::solver::Solver;
use sessions::goal_evaluator::TypingMode;
use sessions::infer_table::infer_ctxt::InferCtxt;
use sessions::solver_graph::{Search, SolverCx};
use sessions::term_folds::predicate::TraitRef;
use sessions::text_lowering::LoweredQuestion;
use sessions::type_terms::Fault;
use sessions::{Limits, all_asked, obligations_for, question_table_in, references_are_goals};

/// The goals of a query's bounds under these where-clauses, and a table for the query's variables. As many answers to each goal may have
/// values as in a session with these limits.
pub(crate) fn pose(
    cx: &mut SolverCx<Solver>,
    clauses: &[TraitRef],
    lowered: &LoweredQuestion,
    limits: Limits,
) -> Result<(FulfillmentCtxt, InferCtxt), Fault>
    requires ready { SolverIsReady cx.old }
    requires clauses { TraitRefsHeld cx.old.interner.entries clauses.now }
    requires bounds { TraitRefsHeld cx.old.interner.entries (lowered.now.asked ∷ lowered.now.further.items) }
    ensures advances { SolverAdvances cx.old cx.new }
    ensures goals { IfOk result (λ posed. ObligationsHeld cx.new.interner.entries posed.0.obligations.items) }
    ensures table { IfOk result (λ posed. Ready cx.new.interner.entries posed.1) }
{
    references_are_goals();
    let references = all_asked(cx.alloc, lowered)?;
    let goals = obligations_for(cx.alloc, clauses, &references, limits.most_values())?;
    let table = question_table_in(cx, &lowered.unknowns)?;
    Ok((goals, table))
}

/// The number of the first obligation that is not done. 0 if there is none.
fn first_pending(obligations: &[Obligation]) -> usize
    ensures before { AllWithin (λ (o : Obligation). o.standing ≡ Done) obligations.now 0 result }
    ensures pending { Any (λ (o : Obligation). o.standing ≡ Done → ⊥) obligations.now
        → HoldsAt (λ (o : Obligation). o.standing ≡ Done → ⊥) obligations.now result }
    ensures none { All (λ (o : Obligation). o.standing ≡ Done) obligations.now → result ≡ 0 }
{
    for (number, obligation) in obligations.iter().enumerate() {
        if !obligation.is_done() {
            return number;
        }
    }
    0
}

/// Evaluates the goals of a query over their table together, as the session does for its answer. Returns the number of the bound that
/// explains the answer: the one that is refused, or else the first that stays open. A query with one bound alone is not evaluated.
///
/// Everything stays at rest, after a fault too. Fails with `Memory` if memory is refused, or with `Full` if a table is full.
pub(crate) fn select(
    search: &mut Search<Solver>,
    table: &mut InferCtxt,
    goals: &mut FulfillmentCtxt,
    mode: TypingMode,
) -> Result<usize, Fault>
    requires rest { SolverRests search.old.graph.root_depth search.old.cx search.old.graph search.old.cache }
    requires table { Ready search.old.cx.interner.entries table.old }
    requires goals { ObligationsHeld search.old.cx.interner.entries goals.old.obligations.items }
    ensures rests { RestsAfter search.old.graph.root_depth search.old.cx search.new.cx search.new.graph search.new.cache }
    ensures table { Ready search.new.cx.interner.entries table.new }
    ensures goals { ObligationsHeld search.new.cx.interner.entries goals.new.obligations.items }
{
    if goals.obligations().len() < 2 {
        return Ok(0);
    }
    match goals.select_where_possible(search, table, mode)? {
        Selected::Refused(id) => Ok(id.index),
        Selected::AllDone | Selected::Pending => Ok(first_pending(goals.obligations())),
    }
}

/// Whether the trace begins with another trait reference than this one: the table has values for its variables.
fn is_narrowed(walk: &GoalWalk, asked: TraitRef) -> bool
    ensures { result ≡ option_map_or (λ (first : TraitRef). not (first.args.0 == asked.args.0)) (slice_get walk.now.references.items 0) false }
{
    match walk.references.first() {
        Some(first) => first.args != asked.args,
        None => false,
    }
}

/// Traces the goal with this number over the table, at most this deep. If there is none, the trace is empty.
///
/// Everything stays at rest, after a fault too. Fails with `Memory` if memory is refused, or with `Full` if a table is full.
fn walk_bound(
    search: &mut Search<Solver>,
    table: &mut InferCtxt,
    goals: &FulfillmentCtxt,
    number: usize,
    mode: TypingMode,
    depth: u32,
) -> Result<BoundWalk, Fault>
    requires rest { SolverRests search.old.graph.root_depth search.old.cx search.old.graph search.old.cache }
    requires table { Ready search.old.cx.interner.entries table.old }
    requires goals { ObligationsHeld search.old.cx.interner.entries goals.now.obligations.items }
    ensures rests { RestsAfter search.old.graph.root_depth search.old.cx search.new.cx search.new.graph search.new.cache }
    ensures held { IfOk result (λ b. WalkHeld search.new.cx.interner.entries b.walk) }
{
    let Some(obligation) = goals.obligations().get(number) else {
        return Ok(BoundWalk {
            number,
            walk: GoalWalk::new(search.cx.alloc),
            is_narrowed: false,
            is_exhausted: false,
        });
    };
    let goal = &obligation.goal;
    let walk = walk_alone(search, table, TracedGoal { goal, mode, depth })?;
    Ok(BoundWalk {
        number,
        is_narrowed: is_narrowed(&walk, goal.predicate.trait_ref),
        is_exhausted: obligation.left == 0,
        walk,
    })
}

/// Traces the goal with this number over the table, after the values that the search gives its variables are put in, at most this deep. If
/// there is none, the trace is empty.
///
/// Everything stays at rest, after a fault too. Fails with `Memory` if memory is refused, or with `Full` if a table is full.
pub(crate) fn walk_settled_bound(
    search: &mut Search<Solver>,
    table: &mut InferCtxt,
    goals: &FulfillmentCtxt,
    number: usize,
    depth: u32,
) -> Result<GoalWalk, Fault>
    requires rest { SolverRests search.old.graph.root_depth search.old.cx search.old.graph search.old.cache }
    requires table { Ready search.old.cx.interner.entries table.old }
    requires goals { ObligationsHeld search.old.cx.interner.entries goals.now.obligations.items }
    ensures rests { RestsAfter search.old.graph.root_depth search.old.cx search.new.cx search.new.graph search.new.cache }
    ensures table { Ready search.new.cx.interner.entries table.new }
    ensures held { IfOk result (λ w. ReferencesHeld search.new.cx.interner.entries w.references.items) }
{
    match goals.obligations().get(number) {
        Some(obligation) => walk_settled(search, table, &obligation.goal, depth),
        None => Ok(GoalWalk::new(search.cx.alloc)),
    }
}

/// Traces the bound of a query that explains its answer, with what all bounds fix of its variables, at most this deep.
///
/// Everything stays at rest, after a fault too. Fails with `Memory` if memory is refused, or with `Full` if a table is full.
pub(crate) fn walk_bounds(
    search: &mut Search<Solver>,
    table: &mut InferCtxt,
    goals: &mut FulfillmentCtxt,
    mode: TypingMode,
    depth: u32,
) -> Result<BoundWalk, Fault>
    requires rest { SolverRests search.old.graph.root_depth search.old.cx search.old.graph search.old.cache }
    requires table { Ready search.old.cx.interner.entries table.old }
    requires goals { ObligationsHeld search.old.cx.interner.entries goals.old.obligations.items }
    ensures rests { RestsAfter search.old.graph.root_depth search.old.cx search.new.cx search.new.graph search.new.cache }
    ensures held { IfOk result (λ b. WalkHeld search.new.cx.interner.entries b.walk) }
{
    let number = select(search, table, goals, mode)?;
    walk_bound(search, table, goals, number, mode, depth)
}
