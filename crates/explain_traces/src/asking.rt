//! The answer of a search to a goal of the store.

ghost use Rattle.std.specs.Prelude.{◌≡◌, IfOk, IfSome, Ok};
ghost use Rattle.type_terms.specs.Promised.Handles.{ArgsHeld};
ghost use Rattle.infer_table.specs.Goals.{GoalHeld};
ghost use Rattle.solver_graph.specs.Contexts.{IsInput, ResponseIsMade};
ghost use Rattle.explain_traces.specs.Walking.{WalkIsAskable, WalkHasAsked, IsWalkable};

use crate::nodes::{Answer, GoalWalk};
use goal_evaluator::{Certainty, Goal, TypingMode};
use goal_frames::GoalHandler;
use goal_frames::store::{InputId, ResponseId};
use infer_table::infer_ctxt::InferCtxt;
use search_graph::{GraphFault, PathKind};
use solver_graph::{Asked, Search, SolverCx, ask, context_laws};
use type_terms::Fault;
use type_terms::kinds::GenericArgKind;

/// What a search came to. `None` if it gave no result.
fn read_result(
    found: Result<Option<ResponseId>, GraphFault>,
) -> Result<Option<Option<ResponseId>>, Fault>
    ensures { IfOk result (λ o. IfSome o (λ r. found ≡ Ok r)) }
{
    match found {
        Ok(found) => Ok(Some(found)),
        Err(GraphFault::Memory) => Err(Fault::Memory),
        Err(GraphFault::Full) => Err(Fault::Full),
        Err(GraphFault::Conflict) => Ok(None),
        Err(GraphFault::Protocol) => Ok(None),
    }
}

/// The result of the search for the goal with this number. `None` if the search gives none because of a conflict.
pub(crate) fn result_of<H: GoalHandler>(
    search: &mut Search<H>,
    input: InputId,
) -> Result<Option<Option<ResponseId>>, Fault>
    requires askable { WalkIsAskable H.meaning search.old.graph search.old.cache search.old.cx }
    requires input { IsInput H.meaning.IsReady search.old.cx input }
    ensures again { WalkIsAskable H.meaning search.new.graph search.new.cache search.new.cx }
    ensures asked { WalkHasAsked H.meaning search.old.graph search.old.cx search.new.graph search.new.cx }
    ensures known { IfOk result (λ o. IfSome o (ResponseIsMade H.meaning.IsReady search.new.cx)) }
{
    let found = search.graph.evaluate_goal(
        &mut search.cache,
        &mut search.cx,
        input,
        PathKind::Inductive,
    );
    read_result(found)
}

/// How a result of the search answers its goal.
pub(crate) fn answer_in<H: GoalHandler>(
    cx: &SolverCx<H>,
    found: Option<Option<ResponseId>>,
) -> Result<Answer, Fault>
    requires { IfSome found (ResponseIsMade H.meaning.IsReady cx.now) }
{
    let Some(outcome) = found else {
        return Ok(Answer::Nothing);
    };
    match cx.answer(&outcome)? {
        None => Ok(Answer::Refused),
        Some(response) => match response.certainty {
            Certainty::Yes => Ok(Answer::Yes),
            Certainty::Maybe(cause) => Ok(Answer::Maybe(cause)),
        },
    }
}

/// How the search answers the goal with this number.
fn answer_to<H: GoalHandler>(search: &mut Search<H>, input: InputId) -> Result<Answer, Fault>
    requires askable { WalkIsAskable H.meaning search.old.graph search.old.cache search.old.cx }
    requires input { IsInput H.meaning.IsReady search.old.cx input }
    ensures again { WalkIsAskable H.meaning search.new.graph search.new.cache search.new.cx }
    ensures asked { WalkHasAsked H.meaning search.old.graph search.old.cx search.new.graph search.new.cx }
{
    let found = result_of(search, input)?;
    answer_in(&search.cx, found)
}

/// The same, where it was not asked in the course of the walk before.
fn answer_once<H: GoalHandler>(
    search: &mut Search<H>,
    walk: &GoalWalk,
    input: InputId,
) -> Result<Answer, Fault>
    requires askable { WalkIsAskable H.meaning search.old.graph search.old.cache search.old.cx }
    requires input { IsInput H.meaning.IsReady search.old.cx input }
    ensures again { WalkIsAskable H.meaning search.new.graph search.new.cache search.new.cx }
    ensures asked { WalkHasAsked H.meaning search.old.graph search.old.cx search.new.graph search.new.cx }
{
    match walk.effort.answer(input) {
        Some(answer) => Ok(answer),
        None => answer_to(search, input),
    }
}

/// A goal that a trace met.
pub(crate) struct Met {
    /// Its index in the trace.
    pub(crate) place: usize,
    /// The number of its canonical form.
    pub(crate) input: InputId,
    /// The values of the form's variables.
    pub(crate) values: Vec<GenericArgKind>,
}

/// A goal that is traced.
#[derive(Clone, Copy)]
pub struct TracedGoal<'g> {
    pub goal: &'g Goal,
    /// The mode in which the search is asked.
    pub mode: TypingMode,
    /// How deep its nested goals are traced.
    pub depth: u32,
}

/// Adds a goal over a table to a trace, with the answer of the search.
pub(crate) fn meet_goal<H: GoalHandler>(
    search: &mut Search<H>,
    table: &InferCtxt,
    walk: &mut GoalWalk,
    traced: TracedGoal<'_>,
) -> Result<Met, Fault>
    requires walkable { IsWalkable H.meaning search.old.graph search.old.cache search.old.cx table.now walk.old.references.items }
    requires goal { GoalHeld search.old.cx.interner.entries traced.goal.now }
    ensures again { IsWalkable H.meaning search.new.graph search.new.cache search.new.cx table.now walk.new.references.items }
    ensures asked { WalkHasAsked H.meaning search.old.graph search.old.cx search.new.graph search.new.cx }
    ensures input { IfOk result (λ m. IsInput H.meaning.IsReady search.new.cx m.input) }
    ensures values { IfOk result (λ m. ArgsHeld search.new.cx.interner.entries m.values.items) }
{
    context_laws::<H>();
    let asked = ask(&mut search.cx, table, traced.mode, traced.goal)?;
    let Asked {
        goal: resolved,
        input,
        values,
    } = asked;
    let reference = resolved.predicate.trait_ref;
    let levels = search.cx.interner.depth(reference.args);
    walk.begin(search.graph.frames(), levels);
    let answer = answer_once(search, walk, input)?;
    walk.count(search.graph.frames());
    let is_coinductive = search.cx.handler.trait_is_coinductive(reference.def_id);
    let place = walk.meet(input, reference, answer, is_coinductive, traced.depth)?;
    Ok(Met {
        place,
        input,
        values,
    })
}
