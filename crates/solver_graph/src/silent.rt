//! Responses without values and constraints.

ghost use Rattle.std.specs.Prelude.{◌≡◌, ◌↔◌, Err, IfOk, IsTrue};
ghost use Rattle.infer_table.specs.Responses.{ResponseHeld, answer_trees};
ghost use Rattle.goal_evaluator.specs.TableAnswers.{IsWellFormed, without_values};
ghost use Rattle.goal_frames.specs.HandlerPrograms.{silent, cycle_certainty};
ghost use Rattle.solver_graph.specs.Answers.{holds_nothing};
ghost use Rattle.solver_graph.specs.Contexts.{goal_of, answer_of, IsInput, ResponseIsMade, Advances};
ghost use Rattle.solver_graph.specs.Shortages.{ContextIsFull};

use crate::context::SolverCx;
use goal_evaluator::{has_no_inference_or_external_constraints, is_identity_modulo_regions};
use goal_frames::GoalHandler;
use goal_frames::store::{InputId, ResponseId};
use infer_table::canonical::CanonicalVarKind;
use infer_table::certainty::{Certainty, MaybeCause};
use infer_table::raw::response_no_constraints_raw;
use infer_table::response::CanonicalResponse;
use search_graph::PathKind;
use type_terms::Fault;
use type_terms::interner::Interner;

/// The certainty of a goal that recurs by a path of this kind.
///
/// A coinductive cycle holds. Any other is not decided, and counts as an overflow. Outside coherence rustc refuses an inductive
/// one, but no step of a frame is inductive, so there is none.
pub(crate) fn cycle_certainty(kind: PathKind) -> Certainty
    ensures { result ≡ cycle_certainty kind }
{
    match kind {
        PathKind::Coinductive => Certainty::Yes,
        PathKind::Inductive | PathKind::Unknown | PathKind::ForcedAmbiguity => {
            Certainty::Maybe(MaybeCause::Overflow)
        }
    }
}

/// The response to this goal with this certainty, without values and constraints (`response_no_constraints`).
pub(crate) fn silent_answer<H: GoalHandler>(
    cx: &mut SolverCx<H>,
    input: InputId,
    certainty: Certainty,
) -> Result<Option<ResponseId>, Fault>
    requires { IsInput H.meaning.IsReady cx.old input }
    ensures advances { Advances H.meaning.IsReady cx.old cx.new }
    ensures is { IfOk result (λ r. ResponseIsMade H.meaning.IsReady cx.new r × (answer_of cx.new r ≡ silent (goal_of cx.old input).1 certainty)) }
    ensures full { result ≡ Err Fault.Full → ContextIsFull cx.new }
{
    let variables = Vec::from_slice(cx.alloc, &cx.store.input(input).variables)?;
    let made = response_no_constraints_raw(cx.alloc, &mut cx.interner, variables, certainty);
    cx.interner.lawful();
    let response = made?;
    cx.keep_answer(Some(response))
}

/// Whether the response is the one with this certainty, without values and constraints, to a goal with variables of these kinds.
pub(crate) fn is_silent(
    cx: &Interner,
    response: &CanonicalResponse,
    kinds: &[CanonicalVarKind],
    certainty: Certainty,
) -> bool
    requires held { ResponseHeld cx.now.entries response.now }
    requires fits { IsWellFormed (answer_trees cx.now.entries response.now) }
    ensures { IsTrue result ↔ (answer_trees cx.now.entries response.now ≡ without_values kinds.now certainty) }
{
    if response.certainty != certainty {
        return false;
    }
    if response.variables.as_slice() != kinds {
        return false;
    }
    if response.var_values.len() != kinds.len() {
        return false;
    }
    has_no_inference_or_external_constraints(cx, response)
}

/// Whether the response has no values of types or constants and no region constraints.
pub(crate) fn holds_nothing(cx: &Interner, response: &CanonicalResponse) -> bool
    requires held { ResponseHeld cx.now.entries response.now }
    requires fits { IsWellFormed (answer_trees cx.now.entries response.now) }
    ensures { result ≡ holds_nothing (answer_trees cx.now.entries response.now) }
{
    if response.region_constraints.is_empty() {
        return is_identity_modulo_regions(cx, &response.var_values);
    }
    false
}
