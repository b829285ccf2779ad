//! The delegate of a search for the goals of a handler.

ghost use Rattle.std.specs.Prelude.{◌≡◌, ◌↔◌, ◌<◌, Err, IfOk, IfSome, IsSome, IsTrue, Some, true, false};
ghost use Rattle.infer_table.specs.declared.certainty.Certainty.TheVariants.{Maybe};
ghost use Rattle.search_graph.specs.Meaning.{KeepsContext, IsFair, IsDue, IsReply, Steps};
ghost use Rattle.goal_evaluator.specs.Tables.{frame_tables};
ghost use Rattle.goal_frames.specs.Searches.{is_ambiguous_answer, is_yes_answer};
ghost use Rattle.goal_frames.specs.HandlerPrograms.{silent, cycle_answer};
ghost use Rattle.solver_graph.specs.Answers.{certainty_of};
ghost use Rattle.solver_graph.specs.Contexts.{goal_of, answer_of, IsInput, ResponseIsMade};
ghost use Rattle.solver_graph.specs.Searching.{solver_meaning, steps_left};
ghost use Rattle.solver_graph.specs.Shortages.{ContextIsFull};

use crate::context::SolverCx;
use crate::frame::SolverFrame;
use crate::requests::{keep_request, read_reply};
use crate::silent::{cycle_certainty, holds_nothing, is_silent, silent_answer};
use crate::size::count_open_types;
use goal_frames::store::{InputId, ResponseId};
use goal_frames::{GoalFrame, GoalHandler};
use infer_table::certainty::{Certainty, MaybeCause};
use search_graph::{Delegate, PathKind, Reply, Request};
use std::marker::PhantomData;
use type_terms::Fault;

/// A nested goal counts once more for so many levels of its goal's types.
const LEVELS_OF_ONE: usize = 32;

/// And once more for so many further types with variables, which stand beside others.
const TYPES_OF_ONE: usize = 8;

/// Evaluates goals by the rules of a handler.
///
/// Its meaning for a search is that of the handler. The nested goals of a frame are those of the goal's frame over terms. A
/// definite yes follows by the handler's rules, and a response covers its goal. So all that is proved of searches holds of a
/// handler's goals. A call returns `Full` only if the context is at a limit (`ContextIsFull`): the interner's, or that of the
/// store of goals and responses.
///
/// rustc: `SearchGraphDelegate` of `rustc_next_trait_solver`.
pub struct SolverGraph<H> {
    of: PhantomData<H>,
}

impl<H: GoalHandler> Delegate for SolverGraph<H> {
    type Cx = SolverCx<H>;

    type Frame = SolverFrame;

    const FIXPOINT_STEP_LIMIT: usize = goal_evaluator::FIXPOINT_STEP_LIMIT;

    const DIVIDE_AVAILABLE_DEPTH_ON_OVERFLOW: usize = 4;

    ghost FIXPOINT_STEP_LIMIT = { 8 };

    ghost DIVIDE_AVAILABLE_DEPTH_ON_OVERFLOW = { 4 };

    ghost meaning = { solver_meaning H.meaning };

    ghost steps_left = { steps_left H.meaning };

    /// A coinductive cycle holds, and any other is an overflow. The response has no values and no constraints.
    fn initial_provisional_result(
        cx: &mut SolverCx<H>,
        kind: PathKind,
        input: &InputId,
    ) -> Result<Option<ResponseId>, Fault> {
        silent_answer(cx, *input, cycle_certainty(kind))
    }

    /// Whether the result is exactly the goal's initial one.
    fn is_initial_provisional_result(
        cx: &SolverCx<H>,
        kind: PathKind,
        input: &InputId,
        of: &Option<ResponseId>,
    ) -> bool
        requires input { IsInput H.meaning.IsReady cx.now input.now }
        requires known { ResponseIsMade H.meaning.IsReady cx.now of.now }
        ensures { IsTrue result ↔ (answer_of cx.now of.now ≡ cycle_answer (goal_of cx.now input.now).1 kind) }
    {
        let goal = cx.store.input(*input);
        match of {
            Some(id) => {
                let response = cx.store.response(*id);
                is_silent(
                    &cx.interner,
                    response,
                    &goal.variables,
                    cycle_certainty(kind),
                )
            }
            None => false,
        }
    }

    /// An overflow without values and constraints.
    fn stack_overflow_result(
        cx: &mut SolverCx<H>,
        input: &InputId,
    ) -> Result<Option<ResponseId>, Fault> {
        let too_deep = Certainty::Maybe(MaybeCause::Overflow);
        silent_answer(cx, *input, too_deep)
    }

    /// An overflow without values and constraints.
    fn fixpoint_overflow_result(
        cx: &mut SolverCx<H>,
        input: &InputId,
    ) -> Result<Option<ResponseId>, Fault> {
        let too_often = Certainty::Maybe(MaybeCause::Overflow);
        silent_answer(cx, *input, too_often)
    }

    /// The cause of a `Maybe` response that has no values of types or constants and no region constraints.
    fn is_ambiguous_result(cx: &SolverCx<H>, of: &Option<ResponseId>) -> Option<MaybeCause>
        requires { ResponseIsMade H.meaning.IsReady cx.now of.now }
        ensures is { IsSome result ↔ (is_ambiguous_answer frame_tables (answer_of cx.now of.now) ≡ true) }

        // It is the response's own.
        ensures cause { IfSome result (λ cause. certainty_of (answer_of cx.now of.now) ≡ Some (Maybe cause)) }
    {
        let Some(id) = of else {
            return None;
        };
        let response = cx.store.response(*id);
        match response.certainty {
            Certainty::Yes => None,
            Certainty::Maybe(cause) => {
                if holds_nothing(&cx.interner, response) {
                    Some(cause)
                } else {
                    None
                }
            }
        }
    }

    /// The `Maybe` response to the goal with this cause, without values and constraints.
    fn propagate_ambiguity(
        cx: &mut SolverCx<H>,
        for_input: &InputId,
        ambiguity_info: MaybeCause,
    ) -> Result<Option<ResponseId>, Fault>
        requires { IsInput H.meaning.IsReady cx.old for_input.now }
        ensures keeps { KeepsContext (solver_meaning H.meaning) cx.old cx.new }
        ensures full { result ≡ Err Fault.Full → ContextIsFull cx.new }
        ensures known { IfOk result (ResponseIsMade H.meaning.IsReady cx.new) }
        ensures fair { IfOk result (λ r. let m = solver_meaning H.meaning in
            IsFair m (m.world cx.old) (goal_of cx.old for_input.now) (answer_of cx.new r)) }
        ensures no_yes { IfOk result (λ r. is_yes_answer frame_tables (answer_of cx.new r) ≡ false) }
        ensures is { IfOk result (λ r. answer_of cx.new r ≡ silent (goal_of cx.old for_input.now).1 (Maybe ambiguity_info)) }
    {
        silent_answer(cx, *for_input, Certainty::Maybe(ambiguity_info))
    }

    /// The evaluation walks several times through a goal's types with variables, be they above or beside one another. So the cost grows with
    /// the levels of the predicate's types and with the number of such types, where-clauses included.
    fn cost_of(cx: &SolverCx<H>, input: &InputId) -> usize {
        let goal = cx.store.input(*input);
        let levels = cx.interner.depth(goal.goal.predicate.trait_ref.args) as usize;
        let types = count_open_types(&cx.interner, &goal.goal);
        (levels / LEVELS_OF_ONE).saturating_add(types.saturating_sub(levels) / TYPES_OF_ONE)
    }

    /// The frame of the goal with this number, in its typing mode.
    fn start(cx: &mut SolverCx<H>, input: &InputId) -> Result<SolverFrame, Fault> {
        let goal = cx.store.copy_input(*input)?;
        let begun = GoalFrame::new::<H>(cx.alloc, goal);
        let frame = SolverFrame::new(cx.alloc, begun)?;
        Ok(frame)
    }

    /// Passes the reply to the frame, and stores the nested goal or the response of its request.
    ///
    /// `Full` is returned if a table of the interner is full, or as many goals or responses are stored as the limit allows.
    /// `Memory` is returned if memory is refused, or the frame needs more variables than there are numbers.
    fn step(
        frame: &mut SolverFrame,
        cx: &mut SolverCx<H>,
        reply: Reply<Option<ResponseId>>,
    ) -> Result<Request<InputId, Option<ResponseId>>, Fault>
        requires due { IsDue (solver_meaning H.meaning) cx.old frame.old reply }
        requires reply { IsReply (solver_meaning H.meaning) cx.old reply }
        ensures keeps { KeepsContext (solver_meaning H.meaning) cx.old cx.new }
        ensures full { result ≡ Err Fault.Full → ContextIsFull cx.new }
        ensures steps { IfOk result (λ q. Steps (solver_meaning H.meaning) cx.old frame.old reply cx.new frame.new q) }
        ensures falls { IfOk result (λ q. steps_left H.meaning cx.new frame.new < steps_left H.meaning cx.old frame.old) }
    {
        let reply = read_reply(cx, reply)?;
        let asked = frame.step(cx.alloc, &mut cx.interner, &cx.handler, reply);
        cx.interner.lawful();
        keep_request(cx, asked?)
    }

    ghost use Rattle.goal_frames.proofs.HandlerPrograms.{handlers-are-programs};
    ghost use Rattle.solver_graph.specs.Lawful.{solver-lawful, steps-kept, same-answer};

    ghost lawful = { solver-lawful H.meaning
        (handlers-are-programs H.meaning.goals H.lawful.goals) };

    ghost steps_kept = { steps-kept H.meaning };

    ghost same_answer = { same-answer H.meaning.IsReady };

    ghost use Rattle.std.proofs.Common.{lit≤};

    ghost divides = { lit≤ tt };
}
