//! The context of an evaluation: its table and its nested goals.
ghost use Rattle.type_terms.specs.Growth.{Grew, GrewOrFull};
ghost use Rattle.std.specs.Prelude.{◌≡◌, List, [], ◌∷◌, ◌++◌, map, take, length, OnOk, OnErr, IfOk, IfErr, Err};
ghost use Rattle.type_terms.specs.Promised.Handles.{Entry, ArgHeld, ArgsHeld, arg_trees};
ghost use Rattle.infer_table.specs.Solutions.{HasNoSolution};
ghost use Rattle.infer_table.specs.Content.{content, Ready, Grows};
ghost use Rattle.type_terms.specs.Promised.Trees.{none};
ghost use Rattle.infer_table.specs.Values.{values_of};
ghost use Rattle.infer_table.specs.Raw.{IsFull, variables_from};
ghost use Rattle.infer_table.specs.Responses.{ResponseHeld, answer_trees};
ghost use Rattle.goal_evaluator.specs.Readings.{ResultHeld};
ghost use Rattle.goal_evaluator.specs.Context.{Context, IsReadyContext, HasRoom, MakesRoom, nested_goal};
ghost use Rattle.goal_evaluator.specs.OwnAnswers.{SaysWhatIsKnown, OwnAnswerSaysNothing, OwnAnswerSays, known_answer};
ghost use Rattle.infer_table.specs.Unification.{table_trees};
ghost use Rattle.goal_evaluator.specs.declared.TheConstants.{FIXPOINT_STEP_LIMIT};
ghost use Rattle.goal_evaluator.specs.Shortages.{EvalGrewOrFull};
ghost use Rattle.infer_table.specs.Equated.{MakesEqual, LeavesTheOlder};
ghost use Rattle.goal_evaluator.specs.Runs.{own_rounds, own_answer};
ghost use Rattle.goal_evaluator.specs.Ends.{CallEnds, AnswerEnds, AnswerHeld};
ghost use Rattle.goal_evaluator.specs.Steps.{RoundsEnd, RoundsHeld, LeavesContext};
ghost use Rattle.goal_evaluator.specs.Probes.{TakesBoth, Returns, IsUndoable};

use crate::FIXPOINT_STEP_LIMIT;
use crate::error::EvalError;
use crate::goal::GoalSource;
use crate::rounds::{RoundsStep, rounds};
use infer_table::canonical::CanonicalVarKind;
use infer_table::canonicalize::canonicalize_response;
use infer_table::certainty::{Certainty, MaybeCause, TypingMode};
use infer_table::goal::Goal;
use infer_table::infer_ctxt::InferCtxt;
use infer_table::input::CanonicalInput;
use infer_table::raw::response_no_constraints_raw;
use infer_table::response::CanonicalResponse;
use std::alloc::AllocError;
use std::marker::Model;
use type_terms::Fault;
use type_terms::interner::Interner;
use type_terms::kinds::GenericArgKind;
use type_terms::variance::Variance;

/// The result of a call that evaluates goals.
#[derive(Drop)]
pub enum EvalStep<T> {
    /// The evaluation is finished.
    Ready(T),
    /// The evaluation needs the response to this goal, and there is room for it. Pass it to `reply`, then make the same call again.
    Ask(CanonicalInput, GoalSource),
}

/// An evaluation in progress: the values of inference variables so far, and the nested goals that are not yet proved.
///
/// rustc: `EvalCtxt` of `rustc_next_trait_solver`. Here it owns its table. Where rustc calls the solver recursively, this one
/// returns the nested goal, and its caller brings the response and calls again.
pub struct EvalCtxt {
    mode: TypingMode,
    table: InferCtxt,
    variables: Vec<CanonicalVarKind>,
    values: Vec<GenericArgKind>,
    nested_goals: Vec<(GoalSource, Goal)>,
    replies: Vec<Option<CanonicalResponse>>,
}

// Hand-written so that the prover sees one drop call: docs/PROVING.md#drop.
impl Drop for EvalCtxt {
    fn drop(self) {
        let EvalCtxt {
            mode: _,
            table: _,
            variables: _,
            values: _,
            nested_goals: _,
            replies: _,
        } = self;
    }
}

impl Model for EvalCtxt {
    ghost use Rattle.goal_evaluator.specs.Context.{Context};

    ghost Value = { Context };

    ghost use Rattle.goal_evaluator.specs.ContextView.{context_of};

    ghost view = { context_of };
}

impl EvalCtxt {
    /// An evaluation in this table. The input's variables are of these kinds and have these values. There are no nested goals and
    /// no replies yet, nor room for any.
    pub fn new(
        table: InferCtxt,
        mode: TypingMode,
        variables: Vec<CanonicalVarKind>,
        values: Vec<GenericArgKind>,
    ) -> EvalCtxt
        ensures { result ≡ record { mode = mode; table = table; variables = variables.items; values = values.items; nested = []; replies = []; capacity = 0 } }
    {
        let alloc = *values.allocator();
        EvalCtxt {
            mode,
            table,
            variables,
            values,
            nested_goals: Vec::new(alloc),
            replies: Vec::new(alloc),
        }
    }

    /// The typing mode: analysis or coherence.
    pub fn typing_mode(&self) -> TypingMode
        ensures { result ≡ self.now.mode }
    {
        self.mode
    }

    /// The inference table.
    pub fn table(&self) -> &InferCtxt
        ensures { result.now ≡ self.now.table }
    {
        &self.table
    }

    /// The kinds of the input's variables, in order.
    pub fn variables(&self) -> &[CanonicalVarKind]
        ensures { result.now ≡ self.now.variables }
    {
        &self.variables
    }

    /// The values of the input's variables, in order.
    pub fn var_values(&self) -> &[GenericArgKind]
        ensures { result.now ≡ self.now.values }
    {
        &self.values
    }

    /// The nested goals that are not yet proved, with their sources, in the order in which they were added.
    pub fn nested_goals(&self) -> &[(GoalSource, Goal)]
        ensures { map nested_goal result.now ≡ self.now.nested }
    {
        &self.nested_goals
    }

    /// Adds a nested goal at the end. The only fault is `Memory`. Then the goals are unchanged.
    pub fn add_goal(&mut self, source: GoalSource, goal: Goal) -> Result<(), Fault>
        ensures added { OnOk result (self.new ≡ record self.old { nested = self.old.nested ++ nested_goal (source, goal) ∷ [] }) }
        ensures refused { OnErr result (self.new ≡ self.old) }
        ensures fault { IfErr result (λ e. e ≡ Fault.Memory) }
    {
        self.nested_goals.push((source, goal))?;
        Ok(())
    }

    /// Adds nested goals of one source at the end, in order. The only fault is `Memory`. Then the goals are unchanged.
    pub fn add_goals(&mut self, source: GoalSource, goals: Vec<Goal>) -> Result<(), Fault>
        ensures added { OnOk result (self.new ≡ record self.old { nested = self.old.nested ++ map (λ g. nested_goal (source, g)) goals.items }) }
        ensures refused { OnErr result (self.new ≡ self.old) }
        ensures fault { IfErr result (λ e. e ≡ Fault.Memory) }
    {
        let before = self.nested_goals.len();
        match push_goals(&mut self.nested_goals, source, goals) {
            Ok(()) => Ok(()),
            Err(fault) => {
                self.nested_goals.truncate(before);
                Err(fault)
            }
        }
    }

    /// Equates the two in the context's table. Two different lifetimes are recorded as equal and never make the call fail.
    ///
    /// On success the table's solutions are its earlier solutions that make the two equal. The call returns `NoSolution` exactly
    /// if there is none. `Full` is returned only if some kind of term has reached the interner's limit, and `Memory` also if
    /// there is no number for a lifetime variable. After an error the context is unchanged, but the interner may have new terms.
    pub fn eq(
        &mut self,
        cx: &mut Interner,
        left: GenericArgKind,
        right: GenericArgKind,
    ) -> Result<(), EvalError>
        requires left { ArgHeld cx.old.entries left }
        requires right { ArgHeld cx.old.entries right }
        requires ready { IsReadyContext cx.old.entries self.old }
        ensures ready { IsReadyContext cx.new.entries self.new }
        ensures grows { Grows self.old.table self.new.table }
        ensures terms { EvalGrewOrFull cx.old cx.new result }

        // Only the table changes.
        ensures rest { self.new ≡ record self.old { table = self.new.table } }
        ensures equates { OnOk result
            (MakesEqual cx.old.entries self.old.table cx.new.entries self.new.table (arg_trees cx.old.entries left) (arg_trees cx.old.entries right)) }
        ensures older { OnOk result
            (LeavesTheOlder cx.old.entries self.old.table cx.new.entries self.new.table (arg_trees cx.old.entries left) (arg_trees cx.old.entries right)) }
        ensures never { result ≡ Err EvalError.NoSolution
            → HasNoSolution (content cx.old.entries self.old.table.values) (arg_trees cx.old.entries left) (arg_trees cx.old.entries right) }
        ensures refused { OnErr result (self.new ≡ self.old) }
    {
        match self.table.eq(cx, left, right) {
            Ok(()) => Ok(()),
            Err(error) => Err(EvalError::from(error)),
        }
    }

    /// Relates the two in the context's table. Variance matters only for lifetimes, which never make a relation fail here. So
    /// this is `eq` for every variance.
    pub fn relate(
        &mut self,
        cx: &mut Interner,
        left: GenericArgKind,
        _variance: Variance,
        right: GenericArgKind,
    ) -> Result<(), EvalError>
        requires left { ArgHeld cx.old.entries left }
        requires right { ArgHeld cx.old.entries right }
        requires ready { IsReadyContext cx.old.entries self.old }
        ensures ready { IsReadyContext cx.new.entries self.new }
        ensures grows { Grows self.old.table self.new.table }
        ensures terms { EvalGrewOrFull cx.old cx.new result }
        ensures rest { self.new ≡ record self.old { table = self.new.table } }
        ensures equates { OnOk result
            (MakesEqual cx.old.entries self.old.table cx.new.entries self.new.table (arg_trees cx.old.entries left) (arg_trees cx.old.entries right)) }
        ensures older { OnOk result
            (LeavesTheOlder cx.old.entries self.old.table cx.new.entries self.new.table (arg_trees cx.old.entries left) (arg_trees cx.old.entries right)) }
        ensures never { result ≡ Err EvalError.NoSolution
            → HasNoSolution (content cx.old.entries self.old.table.values) (arg_trees cx.old.entries left) (arg_trees cx.old.entries right) }
        ensures refused { OnErr result (self.new ≡ self.old) }
    {
        self.eq(cx, left, right)
    }

    /// Stores the response to the last nested goal after the earlier replies. `None` means that the goal has no solution. This
    /// takes no memory: the call that asked for the response made room for it.
    pub fn reply(&mut self, answer: Option<CanonicalResponse>)
        requires room { HasRoom self.old }
        ensures heard { self.new ≡ record self.old { replies = self.old.replies ++ answer ∷ [] } }
    {
        self.replies.push_reserved(answer);
    }

    /// Makes room for one more reply, for a caller that has it before it is asked for. The only fault is `Memory`. Then the
    /// context is unchanged.
    pub fn make_room(&mut self) -> Result<(), Fault>
        ensures made { OnOk result (MakesRoom self.old self.new) }
        ensures refused { OnErr result (self.new ≡ self.old) }
        ensures fault { IfErr result (λ e. e ≡ Fault.Memory) }
    {
        self.replies.reserve(1)?;
        Ok(())
    }

    /// The context's response if the evaluation is given up for this cause: `Maybe`, with what is known so far of the input's
    /// variables and of lifetimes. After an overflow the response has no values and no constraints.
    ///
    /// `Full` is returned only if some kind of term has reached the interner's limit, and `Memory` if memory is refused or there
    /// is no number for a variable of the response. rustc: `forced_ambiguity`.
    pub fn forced_ambiguity(
        &self,
        cx: &mut Interner,
        cause: MaybeCause,
    ) -> Result<CanonicalResponse, Fault>
        requires ready { IsReadyContext cx.old.entries self.now }
        ensures terms { GrewOrFull cx.old cx.new result }
        ensures certainty { IfOk result (λ r. r.certainty ≡ Certainty.Maybe cause) }
        ensures says { IfOk result (λ r. OwnAnswerSays cx.old.entries cx.new.entries self.now r (Certainty.Maybe cause)) }
        ensures held { IfOk result (λ r. ResponseHeld cx.new.entries r) }
        ensures is { IfOk result (λ r. answer_trees cx.new.entries r ≡ own_answer cx.old.entries self.now (Certainty.Maybe cause)) }
        ensures overflow { cause ≡ MaybeCause.Overflow → result ≡ Err Fault.Full → IsFull cx.new.entries cx.new.limit }
    {
        self.answer(cx, Certainty::Maybe(cause))
    }

    /// The context's response with this certainty.
    pub(crate) fn answer(
        &self,
        cx: &mut Interner,
        certainty: Certainty,
    ) -> Result<CanonicalResponse, Fault>
        requires ready { IsReadyContext cx.old.entries self.now }
        ensures terms { GrewOrFull cx.old cx.new result }
        ensures certainty { IfOk result (λ r. r.certainty ≡ certainty) }
        ensures says { IfOk result (λ r. OwnAnswerSays cx.old.entries cx.new.entries self.now r certainty) }
        ensures held { IfOk result (λ r. ResponseHeld cx.new.entries r) }
        ensures is { IfOk result (λ r. answer_trees cx.new.entries r ≡ own_answer cx.old.entries self.now certainty) }
        ensures overflow { certainty ≡ Certainty.Maybe MaybeCause.Overflow → result ≡ Err Fault.Full → IsFull cx.new.entries cx.new.limit }
    {
        match certainty {
            Certainty::Yes => self.known_answer(cx, certainty),
            Certainty::Maybe(MaybeCause::Ambiguity) => self.known_answer(cx, certainty),
            Certainty::Maybe(MaybeCause::Overflow) => self.empty_answer(cx, certainty),
        }
    }

    /// The response with this certainty that has the values that are known.
    fn known_answer(
        &self,
        cx: &mut Interner,
        certainty: Certainty,
    ) -> Result<CanonicalResponse, Fault>
        requires ready { IsReadyContext cx.old.entries self.now }
        ensures terms { GrewOrFull cx.old cx.new result }
        ensures certainty { IfOk result (λ r. r.certainty ≡ certainty) }
        ensures says { IfOk result (λ r. SaysWhatIsKnown cx.old.entries cx.new.entries self.now r) }
        ensures held { IfOk result (λ r. ResponseHeld cx.new.entries r) }
        ensures is { IfOk result (λ r. answer_trees cx.new.entries r
            ≡ known_answer (values_of cx.old.entries self.now.values) (table_trees cx.old.entries self.now.table) certainty) }
    {
        let alloc = *self.values.allocator();
        let answer = canonicalize_response(alloc, cx, &self.table, certainty, &self.values)?;
        cx.lawful();
        Ok(answer)
    }

    /// The response with this certainty that has no values.
    fn empty_answer(
        &self,
        cx: &mut Interner,
        certainty: Certainty,
    ) -> Result<CanonicalResponse, Fault>
        ensures grew { Grew cx.old cx.new }
        ensures certainty { IfOk result (λ r. r.certainty ≡ certainty) }
        ensures says { IfOk result (λ r. OwnAnswerSaysNothing cx.new.entries self.now r) }
        ensures held { IfOk result (λ r. ResponseHeld cx.new.entries r) }
        ensures is { IfOk result (λ r. answer_trees cx.new.entries r
            ≡ record { kinds = self.now.variables; certainty = certainty; values = variables_from 0 self.now.variables; constraints = none }) }
        ensures full { result ≡ Err Fault.Full → IsFull cx.new.entries cx.new.limit }
    {
        let alloc = *self.values.allocator();
        let variables = Vec::from_slice(alloc, &self.variables)?;
        response_no_constraints_raw(alloc, cx, variables, certainty)
    }

    /// Evaluates the nested goals in rounds, with the replies so far, and returns how certain it is that all of them hold.
    ///
    /// A round evaluates each goal in order and puts its response into the table. A goal is dropped if its response is `Yes`
    /// without values of types or constants. The last round is one in which no response has such values. After
    /// `FIXPOINT_STEP_LIMIT` rounds the certainty is an overflow. If the result is `Ready`, the table holds what the rounds put
    /// into it, the nested goals are those that were not dropped, and the replies are used up. If the result is `Ask`, the caller
    /// has to bring a reply, for which there is room. Nothing else of the context has changed.
    ///
    /// `NoSolution` is returned if a goal has no solution, `Full` only if some kind of term has reached the interner's limit, and
    /// `Memory` also if there is no number for a variable. After an error the context is unchanged.
    pub fn try_evaluate_added_goals(
        &mut self,
        cx: &mut Interner,
    ) -> Result<EvalStep<Certainty>, EvalError>
        requires ready { IsReadyContext cx.old.entries self.old }
        ensures ready { IsReadyContext cx.new.entries self.new }
        ensures grows { Grows self.old.table self.new.table }
        ensures terms { EvalGrewOrFull cx.old cx.new result }
        ensures runs { CallEnds self.old.mode cx.new.entries self.old self.new (own_rounds cx.old.entries self.old) result }
    {
        let evaluated = self.evaluate_nested_goals(cx)?;
        match evaluated {
            RoundsStep::Ended(left, certainty) => {
                self.settle(left);
                Ok(EvalStep::Ready(certainty))
            }
            RoundsStep::Waits(input, source) => Ok(EvalStep::Ask(input, source)),
        }
    }

    /// Evaluates the nested goals like `try_evaluate_added_goals`, and returns the context's response. Its certainty joins this
    /// certainty with that of the goals. After an overflow it has no values.
    pub fn evaluate_added_goals_and_make_canonical_response(
        &mut self,
        cx: &mut Interner,
        certainty: Certainty,
    ) -> Result<EvalStep<CanonicalResponse>, EvalError>
        requires ready { IsReadyContext cx.old.entries self.old }
        ensures ready { IsReadyContext cx.new.entries self.new }
        ensures grows { Grows self.old.table self.new.table }
        ensures terms { EvalGrewOrFull cx.old cx.new result }
        ensures held { IfOk result (λ s. AnswerHeld cx.new.entries s) }
        ensures runs { AnswerEnds self.old.mode cx.new.entries self.old self.new certainty (own_rounds cx.old.entries self.old) result }
    {
        let before = self.table.snapshot();
        let evaluated = self.evaluate_nested_goals(cx)?;
        match evaluated {
            RoundsStep::Waits(input, source) => Ok(EvalStep::Ask(input, source)),
            RoundsStep::Ended(left, of_goals) => {
                match self.answer(cx, certainty.and(of_goals)) {
                    Ok(response) => {
                        self.settle(left);
                        Ok(EvalStep::Ready(response))
                    }
                    Err(fault) => {
                        self.table.roll_back(before);
                        Err(EvalError::Fault(fault))
                    }
                }
            }
        }
    }

    /// Runs the rounds with the replies so far. If they end, the table holds what they put into it. If they wait, there is room
    /// for the reply. Otherwise the context is unchanged.
    fn evaluate_nested_goals(&mut self, cx: &mut Interner) -> Result<RoundsStep, EvalError>
        requires ready { IsReadyContext cx.old.entries self.old }
        ensures ready { IsReadyContext cx.new.entries self.new }
        ensures grows { Grows self.old.table self.new.table }
        ensures terms { EvalGrewOrFull cx.old cx.new result }
        ensures held { IfOk result (λ e. RoundsHeld cx.new.entries e) }
        ensures leaves { LeavesContext self.old self.new result }
        ensures runs { RoundsEnd self.old.mode cx.new.entries self.new.table (own_rounds cx.old.entries self.old) result }
    {
        let before = self.table.snapshot();
        match self.run_rounds(cx) {
            Ok(RoundsStep::Ended(left, certainty)) => Ok(RoundsStep::Ended(left, certainty)),
            Ok(RoundsStep::Waits(input, source)) => {
                self.table.roll_back(before);
                self.make_room()?;
                Ok(RoundsStep::Waits(input, source))
            }
            Err(error) => {
                self.table.roll_back(before);
                Err(error)
            }
        }
    }

    /// Runs the rounds with the replies so far. The table holds what they put into it, even if they do not end.
    fn run_rounds(&mut self, cx: &mut Interner) -> Result<RoundsStep, EvalError>
        requires ready { IsReadyContext cx.old.entries self.old }
        ensures ready { IsReadyContext cx.new.entries self.new }
        ensures grows { Grows self.old.table self.new.table }
        ensures terms { EvalGrewOrFull cx.old cx.new result }
        ensures held { IfOk result (λ e. RoundsHeld cx.new.entries e) }
        ensures rest { self.new ≡ record self.old { table = self.new.table } }
        ensures runs { RoundsEnd self.old.mode cx.new.entries self.new.table (own_rounds cx.old.entries self.old) result }
    {
        let goals = self.nested_goals.clone()?;
        let typing_mode = self.mode;
        let limit = FIXPOINT_STEP_LIMIT;
        rounds(
            cx,
            typing_mode,
            &mut self.table,
            limit,
            goals,
            &self.replies,
        )
    }

    /// Stores the remaining goals and uses up the replies.
    fn settle(&mut self, left: Vec<(GoalSource, Goal)>)
        ensures { self.new ≡ record self.old { nested = map nested_goal left.items; replies = [] } }
    {
        self.nested_goals = left;
        self.replies.clear();
    }

    /// Calls the closure and undoes its changes of the context: the table and the nested goals are as before. Terms that it
    /// interned remain, and so does the room for replies.
    ///
    /// The closure may only add to the table. It must not roll it back to an earlier snapshot. `AllocError` is returned before
    /// the closure is called. rustc: `EvalCtxt::probe` with its `enter`.
    pub fn probe<T, F: FnOnce(&mut EvalCtxt, &mut Interner) -> T + Drop>(
        &mut self,
        cx: &mut Interner,
        f: F,
    ) -> Result<T, AllocError>
        requires callable { TakesBoth F.FnOnce f self.old cx.old }
        requires undoable { IsUndoable F.FnOnce f self.old cx.old }
        ensures returned { IfOk result (λ r. (left : Context) × Returns F.FnOnce f self.old cx.old r left cx.new
            × (self.new ≡ record self.old { capacity = left.capacity })) }
        ensures refused { OnErr result ((self.new ≡ self.old) × (cx.new ≡ cx.old)) }
    {
        let place = self.table.snapshot();
        let nested_goals = self.nested_goals.clone()?;
        let outcome = f(self, cx);
        self.table.roll_back(place);
        self.nested_goals = nested_goals;
        Ok(outcome)
    }
}

/// Adds goals of one source at the end, in order. After an error some of them may have been added.
fn push_goals(
    nested_goals: &mut Vec<(GoalSource, Goal)>,
    source: GoalSource,
    goals: Vec<Goal>,
) -> Result<(), Fault>
    ensures added { OnOk result (map nested_goal nested_goals.new.items
        ≡ map nested_goal nested_goals.old.items ++ map (λ g. nested_goal (source, g)) goals.items) }
    ensures kept { take (length nested_goals.old.items) nested_goals.new.items ≡ nested_goals.old.items }
    ensures fault { IfErr result (λ e. e ≡ Fault.Memory) }
{
    for goal in goals {
        nested_goals.push((source, goal))?;
    }
    Ok(())
}
