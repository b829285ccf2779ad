//! Candidates that can be resumed where they stopped.
ghost use Rattle.std.specs.Prelude.{◌≡◌, ℕ, ◌+◌, ◌*◌, length, ◌∷◌, ◌++◌, [], ◌||◌, true, false, map, option_map, IfOk, IfErr, Some, Err};
ghost use Rattle.type_terms.specs.Promised.Handles.{ArgsHeld};
ghost use Rattle.infer_table.specs.Certainties.{joined};
ghost use Rattle.infer_table.specs.Responses.{answer_trees};
ghost use Rattle.goal_evaluator.specs.Context.{NestedHeld, GoalIsHeld, nested_goal};
ghost use Rattle.goal_evaluator.specs.Evaluating.{certainty_with};
ghost use Rattle.goal_evaluator.specs.declared.TheConstants.{FIXPOINT_STEP_LIMIT};
ghost use Rattle.goal_evaluator.specs.Readings.{ResultHeld};
ghost use Rattle.goal_evaluator.specs.Shortages.{EvalGrewOrFull};
ghost use Rattle.goal_evaluator.specs.Script.{done};
ghost use Rattle.goal_evaluator.specs.OpenCandidates.{answer_with, rest_script, rounds_script, after_reply, StandsAt, EvaluationHeld, OpenHeld, CandidateHeld, CandidateIsOver, brings_values, is_definite, most_questions, questions_left, AsksAtMost};
ghost use Rattle.goal_evaluator.specs.Replayed.{BeginningReplays, ResumingReplays};

use crate::FIXPOINT_STEP_LIMIT;
use crate::context::EvalCtxt;
use crate::error::EvalError;
use crate::goal::GoalSource;
use crate::rounds::{apply_response, has_values, is_certain, question_for};
use infer_table::canonical::CanonicalVarKind;
use infer_table::certainty::{Certainty, MaybeCause, TypingMode};
use infer_table::goal::Goal;
use infer_table::infer_ctxt::InferCtxt;
use infer_table::input::{CanonicalInput, Canonicalized};
use infer_table::response::CanonicalResponse;
use std::alloc::{AllocError, Global};
use std::collections::VecDeque;
use std::marker::Model;
use type_terms::Fault;
use type_terms::interner::Interner;
use type_terms::kinds::GenericArgKind;

/// The state in which a candidate is evaluated: its table, the kinds and values of the goal's variables, and the candidate's
/// greatest certainty.
pub(crate) struct Evaluation {
    pub(crate) mode: TypingMode,
    pub(crate) table: InferCtxt,
    pub(crate) variables: Vec<CanonicalVarKind>,
    pub(crate) own: Vec<GenericArgKind>,
    pub(crate) certainty: Certainty,
}

// Hand-written so that the prover sees one drop call: docs/PROVING.md#drop.
impl Drop for Evaluation {
    fn drop(self) {
        let Evaluation {
            mode: _,
            table: _,
            variables: _,
            own: _,
            certainty: _,
        } = self;
    }
}

/// A round in progress: the goals that stay, in order, whether a response had values, and the joined certainty of the responses
/// to the goals that stay.
#[derive(Drop)]
pub(crate) struct OpenRound {
    left: VecDeque<(GoalSource, Goal)>,
    changed: bool,
    certainty: Certainty,
}

/// A candidate that waits for the response to a nested goal.
pub struct OpenCandidate {
    evaluation: Evaluation,
    /// The greatest number of rounds after this one.
    rounds_left: usize,
    round: OpenRound,
    /// The nested goal for which it waits, and the values of its canonical variables.
    goal: (GoalSource, Goal),
    values: Vec<GenericArgKind>,
    /// The goals that follow in this round.
    goals: VecDeque<(GoalSource, Goal)>,
}

// Hand-written so that the prover sees one drop call: docs/PROVING.md#drop.
impl Drop for OpenCandidate {
    fn drop(self) {
        let OpenCandidate {
            evaluation: _,
            rounds_left: _,
            round: _,
            goal: _,
            values: _,
            goals: _,
        } = self;
    }
}

/// A candidate that waits for the response to a nested goal, on the heap.
///
/// Compiled code has a place on the stack for each move of a value, and clears it before. So a frame that has an open candidate by
/// value takes its size many times with each reply, also for goals whose candidates are not open.
pub struct BoxedCandidate {
    candidate: Box<OpenCandidate>,
}

impl Model for BoxedCandidate {
    ghost use Rattle.goal_evaluator.specs.declared.resuming.OpenCandidate.{OpenCandidate};

    ghost Value = { OpenCandidate };

    ghost view = { λ b. b.candidate.value };
}

// Hand-written so that the prover sees one drop call: docs/PROVING.md#drop. It is not inlined, since it has room for a whole
// candidate.
impl Drop for BoxedCandidate {
    #[inline(never)]
    fn drop(self) {
        let BoxedCandidate { candidate: _ } = self;
    }
}

/// The result of a call that evaluates a candidate.
#[derive(Drop)]
pub enum CandidateStep {
    /// The candidate's answer.
    Ready(CanonicalResponse),
    /// The candidate waits for the response to this nested goal. `BoxedCandidate::resume` continues with it.
    Ask(BoxedCandidate, CanonicalInput, GoalSource),
}

/// The response with this certainty that has no variables, values and constraints.
fn bare_response(alloc: Global, certainty: Certainty) -> CanonicalResponse
    ensures variables { result.variables.items ≡ [] }
    ensures certainty { result.certainty ≡ certainty }
    ensures values { result.var_values.items ≡ [] }
    ensures constraints { result.region_constraints.items ≡ [] }
{
    CanonicalResponse {
        variables: Vec::new(alloc),
        certainty,
        var_values: Vec::new(alloc),
        region_constraints: Vec::new(alloc),
    }
}

impl OpenRound {
    /// A new round.
    fn new(alloc: Global) -> OpenRound
        ensures left { result.left.items ≡ [] }
        ensures changed { result.changed ≡ false }
        ensures certainty { result.certainty ≡ Certainty.Yes }
    {
        OpenRound {
            left: VecDeque::new(alloc),
            changed: false,
            certainty: Certainty::Yes,
        }
    }

    /// How certain it is that all goals hold, if this round is the last.
    fn certainty_of_goals(&self) -> Certainty
        ensures { result ≡ certainty_with (map nested_goal self.now.left.items) self.now.certainty }
    {
        if self.left.is_empty() {
            Certainty::Yes
        } else {
            Certainty::Maybe(MaybeCause::Ambiguity).and(self.certainty)
        }
    }

    /// The round after this response to the goal. A definite yes drops the goal. Any other response preserves it.
    fn judge(
        self,
        cx: &Interner,
        goal: (GoalSource, Goal),
        response: &CanonicalResponse,
    ) -> Result<OpenRound, Fault>
        requires { ArgsHeld cx.now.entries response.now.var_values.items }
        ensures dropped { is_definite cx.now.entries response.now ≡ true → IfOk result (λ r. r ≡ self) }
        ensures left { is_definite cx.now.entries response.now ≡ false → IfOk result (λ r. r.left.items ≡ self.left.items ++ goal ∷ []) }
        ensures changed { is_definite cx.now.entries response.now ≡ false
            → IfOk result (λ r. r.changed ≡ self.changed || brings_values cx.now.entries response.now) }
        ensures certainty { is_definite cx.now.entries response.now ≡ false → IfOk result (λ r. r.certainty ≡ joined self.certainty response.now.certainty) }
        ensures fault { IfErr result (λ e. e ≡ Fault.Memory) }
    {
        let came = has_values(cx, response);
        if is_certain(response.certainty) && !came {
            return Ok(self);
        }
        let OpenRound {
            mut left,
            changed,
            certainty,
        } = self;
        left.push_back(goal)?;
        Ok(OpenRound {
            left,
            changed: changed || came,
            certainty: certainty.and(response.certainty),
        })
    }
}

impl Evaluation {
    /// Waits for the response to this goal. The other goals follow in the same round.
    fn ask(
        self,
        cx: &mut Interner,
        rounds_left: usize,
        round: OpenRound,
        goal: (GoalSource, Goal),
        goals: VecDeque<(GoalSource, Goal)>,
    ) -> Result<CandidateStep, EvalError>
        requires evaluation { EvaluationHeld cx.old.entries self }
        requires left { NestedHeld cx.old.entries (map nested_goal round.left.items) }
        requires goal { GoalIsHeld cx.old.entries (nested_goal goal) }
        requires goals { NestedHeld cx.old.entries (map nested_goal goals.items) }
        ensures terms { EvalGrewOrFull cx.old cx.new result }
        ensures held { IfOk result (λ s. CandidateHeld cx.new.entries s) }
        ensures stands { StandsAt cx.new.entries (rest_script cx.old.entries self rounds_left round (goal ∷ goals.items)) result }
        ensures most { IfOk result (AsksAtMost (most_questions rounds_left (length round.left.items) (length goals.items + 1))) }
    {
        let asked = question_for(cx.allocator(), cx, self.mode, &self.table, &goal)?;
        let Canonicalized { input, values } = asked;
        let source = goal.0;
        let waiting = OpenCandidate {
            evaluation: self,
            rounds_left,
            round,
            goal,
            values,
            goals,
        };
        let boxed = BoxedCandidate::new(cx.allocator(), waiting)?;
        Ok(CandidateStep::Ask(boxed, input, source))
    }

    /// Whether the response to the goal can have no part but its certainty: the goal has no variables, and nothing is recorded of
    /// lifetimes.
    fn is_closed(&self) -> bool
        ensures variables { result ≡ true → self.now.variables.items ≡ [] }
        ensures own { result ≡ true → self.now.own.items ≡ [] }
        ensures constraints { result ≡ true → self.now.table.constraints ≡ [] }
    {
        self.variables.is_empty()
            && self.own.is_empty()
            && self.table.region_constraints().is_empty()
    }

    /// The candidate's response. Its certainty joins that of the candidate with that of its goals.
    fn answer(self, cx: &mut Interner, of_goals: Certainty) -> Result<CandidateStep, EvalError>
        requires evaluation { EvaluationHeld cx.old.entries self }
        ensures terms { EvalGrewOrFull cx.old cx.new result }
        ensures held { IfOk result (λ s. CandidateHeld cx.new.entries s) }
        ensures stands { StandsAt cx.new.entries (done (Some (answer_with cx.old.entries self of_goals))) result }
        ensures over { IfOk result CandidateIsOver }
    {
        if self.is_closed() {
            let certainty = self.certainty.and(of_goals);
            return Ok(CandidateStep::Ready(bare_response(cx.allocator(), certainty)));
        }
        let Evaluation {
            mode,
            table,
            variables,
            own,
            certainty,
        } = self;
        let context = EvalCtxt::new(table, mode, variables, own);
        let answer = context.answer(cx, certainty.and(of_goals))?;
        Ok(CandidateStep::Ready(answer))
    }

    /// Continues with the next goal. If there is none, starts the next round or returns the candidate's response.
    fn go_on(
        self,
        cx: &mut Interner,
        rounds_left: usize,
        round: OpenRound,
        mut goals: VecDeque<(GoalSource, Goal)>,
    ) -> Result<CandidateStep, EvalError>
        requires evaluation { EvaluationHeld cx.old.entries self }
        requires left { NestedHeld cx.old.entries (map nested_goal round.left.items) }
        requires goals { NestedHeld cx.old.entries (map nested_goal goals.items) }
        ensures terms { EvalGrewOrFull cx.old cx.new result }
        ensures held { IfOk result (λ s. CandidateHeld cx.new.entries s) }
        ensures stands { StandsAt cx.new.entries (rest_script cx.old.entries self rounds_left round goals.items) result }
        ensures most { IfOk result (AsksAtMost (most_questions rounds_left (length round.left.items) (length goals.items))) }
    {
        if let Some(goal) = goals.pop_front() {
            return self.ask(cx, rounds_left, round, goal, goals);
        }
        if !round.changed {
            let certainty = round.certainty_of_goals();
            return self.answer(cx, certainty);
        }
        if rounds_left == 0 {
            return self.answer(cx, Certainty::Maybe(MaybeCause::Overflow));
        }
        let next = OpenRound::new(cx.allocator());
        self.go_on(cx, rounds_left - 1, next, round.left)
    }

    /// Starts the rounds for these goals.
    pub(crate) fn begin_rounds(
        self,
        alloc: Global,
        cx: &mut Interner,
        goals: VecDeque<(GoalSource, Goal)>,
    ) -> Result<CandidateStep, EvalError>
        requires evaluation { EvaluationHeld cx.old.entries self }
        requires goals { NestedHeld cx.old.entries (map nested_goal goals.items) }
        ensures terms { EvalGrewOrFull cx.old cx.new result }
        ensures held { IfOk result (λ s. CandidateHeld cx.new.entries s) }
        ensures stands { StandsAt cx.new.entries (rounds_script cx.old.entries self goals.items) result }
        ensures most { IfOk result (AsksAtMost (FIXPOINT_STEP_LIMIT * length goals.items)) }
    {
        let round = OpenRound::new(alloc);
        self.go_on(cx, FIXPOINT_STEP_LIMIT - 1, round, goals)
    }
}

impl BoxedCandidate {
    /// This candidate, on the heap.
    fn new(alloc: Global, candidate: OpenCandidate) -> Result<BoxedCandidate, AllocError>
        ensures { IfOk result (λ b. b ≡ candidate) }
    {
        let candidate = Box::new(alloc, candidate)?;
        Ok(BoxedCandidate { candidate })
    }

    /// Continues with the response to the nested goal for which the candidate waits. `None` means that the goal has no solution.
    ///
    /// The result is the same as evaluating the candidate anew with all replies so far (`resuming_replays`), but no reply is
    /// applied twice. `NoSolution` is returned if the goal has no solution or its response cannot be applied. `Full` is returned
    /// only if some kind of term has reached the interner's limit, and `Memory` also if there is no number for a variable.
    pub fn resume(
        self,
        alloc: Global,
        cx: &mut Interner,
        reply: Option<CanonicalResponse>,
    ) -> Result<CandidateStep, EvalError>
        requires held { OpenHeld cx.old.entries self }
        requires reply { ResultHeld cx.old.entries reply }
        ensures terms { EvalGrewOrFull cx.old cx.new result }
        ensures held { IfOk result (λ s. CandidateHeld cx.new.entries s) }
        ensures stands { StandsAt cx.new.entries (after_reply cx.old.entries self (option_map (answer_trees cx.old.entries) reply)) result }

        // The number of nested goals that may follow decreases.
        ensures fewer { IfOk result (λ s. (n : ℕ) → n + 1 ≡ questions_left self → AsksAtMost n s) }
    {
        let BoxedCandidate { candidate } = self;
        Box::into_inner(candidate).resume(alloc, cx, reply)
    }
}

impl OpenCandidate {
    /// `BoxedCandidate::resume`, of a candidate by value.
    fn resume(
        self,
        alloc: Global,
        cx: &mut Interner,
        reply: Option<CanonicalResponse>,
    ) -> Result<CandidateStep, EvalError>
        requires held { OpenHeld cx.old.entries self }
        requires reply { ResultHeld cx.old.entries reply }
        ensures terms { EvalGrewOrFull cx.old cx.new result }
        ensures held { IfOk result (λ s. CandidateHeld cx.new.entries s) }
        ensures stands { StandsAt cx.new.entries (after_reply cx.old.entries self (option_map (answer_trees cx.old.entries) reply)) result }
        ensures fewer { IfOk result (λ s. (n : ℕ) → n + 1 ≡ questions_left self → AsksAtMost n s) }
    {
        let OpenCandidate {
            mut evaluation,
            rounds_left,
            round,
            goal,
            values,
            goals,
        } = self;
        let Some(response) = reply else {
            return Err(EvalError::NoSolution);
        };
        apply_response(alloc, cx, &mut evaluation.table, &values, &response)?;
        let round = round.judge(cx, goal, &response)?;
        evaluation.go_on(cx, rounds_left, round, goals)
    }
}

/// A resumed candidate has the same result, or waits for the same nested goal, as evaluating it anew with all its replies.
pub fn resuming_replays()
    ensures begins { BeginningReplays }
    ensures goes_on { ResumingReplays }
{}
