//! What a search is given: a context with goals and results, and frames that evaluate a goal step by step.

ghost use Rattle.std.specs.Prelude.{◌≡◌, ◌↔◌, [], ℕ, ◌<◌, ◌≤◌, IfOk, IsSome, true, false};
ghost use Rattle.search_graph.specs.Meaning.{Meaning, KeepsContext, IsReply, IsDue, Steps, IsFair, IsLawful};
ghost use Rattle.type_terms.specs.declared.Fault.TheVariants.{Full};

use search_paths::PathKind;
use std::alloc::AllocError;
use std::hash::Hash;
use type_terms::Fault;

/// The types of a search, and how their values are copied.
///
/// `Cx` of `rustc_type_ir::search_graph`, where inputs and results are `Copy`.
pub trait Cx {
    /// A goal to be evaluated, as a key.
    type Input: Drop + Eq + Hash;
    /// The result of a goal.
    type Result: Drop + Eq;
    /// Why a result is ambiguous.
    type AmbiguityInfo: Drop;

    /// Returns the same input. Fails if memory is refused.
    fn copy_input(&self, input: &Self::Input) -> Result<Self::Input, AllocError>
        ensures copy { IfOk result (λ copy. copy ≡ input.now) };

    /// Returns the same result. Fails if memory is refused.
    fn copy_result(&self, of: &Self::Result) -> Result<Self::Result, AllocError>
        ensures copy { IfOk result (λ copy. copy ≡ of.now) };

    /// Inputs that are equal are the same value.
    ghost same_input: { (a b : Self.Input) → Self.Input.eq a b ≡ true → a ≡ b };

    /// Results that are equal are the same value.
    ghost same_result: { (a b : Self.Result) → Self.Result.eq a b ≡ true → a ≡ b };
}

/// The inputs of a delegate's context.
pub type InputOf<D> = <<D as Delegate>::Cx as Cx>::Input;

/// The results of a delegate's context.
pub type ResultOf<D> = <<D as Delegate>::Cx as Cx>::Result;

/// A request of a frame. A candidate is entered, evaluates its nested goals, and is finished before the next one is entered.
#[derive(Drop)]
pub enum Request<I, R> {
    /// Evaluates a nested goal, by a step of this kind.
    Evaluate(I, PathKind),
    /// Enters a candidate. The next nested goals are those of this candidate.
    EnterCandidate,
    /// Finishes the open candidate.
    FinishCandidate,
    /// Ignores a candidate that was finished, by its number: the frame's result does not depend on it. Each candidate at most once.
    IgnoreCandidate(usize),
    /// Ends the frame with this result.
    Done(R),
}

/// A reply to a frame.
#[derive(Drop)]
pub enum Reply<R> {
    /// The first reply, before any request.
    Begin,
    /// The result of the nested goal.
    Result(R),
    /// The candidate is open.
    Entered,
    /// The number of the candidate that was finished: how many of the frame were finished before it.
    Finished(usize),
    /// The candidate is ignored.
    Ignored,
}

/// How goals are evaluated. The ghost member `meaning` states what a delegate means. The search needs the delegate's clauses and the
/// laws of `lawful`:
///
/// - A yes follows by a rule from nested goals that were answered by a yes.
/// - An answer covers its goal if the replies to its frame did.
/// - A frame evaluates at most as many nested goals as its goal's number.
///
/// `Delegate` of `rustc_type_ir::search_graph`, with `start` and `step` in place of `compute_goal`.
pub trait Delegate {
    type Cx: Cx;
    /// The evaluation of one goal, between two of its steps.
    type Frame: Drop;

    /// How often a goal whose own result was read is run at most. 0 means once.
    const FIXPOINT_STEP_LIMIT: usize;
    /// After an overflow by depth, the further nested goals of a goal have its depth divided by this, rounded down.
    const DIVIDE_AVAILABLE_DEPTH_ON_OVERFLOW: usize;

    ghost FIXPOINT_STEP_LIMIT: { ℕ };

    ghost DIVIDE_AVAILABLE_DEPTH_ON_OVERFLOW: { ℕ };

    /// What contexts, inputs, results and frames stand for.
    ghost meaning: { Meaning Self.Cx Self.Cx.Input Self.Cx.Result Self.Frame };
    /// A number that decreases at each step of a frame. It depends on what the context declares.
    ghost steps_left: { Self.Cx → Self.Frame → ℕ };

    /// Returns the result of a goal that is reached again by a path of this kind before its first run ended.
    fn initial_provisional_result(
        cx: &mut Self::Cx,
        kind: PathKind,
        input: &InputOf<Self>,
    ) -> Result<ResultOf<Self>, Fault>
        requires { meaning.IsInput cx.old input.now }
        ensures keeps { KeepsContext meaning cx.old cx.new }
        ensures full { result ≡ Err Full → meaning.IsFull cx.new }
        ensures is { IfOk result (λ r. meaning.IsResult cx.new r
            × (meaning.answer_of cx.new r ≡ meaning.initial (meaning.world cx.old) (meaning.goal_of cx.old input.now) kind)) };

    /// Returns whether the goal's initial result for paths of this kind is this one.
    fn is_initial_provisional_result(
        cx: &Self::Cx,
        kind: PathKind,
        input: &InputOf<Self>,
        of: &ResultOf<Self>,
    ) -> bool
        requires input { meaning.IsInput cx.now input.now }
        requires known { meaning.IsResult cx.now of.now }
        ensures { result ≡ true → meaning.answer_of cx.now of.now ≡ meaning.initial (meaning.world cx.now) (meaning.goal_of cx.now input.now) kind };

    /// Returns the result of a nested goal of a goal of depth 0.
    fn stack_overflow_result(
        cx: &mut Self::Cx,
        input: &InputOf<Self>,
    ) -> Result<ResultOf<Self>, Fault>
        requires { meaning.IsInput cx.old input.now }
        ensures keeps { KeepsContext meaning cx.old cx.new }
        ensures full { result ≡ Err Full → meaning.IsFull cx.new }
        ensures is { IfOk result (λ r. meaning.IsResult cx.new r
            × (meaning.answer_of cx.new r ≡ meaning.stack_overflow (meaning.world cx.old) (meaning.goal_of cx.old input.now))) };

    /// Returns the result of a goal that was run as often as the limit allows.
    fn fixpoint_overflow_result(
        cx: &mut Self::Cx,
        input: &InputOf<Self>,
    ) -> Result<ResultOf<Self>, Fault>
        requires { meaning.IsInput cx.old input.now }
        ensures keeps { KeepsContext meaning cx.old cx.new }
        ensures full { result ≡ Err Full → meaning.IsFull cx.new }
        ensures is { IfOk result (λ r. meaning.IsResult cx.new r
            × (meaning.answer_of cx.new r ≡ meaning.fixpoint_overflow (meaning.world cx.old) (meaning.goal_of cx.old input.now))) };

    /// Returns why the result is ambiguous, if it is. A goal with such a result is not run again.
    fn is_ambiguous_result(
        cx: &Self::Cx,
        of: &ResultOf<Self>,
    ) -> Option<<Self::Cx as Cx>::AmbiguityInfo>
        requires { meaning.IsResult cx.now of.now }
        ensures { IsSome result ↔ (meaning.is_ambiguous (meaning.answer_of cx.now of.now) ≡ true) };

    /// Returns an ambiguous result for a goal that depends on an ambiguous one.
    fn propagate_ambiguity(
        cx: &mut Self::Cx,
        for_input: &InputOf<Self>,
        ambiguity_info: <Self::Cx as Cx>::AmbiguityInfo,
    ) -> Result<ResultOf<Self>, Fault>
        requires { meaning.IsInput cx.old for_input.now }
        ensures keeps { KeepsContext meaning cx.old cx.new }
        ensures full { result ≡ Err Full → meaning.IsFull cx.new }
        ensures known { IfOk result (meaning.IsResult cx.new) }
        ensures fair { IfOk result (λ r. IsFair meaning (meaning.world cx.old) (meaning.goal_of cx.old for_input.now) (meaning.answer_of cx.new r)) }
        ensures no_yes { IfOk result (λ r. meaning.is_yes (meaning.answer_of cx.new r) ≡ false) };

    /// Returns how many times more than once each nested goal of the goal counts, if the goal is uncached
    /// (`UNCACHED_QUESTIONS_LIMIT`). It estimates how much longer a nested goal takes than one of a small goal. No proof depends on it.
    fn cost_of(cx: &Self::Cx, input: &InputOf<Self>) -> usize
        requires { meaning.IsInput cx.now input.now };

    /// Starts a frame of a goal.
    fn start(cx: &mut Self::Cx, input: &InputOf<Self>) -> Result<Self::Frame, Fault>
        requires { meaning.IsInput cx.old input.now }
        ensures keeps { KeepsContext meaning cx.old cx.new }
        ensures full { result ≡ Err Full → meaning.IsFull cx.new }
        ensures started { IfOk result (λ f. meaning.HasHeard cx.new (meaning.goal_of cx.old input.now) [] f) };

    /// Gives a frame the reply that it waits for, and returns its next request.
    fn step(
        frame: &mut Self::Frame,
        cx: &mut Self::Cx,
        reply: Reply<ResultOf<Self>>,
    ) -> Result<Request<InputOf<Self>, ResultOf<Self>>, Fault>
        requires due { IsDue meaning cx.old frame.old reply }
        requires reply { IsReply meaning cx.old reply }
        ensures keeps { KeepsContext meaning cx.old cx.new }
        ensures full { result ≡ Err Full → meaning.IsFull cx.new }
        ensures steps { IfOk result (λ q. Steps meaning cx.old frame.old reply cx.new frame.new q) }
        ensures falls { IfOk result (λ q. steps_left cx.new frame.new < steps_left cx.old frame.old) };

    ghost lawful: { IsLawful meaning };

    /// A frame has no more steps left in a context that preserves what an earlier one has.
    ghost steps_kept: { (c d : Self.Cx) (goal : meaning.Goal) (heard : _) (f : Self.Frame) → KeepsContext meaning c d → meaning.HasHeard c goal heard f
        → steps_left d f ≤ steps_left c f };

    /// Results of equal answers are equal.
    ghost same_answer: { (c : Self.Cx) (r s : Self.Cx.Result) → meaning.IsResult c r → meaning.IsResult c s
        → meaning.answer_of c r ≡ meaning.answer_of c s → Self.Cx.Result.eq r s ≡ true };

    /// Dividing decreases the depth.
    ghost divides: { 2 ≤ DIVIDE_AVAILABLE_DEPTH_ON_OVERFLOW };
}
