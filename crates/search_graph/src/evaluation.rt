//! The search itself: goals that evaluate nested goals.

ghost use Rattle.std.specs.Prelude.{◌≡◌, [], ◌+◌, ◌*◌, ◌<◌, ◌≤◌, ◌⊎◌, length, max, IfOk, OnOk, true, false, cond};
ghost use Rattle.search_graph.specs.Meaning.{KeepsContext};
ghost use Rattle.search_graph.specs.Chain.{AreInRange};
ghost use Rattle.search_paths.specs.Nested.{covered, one_goal};
ghost use Rattle.search_graph.specs.Computed.{MakesMisstep};
ghost use Rattle.search_graph.specs.Cache.{known_results, HasConflict, IsNumberOf, KeepsResults, HoldsResult};
ghost use Rattle.search_graph.specs.Promised.FrameBound.{frame_bound};
ghost use Rattle.search_graph.specs.Bound.{question_bound, counted_before, IsCounted};
ghost use Rattle.search_paths.specs.KeptPaths.{AreBelow, indices};
ghost use Rattle.search_graph.specs.Stack.{steps_of, span_of_newest, IsStack, IsEntry, AreCached, IfUsable, IfUsableAlone};
ghost use Rattle.search_graph.specs.Question.{AreEntriesOver, AreLeftOver, IsReplyOver, IsRunOver, IsFaithfulOver, IsUntouchedOver, IsNotPlainOver, AreFramesWithin, StaysWithin};
ghost use Rattle.search_graph.specs.Unlimited.{SearchRunsWithin};
ghost use Rattle.search_graph.specs.Steps.{IsSearchStep, IsEvaluation};

use crate::cache::CachedResults;
use crate::candidates::{Candidates, Turn};
use crate::delegate::{Cx, Delegate, InputOf, ResultOf};
use crate::fault::{GraphFault, Stop};
use crate::provisional::Entries;
use crate::reads::CandidateReads;
use crate::search::{Evaluation, Outcome, Search, is_last_run, run_limit};
use crate::stack::{NestedGoal, StackEntry};
use crate::steps::{
    conclude, give_up, hear, is_met, look_up, reply_in_cycle, reply_with_overflow, start_run,
    take_turn,
};
use search_paths::{Dependencies, EvaluationResult, PathKind, take_head};

/// Returns the result of a root goal. If the call is given up, it is an overflow by depth, which is cached.
pub(crate) fn evaluate_root<D: Delegate>(
    search: &mut Search<D>,
    cache: &mut CachedResults<D>,
    cx: &mut D::Cx,
    input: InputOf<D>,
    step_kind: PathKind,
    depth: usize,
) -> Evaluation<D>
    requires empty { search.old.stack.items ≡ [] }
    requires begun { search.old.budget.counted ≡ counted_before search.old.spent }
    requires cache { AreCached D.meaning (D.meaning.world cx.old) cx.old cache.old.entries.items }
    requires input { D.meaning.IsInput cx.old input }
    ensures keeps { KeepsContext D.meaning cx.old cx.new }
    ensures stack { OnOk result (search.new.stack.items ≡ []) }
    ensures cache { AreCached D.meaning (D.meaning.world cx.new) cx.new cache.new.entries.items }
    ensures results { KeepsResults cache.old.entries.items cache.new.entries.items }
    ensures kept { IfOk result (λ o. HoldsResult cache.new.entries.items input depth o.result) }
    ensures answer { IfOk result (λ o. IsReplyOver D.meaning cx.old [] input step_kind o.dependencies.heads.items cx.new o.result) }
    ensures faithful { IfOk result (IsFaithfulOver D.meaning cx.old [] input (depth + 1) cx.new) }
    ensures no_conflict { result ≡ Err GraphFault.Conflict → IsNotPlainOver D.meaning cx.old [] input (depth + 1) }
    ensures protocol { result ≡ Err GraphFault.Protocol → MakesMisstep D.meaning (D.meaning.world cx.old) (D.meaning.goal_of cx.old input) }
    ensures conflict { result ≡ Err GraphFault.Conflict → HasConflict D.meaning cx.new (known_results cache.new.entries.items) }
    ensures frames { AreFramesWithin D.meaning cx.old input search.old.frames search.new.frames
        (λ width. frame_bound (max D.FIXPOINT_STEP_LIMIT 1) width depth) }
    ensures rises { search.old.frames ≤ search.new.frames }
    ensures counted { IfOk result (λ o. HoldsResult cache.old.entries.items input depth o.result ⊎ IsCounted search.old.frames search.new.frames) }
    ensures full { result ≡ Err GraphFault.Full → D.meaning.IsFull cx.new }
    ensures limits { search.old.limits_met ≡ true → search.new.limits_met ≡ true }
    ensures no_limit { search.old.limits_met ≡ false → search.new.limits_met ≡ true → IsNotPlainOver D.meaning cx.old [] input (depth + 1) }
    ensures within { IfOk result
        (λ o. StaysWithin D.meaning cx.old [] cache.old.entries.items input search.new.limits_met cx.new cache.new.entries.items o.result) }
    ensures cached { IfUsable cache.old.entries.items cache.old.asked.items [] input depth ((search.new.frames ≡ search.old.frames)
        × (cache.new.entries ≡ cache.old.entries)) }
    ensures known { IfUsable cache.old.entries.items cache.old.asked.items [] input depth
        (IfOk result (λ o. HoldsResult cache.old.entries.items input depth o.result)) }
{
    let again = cx.copy_input(&input)?;
    match evaluate(search, cache, cx, input, step_kind, depth) {
        Ok(evaluation) => Ok(evaluation),
        Err(Stop::Fault(fault)) => Err(fault),
        Err(Stop::Exhausted) => give_up(search, cache, cx, again, step_kind, depth),
    }
}

/// Returns the result of a goal that has this depth. `evaluate_goal` of `rustc_type_ir::search_graph`.
#[cycle(search)]
pub(crate) fn evaluate<D: Delegate>(
    search: &mut Search<D>,
    cache: &mut CachedResults<D>,
    cx: &mut D::Cx,
    input: InputOf<D>,
    step_kind: PathKind,
    depth: usize,
) -> Outcome<D>
    requires stack { IsStack D.meaning (D.meaning.world cx.old) [] cx.old search.old.stack.items }
    requires cache { AreCached D.meaning (D.meaning.world cx.old) cx.old cache.old.entries.items }
    requires entries { AreEntriesOver D.meaning cx.old search.old.stack.items cache.old.asked.items search.old.entries.lists.items }
    requires input { D.meaning.IsInput cx.old input }
    ensures step { IsSearchStep D.meaning cx.old search.old cache.old input (depth + 1)
        (λ width. frame_bound (max D.FIXPOINT_STEP_LIMIT 1) width depth) cx.new search.new cache.new result }
    ensures evaluation { IsEvaluation D.meaning cx.old search.old cache.old input step_kind (depth + 1) cx.new search.new cache.new result }
    ensures depth { IfOk result (λ o. o.dependencies.encountered_overflow ≡ false → o.dependencies.required_depth ≤ depth) }
    ensures kept { search.old.stack.items ≡ [] → IfOk result (λ o. HoldsResult cache.new.entries.items input depth o.result) }
    ensures counted { search.old.stack.items ≡ []
        → IfOk result (λ o. HoldsResult cache.old.entries.items input depth o.result ⊎ IsCounted search.old.frames search.new.frames) }
    ensures cached { IfUsable cache.old.entries.items cache.old.asked.items search.old.stack.items input depth (search.new.frames
        ≡ search.old.frames × cache.new.entries ≡ cache.old.entries) }
    ensures served { IfUsable cache.old.entries.items cache.old.asked.items search.old.stack.items input depth (result ≡ Err Stop.Exhausted → ⊥) }
    ensures known { IfUsableAlone cache.old.entries.items cache.old.asked.items search.old.stack.items input depth
        (IfOk result (λ o. HoldsResult cache.old.entries.items input depth o.result)) }
{
    let (number, found) = look_up(search, cache, cx, &input, step_kind, depth)?;
    if let Some(reply) = found {
        return Ok(reply);
    }
    match search.find_cycle(number, &input, step_kind) {
        Some(cycle) => reply_in_cycle(search, cx, number, &input, step_kind, cycle),
        None => evaluate_new(search, cache, cx, number, input, step_kind, depth),
    }
}

/// Returns the result of a goal that is not on the stack: runs it until its result no longer changes.
///
/// `evaluate_goal_in_task` of `rustc_type_ir::search_graph`.
#[cycle(search)]
fn evaluate_new<D: Delegate>(
    search: &mut Search<D>,
    cache: &mut CachedResults<D>,
    cx: &mut D::Cx,
    number: usize,
    input: InputOf<D>,
    step_kind: PathKind,
    depth: usize,
) -> Outcome<D>
    requires stack { IsStack D.meaning (D.meaning.world cx.old) [] cx.old search.old.stack.items }
    requires cache { AreCached D.meaning (D.meaning.world cx.old) cx.old cache.old.entries.items }
    requires entries { AreEntriesOver D.meaning cx.old search.old.stack.items cache.old.asked.items search.old.entries.lists.items }
    requires input { D.meaning.IsInput cx.old input }
    requires number { IsNumberOf D.Cx.Input.eq cache.old.goals.keys input number }
    ensures step { IsSearchStep D.meaning cx.old search.old cache.old input (depth + 1)
        (λ width. frame_bound (max D.FIXPOINT_STEP_LIMIT 1) width depth) cx.new search.new cache.new result }
    ensures evaluation { IsEvaluation D.meaning cx.old search.old cache.old input step_kind (depth + 1) cx.new search.new cache.new result }
    ensures depth { IfOk result (λ o. o.dependencies.encountered_overflow ≡ false → o.dependencies.required_depth ≤ depth) }
    ensures kept { search.old.stack.items ≡ [] → IfOk result (λ o. HoldsResult cache.new.entries.items input depth o.result) }
    ensures counted { OnOk result (IsCounted search.old.frames search.new.frames) }
{
    let index = search.stack.len();
    let mut entry = search.new_entry(number, input, step_kind);
    let mut dependencies = Dependencies::new(search.alloc);
    let limit = run_limit::<D>();
    for _run in 0..limit {
        // After each run but the last, the entries are dropped whose nearest head is this goal.
        let (back, outcome, left) = run_once(search, cache, cx, entry, dependencies, depth)?;
        let EvaluationResult {
            result: answer,
            dependencies: mut found,
        } = outcome;
        let read = take_head(&mut found.heads, index);
        if is_last_run::<D>(cx, &back, read, &answer) {
            let evaluation = EvaluationResult {
                result: answer,
                dependencies: found,
            };
            let goal = NestedGoal {
                number,
                input: back.into_input(),
                step_kind,
                depth,
            };
            return conclude(search, cache, cx, goal, evaluation, left);
        }
        entry = back.next_run(search.alloc, answer, &found)?;
        dependencies = found;
    }
    search.limits_met = true;
    let answer = D::fixpoint_overflow_result(cx, &entry.input)?;
    let evaluation = EvaluationResult {
        result: answer,
        dependencies,
    };
    let goal = NestedGoal {
        number,
        input: entry.into_input(),
        step_kind,
        depth,
    };
    conclude(search, cache, cx, goal, evaluation, Vec::new(search.alloc))
}

/// Runs a goal once, and adds its dependencies to those of the earlier runs. Returns the goal's stack entry, its result, and the
/// provisional entries whose nearest head it is.
///
/// A frame that is stored between two steps, to be resumed in place of this loop, would be stored next to its stack entry.
#[cycle(search)]
fn run_once<D: Delegate>(
    search: &mut Search<D>,
    cache: &mut CachedResults<D>,
    cx: &mut D::Cx,
    entry: StackEntry<InputOf<D>, ResultOf<D>>,
    earlier: Dependencies,
    depth: usize,
) -> Result<
    (
        StackEntry<InputOf<D>, ResultOf<D>>,
        EvaluationResult<ResultOf<D>>,
        Entries<D>,
    ),
    Stop,
>
    requires stack { IsStack D.meaning (D.meaning.world cx.old) [] cx.old search.old.stack.items }
    requires cache { AreCached D.meaning (D.meaning.world cx.old) cx.old cache.old.entries.items }
    requires entries { AreEntriesOver D.meaning cx.old search.old.stack.items cache.old.asked.items search.old.entries.lists.items }
    requires entry { IsEntry D.meaning (D.meaning.world cx.old) (steps_of D.meaning cx.old search.old.stack.items) cx.old entry }
    requires below { AreBelow (length search.old.stack.items) (indices earlier.heads.items) }
    requires span { entry.span ≡ covered (span_of_newest search.old.stack.items) (one_goal entry.number) }
    requires nested { AreInRange cache.old.asked.items earlier.nested_goals }
    requires depth { earlier.encountered_overflow ≡ false → earlier.required_depth ≤ depth }
    requires earlier { IsUntouchedOver D.meaning cx.old search.old.stack.items entry.input (depth + 1) earlier }
    ensures step { IsSearchStep D.meaning cx.old search.old cache.old entry.input (depth + 1)
        (λ width. 1 + width * question_bound (max D.FIXPOINT_STEP_LIMIT 1) width depth) cx.new search.new cache.new result }
    ensures left { IfOk result (λ p. AreLeftOver D.meaning cx.old search.old.stack.items entry.input entry.step_kind cx.new cache.new.asked.items p.2.items) }
    ensures range { IfOk result (λ p. AreInRange cache.new.asked.items p.1.dependencies.nested_goals) }
    ensures depth { IfOk result (λ p. p.1.dependencies.encountered_overflow ≡ false → p.1.dependencies.required_depth ≤ depth) }
    ensures entry { IfOk result (λ p. p.0 ≡ entry) }
    ensures provisional { IfOk result (λ p. IsRunOver D.meaning cx.old search.old.stack.items entry p.1.dependencies.heads.items cx.new p.1.result) }
    ensures faithful { IfOk result (λ p. IsFaithfulOver D.meaning cx.old search.old.stack.items entry.input (depth + 1) cx.new p.1) }
    ensures counted { OnOk result (IsCounted search.old.frames search.new.frames) }
    ensures within { IfOk result (λ p. SearchRunsWithin D.meaning cx.old search.old cache.old entry cx.new search.new cache.new p.1.result p.2) }
{
    let (mut frame, mut request) = start_run(search, cx, entry)?;
    let mut dependencies = earlier;
    let mut reads = CandidateReads::new(search.alloc);
    let mut candidates = Candidates::new(search.alloc);
    loop {
        let turn = take_turn(&mut candidates, &mut reads, request)?;
        match turn {
            Turn::Ask(input, step_kind) => {
                let overflowed = dependencies.encountered_overflow;
                let nested = ask(search, cache, cx, input, step_kind, depth, overflowed)?;
                let is_open = candidates.open;
                request = hear::<D>(
                    &mut frame,
                    cx,
                    &mut dependencies,
                    &mut reads,
                    is_open,
                    nested,
                )?;
            }
            Turn::Tell(reply) => request = D::step(&mut frame, cx, reply)?,
            Turn::End(answer) => {
                let Some((entry, left)) = search.pop() else {
                    unreachable!()
                };
                reads.count(&mut dependencies.heads);
                return Ok((
                    entry,
                    EvaluationResult {
                        result: answer,
                        dependencies,
                    },
                    left,
                ));
            }
        }
    }
}

/// Returns the result of a nested goal of a goal with this depth, which may have met an overflow by depth.
#[cycle(search)]
fn ask<D: Delegate>(
    search: &mut Search<D>,
    cache: &mut CachedResults<D>,
    cx: &mut D::Cx,
    input: InputOf<D>,
    step_kind: PathKind,
    depth: usize,
    overflowed: bool,
) -> Outcome<D>
    requires stack { IsStack D.meaning (D.meaning.world cx.old) [] cx.old search.old.stack.items }
    requires cache { AreCached D.meaning (D.meaning.world cx.old) cx.old cache.old.entries.items }
    requires entries { AreEntriesOver D.meaning cx.old search.old.stack.items cache.old.asked.items search.old.entries.lists.items }
    requires input { D.meaning.IsInput cx.old input }
    ensures step { IsSearchStep D.meaning cx.old search.old cache.old input (cond overflowed 0 depth)
        (λ width. question_bound (max D.FIXPOINT_STEP_LIMIT 1) width depth) cx.new search.new cache.new result }
    ensures evaluation { IsEvaluation D.meaning cx.old search.old cache.old input step_kind (cond overflowed 0 depth) cx.new search.new cache.new result }
    ensures depth { IfOk result (λ o. o.dependencies.encountered_overflow ≡ false → o.dependencies.required_depth < depth) }
{
    let level = search.stack.len();
    let Some(nested) = search.budget.depth_for::<D>(level, depth, overflowed) else {
        return reply_with_overflow(search, cache, cx, input, step_kind);
    };
    let mut reply = evaluate(search, cache, cx, input, step_kind, nested)?;
    let marked = search.budget.end_nested(level, &reply.dependencies);
    let told = is_met(reply.dependencies.encountered_overflow, marked);
    search.limits_met = is_met(search.limits_met, marked);
    reply.dependencies.encountered_overflow = told;
    Ok(reply)
}
