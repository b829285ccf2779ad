//! The parts of an evaluation that evaluate no nested goal. Each has the clauses that the evaluation needs of it.

ghost use Rattle.std.specs.Prelude.{◌≡◌, [], ◌∷◌, ◌++◌, ◌+◌, ◌-◌, ◌^◌, ◌<◌, ◌≤◌, ◌||◌, ◌⊎◌, ℕ, min, max, slice_get, Some, IfOk, OnOk, IfSome, IsSome, IsPermutation, true, false, length};
ghost use Rattle.search_paths.specs.Heads.{AreReadByBoth, AreHeadsOfBoth};
ghost use Rattle.search_graph.specs.Turn.{IsInTurn, IsTurn};
ghost use Rattle.search_paths.specs.KeptPaths.{AreBelow, indices};
ghost use Rattle.search_graph.specs.Meaning.{KeepsContext, IsDue, IsReply, Steps};
ghost use Rattle.search_graph.specs.Chain.{AreInRange};
ghost use Rattle.search_paths.specs.Nested.{covered, one_goal, AsksAlone};
ghost use Rattle.search_graph.specs.Cache.{known_results, HasConflict, HoldsResult, IsNumberOf, KeepsNumbers, KeepsResults, AddsEvaluation, SaysSame};
ghost use Rattle.search_graph.specs.Stack.{span_of_newest, IsStack, IsProvisional, AreCached, IsClosedBy, IfUsable, HasBegun};
ghost use Rattle.search_graph.specs.Question.{AreEntriesOver, AreLeftOver, IsResultOver, EntriesStayWithin, IsWithinAsKept, IsReplyOver, IsFaithfulOver, IsKeptResult, IsNotPlainUpTo, IsWithinAsCached, IsWithinAsStack, KeepsWithin};

use crate::cache::CachedResults;
use crate::candidates::{Candidates, Turn};
use crate::delegate::{Delegate, InputOf, Reply, Request, ResultOf};
use crate::fault::{GraphFault, Stop};
use crate::provisional::{Entries, OVERFLOW_HEADS_LIMIT};
use crate::reads::CandidateReads;
use crate::search::{Evaluation, Outcome, Search, finish, reach_of};
use crate::stack::{Cycle, NestedGoal, StackEntry};
use search_paths::{Dependencies, EvaluationResult, PathKind, PathsToNested, nearest_head};
use std::alloc::AllocError;
use type_terms::Fault;

/// Returns the number of a goal, and a stored result of it that may be used at this depth: a provisional entry, or else a cached
/// result.
pub(crate) fn look_up<D: Delegate>(
    search: &Search<D>,
    cache: &mut CachedResults<D>,
    cx: &D::Cx,
    input: &InputOf<D>,
    step_kind: PathKind,
    depth: usize,
) -> Result<(usize, Option<EvaluationResult<ResultOf<D>>>), AllocError>
    requires cache { AreCached D.meaning (D.meaning.world cx.now) cx.now cache.old.entries.items }
    requires entries { AreEntriesOver D.meaning cx.now search.now.stack.items cache.old.asked.items search.now.entries.lists.items }
    ensures goals { KeepsNumbers D.Cx.Input.eq cache.old.goals.keys cache.new.goals.keys }
    ensures entries { cache.new.entries ≡ cache.old.entries }
    ensures asked_before { cache.new.asked ≡ cache.old.asked }
    ensures number { IfOk result (λ r. IsNumberOf D.Cx.Input.eq cache.new.goals.keys input.now r.0) }
    ensures range { IfOk result (λ r. IfSome r.1 (λ o. AreInRange cache.old.asked.items o.dependencies.nested_goals)) }
    ensures depth { IfOk result (λ r. IfSome r.1 (λ o. o.dependencies.encountered_overflow ≡ false → o.dependencies.required_depth ≤ depth)) }
    ensures kept { search.now.stack.items ≡ [] → IfOk result (λ r. IfSome r.1 (λ o. HoldsResult cache.old.entries.items input.now depth o.result)) }
    ensures answer { IfOk result
        (λ r. IfSome r.1 (λ o. IsReplyOver D.meaning cx.now search.now.stack.items input.now step_kind o.dependencies.heads.items cx.now o.result)) }
    ensures faithful { IfOk result (λ r. IfSome r.1 (IsFaithfulOver D.meaning cx.now search.now.stack.items input.now (depth + 1) cx.now)) }
    ensures within { IfOk result
        (λ r. IfSome r.1 (λ o. IsWithinAsKept D.meaning cx.now cache.old.entries.items search.now.entries.lists.items input.now o.result)) }
    ensures found { IfUsable cache.old.entries.items cache.old.asked.items search.now.stack.items input.now depth (IfOk result (λ r. IsSome r.1)) }
{
    let number = cache.number_of(cx, input)?;
    if let Some(at) = search.find_entry(number, input, step_kind, depth) {
        let reply = search.use_entry(cache, cx, at, input, step_kind)?;
        return Ok((number, Some(reply)));
    }
    match search.find_cached(cache, number, input, depth)? {
        Some(place) => {
            let cached = search.use_cached(cache, cx, place, input)?;
            Ok((number, Some(cached)))
        }
        None => Ok((number, None)),
    }
}

/// Returns the result of a goal that closes a cycle, with the goals that it depends on.
pub(crate) fn reply_in_cycle<D: Delegate>(
    search: &Search<D>,
    cx: &mut D::Cx,
    number: usize,
    input: &InputOf<D>,
    step_kind: PathKind,
    cycle: Cycle,
) -> Outcome<D>
    requires stack { IsStack D.meaning (D.meaning.world cx.old) [] cx.old search.now.stack.items }
    requires input { D.meaning.IsInput cx.old input.now }
    requires cycle { IsClosedBy search.now.stack.items input.now step_kind cycle }
    ensures keeps { KeepsContext D.meaning cx.old cx.new }
    ensures asked { IfOk result (λ o. AsksAlone number o.dependencies.nested_goals) }
    ensures depth { IfOk result (λ o. o.dependencies.required_depth ≡ 0) }
    ensures answer { IfOk result (λ o. IsReplyOver D.meaning cx.old search.now.stack.items input.now step_kind o.dependencies.heads.items cx.new o.result) }
    ensures faithful { IfOk result (λ o. (reach : ℕ) → IsFaithfulOver D.meaning cx.old search.now.stack.items input.now reach cx.new o) }
    ensures within { IfOk result (λ o. IsWithinAsStack D.meaning cx.old search.now.stack.items input.now cx.new o.result) }
    ensures goes_on { result ≡ Err Stop.Exhausted → ⊥ }
    ensures no_conflict { result ≡ Err (Stop.Fault GraphFault.Conflict) → ⊥ }
    ensures in_order { result ≡ Err (Stop.Fault GraphFault.Protocol) → ⊥ }
    ensures full { result ≡ Err (Stop.Fault GraphFault.Full) → D.meaning.IsFull cx.new }
{
    let answer = search.close_cycle(cx, input, step_kind, cycle)?;
    let mut dependencies = Dependencies::new(search.alloc);
    let paths = PathsToNested::from(cycle.path_kind);
    dependencies.read_head(cycle.index, paths, &search.stack[cycle.index].heads)?;
    dependencies.nested_goals.add_goal(number)?;
    Ok(EvaluationResult {
        result: answer,
        dependencies,
    })
}

/// Returns the number of the goal that asks, the newest of the stack, or else of the goal that is asked.
fn number_of_asking<D: Delegate>(
    search: &Search<D>,
    cache: &mut CachedResults<D>,
    cx: &D::Cx,
    input: &InputOf<D>,
) -> Result<usize, AllocError>
    ensures asking { IfOk result (λ number. (asking : _)
        → slice_get search.now.stack.items (length search.now.stack.items - 1) ≡ Some asking → number ≡ asking.number) }
    ensures goals { KeepsNumbers D.Cx.Input.eq cache.old.goals.keys cache.new.goals.keys }
    ensures entries { cache.new.entries ≡ cache.old.entries }
    ensures asked { cache.new.asked ≡ cache.old.asked }
{
    match search.stack.last() {
        Some(asking) => Ok(asking.number),
        None => cache.number_of(cx, input),
    }
}

/// Returns the result of a nested goal of a goal of depth 0.
///
/// The goal that asks is listed as a nested goal in place of the one that it asks, as `handle_overflow` of `rustc_type_ir::search_graph`
/// does. At depth 0 all answers are the same whatever is on the stack. Only where the goal that asks is there itself would it close a
/// cycle instead. So its result can be used again wherever it is not.
pub(crate) fn reply_with_overflow<D: Delegate>(
    search: &mut Search<D>,
    cache: &mut CachedResults<D>,
    cx: &mut D::Cx,
    input: InputOf<D>,
    step_kind: PathKind,
) -> Outcome<D>
    requires cache { AreCached D.meaning (D.meaning.world cx.old) cx.old cache.old.entries.items }
    requires input { D.meaning.IsInput cx.old input }
    ensures keeps { KeepsContext D.meaning cx.old cx.new }
    ensures stack { search.new.stack.items ≡ search.old.stack.items }
    ensures provisional { search.new.entries ≡ search.old.entries }
    ensures cache { AreCached D.meaning (D.meaning.world cx.new) cx.new cache.new.entries.items }
    ensures goals { KeepsNumbers D.Cx.Input.eq cache.old.goals.keys cache.new.goals.keys }
    ensures entries { cache.new.entries ≡ cache.old.entries }
    ensures asked_before { cache.new.asked ≡ cache.old.asked }
    ensures range { IfOk result (λ o. AreInRange cache.new.asked.items o.dependencies.nested_goals) }
    ensures answer { IfOk result (λ o. IsReplyOver D.meaning cx.old search.old.stack.items input step_kind o.dependencies.heads.items cx.new o.result) }
    ensures told { IfOk result (λ o. o.dependencies.encountered_overflow ≡ true) }
    ensures listed { IfOk result (λ o. (asking : _) → slice_get search.old.stack.items (length search.old.stack.items - 1) ≡ Some asking
        → AsksAlone asking.number o.dependencies.nested_goals) }
    ensures frames { search.new.frames ≡ search.old.frames }
    ensures limits { search.old.limits_met ≡ true → search.new.limits_met ≡ true }
    ensures noted { OnOk result (search.new.limits_met ≡ true) }
    ensures goes_on { result ≡ Err Stop.Exhausted → ⊥ }
    ensures no_conflict { result ≡ Err (Stop.Fault GraphFault.Conflict) → ⊥ }
    ensures in_order { result ≡ Err (Stop.Fault GraphFault.Protocol) → ⊥ }
    ensures full { result ≡ Err (Stop.Fault GraphFault.Full) → D.meaning.IsFull cx.new }
{
    let number = number_of_asking(search, cache, cx, &input)?;
    Ok(search.overflow(cx, number, &input, step_kind)?)
}

/// Pushes a goal, starts its frame, and returns the frame with its first request.
pub(crate) fn start_run<D: Delegate>(
    search: &mut Search<D>,
    cx: &mut D::Cx,
    entry: StackEntry<InputOf<D>, ResultOf<D>>,
) -> Result<(D::Frame, Request<InputOf<D>, ResultOf<D>>), Fault>
    requires input { D.meaning.IsInput cx.old entry.input }
    requires span { entry.span ≡ covered (span_of_newest search.old.stack.items) (one_goal entry.number) }
    ensures keeps { KeepsContext D.meaning cx.old cx.new }
    ensures stack { OnOk result (search.new.stack.items ≡ search.old.stack.items ++ entry ∷ []) }
    ensures none { OnOk result ((list : _) × (search.new.entries.lists.items ≡ search.old.entries.lists.items ++ list ∷ []) × (list.items ≡ [])) }
    ensures begun { IfOk result (λ r. HasBegun D.meaning cx.old entry.input cx.new r.0 r.1) }
    ensures counted { OnOk result (search.new.frames ≡ min (search.old.frames + 1) (2 ^ 64 - 1)) }

    // If the call fails, the frame may not have been started.
    ensures frames { search.new.frames ≤ search.old.frames + 1 }
    ensures rises { search.old.frames ≤ search.new.frames }
    ensures limits { search.new.limits_met ≡ search.old.limits_met }
    ensures full { result ≡ Err Fault.Full → D.meaning.IsFull cx.new }
{
    let mut frame = D::start(cx, &entry.input)?;
    search.begin(entry)?;
    let request = D::step(&mut frame, cx, Reply::Begin)?;
    Ok((frame, request))
}

/// Returns what is due after a request, and records the request in `candidates` and `reads`. Fails if the request is out of order
/// (`Protocol`), or if memory is refused.
pub(crate) fn take_turn<I: Drop, R: Drop>(
    candidates: &mut Candidates,
    reads: &mut CandidateReads,
    request: Request<I, R>,
) -> Result<Turn<I, R>, GraphFault>
    ensures turn { IfOk result
        (λ turn. IsTurn candidates.old.open candidates.old.finished.items request turn candidates.new.open candidates.new.finished.items) }
    ensures protocol { result ≡ Err GraphFault.Protocol → IsInTurn candidates.old.open candidates.old.finished.items request → ⊥ }
    ensures no_conflict { result ≡ Err GraphFault.Conflict → ⊥ }
    ensures room { result ≡ Err GraphFault.Full → ⊥ }
{
    reads.note(&request)?;
    candidates.take(request)
}

/// Adds the dependencies of a nested goal to those of its parent, and gives its result to the parent's frame. The results that the
/// nested goal read count for the open candidate, if there is one.
pub(crate) fn hear<D: Delegate>(
    frame: &mut D::Frame,
    cx: &mut D::Cx,
    dependencies: &mut Dependencies,
    reads: &mut CandidateReads,
    is_open: bool,
    nested: EvaluationResult<ResultOf<D>>,
) -> Result<Request<InputOf<D>, ResultOf<D>>, Fault>
    requires due { IsDue D.meaning cx.old frame.old (Reply.Result nested.result) }
    requires reply { IsReply D.meaning cx.old (Reply.Result nested.result) }
    ensures keeps { KeepsContext D.meaning cx.old cx.new }
    ensures steps { IfOk result (λ q. Steps D.meaning cx.old frame.old (Reply.Result nested.result) cx.new frame.new q) }
    ensures falls { IfOk result (λ q. D.steps_left cx.new frame.new < D.steps_left cx.old frame.old) }
    ensures overflow { OnOk result (dependencies.new.encountered_overflow
        ≡ (dependencies.old.encountered_overflow || nested.dependencies.encountered_overflow)) }
    ensures depth { OnOk result (dependencies.new.required_depth
        ≡ max dependencies.old.required_depth (min (nested.dependencies.required_depth + 1) (2 ^ 64 - 1))) }
    ensures unread { OnOk result (dependencies.old.heads.items ≡ [] → nested.dependencies.heads.items ≡ [] → dependencies.new.heads.items ≡ []) }
    ensures read { OnOk result (is_open ≡ false → AreReadByBoth dependencies.old.heads.items nested.dependencies.heads.items dependencies.new.heads.items) }
    ensures held { OnOk result (is_open ≡ true → AreReadByBoth reads.old.unfinished.items nested.dependencies.heads.items reads.new.unfinished.items) }
    ensures unread_yet { OnOk result (is_open ≡ true → AreReadByBoth dependencies.old.heads.items [] dependencies.new.heads.items) }
    ensures rests { OnOk result (AreHeadsOfBoth dependencies.old.heads.items nested.dependencies.heads.items dependencies.new.heads.items) }
    ensures goals { OnOk result (IsPermutation
        (dependencies.old.nested_goals.goals.items ++ nested.dependencies.nested_goals.goals.items) dependencies.new.nested_goals.goals.items) }
    ensures cached { OnOk result (IsPermutation
        (dependencies.old.nested_goals.cached.items ++ nested.dependencies.nested_goals.cached.items) dependencies.new.nested_goals.cached.items) }
    ensures span { OnOk result (dependencies.new.nested_goals.span ≡ covered dependencies.old.nested_goals.span nested.dependencies.nested_goals.span) }
    ensures full { result ≡ Err Fault.Full → D.meaning.IsFull cx.new }
{
    let EvaluationResult {
        result: answer,
        dependencies: mut more,
    } = nested;
    reads.hold(is_open, &mut more.heads)?;
    dependencies.gather(more)?;
    let request = D::step(frame, cx, Reply::Result(answer))?;
    Ok(request)
}

/// Returns whether an overflow by depth was met: earlier in the call, or as the nested goal reports.
pub(crate) fn is_met(before: bool, told: bool) -> bool
    ensures { result ≡ (before || told) }
{
    before || told
}

/// Ends the evaluation of a goal: counts it, and stores its result.
///
/// If the result depends on goals of the stack, it becomes a provisional entry, and the entries `left` of the goal's last run move to
/// their next heads. If it met an overflow by depth, that is so up to `OVERFLOW_HEADS_LIMIT` goals. Otherwise `finish` stores it.
pub(crate) fn conclude<D: Delegate>(
    search: &mut Search<D>,
    cache: &mut CachedResults<D>,
    cx: &D::Cx,
    goal: NestedGoal<InputOf<D>>,
    evaluation: EvaluationResult<ResultOf<D>>,
    left: Entries<D>,
) -> Outcome<D>
    requires cache { AreCached D.meaning (D.meaning.world cx.now) cx.now cache.old.entries.items }
    requires input { D.meaning.IsInput cx.now goal.input }
    requires nested { AreInRange cache.old.asked.items evaluation.dependencies.nested_goals }
    requires number { IsNumberOf D.Cx.Input.eq cache.old.goals.keys goal.input goal.number }
    requires alone { evaluation.dependencies.heads.items ≡ []
        → IsProvisional D.meaning (D.meaning.world cx.now) [] (D.meaning.goal_of cx.now goal.input, PathKind.Inductive) [] cx.now evaluation.result }
    requires kept { evaluation.dependencies.heads.items ≡ []
        → IsKeptResult D.meaning cx.now goal.input evaluation.result goal.depth evaluation.dependencies.encountered_overflow }
    requires entries { AreEntriesOver D.meaning cx.now search.old.stack.items cache.old.asked.items search.old.entries.lists.items }
    requires left { AreLeftOver D.meaning cx.now search.old.stack.items goal.input goal.step_kind cx.now cache.old.asked.items left.items }
    requires result { IsResultOver D.meaning cx.now search.old.stack.items goal.input goal.step_kind evaluation }
    requires below { AreBelow (length search.old.stack.items) (indices evaluation.dependencies.heads.items) }
    requires faithful { IsFaithfulOver D.meaning cx.now search.old.stack.items goal.input (goal.depth + 1) cx.now evaluation }
    ensures entries { OnOk result (AreEntriesOver D.meaning cx.now search.old.stack.items cache.new.asked.items search.new.entries.lists.items) }
    ensures entries_within { OnOk result
        (EntriesStayWithin D.meaning cx.now (search.old.entries.lists.items ++ left ∷ []) goal.input evaluation.result search.new.entries.lists.items) }
    ensures kept { OnOk result (evaluation.dependencies.heads.items ≡ []
        → AddsEvaluation cache.old.entries.items cache.new.entries.items cache.old.asked.items goal.input goal.number goal.depth evaluation) }
    ensures results { KeepsResults cache.old.entries.items cache.new.entries.items }
    ensures asked_before { KeepsResults cache.old.asked.items cache.new.asked.items }
    ensures goals { cache.new.goals ≡ cache.old.goals }
    ensures cache { AreCached D.meaning (D.meaning.world cx.now) cx.now cache.new.entries.items }
    ensures reply { IfOk result (SaysSame evaluation) }
    ensures range { IfOk result (λ o. AreInRange cache.new.asked.items o.dependencies.nested_goals) }
    ensures within { OnOk result (KeepsWithin D.meaning cx.now cache.old.entries.items goal.input evaluation.result cache.new.entries.items) }

    // A goal is never counted if its result depends on no other goal and it met no overflow.
    ensures exhausted { result ≡ Err Stop.Exhausted → (evaluation.dependencies.encountered_overflow ≡ true) ⊎ (evaluation.dependencies.heads.items ≡ [] → ⊥) }
    ensures no_conflict { result ≡ Err (Stop.Fault GraphFault.Conflict) → IsNotPlainUpTo D.meaning cx.now goal.input (goal.depth + 1) }
    ensures conflict { result ≡ Err (Stop.Fault GraphFault.Conflict) → HasConflict D.meaning cx.now (known_results cache.new.entries.items) }
    ensures in_order { result ≡ Err (Stop.Fault GraphFault.Protocol) → ⊥ }
    ensures room { result ≡ Err (Stop.Fault GraphFault.Full) → ⊥ }
    ensures stack { search.new.stack.items ≡ search.old.stack.items }
    ensures frames { search.new.frames ≡ search.old.frames }
    ensures limits { search.new.limits_met ≡ search.old.limits_met }
{
    let found = &evaluation.dependencies;
    let is_open = found.encountered_overflow || !found.heads.is_empty();
    let cost = D::cost_of(cx, &goal.input)
        .saturating_add(1)
        .saturating_mul(found.questions);
    let level = search.stack.len();
    if !search.budget.count_end(level, is_open, cost) {
        return Err(Stop::Exhausted);
    }
    let step_kind = goal.step_kind;
    if !found.encountered_overflow || found.heads.len() <= OVERFLOW_HEADS_LIMIT {
        if let Some(nearest) = nearest_head(&found.heads) {
            let reach = reach_of(goal.depth, found.encountered_overflow);
            let asked = cache.asked.len();
            let reply = search.leave(cache, cx, nearest, goal, evaluation)?;
            search.move_entries(left, step_kind, &reply, reach, asked)?;
            return Ok(reply);
        }
    }
    let alloc = search.alloc;
    Ok(finish(alloc, cache, cx, goal, evaluation)?)
}

/// Returns the result of a call from outside that is given up: an overflow by depth. It is cached for goals of this depth.
pub(crate) fn give_up<D: Delegate>(
    search: &mut Search<D>,
    cache: &mut CachedResults<D>,
    cx: &mut D::Cx,
    input: InputOf<D>,
    step_kind: PathKind,
    depth: usize,
) -> Evaluation<D>
    requires cache { AreCached D.meaning (D.meaning.world cx.old) cx.old cache.old.entries.items }
    requires input { D.meaning.IsInput cx.old input }
    requires not_plain { IsNotPlainUpTo D.meaning cx.old input (depth + 1) }
    ensures keeps { KeepsContext D.meaning cx.old cx.new }
    ensures stack { search.new.stack.items ≡ [] }
    ensures cache { AreCached D.meaning (D.meaning.world cx.new) cx.new cache.new.entries.items }
    ensures results { KeepsResults cache.old.entries.items cache.new.entries.items }
    ensures kept { IfOk result (λ o. HoldsResult cache.new.entries.items input depth o.result) }
    ensures answer { IfOk result (λ o. IsReplyOver D.meaning cx.old [] input step_kind o.dependencies.heads.items cx.new o.result) }
    ensures faithful { IfOk result (IsFaithfulOver D.meaning cx.old [] input (depth + 1) cx.new) }
    ensures frames { search.new.frames ≡ search.old.frames }
    ensures noted { search.new.limits_met ≡ true }
    ensures conflict { result ≡ Err GraphFault.Conflict → HasConflict D.meaning cx.new (known_results cache.new.entries.items) }
    ensures in_order { result ≡ Err GraphFault.Protocol → ⊥ }
    ensures full { result ≡ Err GraphFault.Full → D.meaning.IsFull cx.new }
{
    search.clear();
    search.limits_met = true;
    let number = cache.number_of(cx, &input)?;
    let overflow = search.overflow(cx, number, &input, step_kind)?;
    let alloc = search.alloc;
    let goal = NestedGoal {
        number,
        input,
        step_kind,
        depth,
    };
    finish(alloc, cache, cx, goal, overflow)
}
