//! The goals that are being evaluated, and the steps of their evaluation that evaluate no nested goal.

ghost use Rattle.std.specs.Prelude.{◌≡◌, [], ◌∷◌, ℕ, ◌+◌, ◌-◌, ◌^◌, ◌/◌, ◌<◌, ◌≤◌, ◌↔◌, ◌++◌, ◌⊎◌, length, max};
ghost use Rattle.std.specs.Prelude.{min, IfOk, IfSome, IfNone, IsSome, OnOk, OnErr, None, nat_eq, slice_get, drop, true, false, option_to_list};
ghost use Rattle.std.proofs.Props.{props};
ghost use Rattle.indexmap.specs.IndexMap.{get};
ghost use Rattle.search_paths.specs.Nested.{covered, one_goal, AsksAlone, UsesAlone, AlsoAsks};
ghost use Rattle.search_graph.specs.Chain.{AreInRange, AreInRanges, IsUsableAt, NoneIsUsable};
ghost use Rattle.search_graph.specs.Meaning.{KeepsContext};
ghost use Rattle.search_paths.specs.Heads.{RestsOn};
ghost use Rattle.search_paths.specs.KeptPaths.{indices, AreBelow};
ghost use Rattle.search_graph.specs.Cache.{known_results, HasConflict, IsNumberOf, KeepsResults, IsReplyOf, AddsAsked, AddsEvaluation, SaysSame};
ghost use Rattle.search_graph.specs.Plain.{IsNotPlain};
ghost use Rattle.search_graph.specs.Stack.{place_of, oldest_of, span_of_newest, IsStack, IsProvisional, IsUnread, IsSettled, AreCached, IsOnStack, IsClosedBy};
ghost use Rattle.search_graph.specs.Provisional.{IsServingAt, IsEntryAt, NoneServes, AddsEntry, AreMoved};
ghost use Rattle.search_graph.specs.Question.{AreEntriesOver, IsWithinAsEntries, EntriesStayWithin, IsResultOver, IsReplyOver, IsReadOver, IsInitial, IsFaithfulOver, IsKeptResult, IsWithinAsCached, IsWithinAsStack, KeepsWithin};

use crate::budget::Budget;
use crate::cache::{Cached, CachedResults};
use crate::delegate::{Cx, Delegate, InputOf, ResultOf};
use crate::fault::{GraphFault, Stop};
use crate::moves::move_entries;
use crate::provisional::{Entries, ProvisionalEntries, ProvisionalEntry};
use crate::stack::{
    Cycle, NestedGoal, StackEntry, add_place, find_cycle, kind_of_path, remove_place,
};
use bitflags::Flags;
use indexmap::IndexMap;
use search_paths::{Dependencies, EvaluationResult, NestedGoals, PathKind, PathsToNested, Span};
use std::alloc::{AllocError, Global};
use std::mem;
use type_terms::Fault;

/// The result of a nested goal, with what it depends on.
pub type Evaluation<D> = Result<EvaluationResult<ResultOf<D>>, GraphFault>;

/// The same, if the call from outside may be given up during the evaluation.
pub(crate) type Outcome<D> = Result<EvaluationResult<ResultOf<D>>, Stop>;

/// The goals that are being evaluated, and what was counted.
pub struct Search<D: Delegate> {
    /// The allocator.
    pub alloc: Global,
    /// The goals that are being evaluated. Each is a nested goal of the one preceding it.
    pub stack: Vec<StackEntry<InputOf<D>, ResultOf<D>>>,
    /// The index of each goal of the stack, by its number.
    positions: IndexMap<usize, usize>,
    ghost placed: { (number : ℕ) → get nat_eq positions number ≡ place_of stack.items number } by { Prim.hlevel props },
    ghost ranges: { AreInRanges stack.items } by { Prim.hlevel props },
    /// The results that depend on goals of the stack. Each goal of the stack has a list of the results whose nearest head it is.
    pub entries: ProvisionalEntries<D>,
    pub ghost listed: { length entries.lists.items ≡ length stack.items } by { Prim.hlevel props },
    /// Whether the limit of the depth or of the runs gave a result, goals ran out, or a call was given up.
    pub limits_met: bool,
    /// The number of frames that were started, at most `u64::MAX`.
    pub frames: u64,
    /// What was counted up to this call from outside, and how far it may go.
    pub(crate) budget: Budget,
    /// What was counted up to the end of the call before it.
    pub(crate) spent: usize,
}

impl<D: Delegate> Drop for Search<D> {
    fn drop(self) {
        let Search {
            alloc: _,
            stack: _,
            positions: _,
            entries: _,
            limits_met: _,
            frames: _,
            budget: _,
            spent: _,
        } = self;
    }
}

impl<D: Delegate> Search<D> {
    /// Returns a search that has evaluated nothing.
    pub fn new(alloc: Global) -> Self
        ensures empty { result.stack.items ≡ [] }
        ensures unlisted { result.entries.lists.items ≡ [] }
        ensures frames { result.frames ≡ 0 }
        ensures limits { result.limits_met ≡ false }
        ensures spent { result.spent ≡ 0 }
    {
        Search {
            alloc,
            stack: Vec::new(alloc),
            positions: IndexMap::new(alloc),
            entries: ProvisionalEntries::new(alloc),
            limits_met: false,
            frames: 0,
            budget: Budget::after(0),
            spent: 0,
        }
    }

    /// Removes all goals that are being evaluated.
    pub fn clear(&mut self)
        ensures empty { self.new.stack.items ≡ [] }
        ensures unlisted { self.new.entries.lists.items ≡ [] }
        ensures frames { self.new.frames ≡ self.old.frames }
        ensures limits { self.new.limits_met ≡ self.old.limits_met }
    {
        self.stack.clear();
        self.positions.clear();
        self.entries.clear();
    }

    /// Returns a range that contains the numbers of all goals of the stack.
    fn span(&self) -> Span
        ensures { result ≡ span_of_newest self.now.stack.items }
    {
        match self.stack.last() {
            Some(entry) => entry.span,
            None => Span::empty(),
        }
    }

    /// Returns the stack entry of a goal that is evaluated now, for its first run.
    pub fn new_entry(
        &self,
        number: usize,
        input: InputOf<D>,
        step_kind: PathKind,
    ) -> StackEntry<InputOf<D>, ResultOf<D>>
        ensures input { result.input ≡ input }
        ensures kind { result.step_kind ≡ step_kind }
        ensures first { result.provisional_result ≡ None }
        ensures heads { result.heads.items ≡ [] }
        ensures number { result.number ≡ number }
        ensures span { result.span ≡ covered (span_of_newest self.now.stack.items) (one_goal number) }
    {
        StackEntry {
            input,
            step_kind,
            provisional_result: None,
            heads: Vec::new(self.alloc),
            number,
            span: self.span().cover(Span::of(number)),
        }
    }

    /// Pushes a goal whose frame was started. No provisional entry depends on it yet. Fails if memory is refused. The frame is counted
    /// in any case.
    pub fn begin(&mut self, entry: StackEntry<InputOf<D>, ResultOf<D>>) -> Result<(), AllocError>
        requires { entry.span ≡ covered (span_of_newest self.old.stack.items) (one_goal entry.number) }
        ensures stack { OnOk result (self.new.stack.items ≡ self.old.stack.items ++ entry ∷ []) }
        ensures none { OnOk result ((list : _) × (self.new.entries.lists.items ≡ self.old.entries.lists.items ++ list ∷ []) × (list.items ≡ [])) }
        ensures err { OnErr result (self.new.stack.items ≡ self.old.stack.items) }
        ensures frames { self.new.frames ≡ min (self.old.frames + 1) (2 ^ 64 - 1) }
        ensures rises { self.old.frames ≤ self.new.frames }
        ensures limits { self.new.limits_met ≡ self.old.limits_met }
    {
        self.frames = self.frames.saturating_add(1);
        self.stack.reserve(1)?;
        self.entries.begin()?;
        if let Err(refused) = add_place(&mut self.positions, entry.number, self.stack.len()) {
            let _ = self.entries.end();
            return Err(refused);
        }
        self.stack.push(entry)?;
        Ok(())
    }

    /// Pops the newest goal, and the entries whose nearest head it is.
    pub fn pop(&mut self) -> Option<(StackEntry<InputOf<D>, ResultOf<D>>, Entries<D>)>
        ensures stack { IfSome result (λ p. self.old.stack.items ≡ self.new.stack.items ++ p.0 ∷ []) }
        ensures none { IfNone result (self.new.stack.items ≡ self.old.stack.items) }
        ensures some { IsSome result ↔ (0 < length self.old.stack.items) }
        ensures ended { IfSome result (λ p. self.old.entries.lists.items ≡ self.new.entries.lists.items ++ p.1 ∷ []) }
        ensures frames { self.new.frames ≡ self.old.frames }
        ensures limits { self.new.limits_met ≡ self.old.limits_met }
    {
        let entry = self.stack.pop()?;
        remove_place(&mut self.positions, entry.number, self.stack.len());
        let Some(left) = self.entries.end() else {
            unreachable!()
        };
        Some((entry, left))
    }

    /// Returns the index of a cached result of the goal that may be used at this depth now.
    ///
    /// No goal that was evaluated under such a result is on the stack. If the result met no overflow by depth, it needed at most this
    /// depth. If it met one, it had exactly this depth.
    pub fn find_cached(
        &self,
        cache: &mut CachedResults<D>,
        number: usize,
        input: &InputOf<D>,
        depth: usize,
    ) -> Result<Option<usize>, AllocError>
        ensures found { IfOk result
            (λ found. IfSome found (IsUsableAt cache.old.entries.items cache.old.asked.items (IsOnStack self.now.stack.items) number input.now depth)) }
        ensures none { IfOk result
            (λ found. IfNone found (NoneIsUsable cache.old.entries.items cache.old.asked.items (IsOnStack self.now.stack.items) number input.now depth)) }
        ensures entries { cache.new.entries ≡ cache.old.entries }
        ensures asked { cache.new.asked ≡ cache.old.asked }
        ensures goals { cache.new.goals ≡ cache.old.goals }
    {
        cache.find(&self.positions, self.span(), number, input, depth)
    }

    /// Returns the position of a provisional entry that may be used for the goal now: the index of its nearest head, and its index in
    /// that head's list.
    pub fn find_entry(
        &self,
        number: usize,
        input: &InputOf<D>,
        step_kind: PathKind,
        depth: usize,
    ) -> Option<(usize, usize)>
        ensures found { IfSome result (λ at. IsServingAt self.now.entries.lists.items self.now.stack.items number input.now step_kind depth at.0 at.1) }
        ensures none { IfNone result (NoneServes self.now.entries.lists.items self.now.stack.items number input.now step_kind depth) }
    {
        self.entries
            .find(&self.stack, number, input, step_kind, depth)
    }

    /// Returns the entry at this position as the result of the goal. Fails if memory is refused.
    pub fn use_entry(
        &self,
        cache: &CachedResults<D>,
        cx: &D::Cx,
        at: (usize, usize),
        input: &InputOf<D>,
        step_kind: PathKind,
    ) -> Result<EvaluationResult<ResultOf<D>>, AllocError>
        requires entries { AreEntriesOver D.meaning cx.now self.now.stack.items cache.now.asked.items self.now.entries.lists.items }
        requires place { (number : ℕ) × (depth : ℕ)
            × IsServingAt self.now.entries.lists.items self.now.stack.items number input.now step_kind depth at.0 at.1 }
        ensures overflow { IfOk result (λ o. (e : _) → IsEntryAt self.now.entries.lists.items at.0 at.1 e
            → o.dependencies.encountered_overflow ≡ e.encountered_overflow) }
        ensures depth { IfOk result (λ o. (e : _) → IsEntryAt self.now.entries.lists.items at.0 at.1 e
            → o.dependencies.required_depth ≡ e.required_depth) }
        ensures heads { IfOk result (λ o. (e : _) → IsEntryAt self.now.entries.lists.items at.0 at.1 e → o.dependencies.heads.items ≡ e.heads.items) }
        ensures asked { IfOk result (λ o. (e : _) → IsEntryAt self.now.entries.lists.items at.0 at.1 e → UsesAlone e.asked o.dependencies.nested_goals) }
        ensures range { IfOk result (λ o. AreInRange cache.now.asked.items o.dependencies.nested_goals) }
        ensures answer { IfOk result (λ o. IsReplyOver D.meaning cx.now self.now.stack.items input.now step_kind o.dependencies.heads.items cx.now o.result) }
        ensures faithful { IfOk result (λ o. (e : _) → IsEntryAt self.now.entries.lists.items at.0 at.1 e
            → IsFaithfulOver D.meaning cx.now self.now.stack.items input.now (e.reach + 1) cx.now o) }
        ensures within { IfOk result (λ o. IsWithinAsEntries D.meaning cx.now self.now.entries.lists.items input.now o.result) }
    {
        let (head, place) = at;
        let entry = &self.entries.lists[head][place];
        let answer = cx.copy_result(&entry.result)?;
        let mut dependencies = Dependencies::new(self.alloc);
        dependencies.encountered_overflow = entry.encountered_overflow;
        dependencies.required_depth = entry.required_depth;
        dependencies.heads = Vec::from_slice(self.alloc, &entry.heads)?;
        let asked = entry.asked;
        dependencies
            .nested_goals
            .add_cached(asked, cache.span_of(asked))?;
        Ok(EvaluationResult {
            result: answer,
            dependencies,
        })
    }

    /// Stores the result of a goal in the list of its nearest head, which has the index `nearest`. Returns the same result, with the
    /// nested goals in one list. Fails if memory is refused.
    ///
    /// `insert_provisional_cache` of `rustc_type_ir::search_graph`.
    pub(crate) fn leave(
        &mut self,
        cache: &mut CachedResults<D>,
        cx: &D::Cx,
        nearest: usize,
        goal: NestedGoal<InputOf<D>>,
        evaluation: EvaluationResult<ResultOf<D>>,
    ) -> Result<EvaluationResult<ResultOf<D>>, AllocError>
        requires entries { AreEntriesOver D.meaning cx.now self.old.stack.items cache.old.asked.items self.old.entries.lists.items }
        requires input { D.meaning.IsInput cx.now goal.input }
        requires nested { AreInRange cache.old.asked.items evaluation.dependencies.nested_goals }
        requires result { IsResultOver D.meaning cx.now self.old.stack.items goal.input goal.step_kind evaluation }
        requires faithful { IsFaithfulOver D.meaning cx.now self.old.stack.items goal.input (goal.depth + 1) cx.now evaluation }
        requires place { nearest < length self.old.stack.items }
        requires nearest { RestsOn evaluation.dependencies.heads.items nearest × AreBelow (nearest + 1) (indices evaluation.dependencies.heads.items) }
        ensures left { OnOk result ((e : _) × (e.result ≡ evaluation.result) × AddsEntry self.old.entries.lists.items self.new.entries.lists.items nearest e) }
        ensures entries { OnOk result (AreEntriesOver D.meaning cx.now self.old.stack.items cache.new.asked.items self.new.entries.lists.items) }
        ensures within { OnOk result
            (EntriesStayWithin D.meaning cx.now self.old.entries.lists.items goal.input evaluation.result self.new.entries.lists.items) }
        ensures reply { IfOk result (SaysSame evaluation) }
        ensures range { IfOk result (λ o. AreInRange cache.new.asked.items o.dependencies.nested_goals) }
        ensures listed { OnOk result (AddsAsked cache.old.asked.items cache.new.asked.items goal.number evaluation.dependencies.nested_goals) }
        ensures asked_before { KeepsResults cache.old.asked.items cache.new.asked.items }
        ensures cached { cache.new.entries ≡ cache.old.entries }
        ensures goals { cache.new.goals ≡ cache.old.goals }
        ensures stack { self.new.stack.items ≡ self.old.stack.items }
        ensures frames { self.new.frames ≡ self.old.frames }
        ensures limits { self.new.limits_met ≡ self.old.limits_met }
    {
        let mut evaluation = evaluation;
        let NestedGoal {
            number,
            input,
            step_kind,
            depth,
        } = goal;
        let kind = kind_of_path(&self.stack, nearest, step_kind);
        let result = cx.copy_result(&evaluation.result)?;
        let rests_on = Vec::from_slice(self.alloc, &evaluation.dependencies.heads)?;
        let none = NestedGoals::new(self.alloc);
        let nested_goals = mem::replace(&mut evaluation.dependencies.nested_goals, none);
        let asked = cache.list(number, nested_goals)?;
        let encountered_overflow = evaluation.dependencies.encountered_overflow;
        let least = if encountered_overflow {
            0
        } else {
            evaluation.dependencies.required_depth
        };
        let entry = ProvisionalEntry {
            input,
            number,
            result,
            heads: rests_on,
            kind,
            encountered_overflow,
            required_depth: least,
            reach: reach_of(depth, encountered_overflow),
            asked,
        };
        self.entries.leave(nearest, entry)?;
        let span = cache.span_of(asked);
        evaluation
            .dependencies
            .nested_goals
            .add_cached(asked, span)?;
        Ok(evaluation)
    }

    /// Moves the entries of a goal that ended to their next heads.
    ///
    /// `ended` is the result of the goal, `step_kind` the kind of the step to it, `ended_reach` the greatest depth at which its result is
    /// used, and `asked` the index of its nested goals in the cache. If memory is refused, some entries may be missing.
    pub(crate) fn move_entries(
        &mut self,
        left: Entries<D>,
        step_kind: PathKind,
        ended: &EvaluationResult<ResultOf<D>>,
        ended_reach: usize,
        asked: usize,
    ) -> Result<(), AllocError>
        requires below { AreBelow (length self.old.stack.items) (indices ended.now.dependencies.heads.items) }
        requires rests { (place : ℕ) (e : _) → slice_get left.items place ≡ Some e → AreBelow (length self.old.stack.items + 1) (indices e.heads.items) }
        ensures moved { OnOk result (AreMoved self.old.stack.items left.items step_kind ended.now ended_reach asked
            self.old.entries.lists.items self.new.entries.lists.items) }
        ensures stack { self.new.stack.items ≡ self.old.stack.items }
        ensures frames { self.new.frames ≡ self.old.frames }
        ensures limits { self.new.limits_met ≡ self.old.limits_met }
    {
        let stack = &self.stack;
        move_entries::<D>(
            &mut self.entries,
            stack,
            left,
            step_kind,
            ended,
            ended_reach,
            asked,
        )
    }

    /// Returns the cycle that the goal closes, if it is on the stack.
    pub fn find_cycle(
        &self,
        number: usize,
        input: &InputOf<D>,
        step_kind: PathKind,
    ) -> Option<Cycle>
        ensures found { IfSome result (IsClosedBy self.now.stack.items input.now step_kind) }
        ensures place { IfSome result (λ cycle. place_of self.now.stack.items number ≡ Some cycle.index) }
        ensures none { IfNone result (IfSome (oldest_of self.now.stack.items number) (λ e. e.input ≡ input.now → ⊥)) }
    {
        find_cycle::<D>(&self.stack, &self.positions, number, input, step_kind)
    }

    /// Returns the result of a goal that is on the stack: that of its previous run, or the initial one for the kind of the cycle.
    ///
    /// It depends on the goal, and on everything that the result of the previous run depends on. `check_cycle_on_stack` of
    /// `rustc_type_ir::search_graph`.
    pub fn close_cycle(
        &self,
        cx: &mut D::Cx,
        input: &InputOf<D>,
        step_kind: PathKind,
        cycle: Cycle,
    ) -> Result<ResultOf<D>, Fault>
        requires stack { IsStack D.meaning (D.meaning.world cx.old) [] cx.old self.now.stack.items }
        requires input { D.meaning.IsInput cx.old input.now }
        requires cycle { IsClosedBy self.now.stack.items input.now step_kind cycle }
        ensures keeps { KeepsContext D.meaning cx.old cx.new }
        ensures full { result ≡ Err Fault.Full → D.meaning.IsFull cx.new }
        ensures last { IfOk result (λ r. (e : _) (last : _) → slice_get self.now.stack.items cycle.index ≡ Some e → e.provisional_result ≡ Some last
            → r ≡ last) }
        ensures first { IfOk result (λ r. (e : _) → slice_get self.now.stack.items cycle.index ≡ Some e → e.provisional_result ≡ None
            → IsInitial D.meaning cx.old input.now cycle cx.new r) }
        ensures reply { IfOk result (λ r. (e : _) → slice_get self.now.stack.items cycle.index ≡ Some e
            → IsReadOver D.meaning cx.old self.now.stack.items input.now step_kind cycle.index e cx.new r) }
        ensures within { IfOk result (λ r. IsWithinAsStack D.meaning cx.old self.now.stack.items input.now cx.new r) }
    {
        let entry = &self.stack[cycle.index];
        match &entry.provisional_result {
            Some(last) => {
                let answer = cx.copy_result(last)?;
                Ok(answer)
            }
            None => {
                let answer = D::initial_provisional_result(cx, cycle.path_kind, input)?;
                Ok(answer)
            }
        }
    }

    /// Returns the cached result at this index as the result of the goal. Fails if memory is refused.
    ///
    /// `lookup_global_cache` of `rustc_type_ir::search_graph`.
    pub fn use_cached(
        &self,
        cache: &CachedResults<D>,
        cx: &D::Cx,
        place: usize,
        input: &InputOf<D>,
    ) -> Result<EvaluationResult<ResultOf<D>>, AllocError>
        requires cache { AreCached D.meaning (D.meaning.world cx.now) cx.now cache.now.entries.items }
        requires place { (e : _) × (slice_get cache.now.entries.items place ≡ Some e) × (e.input ≡ input.now) }
        ensures same { IfOk result (λ o. (e : _) → slice_get cache.now.entries.items place ≡ Some e → IsReplyOf e o) }
        ensures unread { IfOk result (λ o. o.dependencies.heads.items ≡ []) }
        ensures asked { IfOk result (λ o. (e : _) → slice_get cache.now.entries.items place ≡ Some e → UsesAlone e.asked o.dependencies.nested_goals) }
        ensures range { IfOk result (λ o. AreInRange cache.now.asked.items o.dependencies.nested_goals) }
        ensures answer { IfOk result (λ o. (step_kind : _)
            → IsReplyOver D.meaning cx.now self.now.stack.items input.now step_kind o.dependencies.heads.items cx.now o.result) }
        ensures faithful { IfOk result (λ o. (depth : ℕ) → (o.dependencies.encountered_overflow ≡ true → o.dependencies.required_depth ≡ depth)
            → IsFaithfulOver D.meaning cx.now self.now.stack.items input.now (depth + 1) cx.now o) }
        ensures within { IfOk result (λ o. IsWithinAsCached D.meaning cx.now cache.now.entries.items input.now o.result) }
    {
        let cached = cache.get(cx, place, input)?;
        let Cached {
            result: answer,
            depth: required_depth,
            encountered_overflow,
            asked,
        } = cached;
        let mut dependencies = Dependencies::new(self.alloc);
        dependencies.encountered_overflow = encountered_overflow;
        dependencies.required_depth = required_depth;
        dependencies
            .nested_goals
            .add_cached(asked, cache.span_of(asked))?;
        Ok(EvaluationResult {
            result: answer,
            dependencies,
        })
    }

    /// Returns the result of a nested goal of a goal of depth 0, and sets `limits_met`. It lists the goal with this number alone, which is
    /// the one of depth 0 that asks, or a root goal that is given up.
    ///
    /// `handle_overflow` of `rustc_type_ir::search_graph`.
    pub fn overflow(
        &mut self,
        cx: &mut D::Cx,
        number: usize,
        input: &InputOf<D>,
        step_kind: PathKind,
    ) -> Result<EvaluationResult<ResultOf<D>>, Fault>
        requires { D.meaning.IsInput cx.old input.now }
        ensures keeps { KeepsContext D.meaning cx.old cx.new }
        ensures stack { self.new.stack.items ≡ self.old.stack.items }
        ensures frames { self.new.frames ≡ self.old.frames }
        ensures noted { self.new.limits_met ≡ true }
        ensures answer { IfOk result (λ o. IsReplyOver D.meaning cx.old self.old.stack.items input.now step_kind o.dependencies.heads.items cx.new o.result) }
        ensures entries { self.new.entries ≡ self.old.entries }
        ensures overflow { IfOk result (λ o. D.meaning.answer_of cx.new o.result
            ≡ D.meaning.stack_overflow (D.meaning.world cx.old) (D.meaning.goal_of cx.old input.now)) }
        ensures told { IfOk result (λ o. o.dependencies.encountered_overflow ≡ true) }
        ensures unread { IfOk result (λ o. o.dependencies.heads.items ≡ []) }
        ensures asked { IfOk result (λ o. AsksAlone number o.dependencies.nested_goals) }
        ensures depth { IfOk result (λ o. o.dependencies.required_depth ≡ 0) }
        ensures full { result ≡ Err Fault.Full → D.meaning.IsFull cx.new }
    {
        self.limits_met = true;
        let answer = D::stack_overflow_result(cx, input)?;
        let mut dependencies = Dependencies::new(self.alloc);
        dependencies.encountered_overflow = true;
        dependencies.nested_goals.add_goal(number)?;
        Ok(EvaluationResult {
            result: answer,
            dependencies,
        })
    }
}

/// Returns the depth for a nested goal of a goal of this depth: one less, or divided if the goal has met an overflow by depth.
///
/// `allowed_depth_for_nested` of `rustc_type_ir::search_graph`.
pub fn nested_depth<D: Delegate>(depth: usize, overflowed: bool) -> usize
    requires { 1 ≤ depth }
    ensures less { overflowed ≡ false → result + 1 ≡ depth }
    ensures divided { overflowed ≡ true → result ≡ depth / D.DIVIDE_AVAILABLE_DEPTH_ON_OVERFLOW }
    ensures falls { result < depth }
{
    if overflowed {
        depth / D::DIVIDE_AVAILABLE_DEPTH_ON_OVERFLOW
    } else {
        depth - 1
    }
}

/// Returns the greatest depth at which a provisional result of a goal of this depth is used. Without overflow it is not limited.
pub(crate) fn reach_of(depth: usize, encountered_overflow: bool) -> usize
    ensures { encountered_overflow ≡ true → result ≡ depth }
{
    if encountered_overflow {
        depth
    } else {
        usize::MAX
    }
}

/// Returns how often a goal may be run: the delegate's limit, and at least once.
pub fn run_limit<D: Delegate>() -> usize
    ensures { result ≡ max D.FIXPOINT_STEP_LIMIT 1 }
{
    D::FIXPOINT_STEP_LIMIT.max(1)
}

/// Returns whether the goal is not run again after this result. That is so in four cases:
///
/// - no nested goal read the goal's own result;
/// - the result is that of the previous run;
/// - this is the first run, one kind of path alone read the result, and the result is the initial one for that kind;
/// - the result is ambiguous.
///
/// `reached_fixpoint` of `rustc_type_ir::search_graph`.
pub fn is_last_run<D: Delegate>(
    cx: &D::Cx,
    entry: &StackEntry<InputOf<D>, ResultOf<D>>,
    read: Option<PathsToNested>,
    found: &ResultOf<D>,
) -> bool
    requires input { D.meaning.IsInput cx.now entry.now.input }
    requires found { D.meaning.IsResult cx.now found.now }
    ensures unread { IsUnread read → result ≡ true }
    ensures settled { result ≡ true → IsUnread read ⊎ IsSettled D.meaning cx.now entry.now found.now }
    ensures ambiguous { D.meaning.is_ambiguous (D.meaning.answer_of cx.now found.now) ≡ true → result ≡ true }
    ensures again { entry.now.provisional_result ≡ Some found.now → result ≡ true }
{
    let Some(paths) = read else {
        return true;
    };
    if paths.is_empty() {
        return true;
    }
    match &entry.provisional_result {
        Some(last) => {
            if *last == *found {
                return true;
            }
        }
        None => {
            if let Some(kind) = paths.only_kind() {
                if D::is_initial_provisional_result(cx, kind, &entry.input, found) {
                    return true;
                }
            }
        }
    }
    D::is_ambiguous_result(cx, found).is_some()
}

/// Caches the result of a goal if it depends on no goal of the stack. Returns the same result, with the goal among its nested goals.
///
/// Fails if memory is refused, or if the result differs from a cached one of the goal (`Conflict`).
/// `insert_global_cache` of `rustc_type_ir::search_graph`.
pub fn finish<D: Delegate>(
    alloc: Global,
    cache: &mut CachedResults<D>,
    cx: &D::Cx,
    goal: NestedGoal<InputOf<D>>,
    evaluation: EvaluationResult<ResultOf<D>>,
) -> Evaluation<D>
    requires cache { AreCached D.meaning (D.meaning.world cx.now) cx.now cache.old.entries.items }
    requires input { D.meaning.IsInput cx.now goal.input }
    requires nested { AreInRange cache.old.asked.items evaluation.dependencies.nested_goals }
    requires number { IsNumberOf D.Cx.Input.eq cache.old.goals.keys goal.input goal.number }
    requires alone { evaluation.dependencies.heads.items ≡ []
        → IsProvisional D.meaning (D.meaning.world cx.now) [] (D.meaning.goal_of cx.now goal.input, PathKind.Inductive) [] cx.now evaluation.result }
    requires kept { evaluation.dependencies.heads.items ≡ []
        → IsKeptResult D.meaning cx.now goal.input evaluation.result goal.depth evaluation.dependencies.encountered_overflow }
    ensures kept { OnOk result (evaluation.dependencies.heads.items ≡ []
        → AddsEvaluation cache.old.entries.items cache.new.entries.items cache.old.asked.items goal.input goal.number goal.depth evaluation) }
    ensures unkept { OnOk result ((evaluation.dependencies.heads.items ≡ [] → ⊥) → cache.new.entries.items ≡ cache.old.entries.items) }
    ensures err { OnErr result ((cache.new.entries.items ≡ cache.old.entries.items)
        ⊎ ((e : _) × (cache.new.entries.items ≡ cache.old.entries.items ++ e ∷ []))) }
    ensures results { KeepsResults cache.old.entries.items cache.new.entries.items }
    ensures asked_before { KeepsResults cache.old.asked.items cache.new.asked.items }
    ensures goals { cache.new.goals ≡ cache.old.goals }
    ensures cache { AreCached D.meaning (D.meaning.world cx.now) cx.now cache.new.entries.items }
    ensures reply { IfOk result (SaysSame evaluation) }
    ensures found { IfOk result (λ o. evaluation.dependencies.heads.items ≡ [] → UsesAlone (length cache.old.asked.items) o.dependencies.nested_goals) }
    ensures asked { IfOk result (λ o. (evaluation.dependencies.heads.items ≡ [] → ⊥)
        → AlsoAsks evaluation.dependencies.nested_goals goal.number o.dependencies.nested_goals) }
    ensures range { IfOk result (λ o. AreInRange cache.new.asked.items o.dependencies.nested_goals) }
    ensures within { OnOk result (KeepsWithin D.meaning cx.now cache.old.entries.items goal.input evaluation.result cache.new.entries.items) }
    ensures no_conflict { result ≡ Err GraphFault.Conflict → (limit : ℕ) → limit ≤ goal.depth + 1
        → IsNotPlain D.meaning (D.meaning.world cx.now) limit (D.meaning.goal_of cx.now goal.input) }
    ensures conflict { result ≡ Err GraphFault.Conflict → HasConflict D.meaning cx.now (known_results cache.new.entries.items) }
    ensures in_order { result ≡ Err GraphFault.Protocol → ⊥ }
    ensures room { result ≡ Err GraphFault.Full → ⊥ }
{
    let mut evaluation = evaluation;
    let NestedGoal {
        number,
        input,
        step_kind,
        depth,
    } = goal;
    if !evaluation.dependencies.heads.is_empty() {
        // The result depends on goals of the stack, so it is not cached. After an overflow with many heads it is no provisional entry
        // either.
        evaluation.dependencies.nested_goals.add_goal(number)?;
        return Ok(evaluation);
    }
    let encountered_overflow = evaluation.dependencies.encountered_overflow;
    let kept_depth = if encountered_overflow {
        depth
    } else {
        evaluation.dependencies.required_depth
    };
    let kept = NestedGoal {
        number,
        input,
        step_kind,
        depth: kept_depth,
    };
    let none = NestedGoals::new(alloc);
    let nested_goals = mem::replace(&mut evaluation.dependencies.nested_goals, none);
    let span = nested_goals.span.cover(Span::of(number));
    let found = &evaluation.result;
    let asked = cache.insert(cx, kept, found, encountered_overflow, nested_goals)?;
    evaluation
        .dependencies
        .nested_goals
        .add_cached(asked, span)?;
    Ok(evaluation)
}
