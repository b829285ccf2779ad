//! The search graph: the public interface of a search.

ghost use Rattle.std.specs.Prelude.{◌≡◌, ◌+◌, ◌≤◌, ◌⊎◌, ◌↔◌, max, IfOk, IsTrue, true, false};
ghost use Rattle.search_graph.specs.Meaning.{KeepsContext};
ghost use Rattle.search_graph.specs.Computed.{IsComputedOrGiven, MakesMisstep};
ghost use Rattle.search_graph.specs.Answer.{IsSound};
ghost use Rattle.search_graph.specs.Plain.{IsPlain, IsNotPlain};
ghost use Rattle.search_graph.specs.Promised.FrameBound.{frame_bound};
ghost use Rattle.search_graph.specs.Bound.{IsCounted, counted_before};
ghost use Rattle.search_graph.specs.Cache.{AreJustified, AreConsistent, KeepsResults, HasConflict, IsKnown, IfKnown};
ghost use Rattle.search_graph.specs.Question.{AreFramesWithin, IsWithinKnown};

use crate::budget::Budget;
use crate::delegate::{Delegate, InputOf, ResultOf};
use crate::evaluation::evaluate_root;
use crate::fault::GraphFault;
use crate::global_cache::GlobalCache;
use crate::search::Search;
use search_paths::{EvaluationResult, PathKind};
use std::alloc::Global;
use std::marker::Model;

/// A search with its stack.
///
/// In clauses it is a `SearchState`: its depth, the number of goals that are being evaluated, the number of frames that were started,
/// whether a limit gave a result, and what was counted. `SearchGraph` of `rustc_type_ir::search_graph`.
pub struct SearchGraph<D: Delegate> {
    root_depth: usize,
    search: Search<D>,
}

impl<D: Delegate> Model for SearchGraph<D> {
    ghost use Rattle.std.specs.Prelude.{length};
    ghost use Rattle.search_graph.specs.SearchState.{SearchState};

    ghost Value = { SearchState };

    ghost view = { λ graph. record {
      root_depth = graph.root_depth;
      current_depth = length graph.search.stack.items;
      frames = graph.search.frames;
      limits_met = graph.search.limits_met;
      spent = graph.search.spent;
    } };
}

impl<D: Delegate> Drop for SearchGraph<D> {
    fn drop(self) {
        let SearchGraph {
            root_depth: _,
            search: _,
        } = self;
    }
}

impl<D: Delegate> SearchGraph<D> {
    /// Returns a search whose root goals have this depth, without allocating.
    pub fn new(alloc: Global, root_depth: usize) -> Self
        requires { 1 ≤ root_depth }
        ensures { result ≡ record { root_depth = root_depth; current_depth = 0; frames = 0; limits_met = false; spent = 0 } }
    {
        SearchGraph {
            root_depth,
            search: Search::new(alloc),
        }
    }

    /// Returns whether no goal is being evaluated.
    pub fn is_empty(&self) -> bool
        ensures { IsTrue result ↔ (self.now.current_depth ≡ 0) }
    {
        self.search.stack.is_empty()
    }

    /// Returns how many goals are being evaluated.
    pub fn debug_current_depth(&self) -> usize
        ensures { result ≡ self.now.current_depth }
    {
        self.search.stack.len()
    }

    /// Returns the number of frames that were started since `new`, at most `u64::MAX`. Each run of a goal starts a frame.
    pub fn frames(&self) -> u64
        ensures { result ≡ self.now.frames }
    {
        self.search.frames
    }

    /// Returns what calls have counted, less 64 for each.
    pub fn spent(&self) -> usize
        ensures { result ≡ self.now.spent }
    {
        self.search.spent
    }

    /// Counts on from this number in the next call: what an earlier search has counted, or nothing.
    pub fn count_from(&mut self, spent: usize)
        ensures { self.new ≡ record self.old { spent = spent } }
    {
        self.search.spent = spent;
    }

    /// Returns whether a limit was met since `new`: a goal of depth 0 had a nested goal, goals ran out, the limit of runs gave a result, or
    /// a call was given up.
    pub fn limits_met(&self) -> bool
        ensures { result ≡ self.now.limits_met }
    {
        self.search.limits_met
    }

    /// Returns the result of a root goal. The kind of the step has no effect, since the root has no parent.
    ///
    /// The call is given up when uncached goals have evaluated 65,536 nested goals: its result is `stack_overflow_result`. A goal is uncached
    /// if its result depends on goals that are still evaluated, or if it met an overflow by depth. A nested goal of a large goal counts more
    /// than once (`Delegate::cost_of`). The count goes on from call to call, and goes down by 64 with each. When a sixteenth is left of what
    /// the call may count, and it is 16 or more, the goals that are evaluated have run out: they have met an overflow by depth, and
    /// `limits_met` is set. Each continues with its other nested goals. rustc has no such limit. A goal that plain recursion answers within
    /// the depth never sets `limits_met`.
    ///
    /// The call fails in these cases:
    ///
    /// - `Memory`: memory was refused.
    /// - `Full`: a table of the context is full.
    /// - `Protocol`: a frame of the goal, or of a goal evaluated under it, made a request out of order.
    /// - `Conflict`: a new result differs from a cached one of the same goal and kind. This never happens for a goal that plain
    ///   recursion answers within the depth.
    ///
    /// After a failure no goal is being evaluated. In any case the cache preserves its results, and may have more than before.
    pub fn evaluate_goal(
        &mut self,
        cache: &mut GlobalCache<D>,
        cx: &mut D::Cx,
        input: InputOf<D>,
        step_kind: PathKind,
    ) -> Result<ResultOf<D>, GraphFault>
        requires empty { self.old.current_depth ≡ 0 }
        requires cache { AreJustified D.meaning cx.old cache.old }
        requires input { D.meaning.IsInput cx.old input }
        ensures keeps { KeepsContext D.meaning cx.old cx.new }

        // These hold after a failure too.
        ensures empty { self.new.current_depth ≡ 0 }
        ensures cache { AreJustified D.meaning cx.new cache.new }
        ensures consistent { AreConsistent cache.new }
        ensures results { KeepsResults cache.old cache.new }

        ensures answer { IfOk result (λ r. IsSound D.meaning (D.meaning.world cx.old) (D.meaning.goal_of cx.old input) cx.new r) }
        ensures plain { IfOk result (λ r. (a : _) → IsPlain D.meaning (D.meaning.world cx.old) (self.old.root_depth + 1) (D.meaning.goal_of cx.old input) a
            → a ≡ D.meaning.answer_of cx.new r) }
        ensures no_conflict { result ≡ Err GraphFault.Conflict
            → IsNotPlain D.meaning (D.meaning.world cx.old) (self.old.root_depth + 1) (D.meaning.goal_of cx.old input) }

        // `Protocol` means a request out of order. Otherwise all requests of the frames were in order.
        ensures computed { IfOk result
            (λ r. IsComputedOrGiven D.meaning (D.meaning.world cx.old) (D.meaning.goal_of cx.old input) (D.meaning.answer_of cx.new r)) }
        ensures protocol { result ≡ Err GraphFault.Protocol → MakesMisstep D.meaning (D.meaning.world cx.old) (D.meaning.goal_of cx.old input) }
        ensures conflict { result ≡ Err GraphFault.Conflict → HasConflict D.meaning cx.new cache.new }
        ensures full { result ≡ Err GraphFault.Full → D.meaning.IsFull cx.new }

        ensures frames { AreFramesWithin D.meaning cx.old input self.old.frames self.new.frames
            (λ width. frame_bound (max D.FIXPOINT_STEP_LIMIT 1) width self.old.root_depth) }

        // The count never decreases. A result that was not cached costs at least one frame.
        ensures rises { self.old.frames ≤ self.new.frames }
        ensures counted { IfOk result (λ r. IsKnown cache.old input self.old.root_depth r ⊎ IsCounted self.old.frames self.new.frames) }

        // If the cache has a result that may be used, the result is a cached one, and no frame is started.
        ensures cached { IfKnown cache.old input self.old.root_depth ((self.new.frames ≡ self.old.frames) × (cache.new ≡ cache.old)) }
        ensures known { IfKnown cache.old input self.old.root_depth (IfOk result (λ r. IsKnown cache.old input self.old.root_depth r)) }

        // Each result is cached afterwards, for goals of this depth.
        ensures kept { IfOk result (λ r. IsKnown cache.new input self.old.root_depth r) }

        ensures depth { self.new.root_depth ≡ self.old.root_depth }

        // The count goes on from earlier calls.
        ensures spent { counted_before self.old.spent ≤ self.new.spent }

        // `limits_met` stays set, after a failure too. A goal that plain recursion answers within the depth never sets it. If it is
        // not set, the result depends on no overflow, except through results that were cached before.
        ensures noted { self.old.limits_met ≡ true → self.new.limits_met ≡ true }
        ensures no_limit { self.old.limits_met ≡ false → self.new.limits_met ≡ true
            → IsNotPlain D.meaning (D.meaning.world cx.old) (self.old.root_depth + 1) (D.meaning.goal_of cx.old input) }
        ensures limits { IfOk result (λ r. self.new.limits_met ≡ false → IsWithinKnown D.meaning cx.old cache.old input cx.new r) }
    {
        let depth = self.root_depth;
        let results = &mut cache.results;
        self.search.budget = Budget::after(self.search.spent);
        let before = self.search.budget.counted;
        match evaluate_root(&mut self.search, results, cx, input, step_kind, depth) {
            Ok(evaluation) => {
                self.search.spent = self.search.budget.counted.max(before);
                let EvaluationResult {
                    result: answer,
                    dependencies: _,
                } = evaluation;
                Ok(answer)
            }
            Err(fault) => {
                self.search.clear();
                self.search.spent = self.search.budget.counted.max(before);
                Err(fault)
            }
        }
    }
}
