//! Obligations over one table, and their selection.

ghost use Rattle.std.specs.Prelude.{◌≡◌, ◌<◌, ◌⊎◌, List, [], All, Any, length, slice_get, map, Ok, None, Some, true, IfOk, IfErr, OnErr};
ghost use Rattle.solver_graph.specs.Shortages.{ContextFullAtLimit};
ghost use Rattle.fulfillment.specs.Obligations.{HaveGrown, IsRegistered, SomeIsSpent, most_evaluations, standing_of, stood_of, total_left};
ghost use Rattle.fulfillment.specs.Selecting.{CanSelect, EndsInFixingNothing, FixesNothing, HasSelected, IsReached};
ghost use Rattle.fulfillment.specs.Selecting.{ObligationIsRefused, SomeStaysOpen, StartsFramesOfSelecting};
ghost use Rattle.fulfillment.specs.declared.obligation.Obligation.{Obligation};
ghost use Rattle.fulfillment.specs.declared.obligation.ObligationId.{ObligationId};

use crate::obligation::{Obligation, ObligationId, Standing, Step, Stood};
use goal_evaluator::{MaybeCause, TypingMode};
use goal_frames::GoalHandler;
use infer_table::goal::Goal;
use infer_table::infer_ctxt::InferCtxt;
use solver_graph::Search;
use std::alloc::{AllocError, Global};
use type_terms::Fault;

/// Goals that have to hold together, in the order in which they were registered.
///
/// All are goals of one table, and of the context of one search. rustc: `FulfillmentCtxt` of `rustc_trait_selection`.
pub struct FulfillmentCtxt {
    obligations: Vec<Obligation>,
    limit: usize,
}

// Hand-written so that the prover sees one drop call: docs/PROVING.md#drop.
impl Drop for FulfillmentCtxt {
    fn drop(self) {
        let FulfillmentCtxt {
            obligations: _,
            limit: _,
        } = self;
    }
}

/// How the obligations of a context stood at some moment, in the order in which they were registered.
#[derive(Drop)]
pub struct ObligationsSnapshot {
    pub stood: Vec<Stood>,
}

/// How a selection ends.
#[derive(Clone, Copy)]
pub enum Selected {
    /// Each obligation is done.
    AllDone,
    /// The goal of this obligation has no solution in the table, so the goals have none together.
    Refused(ObligationId),
    /// Some obligation is pending, and another evaluation fixes nothing new.
    Pending,
}

/// How a round ends.
#[derive(Clone, Copy)]
enum Round {
    /// This obligation was refused, and those after it were not evaluated.
    Refused(ObligationId),
    /// Some answer had values.
    Narrowed,
    /// No answer had values.
    Quiet,
    /// Searches have started as many frames as they may. The obligations that were left are as they were.
    Stopped,
}

/// Whether searches that have started so many frames are to stop.
fn is_spent(until: Option<u64>, frames: u64) -> bool
    ensures { result ≡ true → IsReached until frames }
{
    match until {
        Some(end) => frames >= end,
        None => false,
    }
}

impl FulfillmentCtxt {
    /// A context without obligations, in which at most `limit` answers to each goal may have values.
    ///
    /// A goal that has a proof needs one more evaluation than answers with values, and two impls make goals whose answers always have values.
    /// So the limit is the depth limit of the search and one more, as rustc's `recursion_limit` ends an obligation that goes on and on.
    pub fn new(alloc: Global, limit: usize) -> FulfillmentCtxt
        ensures none { result.obligations.items ≡ [] }
        ensures limit { result.limit ≡ limit }
    {
        FulfillmentCtxt {
            obligations: Vec::new(alloc),
            limit,
        }
    }

    /// Adds a goal behind the others. It is pending, and was not evaluated yet.
    ///
    /// Fails if memory is refused. Then the obligations are as they were.
    ///
    /// rustc: `FulfillmentCtxt::register_predicate_obligation`.
    pub fn register(&mut self, goal: Goal) -> Result<ObligationId, AllocError>
        ensures registered { IfOk result (λ id. IsRegistered self.old.obligations.items self.old.limit goal id self.new.obligations.items) }
        ensures limit { self.new.limit ≡ self.old.limit }
        ensures refused { OnErr result (self.new.obligations.items ≡ self.old.obligations.items) }
    {
        let index = self.obligations.len();
        self.obligations.push(Obligation {
            goal,
            standing: Standing::Pending(MaybeCause::Ambiguity),
            left: self.limit,
        })?;
        Ok(ObligationId { index })
    }

    /// The obligations, in the order in which they were registered.
    pub fn obligations(&self) -> &[Obligation]
        ensures { result.now ≡ self.now.obligations.items }
    {
        &self.obligations
    }

    /// How this obligation stands.
    pub fn standing(&self, id: ObligationId) -> Standing
        requires { id.index < length self.now.obligations.items }
        ensures { slice_get (map standing_of self.now.obligations.items) id.index ≡ Some result }
    {
        self.obligations[id.index].standing
    }

    /// A snapshot of the obligations. Fails if memory is refused.
    pub fn snapshot(&self, alloc: Global) -> Result<ObligationsSnapshot, AllocError>
        ensures { IfOk result (λ s. s.stood.items ≡ map stood_of self.now.obligations.items) }
    {
        let mut stood = Vec::new(alloc);
        'each: for obligation in &self.obligations {
            stood.push(Stood {
                standing: obligation.standing,
                left: obligation.left,
            })?;
        }
        Ok(ObligationsSnapshot { stood })
    }

    /// Restores the obligations that the context had at a snapshot. Since then goals must only have been registered and selected.
    pub fn roll_back(&mut self, snapshot: &ObligationsSnapshot)
        ensures restored { (before : List Obligation) → snapshot.now.stood.items ≡ map stood_of before → HaveGrown before self.old.obligations.items
            → self.new.obligations.items ≡ before }
        ensures limit { self.new.limit ≡ self.old.limit }
    {
        self.obligations.truncate(snapshot.stood.len());
        'each: for index in 0..self.obligations.len() {
            let stood = snapshot.stood[index];
            let obligation = &mut self.obligations[index];
            obligation.restore(stood);
        }
    }

    /// How a selection ends in which nothing was refused: whether all obligations are done.
    fn outcome(&self) -> Selected
        ensures done { result ≡ Selected.AllDone → All (λ (o : Obligation). o.standing ≡ Standing.Done) self.now.obligations.items }
        ensures pending { result ≡ Selected.Pending → Any (λ (o : Obligation). o.standing ≡ Standing.Done → ⊥) self.now.obligations.items }
        ensures not_refused { (id : ObligationId) → result ≡ Selected.Refused id → ⊥ }
    {
        'each: for index in 0..self.obligations.len() {
            let obligation = &self.obligations[index];
            if !obligation.is_done() {
                return Selected::Pending;
            }
        }
        Selected::AllDone
    }

    /// Evaluates each goal that is not settled once, in order, up to the first that is refused. It stops before a goal where searches have
    /// started `until` frames.
    fn select_in_turn<H: GoalHandler>(
        &mut self,
        search: &mut Search<H>,
        table: &mut InferCtxt,
        mode: TypingMode,
        until: Option<u64>,
    ) -> Result<Round, Fault>
        requires { CanSelect H.meaning search.old.graph search.old.cache search.old.cx table.old self.old.obligations.items }
        ensures again { CanSelect H.meaning search.new.graph search.new.cache search.new.cx table.new self.new.obligations.items }
        ensures selected { HasSelected H.meaning mode search.old.graph search.old.cache search.old.cx table.old self.old.obligations.items
            search.new.graph search.new.cache search.new.cx table.new self.new.obligations.items }
        ensures narrowed { result ≡ Ok Round.Narrowed → total_left self.new.obligations.items < total_left self.old.obligations.items }
        ensures quiet { result ≡ Ok Round.Quiet
            → FixesNothing H.meaning mode search.old.graph search.old.cx table.old self.old.obligations.items self.new.obligations.items }
        ensures refused { (id : ObligationId) → result ≡ Ok (Round.Refused id)
            → ObligationIsRefused H.meaning mode search.old.graph search.old.cx table.old self.old.obligations.items id }
        ensures stopped { result ≡ Ok Round.Stopped → IsReached until search.new.graph.frames }
        ensures frames { StartsFramesOfSelecting H.meaning (length self.old.obligations.items) mode search.old.graph search.old.cx table.old
            self.old.obligations.items search.new.graph }
        ensures limit { self.new.limit ≡ self.old.limit }
        ensures full { IfErr result (ContextFullAtLimit search.new.cx) }
    {
        let mut has_narrowed = false;
        'each: for index in 0..self.obligations.len() {
            if is_spent(until, search.graph.frames()) {
                return Ok(Round::Stopped);
            }
            let obligation = &mut self.obligations[index];
            match obligation.select(search, table, mode)? {
                Step::Narrowed => has_narrowed = true,
                Step::Quiet => {}
                Step::Refused => return Ok(Round::Refused(ObligationId { index })),
            }
        }
        if has_narrowed {
            Ok(Round::Narrowed)
        } else {
            Ok(Round::Quiet)
        }
    }

    /// Evaluates the goals in the order in which they were registered, in rounds, until nothing new is fixed.
    ///
    /// In a round each goal is evaluated once, unless it is done, or its answers had values as often as is allowed. What an answer fixes stays
    /// in the table, whatever its certainty. A goal is done when its answer is a yes without values. Another round follows while some answer of
    /// the last one had values. So there is at most one round more than answers with values are allowed in all.
    ///
    /// - `AllDone`: each obligation is done.
    /// - `Refused`: a goal was refused. Then the table that the call began with has no solution at which all goals have proofs.
    /// - `Pending`: some obligation is pending, and the last round fixed nothing new.
    ///
    /// Each solution of the table is one that it had before, and none is lost at which all goals have proofs in the handler's worlds, if the
    /// table and the goals hold the table's variables alone (`selecting_laws`). The goal of an obligation that is done has a proof at
    /// each solution of the table.
    ///
    /// It stops before an evaluation where searches have started `until` frames in all, and gives `None`. What was found stays, and another
    /// call goes on.
    ///
    /// Fails with `Memory` if memory is refused, or if the table has no numbers for a goal's form or for its answer. Fails with `Full` only
    /// if a table of the context is at its limit. In each case what was found stays, and the goals can be selected again.
    pub fn select_within<H: GoalHandler>(
        &mut self,
        search: &mut Search<H>,
        table: &mut InferCtxt,
        mode: TypingMode,
        until: Option<u64>,
    ) -> Result<Option<Selected>, Fault>
        requires { CanSelect H.meaning search.old.graph search.old.cache search.old.cx table.old self.old.obligations.items }
        ensures again { CanSelect H.meaning search.new.graph search.new.cache search.new.cx table.new self.new.obligations.items }
        ensures selected { HasSelected H.meaning mode search.old.graph search.old.cache search.old.cx table.old self.old.obligations.items
            search.new.graph search.new.cache search.new.cx table.new self.new.obligations.items }
        ensures all_done { result ≡ Ok (Some Selected.AllDone) → All (λ (o : Obligation). o.standing ≡ Standing.Done) self.new.obligations.items }
        ensures pending { result ≡ Ok (Some Selected.Pending) → EndsInFixingNothing H.meaning mode search.old.graph search.old.cache search.old.cx table.old
            self.old.obligations.items search.new.graph search.new.cache search.new.cx table.new self.new.obligations.items }
        ensures unsettled { result ≡ Ok (Some Selected.Pending)
            → SomeIsSpent self.old.obligations.items ⊎ SomeStaysOpen H.meaning mode search.old.graph search.old.cx table.old self.old.obligations.items }
        ensures refused { (id : ObligationId) → result ≡ Ok (Some (Selected.Refused id))
            → ObligationIsRefused H.meaning mode search.old.graph search.old.cx table.old self.old.obligations.items id }
        ensures stopped { result ≡ Ok None → IsReached until search.new.graph.frames }
        ensures frames { StartsFramesOfSelecting H.meaning (most_evaluations self.old.obligations.items) mode search.old.graph search.old.cx table.old
            self.old.obligations.items search.new.graph }
        ensures limit { self.new.limit ≡ self.old.limit }
        ensures full { IfErr result (ContextFullAtLimit search.new.cx) }
    {
        'rounds: loop {
            match self.select_in_turn(search, table, mode, until)? {
                Round::Refused(id) => return Ok(Some(Selected::Refused(id))),
                Round::Narrowed => {}
                Round::Quiet => return Ok(Some(self.outcome())),
                Round::Stopped => return Ok(None),
            }
        }
    }

    /// [`FulfillmentCtxt::select_within`] that does not stop.
    ///
    /// rustc: `FulfillmentCtxt::select_where_possible`, where a yes with values is done too.
    pub fn select_where_possible<H: GoalHandler>(
        &mut self,
        search: &mut Search<H>,
        table: &mut InferCtxt,
        mode: TypingMode,
    ) -> Result<Selected, Fault>
        requires { CanSelect H.meaning search.old.graph search.old.cache search.old.cx table.old self.old.obligations.items }
        ensures again { CanSelect H.meaning search.new.graph search.new.cache search.new.cx table.new self.new.obligations.items }
        ensures selected { HasSelected H.meaning mode search.old.graph search.old.cache search.old.cx table.old self.old.obligations.items
            search.new.graph search.new.cache search.new.cx table.new self.new.obligations.items }
        ensures all_done { result ≡ Ok Selected.AllDone → All (λ (o : Obligation). o.standing ≡ Standing.Done) self.new.obligations.items }
        ensures pending { result ≡ Ok Selected.Pending → EndsInFixingNothing H.meaning mode search.old.graph search.old.cache search.old.cx table.old
            self.old.obligations.items search.new.graph search.new.cache search.new.cx table.new self.new.obligations.items }
        ensures unsettled { result ≡ Ok Selected.Pending
            → SomeIsSpent self.old.obligations.items ⊎ SomeStaysOpen H.meaning mode search.old.graph search.old.cx table.old self.old.obligations.items }
        ensures refused { (id : ObligationId) → result ≡ Ok (Selected.Refused id)
            → ObligationIsRefused H.meaning mode search.old.graph search.old.cx table.old self.old.obligations.items id }
        ensures frames { StartsFramesOfSelecting H.meaning (most_evaluations self.old.obligations.items) mode search.old.graph search.old.cx table.old
            self.old.obligations.items search.new.graph }
        ensures limit { self.new.limit ≡ self.old.limit }
        ensures full { IfErr result (ContextFullAtLimit search.new.cx) }
    {
        match self.select_within(search, table, mode, None)? {
            Some(selected) => Ok(selected),
            None => unreachable!(),
        }
    }
}
