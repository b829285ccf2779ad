//! The context of a search.

ghost use Rattle.std.specs.Prelude.{◌≡◌, [], Err, IfOk, IfErr};
ghost use Rattle.type_terms.specs.declared.Fault.TheVariants.{Memory};
ghost use Rattle.infer_table.specs.Goals.{GoalHeld};
ghost use Rattle.goal_evaluator.specs.Readings.{ResultHeld};
ghost use Rattle.goal_frames.specs.Fitting.{ResultFits};
ghost use Rattle.goal_evaluator.specs.StepReadings.{result_read};
ghost use Rattle.goal_frames.specs.Stores.{kept_inputs, kept_responses, limit_of};
ghost use Rattle.solver_graph.specs.Contexts.{asked_of, goal_of, answer_of, IsReady, IsInput, ResponseIsMade, Advances};
ghost use Rattle.solver_graph.specs.Shortages.{StoreIsFull};

use goal_frames::GoalHandler;
use goal_frames::store::{GoalStore, InputId, ResponseId};
use infer_table::certainty::MaybeCause;
use infer_table::input::CanonicalInput;
use infer_table::response::CanonicalResponse;
use search_graph::Cx;
use std::alloc::{AllocError, Global};
use type_terms::Fault;
use type_terms::interner::Interner;

/// The context of a search: the interner, the handler with the rules of goals, and the store of all goals and responses so far.
///
/// An `InputId` represents a goal. A result is the number of a response, or `None` if the goal has no solution. Numbers are valid
/// only in the context that gave them, and represent the same as long as it exists. The context is ready (`IsReady`) if the
/// handles of the handler and of the store are of the context's interner. A new context is ready if it gets the handler's
/// interner, and each call preserves this.
///
/// rustc: `SolverDelegate` of `rustc_next_trait_solver`, whose interner also stores goals and responses.
pub struct SolverCx<H> {
    /// The allocator.
    pub alloc: Global,
    /// The terms of all goals and responses.
    pub interner: Interner,
    /// The rules.
    pub handler: H,
    /// The goals and responses so far.
    pub store: GoalStore,
}

// Hand-written so that the prover sees one drop call: docs/PROVING.md#drop.
impl<H: Drop> Drop for SolverCx<H> {
    fn drop(self) {
        let SolverCx {
            alloc: _,
            interner: _,
            handler: _,
            store: _,
        } = self;
    }
}

impl<H: GoalHandler> SolverCx<H> {
    /// A context without goals, with room for `limit` goals and as many responses.
    ///
    /// It is ready if the handler's handles are of this interner.
    pub fn new(alloc: Global, interner: Interner, handler: H, limit: u32) -> SolverCx<H>
        ensures interner { result.interner ≡ interner }
        ensures handler { result.handler ≡ handler }
        ensures inputs { kept_inputs result.store ≡ [] }
        ensures responses { kept_responses result.store ≡ [] }
        ensures limit { limit_of result.store ≡ limit }
        ensures ready { H.meaning.IsReady handler interner.entries → IsReady H.meaning.IsReady result }
    {
        interner.lawful();
        SolverCx {
            alloc,
            interner,
            handler,
            store: GoalStore::new(alloc, limit),
        }
    }

    /// The number of a goal, as an input of a search: its existing number, or a new one.
    ///
    /// `Full` is returned if the goal is new and as many goals are stored as the limit allows, and `Memory` if memory for a new
    /// one is refused.
    pub fn keep_goal(&mut self, goal: CanonicalInput) -> Result<InputId, Fault>
        requires ready { IsReady H.meaning.IsReady self.old }
        requires held { GoalHeld self.old.interner.entries goal.goal }
        ensures advances { Advances H.meaning.IsReady self.old self.new }
        ensures interner { self.new.interner ≡ self.old.interner }
        ensures is { IfOk result (λ id. IsInput H.meaning.IsReady self.new id × (goal_of self.new id ≡ asked_of self.old.interner.entries goal)) }
        ensures full { result ≡ Err Fault.Full → StoreIsFull self.new.store }
    {
        self.store.keep_input(goal)
    }

    /// The result that represents this response, or `None`.
    ///
    /// `Full` is returned if the response is new and as many are stored as the limit allows, and `Memory` if memory for a new one
    /// is refused.
    pub fn keep_answer(
        &mut self,
        answer: Option<CanonicalResponse>,
    ) -> Result<Option<ResponseId>, Fault>
        requires ready { IsReady H.meaning.IsReady self.old }
        requires held { ResultHeld self.old.interner.entries answer }
        requires fits { ResultFits self.old.interner.entries answer }
        ensures advances { Advances H.meaning.IsReady self.old self.new }
        ensures interner { self.new.interner ≡ self.old.interner }
        ensures is { IfOk result (λ r. ResponseIsMade H.meaning.IsReady self.new r × (answer_of self.new r ≡ result_read self.old.interner.entries answer)) }
        ensures full { result ≡ Err Fault.Full → StoreIsFull self.new.store }
    {
        match answer {
            Some(response) => {
                let id = self.store.keep_response(response)?;
                Ok(Some(id))
            }
            None => Ok(None),
        }
    }

    /// A copy of the response that a search's result represents, or `None` if the goal has no solution.
    ///
    /// The only fault is `Memory`.
    pub fn answer(&self, of: &Option<ResponseId>) -> Result<Option<CanonicalResponse>, Fault>
        requires { ResponseIsMade H.meaning.IsReady self.now of.now }
        ensures is { IfOk result (λ r. result_read self.now.interner.entries r ≡ answer_of self.now of.now) }
        ensures held { IfOk result (λ r. ResultHeld self.now.interner.entries r × ResultFits self.now.interner.entries r) }
        ensures memory { IfErr result (λ fault. fault ≡ Memory) }
    {
        match of {
            Some(id) => {
                let response = self.store.copy_response(*id)?;
                Ok(Some(response))
            }
            None => Ok(None),
        }
    }
}

impl<H: GoalHandler> Cx for SolverCx<H> {
    type Input = InputId;

    type Result = Option<ResponseId>;

    type AmbiguityInfo = MaybeCause;

    fn copy_input(&self, input: &InputId) -> Result<InputId, AllocError> {
        Ok(*input)
    }

    fn copy_result(&self, of: &Option<ResponseId>) -> Result<Option<ResponseId>, AllocError> {
        Ok(*of)
    }

    ghost use Rattle.goal_frames.proofs.Numbers.{equal-input-ids};
    ghost use Rattle.solver_graph.specs.Numbers.{same-result};

    ghost same_input = { equal-input-ids };

    ghost same_result = { same-result };
}
