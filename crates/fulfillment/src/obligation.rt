//! A goal that was registered, and how it stands.

ghost use Rattle.std.specs.Prelude.{◌≡◌, ◌<◌, ◌⊎◌, ◌↔◌, IsTrue, Ok, IfErr};
ghost use Rattle.solver_graph.specs.Askings.{StartsFramesOfAsking};
ghost use Rattle.solver_graph.specs.LeftTables.{IsLeftByAnswers};
ghost use Rattle.solver_graph.specs.Settling.{IsAskable, HasAsked, GoalIsRefused, IsUnsettled};
ghost use Rattle.solver_graph.specs.Shortages.{ContextFullAtLimit};
ghost use Rattle.fulfillment.specs.Obligations.{ObligationIsSettled, noted, standing_as, step_of};
ghost use Rattle.fulfillment.specs.Selecting.{StandsAfter};

use crate::evaluating::{Answer, evaluate_once};
use goal_evaluator::{MaybeCause, TypingMode};
use goal_frames::GoalHandler;
use infer_table::goal::Goal;
use infer_table::infer_ctxt::InferCtxt;
use solver_graph::Search;
use type_terms::Fault;

/// The number of an obligation: how many were registered before it.
#[derive(Clone, Copy)]
pub struct ObligationId {
    pub index: usize,
}

/// What is known of an obligation.
#[derive(Clone, Copy)]
pub enum Standing {
    /// Nothing decides its goal. With the cause `Ambiguity` more values may, and before the first evaluation that is the cause too. With
    /// `Overflow` the search reached a limit, or the goal's answers had values as often as is allowed.
    Pending(MaybeCause),
    /// Its goal has a proof at each solution of the table.
    Done,
    /// Its goal had a proof at no solution of the table when it was evaluated.
    Refused,
}

/// A goal that was registered, and how it stands (`rustc_infer::traits::Obligation`).
#[derive(Drop)]
pub struct Obligation {
    pub goal: Goal,
    pub standing: Standing,
    /// How many more of its answers may have values. At 0 it is evaluated no more, and stays as it stands.
    pub left: usize,
}

/// How an obligation stood at a snapshot.
#[derive(Clone, Copy)]
pub struct Stood {
    pub standing: Standing,
    pub left: usize,
}

/// What a selection of one obligation comes to.
#[derive(Clone, Copy)]
pub(crate) enum Step {
    /// The answer had values.
    Narrowed,
    /// It had none, or the goal was not evaluated.
    Quiet,
    /// There is no solution.
    Refused,
}

impl Obligation {
    /// Whether its goal has a proof at each solution of the table.
    pub fn is_done(&self) -> bool
        ensures { IsTrue result ↔ (self.now.standing ≡ Standing.Done) }
    {
        matches!(self.standing, Standing::Done)
    }

    /// Makes it stand as it stood.
    pub(crate) fn restore(&mut self, stood: Stood)
        ensures { self.new ≡ standing_as self.old stood }
    {
        self.standing = stood.standing;
        self.left = stood.left;
    }

    /// Notes what an evaluation came to.
    fn note(&mut self, answer: Answer) -> Step
        requires { 0 < self.old.left }
        ensures noted { self.new ≡ noted self.old answer }
        ensures step { result ≡ step_of answer }
    {
        match answer {
            Answer::Holds => {
                self.standing = Standing::Done;
                Step::Quiet
            }
            Answer::Narrows => {
                self.left -= 1;
                self.standing = Standing::Pending(if self.left == 0 {
                    MaybeCause::Overflow
                } else {
                    MaybeCause::Ambiguity
                });
                Step::Narrowed
            }
            Answer::IsOpen(cause) => {
                self.standing = Standing::Pending(cause);
                Step::Quiet
            }
            Answer::IsRefused => {
                self.standing = Standing::Refused;
                Step::Refused
            }
        }
    }

    /// Evaluates its goal once, unless it is done, or its answers had values as often as is allowed.
    pub(crate) fn select<H: GoalHandler>(
        &mut self,
        search: &mut Search<H>,
        table: &mut InferCtxt,
        mode: TypingMode,
    ) -> Result<Step, Fault>
        requires { IsAskable H.meaning search.old.graph search.old.cache search.old.cx table.old self.old.goal }
        ensures again { IsAskable H.meaning search.new.graph search.new.cache search.new.cx table.new self.new.goal }
        ensures asked { HasAsked H.meaning search.old.graph search.old.cache search.old.cx table.old search.new.graph search.new.cache search.new.cx table.new }
        ensures covers { IsLeftByAnswers H.meaning search.old.cx table.old mode self.old.goal search.new.cx table.new }
        ensures stands { StandsAfter H.meaning search.old.graph search.old.cx table.old mode search.new.cx table.new self.old self.new }
        ensures narrowed { result ≡ Ok Step.Narrowed → self.new.left < self.old.left }
        ensures quiet { result ≡ Ok Step.Quiet
            → ObligationIsSettled self.new ⊎ IsUnsettled H.meaning search.old.cx search.old.graph table.old mode self.old.goal }
        ensures same { result ≡ Ok Step.Quiet → self.new.left ≡ self.old.left }
        ensures refused { result ≡ Ok Step.Refused → GoalIsRefused H.meaning search.old.cx search.old.graph table.old mode self.old.goal }
        ensures frames { StartsFramesOfAsking H.meaning search.old.cx search.old.graph table.old mode self.old.goal search.new.graph }
        ensures full { IfErr result (ContextFullAtLimit search.new.cx) }
    {
        if self.left == 0 || self.is_done() {
            return Ok(Step::Quiet);
        }
        let answer = evaluate_once(search, table, mode, &self.goal)?;
        Ok(self.note(answer))
    }
}
