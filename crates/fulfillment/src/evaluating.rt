//! One evaluation of a goal.

ghost use Rattle.std.specs.Prelude.{◌≡◌, Ok, IfErr};
ghost use Rattle.infer_table.specs.declared.certainty.MaybeCause.{MaybeCause};
ghost use Rattle.solver_graph.specs.Askings.{StartsFramesOfAsking};
ghost use Rattle.solver_graph.specs.LeftTables.{IsLeftByAnswers};
ghost use Rattle.solver_graph.specs.Settling.{IsAskable, HasAsked, IsProvedBy, GoalIsRefused, IsUnsettled};
ghost use Rattle.solver_graph.specs.Shortages.{ContextFullAtLimit};

use goal_evaluator::{Certainty, HasChanged, MaybeCause, TypingMode};
use goal_frames::GoalHandler;
use infer_table::goal::Goal;
use infer_table::infer_ctxt::InferCtxt;
use solver_graph::{RootError, Search};
use type_terms::Fault;

/// What one evaluation comes to.
#[derive(Clone, Copy)]
pub(crate) enum Answer {
    /// A yes without values.
    Holds,
    /// An answer with values, whatever its certainty.
    Narrows,
    /// Without values, and the search does not know whether there is a solution.
    IsOpen(MaybeCause),
    /// There is no solution.
    IsRefused,
}

/// What an evaluation with this certainty comes to.
fn read(certainty: Certainty, has_changed: HasChanged) -> Answer
    ensures holds { result ≡ Answer.Holds → (certainty ≡ Certainty.Yes) × (has_changed ≡ HasChanged.No) }
    ensures narrows { result ≡ Answer.Narrows → has_changed ≡ HasChanged.Yes }
    ensures unsettled { (cause : MaybeCause) → result ≡ Answer.IsOpen cause → certainty ≡ Certainty.Yes → ⊥ }
    ensures not_refused { result ≡ Answer.IsRefused → ⊥ }
{
    match (certainty, has_changed) {
        (_, HasChanged::Yes) => Answer::Narrows,
        (Certainty::Yes, HasChanged::No) => Answer::Holds,
        (Certainty::Maybe(cause), HasChanged::No) => Answer::IsOpen(cause),
    }
}

/// What a goal comes to that has no evaluation. A conflict is no refusal: it leaves the goal open.
fn read_error(error: RootError) -> Result<Answer, Fault>
    ensures refused { result ≡ Ok Answer.IsRefused → error ≡ RootError.NoSolution }
    ensures unsettled { (cause : MaybeCause) → result ≡ Ok (Answer.IsOpen cause) → error ≡ RootError.Conflict }
    ensures not_holds { result ≡ Ok Answer.Holds → ⊥ }
    ensures not_narrows { result ≡ Ok Answer.Narrows → ⊥ }
    ensures fault { IfErr result (λ f. error ≡ RootError.Fault f) }
{
    match error {
        RootError::NoSolution => Ok(Answer::IsRefused),
        RootError::Conflict => Ok(Answer::IsOpen(MaybeCause::Ambiguity)),
        RootError::Fault(fault) => Err(fault),
    }
}

/// Evaluates the goal once. The answer's values stay in the table, whatever its certainty.
///
/// Fails as [`Search::evaluate`] does if memory is refused or a table is full. A conflict leaves the goal open.
pub(crate) fn evaluate_once<H: GoalHandler>(
    search: &mut Search<H>,
    table: &mut InferCtxt,
    mode: TypingMode,
    goal: &Goal,
) -> Result<Answer, Fault>
    requires { IsAskable H.meaning search.old.graph search.old.cache search.old.cx table.old goal.now }
    ensures again { IsAskable H.meaning search.new.graph search.new.cache search.new.cx table.new goal.now }
    ensures asked { HasAsked H.meaning search.old.graph search.old.cache search.old.cx table.old search.new.graph search.new.cache search.new.cx table.new }
    ensures covers { IsLeftByAnswers H.meaning search.old.cx table.old mode goal.now search.new.cx table.new }
    ensures holds { result ≡ Ok Answer.Holds
        → IsProvedBy H.meaning (H.meaning.world search.old.cx.handler search.old.cx.interner.entries) search.old.cx table.old search.new.cx table.new goal.now }
    ensures narrows { result ≡ Ok Answer.Narrows → IsUnsettled H.meaning search.old.cx search.old.graph table.old mode goal.now }
    ensures unsettled { (cause : MaybeCause) → result ≡ Ok (Answer.IsOpen cause)
        → IsUnsettled H.meaning search.old.cx search.old.graph table.old mode goal.now }
    ensures refused { result ≡ Ok Answer.IsRefused → GoalIsRefused H.meaning search.old.cx search.old.graph table.old mode goal.now }
    ensures frames { StartsFramesOfAsking H.meaning search.old.cx search.old.graph table.old mode goal.now search.new.graph }
    ensures full { IfErr result (ContextFullAtLimit search.new.cx) }
{
    match search.evaluate(table, mode, goal) {
        Ok(evaluation) => Ok(read(evaluation.certainty, evaluation.has_changed)),
        Err(error) => read_error(error),
    }
}
