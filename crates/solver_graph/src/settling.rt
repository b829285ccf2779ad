//! A goal, evaluated until its answer is definite. For `V<?x>: Show`, the first answer may be a yes with `?x = u8`. Then `V<u8>: Show` is
//! evaluated, and a yes without values ends it.

ghost use Rattle.std.specs.Prelude.{◌≡◌, ◌-◌, Ok, IfErr};
ghost use Rattle.solver_graph.specs.Askings.{AskingsOf, IsLeftByAnswer, StartsFramesOfAsking};
ghost use Rattle.solver_graph.specs.LeftTables.{IsLeftByAnswers};
ghost use Rattle.solver_graph.specs.Settling.{IsAskable, HasAsked, IsProvedBy, GoalIsRefused, RefusalIsKept, IsUnsettled};
ghost use Rattle.solver_graph.specs.Shortages.{ContextFullAtLimit};
ghost use Rattle.solver_graph.specs.declared.settling.TheConstants.{MAX_ASKINGS};

use crate::handle::Search;
use crate::outcome::RootError;
use goal_evaluator::{Certainty, HasChanged, TypingMode};
use goal_frames::GoalHandler;
use infer_table::goal::Goal;
use infer_table::infer_ctxt::InferCtxt;
use type_terms::Fault;

/// How often a goal is evaluated at most until its answer is definite. The values of one answer may make the next one definite.
pub const MAX_ASKINGS: u32 = 8;

/// What is known of a goal at the end.
#[derive(Clone, Copy)]
pub enum Outcome {
    /// The goal has a proof, with the values that the table has.
    Proved,
    /// The goal was refused when it was evaluated first.
    Unproved,
    /// The search does not know.
    Maybe,
}

/// What one evaluation comes to.
#[derive(Clone, Copy)]
enum Asking {
    /// A yes that changes nothing.
    Holds,
    /// A yes with values.
    Changes,
    /// The search does not know whether there is a solution.
    IsUnsure,
    /// There is no solution.
    IsRefused,
}

/// What an evaluation with this certainty comes to.
fn read(certainty: Certainty, has_changed: HasChanged) -> Asking
    ensures holds { result ≡ Asking.Holds → (certainty ≡ Certainty.Yes) × (has_changed ≡ HasChanged.No) }
    ensures changes { result ≡ Asking.Changes → has_changed ≡ HasChanged.Yes }
    ensures unsure { result ≡ Asking.IsUnsure → certainty ≡ Certainty.Yes → ⊥ }
    ensures not_refused { result ≡ Asking.IsRefused → ⊥ }
{
    match (certainty, has_changed) {
        (Certainty::Yes, HasChanged::No) => Asking::Holds,
        (Certainty::Yes, HasChanged::Yes) => Asking::Changes,
        (Certainty::Maybe(_), _) => Asking::IsUnsure,
    }
}

/// What a goal comes to that has no evaluation. A conflict is no refusal: it leaves the goal open.
fn read_error(error: RootError) -> Result<Asking, Fault>
    ensures refused { result ≡ Ok Asking.IsRefused → error ≡ RootError.NoSolution }
    ensures unsure { result ≡ Ok Asking.IsUnsure → error ≡ RootError.Conflict }
    ensures not_yes { result ≡ Ok Asking.Holds → ⊥ }
    ensures not_changed { result ≡ Ok Asking.Changes → ⊥ }
    ensures fault { IfErr result (λ f. error ≡ RootError.Fault f) }
{
    match error {
        RootError::NoSolution => Ok(Asking::IsRefused),
        RootError::Conflict => Ok(Asking::IsUnsure),
        RootError::Fault(fault) => Err(fault),
    }
}

/// Evaluates the goal once. The answer's values stay in the table.
fn ask_once<H: GoalHandler>(
    search: &mut Search<H>,
    table: &mut InferCtxt,
    mode: TypingMode,
    goal: &Goal,
) -> Result<Asking, Fault>
    requires { IsAskable H.meaning search.old.graph search.old.cache search.old.cx table.old goal.now }
    ensures again { IsAskable H.meaning search.new.graph search.new.cache search.new.cx table.new goal.now }
    ensures asked { HasAsked H.meaning search.old.graph search.old.cache search.old.cx table.old search.new.graph search.new.cache search.new.cx table.new }
    ensures covers { IsLeftByAnswers H.meaning search.old.cx table.old mode goal.now search.new.cx table.new }
    ensures holds { result ≡ Ok Asking.Holds
        → IsProvedBy H.meaning (H.meaning.world search.old.cx.handler search.old.cx.interner.entries) search.old.cx table.old search.new.cx table.new goal.now }
    ensures changes { result ≡ Ok Asking.Changes → IsUnsettled H.meaning search.old.cx search.old.graph table.old mode goal.now }
    ensures unsure { result ≡ Ok Asking.IsUnsure → IsUnsettled H.meaning search.old.cx search.old.graph table.old mode goal.now }
    ensures refused { result ≡ Ok Asking.IsRefused → GoalIsRefused H.meaning search.old.cx search.old.graph table.old mode goal.now }
    ensures kept { result ≡ Ok Asking.IsRefused
        → RefusalIsKept H.meaning search.old.cx search.old.graph table.old mode goal.now search.new.cx search.new.cache }
    ensures full { IfErr result (ContextFullAtLimit search.new.cx) }
    ensures frames { StartsFramesOfAsking H.meaning search.old.cx search.old.graph table.old mode goal.now search.new.graph }
    ensures left { result ≡ Ok Asking.Changes → IsLeftByAnswer H.meaning search.old.cx search.old.graph table.old mode goal.now search.new.cx table.new }
{
    match search.evaluate(table, mode, goal) {
        Ok(evaluation) => Ok(read(evaluation.certainty, evaluation.has_changed)),
        Err(error) => read_error(error),
    }
}

/// Evaluates a goal again whose last answer had values, as often as is still allowed. A refusal now does not say that there is no proof,
/// because the values need not be forced.
fn ask_again<H: GoalHandler>(
    search: &mut Search<H>,
    table: &mut InferCtxt,
    mode: TypingMode,
    goal: &Goal,
) -> Result<Outcome, Fault>
    requires { IsAskable H.meaning search.old.graph search.old.cache search.old.cx table.old goal.now }
    ensures again { IsAskable H.meaning search.new.graph search.new.cache search.new.cx table.new goal.now }
    ensures asked { HasAsked H.meaning search.old.graph search.old.cache search.old.cx table.old search.new.graph search.new.cache search.new.cx table.new }
    ensures covers { IsLeftByAnswers H.meaning search.old.cx table.old mode goal.now search.new.cx table.new }
    ensures proved { result ≡ Ok Outcome.Proved
        → IsProvedBy H.meaning (H.meaning.world search.old.cx.handler search.old.cx.interner.entries) search.old.cx table.old search.new.cx table.new goal.now }
    ensures not_unproved { result ≡ Ok Outcome.Unproved → ⊥ }
    ensures full { IfErr result (ContextFullAtLimit search.new.cx) }
    ensures frames { AskingsOf H.meaning (MAX_ASKINGS - 1) search.old.cx search.old.graph table.old mode goal.now search.new.graph }
{
    for _asking in 1..MAX_ASKINGS {
        match ask_once(search, table, mode, goal)? {
            Asking::Holds => return Ok(Outcome::Proved),
            Asking::Changes => {}
            Asking::IsUnsure | Asking::IsRefused => return Ok(Outcome::Maybe),
        }
    }
    Ok(Outcome::Maybe)
}

/// Evaluates a goal over one table until its answer is definite. After a yes with values it is evaluated again, at most eight times
/// in all. The values stay in the table.
///
/// - `Proved`: the last evaluation was a yes that changed nothing. Then the goal has a proof at each solution of the table, if neither it
///   nor the table held canonical variables.
/// - `Unproved`: the first evaluation was refused.
/// - `Maybe`: an answer was ambiguous, a refusal came after values, there was a conflict, or all eight answers had values. Then the first
///   answer was no definite yes, or plain recursion has none within the depth.
///
/// Fails with `Memory` if memory is refused, or if the table has no numbers for the goal's form or for its answer. Fails with `Full` only
/// if a table of the context is at its limit. The goal can be evaluated again in each case. Each solution of the table is one that it had
/// before, and none is lost at which the goal has a proof in one of the handler's worlds, if both hold the table's variables alone.
///
/// rustc: `evaluate_root_goal` in the loop of `FulfillmentCtxt` of `rustc_trait_selection`, for one goal.
pub fn ask_until_settled<H: GoalHandler>(
    search: &mut Search<H>,
    table: &mut InferCtxt,
    mode: TypingMode,
    goal: &Goal,
) -> Result<Outcome, Fault>
    requires { IsAskable H.meaning search.old.graph search.old.cache search.old.cx table.old goal.now }
    ensures again { IsAskable H.meaning search.new.graph search.new.cache search.new.cx table.new goal.now }
    ensures asked { HasAsked H.meaning search.old.graph search.old.cache search.old.cx table.old search.new.graph search.new.cache search.new.cx table.new }
    ensures covers { IsLeftByAnswers H.meaning search.old.cx table.old mode goal.now search.new.cx table.new }
    ensures proved { result ≡ Ok Outcome.Proved
        → IsProvedBy H.meaning (H.meaning.world search.old.cx.handler search.old.cx.interner.entries) search.old.cx table.old search.new.cx table.new goal.now }
    ensures unproved { result ≡ Ok Outcome.Unproved → GoalIsRefused H.meaning search.old.cx search.old.graph table.old mode goal.now }

    // The search found the refusal, and the cache has it. Of a goal that ends in a conflict nothing says so.
    ensures kept { result ≡ Ok Outcome.Unproved
        → RefusalIsKept H.meaning search.old.cx search.old.graph table.old mode goal.now search.new.cx search.new.cache }
    ensures maybe { result ≡ Ok Outcome.Maybe → IsUnsettled H.meaning search.old.cx search.old.graph table.old mode goal.now }
    ensures full { IfErr result (ContextFullAtLimit search.new.cx) }
    ensures frames { AskingsOf H.meaning MAX_ASKINGS search.old.cx search.old.graph table.old mode goal.now search.new.graph }
{
    match ask_once(search, table, mode, goal)? {
        Asking::Holds => Ok(Outcome::Proved),
        Asking::IsRefused => Ok(Outcome::Unproved),
        Asking::IsUnsure => Ok(Outcome::Maybe),
        Asking::Changes => ask_again(search, table, mode, goal),
    }
}
