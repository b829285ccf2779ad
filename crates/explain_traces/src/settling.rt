//! A goal over a table, evaluated until its answer is definite.

ghost use Rattle.infer_table.specs.Content.{Ready, Grows};
ghost use Rattle.infer_table.specs.Goals.{GoalHeld};
ghost use Rattle.explain_traces.specs.Walking.{WalkIsAskable, WalkHasAsked};

use goal_evaluator::{Goal, TypingMode};
use goal_frames::GoalHandler;
use infer_table::infer_ctxt::InferCtxt;
use solver_graph::{Search, ask_until_settled};
use type_terms::Fault;
use type_terms::visitable_ext::TypeVisitableExt;

/// Puts the values that the search gives a goal into the table, as [`ask_until_settled`] does. A goal that is refused, or of which nothing
/// is known, leaves the table as it is; one in which no unknown stands is not asked.
pub fn settle<H: GoalHandler>(
    search: &mut Search<H>,
    table: &mut InferCtxt,
    mode: TypingMode,
    goal: &Goal,
) -> Result<(), Fault>
    requires askable { WalkIsAskable H.meaning search.old.graph search.old.cache search.old.cx }
    requires table { Ready search.old.cx.interner.entries table.old }
    requires goal { GoalHeld search.old.cx.interner.entries goal.now }
    ensures again { WalkIsAskable H.meaning search.new.graph search.new.cache search.new.cx }
    ensures asked { WalkHasAsked H.meaning search.old.graph search.old.cx search.new.graph search.new.cx }
    ensures table { Ready search.new.cx.interner.entries table.new }
    ensures grows { Grows table.old table.new }
{
    if !goal.predicate.trait_ref.args.has_infer(&search.cx.interner) {
        return Ok(());
    }
    ask_until_settled(search, table, mode, goal)?;
    Ok(())
}
