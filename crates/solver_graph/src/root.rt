//! Evaluates goals of a table.

ghost use Rattle.std.specs.Prelude.{◌≡◌, IfOk};
ghost use Rattle.infer_table.specs.Content.{Ready};
ghost use Rattle.infer_table.specs.Goals.{GoalHeld};
ghost use Rattle.search_graph.specs.Cache.{AreJustified};
ghost use Rattle.solver_graph.specs.Contexts.{IsReady};
ghost use Rattle.solver_graph.specs.Searching.{solver_meaning};
ghost use Rattle.solver_graph.specs.RootEvaluations.{LeavesAtRest, Costs, SaysAnswer, YesIsProved, Refuses, EndsByFault};

use crate::applying::{apply_answer, has_changed};
use crate::asking::{Asked, ask};
use crate::context::SolverCx;
use crate::graph::SolverGraph;
use crate::outcome::{GoalEvaluation, RootError};
use crate::searching::search;
use goal_evaluator::{Certainty, HasChanged, TypingMode};
use goal_frames::{GoalHandler, handlers_are_programs};
use infer_table::goal::Goal;
use infer_table::infer_ctxt::InferCtxt;
use search_graph::{GlobalCache, SearchGraph};
use type_terms::Fault;

/// Evaluates a goal of a table: searches for its canonical form, and applies the response to the table.
///
/// First the goal is resolved. The result contains the goal in this form. Afterwards the table has the response's values and
/// region constraints. If the result is `Yes` without changes, each instance of the goal by a solution of the table has a proof
/// by the handler's rules. In coherence, each solution of the table at which the goal has a proof is preserved.
///
/// * `NoSolution`: the goal has no solution.
/// * `Conflict`: a new response to some goal differs from the cached one. It is never returned for a goal that plain recursion
///   answers within the depth.
/// * `Fault`: memory was refused, or a table is full.
///
/// After any error the table's content is unchanged. The interner, the store and the cache may have new entries.
///
/// rustc: `SolverDelegateEvalExt::evaluate_root_goal` of `rustc_next_trait_solver`.
pub fn evaluate_root_goal<H: GoalHandler>(
    graph: &mut SearchGraph<SolverGraph<H>>,
    cache: &mut GlobalCache<SolverGraph<H>>,
    cx: &mut SolverCx<H>,
    table: &mut InferCtxt,
    mode: TypingMode,
    goal: &Goal,
) -> Result<GoalEvaluation, RootError>
    requires empty { graph.old.current_depth ≡ 0 }
    requires cache { AreJustified (solver_meaning H.meaning) cx.old cache.old }
    requires ready { IsReady H.meaning.IsReady cx.old }
    requires table { Ready cx.old.interner.entries table.old }
    requires goal { GoalHeld cx.old.interner.entries goal.now }

    // This holds after an error too.
    ensures rests { LeavesAtRest H.meaning cx.old graph.old cache.old table.old cx.new graph.new cache.new table.new }
    ensures costs { Costs H.meaning cx.old graph.old cache.old table.old cx.new graph.new cache.new table.new mode goal.now }

    ensures says { IfOk result (SaysAnswer H.meaning cx.old graph.old cache.old table.old cx.new graph.new cache.new table.new mode goal.now) }
    ensures yes { IfOk result (YesIsProved H.meaning cx.old table.old goal.now) }

    ensures refusal { Refuses H.meaning cx.old graph.old cache.old table.old cx.new graph.new cache.new table.new mode goal.now result }
    ensures faults { EndsByFault H.meaning cx.old graph.old cache.old table.old cx.new graph.new cache.new table.new mode goal.now result }
{
    handlers_are_programs::<H>();
    let asked = ask(cx, table, mode, goal)?;
    let Asked {
        goal: resolved,
        input,
        values,
    } = asked;
    let Some(answer) = search(graph, cache, cx, input)? else {
        return Err(RootError::NoSolution);
    };
    let changed = has_changed(&cx.interner, &answer);
    let applied = apply_answer(cx.alloc, &mut cx.interner, table, &values, &answer);
    cx.interner.lawful();
    match applied {
        Ok(()) => Ok(GoalEvaluation {
            goal: resolved,
            certainty: answer.certainty,
            has_changed: changed,
        }),
        Err(error) => Err(RootError::from(error)),
    }
}
