//! The response of a search to a goal.

ghost use Rattle.std.specs.Prelude.{◌≡◌, IfOk, IfErr, Err};
ghost use Rattle.goal_evaluator.specs.Readings.{ResultHeld};
ghost use Rattle.goal_frames.specs.Fitting.{ResultFits};
ghost use Rattle.goal_evaluator.specs.StepReadings.{result_read};
ghost use Rattle.search_graph.specs.Cache.{AreJustified, AreConsistent, HasConflict, KeepsResults};
ghost use Rattle.search_graph.specs.Meaning.{KeepsContext, IsFair};
ghost use Rattle.search_graph.specs.Proof.{HasGraphProof};
ghost use Rattle.solver_graph.specs.Contexts.{goal_of, IsReady, IsInput};
ghost use Rattle.solver_graph.specs.Searching.{solver_meaning};
ghost use Rattle.solver_graph.specs.Evaluations.{IsRight};
ghost use Rattle.solver_graph.specs.Results.{FramesAreBounded, KnownIsFree, LimitsAreNoted, IsNotPlainWithin, IsResult};
ghost use Rattle.solver_graph.specs.Shortages.{RootFullAtLimit};

use crate::context::SolverCx;
use crate::graph::SolverGraph;
use crate::outcome::RootError;
use goal_frames::store::InputId;
use goal_frames::{GoalHandler, handlers_are_programs};
use infer_table::response::CanonicalResponse;
use search_graph::{GlobalCache, GraphFault, PathKind, SearchGraph};
use type_terms::Fault;

/// The response of a search to a goal, or `None` if the goal has no solution.
pub(crate) fn search<H: GoalHandler>(
    graph: &mut SearchGraph<SolverGraph<H>>,
    cache: &mut GlobalCache<SolverGraph<H>>,
    cx: &mut SolverCx<H>,
    input: InputId,
) -> Result<Option<CanonicalResponse>, RootError>
    requires empty { graph.old.current_depth ≡ 0 }
    requires cache { AreJustified (solver_meaning H.meaning) cx.old cache.old }
    requires input { IsInput H.meaning.IsReady cx.old input }
    ensures keeps { KeepsContext (solver_meaning H.meaning) cx.old cx.new }
    ensures ready { IsReady H.meaning.IsReady cx.new }
    ensures empty { graph.new.current_depth ≡ 0 }
    ensures depth { graph.new.root_depth ≡ graph.old.root_depth }
    ensures cache { AreJustified (solver_meaning H.meaning) cx.new cache.new }
    ensures consistent { AreConsistent cache.new }
    ensures results { KeepsResults cache.old cache.new }
    ensures frames { FramesAreBounded (solver_meaning H.meaning) cx.old (goal_of cx.old input) graph.old graph.new }
    ensures cached { KnownIsFree (solver_meaning H.meaning) cx.old cache.old (goal_of cx.old input) graph.old graph.new cache.new }
    ensures limits { LimitsAreNoted (solver_meaning H.meaning) cx.old (goal_of cx.old input) graph.old graph.new }
    ensures held { IfOk result (λ r. ResultHeld cx.new.interner.entries r × ResultFits cx.new.interner.entries r) }
    ensures found { IfOk result (λ r. IsResult (solver_meaning H.meaning) cx.old cache.old graph.old cx.new cache.new graph.new
        (goal_of cx.old input) (result_read cx.new.interner.entries r)) }
    ensures sound { IfOk result (λ r. let m = solver_meaning H.meaning in
        IsRight m (m.world cx.old) (goal_of cx.old input) (result_read cx.new.interner.entries r)) }
    ensures not_refused { result ≡ Err RootError.NoSolution → ⊥ }
    ensures no_conflict { result ≡ Err RootError.Conflict → IsNotPlainWithin (solver_meaning H.meaning) cx.old graph.old (goal_of cx.old input) }
    ensures conflict { result ≡ Err RootError.Conflict → HasConflict (solver_meaning H.meaning) cx.new cache.new }
    ensures full { IfErr result (RootFullAtLimit cx.new) }
{
    handlers_are_programs::<H>();
    match graph.evaluate_goal(cache, cx, input, PathKind::Inductive) {
        Ok(of) => {
            let answer = cx.answer(&of)?;
            Ok(answer)
        }
        Err(GraphFault::Memory) => Err(RootError::Fault(Fault::Memory)),
        Err(GraphFault::Full) => Err(RootError::Fault(Fault::Full)),
        Err(GraphFault::Conflict) => Err(RootError::Conflict),
        // No frame of a lawful handler makes a request out of order.
        Err(GraphFault::Protocol) => unreachable!(),
    }
}
