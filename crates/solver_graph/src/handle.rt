//! What a search works on, as one value.

ghost use Rattle.infer_table.specs.Content.{Ready};
ghost use Rattle.std.specs.Prelude.{◌≡◌, IfOk};
ghost use Rattle.infer_table.specs.Goals.{GoalHeld};
ghost use Rattle.search_graph.specs.Cache.{AreJustified};
ghost use Rattle.solver_graph.specs.Contexts.{IsReady};
ghost use Rattle.solver_graph.specs.Searching.{solver_meaning};
ghost use Rattle.solver_graph.specs.RootEvaluations.{LeavesAtRest, Costs, SaysAnswer, YesIsProved, Refuses, EndsByFault};

use crate::context::SolverCx;
use crate::graph::SolverGraph;
use crate::outcome::{GoalEvaluation, RootError};
use crate::root::evaluate_root_goal;
use goal_evaluator::TypingMode;
use goal_frames::GoalHandler;
use infer_table::goal::Goal;
use infer_table::infer_ctxt::InferCtxt;
use search_graph::{GlobalCache, SearchGraph};

/// What each evaluation of a goal works on: the graph of the goals that are open, the results so far, and the context of both.
///
/// Between two evaluations no goal is open. The cache's results are justified in this context, and mean nothing in another one.
///
/// rustc: `SearchGraph` of `rustc_type_ir`, with the global cache and the delegate that its calls are passed.
pub struct Search<H: GoalHandler> {
    /// The goals that are open, and the depth limit.
    pub graph: SearchGraph<SolverGraph<H>>,
    /// The results so far.
    pub cache: GlobalCache<SolverGraph<H>>,
    /// The interner, the handler with the rules, and the store of goals and responses.
    pub cx: SolverCx<H>,
}

// Hand-written so that the prover sees one drop call: docs/PROVING.md#drop.
impl<H: GoalHandler + Drop> Drop for Search<H> {
    fn drop(self) {
        let Search {
            graph: _,
            cache: _,
            cx: _,
        } = self;
    }
}

impl<H: GoalHandler> Search<H> {
    /// Evaluates a goal of a table: [`evaluate_root_goal`].
    pub fn evaluate(
        &mut self,
        table: &mut InferCtxt,
        mode: TypingMode,
        goal: &Goal,
    ) -> Result<GoalEvaluation, RootError>
        requires empty { self.old.graph.current_depth ≡ 0 }
        requires cache { AreJustified (solver_meaning H.meaning) self.old.cx self.old.cache }
        requires ready { IsReady H.meaning.IsReady self.old.cx }
        requires table { Ready self.old.cx.interner.entries table.old }
        requires goal { GoalHeld self.old.cx.interner.entries goal.now }
        ensures rests { LeavesAtRest H.meaning self.old.cx self.old.graph self.old.cache table.old self.new.cx self.new.graph self.new.cache table.new }
        ensures costs { Costs H.meaning self.old.cx self.old.graph self.old.cache table.old self.new.cx self.new.graph self.new.cache table.new mode goal.now }
        ensures says { IfOk result (SaysAnswer H.meaning self.old.cx self.old.graph self.old.cache table.old self.new.cx self.new.graph
            self.new.cache table.new mode goal.now) }
        ensures yes { IfOk result (YesIsProved H.meaning self.old.cx table.old goal.now) }
        ensures refusal { Refuses H.meaning self.old.cx self.old.graph self.old.cache table.old self.new.cx self.new.graph self.new.cache table.new
            mode goal.now result }
        ensures faults { EndsByFault H.meaning self.old.cx self.old.graph self.old.cache table.old self.new.cx self.new.graph self.new.cache
            table.new mode goal.now result }
    {
        evaluate_root_goal(
            &mut self.graph,
            &mut self.cache,
            &mut self.cx,
            table,
            mode,
            goal,
        )
    }
}
