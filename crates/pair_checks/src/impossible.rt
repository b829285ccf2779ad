//! Whether one trait reference is impossible, evaluated alone in coherence.
ghost use Rattle.std.specs.Prelude.{◌≡◌, IsTrue, true, false, IfOk, IfErr, Ok, Err};
ghost use Rattle.type_terms.specs.Promised.Handles.{Keeps};
ghost use Rattle.infer_table.specs.Content.{Table, Ready, Grows, place_in};
ghost use Rattle.declarations.specs.Held.{ReferenceHeld};
ghost use Rattle.search_graph.specs.Cache.{AreJustified, AreConsistent, KeepsResults};
ghost use Rattle.search_graph.specs.Meaning as Searches;
ghost use Rattle.solver_graph.specs.Contexts.{IsReady};
ghost use Rattle.solver_graph.specs.Searching.{solver_meaning};
ghost use Rattle.solver_graph.specs.Shortages.{ContextFullAtLimit, RootFullAtLimit};
ghost use Rattle.pair_checks.specs.Impossible.{IsImpossible, SearchLeavesOpen, IsNoRefusal};

use goal_evaluator::TypingMode;
use goal_frames::GoalHandler;
use infer_table::goal::Goal;
use infer_table::infer_ctxt::InferCtxt;
use infer_table::terms::Snapshot;
use solver_graph::{GoalEvaluation, RootError, Search};
use term_folds::predicate::{TraitPredicate, TraitRef};
use type_terms::Fault;

/// Whether a trait reference is impossible: the search refuses it in coherence, alone over the table and without where-clauses.
///
/// An impossible one has no proof in any of the handler's worlds, at any solution of the table. If it is not refused, the search has an
/// answer that is no refusal, or plain recursion has none within the depth. A conflict refuses nothing. The values of the answer are taken
/// back, so the table is as before. The interner, the cache, and the context's goals and answers may grow.
///
/// Fails with `Memory` if memory is refused, or if the table has no numbers for the goal's form or for its answer. Fails with `Full` only
/// if a table of the context is at its limit.
///
/// rustc: `SolverDelegateEvalExt::root_goal_may_hold_with_depth`, with the opposite answer.
pub fn is_impossible<H: GoalHandler>(
    search: &mut Search<H>,
    table: &mut InferCtxt,
    trait_ref: TraitRef,
) -> Result<bool, Fault>
    requires empty { search.old.graph.current_depth ≡ 0 }
    requires cache { AreJustified (solver_meaning H.meaning) search.old.cx search.old.cache }
    requires ready { IsReady H.meaning.IsReady search.old.cx }
    requires table { Ready search.old.cx.interner.entries table.old }
    requires held { ReferenceHeld search.old.cx.interner.entries trait_ref }

    // After a fault too.
    ensures empty { search.new.graph.current_depth ≡ 0 }
    ensures depth { search.new.graph.root_depth ≡ search.old.graph.root_depth }
    ensures cache { AreJustified (solver_meaning H.meaning) search.new.cx search.new.cache }
    ensures consistent { AreConsistent search.old.cache → AreConsistent search.new.cache }
    ensures results { KeepsResults search.old.cache search.new.cache }
    ensures ready { IsReady H.meaning.IsReady search.new.cx }
    ensures keeps { Searches.KeepsContext (solver_meaning H.meaning) search.old.cx search.new.cx }
    ensures entries { Keeps search.old.cx.interner.entries search.new.cx.interner.entries }
    ensures same { table.new ≡ table.old }
    ensures impossible { IfOk result (λ refused. IsTrue refused → IsImpossible H.meaning search.old.cx table.old trait_ref) }
    ensures left_open { IfOk result (λ refused. refused ≡ false → SearchLeavesOpen H.meaning search.old.cx search.old.graph table.old trait_ref) }
    ensures full { IfErr result (ContextFullAtLimit search.new.cx) }
{
    let evaluated = evaluate_alone(search, table, trait_ref);
    is_refused(evaluated)
}

/// Evaluates a trait reference in coherence, alone over the table and without where-clauses. The values of its answer are taken back.
fn evaluate_alone<H: GoalHandler>(
    search: &mut Search<H>,
    table: &mut InferCtxt,
    trait_ref: TraitRef,
) -> Result<GoalEvaluation, RootError>
    requires empty { search.old.graph.current_depth ≡ 0 }
    requires cache { AreJustified (solver_meaning H.meaning) search.old.cx search.old.cache }
    requires ready { IsReady H.meaning.IsReady search.old.cx }
    requires table { Ready search.old.cx.interner.entries table.old }
    requires held { ReferenceHeld search.old.cx.interner.entries trait_ref }
    ensures empty { search.new.graph.current_depth ≡ 0 }
    ensures depth { search.new.graph.root_depth ≡ search.old.graph.root_depth }
    ensures cache { AreJustified (solver_meaning H.meaning) search.new.cx search.new.cache }
    ensures consistent { AreConsistent search.old.cache → AreConsistent search.new.cache }
    ensures results { KeepsResults search.old.cache search.new.cache }
    ensures ready { IsReady H.meaning.IsReady search.new.cx }
    ensures keeps { Searches.KeepsContext (solver_meaning H.meaning) search.old.cx search.new.cx }
    ensures entries { Keeps search.old.cx.interner.entries search.new.cx.interner.entries }
    ensures same { table.new ≡ table.old }
    ensures impossible { result ≡ Err RootError.NoSolution → IsImpossible H.meaning search.old.cx table.old trait_ref }
    ensures left_open { IsNoRefusal result → SearchLeavesOpen H.meaning search.old.cx search.old.graph table.old trait_ref }
    ensures full { IfErr result (RootFullAtLimit search.new.cx) }
{
    let goal = Goal {
        param_env: Vec::new(search.cx.alloc),
        predicate: TraitPredicate { trait_ref },
    };
    let place = table.snapshot();
    let evaluated = search.evaluate(table, TypingMode::Coherence, &goal);
    take_back(table, place);
    evaluated
}

/// Rolls the table back to the snapshot: no value of the goal's answer stays.
fn take_back(table: &mut InferCtxt, place: Snapshot)
    ensures { (before : Table) → place ≡ place_in before → Grows before table.old → table.new ≡ before }
{
    table.roll_back(place);
}

/// Whether the evaluation says that the goal has no solution. Any answer leaves it open, a conflict refuses nothing, and a fault says
/// nothing of the goal.
fn is_refused(evaluated: Result<GoalEvaluation, RootError>) -> Result<bool, Fault>
    ensures refused { result ≡ Ok true → evaluated ≡ Err RootError.NoSolution }
    ensures left_open { result ≡ Ok false → IsNoRefusal evaluated }
    ensures fault { IfErr result (λ fault. evaluated ≡ Err (RootError.Fault fault)) }
{
    match evaluated {
        Ok(_) => Ok(false),
        Err(RootError::NoSolution) => Ok(true),
        Err(RootError::Conflict) => Ok(false),
        Err(RootError::Fault(fault)) => Err(fault),
    }
}
