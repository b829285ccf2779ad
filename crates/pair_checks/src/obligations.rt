//! The where-clauses of a pair of impls, evaluated one after the other.
ghost use Rattle.std.specs.Prelude.{◌≡◌, ◌⊎◌, IsTrue, false, IfOk, IfErr};
ghost use Rattle.type_terms.specs.Promised.Proofs.{In};
ghost use Rattle.type_terms.specs.Promised.Handles.{Keeps};
ghost use Rattle.term_folds.specs.declared.predicate.TraitRef.{TraitRef};
ghost use Rattle.infer_table.specs.Content.{Ready};
ghost use Rattle.declarations.specs.Applied.{TraitRefsHeld};
ghost use Rattle.declarations.specs.Promised.Elaboration.{Each};
ghost use Rattle.search_graph.specs.Cache.{AreJustified, AreConsistent, KeepsResults};
ghost use Rattle.search_graph.specs.Meaning as Searches;
ghost use Rattle.solver_graph.specs.Contexts.{IsReady};
ghost use Rattle.solver_graph.specs.Searching.{solver_meaning};
ghost use Rattle.solver_graph.specs.Shortages.{ContextFullAtLimit};
ghost use Rattle.pair_checks.specs.Impossible.{IsImpossible, SearchLeavesOpen};

use crate::impossible::is_impossible;
use goal_frames::GoalHandler;
use infer_table::infer_ctxt::InferCtxt;
use overlap_check::intersection::ImplIntersection;
use solver_graph::Search;
use term_folds::predicate::TraitRef;
use type_terms::Fault;

/// Whether one of the where-clauses of two impls is impossible where their headers are equal, each evaluated alone. If so, the impls do not
/// overlap.
///
/// The where-clauses of the first impl come before those of the second. None is evaluated after one that is impossible. What was found of
/// the pair is as before. The interner, the cache, and the context's goals and answers may grow.
///
/// Fails with `Memory` if memory is refused, or if the table of the pair has no numbers for a goal's form or for its answer. Fails with
/// `Full` only if a table of the context is at its limit.
///
/// rustc: `impl_intersection_has_impossible_obligation`. Its second pass, all goals together with each other's values, is left out.
pub fn has_impossible_obligation<H: GoalHandler>(
    search: &mut Search<H>,
    found: &mut ImplIntersection,
) -> Result<bool, Fault>
    requires empty { search.old.graph.current_depth ≡ 0 }
    requires cache { AreJustified (solver_meaning H.meaning) search.old.cx search.old.cache }
    requires ready { IsReady H.meaning.IsReady search.old.cx }
    requires table { Ready search.old.cx.interner.entries found.old.table }
    requires left { TraitRefsHeld search.old.cx.interner.entries found.old.left.items }
    requires right { TraitRefsHeld search.old.cx.interner.entries found.old.right.items }

    // After a fault too.
    ensures empty { search.new.graph.current_depth ≡ 0 }
    ensures depth { search.new.graph.root_depth ≡ search.old.graph.root_depth }
    ensures cache { AreJustified (solver_meaning H.meaning) search.new.cx search.new.cache }
    ensures consistent { AreConsistent search.old.cache → AreConsistent search.new.cache }
    ensures results { KeepsResults search.old.cache search.new.cache }
    ensures ready { IsReady H.meaning.IsReady search.new.cx }
    ensures keeps { Searches.KeepsContext (solver_meaning H.meaning) search.old.cx search.new.cx }
    ensures entries { Keeps search.old.cx.interner.entries search.new.cx.interner.entries }
    ensures same { found.new ≡ found.old }

    // One that is impossible has no proof at any solution of the table.
    ensures impossible { IfOk result (λ refused. IsTrue refused
        → (r : TraitRef) × (In r found.old.left.items ⊎ In r found.old.right.items) × IsImpossible H.meaning search.old.cx found.old.table r) }

    // If none is, the search has an answer for each, or plain recursion has none within the depth.
    ensures left_open { IfOk result (λ refused. refused ≡ false
        → Each (SearchLeavesOpen H.meaning search.old.cx search.old.graph found.old.table) found.old.left.items
        × Each (SearchLeavesOpen H.meaning search.old.cx search.old.graph found.old.table) found.old.right.items) }
    ensures full { IfErr result (ContextFullAtLimit search.new.cx) }
{
    if some_is_impossible(search, &mut found.table, &found.left)? {
        return Ok(true);
    }
    some_is_impossible(search, &mut found.table, &found.right)
}

/// Whether one of the trait references is impossible, each evaluated alone over the table.
fn some_is_impossible<H: GoalHandler>(
    search: &mut Search<H>,
    table: &mut InferCtxt,
    references: &[TraitRef],
) -> Result<bool, Fault>
    requires empty { search.old.graph.current_depth ≡ 0 }
    requires cache { AreJustified (solver_meaning H.meaning) search.old.cx search.old.cache }
    requires ready { IsReady H.meaning.IsReady search.old.cx }
    requires table { Ready search.old.cx.interner.entries table.old }
    requires held { TraitRefsHeld search.old.cx.interner.entries references.now }
    ensures empty { search.new.graph.current_depth ≡ 0 }
    ensures depth { search.new.graph.root_depth ≡ search.old.graph.root_depth }
    ensures cache { AreJustified (solver_meaning H.meaning) search.new.cx search.new.cache }
    ensures consistent { AreConsistent search.old.cache → AreConsistent search.new.cache }
    ensures results { KeepsResults search.old.cache search.new.cache }
    ensures ready { IsReady H.meaning.IsReady search.new.cx }
    ensures keeps { Searches.KeepsContext (solver_meaning H.meaning) search.old.cx search.new.cx }
    ensures entries { Keeps search.old.cx.interner.entries search.new.cx.interner.entries }
    ensures same { table.new ≡ table.old }
    ensures impossible { IfOk result (λ refused. IsTrue refused → (r : TraitRef) × In r references.now × IsImpossible H.meaning search.old.cx table.old r) }
    ensures left_open { IfOk result (λ refused. refused ≡ false
        → Each (SearchLeavesOpen H.meaning search.old.cx search.old.graph table.old) references.now) }
    ensures full { IfErr result (ContextFullAtLimit search.new.cx) }
{
    'references: for trait_ref in references {
        if is_impossible(search, table, *trait_ref)? {
            return Ok(true);
        }
    }
    Ok(false)
}
