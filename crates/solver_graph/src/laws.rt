//! Laws of growing contexts and of evaluations, over terms.

ghost use Rattle.search_graph.specs.Cache.{AreJustified};
ghost use Rattle.search_graph.specs.Meaning as Search;
ghost use Rattle.solver_graph.specs.Contexts.{IsReady, InternerGrows, Advances};
ghost use Rattle.solver_graph.specs.Searching.{solver_meaning};
ghost use Rattle.solver_graph.specs.WithoutCanonical.{EvaluationsKeepOut};

use goal_frames::GoalHandler;

/// A context grows if its interner does, and it stays ready. Growth is transitive. A search preserves all its known results, and
/// what a cache contains stays justified.
pub fn context_laws<H: GoalHandler>()
    ensures interner { (c d : _) → IsReady H.meaning.IsReady c → InternerGrows c d → Advances H.meaning.IsReady c d }
    ensures further { (c d e : _) → Advances H.meaning.IsReady c d → Advances H.meaning.IsReady d e → Advances H.meaning.IsReady c e }
    ensures keeps { (c d : _) → IsReady H.meaning.IsReady c → Advances H.meaning.IsReady c d → Search.KeepsContext (solver_meaning H.meaning) c d }
    ensures justified { (c d : _) (ks : _) → Search.KeepsContext (solver_meaning H.meaning) c d
        → AreJustified (solver_meaning H.meaning) c ks → AreJustified (solver_meaning H.meaning) d ks }
{}

/// If a table has no canonical variables, it has none after `evaluate_root_goal` either. Together with
/// `infer_table::laws::canonical_variable_laws`: a goal without canonical variables has none under each table that equations,
/// responses and evaluations make of such a table.
pub fn canonical_variable_laws()
    ensures { EvaluationsKeepOut }
{}
