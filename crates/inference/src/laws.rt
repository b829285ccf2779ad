//! Laws of inference contexts, with no code to run.

ghost use Rattle.std.specs.Prelude.{◌≡◌, List, [], ◌++◌};
ghost use Rattle.type_terms.specs.Promised.Handles.{Keeps};
ghost use Rattle.infer_table.specs.Content.{content, variables_of};
ghost use Rattle.search_graph.specs.Cache.{AreJustified};
ghost use Rattle.solver_graph.specs.Contexts.{IsReady};
ghost use Rattle.solver_graph.specs.Searching.{solver_meaning};
ghost use Rattle.inference.specs.Inference.{Demand, OwnVariables, IsFaithfulTo};
ghost use Rattle.inference.specs.declared.context.Infer.{Infer};
ghost use Rattle.inference.specs.Inferring.{CanInfer, HasGrownFrom, IsAsBefore, IsAskedFurther, all_variables, equations_of};

use goal_frames::GoalHandler;

/// The user of a context can take all variables of its table as own ones, if the values that the table has count as equations that were
/// asked.
///
/// Answers bring variables in: `?v = Vec<?1>`. What is asked of `?1` from then on is a demand on the element of `?v`.
pub fn adopting_laws<H: GoalHandler>()
    ensures { (own : OwnVariables) (asked : List Demand) (f : _) (ks : _) (c : _) (i : _) → CanInfer H.meaning f ks c i
        → IsFaithfulTo H.meaning own asked c i
        → IsFaithfulTo H.meaning (all_variables (variables_of i.table)) (equations_of (content c.interner.entries i.table.values) ++ asked) c i }
{}

/// While the search goes on with other goals, a context stays as it is: it can be used, and is faithful to what it was asked.
pub fn resting_laws<H: GoalHandler>()
    ensures can { (f g : _) (ks ls : _) (c d : _) (i : _) → CanInfer H.meaning f ks c i → Keeps c.interner.entries d.interner.entries
        → g.current_depth ≡ 0 → AreJustified (solver_meaning H.meaning) d ls → IsReady H.meaning.IsReady d → CanInfer H.meaning g ls d i }
    ensures faithful { (f : _) (ks : _) (c d : _) (i : _) → CanInfer H.meaning f ks c i → Keeps c.interner.entries d.interner.entries
        → H.meaning.world d.handler d.interner.entries ≡ H.meaning.world c.handler c.interner.entries → IsAskedFurther H.meaning [] c i d i }
{}

/// Each call of a context lets it grow, so calls one after the other do. What `rollback_to` needs of them is that.
pub fn growing_laws()
    ensures itself { (i : Infer) → HasGrownFrom i i }
    ensures further { (i j k : Infer) → HasGrownFrom i j → HasGrownFrom j k → HasGrownFrom i k }
{}

/// A context that is as it was can be used as it could, and is faithful to what it was faithful to.
pub fn restoring_laws<H: GoalHandler>()
    ensures can { (f : _) (ks : _) (c : _) (i j : Infer) → CanInfer H.meaning f ks c i → IsAsBefore i j → CanInfer H.meaning f ks c j }
    ensures faithful { (f : _) (ks : _) (c : _) (i j : Infer) → CanInfer H.meaning f ks c i → IsAsBefore i j → IsAskedFurther H.meaning [] c i c j }
{}
