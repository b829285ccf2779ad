//! Laws of selections, with no code to run.

ghost use Rattle.std.specs.Prelude.{ℕ, List, Contains};
ghost use Rattle.infer_table.specs.Applying.{unknowns_of};
ghost use Rattle.infer_table.specs.Canonical.{GoalTrees};
ghost use Rattle.infer_table.specs.Covers.{Continues};
ghost use Rattle.infer_table.specs.Solutions.{Assignment, Solves};
ghost use Rattle.infer_table.specs.Unification.{TableTrees};
ghost use Rattle.infer_table.specs.declared.certainty.TypingMode.{TypingMode};
ghost use Rattle.fulfillment.specs.Leaving.{AreProvedTogether, GoalsLeave, IsRefusedAmong};

use goal_frames::GoalHandler;

/// Answers to goals keep each solution of the table at which all of them have proofs: it goes on to a solution of the table that is left. So
/// a table has no such solution if one of the goals is refused.
pub fn selecting_laws<H: GoalHandler>()
    ensures kept { (mode : TypingMode) (w : H.meaning.goals.World) (goals : List GoalTrees) (t u : TableTrees) (s : Assignment) → Solves s t.bindings
        → AreProvedTogether H.meaning mode w goals t s → GoalsLeave H.meaning mode w goals t u
        → (r : Assignment) × Continues (unknowns_of t) s r × Solves r u.bindings }
    ensures refused { (mode : TypingMode) (w : H.meaning.goals.World) (depth : ℕ) (goals : List GoalTrees) (t : TableTrees) (g : GoalTrees)
        → Contains goals g → IsRefusedAmong H.meaning mode w depth goals t g → (s : Assignment) → Solves s t.bindings
        → AreProvedTogether H.meaning mode w goals t s → ⊥ }
{}
