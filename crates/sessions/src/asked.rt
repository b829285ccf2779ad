//! Queries, lowered into a solver's context.

ghost use Rattle.std.specs.Prelude.{◌≡◌, IfOk, IfErr};
ghost use Rattle.type_terms.specs.Growth.{FullAtLimit};
ghost use Rattle.text_language.specs.Promised.Declarations.{Question};
ghost use Rattle.text_lowering.specs.Promised.Questions.{IsQuestion};
ghost use Rattle.text_lowering.specs.Questions.{IsLowered};
ghost use Rattle.solver_graph.specs.Contexts.{IsReady, InternerGrows, Advances};
ghost use Rattle.sessions.specs.Resting.{AreAtRest};

use goal_frames::GoalHandler;
use solver_graph::{SolverCx, context_laws};
use text_lowering::{LoweredQuestion, lower_question};
use text_tables::Workspace;
use type_terms::Fault;

/// A context that has grown means what it meant, and everything stays at rest in it. It grows where its interner does.
pub(crate) fn rest_laws<H: GoalHandler>()
    ensures rest { (depth : _) (c d : _) (s : _) (ks : _) → AreAtRest H.meaning depth c s ks → Advances H.meaning.IsReady c d
        → AreAtRest H.meaning depth d s ks }
    ensures meaning { (c d : _) → IsReady H.meaning.IsReady c → Advances H.meaning.IsReady c d
        → H.meaning.world d.handler d.interner.entries ≡ H.meaning.world c.handler c.interner.entries }
    ensures interner { (c d : _) → IsReady H.meaning.IsReady c → InternerGrows c d → Advances H.meaning.IsReady c d }
{
    context_laws::<H>();
}

/// The query with this number, as terms of the context. Numbers count from 1. The errors are those of `lower_question`.
pub fn lower_in<H: GoalHandler>(
    cx: &mut SolverCx<H>,
    workspace: &Workspace,
    number: u32,
) -> Result<LoweredQuestion, Fault>
    requires ready { IsReady H.meaning.IsReady cx.old }
    requires question { (q : Question) × IsQuestion workspace.now number q }
    ensures advances { Advances H.meaning.IsReady cx.old cx.new }
    ensures lowered { (q : Question) → IsQuestion workspace.now number q → IfOk result (λ lowered. IsLowered cx.new.interner.entries q lowered) }
    ensures full { IfErr result (FullAtLimit cx.new.interner) }
{
    rest_laws::<H>();
    let lowered = lower_question(cx.alloc, &mut cx.interner, workspace, number);
    cx.interner.lawful();
    lowered
}
