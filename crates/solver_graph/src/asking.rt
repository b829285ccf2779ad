//! A goal of a table as the input of a search.

ghost use Rattle.std.specs.Prelude.{◌≡◌, IfErr, IfOk};
ghost use Rattle.type_terms.specs.Promised.Handles.{Keeps, ArgsHeld};
ghost use Rattle.infer_table.specs.Canonical.{canonical_form, goal_leaves};
ghost use Rattle.infer_table.specs.Content.{Ready};
ghost use Rattle.infer_table.specs.Goals.{GoalHeld, goal_trees};
ghost use Rattle.infer_table.specs.Leaves.{AreLeaves, labels};
ghost use Rattle.solver_graph.specs.Contexts.{goal_of, IsReady, IsInput, Advances};
ghost use Rattle.solver_graph.specs.Roots.{goal_in};
ghost use Rattle.solver_graph.specs.Shortages.{ContextFullAtLimit};

use crate::context::SolverCx;
use goal_frames::GoalHandler;
use goal_frames::store::InputId;
use infer_table::certainty::TypingMode;
use infer_table::goal::Goal;
use infer_table::infer_ctxt::InferCtxt;
use infer_table::input::{Canonicalized, canonicalize_goal};
use infer_table::resolving::resolve_goal;
use type_terms::Fault;
use type_terms::kinds::GenericArgKind;

/// A goal of a table, resolved, with its canonical form and the values of the form's variables.
pub struct Asked {
    /// The resolved goal.
    pub goal: Goal,
    /// The number of its canonical form.
    pub input: InputId,
    /// The values of the form's variables.
    pub values: Vec<GenericArgKind>,
}

/// The goal as the table resolves it, with its canonical form.
pub fn ask<H: GoalHandler>(
    cx: &mut SolverCx<H>,
    table: &InferCtxt,
    mode: TypingMode,
    goal: &Goal,
) -> Result<Asked, Fault>
    requires ready { IsReady H.meaning.IsReady cx.old }
    requires table { Ready cx.old.interner.entries table.now }
    requires goal { GoalHeld cx.old.interner.entries goal.now }
    ensures advances { Advances H.meaning.IsReady cx.old cx.new }
    ensures table { Ready cx.new.interner.entries table.now }
    ensures held { IfOk result (λ a. GoalHeld cx.new.interner.entries a.goal) }
    ensures resolved { IfOk result (λ a. goal_trees cx.new.interner.entries a.goal ≡ goal_in cx.old.interner.entries table.now goal.now) }
    ensures input { IfOk result (λ a. IsInput H.meaning.IsReady cx.new a.input
        × (goal_of cx.new a.input ≡ (mode, canonical_form (goal_in cx.old.interner.entries table.now goal.now)))) }
    ensures args { IfOk result (λ a. ArgsHeld cx.new.interner.entries a.values.items) }
    ensures leaves { IfOk result (λ a. AreLeaves cx.new.interner.entries a.values.items) }
    ensures values { IfOk result (λ a. labels cx.new.interner.entries a.values.items ≡ goal_leaves (goal_in cx.old.interner.entries table.now goal.now)) }
    ensures full { IfErr result (ContextFullAtLimit cx.new) }
{
    let resolved = resolve_goal(cx.alloc, &mut cx.interner, table, goal);
    cx.interner.lawful();
    let resolved = resolved?;
    let canonicalized = canonicalize_goal(cx.alloc, &mut cx.interner, table, mode, &resolved);
    cx.interner.lawful();
    let Canonicalized { input, values } = canonicalized?;
    let input = cx.keep_goal(input)?;
    Ok(Asked {
        goal: resolved,
        input,
        values,
    })
}
