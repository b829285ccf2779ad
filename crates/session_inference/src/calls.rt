//! The calls of an inference context, over the search of a session. Each leaves the session as a session, and the context usable in it.
//!
//! A call that evaluates no goal says nothing of the search's graph. So the session's own graph, which counts its frames, is set aside for it.

ghost use Rattle.std.specs.Prelude.{◌≡◌, ◌+◌, ◌∷◌, ℕ, [], true, false, All, None, Some, Ok, Err, IfOk, IfErr, OnOk, OnErr};
ghost use Rattle.type_terms.specs.Promised.Handles.{ArgsHeld, arg_trees};
ghost use Rattle.type_terms.specs.Promised.Label.{of_type, of_const, infer};
ghost use Rattle.type_terms.specs.Promised.Trees.{leaf};
ghost use Rattle.infer_table.specs.Content.{content, variables_of};
ghost use Rattle.infer_table.specs.Goals.{GoalHeld, goal_trees};
ghost use Rattle.infer_table.specs.Solutions.{resolved};
ghost use Rattle.fulfillment.specs.Obligations.{IsRegistered};
ghost use Rattle.fulfillment.specs.declared.obligation.Obligation.{Obligation};
ghost use Rattle.fulfillment.specs.declared.obligation.ObligationId.{ObligationId};
ghost use Rattle.sessions.specs.Promised.Shortages.{SessionFullAtLimit};
ghost use Rattle.sessions.specs.Promised.Subjects.{StaysOn};
ghost use Rattle.inference.specs.Inference.{equal, proved};
ghost use Rattle.inference.specs.Inferring.{GoalIsOver, HasSolution, IsAsBefore, no_variables};
ghost use Rattle.session_inference.specs.Assuming.{LacksTerm, goal_over};
ghost use Rattle.session_inference.specs.Contexts.{AreTermsOver, CanInferIn, DoneHaveProofs, EquationAtLimit, FailsAtLimit, HasOneMoreIn, HasRegistered, HasSpent, HaveNoSolutionIn, IsAskedFurtherIn, IsFaithfulIn, IsTermOver, LeavesInferring, LetsRest, ShowsSolutionsIn, SomeIsUnsettledIn};

use crate::assuming::{Stated, goal_in};
use crate::error::InferenceError;
use crate::making::{const_made, type_made};
use crate::term_id::TermId;
use fulfillment::{ObligationId, Selected, Standing};
use goal_evaluator::TypingMode;
use infer_table::certainty::EqError;
use infer_table::goal::Goal;
use inference::Infer;
use search_graph::SearchGraph;
use sessions::Session;
use std::alloc::AllocError;
use std::mem;
use type_terms::kinds::GenericArgKind;
use type_terms::{Fault, TraitId};

/// A context without variables and goals. Goals are evaluated outside coherence, and as many answers to each may have values as to those of
/// a query.
pub(crate) fn begin(session: &Session<'_>) -> Infer
    ensures can { CanInferIn session.now result }
    ensures faithful { IsFaithfulIn no_variables [] session.now result }
    ensures none { result.goals.obligations.items ≡ [] }
{
    let limit = session.limits.most_values();
    Infer::new(&session.search, TypingMode::PostAnalysis, limit)
}

/// [`Infer::fresh_ty`] in a session.
pub(crate) fn fresh_ty(
    session: &mut Session<'_>,
    context: &mut Infer,
) -> Result<GenericArgKind, Fault>
    requires { CanInferIn session.old context.old }
    ensures leaves { LeavesInferring session.old context.old session.new context.new }
    ensures is { IfOk result (λ a. arg_trees session.new.terms a ≡ leaf (infer of_type context.old.table.ty_vars)) }
    ensures over { IfOk result (IsTermOver session.new.terms (variables_of context.new.table)) }
    ensures faithful { OnOk result (HasOneMoreIn of_type context.old.table.ty_vars session.old context.old session.new context.new) }
    ensures as_it_was { OnErr result (context.new ≡ context.old) }
    ensures full { IfErr result (SessionFullAtLimit session.new) }
{
    let begun = SearchGraph::new(session.search.cx.alloc, 1);
    let graph = mem::replace(&mut session.search.graph, begun);
    let made = context.fresh_ty(&mut session.search);
    let _ = mem::replace(&mut session.search.graph, graph);
    type_made(made)
}

/// [`Infer::fresh_const`] in a session.
pub(crate) fn fresh_const(
    session: &mut Session<'_>,
    context: &mut Infer,
) -> Result<GenericArgKind, Fault>
    requires { CanInferIn session.old context.old }
    ensures leaves { LeavesInferring session.old context.old session.new context.new }
    ensures is { IfOk result (λ a. arg_trees session.new.terms a ≡ leaf (infer of_const context.old.table.const_vars)) }
    ensures over { IfOk result (IsTermOver session.new.terms (variables_of context.new.table)) }
    ensures faithful { OnOk result (HasOneMoreIn of_const context.old.table.const_vars session.old context.old session.new context.new) }
    ensures as_it_was { OnErr result (context.new ≡ context.old) }
    ensures full { IfErr result (SessionFullAtLimit session.new) }
{
    let begun = SearchGraph::new(session.search.cx.alloc, 1);
    let graph = mem::replace(&mut session.search.graph, begun);
    let made = context.fresh_const(&mut session.search);
    let _ = mem::replace(&mut session.search.graph, graph);
    const_made(made)
}

/// [`Infer::eq`] in a session.
pub(crate) fn eq(
    session: &mut Session<'_>,
    context: &mut Infer,
    left: GenericArgKind,
    right: GenericArgKind,
) -> Result<(), EqError>
    requires can { CanInferIn session.old context.old }
    requires left { IsTermOver session.old.terms (variables_of context.old.table) left }
    requires right { IsTermOver session.old.terms (variables_of context.old.table) right }
    ensures leaves { LeavesInferring session.old context.old session.new context.new }
    ensures faithful { OnOk result (let es = session.old.terms in
        IsAskedFurtherIn (equal (arg_trees es left) (arg_trees es right) ∷ []) session.old context.old session.new context.new) }
    ensures no_solution { result ≡ Err EqError.NoSolution → let es = session.old.terms in
        HaveNoSolutionIn (equal (arg_trees es left) (arg_trees es right) ∷ []) session.old context.old }
    ensures as_it_was { OnErr result (context.new ≡ context.old) }
    ensures full { IfErr result (EquationAtLimit session.new) }
{
    let begun = SearchGraph::new(session.search.cx.alloc, 1);
    let graph = mem::replace(&mut session.search.graph, begun);
    let made = context.eq(&mut session.search, left, right);
    let _ = mem::replace(&mut session.search.graph, graph);
    made
}

/// [`Infer::can_eq`] in a session.
pub(crate) fn can_eq(
    session: &mut Session<'_>,
    context: &mut Infer,
    left: GenericArgKind,
    right: GenericArgKind,
) -> Result<bool, Fault>
    requires can { CanInferIn session.old context.old }
    requires left { IsTermOver session.old.terms (variables_of context.old.table) left }
    requires right { IsTermOver session.old.terms (variables_of context.old.table) right }
    ensures leaves { LeavesInferring session.old context.old session.new context.new }
    ensures faithful { IsAskedFurtherIn [] session.old context.old session.new context.new }
    ensures as_before { IsAsBefore context.old context.new }
    ensures possible { result ≡ Ok true → let es = session.old.terms in
        HasSolution (content es context.old.table.values) (arg_trees es left) (arg_trees es right) }
    ensures impossible { result ≡ Ok false → let es = session.old.terms in
        HaveNoSolutionIn (equal (arg_trees es left) (arg_trees es right) ∷ []) session.old context.old }
    ensures full { IfErr result (SessionFullAtLimit session.new) }
{
    let begun = SearchGraph::new(session.search.cx.alloc, 1);
    let graph = mem::replace(&mut session.search.graph, begun);
    let made = context.can_eq(&mut session.search, left, right);
    let _ = mem::replace(&mut session.search.graph, graph);
    made
}

/// [`Infer::register`] in a session.
pub(crate) fn register_goal(
    session: &Session<'_>,
    context: &mut Infer,
    goal: Goal,
) -> Result<ObligationId, AllocError>
    requires can { CanInferIn session.now context.old }
    requires held { GoalHeld session.now.terms goal }
    requires over { GoalIsOver (variables_of context.old.table) (goal_trees session.now.terms goal) }
    ensures leaves { LeavesInferring session.now context.old session.now context.new }
    ensures registered { IfOk result (λ id.
        IsRegistered context.old.goals.obligations.items context.old.goals.limit goal id context.new.goals.obligations.items) }
    ensures faithful { OnOk result (IsAskedFurtherIn (proved (goal_trees session.now.terms goal) ∷ []) session.now context.old session.now context.new) }
    ensures still { OnErr result (IsAskedFurtherIn [] session.now context.old session.now context.new) }
    ensures table { context.new.table ≡ context.old.table }
{
    context.register(&session.search, goal)
}

/// The goal to prove that these terms implement this trait, under what is assumed.
fn trait_goal(
    session: &mut Session<'_>,
    stated: Stated<'_>,
    trait_id: TraitId,
    ids: &[TermId],
) -> Result<Goal, InferenceError>
    requires { ArgsHeld session.old.terms stated.terms.now }
    ensures stays { StaysOn session.old session.new }
    ensures rests { LetsRest session.old session.new }
    ensures held { IfOk result (GoalHeld session.new.terms) }
    ensures is { IfOk result (λ goal. goal_trees session.new.terms goal
        ≡ goal_over session.old stated.entry.terms.now stated.entry.assumptions.now trait_id.index ids.now) }
    ensures over { (n : _) → AreTermsOver session.old.terms n stated.entry.terms.now
        → GoalIsOver n (goal_over session.old stated.entry.terms.now stated.entry.assumptions.now trait_id.index ids.now) }
    ensures none { result ≡ Err InferenceError.NoSuchTerm → LacksTerm stated.entry.terms.now stated.entry.assumptions.now ids.now }
    ensures full { IfErr result (FailsAtLimit session.new) }
{
    goal_in(&mut session.search.cx, stated, trait_id, ids)
}

/// Registers the goal to prove that these terms implement this trait, under what is assumed.
pub(crate) fn register(
    session: &mut Session<'_>,
    context: &mut Infer,
    stated: Stated<'_>,
    trait_id: TraitId,
    ids: &[TermId],
) -> Result<ObligationId, InferenceError>
    requires can { CanInferIn session.old context.old }
    requires terms { AreTermsOver session.old.terms (variables_of context.old.table) stated.terms.now }
    ensures leaves { LeavesInferring session.old context.old session.new context.new }
    ensures registered { let g = goal_over session.old stated.entry.terms.now stated.entry.assumptions.now trait_id.index ids.now in
        IfOk result (HasRegistered session.new.terms context.old context.new g) }
    ensures faithful { OnOk result (let g = goal_over session.old stated.entry.terms.now stated.entry.assumptions.now trait_id.index ids.now in
        IsAskedFurtherIn (proved g ∷ []) session.old context.old session.new context.new) }
    ensures still { OnErr result (IsAskedFurtherIn [] session.old context.old session.new context.new) }
    ensures none { result ≡ Err InferenceError.NoSuchTerm → LacksTerm stated.entry.terms.now stated.entry.assumptions.now ids.now }
    ensures table { context.new.table ≡ context.old.table }
    ensures full { IfErr result (FailsAtLimit session.new) }
{
    let goal = trait_goal(session, stated, trait_id, ids)?;
    let id = register_goal(session, context, goal)?;
    Ok(id)
}

/// How many frames there are behind so many more. `None` if that bounds nothing.
fn frames_behind(frames: u64, budget: Option<u64>) -> Option<u64>
    ensures { (end : ℕ) → result ≡ Some end → (n : ℕ) × (budget ≡ Some n) × (end ≡ frames + n) }
{
    match budget {
        Some(count) => frames.checked_add(count),
        None => None,
    }
}

/// [`Infer::select_where_possible`] in a session, within so many further frames.
pub(crate) fn select_where_possible(
    session: &mut Session<'_>,
    context: &mut Infer,
    budget: Option<u64>,
) -> Result<Option<Selected>, Fault>
    requires { CanInferIn session.old context.old }
    ensures leaves { LeavesInferring session.old context.old session.new context.new }
    ensures faithful { IsAskedFurtherIn [] session.old context.old session.new context.new }
    ensures all_done { result ≡ Ok (Some Selected.AllDone)
        → All (λ (o : Obligation). o.standing ≡ Standing.Done) context.new.goals.obligations.items }
    ensures done { DoneHaveProofs session.new context.new }
    ensures unsettled { result ≡ Ok (Some Selected.Pending) → SomeIsUnsettledIn session.old context.old }
    ensures refused { (id : ObligationId) → result ≡ Ok (Some (Selected.Refused id)) → HaveNoSolutionIn [] session.old context.old }
    ensures stopped { result ≡ Ok None → HasSpent budget session.old session.new }
    ensures full { IfErr result (SessionFullAtLimit session.new) }
{
    let until = frames_behind(session.search.graph.frames(), budget);
    context.select_where_possible(&mut session.search, until)
}

/// [`Infer::resolve`] in a session.
pub(crate) fn resolve(
    session: &mut Session<'_>,
    context: &Infer,
    term: GenericArgKind,
) -> Result<GenericArgKind, Fault>
    requires can { CanInferIn session.old context.now }
    requires term { IsTermOver session.old.terms (variables_of context.now.table) term }
    ensures leaves { LeavesInferring session.old context.now session.new context.now }
    ensures faithful { IsAskedFurtherIn [] session.old context.now session.new context.now }
    ensures over { IfOk result (IsTermOver session.new.terms (variables_of context.now.table)) }
    ensures resolved { IfOk result (λ a. arg_trees session.new.terms a
        ≡ resolved (content session.old.terms context.now.table.values) (arg_trees session.old.terms term)) }
    ensures shows { IfOk result (λ a. ShowsSolutionsIn session.old context.now (arg_trees session.old.terms term) (arg_trees session.new.terms a)) }
    ensures full { IfErr result (SessionFullAtLimit session.new) }
{
    let begun = SearchGraph::new(session.search.cx.alloc, 1);
    let graph = mem::replace(&mut session.search.graph, begun);
    let made = context.resolve(&mut session.search, term);
    let _ = mem::replace(&mut session.search.graph, graph);
    made
}
