//! Pairs of impls that are passed without equating their headers: a where-clause that the headers fix is refuted. For
//! `impl<T> Show for V<T> where T: Num` and `impl<A> Show for V<S>`, that is `S: Num`.

ghost use Rattle.std.specs.Prelude.{◌≡◌, ℕ, true, IfOk, IfErr, OnOk};
ghost use Rattle.type_terms.specs.Promised.Handles.{Has, types, trees_at};
ghost use Rattle.type_terms.specs.Growth.{FullAtLimit};
ghost use Rattle.declarations.specs.Apart.{is_fixed};
ghost use Rattle.declarations.specs.Held.{ReferenceHeld};
ghost use Rattle.declarations.specs.Items.{reference_in};
ghost use Rattle.overlap_check.specs.FixedClauses.{fixed_reference};
ghost use Rattle.text_language.specs.Promised.Declarations.{Declarations};
ghost use Rattle.sessions.specs.Checking.{IsReadySolver, SolverStaysReady, HaveOwnNumbers, ArePassedAt, rules_in};
ghost use Rattle.sessions.specs.FixedGoals.{IsRefutedIn, AreRefutedAsNoted, AreGoalsAt, RestsSince};
ghost use Rattle.sessions.specs.Promised.Promises.{view_in};
ghost use Rattle.sessions.specs.Sessions.{SolverRests, IsSession};
ghost use Rattle.solver_graph.specs.Shortages.{ContextFullAtLimit};

use crate::asked::rest_laws;
use candidate_assembly::solver::Solver;
use infer_table::infer_ctxt::InferCtxt;
use overlap_check::fixed::{FixedGoal, fixed_goals, goal_reference};
use overlap_check::partners::pair_at;
use pair_checks::is_impossible;
use solver_graph::{Search, SolverCx};
use std::alloc::{AllocError, Global};
use std::collections::HashMap;
use term_folds::predicate::TraitRef;
use type_terms::{Fault, ImplId};

/// The goals that were evaluated for pairs of impls, each with whether it was refuted. Many pairs have the same goals.
pub(crate) struct FixedAnswers {
    refuted: HashMap<FixedGoal, bool>,
}

// Hand-written so that the prover sees one drop call: docs/PROVING.md#drop.
impl Drop for FixedAnswers {
    fn drop(self) {
        let FixedAnswers { refuted: _ } = self;
    }
}

impl FixedAnswers {
    /// No answers. It takes no memory.
    pub fn new(alloc: Global) -> FixedAnswers
        ensures { (d : Declarations) (c : ℕ) (es : _) → AreRefutedAsNoted d c es result }
    {
        FixedAnswers {
            refuted: HashMap::new(alloc),
        }
    }
}

/// The goal as a trait reference of the context. The errors are those of `goal_reference`.
fn reference_of(cx: &mut SolverCx<Solver>, goal: FixedGoal) -> Result<TraitRef, Fault>
    requires ready { IsReadySolver cx.old }
    requires held { Has cx.old.interner.entries types goal.self_ty.0 }
    ensures advances { SolverStaysReady cx.old cx.new }
    ensures held { IfOk result (ReferenceHeld cx.new.interner.entries) }
    ensures is { IfOk result (λ r. reference_in cx.new.interner.entries r ≡ fixed_reference cx.old.interner.entries goal) }
    ensures full { IfErr result (FullAtLimit cx.new.interner) }
{
    rest_laws::<Solver>();
    let made = goal_reference(cx.alloc, &mut cx.interner, goal);
    cx.interner.lawful();
    made
}

/// Whether the search refutes a goal, evaluated alone in coherence. The errors are those of `is_impossible`.
fn evaluate_fixed(search: &mut Search<Solver>, goal: FixedGoal) -> Result<bool, Fault>
    requires rest { SolverRests search.old.graph.root_depth search.old.cx search.old.graph search.old.cache }
    requires held { Has search.old.cx.interner.entries types goal.self_ty.0 }
    requires fixed { is_fixed (trees_at search.old.cx.interner.entries goal.self_ty.0) ≡ true }
    ensures rests { RestsSince search.old.graph.root_depth search.old.cx search.new.cx search.new.graph search.new.cache }
    ensures refuted { (d : Declarations) (c depth : ℕ) → IsSession d c depth search.old.cx search.old.graph search.old.cache
        → IfOk result (λ b. b ≡ true → IsRefutedIn d c search.old.cx.interner.entries goal) }
    ensures full { IfErr result (ContextFullAtLimit search.new.cx) }
{
    rest_laws::<Solver>();
    let mut table = InferCtxt::new(search.cx.alloc);
    let reference = reference_of(&mut search.cx, goal)?;
    is_impossible(search, &mut table, reference)
}

/// Whether a goal is refuted. It is evaluated if it was not before.
fn is_refuted(
    search: &mut Search<Solver>,
    answers: &mut FixedAnswers,
    goal: FixedGoal,
) -> Result<bool, Fault>
    requires rest { SolverRests search.old.graph.root_depth search.old.cx search.old.graph search.old.cache }
    requires held { Has search.old.cx.interner.entries types goal.self_ty.0 }
    requires fixed { is_fixed (trees_at search.old.cx.interner.entries goal.self_ty.0) ≡ true }
    ensures rests { RestsSince search.old.graph.root_depth search.old.cx search.new.cx search.new.graph search.new.cache }
    ensures noted { (d : Declarations) (c depth : ℕ) → IsSession d c depth search.old.cx search.old.graph search.old.cache
        → AreRefutedAsNoted d c search.old.cx.interner.entries answers.old
        → OnOk result (AreRefutedAsNoted d c search.new.cx.interner.entries answers.new) }
    ensures refuted { (d : Declarations) (c depth : ℕ) → IsSession d c depth search.old.cx search.old.graph search.old.cache
        → AreRefutedAsNoted d c search.old.cx.interner.entries answers.old
        → IfOk result (λ b. b ≡ true → IsRefutedIn d c search.old.cx.interner.entries goal) }
    ensures full { IfErr result (ContextFullAtLimit search.new.cx) }
{
    rest_laws::<Solver>();
    if let Some(known) = answers.refuted.get(&goal) {
        return Ok(*known);
    }
    let refuted = evaluate_fixed(search, goal)?;
    answers.refuted.insert(goal, refuted)?;
    Ok(refuted)
}

/// The goals of the pair with these numbers, if the local crate has to compare it.
fn goals_at(
    cx: &SolverCx<Solver>,
    later: ImplId,
    earlier: ImplId,
) -> Result<Vec<FixedGoal>, AllocError>
    requires ready { IsReadySolver cx.now }
    requires numbers { HaveOwnNumbers (rules_in cx.now) }
    ensures { IfOk result (λ goals. AreGoalsAt cx.now later.index earlier.index goals.items) }
{
    match pair_at(&cx.handler.declarations, later, earlier) {
        Some((left, right)) => fixed_goals(cx.alloc, &cx.interner, left, right),
        None => Ok(Vec::new(cx.alloc)),
    }
}

/// Whether a where-clause that the headers of the pair with these numbers fix is refuted. Then the impls do not overlap. `false` says nothing.
///
/// Everything stays at rest, after a fault too. Fails with `Memory` if memory is refused, or with `Full` if a table is full.
pub(crate) fn has_refuted_goal(
    search: &mut Search<Solver>,
    answers: &mut FixedAnswers,
    later: ImplId,
    earlier: ImplId,
) -> Result<bool, Fault>
    requires rest { SolverRests search.old.graph.root_depth search.old.cx search.old.graph search.old.cache }
    requires numbers { HaveOwnNumbers (rules_in search.old.cx) }
    ensures rests { RestsSince search.old.graph.root_depth search.old.cx search.new.cx search.new.graph search.new.cache }
    ensures noted { (d : Declarations) (c depth : ℕ) → IsSession d c depth search.old.cx search.old.graph search.old.cache
        → AreRefutedAsNoted d c search.old.cx.interner.entries answers.old
        → OnOk result (AreRefutedAsNoted d c search.new.cx.interner.entries answers.new) }
    ensures passed { (d : Declarations) (c depth : ℕ) → IsSession d c depth search.old.cx search.old.graph search.old.cache
        → AreRefutedAsNoted d c search.old.cx.interner.entries answers.old
        → IfOk result (λ b. b ≡ true → ArePassedAt (view_in d c) c later.index earlier.index) }
    ensures full { IfErr result (ContextFullAtLimit search.new.cx) }
{
    rest_laws::<Solver>();
    let goals = goals_at(&search.cx, later, earlier)?;
    for goal in &goals {
        if is_refuted(search, answers, *goal)? {
            return Ok(true);
        }
    }
    Ok(false)
}
