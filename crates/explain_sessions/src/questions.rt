//! The bounds of queries, traced as a session evaluates them.

ghost use Rattle.std.specs.Prelude.{◌≡◌, IfOk};
ghost use Rattle.fulfillment.specs.Obligations.{ObligationsHeld};
ghost use Rattle.sessions.specs.TextLanguage.Promised.Declarations.{Question};
ghost use Rattle.sessions.specs.Declarations.Applied.{AreApplied};
ghost use Rattle.sessions.specs.InferTable.Content.{Ready};
ghost use Rattle.sessions.specs.TextLowering.Questions.{IsLowered};
ghost use Rattle.sessions.specs.TextLowering.Promised.Questions.{IsQuestion};
ghost use Rattle.sessions.specs.Proving.{ClausesApply, SolverAdvances, SolverIsReady};
ghost use Rattle.sessions.specs.Sessions.{SolverRests};
ghost use Rattle.explain_sessions.specs.Shown.{ShowsItsSteps};
ghost use Rattle.explain_sessions.specs.Walked.{ProofWalkHeld, RestsAfter, WalkHeld};

use crate::bounds::{pose, select, walk_bounds, walk_settled_bound};
use crate::steps::with_steps;
use crate::walks::{BoundWalk, ProofWalk};
use fulfillment::FulfillmentCtxt;
use sessions::candidate_assembly::solver::Solver;
use sessions::goal_evaluator::TypingMode;
use sessions::infer_table::infer_ctxt::InferCtxt;
use sessions::solver_graph::{Search, SolverCx};
use sessions::text_lowering::LoweredQuestion;
use sessions::text_tables::Workspace;
use sessions::type_terms::Fault;
use sessions::{Limits, elaborate_in, lower_in};

/// The goals of a `prove` query's bounds under its where-clauses with all their supertraits, and a table for its variables.
fn pose_proof(
    cx: &mut SolverCx<Solver>,
    lowered: &LoweredQuestion,
    limits: Limits,
) -> Result<(FulfillmentCtxt, InferCtxt), Fault>
    requires ready { SolverIsReady cx.old }
    requires lowered { (q : Question) × IsLowered cx.old.interner.entries q lowered.now }
    requires applied { AreApplied cx.old.interner.entries cx.old.handler.declarations lowered.now.clauses.items }
    ensures advances { SolverAdvances cx.old cx.new }
    ensures goals { IfOk result (λ posed. ObligationsHeld cx.new.interner.entries posed.0.obligations.items) }
    ensures table { IfOk result (λ posed. Ready cx.new.interner.entries posed.1) }
{
    let clauses = elaborate_in(cx, &lowered.clauses)?;
    pose(cx, &clauses, lowered, limits)
}

/// Traces the bound of a `prove` query that explains why the query was not proved, or is not known, at most as deep as these limits allow.
///
/// Everything stays at rest, after a fault too. Fails with `Memory` if memory is refused, or with `Full` if a table is full.
pub(crate) fn walk_question(
    search: &mut Search<Solver>,
    workspace: &Workspace,
    number: u32,
    limits: Limits,
) -> Result<BoundWalk, Fault>
    requires rest { SolverRests search.old.graph.root_depth search.old.cx search.old.graph search.old.cache }
    requires question { (q : Question) × IsQuestion workspace.now number q }
    requires applied { (q : Question) → IsQuestion workspace.now number q → ClausesApply search.old.cx.handler.declarations q }
    ensures rests { RestsAfter search.old.graph.root_depth search.old.cx search.new.cx search.new.graph search.new.cache }
    ensures held { IfOk result (λ b. WalkHeld search.new.cx.interner.entries b.walk) }
{
    let lowered = lower_in(&mut search.cx, workspace, number)?;
    let (mut goals, mut table) = pose_proof(&mut search.cx, &lowered, limits)?;
    let mode = TypingMode::PostAnalysis;
    walk_bounds(search, &mut table, &mut goals, mode, limits.depth)
}

/// Traces the goal of one bound of a `prove` query that was proved, with what all bounds fix of its variables, at most as deep as these
/// limits allow, and finds the steps of its proof. They are not checked. Bounds count from 0.
///
/// Everything stays at rest, after a fault too. Fails with `Memory` if memory is refused, or with `Full` if a table is full.
pub(crate) fn walk_proof(
    search: &mut Search<Solver>,
    workspace: &Workspace,
    number: u32,
    bound: usize,
    limits: Limits,
) -> Result<ProofWalk, Fault>
    requires rest { SolverRests search.old.graph.root_depth search.old.cx search.old.graph search.old.cache }
    requires question { (q : Question) × IsQuestion workspace.now number q }
    requires applied { (q : Question) → IsQuestion workspace.now number q → ClausesApply search.old.cx.handler.declarations q }
    ensures rests { RestsAfter search.old.graph.root_depth search.old.cx search.new.cx search.new.graph search.new.cache }
    ensures held { IfOk result (ProofWalkHeld search.new.cx.interner.entries) }
    ensures shown { IfOk result ShowsItsSteps }
{
    let lowered = lower_in(&mut search.cx, workspace, number)?;
    let (mut goals, mut table) = pose_proof(&mut search.cx, &lowered, limits)?;
    let _telling = select(search, &mut table, &mut goals, TypingMode::PostAnalysis)?;
    let walk = walk_settled_bound(search, &mut table, &goals, bound, limits.depth)?;
    with_steps(&mut search.cx, &mut table, &lowered.clauses, walk)
}

/// Traces the bound of a `refute` query that explains its answer, in coherence, at most as deep as these limits allow.
///
/// Everything stays at rest, after a fault too. Fails with `Memory` if memory is refused, or with `Full` if a table is full.
pub(crate) fn walk_refutation(
    search: &mut Search<Solver>,
    workspace: &Workspace,
    number: u32,
    limits: Limits,
) -> Result<BoundWalk, Fault>
    requires rest { SolverRests search.old.graph.root_depth search.old.cx search.old.graph search.old.cache }
    requires question { (q : Question) × IsQuestion workspace.now number q }
    ensures rests { RestsAfter search.old.graph.root_depth search.old.cx search.new.cx search.new.graph search.new.cache }
    ensures held { IfOk result (λ b. WalkHeld search.new.cx.interner.entries b.walk) }
{
    let lowered = lower_in(&mut search.cx, workspace, number)?;
    let (mut goals, mut table) = pose(&mut search.cx, &[], &lowered, limits)?;
    let mode = TypingMode::Coherence;
    walk_bounds(search, &mut table, &mut goals, mode, limits.depth)
}
