//! The where-clauses of two impls, traced where their headers are equal.

ghost use Rattle.std.specs.Prelude.{◌≡◌, true, IfOk, IfSome};
ghost use Rattle.sessions.specs.TypeTerms.Growth.{Grew};
ghost use Rattle.sessions.specs.Declarations.Applied.{TraitRefsHeld};
ghost use Rattle.sessions.specs.Declarations.Held.{ImplHeld, ReferenceHeld};
ghost use Rattle.sessions.specs.Declarations.Items.{declared};
ghost use Rattle.sessions.specs.InferTable.Content.{Ready};
ghost use Rattle.sessions.specs.CandidateAssembly.Ready.{AreReadyDeclarations};
ghost use Rattle.sessions.specs.OverlapCheck.Written.{IsWrittenWell};
ghost use Rattle.sessions.specs.ProofChecker.Steps.{term_of};
ghost use Rattle.explain_traces.specs.Walking.{ReferencesHeld};
ghost use Rattle.sessions.specs.Checking.{HaveOwnNumbers, rules_in};
ghost use Rattle.sessions.specs.Proving.{SolverAdvances, SolverIsReady};
ghost use Rattle.sessions.specs.Sessions.{SolverRests};
ghost use Rattle.explain_sessions.specs.Rules.{HasRulesByBoth};
ghost use Rattle.explain_sessions.specs.Walked.{CommonHeld, PairWalkHeld, RestsAfter};

use crate::headers::args_where_equal;
use crate::walks::PairWalk;
use explain_traces::{GoalWalk, TracedGoal, walk_goal};
use sessions::candidate_assembly::solver::Solver;
use sessions::declarations::declarations::Declarations;
use sessions::declarations::items::ImplDef;
use sessions::declarations::laws::declarations_are_kept;
use sessions::goal_evaluator::TypingMode;
use sessions::infer_table::infer_ctxt::InferCtxt;
use sessions::overlap_check::header::fresh_impl_header;
use sessions::overlap_check::intersection::ImplIntersection;
use sessions::overlap_check::partners::pair_at;
use sessions::proof_checker::links::follows_by_impl;
use sessions::proof_checker::steps::ImplSource;
use sessions::solver_graph::{Search, SolverCx};
use sessions::term_folds::predicate::TraitRef;
use sessions::type_terms::interner::Interner;
use sessions::type_terms::kinds::GenericArgs;
use sessions::type_terms::{Fault, ImplId};
use sessions::{goal_under, intersection_at, ready_impls_are_written_well};
use std::alloc::Global;

/// The common instance of the headers of two impls, and the arguments with which each is that.
#[derive(Clone, Copy)]
struct CommonHeader {
    reference: TraitRef,
    left: GenericArgs,
    right: GenericArgs,
}

/// The common instance of the headers of two impls. `None` if there is none.
fn common_header(
    alloc: Global,
    cx: &mut Interner,
    left: &ImplDef,
    right: &ImplDef,
) -> Result<Option<CommonHeader>, Fault>
    requires left_held { ImplHeld cx.old.entries left.now }
    requires right_held { ImplHeld cx.old.entries right.now }
    requires left_written { IsWrittenWell cx.old.entries left.now }
    requires right_written { IsWrittenWell cx.old.entries right.now }
    ensures grew { Grew cx.old cx.new }
    ensures held { IfOk result (λ o. IfSome o (CommonHeld cx.new.entries)) }
{
    cx.lawful();
    let mut table = InferCtxt::new(alloc);
    let first = fresh_impl_header(alloc, cx, &mut table, left)?;
    let second = fresh_impl_header(alloc, cx, &mut table, right)?;
    let header = first.trait_ref;
    let Some(args) = args_where_equal(alloc, cx, &mut table, first, second, header.args)? else {
        return Ok(None);
    };
    let left = table.eager_resolve_vars(cx, first.impl_args)?;
    let right = table.eager_resolve_vars(cx, second.impl_args)?;
    let reference = TraitRef {
        def_id: header.def_id,
        args,
    };
    Ok(Some(CommonHeader {
        reference,
        left,
        right,
    }))
}

/// Whether each of two impls concludes the common instance, whatever its where-clauses are.
fn both_conclude(
    alloc: Global,
    cx: &mut Interner,
    declarations: &Declarations,
    common: CommonHeader,
    later: ImplId,
    earlier: ImplId,
) -> Result<bool, Fault>
    requires ready { AreReadyDeclarations cx.old.entries declarations.now }
    requires common { CommonHeld cx.old.entries common }
    ensures grew { Grew cx.old cx.new }
    ensures rules { IfOk result (λ b. b ≡ true → HasRulesByBoth (declared cx.old.entries declarations.now)
        (term_of cx.old.entries common.reference) later.index earlier.index) }
{
    ready_impls_are_written_well();
    declarations_are_kept();
    let reference = common.reference;
    let by_later = ImplSource {
        impl_def_id: later,
        args: common.left,
    };
    if !follows_by_impl(alloc, cx, declarations, reference, by_later, &[])? {
        return Ok(false);
    }
    let by_earlier = ImplSource {
        impl_def_id: earlier,
        args: common.right,
    };
    follows_by_impl(alloc, cx, declarations, reference, by_earlier, &[])
}

/// The common instance of the headers of the impls with these numbers, if the local crate has to compare them, and whether it was checked
/// that each impl concludes it.
fn checked_common(
    alloc: Global,
    cx: &mut Interner,
    declarations: &Declarations,
    later: ImplId,
    earlier: ImplId,
) -> Result<Option<(TraitRef, bool)>, Fault>
    requires ready { AreReadyDeclarations cx.old.entries declarations.now }
    ensures grew { Grew cx.old cx.new }
    ensures held { IfOk result (λ o. IfSome o (λ x. ReferenceHeld cx.new.entries x.0)) }
    ensures rules { IfOk result (λ o. IfSome o (λ x. x.1 ≡ true → HasRulesByBoth (declared cx.old.entries declarations.now)
        (term_of cx.new.entries x.0) later.index earlier.index)) }
{
    ready_impls_are_written_well();
    declarations_are_kept();
    let Some((left, right)) = pair_at(declarations, later, earlier) else {
        return Ok(None);
    };
    let Some(common) = common_header(alloc, cx, left, right)? else {
        return Ok(None);
    };
    let is_checked = both_conclude(alloc, cx, declarations, common, later, earlier)?;
    Ok(Some((common.reference, is_checked)))
}

/// The same over the interner of a context.
fn common_header_at(
    cx: &mut SolverCx<Solver>,
    later: ImplId,
    earlier: ImplId,
) -> Result<Option<(TraitRef, bool)>, Fault>
    requires ready { SolverIsReady cx.old }
    ensures advances { SolverAdvances cx.old cx.new }
    ensures held { IfOk result (λ o. IfSome o (λ x. ReferenceHeld cx.new.interner.entries x.0)) }
    ensures rules { IfOk result (λ o. IfSome o (λ x. x.1 ≡ true
        → HasRulesByBoth (rules_in cx.old) (term_of cx.new.interner.entries x.0) later.index earlier.index)) }
{
    let declarations = &cx.handler.declarations;
    let common = checked_common(cx.alloc, &mut cx.interner, declarations, later, earlier);
    cx.interner.lawful();
    common
}

/// A where-clause that is traced, and how deep its nested goals are.
#[derive(Clone, Copy)]
struct TracedClause {
    clause: TraitRef,
    depth: u32,
}

/// Traces a where-clause in coherence, alone over the table, and returns its index.
fn walk_clause(
    search: &mut Search<Solver>,
    table: &mut InferCtxt,
    walk: &mut GoalWalk,
    traced: TracedClause,
) -> Result<usize, Fault>
    requires rest { SolverRests search.old.graph.root_depth search.old.cx search.old.graph search.old.cache }
    requires table { Ready search.old.cx.interner.entries table.old }
    requires walked { ReferencesHeld search.old.cx.interner.entries walk.old.references.items }
    requires clause { ReferenceHeld search.old.cx.interner.entries traced.clause }
    ensures rests { RestsAfter search.old.graph.root_depth search.old.cx search.new.cx search.new.graph search.new.cache }
    ensures table { Ready search.new.cx.interner.entries table.new }
    ensures walked { ReferencesHeld search.new.cx.interner.entries walk.new.references.items }
{
    let goal = goal_under(search.cx.alloc, &[], traced.clause)?;
    let asked = TracedGoal {
        goal: &goal,
        mode: TypingMode::Coherence,
        depth: traced.depth,
    };
    walk_goal(search, table, walk, asked)
}

/// Where-clauses that are traced, and how deep their nested goals are.
#[derive(Clone, Copy)]
struct TracedClauses<'c> {
    clauses: &'c [TraitRef],
    depth: u32,
}

/// Traces where-clauses in coherence, each alone over the table, and returns their indices.
fn walk_clauses(
    search: &mut Search<Solver>,
    table: &mut InferCtxt,
    walk: &mut GoalWalk,
    traced: TracedClauses<'_>,
) -> Result<Vec<usize>, Fault>
    requires rest { SolverRests search.old.graph.root_depth search.old.cx search.old.graph search.old.cache }
    requires table { Ready search.old.cx.interner.entries table.old }
    requires walked { ReferencesHeld search.old.cx.interner.entries walk.old.references.items }
    requires clauses { TraitRefsHeld search.old.cx.interner.entries traced.clauses.now }
    ensures rests { RestsAfter search.old.graph.root_depth search.old.cx search.new.cx search.new.graph search.new.cache }
    ensures table { Ready search.new.cx.interner.entries table.new }
    ensures walked { ReferencesHeld search.new.cx.interner.entries walk.new.references.items }
{
    let mut places = Vec::new(search.cx.alloc);
    let mut left = traced.clauses;
    'clauses: while let Some((clause, others)) = left.split_first() {
        let next = TracedClause {
            clause: *clause,
            depth: traced.depth,
        };
        let place = walk_clause(search, table, walk, next)?;
        places.push(place)?;
        left = others;
    }
    Ok(places)
}

/// Traces the where-clauses of two impls over the table in which their headers are equal.
fn walk_intersection(
    search: &mut Search<Solver>,
    found: &mut ImplIntersection,
    common: (TraitRef, bool),
    depth: u32,
) -> Result<PairWalk, Fault>
    requires rest { SolverRests search.old.graph.root_depth search.old.cx search.old.graph search.old.cache }
    requires table { Ready search.old.cx.interner.entries found.old.table }
    requires left { TraitRefsHeld search.old.cx.interner.entries found.old.left.items }
    requires right { TraitRefsHeld search.old.cx.interner.entries found.old.right.items }
    requires common { ReferenceHeld search.old.cx.interner.entries common.0 }
    ensures rests { RestsAfter search.old.graph.root_depth search.old.cx search.new.cx search.new.graph search.new.cache }
    ensures held { IfOk result (PairWalkHeld search.new.cx.interner.entries) }
    ensures common { IfOk result (λ p. (p.common ≡ common.0) × (p.is_checked ≡ common.1)) }
{
    let mut walk = GoalWalk::new(search.cx.alloc);
    let table = &mut found.table;
    let of_left = TracedClauses {
        clauses: &found.left,
        depth,
    };
    let left = walk_clauses(search, table, &mut walk, of_left)?;
    let of_right = TracedClauses {
        clauses: &found.right,
        depth,
    };
    let right = walk_clauses(search, table, &mut walk, of_right)?;
    Ok(PairWalk {
        common: common.0,
        is_checked: common.1,
        walk,
        left,
        right,
    })
}

/// Traces the where-clauses of two impls where their headers are equal, as the local crate compares them. `None` if it does not, or if
/// their headers have no common instance.
///
/// Everything stays at rest, after a fault too. Fails with `Memory` if memory is refused, or with `Full` if a table is full.
pub(crate) fn walk_pair(
    search: &mut Search<Solver>,
    later: ImplId,
    earlier: ImplId,
    depth: u32,
) -> Result<Option<PairWalk>, Fault>
    requires rest { SolverRests search.old.graph.root_depth search.old.cx search.old.graph search.old.cache }
    requires numbers { HaveOwnNumbers (rules_in search.old.cx) }
    ensures rests { RestsAfter search.old.graph.root_depth search.old.cx search.new.cx search.new.graph search.new.cache }
    ensures held { IfOk result (λ o. IfSome o (PairWalkHeld search.new.cx.interner.entries)) }
    ensures rules { IfOk result (λ o. IfSome o (λ p. p.is_checked ≡ true
        → HasRulesByBoth (rules_in search.old.cx) (term_of search.new.cx.interner.entries p.common) later.index earlier.index)) }
{
    let Some(common) = common_header_at(&mut search.cx, later, earlier)? else {
        return Ok(None);
    };
    let Some(mut found) = intersection_at(&mut search.cx, later, earlier)? else {
        return Ok(None);
    };
    let pair = walk_intersection(search, &mut found, common, depth)?;
    Ok(Some(pair))
}
