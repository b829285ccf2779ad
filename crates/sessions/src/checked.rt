//! The checks of a crate: the headers of its impls, and the pairs of impls that it brings together.

ghost use Rattle.std.specs.Prelude.{◌≡◌, ◌≤◌, ◌+◌, ℕ, not, IfOk, IfErr, IfSome, OnOk, Ok, None};
ghost use Rattle.type_terms.specs.Promised.Handles.{Keeps};
ghost use Rattle.type_terms.specs.declared.TheConstants.{MAX_INDEX};
ghost use Rattle.type_terms.specs.Growth.{FullAtLimit};
ghost use Rattle.declarations.specs.Items.{IsAbove};
ghost use Rattle.orphan_check.specs.Promised.Errors.{ErrorHeld};
ghost use Rattle.overlap_check.specs.Orphans.{IsFirstError};
ghost use Rattle.text_language.specs.Promised.Declarations.{Declarations};
ghost use Rattle.sessions.specs.Checking.{IsReadySolver, SolverStaysReady, HaveOwnNumbers, AreApartAt, IsFoundAt, IsJudgedAt, rules_in, solving_in};
ghost use Rattle.sessions.specs.FixedGoals.{AreRefutedAsNoted, RestsSince};
ghost use Rattle.sessions.specs.Promised.Promises.{view_in};
ghost use Rattle.sessions.specs.Sessions.{SolverRests, IsSession};
ghost use Rattle.solver_graph.specs.Contexts.{KeepsLimits};
ghost use Rattle.solver_graph.specs.Shortages.{ContextFullAtLimit};

use crate::asked::rest_laws;
use crate::fixed_goals::{FixedAnswers, has_refuted_goal};
use crate::laws::{open_pair_goals_are_possible, ready_impls_are_written_well};
use candidate_assembly::solver::Solver;
use orphan_check::errors::OrphanCheckErr;
use overlap_check::heads::headers_differ;
use overlap_check::intersection::{ImplIntersection, impl_intersection};
use overlap_check::orphans::first_orphan;
use overlap_check::partners::pair_at;
use pair_checks::has_impossible_obligation;
use solver_graph::{Search, SolverCx};
use type_terms::kinds::Ty;
use type_terms::{Fault, ImplId};

/// The first impl of the local crate whose header breaks the orphan rule, by rising number, with the reason, or `None` if all keep it. The
/// numbers of impls are below `end`. The errors are those of `first_orphan`.
pub(crate) fn first_broken_header(
    cx: &mut SolverCx<Solver>,
    end: u32,
) -> Result<Option<(ImplId, OrphanCheckErr<Ty>)>, Fault>
    requires ready { IsReadySolver cx.old }
    requires numbered { IsAbove end cx.old.handler.declarations }
    requires in_range { end ≤ MAX_INDEX + 1 }
    ensures advances { SolverStaysReady cx.old cx.new }
    ensures held { IfOk result (λ found. IfSome found (λ x. ErrorHeld cx.new.interner.entries x.1)) }
    ensures first { IfOk result (IsFirstError (rules_in cx.old) cx.old.handler.declarations.local cx.new.interner.entries) }
    ensures full { IfErr result (FullAtLimit cx.new.interner) }
{
    rest_laws::<Solver>();
    ready_impls_are_written_well();
    let found = first_orphan(cx.alloc, &mut cx.interner, &cx.handler.declarations, end);
    cx.interner.lawful();
    found
}

/// What the impls with these numbers have in common. `None` if the local crate need not compare them, or if their headers have no common
/// instance. The errors are those of `impl_intersection`.
pub fn intersection_at(
    cx: &mut SolverCx<Solver>,
    later: ImplId,
    earlier: ImplId,
) -> Result<Option<ImplIntersection>, Fault>
    requires ready { IsReadySolver cx.old }
    requires numbers { HaveOwnNumbers (rules_in cx.old) }
    ensures advances { SolverStaysReady cx.old cx.new }
    ensures apart { result ≡ Ok None → AreApartAt (rules_in cx.old) cx.old.handler.declarations.local later.index earlier.index }
    ensures found { IfOk result (λ found. IfSome found (IsFoundAt cx.old.interner.entries cx.old.handler.declarations later earlier cx.new.interner.entries)) }
    ensures full { IfErr result (FullAtLimit cx.new.interner) }
{
    rest_laws::<Solver>();
    ready_impls_are_written_well();
    let Some((left, right)) = pair_at(&cx.handler.declarations, later, earlier) else {
        return Ok(None);
    };
    if headers_differ(&cx.interner, left, right) {
        return Ok(None);
    }
    let found = impl_intersection(cx.alloc, &mut cx.interner, left, right);
    cx.interner.lawful();
    found
}

/// Whether the impls with these numbers overlap: the local crate has to compare them, their headers have a common instance, and none of
/// their where-clauses is impossible there.
///
/// Everything stays at rest, after a fault too. Fails with `Memory` if memory is refused, or with `Full` if a table is full.
pub fn overlap_at(
    search: &mut Search<Solver>,
    later: ImplId,
    earlier: ImplId,
) -> Result<bool, Fault>
    requires rest { SolverRests search.old.graph.root_depth search.old.cx search.old.graph search.old.cache }
    requires numbers { HaveOwnNumbers (rules_in search.old.cx) }
    ensures rest { SolverRests search.old.graph.root_depth search.new.cx search.new.graph search.new.cache }
    ensures solving { solving_in search.new.cx ≡ solving_in search.old.cx }
    ensures entries { Keeps search.old.cx.interner.entries search.new.cx.interner.entries }
    ensures limits { KeepsLimits search.old.cx search.new.cx }
    ensures judged { (d : Declarations) (c depth : ℕ) → IsSession d c depth search.old.cx search.old.graph search.old.cache
        → IfOk result (IsJudgedAt depth (view_in d c) c later.index earlier.index) }
    ensures full { IfErr result (ContextFullAtLimit search.new.cx) }
{
    rest_laws::<Solver>();
    ready_impls_are_written_well();
    open_pair_goals_are_possible();
    let Some(mut found) = intersection_at(&mut search.cx, later, earlier)? else {
        return Ok(false);
    };
    search.cache.forget_if_many();
    let refused = has_impossible_obligation(search, &mut found)?;
    Ok(is_overlap(refused))
}

/// The same as `overlap_at`. It first looks at the where-clauses that the headers fix, and notes the answers for other pairs.
pub(crate) fn overlaps_by_goals(
    search: &mut Search<Solver>,
    answers: &mut FixedAnswers,
    later: ImplId,
    earlier: ImplId,
) -> Result<bool, Fault>
    requires rest { SolverRests search.old.graph.root_depth search.old.cx search.old.graph search.old.cache }
    requires numbers { HaveOwnNumbers (rules_in search.old.cx) }
    ensures rests { RestsSince search.old.graph.root_depth search.old.cx search.new.cx search.new.graph search.new.cache }
    ensures noted { (d : Declarations) (c depth : ℕ) → IsSession d c depth search.old.cx search.old.graph search.old.cache
        → AreRefutedAsNoted d c search.old.cx.interner.entries answers.old
        → OnOk result (AreRefutedAsNoted d c search.new.cx.interner.entries answers.new) }
    ensures judged { (d : Declarations) (c depth : ℕ) → IsSession d c depth search.old.cx search.old.graph search.old.cache
        → AreRefutedAsNoted d c search.old.cx.interner.entries answers.old
        → IfOk result (IsJudgedAt depth (view_in d c) c later.index earlier.index) }
    ensures full { IfErr result (ContextFullAtLimit search.new.cx) }
{
    if has_refuted_goal(search, answers, later, earlier)? {
        return Ok(false);
    }
    overlap_at(search, later, earlier)
}

/// Whether a pair with a common instance overlaps, given whether one of its where-clauses is impossible there.
fn is_overlap(has_impossible_obligation: bool) -> bool
    ensures { result ≡ not has_impossible_obligation }
{
    !has_impossible_obligation
}
