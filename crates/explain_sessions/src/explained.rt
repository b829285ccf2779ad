//! Traces of what a session answered: queries, supertraits, overlaps and sections. Each call leaves the session as it was, after a fault
//! too.

ghost use Rattle.std.specs.Prelude.{◌≡◌, true, IfOk, IfSome};
ghost use Rattle.sessions.specs.TypeTerms.Promised.Handles.{ArgsHeld};
ghost use Rattle.sessions.specs.TextLanguage.Promised.Declarations.{Question};
ghost use Rattle.sessions.specs.ProofChecker.Steps.{term_of};
ghost use Rattle.sessions.specs.Checking.{HasJudged};
ghost use Rattle.sessions.specs.Later.{section_headers};
ghost use Rattle.sessions.specs.Promised.Promises.{view_in};
ghost use Rattle.sessions.specs.Promised.Releases.{IsSectionOf};
ghost use Rattle.sessions.specs.Shown.{AreProofOfBound};
ghost use Rattle.sessions.specs.Promised.Subjects.{AsksProof, AsksRefutation, StaysOn};
ghost use Rattle.explain_sessions.specs.Causes.{IsCauseAt};
ghost use Rattle.explain_sessions.specs.Rules.{HasRulesByBoth};
ghost use Rattle.explain_sessions.specs.Shown.{ShowsItsSteps};
ghost use Rattle.explain_sessions.specs.Walked.{PairWalkHeld, ProofWalkHeld, WalkHeld};

use crate::breaking::{BreakingCause, breaking_cause};
use crate::pairs::walk_pair;
use crate::questions::{walk_proof, walk_question, walk_refutation};
use crate::supertraits::walk_supertrait;
use crate::walks::{BoundWalk, PairWalk, ProofWalk};
use explain_traces::GoalWalk;
use sessions::candidate_assembly::solver::Solver;
use sessions::type_terms::kinds::GenericArgKind;
use sessions::type_terms::{Fault, ImplId};
use sessions::{Session, clauses_apply, impls_apply, overlap_at};

/// Traces the bound of a `prove` query of the session's crate that explains why the query was not proved, or is not known: the one that is
/// refused, or else the first that stays open. Queries count from 1.
///
/// Fails with `Memory` if memory is refused, or with `Full` if a table of the session is full.
pub fn explain_question(session: &mut Session<'_>, number: u32) -> Result<BoundWalk, Fault>
    requires { (q : Question) × AsksProof session.old.declarations session.old.of_crate number q }
    ensures held { IfOk result (λ b. WalkHeld session.new.terms b.walk) }
    ensures stays { StaysOn session.old session.new }
{
    clauses_apply();
    walk_question(
        &mut session.search,
        session.workspace,
        number,
        session.limits,
    )
}

/// Traces a bound of a `prove` query of the session's crate with the values of its answer, and finds the steps of its proof. They are not
/// checked.
fn find_proof(session: &mut Session<'_>, number: u32, bound: usize) -> Result<ProofWalk, Fault>
    requires { (q : Question) × AsksProof session.old.declarations session.old.of_crate number q }
    ensures held { IfOk result (ProofWalkHeld session.new.terms) }
    ensures shown { IfOk result ShowsItsSteps }
    ensures stays { StaysOn session.old session.new }
{
    clauses_apply();
    walk_proof(
        &mut session.search,
        session.workspace,
        number,
        bound,
        session.limits,
    )
}

/// Traces a bound of a `prove` query of the session's crate that was answered `Yes`, and checks the proof that the trace finds, with the
/// values of the answer. Queries count from 1, and their bounds from 0.
///
/// If the result says that the steps are checked, they are a proof of that bound with some values of the query's variables, under what they
/// assume: a rule that is not checked, or a goal that is not displayed.
///
/// Fails with `Memory` if memory is refused, or with `Full` if a table of the session is full.
pub fn explain_proof(
    session: &mut Session<'_>,
    number: u32,
    bound: usize,
    values: &[GenericArgKind],
) -> Result<ProofWalk, Fault>
    requires question { (q : Question) × AsksProof session.old.declarations session.old.of_crate number q }
    requires values { ArgsHeld session.old.terms values.now }
    ensures proof { (q : Question) → AsksProof session.old.declarations session.old.of_crate number q
        → IfOk result (λ p. p.is_checked ≡ true → AreProofOfBound session.old.declarations q bound session.new.terms p.steps.items) }
    ensures held { IfOk result (ProofWalkHeld session.new.terms) }
    ensures shown { IfOk result ShowsItsSteps }
    ensures stays { StaysOn session.old session.new }
{
    let mut found = find_proof(session, number, bound)?;
    found.is_checked = session.is_proof_of(number, bound, values, &found.steps)?;
    Ok(found)
}

/// Traces the bound of a `refute` query of the session's crate that explains its answer, in coherence: the one that is refused, or else the
/// first that stays open. Queries count from 1.
///
/// Fails with `Memory` if memory is refused, or with `Full` if a table of the session is full.
pub fn explain_refutation(session: &mut Session<'_>, number: u32) -> Result<BoundWalk, Fault>
    requires { (q : Question) × AsksRefutation session.old.declarations session.old.of_crate number q }
    ensures held { IfOk result (λ b. WalkHeld session.new.terms b.walk) }
    ensures stays { StaysOn session.old session.new }
{
    walk_refutation(
        &mut session.search,
        session.workspace,
        number,
        session.limits,
    )
}

/// Traces a supertrait of the header of an impl of the session's crate, as `check_supertraits` evaluates it. Supertraits count from 1.
/// `None` if there is no such impl or supertrait.
///
/// Fails with `Memory` if memory is refused, or with `Full` if a table of the session is full.
pub fn explain_supertrait(
    session: &mut Session<'_>,
    id: ImplId,
    number: u32,
) -> Result<Option<GoalWalk>, Fault>
    ensures held { IfOk result (λ o. IfSome o (WalkHeld session.new.terms)) }
    ensures stays { StaysOn session.old session.new }
{
    impls_apply();
    walk_supertrait(&mut session.search, id, number, session.limits.depth)
}

/// Whether the session's crate brings the impls with these numbers together and they overlap, as `check_crate` judges a pair.
///
/// Fails with `Memory` if memory is refused, or with `Full` if a table of the session is full.
pub fn impls_overlap(
    session: &mut Session<'_>,
    later: ImplId,
    earlier: ImplId,
) -> Result<bool, Fault>
    ensures judged { IfOk result (HasJudged session.old later.index earlier.index) }
    ensures stays { StaysOn session.old session.new }
{
    let _ = session.workspace.crates();
    overlap_at(&mut session.search, later, earlier)
}

/// Traces the where-clauses of two impls where their headers are equal, as the session's crate compares them. `None` if it does not compare
/// them, or if their headers have no common instance.
///
/// Fails with `Memory` if memory is refused, or with `Full` if a table of the session is full.
pub fn explain_overlap(
    session: &mut Session<'_>,
    later: ImplId,
    earlier: ImplId,
) -> Result<Option<PairWalk>, Fault>
    ensures held { IfOk result (λ o. IfSome o (PairWalkHeld session.new.terms)) }
    ensures rules { IfOk result (λ o. IfSome o (λ p. p.is_checked ≡ true
        → HasRulesByBoth (view_in session.old.declarations session.old.of_crate) (term_of session.new.terms p.common) later.index earlier.index)) }
    ensures stays { StaysOn session.old session.new }
{
    let _ = session.workspace.crates();
    walk_pair(&mut session.search, later, earlier, session.limits.depth)
}

/// Why a later version of the session's crate may not add the impl of a section with this number, counted from 1. `None` if it may, or if
/// there is none. Sections count from 0.
///
/// Fails with `Memory` if memory is refused, or with `Full` if a table of the session is full.
pub fn explain_breaking(
    session: &mut Session<'_>,
    section: u32,
    number: u32,
) -> Result<Option<BreakingCause>, Fault>
    requires { IsSectionOf session.old.declarations session.old.of_crate section }
    ensures cause { IfOk result
        (IsCauseAt (view_in session.old.declarations session.old.of_crate) session.old.of_crate (section_headers session.old.declarations section) number) }
    ensures stays { StaysOn session.old session.new }
{
    breaking_cause(&mut session.search.cx, session.workspace, section, number)
}
