//! What may be stated as checked about the goals and candidates of a trace.

ghost use Rattle.std.specs.Prelude.{◌≡◌, [], false, IfOk, Some};
ghost use Rattle.std.specs.List.{slice_get};
ghost use Rattle.sessions.specs.Declarations.Held.{ReferenceHeld};
ghost use Rattle.sessions.specs.Declarations.Items.{reference_in};
ghost use Rattle.explain_traces.specs.declared.nodes.GoalWalk.{GoalWalk};
ghost use Rattle.sessions.specs.ProofChecker.Steps.{term_of};
ghost use Rattle.sessions.specs.Promised.Promises.{view_in};
ghost use Rattle.sessions.specs.Promised.Subjects.{StaysOn, Subject};
ghost use Rattle.explain_sessions.specs.Claims.{AddersHold, ClaimsHold, FreeHold, UnseenHold};
ghost use Rattle.explain_sessions.specs.Adding.{HasFreeInstance};
ghost use Rattle.explain_sessions.specs.Unseen.{IsUnseen};
ghost use Rattle.explain_sessions.specs.Walked.{PairWalkHeld, WalkHeld};

use crate::adding::{Adder, find_adder};
use crate::fitting::{no_built_in_rule_fits, no_impl_fits};
use crate::free::free_goals;
use crate::holding::held_goals;
use crate::places::{TOLD_LIMIT, reference_at};
use crate::refusals::refused_goals;
use crate::rules::checked_candidates;
use crate::unseen::unseen_crates;
use crate::walks::{CheckedCandidates, PairWalk};
use explain_traces::GoalWalk;
use sessions::Session;
use sessions::orphan_check::errors::Conflict;
use sessions::term_folds::predicate::TraitRef;
use sessions::type_terms::Fault;
use std::alloc::Global;

/// What is claimed of a trace. Each claim is checked. What is not claimed may hold too.
///
/// Goals are named by their indices in the trace.
pub struct Claims {
    /// The candidates that are rules, and those that may apply.
    pub candidates: CheckedCandidates,
    /// The goals that have no proof in any linked set with the session's crate.
    pub refused: Vec<usize>,
    /// The goals that have a proof without where-clauses.
    pub held: Vec<usize>,
    /// Which crates outside the view may have an impl for a goal. `None` if the goal is knowable.
    pub unseen: Vec<(usize, Option<Conflict>)>,
    /// Who may write an impl for a goal, or for an instance of it, that overlaps no impl of the view.
    pub adders: Vec<(usize, Adder)>,
    /// Whether no impl has a rule for the goal at index 0.
    pub no_impl: bool,
    /// Whether no built-in rule concludes the goal at index 0.
    pub no_built_in_rule: bool,
}

// Hand-written so that the prover sees one drop call: docs/PROVING.md#drop.
impl Drop for Claims {
    fn drop(self) {
        let Claims {
            candidates: _,
            refused: _,
            held: _,
            unseen: _,
            adders: _,
            no_impl: _,
            no_built_in_rule: _,
        } = self;
    }
}

/// The claim that these candidates are rules or may apply, and no other.
fn of_candidates(alloc: Global, candidates: CheckedCandidates) -> Claims
    ensures candidates { result.candidates ≡ candidates }
    ensures refused { result.refused.items ≡ [] }
    ensures held { result.held.items ≡ [] }
    ensures unseen { result.unseen.items ≡ [] }
    ensures adders { result.adders.items ≡ [] }
    ensures no_impl { result.no_impl ≡ false }
    ensures no_built_in_rule { result.no_built_in_rule ≡ false }
{
    Claims {
        candidates,
        refused: Vec::new(alloc),
        held: Vec::new(alloc),
        unseen: Vec::new(alloc),
        adders: Vec::new(alloc),
        no_impl: false,
        no_built_in_rule: false,
    }
}

/// No claims. They hold for every trace.
pub fn no_claims(alloc: Global) -> Claims
    ensures { (s : Subject) (w : GoalWalk) → ClaimsHold s w result }
{
    let candidates = CheckedCandidates {
        rules: Vec::new(alloc),
        chances: Vec::new(alloc),
    };
    of_candidates(alloc, candidates)
}

/// The claims for the trace of a `prove` query, or of a supertrait: which of its candidates are rules, and which may apply.
///
/// Fails with `Memory` if memory is refused, or with `Full` if a table of the session is full.
pub fn question_claims(session: &mut Session<'_>, walk: &GoalWalk) -> Result<Claims, Fault>
    requires { WalkHeld session.old.terms walk.now }
    ensures claims { IfOk result (ClaimsHold session.new walk.now) }
    ensures held { WalkHeld session.new.terms walk.now }
    ensures stays { StaysOn session.old session.new }
{
    let candidates = checked_candidates(session, walk)?;
    Ok(of_candidates(session.search.cx.alloc, candidates))
}

/// Adds who may write an impl for the goal at a place, if it is known that someone may.
fn push_adder(
    session: &Session<'_>,
    walk: &GoalWalk,
    place: usize,
    reference: TraitRef,
    found: Option<Conflict>,
    adders: &mut Vec<(usize, Adder)>,
) -> Result<(), Fault>
    requires held { ReferenceHeld session.now.terms reference }
    requires there { slice_get walk.now.references.items place ≡ Some reference }
    requires unseen { IsUnseen (view_in session.now.declarations session.now.of_crate) session.now.of_crate
        (reference_in session.now.terms reference) found }
    requires free { HasFreeInstance (view_in session.now.declarations session.now.of_crate) (term_of session.now.terms reference) }
    requires adders { AddersHold session.now walk.now adders.old.items }
    ensures { AddersHold session.now walk.now adders.new.items }
{
    let Some(conflict) = found else {
        return Ok(());
    };
    if let Some(adder) = find_adder(session, reference, conflict) {
        adders.push((place, adder))?;
    }
    Ok(())
}

/// Adds which unseen crates may have an impl for the goal at a place, and who may write one if the place is among those with a free instance,
/// if the walk has that place.
fn push_unseen(
    session: &Session<'_>,
    walk: &GoalWalk,
    free: &[usize],
    place: usize,
    unseen: &mut Vec<(usize, Option<Conflict>)>,
    adders: &mut Vec<(usize, Adder)>,
) -> Result<(), Fault>
    requires walked { WalkHeld session.now.terms walk.now }
    requires free { FreeHold session.now walk.now free.now }
    requires unseen { UnseenHold session.now walk.now unseen.old.items }
    requires adders { AddersHold session.now walk.now adders.old.items }
    ensures unseen { UnseenHold session.now walk.now unseen.new.items }
    ensures adders { AddersHold session.now walk.now adders.new.items }
{
    if let Some(reference) = reference_at(&walk.references, place) {
        let found = unseen_crates(session, reference)?;
        unseen.push((place, found))?;
        if free.contains(&place) {
            push_adder(session, walk, place, reference, found, adders)?;
        }
    }
    Ok(())
}

/// Adds it for all goals, but for those behind so many that it is not told.
fn push_all_unseen(
    session: &Session<'_>,
    walk: &GoalWalk,
    free: &[usize],
    unseen: &mut Vec<(usize, Option<Conflict>)>,
    adders: &mut Vec<(usize, Adder)>,
) -> Result<(), Fault>
    requires walked { WalkHeld session.now.terms walk.now }
    requires free { FreeHold session.now walk.now free.now }
    requires unseen { UnseenHold session.now walk.now unseen.old.items }
    requires adders { AddersHold session.now walk.now adders.old.items }
    ensures unseen { UnseenHold session.now walk.now unseen.new.items }
    ensures adders { AddersHold session.now walk.now adders.new.items }
{
    for place in 0..walk.nodes.len().min(TOLD_LIMIT) {
        push_unseen(session, walk, free, place, unseen, adders)?;
    }
    Ok(())
}

/// What is claimed of the walk of a `refute` question: which of its candidates are rules, or may apply; which goals are refused, which hold, which
/// unseen crates may have an impl for them and who may write one; and of the goal at place 0, that nothing fits.
///
/// The fault is `Memory` where memory is refused, or `Full` where a table of the session is full.
pub fn refutation_claims(session: &mut Session<'_>, walk: &GoalWalk) -> Result<Claims, Fault>
    requires { WalkHeld session.old.terms walk.now }
    ensures claims { IfOk result (ClaimsHold session.new walk.now) }
    ensures held { WalkHeld session.new.terms walk.now }
    ensures stays { StaysOn session.old session.new }
{
    let no_impl = no_impl_fits(session, walk, 0)?;
    let refused = refused_goals(session, walk)?;
    let held = held_goals(session, walk)?;
    let free = free_goals(session, walk)?;
    let mut claims = question_claims(session, walk)?;
    claims.no_impl = no_impl;
    claims.refused = refused;
    claims.held = held;
    claims.no_built_in_rule = no_built_in_rule_fits(session, walk, 0);
    push_all_unseen(session, walk, &free, &mut claims.unseen, &mut claims.adders)?;
    Ok(claims)
}

/// What is claimed of the walk of two impls: which candidates are rules, or may apply, which goals hold, which unseen crates may have an impl
/// for one, and who may write one.
///
/// The fault is `Memory` where memory is refused, or `Full` where a table of the session is full.
pub fn pair_claims(session: &mut Session<'_>, pair: &PairWalk) -> Result<Claims, Fault>
    requires { PairWalkHeld session.old.terms pair.now }
    ensures claims { IfOk result (ClaimsHold session.new pair.now.walk) }
    ensures held { PairWalkHeld session.new.terms pair.now }
    ensures stays { StaysOn session.old session.new }
{
    let held = held_goals(session, &pair.walk)?;
    let free = free_goals(session, &pair.walk)?;
    let mut claims = question_claims(session, &pair.walk)?;
    claims.held = held;
    push_all_unseen(
        session,
        &pair.walk,
        &free,
        &mut claims.unseen,
        &mut claims.adders,
    )?;
    Ok(claims)
}
