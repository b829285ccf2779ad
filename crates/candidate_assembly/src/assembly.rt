//! How the candidates of a goal are assembled: one after the other, each found from those that were considered. rustc makes all candidates
//! of a goal at once. Here each is made when it is wanted, so a handler needs no state of its own.

ghost use Rattle.type_terms.specs.Growth.{GrewOrFull};
ghost use Rattle.std.specs.Prelude.{◌≡◌, ◌==◌, ℕ, None, true, false, map, IfOk, IfSome, option_map};
ghost use Rattle.std.specs.List.{slice_get};
ghost use Rattle.type_terms.specs.Promised.Worlds.{World};
ghost use Rattle.type_terms.specs.Promised.Rules.{unsize};
ghost use Rattle.type_terms.specs.Promised.Handles.{trees_at};
ghost use Rattle.term_folds.specs.Signatures.{StartsWithType};
ghost use Rattle.infer_table.specs.Goals.{GoalHeld};
ghost use Rattle.goal_evaluator.specs.Readings.{SpecHeld};
ghost use Rattle.declarations.specs.Items.{written};
ghost use Rattle.declarations.specs.Held.{AreHeld};
ghost use Rattle.declarations.specs.Applied.{HaveBounds};
ghost use Rattle.declarations.specs.Merges.{Rises};
ghost use Rattle.candidate_model.specs.Asking.{clauses, self_of};
ghost use Rattle.candidate_model.specs.Candidates.{by_clauses, built_in, by_impls};
ghost use Rattle.candidate_model.specs.Solver.{is_clause};
ghost use Rattle.built_in_candidates.specs.Constituents.{CanBeConsidered};
ghost use Rattle.candidate_assembly.specs.Counted.{is_numbered_bound, is_of, count_from, last_from, ends_by, ForEachPast};
ghost use Rattle.built_in_candidates.specs.Goals.{asked_of, candidate_of};
ghost use Rattle.candidate_assembly.specs.Headers.{HaveCandidates, impls_above};
ghost use Rattle.built_in_candidates.specs.Objects.{ObjectIsApplied};
ghost use Rattle.candidate_assembly.specs.Sections.{considered_from, last_impl, is_built_in, misc_is_bound};
ghost use Rattle.built_in_candidates.specs.Unsizing.{CanUnsize};

use crate::impls::next_impl_candidate;
use crate::param_env::consider_param_env_candidate;
use built_in_candidates::built_in_rules::consider_builtin_candidate;
use built_in_candidates::dyn_type::dyn_bounds;
use declarations::core_traits::UNSIZE;
use declarations::declarations::Declarations;
use goal_evaluator::{BuiltinImplSource, CandidateSource, CandidateSpec, Considered};
use infer_table::input::CanonicalInput;
use std::alloc::Global;
use type_terms::interner::Interner;
use type_terms::{Fault, ImplId};

/// The sections in which the candidates of a goal come, in their order.
#[derive(Clone, Copy)]
pub(crate) enum Section {
    WhereClauses,
    BuiltInRules,
    Impls,
    /// The bounds of the `dyn` that is the self type.
    ObjectBounds,
}

impl Section {
    /// Whether the source is of this section. For some goals a source that says no more than 'built-in' is a bound of a `dyn`.
    fn has(self, source: CandidateSource, misc_is_bound: bool) -> bool
        ensures { result ≡ is_of misc_is_bound self source }
    {
        match (self, source) {
            (Section::WhereClauses, CandidateSource::ParamEnv(_)) => true,
            (Section::WhereClauses, _) => false,
            (Section::BuiltInRules, CandidateSource::BuiltinImpl(rule)) => match rule {
                BuiltinImplSource::Trivial => true,
                BuiltinImplSource::Misc => !misc_is_bound,
                BuiltinImplSource::Object(_) => false,
                BuiltinImplSource::TraitUpcasting(_) => true,
            },
            (Section::BuiltInRules, _) => false,
            (Section::Impls, CandidateSource::Impl(_)) => true,
            (Section::Impls, _) => false,
            (Section::ObjectBounds, CandidateSource::BuiltinImpl(rule)) => match rule {
                BuiltinImplSource::Trivial => false,
                BuiltinImplSource::Misc => misc_is_bound,
                BuiltinImplSource::Object(_) => true,
                BuiltinImplSource::TraitUpcasting(_) => false,
            },
            (Section::ObjectBounds, _) => false,
        }
    }
}

/// How many candidates of the section were considered.
pub(crate) fn considered_from(done: &[Considered], section: Section, misc_is_bound: bool) -> usize
    ensures { result ≡ count_from (is_of misc_is_bound section) done.now }
{
    let mut count = 0;
    'done: for considered in done {
        if section.has(considered.source, misc_is_bound) {
            count += 1;
        }
    }
    count
}

/// The impl that was considered last, if there was one. The search begins with the newest candidate.
fn last_impl(done: &[Considered]) -> Option<ImplId>
    ensures { result ≡ last_from None done.now }
{
    let mut left = done;
    'done: while let Some((newest, before)) = left.split_last() {
        match newest.source {
            CandidateSource::Impl(id) => return Some(id),
            CandidateSource::BuiltinImpl(_)
            | CandidateSource::ParamEnv(_)
            | CandidateSource::CoherenceUnknowable => left = before,
        }
    }
    None
}

/// Whether the candidate that was considered last of all is of the section: of where-clauses, of impls, or of the bounds of the principal.
/// It looks at no other.
pub(crate) fn ends_by(done: &[Considered], section: Section) -> bool
    ensures { result ≡ ends_by (is_of false section) false done.now }
{
    match done.split_last() {
        Some((newest, _)) => section.has(newest.source, false),
        None => false,
    }
}

/// The number of the bound that was considered last of all, if that is one of the principal or of its supertraits. It looks at no other
/// candidate.
pub(crate) fn last_bound(done: &[Considered]) -> Option<usize>
    ensures { IfSome result (λ number. ends_by (is_numbered_bound number) false done.now ≡ true) }
{
    match done.split_last() {
        Some((newest, _)) => match newest.source {
            CandidateSource::BuiltinImpl(rule) => match rule {
                BuiltinImplSource::Object(number) => Some(number),
                _ => None,
            },
            _ => None,
        },
        None => None,
    }
}

/// The next candidate by a where-clause that can be the goal after these candidates were considered, if one is left.
///
/// Fails with `Memory`, or with `Full` if a table of the interner is full. rustc: `assemble_param_env_candidates`.
pub fn assemble_param_env_candidates(
    alloc: Global,
    cx: &mut Interner,
    goal: &CanonicalInput,
    done: &[Considered],
) -> Result<Option<CandidateSpec>, Fault>
    requires { GoalHeld cx.old.entries goal.now.goal }
    ensures terms { GrewOrFull cx.old cx.new result }
    ensures held { IfOk result (λ o. IfSome o (SpecHeld cx.new.entries)) }
    ensures is { let a = asked_of cx.old.entries goal.now in
        IfOk result (λ o. (V : World) → ForEachPast cx.old.entries done.now (λ seen. option_map (candidate_of V a.reference.trait cx.new.entries) o
        ≡ slice_get (by_clauses V a (clauses a)) (considered_from is_clause seen))) }
{
    let place = considered_from(done, Section::WhereClauses, false);
    consider_param_env_candidate(alloc, cx, goal, place)
}

/// Whether a source that says no more than 'built-in' is a bound of a `dyn` for this goal. The only other such rule for a `dyn` is one of
/// `Unsize`.
pub(crate) fn misc_is_bound(cx: &Interner, goal: &CanonicalInput) -> bool
    requires goal { GoalHeld cx.now.entries goal.now.goal }
    requires first { StartsWithType (trees_at cx.now.entries goal.now.goal.predicate.trait_ref.args.0) }
    ensures { result ≡ misc_is_bound (asked_of cx.now.entries goal.now) }
{
    let trait_ref = goal.goal.predicate.trait_ref;
    match dyn_bounds(cx, trait_ref.self_ty(cx)) {
        Some(_) => trait_ref.def_id.index != UNSIZE,
        None => false,
    }
}

/// The next candidate by a built-in rule after these candidates were considered, if one is left.
///
/// Fails with `Memory`, or with `Full` if a table of the interner is full. rustc: `assemble_builtin_impl_candidates`.
pub fn assemble_builtin_impl_candidates(
    alloc: Global,
    cx: &mut Interner,
    declarations: &Declarations,
    goal: &CanonicalInput,
    done: &[Considered],
) -> Result<Option<CandidateSpec>, Fault>
    requires considered { CanBeConsidered cx.old.entries declarations.now goal.now }
    requires impls { HaveCandidates cx.old.entries declarations.now }
    requires bounds { HaveBounds cx.old.entries declarations.now }
    requires object { ObjectIsApplied declarations.now (trees_at cx.old.entries goal.now.goal.predicate.trait_ref.args.0) }
    requires unsizing { (goal.now.goal.predicate.trait_ref.def_id.index == unsize) ≡ true
        → CanUnsize declarations.now (self_of (asked_of cx.old.entries goal.now)) }
    ensures terms { GrewOrFull cx.old cx.new result }
    ensures held { IfOk result (λ o. IfSome o (SpecHeld cx.new.entries)) }
    ensures is { let V = written cx.old.entries declarations.now in let a = asked_of cx.old.entries goal.now in
        IfOk result (λ o. ForEachPast cx.old.entries done.now (λ seen. option_map (candidate_of V a.reference.trait cx.new.entries) o
        ≡ slice_get (built_in V a) (considered_from (is_built_in (misc_is_bound a)) seen))) }
{
    let place = considered_from(done, Section::BuiltInRules, misc_is_bound(cx, goal));
    consider_builtin_candidate(alloc, cx, declarations, goal, place)
}

/// The next candidate by an impl after these candidates were considered, if one is left: the first one after the impl that was considered
/// last.
///
/// Fails with `Memory`, or with `Full` if a table of the interner is full. rustc: `assemble_impl_candidates`.
pub fn assemble_impl_candidates(
    alloc: Global,
    cx: &mut Interner,
    declarations: &Declarations,
    goal: &CanonicalInput,
    done: &[Considered],
) -> Result<Option<CandidateSpec>, Fault>
    requires goal { GoalHeld cx.old.entries goal.now.goal }
    requires first { StartsWithType (trees_at cx.old.entries goal.now.goal.predicate.trait_ref.args.0) }
    requires declared { AreHeld cx.old.entries declarations.now }
    requires impls { HaveCandidates cx.old.entries declarations.now }
    ensures terms { GrewOrFull cx.old cx.new result }
    ensures held { IfOk result (λ o. IfSome o (SpecHeld cx.new.entries)) }
    ensures is { let V = written cx.old.entries declarations.now in let a = asked_of cx.old.entries goal.now in
        IfOk result (λ o. ForEachPast cx.old.entries done.now (λ seen. option_map (candidate_of V a.reference.trait cx.new.entries) o
        ≡ slice_get (by_impls V a (impls_above (last_impl seen) V.impls)) 0)) }
    ensures rises { Rises (map (λ i. i.id) declarations.now.impls) }
{
    let last = last_impl(done);
    next_impl_candidate(alloc, cx, declarations, goal, last)
}
