//! How the responses of the candidates become the response of a goal. Outside coherence the cases are, in this order:
//!
//! - The trivial rule wins over everything, if it holds.
//! - If a where-clause that is not global holds, only where-clauses count. The first that is a yes without values and constraints is taken,
//!   and otherwise all are merged.
//! - Otherwise the rest is merged. Impls are left out if a bound of a `dyn` holds that gives no types and constants. Global where-clauses
//!   are left out if anything else holds.
//!
//! In coherence all responses are merged.

ghost use Rattle.type_terms.specs.Growth.{GrewOrFull};
ghost use Rattle.std.specs.Prelude.{◌≡◌, List, ◌&&◌, false, IfOk, IfSome, map, reverse, option_map, is_some};
ghost use Rattle.std.specs.List.{list_any};
ghost use Rattle.type_terms.specs.Promised.Handles.{Entry};
ghost use Rattle.infer_table.specs.declared.certainty.TypingMode.TheVariants.{PostAnalysis};
ghost use Rattle.infer_table.specs.Responses.{ResponseHeld, answer_trees};
ghost use Rattle.goal_evaluator.specs.Readings.{ConsideredHeld, HandlerStepHeld};
ghost use Rattle.goal_evaluator.specs.Responses.{content};
ghost use Rattle.goal_evaluator.specs.TableAnswers.{IsWellFormed};
ghost use Rattle.goal_frames.specs.Fitting.{ConsideredFits, StepFits};
ghost use Rattle.goal_frames.specs.Handlers.{applies_always};
ghost use Rattle.goal_frames.specs.Merges.{responses_of};
ghost use Rattle.goal_evaluator.specs.StepReadings.{shown_by};
ghost use Rattle.candidate_assembly.specs.Merging.{is_source_among, from_sources, end_in, clause_taken, IsEnd, MergesFrom, AreRemaining};
ghost use Rattle.candidate_assembly.specs.Shown.{first_yes, other_clauses, first_bound_gives_none};

use goal_evaluator::{
    BuiltinImplSource, CandidateSource, Certainty, Considered, HandlerStep, ParamEnvSource,
    TypingMode, copy_response, has_no_inference_or_external_constraints,
    is_identity_modulo_regions,
};
use goal_frames::merged;
use infer_table::canonical::CanonicalVarKind;
use infer_table::response::CanonicalResponse;
use std::alloc::{AllocError, Global};
use type_terms::Fault;
use type_terms::interner::Interner;

/// A set of sources of candidates.
#[derive(Clone, Copy)]
enum Sources {
    All,
    /// The rule that wins over every other candidate.
    Trivial,
    NonGlobalClauses,
    Clauses,
    /// The bounds of a `dyn`.
    Bounds,
    /// All but impls and global where-clauses. Each of these is included if its flag is set.
    Remaining { impls: bool, global_clauses: bool },
}

impl Sources {
    /// Whether the source is in this set.
    fn has(self, source: CandidateSource) -> bool
        ensures { result ≡ is_source_among self source }
    {
        match self {
            Sources::All => true,
            Sources::Trivial => matches!(
                source,
                CandidateSource::BuiltinImpl(BuiltinImplSource::Trivial)
            ),
            Sources::NonGlobalClauses => {
                matches!(source, CandidateSource::ParamEnv(ParamEnvSource::NonGlobal))
            }
            Sources::Clauses => matches!(source, CandidateSource::ParamEnv(_)),
            Sources::Bounds => matches!(
                source,
                CandidateSource::BuiltinImpl(BuiltinImplSource::Object(_))
            ),
            Sources::Remaining {
                impls,
                global_clauses,
            } => {
                (impls || !matches!(source, CandidateSource::Impl(_)))
                    && (global_clauses
                        || !matches!(source, CandidateSource::ParamEnv(ParamEnvSource::Global)))
            }
        }
    }
}

/// Whether some candidate of these sources was not refused.
fn holds_from(done: &[Considered], sources: Sources) -> bool
    ensures { result ≡ list_any (λ d. is_source_among sources d.source && is_some d.result) done.now }
{
    done.iter().any(|considered| sources.has(considered.source) && considered.result.is_some())
}

/// Whether the response is a yes without values and constraints.
fn is_always_applicable(cx: &Interner, response: &CanonicalResponse) -> bool
    requires held { ResponseHeld cx.now.entries response.now }
    requires fits { IsWellFormed (answer_trees cx.now.entries response.now) }
    ensures { result ≡ applies_always (answer_trees cx.now.entries response.now) }
{
    match response.certainty {
        Certainty::Yes => has_no_inference_or_external_constraints(cx, response),
        Certainty::Maybe(_) => false,
    }
}

/// Whether the first bound of a `dyn` that was not refused gives no types and constants.
fn first_bound_gives_none(cx: &Interner, done: &[Considered]) -> bool
    requires held { ConsideredHeld cx.now.entries done.now }
    requires fits { ConsideredFits cx.now.entries done.now }
    ensures { result ≡ first_bound_gives_none false (map (shown_by cx.now.entries) done.now) }
{
    for considered in done {
        if Sources::Bounds.has(considered.source) {
            if let Some(response) = &considered.result {
                return is_identity_modulo_regions(cx, &response.var_values);
            }
        }
    }
    false
}

/// The first where-clause whose response is a yes without values and constraints: the response, and the candidate's number.
fn first_applicable_clause<'a>(
    cx: &Interner,
    done: &'a [Considered],
) -> Option<(&'a CanonicalResponse, usize)>
    requires held { ConsideredHeld cx.now.entries done.now }
    requires fits { ConsideredFits cx.now.entries done.now }
    ensures is { option_map (λ x. (answer_trees cx.now.entries x.0.now, x.1)) result ≡ first_yes (map (shown_by cx.now.entries) done.now) }
    ensures held { IfSome result (λ x. ResponseHeld cx.now.entries x.0.now) }
    ensures fits { IfSome result (λ x. IsWellFormed (answer_trees cx.now.entries x.0.now)) }
{
    for considered in done {
        if Sources::Clauses.has(considered.source) {
            if let Some(response) = &considered.result {
                if is_always_applicable(cx, response) {
                    return Some((response, considered.head_usages));
                }
            }
        }
    }
    None
}

/// The numbers of all where-clauses but this one, the newest first.
fn other_clauses(
    alloc: Global,
    done: &[Considered],
    number: usize,
) -> Result<Vec<usize>, AllocError>
    ensures { (es : List Entry) → IfOk result (λ r. r.items ≡ reverse (other_clauses number (map (shown_by es) done.now))) }
{
    let mut numbers = Vec::new(alloc);
    for considered in done {
        if Sources::Clauses.has(considered.source) && considered.head_usages != number {
            numbers.push(considered.head_usages)?;
        }
    }
    numbers.reverse();
    Ok(numbers)
}

/// The responses of the candidates of these sources that were not refused, in order.
fn responses_from(
    alloc: Global,
    done: &[Considered],
    sources: Sources,
) -> Result<Vec<CanonicalResponse>, AllocError>
    ensures { IfOk result (λ r. map content r.items ≡ map content (responses_of (from_sources sources done.now))) }
{
    let mut responses = Vec::new(alloc);
    for considered in done {
        if sources.has(considered.source) {
            if let Some(response) = &considered.result {
                responses.push(copy_response(alloc, response)?)?;
            }
        }
    }
    Ok(responses)
}

/// The merge of the responses of these sources, or the response for no candidates if there are none. No candidate is ignored.
fn merge_from(
    alloc: Global,
    cx: &mut Interner,
    variables: &[CanonicalVarKind],
    done: &[Considered],
    sources: Sources,
) -> Result<HandlerStep, Fault>
    requires held { ConsideredHeld cx.old.entries done.now }
    requires fits { ConsideredFits cx.old.entries done.now }
    ensures terms { GrewOrFull cx.old cx.new result }
    ensures held { IfOk result (HandlerStepHeld cx.new.entries) }
    ensures fits { IfOk result (StepFits variables.now cx.new.entries) }
    ensures is { IfOk result (MergesFrom sources variables.now cx.old.entries done.now cx.new.entries) }
{
    let responses = responses_from(alloc, done, sources)?;
    match merged(alloc, cx, variables, &responses)? {
        Some(response) => Ok(HandlerStep::Answer(response, Vec::new(alloc))),
        None => Ok(HandlerStep::NoSolution),
    }
}

/// Takes the first where-clause that is a yes without values and constraints, and ignores the others. If there is none, all where-clauses
/// are merged.
fn take_clause(
    alloc: Global,
    cx: &mut Interner,
    variables: &[CanonicalVarKind],
    done: &[Considered],
) -> Result<HandlerStep, Fault>
    requires held { ConsideredHeld cx.old.entries done.now }
    requires fits { ConsideredFits cx.old.entries done.now }
    ensures terms { GrewOrFull cx.old cx.new result }
    ensures held { IfOk result (HandlerStepHeld cx.new.entries) }
    ensures fits { IfOk result (StepFits variables.now cx.new.entries) }
    ensures is { IfOk result (IsEnd (clause_taken variables.now) cx.old.entries done.now cx.new.entries) }
{
    match first_applicable_clause(cx, done) {
        Some((response, number)) => {
            let response = copy_response(alloc, response)?;
            let ignored = other_clauses(alloc, done, number)?;
            Ok(HandlerStep::Answer(response, ignored))
        }
        None => merge_from(alloc, cx, variables, done, Sources::Clauses),
    }
}

/// The candidates that are merged if no where-clause is preferred.
fn remaining(cx: &Interner, done: &[Considered]) -> Sources
    requires held { ConsideredHeld cx.now.entries done.now }
    requires fits { ConsideredFits cx.now.entries done.now }
    ensures { AreRemaining result cx.now.entries done.now }
{
    let impls = !first_bound_gives_none(cx, done);
    let others = Sources::Remaining {
        impls,
        global_clauses: false,
    };
    Sources::Remaining {
        impls,
        global_clauses: !holds_from(done, others),
    }
}

/// The merge outside coherence, by the cases above.
fn merge_preferred(
    alloc: Global,
    cx: &mut Interner,
    variables: &[CanonicalVarKind],
    done: &[Considered],
) -> Result<HandlerStep, Fault>
    requires held { ConsideredHeld cx.old.entries done.now }
    requires fits { ConsideredFits cx.old.entries done.now }
    ensures terms { GrewOrFull cx.old cx.new result }
    ensures held { IfOk result (HandlerStepHeld cx.new.entries) }
    ensures fits { IfOk result (StepFits variables.now cx.new.entries) }
    ensures is { IfOk result (IsEnd (end_in PostAnalysis variables.now) cx.old.entries done.now cx.new.entries) }
{
    if holds_from(done, Sources::Trivial) {
        return merge_from(alloc, cx, variables, done, Sources::Trivial);
    }
    if holds_from(done, Sources::NonGlobalClauses) {
        return take_clause(alloc, cx, variables, done);
    }
    let sources = remaining(cx, done);
    merge_from(alloc, cx, variables, done, sources)
}

/// The response to a goal of this mode, over variables of these kinds, when no candidate is left to consider. The module's comment has the
/// cases.
///
/// Fails with `Full` if a table of the interner is full, and with `Memory` if memory is refused or there are more variables than numbers
/// for them. rustc: `EvalCtxt::merge_trait_candidates`.
pub fn merge_trait_candidates(
    alloc: Global,
    cx: &mut Interner,
    mode: TypingMode,
    variables: &[CanonicalVarKind],
    done: &[Considered],
) -> Result<HandlerStep, Fault>
    requires held { ConsideredHeld cx.old.entries done.now }
    requires fits { ConsideredFits cx.old.entries done.now }
    ensures terms { GrewOrFull cx.old cx.new result }
    ensures held { IfOk result (HandlerStepHeld cx.new.entries) }
    ensures fits { IfOk result (StepFits variables.now cx.new.entries) }
    ensures is { IfOk result (IsEnd (end_in mode variables.now) cx.old.entries done.now cx.new.entries) }
{
    match mode {
        TypingMode::Coherence => merge_from(alloc, cx, variables, done, Sources::All),
        TypingMode::PostAnalysis => merge_preferred(alloc, cx, variables, done),
    }
}
