//! Merges the responses of candidates.

ghost use Rattle.type_terms.specs.Growth.{Grew};
ghost use Rattle.std.specs.Prelude.{◌≡◌, Bool, List, [], None, Err, map, position, IfOk, IfErr, IfSome, option_map, ◌↔◌};
ghost use Rattle.std.specs.List.{list_all, All};
ghost use Rattle.infer_table.specs.declared.certainty.Certainty.{Certainty};
ghost use Rattle.infer_table.specs.Certainties.{all_joined, unsettled};
ghost use Rattle.goal_evaluator.specs.Merge.{merge_info, merge_by};
ghost use Rattle.goal_evaluator.specs.Runs.{SaysAllOf};
ghost use Rattle.goal_evaluator.specs.Responses.{is_always_applicable, ValuesHeld};
ghost use Rattle.type_terms.specs.Promised.Handles.{ArgsHeld};
ghost use Rattle.infer_table.specs.Values.{values_of};
ghost use Rattle.infer_table.specs.Raw.{variables_from, IsFull};

use crate::response::{copy_response, has_no_inference_or_external_constraints, is_same_response};
use infer_table::canonical::CanonicalVarKind;
use infer_table::certainty::{Certainty, MaybeCause};
use infer_table::raw::response_no_constraints_raw;
use infer_table::response::CanonicalResponse;
use std::alloc::Global;
use type_terms::Fault;
use type_terms::interner::Interner;

/// How responses were merged (`rustc_next_trait_solver::solve::MergeCandidateInfo`).
#[derive(Clone, Copy, PartialEq, Eq)]
pub enum MergeCandidateInfo {
    /// The first response that is `Yes` without values and constraints, by its index.
    AlwaysApplicable(usize),
    /// No response is always applicable, and all are equal. The result is the first.
    EqualResponse,
}

/// Whether the response is `Yes` without values and constraints.
fn is_always_applicable(cx: &Interner, response: &CanonicalResponse) -> bool
    requires { ValuesHeld cx.now.entries response.now }
    ensures { result ≡ is_always_applicable cx.now.entries response.now }
{
    response.certainty == Certainty::Yes && has_no_inference_or_external_constraints(cx, response)
}

/// The index of the first response that is `Yes` without values and constraints.
fn first_always_applicable(cx: &Interner, responses: &[CanonicalResponse]) -> Option<usize>
    requires { All (ValuesHeld cx.now.entries) responses.now }
    ensures { result ≡ position (is_always_applicable cx.now.entries) responses.now }
{
    responses
        .iter()
        .position(|response| is_always_applicable(cx, response))
}

fn are_equal_to(first: &CanonicalResponse, rest: &[CanonicalResponse]) -> bool
    ensures { result ≡ list_all (⟦<CanonicalResponse as PartialEq>⟧.eq first.now) rest.now }
{
    rest.iter()
        .all(|response| is_same_response(first, response))
}

/// Merges responses. The result is the first response that is `Yes` without values and constraints. If there is none and all
/// responses are equal, it is the first response. Otherwise there is no merge. The only fault is `Memory`. rustc:
/// `EvalCtxt::try_merge_candidates`.
pub fn try_merge_candidates(
    alloc: Global,
    cx: &Interner,
    responses: &[CanonicalResponse],
) -> Result<Option<(CanonicalResponse, MergeCandidateInfo)>, Fault>
    requires { All (ValuesHeld cx.now.entries) responses.now }
    ensures info { IfOk result (λ merged. option_map (λ x. x.1) merged
        ≡ merge_info (is_always_applicable cx.now.entries) ⟦<CanonicalResponse as PartialEq>⟧.eq responses.now) }
    ensures response { IfOk result
        (λ merged. SaysAllOf (merge_by (is_always_applicable cx.now.entries) ⟦<CanonicalResponse as PartialEq>⟧.eq responses.now) merged) }
    ensures fault { IfErr result (λ fault. fault ≡ Fault.Memory) }
{
    if let Some(place) = first_always_applicable(cx, responses) {
        let response = copy_response(alloc, &responses[place])?;
        return Ok(Some((response, MergeCandidateInfo::AlwaysApplicable(place))));
    }
    match responses {
        [] => Ok(None),
        [first, rest @ ..] => {
            if are_equal_to(first, rest) {
                let response = copy_response(alloc, first)?;
                Ok(Some((response, MergeCandidateInfo::EqualResponse)))
            } else {
                Ok(None)
            }
        }
    }
}

/// The certainties of all these responses, joined.
fn joined_certainty(responses: &[CanonicalResponse]) -> Certainty
    ensures { result ≡ all_joined (map (λ r. r.certainty) responses.now) }
{
    responses
        .iter()
        .map(|response| response.certainty)
        .fold(Certainty::Yes, |all, certainty| all.and(certainty))
}

/// The certainty of the response to a goal whose responses have no merge: `Maybe`, and an overflow if one of them is an overflow.
pub fn ambiguous_certainty(responses: &[CanonicalResponse]) -> Certainty
    ensures { result ≡ unsettled (all_joined (map (λ r. r.certainty) responses.now)) }
{
    Certainty::Maybe(MaybeCause::Ambiguity).and(joined_certainty(responses))
}

/// The response to a goal, with variables of these kinds, whose responses have no merge. It is `Maybe` and has no values and no
/// constraints. rustc: `EvalCtxt::bail_with_ambiguity`.
///
/// `Full` is returned if one of the interner's tables is full, and `Memory` if there are more variables than numbers for them or
/// memory is refused.
pub fn bail_with_ambiguity(
    alloc: Global,
    cx: &mut Interner,
    variables: &[CanonicalVarKind],
    responses: &[CanonicalResponse],
) -> Result<CanonicalResponse, Fault>
    ensures grew { Grew cx.old cx.new }
    ensures variables { IfOk result (λ r. r.variables.items ≡ variables.now) }
    ensures certainty { IfOk result (λ r. r.certainty ≡ unsettled (all_joined (map (λ x. x.certainty) responses.now))) }
    ensures constraints { IfOk result (λ r. r.region_constraints.items ≡ []) }
    ensures held { IfOk result (λ r. ArgsHeld cx.new.entries r.var_values.items) }
    ensures values { IfOk result (λ r. values_of cx.new.entries r.var_values.items ≡ variables_from 0 variables.now) }
    ensures full { result ≡ Err Fault.Full → IsFull cx.new.entries cx.new.limit }
{
    let certainty = ambiguous_certainty(responses);
    let variables = Vec::from_slice(alloc, variables)?;
    response_no_constraints_raw(alloc, cx, variables, certainty)
}

/// The result of a goal whose responses have no merge. Without responses the goal has no solution. Otherwise it is the response
/// of `bail_with_ambiguity`. rustc: `EvalCtxt::flounder`.
pub fn flounder(
    alloc: Global,
    cx: &mut Interner,
    variables: &[CanonicalVarKind],
    responses: &[CanonicalResponse],
) -> Result<Option<CanonicalResponse>, Fault>
    ensures grew { Grew cx.old cx.new }
    ensures none { IfOk result (λ answer. answer ≡ None ↔ (responses.now ≡ [])) }
    ensures variables { IfOk result (λ answer. IfSome answer (λ r. r.variables.items ≡ variables.now)) }
    ensures certainty { IfOk result (λ answer. IfSome answer (λ r. r.certainty ≡ unsettled (all_joined (map (λ x. x.certainty) responses.now)))) }
    ensures constraints { IfOk result (λ answer. IfSome answer (λ r. r.region_constraints.items ≡ [])) }
    ensures held { IfOk result (λ answer. IfSome answer (λ r. ArgsHeld cx.new.entries r.var_values.items)) }
    ensures values { IfOk result (λ answer. IfSome answer (λ r. values_of cx.new.entries r.var_values.items ≡ variables_from 0 variables.now)) }
    ensures full { result ≡ Err Fault.Full → IsFull cx.new.entries cx.new.limit }
{
    if responses.is_empty() {
        return Ok(None);
    }
    let answer = bail_with_ambiguity(alloc, cx, variables, responses)?;
    Ok(Some(answer))
}
