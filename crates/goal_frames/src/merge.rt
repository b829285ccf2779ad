//! The merge of responses, for handlers.

ghost use Rattle.type_terms.specs.Growth.{GrewOrFull};
ghost use Rattle.std.specs.Prelude.{◌≡◌, IfOk};
ghost use Rattle.infer_table.specs.Responses.{ResponseHeld, answer_trees};
ghost use Rattle.goal_evaluator.specs.Lists.{Every};
ghost use Rattle.goal_evaluator.specs.Readings.{ResultHeld};
ghost use Rattle.goal_evaluator.specs.TableAnswers.{IsWellFormed};
ghost use Rattle.goal_frames.specs.Merges.{merge_of};
ghost use Rattle.goal_evaluator.specs.StepReadings.{result_read};

use goal_evaluator::{flounder, try_merge_candidates};
use infer_table::canonical::CanonicalVarKind;
use infer_table::response::CanonicalResponse;
use std::alloc::Global;
use type_terms::Fault;
use type_terms::interner::Interner;

/// The merge of the responses to a goal with variables of these kinds. If there is no merge, it is an ambiguous response, and if
/// there are no responses, it is `None`. rustc: `EvalCtxt::try_merge_candidates`, then `flounder`.
///
/// `Full` is returned if one of the interner's tables is full, and `Memory` if there are more variables than numbers for them or
/// memory is refused.
pub fn merged(
    alloc: Global,
    cx: &mut Interner,
    variables: &[CanonicalVarKind],
    responses: &[CanonicalResponse],
) -> Result<Option<CanonicalResponse>, Fault>
    requires held { Every (ResponseHeld cx.old.entries) responses.now }
    requires fits { Every (λ r. IsWellFormed (answer_trees cx.old.entries r)) responses.now }
    ensures terms { GrewOrFull cx.old cx.new result }
    ensures held { IfOk result (ResultHeld cx.new.entries) }
    ensures is { IfOk result (λ r. result_read cx.new.entries r ≡ merge_of cx.old.entries variables.now responses.now) }
{
    cx.lawful();
    let merged = try_merge_candidates(alloc, cx, responses)?;
    if let Some((response, _info)) = merged {
        return Ok(Some(response));
    }
    flounder(alloc, cx, variables, responses)
}
