//! Applies a response to the table of its goal.

ghost use Rattle.std.specs.Prelude.{◌≡◌, Some, None, OnOk, OnErr, Err};
ghost use Rattle.type_terms.specs.Promised.Handles.{Entry, ArgsHeld};
ghost use Rattle.infer_table.specs.Content.{Ready, Grows, content};
ghost use Rattle.infer_table.specs.Solutions.{Assignment, Solves};
ghost use Rattle.infer_table.specs.Unification.{table_trees};
ghost use Rattle.infer_table.specs.Leaves.{AreLeaves};
ghost use Rattle.infer_table.specs.Shortages.{EqGrewOrFull};
ghost use Rattle.infer_table.specs.Responses.{ResponseHeld, answer_trees};
ghost use Rattle.goal_evaluator.specs.TableAnswers.{has_values, IsWellFormed};
ghost use Rattle.solver_graph.specs.Roots.{left_by_answer, AtAgreeingSolutions, SolutionGoesOn};
ghost use Rattle.solver_graph.specs.Changes.{changed};

use goal_evaluator::apply::instantiate_and_apply_query_response;
use goal_evaluator::{HasChanged, have_same_sorts, is_identity_modulo_regions};
use infer_table::certainty::EqError;
use infer_table::infer_ctxt::InferCtxt;
use infer_table::response::CanonicalResponse;
use std::alloc::Global;
use type_terms::interner::Interner;
use type_terms::kinds::GenericArgKind;

/// Applies a response to the table of a goal with these values.
///
/// A response that does not fit the goal leaves the table unchanged. It is not excluded here: of the responses of a search only
/// two facts are known, that they are well-formed and that solutions agree with them.
///
/// After an error the table is unchanged.
pub(crate) fn apply_answer(
    alloc: Global,
    cx: &mut Interner,
    table: &mut InferCtxt,
    values: &[GenericArgKind],
    answer: &CanonicalResponse,
) -> Result<(), EqError>
    requires values { ArgsHeld cx.old.entries values.now }
    requires leaves { AreLeaves cx.old.entries values.now }
    requires answer { ResponseHeld cx.old.entries answer.now }
    requires well_formed { IsWellFormed (answer_trees cx.old.entries answer.now) }
    requires ready { Ready cx.old.entries table.old }
    ensures ready { Ready cx.new.entries table.new }
    ensures grows { Grows table.old table.new }
    ensures terms { EqGrewOrFull cx.old cx.new result }
    ensures refused { OnErr result (table.new ≡ table.old) }

    // The resulting table, and whether there is one, depends only on the terms.
    ensures exact { OnOk result (left_by_answer cx.old.entries table.old values.now answer.now ≡ Some (table_trees cx.new.entries table.new)) }
    ensures refusal { result ≡ Err EqError.NoSolution → left_by_answer cx.old.entries table.old values.now answer.now ≡ None }

    // Solutions of the resulting table are solutions of the earlier one. An earlier solution that agrees with the response
    // extends to one of the resulting table, so the call does not return `NoSolution`.
    ensures narrows { OnOk result ((s : Assignment) → Solves s (content cx.new.entries table.new.values) → Solves s (content cx.old.entries table.old.values)) }
    ensures kept { OnOk result (AtAgreeingSolutions cx.old.entries table.old values.now answer.now (λ s. SolutionGoesOn s table.old cx.new.entries table.new)) }
    ensures accepted { result ≡ Err EqError.NoSolution → AtAgreeingSolutions cx.old.entries table.old values.now answer.now (λ s. ⊥) }

// `Full` is returned only if some kind of term has reached the interner's limit.
{
    cx.lawful();
    if !have_same_sorts(values, &answer.var_values) {
        return Ok(());
    }
    instantiate_and_apply_query_response(alloc, cx, table, values, answer)
}

/// Whether the response has values of types or constants.
pub(crate) fn has_changed(cx: &Interner, answer: &CanonicalResponse) -> HasChanged
    requires held { ResponseHeld cx.now.entries answer.now }
    requires well_formed { IsWellFormed (answer_trees cx.now.entries answer.now) }
    ensures { result ≡ changed (has_values (answer_trees cx.now.entries answer.now)) }
{
    if is_identity_modulo_regions(cx, &answer.var_values) {
        HasChanged::No
    } else {
        HasChanged::Yes
    }
}
