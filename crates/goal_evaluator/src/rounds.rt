//! The rounds that evaluate the nested goals of a context, with the replies so far.
ghost use Rattle.type_terms.specs.Growth.{GrewOrFull};
ghost use Rattle.std.specs.Prelude.{◌≡◌, not, true, List, [], map, OnOk, IfOk, Ok, Err, Some, None};
ghost use Rattle.type_terms.specs.Promised.Trees.{is_sort};
ghost use Rattle.type_terms.specs.Promised.Handles.{Entry, ArgsHeld};
ghost use Rattle.infer_table.specs.Content.{Ready, Grows};
ghost use Rattle.goal_evaluator.specs.Lists.{Every};
ghost use Rattle.goal_evaluator.specs.Readings.{ResultHeld};
ghost use Rattle.goal_evaluator.specs.Responses.{is_identity_modulo_regions};
ghost use Rattle.infer_table.specs.Certainties.{is_certain};
ghost use Rattle.goal_evaluator.specs.Runs.{round_of, rounds_of, with_response};
ghost use Rattle.infer_table.specs.Unification.{table_trees};
ghost use Rattle.infer_table.specs.Goals.{GoalHeld};
ghost use Rattle.infer_table.specs.Responses.{ResponseHeld, answer_trees};
ghost use Rattle.infer_table.specs.Answers.{have_same_sorts, is_answer_to};
ghost use Rattle.goal_evaluator.specs.Context.{GoalIsHeld, NestedHeld, nested_goal};
ghost use Rattle.goal_evaluator.specs.Shortages.{EvalGrewOrFull};
ghost use Rattle.goal_evaluator.specs.Evaluating.{IsAskedBy, values_asked, certainty_with};
ghost use Rattle.goal_evaluator.specs.Steps.{RoundEnds, RoundsEnd, RoundHeld, RoundsHeld};
ghost use Rattle.infer_table.specs.Values.{sort_of_arg, values_of};

use crate::apply::instantiate_and_apply_query_response;
use crate::error::EvalError;
use crate::goal::GoalSource;
use crate::response::is_identity_modulo_regions;
use infer_table::certainty::{Certainty, MaybeCause, TypingMode};
use infer_table::goal::Goal;
use infer_table::infer_ctxt::InferCtxt;
use infer_table::input::{CanonicalInput, Canonicalized, canonicalize_goal};
use infer_table::response::CanonicalResponse;
use std::alloc::Global;
use type_terms::Fault;
use type_terms::interner::Interner;
use type_terms::kinds::GenericArgKind;

/// How a round ends.
#[derive(Drop)]
pub(crate) enum RoundStep<'a> {
    /// All goals were evaluated: whether a response had values of types or constants, the joined certainty of the responses to
    /// the goals that stay, and the unused replies.
    Ended(bool, Certainty, &'a [Option<CanonicalResponse>]),
    /// There is no reply to this nested goal yet.
    Waits(CanonicalInput, GoalSource),
}

/// How all rounds end.
#[derive(Drop)]
pub(crate) enum RoundsStep {
    /// The remaining goals, and how certain it is that all goals hold.
    Ended(Vec<(GoalSource, Goal)>, Certainty),
    /// There is no reply to this nested goal yet.
    Waits(CanonicalInput, GoalSource),
}

/// The canonical form of a nested goal, and the values of its variables.
pub(crate) fn question_for(
    alloc: Global,
    cx: &mut Interner,
    mode: TypingMode,
    table: &InferCtxt,
    nested: &(GoalSource, Goal),
) -> Result<Canonicalized, Fault>
    requires held { GoalIsHeld cx.old.entries (nested_goal nested.now) }
    requires ready { Ready cx.old.entries table.now }
    ensures ready { Ready cx.new.entries table.now }
    ensures terms { GrewOrFull cx.old cx.new result }
    ensures held { IfOk result (λ r. ArgsHeld cx.new.entries r.values.items) }
    ensures asked { IfOk result (λ r. GoalHeld cx.new.entries r.input.goal) }
    ensures question { IfOk result (λ r. IsAskedBy mode cx.old.entries table.now (nested_goal nested.now) cx.new.entries r.input) }
    ensures values { IfOk result (λ r. values_of cx.new.entries r.values.items ≡ values_asked cx.old.entries table.now (nested_goal nested.now)) }
{
    let asked = canonicalize_goal(alloc, cx, table, mode, &nested.1)?;
    cx.lawful();
    Ok(asked)
}

/// Whether both are types, both constants, or both lifetimes.
fn is_same_sort(left: GenericArgKind, right: GenericArgKind) -> bool
    ensures { result ≡ is_sort (sort_of_arg left) (sort_of_arg right) }
{
    match left {
        GenericArgKind::Lifetime(_) => matches!(right, GenericArgKind::Lifetime(_)),
        GenericArgKind::Ty(_) => matches!(right, GenericArgKind::Ty(_)),
        GenericArgKind::Const(_) => matches!(right, GenericArgKind::Const(_)),
    }
}

/// Whether the lists are equally long, and the values at each index are of the same kind.
pub fn have_same_sorts(values: &[GenericArgKind], others: &[GenericArgKind]) -> bool
    ensures { (es : List Entry) → result ≡ have_same_sorts (values_of es values.now) (values_of es others.now) }
{
    let [value, values @ ..] = values else {
        return others.is_empty();
    };
    let [other, others @ ..] = others else {
        return false;
    };
    is_same_sort(*value, *other) && have_same_sorts(values, others)
}

/// Whether the response fits a goal with these values: it has a value for each of them, of the same kind.
fn is_answer_to(values: &[GenericArgKind], response: &CanonicalResponse) -> bool
    ensures { (es : List Entry) → result ≡ is_answer_to (values_of es values.now) (answer_trees es response.now) }
{
    have_same_sorts(values, &response.var_values)
}

/// Whether the goal has no variables, and the response has no part but its certainty.
fn is_bare(values: &[GenericArgKind], response: &CanonicalResponse) -> bool
    ensures own { result ≡ true → values.now ≡ [] }
    ensures variables { result ≡ true → response.now.variables.items ≡ [] }
    ensures values { result ≡ true → response.now.var_values.items ≡ [] }
    ensures constraints { result ≡ true → response.now.region_constraints.items ≡ [] }
{
    values.is_empty()
        && response.variables.is_empty()
        && response.var_values.is_empty()
        && response.region_constraints.is_empty()
}

/// Applies the response to a goal with these values. That of a goal without variables mostly changes nothing.
///
/// A response that does not fit the goal leaves the table unchanged. The search never gives such a response, but this is not
/// proved at this level: of the search's responses only that they are well-formed is known here.
pub(crate) fn apply_response(
    alloc: Global,
    cx: &mut Interner,
    table: &mut InferCtxt,
    values: &[GenericArgKind],
    response: &CanonicalResponse,
) -> Result<(), EvalError>
    requires values { ArgsHeld cx.old.entries values.now }
    requires response { ResponseHeld cx.old.entries response.now }
    requires ready { Ready cx.old.entries table.old }
    ensures ready { Ready cx.new.entries table.new }
    ensures grows { Grows table.old table.new }
    ensures terms { EvalGrewOrFull cx.old cx.new result }
    ensures applied { OnOk result (with_response cx.old.entries table.old values.now response.now ≡ Some (table_trees cx.new.entries table.new)) }
    ensures refused { result ≡ Err EvalError.NoSolution → with_response cx.old.entries table.old values.now response.now ≡ None }
{
    if is_bare(values, response) {
        return Ok(());
    }
    if !is_answer_to(values, response) {
        return Ok(());
    }
    match instantiate_and_apply_query_response(alloc, cx, table, values, response) {
        Ok(()) => Ok(()),
        Err(error) => Err(EvalError::from(error)),
    }
}

/// Whether the response has values of types or constants.
pub(crate) fn has_values(cx: &Interner, response: &CanonicalResponse) -> bool
    requires { ArgsHeld cx.now.entries response.now.var_values.items }
    ensures { result ≡ not (is_identity_modulo_regions 0 (values_of cx.now.entries response.now.var_values.items)) }
{
    !is_identity_modulo_regions(cx, &response.var_values)
}

/// Whether it is `Yes`.
pub(crate) fn is_certain(certainty: Certainty) -> bool
    ensures { result ≡ is_certain certainty }
{
    match certainty {
        Certainty::Yes => true,
        Certainty::Maybe(_) => false,
    }
}

/// One round: evaluates each goal in order, with the replies so far. A definite yes drops its goal. The goals that stay are added
/// to `left`.
pub(crate) fn round<'a>(
    cx: &mut Interner,
    mode: TypingMode,
    table: &mut InferCtxt,
    goals: &[(GoalSource, Goal)],
    replies: &'a [Option<CanonicalResponse>],
    left: &mut Vec<(GoalSource, Goal)>,
) -> Result<RoundStep<'a>, EvalError>
    requires ready { Ready cx.old.entries table.old }
    requires goals { NestedHeld cx.old.entries (map nested_goal goals.now) }
    requires replies { Every (ResultHeld cx.old.entries) replies.now }
    requires left { NestedHeld cx.old.entries (map nested_goal left.old.items) }
    ensures ready { Ready cx.new.entries table.new }
    ensures grows { Grows table.old table.new }
    ensures terms { EvalGrewOrFull cx.old cx.new result }
    ensures left { OnOk result (NestedHeld cx.new.entries (map nested_goal left.new.items)) }
    ensures held { IfOk result (λ e. RoundHeld cx.new.entries e) }
    ensures runs { RoundEnds mode cx.new.entries table.new (map nested_goal left.old.items)
        (map nested_goal left.new.items) (round_of mode cx.old.entries goals.now table.old replies.now) result }
{
    let [goal, goals @ ..] = goals else {
        return Ok(RoundStep::Ended(false, Certainty::Yes, replies));
    };
    let alloc = cx.allocator();
    let asked = question_for(alloc, cx, mode, table, goal)?;
    let Canonicalized { input, values } = asked;
    let [reply, replies @ ..] = replies else {
        return Ok(RoundStep::Waits(input, goal.0));
    };
    let Some(response) = reply else {
        return Err(EvalError::NoSolution);
    };
    apply_response(alloc, cx, table, &values, response)?;
    let changed = has_values(cx, response);
    if is_certain(response.certainty) && !changed {
        return round(cx, mode, table, goals, replies, left);
    }
    let kept = goal.clone()?;
    left.push(kept)?;
    let rest = round(cx, mode, table, goals, replies, left)?;
    match rest {
        RoundStep::Ended(more, certainty, replies) => {
            let certainty = response.certainty.and(certainty);
            Ok(RoundStep::Ended(changed || more, certainty, replies))
        }
        RoundStep::Waits(input, source) => Ok(RoundStep::Waits(input, source)),
    }
}

/// At most `limit` rounds, with the replies so far. The last round is one without values of types or constants. After `limit`
/// rounds the certainty is an overflow.
pub(crate) fn rounds(
    cx: &mut Interner,
    mode: TypingMode,
    table: &mut InferCtxt,
    limit: usize,
    goals: Vec<(GoalSource, Goal)>,
    replies: &[Option<CanonicalResponse>],
) -> Result<RoundsStep, EvalError>
    requires ready { Ready cx.old.entries table.old }
    requires goals { NestedHeld cx.old.entries (map nested_goal goals.items) }
    requires replies { Every (ResultHeld cx.old.entries) replies.now }
    ensures ready { Ready cx.new.entries table.new }
    ensures grows { Grows table.old table.new }
    ensures terms { EvalGrewOrFull cx.old cx.new result }
    ensures held { IfOk result (λ e. RoundsHeld cx.new.entries e) }
    ensures runs { RoundsEnd mode cx.new.entries table.new (rounds_of mode limit cx.old.entries goals.items table.old replies.now) result }
{
    if limit == 0 {
        return Ok(RoundsStep::Ended(goals, Certainty::Maybe(MaybeCause::Overflow)));
    }
    let mut left = Vec::new(cx.allocator());
    match round(cx, mode, table, &goals, replies, &mut left)? {
        RoundStep::Waits(input, source) => Ok(RoundsStep::Waits(input, source)),
        RoundStep::Ended(changed, certainty, replies) => {
            if changed {
                return rounds(cx, mode, table, limit - 1, left, replies);
            }
            let certainty = certainty_with(&left, certainty);
            Ok(RoundsStep::Ended(left, certainty))
        }
    }
}

/// How certain it is that all goals hold, if these goals remain and the responses to them have this joined certainty.
fn certainty_with(left: &[(GoalSource, Goal)], certainty: Certainty) -> Certainty
    ensures { result ≡ certainty_with (map nested_goal left.now) certainty }
{
    match left {
        [] => Certainty::Yes,
        [_, ..] => Certainty::Maybe(MaybeCause::Ambiguity).and(certainty),
    }
}
