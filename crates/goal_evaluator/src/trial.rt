//! The start of a candidate's evaluation, and its evaluation anew with all replies so far.
ghost use Rattle.type_terms.specs.Growth.{GrewOrFull};
ghost use Rattle.std.specs.Prelude.{◌≡◌, ◌*◌, length, map, List, [], ◌∷◌, ◌++◌, OnOk, IfOk, IfErr, Option, Some, None, option_map, Err};
ghost use Rattle.type_terms.specs.Promised.Handles.{Entry, ArgHeld, ArgsHeld, arg_trees};
ghost use Rattle.infer_table.specs.Content.{Ready, IsHeldConstraint, AllConstraintsHeld};
ghost use Rattle.infer_table.specs.Unification.{table_trees, unified};
ghost use Rattle.infer_table.specs.Goals.{GoalHeld, goal_trees};
ghost use Rattle.infer_table.specs.Values.{value_of, values_of, filled_values, goal_filled};
ghost use Rattle.infer_table.specs.Applied.{with_constraints};
ghost use Rattle.infer_table.specs.Applying.{next_unknown, with_unknown};
ghost use Rattle.infer_table.specs.Responses.{answer_trees};
ghost use Rattle.goal_evaluator.specs.Lists.{Every};
ghost use Rattle.goal_evaluator.specs.Readings.{EquationHeld, SpecHeld, ResultHeld};
ghost use Rattle.goal_evaluator.specs.Context.{IsReadyContext, NestedHeld, nested_goal};
ghost use Rattle.goal_evaluator.specs.Ends.{AnswerHeld};
ghost use Rattle.goal_evaluator.specs.Evaluating.{goals_trees, replies_trees};
ghost use Rattle.goal_evaluator.specs.Frames.{begun, fresh, equate, unknowns, with_unknowns, solved};
ghost use Rattle.goal_evaluator.specs.Shortages.{EvalGrewOrFull};
ghost use Rattle.goal_evaluator.specs.Runs.{candidate_of, nested_of, equations_filled, equation_filled, constraints_filled, premises_filled};
ghost use Rattle.goal_evaluator.specs.Trial.{asked_in_rounds, candidate, equations_trees, premises_trees, spec_trees};
ghost use Rattle.goal_evaluator.specs.TrialEnds.{trial_trees, IsTried, CandidateEnds};
ghost use Rattle.goal_evaluator.specs.OpenCandidates.{StandsAt, CandidateHeld, AsksAtMost};
ghost use Rattle.goal_evaluator.specs.declared.TheConstants.{FIXPOINT_STEP_LIMIT};

use crate::candidate::CandidateSpec;
use crate::context::{EvalCtxt, EvalStep};
use crate::error::EvalError;
use crate::goal::GoalSource;
use crate::resuming::{CandidateStep, Evaluation};
use infer_table::canonical::CanonicalVarKind;
use infer_table::goal::Goal;
use infer_table::infer_ctxt::InferCtxt;
use infer_table::input::CanonicalInput;
use infer_table::instantiate::{CanonicalInstantiator, instantiate_with_values};
use infer_table::response::CanonicalResponse;
use infer_table::terms::{Equation, RegionConstraint};
use infer_table::unknowns::next_values;
use std::alloc::Global;
use std::collections::VecDeque;
use term_folds::foldable::TypeFoldable;
use type_terms::Fault;
use type_terms::interner::Interner;
use type_terms::kinds::GenericArgKind;

/// A candidate whose equations hold.
#[derive(Drop)]
struct Trial {
    table: InferCtxt,
    /// The values of the goal's variables.
    own: Vec<GenericArgKind>,
    /// The values of the variables in the candidate's terms: those of the goal, then the candidate's own.
    values: Vec<GenericArgKind>,
}

/// Evaluates a candidate of a goal anew, with the replies to its nested goals so far. If there is no reply left, it returns the
/// next nested goal.
///
/// The table is new. The goal's variables become inference variables, or placeholders if their kind is one of placeholders. Then
/// the candidate's own variables become inference variables. Its equations are made to hold in order, its region constraints are
/// recorded, and its nested goals are evaluated in rounds. The response is at most as certain as the candidate states.
///
/// `NoSolution` is returned if an equation or a nested goal has no solution. A shortage is a fault and never means `NoSolution`.
/// `Full` is returned only if some kind of term has reached the interner's limit, and `Memory` also if there is no number for a
/// variable.
///
/// The result depends only on the terms, not on their handles. rustc: `EvalCtxt::probe_trait_candidate`.
pub fn evaluate_candidate(
    alloc: Global,
    cx: &mut Interner,
    input: &CanonicalInput,
    spec: &CandidateSpec,
    replies: &[Option<CanonicalResponse>],
) -> Result<EvalStep<CanonicalResponse>, EvalError>
    requires spec { SpecHeld cx.old.entries spec.now }
    requires replies { Every (ResultHeld cx.old.entries) replies.now }
    ensures terms { EvalGrewOrFull cx.old cx.new result }
    ensures held { IfOk result (λ s. AnswerHeld cx.new.entries s) }
    ensures runs { CandidateEnds cx.new.entries (candidate_of cx.old.entries input.now spec.now replies.now) result }
{
    let trial = try_candidate(alloc, cx, input, spec)?;
    evaluate_nested(alloc, cx, trial, input, spec, replies)
}

/// The state after the candidate's equations and region constraints.
fn try_candidate(
    alloc: Global,
    cx: &mut Interner,
    input: &CanonicalInput,
    spec: &CandidateSpec,
) -> Result<Trial, EvalError>
    requires spec { SpecHeld cx.old.entries spec.now }
    ensures terms { EvalGrewOrFull cx.old cx.new result }
    ensures ready { IfOk result (λ t. Ready cx.new.entries t.table) }
    ensures own { IfOk result (λ t. ArgsHeld cx.new.entries t.own.items) }
    ensures values { IfOk result (λ t. ArgsHeld cx.new.entries t.values.items) }
    ensures tried { IfOk result
        (λ t. IsTried input.now.variables.items (spec_trees cx.old.entries spec.now) (trial_trees cx.new.entries input.now.variables.items t)) }
    ensures refused { result ≡ Err EvalError.NoSolution →
        equate (fresh (begun input.now.variables.items) spec.now.variables.items) (equations_trees cx.old.entries spec.now.equations.items) ≡ None }
{
    let mut trial = begin(alloc, cx, input, &spec.variables)?;
    equate_all(alloc, cx, &mut trial.table, &trial.values, &spec.equations)?;
    record_constraints(
        alloc,
        cx,
        &mut trial.table,
        &trial.values,
        &spec.region_constraints,
    )?;
    Ok(trial)
}

/// A new table, with values for the variables of the goal and of the candidate.
fn begin(
    alloc: Global,
    cx: &mut Interner,
    input: &CanonicalInput,
    variables: &[CanonicalVarKind],
) -> Result<Trial, Fault>
    ensures terms { GrewOrFull cx.old cx.new result }
    ensures ready { IfOk result (λ t. Ready cx.new.entries t.table) }
    ensures own { IfOk result (λ t. ArgsHeld cx.new.entries t.own.items) }
    ensures values { IfOk result (λ t. ArgsHeld cx.new.entries t.values.items) }
    ensures is { IfOk result (λ t. trial_trees cx.new.entries input.now.variables.items t ≡ fresh (begun input.now.variables.items) variables.now) }
{
    let mut table = InferCtxt::new(alloc);
    let own = next_values(alloc, cx, &mut table, &input.variables)?;
    cx.lawful();
    let mut values = Vec::from_slice(alloc, &own)?;
    add_unknowns(cx, &mut table, variables, &mut values)?;
    Ok(Trial { table, own, values })
}

/// Adds a new inference variable of each kind to these values.
fn add_unknowns(
    cx: &mut Interner,
    table: &mut InferCtxt,
    kinds: &[CanonicalVarKind],
    values: &mut Vec<GenericArgKind>,
) -> Result<(), Fault>
    requires ready { Ready cx.old.entries table.old }
    requires held { ArgsHeld cx.old.entries values.old.items }
    ensures ready { Ready cx.new.entries table.new }
    ensures terms { GrewOrFull cx.old cx.new result }
    ensures held { OnOk result (ArgsHeld cx.new.entries values.new.items) }
    ensures values { OnOk result (values_of cx.new.entries values.new.items
        ≡ values_of cx.old.entries values.old.items ++ unknowns (table_trees cx.old.entries table.old) kinds.now) }
    ensures made { OnOk result (table_trees cx.new.entries table.new ≡ with_unknowns (table_trees cx.old.entries table.old) kinds.now) }
{
    for kind in kinds {
        let unknown = new_unknown(cx, table, *kind)?;
        values.push(unknown)?;
    }
    Ok(())
}

/// A new inference variable of this kind. For a kind of placeholders it is a variable for a type or a constant.
fn new_unknown(
    cx: &mut Interner,
    table: &mut InferCtxt,
    kind: CanonicalVarKind,
) -> Result<GenericArgKind, Fault>
    requires ready { Ready cx.old.entries table.old }
    ensures ready { Ready cx.new.entries table.new }
    ensures terms { GrewOrFull cx.old cx.new result }
    ensures is { IfOk result (λ a. (es : List Entry) → value_of cx.new.entries a ≡ next_unknown (table_trees es table.old) kind) }
    ensures held { IfOk result (λ a. ArgHeld cx.new.entries a) }
    ensures made { OnOk result ((es : List Entry) → table_trees es table.new ≡ with_unknown (table_trees es table.old) kind) }
{
    match kind {
        CanonicalVarKind::Ty | CanonicalVarKind::PlaceholderTy => {
            let ty = table.next_ty_var(cx)?;
            Ok(GenericArgKind::Ty(ty))
        }
        CanonicalVarKind::Const | CanonicalVarKind::PlaceholderConst => {
            let ct = table.next_const_var(cx)?;
            Ok(GenericArgKind::Const(ct))
        }
        CanonicalVarKind::Region => {
            let region = table.next_region_var()?;
            Ok(GenericArgKind::Lifetime(region))
        }
    }
}

/// Makes each equation hold, in order, with the values in place of canonical variables.
fn equate_all(
    alloc: Global,
    cx: &mut Interner,
    table: &mut InferCtxt,
    values: &[GenericArgKind],
    equations: &[Equation],
) -> Result<(), EvalError>
    requires ready { Ready cx.old.entries table.old }
    requires values { ArgsHeld cx.old.entries values.now }
    requires equations { Every (EquationHeld cx.old.entries) equations.now }
    ensures ready { Ready cx.new.entries table.new }
    ensures terms { EvalGrewOrFull cx.old cx.new result }
    ensures solved { OnOk result (solved (table_trees cx.old.entries table.old) (equations_filled cx.old.entries values.now equations.now)
        ≡ Some (table_trees cx.new.entries table.new)) }
    ensures refused { result ≡ Err EvalError.NoSolution
        → solved (table_trees cx.old.entries table.old) (equations_filled cx.old.entries values.now equations.now) ≡ None }
{
    for equation in equations {
        equate(alloc, cx, table, values, equation)?;
    }
    Ok(())
}

/// Makes an equation hold, with the values in place of canonical variables.
fn equate(
    alloc: Global,
    cx: &mut Interner,
    table: &mut InferCtxt,
    values: &[GenericArgKind],
    equation: &Equation,
) -> Result<(), EvalError>
    requires ready { Ready cx.old.entries table.old }
    requires values { ArgsHeld cx.old.entries values.now }
    requires equation { EquationHeld cx.old.entries equation.now }
    ensures ready { Ready cx.new.entries table.new }
    ensures terms { EvalGrewOrFull cx.old cx.new result }
    ensures solved { OnOk result (unified (table_trees cx.old.entries table.old) (equation_filled cx.old.entries values.now equation.now)
        ≡ Some (table_trees cx.new.entries table.new)) }
    ensures refused { result ≡ Err EvalError.NoSolution
        → unified (table_trees cx.old.entries table.old) (equation_filled cx.old.entries values.now equation.now) ≡ None }
{
    let left = fill(alloc, cx, values, equation.left)?;
    let right = fill(alloc, cx, values, equation.right)?;
    match table.eq(cx, left, right) {
        Ok(()) => Ok(()),
        Err(error) => Err(EvalError::from(error)),
    }
}

/// Replaces the canonical variables of the term by the values.
fn fill(
    alloc: Global,
    cx: &mut Interner,
    values: &[GenericArgKind],
    term: GenericArgKind,
) -> Result<GenericArgKind, Fault>
    requires values { ArgsHeld cx.old.entries values.now }
    requires term { ArgHeld cx.old.entries term }
    ensures terms { GrewOrFull cx.old cx.new result }
    ensures held { IfOk result (λ a. ArgHeld cx.new.entries a) }
    ensures filled { IfOk result (λ a. arg_trees cx.new.entries a ≡ filled_values (values_of cx.old.entries values.now) (arg_trees cx.old.entries term)) }
{
    term.fold_with(alloc, cx, &CanonicalInstantiator { values })
}

/// Records each constraint, in order and without duplicates, with the values in place of canonical variables.
fn record_constraints(
    alloc: Global,
    cx: &mut Interner,
    table: &mut InferCtxt,
    values: &[GenericArgKind],
    constraints: &[RegionConstraint],
) -> Result<(), Fault>
    requires ready { Ready cx.old.entries table.old }
    requires values { ArgsHeld cx.old.entries values.now }
    requires constraints { AllConstraintsHeld cx.old.entries constraints.now }
    ensures ready { Ready cx.new.entries table.new }
    ensures terms { GrewOrFull cx.old cx.new result }
    ensures recorded { OnOk result (table_trees cx.new.entries table.new
        ≡ with_constraints (constraints_filled cx.old.entries values.now constraints.now) (table_trees cx.old.entries table.old)) }
{
    for constraint in constraints {
        record_constraint(alloc, cx, table, values, *constraint)?;
    }
    Ok(())
}

/// Records a constraint, with the values in place of canonical variables.
fn record_constraint(
    alloc: Global,
    cx: &mut Interner,
    table: &mut InferCtxt,
    values: &[GenericArgKind],
    constraint: RegionConstraint,
) -> Result<(), Fault>
    requires ready { Ready cx.old.entries table.old }
    requires values { ArgsHeld cx.old.entries values.now }
    requires constraint { IsHeldConstraint cx.old.entries constraint }
    ensures ready { Ready cx.new.entries table.new }
    ensures terms { GrewOrFull cx.old cx.new result }
    ensures recorded { OnOk result (table_trees cx.new.entries table.new
        ≡ with_constraints (constraints_filled cx.old.entries values.now (constraint ∷ [])) (table_trees cx.old.entries table.old)) }
{
    let constraint = constraint.fold_with(alloc, cx, &CanonicalInstantiator { values })?;
    cx.lawful();
    table.register_region_constraint(constraint)
}

/// Evaluates the nested goals in the candidate's table.
fn evaluate_nested(
    alloc: Global,
    cx: &mut Interner,
    trial: Trial,
    input: &CanonicalInput,
    spec: &CandidateSpec,
    replies: &[Option<CanonicalResponse>],
) -> Result<EvalStep<CanonicalResponse>, EvalError>
    requires ready { Ready cx.old.entries trial.table }
    requires own { ArgsHeld cx.old.entries trial.own.items }
    requires values { ArgsHeld cx.old.entries trial.values.items }
    requires goals { Every (λ n. GoalHeld cx.old.entries n.1) spec.now.nested_goals.items }
    requires replies { Every (ResultHeld cx.old.entries) replies.now }
    ensures terms { EvalGrewOrFull cx.old cx.new result }
    ensures held { IfOk result (λ s. AnswerHeld cx.new.entries s) }
    ensures runs { CandidateEnds cx.new.entries (nested_of cx.old.entries input.now spec.now trial replies.now) result }
{
    let Trial { table, own, values } = trial;
    let variables = Vec::from_slice(alloc, &input.variables)?;
    let mut context = EvalCtxt::new(table, input.mode, variables, own);
    add_goals(alloc, cx, &mut context, &values, &spec.nested_goals)?;
    add_replies(alloc, &mut context, replies)?;
    context.evaluate_added_goals_and_make_canonical_response(cx, spec.certainty)
}

/// Adds each goal to the context, with the values in place of canonical variables.
fn add_goals(
    alloc: Global,
    cx: &mut Interner,
    context: &mut EvalCtxt,
    values: &[GenericArgKind],
    goals: &[(GoalSource, Goal)],
) -> Result<(), Fault>
    requires ready { IsReadyContext cx.old.entries context.old }
    requires values { ArgsHeld cx.old.entries values.now }
    requires goals { Every (λ n. GoalHeld cx.old.entries n.1) goals.now }
    ensures terms { GrewOrFull cx.old cx.new result }
    ensures ready { OnOk result (IsReadyContext cx.new.entries context.new) }
    ensures rest { OnOk result (context.new ≡ record context.old { nested = context.new.nested }) }
    ensures added { OnOk result (goals_trees cx.new.entries context.new.nested
        ≡ goals_trees cx.old.entries context.old.nested ++ premises_filled cx.old.entries values.now goals.now) }
{
    for nested in goals {
        let goal = instantiate_with_values(alloc, cx, &nested.1, values)?;
        context.add_goal(nested.0, goal)?;
    }
    Ok(())
}

/// Adds copies of the replies to the context.
fn add_replies(
    alloc: Global,
    context: &mut EvalCtxt,
    replies: &[Option<CanonicalResponse>],
) -> Result<(), Fault>
    ensures rest { OnOk result (context.new ≡ record context.old { replies = context.new.replies; capacity = context.new.capacity }) }
    ensures added { OnOk result ((es : List Entry)
        → replies_trees es context.new.replies ≡ replies_trees es context.old.replies ++ replies_trees es replies.now) }
    ensures held { OnOk result ((es : List Entry) → Every (ResultHeld es) context.old.replies → Every (ResultHeld es) replies.now
        → Every (ResultHeld es) context.new.replies) }
    ensures fault { IfErr result (λ e. e ≡ Fault.Memory) }
{
    for reply in replies {
        let copy = copy_of(alloc, reply)?;
        context.make_room()?;
        context.reply(copy);
    }
    Ok(())
}

fn copy_of(
    alloc: Global,
    reply: &Option<CanonicalResponse>,
) -> Result<Option<CanonicalResponse>, Fault>
    ensures same { IfOk result (λ r. (es : List Entry) → option_map (answer_trees es) r ≡ option_map (answer_trees es) reply.now) }
    ensures held { IfOk result (λ r. (es : List Entry) → ResultHeld es reply.now → ResultHeld es r) }
    ensures fault { IfErr result (λ e. e ≡ Fault.Memory) }
{
    match reply {
        Some(response) => {
            let variables = Vec::from_slice(alloc, &response.variables)?;
            let var_values = Vec::from_slice(alloc, &response.var_values)?;
            let region_constraints = Vec::from_slice(alloc, &response.region_constraints)?;
            Ok(Some(CanonicalResponse {
                variables,
                certainty: response.certainty,
                var_values,
                region_constraints,
            }))
        }
        None => Ok(None),
    }
}

/// Starts to evaluate a candidate of a goal, up to its first nested goal or its end. `BoxedCandidate::resume` continues with each
/// response.
///
/// The steps and errors are those of `evaluate_candidate` without replies. At most `FIXPOINT_STEP_LIMIT` responses are requested
/// for each of the candidate's nested goals.
pub fn begin_candidate(
    alloc: Global,
    cx: &mut Interner,
    input: &CanonicalInput,
    spec: &CandidateSpec,
) -> Result<CandidateStep, EvalError>
    requires spec { SpecHeld cx.old.entries spec.now }
    ensures terms { EvalGrewOrFull cx.old cx.new result }
    ensures held { IfOk result (λ s. CandidateHeld cx.new.entries s) }
    ensures stands { StandsAt cx.new.entries (candidate input.now.mode (begun input.now.variables.items) (spec_trees cx.old.entries spec.now)) result }
    ensures most { IfOk result (AsksAtMost (FIXPOINT_STEP_LIMIT * length spec.now.nested_goals.items)) }
{
    let trial = try_candidate(alloc, cx, input, spec)?;
    open_nested(alloc, cx, trial, input, spec)
}

/// Starts to evaluate the nested goals in the candidate's table.
fn open_nested(
    alloc: Global,
    cx: &mut Interner,
    trial: Trial,
    input: &CanonicalInput,
    spec: &CandidateSpec,
) -> Result<CandidateStep, EvalError>
    requires ready { Ready cx.old.entries trial.table }
    requires own { ArgsHeld cx.old.entries trial.own.items }
    requires values { ArgsHeld cx.old.entries trial.values.items }
    requires goals { Every (λ n. GoalHeld cx.old.entries n.1) spec.now.nested_goals.items }
    ensures terms { EvalGrewOrFull cx.old cx.new result }
    ensures held { IfOk result (λ s. CandidateHeld cx.new.entries s) }
    ensures stands { StandsAt cx.new.entries (asked_in_rounds input.now.mode (premises_trees cx.old.entries spec.now.nested_goals.items) spec.now.certainty
        (trial_trees cx.old.entries input.now.variables.items trial)) result }
    ensures most { IfOk result (AsksAtMost (FIXPOINT_STEP_LIMIT * length spec.now.nested_goals.items)) }
{
    let Trial { table, own, values } = trial;
    let variables = Vec::from_slice(alloc, &input.variables)?;
    let goals = fill_goals(alloc, cx, &values, &spec.nested_goals)?;
    let evaluation = Evaluation {
        mode: input.mode,
        table,
        variables,
        own,
        certainty: spec.certainty,
    };
    evaluation.begin_rounds(alloc, cx, goals)
}

/// Replaces the canonical variables of the goals by the values.
fn fill_goals(
    alloc: Global,
    cx: &mut Interner,
    values: &[GenericArgKind],
    goals: &[(GoalSource, Goal)],
) -> Result<VecDeque<(GoalSource, Goal)>, Fault>
    requires values { ArgsHeld cx.old.entries values.now }
    requires goals { Every (λ n. GoalHeld cx.old.entries n.1) goals.now }
    ensures terms { GrewOrFull cx.old cx.new result }
    ensures held { IfOk result (λ gs. NestedHeld cx.new.entries (map nested_goal gs.items)) }
    ensures filled { IfOk result (λ gs. premises_trees cx.new.entries gs.items ≡ premises_filled cx.old.entries values.now goals.now) }
{
    let mut filled = VecDeque::new(alloc);
    for premise in goals {
        let goal = fill_goal(alloc, cx, values, &premise.1)?;
        filled.push_back((premise.0, goal))?;
    }
    Ok(filled)
}

/// Replaces the canonical variables of the goal by the values. Without values it is a copy of the goal.
fn fill_goal(
    alloc: Global,
    cx: &mut Interner,
    values: &[GenericArgKind],
    goal: &Goal,
) -> Result<Goal, Fault>
    requires values { ArgsHeld cx.old.entries values.now }
    requires goal { GoalHeld cx.old.entries goal.now }
    ensures terms { GrewOrFull cx.old cx.new result }
    ensures held { IfOk result (λ g. GoalHeld cx.new.entries g) }
    ensures filled { IfOk result (λ g. goal_trees cx.new.entries g ≡ goal_filled (values_of cx.old.entries values.now) (goal_trees cx.old.entries goal.now)) }
{
    if values.is_empty() {
        return Ok(goal.clone()?);
    }
    instantiate_with_values(alloc, cx, goal, values)
}
