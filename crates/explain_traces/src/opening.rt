//! A candidate, opened over the table of the parent goal.

ghost use Rattle.type_terms.specs.Growth.{Grew};
ghost use Rattle.std.specs.Prelude.{IfOk, IfSome};
ghost use Rattle.type_terms.specs.Promised.Handles.{ArgHeld, ArgsHeld};
ghost use Rattle.infer_table.specs.Content.{Ready, Grows};
ghost use Rattle.infer_table.specs.Goals.{GoalHeld};
ghost use Rattle.goal_evaluator.specs.Lists.{Every};
ghost use Rattle.goal_evaluator.specs.Readings.{EquationHeld, SpecHeld};
ghost use Rattle.explain_traces.specs.Walking.{GoalsHeld};

use goal_evaluator::{CandidateSpec, Goal, GoalSource};
use infer_table::certainty::EqError;
use infer_table::infer_ctxt::InferCtxt;
use infer_table::instantiate::{CanonicalInstantiator, instantiate_with_values};
use infer_table::terms::Equation;
use infer_table::unknowns::next_values;
use std::alloc::Global;
use term_folds::foldable::TypeFoldable;
use type_terms::Fault;
use type_terms::interner::Interner;
use type_terms::kinds::{ConstKind, GenericArgKind, TyKind};

/// The term with these values for its canonical variables.
fn fill(
    alloc: Global,
    cx: &mut Interner,
    values: &[GenericArgKind],
    term: GenericArgKind,
) -> Result<GenericArgKind, Fault>
    requires values { ArgsHeld cx.old.entries values.now }
    requires term { ArgHeld cx.old.entries term }
    ensures grew { Grew cx.old cx.new }
    ensures held { IfOk result (ArgHeld cx.new.entries) }
{
    term.fold_with(alloc, cx, &CanonicalInstantiator { values })
}

/// Equates the sides of an equation, with these values for variables. Returns whether that is possible.
fn equate(
    alloc: Global,
    cx: &mut Interner,
    table: &mut InferCtxt,
    values: &[GenericArgKind],
    equation: &Equation,
) -> Result<bool, Fault>
    requires ready { Ready cx.old.entries table.old }
    requires values { ArgsHeld cx.old.entries values.now }
    requires equation { EquationHeld cx.old.entries equation.now }
    ensures ready { Ready cx.new.entries table.new }
    ensures grows { Grows table.old table.new }
    ensures grew { Grew cx.old cx.new }
{
    let left = fill(alloc, cx, values, equation.left)?;
    let right = fill(alloc, cx, values, equation.right)?;
    match table.eq(cx, left, right) {
        Ok(()) => Ok(true),
        Err(EqError::NoSolution) => Ok(false),
        Err(EqError::Fault(fault)) => Err(fault),
    }
}

/// Equates each pair in turn, up to the first that cannot be equal.
fn equate_all(
    alloc: Global,
    cx: &mut Interner,
    table: &mut InferCtxt,
    values: &[GenericArgKind],
    equations: &[Equation],
) -> Result<bool, Fault>
    requires ready { Ready cx.old.entries table.old }
    requires values { ArgsHeld cx.old.entries values.now }
    requires equations { Every (EquationHeld cx.old.entries) equations.now }
    ensures ready { Ready cx.new.entries table.new }
    ensures grows { Grows table.old table.new }
    ensures grew { Grew cx.old cx.new }
{
    for equation in equations {
        if !equate(alloc, cx, table, values, equation)? {
            return Ok(false);
        }
    }
    Ok(true)
}

/// The values of the variables in a candidate's terms: these for the goal's variables, and after them new variables for its own.
fn values_of(
    alloc: Global,
    cx: &mut Interner,
    table: &mut InferCtxt,
    values: &[GenericArgKind],
    spec: &CandidateSpec,
) -> Result<Vec<GenericArgKind>, Fault>
    requires ready { Ready cx.old.entries table.old }
    requires values { ArgsHeld cx.old.entries values.now }
    ensures ready { Ready cx.new.entries table.new }
    ensures grows { Grows table.old table.new }
    ensures grew { Grew cx.old cx.new }
    ensures held { IfOk result (λ all. ArgsHeld cx.new.entries all.items) }
{
    let own = next_values(alloc, cx, table, &spec.variables)?;
    let mut all = Vec::from_slice(alloc, values)?;
    all.extend_from_slice(&own)?;
    Ok(all)
}

/// The goals with these values for their variables, in order.
fn fill_goals(
    alloc: Global,
    cx: &mut Interner,
    values: &[GenericArgKind],
    goals: &[(GoalSource, Goal)],
) -> Result<Vec<Goal>, Fault>
    requires values { ArgsHeld cx.old.entries values.now }
    requires goals { Every (λ n. GoalHeld cx.old.entries n.1) goals.now }
    ensures grew { Grew cx.old cx.new }
    ensures held { IfOk result (λ gs. GoalsHeld cx.new.entries gs.items) }
{
    let mut filled = Vec::new(alloc);
    for nested in goals {
        let goal = instantiate_with_values(alloc, cx, &nested.1, values)?;
        filled.push(goal)?;
    }
    Ok(filled)
}

/// Makes the equations of a candidate hold over a table in which these values stand for its goal's variables, and returns its nested goals.
/// `None` if the equations cannot hold.
///
/// Afterwards the table has new variables for the candidate's own ones. Constraints on lifetimes are not recorded.
pub(crate) fn open_candidate(
    alloc: Global,
    cx: &mut Interner,
    table: &mut InferCtxt,
    values: &[GenericArgKind],
    spec: &CandidateSpec,
) -> Result<Option<Vec<Goal>>, Fault>
    requires ready { Ready cx.old.entries table.old }
    requires values { ArgsHeld cx.old.entries values.now }
    requires spec { SpecHeld cx.old.entries spec.now }
    ensures ready { Ready cx.new.entries table.new }
    ensures grows { Grows table.old table.new }
    ensures grew { Grew cx.old cx.new }
    ensures held { IfOk result (λ o. IfSome o (λ gs. GoalsHeld cx.new.entries gs.items)) }
{
    let all = values_of(alloc, cx, table, values, spec)?;
    if !equate_all(alloc, cx, table, &all, &spec.equations)? {
        return Ok(None);
    }
    let goals = fill_goals(alloc, cx, &all, &spec.nested_goals)?;
    Ok(Some(goals))
}

/// The term at the end of a leaf's chain of values. A lifetime is its own end.
fn end_of(cx: &Interner, table: &InferCtxt, leaf: GenericArgKind) -> GenericArgKind
    requires leaf { ArgHeld cx.now.entries leaf }
    requires ready { Ready cx.now.entries table.now }
    ensures { ArgHeld cx.now.entries result }
{
    match leaf {
        GenericArgKind::Ty(ty) => GenericArgKind::Ty(table.shallow_resolve(cx, ty)),
        GenericArgKind::Const(constant) => {
            GenericArgKind::Const(table.shallow_resolve_const(cx, constant))
        }
        GenericArgKind::Lifetime(region) => GenericArgKind::Lifetime(region),
    }
}

/// Whether a term is a variable for types or constants.
fn is_variable(cx: &Interner, term: GenericArgKind) -> bool
    requires { ArgHeld cx.now.entries term }
{
    match term {
        GenericArgKind::Ty(ty) => matches!(cx.kind(ty), TyKind::Infer(_)),
        GenericArgKind::Const(constant) => matches!(cx.const_kind(constant), ConstKind::Infer(_)),
        GenericArgKind::Lifetime(_) => false,
    }
}

/// Whether one of these leaves has this end.
fn has_end(cx: &Interner, table: &InferCtxt, leaves: &[GenericArgKind], end: GenericArgKind) -> bool
    requires leaves { ArgsHeld cx.now.entries leaves.now }
    requires ready { Ready cx.now.entries table.now }
{
    let mut left = leaves;
    'leaves: while let Some((leaf, others)) = left.split_first() {
        if end_of(cx, table, *leaf) == end {
            return true;
        }
        left = others;
    }
    false
}

/// Whether a table leaves the variables for types and constants among these leaves open: each is a variable still, and another one than the
/// others.
pub(crate) fn are_unbound(cx: &Interner, table: &InferCtxt, leaves: &[GenericArgKind]) -> bool
    requires leaves { ArgsHeld cx.now.entries leaves.now }
    requires ready { Ready cx.now.entries table.now }
{
    let mut left = leaves;
    'leaves: while let Some((leaf, others)) = left.split_first() {
        if is_variable(cx, *leaf) {
            let end = end_of(cx, table, *leaf);
            if !is_variable(cx, end) || has_end(cx, table, others, end) {
                return false;
            }
        }
        left = others;
    }
    true
}
