//! The replacement of canonical variables by new inference variables.
ghost use Rattle.type_terms.specs.Growth.{GrewOrFull};
ghost use Rattle.std.specs.Prelude.{◌≡◌, IfOk, OnOk, OnErr, IsErr, IfErr, Err, ◌↔◌, ◌≤◌};
ghost use Rattle.type_terms.specs.Promised.Handles.{ArgsHeld};
ghost use Rattle.type_terms.specs.declared.TheConstants.{MAX_INDEX};
ghost use Rattle.infer_table.specs.Content.{Ready, Grows};
ghost use Rattle.infer_table.specs.Goals.{GoalHeld, goal_trees};
ghost use Rattle.infer_table.specs.Leaves.{AreLeaves, IsLeaf, labels, leaf_label};
ghost use Rattle.infer_table.specs.Values.{values_of, goal_filled};
ghost use Rattle.infer_table.specs.Unknowns.{next_label, with_next, next_labels, with_each};

use crate::canonical::CanonicalVarKind;
use crate::goal::Goal;
use crate::infer_ctxt::InferCtxt;
use crate::input::CanonicalInput;
use crate::instantiate::instantiate_with_values;
use std::alloc::Global;
use type_terms::interner::Interner;
use type_terms::kinds::{ConstKind, GenericArgKind, TyKind};
use type_terms::{Fault, MAX_INDEX};

/// A goal that was instantiated from its canonical form, with the values of the form's variables.
#[derive(Drop)]
pub struct Instantiated {
    pub goal: Goal,
    pub values: Vec<GenericArgKind>,
}

/// The goal of a canonical form, with each canonical variable replaced by a new value. rustc's `instantiate_canonical`.
///
/// The value is a new inference variable for a variable of the kind `Ty`, `Const` or `Region`. For `PlaceholderTy` and
/// `PlaceholderConst` it is the placeholder with the index of the canonical variable, which is not elsewhere in the goal.
/// The call also fails with `Memory` if there is no number for a variable. If it fails, the table does not change.
pub fn instantiate_canonical(
    alloc: Global,
    cx: &mut Interner,
    table: &mut InferCtxt,
    input: &CanonicalInput,
) -> Result<Instantiated, Fault>
    requires held { GoalHeld cx.old.entries input.now.goal }
    requires ready { Ready cx.old.entries table.old }
    ensures ready { Ready cx.new.entries table.new }
    ensures terms { GrewOrFull cx.old cx.new result }

    // The values are new leaves, in the order of the variables.
    ensures held { IfOk result (λ r. AreLeaves cx.new.entries r.values.items) }
    ensures args { IfOk result (λ r. ArgsHeld cx.new.entries r.values.items) }
    ensures unknowns { IfOk result (λ r. labels cx.new.entries r.values.items ≡ next_labels table.old 0 input.now.variables.items) }
    ensures made { OnOk result (table.new ≡ with_each table.old input.now.variables.items) }
    ensures grows { Grows table.old table.new }
    ensures refused { OnErr result (table.new ≡ table.old) }

    // The goal is the form with these values for its variables.
    ensures goal { IfOk result (λ r. GoalHeld cx.new.entries r.goal) }
    ensures filled { IfOk result (λ r. goal_trees cx.new.entries r.goal
        ≡ goal_filled (values_of cx.new.entries r.values.items) (goal_trees cx.old.entries input.now.goal)) }

// `Full` is returned only if some kind of term has reached its limit.
{
    let place = table.snapshot();
    match instantiate_in(alloc, cx, table, input) {
        Ok(instantiated) => Ok(instantiated),
        Err(fault) => {
            table.roll_back(place);
            Err(fault)
        }
    }
}

/// `instantiate_canonical`, except that a failed call may leave new variables in the table.
fn instantiate_in(
    alloc: Global,
    cx: &mut Interner,
    table: &mut InferCtxt,
    input: &CanonicalInput,
) -> Result<Instantiated, Fault>
    requires held { GoalHeld cx.old.entries input.now.goal }
    requires ready { Ready cx.old.entries table.old }
    ensures ready { Ready cx.new.entries table.new }
    ensures terms { GrewOrFull cx.old cx.new result }
    ensures held { IfOk result (λ r. AreLeaves cx.new.entries r.values.items) }
    ensures args { IfOk result (λ r. ArgsHeld cx.new.entries r.values.items) }
    ensures unknowns { IfOk result (λ r. labels cx.new.entries r.values.items ≡ next_labels table.old 0 input.now.variables.items) }
    ensures made { OnOk result (table.new ≡ with_each table.old input.now.variables.items) }
    ensures grows { Grows table.old table.new }
    ensures goal { IfOk result (λ r. GoalHeld cx.new.entries r.goal) }
    ensures filled { IfOk result (λ r. goal_trees cx.new.entries r.goal
        ≡ goal_filled (values_of cx.new.entries r.values.items) (goal_trees cx.old.entries input.now.goal)) }
{
    let values = next_values(alloc, cx, table, &input.variables)?;
    let goal = instantiate_with_values(alloc, cx, &input.goal, &values)?;
    Ok(Instantiated { goal, values })
}

/// A new value for each variable of a canonical form, in order, as `instantiate_canonical` uses them.
///
/// The errors are the same, but a failed call may leave new variables in the table. rustc's
/// `CanonicalVarValues::instantiate`.
pub fn next_values(
    alloc: Global,
    cx: &mut Interner,
    table: &mut InferCtxt,
    variables: &[CanonicalVarKind],
) -> Result<Vec<GenericArgKind>, Fault>
    requires { Ready cx.old.entries table.old }
    ensures ready { Ready cx.new.entries table.new }
    ensures terms { GrewOrFull cx.old cx.new result }
    ensures held { IfOk result (λ xs. AreLeaves cx.new.entries xs.items) }
    ensures args { IfOk result (λ xs. ArgsHeld cx.new.entries xs.items) }
    ensures unknowns { IfOk result (λ xs. labels cx.new.entries xs.items ≡ next_labels table.old 0 variables.now) }
    ensures made { OnOk result (table.new ≡ with_each table.old variables.now) }
    ensures grows { Grows table.old table.new }
{
    let mut values = Vec::new(alloc);
    'variables: for (place, kind) in variables.iter().enumerate() {
        let value = next_value(cx, table, *kind, place)?;
        values.push(value)?;
    }
    Ok(values)
}

/// A new value for the variable at this index.
fn next_value(
    cx: &mut Interner,
    table: &mut InferCtxt,
    kind: CanonicalVarKind,
    place: usize,
) -> Result<GenericArgKind, Fault>
    requires { Ready cx.old.entries table.old }
    ensures ready { Ready cx.new.entries table.new }
    ensures terms { GrewOrFull cx.old cx.new result }
    ensures leaf { IfOk result (λ x. IsLeaf cx.new.entries x) }
    ensures label { IfOk result (λ x. leaf_label cx.new.entries x ≡ next_label table.old place kind) }
    ensures made { OnOk result (table.new ≡ with_next table.old kind) }
    ensures refused { OnErr result (table.new ≡ table.old) }
{
    match kind {
        CanonicalVarKind::Ty => Ok(GenericArgKind::Ty(table.next_ty_var(cx)?)),
        CanonicalVarKind::Const => Ok(GenericArgKind::Const(table.next_const_var(cx)?)),
        CanonicalVarKind::Region => Ok(GenericArgKind::Lifetime(table.next_region_var()?)),
        CanonicalVarKind::PlaceholderTy => {
            let index = placeholder_index(place)?;
            Ok(GenericArgKind::Ty(cx.mk_ty(TyKind::Placeholder(index))?))
        }
        CanonicalVarKind::PlaceholderConst => {
            let index = placeholder_index(place)?;
            Ok(GenericArgKind::Const(cx.mk_const(ConstKind::Placeholder(index))?))
        }
    }
}

/// The index of the placeholder for the variable at this index. The call fails with `Memory` if it is too great.
fn placeholder_index(place: usize) -> Result<u32, Fault>
    ensures number { IfOk result (λ index. index ≡ place) }
    ensures refused_only { IsErr result ↔ (MAX_INDEX ≤ place) }
    ensures fault { IfErr result (λ e. e ≡ Fault.Memory) }
{
    if place < MAX_INDEX as usize {
        Ok(place as u32)
    } else {
        Err(Fault::Memory)
    }
}
