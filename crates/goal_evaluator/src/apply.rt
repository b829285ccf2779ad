//! Applies a response to the goal that it answers.
ghost use Rattle.type_terms.specs.Growth.{GrewOrFull};
ghost use Rattle.std.specs.Prelude.{◌≡◌, ℕ, ◌<◌, ◌≤◌, List, ◌++◌, length, get_or, IfOk, IfErr, IfSome, OnOk, OnErr, Err, Some, None, unwrap_or, ◌==◌, if◌then◌else◌};
ghost use Rattle.std.specs.Option.{option_or};
ghost use Rattle.indexmap.specs.IndexSet.{insert_all};
ghost use Rattle.type_terms.specs.Promised.Label.{Sort};
ghost use Rattle.type_terms.specs.Promised.Handles.{Entry, Has, ArgHeld, ArgsHeld, bound_label};
ghost use Rattle.type_terms.specs.Terms.{args_lists};
ghost use Rattle.type_terms.specs.Kinds.{args_trees};
ghost use Rattle.infer_table.specs.Solutions.{HasNoSolution};
ghost use Rattle.infer_table.specs.Content.{content, variables_of, Ready, Grows, AllConstraintsHeld};
ghost use Rattle.infer_table.specs.Unification.{table_trees};
ghost use Rattle.infer_table.specs.Leaves.{leaf_label};
ghost use Rattle.infer_table.specs.Values.{value_of, values_of, filled_values};
ghost use Rattle.infer_table.specs.Constraints.{constraints_trees};
ghost use Rattle.infer_table.specs.Responses.{ResponseHeld, Records};
ghost use Rattle.infer_table.specs.Applying.{root_labels, canonical_number, original_of, next_unknown, with_unknown, unknowns_of, table_after};
ghost use Rattle.infer_table.specs.Shortages.{EqGrewOrFull};
ghost use Rattle.infer_table.specs.Covers.{IsOfKnown, IsWellPosed};
ghost use Rattle.infer_table.specs.Equated.{MakesEqual};
ghost use Rattle.goal_evaluator.specs.Runs.{args_filled};
ghost use Rattle.infer_table.specs.AnswersApplied.{known_in, values_put_in, with_unknowns_put_in, answered_constraints, left_by_answer, equated_in_turn, EquatesAnswer, RulesOutAnswer, AgreesWithNone, AgreedGoOn};

use infer_table::canonical::CanonicalVarKind;
use infer_table::certainty::EqError;
use infer_table::constraints::fold_constraints;
use infer_table::infer_ctxt::InferCtxt;
use infer_table::instantiate::CanonicalInstantiator;
use infer_table::response::CanonicalResponse;
use infer_table::terms::RegionConstraint;
use std::alloc::{AllocError, Global};
use term_folds::foldable::TypeFoldable;
use type_terms::Fault;
use type_terms::interner::Interner;
use type_terms::kinds::{ConstKind, GenericArgKind, TyKind};
use type_terms::number::{BoundVar, BoundVarIndexKind};
use type_terms::region::RegionKind;

/// The variable's number, if it is a canonical variable.
fn number_of(index: BoundVarIndexKind, variable: BoundVar) -> Option<usize>
    ensures { (s : Sort) → result ≡ canonical_number (bound_label s index variable) }
{
    match index {
        BoundVarIndexKind::Canonical => Some(variable.index as usize),
        BoundVarIndexKind::Bound(_) => None,
    }
}

/// The number of the canonical variable that this value is, if it is one.
fn variable_number(cx: &Interner, value: GenericArgKind) -> Option<usize>
    requires { ArgHeld cx.now.entries value }
    ensures { result ≡ canonical_number (leaf_label cx.now.entries value) }
{
    match value {
        GenericArgKind::Lifetime(region) => match region.kind {
            RegionKind::ReBound(index, variable) => number_of(index, variable),
            _ => None,
        },
        GenericArgKind::Ty(ty) => match cx.kind(ty) {
            TyKind::Bound(index, variable) => number_of(index, variable),
            _ => None,
        },
        GenericArgKind::Const(ct) => match cx.const_kind(ct) {
            ConstKind::Bound(index, variable) => number_of(index, variable),
            _ => None,
        },
    }
}

/// Stores the value at this index, unless the index is out of range or has a value already.
fn put_first(known: &mut [Option<GenericArgKind>], place: usize, value: GenericArgKind)
    ensures { (i : ℕ) → i < length known.old → get_or known.new i None ≡ option_or (get_or known.old i None) (if place == i then Some value else None) }
{
    if place < known.len() && known[place].is_none() {
        known[place] = Some(value);
    }
}

/// For each canonical variable of the response, the goal's own value at the first position where the response's value is that
/// variable.
fn known_values(
    alloc: Global,
    cx: &Interner,
    count: usize,
    values: &[GenericArgKind],
    originals: &[GenericArgKind],
) -> Result<Vec<Option<GenericArgKind>>, AllocError>
    requires { ArgsHeld cx.now.entries values.now }
    ensures count { IfOk result (λ r. length r.items ≡ count) }
    ensures known { IfOk result (λ r. (i : ℕ) → i < count
        → get_or r.items i None ≡ original_of i (root_labels (values_of cx.now.entries values.now)) originals.now) }
{
    let mut known = vec![in alloc; None; count]?;
    for (value, original) in values.iter().zip(originals) {
        if let Some(number) = variable_number(cx, *value) {
            put_first(&mut known, number, *original);
        }
    }
    Ok(known)
}

fn new_unknown(
    table: &mut InferCtxt,
    cx: &mut Interner,
    kind: CanonicalVarKind,
) -> Result<GenericArgKind, Fault>
    requires ready { Ready cx.old.entries table.old }
    ensures ready { Ready cx.new.entries table.new }
    ensures terms { GrewOrFull cx.old cx.new result }
    ensures is { IfOk result (λ a. (es : List Entry) → value_of cx.new.entries a ≡ next_unknown (table_trees es table.old) kind) }
    ensures held { IfOk result (λ a. ArgHeld cx.new.entries a) }
    ensures made { OnOk result ((es : List Entry) → table_trees es table.new ≡ with_unknown (table_trees es table.old) kind) }
    ensures bindings { table.new.values ≡ table.old.values }
    ensures constraints { table.new.constraints ≡ table.old.constraints }
    ensures grows { Grows table.old table.new }
    ensures refused { OnErr result (table.new ≡ table.old) }
{
    match kind {
        CanonicalVarKind::Ty | CanonicalVarKind::PlaceholderTy => {
            let ty = table.next_ty_var(cx)?;
            Ok(GenericArgKind::Ty(ty))
        }
        CanonicalVarKind::Const | CanonicalVarKind::PlaceholderConst => {
            let ct = table.next_const_var(cx)?;
            Ok(GenericArgKind::Const(ct))
        }
        CanonicalVarKind::Region => {
            let region = table.next_region_var()?;
            Ok(GenericArgKind::Lifetime(region))
        }
    }
}

/// The value. If there is none, a new inference variable of this kind.
fn value_or_unknown(
    table: &mut InferCtxt,
    cx: &mut Interner,
    known: Option<GenericArgKind>,
    kind: CanonicalVarKind,
) -> Result<GenericArgKind, Fault>
    requires ready { Ready cx.old.entries table.old }
    requires known { IfSome known (λ a. ArgHeld cx.old.entries a) }
    ensures ready { Ready cx.new.entries table.new }
    ensures terms { GrewOrFull cx.old cx.new result }
    ensures is { IfOk result (λ a. (es : List Entry)
        → value_of cx.new.entries a ≡ unwrap_or (known_in cx.old.entries known) (next_unknown (table_trees es table.old) kind)) }
    ensures held { IfOk result (λ a. ArgHeld cx.new.entries a) }
    ensures made { OnOk result ((es : List Entry) → table_trees es table.new ≡ table_after (known_in cx.old.entries known) (table_trees es table.old) kind) }
    ensures bindings { table.new.values ≡ table.old.values }
    ensures constraints { table.new.constraints ≡ table.old.constraints }
    ensures grows { Grows table.old table.new }
    ensures refused { OnErr result (table.new ≡ table.old) }
{
    match known {
        Some(value) => Ok(value),
        None => new_unknown(table, cx, kind),
    }
}

/// The values that replace the response's canonical variables. If the response's value at some position is the variable itself,
/// this is the goal's own value at the first such position. Otherwise it is a new inference variable.
fn values_to_apply(
    alloc: Global,
    cx: &mut Interner,
    table: &mut InferCtxt,
    original_values: &[GenericArgKind],
    response: &CanonicalResponse,
) -> Result<Vec<GenericArgKind>, Fault>
    requires values { ArgsHeld cx.old.entries original_values.now }
    requires response { ResponseHeld cx.old.entries response.now }
    requires ready { Ready cx.old.entries table.old }
    ensures ready { Ready cx.new.entries table.new }
    ensures terms { GrewOrFull cx.old cx.new result }
    ensures bindings { table.new.values ≡ table.old.values }
    ensures constraints { table.new.constraints ≡ table.old.constraints }
    ensures grows { Grows table.old table.new }
    ensures made { OnOk result (table_trees cx.old.entries table.new ≡ with_unknowns_put_in cx.old.entries table.old original_values.now response.now) }
    ensures held { IfOk result (λ r. ArgsHeld cx.new.entries r.items) }
    ensures values { IfOk result (λ r. values_of cx.new.entries r.items ≡ values_put_in cx.old.entries table.old original_values.now response.now) }
{
    let count = response.variables.len();
    let known = known_values(alloc, cx, count, &response.var_values, original_values)?;
    let mut values = Vec::new(alloc);
    for (number, kind) in response.variables.iter().enumerate() {
        let value = value_or_unknown(table, cx, known[number], *kind)?;
        values.push(value)?;
    }
    Ok(values)
}

/// Replaces the canonical variables of these terms by the values.
fn fill_values(
    alloc: Global,
    cx: &mut Interner,
    values: &[GenericArgKind],
    terms: &[GenericArgKind],
) -> Result<Vec<GenericArgKind>, Fault>
    requires values { ArgsHeld cx.old.entries values.now }
    requires terms { ArgsHeld cx.old.entries terms.now }
    ensures terms { GrewOrFull cx.old cx.new result }
    ensures held { IfOk result (λ r. ArgsHeld cx.new.entries r.items) }
    ensures filled { IfOk result (λ r. args_trees cx.new.entries r.items ≡ args_filled cx.old.entries values.now terms.now) }
{
    let terms = cx.mk_args(Vec::from_slice(alloc, terms)?)?;
    let filled = terms.fold_with(alloc, cx, &CanonicalInstantiator { values })?;
    Ok(Vec::from_slice(alloc, cx.args(filled))?)
}

/// The values and constraints of a response, with its canonical variables replaced.
#[derive(Drop)]
struct FilledResponse {
    var_values: Vec<GenericArgKind>,
    region_constraints: Vec<RegionConstraint>,
}

/// Replaces the canonical variables of the response by the values.
fn fill_response(
    alloc: Global,
    cx: &mut Interner,
    values: &[GenericArgKind],
    response: &CanonicalResponse,
) -> Result<FilledResponse, Fault>
    requires values { ArgsHeld cx.old.entries values.now }
    requires response { ResponseHeld cx.old.entries response.now }
    ensures terms { GrewOrFull cx.old cx.new result }
    ensures values_held { IfOk result (λ r. ArgsHeld cx.new.entries r.var_values.items) }
    ensures constraints_held { IfOk result (λ r. AllConstraintsHeld cx.new.entries r.region_constraints.items) }
    ensures values { IfOk result (λ r. args_trees cx.new.entries r.var_values.items ≡ args_filled cx.old.entries values.now response.now.var_values.items) }
    ensures constraints { IfOk result (λ r. constraints_trees cx.new.entries r.region_constraints.items
        ≡ filled_values (values_of cx.old.entries values.now) (constraints_trees cx.old.entries response.now.region_constraints.items)) }
{
    let var_values = fill_values(alloc, cx, values, &response.var_values)?;
    let folder = CanonicalInstantiator { values };
    let region_constraints = fold_constraints(alloc, cx, &folder, &response.region_constraints)?;
    Ok(FilledResponse {
        var_values,
        region_constraints,
    })
}

/// Equates each value with the one at the same index. Lists of different lengths have no solution.
fn equate_values(
    cx: &mut Interner,
    table: &mut InferCtxt,
    left: &[GenericArgKind],
    right: &[GenericArgKind],
) -> Result<(), EqError>
    requires left { ArgsHeld cx.old.entries left.now }
    requires right { ArgsHeld cx.old.entries right.now }
    requires ready { Ready cx.old.entries table.old }
    ensures ready { Ready cx.new.entries table.new }
    ensures grows { Grows table.old table.new }
    ensures terms { EqGrewOrFull cx.old cx.new result }
    ensures equates { OnOk result
        (MakesEqual cx.old.entries table.old cx.new.entries table.new (args_trees cx.old.entries left.now) (args_trees cx.old.entries right.now)) }
    ensures never { result ≡ Err EqError.NoSolution
        → HasNoSolution (content cx.old.entries table.old.values) (args_trees cx.old.entries left.now) (args_trees cx.old.entries right.now) }
    ensures exact { OnOk result (equated_in_turn cx.old.entries table.old left.now right.now ≡ Some (table_trees cx.new.entries table.new)) }
    ensures refusal { result ≡ Err EqError.NoSolution → equated_in_turn cx.old.entries table.old left.now right.now ≡ None }
{
    cx.lawful();
    if left.len() != right.len() {
        return Err(EqError::NoSolution);
    }
    for (value, other) in left.iter().zip(right) {
        table.eq(cx, *value, *other)?;
    }
    Ok(())
}

/// Records the constraints in order, without duplicates.
fn record_constraints(table: &mut InferCtxt, constraints: &[RegionConstraint]) -> Result<(), Fault>
    ensures ready { (es : List Entry) → Ready es table.old → AllConstraintsHeld es constraints.now → Ready es table.new }
    ensures grows { Grows table.old table.new }
    ensures kept { table.new ≡ record table.old { constraints = table.new.constraints } }
    ensures fault { IfErr result (λ e. e ≡ Fault.Memory) }
    ensures recorded { OnOk result (table.new
        ≡ record table.old { constraints = insert_all ⟦<RegionConstraint as PartialEq>⟧.eq table.old.constraints constraints.now }) }
{
    for constraint in constraints {
        table.register_region_constraint(*constraint)?;
    }
    Ok(())
}

/// Equates the values and records the constraints.
fn apply(
    alloc: Global,
    cx: &mut Interner,
    table: &mut InferCtxt,
    original_values: &[GenericArgKind],
    response: &CanonicalResponse,
) -> Result<(), EqError>
    requires values { ArgsHeld cx.old.entries original_values.now }
    requires response { ResponseHeld cx.old.entries response.now }
    requires ready { Ready cx.old.entries table.old }
    ensures ready { Ready cx.new.entries table.new }
    ensures grows { Grows table.old table.new }
    ensures unknowns { OnOk result ((k : Sort)
        → unknowns_of (with_unknowns_put_in cx.old.entries table.old original_values.now response.now) k ≤ variables_of table.new k) }
    ensures terms { EqGrewOrFull cx.old cx.new result }
    ensures equates { OnOk result (EquatesAnswer cx.old.entries table.old original_values.now response.now (content cx.new.entries table.new.values)) }
    ensures never { result ≡ Err EqError.NoSolution → RulesOutAnswer cx.old.entries table.old original_values.now response.now }
    ensures exact { OnOk result (left_by_answer cx.old.entries table.old original_values.now response.now ≡ Some (table_trees cx.new.entries table.new)) }
    ensures refusal { result ≡ Err EqError.NoSolution → left_by_answer cx.old.entries table.old original_values.now response.now ≡ None }
    ensures constraints { OnOk result (Records cx.new.entries table.old.constraints table.new.constraints
        (answered_constraints cx.old.entries table.old original_values.now response.now)) }
{
    let values = values_to_apply(alloc, cx, table, original_values, response)?;
    let filled = fill_response(alloc, cx, &values, response)?;
    match equate_values(cx, table, original_values, &filled.var_values) {
        Ok(()) => {
            cx.lawful();
            Ok(record_constraints(table, &filled.region_constraints)?)
        }
        Err(error) => Err(error),
    }
}

/// Applies a response to the goal that it answers. `original_values` are the values of the goal's variables.
///
/// First each canonical variable of the response is replaced. If the response's value at some position is the variable itself, it
/// is replaced by the goal's own value at the first such position. Otherwise it is replaced by a new inference variable of its
/// kind. Then each of the goal's values is equated with the response's value, and the response's region constraints are recorded
/// after those of the equations, without duplicates. Two different lifetimes are recorded as equal. They never make the call
/// fail.
///
/// On success the table's solutions are its earlier solutions that make the values equal. The call returns `NoSolution` exactly
/// if there is none. After an error the table is unchanged, but the interner may have new terms. `Fault(Full)` is returned only
/// if some kind of term has reached its limit. `Fault(Memory)` is also returned if there is no number for a new inference
/// variable or lifetime variable.
///
/// The resulting table, including lifetimes and recorded constraints, is a function (`applied`) of the goal's values, the
/// response and the earlier table as terms, and so is `NoSolution`: handles do not matter. The values are equated from the first
/// on, each pair in the table that the preceding pairs left. rustc: `instantiate_and_apply_query_response`.
pub fn instantiate_and_apply_query_response(
    alloc: Global,
    cx: &mut Interner,
    table: &mut InferCtxt,
    original_values: &[GenericArgKind],
    response: &CanonicalResponse,
) -> Result<(), EqError>
    requires values { ArgsHeld cx.old.entries original_values.now }
    requires response { ResponseHeld cx.old.entries response.now }
    requires ready { Ready cx.old.entries table.old }
    ensures ready { Ready cx.new.entries table.new }
    ensures grows { Grows table.old table.new }
    ensures terms { EqGrewOrFull cx.old cx.new result }

    // The new inference variables are variables of the table.
    ensures unknowns { OnOk result ((k : Sort)
        → unknowns_of (with_unknowns_put_in cx.old.entries table.old original_values.now response.now) k ≤ variables_of table.new k) }

    // The solutions are the earlier ones that make the values equal. If the result is `NoSolution`, there is none.
    ensures equates { OnOk result (EquatesAnswer cx.old.entries table.old original_values.now response.now (content cx.new.entries table.new.values)) }
    ensures never { result ≡ Err EqError.NoSolution → RulesOutAnswer cx.old.entries table.old original_values.now response.now }

    // A solution with which the response agrees extends to a solution of the new table. So a response that agrees with a solution
    // never gives `NoSolution`. The table contains only its own inference variables, as before.
    ensures kept { OnOk result (AgreedGoOn cx.old.entries table.old original_values.now response.now (content cx.new.entries table.new.values)) }
    ensures accepted { result ≡ Err EqError.NoSolution → AgreesWithNone cx.old.entries table.old original_values.now response.now }
    ensures known { OnOk result (IsWellPosed cx.old.entries table.old original_values.now response.now
        → IsOfKnown (variables_of table.new) (content cx.new.entries table.new.values)) }

    // The new table and whether the call fails depend only on the terms.
    ensures exact { OnOk result (left_by_answer cx.old.entries table.old original_values.now response.now ≡ Some (table_trees cx.new.entries table.new)) }
    ensures refusal { result ≡ Err EqError.NoSolution → left_by_answer cx.old.entries table.old original_values.now response.now ≡ None }

    // The response's constraints come last, without duplicates.
    ensures constraints { OnOk result (Records cx.new.entries table.old.constraints table.new.constraints
        (answered_constraints cx.old.entries table.old original_values.now response.now)) }
    ensures refused { OnErr result (table.new ≡ table.old) }

// `Full` is returned only if some kind of term has reached its limit.
{
    cx.lawful();
    let place = table.snapshot();
    match apply(alloc, cx, table, original_values, response) {
        Ok(()) => Ok(()),
        Err(error) => {
            table.roll_back(place);
            Err(error)
        }
    }
}
