//! Whether steps are a proof.
ghost use Rattle.std.specs.Prelude.{◌≡◌, ◌<◌, true, take, length, ◌++◌, [], List, IfOk, IfSome};
ghost use Rattle.std.specs.List.{slice_get};
ghost use Rattle.type_terms.specs.Promised.Proofs.{In, Every};
ghost use Rattle.type_terms.specs.Promised.Rules.{is_coinductive};
ghost use Rattle.type_terms.specs.Promised.Handles.{Entry};
ghost use Rattle.type_terms.specs.Growth.{GrewOrFull};
ghost use Rattle.declarations.specs.Applied.{TraitRefsHeld, HaveBounds};
ghost use Rattle.declarations.specs.Held.{AreHeld, ReferenceHeld};
ghost use Rattle.declarations.specs.Items.{declared};
ghost use Rattle.declarations.specs.Promised.Elaboration.{Each};
ghost use Rattle.proof_checker.specs.Checked.{StepHasRule, PremisesStand};
ghost use Rattle.proof_checker.specs.Steps.{term_of, terms_of, steps_say, at_places, assumed_in, AreProof, AreProofOf, StepHeld, ParametersAreCovered};

use crate::lifetimes::are_one;
use crate::rows::by_built_in;
use crate::rules::{by_clause, by_impl};
use crate::steps::{Step, Way};
use crate::supertraits::by_supertrait;
use declarations::core_traits::SIZED;
use declarations::declarations::Declarations;
use declarations::laws::declarations_are_kept;
use std::alloc::Global;
use term_folds::predicate::TraitRef;
use type_terms::interner::Interner;
use type_terms::{Fault, TraitId};

/// Whether a proof of the trait may be cyclic (`trait_is_coinductive`).
fn is_coinductive(declarations: &Declarations, id: TraitId) -> bool
    ensures { (es : List Entry) → result ≡ is_coinductive (declared es declarations.now) id.index }
{
    match declarations.trait_def(id) {
        Some(def) => def.is_auto || id.index == SIZED,
        None => id.index == SIZED,
    }
}

/// Whether the trait references are those of the steps at these positions, one for one. Each position is below `allowed`.
fn premises_stand(
    alloc: Global,
    cx: &mut Interner,
    steps: &[Step],
    allowed: usize,
    places: &[usize],
    premises: &[TraitRef],
) -> Result<bool, Fault>
    requires steps { Each (StepHeld cx.old.entries) steps.now }
    requires premises { TraitRefsHeld cx.old.entries premises.now }
    ensures terms { GrewOrFull cx.old cx.new result }
    ensures are { IfOk result (λ b. b ≡ true → at_places (steps_say cx.old.entries steps.now) places.now ≡ terms_of cx.old.entries premises.now) }
    ensures stand { IfOk result (λ b. b ≡ true → Every (λ p. In p (take allowed (steps_say cx.old.entries steps.now))) (terms_of cx.old.entries premises.now)) }
{
    let mut left = premises;
    let mut left_places = places;
    'premises: while let Some((premise, others)) = left.split_first() {
        match left_places.split_first() {
            Some((place, other_places)) => {
                if *place >= allowed || *place >= steps.len() {
                    return Ok(false);
                }
                if !are_one(alloc, cx, *premise, steps[*place].reference)? {
                    return Ok(false);
                }
                left = others;
                left_places = other_places;
            }
            None => return Ok(false),
        }
    }
    Ok(left_places.is_empty())
}

/// Whether a step has no premises.
fn is_leaf(step: &Step) -> bool
    ensures { result ≡ true → step.now.premises.items ≡ [] }
{
    step.premises.is_empty()
}

/// Whether the step at this position follows by its rule instance from preceding steps, or from any steps if its trait is coinductive.
fn is_step(
    alloc: Global,
    cx: &mut Interner,
    declarations: &Declarations,
    clauses: &[TraitRef],
    steps: &[Step],
    place: usize,
) -> Result<bool, Fault>
    requires declared { AreHeld cx.old.entries declarations.now }
    requires covered { ParametersAreCovered cx.old.entries declarations.now }
    requires bounds { HaveBounds cx.old.entries declarations.now }
    requires clauses { TraitRefsHeld cx.old.entries clauses.now }
    requires steps { Each (StepHeld cx.old.entries) steps.now }
    requires place { place < length steps.now }
    ensures terms { GrewOrFull cx.old cx.new result }
    ensures rule { IfOk result (λ b. b ≡ true → IfSome (slice_get steps.now place) (StepHasRule (declared cx.old.entries declarations.now)
        (terms_of cx.old.entries clauses.now ++ assumed_in cx.old.entries steps.now) cx.old.entries (steps_say cx.old.entries steps.now))) }
    ensures stand { IfOk result (λ b. b ≡ true → IfSome (slice_get steps.now place) (λ step. PremisesStand (declared cx.old.entries declarations.now)
        (steps_say cx.old.entries steps.now) place step.reference.def_id.index (at_places (steps_say cx.old.entries steps.now) step.premises.items))) }
{
    let step = &steps[place];
    let allowed = if is_coinductive(declarations, step.reference.def_id) {
        steps.len()
    } else {
        place
    };
    let leaf = is_leaf(step);
    match step.way {
        Way::Impl(source) => match by_impl(alloc, cx, declarations, step.reference, source)? {
            Some(premises) => {
                premises_stand(alloc, cx, steps, allowed, &step.premises, &premises)
            }
            None => Ok(false),
        },
        Way::Clause(place) => {
            let found = by_clause(alloc, cx, clauses, step.reference, place)?;
            Ok(found && leaf)
        }
        Way::Supertrait(place) => {
            let found = by_supertrait(alloc, cx, declarations, clauses, step.reference, place)?;
            Ok(found && leaf)
        }
        Way::BuiltIn => match by_built_in(alloc, cx, declarations, step.reference)? {
            Some(premises) => {
                premises_stand(alloc, cx, steps, allowed, &step.premises, &premises)
            }
            None => Ok(false),
        },
        Way::Assumed => Ok(leaf),
    }
}

/// Whether each of the steps follows, so that they are a proof.
fn is_proof(
    alloc: Global,
    cx: &mut Interner,
    declarations: &Declarations,
    clauses: &[TraitRef],
    steps: &[Step],
) -> Result<bool, Fault>
    requires declared { AreHeld cx.old.entries declarations.now }
    requires covered { ParametersAreCovered cx.old.entries declarations.now }
    requires bounds { HaveBounds cx.old.entries declarations.now }
    requires clauses { TraitRefsHeld cx.old.entries clauses.now }
    requires steps { Each (StepHeld cx.old.entries) steps.now }
    ensures terms { GrewOrFull cx.old cx.new result }
    ensures proof { IfOk result (λ b. b ≡ true
        → AreProof cx.old.entries (declared cx.old.entries declarations.now) (terms_of cx.old.entries clauses.now) steps.now) }
{
    declarations_are_kept();
    'steps: for place in 0..steps.len() {
        if !is_step(alloc, cx, declarations, clauses, steps, place)? {
            return Ok(false);
        }
    }
    Ok(true)
}

/// Whether steps are a proof by the declarations, the where-clauses and what the steps assume, and the last step concludes the trait
/// reference.
///
/// `true` means that they are a proof in their order. Each step has a rule instance with these premises. Each premise precedes it, or
/// is anywhere if the trait of the step is coinductive. `false` means nothing: a proof in which trait references differ in the
/// lifetimes of a `for` may be refused. Trait references and headers of impls are compared up to lifetimes. The steps may come from
/// anyone. The fault is `Memory` if memory is refused, or `Full` if a kind of term is full.
pub fn is_proof_of(
    alloc: Global,
    cx: &mut Interner,
    declarations: &Declarations,
    clauses: &[TraitRef],
    asked: TraitRef,
    steps: &[Step],
) -> Result<bool, Fault>
    requires declared { AreHeld cx.old.entries declarations.now }
    requires covered { ParametersAreCovered cx.old.entries declarations.now }
    requires bounds { HaveBounds cx.old.entries declarations.now }
    requires clauses { TraitRefsHeld cx.old.entries clauses.now }
    requires asked { ReferenceHeld cx.old.entries asked }
    requires steps { Each (StepHeld cx.old.entries) steps.now }
    ensures terms { GrewOrFull cx.old cx.new result }
    ensures proof { IfOk result (λ b. b ≡ true → AreProofOf cx.old.entries (declared cx.old.entries declarations.now)
        (terms_of cx.old.entries clauses.now) (term_of cx.old.entries asked) steps.now) }
{
    if !is_proof(alloc, cx, declarations, clauses, steps)? {
        return Ok(false);
    }
    match steps.split_last() {
        Some((last, _)) => are_one(alloc, cx, last.reference, asked),
        None => Ok(false),
    }
}
