//! Whether an impl or a built-in rule concludes a trait reference from others.
ghost use Rattle.std.specs.Prelude.{◌≡◌, true, List, IfOk};
ghost use Rattle.type_terms.specs.Promised.Rules.{by_impl};
ghost use Rattle.type_terms.specs.Promised.Handles.{Has};
ghost use Rattle.type_terms.specs.Terms.{args_lists};
ghost use Rattle.type_terms.specs.Promised.Worlds.{Reference};
ghost use Rattle.type_terms.specs.Growth.{GrewOrFull};
ghost use Rattle.declarations.specs.Applied.{TraitRefsHeld};
ghost use Rattle.declarations.specs.Held.{ReferenceHeld, AreHeld};
ghost use Rattle.declarations.specs.Items.{declared};
ghost use Rattle.proof_checker.specs.Checked.{AreFirstOf, IsBuiltInConclusion, IsConcludedFrom};
ghost use Rattle.proof_checker.specs.Steps.{term_of, terms_of, ParametersAreCovered};

use crate::lifetimes::are_one;
use crate::rows::by_built_in;
use crate::rules::by_impl;
use crate::steps::ImplSource;
use declarations::declarations::Declarations;
use std::alloc::Global;
use term_folds::predicate::TraitRef;
use type_terms::Fault;
use type_terms::interner::Interner;

/// Whether the first of these trait references are the premises, one for one.
fn are_first(
    alloc: Global,
    cx: &mut Interner,
    asked: &[TraitRef],
    premises: &[TraitRef],
) -> Result<bool, Fault>
    requires asked { TraitRefsHeld cx.old.entries asked.now }
    requires premises { TraitRefsHeld cx.old.entries premises.now }
    ensures terms { GrewOrFull cx.old cx.new result }
    ensures first { IfOk result (λ b. b ≡ true → AreFirstOf (terms_of cx.old.entries asked.now) (terms_of cx.old.entries premises.now)) }
{
    let mut left = premises;
    let mut left_asked = asked;
    'premises: while let Some((premise, others)) = left.split_first() {
        match left_asked.split_first() {
            Some((first, other_asked)) => {
                if !are_one(alloc, cx, *first, *premise)? {
                    return Ok(false);
                }
                left = others;
                left_asked = other_asked;
            }
            None => return Ok(false),
        }
    }
    Ok(true)
}

/// Whether the trait reference follows by the impl, from premises of which the first are these.
///
/// `false` means nothing: trait references that differ in the lifetimes of a `for` may be missed.
/// The fault is `Memory` if memory is refused, or `Full` if a kind of term is full.
pub fn follows_by_impl(
    alloc: Global,
    cx: &mut Interner,
    declarations: &Declarations,
    reference: TraitRef,
    source: ImplSource,
    premises: &[TraitRef],
) -> Result<bool, Fault>
    requires declared { AreHeld cx.old.entries declarations.now }
    requires covered { ParametersAreCovered cx.old.entries declarations.now }
    requires reference { ReferenceHeld cx.old.entries reference }
    requires args { Has cx.old.entries args_lists source.args.0 }
    requires premises { TraitRefsHeld cx.old.entries premises.now }
    ensures terms { GrewOrFull cx.old cx.new result }
    ensures follows { IfOk result (λ b. b ≡ true → (E : List Reference) → IsConcludedFrom (declared cx.old.entries declarations.now) E
        (term_of cx.old.entries reference) (by_impl source.impl_def_id.index) (terms_of cx.old.entries premises.now)) }
{
    match by_impl(alloc, cx, declarations, reference, source)? {
        Some(asked) => are_first(alloc, cx, &asked, premises),
        None => Ok(false),
    }
}

/// Whether the trait reference follows by a built-in rule that is checked, from premises of which the first are these.
///
/// `false` means nothing: trait references that differ in the lifetimes of a `for` may be missed, and not each built-in rule is checked.
/// The fault is `Memory` if memory is refused, or `Full` if a kind of term is full.
pub fn follows_by_built_in(
    alloc: Global,
    cx: &mut Interner,
    declarations: &Declarations,
    reference: TraitRef,
    premises: &[TraitRef],
) -> Result<bool, Fault>
    requires declared { AreHeld cx.old.entries declarations.now }
    requires reference { ReferenceHeld cx.old.entries reference }
    requires premises { TraitRefsHeld cx.old.entries premises.now }
    ensures terms { GrewOrFull cx.old cx.new result }
    ensures follows { IfOk result (λ b. b ≡ true → (E : List Reference)
        → IsBuiltInConclusion (declared cx.old.entries declarations.now) E (term_of cx.old.entries reference) (terms_of cx.old.entries premises.now)) }
{
    match by_built_in(alloc, cx, declarations, reference)? {
        Some(asked) => are_first(alloc, cx, &asked, premises),
        None => Ok(false),
    }
}
