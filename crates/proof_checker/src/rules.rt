//! The premises by which a rule instance concludes a trait reference.
ghost use Rattle.std.specs.Prelude.{◌≡◌, true, [], List, IfOk, IfSome, None};
ghost use Rattle.type_terms.specs.Promised.Rules.{by_impl, by_clause};
ghost use Rattle.type_terms.specs.Promised.Handles.{Has, trees_at};
ghost use Rattle.type_terms.specs.Terms.{args_lists};
ghost use Rattle.type_terms.specs.Trees.{outer_binder};
ghost use Rattle.type_terms.specs.Promised.Worlds.{World, Reference, with_args, all_with_args};
ghost use Rattle.term_folds.specs.Arguments.{first_misfit};
ghost use Rattle.type_terms.specs.Growth.{GrewOrFull};
ghost use Rattle.declarations.specs.Applied.{references_in, TraitRefsHeld};
ghost use Rattle.declarations.specs.Held.{ReferenceHeld, AreHeld};
ghost use Rattle.declarations.specs.Items.{reference_in, declared};
ghost use Rattle.declarations.specs.Promised.Elaboration.{Each};
ghost use Rattle.proof_checker.specs.Checked.{IsRuleByWay};
ghost use Rattle.proof_checker.specs.Steps.{term_of, terms_of, ParametersAreCovered};

use crate::lifetimes::are_one;
use crate::steps::ImplSource;
use declarations::declarations::Declarations;
use std::alloc::Global;
use term_folds::binder::EarlyBinder;
use term_folds::instantiate::InstantiateError;
use term_folds::laws::closed_arguments_are_in_range;
use term_folds::predicate::TraitRef;
use type_terms::Fault;
use type_terms::interner::Interner;
use type_terms::kinds::GenericArgs;

/// A trait reference with its parameters replaced by arguments, if these fit.
fn with_arguments(
    alloc: Global,
    cx: &mut Interner,
    reference: TraitRef,
    args: GenericArgs,
) -> Result<Option<TraitRef>, Fault>
    requires held { ReferenceHeld cx.old.entries reference }
    requires args { Has cx.old.entries args_lists args.0 }
    requires closed { outer_binder (trees_at cx.old.entries args.0) ≡ 0 }
    ensures terms { GrewOrFull cx.old cx.new result }
    ensures held { IfOk result (λ o. IfSome o (ReferenceHeld cx.new.entries)) }
    ensures is { IfOk result
        (λ o. IfSome o (λ r. reference_in cx.new.entries r ≡ with_args (trees_at cx.old.entries args.0) (reference_in cx.old.entries reference))) }
    ensures fits { IfOk result (λ o. IfSome o (λ _. first_misfit (trees_at cx.old.entries args.0) (trees_at cx.old.entries reference.args.0) ≡ None)) }
{
    closed_arguments_are_in_range();
    match EarlyBinder::bind(reference).instantiate(alloc, cx, args) {
        Ok(instance) => Ok(Some(instance)),
        Err(InstantiateError::Fault(fault)) => Err(fault),
        Err(InstantiateError::ParamOutOfRange) => Ok(None),
        Err(InstantiateError::ParamKind) => Ok(None),
    }
}

/// Trait references with their parameters replaced by arguments, if these fit all of them.
pub(crate) fn all_with_arguments(
    alloc: Global,
    cx: &mut Interner,
    references: &[TraitRef],
    args: GenericArgs,
) -> Result<Option<Vec<TraitRef>>, Fault>
    requires held { TraitRefsHeld cx.old.entries references.now }
    requires args { Has cx.old.entries args_lists args.0 }
    requires closed { outer_binder (trees_at cx.old.entries args.0) ≡ 0 }
    ensures terms { GrewOrFull cx.old cx.new result }
    ensures held { IfOk result (λ o. IfSome o (λ v. TraitRefsHeld cx.new.entries v.items)) }
    ensures are { IfOk result (λ o. IfSome o (λ v. references_in cx.new.entries v.items
        ≡ all_with_args (trees_at cx.old.entries args.0) (references_in cx.old.entries references.now))) }
    ensures fits { IfOk result
        (λ o. IfSome o (λ _. Each (λ b. first_misfit (trees_at cx.old.entries args.0) (trees_at cx.old.entries b.args.0) ≡ None) references.now)) }
{
    let mut found = Vec::new(alloc);
    let mut left = references;
    'references: while let Some((next, others)) = left.split_first() {
        match with_arguments(alloc, cx, *next, args)? {
            Some(instance) => {
                found.push(instance)?;
                left = others;
            }
            None => return Ok(None),
        }
    }
    Ok(Some(found))
}

/// The premises by which an impl concludes the trait reference, if its header with the arguments is the reference up to lifetimes.
pub(crate) fn by_impl(
    alloc: Global,
    cx: &mut Interner,
    declarations: &Declarations,
    reference: TraitRef,
    source: ImplSource,
) -> Result<Option<Vec<TraitRef>>, Fault>
    requires declared { AreHeld cx.old.entries declarations.now }
    requires covered { ParametersAreCovered cx.old.entries declarations.now }
    requires reference { ReferenceHeld cx.old.entries reference }
    requires args { Has cx.old.entries args_lists source.args.0 }
    ensures terms { GrewOrFull cx.old cx.new result }
    ensures held { IfOk result (λ o. IfSome o (λ v. TraitRefsHeld cx.new.entries v.items)) }
    ensures rule { IfOk result (λ o. IfSome o (λ v. (E : List Reference)
        → IsRuleByWay (declared cx.old.entries declarations.now) E (term_of cx.old.entries reference)
        (by_impl source.impl_def_id.index) (terms_of cx.new.entries v.items))) }
{
    cx.lawful();
    let def = match declarations.impl_def(source.impl_def_id) {
        Some(def) => def,
        None => return Ok(None),
    };
    if cx.outer_exclusive_binder(source.args).index != 0 {
        return Ok(None);
    }
    let made = with_arguments(alloc, cx, def.header, source.args)?;
    let header = match made {
        Some(header) => header,
        None => return Ok(None),
    };
    if !are_one(alloc, cx, header, reference)? {
        return Ok(None);
    }
    all_with_arguments(alloc, cx, &def.clauses, source.args)
}

/// Whether the where-clause at this position concludes the trait reference.
pub fn by_clause(
    alloc: Global,
    cx: &mut Interner,
    clauses: &[TraitRef],
    reference: TraitRef,
    place: usize,
) -> Result<bool, Fault>
    requires clauses { TraitRefsHeld cx.old.entries clauses.now }
    requires reference { ReferenceHeld cx.old.entries reference }
    ensures terms { GrewOrFull cx.old cx.new result }
    ensures rule { IfOk result (λ b. b ≡ true
        → (W : World) → IsRuleByWay W (terms_of cx.old.entries clauses.now) (term_of cx.old.entries reference) (by_clause place) []) }
{
    if place < clauses.len() {
        are_one(alloc, cx, clauses[place], reference)
    } else {
        Ok(false)
    }
}
