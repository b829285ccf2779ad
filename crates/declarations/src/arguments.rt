//! Trait references with their parameters replaced by arguments.
ghost use Rattle.std.specs.Prelude.{◌≡◌, IfOk, IfSome, None, true};
ghost use Rattle.type_terms.specs.Promised.Trees.{none, ◌+++◌, instantiate};
ghost use Rattle.type_terms.specs.Trees.{outer_binder};
ghost use Rattle.type_terms.specs.Promised.Worlds.{with_args, all_with_args};
ghost use Rattle.type_terms.specs.Promised.Handles.{Has, ArgHeld, arg_trees, trees_at, types};
ghost use Rattle.type_terms.specs.Terms.{args_lists};
ghost use Rattle.term_folds.specs.Arguments.{first_misfit};
ghost use Rattle.type_terms.specs.Growth.{GrewOrFull};
ghost use Rattle.declarations.specs.Items.{reference_in};
ghost use Rattle.declarations.specs.Held.{ReferenceHeld};
ghost use Rattle.declarations.specs.Applied.{references_in, TraitRefsHeld};
ghost use Rattle.declarations.specs.Promised.Elaboration.{Each};

use std::alloc::Global;
use term_folds::binder::EarlyBinder;
use term_folds::instantiate::InstantiateError;
use term_folds::laws::closed_arguments_are_in_range;
use term_folds::predicate::TraitRef;
use type_terms::Fault;
use type_terms::interner::Interner;
use type_terms::kinds::{GenericArgKind, GenericArgs, Ty, TyKind};

/// The argument of a list that has no other.
fn only_argument(cx: &Interner, args: GenericArgs) -> Option<GenericArgKind>
    requires { Has cx.now.entries args_lists args.0 }
    ensures { IfSome result (λ a. ArgHeld cx.now.entries a × (trees_at cx.now.entries args.0 ≡ arg_trees cx.now.entries a +++ none)) }
{
    match cx.args(args) {
        [only] => Some(*only),
        _ => None,
    }
}

/// The type of a list that has no other argument.
pub fn only_type(cx: &Interner, args: GenericArgs) -> Option<Ty>
    requires { Has cx.now.entries args_lists args.0 }
    ensures { IfSome result (λ t. Has cx.now.entries types t.0 × (trees_at cx.now.entries args.0 ≡ trees_at cx.now.entries t.0 +++ none)) }
{
    match cx.args(args) {
        [GenericArgKind::Ty(ty)] => Some(*ty),
        _ => None,
    }
}

/// Whether a list is one parameter, and there is one argument for it. Then that argument is what the list becomes.
fn is_only_parameter(cx: &Interner, bound: GenericArgs, args: GenericArgs) -> bool
    requires bound { Has cx.now.entries args_lists bound.0 }
    requires args { Has cx.now.entries args_lists args.0 }
    requires fits { first_misfit (trees_at cx.now.entries args.0) (trees_at cx.now.entries bound.0) ≡ None }
    ensures { result ≡ true → instantiate 0 (trees_at cx.now.entries args.0) (trees_at cx.now.entries bound.0) ≡ trees_at cx.now.entries args.0 }
{
    cx.lawful();
    match (only_type(cx, bound), only_argument(cx, args)) {
        (Some(ty), Some(_)) => matches!(cx.kind(ty), TyKind::Param(_)),
        _ => false,
    }
}

/// A trait reference with its parameters replaced by arguments. Of a trait without further parameters the arguments are the same, and
/// no term is looked up.
pub fn with_arguments(
    alloc: Global,
    cx: &mut Interner,
    reference: TraitRef,
    args: GenericArgs,
) -> Result<TraitRef, Fault>
    requires held { ReferenceHeld cx.old.entries reference }
    requires args { Has cx.old.entries args_lists args.0 }
    requires closed { outer_binder (trees_at cx.old.entries args.0) ≡ 0 }
    requires fits { first_misfit (trees_at cx.old.entries args.0) (trees_at cx.old.entries reference.args.0) ≡ None }
    ensures terms { GrewOrFull cx.old cx.new result }
    ensures held { IfOk result (ReferenceHeld cx.new.entries) }
    ensures is { IfOk result (λ r. reference_in cx.new.entries r ≡ with_args (trees_at cx.old.entries args.0) (reference_in cx.old.entries reference)) }
{
    if is_only_parameter(cx, reference.args, args) {
        let def_id = reference.def_id;
        return Ok(TraitRef { def_id, args });
    }
    closed_arguments_are_in_range();
    match EarlyBinder::bind(reference).instantiate(alloc, cx, args) {
        Ok(instance) => Ok(instance),
        Err(InstantiateError::Fault(fault)) => Err(fault),
        Err(InstantiateError::ParamOutOfRange) => unreachable!(),
        Err(InstantiateError::ParamKind) => unreachable!(),
    }
}

/// Trait references with arguments put in for their parameters.
pub fn all_with_arguments(
    alloc: Global,
    cx: &mut Interner,
    references: &[TraitRef],
    args: GenericArgs,
) -> Result<Vec<TraitRef>, Fault>
    requires held { TraitRefsHeld cx.old.entries references.now }
    requires args { Has cx.old.entries args_lists args.0 }
    requires closed { outer_binder (trees_at cx.old.entries args.0) ≡ 0 }
    requires fits { Each (λ b. first_misfit (trees_at cx.old.entries args.0) (trees_at cx.old.entries b.args.0) ≡ None) references.now }
    ensures terms { GrewOrFull cx.old cx.new result }
    ensures held { IfOk result (λ v. TraitRefsHeld cx.new.entries v.items) }
    ensures are { IfOk result (λ v. references_in cx.new.entries v.items
        ≡ all_with_args (trees_at cx.old.entries args.0) (references_in cx.old.entries references.now)) }
{
    let mut found = Vec::new(alloc);
    let mut left = references;
    'references: while let Some((next, others)) = left.split_first() {
        let instance = with_arguments(alloc, cx, *next, args)?;
        found.push(instance)?;
        left = others;
    }
    Ok(found)
}
