//! The fields of structs, with parameters replaced by arguments.
ghost use Rattle.std.specs.Prelude.{◌≡◌, map, IfOk, IfSome, IsSome, None};
ghost use Rattle.type_terms.specs.Kinds.{TysHeld};
ghost use Rattle.type_terms.specs.Promised.Handles.{Has, types, trees_at};
ghost use Rattle.type_terms.specs.Terms.{args_lists};
ghost use Rattle.type_terms.specs.Promised.Trees.{instantiate};
ghost use Rattle.type_terms.specs.Trees.{outer_binder};
ghost use Rattle.term_folds.specs.Arguments.{first_misfit};
ghost use Rattle.type_terms.specs.Growth.{GrewOrFull};
ghost use Rattle.declarations.specs.Promised.Elaboration.{Each};
ghost use Rattle.declarations.specs.Unsizing.{field_trees};

use std::alloc::Global;
use term_folds::binder::EarlyBinder;
use term_folds::instantiate::InstantiateError;
use term_folds::laws::closed_arguments_are_in_range;
use type_terms::Fault;
use type_terms::interner::Interner;
use type_terms::kinds::{GenericArgs, Ty};

/// A field with its struct's parameters replaced by arguments. `None` if these do not fit.
pub fn field_with(
    alloc: Global,
    cx: &mut Interner,
    field: Ty,
    args: GenericArgs,
) -> Result<Option<Ty>, Fault>
    requires field { Has cx.old.entries types field.0 }
    requires args { Has cx.old.entries args_lists args.0 }
    requires closed { outer_binder (trees_at cx.old.entries args.0) ≡ 0 }
    ensures terms { GrewOrFull cx.old cx.new result }
    ensures held { IfOk result (λ o. IfSome o (λ r. Has cx.new.entries types r.0)) }
    ensures is { IfOk result
        (λ o. IfSome o (λ r. trees_at cx.new.entries r.0 ≡ instantiate 0 (trees_at cx.old.entries args.0) (trees_at cx.old.entries field.0))) }
    ensures fits { IfOk result (λ o. IfSome o (λ _. first_misfit (trees_at cx.old.entries args.0) (trees_at cx.old.entries field.0) ≡ None)) }
    ensures misfits { IfOk result (λ o. first_misfit (trees_at cx.old.entries args.0) (trees_at cx.old.entries field.0) ≡ None → IsSome o) }
{
    closed_arguments_are_in_range();
    match EarlyBinder::bind(field).instantiate(alloc, cx, args) {
        Ok(ty) => Ok(Some(ty)),
        Err(InstantiateError::Fault(fault)) => Err(fault),
        Err(InstantiateError::ParamOutOfRange) => Ok(None),
        Err(InstantiateError::ParamKind) => Ok(None),
    }
}

/// Fields with their struct's parameters replaced by arguments. `None` if these do not fit all of them.
pub(crate) fn fields_with(
    alloc: Global,
    cx: &mut Interner,
    fields: &[Ty],
    args: GenericArgs,
) -> Result<Option<Vec<Ty>>, Fault>
    requires fields { TysHeld cx.old.entries fields.now }
    requires args { Has cx.old.entries args_lists args.0 }
    requires closed { outer_binder (trees_at cx.old.entries args.0) ≡ 0 }
    ensures terms { GrewOrFull cx.old cx.new result }
    ensures held { IfOk result (λ o. IfSome o (λ v. TysHeld cx.new.entries v.items)) }
    ensures are { IfOk result (λ o. IfSome o (λ v. field_trees cx.new.entries v.items
        ≡ map (instantiate 0 (trees_at cx.old.entries args.0)) (field_trees cx.old.entries fields.now))) }
    ensures fits { IfOk result
        (λ o. IfSome o (λ _. Each (λ f. first_misfit (trees_at cx.old.entries args.0) (trees_at cx.old.entries f.0) ≡ None) fields.now)) }
    ensures misfits { IfOk result
        (λ o. Each (λ f. first_misfit (trees_at cx.old.entries args.0) (trees_at cx.old.entries f.0) ≡ None) fields.now → IsSome o) }
{
    let mut found = Vec::new(alloc);
    let mut left = fields;
    'fields: while let Some((next, others)) = left.split_first() {
        match field_with(alloc, cx, *next, args)? {
            Some(ty) => {
                found.push(ty)?;
                left = others;
            }
            None => return Ok(None),
        }
    }
    Ok(Some(found))
}
