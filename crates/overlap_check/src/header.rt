//! Headers and where-clauses of impls, with fresh inference variables for the parameters.
ghost use Rattle.std.specs.Prelude.{◌≡◌, zero, IfOk, IfSome, OnOk, None};
ghost use Rattle.type_terms.specs.Trees.{outer_binder};
ghost use Rattle.type_terms.specs.Promised.Label.{adt};
ghost use Rattle.type_terms.specs.Promised.Trees.{instantiate, none, tree};
ghost use Rattle.type_terms.specs.Promised.Worlds.{with_args, all_with_args};
ghost use Rattle.type_terms.specs.Promised.Handles.{Has, ArgHeld, ArgsHeld, arg_trees, trees_at};
ghost use Rattle.type_terms.specs.Kinds.{args_trees};
ghost use Rattle.type_terms.specs.Terms.{args_lists};
ghost use Rattle.term_folds.specs.Arguments.{first_misfit};
ghost use Rattle.type_terms.specs.Growth.{GrewOrFull};
ghost use Rattle.infer_table.specs.Content.{Ready};
ghost use Rattle.declarations.specs.Applied.{references_in, TraitRefsHeld};
ghost use Rattle.declarations.specs.Held.{ReferenceHeld, ImplHeld};
ghost use Rattle.declarations.specs.Items.{reference_in};
ghost use Rattle.declarations.specs.Promised.Elaboration.{Each};
ghost use Rattle.overlap_check.specs.Headers.{with_unknowns_for, AreHeaderArgs, IsHeaderOver};
ghost use Rattle.overlap_check.specs.Written.{IsWrittenWell};

use crate::fresh::fresh_args_for_item;
use declarations::items::ImplDef;
use infer_table::infer_ctxt::InferCtxt;
use std::alloc::{AllocError, Global};
use term_folds::binder::EarlyBinder;
use term_folds::instantiate::InstantiateError;
use term_folds::laws::closed_arguments_are_in_range;
use term_folds::predicate::TraitRef;
use type_terms::flags::TypeFlags;
use type_terms::interner::Interner;
use type_terms::kinds::{GenericArgKind, GenericArgs, TyKind};
use type_terms::{AdtId, Fault};

/// The header of an impl with inference variables for its parameters: `?0` and `V<?0>: Show` for `impl<T> Show for V<T>`. rustc:
/// `ImplHeader`.
#[derive(Clone, Copy, PartialEq, Eq)]
pub struct ImplHeader {
    /// The variables, one for each parameter.
    pub impl_args: GenericArgs,
    /// The trait reference that the impl implements, with the variables.
    pub trait_ref: TraitRef,
}

/// Returns an argument with arguments in place of its parameters, if nothing is to be folded for that: the argument is a type parameter, or a
/// type without parameters. `None` otherwise.
fn plain_instance(
    cx: &Interner,
    written: GenericArgKind,
    args: GenericArgs,
) -> Option<GenericArgKind>
    requires held { ArgHeld cx.now.entries written }
    requires args { Has cx.now.entries args_lists args.0 }
    ensures held { IfSome result (λ a. ArgHeld cx.now.entries a) }
    ensures is { IfSome result (λ a. arg_trees cx.now.entries a
        ≡ instantiate zero (trees_at cx.now.entries args.0) (arg_trees cx.now.entries written)) }
{
    cx.lawful();
    let GenericArgKind::Ty(ty) = written else {
        return None;
    };
    match cx.kind(ty) {
        TyKind::Param(index) => cx.args(args).get(index as usize).copied(),
        _ => {
            if cx.flags(ty).0 & TypeFlags::HAS_PARAM.0 == 0 {
                Some(written)
            } else {
                None
            }
        }
    }
}

/// Each argument of a list with arguments in place of its parameters, in order, if nothing is to be folded for that. `None` otherwise.
fn plain_instances(
    alloc: Global,
    cx: &Interner,
    written: GenericArgs,
    args: GenericArgs,
) -> Result<Option<Vec<GenericArgKind>>, AllocError>
    requires held { Has cx.now.entries args_lists written.0 }
    requires args { Has cx.now.entries args_lists args.0 }
    ensures held { IfOk result (λ found. IfSome found (λ v. ArgsHeld cx.now.entries v.items)) }
    ensures are { IfOk result (λ found. IfSome found (λ v. args_trees cx.now.entries v.items
        ≡ instantiate zero (trees_at cx.now.entries args.0) (trees_at cx.now.entries written.0))) }
{
    let mut found = Vec::new(alloc);
    let mut left = cx.args(written);
    'each: while let Some((arg, others)) = left.split_first() {
        let Some(instance) = plain_instance(cx, *arg, args) else {
            return Ok(None);
        };
        found.push(instance)?;
        left = others;
    }
    Ok(Some(found))
}

/// The struct and the instantiated arguments of a struct type, if nothing is to be folded for that, as in `V<T>`. `None` otherwise, as in
/// `V<&T>`.
fn plain_struct(
    alloc: Global,
    cx: &Interner,
    written: GenericArgKind,
    args: GenericArgs,
) -> Result<Option<(AdtId, Vec<GenericArgKind>)>, AllocError>
    requires held { ArgHeld cx.now.entries written }
    requires args { Has cx.now.entries args_lists args.0 }
    ensures held { IfOk result (λ found. IfSome found (λ s. ArgsHeld cx.now.entries s.1.items)) }
    ensures is { IfOk result (λ found. IfSome found (λ s. tree (adt s.0.index) (args_trees cx.now.entries s.1.items) none
        ≡ instantiate zero (trees_at cx.now.entries args.0) (arg_trees cx.now.entries written))) }
{
    let GenericArgKind::Ty(ty) = written else {
        return Ok(None);
    };
    let TyKind::Adt(id, inner) = cx.kind(ty) else {
        return Ok(None);
    };
    match plain_instances(alloc, cx, inner, args)? {
        Some(list) => Ok(Some((id, list))),
        None => Ok(None),
    }
}

/// The type of this struct with these arguments.
fn struct_of(
    cx: &mut Interner,
    id: AdtId,
    list: Vec<GenericArgKind>,
) -> Result<GenericArgKind, Fault>
    requires held { ArgsHeld cx.old.entries list.items }
    ensures terms { GrewOrFull cx.old cx.new result }
    ensures held { IfOk result (λ a. ArgHeld cx.new.entries a) }
    ensures is { IfOk result (λ a. arg_trees cx.new.entries a ≡ tree (adt id.index) (args_trees cx.old.entries list.items) none) }
{
    let args = cx.mk_args(list)?;
    let ty = cx.mk_ty(TyKind::Adt(id, args))?;
    Ok(GenericArgKind::Ty(ty))
}

/// Instantiates an argument by a fold. Fails with `Memory` or `Full`.
fn folded_instance(
    alloc: Global,
    cx: &mut Interner,
    written: GenericArgKind,
    args: GenericArgs,
) -> Result<GenericArgKind, Fault>
    requires held { ArgHeld cx.old.entries written }
    requires args { Has cx.old.entries args_lists args.0 }
    requires closed { outer_binder (trees_at cx.old.entries args.0) ≡ 0 }
    requires fits { first_misfit (trees_at cx.old.entries args.0) (arg_trees cx.old.entries written) ≡ None }
    ensures terms { GrewOrFull cx.old cx.new result }
    ensures held { IfOk result (λ a. ArgHeld cx.new.entries a) }
    ensures is { IfOk result (λ a. arg_trees cx.new.entries a
        ≡ instantiate zero (trees_at cx.old.entries args.0) (arg_trees cx.old.entries written)) }
{
    closed_arguments_are_in_range();
    match EarlyBinder::bind(written).instantiate(alloc, cx, args) {
        Ok(instance) => Ok(instance),
        Err(InstantiateError::Fault(fault)) => Err(fault),
        Err(InstantiateError::ParamOutOfRange) => unreachable!(),
        Err(InstantiateError::ParamKind) => unreachable!(),
    }
}

/// Instantiates an argument. Fails with `Memory` or `Full`.
fn instantiate_arg(
    alloc: Global,
    cx: &mut Interner,
    written: GenericArgKind,
    args: GenericArgs,
) -> Result<GenericArgKind, Fault>
    requires held { ArgHeld cx.old.entries written }
    requires args { Has cx.old.entries args_lists args.0 }
    requires closed { outer_binder (trees_at cx.old.entries args.0) ≡ 0 }
    requires fits { first_misfit (trees_at cx.old.entries args.0) (arg_trees cx.old.entries written) ≡ None }
    ensures terms { GrewOrFull cx.old cx.new result }
    ensures held { IfOk result (λ a. ArgHeld cx.new.entries a) }
    ensures is { IfOk result (λ a. arg_trees cx.new.entries a
        ≡ instantiate zero (trees_at cx.old.entries args.0) (arg_trees cx.old.entries written)) }
{
    if let Some(found) = plain_instance(cx, written, args) {
        return Ok(found);
    }
    match plain_struct(alloc, cx, written, args)? {
        Some((id, list)) => struct_of(cx, id, list),
        None => folded_instance(alloc, cx, written, args),
    }
}

/// Instantiates each argument of a list, in order. Fails with `Memory` or `Full`.
fn instantiate_args(
    alloc: Global,
    cx: &mut Interner,
    written: GenericArgs,
    args: GenericArgs,
) -> Result<Vec<GenericArgKind>, Fault>
    requires held { Has cx.old.entries args_lists written.0 }
    requires args { Has cx.old.entries args_lists args.0 }
    requires closed { outer_binder (trees_at cx.old.entries args.0) ≡ 0 }
    requires fits { first_misfit (trees_at cx.old.entries args.0) (trees_at cx.old.entries written.0) ≡ None }
    ensures terms { GrewOrFull cx.old cx.new result }
    ensures held { IfOk result (λ v. ArgsHeld cx.new.entries v.items) }
    ensures are { IfOk result (λ v. args_trees cx.new.entries v.items
        ≡ instantiate zero (trees_at cx.old.entries args.0) (trees_at cx.old.entries written.0)) }
{
    let list = Vec::from_slice(alloc, cx.args(written))?;
    let mut found = Vec::new(alloc);
    let mut left = list.as_slice();
    'each: while let Some((arg, others)) = left.split_first() {
        let next = instantiate_arg(alloc, cx, *arg, args)?;
        found.push(next)?;
        left = others;
    }
    Ok(found)
}

/// Instantiates a trait reference: arguments replace its parameters. Fails with `Memory` or `Full`.
pub fn instantiate_trait_ref(
    alloc: Global,
    cx: &mut Interner,
    trait_ref: TraitRef,
    args: GenericArgs,
) -> Result<TraitRef, Fault>
    requires held { ReferenceHeld cx.old.entries trait_ref }
    requires args { Has cx.old.entries args_lists args.0 }
    requires closed { outer_binder (trees_at cx.old.entries args.0) ≡ 0 }
    requires fits { first_misfit (trees_at cx.old.entries args.0) (trees_at cx.old.entries trait_ref.args.0) ≡ None }
    ensures terms { GrewOrFull cx.old cx.new result }
    ensures held { IfOk result (ReferenceHeld cx.new.entries) }
    ensures is { IfOk result (λ r. reference_in cx.new.entries r ≡ with_args (trees_at cx.old.entries args.0) (reference_in cx.old.entries trait_ref)) }
{
    let list = instantiate_args(alloc, cx, trait_ref.args, args)?;
    let instance = cx.mk_args(list)?;
    Ok(TraitRef {
        def_id: trait_ref.def_id,
        args: instance,
    })
}

/// Instantiates each where-clause, in order. Fails with `Memory` or `Full`. rustc: `predicates_of(..).instantiate`.
pub fn instantiate_clauses(
    alloc: Global,
    cx: &mut Interner,
    clauses: &[TraitRef],
    args: GenericArgs,
) -> Result<Vec<TraitRef>, Fault>
    requires held { TraitRefsHeld cx.old.entries clauses.now }
    requires args { Has cx.old.entries args_lists args.0 }
    requires closed { outer_binder (trees_at cx.old.entries args.0) ≡ 0 }
    requires fits { Each (λ k. first_misfit (trees_at cx.old.entries args.0) (trees_at cx.old.entries k.args.0) ≡ None) clauses.now }
    ensures terms { GrewOrFull cx.old cx.new result }
    ensures held { IfOk result (λ v. TraitRefsHeld cx.new.entries v.items) }
    ensures are { IfOk result (λ v. references_in cx.new.entries v.items
        ≡ all_with_args (trees_at cx.old.entries args.0) (references_in cx.old.entries clauses.now)) }
{
    let mut found = Vec::new(alloc);
    let mut left = clauses;
    'clauses: while let Some((clause, others)) = left.split_first() {
        let next = instantiate_trait_ref(alloc, cx, *clause, args)?;
        found.push(next)?;
        left = others;
    }
    Ok(found)
}

/// Returns new inference variables for the parameters of an impl, and the arguments of its header with them: `?0` and `V<?0>, bool` for
/// `impl<T> Show<bool> for V<T>`. It fails like `fresh_impl_header`, and makes no trait reference.
pub(crate) fn fresh_header_args(
    alloc: Global,
    cx: &mut Interner,
    table: &mut InferCtxt,
    def: &ImplDef,
) -> Result<(GenericArgs, Vec<GenericArgKind>), Fault>
    requires ready { Ready cx.old.entries table.old }
    requires held { ImplHeld cx.old.entries def.now }
    requires written { IsWrittenWell cx.old.entries def.now }
    ensures ready { Ready cx.new.entries table.new }
    ensures terms { GrewOrFull cx.old cx.new result }
    ensures header { IfOk result (λ h. AreHeaderArgs cx.old.entries table.old def.now cx.new.entries h.0 h.1.items) }
    ensures made { OnOk result (table.new ≡ with_unknowns_for table.old def.now) }
{
    let impl_args = fresh_args_for_item(alloc, cx, table, &def.params)?;
    let list = instantiate_args(alloc, cx, def.header.args, impl_args)?;
    Ok((impl_args, list))
}

/// Returns the header of an impl with new inference variables for its parameters. rustc: `fresh_impl_header`.
///
/// Fails with `Full` only if the terms of some kind are at their limit, and with `Memory` if memory is refused or no index remains for a
/// variable. Then the table may have some of the variables.
pub fn fresh_impl_header(
    alloc: Global,
    cx: &mut Interner,
    table: &mut InferCtxt,
    def: &ImplDef,
) -> Result<ImplHeader, Fault>
    requires ready { Ready cx.old.entries table.old }
    requires held { ImplHeld cx.old.entries def.now }
    requires written { IsWrittenWell cx.old.entries def.now }
    ensures ready { Ready cx.new.entries table.new }
    ensures terms { GrewOrFull cx.old cx.new result }
    ensures header { IfOk result (IsHeaderOver cx.old.entries table.old def.now cx.new.entries) }
    ensures made { OnOk result (table.new ≡ with_unknowns_for table.old def.now) }
{
    let impl_args = fresh_args_for_item(alloc, cx, table, &def.params)?;
    let trait_ref = instantiate_trait_ref(alloc, cx, def.header, impl_args)?;
    Ok(ImplHeader {
        impl_args,
        trait_ref,
    })
}
