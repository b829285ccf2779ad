//! The orphan check of the impls that a crate writes.
ghost use Rattle.std.specs.Prelude.{◌≡◌, ◌==◌, ◌≤◌, ◌+◌, false, [], IfOk, IfErr, IfSome, List};
ghost use Rattle.type_terms.specs.Promised.Erased.{erased_reference};
ghost use Rattle.type_terms.specs.Promised.Walks.{trait_is};
ghost use Rattle.type_terms.specs.Promised.Handles.{Entry, trees_at};
ghost use Rattle.type_terms.specs.declared.Fault.TheVariants.{Memory};
ghost use Rattle.type_terms.specs.declared.TheConstants.{MAX_INDEX};
ghost use Rattle.type_terms.specs.Growth.{GrewOrFull};
ghost use Rattle.infer_table.specs.Content.{Ready};
ghost use Rattle.declarations.specs.Held.{AreHeld, ImplHeld, ReferenceHeld};
ghost use Rattle.declarations.specs.Items.{IsAbove, declared, reference_in};
ghost use Rattle.orphan_check.specs.Promised.Errors.{ErrorHeld};
ghost use Rattle.overlap_check.specs.Headers.{empty_table};
ghost use Rattle.overlap_check.specs.Orphans.{AreWrittenWell, HeaderHoldsParams, IsErrorOf, IsFirstError, IsHeaderError, IsWalkError};
ghost use Rattle.overlap_check.specs.Written.{IsWrittenWell};

use crate::header::fresh_impl_header;
use declarations::declarations::Declarations;
use declarations::items::ImplDef;
use infer_table::infer_ctxt::InferCtxt;
use orphan_check::context::OrphanCtxt;
use orphan_check::errors::{InCrate, OrphanCheckErr, OrphanCheckMode, WalkError};
use orphan_check::normalize::AlreadyNormal;
use orphan_check::orphan::orphan_check_trait_ref;
use std::alloc::Global;
use term_folds::predicate::TraitRef;
use type_terms::interner::Interner;
use type_terms::kinds::Ty;
use type_terms::{Fault, ImplId, TraitId};

/// Returns whether a trait is of this crate.
fn trait_is_local(declarations: &Declarations, id: TraitId) -> bool
    ensures { (es : List Entry) → result ≡ trait_is (λ x. x.home == declarations.now.local) (declared es declarations.now) id.index }
{
    match declarations.trait_def(id) {
        Some(def) => declarations.is_local(def.home),
        None => false,
    }
}

/// Returns the orphan error of a trait reference whose variables have no values. `None` if the orphan walk ends at a local type. Fails only
/// with `Memory`.
fn walk_error(
    alloc: Global,
    cx: &Interner,
    table: &InferCtxt,
    declarations: &Declarations,
    trait_ref: TraitRef,
) -> Result<Option<OrphanCheckErr<Ty>>, Fault>
    requires held { ReferenceHeld cx.now.entries trait_ref }
    requires ready { Ready cx.now.entries table.now }
    requires unvalued { table.now.values ≡ [] }
    ensures found { IfOk result
        (IsWalkError (declared cx.now.entries declarations.now) declarations.now.local (trees_at cx.now.entries trait_ref.args.0) cx.now.entries) }
    ensures held { IfOk result (λ found. IfSome found (ErrorHeld cx.now.entries)) }
    ensures memory { IfErr result (λ fault. fault ≡ Memory) }
{
    // With this limit, `Deep` is impossible.
    let limit = cx.depth(trait_ref.args);
    let in_crate = InCrate::Local {
        mode: OrphanCheckMode::Proper,
    };
    let context = OrphanCtxt {
        cx,
        infcx: table,
        decls: declarations,
    };
    match orphan_check_trait_ref(alloc, &context, trait_ref, in_crate, limit, &AlreadyNormal) {
        Ok(answer) => match answer {
            Ok(()) => Ok(None),
            Err(error) => Ok(Some(error)),
        },
        Err(error) => match error {
            WalkError::Memory => Err(Fault::Memory),
            WalkError::Deep => unreachable!(),
            WalkError::Normalize(_) => unreachable!(),
        },
    }
}

/// Returns the orphan error of an impl's header, with new variables for its parameters in an empty table. `None` if the orphan walk ends at
/// a local type.
fn fresh_header_error(
    alloc: Global,
    cx: &mut Interner,
    table: &mut InferCtxt,
    declarations: &Declarations,
    def: &ImplDef,
) -> Result<Option<OrphanCheckErr<Ty>>, Fault>
    requires empty { table.old ≡ empty_table }
    requires held { AreHeld cx.old.entries declarations.now }
    requires impl_held { ImplHeld cx.old.entries def.now }
    requires written { IsWrittenWell cx.old.entries def.now }
    requires params { HeaderHoldsParams cx.old.entries def.now }
    ensures terms { GrewOrFull cx.old cx.new result }
    ensures held { IfOk result (λ found. IfSome found (ErrorHeld cx.new.entries)) }
    ensures found { trait_is (λ x. x.home == declarations.now.local) (declared cx.old.entries declarations.now) def.now.header.def_id.index ≡ false
        → IfOk result (IsHeaderError (declared cx.old.entries declarations.now) declarations.now.local
        (erased_reference (reference_in cx.old.entries def.now.header)) cx.new.entries) }
{
    cx.lawful();
    let header = fresh_impl_header(alloc, cx, table, def)?;
    walk_error(alloc, cx, table, declarations, header.trait_ref)
}

/// Returns the orphan error of the header of an impl of this crate. `None` if it keeps the orphan rule: the trait is local, or the orphan
/// walk ends at a local type. The parameters are variables in the error: `?0` for `T` in `impl<T> Foreign for T`. rustc:
/// `orphan_check_impl`.
///
/// Fails with `Full` only if the terms of some kind are at their limit, and with `Memory` if memory is refused or no index remains for a
/// variable.
pub fn header_error(
    alloc: Global,
    cx: &mut Interner,
    declarations: &Declarations,
    def: &ImplDef,
) -> Result<Option<OrphanCheckErr<Ty>>, Fault>
    requires held { AreHeld cx.old.entries declarations.now }
    requires impl_held { ImplHeld cx.old.entries def.now }
    requires written { IsWrittenWell cx.old.entries def.now }
    requires params { HeaderHoldsParams cx.old.entries def.now }
    ensures terms { GrewOrFull cx.old cx.new result }
    ensures held { IfOk result (λ found. IfSome found (ErrorHeld cx.new.entries)) }
    ensures found { IfOk result (IsHeaderError (declared cx.old.entries declarations.now) declarations.now.local
        (erased_reference (reference_in cx.old.entries def.now.header)) cx.new.entries) }
{
    if trait_is_local(declarations, def.header.def_id) {
        return Ok(None);
    }
    let mut table = InferCtxt::new(alloc);
    fresh_header_error(alloc, cx, &mut table, declarations, def)
}

/// Returns the orphan error of the impl with this index, if it is of this crate and breaks the orphan rule.
fn impl_error(
    alloc: Global,
    cx: &mut Interner,
    declarations: &Declarations,
    id: ImplId,
) -> Result<Option<OrphanCheckErr<Ty>>, Fault>
    requires held { AreHeld cx.old.entries declarations.now }
    requires written { AreWrittenWell cx.old.entries declarations.now }
    ensures terms { GrewOrFull cx.old cx.new result }
    ensures held { IfOk result (λ found. IfSome found (ErrorHeld cx.new.entries)) }
    ensures found { IfOk result (IsErrorOf (declared cx.old.entries declarations.now) declarations.now.local id.index cx.new.entries) }
{
    let Some(def) = declarations.impl_def(id) else {
        return Ok(None);
    };
    if declarations.is_local(def.home) {
        header_error(alloc, cx, declarations, def)
    } else {
        Ok(None)
    }
}

/// Returns the first impl of this crate that breaks the orphan rule, with its error. `None` if all impls of this crate keep it. The indices
/// of all impls are below `end`.
///
/// Fails with `Full` only if the terms of some kind are at their limit, and with `Memory` if memory is refused or no index remains for a
/// variable.
pub fn first_orphan(
    alloc: Global,
    cx: &mut Interner,
    declarations: &Declarations,
    end: u32,
) -> Result<Option<(ImplId, OrphanCheckErr<Ty>)>, Fault>
    requires held { AreHeld cx.old.entries declarations.now }
    requires written { AreWrittenWell cx.old.entries declarations.now }
    requires numbered { IsAbove end declarations.now }
    requires in_range { end ≤ MAX_INDEX + 1 }
    ensures terms { GrewOrFull cx.old cx.new result }
    ensures held { IfOk result (λ found. IfSome found (λ x. ErrorHeld cx.new.entries x.1)) }
    ensures first { IfOk result (IsFirstError (declared cx.old.entries declarations.now) declarations.now.local cx.new.entries) }
{
    for index in 0..end {
        let id = ImplId { index };
        if let Some(error) = impl_error(alloc, cx, declarations, id)? {
            return Ok(Some((id, error)));
        }
    }
    Ok(None)
}
