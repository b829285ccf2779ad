//! Impls with placeholders for their parameters.

ghost use Rattle.std.specs.Prelude.{◌≡◌, ◌≤◌, ◌+◌, map, IfOk, IfErr};
ghost use Rattle.type_terms.specs.Promised.Label.{placeholder};
ghost use Rattle.type_terms.specs.Promised.Trees.{leaf};
ghost use Rattle.type_terms.specs.Promised.Handles.{ArgHeld, arg_trees};
ghost use Rattle.type_terms.specs.Promised.Handles.{Has, trees_at};
ghost use Rattle.type_terms.specs.Terms.{args_lists};
ghost use Rattle.type_terms.specs.declared.TheConstants.{MAX_INDEX};
ghost use Rattle.type_terms.specs.Growth.{GrewOrFull};
ghost use Rattle.declarations.specs.Applied.{sort_of_param};
ghost use Rattle.declarations.specs.Held.{ImplHeld};
ghost use Rattle.overlap_check.specs.Written.{IsWrittenWell};
ghost use Rattle.sessions.specs.Placeholders.{IsOpaqueOf, placeholders_from};

use declarations::items::{GenericParamKind, ImplDef};
use overlap_check::header::{instantiate_clauses, instantiate_trait_ref};
use std::alloc::Global;
use term_folds::predicate::TraitRef;
use type_terms::Fault;
use type_terms::interner::Interner;
use type_terms::kinds::{ConstKind, GenericArgKind, GenericArgs, TyKind};
use type_terms::region::{Region, RegionKind};

/// The next number. Fails with `Memory` if there is none.
pub(crate) fn next_number(number: u32) -> Result<u32, Fault>
    ensures next { IfOk result (λ next. next ≡ number + 1) }
    ensures refused { IfErr result (λ fault. (fault ≡ Fault.Memory) × (MAX_INDEX ≤ number)) }
{
    match number.checked_add(1) {
        Some(next) => Ok(next),
        None => Err(Fault::Memory),
    }
}

/// The placeholder for a parameter, by its index from 0 among all parameters of its item. A query's own parameters have the same
/// placeholders.
fn placeholder_for_param(
    cx: &mut Interner,
    kind: GenericParamKind,
    place: u32,
) -> Result<GenericArgKind, Fault>
    ensures terms { GrewOrFull cx.old cx.new result }
    ensures held { IfOk result (λ arg. ArgHeld cx.new.entries arg) }
    ensures is { IfOk result (λ arg. arg_trees cx.new.entries arg ≡ leaf (placeholder (sort_of_param kind) place)) }
{
    match kind {
        GenericParamKind::Lifetime => Ok(GenericArgKind::Lifetime(Region {
            kind: RegionKind::RePlaceholder(place),
        })),
        GenericParamKind::Type => {
            let ty = cx.mk_ty(TyKind::Placeholder(place))?;
            Ok(GenericArgKind::Ty(ty))
        }
        GenericParamKind::Const => {
            let value = cx.mk_const(ConstKind::Placeholder(place))?;
            Ok(GenericArgKind::Const(value))
        }
    }
}

/// The placeholders for an item's parameters, in order. Fails with `Memory` if memory is refused or there are no numbers for so many, or
/// with `Full` if a table is full.
fn placeholders_for_item(
    alloc: Global,
    cx: &mut Interner,
    params: &[GenericParamKind],
) -> Result<GenericArgs, Fault>
    ensures terms { GrewOrFull cx.old cx.new result }
    ensures held { IfOk result (λ args. Has cx.new.entries args_lists args.0) }
    ensures are { IfOk result (λ args. trees_at cx.new.entries args.0 ≡ placeholders_from 0 (map sort_of_param params.now)) }
{
    let mut placeholders = Vec::new(alloc);
    let mut place = 0;
    let mut left = params;
    'params: while let Some((kind, others)) = left.split_first() {
        let arg = placeholder_for_param(cx, *kind, place)?;
        placeholders.push(arg)?;
        place = next_number(place)?;
        left = others;
    }
    cx.mk_args(placeholders)
}

/// The header and the where-clauses of an impl, with placeholders for its parameters.
#[derive(Drop)]
pub(crate) struct OpaqueImpl {
    /// The trait reference that the impl concludes.
    pub header: TraitRef,
    /// The where-clauses as they are written.
    pub clauses: Vec<TraitRef>,
}

/// The impl with placeholders for its parameters. For `impl<T> Show for V<T> where T: Show` it is `V<!0>: Show` where `!0: Show`. Fails
/// with `Memory` if memory is refused, or with `Full` if a table is full.
pub(crate) fn opaque_impl(
    alloc: Global,
    cx: &mut Interner,
    def: &ImplDef,
) -> Result<OpaqueImpl, Fault>
    requires held { ImplHeld cx.old.entries def.now }
    requires written { IsWrittenWell cx.old.entries def.now }
    ensures terms { GrewOrFull cx.old cx.new result }
    ensures is { IfOk result (IsOpaqueOf cx.old.entries def.now cx.new.entries) }
{
    cx.lawful();
    let args = placeholders_for_item(alloc, cx, &def.params)?;
    let header = instantiate_trait_ref(alloc, cx, def.header, args)?;
    let clauses = instantiate_clauses(alloc, cx, &def.clauses, args)?;
    Ok(OpaqueImpl { header, clauses })
}
