//! The trait references of types, for traits whose only parameter is Self.
ghost use Rattle.std.specs.Prelude.{◌≡◌, IfOk};
ghost use Rattle.type_terms.specs.Kinds.{TysHeld};
ghost use Rattle.type_terms.specs.Promised.Rules.{asked};
ghost use Rattle.type_terms.specs.Promised.Handles.{Has, types, trees_at};
ghost use Rattle.type_terms.specs.Growth.{GrewOrFull};
ghost use Rattle.declarations.specs.Applied.{references_in, TraitRefsHeld};
ghost use Rattle.declarations.specs.Held.{ReferenceHeld};
ghost use Rattle.declarations.specs.Items.{reference_in};
ghost use Rattle.structural_traits.specs.Constituents.{types_asked};

use std::alloc::Global;
use term_folds::predicate::TraitRef;
use type_terms::interner::Interner;
use type_terms::kinds::{GenericArgKind, Ty};
use type_terms::{Fault, TraitId};

/// The trait reference `ty: Trait`, for a trait whose only parameter is Self.
pub fn type_asked(
    alloc: Global,
    cx: &mut Interner,
    def_id: TraitId,
    ty: Ty,
) -> Result<TraitRef, Fault>
    requires { Has cx.old.entries types ty.0 }
    ensures terms { GrewOrFull cx.old cx.new result }
    ensures held { IfOk result (ReferenceHeld cx.new.entries) }
    ensures is { IfOk result (λ r. reference_in cx.new.entries r ≡ asked def_id.index (trees_at cx.old.entries ty.0)) }
{
    let list = vec![in alloc; GenericArgKind::Ty(ty)]?;
    let args = cx.mk_args(list)?;
    Ok(TraitRef { def_id, args })
}

/// The trait reference `ty: Trait` for each of the types. The trait's only parameter is Self.
pub fn types_asked(
    alloc: Global,
    cx: &mut Interner,
    def_id: TraitId,
    tys: &[Ty],
) -> Result<Vec<TraitRef>, Fault>
    requires { TysHeld cx.old.entries tys.now }
    ensures terms { GrewOrFull cx.old cx.new result }
    ensures held { IfOk result (λ v. TraitRefsHeld cx.new.entries v.items) }
    ensures are { IfOk result (λ v. references_in cx.new.entries v.items ≡ types_asked cx.old.entries def_id.index tys.now) }
{
    let mut found = Vec::new(alloc);
    let mut left = tys;
    'tys: while let Some((ty, others)) = left.split_first() {
        let trait_ref = type_asked(alloc, cx, def_id, *ty)?;
        found.push(trait_ref)?;
        left = others;
    }
    Ok(found)
}
