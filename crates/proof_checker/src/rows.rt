//! The premises by which a built-in rule concludes a trait reference.
ghost use Rattle.std.specs.Prelude.{◌≡◌, true, List, IfOk, IfSome};
ghost use Rattle.type_terms.specs.Kinds.{TysHeld};
ghost use Rattle.type_terms.specs.Promised.Handles.{Has, types, trees_at};
ghost use Rattle.type_terms.specs.Promised.Trees.{erase};
ghost use Rattle.type_terms.specs.Promised.Worlds.{Reference};
ghost use Rattle.type_terms.specs.Growth.{GrewOrFull};
ghost use Rattle.declarations.specs.Applied.{TraitRefsHeld};
ghost use Rattle.declarations.specs.Held.{AreHeld, ReferenceHeld};
ghost use Rattle.declarations.specs.Items.{declared};
ghost use Rattle.structural_traits.specs.Constituents.{each_asked_of};
ghost use Rattle.proof_checker.specs.Checked.{IsBuiltInRule};
ghost use Rattle.proof_checker.specs.Rows.{HasOwnRule, HasRow};
ghost use Rattle.proof_checker.specs.Steps.{term_of, terms_of};

use declarations::arguments::only_type;
use declarations::core_traits::{CLONE, COPY, FN_PTR, SIZED, TUPLE};
use declarations::declarations::Declarations;
use std::alloc::Global;
use structural_traits::asked::types_asked;
use structural_traits::constituents::{
    constituents_for_fn_ptr_trait, constituents_for_tuple_trait,
    instantiate_constituent_tys_for_auto_trait, instantiate_constituent_tys_for_copy_clone_trait,
    instantiate_constituent_tys_for_sized_trait,
};
use term_folds::predicate::TraitRef;
use type_terms::interner::Interner;
use type_terms::kinds::Ty;
use type_terms::{Fault, TraitId};

/// Whether a trait is an auto trait without an impl for the type, so that its own rule applies.
fn has_own_rule(cx: &Interner, declarations: &Declarations, id: TraitId, self_ty: Ty) -> bool
    requires declared { AreHeld cx.now.entries declarations.now }
    requires self_held { Has cx.now.entries types self_ty.0 }
    ensures { result ≡ true → HasOwnRule (declared cx.now.entries declarations.now) id.index (erase (trees_at cx.now.entries self_ty.0)) }
{
    match declarations.trait_def(id) {
        Some(def) => {
            def.is_auto
                && declarations
                    .next_relevant_impl(cx, id, self_ty, None)
                    .is_none()
        }
        None => false,
    }
}

/// The types that must implement a trait so that the type does by a built-in rule, if there is one that is checked.
fn constituents(
    alloc: Global,
    cx: &mut Interner,
    declarations: &Declarations,
    id: TraitId,
    self_ty: Ty,
) -> Result<Option<Vec<Ty>>, Fault>
    requires declared { AreHeld cx.old.entries declarations.now }
    requires self_held { Has cx.old.entries types self_ty.0 }
    ensures terms { GrewOrFull cx.old cx.new result }
    ensures row { IfOk result (λ o. IfSome o (λ v. HasRow (declared cx.old.entries declarations.now) id.index
        (erase (trees_at cx.old.entries self_ty.0)) (each_asked_of cx.new.entries id.index v.items))) }
    ensures held { IfOk result (λ o. IfSome o (λ v. TysHeld cx.new.entries v.items)) }
{
    if id.index == SIZED {
        return instantiate_constituent_tys_for_sized_trait(alloc, cx, declarations, self_ty);
    }
    if id.index == COPY || id.index == CLONE {
        return instantiate_constituent_tys_for_copy_clone_trait(alloc, cx, self_ty);
    }
    if id.index == TUPLE {
        return Ok(constituents_for_tuple_trait(alloc, cx, self_ty));
    }
    if id.index == FN_PTR {
        return Ok(constituents_for_fn_ptr_trait(alloc, cx, self_ty));
    }
    if has_own_rule(cx, declarations, id, self_ty) {
        return instantiate_constituent_tys_for_auto_trait(alloc, cx, declarations, self_ty);
    }
    Ok(None)
}

/// The premises by which a built-in rule concludes the trait reference, if one that is checked does. Checked are the rules of `Sized`,
/// `Copy`, `Clone`, `Tuple` and `FnPtr`, and those of auto traits.
pub fn by_built_in(
    alloc: Global,
    cx: &mut Interner,
    declarations: &Declarations,
    reference: TraitRef,
) -> Result<Option<Vec<TraitRef>>, Fault>
    requires declared { AreHeld cx.old.entries declarations.now }
    requires reference { ReferenceHeld cx.old.entries reference }
    ensures terms { GrewOrFull cx.old cx.new result }
    ensures held { IfOk result (λ o. IfSome o (λ v. TraitRefsHeld cx.new.entries v.items)) }
    ensures rule { IfOk result (λ o. IfSome o (λ v. (E : List Reference)
        → IsBuiltInRule (declared cx.old.entries declarations.now) E (term_of cx.old.entries reference) (terms_of cx.new.entries v.items))) }
{
    let Some(self_ty) = only_type(cx, reference.args) else {
        return Ok(None);
    };
    match constituents(alloc, cx, declarations, reference.def_id, self_ty)? {
        Some(tys) => {
            let premises = types_asked(alloc, cx, reference.def_id, &tys)?;
            Ok(Some(premises))
        }
        None => Ok(None),
    }
}
