//! The types that a type consists of. `None` stands for no rule. Where the arguments of a struct do not fit its fields there is `None` as
//! well, though there may be a rule.
ghost use Rattle.std.specs.Prelude.{◌≡◌, ℕ, IfOk, IfErr, IfSome, IsNone};
ghost use Rattle.type_terms.specs.Kinds.{TysHeld};
ghost use Rattle.type_terms.specs.Promised.Label.{adt, slice, uint};
ghost use Rattle.type_terms.specs.Promised.Trees.{erase, leaf, none, tree};
ghost use Rattle.type_terms.specs.Promised.Rules.{sized, sized_rules, copy_rules, auto_rules_plain, tuple_rules, fn_ptr_rules};
ghost use Rattle.type_terms.specs.Promised.Handles.{Has, types, trees_at};
ghost use Rattle.type_terms.specs.Terms.{args_lists};
ghost use Rattle.type_terms.specs.declared.Fault.TheVariants.{Memory};
ghost use Rattle.type_terms.specs.Growth.{GrewOrFull};
ghost use Rattle.declarations.specs.Items.{declared, written};
ghost use Rattle.declarations.specs.Held.{AreHeld};
ghost use Rattle.structural_traits.specs.Constituents.{AreConstituents, FitsFields, IsOneRow, each_asked_of, last_of};

use crate::fields::{field_with, fields_with};
use declarations::declarations::Declarations;
use std::alloc::Global;
use type_terms::interner::Interner;
use type_terms::kinds::{GenericArgs, Ty, TyKind, UintTy};
use type_terms::{AdtId, Fault};

/// The last of the types, as a list. Fails only with `Memory`.
pub fn last_alone(alloc: Global, tys: &[Ty]) -> Result<Vec<Ty>, Fault>
    ensures is { IfOk result (λ v. v.items ≡ last_of tys.now) }
    ensures memory { IfErr result (λ fault. fault ≡ Memory) }
{
    match tys.split_last() {
        Some((last, _)) => Ok(vec![in alloc; *last]?),
        None => Ok(Vec::new(alloc)),
    }
}

/// The types that must be `Copy` or `Clone` for the type to be so by a built-in rule. Fails only with `Memory`. rustc:
/// `instantiate_constituent_tys_for_copy_clone_trait`.
pub fn instantiate_constituent_tys_for_copy_clone_trait(
    alloc: Global,
    cx: &Interner,
    self_ty: Ty,
) -> Result<Option<Vec<Ty>>, Fault>
    requires { Has cx.now.entries types self_ty.0 }
    ensures are { IfOk result (λ o. (t : ℕ) → AreConstituents (λ v. v.items) cx.now.entries t (copy_rules t (trees_at cx.now.entries self_ty.0)) o) }
    ensures erased { IfOk result (λ o. IfSome o (λ v. (t : ℕ)
        → IsOneRow (copy_rules t (erase (trees_at cx.now.entries self_ty.0))) (each_asked_of cx.now.entries t v.items))) }
    ensures held { IfOk result (λ o. IfSome o (λ v. TysHeld cx.now.entries v.items)) }
    ensures memory { IfErr result (λ fault. fault ≡ Memory) }
{
    cx.lawful();
    match cx.kind(self_ty) {
        TyKind::FnPtr(_, _) => Ok(Some(Vec::new(alloc))),
        TyKind::Tuple(tys) => {
            let items = Vec::from_slice(alloc, cx.tys(tys))?;
            Ok(Some(items))
        }
        TyKind::Bool
        | TyKind::Char
        | TyKind::Int(_)
        | TyKind::Uint(_)
        | TyKind::Str
        | TyKind::Never
        | TyKind::Adt(_, _)
        | TyKind::Ref(_, _, _)
        | TyKind::RawPtr(_, _)
        | TyKind::Array(_, _)
        | TyKind::Slice(_)
        | TyKind::Dynamic(_, _)
        | TyKind::Param(_)
        | TyKind::Placeholder(_)
        | TyKind::Bound(_, _)
        | TyKind::Infer(_) => Ok(None),
    }
}

/// The type that must be `Sized` for the struct with these arguments to be so: the last field, if there is one. rustc: `sized_constraint`.
fn sized_constraint(
    alloc: Global,
    cx: &mut Interner,
    declarations: &Declarations,
    def_id: AdtId,
    args: GenericArgs,
) -> Result<Option<Vec<Ty>>, Fault>
    requires held { AreHeld cx.old.entries declarations.now }
    requires args { Has cx.old.entries args_lists args.0 }
    ensures terms { GrewOrFull cx.old cx.new result }
    ensures are { let s = tree (adt def_id.index) (trees_at cx.old.entries args.0) none in
        IfOk result (λ o. (IsNone o → FitsFields cx.old.entries declarations.now s)
        → AreConstituents (λ v. v.items) cx.new.entries sized (sized_rules (written cx.old.entries declarations.now) s) o) }
    ensures erased { let s = tree (adt def_id.index) (erase (trees_at cx.old.entries args.0)) none in
        IfOk result (λ o. IfSome o (λ v. IsOneRow (sized_rules (declared cx.old.entries declarations.now) s) (each_asked_of cx.new.entries sized v.items))) }
    ensures held { IfOk result (λ o. IfSome o (λ v. TysHeld cx.new.entries v.items)) }
{
    cx.lawful();
    let def = match declarations.adt_def(def_id) {
        Some(def) => def,
        None => return Ok(None),
    };
    if cx.outer_exclusive_binder(args).index != 0 {
        return Ok(None);
    }
    let Some((last, _)) = def.fields.split_last() else {
        return Ok(Some(Vec::new(alloc)));
    };
    match field_with(alloc, cx, *last, args)? {
        Some(ty) => {
            cx.lawful();
            let tys = vec![in alloc; ty]?;
            Ok(Some(tys))
        }
        None => Ok(None),
    }
}

/// The types that must be `Sized` for the type to be so. rustc: `instantiate_constituent_tys_for_sized_trait`.
pub fn instantiate_constituent_tys_for_sized_trait(
    alloc: Global,
    cx: &mut Interner,
    declarations: &Declarations,
    self_ty: Ty,
) -> Result<Option<Vec<Ty>>, Fault>
    requires held { AreHeld cx.old.entries declarations.now }
    requires self_held { Has cx.old.entries types self_ty.0 }
    ensures terms { GrewOrFull cx.old cx.new result }
    ensures are { IfOk result (λ o. (IsNone o → FitsFields cx.old.entries declarations.now (trees_at cx.old.entries self_ty.0))
        → AreConstituents (λ v. v.items) cx.new.entries sized (sized_rules (written cx.old.entries declarations.now) (trees_at cx.old.entries self_ty.0)) o) }
    ensures erased { IfOk result (λ o. IfSome o (λ v. IsOneRow
        (sized_rules (declared cx.old.entries declarations.now) (erase (trees_at cx.old.entries self_ty.0))) (each_asked_of cx.new.entries sized v.items))) }
    ensures held { IfOk result (λ o. IfSome o (λ v. TysHeld cx.new.entries v.items)) }
{
    cx.lawful();
    match cx.kind(self_ty) {
        TyKind::Bool
        | TyKind::Char
        | TyKind::Int(_)
        | TyKind::Uint(_)
        | TyKind::Never
        | TyKind::FnPtr(_, _)
        | TyKind::RawPtr(_, _)
        | TyKind::Ref(_, _, _)
        | TyKind::Array(_, _) => Ok(Some(Vec::new(alloc))),
        TyKind::Tuple(tys) => {
            let last = last_alone(alloc, cx.tys(tys))?;
            Ok(Some(last))
        }
        TyKind::Adt(def_id, args) => sized_constraint(alloc, cx, declarations, def_id, args),
        TyKind::Str
        | TyKind::Slice(_)
        | TyKind::Dynamic(_, _)
        | TyKind::Param(_)
        | TyKind::Placeholder(_)
        | TyKind::Bound(_, _)
        | TyKind::Infer(_) => Ok(None),
    }
}

/// The empty list if the type is a tuple, since the rule of `Tuple` has no premises.
pub fn constituents_for_tuple_trait(alloc: Global, cx: &Interner, self_ty: Ty) -> Option<Vec<Ty>>
    requires { Has cx.now.entries types self_ty.0 }
    ensures are { (t : ℕ) → AreConstituents (λ v. v.items) cx.now.entries t (tuple_rules (trees_at cx.now.entries self_ty.0)) result }
    ensures erased { IfSome result (λ v. (t : ℕ)
        → IsOneRow (tuple_rules (erase (trees_at cx.now.entries self_ty.0))) (each_asked_of cx.now.entries t v.items)) }
    ensures held { IfSome result (λ v. TysHeld cx.now.entries v.items) }
{
    match cx.kind(self_ty) {
        TyKind::Tuple(_) => Some(Vec::new(alloc)),
        TyKind::FnPtr(_, _)
        | TyKind::Bool
        | TyKind::Char
        | TyKind::Int(_)
        | TyKind::Uint(_)
        | TyKind::Str
        | TyKind::Never
        | TyKind::Adt(_, _)
        | TyKind::Ref(_, _, _)
        | TyKind::RawPtr(_, _)
        | TyKind::Array(_, _)
        | TyKind::Slice(_)
        | TyKind::Dynamic(_, _)
        | TyKind::Param(_)
        | TyKind::Placeholder(_)
        | TyKind::Bound(_, _)
        | TyKind::Infer(_) => None,
    }
}

/// The empty list if the type is a `fn` pointer, since the rule of `FnPtr` has no premises.
pub fn constituents_for_fn_ptr_trait(alloc: Global, cx: &Interner, self_ty: Ty) -> Option<Vec<Ty>>
    requires { Has cx.now.entries types self_ty.0 }
    ensures are { (t : ℕ) → AreConstituents (λ v. v.items) cx.now.entries t (fn_ptr_rules (trees_at cx.now.entries self_ty.0)) result }
    ensures erased { IfSome result (λ v. (t : ℕ)
        → IsOneRow (fn_ptr_rules (erase (trees_at cx.now.entries self_ty.0))) (each_asked_of cx.now.entries t v.items)) }
    ensures held { IfSome result (λ v. TysHeld cx.now.entries v.items) }
{
    match cx.kind(self_ty) {
        TyKind::FnPtr(_, _) => Some(Vec::new(alloc)),
        TyKind::Tuple(_)
        | TyKind::Bool
        | TyKind::Char
        | TyKind::Int(_)
        | TyKind::Uint(_)
        | TyKind::Str
        | TyKind::Never
        | TyKind::Adt(_, _)
        | TyKind::Ref(_, _, _)
        | TyKind::RawPtr(_, _)
        | TyKind::Array(_, _)
        | TyKind::Slice(_)
        | TyKind::Dynamic(_, _)
        | TyKind::Param(_)
        | TyKind::Placeholder(_)
        | TyKind::Bound(_, _)
        | TyKind::Infer(_) => None,
    }
}

/// The types that must implement an auto trait for the struct with these arguments to do so: its fields.
fn all_fields(
    alloc: Global,
    cx: &mut Interner,
    declarations: &Declarations,
    def_id: AdtId,
    args: GenericArgs,
) -> Result<Option<Vec<Ty>>, Fault>
    requires held { AreHeld cx.old.entries declarations.now }
    requires args { Has cx.old.entries args_lists args.0 }
    ensures terms { GrewOrFull cx.old cx.new result }
    ensures are { let s = tree (adt def_id.index) (trees_at cx.old.entries args.0) none in
        IfOk result (λ o. (IsNone o → FitsFields cx.old.entries declarations.now s)
        → (t : ℕ) → AreConstituents (λ v. v.items) cx.new.entries t (auto_rules_plain (written cx.old.entries declarations.now) t s) o) }
    ensures erased { let s = tree (adt def_id.index) (erase (trees_at cx.old.entries args.0)) none in IfOk result (λ o. IfSome o (λ v. (t : ℕ)
        → IsOneRow (auto_rules_plain (declared cx.old.entries declarations.now) t s) (each_asked_of cx.new.entries t v.items))) }
    ensures held { IfOk result (λ o. IfSome o (λ v. TysHeld cx.new.entries v.items)) }
{
    cx.lawful();
    let def = match declarations.adt_def(def_id) {
        Some(def) => def,
        None => return Ok(None),
    };
    if cx.outer_exclusive_binder(args).index != 0 {
        return Ok(None);
    }
    match fields_with(alloc, cx, &def.fields, args)? {
        Some(tys) => {
            cx.lawful();
            Ok(Some(tys))
        }
        None => Ok(None),
    }
}

/// `[u8]`, the type of a string's bytes.
fn str_bytes(cx: &mut Interner) -> Result<Ty, Fault>
    ensures terms { GrewOrFull cx.old cx.new result }
    ensures held { IfOk result (λ r. Has cx.new.entries types r.0) }
    ensures is { IfOk result (λ r. trees_at cx.new.entries r.0 ≡ tree slice (leaf (uint 0)) none) }
{
    let byte = cx.mk_ty(TyKind::Uint(UintTy::U8))?;
    let bytes = cx.mk_ty(TyKind::Slice(byte))?;
    Ok(bytes)
}

/// The types that must implement an auto trait for the type to do so by the trait's own rule. rustc:
/// `instantiate_constituent_tys_for_auto_trait`.
pub fn instantiate_constituent_tys_for_auto_trait(
    alloc: Global,
    cx: &mut Interner,
    declarations: &Declarations,
    self_ty: Ty,
) -> Result<Option<Vec<Ty>>, Fault>
    requires held { AreHeld cx.old.entries declarations.now }
    requires self_held { Has cx.old.entries types self_ty.0 }
    ensures terms { GrewOrFull cx.old cx.new result }
    ensures are { let s = trees_at cx.old.entries self_ty.0 in
        IfOk result (λ o. (IsNone o → FitsFields cx.old.entries declarations.now s)
        → (t : ℕ) → AreConstituents (λ v. v.items) cx.new.entries t (auto_rules_plain (written cx.old.entries declarations.now) t s) o) }
    ensures erased { let s = erase (trees_at cx.old.entries self_ty.0) in IfOk result (λ o. IfSome o (λ v. (t : ℕ)
        → IsOneRow (auto_rules_plain (declared cx.old.entries declarations.now) t s) (each_asked_of cx.new.entries t v.items))) }
    ensures held { IfOk result (λ o. IfSome o (λ v. TysHeld cx.new.entries v.items)) }
{
    cx.lawful();
    match cx.kind(self_ty) {
        TyKind::Bool
        | TyKind::Char
        | TyKind::Int(_)
        | TyKind::Uint(_)
        | TyKind::Never
        | TyKind::FnPtr(_, _) => Ok(Some(Vec::new(alloc))),
        TyKind::Str => {
            let bytes = str_bytes(cx)?;
            let tys = vec![in alloc; bytes]?;
            Ok(Some(tys))
        }
        TyKind::RawPtr(pointee, _) => {
            let tys = vec![in alloc; pointee]?;
            Ok(Some(tys))
        }
        TyKind::Ref(_, referent, _) => {
            let tys = vec![in alloc; referent]?;
            Ok(Some(tys))
        }
        TyKind::Array(element, _) => {
            let tys = vec![in alloc; element]?;
            Ok(Some(tys))
        }
        TyKind::Slice(element) => {
            let tys = vec![in alloc; element]?;
            Ok(Some(tys))
        }
        TyKind::Tuple(tys) => {
            let tys = Vec::from_slice(alloc, cx.tys(tys))?;
            Ok(Some(tys))
        }
        TyKind::Adt(def_id, args) => all_fields(alloc, cx, declarations, def_id, args),
        TyKind::Dynamic(_, _)
        | TyKind::Param(_)
        | TyKind::Placeholder(_)
        | TyKind::Bound(_, _)
        | TyKind::Infer(_) => Ok(None),
    }
}
