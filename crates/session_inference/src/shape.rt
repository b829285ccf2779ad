//! Types of parts.

ghost use Rattle.std.specs.Prelude.{◌≡◌, ◌∷◌, [], IfOk, IfSome, List, is_some, map};
ghost use Rattle.type_terms.specs.Growth.{GrewOrFull};
ghost use Rattle.type_terms.specs.Kinds.{KindHeld, args_trees, kind_trees};
ghost use Rattle.type_terms.specs.Promised.Handles.{ArgHeld, ArgsHeld, Entry, Is, arg_trees, types};
ghost use Rattle.type_terms.specs.Promised.Trees.{◌+++◌};
ghost use Rattle.type_terms.specs.Terms.{type_lists};
ghost use Rattle.session_inference.specs.Shapes.{are_types, shaped_trees, takes, takes_few};

use std::alloc::{AllocError, Global};
use type_terms::interner::Interner;
use type_terms::kinds::{GenericArgKind, Mutability, Ty, TyKind, Tys};
use type_terms::region::{Region, RegionKind};
use type_terms::{AdtId, Fault};

/// How a type is made of its parts. rustc: a part of `TyKind`.
#[derive(Clone, Copy, PartialEq, Eq)]
pub enum Shape {
    /// `V<'a, T, 3>`: a struct, of its arguments.
    Adt(AdtId),
    /// `&'static T` or `&'static mut T`, of a type.
    Ref(Mutability),
    /// `*const T` or `*mut T`, of a type.
    RawPtr(Mutability),
    /// `[T; n]`, of a type and a constant.
    Array,
    /// `[T]`, of a type.
    Slice,
    /// `(T, U)`, of types.
    Tuple,
    /// `fn(T) -> U`, of the types of its inputs and that of its output. It binds no lifetime.
    FnPtr,
}

/// The types that these parts are, or `None` if one is no type.
fn types_of(alloc: Global, parts: &[GenericArgKind]) -> Result<Option<Vec<Ty>>, AllocError>
    ensures are { IfOk result (λ found. IfSome found (λ tys. map GenericArgKind.Ty tys.items ≡ parts.now)) }
    ensures all { IfOk result (λ found. is_some found ≡ are_types parts.now) }
{
    let mut tys = Vec::new(alloc);
    'parts: for part in parts {
        let GenericArgKind::Ty(ty) = *part else {
            return Ok(None);
        };
        tys.push(ty)?;
    }
    Ok(Some(tys))
}

/// The kind of a type of one part, if its shape takes that.
fn kind_of_one(shape: Shape, part: GenericArgKind) -> Option<TyKind>
    ensures held { (es : List Entry) → ArgHeld es part → IfSome result (KindHeld es) }
    ensures is { (es : List Entry) → IfSome result (λ k. kind_trees es k ≡ shaped_trees shape (arg_trees es part)) }
    ensures takes { is_some result ≡ takes_few shape (part ∷ []) }
{
    match (shape, part) {
        (Shape::Ref(mutability), GenericArgKind::Ty(ty)) => {
            let region = Region {
                kind: RegionKind::ReStatic,
            };
            Some(TyKind::Ref(region, ty, mutability))
        }
        (Shape::RawPtr(mutability), GenericArgKind::Ty(ty)) => {
            Some(TyKind::RawPtr(ty, mutability))
        }
        (Shape::Slice, GenericArgKind::Ty(ty)) => Some(TyKind::Slice(ty)),
        _ => None,
    }
}

/// The kind of a type of two parts, if its shape takes those.
fn kind_of_two(shape: Shape, first: GenericArgKind, second: GenericArgKind) -> Option<TyKind>
    ensures held { (es : List Entry) → ArgHeld es first → ArgHeld es second → IfSome result (KindHeld es) }
    ensures is { (es : List Entry) → IfSome result (λ k. kind_trees es k ≡ shaped_trees shape (arg_trees es first +++ arg_trees es second)) }
    ensures takes { is_some result ≡ takes_few shape (first ∷ second ∷ []) }
{
    match (shape, first, second) {
        (Shape::Array, GenericArgKind::Ty(ty), GenericArgKind::Const(length)) => {
            Some(TyKind::Array(ty, length))
        }
        _ => None,
    }
}

/// The kind of a type with these parts, if its shape takes one or two of certain kinds.
fn kind_of_few(shape: Shape, parts: &[GenericArgKind]) -> Option<TyKind>
    ensures held { (es : List Entry) → ArgsHeld es parts.now → IfSome result (KindHeld es) }
    ensures is { (es : List Entry) → IfSome result (λ k. kind_trees es k ≡ shaped_trees shape (args_trees es parts.now)) }
    ensures takes { is_some result ≡ takes_few shape parts.now }
{
    match parts {
        [part] => kind_of_one(shape, *part),
        [first, second] => kind_of_two(shape, *first, *second),
        _ => None,
    }
}

/// The list of these parts, if all are types.
fn types_in(
    alloc: Global,
    cx: &mut Interner,
    parts: &[GenericArgKind],
) -> Result<Option<Tys>, Fault>
    requires { ArgsHeld cx.old.entries parts.now }
    ensures is { IfOk result (λ o. IfSome o (λ l. Is cx.new.entries type_lists l.0 (args_trees cx.old.entries parts.now))) }
    ensures all { IfOk result (λ o. is_some o ≡ are_types parts.now) }
    ensures terms { GrewOrFull cx.old cx.new result }
{
    let Some(tys) = types_of(alloc, parts)? else {
        return Ok(None);
    };
    let list = cx.mk_tys(tys)?;
    Ok(Some(list))
}

/// The kind of a type of this shape with these parts, or `None` if the shape takes others.
fn kind_in(
    alloc: Global,
    cx: &mut Interner,
    shape: Shape,
    parts: Vec<GenericArgKind>,
) -> Result<Option<TyKind>, Fault>
    requires { ArgsHeld cx.old.entries parts.items }
    ensures held { IfOk result (λ o. IfSome o (KindHeld cx.new.entries)) }
    ensures is { IfOk result (λ o. IfSome o (λ k. kind_trees cx.new.entries k ≡ shaped_trees shape (args_trees cx.old.entries parts.items))) }
    ensures takes { IfOk result (λ o. is_some o ≡ takes shape parts.items) }
    ensures terms { GrewOrFull cx.old cx.new result }
{
    cx.lawful();
    match shape {
        Shape::Adt(struct_id) => {
            let args = cx.mk_args(parts)?;
            Ok(Some(TyKind::Adt(struct_id, args)))
        }
        Shape::Tuple => {
            let Some(tys) = types_in(alloc, cx, &parts)? else {
                return Ok(None);
            };
            Ok(Some(TyKind::Tuple(tys)))
        }
        Shape::FnPtr => {
            if parts.is_empty() {
                return Ok(None);
            }
            let Some(tys) = types_in(alloc, cx, &parts)? else {
                return Ok(None);
            };
            Ok(Some(TyKind::FnPtr(0, tys)))
        }
        _ => Ok(kind_of_few(shape, &parts)),
    }
}

/// The type of this shape with these parts, or `None` if the shape takes others.
pub(crate) fn shaped(
    alloc: Global,
    cx: &mut Interner,
    shape: Shape,
    parts: Vec<GenericArgKind>,
) -> Result<Option<Ty>, Fault>
    requires { ArgsHeld cx.old.entries parts.items }
    ensures is { IfOk result (λ o. IfSome o (λ t. Is cx.new.entries types t.0 (shaped_trees shape (args_trees cx.old.entries parts.items)))) }
    ensures takes { IfOk result (λ o. is_some o ≡ takes shape parts.items) }
    ensures terms { GrewOrFull cx.old cx.new result }
{
    let Some(kind) = kind_in(alloc, cx, shape, parts)? else {
        return Ok(None);
    };
    let ty = cx.mk_ty(kind)?;
    Ok(Some(ty))
}
