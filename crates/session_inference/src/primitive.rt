//! Types without parts.

ghost use Rattle.std.specs.Prelude.{◌≡◌, List};
ghost use Rattle.type_terms.specs.Promised.Handles.{Entry};
ghost use Rattle.type_terms.specs.Kinds.{KindHeld, kind_trees};
ghost use Rattle.session_inference.specs.Primitives.{primitive_trees};

use type_terms::kinds::{IntTy, TyKind, UintTy};

/// A type without parts. rustc: a part of `PrimTy`, with `!`.
#[derive(Clone, Copy, PartialEq, Eq)]
pub enum Primitive {
    Bool,
    Char,
    Int(IntTy),
    Uint(UintTy),
    Str,
    Never,
}

/// Its kind among all types.
pub(crate) fn kind_of(primitive: Primitive) -> TyKind
    ensures held { (es : List Entry) → KindHeld es result }
    ensures is { (es : List Entry) → kind_trees es result ≡ primitive_trees primitive }
{
    match primitive {
        Primitive::Bool => TyKind::Bool,
        Primitive::Char => TyKind::Char,
        Primitive::Int(int) => TyKind::Int(int),
        Primitive::Uint(uint) => TyKind::Uint(uint),
        Primitive::Str => TyKind::Str,
        Primitive::Never => TyKind::Never,
    }
}
