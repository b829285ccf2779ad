//! The heads of a type, by which impls that can match are found.
ghost use Rattle.std.specs.Prelude.{◌≡◌};
ghost use Rattle.std.specs.Option.{option_map};
ghost use Rattle.type_terms.specs.Promised.Handles.{Has, types, trees_at};
ghost use Rattle.declarations.specs.Heads.{label_of, head_of, inner_head_of, matches_inner};

use type_terms::AdtId;
use type_terms::interner::Interner;
use type_terms::kinds::{IntTy, Mutability, Ty, TyKind, UintTy};

/// The outermost constructor of a type that is no parameter, inference variable or placeholder (`SimplifiedType`).
#[derive(Clone, Copy, PartialEq, Eq, Hash)]
pub enum SimplifiedType {
    Bool,
    Char,
    Int(IntTy),
    Uint(UintTy),
    Adt(AdtId),
    Str,
    Array,
    Slice,
    Ref(Mutability),
    Ptr(Mutability),
    Never,
    Tuple,
    /// A `dyn` type, whatever its bounds are.
    Dynamic,
    /// A `fn` pointer, whatever its binder is.
    Function,
}

/// The head of a type: of `V<u8>` it is `V`. A parameter, an inference variable and a placeholder have none (`simplify_type`).
pub fn simplify_type(cx: &Interner, ty: Ty) -> Option<SimplifiedType>
    requires { Has cx.now.entries types ty.0 }
    ensures { option_map label_of result ≡ head_of (trees_at cx.now.entries ty.0) }
{
    match cx.kind(ty) {
        TyKind::Bool => Some(SimplifiedType::Bool),
        TyKind::Char => Some(SimplifiedType::Char),
        TyKind::Int(int) => Some(SimplifiedType::Int(int)),
        TyKind::Uint(uint) => Some(SimplifiedType::Uint(uint)),
        TyKind::Str => Some(SimplifiedType::Str),
        TyKind::Never => Some(SimplifiedType::Never),
        TyKind::Adt(id, _) => Some(SimplifiedType::Adt(id)),
        TyKind::Ref(_, _, mutability) => Some(SimplifiedType::Ref(mutability)),
        TyKind::RawPtr(_, mutability) => Some(SimplifiedType::Ptr(mutability)),
        TyKind::Array(_, _) => Some(SimplifiedType::Array),
        TyKind::Slice(_) => Some(SimplifiedType::Slice),
        TyKind::Tuple(_) => Some(SimplifiedType::Tuple),
        TyKind::FnPtr(_, _) => Some(SimplifiedType::Function),
        TyKind::Dynamic(_, _) => Some(SimplifiedType::Dynamic),
        TyKind::Param(_) | TyKind::Placeholder(_) | TyKind::Bound(_, _) | TyKind::Infer(_) => None,
    }
}

/// The inner head of a type: the head of what a reference, a raw pointer or a slice is made of. Of `&V<u8>` it is `V`. `&T` and all
/// other types have none.
pub(crate) fn simplify_inner(cx: &Interner, ty: Ty) -> Option<SimplifiedType>
    requires { Has cx.now.entries types ty.0 }
    ensures { option_map label_of result ≡ inner_head_of (trees_at cx.now.entries ty.0) }
{
    match cx.kind(ty) {
        TyKind::Ref(_, inner, _) => simplify_type(cx, inner),
        TyKind::RawPtr(inner, _) => simplify_type(cx, inner),
        TyKind::Slice(inner) => simplify_type(cx, inner),
        _ => None,
    }
}

/// Whether a type with this head, but no inner head, can match a type that has an inner head.
pub(crate) fn matches_inner(head: Option<SimplifiedType>) -> bool
    ensures { result ≡ matches_inner (option_map label_of head) }
{
    match head {
        None => true,
        Some(SimplifiedType::Ref(_)) => true,
        Some(SimplifiedType::Ptr(_)) => true,
        Some(SimplifiedType::Slice) => true,
        Some(
            SimplifiedType::Bool
            | SimplifiedType::Char
            | SimplifiedType::Int(_)
            | SimplifiedType::Uint(_)
            | SimplifiedType::Adt(_)
            | SimplifiedType::Str
            | SimplifiedType::Array
            | SimplifiedType::Never
            | SimplifiedType::Tuple
            | SimplifiedType::Dynamic
            | SimplifiedType::Function,
        ) => false,
    }
}
