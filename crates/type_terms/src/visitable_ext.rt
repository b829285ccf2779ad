//! What occurs in a value, by what is stored with its terms.
ghost use Rattle.std.specs.Prelude.{◌≡◌};
ghost use Rattle.type_terms.specs.Pieces.{piece_flags, piece_binder};
ghost use Rattle.type_terms.specs.Scans.{some_node_of, has_flag, is_any_param, is_infer, some_bound_of};

use crate::flags::TypeFlags;
use crate::interner::Interner;
use crate::kinds::{Bounds, Const, GenericArgKind, GenericArgs, Ty, Tys};
use crate::number::{BoundVarIndexKind, DebruijnIndex};
use crate::region::{Region, RegionKind};
use crate::visitable::TypeVisitable;

/// What occurs in a value, including what is below binders (rustc: `TypeVisitableExt`, and two methods of `Flags`).
///
/// No method visits the value, because flags and outer binders are stored with its terms.
pub trait TypeVisitableExt: TypeVisitable {
    /// The union of the flags of the value's nodes.
    fn flags(self, cx: &Interner) -> TypeFlags
        requires { Self.held self cx.now.entries }
        ensures { result.0 ≡ piece_flags (Self.pieces self cx.now.entries) };

    /// One more than the greatest binder number that refers to a binder outside of the value, or 0 if there is none.
    fn outer_exclusive_binder(self, cx: &Interner) -> DebruijnIndex
        requires { Self.held self cx.now.entries }
        ensures { result.index ≡ piece_binder (Self.pieces self cx.now.entries) };

    /// Whether some node of the value has one of these flags.
    final fn has_type_flags(self, cx: &Interner, flags: TypeFlags) -> bool
        requires { Self.held self cx.now.entries }
        ensures { result ≡ some_node_of (has_flag flags.0) (Self.pieces self cx.now.entries) }
    {
        self.flags(cx).0 & flags.0 != 0
    }

    /// Whether a parameter of any kind occurs in the value.
    final fn has_param(self, cx: &Interner) -> bool
        requires { Self.held self cx.now.entries }
        ensures { result ≡ some_node_of is_any_param (Self.pieces self cx.now.entries) }
    {
        self.has_type_flags(cx, TypeFlags::HAS_PARAM)
    }

    /// Whether an inference variable of any kind occurs in the value.
    final fn has_infer(self, cx: &Interner) -> bool
        requires { Self.held self cx.now.entries }
        ensures { result ≡ some_node_of is_infer (Self.pieces self cx.now.entries) }
    {
        self.has_type_flags(cx, TypeFlags::HAS_INFER)
    }

    /// Whether a variable occurs in the value that is bound by this binder or by one further out, where 0 is the
    /// innermost binder around the value.
    final fn has_vars_bound_at_or_above(self, cx: &Interner, binder: DebruijnIndex) -> bool
        requires { Self.held self cx.now.entries }
        ensures { result ≡ some_bound_of binder.index (Self.pieces self cx.now.entries) }
    {
        binder.index < self.outer_exclusive_binder(cx).index
    }
}

impl TypeVisitableExt for Ty {
    fn flags(self, cx: &Interner) -> TypeFlags {
        cx.flags(self)
    }

    fn outer_exclusive_binder(self, cx: &Interner) -> DebruijnIndex {
        cx.outer_exclusive_binder(self)
    }
}

impl TypeVisitableExt for Const {
    fn flags(self, cx: &Interner) -> TypeFlags {
        cx.flags(self)
    }

    fn outer_exclusive_binder(self, cx: &Interner) -> DebruijnIndex {
        cx.outer_exclusive_binder(self)
    }
}

impl TypeVisitableExt for GenericArgs {
    fn flags(self, cx: &Interner) -> TypeFlags {
        cx.flags(self)
    }

    fn outer_exclusive_binder(self, cx: &Interner) -> DebruijnIndex {
        cx.outer_exclusive_binder(self)
    }
}

impl TypeVisitableExt for Tys {
    fn flags(self, cx: &Interner) -> TypeFlags {
        cx.flags(self)
    }

    fn outer_exclusive_binder(self, cx: &Interner) -> DebruijnIndex {
        cx.outer_exclusive_binder(self)
    }
}

impl TypeVisitableExt for Bounds {
    fn flags(self, cx: &Interner) -> TypeFlags {
        cx.flags(self)
    }

    fn outer_exclusive_binder(self, cx: &Interner) -> DebruijnIndex {
        cx.outer_exclusive_binder(self)
    }
}

impl TypeVisitableExt for Region {
    fn flags(self, _cx: &Interner) -> TypeFlags {
        match self.kind {
            RegionKind::ReStatic => TypeFlags::HAS_RE_STATIC,
            RegionKind::ReEarlyParam(_) => TypeFlags::HAS_RE_PARAM,
            RegionKind::RePlaceholder(_) => TypeFlags::HAS_RE_PLACEHOLDER,
            RegionKind::ReBound(_, _) => TypeFlags::HAS_RE_BOUND,
            RegionKind::ReVar(_) => TypeFlags::HAS_RE_INFER,
        }
    }

    fn outer_exclusive_binder(self, _cx: &Interner) -> DebruijnIndex {
        match self.kind {
            RegionKind::ReBound(BoundVarIndexKind::Bound(binder), _) => binder.shifted_in(1),
            _ => DebruijnIndex { index: 0 },
        }
    }
}

impl TypeVisitableExt for GenericArgKind {
    fn flags(self, cx: &Interner) -> TypeFlags {
        match self {
            GenericArgKind::Lifetime(region) => region.flags(cx),
            GenericArgKind::Ty(ty) => cx.flags(ty),
            GenericArgKind::Const(ct) => cx.flags(ct),
        }
    }

    fn outer_exclusive_binder(self, cx: &Interner) -> DebruijnIndex {
        match self {
            GenericArgKind::Lifetime(region) => region.outer_exclusive_binder(cx),
            GenericArgKind::Ty(ty) => cx.outer_exclusive_binder(ty),
            GenericArgKind::Const(ct) => cx.outer_exclusive_binder(ct),
        }
    }
}
