//! Flags: what occurs in a term.
ghost use Rattle.std.specs.Prelude.{⊤, [], ◌∷◌, codes};

use bitflags::{Flag, Flags, bitflag_items};

/// Which parameters, variables and lifetimes occur in a term: the union over its nodes, including those below binders.
///
/// There is a flag for each kind (types `TY`, lifetimes `RE`, constants `CT`) of parameters, inference variables,
/// placeholders and bound variables. Another one is for a binder that has a lifetime, and one for `'static`, which
/// rustc includes in its `HAS_FREE_REGIONS`.
#[derive(Clone, Copy, PartialEq, Eq, Hash)]
pub struct TypeFlags(pub u32);

bitflag_items! {
    impl TypeFlags: u32 {
        const HAS_TY_PARAM = 1 << 0;
        const HAS_TY_INFER = 1 << 1;
        const HAS_TY_PLACEHOLDER = 1 << 2;
        const HAS_TY_BOUND = 1 << 3;
        const HAS_RE_PARAM = 1 << 4;
        const HAS_RE_INFER = 1 << 5;
        const HAS_RE_PLACEHOLDER = 1 << 6;
        const HAS_RE_BOUND = 1 << 7;
        const HAS_CT_PARAM = 1 << 8;
        const HAS_CT_INFER = 1 << 9;
        const HAS_CT_PLACEHOLDER = 1 << 10;
        const HAS_CT_BOUND = 1 << 11;
        const HAS_BINDER_VARS = 1 << 12;
        const HAS_RE_STATIC = 1 << 13;
        const HAS_PARAM = TypeFlags::HAS_TY_PARAM.0 | TypeFlags::HAS_RE_PARAM.0 | TypeFlags::HAS_CT_PARAM.0;
        const HAS_INFER = TypeFlags::HAS_TY_INFER.0 | TypeFlags::HAS_RE_INFER.0 | TypeFlags::HAS_CT_INFER.0;
        const HAS_PLACEHOLDER = TypeFlags::HAS_TY_PLACEHOLDER.0 | TypeFlags::HAS_RE_PLACEHOLDER.0 | TypeFlags::HAS_CT_PLACEHOLDER.0;
    }
}

impl Flags for TypeFlags {
    type Bits = u32;

    ghost exact = { ⊤ };

    ghost table = { (codes "HAS_TY_PARAM", 1) ∷ (codes "HAS_TY_INFER", 2) ∷ (codes "HAS_TY_PLACEHOLDER", 4) ∷ (codes "HAS_TY_BOUND", 8)
        ∷ (codes "HAS_RE_PARAM", 16) ∷ (codes "HAS_RE_INFER", 32) ∷ (codes "HAS_RE_PLACEHOLDER", 64) ∷ (codes "HAS_RE_BOUND", 128)
        ∷ (codes "HAS_CT_PARAM", 256) ∷ (codes "HAS_CT_INFER", 512) ∷ (codes "HAS_CT_PLACEHOLDER", 1024) ∷ (codes "HAS_CT_BOUND", 2048)
        ∷ (codes "HAS_BINDER_VARS", 4096) ∷ (codes "HAS_RE_STATIC", 8192)
        ∷ (codes "HAS_PARAM", 273) ∷ (codes "HAS_INFER", 546) ∷ (codes "HAS_PLACEHOLDER", 1092) ∷ [] };

    ghost set_of = { λ f. f.0 };

    fn flags<'a>() -> &'a [Flag<TypeFlags>] {
        TypeFlags::FLAGS
    }

    fn bits(&self) -> u32 {
        self.0
    }

    fn from_bits_retain(bits: u32) -> TypeFlags {
        TypeFlags(bits)
    }
}
