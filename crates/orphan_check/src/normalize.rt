//! The normalizer that an orphan walk applies to each visited type.
ghost use Rattle.std.specs.Prelude.{◌≡◌, IfOk};
ghost use Rattle.type_terms.specs.Promised.Handles.{Has, types, trees_at};
ghost use Rattle.orphan_check.specs.Steps.{answered};

use std::convert::Infallible;
use type_terms::interner::Interner;
use type_terms::kinds::Ty;

/// A normalizer of types. Its result depends on the type alone. rustc: the closure `lazily_normalize_ty`.
pub trait Normalize {
    type Error: Drop;

    // The result for a type.
    ghost use Rattle.std.specs.Prelude.{Result};
    ghost use Rattle.type_terms.specs.Promised.Trees.{Trees};

    ghost answers: { Self → Trees → Result Trees Self.Error };

    /// Returns the type in normal form, or fails.
    fn normalize(&self, cx: &Interner, ty: Ty) -> Result<Ty, Self::Error>
        requires { Has cx.now.entries types ty.0 }
        ensures held { IfOk result (λ t. Has cx.now.entries types t.0) }
        ensures answers { answers self.now (trees_at cx.now.entries ty.0) ≡ answered cx.now.entries result };
}

/// The normalizer that returns its input. Without type aliases and projections every type is in normal form.
#[derive(Clone, Copy)]
pub struct AlreadyNormal;

impl Normalize for AlreadyNormal {
    type Error = Infallible;

    ghost use Rattle.std.specs.Prelude.{Ok};

    ghost answers = { λ _ t. Ok t };

    fn normalize(&self, _cx: &Interner, ty: Ty) -> Result<Ty, Infallible> {
        Ok(ty)
    }
}
