//! Visits and folds of `IsFirstInputType`. It contains no term: a visit skips it, and a fold returns it unchanged. rustc:
//! `TrivialTypeTraversalImpls`.
use crate::errors::IsFirstInputType;
use std::alloc::Global;
use std::ops::ControlFlow;
use term_folds::fold::FallibleTypeFolder;
use term_folds::foldable::TypeFoldable;
use type_terms::binders::Binders;
use type_terms::interner::Interner;
use type_terms::visit::TypeVisitor;
use type_terms::visitable::TypeVisitable;

impl TypeVisitable for IsFirstInputType {
    ghost use Rattle.std.proofs.Common.{[], refl};
    ghost use Rattle.orphan_check.specs.Flags.{first_outline};

    ghost held = { λ _ _. Unit {0} };

    ghost outline = { first_outline };

    ghost pieces = { λ _ _. [] };

    ghost held_kept = { λ x old new k h. h };

    ghost pieces_kept = { λ x old new k h. refl };

    fn visit_under<V: TypeVisitor>(
        self,
        _cx: &Interner,
        _visitor: &mut V,
        _binders: &Binders,
    ) -> ControlFlow<V::Break, ()> {
        ControlFlow::Continue(())
    }
}

impl TypeFoldable for IsFirstInputType {
    fn try_fold_under<F: FallibleTypeFolder>(
        self,
        _alloc: Global,
        _cx: &mut Interner,
        _folder: &F,
        _binders: &Binders,
    ) -> Result<IsFirstInputType, F::Error> {
        Ok(self)
    }
}
