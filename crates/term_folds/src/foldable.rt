//! Values that can be folded.
ghost use Rattle.type_terms.specs.Growth.{Grew};
ghost use Rattle.std.specs.Prelude.{◌≡◌, ℕ, ◌⊎◌, List, [], IfOk, IfErr, Err};
ghost use Rattle.type_terms.specs.Promised.Handles.{Has, types, consts, trees_at};
ghost use Rattle.type_terms.specs.Binders.{counts_of};
ghost use Rattle.type_terms.specs.Failures.{FailsBy};
ghost use Rattle.type_terms.specs.Promised.Handles.{SomeKindIsFull};
ghost use Rattle.term_folds.specs.Folds.{IsValueFold};

use crate::fold::{
    FallibleTypeFolder, fold_arg, fold_args, fold_bounds, fold_const, fold_region, fold_ty,
    fold_tys,
};
use crate::folder::{Infallible, TypeFolder};
use std::alloc::Global;
use type_terms::Fault;
use type_terms::binders::Binders;
use type_terms::interner::Interner;
use type_terms::kinds::{Bounds, Const, GenericArgKind, GenericArgs, Ty, Tys};
use type_terms::region::Region;
use type_terms::visitable::TypeVisitable;

/// A value that can be folded. Its terms are folded, each under the binders around it. The rest does not change.
pub trait TypeFoldable: TypeVisitable {
    /// The fold of the value under these binders.
    fn try_fold_under<F: FallibleTypeFolder>(
        self,
        alloc: Global,
        cx: &mut Interner,
        folder: &F,
        binders: &Binders,
    ) -> Result<Self, F::Error>
        requires ready { F.ready folder.now cx.old.entries }
        requires held { Self.held self cx.old.entries }
        ensures grew { Grew cx.old cx.new }
        ensures held { IfOk result (λ r. Self.held r cx.new.entries) }
        ensures outline { IfOk result (λ r. Self.outline r ≡ Self.outline self) }
        ensures folded { IfOk result (λ r. IsValueFold (F.action folder.now) (counts_of binders.now) cx.old cx.new (Self.pieces self) (Self.pieces r)) }
        ensures failed { IfErr result (λ e. FailsBy (F.fails folder.now) F.Error.from_gives cx.new.entries cx.new.limit e) };

    /// The fold of the value by a folder that can fail. The error is the folder's own, or one made from a `Fault`.
    final fn try_fold_with<F: FallibleTypeFolder>(
        self,
        alloc: Global,
        cx: &mut Interner,
        folder: &F,
    ) -> Result<Self, F::Error>
        requires ready { F.ready folder.now cx.old.entries }
        requires held { Self.held self cx.old.entries }
        ensures grew { Grew cx.old cx.new }
        ensures held { IfOk result (λ r. Self.held r cx.new.entries) }
        ensures outline { IfOk result (λ r. Self.outline r ≡ Self.outline self) }
        ensures folded { IfOk result (λ r. IsValueFold (F.action folder.now) [] cx.old cx.new (Self.pieces self) (Self.pieces r)) }
        ensures failed { IfErr result (λ e. FailsBy (F.fails folder.now) F.Error.from_gives cx.new.entries cx.new.limit e) }
    {
        self.try_fold_under(alloc, cx, folder, &Binders::Outermost)
    }

    /// The fold of the value. If it fails, terms that were interned before remain.
    final fn fold_with<F: TypeFolder>(
        self,
        alloc: Global,
        cx: &mut Interner,
        folder: &F,
    ) -> Result<Self, Fault>
        requires ready { F.ready folder.now cx.old.entries }
        requires held { Self.held self cx.old.entries }
        ensures grew { Grew cx.old cx.new }
        ensures held { IfOk result (λ r. Self.held r cx.new.entries) }
        ensures outline { IfOk result (λ r. Self.outline r ≡ Self.outline self) }
        ensures folded { IfOk result (λ r. IsValueFold (F.action folder.now) [] cx.old cx.new (Self.pieces self) (Self.pieces r)) }
        ensures full { result ≡ Err Fault.Full → SomeKindIsFull cx.new.entries cx.new.limit ⊎ F.refuses folder.now }
    {
        self.try_fold_under(alloc, cx, &Infallible(folder), &Binders::Outermost)
    }
}

impl TypeFoldable for Ty {
    fn try_fold_under<F: FallibleTypeFolder>(
        self,
        alloc: Global,
        cx: &mut Interner,
        folder: &F,
        binders: &Binders,
    ) -> Result<Ty, F::Error> {
        fold_ty(alloc, cx, folder, self, binders)
    }
}

impl TypeFoldable for Const {
    fn try_fold_under<F: FallibleTypeFolder>(
        self,
        alloc: Global,
        cx: &mut Interner,
        folder: &F,
        binders: &Binders,
    ) -> Result<Const, F::Error> {
        fold_const(cx, folder, self, binders)
    }
}

impl TypeFoldable for GenericArgs {
    fn try_fold_under<F: FallibleTypeFolder>(
        self,
        alloc: Global,
        cx: &mut Interner,
        folder: &F,
        binders: &Binders,
    ) -> Result<GenericArgs, F::Error> {
        fold_args(alloc, cx, folder, self, binders)
    }
}

impl TypeFoldable for Tys {
    fn try_fold_under<F: FallibleTypeFolder>(
        self,
        alloc: Global,
        cx: &mut Interner,
        folder: &F,
        binders: &Binders,
    ) -> Result<Tys, F::Error> {
        fold_tys(alloc, cx, folder, self, binders)
    }
}

impl TypeFoldable for Bounds {
    fn try_fold_under<F: FallibleTypeFolder>(
        self,
        alloc: Global,
        cx: &mut Interner,
        folder: &F,
        binders: &Binders,
    ) -> Result<Bounds, F::Error> {
        fold_bounds(alloc, cx, folder, self, binders)
    }
}

impl TypeFoldable for Region {
    fn try_fold_under<F: FallibleTypeFolder>(
        self,
        alloc: Global,
        cx: &mut Interner,
        folder: &F,
        binders: &Binders,
    ) -> Result<Region, F::Error> {
        fold_region(cx, folder, self, binders)
    }
}

impl TypeFoldable for GenericArgKind {
    fn try_fold_under<F: FallibleTypeFolder>(
        self,
        alloc: Global,
        cx: &mut Interner,
        folder: &F,
        binders: &Binders,
    ) -> Result<GenericArgKind, F::Error> {
        fold_arg(alloc, cx, folder, self, binders)
    }
}
