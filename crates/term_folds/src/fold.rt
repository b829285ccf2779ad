//! Folders, and the fold of a term by a folder.
ghost use Rattle.type_terms.specs.Growth.{Grew};
ghost use Rattle.std.specs.Prelude.{◌≡◌, ℕ, ◌+◌, ◌*◌, ◌<◌, ◌≤◌, List, length, IfOk, IfErr};
ghost use Rattle.type_terms.specs.Promised.Label.{Label};
ghost use Rattle.type_terms.specs.Promised.Trees.{Trees, none, tree, ◌+++◌};
ghost use Rattle.type_terms.specs.Trees.{is_no_tree};
ghost use Rattle.type_terms.specs.Promised.Handles.{Entry, Is, Has, Keeps, types, consts, bounds_lists, trees_at};
ghost use Rattle.type_terms.specs.Terms.{args_lists, type_lists};
ghost use Rattle.type_terms.specs.Promised.Handles.{region_trees, RegionHeld, ArgHeld, arg_trees};
ghost use Rattle.type_terms.specs.Kinds.{kind_trees, KindHeld, KindOlder, PrincipalHeld, PrincipalOlder, principal_trees};
ghost use Rattle.type_terms.specs.Binders.{counts_of};
ghost use Rattle.type_terms.specs.Failures.{FailsBy};
ghost use Rattle.term_folds.specs.Folds.{Does, enters, again, Folds, IsHandleFold, IsHandleFoldBelow, IsFoldUnder, TyAnswer, ConstAnswer, RegionAnswer};
ghost use Rattle.type_terms.specs.Visits.{IsBound};

use crate::deep::begin;
use crate::walk::{super_walk_ty, walk_args, walk_bounds, walk_ty, walk_tys};
use std::alloc::Global;
use type_terms::binders::Binders;
use type_terms::interner::Interner;
use type_terms::kinds::{
    Bounds, BoundsData, Const, GenericArgKind, GenericArgs, Principal, Ty, TyKind, Tys,
};
use type_terms::region::{Region, RegionKind};
use type_terms::{AdtId, Fault};

/// What to do at a node.
#[derive(Clone, Copy)]
pub enum Answer<T> {
    /// Fold the children of the node.
    Enter,
    /// Replace the node by this value.
    Replace(T),
    /// Replace the node by the fold of this value.
    Again(T),
}

/// A folder that can fail with an error of its own.
///
/// What it does at a node may depend on the number of binders around the node, but not on how many lifetimes each binds
/// (`by_depth`). So a fold can cache the fold of a type by handle and number of binders.
pub trait FallibleTypeFolder {
    type Error: From<Fault> + Drop;

    // The handles in the folder are of an interner with these entries.
    ghost ready: { Self → List Entry → Type 0 };

    // What the folder does at a node under these binders.
    ghost action: { Self → List Entry → List ℕ → Trees → Does };

    // The errors that the folder returns for reasons of its own.
    ghost fails: { Self → Self.Error → Type 0 };

    // A measure that decreases from a node to the value of `Again`.
    ghost fuel: { Self → List Entry → Trees → ℕ };

    /// Called at each type that the fold comes to.
    fn try_fold_ty(
        &self,
        cx: &mut Interner,
        ty: Ty,
        binders: &Binders,
    ) -> Result<Answer<Ty>, Self::Error>
        requires ready { ready self.now cx.old.entries }
        requires held { Has cx.old.entries types ty.0 }
        ensures grew { Grew cx.old cx.new }
        ensures answer { IfOk result (λ r. TyAnswer (action self.now cx.old.entries (counts_of binders.now) (trees_at cx.old.entries ty.0)) cx.new r) }
        ensures failed { IfErr result (λ e. FailsBy (fails self.now) Self.Error.from_gives cx.new.entries cx.new.limit e) };

    /// Called at each constant.
    fn try_fold_const(
        &self,
        cx: &mut Interner,
        ct: Const,
        binders: &Binders,
    ) -> Result<Answer<Const>, Self::Error>
        requires ready { ready self.now cx.old.entries }
        requires held { Has cx.old.entries consts ct.0 }
        ensures grew { Grew cx.old cx.new }
        ensures answer { IfOk result (λ r. ConstAnswer (action self.now cx.old.entries (counts_of binders.now) (trees_at cx.old.entries ct.0)) cx.new r) }
        ensures failed { IfErr result (λ e. FailsBy (fails self.now) Self.Error.from_gives cx.new.entries cx.new.limit e) };

    /// Called at each lifetime.
    fn try_fold_region(
        &self,
        cx: &Interner,
        region: Region,
        binders: &Binders,
    ) -> Result<Answer<Region>, Self::Error>
        requires ready { ready self.now cx.now.entries }
        requires held { RegionHeld region.kind }
        ensures answer { IfOk result (λ r. RegionAnswer (action self.now cx.now.entries (counts_of binders.now) (region_trees region)) r) }
        ensures failed { IfErr result (λ e. FailsBy (fails self.now) Self.Error.from_gives cx.now.entries cx.now.limit e) };

    /// Whether the folder may return `Again` with a value that is deeper than the type. This affects the stack that a fold
    /// uses, and no result.
    fn leads_on(&self) -> bool {
        false
    }

    // The handles remain of the interner as it grows.
    ghost ready_kept: { (f : Self) (old new : List Entry) → Keeps old new → ready f old → ready f new };

    // And they denote the same trees.
    ghost action_kept: { (f : Self) (old new : List Entry) → Keeps old new → ready f old → action f new ≡ action f old };

    ghost fuel_kept: { (f : Self) (old new : List Entry) → Keeps old new → ready f old → fuel f new ≡ fuel f old };

    // The action depends on the number of binders around a node, not on how many lifetimes each binds.
    ghost by_depth: { (f : Self) (es : List Entry) (bs cs : List ℕ) (t : Trees) → length bs ≡ length cs → action f es bs t ≡ action f es cs t };

    // The folder enters the bounds of a `dyn`.
    ghost enters_bounds: { (f : Self) (es : List Entry) (bs : List ℕ) (t : Trees) → IsBound t → action f es bs t ≡ enters };

    // The value of `Again` has less fuel, and a part has at most the fuel of the whole.
    ghost falls: { (f : Self) (es : List Entry) (bs : List ℕ) (t s : Trees) → ready f es → action f es bs t ≡ again s → fuel f es s < fuel f es t };

    ghost below_node: { (f : Self) (es : List Entry) (l : Label) (c : Trees) → fuel f es c ≤ fuel f es (tree l c none) };

    ghost below_left: { (f : Self) (es : List Entry) (x y : Trees) → fuel f es x ≤ fuel f es (x +++ y) };

    ghost below_right: { (f : Self) (es : List Entry) (x y : Trees) → fuel f es y ≤ fuel f es (x +++ y) };
}

/// The fold of a lifetime.
pub fn fold_region<F: FallibleTypeFolder>(
    cx: &Interner,
    folder: &F,
    region: Region,
    binders: &Binders,
) -> Result<Region, F::Error>
    requires ready { F.ready folder.now cx.now.entries }
    requires held { RegionHeld region.kind }
    ensures held { IfOk result (λ r. RegionHeld r.kind) }
    ensures folded { IfOk result (λ r. Folds (F.action folder.now cx.now.entries) (counts_of binders.now) (region_trees region) (region_trees r)) }
    ensures failed { IfErr result (λ e. FailsBy (F.fails folder.now) F.Error.from_gives cx.now.entries cx.now.limit e) }
{
    match folder.try_fold_region(cx, region, binders)? {
        Answer::Enter => Ok(region),
        Answer::Replace(new) => Ok(new),
        Answer::Again(next) => fold_region(cx, folder, next, binders),
    }
}

/// The fold of a constant.
pub(crate) fn fold_const<F: FallibleTypeFolder>(
    cx: &mut Interner,
    folder: &F,
    ct: Const,
    binders: &Binders,
) -> Result<Const, F::Error>
    requires ready { F.ready folder.now cx.old.entries }
    requires held { Has cx.old.entries consts ct.0 }
    ensures grew { Grew cx.old cx.new }
    ensures folded { IfOk result (λ r. IsHandleFold (F.action folder.now) binders.now cx.old cx.new consts ct.0 r.0) }
    ensures failed { IfErr result (λ e. FailsBy (F.fails folder.now) F.Error.from_gives cx.new.entries cx.new.limit e) }
{
    let _ = cx.const_kind(ct);
    match folder.try_fold_const(cx, ct, binders)? {
        Answer::Enter => Ok(ct),
        Answer::Replace(new) => Ok(new),
        Answer::Again(next) => fold_const(cx, folder, next, binders),
    }
}

/// The fold of a type.
pub fn fold_ty<F: FallibleTypeFolder>(
    alloc: Global,
    cx: &mut Interner,
    folder: &F,
    ty: Ty,
    binders: &Binders,
) -> Result<Ty, F::Error>
    requires ready { F.ready folder.now cx.old.entries }
    requires held { Has cx.old.entries types ty.0 }
    ensures grew { Grew cx.old cx.new }
    ensures folded { IfOk result (λ r. IsHandleFold (F.action folder.now) binders.now cx.old cx.new types ty.0 r.0) }
    ensures failed { IfErr result (λ e. FailsBy (F.fails folder.now) F.Error.from_gives cx.new.entries cx.new.limit e) }
{
    let depth = cx.depth(ty);
    let mut memo = begin(alloc, cx, folder, TyKind::Slice(ty), depth, binders)?;
    walk_ty(alloc, cx, folder, ty, binders, &mut memo)
}

/// The type over the folds of its children. The folder is not called at the type itself.
pub fn super_fold_ty<F: FallibleTypeFolder>(
    alloc: Global,
    cx: &mut Interner,
    folder: &F,
    ty: Ty,
    binders: &Binders,
) -> Result<Ty, F::Error>
    requires ready { F.ready folder.now cx.old.entries }
    requires held { Has cx.old.entries types ty.0 }
    ensures grew { Grew cx.old cx.new }
    ensures folded { IfOk result (λ r. IsHandleFoldBelow (F.action folder.now) binders.now cx.old cx.new types ty.0 r.0) }
    ensures failed { IfErr result (λ e. FailsBy (F.fails folder.now) F.Error.from_gives cx.new.entries cx.new.limit e) }
{
    let depth = cx.depth(ty);
    let parts = cx.kind(ty);
    let mut memo = begin(alloc, cx, folder, parts, depth, binders)?;
    super_walk_ty(alloc, cx, folder, ty, binders, &mut memo)
}

/// The fold of a list of types.
pub(crate) fn fold_tys<F: FallibleTypeFolder>(
    alloc: Global,
    cx: &mut Interner,
    folder: &F,
    tys: Tys,
    binders: &Binders,
) -> Result<Tys, F::Error>
    requires ready { F.ready folder.now cx.old.entries }
    requires held { Has cx.old.entries type_lists tys.0 }
    ensures grew { Grew cx.old cx.new }
    ensures folded { IfOk result (λ r. IsHandleFold (F.action folder.now) binders.now cx.old cx.new type_lists tys.0 r.0) }
    ensures whole { IfOk result (λ r. is_no_tree (trees_at cx.new.entries r.0) ≡ is_no_tree (trees_at cx.old.entries tys.0)) }
    ensures failed { IfErr result (λ e. FailsBy (F.fails folder.now) F.Error.from_gives cx.new.entries cx.new.limit e) }
{
    let depth = cx.depth(tys);
    let mut memo = begin(alloc, cx, folder, TyKind::Tuple(tys), depth, binders)?;
    walk_tys(alloc, cx, folder, tys, binders, &mut memo)
}

/// The fold of a list of arguments.
pub fn fold_args<F: FallibleTypeFolder>(
    alloc: Global,
    cx: &mut Interner,
    folder: &F,
    args: GenericArgs,
    binders: &Binders,
) -> Result<GenericArgs, F::Error>
    requires ready { F.ready folder.now cx.old.entries }
    requires held { Has cx.old.entries args_lists args.0 }
    ensures grew { Grew cx.old cx.new }
    ensures folded { IfOk result (λ r. IsHandleFold (F.action folder.now) binders.now cx.old cx.new args_lists args.0 r.0) }
    ensures failed { IfErr result (λ e. FailsBy (F.fails folder.now) F.Error.from_gives cx.new.entries cx.new.limit e) }
{
    let depth = cx.depth(args);
    let parts = TyKind::Adt(AdtId { index: 0 }, args);
    let mut memo = begin(alloc, cx, folder, parts, depth, binders)?;
    walk_args(alloc, cx, folder, args, binders, &mut memo)
}

/// The fold of one argument.
pub(crate) fn fold_arg<F: FallibleTypeFolder>(
    alloc: Global,
    cx: &mut Interner,
    folder: &F,
    arg: GenericArgKind,
    binders: &Binders,
) -> Result<GenericArgKind, F::Error>
    requires ready { F.ready folder.now cx.old.entries }
    requires held { ArgHeld cx.old.entries arg }
    ensures grew { Grew cx.old cx.new }
    ensures held { IfOk result (λ a. ArgHeld cx.new.entries a) }
    ensures folded { IfOk result (λ a. IsFoldUnder (F.action folder.now) binders.now cx.old cx.new arg_trees arg a) }
    ensures failed { IfErr result (λ e. FailsBy (F.fails folder.now) F.Error.from_gives cx.new.entries cx.new.limit e) }
{
    match arg {
        GenericArgKind::Lifetime(region) => {
            Ok(GenericArgKind::Lifetime(fold_region(cx, folder, region, binders)?))
        }
        GenericArgKind::Ty(ty) => Ok(GenericArgKind::Ty(fold_ty(alloc, cx, folder, ty, binders)?)),
        GenericArgKind::Const(ct) => {
            Ok(GenericArgKind::Const(fold_const(cx, folder, ct, binders)?))
        }
    }
}

/// The fold of the bounds of a `dyn`. Only the arguments of the principal trait have terms.
pub(crate) fn fold_bounds<F: FallibleTypeFolder>(
    alloc: Global,
    cx: &mut Interner,
    folder: &F,
    bounds: Bounds,
    binders: &Binders,
) -> Result<Bounds, F::Error>
    requires ready { F.ready folder.now cx.old.entries }
    requires held { Has cx.old.entries bounds_lists bounds.0 }
    ensures grew { Grew cx.old cx.new }
    ensures folded { IfOk result (λ r. IsHandleFold (F.action folder.now) binders.now cx.old cx.new bounds_lists bounds.0 r.0) }
    ensures failed { IfErr result (λ e. FailsBy (F.fails folder.now) F.Error.from_gives cx.new.entries cx.new.limit e) }
{
    let depth = cx.depth(bounds);
    let region = Region {
        kind: RegionKind::ReStatic,
    };
    let parts = TyKind::Dynamic(bounds, region);
    let mut memo = begin(alloc, cx, folder, parts, depth, binders)?;
    walk_bounds(alloc, cx, folder, bounds, binders, &mut memo)
}
