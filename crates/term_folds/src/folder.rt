//! Folders without an error of their own.
ghost use Rattle.type_terms.specs.Growth.{Grew};
ghost use Rattle.std.specs.Prelude.{◌≡◌, ℕ, ◌<◌, ◌≤◌, ◌⊎◌, List, length, IfOk, Err};
ghost use Rattle.type_terms.specs.Promised.Label.{Label};
ghost use Rattle.type_terms.specs.Promised.Trees.{Trees, none, tree, ◌+++◌};
ghost use Rattle.type_terms.specs.Promised.Handles.{Entry, Is, Has, Keeps, types, consts, trees_at};
ghost use Rattle.type_terms.specs.Promised.Handles.{region_trees, RegionHeld};
ghost use Rattle.type_terms.specs.Binders.{counts_of};
ghost use Rattle.type_terms.specs.Promised.Handles.{SomeKindIsFull};
ghost use Rattle.term_folds.specs.Folds.{Does, enters, again, TyAnswer, ConstAnswer, RegionAnswer};
ghost use Rattle.type_terms.specs.Visits.{IsBound};

use crate::fold::{Answer, FallibleTypeFolder};
use type_terms::Fault;
use type_terms::binders::Binders;
use type_terms::interner::Interner;
use type_terms::kinds::{Const, Ty};
use type_terms::region::Region;

/// A folder that fails only if a term cannot be interned.
///
/// It fails with `Memory` if memory is refused. It fails with `Full` if some kind of term has reached its limit, or for
/// a reason of its own (`refuses`). rustc's `TypeFolder` recurses itself. This one returns what to do at a node.
pub trait TypeFolder {
    // The handles in the folder are of an interner with these entries.
    ghost ready: { Self → List Entry → Type 0 };

    // What the folder does at a node under these binders.
    ghost action: { Self → List Entry → List ℕ → Trees → Does };

    // The folder may fail with `Full` for a reason of its own.
    ghost refuses: { Self → Type 0 } = { λ _. ⊥ };

    // A measure that decreases from a node to the value of `Again`.
    ghost fuel: { Self → List Entry → Trees → ℕ };

    /// Called at each type that the fold comes to.
    fn fold_ty(&self, cx: &mut Interner, ty: Ty, binders: &Binders) -> Result<Answer<Ty>, Fault>
        requires ready { ready self.now cx.old.entries }
        requires held { Has cx.old.entries types ty.0 }
        ensures grew { Grew cx.old cx.new }
        ensures answer { IfOk result (λ r. TyAnswer (action self.now cx.old.entries (counts_of binders.now) (trees_at cx.old.entries ty.0)) cx.new r) }
        ensures full { result ≡ Err Fault.Full → SomeKindIsFull cx.new.entries cx.new.limit ⊎ refuses self.now };

    /// Called at each constant.
    fn fold_const(
        &self,
        cx: &mut Interner,
        ct: Const,
        binders: &Binders,
    ) -> Result<Answer<Const>, Fault>
        requires ready { ready self.now cx.old.entries }
        requires held { Has cx.old.entries consts ct.0 }
        ensures grew { Grew cx.old cx.new }
        ensures answer { IfOk result (λ r. ConstAnswer (action self.now cx.old.entries (counts_of binders.now) (trees_at cx.old.entries ct.0)) cx.new r) }
        ensures full { result ≡ Err Fault.Full → SomeKindIsFull cx.new.entries cx.new.limit ⊎ refuses self.now };

    /// Called at each lifetime.
    fn fold_region(
        &self,
        cx: &Interner,
        region: Region,
        binders: &Binders,
    ) -> Result<Answer<Region>, Fault>
        requires ready { ready self.now cx.now.entries }
        requires held { RegionHeld region.kind }
        ensures answer { IfOk result (λ r. RegionAnswer (action self.now cx.now.entries (counts_of binders.now) (region_trees region)) r) }
        ensures full { result ≡ Err Fault.Full → SomeKindIsFull cx.now.entries cx.now.limit ⊎ refuses self.now };

    /// Whether the folder may return `Again` with a value that is deeper than the type. This affects the stack that a fold
    /// uses, and no result.
    fn leads_on(&self) -> bool {
        false
    }

    // The handles remain of the interner as it grows.
    ghost ready_kept: { (f : Self) (old new : List Entry) → Keeps old new → ready f old → ready f new };

    // And they denote the same trees.
    ghost action_kept: { (f : Self) (old new : List Entry) → Keeps old new → ready f old → action f new ≡ action f old };

    ghost fuel_kept: { (f : Self) (old new : List Entry) → Keeps old new → ready f old → fuel f new ≡ fuel f old };

    // The action depends on the number of binders around a node, not on how many lifetimes each binds.
    ghost by_depth: { (f : Self) (es : List Entry) (bs cs : List ℕ) (t : Trees) → length bs ≡ length cs → action f es bs t ≡ action f es cs t };

    // The folder enters the bounds of a `dyn`.
    ghost enters_bounds: { (f : Self) (es : List Entry) (bs : List ℕ) (t : Trees) → IsBound t → action f es bs t ≡ enters };

    // The value of `Again` has less fuel, and a part has at most the fuel of the whole.
    ghost falls: { (f : Self) (es : List Entry) (bs : List ℕ) (t s : Trees) → ready f es → action f es bs t ≡ again s → fuel f es s < fuel f es t };

    ghost below_node: { (f : Self) (es : List Entry) (l : Label) (c : Trees) → fuel f es c ≤ fuel f es (tree l c none) };

    ghost below_left: { (f : Self) (es : List Entry) (x y : Trees) → fuel f es x ≤ fuel f es (x +++ y) };

    ghost below_right: { (f : Self) (es : List Entry) (x y : Trees) → fuel f es y ≤ fuel f es (x +++ y) };
}

/// A `TypeFolder` as a `FallibleTypeFolder`.
#[derive(Clone, Copy)]
pub struct Infallible<'a, F>(pub &'a F);

impl<F: TypeFolder> FallibleTypeFolder for Infallible<'_, F> {
    type Error = Fault;

    ghost use Rattle.type_terms.specs.declared.Fault.TheVariants as fault;

    ghost ready = { λ f es. F.ready f.0.now es };

    ghost action = { λ f es. F.action f.0.now es };

    ghost fails = { λ f e. (e ≡ fault.Full) × F.refuses f.0.now };

    ghost fuel = { λ f es. F.fuel f.0.now es };

    ghost ready_kept = { λ f old new k h. F.ready_kept f.0.now old new k h };

    ghost action_kept = { λ f old new k h. F.action_kept f.0.now old new k h };

    ghost fuel_kept = { λ f old new k h. F.fuel_kept f.0.now old new k h };

    ghost by_depth = { λ f es bs cs t e. F.by_depth f.0.now es bs cs t e };

    ghost enters_bounds = { λ f es bs t h. F.enters_bounds f.0.now es bs t h };

    ghost falls = { λ f es bs t s h e. F.falls f.0.now es bs t s h e };

    ghost below_node = { λ f es l c. F.below_node f.0.now es l c };

    ghost below_left = { λ f es x y. F.below_left f.0.now es x y };

    ghost below_right = { λ f es x y. F.below_right f.0.now es x y };

    fn leads_on(&self) -> bool {
        self.0.leads_on()
    }

    fn try_fold_ty(
        &self,
        cx: &mut Interner,
        ty: Ty,
        binders: &Binders,
    ) -> Result<Answer<Ty>, Fault> {
        self.0.fold_ty(cx, ty, binders)
    }

    fn try_fold_const(
        &self,
        cx: &mut Interner,
        ct: Const,
        binders: &Binders,
    ) -> Result<Answer<Const>, Fault> {
        self.0.fold_const(cx, ct, binders)
    }

    fn try_fold_region(
        &self,
        cx: &Interner,
        region: Region,
        binders: &Binders,
    ) -> Result<Answer<Region>, Fault> {
        self.0.fold_region(cx, region, binders)
    }
}
