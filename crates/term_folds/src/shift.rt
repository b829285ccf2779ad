//! Shifts of bound variables.
ghost use Rattle.type_terms.specs.Growth.{GrewOrFull};
ghost use Rattle.std.specs.Prelude.{◌≡◌, ℕ, ◌<◌, length, min, IfOk};
ghost use Rattle.type_terms.specs.Promised.Trees.{shift};
ghost use Rattle.type_terms.specs.Promised.Handles.{RegionHeld, region_trees};
ghost use Rattle.type_terms.specs.declared.TheConstants.{MAX_INDEX};
ghost use Rattle.type_terms.specs.Binders.{counts_of};
ghost use Rattle.type_terms.specs.Pieces.{each_piece};
ghost use Rattle.term_folds.specs.Shifts.{EachInRange, moved, moved_number};

use crate::fold::Answer;
use crate::foldable::TypeFoldable;
use crate::folder::TypeFolder;
use std::alloc::Global;
use type_terms::binders::Binders;
use type_terms::interner::Interner;
use type_terms::kinds::{Const, ConstKind, Ty, TyKind};
use type_terms::number::{BoundVarIndexKind, DebruijnIndex};
use type_terms::region::{Region, RegionKind};
use type_terms::{Fault, MAX_INDEX};

/// Shifts each bound variable that escapes the value.
///
/// rustc's `Shifter`. It does not enter a term without escaping bound variables.
#[derive(Clone, Copy)]
struct Shifter {
    amount: u32,
}

impl Shifter {
    /// The shifted number of a bound variable below these binders.
    fn moved(&self, binder: DebruijnIndex, binders: &Binders) -> DebruijnIndex
        requires { binder.index < MAX_INDEX }
        ensures range { result.index < MAX_INDEX }
        ensures moved { result.index ≡ moved_number (length (counts_of binders.now)) self.now.amount binder.index }
    {
        if binder.index < binders.depth().index {
            binder
        } else if self.amount < MAX_INDEX - binder.index {
            binder.shifted_in(self.amount)
        } else {
            binder
        }
    }
}

impl TypeFolder for Shifter {
    ghost use Rattle.std.proofs.Common.{refl};
    ghost use Rattle.term_folds.specs.Folds.{none_above};
    ghost use Rattle.term_folds.specs.Shifts.{shifting, shifting-bounds, shifting-once, shifting-by-depth};

    ghost ready = { λ _ _. Unit {0} };

    ghost action = { λ f _ bs t. shifting f.amount bs t };

    ghost fuel = { λ _ _ _. 0 };

    ghost ready_kept = { λ f old new k h. tt };

    ghost action_kept = { λ f old new k h. refl };

    ghost fuel_kept = { λ f old new k h. refl };

    ghost by_depth = { λ f es bs cs t e. shifting-by-depth f.amount bs cs t e };

    ghost enters_bounds = { λ f es bs t h. shifting-bounds f.amount bs t h };

    ghost falls = { λ f es bs t s h e. absurd (shifting-once f.amount bs t s e) };

    ghost below_node = { λ f es l c. none_above };

    ghost below_left = { λ f es x y. none_above };

    ghost below_right = { λ f es x y. none_above };

    fn fold_ty(&self, cx: &mut Interner, ty: Ty, binders: &Binders) -> Result<Answer<Ty>, Fault> {
        let kind = cx.kind(ty);
        match kind {
            TyKind::Bound(BoundVarIndexKind::Bound(binder), var) => {
                let moved = BoundVarIndexKind::Bound(self.moved(binder, binders));
                Ok(Answer::Replace(cx.mk_ty(TyKind::Bound(moved, var))?))
            }
            _ => {
                if binders.depth().index < cx.outer_exclusive_binder(ty).index {
                    Ok(Answer::Enter)
                } else {
                    Ok(Answer::Replace(ty))
                }
            }
        }
    }

    fn fold_const(
        &self,
        cx: &mut Interner,
        ct: Const,
        binders: &Binders,
    ) -> Result<Answer<Const>, Fault> {
        match cx.const_kind(ct) {
            ConstKind::Bound(BoundVarIndexKind::Bound(binder), var) => {
                let moved = BoundVarIndexKind::Bound(self.moved(binder, binders));
                Ok(Answer::Replace(cx.mk_const(ConstKind::Bound(moved, var))?))
            }
            _ => Ok(Answer::Replace(ct)),
        }
    }

    fn fold_region(
        &self,
        _cx: &Interner,
        region: Region,
        binders: &Binders,
    ) -> Result<Answer<Region>, Fault> {
        match region.kind {
            RegionKind::ReBound(BoundVarIndexKind::Bound(binder), var) => {
                let moved = BoundVarIndexKind::Bound(self.moved(binder, binders));
                Ok(Answer::Replace(Region {
                    kind: RegionKind::ReBound(moved, var),
                }))
            }
            _ => Ok(Answer::Replace(region)),
        }
    }
}

/// The value with `amount` added to the binder number of each escaping bound variable.
///
/// This is the value as it is written below `amount` more binders. `ReBound(0, 0)` shifted by 1 is `ReBound(1, 0)`. The
/// lifetime of `for<'a> fn(&'a u8)` does not change. The shifted numbers must be in range. rustc's `shift_vars`.
pub fn shift_vars<T: TypeFoldable>(
    alloc: Global,
    cx: &mut Interner,
    value: T,
    amount: u32,
) -> Result<T, Fault>
    requires held { T.held value cx.old.entries }
    requires range { EachInRange amount (T.pieces value cx.old.entries) }
    ensures terms { GrewOrFull cx.old cx.new result }
    ensures held { IfOk result (λ r. T.held r cx.new.entries) }
    ensures outline { IfOk result (λ r. T.outline r ≡ T.outline value) }
    ensures shifted { IfOk result (λ r. T.pieces r cx.new.entries ≡ each_piece (λ d t. shift d amount t) (T.pieces value cx.old.entries)) }
{
    value.fold_with(alloc, cx, &Shifter { amount })
}

/// The same, except that a number is unchanged if the sum is out of range.
pub(crate) fn moved_vars<T: TypeFoldable>(
    alloc: Global,
    cx: &mut Interner,
    value: T,
    amount: u32,
) -> Result<T, Fault>
    requires { T.held value cx.old.entries }
    ensures terms { GrewOrFull cx.old cx.new result }
    ensures held { IfOk result (λ r. T.held r cx.new.entries) }
    ensures moved { IfOk result (λ r. T.pieces r cx.new.entries ≡ each_piece (λ d t. moved d amount t) (T.pieces value cx.old.entries)) }
{
    let shifter = Shifter { amount };
    value.fold_with(alloc, cx, &shifter)
}

/// The same for a lifetime. It needs no interner.
pub(crate) fn moved_region(region: Region, amount: u32) -> Region
    requires { RegionHeld region.kind }
    ensures held { RegionHeld result.kind }
    ensures moved { region_trees result ≡ moved 0 amount (region_trees region) }
{
    match region.kind {
        RegionKind::ReBound(BoundVarIndexKind::Bound(binder), var) => {
            let moved = Shifter { amount }.moved(binder, &Binders::Outermost);
            Region {
                kind: RegionKind::ReBound(BoundVarIndexKind::Bound(moved), var),
            }
        }
        _ => region,
    }
}
