//! The replacement of free lifetimes.
ghost use Rattle.type_terms.specs.Growth.{GrewOrFull};
ghost use Rattle.std.specs.Prelude.{◌≡◌, ℕ, IfOk};
ghost use Rattle.type_terms.specs.Promised.Label.{Label};
ghost use Rattle.type_terms.specs.Promised.Handles.{RegionHeld, region_label};
ghost use Rattle.type_terms.specs.Pieces.{each_piece};
ghost use Rattle.term_folds.specs.Regions.{regions_replaced};

use crate::fold::Answer;
use crate::foldable::TypeFoldable;
use crate::folder::TypeFolder;
use std::alloc::Global;
use type_terms::Fault;
use type_terms::binders::Binders;
use type_terms::interner::Interner;
use type_terms::kinds::{Const, Ty};
use type_terms::number::BoundVarIndexKind;
use type_terms::region::{Region, RegionKind};

/// A map of lifetimes. It replaces the closure of rustc's `fold_regions`, and its result depends on the lifetime only.
pub trait RegionMap {
    // The label of the lifetime that replaces one with this label.
    ghost image: { Self → Label → Label };

    /// The lifetime that replaces this one.
    fn map(&self, region: Region) -> Region
        requires { RegionHeld region.kind }
        ensures held { RegionHeld result.kind }
        ensures image { region_label result.kind ≡ image self.now (region_label region.kind) };
}

/// Replaces the lifetimes that no binder of the value binds. rustc's `RegionFolder`.
#[derive(Clone, Copy)]
pub struct RegionFolder<'a, M> {
    pub map: &'a M,
}

impl<M: RegionMap> TypeFolder for RegionFolder<'_, M> {
    ghost use Rattle.std.proofs.Common.{refl};
    ghost use Rattle.term_folds.specs.Folds.{none_above};
    ghost use Rattle.term_folds.specs.Regions.{replacing, replacing-bounds, replacing-once, replacing-by-depth};

    ghost ready = { λ _ _. Unit {0} };

    ghost action = { λ f _ bs t. replacing (M.image f.map.now) bs t };

    ghost fuel = { λ _ _ _. 0 };

    ghost ready_kept = { λ f old new k h. tt };

    ghost action_kept = { λ f old new k h. refl };

    ghost fuel_kept = { λ f old new k h. refl };

    ghost by_depth = { λ f es bs cs t e. replacing-by-depth (M.image f.map.now) bs cs t e };

    ghost enters_bounds = { λ f es bs t h. replacing-bounds (M.image f.map.now) bs t h };

    ghost falls = { λ f es bs t s h e. absurd (replacing-once (M.image f.map.now) bs t s e) };

    ghost below_node = { λ f es l c. none_above };

    ghost below_left = { λ f es x y. none_above };

    ghost below_right = { λ f es x y. none_above };

    fn fold_ty(&self, cx: &mut Interner, ty: Ty, _binders: &Binders) -> Result<Answer<Ty>, Fault> {
        let _ = cx.kind(ty);
        Ok(Answer::Enter)
    }

    fn fold_const(
        &self,
        cx: &mut Interner,
        ct: Const,
        _binders: &Binders,
    ) -> Result<Answer<Const>, Fault> {
        let _ = cx.const_kind(ct);
        Ok(Answer::Enter)
    }

    fn fold_region(
        &self,
        _cx: &Interner,
        region: Region,
        binders: &Binders,
    ) -> Result<Answer<Region>, Fault> {
        match region.kind {
            RegionKind::ReBound(BoundVarIndexKind::Bound(binder), _) => {
                if binder.index < binders.depth().index {
                    Ok(Answer::Enter)
                } else {
                    Ok(Answer::Replace(self.map.map(region)))
                }
            }
            _ => Ok(Answer::Replace(self.map.map(region))),
        }
    }
}

/// The value with each free lifetime replaced by its image under `map`. rustc's `fold_regions`.
///
/// A lifetime is free if no binder of the value binds it. The lifetime of `for<'a> fn(&'a u8)` does not change.
pub fn fold_regions<T: TypeFoldable, M: RegionMap>(
    alloc: Global,
    cx: &mut Interner,
    value: T,
    map: &M,
) -> Result<T, Fault>
    requires { T.held value cx.old.entries }
    ensures terms { GrewOrFull cx.old cx.new result }
    ensures held { IfOk result (λ r. T.held r cx.new.entries) }
    ensures outline { IfOk result (λ r. T.outline r ≡ T.outline value) }
    ensures replaced { IfOk result (λ r. T.pieces r cx.new.entries ≡ each_piece (regions_replaced (M.image map.now)) (T.pieces value cx.old.entries)) }
{
    value.fold_with(alloc, cx, &RegionFolder { map })
}
