//! The folder that opens a binder.
ghost use Rattle.std.specs.Prelude.{◌≡◌, ◌+◌, ◌≤◌};
ghost use Rattle.type_terms.specs.declared.TheConstants.{MAX_INDEX};

use crate::known::{const_has_kind, type_has_kind};
use term_folds::fold::Answer;
use term_folds::folder::TypeFolder;
use type_terms::binders::Binders;
use type_terms::interner::Interner;
use type_terms::kinds::{Const, Ty};
use type_terms::number::{BoundVarIndexKind, RegionVid};
use type_terms::region::{Region, RegionKind};
use type_terms::{Fault, MAX_INDEX};

/// A folder that replaces the lifetimes of the binder around a value by lifetime variables.
///
/// rustc's `BoundVarReplacer`. It does not enter a type without escaping bound variables.
#[derive(Clone, Copy)]
pub(crate) struct BoundVarReplacer {
    /// The number of the variable for the binder's first lifetime.
    pub(crate) first: u32,
    /// The number of lifetimes of the binder.
    pub(crate) count: u32,
    ghost in_range: { first + count ≤ MAX_INDEX },
}

impl TypeFolder for BoundVarReplacer {
    ghost use Rattle.std.proofs.Common.{refl};
    ghost use Rattle.term_folds.specs.Folds.{none_above};
    ghost use Rattle.infer_table.specs.Opened.{opening, opening-bounds, opening-once, opening-by-depth};

    ghost ready = { λ _ _. Unit {0} };

    ghost action = { λ f _ bs t. opening f.first f.count bs t };

    ghost fuel = { λ _ _ _. 0 };

    ghost ready_kept = { λ f old new k h. tt };

    ghost action_kept = { λ f old new k h. refl };

    ghost fuel_kept = { λ f old new k h. refl };

    ghost by_depth = { λ f es bs cs t e. opening-by-depth f.first f.count bs cs t e };

    ghost enters_bounds = { λ f es bs t h. opening-bounds f.first f.count bs t h };

    ghost falls = { λ f es bs t s h e. absurd (opening-once f.first f.count bs t s e) };

    ghost below_node = { λ f es l c. none_above };

    ghost below_left = { λ f es x y. none_above };

    ghost below_right = { λ f es x y. none_above };

    fn fold_ty(&self, cx: &mut Interner, ty: Ty, binders: &Binders) -> Result<Answer<Ty>, Fault> {
        type_has_kind(cx, ty);
        if binders.depth().index < cx.outer_exclusive_binder(ty).index {
            Ok(Answer::Enter)
        } else {
            Ok(Answer::Replace(ty))
        }
    }

    fn fold_const(
        &self,
        cx: &mut Interner,
        ct: Const,
        _binders: &Binders,
    ) -> Result<Answer<Const>, Fault> {
        const_has_kind(cx, ct);
        Ok(Answer::Enter)
    }

    fn fold_region(
        &self,
        _cx: &Interner,
        region: Region,
        binders: &Binders,
    ) -> Result<Answer<Region>, Fault> {
        match region.kind {
            RegionKind::ReBound(BoundVarIndexKind::Bound(binder), var) => {
                if binder.index == binders.depth().index && var.index < self.count {
                    let vid = RegionVid {
                        index: self.first + var.index,
                    };
                    Ok(Answer::Replace(Region {
                        kind: RegionKind::ReVar(vid),
                    }))
                } else {
                    Ok(Answer::Replace(region))
                }
            }
            _ => Ok(Answer::Enter),
        }
    }
}
