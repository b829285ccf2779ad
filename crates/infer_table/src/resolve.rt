//! Resolution: variables are replaced by their values.
ghost use Rattle.type_terms.specs.Growth.{GrewOrFull};
ghost use Rattle.std.specs.Prelude.{◌≡◌, List, IfOk};
ghost use Rattle.type_terms.specs.Pieces.{each_piece};
ghost use Rattle.infer_table.specs.Solutions.{resolved};
ghost use Rattle.infer_table.specs.Content.{content, Ready};

use crate::infer_ctxt::InferCtxt;
use term_folds::fold::Answer;
use term_folds::foldable::TypeFoldable;
use term_folds::folder::TypeFolder;
use type_terms::Fault;
use type_terms::binders::Binders;
use type_terms::flags::TypeFlags;
use type_terms::interner::Interner;
use type_terms::kinds::{Const, ConstKind, Ty, TyKind};
use type_terms::region::{Region, RegionKind};

/// The flags of terms with variables that can have values. A variable for a lifetime never has one.
pub(crate) const VALUE_FLAGS: u32 = TypeFlags::HAS_TY_INFER.0 | TypeFlags::HAS_CT_INFER.0;

/// A folder that replaces the variables of a table by their values.
///
/// rustc's `EagerResolver`. It does not enter a type without variables that can have values.
#[derive(Clone, Copy)]
struct EagerResolver<'a> {
    table: &'a InferCtxt,
}

impl TypeFolder for EagerResolver<'_> {
    ghost use Rattle.std.proofs.Common.{ap};
    ghost use Rattle.infer_table.specs.Content.{content};
    ghost use Rattle.infer_table.specs.Kept.{content-kept};
    ghost use Rattle.infer_table.specs.Resolving.{resolves, resolves-bounds, resolves-by-depth, to_resolve, below-node, below-left, below-right, IsResolver, resolver-later};

    ghost ready = { λ f es. IsResolver es f.table.now };

    ghost action = { λ f es ds t. resolves (content es f.table.now.values) ds t };

    ghost fuel = { λ f es t. to_resolve (content es f.table.now.values) t };

    ghost ready_kept = { λ f old new k h. resolver-later old new f.table.now k h };

    ghost action_kept = { λ f old new k h. ap resolves (content-kept old new f.table.now.values k h.ready.held) };

    ghost fuel_kept = { λ f old new k h. ap to_resolve (content-kept old new f.table.now.values k h.ready.held) };

    ghost by_depth = { λ f es bs cs t e. resolves-by-depth (content es f.table.now.values) bs cs t };

    ghost enters_bounds = { λ f es ds t h. resolves-bounds (content es f.table.now.values) ds t h };

    ghost falls = { λ f es ds t s h e. h.falls ds t s e };

    ghost below_node = { λ f es l c. below-node (content es f.table.now.values) l c };

    ghost below_left = { λ f es x y. below-left (content es f.table.now.values) x y };

    ghost below_right = { λ f es x y. below-right (content es f.table.now.values) x y };

    fn leads_on(&self) -> bool {
        self.table.has_values()
    }

    fn fold_ty(&self, cx: &mut Interner, ty: Ty, _binders: &Binders) -> Result<Answer<Ty>, Fault> {
        match cx.kind(ty) {
            TyKind::Infer(_) => {
                let value = self.table.shallow_resolve(cx, ty);
                match cx.kind(value) {
                    TyKind::Infer(_) => Ok(Answer::Replace(value)),
                    _ => Ok(Answer::Again(value)),
                }
            }
            _ => {
                if cx.flags(ty).0 & VALUE_FLAGS == 0 {
                    Ok(Answer::Replace(ty))
                } else {
                    Ok(Answer::Enter)
                }
            }
        }
    }

    fn fold_const(
        &self,
        cx: &mut Interner,
        ct: Const,
        _binders: &Binders,
    ) -> Result<Answer<Const>, Fault> {
        match cx.const_kind(ct) {
            ConstKind::Infer(_) => {
                let constant = self.table.shallow_resolve_const(cx, ct);
                match cx.const_kind(constant) {
                    ConstKind::Infer(_) => Ok(Answer::Replace(constant)),
                    _ => Ok(Answer::Again(constant)),
                }
            }
            _ => Ok(Answer::Enter),
        }
    }

    fn fold_region(
        &self,
        _cx: &Interner,
        region: Region,
        _binders: &Binders,
    ) -> Result<Answer<Region>, Fault> {
        match region.kind {
            RegionKind::ReVar(_) => Ok(Answer::Replace(region)),
            _ => Ok(Answer::Enter),
        }
    }
}

impl InferCtxt {
    /// The value with each variable replaced by its resolved value, if it has one. rustc's `eager_resolve_vars`.
    ///
    /// The result has no variable with a value, and the same instance as `value` under each solution of the table
    /// (`resolving_laws`). Lifetimes do not change.
    pub fn eager_resolve_vars<T: TypeFoldable>(
        &self,
        cx: &mut Interner,
        value: T,
    ) -> Result<T, Fault>
        requires held { T.held value cx.old.entries }
        requires ready { Ready cx.old.entries self.now }
        ensures ready { Ready cx.new.entries self.now }
        ensures terms { GrewOrFull cx.old cx.new result }
        ensures held { IfOk result (λ r. T.held r cx.new.entries) }
        ensures outline { IfOk result (λ r. T.outline r ≡ T.outline value) }
        // Each piece of the result is the resolved piece of the value.
        ensures resolved { IfOk result (λ r. T.pieces r cx.new.entries
            ≡ each_piece (λ d t. resolved (content cx.old.entries self.now.values) t) (T.pieces value cx.old.entries)) }
    {
        value.fold_with(self.alloc, cx, &EagerResolver { table: self })
    }
}
