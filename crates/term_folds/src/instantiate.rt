//! Instantiation: parameters are replaced by arguments.
ghost use Rattle.std.specs.Prelude.{◌≡◌, ℕ, ◌<◌, length, min, not, IfOk, IfSome, option_map};
ghost use Rattle.type_terms.specs.Promised.Trees.{nth, some_node};
ghost use Rattle.type_terms.specs.Promised.Handles.{Keeps, Has, trees_at};
ghost use Rattle.type_terms.specs.Terms.{args_lists};
ghost use Rattle.type_terms.specs.Promised.Handles.{ArgHeld, arg_trees};
ghost use Rattle.term_folds.specs.Arguments.{is_any_param, sort_at, arg_sort};

use crate::fold::Answer;
use crate::folder::TypeFolder;
use crate::shift::{moved_region, moved_vars};
use bitflags::Flags;
use std::alloc::Global;
use type_terms::Fault;
use type_terms::binders::Binders;
use type_terms::flags::TypeFlags;
use type_terms::interner::{Handle, Interner};
use type_terms::kinds::{Const, ConstKind, GenericArgKind, GenericArgs, Ty, TyKind};
use type_terms::region::{Region, RegionKind};
use type_terms::visit::{Seen, TypeVisitor};

/// Why a value with parameters could not be instantiated.
///
/// rustc has no such error. It panics if a parameter has no argument of its kind, and its interner never refuses.
#[derive(Clone, Copy, Debug, PartialEq, Eq, thiserror::Error)]
pub enum InstantiateError {
    /// No argument has the index of the parameter.
    #[error("a parameter has no argument")]
    ParamOutOfRange,
    /// The argument is of another kind, such as `3` for the type parameter of `V<T>`.
    #[error("a parameter has an argument of another kind")]
    ParamKind,
    /// The interner refused a term, or memory was refused.
    #[error("{0}")]
    Fault(Fault),
}

impl From<Fault> for InstantiateError {
    ghost use Rattle.term_folds.specs.declared.instantiate.InstantiateError.TheVariants as error;

    ghost from_gives = { λ f e. e ≡ error.Fault f };

    fn from(fault: Fault) -> InstantiateError {
        InstantiateError::Fault(fault)
    }
}

/// The argument with this index, if there is one.
pub(crate) fn argument(cx: &Interner, args: GenericArgs, index: u32) -> Option<GenericArgKind>
    requires { Has cx.now.entries args_lists args.0 }
    ensures held { IfSome result (ArgHeld cx.now.entries) }
    ensures sort { sort_at (trees_at cx.now.entries args.0) index ≡ option_map arg_sort result }
    ensures tree { IfSome result (λ arg. arg_trees cx.now.entries arg ≡ nth (trees_at cx.now.entries args.0) index) }
{
    cx.lawful();
    cx.args(args).get(index as usize).copied()
}

/// Whether a term has a parameter. The flags of the term say so.
fn has_param<H: Handle>(cx: &Interner, term: H) -> bool
    requires { Has cx.now.entries H.handle_kind (H.handle_number term) }
    ensures { result ≡ some_node is_any_param (trees_at cx.now.entries (H.handle_number term)) }
{
    cx.flags(term).intersects(TypeFlags::HAS_PARAM)
}

/// Finds the first parameter without an argument of its kind, and records whether the value has a parameter.
///
/// A value is visited before it is folded. So the first such parameter determines the error, even if the interner would
/// refuse a term, and no term is interned before the error.
#[derive(Clone, Copy)]
pub(crate) struct ParamVisitor {
    pub args: GenericArgs,
    pub met: bool,
}

impl TypeVisitor for ParamVisitor {
    type Break = InstantiateError;

    ghost use Rattle.type_terms.specs.Promised.Handles.{Has, trees_at};
    ghost use Rattle.type_terms.specs.Terms.{args_lists};
    ghost use Rattle.term_folds.specs.Arguments.{Looks, looking-bounds};

    ghost ready = { λ v es. Has es args_lists v.args.0 };

    ghost sees = { λ es bs t v w a. Looks es bs t v w a };

    ghost enters_bounds = { λ v es bs t h. looking-bounds (trees_at es v.args.0) t v h };

    fn visit_ty(&mut self, cx: &Interner, ty: Ty, _binders: &Binders) -> Seen<InstantiateError> {
        match cx.kind(ty) {
            TyKind::Param(index) => {
                self.met = true;
                match argument(cx, self.args, index) {
                    Some(GenericArgKind::Ty(_)) => Seen::Pass,
                    Some(_) => Seen::Break(InstantiateError::ParamKind),
                    None => Seen::Break(InstantiateError::ParamOutOfRange),
                }
            }
            _ => {
                if has_param(cx, ty) {
                    Seen::Enter
                } else {
                    Seen::Pass
                }
            }
        }
    }

    fn visit_const(
        &mut self,
        cx: &Interner,
        ct: Const,
        _binders: &Binders,
    ) -> Seen<InstantiateError> {
        match cx.const_kind(ct) {
            ConstKind::Param(index) => {
                self.met = true;
                match argument(cx, self.args, index) {
                    Some(GenericArgKind::Const(_)) => Seen::Pass,
                    Some(_) => Seen::Break(InstantiateError::ParamKind),
                    None => Seen::Break(InstantiateError::ParamOutOfRange),
                }
            }
            _ => Seen::Pass,
        }
    }

    fn visit_region(
        &mut self,
        cx: &Interner,
        region: Region,
        _binders: &Binders,
    ) -> Seen<InstantiateError> {
        match region.kind {
            RegionKind::ReEarlyParam(index) => {
                self.met = true;
                match argument(cx, self.args, index) {
                    Some(GenericArgKind::Lifetime(_)) => Seen::Pass,
                    Some(_) => Seen::Break(InstantiateError::ParamKind),
                    None => Seen::Break(InstantiateError::ParamOutOfRange),
                }
            }
            _ => Seen::Pass,
        }
    }
}

/// Replaces each parameter by its argument, shifted by the number of binders above the parameter.
///
/// rustc's `ArgFolder`. It does not enter a term without parameters. It leaves a parameter without an argument of its kind
/// unchanged, but `instantiate` fails before it comes to one.
#[derive(Clone, Copy)]
pub(crate) struct ArgFolder {
    pub alloc: Global,
    pub args: GenericArgs,
}

impl TypeFolder for ArgFolder {
    ghost use Rattle.std.proofs.Common.{refl, ap};
    ghost use Rattle.type_terms.specs.Promised.Handles.{Has, trees_at};
    ghost use Rattle.type_terms.specs.Terms.{args_lists};
    ghost use Rattle.type_terms.specs.Kept.{has-later, trees-later};
    ghost use Rattle.term_folds.specs.Folds.{none_above};
    ghost use Rattle.term_folds.specs.Arguments.{putting, putting-bounds, putting-once, putting-by-depth};

    ghost ready = { λ f es. Has es args_lists f.args.0 };

    ghost action = { λ f es bs t. putting (trees_at es f.args.0) bs t };

    ghost fuel = { λ _ _ _. 0 };

    ghost ready_kept = { λ f old new k h. has-later old new k args_lists f.args.0 h };

    ghost action_kept = { λ f old new k h. ap putting (trees-later old new k args_lists f.args.0 h) };

    ghost fuel_kept = { λ f old new k h. refl };

    ghost by_depth = { λ f es bs cs t e. putting-by-depth (trees_at es f.args.0) bs cs t e };

    ghost enters_bounds = { λ f es bs t h. putting-bounds (trees_at es f.args.0) bs t h };

    ghost falls = { λ f es bs t s h e. absurd (putting-once (trees_at es f.args.0) bs t s e) };

    ghost below_node = { λ f es l c. none_above };

    ghost below_left = { λ f es x y. none_above };

    ghost below_right = { λ f es x y. none_above };

    fn fold_ty(&self, cx: &mut Interner, ty: Ty, binders: &Binders) -> Result<Answer<Ty>, Fault> {
        match cx.kind(ty) {
            TyKind::Param(index) => match argument(cx, self.args, index) {
                Some(GenericArgKind::Ty(arg)) => {
                    let arg = moved_vars(self.alloc, cx, arg, binders.depth().index)?;
                    Ok(Answer::Replace(arg))
                }
                _ => Ok(Answer::Enter),
            },
            _ => {
                if has_param(cx, ty) {
                    Ok(Answer::Enter)
                } else {
                    Ok(Answer::Replace(ty))
                }
            }
        }
    }

    fn fold_const(
        &self,
        cx: &mut Interner,
        ct: Const,
        binders: &Binders,
    ) -> Result<Answer<Const>, Fault> {
        match cx.const_kind(ct) {
            ConstKind::Param(index) => match argument(cx, self.args, index) {
                Some(GenericArgKind::Const(arg)) => {
                    let arg = moved_vars(self.alloc, cx, arg, binders.depth().index)?;
                    Ok(Answer::Replace(arg))
                }
                _ => Ok(Answer::Enter),
            },
            _ => Ok(Answer::Replace(ct)),
        }
    }

    fn fold_region(
        &self,
        cx: &Interner,
        region: Region,
        binders: &Binders,
    ) -> Result<Answer<Region>, Fault> {
        match region.kind {
            RegionKind::ReEarlyParam(index) => match argument(cx, self.args, index) {
                Some(GenericArgKind::Lifetime(arg)) => {
                    Ok(Answer::Replace(moved_region(arg, binders.depth().index)))
                }
                _ => Ok(Answer::Enter),
            },
            _ => Ok(Answer::Replace(region)),
        }
    }
}
