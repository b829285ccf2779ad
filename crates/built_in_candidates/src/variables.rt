//! The variables of a goal's canonical form.
ghost use Rattle.std.specs.Prelude.{◌≡◌};
ghost use Rattle.type_terms.specs.Promised.Handles.{Has, types, trees_at};
ghost use Rattle.goal_evaluator.specs.FrameTables.{kind_at};
ghost use Rattle.candidate_model.specs.Asking.{begins_unknown};

use infer_table::canonical::CanonicalVarKind;
use type_terms::interner::Interner;
use type_terms::kinds::{Ty, TyKind};
use type_terms::number::{BoundVar, BoundVarIndexKind};

/// The kind of a goal's canonical variable. Returns `None` for a variable that a candidate added after those of the goal.
pub fn kind_of(kinds: &[CanonicalVarKind], variable: BoundVar) -> Option<CanonicalVarKind>
    ensures { result ≡ kind_at kinds.now variable.index }
{
    kinds.get(variable.index as usize).copied()
}

/// Whether the type is an inference variable of the goal: a canonical variable of the kind `Ty`. A placeholder is none.
pub fn is_unknown(cx: &Interner, kinds: &[CanonicalVarKind], ty: Ty) -> bool
    requires { Has cx.now.entries types ty.0 }
    ensures { result ≡ begins_unknown kinds.now (trees_at cx.now.entries ty.0) }
{
    cx.lawful();
    match cx.kind(ty) {
        TyKind::Bound(BoundVarIndexKind::Canonical, variable) => {
            matches!(kind_of(kinds, variable), Some(CanonicalVarKind::Ty))
        }
        TyKind::Bound(BoundVarIndexKind::Bound(_), _)
        | TyKind::Bool
        | TyKind::Char
        | TyKind::Int(_)
        | TyKind::Uint(_)
        | TyKind::Str
        | TyKind::Never
        | TyKind::Adt(_, _)
        | TyKind::Ref(_, _, _)
        | TyKind::RawPtr(_, _)
        | TyKind::Array(_, _)
        | TyKind::Slice(_)
        | TyKind::Tuple(_)
        | TyKind::FnPtr(_, _)
        | TyKind::Dynamic(_, _)
        | TyKind::Param(_)
        | TyKind::Placeholder(_)
        | TyKind::Infer(_) => false,
    }
}
