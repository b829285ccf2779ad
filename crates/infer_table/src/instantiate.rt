//! The replacement of canonical variables by values.
ghost use Rattle.type_terms.specs.Growth.{GrewOrFull};
ghost use Rattle.std.specs.Prelude.{◌≡◌, ℕ, List, IfOk, IfSome, option_map};
ghost use Rattle.std.specs.List.{slice_get};
ghost use Rattle.type_terms.specs.Promised.Label.{of_type, of_const, of_lifetime, canonical};
ghost use Rattle.type_terms.specs.Promised.Handles.{Entry, Has, types, consts, trees_at};
ghost use Rattle.type_terms.specs.Promised.Handles.{ArgsHeld, RegionHeld, region_trees};
ghost use Rattle.infer_table.specs.Goals.{GoalHeld, goal_trees};
ghost use Rattle.infer_table.specs.Values.{values_of, value_for, goal_filled, are_unbound_flags};

use crate::goal::Goal;
use crate::known::type_has_kind;
use std::alloc::Global;
use term_folds::fold::Answer;
use term_folds::folder::TypeFolder;
use type_terms::Fault;
use type_terms::binders::Binders;
use type_terms::flags::TypeFlags;
use type_terms::interner::Interner;
use type_terms::kinds::{Const, ConstKind, GenericArgKind, Ty, TyKind};
use type_terms::number::{BoundVar, BoundVarIndexKind};
use type_terms::region::{Region, RegionKind};

/// The flags of terms with bound variables. Canonical variables are among these.
pub const BOUND_FLAGS: u32 = TypeFlags::HAS_TY_BOUND.0
    | TypeFlags::HAS_RE_BOUND.0
    | TypeFlags::HAS_CT_BOUND.0;

/// Whether terms with these flags have no bound variable.
fn is_unbound(flags: TypeFlags) -> bool
    ensures { result ≡ are_unbound_flags flags.0 }
{
    flags.0 & BOUND_FLAGS == 0
}

/// A folder that replaces canonical variables by values. A variable without a value of its kind is unchanged.
///
/// rustc's `CanonicalInstantiator`. It does not enter a type without bound variables.
#[derive(Clone, Copy)]
pub struct CanonicalInstantiator<'a> {
    /// Value i is the value of canonical variable i.
    pub values: &'a [GenericArgKind],
}

impl CanonicalInstantiator<'_> {
    fn value(&self, variable: BoundVar) -> Option<GenericArgKind>
        ensures { result ≡ slice_get self.now.values.now variable.index }
    {
        self.values.get(variable.index as usize).copied()
    }

    fn ty_value(&self, variable: BoundVar) -> Option<Ty>
        ensures value { (es : List Entry)
            → value_for (values_of es self.now.values.now) (canonical of_type variable.index) ≡ option_map (λ x. trees_at es x.0) result }
        ensures held { (es : List Entry) → ArgsHeld es self.now.values.now → IfSome result (λ x. Has es types x.0) }
    {
        match self.value(variable) {
            Some(value) => match value {
                GenericArgKind::Ty(value) => Some(value),
                GenericArgKind::Lifetime(_) => None,
                GenericArgKind::Const(_) => None,
            },
            None => None,
        }
    }

    fn const_value(&self, variable: BoundVar) -> Option<Const>
        ensures value { (es : List Entry)
            → value_for (values_of es self.now.values.now) (canonical of_const variable.index) ≡ option_map (λ x. trees_at es x.0) result }
        ensures held { (es : List Entry) → ArgsHeld es self.now.values.now → IfSome result (λ x. Has es consts x.0) }
    {
        match self.value(variable) {
            Some(value) => match value {
                GenericArgKind::Const(value) => Some(value),
                GenericArgKind::Lifetime(_) => None,
                GenericArgKind::Ty(_) => None,
            },
            None => None,
        }
    }

    fn region_value(&self, variable: BoundVar) -> Option<Region>
        ensures value { (es : List Entry)
            → value_for (values_of es self.now.values.now) (canonical of_lifetime variable.index) ≡ option_map (λ x. region_trees x) result }
        ensures held { (es : List Entry) → ArgsHeld es self.now.values.now → IfSome result (λ x. RegionHeld x.kind) }
    {
        match self.value(variable) {
            Some(value) => match value {
                GenericArgKind::Lifetime(value) => Some(value),
                GenericArgKind::Ty(_) => None,
                GenericArgKind::Const(_) => None,
            },
            None => None,
        }
    }
}

impl TypeFolder for CanonicalInstantiator<'_> {
    ghost use Rattle.std.proofs.Common.{refl};
    ghost use Rattle.type_terms.specs.Kept.{args-held-later};
    ghost use Rattle.term_folds.specs.Folds.{none_above};
    ghost use Rattle.infer_table.specs.Values.{filling, filling-bounds, filling-once, filling-later};

    ghost ready = { λ f es. ArgsHeld es f.values.now };

    ghost action = { λ f es bs t. filling (values_of es f.values.now) t };

    ghost fuel = { λ _ _ _. 0 };

    ghost ready_kept = { λ f old new k h. args-held-later old new k f.values.now h };

    ghost action_kept = { λ f old new k h. filling-later old new k f.values.now h };

    ghost fuel_kept = { λ f old new k h. refl };

    ghost by_depth = { λ f es bs cs t e. refl };

    ghost enters_bounds = { λ f es bs t h. filling-bounds (values_of es f.values.now) t h };

    ghost falls = { λ f es bs t s h e. absurd (filling-once (values_of es f.values.now) t s e) };

    ghost below_node = { λ f es l c. none_above };

    ghost below_left = { λ f es x y. none_above };

    ghost below_right = { λ f es x y. none_above };

    fn fold_ty(&self, cx: &mut Interner, ty: Ty, _binders: &Binders) -> Result<Answer<Ty>, Fault> {
        cx.lawful();
        type_has_kind(cx, ty);
        if is_unbound(cx.flags(ty)) {
            return Ok(Answer::Replace(ty));
        }
        match cx.kind(ty) {
            TyKind::Bound(index, variable) => match index {
                BoundVarIndexKind::Canonical => match self.ty_value(variable) {
                    Some(value) => Ok(Answer::Replace(value)),
                    None => Ok(Answer::Enter),
                },
                BoundVarIndexKind::Bound(_) => Ok(Answer::Enter),
            },
            _ => Ok(Answer::Enter),
        }
    }

    fn fold_const(
        &self,
        cx: &mut Interner,
        ct: Const,
        _binders: &Binders,
    ) -> Result<Answer<Const>, Fault> {
        match cx.const_kind(ct) {
            ConstKind::Bound(index, variable) => match index {
                BoundVarIndexKind::Canonical => match self.const_value(variable) {
                    Some(value) => Ok(Answer::Replace(value)),
                    None => Ok(Answer::Enter),
                },
                BoundVarIndexKind::Bound(_) => Ok(Answer::Enter),
            },
            _ => Ok(Answer::Enter),
        }
    }

    fn fold_region(
        &self,
        _cx: &Interner,
        region: Region,
        _binders: &Binders,
    ) -> Result<Answer<Region>, Fault> {
        match region.kind {
            RegionKind::ReBound(index, variable) => match index {
                BoundVarIndexKind::Canonical => match self.region_value(variable) {
                    Some(value) => Ok(Answer::Replace(value)),
                    None => Ok(Answer::Enter),
                },
                BoundVarIndexKind::Bound(_) => Ok(Answer::Enter),
            },
            _ => Ok(Answer::Enter),
        }
    }
}

/// The goal with canonical variable i replaced by value i.
///
/// A variable without a value of its kind is unchanged. Values have no escaping bound variables, so none is shifted. With
/// the values of `canonicalize_goal` the result is the resolved goal. rustc's `Canonical::instantiate`.
pub fn instantiate_with_values(
    alloc: Global,
    cx: &mut Interner,
    goal: &Goal,
    values: &[GenericArgKind],
) -> Result<Goal, Fault>
    requires goal { GoalHeld cx.old.entries goal.now }
    requires values { ArgsHeld cx.old.entries values.now }
    ensures terms { GrewOrFull cx.old cx.new result }
    ensures held { IfOk result (λ r. GoalHeld cx.new.entries r) }
    ensures filled { IfOk result (λ r. goal_trees cx.new.entries r ≡ goal_filled (values_of cx.old.entries values.now) (goal_trees cx.old.entries goal.now)) }
{
    goal.fold_with(alloc, cx, &CanonicalInstantiator { values })
}
