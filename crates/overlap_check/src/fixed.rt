//! Where-clauses that a pair of impls fixes, found without equating the headers. For `impl<T> Show for V<T> where T: Num` and
//! `impl Show for V<u8>`, the where-clause is `u8: Num` in each common instance.
ghost use Rattle.std.specs.Prelude.{◌≡◌, IfOk, IfSome, OnOk};
ghost use Rattle.type_terms.specs.Promised.Handles.{Has, types, ArgsHeld, ArgHeld, arg_trees, trees_at};
ghost use Rattle.type_terms.specs.Kinds.{args_trees};
ghost use Rattle.type_terms.specs.Growth.{GrewOrFull};
ghost use Rattle.declarations.specs.Applied.{TraitRefsHeld};
ghost use Rattle.declarations.specs.Held.{ImplHeld, ReferenceHeld};
ghost use Rattle.declarations.specs.Items.{reference_in};
ghost use Rattle.declarations.specs.Promised.Elaboration.{Each};
ghost use Rattle.overlap_check.specs.FixedClauses.{IsFixedBy, IsFixedClauseBy, IsFixedGoalIn, AppendsFixedGoals, fixed_reference};

use declarations::items::ImplDef;
use std::alloc::{AllocError, Global};
use term_folds::predicate::TraitRef;
use type_terms::interner::Interner;
use type_terms::kinds::{GenericArgKind, Ty, TyKind};
use type_terms::{Fault, TraitId};

/// How many levels of two headers are compared.
const LEVELS: u32 = 3;

/// A trait reference without further arguments, whose self type has no parameters, variables and lifetimes: `u8: Num`.
#[derive(Clone, Copy, PartialEq, Eq, Hash)]
pub struct FixedGoal {
    pub def_id: TraitId,
    pub self_ty: Ty,
}

/// The type that a parameter of the left arguments is wherever they equal the right ones, if one of these levels shows it: `u8` for the T of
/// `V<T>, bool` and `V<u8>, A`.
#[cycle(fixing)]
fn fixed_in_args(
    cx: &Interner,
    index: u32,
    left: &[GenericArgKind],
    right: &[GenericArgKind],
    levels_below: u32,
) -> Option<Ty>
    requires left { ArgsHeld cx.now.entries left.now }
    requires right { ArgsHeld cx.now.entries right.now }
    ensures held { IfSome result (λ ty. Has cx.now.entries types ty.0) }
    ensures fixed { IfSome result (λ ty. IsFixedBy index (args_trees cx.now.entries left.now) (args_trees cx.now.entries right.now)
        (trees_at cx.now.entries ty.0)) }
{
    cx.lawful();
    let mut left_rest = left;
    let mut right_rest = right;
    'pairs: while let Some((first, left_others)) = left_rest.split_first() {
        let Some((second, right_others)) = right_rest.split_first() else {
            return None;
        };
        if let Some(ty) = fixed_in_arg(cx, index, *first, *second, levels_below) {
            return Some(ty);
        }
        left_rest = left_others;
        right_rest = right_others;
    }
    None
}

/// The same for two arguments.
#[cycle(fixing)]
fn fixed_in_arg(
    cx: &Interner,
    index: u32,
    left: GenericArgKind,
    right: GenericArgKind,
    levels_below: u32,
) -> Option<Ty>
    requires left { ArgHeld cx.now.entries left }
    requires right { ArgHeld cx.now.entries right }
    ensures held { IfSome result (λ ty. Has cx.now.entries types ty.0) }
    ensures fixed { IfSome result (λ ty. IsFixedBy index (arg_trees cx.now.entries left) (arg_trees cx.now.entries right) (trees_at cx.now.entries ty.0)) }
{
    let GenericArgKind::Ty(first) = left else {
        return None;
    };
    let GenericArgKind::Ty(second) = right else {
        return None;
    };
    match cx.kind(first) {
        TyKind::Param(param) => {
            if param == index && cx.flags(second).0 == 0 {
                Some(second)
            } else {
                None
            }
        }
        TyKind::Adt(_, args) => match cx.kind(second) {
            TyKind::Adt(_, other_args) => {
                if levels_below == 0 {
                    None
                } else {
                    fixed_in_args(
                        cx,
                        index,
                        cx.args(args),
                        cx.args(other_args),
                        levels_below - 1,
                    )
                }
            }
            _ => None,
        },
        _ => None,
    }
}

/// The self type of a where-clause `T: Trait` wherever the left header equals the right one, if it is found.
fn fixed_self_ty(cx: &Interner, clause: TraitRef, left: TraitRef, right: TraitRef) -> Option<Ty>
    requires clause { ReferenceHeld cx.now.entries clause }
    requires left { ReferenceHeld cx.now.entries left }
    requires right { ReferenceHeld cx.now.entries right }
    ensures held { IfSome result (λ ty. Has cx.now.entries types ty.0) }
    ensures fixed { IfSome result (λ ty. IsFixedClauseBy (trees_at cx.now.entries clause.args.0) (trees_at cx.now.entries left.args.0)
        (trees_at cx.now.entries right.args.0) (trees_at cx.now.entries ty.0)) }
{
    let [GenericArgKind::Ty(ty)] = cx.args(clause.args) else {
        return None;
    };
    let TyKind::Param(index) = cx.kind(*ty) else {
        return None;
    };
    fixed_in_args(cx, index, cx.args(left.args), cx.args(right.args), LEVELS)
}

/// Appends the goals that are found for the where-clauses of the impl with the left header.
fn add_fixed_goals(
    cx: &Interner,
    found: &mut Vec<FixedGoal>,
    clauses: &[TraitRef],
    left: TraitRef,
    right: TraitRef,
) -> Result<(), AllocError>
    requires clauses { TraitRefsHeld cx.now.entries clauses.now }
    requires left { ReferenceHeld cx.now.entries left }
    requires right { ReferenceHeld cx.now.entries right }
    ensures { OnOk result (AppendsFixedGoals cx.now.entries clauses.now left right found.old.items found.new.items) }
{
    let mut rest = clauses;
    'clauses: while let Some((clause, others)) = rest.split_first() {
        if let Some(self_ty) = fixed_self_ty(cx, *clause, left, right) {
            found.push(FixedGoal {
                def_id: clause.def_id,
                self_ty,
            })?;
        }
        rest = others;
    }
    Ok(())
}

/// Where-clauses `T: Trait` of two impls, as they are in each common instance, if a type without parameters and lifetimes stands for the T
/// in the other impl's header. For `impl<T> Show for V<T> where T: Num` and `impl<A> Show for V<S>`, there is `S: Num`.
///
/// Some levels of structs are looked at, so not each such where-clause is found. Fails only if memory is refused.
pub fn fixed_goals(
    alloc: Global,
    cx: &Interner,
    left: &ImplDef,
    right: &ImplDef,
) -> Result<Vec<FixedGoal>, AllocError>
    requires left { ImplHeld cx.now.entries left.now }
    requires right { ImplHeld cx.now.entries right.now }
    ensures { IfOk result (λ goals. Each (IsFixedGoalIn cx.now.entries left.now right.now) goals.items) }
{
    let mut found = Vec::new(alloc);
    add_fixed_goals(cx, &mut found, &left.clauses, left.header, right.header)?;
    add_fixed_goals(cx, &mut found, &right.clauses, right.header, left.header)?;
    Ok(found)
}

/// The goal as a trait reference of the interner.
///
/// Fails with `Full` only if the terms of some kind are at their limit, and with `Memory` if memory is refused.
pub fn goal_reference(alloc: Global, cx: &mut Interner, goal: FixedGoal) -> Result<TraitRef, Fault>
    requires { Has cx.old.entries types goal.self_ty.0 }
    ensures terms { GrewOrFull cx.old cx.new result }
    ensures held { IfOk result (ReferenceHeld cx.new.entries) }
    ensures is { IfOk result (λ r. reference_in cx.new.entries r ≡ fixed_reference cx.old.entries goal) }
{
    let list = vec![in alloc; GenericArgKind::Ty(goal.self_ty)]?;
    let args = cx.mk_args(list)?;
    Ok(TraitRef {
        def_id: goal.def_id,
        args,
    })
}
