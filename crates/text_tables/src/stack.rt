//! The stack of the terms made so far.
ghost use Rattle.std.specs.Prelude.{◌≡◌, ◌∷◌, [], None, map, length, IsSome, MatchOption, IfOk, OnOk};
ghost use Rattle.text_tables.specs.Made.{off, off_autos, off_principal, is_type, is_const, is_lifetime_on_stack, is_arg};
ghost use Rattle.std.specs.List.Sorted.{IsStrictlyIncreasing};
ghost use Rattle.text_tables.specs.Stack.{stack_of, pushed_parts, parts_in, lowered_arg, lowered_type, lowered_auto, PopsPrincipal};

use std::alloc::{AllocError, Global};
use type_terms::TraitId;
use type_terms::kinds::{Const, GenericArgKind, Principal, Ty};
use type_terms::region::Region;

/// A term on the stack.
#[derive(Clone, Copy)]
pub(crate) enum Lowered {
    Type(Ty),
    Const(Const),
    Lifetime(Region),
    Principal(Principal),
    Auto(TraitId),
}

/// The stack with one more term on top.
pub(crate) fn push(stack: &mut Vec<Lowered>, term: Lowered) -> Result<(), AllocError>
    ensures { OnOk result (stack_of stack.new.items ≡ term ∷ stack_of stack.old.items) }
{
    stack.push(term)?;
    Ok(())
}

fn pop(stack: &mut Vec<Lowered>) -> Option<Lowered>
    ensures { MatchOption result (stack_of stack.old.items ≡ []) (λ x. stack_of stack.old.items ≡ x ∷ stack_of stack.new.items) }
{
    stack.pop()
}

/// The type on top.
pub(crate) fn pop_type(stack: &mut Vec<Lowered>) -> Ty
    requires { IsSome (off is_type 1 (parts_in stack.old.items)) }
    ensures { stack_of stack.old.items ≡ Lowered.Type result ∷ stack_of stack.new.items }
{
    let Some(top) = pop(stack) else {
        unreachable!();
    };
    match top {
        Lowered::Type(ty) => ty,
        _ => unreachable!(),
    }
}

/// The constant on top.
pub(crate) fn pop_const(stack: &mut Vec<Lowered>) -> Const
    requires { IsSome (off is_const 1 (parts_in stack.old.items)) }
    ensures { stack_of stack.old.items ≡ Lowered.Const result ∷ stack_of stack.new.items }
{
    let Some(top) = pop(stack) else {
        unreachable!();
    };
    match top {
        Lowered::Const(value) => value,
        _ => unreachable!(),
    }
}

/// The lifetime on top.
pub(crate) fn pop_lifetime(stack: &mut Vec<Lowered>) -> Region
    requires { IsSome (off is_lifetime_on_stack 1 (parts_in stack.old.items)) }
    ensures { stack_of stack.old.items ≡ Lowered.Lifetime result ∷ stack_of stack.new.items }
{
    let Some(top) = pop(stack) else {
        unreachable!();
    };
    match top {
        Lowered::Lifetime(region) => region,
        _ => unreachable!(),
    }
}

/// The principal trait on top, if there is to be one.
pub(crate) fn pop_principal(stack: &mut Vec<Lowered>, is_there: bool) -> Option<Principal>
    requires { IsSome (off_principal is_there (parts_in stack.old.items)) }
    ensures { PopsPrincipal is_there (stack_of stack.old.items) result (stack_of stack.new.items) }
{
    if !is_there {
        return None;
    }
    let Some(top) = pop(stack) else {
        unreachable!();
    };
    match top {
        Lowered::Principal(principal) => Some(principal),
        _ => unreachable!(),
    }
}

fn pop_arg(stack: &mut Vec<Lowered>) -> GenericArgKind
    requires { IsSome (off is_arg 1 (parts_in stack.old.items)) }
    ensures { stack_of stack.old.items ≡ lowered_arg result ∷ stack_of stack.new.items }
{
    let Some(top) = pop(stack) else {
        unreachable!();
    };
    match top {
        Lowered::Type(ty) => GenericArgKind::Ty(ty),
        Lowered::Const(value) => GenericArgKind::Const(value),
        Lowered::Lifetime(region) => GenericArgKind::Lifetime(region),
        _ => unreachable!(),
    }
}

/// The `count` arguments on top, in the order in which they were pushed.
pub(crate) fn pop_args(
    alloc: Global,
    stack: &mut Vec<Lowered>,
    count: u32,
) -> Result<Vec<GenericArgKind>, AllocError>
    requires { IsSome (off is_arg count (parts_in stack.old.items)) }
    ensures pushed { IfOk result (λ args. stack_of stack.old.items ≡ pushed_parts (map lowered_arg args.items) (stack_of stack.new.items)) }
    ensures count { IfOk result (λ args. length args.items ≡ count) }
{
    let mut args = Vec::new(alloc);
    let mut left = count;
    while left > 0 {
        args.push(pop_arg(stack))?;
        left -= 1;
    }
    args.reverse();
    Ok(args)
}

/// The `count` types on top, in the order in which they were pushed.
pub(crate) fn pop_types(
    alloc: Global,
    stack: &mut Vec<Lowered>,
    count: u32,
) -> Result<Vec<Ty>, AllocError>
    requires { IsSome (off is_type count (parts_in stack.old.items)) }
    ensures pushed { IfOk result (λ tys. stack_of stack.old.items ≡ pushed_parts (map lowered_type tys.items) (stack_of stack.new.items)) }
    ensures count { IfOk result (λ tys. length tys.items ≡ count) }
{
    let mut tys = Vec::new(alloc);
    let mut left = count;
    while left > 0 {
        tys.push(pop_type(stack))?;
        left -= 1;
    }
    tys.reverse();
    Ok(tys)
}

fn pop_auto(stack: &mut Vec<Lowered>) -> TraitId
    requires { IsSome (off_autos 1 None (parts_in stack.old.items)) }
    ensures { stack_of stack.old.items ≡ Lowered.Auto result ∷ stack_of stack.new.items }
{
    let Some(top) = pop(stack) else {
        unreachable!();
    };
    match top {
        Lowered::Auto(trait_id) => trait_id,
        _ => unreachable!(),
    }
}

/// The `count` auto traits on top, by rising number.
pub(crate) fn pop_autos(
    alloc: Global,
    stack: &mut Vec<Lowered>,
    count: u32,
) -> Result<Vec<TraitId>, AllocError>
    requires { IsSome (off_autos count None (parts_in stack.old.items)) }
    ensures pushed { IfOk result (λ autos. stack_of stack.old.items ≡ pushed_parts (map lowered_auto autos.items) (stack_of stack.new.items)) }
    ensures count { IfOk result (λ autos. length autos.items ≡ count) }
    ensures rise { IfOk result (λ autos. IsStrictlyIncreasing (map (λ t. t.index) autos.items)) }
{
    let mut autos = Vec::new(alloc);
    let mut left = count;
    while left > 0 {
        autos.push(pop_auto(stack))?;
        left -= 1;
    }
    autos.reverse();
    Ok(autos)
}
