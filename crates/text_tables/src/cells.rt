//! Cells are made into terms, one after another.
ghost use Rattle.type_terms.specs.Growth.{GrewOrFull};
ghost use Rattle.std.specs.Prelude.{◌≡◌, ◌+◌, ◌≤◌, length};
ghost use Rattle.text_tables.specs.Lowers.{CellIsReady, LowersOrFails, IsLeafOf};

use crate::cell::TermCell;
use crate::stack::{
    Lowered, pop_args, pop_autos, pop_const, pop_lifetime, pop_principal, pop_type, pop_types,
};
use std::alloc::Global;
use type_terms::interner::Interner;
use type_terms::kinds::{BoundsData, ConstKind, Mutability, Principal, TyKind};
use type_terms::region::Region;
use type_terms::{AdtId, Fault, TraitId};

fn lower_leaf(
    cx: &mut Interner,
    stack: &Vec<Lowered>,
    cell: TermCell,
    kind: TyKind,
) -> Result<Lowered, Fault>
    requires leaf { IsLeafOf cell kind }
    requires ready { CellIsReady cell cx.old.entries stack.now.items }
    ensures lowers { LowersOrFails cell cx.old cx.new stack.now.items stack.now.items result }
    ensures terms { GrewOrFull cx.old cx.new result }
    ensures few { length cx.new.entries ≤ length cx.old.entries + 2 }
{
    let _at = stack;
    let _of = cell;
    let ty = cx.mk_ty(kind)?;
    Ok(Lowered::Type(ty))
}

fn lower_const(cx: &mut Interner, stack: &Vec<Lowered>, kind: ConstKind) -> Result<Lowered, Fault>
    requires { CellIsReady (TermCell.Const kind) cx.old.entries stack.now.items }
    ensures lowers { LowersOrFails (TermCell.Const kind) cx.old cx.new stack.now.items stack.now.items result }
    ensures terms { GrewOrFull cx.old cx.new result }
    ensures few { length cx.new.entries ≤ length cx.old.entries + 2 }
{
    let _at = stack;
    let value = cx.mk_const(kind)?;
    Ok(Lowered::Const(value))
}

fn lower_adt(
    alloc: Global,
    cx: &mut Interner,
    stack: &mut Vec<Lowered>,
    id: AdtId,
    args: u32,
) -> Result<Lowered, Fault>
    requires { CellIsReady (TermCell.Adt id args) cx.old.entries stack.old.items }
    ensures lowers { LowersOrFails (TermCell.Adt id args) cx.old cx.new stack.old.items stack.new.items result }
    ensures terms { GrewOrFull cx.old cx.new result }
    ensures few { length cx.new.entries ≤ length cx.old.entries + 2 }
{
    let list = pop_args(alloc, stack, args)?;
    let args = cx.mk_args(list)?;
    let ty = cx.mk_ty(TyKind::Adt(id, args))?;
    Ok(Lowered::Type(ty))
}

fn lower_ref(
    cx: &mut Interner,
    stack: &mut Vec<Lowered>,
    region: Region,
    mutability: Mutability,
) -> Result<Lowered, Fault>
    requires { CellIsReady (TermCell.Ref region mutability) cx.old.entries stack.old.items }
    ensures lowers { LowersOrFails (TermCell.Ref region mutability) cx.old cx.new stack.old.items stack.new.items result }
    ensures terms { GrewOrFull cx.old cx.new result }
    ensures few { length cx.new.entries ≤ length cx.old.entries + 2 }
{
    let referred = pop_type(stack);
    let ty = cx.mk_ty(TyKind::Ref(region, referred, mutability))?;
    Ok(Lowered::Type(ty))
}

fn lower_raw_ptr(
    cx: &mut Interner,
    stack: &mut Vec<Lowered>,
    mutability: Mutability,
) -> Result<Lowered, Fault>
    requires { CellIsReady (TermCell.RawPtr mutability) cx.old.entries stack.old.items }
    ensures lowers { LowersOrFails (TermCell.RawPtr mutability) cx.old cx.new stack.old.items stack.new.items result }
    ensures terms { GrewOrFull cx.old cx.new result }
    ensures few { length cx.new.entries ≤ length cx.old.entries + 2 }
{
    let pointed = pop_type(stack);
    let ty = cx.mk_ty(TyKind::RawPtr(pointed, mutability))?;
    Ok(Lowered::Type(ty))
}

fn lower_slice(cx: &mut Interner, stack: &mut Vec<Lowered>) -> Result<Lowered, Fault>
    requires { CellIsReady TermCell.Slice cx.old.entries stack.old.items }
    ensures lowers { LowersOrFails TermCell.Slice cx.old cx.new stack.old.items stack.new.items result }
    ensures terms { GrewOrFull cx.old cx.new result }
    ensures few { length cx.new.entries ≤ length cx.old.entries + 2 }
{
    let item = pop_type(stack);
    let ty = cx.mk_ty(TyKind::Slice(item))?;
    Ok(Lowered::Type(ty))
}

fn lower_array(cx: &mut Interner, stack: &mut Vec<Lowered>) -> Result<Lowered, Fault>
    requires { CellIsReady TermCell.Array cx.old.entries stack.old.items }
    ensures lowers { LowersOrFails TermCell.Array cx.old cx.new stack.old.items stack.new.items result }
    ensures terms { GrewOrFull cx.old cx.new result }
    ensures few { length cx.new.entries ≤ length cx.old.entries + 2 }
{
    let len = pop_const(stack);
    let item = pop_type(stack);
    let ty = cx.mk_ty(TyKind::Array(item, len))?;
    Ok(Lowered::Type(ty))
}

fn lower_tuple(
    alloc: Global,
    cx: &mut Interner,
    stack: &mut Vec<Lowered>,
    items: u32,
) -> Result<Lowered, Fault>
    requires { CellIsReady (TermCell.Tuple items) cx.old.entries stack.old.items }
    ensures lowers { LowersOrFails (TermCell.Tuple items) cx.old cx.new stack.old.items stack.new.items result }
    ensures terms { GrewOrFull cx.old cx.new result }
    ensures few { length cx.new.entries ≤ length cx.old.entries + 2 }
{
    let list = pop_types(alloc, stack, items)?;
    let tys = cx.mk_tys(list)?;
    let ty = cx.mk_ty(TyKind::Tuple(tys))?;
    Ok(Lowered::Type(ty))
}

fn lower_fn_ptr(
    alloc: Global,
    cx: &mut Interner,
    stack: &mut Vec<Lowered>,
    bound_vars: u32,
    types: u32,
) -> Result<Lowered, Fault>
    requires { CellIsReady (TermCell.FnPtr bound_vars types) cx.old.entries stack.old.items }
    ensures lowers { LowersOrFails (TermCell.FnPtr bound_vars types) cx.old cx.new stack.old.items stack.new.items result }
    ensures terms { GrewOrFull cx.old cx.new result }
    ensures few { length cx.new.entries ≤ length cx.old.entries + 2 }
{
    cx.lawful();
    let list = pop_types(alloc, stack, types)?;
    let tys = cx.mk_tys(list)?;
    let ty = cx.mk_ty(TyKind::FnPtr(bound_vars, tys))?;
    Ok(Lowered::Type(ty))
}

fn lower_principal(
    alloc: Global,
    cx: &mut Interner,
    stack: &mut Vec<Lowered>,
    bound_vars: u32,
    def_id: TraitId,
    args: u32,
) -> Result<Lowered, Fault>
    requires { CellIsReady (TermCell.Principal bound_vars def_id args) cx.old.entries stack.old.items }
    ensures lowers { LowersOrFails (TermCell.Principal bound_vars def_id args) cx.old cx.new stack.old.items stack.new.items result }
    ensures terms { GrewOrFull cx.old cx.new result }
    ensures few { length cx.new.entries ≤ length cx.old.entries + 2 }
{
    let list = pop_args(alloc, stack, args)?;
    let args = cx.mk_args(list)?;
    Ok(Lowered::Principal(Principal {
        bound_vars,
        def_id,
        args,
    }))
}

fn lower_dynamic(
    alloc: Global,
    cx: &mut Interner,
    stack: &mut Vec<Lowered>,
    has_principal: bool,
    autos: u32,
) -> Result<Lowered, Fault>
    requires { CellIsReady (TermCell.Dynamic has_principal autos) cx.old.entries stack.old.items }
    ensures lowers { LowersOrFails (TermCell.Dynamic has_principal autos) cx.old cx.new stack.old.items stack.new.items result }
    ensures terms { GrewOrFull cx.old cx.new result }
    ensures few { length cx.new.entries ≤ length cx.old.entries + 2 }
{
    let region = pop_lifetime(stack);
    let autos = pop_autos(alloc, stack, autos)?;
    let principal = pop_principal(stack, has_principal);
    let bounds = cx.mk_bounds(BoundsData { principal, autos })?;
    let ty = cx.mk_ty(TyKind::Dynamic(bounds, region))?;
    Ok(Lowered::Type(ty))
}

/// The term of a cell, made of the terms on the stack that are its parts.
pub(crate) fn lower_cell(
    alloc: Global,
    cx: &mut Interner,
    stack: &mut Vec<Lowered>,
    cell: TermCell,
) -> Result<Lowered, Fault>
    requires { CellIsReady cell cx.old.entries stack.old.items }
    ensures lowers { LowersOrFails cell cx.old cx.new stack.old.items stack.new.items result }
    ensures terms { GrewOrFull cx.old cx.new result }
    ensures few { length cx.new.entries ≤ length cx.old.entries + 2 }
{
    match cell {
        TermCell::Bool => lower_leaf(cx, stack, cell, TyKind::Bool),
        TermCell::Char => lower_leaf(cx, stack, cell, TyKind::Char),
        TermCell::Str => lower_leaf(cx, stack, cell, TyKind::Str),
        TermCell::Never => lower_leaf(cx, stack, cell, TyKind::Never),
        TermCell::Int(width) => lower_leaf(cx, stack, cell, TyKind::Int(width)),
        TermCell::Uint(width) => lower_leaf(cx, stack, cell, TyKind::Uint(width)),
        TermCell::Param(place) => lower_leaf(cx, stack, cell, TyKind::Param(place)),
        TermCell::Placeholder(place) => lower_leaf(cx, stack, cell, TyKind::Placeholder(place)),
        TermCell::Infer(vid) => lower_leaf(cx, stack, cell, TyKind::Infer(vid)),
        TermCell::Const(kind) => lower_const(cx, stack, kind),
        TermCell::Lifetime(region) => Ok(Lowered::Lifetime(region)),
        TermCell::Adt { id, args } => lower_adt(alloc, cx, stack, id, args),
        TermCell::Ref { region, mutability } => lower_ref(cx, stack, region, mutability),
        TermCell::RawPtr { mutability } => lower_raw_ptr(cx, stack, mutability),
        TermCell::Slice => lower_slice(cx, stack),
        TermCell::Array => lower_array(cx, stack),
        TermCell::Tuple { items } => lower_tuple(alloc, cx, stack, items),
        TermCell::FnPtr { bound_vars, types } => lower_fn_ptr(alloc, cx, stack, bound_vars, types),
        TermCell::Principal {
            bound_vars,
            def_id,
            args,
        } => lower_principal(alloc, cx, stack, bound_vars, def_id, args),
        TermCell::Auto(trait_id) => Ok(Lowered::Auto(trait_id)),
        TermCell::Dynamic {
            has_principal,
            autos,
        } => lower_dynamic(alloc, cx, stack, has_principal, autos),
    }
}
