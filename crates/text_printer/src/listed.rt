//! The values of a query's variables that a line lists.
ghost use Rattle.std.specs.Prelude.{◌≡◌, ◌≤◌, ◌++◌, ◌∷◌, [], map, OnOk, IfOk, suc};
ghost use Rattle.type_terms.specs.Promised.Label.{infer};
ghost use Rattle.type_terms.specs.Promised.Trees.{leaf};
ghost use Rattle.type_terms.specs.Codes.{same};
ghost use Rattle.type_terms.specs.Promised.Handles.{region_trees, arg_trees, ArgHeld, ArgsHeld};
ghost use Rattle.type_terms.specs.Promised.Handles.{Has, types, consts, trees_at};
ghost use Rattle.text_tables.specs.Views.{sort_of_kind};
ghost use Rattle.text_printer.specs.Listed.{listed_of, ListHeld, own_number, counted, valued_one, valued_of};

use std::alloc::{AllocError, Global};
use text_tables::{Param, ParamKind};
use type_terms::interner::Interner;
use type_terms::kinds::{Const, ConstKind, GenericArgKind, Ty, TyKind};
use type_terms::region::{Region, RegionKind};

/// A variable of a query with its value.
#[derive(Clone, Copy)]
pub(crate) struct Listed<'w> {
    pub variable: &'w Param,
    pub value: GenericArgKind,
}

/// How many variables of each kind there were.
#[derive(Clone, Copy)]
struct Counts {
    types: usize,
    consts: usize,
}

/// The number of the inference variable for the next variable, of this kind.
fn own_number(kind: ParamKind, counts: Counts) -> usize
    ensures { result ≡ own_number kind counts }
{
    match kind {
        ParamKind::Lifetime => 0,
        ParamKind::Type => counts.types,
        ParamKind::Const => counts.consts,
    }
}

fn is_unknown_region(region: Region, kind: ParamKind, number: usize) -> bool
    ensures { result ≡ same (leaf (infer (sort_of_kind kind) number)) (region_trees region) }
{
    match (region.kind, kind) {
        (RegionKind::ReVar(vid), ParamKind::Lifetime) => vid.index as usize == number,
        _ => false,
    }
}

fn is_unknown_ty(cx: &Interner, ty: Ty, kind: ParamKind, number: usize) -> bool
    requires { Has cx.now.entries types ty.0 }
    ensures { result ≡ same (leaf (infer (sort_of_kind kind) number)) (trees_at cx.now.entries ty.0) }
{
    match (cx.kind(ty), kind) {
        (TyKind::Infer(vid), ParamKind::Type) => vid.index as usize == number,
        _ => false,
    }
}

fn is_unknown_const(cx: &Interner, ct: Const, kind: ParamKind, number: usize) -> bool
    requires { Has cx.now.entries consts ct.0 }
    ensures { result ≡ same (leaf (infer (sort_of_kind kind) number)) (trees_at cx.now.entries ct.0) }
{
    match (cx.const_kind(ct), kind) {
        (ConstKind::Infer(vid), ParamKind::Const) => vid.index as usize == number,
        _ => false,
    }
}

fn is_unknown(cx: &Interner, value: GenericArgKind, kind: ParamKind, number: usize) -> bool
    requires { ArgHeld cx.now.entries value }
    ensures { result ≡ same (leaf (infer (sort_of_kind kind) number)) (arg_trees cx.now.entries value) }
{
    match value {
        GenericArgKind::Lifetime(region) => is_unknown_region(region, kind, number),
        GenericArgKind::Ty(ty) => is_unknown_ty(cx, ty, kind, number),
        GenericArgKind::Const(ct) => is_unknown_const(cx, ct, kind, number),
    }
}

/// Lists a variable with its value, unless the value is the variable itself.
fn list_one<'w>(
    cx: &Interner,
    listed: &mut Vec<Listed<'w>>,
    variable: &'w Param,
    value: GenericArgKind,
    number: usize,
) -> Result<(), AllocError>
    requires value { ArgHeld cx.now.entries value }
    requires held { ListHeld cx.now.entries listed.old.items }
    ensures held { OnOk result (ListHeld cx.now.entries listed.new.items) }
    ensures listed { OnOk result (map (listed_of cx.now.entries) listed.new.items
        ≡ map (listed_of cx.now.entries) listed.old.items ++ valued_one cx.now.entries variable.now value number) }
{
    if !is_unknown(cx, value, variable.kind, number) {
        listed.push(Listed { variable, value })?;
    }
    Ok(())
}

/// The counts after a variable of this kind.
fn counted(kind: ParamKind, counts: Counts) -> Counts
    requires types { suc counts.types ≤ usize.MAX }
    requires consts { suc counts.consts ≤ usize.MAX }
    ensures { result ≡ counted kind counts }
{
    match kind {
        ParamKind::Lifetime => counts,
        ParamKind::Type => Counts {
            types: counts.types + 1,
            consts: counts.consts,
        },
        ParamKind::Const => Counts {
            types: counts.types,
            consts: counts.consts + 1,
        },
    }
}

/// The variables with a value of their own, in their order.
pub(crate) fn listed_values<'w>(
    alloc: Global,
    cx: &Interner,
    variables: &'w [Param],
    values: &[GenericArgKind],
) -> Result<Vec<Listed<'w>>, AllocError>
    requires { ArgsHeld cx.now.entries values.now }
    ensures held { IfOk result (λ listed. ListHeld cx.now.entries listed.items) }
    ensures listed { IfOk result (λ listed. map (listed_of cx.now.entries) listed.items ≡ valued_of cx.now.entries variables.now values.now) }
{
    let mut listed = Vec::new(alloc);
    let mut counts = Counts {
        types: 0,
        consts: 0,
    };
    let mut rest = values;
    for variable in variables {
        match rest.split_first() {
            None => return Ok(listed),
            Some((value, others)) => {
                let number = own_number(variable.kind, counts);
                list_one(cx, &mut listed, variable, *value, number)?;
                counts = counted(variable.kind, counts);
                rest = others;
            }
        }
    }
    Ok(listed)
}
