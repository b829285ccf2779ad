//! Fresh inference variables for the parameters of impls.
ghost use Rattle.std.specs.Prelude.{◌≡◌, map, IfOk, OnOk};
ghost use Rattle.type_terms.specs.Promised.Label.{infer};
ghost use Rattle.type_terms.specs.Promised.Trees.{leaf};
ghost use Rattle.type_terms.specs.Promised.Handles.{Has, trees_at};
ghost use Rattle.type_terms.specs.Terms.{args_lists};
ghost use Rattle.type_terms.specs.Promised.Handles.{ArgHeld, arg_trees};
ghost use Rattle.type_terms.specs.Growth.{GrewOrFull};
ghost use Rattle.infer_table.specs.Content.{Ready, variables_of};
ghost use Rattle.declarations.specs.Applied.{sort_of_param};
ghost use Rattle.overlap_check.specs.Fresh.{with_unknown, with_unknowns, fresh_unknowns};

use declarations::items::GenericParamKind;
use infer_table::infer_ctxt::InferCtxt;
use std::alloc::Global;
use type_terms::Fault;
use type_terms::interner::Interner;
use type_terms::kinds::{GenericArgKind, GenericArgs};

/// Returns a new inference variable for a parameter of this kind. rustc: `var_for_def`.
fn var_for_param(
    cx: &mut Interner,
    table: &mut InferCtxt,
    kind: GenericParamKind,
) -> Result<GenericArgKind, Fault>
    requires { Ready cx.old.entries table.old }
    ensures ready { Ready cx.new.entries table.new }
    ensures terms { GrewOrFull cx.old cx.new result }
    ensures held { IfOk result (λ arg. ArgHeld cx.new.entries arg) }
    ensures is { IfOk result (λ arg. arg_trees cx.new.entries arg ≡ leaf (infer (sort_of_param kind) (variables_of table.old (sort_of_param kind)))) }
    ensures made { OnOk result (table.new ≡ with_unknown table.old (sort_of_param kind)) }
{
    match kind {
        GenericParamKind::Lifetime => {
            let region = table.next_region_var()?;
            Ok(GenericArgKind::Lifetime(region))
        }
        GenericParamKind::Type => {
            let ty = table.next_ty_var(cx)?;
            Ok(GenericArgKind::Ty(ty))
        }
        GenericParamKind::Const => {
            let ct = table.next_const_var(cx)?;
            Ok(GenericArgKind::Const(ct))
        }
    }
}

/// Returns a new inference variable for each parameter of an item, in order. rustc: `fresh_args_for_item`.
///
/// Fails with `Full` only if the terms of some kind are at their limit, and with `Memory` if memory is refused or no index remains for a
/// variable. Then the table may have some of the variables.
pub fn fresh_args_for_item(
    alloc: Global,
    cx: &mut Interner,
    table: &mut InferCtxt,
    params: &[GenericParamKind],
) -> Result<GenericArgs, Fault>
    requires { Ready cx.old.entries table.old }
    ensures ready { Ready cx.new.entries table.new }
    ensures terms { GrewOrFull cx.old cx.new result }
    ensures held { IfOk result (λ args. Has cx.new.entries args_lists args.0) }
    ensures are { IfOk result (λ args. trees_at cx.new.entries args.0 ≡ fresh_unknowns table.old (map sort_of_param params.now)) }
    ensures made { OnOk result (table.new ≡ with_unknowns table.old (map sort_of_param params.now)) }
{
    let mut unknowns = Vec::new(alloc);
    let mut left = params;
    'params: while let Some((kind, others)) = left.split_first() {
        let arg = var_for_param(cx, table, *kind)?;
        unknowns.push(arg)?;
        left = others;
    }
    cx.mk_args(unknowns)
}
