//! Visits by recursion on the depth of a term.
ghost use Rattle.std.specs.ControlFlow.{break_value};
ghost use Rattle.type_terms.specs.Promised.Handles.{Has, types, bounds_lists, trees_at};
ghost use Rattle.type_terms.specs.Terms.{args_lists, type_lists};
ghost use Rattle.type_terms.specs.Promised.Handles.{ArgHeld, arg_trees};
ghost use Rattle.type_terms.specs.Binders.{counts_of};
ghost use Rattle.type_terms.specs.Visits.{VisitsBelow, VisitsTerms};

use crate::binders::Binders;
use crate::interner::Interner;
use crate::kinds::{Bounds, GenericArgKind, GenericArgs, Ty, TyKind, Tys};
use crate::visit::{Seen, TypeVisitor, visit_const, visit_region};
use std::ops::ControlFlow;

/// Visits a type by recursion, if it has at most 128 levels or memory is refused.
#[cycle(visits)]
pub(crate) fn see_ty<V: TypeVisitor>(
    cx: &Interner,
    visitor: &mut V,
    ty: Ty,
    binders: &Binders,
) -> ControlFlow<V::Break, ()>
    requires ready { V.ready visitor.old cx.now.entries }
    requires held { Has cx.now.entries types ty.0 }
    ensures ready { V.ready visitor.new cx.now.entries }
    ensures visited { VisitsTerms V.sees cx.now.entries binders.now (trees_at cx.now.entries ty.0) visitor.old visitor.new result }
{
    cx.lawful();
    match visitor.visit_ty(cx, ty, binders) {
        Seen::Break(value) => ControlFlow::Break(value),
        Seen::Pass => ControlFlow::Continue(()),
        Seen::Enter => see_below(cx, visitor, ty, binders),
    }
}

/// Visits the children of a type.
#[cycle(visits)]
pub(crate) fn see_below<V: TypeVisitor>(
    cx: &Interner,
    visitor: &mut V,
    ty: Ty,
    binders: &Binders,
) -> ControlFlow<V::Break, ()>
    requires ready { V.ready visitor.old cx.now.entries }
    requires held { Has cx.now.entries types ty.0 }
    ensures ready { V.ready visitor.new cx.now.entries }
    ensures visited { VisitsBelow (V.sees cx.now.entries) (counts_of binders.now) (trees_at cx.now.entries ty.0) visitor.old visitor.new (break_value result) }
{
    match cx.kind(ty) {
        TyKind::Adt(_, args) => see_args(cx, visitor, args, binders),
        TyKind::Ref(region, to, _) => match visit_region(cx, visitor, region, binders) {
            ControlFlow::Break(value) => ControlFlow::Break(value),
            ControlFlow::Continue(()) => see_ty(cx, visitor, to, binders),
        },
        TyKind::RawPtr(to, _) => see_ty(cx, visitor, to, binders),
        TyKind::Array(item, length) => match see_ty(cx, visitor, item, binders) {
            ControlFlow::Break(value) => ControlFlow::Break(value),
            ControlFlow::Continue(()) => visit_const(cx, visitor, length, binders),
        },
        TyKind::Slice(item) => see_ty(cx, visitor, item, binders),
        TyKind::Tuple(items) => see_tys(cx, visitor, items, binders),
        TyKind::FnPtr(count, tys) => {
            let inside = Binders::Inside(count, &*binders);
            see_tys(cx, visitor, tys, &inside)
        }
        TyKind::Dynamic(bounds, region) => match see_bounds(cx, visitor, bounds, binders) {
            ControlFlow::Break(value) => ControlFlow::Break(value),
            ControlFlow::Continue(()) => visit_region(cx, visitor, region, binders),
        },
        _ => ControlFlow::Continue(()),
    }
}

/// Visits the types of a list.
#[cycle(visits)]
pub(crate) fn see_tys<V: TypeVisitor>(
    cx: &Interner,
    visitor: &mut V,
    tys: Tys,
    binders: &Binders,
) -> ControlFlow<V::Break, ()>
    requires ready { V.ready visitor.old cx.now.entries }
    requires held { Has cx.now.entries type_lists tys.0 }
    ensures ready { V.ready visitor.new cx.now.entries }
    ensures visited { VisitsTerms V.sees cx.now.entries binders.now (trees_at cx.now.entries tys.0) visitor.old visitor.new result }
{
    for ty in cx.tys(tys) {
        match see_ty(cx, visitor, *ty, binders) {
            ControlFlow::Break(value) => return ControlFlow::Break(value),
            ControlFlow::Continue(()) => {}
        }
    }
    ControlFlow::Continue(())
}

/// Visits the arguments of a list.
#[cycle(visits)]
pub(crate) fn see_args<V: TypeVisitor>(
    cx: &Interner,
    visitor: &mut V,
    args: GenericArgs,
    binders: &Binders,
) -> ControlFlow<V::Break, ()>
    requires ready { V.ready visitor.old cx.now.entries }
    requires held { Has cx.now.entries args_lists args.0 }
    ensures ready { V.ready visitor.new cx.now.entries }
    ensures visited { VisitsTerms V.sees cx.now.entries binders.now (trees_at cx.now.entries args.0) visitor.old visitor.new result }
{
    for arg in cx.args(args) {
        match see_arg(cx, visitor, *arg, binders) {
            ControlFlow::Break(value) => return ControlFlow::Break(value),
            ControlFlow::Continue(()) => {}
        }
    }
    ControlFlow::Continue(())
}

/// Visits one argument by recursion.
#[cycle(visits)]
pub(crate) fn see_arg<V: TypeVisitor>(
    cx: &Interner,
    visitor: &mut V,
    arg: GenericArgKind,
    binders: &Binders,
) -> ControlFlow<V::Break, ()>
    requires ready { V.ready visitor.old cx.now.entries }
    requires held { ArgHeld cx.now.entries arg }
    ensures ready { V.ready visitor.new cx.now.entries }
    ensures visited { VisitsTerms V.sees cx.now.entries binders.now (arg_trees cx.now.entries arg) visitor.old visitor.new result }
{
    match arg {
        GenericArgKind::Lifetime(region) => visit_region(cx, visitor, region, binders),
        GenericArgKind::Ty(ty) => see_ty(cx, visitor, ty, binders),
        GenericArgKind::Const(ct) => visit_const(cx, visitor, ct, binders),
    }
}

/// Visits the bounds of a `dyn`.
#[cycle(visits)]
pub(crate) fn see_bounds<V: TypeVisitor>(
    cx: &Interner,
    visitor: &mut V,
    bounds: Bounds,
    binders: &Binders,
) -> ControlFlow<V::Break, ()>
    requires ready { V.ready visitor.old cx.now.entries }
    requires held { Has cx.now.entries bounds_lists bounds.0 }
    ensures ready { V.ready visitor.new cx.now.entries }
    ensures visited { VisitsTerms V.sees cx.now.entries binders.now (trees_at cx.now.entries bounds.0) visitor.old visitor.new result }
{
    match cx.bounds(bounds).principal {
        Some(principal) => {
            let inside = Binders::Inside(principal.bound_vars, &*binders);
            see_args(cx, visitor, principal.args, &inside)
        }
        None => ControlFlow::Continue(()),
    }
}
