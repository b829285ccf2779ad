//! Visitors, and the visit of a term by one.
ghost use Rattle.std.specs.Prelude.{ℕ, List};
ghost use Rattle.std.specs.ControlFlow.{break_value};
ghost use Rattle.type_terms.specs.Promised.Trees.{Trees};
ghost use Rattle.type_terms.specs.Promised.Handles.{Entry, Has, types, consts, bounds_lists, trees_at};
ghost use Rattle.type_terms.specs.Terms.{args_lists, type_lists};
ghost use Rattle.type_terms.specs.Promised.Handles.{region_trees, RegionHeld, ArgHeld, arg_trees};
ghost use Rattle.type_terms.specs.Binders.{counts_of};
ghost use Rattle.type_terms.specs.Visits.{IsBound, VisitsBelow, VisitsTerms};

use crate::binders::Binders;
use crate::deep_visit::{Part, visit_below, visit_part};
use crate::interner::Interner;
use crate::kinds::{Bounds, Const, GenericArgKind, GenericArgs, Ty, Tys};
use crate::region::Region;
use std::ops::ControlFlow;

/// The greatest depth of a type that is visited by recursion alone.
pub const SHALLOW: u32 = 128;

/// What a visitor returns at a node.
#[derive(Clone, Copy)]
pub enum Seen<B> {
    /// The visit ends with this value.
    Break(B),
    /// The visit continues with the node's children.
    Enter,
    /// The visit continues after the node.
    Pass,
}

/// A visitor of terms (rustc: `TypeVisitor`). In rustc the visitor recurses by itself. Here it returns what to do with
/// a node.
///
/// A visit does not need memory. For a deep term it uses a list of what is still to be visited. If memory is refused it
/// recurses instead.
pub trait TypeVisitor {
    type Break: Drop;

    // The handles of the visitor are of this interner.
    ghost ready: { Self → List Entry → Type 0 };

    // At a node below these binders, the visitor becomes the second one, and returns this.
    ghost use Rattle.type_terms.specs.declared.visit.Seen.{Seen};
    ghost use Rattle.type_terms.specs.declared.visit.Seen.TheVariants.{Enter};

    ghost sees: { List Entry → List ℕ → Trees → Self → Self → Seen Self.Break → Type 0 };

    /// What to do at a type.
    fn visit_ty(&mut self, cx: &Interner, ty: Ty, binders: &Binders) -> Seen<Self::Break>
        requires ready { ready self.old cx.now.entries }
        requires held { Has cx.now.entries types ty.0 }
        ensures ready { ready self.new cx.now.entries }
        ensures sees { sees cx.now.entries (counts_of binders.now) (trees_at cx.now.entries ty.0) self.old self.new result };

    /// What to do at a constant.
    fn visit_const(&mut self, cx: &Interner, ct: Const, binders: &Binders) -> Seen<Self::Break>
        requires ready { ready self.old cx.now.entries }
        requires held { Has cx.now.entries consts ct.0 }
        ensures ready { ready self.new cx.now.entries }
        ensures sees { sees cx.now.entries (counts_of binders.now) (trees_at cx.now.entries ct.0) self.old self.new result };

    /// What to do at a lifetime.
    fn visit_region(
        &mut self,
        cx: &Interner,
        region: Region,
        binders: &Binders,
    ) -> Seen<Self::Break>
        requires ready { ready self.old cx.now.entries }
        requires held { RegionHeld region.kind }
        ensures ready { ready self.new cx.now.entries }
        ensures sees { sees cx.now.entries (counts_of binders.now) (region_trees region) self.old self.new result };

    // Bounds of a `dyn` are always entered.
    ghost enters_bounds: { (v : Self) (es : List Entry) (bs : List ℕ) (t : Trees) → IsBound t → sees es bs t v v Enter };
}

/// Visits a lifetime, which is one node.
pub fn visit_region<V: TypeVisitor>(
    cx: &Interner,
    visitor: &mut V,
    region: Region,
    binders: &Binders,
) -> ControlFlow<V::Break, ()>
    requires ready { V.ready visitor.old cx.now.entries }
    requires held { RegionHeld region.kind }
    ensures ready { V.ready visitor.new cx.now.entries }
    ensures visited { VisitsTerms V.sees cx.now.entries binders.now (region_trees region) visitor.old visitor.new result }
{
    match visitor.visit_region(cx, region, binders) {
        Seen::Break(value) => ControlFlow::Break(value),
        Seen::Enter => ControlFlow::Continue(()),
        Seen::Pass => ControlFlow::Continue(()),
    }
}

/// Visits a constant, which is one node.
pub(crate) fn visit_const<V: TypeVisitor>(
    cx: &Interner,
    visitor: &mut V,
    ct: Const,
    binders: &Binders,
) -> ControlFlow<V::Break, ()>
    requires ready { V.ready visitor.old cx.now.entries }
    requires held { Has cx.now.entries consts ct.0 }
    ensures ready { V.ready visitor.new cx.now.entries }
    ensures visited { VisitsTerms V.sees cx.now.entries binders.now (trees_at cx.now.entries ct.0) visitor.old visitor.new result }
{
    let kind = cx.const_kind(ct);
    let _ = kind;
    match visitor.visit_const(cx, ct, binders) {
        Seen::Break(value) => ControlFlow::Break(value),
        Seen::Enter => ControlFlow::Continue(()),
        Seen::Pass => ControlFlow::Continue(()),
    }
}

/// Visits a type: its own node first, and then, if the visitor enters it, its children in order. It visits nothing
/// after a break. A type deeper than 128 levels is visited by a list in memory.
pub fn visit_ty<V: TypeVisitor>(
    cx: &Interner,
    visitor: &mut V,
    ty: Ty,
    binders: &Binders,
) -> ControlFlow<V::Break, ()>
    requires ready { V.ready visitor.old cx.now.entries }
    requires held { Has cx.now.entries types ty.0 }
    ensures ready { V.ready visitor.new cx.now.entries }
    ensures visited { VisitsTerms V.sees cx.now.entries binders.now (trees_at cx.now.entries ty.0) visitor.old visitor.new result }
{
    visit_part(
        cx,
        visitor,
        Part::Arg(GenericArgKind::Ty(ty)),
        cx.depth(ty),
        binders,
    )
}

/// Visits the children of a type.
pub fn super_visit_ty<V: TypeVisitor>(
    cx: &Interner,
    visitor: &mut V,
    ty: Ty,
    binders: &Binders,
) -> ControlFlow<V::Break, ()>
    requires ready { V.ready visitor.old cx.now.entries }
    requires held { Has cx.now.entries types ty.0 }
    ensures ready { V.ready visitor.new cx.now.entries }
    ensures visited { VisitsBelow (V.sees cx.now.entries) (counts_of binders.now) (trees_at cx.now.entries ty.0) visitor.old visitor.new (break_value result) }
{
    visit_below(cx, visitor, ty, binders)
}

/// Visits the types of a list.
pub(crate) fn visit_tys<V: TypeVisitor>(
    cx: &Interner,
    visitor: &mut V,
    tys: Tys,
    binders: &Binders,
) -> ControlFlow<V::Break, ()>
    requires ready { V.ready visitor.old cx.now.entries }
    requires held { Has cx.now.entries type_lists tys.0 }
    ensures ready { V.ready visitor.new cx.now.entries }
    ensures visited { VisitsTerms V.sees cx.now.entries binders.now (trees_at cx.now.entries tys.0) visitor.old visitor.new result }
{
    visit_part(cx, visitor, Part::Tys(cx.tys(tys)), cx.depth(tys), binders)
}

/// Visits the arguments of a list.
pub fn visit_args<V: TypeVisitor>(
    cx: &Interner,
    visitor: &mut V,
    args: GenericArgs,
    binders: &Binders,
) -> ControlFlow<V::Break, ()>
    requires ready { V.ready visitor.old cx.now.entries }
    requires held { Has cx.now.entries args_lists args.0 }
    ensures ready { V.ready visitor.new cx.now.entries }
    ensures visited { VisitsTerms V.sees cx.now.entries binders.now (trees_at cx.now.entries args.0) visitor.old visitor.new result }
{
    visit_part(
        cx,
        visitor,
        Part::Args(cx.args(args)),
        cx.depth(args),
        binders,
    )
}

/// Visits one argument, by its kind.
pub(crate) fn visit_arg<V: TypeVisitor>(
    cx: &Interner,
    visitor: &mut V,
    arg: GenericArgKind,
    binders: &Binders,
) -> ControlFlow<V::Break, ()>
    requires ready { V.ready visitor.old cx.now.entries }
    requires held { ArgHeld cx.now.entries arg }
    ensures ready { V.ready visitor.new cx.now.entries }
    ensures visited { VisitsTerms V.sees cx.now.entries binders.now (arg_trees cx.now.entries arg) visitor.old visitor.new result }
{
    match arg {
        GenericArgKind::Lifetime(region) => visit_region(cx, visitor, region, binders),
        GenericArgKind::Ty(ty) => visit_ty(cx, visitor, ty, binders),
        GenericArgKind::Const(ct) => visit_const(cx, visitor, ct, binders),
    }
}

/// Visits the bounds of a `dyn`.
pub(crate) fn visit_bounds<V: TypeVisitor>(
    cx: &Interner,
    visitor: &mut V,
    bounds: Bounds,
    binders: &Binders,
) -> ControlFlow<V::Break, ()>
    requires ready { V.ready visitor.old cx.now.entries }
    requires held { Has cx.now.entries bounds_lists bounds.0 }
    ensures ready { V.ready visitor.new cx.now.entries }
    ensures visited { VisitsTerms V.sees cx.now.entries binders.now (trees_at cx.now.entries bounds.0) visitor.old visitor.new result }
{
    visit_part(cx, visitor, Part::Bounds(bounds), cx.depth(bounds), binders)
}
