//! Values that contain terms.
ghost use Rattle.std.specs.Prelude.{◌≡◌, ℕ, List, []};
ghost use Rattle.std.specs.ControlFlow.{break_value};
ghost use Rattle.type_terms.specs.Promised.Handles.{Entry, Keeps};
ghost use Rattle.type_terms.specs.Pieces.{Piece};
ghost use Rattle.type_terms.specs.Visits.{VisitsEach, VisitsPieces};

use crate::binders::Binders;
use crate::interner::Interner;
use crate::kinds::{Bounds, Const, GenericArgKind, GenericArgs, Ty, Tys};
use crate::region::Region;
use crate::visit::{
    TypeVisitor, visit_arg, visit_args, visit_bounds, visit_const, visit_region, visit_ty,
    visit_tys,
};
use std::ops::ControlFlow;

/// A value that contains terms of an interner.
pub trait TypeVisitable: Copy {
    // Its handles are of this interner.
    ghost held: { Self → List Entry → Type 0 };

    // What a fold does not change: item numbers, numbers of bound lifetimes, and which variant it is.
    ghost outline: { Self → List ℕ };

    // Its terms, each with the binders of the value that are around it.
    ghost pieces: { Self → List Entry → List Piece };

    /// Visits the value below these binders.
    fn visit_under<V: TypeVisitor>(
        self,
        cx: &Interner,
        visitor: &mut V,
        binders: &Binders,
    ) -> ControlFlow<V::Break, ()>
        requires ready { V.ready visitor.old cx.now.entries }
        requires held { held self cx.now.entries }
        ensures ready { V.ready visitor.new cx.now.entries }
        ensures visited { VisitsPieces V.sees cx.now.entries binders.now (pieces self cx.now.entries) visitor.old visitor.new result };

    /// Visits the value: each node in order, the children of those that the visitor enters, and nothing after a break.
    final fn visit_with<V: TypeVisitor>(
        self,
        cx: &Interner,
        visitor: &mut V,
    ) -> ControlFlow<V::Break, ()>
        requires ready { V.ready visitor.old cx.now.entries }
        requires held { held self cx.now.entries }
        ensures ready { V.ready visitor.new cx.now.entries }
        ensures visited { VisitsEach (V.sees cx.now.entries) [] (pieces self cx.now.entries) visitor.old visitor.new (break_value result) }
    {
        self.visit_under(cx, visitor, &Binders::Outermost)
    }

    // They still are when the interner has grown.
    ghost held_kept: { (x : Self) (old new : List Entry) → Keeps old new → held x old → held x new };

    ghost pieces_kept: { (x : Self) (old new : List Entry) → Keeps old new → held x old → pieces x new ≡ pieces x old };
}

impl TypeVisitable for Ty {
    ghost use Rattle.std.proofs.Common.{[], ap};
    ghost use Rattle.type_terms.specs.Promised.Handles.{Has, trees_at, types};
    ghost use Rattle.type_terms.specs.Pieces.{one_piece};
    ghost use Rattle.type_terms.specs.Kept.{has-later, trees-later};

    ghost held = { λ x es. Has es types x.0 };

    ghost outline = { λ _. [] };

    ghost pieces = { λ x es. one_piece (trees_at es x.0) };

    ghost held_kept = { λ x old new k h. has-later old new k types x.0 h };

    ghost pieces_kept = { λ x old new k h. ap one_piece (trees-later old new k types x.0 h) };

    fn visit_under<V: TypeVisitor>(
        self,
        cx: &Interner,
        visitor: &mut V,
        binders: &Binders,
    ) -> ControlFlow<V::Break, ()> {
        visit_ty(cx, visitor, self, binders)
    }
}

impl TypeVisitable for Const {
    ghost use Rattle.std.proofs.Common.{[], ap};
    ghost use Rattle.type_terms.specs.Promised.Handles.{Has, trees_at, consts};
    ghost use Rattle.type_terms.specs.Pieces.{one_piece};
    ghost use Rattle.type_terms.specs.Kept.{has-later, trees-later};

    ghost held = { λ x es. Has es consts x.0 };

    ghost outline = { λ _. [] };

    ghost pieces = { λ x es. one_piece (trees_at es x.0) };

    ghost held_kept = { λ x old new k h. has-later old new k consts x.0 h };

    ghost pieces_kept = { λ x old new k h. ap one_piece (trees-later old new k consts x.0 h) };

    fn visit_under<V: TypeVisitor>(
        self,
        cx: &Interner,
        visitor: &mut V,
        binders: &Binders,
    ) -> ControlFlow<V::Break, ()> {
        visit_const(cx, visitor, self, binders)
    }
}

impl TypeVisitable for GenericArgs {
    ghost use Rattle.std.proofs.Common.{[], ap};
    ghost use Rattle.type_terms.specs.Promised.Handles.{Has, trees_at};
    ghost use Rattle.type_terms.specs.Terms.{args_lists};
    ghost use Rattle.type_terms.specs.Pieces.{one_piece};
    ghost use Rattle.type_terms.specs.Kept.{has-later, trees-later};

    ghost held = { λ x es. Has es args_lists x.0 };

    ghost outline = { λ _. [] };

    ghost pieces = { λ x es. one_piece (trees_at es x.0) };

    ghost held_kept = { λ x old new k h. has-later old new k args_lists x.0 h };

    ghost pieces_kept = { λ x old new k h. ap one_piece (trees-later old new k args_lists x.0 h) };

    fn visit_under<V: TypeVisitor>(
        self,
        cx: &Interner,
        visitor: &mut V,
        binders: &Binders,
    ) -> ControlFlow<V::Break, ()> {
        visit_args(cx, visitor, self, binders)
    }
}

impl TypeVisitable for Tys {
    ghost use Rattle.std.proofs.Common.{[], ap};
    ghost use Rattle.type_terms.specs.Promised.Handles.{Has, trees_at};
    ghost use Rattle.type_terms.specs.Terms.{type_lists};
    ghost use Rattle.type_terms.specs.Pieces.{one_piece};
    ghost use Rattle.type_terms.specs.Kept.{has-later, trees-later};

    ghost held = { λ x es. Has es type_lists x.0 };

    ghost outline = { λ _. [] };

    ghost pieces = { λ x es. one_piece (trees_at es x.0) };

    ghost held_kept = { λ x old new k h. has-later old new k type_lists x.0 h };

    ghost pieces_kept = { λ x old new k h. ap one_piece (trees-later old new k type_lists x.0 h) };

    fn visit_under<V: TypeVisitor>(
        self,
        cx: &Interner,
        visitor: &mut V,
        binders: &Binders,
    ) -> ControlFlow<V::Break, ()> {
        visit_tys(cx, visitor, self, binders)
    }
}

impl TypeVisitable for Bounds {
    ghost use Rattle.std.proofs.Common.{[], ap};
    ghost use Rattle.type_terms.specs.Promised.Handles.{Has, trees_at, bounds_lists};
    ghost use Rattle.type_terms.specs.Pieces.{one_piece};
    ghost use Rattle.type_terms.specs.Kept.{has-later, trees-later};

    ghost held = { λ x es. Has es bounds_lists x.0 };

    ghost outline = { λ _. [] };

    ghost pieces = { λ x es. one_piece (trees_at es x.0) };

    ghost held_kept = { λ x old new k h. has-later old new k bounds_lists x.0 h };

    ghost pieces_kept = { λ x old new k h. ap one_piece (trees-later old new k bounds_lists x.0 h) };

    fn visit_under<V: TypeVisitor>(
        self,
        cx: &Interner,
        visitor: &mut V,
        binders: &Binders,
    ) -> ControlFlow<V::Break, ()> {
        visit_bounds(cx, visitor, self, binders)
    }
}

impl TypeVisitable for Region {
    ghost use Rattle.std.proofs.Common.{[], refl};
    ghost use Rattle.type_terms.specs.Promised.Handles.{RegionHeld, region_trees};
    ghost use Rattle.type_terms.specs.Pieces.{one_piece};

    ghost held = { λ x _. RegionHeld x.kind };

    ghost outline = { λ _. [] };

    ghost pieces = { λ x _. one_piece (region_trees x) };

    ghost held_kept = { λ x old new k h. h };

    ghost pieces_kept = { λ x old new k h. refl };

    fn visit_under<V: TypeVisitor>(
        self,
        cx: &Interner,
        visitor: &mut V,
        binders: &Binders,
    ) -> ControlFlow<V::Break, ()> {
        visit_region(cx, visitor, self, binders)
    }
}

impl TypeVisitable for GenericArgKind {
    ghost use Rattle.std.proofs.Common.{[], ap};
    ghost use Rattle.type_terms.specs.Promised.Handles.{ArgHeld, arg_trees};
    ghost use Rattle.type_terms.specs.Pieces.{one_piece};
    ghost use Rattle.type_terms.specs.Kept.{arg-held-later, arg-trees-later};

    ghost held = { λ x es. ArgHeld es x };

    ghost outline = { λ _. [] };

    ghost pieces = { λ x es. one_piece (arg_trees es x) };

    ghost held_kept = { λ x old new k h. arg-held-later old new k x h };

    ghost pieces_kept = { λ x old new k h. ap one_piece (arg-trees-later old new k x h) };

    fn visit_under<V: TypeVisitor>(
        self,
        cx: &Interner,
        visitor: &mut V,
        binders: &Binders,
    ) -> ControlFlow<V::Break, ()> {
        visit_arg(cx, visitor, self, binders)
    }
}
