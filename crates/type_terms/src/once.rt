//! Visitors that enter each type once.
ghost use Rattle.std.specs.Prelude.{◌≡◌, List};
ghost use Rattle.type_terms.specs.Promised.Trees.{Trees};
ghost use Rattle.type_terms.specs.Promised.Handles.{Entry};
ghost use Rattle.type_terms.specs.Entering.{HasEntered};

use crate::binders::Binders;
use crate::entered::Entered;
use crate::interner::Interner;
use crate::kinds::{Const, Ty};
use crate::region::Region;
use crate::visit::{Seen, TypeVisitor};
use std::alloc::Global;

/// A visitor that passes over a type that it has entered before, where the inner visitor would enter it again.
///
/// Such a visit takes time by the number of handles in a term, and not by the number of its nodes. It equals the visit
/// by the inner visitor if that one does the same, and does not change, at a node that occurs again, whatever binders
/// are around it.
#[derive(Drop)]
pub struct Once<V> {
    pub visitor: V,
    pub entered: Entered,
}

impl<V> Once<V> {
    /// The visitor, which has entered no type yet.
    pub fn new(alloc: Global, visitor: V) -> Once<V>
        ensures visitor { result.visitor ≡ visitor }
        ensures entered { (es : List Entry) (t : Trees) → HasEntered es result.entered t → ⊥ }
    {
        Once {
            visitor,
            entered: Entered::new(alloc),
        }
    }
}

impl<V: TypeVisitor> TypeVisitor for Once<V> {
    type Break = V::Break;

    ghost use Rattle.std.proofs.Common.{inl};
    ghost use Rattle.type_terms.specs.Entering.{SeesOnce};

    ghost ready = { λ v es. V.ready v.visitor es };

    ghost sees = { λ es bs t v w a. SeesOnce (V.sees es) es bs t v w a };

    ghost enters_bounds = { λ v es bs t h. (V.enters_bounds v.visitor es bs t h, λ s e. inl e) };

    fn visit_ty(&mut self, cx: &Interner, ty: Ty, binders: &Binders) -> Seen<V::Break> {
        match self.visitor.visit_ty(cx, ty, binders) {
            Seen::Break(value) => Seen::Break(value),
            Seen::Pass => Seen::Pass,
            Seen::Enter => {
                if self.entered.enter(ty) {
                    Seen::Pass
                } else {
                    Seen::Enter
                }
            }
        }
    }

    fn visit_const(&mut self, cx: &Interner, ct: Const, binders: &Binders) -> Seen<V::Break> {
        self.visitor.visit_const(cx, ct, binders)
    }

    fn visit_region(&mut self, cx: &Interner, region: Region, binders: &Binders) -> Seen<V::Break> {
        self.visitor.visit_region(cx, region, binders)
    }
}
