//! Open leaves: how they are collected and numbered.
ghost use Rattle.std.specs.Prelude.{◌≡◌, ◌≤◌, ℕ, Bool, true, List, length, IfOk, IfErr, OnErr, is_some};
ghost use Rattle.infer_table.specs.LeafLaws.{CollectsEach};
ghost use Rattle.type_terms.specs.Promised.Label.{of_const};
ghost use Rattle.type_terms.specs.Promised.Trees.{sort_of};
ghost use Rattle.type_terms.specs.Promised.Handles.{Has, types, consts, trees_at};
ghost use Rattle.type_terms.specs.Promised.Handles.{region_label};
ghost use Rattle.infer_table.specs.Canonical.{place_of};
ghost use Rattle.infer_table.specs.Leaves.{open_kinds, AreLeaves, labels, leaf_label, are_closed_flags, is_closed_by, is_type_label, IsLeaf, Adds};

use indexmap::IndexSet;
use std::alloc::Global;
use std::ops::ControlFlow;
use term_folds::fold::Answer;
use term_folds::folder::TypeFolder;
use type_terms::binders::Binders;
use type_terms::flags::TypeFlags;
use type_terms::interner::Interner;
use type_terms::kinds::{Const, ConstKind, GenericArgKind, Ty, TyKind};
use type_terms::number::{BoundVar, BoundVarIndexKind};
use type_terms::once::Once;
use type_terms::region::{Region, RegionKind};
use type_terms::visit::{Seen, TypeVisitor};
use type_terms::visitable::TypeVisitable;
use type_terms::{Fault, MAX_INDEX};

/// The flags of terms with open leaves in a where-clause.
pub const CLAUSE_FLAGS: u32 = TypeFlags::HAS_PARAM.0
    | TypeFlags::HAS_INFER.0
    | TypeFlags::HAS_PLACEHOLDER.0;

/// The flags of terms with open leaves outside where-clauses, where `'static` is open too. rustc's `NEEDS_CANONICAL`.
pub const OPEN_FLAGS: u32 = CLAUSE_FLAGS | TypeFlags::HAS_RE_STATIC.0;

/// Whether terms with these flags have no open leaf, also below binders.
pub(crate) fn is_closed(flags: TypeFlags, in_clause: bool) -> bool
    ensures { result ≡ are_closed_flags in_clause flags.0 }
{
    let open = if in_clause { CLAUSE_FLAGS } else { OPEN_FLAGS };
    flags.0 & open == 0
}

/// Whether the type is an inference variable, a parameter or a placeholder.
fn is_open_ty(cx: &Interner, ty: Ty) -> bool
    requires { Has cx.now.entries types ty.0 }
    ensures open { (in_clause : Bool) → is_some (open_kinds in_clause (leaf_label cx.now.entries (GenericArgKind.Ty ty))) ≡ result }
    ensures leaf { result ≡ true → IsLeaf cx.now.entries (GenericArgKind.Ty ty) }
    ensures type_label { is_type_label (leaf_label cx.now.entries (GenericArgKind.Ty ty)) ≡ true }
{
    match cx.kind(ty) {
        TyKind::Param(_) => true,
        TyKind::Placeholder(_) => true,
        TyKind::Infer(_) => true,
        _ => false,
    }
}

/// Whether the constant is an inference variable, a parameter or a placeholder.
fn is_open_const(cx: &Interner, ct: Const) -> bool
    requires { Has cx.now.entries consts ct.0 }
    ensures open { (in_clause : Bool) → is_some (open_kinds in_clause (leaf_label cx.now.entries (GenericArgKind.Const ct))) ≡ result }
    ensures leaf { IsLeaf cx.now.entries (GenericArgKind.Const ct) }
    ensures sort { sort_of (leaf_label cx.now.entries (GenericArgKind.Const ct)) ≡ of_const }
{
    match cx.const_kind(ct) {
        ConstKind::Param(_) => true,
        ConstKind::Placeholder(_) => true,
        ConstKind::Infer(_) => true,
        _ => false,
    }
}

/// Whether no binder binds the lifetime, and it is not the `'static` of a where-clause.
fn is_open_region(region: Region, in_clause: bool) -> bool
    ensures { is_some (open_kinds in_clause (region_label region.kind)) ≡ result }
{
    match region.kind {
        RegionKind::ReBound(_, _) => false,
        RegionKind::ReStatic => !in_clause,
        _ => true,
    }
}

/// A visitor that lists open leaves, each once.
pub struct LeafCollector {
    pub leaves: IndexSet<GenericArgKind>,
    /// Whether a where-clause is visited. In one, `'static` is not open.
    pub in_clause: bool,
}

// Written by hand, so that an owner drops it by one call instead of field by field.
impl Drop for LeafCollector {
    fn drop(self) {
        let LeafCollector {
            leaves: _,
            in_clause: _,
        } = self;
    }
}

impl LeafCollector {
    /// Lists the open leaves of a value after those that are listed. A type that occurs many times is entered once.
    pub(crate) fn collect<T: TypeVisitable>(
        self,
        alloc: Global,
        cx: &Interner,
        value: T,
    ) -> Result<LeafCollector, Fault>
        requires held { T.held value cx.now.entries }
        requires listed { AreLeaves cx.now.entries self.leaves.keys }
        ensures listed { IfOk result (λ w. AreLeaves cx.now.entries w.leaves.keys) }
        ensures visited { IfOk result (λ w. CollectsEach cx.now.entries (T.pieces value cx.now.entries) self w) }
        ensures memory { IfErr result (λ e. e ≡ Fault.Memory) }
    {
        let mut once = Once::new(alloc, self);
        match value.visit_with(cx, &mut once) {
            ControlFlow::Break(fault) => Err(fault),
            ControlFlow::Continue(()) => {
                let Once {
                    visitor,
                    entered: _,
                } = once;
                Ok(visitor)
            }
        }
    }

    /// Lists an open leaf, unless it is listed.
    fn add(&mut self, cx: &Interner, leaf: GenericArgKind) -> Seen<Fault>
        requires listed { AreLeaves cx.now.entries self.old.leaves.keys }
        requires leaf { IsLeaf cx.now.entries leaf }
        ensures listed { AreLeaves cx.now.entries self.new.leaves.keys }
        ensures same { self.new.in_clause ≡ self.old.in_clause }
        ensures added { Adds (labels cx.now.entries self.old.leaves.keys) (leaf_label cx.now.entries leaf) (labels cx.now.entries self.new.leaves.keys) result }
    {
        cx.lawful();
        match self.leaves.insert(leaf) {
            Ok(_) => Seen::Enter,
            Err(_) => Seen::Break(Fault::Memory),
        }
    }
}

impl TypeVisitor for LeafCollector {
    type Break = Fault;

    ghost use Rattle.std.proofs.Common.{refl};
    ghost use Rattle.infer_table.specs.LeafLaws.{Collecting, bounds-collect};

    ghost ready = { λ v es. AreLeaves es v.leaves.keys };

    ghost sees = { λ es bs t v w a. Collecting es t v w a };

    ghost enters_bounds = { λ v es bs t h. (refl, bounds-collect v.in_clause (labels es v.leaves.keys) t h) };

    fn visit_ty(&mut self, cx: &Interner, ty: Ty, _binders: &Binders) -> Seen<Fault> {
        if is_open_ty(cx, ty) {
            self.add(cx, GenericArgKind::Ty(ty))
        } else if is_closed(cx.flags(ty), self.in_clause) {
            Seen::Pass
        } else {
            Seen::Enter
        }
    }

    fn visit_const(&mut self, cx: &Interner, ct: Const, _binders: &Binders) -> Seen<Fault> {
        if is_open_const(cx, ct) {
            self.add(cx, GenericArgKind::Const(ct))
        } else {
            Seen::Enter
        }
    }

    fn visit_region(&mut self, cx: &Interner, region: Region, _binders: &Binders) -> Seen<Fault> {
        if is_open_region(region, self.in_clause) {
            self.add(cx, GenericArgKind::Lifetime(region))
        } else {
            Seen::Enter
        }
    }
}

/// A folder that replaces each listed leaf by the canonical variable of its index in the list. rustc's `Canonicalizer`.
#[derive(Clone, Copy)]
pub struct Canonicalizer<'a> {
    pub leaves: &'a IndexSet<GenericArgKind>,
    /// Whether a where-clause is folded. In one, `'static` is not open.
    pub in_clause: bool,
}

impl Canonicalizer<'_> {
    fn place(&self, cx: &Interner, leaf: GenericArgKind) -> Result<BoundVar, Fault>
        requires listed { AreLeaves cx.now.entries self.now.leaves.now.keys }
        requires leaf { IsLeaf cx.now.entries leaf }
        ensures place { IfOk result (λ v. v.index ≡ place_of (leaf_label cx.now.entries leaf) (labels cx.now.entries self.now.leaves.now.keys)) }
        ensures many { OnErr result (MAX_INDEX ≤ length self.now.leaves.now.keys) }
        ensures fault { IfErr result (λ e. e ≡ Fault.Memory) }
    {
        cx.lawful();
        let place = match self.leaves.get_index_of(&leaf) {
            Some(place) => place,
            None => self.leaves.len(),
        };
        if place >= MAX_INDEX as usize {
            return Err(Fault::Memory);
        }
        Ok(BoundVar {
            index: place as u32,
        })
    }
}

impl TypeFolder for Canonicalizer<'_> {
    ghost use Rattle.std.proofs.Common.{refl};
    ghost use Rattle.term_folds.specs.Folds.{none_above};
    ghost use Rattle.infer_table.specs.Leaves.{numbering};
    ghost use Rattle.infer_table.specs.LeafLaws.{numbering-bounds, numbering-once, leaves-later, numbering-later};

    ghost ready = { λ f es. AreLeaves es f.leaves.now.keys };

    ghost action = { λ f es bs t. numbering f.in_clause (labels es f.leaves.now.keys) bs t };

    ghost fuel = { λ _ _ _. 0 };

    ghost ready_kept = { λ f old new k h. leaves-later old new k f.leaves.now.keys h };

    ghost action_kept = { λ f old new k h. numbering-later f.in_clause old new k f.leaves.now.keys h };

    ghost fuel_kept = { λ f old new k h. refl };

    ghost by_depth = { λ f es bs cs t e. refl };

    ghost enters_bounds = { λ f es bs t h. numbering-bounds f.in_clause (labels es f.leaves.now.keys) bs t h };

    ghost falls = { λ f es bs t s h e. absurd (numbering-once f.in_clause (labels es f.leaves.now.keys) bs t s e) };

    ghost below_node = { λ f es l c. none_above };

    ghost below_left = { λ f es x y. none_above };

    ghost below_right = { λ f es x y. none_above };

    fn fold_ty(&self, cx: &mut Interner, ty: Ty, _binders: &Binders) -> Result<Answer<Ty>, Fault> {
        cx.lawful();
        if !is_open_ty(cx, ty) {
            return if is_closed(cx.flags(ty), self.in_clause) {
                Ok(Answer::Replace(ty))
            } else {
                Ok(Answer::Enter)
            };
        }
        let place = self.place(cx, GenericArgKind::Ty(ty))?;
        let variable = cx.mk_ty(TyKind::Bound(BoundVarIndexKind::Canonical, place))?;
        Ok(Answer::Replace(variable))
    }

    fn fold_const(
        &self,
        cx: &mut Interner,
        ct: Const,
        _binders: &Binders,
    ) -> Result<Answer<Const>, Fault> {
        if !is_open_const(cx, ct) {
            return Ok(Answer::Enter);
        }
        let place = self.place(cx, GenericArgKind::Const(ct))?;
        let variable = cx.mk_const(ConstKind::Bound(BoundVarIndexKind::Canonical, place))?;
        Ok(Answer::Replace(variable))
    }

    fn fold_region(
        &self,
        cx: &Interner,
        region: Region,
        _binders: &Binders,
    ) -> Result<Answer<Region>, Fault> {
        if !is_open_region(region, self.in_clause) {
            return Ok(Answer::Enter);
        }
        let place = self.place(cx, GenericArgKind::Lifetime(region))?;
        Ok(Answer::Replace(Region {
            kind: RegionKind::ReBound(BoundVarIndexKind::Canonical, place),
        }))
    }
}
