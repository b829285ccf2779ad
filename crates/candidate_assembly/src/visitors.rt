//! Visitors of a goal's terms. They look for variables that are not the goal's, and for names that are not declared. Each type is entered
//! once, however often it occurs.
ghost use Rattle.std.specs.Prelude.{◌≡◌, true, not, List};
ghost use Rattle.type_terms.specs.Promised.Label.{of_type, of_const, of_lifetime};
ghost use Rattle.type_terms.specs.Promised.Trees.{some_node};
ghost use Rattle.type_terms.specs.Promised.Walks.{struct_is, trait_is};
ghost use Rattle.type_terms.specs.Promised.Answers.{is_open, is_undeclared};
ghost use Rattle.type_terms.specs.Promised.Handles.{Entry, Has, types, bounds_lists, trees_at};
ghost use Rattle.type_terms.specs.Terms.{args_lists};
ghost use Rattle.type_terms.specs.Kinds.{autos_trees};
ghost use Rattle.type_terms.specs.Promised.Handles.{region_label};
ghost use Rattle.type_terms.specs.Made.{terms, is_made};
ghost use Rattle.goal_evaluator.specs.TableAnswers.{is_kind_of};
ghost use Rattle.goal_evaluator.specs.FrameTables.{kind_at};
ghost use Rattle.goal_evaluator.specs.Variables.{is_variable_over};
ghost use Rattle.declarations.specs.Items.{written};
ghost use Rattle.candidate_assembly.specs.Finding.{BreaksAt, some_root};

use built_in_candidates::variables::kind_of;
use declarations::declarations::Declarations;
use infer_table::canonical::CanonicalVarKind;
use infer_table::canonicalizer::CLAUSE_FLAGS;
use infer_table::instantiate::BOUND_FLAGS;
use std::ops::ControlFlow;
use type_terms::binders::Binders;
use type_terms::interner::{Handle, Interner};
use type_terms::kinds::{Bounds, Const, ConstKind, GenericArgs, Ty, TyKind};
use type_terms::number::{BoundVar, BoundVarIndexKind};
use type_terms::once::Once;
use type_terms::region::{Region, RegionKind};
use type_terms::visit::{Seen, TypeVisitor, visit_args, visit_ty};
use type_terms::{AdtId, TraitId};

/// The flags of parameters, variables, placeholders and bound variables, with canonical ones.
const OPEN_PLACES: u32 = CLAUSE_FLAGS | BOUND_FLAGS;

/// Whether a parameter, a variable, a placeholder or a bound variable occurs in the term. It is one look at the term's flags, however large
/// the term is.
pub(crate) fn has_open_places<H: Handle>(cx: &Interner, handle: H) -> bool
    requires { Has cx.now.entries H.handle_kind (H.handle_number handle) }
    ensures { result ≡ some_node is_open (trees_at cx.now.entries (H.handle_number handle)) }
{
    cx.flags(handle).0 & OPEN_PLACES != 0
}

/// Stops a visitor if it has found what it looks for. If not, the visitor enters the type.
pub fn break_if(found: bool) -> Seen<()>
    ensures { BreaksAt found result }
{
    if found { Seen::Break(()) } else { Seen::Enter }
}

fn is_type(kinds: &[CanonicalVarKind], variable: BoundVar) -> bool
    ensures { result ≡ is_kind_of of_type (kind_at kinds.now variable.index) }
{
    match kind_of(kinds, variable) {
        Some(CanonicalVarKind::Ty) => true,
        Some(CanonicalVarKind::PlaceholderTy) => true,
        Some(CanonicalVarKind::Const) => false,
        Some(CanonicalVarKind::PlaceholderConst) => false,
        Some(CanonicalVarKind::Region) => false,
        None => false,
    }
}

fn is_const(kinds: &[CanonicalVarKind], variable: BoundVar) -> bool
    ensures { result ≡ is_kind_of of_const (kind_at kinds.now variable.index) }
{
    match kind_of(kinds, variable) {
        Some(CanonicalVarKind::Const) => true,
        Some(CanonicalVarKind::PlaceholderConst) => true,
        Some(CanonicalVarKind::Ty) => false,
        Some(CanonicalVarKind::PlaceholderTy) => false,
        Some(CanonicalVarKind::Region) => false,
        None => false,
    }
}

fn is_region(kinds: &[CanonicalVarKind], variable: BoundVar) -> bool
    ensures { result ≡ is_kind_of of_lifetime (kind_at kinds.now variable.index) }
{
    match kind_of(kinds, variable) {
        Some(CanonicalVarKind::Region) => true,
        Some(CanonicalVarKind::Ty) => false,
        Some(CanonicalVarKind::PlaceholderTy) => false,
        Some(CanonicalVarKind::Const) => false,
        Some(CanonicalVarKind::PlaceholderConst) => false,
        None => false,
    }
}

/// Breaks at a parameter, placeholder or variable that is no canonical variable of these kinds.
#[derive(Clone, Copy)]
struct FindsForeign<'a> {
    kinds: &'a [CanonicalVarKind],
}

impl TypeVisitor for FindsForeign<'_> {
    type Break = ();

    ghost use Rattle.std.proofs.Common.{refl};
    ghost use Rattle.candidate_assembly.specs.Finding.{BreaksAt, is_foreign_tree, bounds-are-own};

    ghost ready = { λ _ _. Unit {0} };

    ghost sees = { λ es bs t v w a. (w ≡ v) × BreaksAt (is_foreign_tree v.kinds.now t) a };

    ghost enters_bounds = { λ v es bs t h. (refl, bounds-are-own _ v.kinds.now t h) };

    fn visit_ty(&mut self, cx: &Interner, ty: Ty, _binders: &Binders) -> Seen<()> {
        match cx.kind(ty) {
            TyKind::Param(_) | TyKind::Placeholder(_) | TyKind::Infer(_) => Seen::Break(()),
            TyKind::Bound(BoundVarIndexKind::Canonical, variable) => {
                break_if(!is_type(self.kinds, variable))
            }
            TyKind::Bound(BoundVarIndexKind::Bound(_), _)
            | TyKind::Bool
            | TyKind::Char
            | TyKind::Int(_)
            | TyKind::Uint(_)
            | TyKind::Str
            | TyKind::Never
            | TyKind::Adt(_, _)
            | TyKind::Ref(_, _, _)
            | TyKind::RawPtr(_, _)
            | TyKind::Array(_, _)
            | TyKind::Slice(_)
            | TyKind::Tuple(_)
            | TyKind::FnPtr(_, _)
            | TyKind::Dynamic(_, _) => Seen::Enter,
        }
    }

    fn visit_const(&mut self, cx: &Interner, ct: Const, _binders: &Binders) -> Seen<()> {
        match cx.const_kind(ct) {
            ConstKind::Param(_) | ConstKind::Placeholder(_) | ConstKind::Infer(_) => {
                Seen::Break(())
            }
            ConstKind::Bound(BoundVarIndexKind::Canonical, variable) => {
                break_if(!is_const(self.kinds, variable))
            }
            ConstKind::Bound(BoundVarIndexKind::Bound(_), _) | ConstKind::Value(_) => Seen::Enter,
        }
    }

    fn visit_region(&mut self, _cx: &Interner, region: Region, _binders: &Binders) -> Seen<()> {
        break_if(!region_is_over(self.kinds, region))
    }
}

/// Whether the lifetime is `'static`, bound by a binder, or a variable of these kinds.
pub(crate) fn region_is_over(kinds: &[CanonicalVarKind], region: Region) -> bool
    ensures { result ≡ is_variable_over kinds.now (region_label region.kind) }
{
    match region.kind {
        RegionKind::ReStatic => true,
        RegionKind::ReBound(BoundVarIndexKind::Bound(_), _) => true,
        RegionKind::ReBound(BoundVarIndexKind::Canonical, variable) => is_region(kinds, variable),
        RegionKind::ReEarlyParam(_) => false,
        RegionKind::RePlaceholder(_) => false,
        RegionKind::ReVar(_) => false,
    }
}

/// Whether the arguments hold variables of these kinds alone.
pub(crate) fn args_are_over(cx: &Interner, kinds: &[CanonicalVarKind], args: GenericArgs) -> bool
    requires { Has cx.now.entries args_lists args.0 }
    ensures { result ≡ is_made (is_variable_over kinds.now) terms (trees_at cx.now.entries args.0) }
{
    cx.lawful();
    if !has_open_places(cx, args) {
        return true;
    }
    let mut finds = Once::new(cx.allocator(), FindsForeign { kinds });
    match visit_args(cx, &mut finds, args, &Binders::Outermost) {
        ControlFlow::Break(()) => false,
        ControlFlow::Continue(()) => true,
    }
}

/// Whether the type holds variables of these kinds alone.
pub(crate) fn ty_is_over(cx: &Interner, kinds: &[CanonicalVarKind], ty: Ty) -> bool
    requires { Has cx.now.entries types ty.0 }
    ensures { result ≡ is_made (is_variable_over kinds.now) terms (trees_at cx.now.entries ty.0) }
{
    cx.lawful();
    if !has_open_places(cx, ty) {
        return true;
    }
    let mut finds = Once::new(cx.allocator(), FindsForeign { kinds });
    match visit_ty(cx, &mut finds, ty, &Binders::Outermost) {
        ControlFlow::Break(()) => false,
        ControlFlow::Continue(()) => true,
    }
}

/// Whether the crate sees the struct with this number.
pub fn struct_is_declared(declarations: &Declarations, id: AdtId) -> bool
    ensures { (es : List Entry) → result ≡ struct_is (λ _. true) (written es declarations.now) id.index }
{
    match declarations.adt_def(id) {
        Some(_) => true,
        None => false,
    }
}

/// Whether the crate sees the trait with this number. No goal of another trait is decided.
pub fn trait_is_declared(declarations: &Declarations, id: TraitId) -> bool
    ensures { (es : List Entry) → result ≡ trait_is (λ _. true) (written es declarations.now) id.index }
{
    match declarations.trait_def(id) {
        Some(_) => true,
        None => false,
    }
}

/// Whether the crate sees the traits with these numbers.
pub fn traits_are_declared(declarations: &Declarations, ids: &[TraitId]) -> bool
    ensures { (es : List Entry) → result ≡ not (some_root (is_undeclared (written es declarations.now)) (autos_trees ids.now)) }
{
    let mut left = ids;
    'ids: while let Some((id, others)) = left.split_first() {
        if !trait_is_declared(declarations, *id) {
            return false;
        }
        left = others;
    }
    true
}

/// Whether the principal trait of a `dyn`, if there is one, and its auto traits are declared.
pub fn bounds_are_declared(cx: &Interner, declarations: &Declarations, bounds: Bounds) -> bool
    requires { Has cx.now.entries bounds_lists bounds.0 }
    ensures { result ≡ not (some_root (is_undeclared (written cx.now.entries declarations.now)) (trees_at cx.now.entries bounds.0)) }
{
    let bounds = cx.bounds(bounds);
    match bounds.principal {
        Some(principal) => {
            trait_is_declared(declarations, principal.def_id)
                && traits_are_declared(declarations, &bounds.autos)
        }
        None => traits_are_declared(declarations, &bounds.autos),
    }
}

/// Breaks at a struct that is not declared, and at a `dyn` with a trait that is not.
#[derive(Clone, Copy)]
struct FindsUndeclared<'a> {
    declarations: &'a Declarations,
}

impl TypeVisitor for FindsUndeclared<'_> {
    type Break = ();

    ghost use Rattle.std.proofs.Common.{refl};
    ghost use Rattle.declarations.specs.Items.{written};
    ghost use Rattle.candidate_assembly.specs.Finding.{BreaksAt, names_undeclared, bounds-are-seen};

    ghost ready = { λ _ _. Unit {0} };

    ghost sees = { λ es bs t v w a. (w ≡ v) × BreaksAt (names_undeclared (written es v.declarations.now) t) a };

    ghost enters_bounds = { λ v es bs t h. (refl, bounds-are-seen _ (written es v.declarations.now) t h) };

    fn visit_ty(&mut self, cx: &Interner, ty: Ty, _binders: &Binders) -> Seen<()> {
        cx.lawful();
        match cx.kind(ty) {
            TyKind::Adt(id, _) => break_if(!struct_is_declared(self.declarations, id)),
            TyKind::Dynamic(bounds, _) => {
                break_if(!bounds_are_declared(cx, self.declarations, bounds))
            }
            TyKind::Bool
            | TyKind::Char
            | TyKind::Int(_)
            | TyKind::Uint(_)
            | TyKind::Str
            | TyKind::Never
            | TyKind::Ref(_, _, _)
            | TyKind::RawPtr(_, _)
            | TyKind::Array(_, _)
            | TyKind::Slice(_)
            | TyKind::Tuple(_)
            | TyKind::FnPtr(_, _)
            | TyKind::Param(_)
            | TyKind::Placeholder(_)
            | TyKind::Bound(_, _)
            | TyKind::Infer(_) => Seen::Enter,
        }
    }

    fn visit_const(&mut self, cx: &Interner, _ct: Const, _binders: &Binders) -> Seen<()> {
        cx.lawful();
        Seen::Enter
    }

    fn visit_region(&mut self, _cx: &Interner, _region: Region, _binders: &Binders) -> Seen<()> {
        Seen::Enter
    }
}

/// Whether all structs and traits in the arguments are declared.
pub(crate) fn args_are_declared(
    cx: &Interner,
    declarations: &Declarations,
    args: GenericArgs,
) -> bool
    requires { Has cx.now.entries args_lists args.0 }
    ensures { result ≡ not (some_node (is_undeclared (written cx.now.entries declarations.now)) (trees_at cx.now.entries args.0)) }
{
    cx.lawful();
    let mut finds = Once::new(cx.allocator(), FindsUndeclared { declarations });
    match visit_args(cx, &mut finds, args, &Binders::Outermost) {
        ControlFlow::Break(()) => false,
        ControlFlow::Continue(()) => true,
    }
}
