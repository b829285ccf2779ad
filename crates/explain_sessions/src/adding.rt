//! Who may write impls that are not seen.

ghost use Rattle.std.specs.Prelude.{◌≡◌, ◌==◌, true, false, not, List, Some, IfSome};
ghost use Rattle.std.specs.List.{list_any};
ghost use Rattle.sessions.specs.TextLanguage.Promised.Faults.{built_in_traits};
ghost use Rattle.sessions.specs.TypeTerms.Promised.Handles.{Entry};
ghost use Rattle.sessions.specs.TypeTerms.Promised.Walks.{keeps_orphan_rule, trait_is};
ghost use Rattle.sessions.specs.TypeTerms.Promised.Worlds.{Reference};
ghost use Rattle.sessions.specs.Declarations.Held.{ReferenceHeld};
ghost use Rattle.sessions.specs.Declarations.Items.{declared, reference_in};
ghost use Rattle.sessions.specs.Promised.Promises.{view_in};
ghost use Rattle.explain_sessions.specs.Adding.{MayWrite, may_have_impls};
ghost use Rattle.explain_sessions.specs.Unseen.{IsUnseen};

use built_in_candidates::built_in_rules::is_auto;
use sessions::Session;
use sessions::declarations::declarations::Declarations;
use sessions::orphan_check::errors::Conflict;
use sessions::term_folds::predicate::TraitRef;
use sessions::text_tables::Workspace;
use sessions::type_terms::binders::Binders;
use sessions::type_terms::interner::Interner;
use sessions::type_terms::kinds::{BoundsData, Const, Ty, TyKind};
use sessions::type_terms::once::Once;
use sessions::type_terms::region::Region;
use sessions::type_terms::visit::{Seen, TypeVisitor, visit_args};
use sessions::type_terms::{AdtId, CrateId, TraitId};
use std::ops::ControlFlow;

/// Traits of `core` that have built-in rules alone: `Sized`, `Tuple`, `FnPtr`, `FnOnce`, `FnMut`, `Fn`, `Unsize`.
const BUILT_IN_TRAITS: [u32; 7] = [0, 3, 4, 5, 6, 7, 8];

/// Who may write an impl that the session's crate does not see.
#[derive(Clone, Copy, PartialEq, Eq)]
pub enum Adder {
    /// A crate that uses the session's crate.
    User,
    /// A later version of this crate.
    Owner(CrateId),
}

/// Whether a trait has built-in rules alone.
fn is_built_in(id: TraitId) -> bool
    ensures { result ≡ list_any (λ x. x == id.index) built_in_traits }
{
    BUILT_IN_TRAITS.contains(&id.index)
}

/// Whether impls of a trait may be written, whatever they are for.
fn may_have_impls(declarations: &Declarations, id: TraitId) -> bool
    ensures { (es : List Entry) → result ≡ may_have_impls (declared es declarations.now) id.index }
{
    !is_built_in(id) && !is_auto(declarations, id)
}

/// Whether a trait is of a crate.
fn is_trait_of(declarations: &Declarations, id: TraitId, home: CrateId) -> bool
    ensures { (es : List Entry) → result ≡ trait_is (λ x. x.home == home.index) (declared es declarations.now) id.index }
{
    match declarations.trait_def(id) {
        Some(def) => def.home.index == home.index,
        None => false,
    }
}

/// The crate of a trait, where that is not the one that asks.
fn other_home(declarations: &Declarations, reference: TraitRef) -> Option<CrateId>
    ensures keeps { (es : List Entry) → IfSome result (λ d.
        keeps_orphan_rule (declared es declarations.now) d.index (reference_in es reference) ≡ true) }
    ensures other { IfSome result (λ d. (d.index == declarations.now.local) ≡ false) }
{
    let home = declarations.trait_def(reference.def_id)?.home;
    if declarations.is_local(home) || !is_trait_of(declarations, reference.def_id, home) {
        return None;
    }
    Some(home)
}

/// Who may write an impl for a reference that is not known.
fn adder_of(declarations: &Declarations, reference: TraitRef, conflict: Conflict) -> Option<Adder>
    ensures { (es : List Entry) → IsUnseen (declared es declarations.now) declarations.now.local (reference_in es reference) (Some conflict)
        → IfSome result (MayWrite (declared es declarations.now) declarations.now.local (reference_in es reference)) }
{
    if !may_have_impls(declarations, reference.def_id) {
        return None;
    }
    match conflict {
        Conflict::Downstream => Some(Adder::User),
        Conflict::Upstream => {
            let home = other_home(declarations, reference)?;
            Some(Adder::Owner(home))
        }
    }
}

/// Breaks at a struct, or a trait of a `dyn`, that a crate does not see.
#[derive(Clone, Copy)]
struct FindsHidden<'a> {
    workspace: &'a Workspace,
    declarations: &'a Declarations,
    seeing: CrateId,
}

impl FindsHidden<'_> {
    /// Whether the crate sees what another one declares.
    fn sees_crate(&self, home: CrateId) -> bool {
        let count = self.workspace.crates().len();
        (self.seeing.index as usize) < count && self.workspace.sees(self.seeing, home)
    }

    /// Whether the crate sees a struct.
    fn sees(&self, id: AdtId) -> bool {
        match self.declarations.adt_def(id) {
            Some(def) => self.sees_crate(def.home),
            None => false,
        }
    }

    /// Whether the crate sees a trait.
    fn sees_trait(&self, id: TraitId) -> bool {
        match self.declarations.trait_def(id) {
            Some(def) => self.sees_crate(def.home),
            None => false,
        }
    }

    /// Whether the crate sees the traits of a `dyn`.
    fn sees_bounds(&self, data: &BoundsData) -> bool {
        for id in &data.autos {
            if !self.sees_trait(*id) {
                return false;
            }
        }
        match data.principal {
            Some(principal) => self.sees_trait(principal.def_id),
            None => true,
        }
    }
}

impl TypeVisitor for FindsHidden<'_> {
    type Break = ();

    ghost ready = { λ _ _. Unit {0} };

    ghost sees = { λ _ _ _ _ _ _. Unit {0} };

    ghost enters_bounds = { λ _ _ _ _ _. tt };

    fn visit_ty(&mut self, cx: &Interner, ty: Ty, _binders: &Binders) -> Seen<()> {
        match cx.kind(ty) {
            TyKind::Adt(id, _) if !self.sees(id) => Seen::Break(()),
            TyKind::Dynamic(bounds, _) if !self.sees_bounds(cx.bounds(bounds)) => Seen::Break(()),
            _ => Seen::Enter,
        }
    }

    fn visit_const(&mut self, _cx: &Interner, _ct: Const, _binders: &Binders) -> Seen<()> {
        Seen::Enter
    }

    fn visit_region(&mut self, _cx: &Interner, _region: Region, _binders: &Binders) -> Seen<()> {
        Seen::Enter
    }
}

/// Whether a crate sees all structs of a reference, and all traits of each `dyn` in it.
fn sees_all(
    workspace: &Workspace,
    cx: &Interner,
    declarations: &Declarations,
    seeing: CrateId,
    reference: TraitRef,
) -> bool
    requires { ReferenceHeld cx.now.entries reference }
{
    let visitor = FindsHidden {
        workspace,
        declarations,
        seeing,
    };
    let mut finds = Once::new(cx.allocator(), visitor);
    match visit_args(cx, &mut finds, reference.args, &Binders::Outermost) {
        ControlFlow::Break(()) => false,
        ControlFlow::Continue(()) => true,
    }
}

/// Who may write an impl for a reference that is not known, where the line of that impl could name all that stands in it.
fn adder_in(
    workspace: &Workspace,
    cx: &Interner,
    declarations: &Declarations,
    reference: TraitRef,
    conflict: Conflict,
) -> Option<Adder>
    requires { ReferenceHeld cx.now.entries reference }
    ensures { IsUnseen (declared cx.now.entries declarations.now) declarations.now.local (reference_in cx.now.entries reference) (Some conflict)
        → IfSome result (MayWrite (declared cx.now.entries declarations.now) declarations.now.local (reference_in cx.now.entries reference)) }
{
    match adder_of(declarations, reference, conflict) {
        Some(Adder::User) => Some(Adder::User),
        Some(Adder::Owner(home)) => {
            if sees_all(workspace, cx, declarations, home, reference) {
                Some(Adder::Owner(home))
            } else {
                None
            }
        }
        None => None,
    }
}

/// Who may write an impl for a reference that is not known to the session's crate: one that uses it, with a struct of its own in an open
/// place, or the crate of the trait, as it stands.
///
/// `None` says nothing. It comes of auto traits, of traits that have built-in rules alone, and where the crate of the trait does not see what
/// stands in the reference.
pub(crate) fn find_adder(
    session: &Session<'_>,
    reference: TraitRef,
    conflict: Conflict,
) -> Option<Adder>
    requires held { ReferenceHeld session.now.terms reference }
    requires unseen { IsUnseen (view_in session.now.declarations session.now.of_crate) session.now.of_crate
        (reference_in session.now.terms reference) (Some conflict) }
    ensures { IfSome result (MayWrite (view_in session.now.declarations session.now.of_crate) session.now.of_crate
        (reference_in session.now.terms reference)) }
{
    adder_in(
        session.workspace,
        &session.search.cx.interner,
        &session.search.cx.handler.declarations,
        reference,
        conflict,
    )
}
