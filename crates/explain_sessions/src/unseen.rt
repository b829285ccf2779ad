//! Which crates outside the view of a session's crate may have impls, and which its own may not. The reasons are those of rustc's
//! `Conflict`.
//!
//! - Downstream: for `&?x: Local`, a crate that uses this one may have `impl Local for &Theirs`.
//! - Upstream: for `Vec<u8>: Foreign`, a later version of the crate of `Foreign` may add the impl.

ghost use Rattle.std.specs.Prelude.{◌≡◌, not, IfOk, IfSome};
ghost use Rattle.sessions.specs.TypeTerms.Promised.Erased.{erased_reference};
ghost use Rattle.sessions.specs.TypeTerms.Promised.Walks.{keeps_orphan_rule};
ghost use Rattle.sessions.specs.Declarations.Held.{ReferenceHeld};
ghost use Rattle.sessions.specs.Declarations.Items.{IsOnly, declared, reference_in};
ghost use Rattle.sessions.specs.Promised.Promises.{view_in};
ghost use Rattle.explain_sessions.specs.Unseen.{IsUnseen, headers_named};

use sessions::Session;
use sessions::declarations::declarations::Declarations;
use sessions::infer_table::infer_ctxt::InferCtxt;
use sessions::orphan_check::context::OrphanCtxt;
use sessions::orphan_check::errors::{Conflict, WalkError};
use sessions::orphan_check::knowable::trait_ref_is_knowable;
use sessions::orphan_check::normalize::AlreadyNormal;
use sessions::orphan_check::orphan::keeps_orphan_rule;
use sessions::term_folds::predicate::TraitRef;
use sessions::type_terms::interner::Interner;
use sessions::type_terms::{Fault, ImplId};
use std::alloc::Global;

/// Which crates outside the view may have an impl for a trait reference, if any may. Fails only with `Memory`.
fn conflict_of(
    alloc: Global,
    cx: &Interner,
    declarations: &Declarations,
    reference: TraitRef,
) -> Result<Option<Conflict>, Fault>
    requires { ReferenceHeld cx.now.entries reference }
    ensures { IfOk result (IsUnseen (declared cx.now.entries declarations.now) declarations.now.local (reference_in cx.now.entries reference)) }
{
    // No variable has a value, nothing has to be normalized, and no walk goes deeper than the arguments are.
    let table = InferCtxt::new(alloc);
    let limit = cx.depth(reference.args);
    let context = OrphanCtxt {
        cx,
        infcx: &table,
        decls: declarations,
    };
    match trait_ref_is_knowable(alloc, &context, reference, limit, &AlreadyNormal) {
        Ok(Ok(())) => Ok(None),
        Ok(Err(conflict)) => Ok(Some(conflict)),
        Err(WalkError::Memory) => Err(Fault::Memory),
        Err(WalkError::Deep) => unreachable!(),
        Err(WalkError::Normalize(_)) => unreachable!(),
    }
}

/// Which crates that the session's crate does not see may have an impl for a trait reference: a later version of the crate of its trait or
/// of a type, or a crate that uses the session's crate. `None` if the trait reference is knowable. Variables stand for any terms. Fails
/// only with `Memory`.
pub fn unseen_crates(session: &Session<'_>, reference: TraitRef) -> Result<Option<Conflict>, Fault>
    requires { ReferenceHeld session.now.terms reference }
    ensures { IfOk result (IsUnseen (view_in session.now.declarations session.now.of_crate) session.now.of_crate (reference_in session.now.terms reference)) }
{
    conflict_of(
        session.search.cx.alloc,
        &session.search.cx.interner,
        &session.search.cx.handler.declarations,
        reference,
    )
}

/// Whether a header breaks the orphan rule of the session's crate.
pub fn breaks_orphan_rule(session: &Session<'_>, header: TraitRef) -> bool
    requires { ReferenceHeld session.now.terms header }
    ensures { let s = session.now in result ≡ not (keeps_orphan_rule (view_in s.declarations s.of_crate) s.of_crate (reference_in s.terms header)) }
{
    !keeps_orphan_rule(
        &session.search.cx.interner,
        &session.search.cx.handler.declarations,
        header,
    )
}

/// The header of an impl, over the impl's own parameters. `None` if the session's crate does not see the impl.
pub fn impl_header(session: &Session<'_>, id: ImplId) -> Option<TraitRef>
    ensures held { IfSome result (ReferenceHeld session.now.terms) }
    ensures is { let s = session.now in
        IsOnly (λ h. erased_reference (reference_in s.terms h)) result (headers_named (view_in s.declarations s.of_crate) id.index) }
{
    match session.search.cx.handler.declarations.impl_def(id) {
        Some(def) => Some(def.header),
        None => None,
    }
}
