//! Which trait references are knowable: no crate outside the view can have an impl for them.
ghost use Rattle.std.specs.Prelude.{◌≡◌};
ghost use Rattle.type_terms.specs.Promised.Handles.{Has};
ghost use Rattle.type_terms.specs.Terms.{args_lists};
ghost use Rattle.infer_table.specs.Content.{Ready};
ghost use Rattle.orphan_check.specs.Knowing.{IsKnowableBy};
ghost use Rattle.orphan_check.specs.Exact.{AnswersItsInput, IsKnownOf};
ghost use Rattle.orphan_check.specs.Walks.{is_local};

use crate::context::OrphanCtxt;
use crate::decisive::Decisive;
use crate::errors::{Conflict, InCrate, OrphanCheckMode, WalkError};
use crate::normalize::Normalize;
use crate::walk::Walk;
use std::alloc::Global;
use term_folds::predicate::TraitRef;

/// Returns whether all impls that could apply to the trait reference are in this crate's view, today and in later versions of the crates
/// that it uses.
///
/// The first case that applies decides. `Local` and `LocalTy` are of this crate, and `Foreign` is not.
///
/// 1. The orphan check passes in `InCrate::Remote`: `Downstream`. For `&?x: Local` or `Box<?x>: Foreign`, a crate that uses this one may
///    have an impl for `&Theirs` or `Box<Theirs>`.
/// 2. The trait is local or fundamental: knowable. No crate outside the view may have an impl for `Vec<?x>: Local`, because `Vec` covers
///    `?x`. The crate of a fundamental trait promises to add no impl.
/// 3. The orphan check passes in `InCrate::Local`: knowable. Only this crate may have an impl for `LocalTy: Foreign`.
/// 4. Otherwise: `Upstream`. For `Vec<u8>: Foreign`, a later version of the crate of `Foreign` may add the impl, and must not break this
///    crate.
///
/// The errors are those of `orphan_check_trait_ref`.
pub fn trait_ref_is_knowable<N: Normalize>(
    alloc: Global,
    context: &OrphanCtxt<'_>,
    trait_ref: TraitRef,
    limit: u32,
    normalize: &N,
) -> Result<Result<(), Conflict>, WalkError<N::Error>>
    requires held { Has context.now.cx.now.entries args_lists trait_ref.args.0 }
    requires ready { Ready context.now.cx.now.entries context.now.infcx.now }
    ensures walked { IsKnowableBy context.now.cx.now.entries context.now.decls.now context.now.infcx.now (N.answers normalize.now) limit trait_ref result }
    ensures exact { AnswersItsInput (N.answers normalize.now)
        → IsKnownOf context.now.cx.now.entries context.now.decls.now context.now.infcx.now limit trait_ref result }
{
    context.cx.lawful();
    knowable_by_walks(alloc, context, trait_ref, limit, normalize)
}

/// Returns whether the orphan walk ends at a local type.
pub(crate) fn is_local(decisive: Option<Decisive>) -> bool
    ensures { result ≡ is_local decisive }
{
    match decisive {
        Some(Decisive::Local) => true,
        Some(Decisive::Uncovered) | None => false,
    }
}

/// The cases of `trait_ref_is_knowable`. The orphan check passes in `InCrate::Remote` if the walk ends at an uncovered type, and in
/// `InCrate::Local` if it ends at a local type.
fn knowable_by_walks<N: Normalize>(
    alloc: Global,
    context: &OrphanCtxt<'_>,
    trait_ref: TraitRef,
    limit: u32,
    normalize: &N,
) -> Result<Result<(), Conflict>, WalkError<N::Error>>
    requires held { Has context.now.cx.now.entries args_lists trait_ref.args.0 }
    requires ready { Ready context.now.cx.now.entries context.now.infcx.now }
    ensures { IsKnowableBy context.now.cx.now.entries context.now.decls.now context.now.infcx.now (N.answers normalize.now) limit trait_ref result }
{
    let remote = Walk {
        context: *context,
        normalize,
        in_crate: InCrate::Remote,
    };
    let open = remote.decisive(alloc, trait_ref.args, limit)?;
    if open.is_some() {
        return Ok(Err(Conflict::Downstream));
    }
    if context.decls.trait_ref_is_local_or_fundamental(trait_ref) {
        return Ok(Ok(()));
    }
    let mode = OrphanCheckMode::Proper;
    let local = Walk {
        context: *context,
        normalize,
        in_crate: InCrate::Local { mode },
    };
    let own = local.decisive(alloc, trait_ref.args, limit)?;
    if is_local(own) {
        Ok(Ok(()))
    } else {
        Ok(Err(Conflict::Upstream))
    }
}
