//! Which goals are knowable: no crate outside the view can have an impl for them. `Local: Foreign` is knowable. `Vec<u8>: Foreign` is not,
//! because a later version of the trait's crate may add an impl.
ghost use Rattle.std.specs.Prelude.{◌≡◌, ◌==◌, ◌&&◌, ◌||◌, true, is_ok, IfOk, IfErr};
ghost use Rattle.type_terms.specs.Promised.Walks.{trait_is};
ghost use Rattle.type_terms.specs.Promised.Answers.{is_closed, written_in};
ghost use Rattle.type_terms.specs.Promised.Handles.{trees_at};
ghost use Rattle.type_terms.specs.declared.Fault.TheVariants.{Memory};
ghost use Rattle.declarations.specs.Items.{reference_in, written};
ghost use Rattle.declarations.specs.Held.{ReferenceHeld};
ghost use Rattle.candidate_model.specs.Knowing.{is_knowable};

use crate::visitors::has_open_places;
use declarations::declarations::Declarations;
use infer_table::infer_ctxt::InferCtxt;
use orphan_check::context::OrphanCtxt;
use orphan_check::errors::{Conflict, WalkError};
use orphan_check::knowable::trait_ref_is_knowable;
use orphan_check::normalize::AlreadyNormal;
use std::alloc::Global;
use term_folds::predicate::TraitRef;
use type_terms::Fault;
use type_terms::interner::Interner;

/// Whether the trait is local or fundamental, and the trait reference is concrete. Then it is knowable without a walk.
fn is_own_and_closed(cx: &Interner, declarations: &Declarations, trait_ref: TraitRef) -> bool
    requires { ReferenceHeld cx.now.entries trait_ref }
    ensures { result ≡ (trait_is (λ x. (x.home == declarations.now.local) || x.is_fundamental) (written cx.now.entries declarations.now) trait_ref.def_id.index
        && is_closed (trees_at cx.now.entries trait_ref.args.0)) }
{
    declarations.trait_ref_is_local_or_fundamental(trait_ref)
        && !has_open_places(cx, trait_ref.args)
}

/// Whether the walks found that no other crate may write an impl: neither the trait's crate in a later version, nor a crate that uses this
/// one.
fn is_known(answer: Result<(), Conflict>) -> bool
    ensures { result ≡ is_ok answer }
{
    answer.is_ok()
}

/// Whether the trait reference is knowable: all impls that could apply to it are in the view, whatever its variables stand for. The names
/// in it must be declared.
///
/// The walk always ends, however deep the types are. Fails only if memory is refused. rustc: `trait_ref_is_knowable`.
pub fn is_knowable(
    alloc: Global,
    cx: &Interner,
    declarations: &Declarations,
    trait_ref: TraitRef,
) -> Result<bool, Fault>
    requires held { ReferenceHeld cx.now.entries trait_ref }
    requires declared { written_in (written cx.now.entries declarations.now) (reference_in cx.now.entries trait_ref) ≡ true }
    ensures is { IfOk result (λ b. b ≡ is_knowable (written cx.now.entries declarations.now) declarations.now.local (reference_in cx.now.entries trait_ref)) }
    ensures memory { IfErr result (λ fault. fault ≡ Memory) }
{
    if is_own_and_closed(cx, declarations, trait_ref) {
        return Ok(true);
    }

    // No canonical variable has a value, nothing has to be normalized, and no walk goes deeper than the arguments are.
    let infcx = InferCtxt::new(alloc);
    let limit = cx.depth(trait_ref.args);
    let context = OrphanCtxt {
        cx,
        infcx: &infcx,
        decls: declarations,
    };
    match trait_ref_is_knowable(alloc, &context, trait_ref, limit, &AlreadyNormal) {
        Ok(answer) => Ok(is_known(answer)),
        Err(error) => match error {
            WalkError::Memory => Err(Fault::Memory),
            WalkError::Deep => unreachable!(),
            WalkError::Normalize(_) => unreachable!(),
        },
    }
}
