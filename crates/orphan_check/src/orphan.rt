//! The orphan check of a trait reference.
ghost use Rattle.std.specs.Prelude.{◌≡◌, ◌==◌, List, IfErr, IfOk};
ghost use Rattle.type_terms.specs.Promised.Walks.{keeps_orphan_rule, trait_is};
ghost use Rattle.type_terms.specs.Promised.Handles.{Entry, Has};
ghost use Rattle.type_terms.specs.Terms.{args_lists};
ghost use Rattle.infer_table.specs.Content.{Ready};
ghost use Rattle.declarations.specs.Held.{ReferenceHeld};
ghost use Rattle.declarations.specs.Items.{declared, reference_in};
ghost use Rattle.orphan_check.specs.Answers.{IsOrphanBy};
ghost use Rattle.orphan_check.specs.Exact.{AnswersItsInput, IsOrphanCheckOf};
ghost use Rattle.orphan_check.specs.Promised.Errors.{ErrorHeld};

use crate::context::OrphanCtxt;
use crate::errors::{InCrate, OrphanCheckErr, OrphanCheckMode, WalkError};
use crate::knowable::is_local;
use crate::normalize::Normalize;
use crate::open_walk::decisive_in_args;
use crate::walk::Walk;
use declarations::declarations::Declarations;
use std::alloc::Global;
use term_folds::predicate::TraitRef;
use type_terms::TraitId;
use type_terms::interner::Interner;
use type_terms::kinds::Ty;

/// Checks whether a crate may write an impl for the trait reference, by the types in it (RFC 2451). A crate may implement its own traits
/// for all types, so callers look at the trait first.
///
/// The *orphan walk* visits types in order. It ends at the first type that is local or uncovered.
///
/// 1. The arguments are visited in order, `Self` first: `A`, `B` and `C` for `impl Tr<B, C> for A`. Lifetimes and constants are skipped.
/// 2. An inference variable with a value is visited as its value. Then the normalizer is applied to the type.
/// 3. A struct of the crate is *local*, and so is a `dyn` type if its principal trait is of the crate: `Local<A>`, `dyn LocalTrait`.
/// 4. A parameter, inference variable, placeholder or bound type is *uncovered*: `T` in `impl<T> Foreign for T`.
/// 5. A reference is entered, and so is a fundamental struct that is not local. The walk goes on with its arguments, by these rules:
///    `A` for `&A` and for `Box<A>`, `A` and then `B` for a fundamental `Pair<A, B>`.
/// 6. Any other type is *non-local*, and is not entered: `u8`, `(A, B)`, `[A]`, `*const A`, `fn(A)`, and `Vec<A>`, which *covers* `A`.
///
/// In `InCrate::Local` the end of the walk gives the result for this crate:
///
/// 1. At a local type the check passes. Examples are `impl Foreign for Box<Local>`, `impl<T> Foreign<Local> for Vec<T>`, in which `Vec`
///    covers `T`, and `impl<T> Foreign for Pair<Local, T>`, in which `T` is after the local type.
/// 2. At an uncovered type it fails with `UncoveredTyParams`. Examples are `impl<T> Foreign for T` and `impl<T> Foreign<Local> for Box<T>`.
///    The error has the first local type after it, if there is one: `Local` in the second example.
/// 3. Without an end it fails with `NonLocalInputType`, which lists the non-local types in order: `u8` for `impl Foreign for Box<u8>`,
///    `Vec<Local>` for `impl Foreign for Vec<Local>`.
///
/// In `InCrate::Remote` nothing is local. The result is for all crates outside the view together:
///
/// 1. At an uncovered type the check passes, because some crate may have a type for it: `Theirs` for `?x` in `Box<?x>: Foreign`.
/// 2. Without an end it fails with `NonLocalInputType`: no such crate may write an impl for `Vec<?x>: Foreign` or `Local<?x>: Foreign`.
///
/// The rule serves three purposes:
///
/// 1. No two crates may write an impl for the same concrete types, unless one of them sees the other. Each impl is checked in `Local`.
/// 2. A crate may rely on a missing impl if no crate outside the view may write it. `trait_ref_is_knowable` asks in `Remote`.
/// 3. The crate of a trait may add an impl in a later version, unless a parameter in its header is uncovered (RFC 1023): `T` in
///    `impl<T> Foreign for &T`. `open_walk_meets_param` finds these impls.
///
/// Fails with `Normalize` if the normalizer fails for a visited type, with `Deep` if a visited type is more than `limit` levels deep,
/// counted from 1 at the arguments, and with `Memory` if memory is refused. After an uncovered type an error of the normalizer only ends
/// the search for a local type. Unlike in rustc, the trait reference may have parameters.
pub fn orphan_check_trait_ref<N: Normalize>(
    alloc: Global,
    context: &OrphanCtxt<'_>,
    trait_ref: TraitRef,
    in_crate: InCrate,
    limit: u32,
    normalize: &N,
) -> Result<Result<(), OrphanCheckErr<Ty>>, WalkError<N::Error>>
    requires held { Has context.now.cx.now.entries args_lists trait_ref.args.0 }
    requires ready { Ready context.now.cx.now.entries context.now.infcx.now }
    ensures held { IfOk result (λ answer. IfErr answer (ErrorHeld context.now.cx.now.entries)) }
    ensures walked { let es = context.now.cx.now.entries in
        IsOrphanBy es context.now.decls.now context.now.infcx.now (N.answers normalize.now) in_crate limit trait_ref result }
    ensures exact { AnswersItsInput (N.answers normalize.now)
        → IsOrphanCheckOf context.now.cx.now.entries context.now.decls.now context.now.infcx.now in_crate limit trait_ref result }
{
    context.cx.lawful();
    let walk = Walk {
        context: *context,
        normalize,
        in_crate,
    };
    walk.orphan_check(alloc, trait_ref.args, limit)
}

/// Returns whether a trait is of this crate.
fn is_own_trait(decls: &Declarations, id: TraitId) -> bool
    ensures { (es : List Entry) → result ≡ trait_is (λ x. x.home == decls.now.local) (declared es decls.now) id.index }
{
    match decls.trait_def(id) {
        Some(def) => decls.is_local(def.home),
        None => false,
    }
}

/// Returns whether this crate may write an impl with this header: the trait is of this crate, or the orphan walk of the declared header
/// ends at a local type (RFC 2451).
///
/// `orphan_check_trait_ref` finds the error too, but takes memory. The costs are those of `open_walk_meets_param`, except that types
/// without parameters are entered as well.
pub fn keeps_orphan_rule(cx: &Interner, decls: &Declarations, trait_ref: TraitRef) -> bool
    requires { ReferenceHeld cx.now.entries trait_ref }
    ensures { result ≡ keeps_orphan_rule (declared cx.now.entries decls.now) decls.now.local (reference_in cx.now.entries trait_ref) }
{
    let mode = OrphanCheckMode::Proper;
    is_own_trait(decls, trait_ref.def_id)
        || is_local(decisive_in_args(cx, decls, InCrate::Local { mode }, trait_ref.args))
}
