//! The orphan walk of a declared header, with its parameters. It takes no memory.
ghost use Rattle.std.specs.Prelude.{◌≡◌, IsTrue, None};
ghost use Rattle.type_terms.specs.Promised.Versions.{open_walk_meets_param};
ghost use Rattle.type_terms.specs.Promised.Handles.{Has, types, trees_at};
ghost use Rattle.type_terms.specs.Terms.{args_lists};
ghost use Rattle.type_terms.specs.Promised.Handles.{ArgHeld, arg_trees};
ghost use Rattle.declarations.specs.Held.{ReferenceHeld};
ghost use Rattle.declarations.specs.Items.{Items, declared, reference_in};
ghost use Rattle.orphan_check.specs.Decisive.{decisive_in, is_uncovered};

use crate::decisive::Decisive;
use crate::errors::InCrate;
use crate::look::{Taken, take};
use declarations::declarations::Declarations;
use term_folds::predicate::TraitRef;
use type_terms::flags::TypeFlags;
use type_terms::interner::Interner;
use type_terms::kinds::{GenericArgKind, GenericArgs, Ty};
use type_terms::visitable_ext::TypeVisitableExt;

/// The flags of terms that contain an uncovered type.
const OPEN_TYPES: TypeFlags = TypeFlags(
    TypeFlags::HAS_TY_PARAM.0
        | TypeFlags::HAS_TY_INFER.0
        | TypeFlags::HAS_TY_PLACEHOLDER.0
        | TypeFlags::HAS_TY_BOUND.0,
);

/// Returns `true` only if no type in this one ends the walk. For another crate nothing is local, so one look at the flags suffices.
fn is_closed(cx: &Interner, in_crate: InCrate, ty: Ty) -> bool
    requires { Has cx.now.entries types ty.0 }
    ensures { IsTrue result → (d : Items) → decisive_in cx.now.entries d in_crate (trees_at cx.now.entries ty.0) ≡ None }
{
    match in_crate {
        InCrate::Local { .. } => false,
        InCrate::Remote => !ty.has_type_flags(cx, OPEN_TYPES),
    }
}

/// Returns the kind of type that ends the walk of a type.
#[cycle(written)]
fn decisive_in_ty(
    cx: &Interner,
    decls: &Declarations,
    in_crate: InCrate,
    ty: Ty,
) -> Option<Decisive>
    requires { Has cx.now.entries types ty.0 }
    ensures { result ≡ decisive_in cx.now.entries decls.now in_crate (trees_at cx.now.entries ty.0) }
{
    cx.lawful();
    if is_closed(cx, in_crate, ty) {
        return None;
    }
    match take(cx, decls, in_crate, ty) {
        Taken::Local => Some(Decisive::Local),
        Taken::Uncovered => Some(Decisive::Uncovered),
        Taken::NonLocal => None,
        Taken::Reference(to) => decisive_in_ty(cx, decls, in_crate, to),
        Taken::Fundamental(args) => decisive_in_args(cx, decls, in_crate, args),
    }
}

/// Returns the kind of type that ends the walk of an argument. Lifetimes and constants are skipped.
#[cycle(written)]
fn decisive_in_arg(
    cx: &Interner,
    decls: &Declarations,
    in_crate: InCrate,
    arg: GenericArgKind,
) -> Option<Decisive>
    requires { ArgHeld cx.now.entries arg }
    ensures { result ≡ decisive_in cx.now.entries decls.now in_crate (arg_trees cx.now.entries arg) }
{
    cx.lawful();
    match arg {
        GenericArgKind::Ty(ty) => decisive_in_ty(cx, decls, in_crate, ty),
        GenericArgKind::Lifetime(_) | GenericArgKind::Const(_) => None,
    }
}

/// Returns the kind of type that ends the walk of these arguments, in order.
#[cycle(written)]
pub(crate) fn decisive_in_args(
    cx: &Interner,
    decls: &Declarations,
    in_crate: InCrate,
    args: GenericArgs,
) -> Option<Decisive>
    requires { Has cx.now.entries args_lists args.0 }
    ensures { result ≡ decisive_in cx.now.entries decls.now in_crate (trees_at cx.now.entries args.0) }
{
    for arg in cx.args(args) {
        if let Some(decisive) = decisive_in_arg(cx, decls, in_crate, *arg) {
            return Some(decisive);
        }
    }
    None
}

/// Returns whether the orphan walk ends at an uncovered type.
fn is_uncovered(decisive: Option<Decisive>) -> bool
    ensures { result ≡ is_uncovered decisive }
{
    match decisive {
        Some(Decisive::Uncovered) => true,
        Some(Decisive::Local) | None => false,
    }
}

/// Returns whether the *open walk* of a header ends at a parameter, inference variable, placeholder or bound type. The open walk is the
/// orphan walk in which nothing is local. It enters references and fundamental structs, and no other type.
///
/// If it does, the impl is a blanket impl for crates that use this one. They may have an impl for a type of their own that it would
/// overlap, so a later version may not add it (RFC 1105 with RFC 2451):
///
/// - `impl<T> Num for &T` is blanket: a crate may have `impl Num for &Theirs`.
/// - `impl<T> Tr<T> for Local` is blanket: a crate may have `impl Tr<Theirs> for Local`.
/// - `impl<T> Num for Vec<T>` is not: no other crate may have `impl Num for Vec<Theirs>`.
///
/// This is the result of `orphan_check_trait_ref` in `InCrate::Remote` for variables without values. Costs:
///
/// - No memory is taken, and values of variables are not read.
/// - The stack grows with the nesting of references and fundamental structs, at most 64 levels in a text.
/// - A type without parameters, variables, placeholders and bound types is not entered. Any other type is visited at each occurrence. So
///   the time is at most the length of the header in a text. Terms that share subterms can take more: a fundamental `Pair<A, A>`, nested n
///   times, takes 2^n steps if no type ends the walk.
pub fn open_walk_meets_param(cx: &Interner, decls: &Declarations, trait_ref: TraitRef) -> bool
    requires { ReferenceHeld cx.now.entries trait_ref }
    ensures { result ≡ open_walk_meets_param (declared cx.now.entries decls.now) (reference_in cx.now.entries trait_ref) }
{
    is_uncovered(decisive_in_args(cx, decls, InCrate::Remote, trait_ref.args))
}
