//! The cases of the orphan walk, by the kind of a type.
ghost use Rattle.std.specs.Prelude.{◌≡◌, List};
ghost use Rattle.type_terms.specs.Promised.Label.{adt, dynamic};
ghost use Rattle.type_terms.specs.Promised.Trees.{none, tree, ◌+++◌};
ghost use Rattle.type_terms.specs.Promised.Walks.{trait_is, is_home};
ghost use Rattle.type_terms.specs.Promised.Handles.{Entry, Has, types, bounds_lists, trees_at};
ghost use Rattle.type_terms.specs.Terms.{args_lists};
ghost use Rattle.type_terms.specs.Promised.Handles.{region_trees};
ghost use Rattle.type_terms.specs.declared.region.Region.{Region};
ghost use Rattle.declarations.specs.Items.{declared};
ghost use Rattle.orphan_check.specs.Steps.{home_in};
ghost use Rattle.orphan_check.specs.Walks.{IsTakenIn};

use crate::errors::InCrate;
use declarations::declarations::Declarations;
use type_terms::interner::Interner;
use type_terms::kinds::{Bounds, GenericArgs, Ty, TyKind};
use type_terms::{AdtId, CrateId, TraitId};

/// The case of a type. `orphan_check_trait_ref` has the list with examples.
#[derive(Clone, Copy)]
pub(crate) enum Taken {
    /// Of the crate of the check.
    Local,
    /// Any other type. The walk does not enter it.
    NonLocal,
    /// A parameter, an inference variable, a placeholder or a bound type.
    Uncovered,
    /// `&T` or `&mut T`. The walk goes on with `T`.
    Reference(Ty),
    /// A fundamental struct that is not local. The walk goes on with its arguments.
    Fundamental(GenericArgs),
}

/// Returns whether items of the crate `home` are local. rustc: `OrphanChecker::def_id_is_local`.
fn def_id_is_local(decls: &Declarations, in_crate: InCrate, home: CrateId) -> bool
    ensures { result ≡ is_home (home_in decls.now.local in_crate) home.index }
{
    match in_crate {
        InCrate::Local { .. } => decls.is_local(home),
        InCrate::Remote => false,
    }
}

/// Returns the case of a struct. A struct that is not declared is non-local.
fn take_adt(decls: &Declarations, in_crate: InCrate, id: AdtId, args: GenericArgs) -> Taken
    ensures { (es : List Entry) → Has es args_lists args.0 → IsTakenIn es decls.now in_crate (tree (adt id.index) (trees_at es args.0) none) result }
{
    match decls.adt_def(id) {
        Some(def) => {
            if def_id_is_local(decls, in_crate, def.home) {
                Taken::Local
            } else if def.is_fundamental {
                Taken::Fundamental(args)
            } else {
                Taken::NonLocal
            }
        }
        None => Taken::NonLocal,
    }
}

/// Returns whether a trait is local.
fn trait_is_local(decls: &Declarations, in_crate: InCrate, id: TraitId) -> bool
    ensures { (es : List Entry) → result ≡ trait_is (λ x. is_home (home_in decls.now.local in_crate) x.home) (declared es decls.now) id.index }
{
    match decls.trait_def(id) {
        Some(def) => def_id_is_local(decls, in_crate, def.home),
        None => false,
    }
}

/// Returns the case of a `dyn` type, by its principal trait: `dyn Local + Send` is local, `dyn Send` is not.
fn take_dyn(cx: &Interner, decls: &Declarations, in_crate: InCrate, bounds: Bounds) -> Taken
    requires { Has cx.now.entries bounds_lists bounds.0 }
    ensures { let es = cx.now.entries in (r : Region) → IsTakenIn es decls.now in_crate (tree dynamic (trees_at es bounds.0 +++ region_trees r) none) result }
{
    match cx.bounds(bounds).principal {
        Some(principal) => {
            if trait_is_local(decls, in_crate, principal.def_id) {
                Taken::Local
            } else {
                Taken::NonLocal
            }
        }
        None => Taken::NonLocal,
    }
}

/// Returns the case of a type. It was read before, so a variable has no value.
pub(crate) fn take(cx: &Interner, decls: &Declarations, in_crate: InCrate, ty: Ty) -> Taken
    requires { Has cx.now.entries types ty.0 }
    ensures { IsTakenIn cx.now.entries decls.now in_crate (trees_at cx.now.entries ty.0) result }
{
    match cx.kind(ty) {
        TyKind::Ref(_, to, _) => Taken::Reference(to),
        TyKind::Adt(id, args) => take_adt(decls, in_crate, id, args),
        TyKind::Dynamic(bounds, _) => take_dyn(cx, decls, in_crate, bounds),
        TyKind::Param(_) | TyKind::Placeholder(_) | TyKind::Bound(_, _) | TyKind::Infer(_) => {
            Taken::Uncovered
        }
        TyKind::Bool
        | TyKind::Char
        | TyKind::Int(_)
        | TyKind::Uint(_)
        | TyKind::Str
        | TyKind::Never
        | TyKind::RawPtr(_, _)
        | TyKind::Array(_, _)
        | TyKind::Slice(_)
        | TyKind::Tuple(_)
        | TyKind::FnPtr(_, _) => Taken::NonLocal,
    }
}
