//! The traversal of a fold, with a cache of the folds of types.
ghost use Rattle.type_terms.specs.Growth.{Grew, GrewOrFull};
ghost use Rattle.std.specs.Prelude.{◌≡◌, ◌++◌, ◌∷◌, [], IfOk, IfErr};
ghost use Rattle.type_terms.specs.Trees.{is_no_tree};
ghost use Rattle.type_terms.specs.Promised.Handles.{Is, Has, types, bounds_lists, trees_at};
ghost use Rattle.type_terms.specs.Terms.{args_lists, type_lists};
ghost use Rattle.type_terms.specs.Promised.Handles.{ArgHeld, arg_trees};
ghost use Rattle.type_terms.specs.Kinds.{KindHeld, PrincipalHeld, args_trees, principal_trees};
ghost use Rattle.type_terms.specs.Failures.{FailsBy};
ghost use Rattle.term_folds.specs.Folds.{IsHandleFold, IsHandleFoldBelow, IsFoldUnder, IsKindFold};
ghost use Rattle.term_folds.specs.Memos.{Remembers};

use crate::fold::{Answer, FallibleTypeFolder, fold_const, fold_region};
use crate::memo::Memo;
use std::alloc::Global;
use type_terms::Fault;
use type_terms::binders::Binders;
use type_terms::interner::Interner;
use type_terms::kinds::{
    Bounds, BoundsData, Const, GenericArgKind, GenericArgs, Principal, Ty, TyKind, Tys,
};
use type_terms::region::Region;

/// The fold of a type.
#[cycle(walks)]
pub(crate) fn walk_ty<F: FallibleTypeFolder>(
    alloc: Global,
    cx: &mut Interner,
    folder: &F,
    ty: Ty,
    binders: &Binders,
    memo: &mut Memo,
) -> Result<Ty, F::Error>
    requires ready { F.ready folder.now cx.old.entries }
    requires known { Remembers (F.action folder.now cx.old.entries) cx.old.entries memo.old }
    requires held { Has cx.old.entries types ty.0 }
    ensures grew { Grew cx.old cx.new }
    ensures folded { IfOk result (λ r. IsHandleFold (F.action folder.now) binders.now cx.old cx.new types ty.0 r.0) }
    ensures known { IfOk result (λ _. Remembers (F.action folder.now cx.new.entries) cx.new.entries memo.new) }
    ensures failed { IfErr result (λ e. FailsBy (F.fails folder.now) F.Error.from_gives cx.new.entries cx.new.limit e) }
{
    cx.lawful();
    match folder.try_fold_ty(cx, ty, binders)? {
        Answer::Enter => {
            if let Some(known) = memo.known(ty, binders) {
                return Ok(known);
            }
            let folded = super_walk_ty(alloc, cx, folder, ty, binders, memo)?;
            memo.note(ty, binders, folded)?;
            Ok(folded)
        }
        Answer::Replace(new) => Ok(new),
        Answer::Again(next) => walk_ty(alloc, cx, folder, next, binders, memo),
    }
}

/// The type over the folds of its children. The folder is not called at the type itself.
#[cycle(walks)]
pub(crate) fn super_walk_ty<F: FallibleTypeFolder>(
    alloc: Global,
    cx: &mut Interner,
    folder: &F,
    ty: Ty,
    binders: &Binders,
    memo: &mut Memo,
) -> Result<Ty, F::Error>
    requires ready { F.ready folder.now cx.old.entries }
    requires known { Remembers (F.action folder.now cx.old.entries) cx.old.entries memo.old }
    requires held { Has cx.old.entries types ty.0 }
    ensures grew { Grew cx.old cx.new }
    ensures folded { IfOk result (λ r. IsHandleFoldBelow (F.action folder.now) binders.now cx.old cx.new types ty.0 r.0) }
    ensures known { IfOk result (λ _. Remembers (F.action folder.now cx.new.entries) cx.new.entries memo.new) }
    ensures failed { IfErr result (λ e. FailsBy (F.fails folder.now) F.Error.from_gives cx.new.entries cx.new.limit e) }
{
    let folded = walk_kind(alloc, cx, folder, ty, binders, memo)?;
    Ok(cx.mk_ty(folded)?)
}

/// The kind of a type, over the folds of its children.
#[cycle(walks)]
fn walk_kind<F: FallibleTypeFolder>(
    alloc: Global,
    cx: &mut Interner,
    folder: &F,
    ty: Ty,
    binders: &Binders,
    memo: &mut Memo,
) -> Result<TyKind, F::Error>
    requires ready { F.ready folder.now cx.old.entries }
    requires known { Remembers (F.action folder.now cx.old.entries) cx.old.entries memo.old }
    requires held { Has cx.old.entries types ty.0 }
    ensures grew { Grew cx.old cx.new }
    ensures held { IfOk result (λ k. KindHeld cx.new.entries k) }
    ensures folded { IfOk result (λ k. IsKindFold (F.action folder.now) binders.now cx.old cx.new ty.0 k) }
    ensures known { IfOk result (λ _. Remembers (F.action folder.now cx.new.entries) cx.new.entries memo.new) }
    ensures failed { IfErr result (λ e. FailsBy (F.fails folder.now) F.Error.from_gives cx.new.entries cx.new.limit e) }
{
    let kind = cx.kind(ty);
    match kind {
        TyKind::Adt(adt, args) => {
            Ok(TyKind::Adt(adt, walk_args(alloc, cx, folder, args, binders, memo)?))
        }
        TyKind::Ref(region, to, mutability) => {
            let region = fold_region(cx, folder, region, binders)?;
            Ok(TyKind::Ref(
                region,
                walk_ty(alloc, cx, folder, to, binders, memo)?,
                mutability,
            ))
        }
        TyKind::RawPtr(to, mutability) => {
            Ok(TyKind::RawPtr(walk_ty(alloc, cx, folder, to, binders, memo)?, mutability))
        }
        TyKind::Array(item, length) => {
            let item = walk_ty(alloc, cx, folder, item, binders, memo)?;
            Ok(TyKind::Array(item, fold_const(cx, folder, length, binders)?))
        }
        TyKind::Slice(item) => Ok(TyKind::Slice(walk_ty(alloc, cx, folder, item, binders, memo)?)),
        TyKind::Tuple(items) => Ok(TyKind::Tuple(walk_tys(
            alloc, cx, folder, items, binders, memo,
        )?)),
        TyKind::FnPtr(count, tys) => {
            let inside = Binders::Inside(count, &*binders);
            Ok(TyKind::FnPtr(count, walk_tys(alloc, cx, folder, tys, &inside, memo)?))
        }
        TyKind::Dynamic(bounds, region) => {
            let region = fold_region(cx, folder, region, binders)?;
            Ok(TyKind::Dynamic(
                walk_bounds(alloc, cx, folder, bounds, binders, memo)?,
                region,
            ))
        }
        _ => Ok(kind),
    }
}

/// The fold of a list of types.
#[cycle(walks)]
pub(crate) fn walk_tys<F: FallibleTypeFolder>(
    alloc: Global,
    cx: &mut Interner,
    folder: &F,
    tys: Tys,
    binders: &Binders,
    memo: &mut Memo,
) -> Result<Tys, F::Error>
    requires ready { F.ready folder.now cx.old.entries }
    requires known { Remembers (F.action folder.now cx.old.entries) cx.old.entries memo.old }
    requires held { Has cx.old.entries type_lists tys.0 }
    ensures grew { Grew cx.old cx.new }
    ensures folded { IfOk result (λ r. IsHandleFold (F.action folder.now) binders.now cx.old cx.new type_lists tys.0 r.0) }
    ensures whole { IfOk result (λ r. is_no_tree (trees_at cx.new.entries r.0) ≡ is_no_tree (trees_at cx.old.entries tys.0)) }
    ensures known { IfOk result (λ _. Remembers (F.action folder.now cx.new.entries) cx.new.entries memo.new) }
    ensures failed { IfErr result (λ e. FailsBy (F.fails folder.now) F.Error.from_gives cx.new.entries cx.new.limit e) }
{
    cx.lawful();
    let old = copied(alloc, cx.tys(tys))?;
    let mut new = Vec::new(alloc);
    for ty in &old {
        let folded = walk_ty(alloc, cx, folder, *ty, binders, memo)?;
        append(&mut new, folded)?;
    }
    cx.lawful();
    Ok(cx.mk_tys(new)?)
}

/// The fold of a list of arguments. Most lists have one argument. Such a list is interned only if its argument changes.
#[cycle(walks)]
pub(crate) fn walk_args<F: FallibleTypeFolder>(
    alloc: Global,
    cx: &mut Interner,
    folder: &F,
    args: GenericArgs,
    binders: &Binders,
    memo: &mut Memo,
) -> Result<GenericArgs, F::Error>
    requires ready { F.ready folder.now cx.old.entries }
    requires known { Remembers (F.action folder.now cx.old.entries) cx.old.entries memo.old }
    requires held { Has cx.old.entries args_lists args.0 }
    ensures grew { Grew cx.old cx.new }
    ensures folded { IfOk result (λ r. IsHandleFold (F.action folder.now) binders.now cx.old cx.new args_lists args.0 r.0) }
    ensures known { IfOk result (λ _. Remembers (F.action folder.now cx.new.entries) cx.new.entries memo.new) }
    ensures failed { IfErr result (λ e. FailsBy (F.fails folder.now) F.Error.from_gives cx.new.entries cx.new.limit e) }
{
    let [arg] = cx.args(args) else {
        return walk_each_arg(alloc, cx, folder, args, binders, memo);
    };
    let arg = *arg;
    let folded = walk_arg(alloc, cx, folder, arg, binders, memo)?;
    if folded == arg {
        return Ok(args);
    }
    Ok(one_arg(alloc, cx, folded)?)
}

/// The fold of a list of arguments, item by item.
#[cycle(walks)]
fn walk_each_arg<F: FallibleTypeFolder>(
    alloc: Global,
    cx: &mut Interner,
    folder: &F,
    args: GenericArgs,
    binders: &Binders,
    memo: &mut Memo,
) -> Result<GenericArgs, F::Error>
    requires ready { F.ready folder.now cx.old.entries }
    requires known { Remembers (F.action folder.now cx.old.entries) cx.old.entries memo.old }
    requires held { Has cx.old.entries args_lists args.0 }
    ensures grew { Grew cx.old cx.new }
    ensures folded { IfOk result (λ r. IsHandleFold (F.action folder.now) binders.now cx.old cx.new args_lists args.0 r.0) }
    ensures known { IfOk result (λ _. Remembers (F.action folder.now cx.new.entries) cx.new.entries memo.new) }
    ensures failed { IfErr result (λ e. FailsBy (F.fails folder.now) F.Error.from_gives cx.new.entries cx.new.limit e) }
{
    let old = copied(alloc, cx.args(args))?;
    let mut new = Vec::new(alloc);
    for arg in &old {
        let folded = walk_arg(alloc, cx, folder, *arg, binders, memo)?;
        append(&mut new, folded)?;
    }
    Ok(cx.mk_args(new)?)
}

/// The fold of one argument.
#[cycle(walks)]
pub(crate) fn walk_arg<F: FallibleTypeFolder>(
    alloc: Global,
    cx: &mut Interner,
    folder: &F,
    arg: GenericArgKind,
    binders: &Binders,
    memo: &mut Memo,
) -> Result<GenericArgKind, F::Error>
    requires ready { F.ready folder.now cx.old.entries }
    requires known { Remembers (F.action folder.now cx.old.entries) cx.old.entries memo.old }
    requires held { ArgHeld cx.old.entries arg }
    ensures grew { Grew cx.old cx.new }
    ensures held { IfOk result (λ a. ArgHeld cx.new.entries a) }
    ensures folded { IfOk result (λ a. IsFoldUnder (F.action folder.now) binders.now cx.old cx.new arg_trees arg a) }
    ensures known { IfOk result (λ _. Remembers (F.action folder.now cx.new.entries) cx.new.entries memo.new) }
    ensures failed { IfErr result (λ e. FailsBy (F.fails folder.now) F.Error.from_gives cx.new.entries cx.new.limit e) }
{
    match arg {
        GenericArgKind::Lifetime(region) => {
            Ok(GenericArgKind::Lifetime(fold_region(cx, folder, region, binders)?))
        }
        GenericArgKind::Ty(ty) => Ok(GenericArgKind::Ty(walk_ty(
            alloc, cx, folder, ty, binders, memo,
        )?)),
        GenericArgKind::Const(ct) => {
            Ok(GenericArgKind::Const(fold_const(cx, folder, ct, binders)?))
        }
    }
}

/// The fold of the bounds of a `dyn`.
#[cycle(walks)]
pub(crate) fn walk_bounds<F: FallibleTypeFolder>(
    alloc: Global,
    cx: &mut Interner,
    folder: &F,
    bounds: Bounds,
    binders: &Binders,
    memo: &mut Memo,
) -> Result<Bounds, F::Error>
    requires ready { F.ready folder.now cx.old.entries }
    requires known { Remembers (F.action folder.now cx.old.entries) cx.old.entries memo.old }
    requires held { Has cx.old.entries bounds_lists bounds.0 }
    ensures grew { Grew cx.old cx.new }
    ensures folded { IfOk result (λ r. IsHandleFold (F.action folder.now) binders.now cx.old cx.new bounds_lists bounds.0 r.0) }
    ensures known { IfOk result (λ _. Remembers (F.action folder.now cx.new.entries) cx.new.entries memo.new) }
    ensures failed { IfErr result (λ e. FailsBy (F.fails folder.now) F.Error.from_gives cx.new.entries cx.new.limit e) }
{
    let data = cx.bounds(bounds);
    let old = data.principal;
    let autos = copied(alloc, &data.autos)?;
    let principal = walk_principal(alloc, cx, folder, old, binders, memo)?;
    Ok(cx.mk_bounds(BoundsData { principal, autos })?)
}

/// The fold of the principal trait. Its arguments are below a binder.
#[cycle(walks)]
fn walk_principal<F: FallibleTypeFolder>(
    alloc: Global,
    cx: &mut Interner,
    folder: &F,
    principal: Option<Principal>,
    binders: &Binders,
    memo: &mut Memo,
) -> Result<Option<Principal>, F::Error>
    requires ready { F.ready folder.now cx.old.entries }
    requires known { Remembers (F.action folder.now cx.old.entries) cx.old.entries memo.old }
    requires held { PrincipalHeld cx.old.entries principal }
    ensures grew { Grew cx.old cx.new }
    ensures held { IfOk result (λ p. PrincipalHeld cx.new.entries p) }
    ensures folded { IfOk result (λ p. IsFoldUnder (F.action folder.now) binders.now cx.old cx.new principal_trees principal p) }
    ensures known { IfOk result (λ _. Remembers (F.action folder.now cx.new.entries) cx.new.entries memo.new) }
    ensures failed { IfErr result (λ e. FailsBy (F.fails folder.now) F.Error.from_gives cx.new.entries cx.new.limit e) }
{
    match principal {
        Some(principal) => {
            let inside = Binders::Inside(principal.bound_vars, &*binders);
            let args = walk_args(alloc, cx, folder, principal.args, &inside, memo)?;
            Ok(Some(Principal { args, ..principal }))
        }
        None => Ok(None),
    }
}

/// A copy of a slice. The interner cannot be borrowed while terms are interned.
fn copied<T: Copy>(alloc: Global, items: &[T]) -> Result<Vec<T>, Fault>
    ensures copied { IfOk result (λ list. list.items ≡ items.now) }
    ensures memory { IfErr result (λ e. e ≡ Fault.Memory) }
{
    let mut list = Vec::new(alloc);
    for item in items {
        list.push(*item)?;
    }
    Ok(list)
}

/// Appends an item.
fn append<T: Drop>(list: &mut Vec<T>, item: T) -> Result<(), Fault>
    ensures appended { IfOk result (λ _. list.new.items ≡ list.old.items ++ item ∷ []) }
    ensures memory { IfErr result (λ e. e ≡ Fault.Memory) }
{
    Ok(list.push(item)?)
}

/// The list of this argument alone.
fn one_arg(alloc: Global, cx: &mut Interner, arg: GenericArgKind) -> Result<GenericArgs, Fault>
    requires { ArgHeld cx.old.entries arg }
    ensures is { IfOk result (λ r. Is cx.new.entries args_lists r.0 (args_trees cx.old.entries (arg ∷ []))) }
    ensures grew { GrewOrFull cx.old cx.new result }
{
    let list = vec![in alloc; arg]?;
    Ok(cx.mk_args(list)?)
}
