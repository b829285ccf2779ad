//! Folds of deep types, from their parts up.
//!
//! A fold recurses on the depth of a type, and a deep type could exhaust the stack. So the types in a deep type are folded
//! first, each after its own parts, by a worklist. Their folds are then in the cache, and the fold recurses only a little.
//! No result depends on this.
ghost use Rattle.type_terms.specs.Growth.{Grew};
ghost use Rattle.std.specs.Prelude.{◌≡◌, OnOk, IfOk, IfErr};
ghost use Rattle.type_terms.specs.Promised.Handles.{Has, types};
ghost use Rattle.type_terms.specs.Terms.{args_lists, type_lists};
ghost use Rattle.type_terms.specs.Promised.Handles.{ArgHeld};
ghost use Rattle.type_terms.specs.Kinds.{KindHeld};
ghost use Rattle.type_terms.specs.Failures.{FailsBy};
ghost use Rattle.term_folds.specs.Memos.{Remembers};
ghost use Rattle.term_folds.specs.Deep.{StepsHeld};

use crate::fold::{Answer, FallibleTypeFolder};
use crate::memo::Memo;
use crate::walk::walk_ty;
use std::alloc::Global;
use type_terms::Fault;
use type_terms::binders::Binders;
use type_terms::interner::Interner;
use type_terms::kinds::{GenericArgKind, GenericArgs, Ty, TyKind, Tys};
use type_terms::visit::SHALLOW;

/// A type under a number of binders. If `is_entered`, its parts are folded and it is the next to fold.
#[derive(Clone, Copy)]
pub(crate) struct Step {
    pub ty: Ty,
    pub depth: u32,
    pub is_entered: bool,
}

/// The cache that the fold of these parts begins with. It has the folds of the types in them if they are deep or the
/// folder leads on, and is empty otherwise.
pub(crate) fn begin<F: FallibleTypeFolder>(
    alloc: Global,
    cx: &mut Interner,
    folder: &F,
    parts: TyKind,
    depth: u32,
    binders: &Binders,
) -> Result<Memo, F::Error>
    requires ready { F.ready folder.now cx.old.entries }
    requires held { KindHeld cx.old.entries parts }
    ensures grew { Grew cx.old cx.new }
    ensures known { IfOk result (λ memo. Remembers (F.action folder.now cx.new.entries) cx.new.entries memo) }
    ensures failed { IfErr result (λ e. FailsBy (F.fails folder.now) F.Error.from_gives cx.new.entries cx.new.limit e) }
{
    let mut memo = Memo::new(alloc);
    if folder.leads_on() || depth > SHALLOW {
        let mut todo = Vec::new(alloc);
        push_parts(cx, parts, binders.depth().index, &mut todo)?;
        fold_parts(alloc, cx, folder, todo, &mut memo)?;
    }
    Ok(memo)
}

/// Folds the listed types into the cache, each after its own parts.
fn fold_parts<F: FallibleTypeFolder>(
    alloc: Global,
    cx: &mut Interner,
    folder: &F,
    mut todo: Vec<Step>,
    memo: &mut Memo,
) -> Result<(), F::Error>
    requires ready { F.ready folder.now cx.old.entries }
    requires known { Remembers (F.action folder.now cx.old.entries) cx.old.entries memo.old }
    requires todo { StepsHeld cx.old.entries todo.items }
    ensures grew { Grew cx.old cx.new }
    ensures known { OnOk result (Remembers (F.action folder.now cx.new.entries) cx.new.entries memo.new) }
    ensures failed { IfErr result (λ e. FailsBy (F.fails folder.now) F.Error.from_gives cx.new.entries cx.new.limit e) }
{
    for _ in 0..u64::MAX {
        let Some(step) = todo.pop() else {
            return Ok(());
        };
        take_step(alloc, cx, folder, step, &mut todo, memo)?;
    }
    Ok(())
}

/// Folds a type whose parts were folded. Otherwise puts the type on the list, and then its parts, which are taken first.
fn take_step<F: FallibleTypeFolder>(
    alloc: Global,
    cx: &mut Interner,
    folder: &F,
    step: Step,
    todo: &mut Vec<Step>,
    memo: &mut Memo,
) -> Result<(), F::Error>
    requires ready { F.ready folder.now cx.old.entries }
    requires known { Remembers (F.action folder.now cx.old.entries) cx.old.entries memo.old }
    requires held { Has cx.old.entries types step.ty.0 }
    requires todo { StepsHeld cx.old.entries todo.old.items }
    ensures grew { Grew cx.old cx.new }
    ensures known { OnOk result (Remembers (F.action folder.now cx.new.entries) cx.new.entries memo.new) }
    ensures todo { OnOk result (StepsHeld cx.new.entries todo.new.items) }
    ensures failed { IfErr result (λ e. FailsBy (F.fails folder.now) F.Error.from_gives cx.new.entries cx.new.limit e) }
{
    let binders = Binders::Empty(step.depth);
    if step.is_entered {
        let _ = walk_ty(alloc, cx, folder, step.ty, &binders, memo)?;
        return Ok(());
    }
    match folder.try_fold_ty(cx, step.ty, &binders)? {
        Answer::Replace(_) => Ok(()),
        Answer::Again(next) => Ok(push(cx, todo, next, step.depth, false)?),
        Answer::Enter => {
            if memo.known(step.ty, &binders).is_some() {
                return Ok(());
            }
            push(cx, todo, step.ty, step.depth, true)?;
            Ok(push_parts(cx, cx.kind(step.ty), step.depth, todo)?)
        }
    }
}

/// Puts the types in a type of this kind on the list. Those below a binder of the kind are under one binder more.
fn push_parts(cx: &Interner, kind: TyKind, depth: u32, todo: &mut Vec<Step>) -> Result<(), Fault>
    requires held { KindHeld cx.now.entries kind }
    requires todo { StepsHeld cx.now.entries todo.old.items }
    ensures todo { OnOk result (StepsHeld cx.now.entries todo.new.items) }
    ensures memory { IfErr result (λ e. e ≡ Fault.Memory) }
{
    match kind {
        TyKind::Adt(_, args) => push_args(cx, args, depth, todo),
        TyKind::Ref(_, to, _) => push(cx, todo, to, depth, false),
        TyKind::RawPtr(to, _) => push(cx, todo, to, depth, false),
        TyKind::Array(item, _) => push(cx, todo, item, depth, false),
        TyKind::Slice(item) => push(cx, todo, item, depth, false),
        TyKind::Tuple(items) => push_tys(cx, items, depth, todo),
        TyKind::FnPtr(_, items) => push_tys(cx, items, depth.saturating_add(1), todo),
        TyKind::Dynamic(bounds, _) => match cx.bounds(bounds).principal {
            Some(principal) => push_args(cx, principal.args, depth.saturating_add(1), todo),
            None => Ok(()),
        },
        _ => Ok(()),
    }
}

/// Puts the types among the arguments on the list.
fn push_args(
    cx: &Interner,
    args: GenericArgs,
    depth: u32,
    todo: &mut Vec<Step>,
) -> Result<(), Fault>
    requires held { Has cx.now.entries args_lists args.0 }
    requires todo { StepsHeld cx.now.entries todo.old.items }
    ensures todo { OnOk result (StepsHeld cx.now.entries todo.new.items) }
    ensures memory { IfErr result (λ e. e ≡ Fault.Memory) }
{
    for arg in cx.args(args) {
        push_arg(cx, *arg, depth, todo)?;
    }
    Ok(())
}

/// Puts an argument on the list, if it is a type.
fn push_arg(
    cx: &Interner,
    arg: GenericArgKind,
    depth: u32,
    todo: &mut Vec<Step>,
) -> Result<(), Fault>
    requires held { ArgHeld cx.now.entries arg }
    requires todo { StepsHeld cx.now.entries todo.old.items }
    ensures todo { OnOk result (StepsHeld cx.now.entries todo.new.items) }
    ensures memory { IfErr result (λ e. e ≡ Fault.Memory) }
{
    match arg {
        GenericArgKind::Ty(ty) => push(cx, todo, ty, depth, false),
        GenericArgKind::Lifetime(_) => Ok(()),
        GenericArgKind::Const(_) => Ok(()),
    }
}

/// Puts these types on the list.
fn push_tys(cx: &Interner, tys: Tys, depth: u32, todo: &mut Vec<Step>) -> Result<(), Fault>
    requires held { Has cx.now.entries type_lists tys.0 }
    requires todo { StepsHeld cx.now.entries todo.old.items }
    ensures todo { OnOk result (StepsHeld cx.now.entries todo.new.items) }
    ensures memory { IfErr result (λ e. e ≡ Fault.Memory) }
{
    for ty in cx.tys(tys) {
        push(cx, todo, *ty, depth, false)?;
    }
    Ok(())
}

/// Puts one type on the list.
#[tactic(auto, using(crate::proofs::DeepFacts::steps_push))]
fn push(
    cx: &Interner,
    todo: &mut Vec<Step>,
    ty: Ty,
    depth: u32,
    is_entered: bool,
) -> Result<(), Fault>
    requires held { Has cx.now.entries types ty.0 }
    requires todo { StepsHeld cx.now.entries todo.old.items }
    ensures todo { OnOk result (StepsHeld cx.now.entries todo.new.items) }
    ensures memory { IfErr result (λ e. e ≡ Fault.Memory) }
{
    let _ = cx.depth(ty);
    todo.push(Step {
        ty,
        depth,
        is_entered,
    })?;
    Ok(())
}
