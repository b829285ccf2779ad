//! Resolution of goals.
ghost use Rattle.type_terms.specs.Growth.{GrewOrFull};
ghost use Rattle.std.specs.Prelude.{◌≡◌, IfOk, IfSome};
ghost use Rattle.type_terms.specs.Pieces.{each_piece};
ghost use Rattle.type_terms.specs.Promised.Handles.{Has, ArgHeld, ArgsHeld, arg_trees, trees_at};
ghost use Rattle.type_terms.specs.Kinds.{args_trees};
ghost use Rattle.type_terms.specs.Terms.{args_lists};
ghost use Rattle.infer_table.specs.Content.{content, Ready};
ghost use Rattle.infer_table.specs.Goals.{GoalHeld, ClausesHeld, goal_trees, environment_trees, goal_resolved};
ghost use Rattle.infer_table.specs.Solutions.{resolved};

use crate::goal::Goal;
use crate::infer_ctxt::InferCtxt;
use crate::resolve::VALUE_FLAGS;
use std::alloc::Global;
use term_folds::foldable::TypeFoldable;
use term_folds::predicate::{Clause, TraitPredicate, TraitRef};
use type_terms::Fault;
use type_terms::interner::Interner;
use type_terms::kinds::{GenericArgKind, GenericArgs, TyKind};
use type_terms::visitable_ext::TypeVisitableExt;

/// The goal with each variable replaced by its resolved value, if it has one. It is `eager_resolve_vars` for a goal.
pub fn resolve_goal(
    alloc: Global,
    cx: &mut Interner,
    table: &InferCtxt,
    goal: &Goal,
) -> Result<Goal, Fault>
    requires held { GoalHeld cx.old.entries goal.now }
    requires ready { Ready cx.old.entries table.now }
    ensures ready { Ready cx.new.entries table.now }
    ensures terms { GrewOrFull cx.old cx.new result }
    ensures held { IfOk result (λ r. GoalHeld cx.new.entries r) }
    ensures resolved { IfOk result (λ r. goal_trees cx.new.entries r
        ≡ goal_resolved (content cx.old.entries table.now.values) (goal_trees cx.old.entries goal.now)) }
{
    let param_env = resolve_clauses(alloc, cx, table, &goal.param_env)?;
    let TraitRef { def_id, args } = goal.predicate.trait_ref;
    let resolved = resolve_args(alloc, cx, table, args)?;
    let trait_ref = TraitRef {
        def_id,
        args: resolved,
    };
    Ok(Goal {
        param_env,
        predicate: TraitPredicate { trait_ref },
    })
}

/// Each clause resolved, in order.
fn resolve_clauses(
    alloc: Global,
    cx: &mut Interner,
    table: &InferCtxt,
    clauses: &[Clause],
) -> Result<Vec<Clause>, Fault>
    requires held { ClausesHeld cx.old.entries clauses.now }
    requires ready { Ready cx.old.entries table.now }
    ensures ready { Ready cx.new.entries table.now }
    ensures terms { GrewOrFull cx.old cx.new result }
    ensures held { IfOk result (λ r. ClausesHeld cx.new.entries r.items) }
    ensures resolved { IfOk result (λ r. environment_trees cx.new.entries r.items
        ≡ resolved (content cx.old.entries table.now.values) (environment_trees cx.old.entries clauses.now)) }
{
    let mut resolved = Vec::new(alloc);
    for clause in clauses {
        let next = resolve(cx, table, *clause)?;
        resolved.push(next)?;
    }
    Ok(resolved)
}

/// The list with each variable replaced by its resolved value, if it has one. A list without variables that can have one is not visited.
fn resolve_args(
    alloc: Global,
    cx: &mut Interner,
    table: &InferCtxt,
    args: GenericArgs,
) -> Result<GenericArgs, Fault>
    requires held { Has cx.old.entries args_lists args.0 }
    requires ready { Ready cx.old.entries table.now }
    ensures ready { Ready cx.new.entries table.now }
    ensures terms { GrewOrFull cx.old cx.new result }
    ensures held { IfOk result (λ r. Has cx.new.entries args_lists r.0) }
    ensures resolved { IfOk result (λ r. trees_at cx.new.entries r.0
        ≡ resolved (content cx.old.entries table.now.values) (trees_at cx.old.entries args.0)) }
{
    if cx.flags(args).0 & VALUE_FLAGS == 0 {
        return Ok(args);
    }
    let list = resolve_each(alloc, cx, table, args)?;
    let resolved = cx.mk_args(list)?;
    Ok(resolved)
}

/// Each argument of the list resolved, in order.
fn resolve_each(
    alloc: Global,
    cx: &mut Interner,
    table: &InferCtxt,
    args: GenericArgs,
) -> Result<Vec<GenericArgKind>, Fault>
    requires held { Has cx.old.entries args_lists args.0 }
    requires ready { Ready cx.old.entries table.now }
    ensures ready { Ready cx.new.entries table.now }
    ensures terms { GrewOrFull cx.old cx.new result }
    ensures held { IfOk result (λ v. ArgsHeld cx.new.entries v.items) }
    ensures resolved { IfOk result (λ v. args_trees cx.new.entries v.items
        ≡ resolved (content cx.old.entries table.now.values) (trees_at cx.old.entries args.0)) }
{
    let list = Vec::from_slice(alloc, cx.args(args))?;
    let mut found = Vec::new(alloc);
    let mut left = list.as_slice();
    'each: while let Some((arg, others)) = left.split_first() {
        let next = resolve_arg(cx, table, *arg)?;
        found.push(next)?;
        left = others;
    }
    Ok(found)
}

/// The argument resolved.
fn resolve_arg(
    cx: &mut Interner,
    table: &InferCtxt,
    arg: GenericArgKind,
) -> Result<GenericArgKind, Fault>
    requires held { ArgHeld cx.old.entries arg }
    requires ready { Ready cx.old.entries table.now }
    ensures ready { Ready cx.new.entries table.now }
    ensures terms { GrewOrFull cx.old cx.new result }
    ensures held { IfOk result (λ a. ArgHeld cx.new.entries a) }
    ensures resolved { IfOk result (λ a. arg_trees cx.new.entries a
        ≡ resolved (content cx.old.entries table.now.values) (arg_trees cx.old.entries arg)) }
{
    match plain_value(cx, table, arg) {
        Some(value) => Ok(value),
        None => table.eager_resolve_vars(cx, arg),
    }
}

/// The resolved argument, if nothing is to be folded for that: it is a variable, or has none that can have a value. `None` otherwise.
fn plain_value(cx: &Interner, table: &InferCtxt, arg: GenericArgKind) -> Option<GenericArgKind>
    requires held { ArgHeld cx.now.entries arg }
    requires ready { Ready cx.now.entries table.now }
    ensures held { IfSome result (λ a. ArgHeld cx.now.entries a) }
    ensures resolved { IfSome result (λ a. arg_trees cx.now.entries a
        ≡ resolved (content cx.now.entries table.now.values) (arg_trees cx.now.entries arg)) }
{
    let GenericArgKind::Ty(ty) = arg else {
        return None;
    };
    let value = table.shallow_resolve(cx, ty);
    match cx.kind(value) {
        TyKind::Infer(_) => Some(GenericArgKind::Ty(value)),
        _ => {
            if cx.flags(value).0 & VALUE_FLAGS == 0 {
                Some(GenericArgKind::Ty(value))
            } else {
                None
            }
        }
    }
}

/// The value with each variable replaced by its resolved value, if it has one. A value without variables that can have one is not folded.
fn resolve<T: TypeFoldable + TypeVisitableExt>(
    cx: &mut Interner,
    table: &InferCtxt,
    value: T,
) -> Result<T, Fault>
    requires held { T.held value cx.old.entries }
    requires ready { Ready cx.old.entries table.now }
    ensures ready { Ready cx.new.entries table.now }
    ensures terms { GrewOrFull cx.old cx.new result }
    ensures held { IfOk result (λ r. T.held r cx.new.entries) }
    ensures outline { IfOk result (λ r. T.outline r ≡ T.outline value) }
    ensures resolved { IfOk result (λ r. T.pieces r cx.new.entries
        ≡ each_piece (λ d t. resolved (content cx.old.entries table.now.values) t) (T.pieces value cx.old.entries)) }
{
    if value.flags(cx).0 & VALUE_FLAGS == 0 {
        return Ok(value);
    }
    table.eager_resolve_vars(cx, value)
}
