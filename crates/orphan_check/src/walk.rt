//! The orphan walk. The types that are still to be visited are in a vector, so deep types cannot overflow the call stack.
ghost use Rattle.std.specs.Prelude.{◌-◌, false, IfErr, IfOk, IfSome, OnOk};
ghost use Rattle.type_terms.specs.Promised.Handles.{Has, types, trees_at};
ghost use Rattle.type_terms.specs.Terms.{args_lists};
ghost use Rattle.type_terms.specs.Promised.Handles.{ArgsHeld};
ghost use Rattle.type_terms.specs.Kinds.{args_trees};
ghost use Rattle.infer_table.specs.Content.{Ready};
ghost use Rattle.orphan_check.specs.Promised.Errors.{is_first};
ghost use Rattle.orphan_check.specs.Held.{EndHeld, MetHeld};
ghost use Rattle.orphan_check.specs.Promised.Errors.{ErrorHeld, TypeHeld};
ghost use Rattle.orphan_check.specs.Steps.{read};

use crate::context::OrphanCtxt;
use crate::errors::{InCrate, IsFirstInputType, OrphanCheckErr, UncoveredTyParams, WalkError};
use crate::look::{Taken, take};
use crate::normalize::Normalize;
use std::alloc::{AllocFailed, Global};
use type_terms::kinds::{GenericArgKind, GenericArgs, Ty, TyKind};

/// A type that is still to be visited.
#[derive(Clone, Copy)]
pub(crate) struct Pending {
    pub ty: Ty,
    /// How many levels the walk may visit from here on, this type included.
    pub limit: u32,
    /// Whether no other type will be finished before it.
    pub first: IsFirstInputType,
}

/// The result of one visit.
#[derive(Clone, Copy)]
pub(crate) enum Met {
    /// A reference or a fundamental struct. The types in it are pending now.
    Entered,
    Local(Ty),
    Uncovered(Ty),
    NonLocal(Ty, IsFirstInputType),
}

/// How an orphan walk ended.
pub(crate) enum End {
    /// At a local type.
    Local,
    /// At an uncovered type.
    Uncovered(Ty),
    /// At neither. These are the non-local types, in order.
    NonLocal(Vec<(Ty, IsFirstInputType)>),
}

/// One orphan walk. rustc: `OrphanChecker`.
#[derive_where(Clone, Copy)]
pub(crate) struct Walk<'a, N> {
    pub context: OrphanCtxt<'a>,
    pub normalize: &'a N,
    pub in_crate: InCrate,
}

impl<N: Normalize> Walk<'_, N> {
    ghost use Rattle.orphan_check.specs.Answers.{IsOrphanAnswer};
    ghost use Rattle.orphan_check.specs.Walks.{TypeIsRead, IsVisit, IsStep, IsFirstEnd, IsSecondEnd, ArePending, ArePushed, AreOnTop};
    ghost use Rattle.orphan_check.specs.Walks.{pending_steps, reads, steps_of_walk};

    /// Returns the type as the normalizer returns it, or as it was if the normalizer returns a variable. A variable with a value is
    /// replaced first.
    fn read(&self, ty: Ty) -> Result<Ty, WalkError<N::Error>>
        requires held { Has self.now.context.cx.now.entries types ty.0 }
        requires ready { Ready self.now.context.cx.now.entries self.now.context.infcx.now }
        ensures { let es = self.now.context.cx.now.entries in TypeIsRead es (read (reads N.answers self.now) (trees_at es ty.0)) result }
    {
        let ty = self.context.infcx.shallow_resolve(self.context.cx, ty);
        match self.normalize.normalize(self.context.cx, ty) {
            Ok(normal) => match self.context.cx.kind(normal) {
                TyKind::Infer(_) => Ok(ty),
                _ => Ok(normal),
            },
            Err(error) => Err(WalkError::Normalize(error)),
        }
    }

    /// Pushes the types of a list that are not the first input type, the first of the list last.
    fn push_others(
        &self,
        args: &[GenericArgKind],
        limit: u32,
        pending: &mut Vec<Pending>,
    ) -> Result<(), AllocFailed<Pending>>
        requires held { ArgsHeld self.now.context.cx.now.entries args.now }
        requires pending_held { ArePending self.now.context.cx.now.entries pending.old.items }
        ensures held { OnOk result (ArePending self.now.context.cx.now.entries pending.new.items) }
        ensures pushed { OnOk result (ArePushed self.now.context.cx.now.entries (reads N.answers self.now) limit false
            (args_trees self.now.context.cx.now.entries args.now) pending.old.items pending.new.items) }
        ensures on_top { OnOk result (AreOnTop limit pending.old.items pending.new.items) }
    {
        self.context.cx.lawful();
        let mut left = args;
        'others: while let Some((last, others)) = left.split_last() {
            if let GenericArgKind::Ty(ty) = last {
                pending.push(Pending {
                    ty: *ty,
                    limit,
                    first: IsFirstInputType::No,
                })?;
            }
            left = others;
        }
        Ok(())
    }

    /// Pushes the types of these arguments, the first one last. Lifetimes and constants are skipped.
    pub fn push_types(
        &self,
        args: GenericArgs,
        limit: u32,
        first: IsFirstInputType,
        pending: &mut Vec<Pending>,
    ) -> Result<(), AllocFailed<Pending>>
        requires held { Has self.now.context.cx.now.entries args_lists args.0 }
        requires pending_held { ArePending self.now.context.cx.now.entries pending.old.items }
        ensures held { OnOk result (ArePending self.now.context.cx.now.entries pending.new.items) }
        ensures pushed { let es = self.now.context.cx.now.entries in
            OnOk result (ArePushed es (reads N.answers self.now) limit (is_first first) (trees_at es args.0) pending.old.items pending.new.items) }
        ensures on_top { OnOk result (AreOnTop limit pending.old.items pending.new.items) }
    {
        self.context.cx.lawful();
        let mut left = self.context.cx.args(args);
        'types: while let Some((arg, others)) = left.split_first() {
            if let GenericArgKind::Ty(ty) = arg {
                self.push_others(others, limit, pending)?;
                pending.push(Pending {
                    ty: *ty,
                    limit,
                    first,
                })?;
                return Ok(());
            }
            left = others;
        }
        Ok(())
    }

    /// Visits a type. If it is entered, the types in it are pushed, with the limit reduced by one.
    pub fn visit(
        &self,
        next: Pending,
        pending: &mut Vec<Pending>,
    ) -> Result<Met, WalkError<N::Error>>
        requires held { Has self.now.context.cx.now.entries types next.ty.0 }
        requires ready { Ready self.now.context.cx.now.entries self.now.context.infcx.now }
        requires pending_held { ArePending self.now.context.cx.now.entries pending.old.items }
        ensures held { OnOk result (ArePending self.now.context.cx.now.entries pending.new.items) }
        ensures met { IfOk result (MetHeld self.now.context.cx.now.entries) }
        ensures visited { IsVisit self.now.context.cx.now.entries (reads N.answers self.now) next pending.old.items result pending.new.items }
        ensures on_top { OnOk result (AreOnTop (next.limit - 1) pending.old.items pending.new.items) }
    {
        self.context.cx.lawful();
        if next.limit == 0 {
            return Err(WalkError::Deep);
        }
        let inside = next.limit - 1;
        let ty = self.read(next.ty)?;
        match take(self.context.cx, self.context.decls, self.in_crate, ty) {
            Taken::Local => Ok(Met::Local(ty)),
            Taken::Uncovered => Ok(Met::Uncovered(ty)),
            Taken::NonLocal => Ok(Met::NonLocal(ty, next.first)),
            Taken::Reference(to) => {
                pending.push(Pending {
                    ty: to,
                    limit: inside,
                    first: next.first,
                })?;
                Ok(Met::Entered)
            }
            Taken::Fundamental(args) => {
                self.push_types(args, inside, next.first, pending)?;
                Ok(Met::Entered)
            }
        }
    }

    /// Visits the next pending type. `None` if there is none.
    fn step(&self, pending: &mut Vec<Pending>) -> Result<Option<Met>, WalkError<N::Error>>
        requires ready { Ready self.now.context.cx.now.entries self.now.context.infcx.now }
        requires pending_held { ArePending self.now.context.cx.now.entries pending.old.items }
        ensures held { OnOk result (ArePending self.now.context.cx.now.entries pending.new.items) }
        ensures met { IfOk result (λ met. IfSome met (MetHeld self.now.context.cx.now.entries)) }
        ensures stepped { let es = self.now.context.cx.now.entries in let r = reads N.answers self.now in
            IsStep es (pending_steps es r pending.old.items) result (pending_steps es r pending.new.items) }
    {
        match pending.pop() {
            Some(next) => Ok(Some(self.visit(next, pending)?)),
            None => Ok(None),
        }
    }

    /// Visits types up to the first local or uncovered type.
    pub fn first_end(
        &self,
        alloc: Global,
        args: GenericArgs,
        limit: u32,
    ) -> Result<End, WalkError<N::Error>>
        requires held { Has self.now.context.cx.now.entries args_lists args.0 }
        requires ready { Ready self.now.context.cx.now.entries self.now.context.infcx.now }
        ensures held { IfOk result (EndHeld self.now.context.cx.now.entries) }
        ensures ends { IsFirstEnd self.now.context.cx.now.entries (steps_of_walk N.answers self.now limit args) result }
    {
        let mut pending = Vec::new(alloc);
        self.push_types(args, limit, IsFirstInputType::Yes, &mut pending)?;
        let mut leaves = Vec::new(alloc);
        'walk: while let Some(met) = self.step(&mut pending)? {
            match met {
                Met::Entered => {}
                Met::Local(_) => return Ok(End::Local),
                Met::Uncovered(ty) => return Ok(End::Uncovered(ty)),
                Met::NonLocal(ty, first) => leaves.push((ty, first))?,
            }
        }
        Ok(End::NonLocal(leaves))
    }

    /// Returns the first local type. `None` if there is none, or if the normalizer fails before it.
    pub fn first_local(
        &self,
        alloc: Global,
        args: GenericArgs,
        limit: u32,
    ) -> Result<Option<Ty>, WalkError<N::Error>>
        requires held { Has self.now.context.cx.now.entries args_lists args.0 }
        requires ready { Ready self.now.context.cx.now.entries self.now.context.infcx.now }
        ensures held { IfOk result (λ found. IfSome found (TypeHeld self.now.context.cx.now.entries)) }
        ensures ends { IsSecondEnd self.now.context.cx.now.entries (steps_of_walk N.answers self.now limit args) result }
    {
        let mut pending = Vec::new(alloc);
        self.push_types(args, limit, IsFirstInputType::Yes, &mut pending)?;
        'walk: loop {
            match self.step(&mut pending) {
                Ok(Some(Met::Local(ty))) => return Ok(Some(ty)),
                Ok(Some(_)) => {}
                Ok(None) | Err(WalkError::Normalize(_)) => return Ok(None),
                Err(error) => return Err(error),
            }
        }
    }

    /// The orphan check of these arguments. After an uncovered type a second walk finds the first local type.
    pub fn orphan_check(
        &self,
        alloc: Global,
        args: GenericArgs,
        limit: u32,
    ) -> Result<Result<(), OrphanCheckErr<Ty>>, WalkError<N::Error>>
        requires held { Has self.now.context.cx.now.entries args_lists args.0 }
        requires ready { Ready self.now.context.cx.now.entries self.now.context.infcx.now }
        ensures held { IfOk result (λ answer. IfErr answer (ErrorHeld self.now.context.cx.now.entries)) }
        ensures answers { IsOrphanAnswer self.now.context.cx.now.entries self.now.in_crate (steps_of_walk N.answers self.now limit args) result }
    {
        match self.first_end(alloc, args, limit)? {
            End::Local => Ok(Ok(())),
            End::NonLocal(leaves) => Ok(Err(OrphanCheckErr::NonLocalInputType(leaves))),
            End::Uncovered(uncovered) => match self.in_crate {
                InCrate::Local { .. } => {
                    let local_ty = self.first_local(alloc, args, limit)?;
                    Ok(Err(OrphanCheckErr::UncoveredTyParams(UncoveredTyParams {
                        uncovered,
                        local_ty,
                    })))
                }
                InCrate::Remote => Ok(Ok(())),
            },
        }
    }
}
