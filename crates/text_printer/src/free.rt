//! The variables in a query's values that are not the query's own.
ghost use Rattle.std.specs.Prelude.{◌≡◌, length, nat_lt, OnOk, IfOk, map, []};
ghost use Rattle.type_terms.specs.Promised.Label.{infer};
ghost use Rattle.type_terms.specs.Promised.Trees.{leaf};
ghost use Rattle.text_language.specs.Names as names;
ghost use Rattle.text_language.specs.Names.{variables_of_kind, with_free};
ghost use Rattle.text_language.specs.Output.{is_in};
ghost use Rattle.text_printer.specs.Kinds.{sort_of_kind};
ghost use Rattle.type_terms.specs.Promised.Handles.{Has, consts, trees_at};
ghost use Rattle.type_terms.specs.Promised.Handles.{arg_trees, ArgHeld};
ghost use Rattle.text_tables.specs.Views.{question_of};
ghost use Rattle.text_printer.specs.Called.{unknowns_of};
ghost use Rattle.text_printer.specs.Listed.{listed_of, ListHeld};

use crate::listed::Listed;
use crate::names::TermKind;
use crate::params::nth_of_kind;
use crate::question::Unknown;
use std::alloc::{AllocError, Global};
use std::ops::ControlFlow;
use text_tables::QuestionEntry;
use type_terms::binders::Binders;
use type_terms::interner::Interner;
use type_terms::kinds::{Const, ConstKind, GenericArgKind, Ty, TyKind};
use type_terms::region::Region;
use type_terms::visit::{Seen, TypeVisitor, visit_ty};

/// Whether an inference variable stands for a variable of the query.
fn is_own(question: &QuestionEntry, kind: TermKind, index: u32) -> bool
    ensures { result ≡ nat_lt index (length (variables_of_kind (sort_of_kind kind) (question_of question.now).variables)) }
{
    match nth_of_kind(&question.variables, kind, index) {
        Some(_) => true,
        None => false,
    }
}

fn is_listed(free: &[Unknown], kind: TermKind, index: u32) -> bool
    ensures { result ≡ is_in (sort_of_kind kind) index (unknowns_of free.now) }
{
    for unknown in free {
        if unknown.kind == kind && unknown.index == index {
            return true;
        }
    }
    false
}

/// Lists an inference variable, unless it is the query's or is listed.
fn add_unknown(
    question: &QuestionEntry,
    free: &mut Vec<Unknown>,
    kind: TermKind,
    index: u32,
) -> Result<(), AllocError>
    ensures { OnOk result (unknowns_of free.new.items
        ≡ with_free (question_of question.now) (leaf (infer (sort_of_kind kind) index)) (unknowns_of free.old.items)) }
{
    if is_own(question, kind, index) {
        return Ok(());
    }
    if is_listed(free, kind, index) {
        return Ok(());
    }
    free.push(Unknown { kind, index })?;
    Ok(())
}

/// Lists a constant, if it is an inference variable that is not the query's.
fn add_const(
    cx: &Interner,
    question: &QuestionEntry,
    free: &mut Vec<Unknown>,
    ct: Const,
) -> Result<(), AllocError>
    requires { Has cx.now.entries consts ct.0 }
    ensures { OnOk result (unknowns_of free.new.items ≡ with_free (question_of question.now) (trees_at cx.now.entries ct.0) (unknowns_of free.old.items)) }
{
    match cx.const_kind(ct) {
        ConstKind::Infer(vid) => add_unknown(question, free, TermKind::Const, vid.index),
        _ => Ok(()),
    }
}

/// Lists the inference variables that it meets, each once, without those of the query.
#[derive(Drop)]
struct ListsFree<'w> {
    question: &'w QuestionEntry,
    free: Vec<Unknown>,
}

impl TypeVisitor for ListsFree<'_> {
    type Break = AllocError;

    ghost use Rattle.std.proofs.Common.{refl};
    ghost use Rattle.std.specs.declared.alloc.AllocError.{AllocError};
    ghost use Rattle.text_printer.specs.Listing.{Lists, bounds-list-none};

    ghost ready = { λ _ _. Unit {0} };

    ghost sees = { λ es bs t v w a. Lists t v w a };

    ghost enters_bounds = { λ v es bs t h. bounds-list-none AllocError v t h };

    fn visit_ty(&mut self, cx: &Interner, ty: Ty, _binders: &Binders) -> Seen<AllocError> {
        match cx.kind(ty) {
            TyKind::Infer(vid) => {
                match add_unknown(self.question, &mut self.free, TermKind::Ty, vid.index) {
                    Ok(()) => Seen::Pass,
                    Err(error) => Seen::Break(error),
                }
            }
            _ => Seen::Enter,
        }
    }

    fn visit_const(&mut self, cx: &Interner, ct: Const, _binders: &Binders) -> Seen<AllocError> {
        match add_const(cx, self.question, &mut self.free, ct) {
            Ok(()) => Seen::Pass,
            Err(error) => Seen::Break(error),
        }
    }

    fn visit_region(
        &mut self,
        _cx: &Interner,
        _region: Region,
        _binders: &Binders,
    ) -> Seen<AllocError> {
        Seen::Pass
    }
}

/// Lists the inference variables of a value.
fn list_value(
    cx: &Interner,
    lists: &mut ListsFree<'_>,
    value: GenericArgKind,
) -> Result<(), AllocError>
    requires { ArgHeld cx.now.entries value }
    ensures question { lists.new.question.now ≡ lists.old.question.now }
    ensures listed { OnOk result (unknowns_of lists.new.free.items
        ≡ with_free (question_of lists.old.question.now) (arg_trees cx.now.entries value) (unknowns_of lists.old.free.items)) }
{
    match value {
        GenericArgKind::Lifetime(_) => Ok(()),
        GenericArgKind::Ty(ty) => match visit_ty(cx, lists, ty, &Binders::Outermost) {
            ControlFlow::Break(error) => Err(error),
            ControlFlow::Continue(()) => Ok(()),
        },
        GenericArgKind::Const(ct) => add_const(cx, lists.question, &mut lists.free, ct),
    }
}

/// The inference variables in the values that stand for no variable of the query, each once, in the order of first occurrence.
pub(crate) fn free_unknowns(
    alloc: Global,
    cx: &Interner,
    question: &QuestionEntry,
    values: &[Listed<'_>],
) -> Result<Vec<Unknown>, AllocError>
    requires { ListHeld cx.now.entries values.now }
    ensures { IfOk result (λ free. unknowns_of free.items ≡ names.free_unknowns (question_of question.now) (map (listed_of cx.now.entries) values.now) []) }
{
    let mut lists = ListsFree {
        question,
        free: Vec::new(alloc),
    };
    for listed in values {
        list_value(cx, &mut lists, listed.value)?;
    }
    let ListsFree { free, .. } = lists;
    Ok(free)
}
