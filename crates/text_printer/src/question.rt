//! The names in a query's values.
ghost use Rattle.std.specs.Prelude.{◌≡◌, ◌++◌, OnOk, codes};
ghost use Rattle.std.specs.Fmt.{decimal};
ghost use Rattle.text_language.specs.Names.{text_at, question_unknown};
ghost use Rattle.text_language.specs.Output.{place_in, unknown_text};
ghost use Rattle.text_printer.specs.Kinds.{sort_of_kind};
ghost use Rattle.text_tables.specs.Views.{param_names, question_of};
ghost use Rattle.text_printer.specs.Called.{unknowns_of};

use crate::items::{push_struct_name, push_trait_name};
use crate::names::{PrintNames, TermKind};
use crate::params::nth_of_kind;
use std::alloc::AllocError;
use text_tables::{Param, QuestionEntry, Workspace};
use type_terms::{AdtId, TraitId};

/// An inference variable, by its number among those of its kind.
#[derive(Clone, Copy, PartialEq, Eq)]
pub struct Unknown {
    pub kind: TermKind,
    pub index: u32,
}

/// The names in the values of a query. A placeholder has the name of the parameter, and an inference variable that of the variable that it
/// stands for. Inference variables that are not the query's are `?1`, `?2`, by their indices in a list.
#[derive(Clone, Copy)]
pub struct QuestionNames<'w> {
    pub workspace: &'w Workspace,
    pub question: &'w QuestionEntry,
    /// The inference variables that are not the query's, each once.
    pub free: &'w [Unknown],
}

/// The index of an inference variable in a list. If it is not there, the list's length.
fn place_of(free: &[Unknown], kind: TermKind, index: u32) -> usize
    ensures { result ≡ place_in (sort_of_kind kind) index (unknowns_of free.now) }
{
    let mut place = 0;
    for unknown in free {
        if unknown.kind == kind && unknown.index == index {
            return place;
        }
        place += 1;
    }
    place
}

/// Appends `?` and a number. The number has 128 bits, so that it can be one more than any length.
fn push_numbered(out: &mut Vec<u8>, number: u128) -> Result<(), AllocError>
    ensures { OnOk result (out.new.items ≡ out.old.items ++ (codes "?" ++ decimal number)) }
{
    out.push(b'?')?;
    let digits = number.to_string(*out.allocator())?;
    out.extend_from_slice(digits.as_bytes())?;
    Ok(())
}

/// Appends `?` and a variable's name.
fn push_variable(out: &mut Vec<u8>, variable: &Param) -> Result<(), AllocError>
    ensures { OnOk result (out.new.items ≡ out.old.items ++ (codes "?" ++ variable.now.name.items)) }
{
    out.push(b'?')?;
    out.extend_from_slice(&variable.name)?;
    Ok(())
}

fn push_name_at(out: &mut Vec<u8>, params: &[Param], place: u32) -> Result<(), AllocError>
    ensures { OnOk result (out.new.items ≡ out.old.items ++ text_at (param_names params.now) place) }
{
    match params.get(place as usize) {
        Some(param) => out.extend_from_slice(&param.name),
        None => Ok(()),
    }
}

impl<'w> PrintNames for QuestionNames<'w> {
    ghost use Rattle.text_language.specs.Names.{question_names};
    ghost use Rattle.text_tables.specs.Views.{question_of};
    ghost use Rattle.text_printer.specs.Called.{unknowns_of};

    ghost names = { λ q. question_names q.workspace.now (question_of q.question.now) (unknowns_of q.free.now) };

    fn push_struct(&self, id: AdtId, out: &mut Vec<u8>) -> Result<(), AllocError> {
        push_struct_name(self.workspace, id, out)
    }

    fn push_trait(&self, id: TraitId, out: &mut Vec<u8>) -> Result<(), AllocError> {
        push_trait_name(self.workspace, id, out)
    }

    fn push_param(
        &self,
        _kind: TermKind,
        _index: u32,
        _out: &mut Vec<u8>,
    ) -> Result<(), AllocError> {
        Ok(())
    }

    fn push_placeholder(
        &self,
        _kind: TermKind,
        index: u32,
        out: &mut Vec<u8>,
    ) -> Result<(), AllocError> {
        push_name_at(out, &self.question.params, index)
    }

    fn push_unknown(
        &self,
        kind: TermKind,
        index: u32,
        out: &mut Vec<u8>,
    ) -> Result<(), AllocError> {
        match nth_of_kind(&self.question.variables, kind, index) {
            Some(variable) => push_variable(out, variable),
            None => push_numbered(out, place_of(self.free, kind, index) as u128 + 1),
        }
    }
}
