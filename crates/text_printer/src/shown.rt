//! The names in explanations.

ghost use Rattle.std.specs.Prelude.{◌≡◌, ◌++◌, OnOk, codes};
ghost use Rattle.text_language.specs.Names.{text_at};
ghost use Rattle.text_tables.specs.Views.{param_names};

use crate::items::{push_struct_name, push_trait_name};
use crate::names::{PrintNames, TermKind};
use crate::params::nth_of_kind;
use std::alloc::AllocError;
use text_tables::{Param, Workspace};
use type_terms::{AdtId, TraitId};

/// The names in explanations. A parameter and a placeholder have the name of the parameter at their index, and an inference variable has
/// that of the variable that it stands for. An inference variable that stands for none is `_`.
#[derive(Clone, Copy)]
pub struct ShownNames<'w> {
    pub workspace: &'w Workspace,
    /// The parameters of the query, or of the impl.
    pub params: &'w [Param],
    /// The variables of the query.
    pub variables: &'w [Param],
}

fn push_param_at(out: &mut Vec<u8>, params: &[Param], place: u32) -> Result<(), AllocError>
    ensures { OnOk result (out.new.items ≡ out.old.items ++ text_at (param_names params.now) place) }
{
    match params.get(place as usize) {
        Some(param) => out.extend_from_slice(&param.name),
        None => Ok(()),
    }
}

/// Appends `?` and a variable's name.
fn push_variable(out: &mut Vec<u8>, variable: &Param) -> Result<(), AllocError>
    ensures { OnOk result (out.new.items ≡ out.old.items ++ (codes "?" ++ variable.now.name.items)) }
{
    out.push(b'?')?;
    out.extend_from_slice(&variable.name)?;
    Ok(())
}

/// Appends `_`, for an inference variable that stands for no variable.
fn push_blank(out: &mut Vec<u8>) -> Result<(), AllocError>
    ensures { OnOk result (out.new.items ≡ out.old.items ++ codes "_") }
{
    out.push(b'_')?;
    Ok(())
}

impl<'w> PrintNames for ShownNames<'w> {
    ghost use Rattle.text_printer.specs.Shown.{shown_names};

    ghost names = { λ h. shown_names h.workspace.now h.params.now h.variables.now };

    fn push_struct(&self, id: AdtId, out: &mut Vec<u8>) -> Result<(), AllocError> {
        push_struct_name(self.workspace, id, out)
    }

    fn push_trait(&self, id: TraitId, out: &mut Vec<u8>) -> Result<(), AllocError> {
        push_trait_name(self.workspace, id, out)
    }

    fn push_param(&self, _kind: TermKind, index: u32, out: &mut Vec<u8>) -> Result<(), AllocError> {
        push_param_at(out, self.params, index)
    }

    fn push_placeholder(
        &self,
        _kind: TermKind,
        index: u32,
        out: &mut Vec<u8>,
    ) -> Result<(), AllocError> {
        push_param_at(out, self.params, index)
    }

    fn push_unknown(
        &self,
        kind: TermKind,
        index: u32,
        out: &mut Vec<u8>,
    ) -> Result<(), AllocError> {
        match nth_of_kind(self.variables, kind, index) {
            Some(variable) => push_variable(out, variable),
            None => push_blank(out),
        }
    }
}
