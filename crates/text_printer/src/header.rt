//! The names in the header of a refused impl.
ghost use Rattle.std.specs.Prelude.{◌≡◌, ◌++◌, OnOk};

use crate::items::{push_struct_name, push_trait_name};
use crate::names::{PrintNames, TermKind};
use crate::params::{nth_of_kind, push_name};
use std::alloc::AllocError;
use text_tables::{Param, Workspace};
use type_terms::{AdtId, TraitId};

/// The names in the header of a refused impl. An inference variable has the name of the impl's parameter that it stands for. Those of one
/// kind count from 0.
#[derive(Clone, Copy)]
pub struct HeaderNames<'w> {
    pub workspace: &'w Workspace,
    /// The impl's parameters.
    pub params: &'w [Param],
}

impl<'w> PrintNames for HeaderNames<'w> {
    ghost use Rattle.text_language.specs.Names.{header_names};
    ghost use Rattle.text_tables.specs.Views.{sorted_params};

    ghost names = { λ h. header_names h.workspace.now (sorted_params h.params.now) };

    fn push_struct(&self, id: AdtId, out: &mut Vec<u8>) -> Result<(), AllocError> {
        push_struct_name(self.workspace, id, out)
    }

    fn push_trait(&self, id: TraitId, out: &mut Vec<u8>) -> Result<(), AllocError> {
        push_trait_name(self.workspace, id, out)
    }

    fn push_param(
        &self,
        _kind: TermKind,
        _index: u32,
        _out: &mut Vec<u8>,
    ) -> Result<(), AllocError> {
        Ok(())
    }

    fn push_placeholder(
        &self,
        _kind: TermKind,
        _index: u32,
        _out: &mut Vec<u8>,
    ) -> Result<(), AllocError> {
        Ok(())
    }

    fn push_unknown(
        &self,
        kind: TermKind,
        index: u32,
        out: &mut Vec<u8>,
    ) -> Result<(), AllocError> {
        match nth_of_kind(self.params, kind, index) {
            Some(param) => push_name(param, out),
            None => Ok(()),
        }
    }
}
