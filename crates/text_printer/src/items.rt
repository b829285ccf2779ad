//! The names of structs and traits.
ghost use Rattle.std.specs.Prelude.{◌≡◌, ◌++◌, OnOk};
ghost use Rattle.text_language.specs.Names.{struct_text, trait_text};

use std::alloc::AllocError;
use text_tables::Workspace;
use type_terms::{AdtId, TraitId};

/// Appends the name of a struct as the text writes it. If there is no struct with this number, it appends nothing. Fails only if memory is
/// refused.
pub(crate) fn push_struct_name(
    workspace: &Workspace,
    id: AdtId,
    out: &mut Vec<u8>,
) -> Result<(), AllocError>
    ensures { OnOk result (out.new.items ≡ out.old.items ++ struct_text workspace.now id.index) }
{
    match workspace.structs().get(id.index as usize) {
        Some(entry) => out.extend_from_slice(&entry.name),
        None => Ok(()),
    }
}

/// Appends the name of a trait as the text writes it. If there is no trait with this number, it appends nothing. Fails only if memory is
/// refused.
pub(crate) fn push_trait_name(
    workspace: &Workspace,
    id: TraitId,
    out: &mut Vec<u8>,
) -> Result<(), AllocError>
    ensures { OnOk result (out.new.items ≡ out.old.items ++ trait_text workspace.now id.index) }
{
    match workspace.traits().get(id.index as usize) {
        Some(entry) => out.extend_from_slice(&entry.name),
        None => Ok(()),
    }
}
