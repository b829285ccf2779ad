//! Names of a text.

use text_tables::Workspace;
use type_terms::CrateId;

/// A name. It is displayed as `cut_text` displays a text.
#[derive(Clone, Copy)]
pub struct Name<'w> {
    /// The whole name, uncut.
    pub bytes: &'w [u8],
}

/// A name of a text.
pub fn name_of(bytes: &[u8]) -> Name<'_> {
    Name { bytes }
}

/// The name of a crate of a workspace.
pub fn name_in(workspace: &Workspace, id: CrateId) -> Name<'_> {
    if (id.index as usize) < workspace.crates().len() {
        name_of(workspace.crate_name(id))
    } else {
        name_of(&[])
    }
}
