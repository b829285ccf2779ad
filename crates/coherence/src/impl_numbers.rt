//! The numbers by which lines name impls.
//!
//! An impl that gives types stands for several: for itself, and behind that for one of each companion. They have one number, the text's.
ghost use Rattle.std.specs.Prelude.{◌≡◌, ◌≤◌, ◌<◌, ◌&&◌, ◌==◌, count_by, length};
ghost use Rattle.std.specs.List.{list_any};
ghost use Rattle.sessions.specs.TextLanguage.Promised.Declarations.{section_impls};
ghost use Rattle.sessions.specs.TextLanguage.Promised.Desugared.{is_companion};
ghost use Rattle.sessions.specs.TextTables.Views.{impl_of};
ghost use Rattle.coherence.specs.Promised.CheckAnswers.{number_in_section};
ghost use Rattle.coherence.specs.Promised.CrateAnswers.{is_written, number_in_crate};

use sessions::text_tables::{ImplEntry, LaterEntry, Workspace};
use sessions::type_terms::{CrateId, ImplId, TraitId};

/// Whether a name has a colon. No name in a text has one.
fn has_colon(name: &[u8]) -> bool
    ensures { result ≡ list_any (λ c. c == 58) name.now }
{
    name.iter().any(|byte| *byte == b':')
}

/// Whether a trait is a companion, by its name.
fn is_companion(workspace: &Workspace, id: TraitId) -> bool
    ensures { result ≡ is_companion workspace.now id.index }
{
    match workspace.traits().get(id.index as usize) {
        Some(entry) => has_colon(&entry.name),
        None => false,
    }
}

/// Whether the text has the impl as it stands here.
fn is_written(workspace: &Workspace, entry: &ImplEntry) -> bool
    ensures { result ≡ is_written workspace.now (impl_of entry.now) }
{
    !is_companion(workspace, entry.header.trait_id)
}

/// How many of the impls the text has in this crate.
fn count_in_crate(workspace: &Workspace, impls: &[ImplEntry], owner: CrateId) -> usize
    ensures { result ≡ count_by (λ i. (i.owner.index == owner.index) && is_written workspace.now (impl_of i)) impls.now }
{
    impls
        .iter()
        .filter(|entry| entry.owner.index == owner.index && is_written(workspace, entry))
        .count()
}

/// How many of the impls of sections the text has.
fn count_added(workspace: &Workspace, added: &[LaterEntry]) -> usize
    ensures { result ≡ count_by (λ i. is_written workspace.now (impl_of i.entry)) added.now }
{
    added
        .iter()
        .filter(|later| is_written(workspace, &later.entry))
        .count()
}

/// The number of an impl among those of its crate, from 1.
pub(crate) fn number_in_crate(workspace: &Workspace, id: ImplId) -> u32
    requires { id.index < length workspace.now.impls }
    ensures { result ≡ number_in_crate workspace.now id.index }
{
    let _crates = workspace.crates();
    let owner = workspace.impl_place(id).0;
    let impls = &workspace.impls()[..id.index as usize + 1];
    count_in_crate(workspace, impls, owner) as u32
}

/// The number of an impl in a section, from 1. `place` is that of the impl among all of the section, from 1 too.
pub(crate) fn number_in_section(workspace: &Workspace, section: u32, place: u32) -> u32
    requires { place ≤ length (section_impls workspace.now section) }
    ensures { result ≡ number_in_section workspace.now section place }
{
    let added = workspace.later_impls_of(section);
    count_added(workspace, &added[..place as usize]) as u32
}
