//! The checks and queries of a text, grouped by their crates.

ghost use Rattle.std.specs.Prelude.{◌+◌, ◌<◌, length, IfOk, OnOk};
ghost use Rattle.sessions.specs.TextTables.Numbered.{IsNumbered, IsFew};
ghost use Rattle.coherence.specs.Groups.{IsAskedIn, IsCheckedIn, AreGroups};

use sessions::text_tables::{Asked, Check, ENTRY_LIMIT, Workspace};
use sessions::type_terms::CrateId;
use std::alloc::{AllocError, Global};

/// The checks and queries of one crate, by their indices in the text.
#[derive(Drop)]
pub struct Group {
    /// The checks of its later versions and of its supertraits.
    pub checks: Vec<usize>,
    /// Its queries.
    pub questions: Vec<u32>,
}

impl Group {
    ghost use Rattle.std.specs.Prelude.{◌≡◌, ◌==◌, ◌&&◌, length};

    /// Whether the crate has no checks and no queries.
    pub fn is_empty(&self) -> bool
        ensures { result ≡ ((length self.now.checks.items == 0) && (length self.now.questions.items == 0)) }
    {
        self.checks.is_empty() && self.questions.is_empty()
    }
}

/// The crate of the check at this index.
fn checked_at(workspace: &Workspace, place: usize) -> CrateId
    requires { place < length workspace.now.checks }
    ensures { IsCheckedIn workspace.now result.index place }
{
    match workspace.checks()[place] {
        Check::Later(_, changed) => changed,
        Check::Supers(asked) => asked,
    }
}

/// The crate of the query at this index.
fn asker_at(workspace: &Workspace, place: usize) -> CrateId
    requires { place < length workspace.now.questions }
    ensures { IsAskedIn workspace.now result.index place }
{
    match workspace.questions()[place] {
        Asked::Prove(asker) => asker,
        Asked::Refute(asker) => asker,
    }
}

/// One empty group for each crate.
fn no_groups(alloc: Global, workspace: &Workspace) -> Result<Vec<Group>, AllocError>
    ensures { IfOk result (λ groups. AreGroups 0 0 workspace.now groups.items) }
{
    let mut groups = Vec::new(alloc);
    for _crate in workspace.crates() {
        groups.push(Group {
            checks: Vec::new(alloc),
            questions: Vec::new(alloc),
        })?;
    }
    Ok(groups)
}

/// Adds the check at this index to the group of its crate.
fn add_check(workspace: &Workspace, groups: &mut Vec<Group>, place: usize) -> Result<(), AllocError>
    requires numbered { IsNumbered workspace.now }
    requires there { place < length workspace.now.checks }
    requires groups { AreGroups place 0 workspace.now groups.old.items }
    ensures { OnOk result (AreGroups (place + 1) 0 workspace.now groups.new.items) }
{
    let checked = checked_at(workspace, place);
    groups[checked.index as usize].checks.push(place)?;
    Ok(())
}

/// Adds the query at this index to the group of its crate, after all checks.
fn add_question(
    workspace: &Workspace,
    groups: &mut Vec<Group>,
    place: usize,
) -> Result<(), AllocError>
    requires numbered { IsNumbered workspace.now }
    requires few { place < 4294967296 }
    requires there { place < length workspace.now.questions }
    requires groups { AreGroups (length workspace.now.checks) place workspace.now groups.old.items }
    ensures { OnOk result (AreGroups (length workspace.now.checks) (place + 1) workspace.now groups.new.items) }
{
    let asker = asker_at(workspace, place);
    groups[asker.index as usize].questions.push(place as u32)?;
    Ok(())
}

/// The checks of each crate, in the order of the text.
fn checks_by_crate(alloc: Global, workspace: &Workspace) -> Result<Vec<Group>, AllocError>
    requires { IsNumbered workspace.now }
    ensures { IfOk result (λ groups. AreGroups (length workspace.now.checks) 0 workspace.now groups.items) }
{
    let mut groups = no_groups(alloc, workspace)?;
    for place in 0..workspace.checks().len() {
        add_check(workspace, &mut groups, place)?;
    }
    Ok(groups)
}

/// The checks and the queries of each crate, in the order of the text. Fails only if memory is refused.
pub fn groups_by_crate(alloc: Global, workspace: &Workspace) -> Result<Vec<Group>, AllocError>
    requires numbered { IsNumbered workspace.now }
    requires few { IsFew workspace.now ENTRY_LIMIT }
    ensures { IfOk result (λ groups. AreGroups (length workspace.now.checks) (length workspace.now.questions) workspace.now groups.items) }
{
    let mut groups = checks_by_crate(alloc, workspace)?;
    for place in 0..workspace.questions().len() {
        add_question(workspace, &mut groups, place)?;
    }
    Ok(groups)
}
