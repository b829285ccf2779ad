//! The checks of a text, by their indices.

ghost use Rattle.std.specs.Prelude.{ℕ};
ghost use Rattle.celtisdarts.specs.Asked.{IsCheckOf};
ghost use Rattle.coherence.specs.Groups.{IsCheckedIn};

use explain_texts::text_tables::{Check, Workspace};

/// The check at this index of the text.
pub(crate) fn check_at(workspace: &Workspace, place: usize) -> Check
    requires { (c : ℕ) × IsCheckedIn workspace.now c place }
    ensures { (c : ℕ) → IsCheckedIn workspace.now c place → IsCheckOf workspace.now c result }
{
    let _crates = workspace.crates();
    match workspace.checks()[place] {
        Check::Later(section, changed) => Check::Later(section, changed),
        Check::Supers(asked) => Check::Supers(asked),
    }
}
