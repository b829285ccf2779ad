//! The names of items, and where they are in the text.

ghost use Rattle.std.specs.Prelude.{◌≡◌, ◌==◌, length};
ghost use Rattle.std.specs.List.{list_any};
ghost use Rattle.std.specs.Option.{option_copied};
ghost use Rattle.explain_sessions.specs.TextLanguage.Promised.Desugared.{is_companion};
ghost use Rattle.messages.specs.Told.{KeepsMessage};
ghost use Rattle.explain_texts.specs.ItemLines.{IsItemLine};

use crate::lines::{ImplLine, ItemLines};
use explain_diagnostics::{Place, SourceFile, Span, on_line, text_of};
use explain_sessions::text_tables::Workspace;
use explain_sessions::type_terms::{AdtId, CrateId, ImplId, TraitId};
use messages::{Name, Piece, Telling, name_in, name_of};

/// A text, with what it declares and where that is.
#[derive(Clone, Copy)]
pub struct Texts<'w> {
    pub workspace: &'w Workspace,
    pub file: &'w SourceFile<'w>,
    pub lines: &'w ItemLines,
}

/// The line of an impl. `None` for an impl of `core`.
pub fn impl_line<'w>(texts: Texts<'w>, id: ImplId) -> Option<&'w ImplLine>
    ensures { IsItemLine (length texts.entry.workspace.now.impls) texts.entry.lines.now.impls.items id.index (option_copied result) }
{
    let all = texts.workspace.impls().len();
    let of_core = all.checked_sub(texts.lines.impls.len())?;
    let place = (id.index as usize).checked_sub(of_core)?;
    texts.lines.impls.get(place)
}

/// The line of a struct. `None` for a struct of `core`.
pub(crate) fn struct_line(texts: Texts<'_>, id: AdtId) -> Option<Span>
    ensures { IsItemLine (length texts.entry.workspace.now.structs) texts.entry.lines.now.structs.items id.index result }
{
    let all = texts.workspace.structs().len();
    let of_core = all.checked_sub(texts.lines.structs.len())?;
    let place = (id.index as usize).checked_sub(of_core)?;
    texts.lines.structs.get(place).copied()
}

/// A part of a line as it is written.
pub(crate) fn written<'w>(texts: Texts<'w>, line: u32, place: Place) -> Name<'w> {
    name_of(text_of(texts.file.line(line), place))
}

/// What an impl is called: by its line, or by its number in `core`.
pub fn impl_piece<'w>(texts: Texts<'w>, id: ImplId) -> Piece<'w> {
    if let Some(found) = impl_line(texts, id) {
        return Piece::ImplAtLine(texts.file.own_line(found.line));
    }
    match texts.workspace.impls().get(id.index as usize) {
        Some(entry) => Piece::ImplOfCore(entry.number_in_crate),
        None => Piece::Text("impl"),
    }
}

/// The name of a companion: that of its trait, and that of the type that it is about. `None` for the name of any other trait.
pub(crate) fn companion_parts(name: &[u8]) -> Option<(Name<'_>, Name<'_>)> {
    let end = name.iter().take_while(|byte| **byte != b':').count();
    let (of_trait, behind) = name.split_at_checked(end)?;
    let of_type = behind.strip_prefix(b"::")?;
    Some((name_of(of_trait), name_of(of_type)))
}

/// Whether a name has a colon. No name in a text has one.
fn has_colon(name: &[u8]) -> bool
    ensures { result ≡ list_any (λ c. c == 58) name.now }
{
    name.iter().any(|byte| *byte == b':')
}

/// Whether a trait of the workspace is the companion of another one.
fn is_companion_in(workspace: &Workspace, id: TraitId) -> bool
    ensures { result ≡ is_companion workspace.now id.index }
{
    match workspace.traits().get(id.index as usize) {
        Some(entry) => has_colon(&entry.name),
        None => false,
    }
}

/// Whether a trait is the companion of another one.
pub fn is_companion(texts: Texts<'_>, id: TraitId) -> bool
    ensures { result ≡ is_companion texts.entry.workspace.now id.index }
{
    is_companion_in(texts.workspace, id)
}

/// The name of a trait. A companion has that of its trait.
pub fn trait_name<'w>(texts: Texts<'w>, id: TraitId) -> Name<'w> {
    match texts.workspace.traits().get(id.index as usize) {
        Some(entry) => match companion_parts(&entry.name) {
            Some((of_trait, _)) => of_trait,
            None => name_of(&entry.name),
        },
        None => name_of(&[]),
    }
}

/// The name of a crate.
pub fn crate_name<'w>(texts: Texts<'w>, id: CrateId) -> Name<'w> {
    name_in(texts.workspace, id)
}

/// The crate of a trait.
pub(crate) fn trait_owner(texts: Texts<'_>, id: TraitId) -> Option<CrateId> {
    match texts.workspace.traits().get(id.index as usize) {
        Some(entry) => Some(entry.owner),
        None => None,
    }
}

/// The name of the crate of a trait.
pub(crate) fn trait_home<'w>(texts: Texts<'w>, id: TraitId) -> Name<'w> {
    match trait_owner(texts, id) {
        Some(owner) => crate_name(texts, owner),
        None => name_of(&[]),
    }
}

/// Whether a trait is an auto trait.
pub(crate) fn is_auto(texts: Texts<'_>, id: TraitId) -> bool {
    match texts.workspace.traits().get(id.index as usize) {
        Some(entry) => entry.is_auto,
        None => false,
    }
}

/// Whether a trait has built-in rules: it is of `core`, or auto.
pub(crate) fn has_rules(texts: Texts<'_>, id: TraitId) -> bool {
    match texts.workspace.traits().get(id.index as usize) {
        Some(entry) => entry.is_auto || entry.owner.index == 0,
        None => false,
    }
}

/// Whether a trait is fundamental.
pub fn is_fundamental(texts: Texts<'_>, id: TraitId) -> bool {
    match texts.workspace.traits().get(id.index as usize) {
        Some(entry) => entry.is_fundamental,
        None => false,
    }
}

/// Marks the trait and the type of an impl in the last child, without labels.
pub(crate) fn mark_parts(found: &ImplLine, telling: &mut Telling)
    ensures { KeepsMessage telling.old telling.new }
{
    telling.mark_child(on_line(found.line, found.parts.bound));
    telling.mark_child(on_line(found.line, found.parts.subject));
}
