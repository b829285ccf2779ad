//! The text for a goal without a proof that was found: the deepest goal that failed, and what requires it.

ghost use Rattle.std.specs.Prelude.{IfOk};
ghost use Rattle.messages.specs.Told.{IsAbout, KeepsMessage};

use crate::items::{
    Texts, has_rules, impl_line, impl_piece, is_auto, is_companion, trait_name, written,
};
use crate::lines::ImplLine;
use crate::links::{impl_above, last_of, tell_links, tell_narrowed, tell_supertrait};
use crate::refused::{Refusal, tell_refused};
use crate::spoken::SubjectKind;
use crate::story::{Story, refused_premise};
use explain_diagnostics::{Diagnostic, ErrCode, LIST_LIMIT, Level, Span};
use explain_sessions::explain_traces::Standing;
use explain_sessions::type_terms::{ImplId, TraitId};
use messages::{Piece, Sentence, Telling, plain, with_one, with_three, with_two};
use std::alloc::{AllocError, Global};

/// What requires a goal: a query, or the header of an impl.
#[derive(Clone, Copy)]
pub struct Asking<'s> {
    /// Where it is in the text.
    pub span: Span,
    /// The depth limit of the run.
    pub depth: u32,
    /// Whether the search may have evaluated as many nested goals as it may, so that it is not certain that a limit that it met is the depth.
    pub may_run_out: bool,
    /// The impls that its crate sees.
    pub seen: &'s [ImplId],
    /// The number of the supertrait, counted from 1, if a header requires it. `None` for a query.
    pub supertrait: Option<u32>,
    /// Whether the bounds of the query fix variables of this one.
    pub is_narrowed: bool,
    /// Whether the answers to this bound had values as often as is allowed.
    pub is_exhausted: bool,
}

/// The nested goal that makes a goal fail: that of its one candidate, if it is refused.
fn failing_premise(story: &Story<'_>, place: usize) -> Option<usize> {
    refused_premise(story, story.only_candidate(place)?)
}

/// The goals from index 0 to the first that fails for a reason of its own, and not because the nested goal of its one candidate is refused.
fn failing_path(alloc: Global, story: &Story<'_>) -> Result<Vec<usize>, AllocError> {
    let mut path = Vec::new(alloc);
    let mut at = 0usize;
    for _goal in 0..story.len() {
        path.push(at)?;
        match failing_premise(story, at) {
            Some(premise) => at = premise,
            None => return Ok(path),
        }
    }
    Ok(path)
}

/// Whether an impl is of a trait.
pub(crate) fn is_of_trait(texts: Texts<'_>, id: ImplId, of_trait: TraitId) -> bool {
    match texts.workspace.impls().get(id.index as usize) {
        Some(entry) => entry.header.trait_id == of_trait,
        None => false,
    }
}

/// Whether a trait has parameters. A companion has one more than its trait.
pub(crate) fn has_params(texts: Texts<'_>, id: TraitId) -> bool {
    let own = if is_companion(texts, id) { 1 } else { 0 };
    match texts.workspace.traits().get(id.index as usize) {
        Some(entry) => entry.params.len() > own,
        None => false,
    }
}

/// An impl as it is written, with its line: its type, and its whole header if the trait has parameters. That of a companion is written with
/// what it gives.
fn written_impl<'w>(
    texts: Texts<'w>,
    found: &ImplLine,
    has_params: bool,
    is_first: bool,
) -> Sentence<'w> {
    let place = if has_params {
        found.parts.header
    } else {
        found.parts.subject
    };
    let header = Piece::Name(written(texts, found.line, place));
    let line = Piece::Line(texts.file.own_line(found.line));
    if let Some(given) = found.given {
        let template = if is_first {
            "`{}` with `{}` (line {})"
        } else {
            ", `{}` with `{}` (line {})"
        };
        let given = Piece::Name(written(texts, found.line, given));
        return with_three(template, header, given, line);
    }
    let template = if is_first {
        "`{}` (line {})"
    } else {
        ", `{}` (line {})"
    };
    with_two(template, header, line)
}

/// The sentence that a trait has no impl, or those of `core` alone. An impl may need it.
fn without_impls(
    texts: Texts<'_>,
    id: TraitId,
    is_implemented: bool,
    needed_by: Option<ImplId>,
) -> Sentence<'_> {
    let name = Piece::Name(trait_name(texts, id));
    if is_implemented {
        with_one("only crate `core` has impls of `{}` here", name)
    } else if has_rules(texts, id) {
        with_one("`{}` has built-in rules alone here", name)
    } else if let Some(needed_by) = needed_by {
        with_two(
            "no crate that is seen has an impl of `{}`, which the {} needs to apply",
            name,
            impl_piece(texts, needed_by),
        )
    } else {
        with_one("no crate that is seen has an impl of `{}`", name)
    }
}

/// Begins the help about how a trait is implemented.
fn begin_impls(texts: Texts<'_>, id: TraitId, telling: &mut Telling)
    ensures { KeepsMessage telling.old telling.new }
{
    let how = if has_params(texts, id) { "as" } else { "for" };
    let name = Piece::Name(trait_name(texts, id));
    telling.help(with_two("`{}` is implemented {} ", name, Piece::Text(how)));
}

/// Adds an impl of a trait to the help. If more impls than are displayed come before it, nothing is added.
fn tell_impl(texts: Texts<'_>, id: TraitId, found: &ImplLine, before: usize, telling: &mut Telling)
    ensures { KeepsMessage telling.old telling.new }
{
    if before == 0 {
        begin_impls(texts, id, telling);
    }
    if before < LIST_LIMIT {
        let has_params = has_params(texts, id);
        telling.extend_child(written_impl(texts, found, has_params, before == 0));
    } else if before == LIST_LIMIT {
        telling.extend_child(plain(", .."));
    }
}

/// Adds the help about how the trait of a goal is implemented, with the impls that the crate sees. Those of `core` are left out. The goal
/// may be needed by an impl.
pub(crate) fn tell_implemented(
    story: &Story<'_>,
    place: usize,
    seen: &[ImplId],
    needed_by: Option<ImplId>,
    telling: &mut Telling,
)
    ensures { KeepsMessage telling.old telling.new }
{
    let Some(spoken) = story.spoken(place) else {
        return;
    };
    let (texts, id) = (story.texts, spoken.trait_id);
    let mut is_implemented = false;
    let mut count = 0usize;
    for other in seen {
        if is_of_trait(texts, *other, id) {
            is_implemented = true;
            if let Some(found) = impl_line(texts, *other) {
                tell_impl(texts, id, found, count, telling);
                count = count.saturating_add(1);
            }
        }
    }
    if count == 0 {
        telling.help(without_impls(texts, id, is_implemented, needed_by));
    }
}

/// The help to use a where-clause, if a parameter fails, or a bound of the `dyn` that has no auto trait.
fn bound_said<'s>(story: &'s Story<'_>, place: usize, is_impl: bool) -> Option<Sentence<'s>> {
    let spoken = story.spoken(place)?;
    match spoken.kind {
        SubjectKind::Param if is_impl => Some(with_one(
            "consider a where-clause of the impl: `where {}`",
            spoken.reference_piece(),
        )),
        SubjectKind::Param => Some(with_one(
            "consider asking under a where-clause: `where {}`",
            spoken.reference_piece(),
        )),
        SubjectKind::Dyn if is_auto(story.texts, spoken.trait_id) => Some(with_two(
            "a `dyn` has an auto trait by its bounds alone: consider `{} + {}`",
            spoken.subject_piece(),
            spoken.bound_piece(),
        )),
        _ => None,
    }
}

/// The sentence if the nested goals of the failed goal are not displayed, or if it needs itself.
fn standing_said<'s>(story: &'s Story<'_>, leaf: usize) -> Option<Sentence<'s>> {
    match story.standing(leaf) {
        Standing::Cut | Standing::Unwalked => {
            Some(plain("the goals that this one asks are not shown"))
        }
        Standing::Cycle(_) => Some(with_one(
            "`{}` needs itself: such a cycle proves nothing",
            story.reference(leaf),
        )),
        Standing::Opened | Standing::Same(_) => None,
    }
}

/// Adds why the goal failed: its nested goals are not displayed, or its candidates are refused.
fn tell_leaf(story: &Story<'_>, leaf: usize, telling: &mut Telling)
    ensures { KeepsMessage telling.old telling.new }
{
    if let Some(said) = standing_said(story, leaf) {
        telling.note(said);
    }
    tell_refused(story, leaf, Refusal::NotProved, telling);
}

/// Adds what may help with the last goal of a path.
fn tell_helps(story: &Story<'_>, path: &[usize], asking: Asking<'_>, telling: &mut Telling)
    ensures { KeepsMessage telling.old telling.new }
{
    let leaf = last_of(path);
    if let Some(said) = bound_said(story, leaf, asking.supertrait.is_some()) {
        telling.help(said);
    }
    tell_implemented(story, leaf, asking.seen, impl_above(story, path), telling);
}

/// The message that no proof of a goal was found.
fn message_of<'s>(story: &'s Story<'_>, leaf: usize) -> Sentence<'s> {
    with_one("the trait bound `{}` was not proved", story.reference(leaf))
}

/// The label at the bound that is queried.
fn said_at<'s>(story: &'s Story<'_>, leaf: usize) -> Sentence<'s> {
    with_two(
        "no proof was found that `{}` implements `{}`",
        story.subject(leaf),
        story.bound(leaf),
    )
}

/// The diagnostic for a goal without a proof that was found.
pub fn unproved(
    alloc: Global,
    story: &Story<'_>,
    asking: Asking<'_>,
) -> Result<Diagnostic, AllocError>
    ensures { IfOk result (IsAbout Level.Error (Some ErrCode.E0277) asking.entry.span) }
{
    let path = failing_path(alloc, story)?;
    let leaf = last_of(&path);
    let message = message_of(story, leaf);
    let mut telling = Telling::begin(alloc, Level::Error, Some(ErrCode::E0277), message);
    telling.mark(asking.span, said_at(story, leaf));
    tell_links(story, &path, &mut telling);
    tell_supertrait(story, asking.supertrait, &mut telling);
    tell_narrowed(story, asking.is_narrowed, &mut telling);
    tell_leaf(story, leaf, &mut telling);
    tell_helps(story, &path, asking, &mut telling);
    telling.finish()
}
