//! The text for a query that was answered `no`.

ghost use Rattle.std.specs.Prelude.{◌≡◌, false, true, IfOk};
ghost use Rattle.messages.specs.Marked.{is_marked};
ghost use Rattle.messages.specs.Told.{IsAbout, KeepsMessage};
ghost use Rattle.explain_texts.specs.Claimed.{claims_of};

use crate::failures::Asking;
use crate::items::{Texts, has_rules, is_companion, is_fundamental, trait_name};
use crate::links::tell_narrowed;
use crate::refused::{Refusal, tell_refused};
use crate::spoken::Spoken;
use crate::story::Story;
use explain_diagnostics::{Diagnostic, Level};
use explain_sessions::Adder;
use explain_sessions::orphan_check::errors::Conflict;
use messages::{Piece, Sentence, Telling, plain, with_one, with_three, with_two};
use std::alloc::{AllocError, Global};

/// The sentence that nothing fits. It says so if that was not checked.
fn nothing_fits<'s>(story: &Story<'s>, spoken: &'s Spoken) -> Sentence<'s>
    ensures { is_marked result ≡ false → (claims_of story.now).no_impl ≡ true }
{
    let texts = story.texts;
    let template = if !has_rules(texts, spoken.trait_id) {
        if story.has_no_impl() {
            "no impl of `{}` fits"
        } else {
            "no impl of `{}` fits, not checked"
        }
    } else if story.has_no_impl() && story.has_no_built_in_rule() {
        "no impl and no built-in rule of `{}` fits"
    } else {
        "no impl and no built-in rule of `{}` fits, not checked"
    };
    let name = if is_companion(texts, spoken.trait_id) {
        spoken.bound_piece()
    } else {
        Piece::Name(trait_name(texts, spoken.trait_id))
    };
    with_one(template, name)
}

/// Why no crate outside the view may add an impl.
fn known_said<'s>(texts: Texts<'s>, spoken: &'s Spoken) -> Sentence<'s> {
    let name = Piece::Name(trait_name(texts, spoken.trait_id));
    let reference = spoken.reference_piece();
    if is_fundamental(texts, spoken.trait_id) {
        with_two(
            "no other crate may add an impl: `{}` is fundamental, and the orphan rule lets no other crate write one for `{}`",
            name,
            reference,
        )
    } else {
        with_one(
            "no other crate may add an impl: the orphan rule lets none write one for `{}`",
            reference,
        )
    }
}

/// Why an impl that a crate outside the view may add changes nothing.
fn unseen_said<'s>(texts: Texts<'s>, spoken: &'s Spoken, adder: Option<Adder>) -> Sentence<'s> {
    let template = match adder {
        Some(Adder::Owner(_)) =>
            "upstream crates may add a new impl of trait `{}` for type `{}` in future versions, but such an impl would need the supertraits of `{}`, of which one is refused",
        Some(Adder::User) =>
            "downstream crates may implement trait `{}` for type `{}`, but such an impl would need the supertraits of `{}`, of which one is refused",
        None =>
            "an impl of trait `{}` for type `{}` that is not seen would need the supertraits of `{}`, of which one is refused",
    };
    let name = Piece::Name(trait_name(texts, spoken.trait_id));
    with_three(template, spoken.bound_piece(), spoken.subject_piece(), name)
}

/// Why nothing outside the view proves the trait reference.
fn unseen_why<'s>(
    texts: Texts<'s>,
    spoken: &'s Spoken,
    unseen: Option<Conflict>,
    adder: Option<Adder>,
) -> Sentence<'s> {
    match unseen {
        None => known_said(texts, spoken),
        Some(_) => unseen_said(texts, spoken, adder),
    }
}

/// Adds why nothing in the view, and nothing outside it, proves the trait reference.
fn tell_whys(story: &Story<'_>, is_narrowed: bool, telling: &mut Telling)
    ensures { KeepsMessage telling.old telling.new }
{
    tell_narrowed(story, is_narrowed, telling);
    tell_refused(story, 0, Refusal::NoCrate, telling);
    let Some(spoken) = story.spoken(0) else {
        return;
    };
    if story.candidates(0).is_empty() && story.is_whole(0) {
        telling.note(nothing_fits(&*story, spoken));
    }
    if let Some(unseen) = story.unseen(0) {
        telling.note(unseen_why(story.texts, spoken, unseen, story.adder(0)));
    }
}

/// The diagnostic for a query that was answered `no`.
pub fn refuted(
    alloc: Global,
    story: &Story<'_>,
    asking: Asking<'_>,
) -> Result<Diagnostic, AllocError>
    ensures { IfOk result (IsAbout Level.Note None asking.entry.span) }
{
    let message = with_one(
        "no crate that may be linked with this one can make `{}` hold",
        story.reference(0),
    );
    let mut telling = Telling::begin(alloc, Level::Note, None, message);
    telling.mark(asking.span, plain(""));
    tell_whys(story, asking.is_narrowed, &mut telling);
    telling.finish()
}
