//! The text for a section that is breaking.

use explain_texts::explain_diagnostics::{Diagnostic, Level};
use explain_texts::explain_sessions::BreakingCause;
use explain_texts::messages::{Piece, Sentence, Telling, plain, with_one, with_two};
use explain_texts::type_terms::{CrateId, TraitId};
use explain_texts::{Texts, crate_name, is_fundamental, trait_name};
use std::alloc::{AllocError, Global};

/// The trait of the impl of a section with this number.
fn added_trait(texts: Texts<'_>, section: u32, number: u32) -> Option<TraitId> {
    let place = (number as usize).checked_sub(1)?;
    let added = texts.workspace.later_impls_of(section).get(place)?;
    Some(added.entry.header.trait_id)
}

/// The sentence that users rely on the trait not being implemented, because it is fundamental or an auto trait.
fn relied_said(texts: Texts<'_>, relied: Option<TraitId>) -> Sentence<'_> {
    let Some(id) = relied else {
        return plain("users rely on what the trait is not implemented for");
    };
    let template = if is_fundamental(texts, id) {
        "`{}` is fundamental: users rely on what it is not implemented for"
    } else {
        "`{}` is an auto trait: users rely on what it is not implemented for"
    };
    with_one(template, Piece::Name(trait_name(texts, id)))
}

/// The label at the header of an impl of this trait.
fn label_of<'w>(
    texts: Texts<'w>,
    crate_id: CrateId,
    cause: BreakingCause,
    added: Option<TraitId>,
) -> Sentence<'w> {
    let name = Piece::Name(crate_name(texts, crate_id));
    match cause {
        BreakingCause::Orphan => {
            with_one("this header breaks the orphan rule of crate `{}`", name)
        }
        BreakingCause::ReliedOn => relied_said(texts, added),
        BreakingCause::OpenWalk => with_one(
            "a crate that uses `{}` may have an impl that overlaps this one",
            name,
        ),
    }
}

/// What the cause means, if it needs an explanation.
fn meaning(cause: BreakingCause) -> Option<&'static str> {
    match cause {
        BreakingCause::Orphan => Some(
            "a struct of the crate has to come first, before any parameter that stands alone: the orphan rule looks into references and fundamental structs, and into no other type",
        ),
        BreakingCause::ReliedOn => None,
        BreakingCause::OpenWalk => Some(
            "the open walk of the header, through the self type and the trait's type arguments, into references and fundamental structs, meets a parameter",
        ),
    }
}

/// The diagnostic for the impl of a section that a later version of a crate may not add. Impls count from 1.
pub(crate) fn breaking(
    alloc: Global,
    texts: Texts<'_>,
    crate_id: CrateId,
    section: u32,
    number: u32,
    cause: BreakingCause,
) -> Result<Diagnostic, AllocError> {
    let found = texts.lines.added_impl(section, number);
    let line = match found {
        Some(found) => Piece::Line(texts.file.own_line(found.line)),
        None => Piece::Text(""),
    };
    let message = with_two(
        "a later version of crate `{}` may not add this impl: line {}",
        Piece::Name(crate_name(texts, crate_id)),
        line,
    );
    let mut telling = Telling::begin(alloc, Level::Error, None, message);
    if let Some(found) = found {
        let added = added_trait(texts, section, number);
        telling.mark(found.header(), label_of(texts, crate_id, cause, added));
    }
    if let Some(said) = meaning(cause) {
        telling.note(plain(said));
    }
    telling.finish()
}
