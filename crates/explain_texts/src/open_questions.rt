//! The text for a query that was answered `open`.

ghost use Rattle.std.specs.Prelude.{◌≡◌, ◌⊎◌, false, true, not, IfOk};
ghost use Rattle.messages.specs.Marked.{is_marked, says_unchecked};
ghost use Rattle.messages.specs.Told.{IsAbout, KeepsMessage};
ghost use Rattle.explain_texts.specs.Claimed.{claims_chance, claims_rule};

use crate::doubts::tell_deeper;
use crate::failures::Asking;
use crate::links::tell_narrowed;
use crate::reasons::{Reason, is_left, open_path, reason_of, tell_limit, tell_path};
use crate::sources::source_piece;
use crate::spoken::SubjectKind;
use crate::story::Story;
use explain_diagnostics::{Diagnostic, LIST_LIMIT, Level};
use explain_sessions::explain_traces::{Answer, CandidateNode};
use explain_sessions::goal_evaluator::Certainty;
use messages::{Piece, Sentence, Telling, plain, with_one, with_two};
use std::alloc::{AllocError, Global};

/// The sentence for a candidate that may apply, which says so if that was not checked.
pub(crate) fn chance(may_apply: bool) -> &'static str
    ensures { says_unchecked result.now ≡ not may_apply }
{
    if may_apply {
        "the {} may apply"
    } else {
        "the {} may apply, not checked"
    }
}

/// The sentence for the candidate with this number, which is left: it applies, if the goal holds by it, or it may apply. It says so if that
/// was not checked.
fn way_said<'s>(
    story: &'s Story<'_>,
    candidate: &CandidateNode,
    holds: bool,
    number: usize,
) -> Sentence<'s>
    ensures { is_marked result ≡ false → (claims_chance story.now 0 number ≡ true) ⊎ (claims_rule story.now 0 number ≡ true) }
{
    let template = if !holds || candidate.certainty != Some(Certainty::Yes) {
        chance(story.may_apply(0, number))
    } else if story.is_rule(0, number) {
        "the {} applies"
    } else {
        "the {} applies, not checked"
    };
    with_one(template, source_piece(story.texts, candidate.source))
}

/// Adds the notes for the candidates that apply, or may apply. If the self type is a variable, none is added, because the one candidate
/// stands for all impls.
fn tell_ways(story: &Story<'_>, telling: &mut Telling)
    ensures { KeepsMessage telling.old telling.new }
{
    if let SubjectKind::Unknown = story.kind(0) {
        return;
    }
    let holds = story.answer(0) == Answer::Yes;
    let mut count = 0usize;
    for (number, candidate) in story.candidates(0).iter().enumerate() {
        if is_left(candidate) {
            if count == LIST_LIMIT {
                telling.note(plain("others may apply too"));
                return;
            }
            count = count.saturating_add(1);
            telling.note(way_said(story, candidate, holds, number));
        }
    }
}

/// Adds that the answers to the bound had values as often as is allowed.
fn tell_growth(story: &Story<'_>, asking: Asking<'_>, telling: &mut Telling)
    ensures { KeepsMessage telling.old telling.new }
{
    telling.note(with_two(
        "`{}` is not refused: each answer fixes more, up to the depth limit {}",
        story.reference(0),
        Piece::Number(asking.depth as usize),
    ));
    tell_deeper(asking.depth, telling);
}

/// Adds why the question is open, on the path to the goal that leaves it so.
fn tell_open(story: &Story<'_>, path: &[usize], asking: Asking<'_>, telling: &mut Telling)
    ensures { KeepsMessage telling.old telling.new }
{
    tell_narrowed(story, asking.is_narrowed, telling);
    if asking.is_exhausted {
        tell_growth(story, asking, telling);
        return;
    }
    let mut reason = reason_of(story, 0, asking);
    if path.len() > 1 || !matches!(reason, Reason::Open) {
        reason = tell_path(story, path, asking, telling);
    }
    // A longer path tells the way that it takes.
    if path.len() == 1 && !story.is_held(0) {
        tell_ways(story, telling);
    }
    tell_limit(reason, asking.depth, telling);
}

/// What is said of a question that was answered open.
pub fn left_open(
    alloc: Global,
    story: &Story<'_>,
    asking: Asking<'_>,
) -> Result<Diagnostic, AllocError>
    ensures { IfOk result (IsAbout Level.Note None asking.entry.span) }
{
    let message = with_one(
        "`{}` holds, or some crate could make it hold",
        story.reference(0),
    );
    let path = open_path(alloc, story, 0)?;
    let mut telling = Telling::begin(alloc, Level::Note, None, message);
    telling.mark(asking.span, plain(""));
    tell_open(story, &path, asking, &mut telling);
    telling.finish()
}
