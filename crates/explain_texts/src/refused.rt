//! Why the candidates of a goal are refused.

ghost use Rattle.std.specs.Prelude.{◌≡◌, ◌≢◌, not};
ghost use Rattle.messages.specs.Marked.{is_marked, says_unchecked};
ghost use Rattle.messages.specs.Told.{KeepsMessage};
ghost use Rattle.explain_texts.specs.Claimed.{claims_refused};

use crate::sources::source_piece;
use crate::story::{Story, refused_premise};
use explain_diagnostics::LIST_LIMIT;
use explain_sessions::explain_traces::CandidateNode;
use explain_sessions::goal_evaluator::CandidateSource;
use messages::{Piece, Sentence, Telling, plain, with_one, with_three, with_two};

/// In which sense goals are refused.
#[derive(Clone, Copy)]
pub(crate) enum Refusal {
    /// The search found no proof of them.
    NotProved,
    /// They have no proof in any linked set with the crate.
    NoCrate,
}

/// The words for a goal that is refused in this sense. They say so if it was not checked.
fn why_said(story: &Story<'_>, place: usize, refusal: Refusal) -> &'static str
    ensures { refusal ≡ Refusal.NoCrate → says_unchecked result.now ≡ not (claims_refused story.now place) }
{
    match refusal {
        Refusal::NotProved => "which was not proved",
        Refusal::NoCrate => {
            if story.is_refused_everywhere(place) {
                "which no such crate can give"
            } else {
                "which no such crate can give, not checked"
            }
        }
    }
}

/// The sentence for a refused candidate: what it needs, and what is known of that. It says so if it was not checked that the candidate
/// fits.
fn candidate_said<'s>(
    story: &'s Story<'_>,
    candidate: &CandidateNode,
    is_rule: bool,
    refusal: Refusal,
) -> Sentence<'s>
    ensures { candidate.now.source ≢ CandidateSource.CoherenceUnknowable → is_marked result ≡ not is_rule }
{
    let name = source_piece(story.texts, candidate.source);
    let Some(premise) = refused_premise(story, candidate) else {
        let template = match (candidate.certainty.is_some(), is_rule) {
            (true, true) => "the {} fits, and is not settled",
            (true, false) => "the {} fits, not checked, and is not settled",
            (false, true) => "the {} fits, and is refused",
            (false, false) => "the {} fits, not checked, and is refused",
        };
        return with_one(template, name);
    };
    let needs = story.reference(premise);
    let why = Piece::Text(why_said(story, premise, refusal));
    if let CandidateSource::CoherenceUnknowable = candidate.source {
        let template = "an impl of a crate that is not seen would need `{}`, {}";
        with_two(template, needs, why)
    } else {
        let template = if is_rule {
            "the {} fits, but needs `{}`, {}"
        } else {
            "the {} fits, not checked, but needs `{}`, {}"
        };
        with_three(template, name, needs, why)
    }
}

/// Adds why each candidate of a goal is refused.
pub(crate) fn tell_refused(story: &Story<'_>, place: usize, refusal: Refusal, telling: &mut Telling)
    ensures { KeepsMessage telling.old telling.new }
{
    for (index, candidate) in story.candidates(place).iter().enumerate() {
        if index == LIST_LIMIT {
            telling.note(plain("others fit too"));
            return;
        }
        let is_rule = story.is_rule(place, index);
        telling.note(candidate_said(story, candidate, is_rule, refusal));
    }
}
