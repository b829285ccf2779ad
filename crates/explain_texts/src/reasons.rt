//! Why a goal is not refused: from it down to the first goal that holds, that some crate may give an impl, or that is not settled.

ghost use Rattle.std.specs.Prelude.{◌≡◌, true, IfSome};
ghost use Rattle.messages.specs.Marked.{is_marked};
ghost use Rattle.messages.specs.Told.{KeepsMessage};
ghost use Rattle.explain_texts.specs.Reasons.{IsClaimed};

use crate::doubts::{tell_deeper, tell_given_up};
use crate::failures::{Asking, is_of_trait};
use crate::items::{
    Texts, crate_name, has_rules, impl_line, impl_piece, is_auto, trait_home, trait_name, written,
};
use crate::links::{last_of, tell_links};
use crate::sources::source_piece;
use crate::spoken::{Spoken, SubjectKind};
use crate::story::Story;
use explain_sessions::Adder;
use explain_sessions::explain_traces::{Answer, CandidateNode};
use explain_sessions::goal_evaluator::{CandidateSource, MaybeCause};
use explain_sessions::orphan_check::errors::Conflict;
use explain_sessions::type_terms::ImplId;
use messages::{Piece, Sentence, Telling, with_four, with_one, with_three, with_two};
use std::alloc::{AllocError, Global};

/// Why a goal is not refused, where no goal below it tells.
#[derive(Clone, Copy)]
pub(crate) enum Reason {
    /// It has a proof by what is seen.
    Holds,
    /// The search answers that it holds, and no proof of it was checked.
    Answered,
    /// Someone may write an impl for it.
    Added(Adder),
    /// It needs itself.
    Cycle,
    /// The search reached its depth limit.
    Depth,
    /// The search reached a limit, which need not be that of the depth.
    Limits,
    /// The search met a limit, and it is not seen which.
    Either,
    /// Its self type is a variable, and an impl is for all types.
    Variable,
    /// The goal is not known to the crate that asks.
    Unknown(Conflict),
    /// None of these is seen.
    Open,
}

/// Whether a candidate is seen, and applies, or may.
pub(crate) fn is_left(candidate: &CandidateNode) -> bool {
    candidate.certainty.is_some() && candidate.source != CandidateSource::CoherenceUnknowable
}

/// Whether a goal by itself tells why it is not refused.
fn tells(story: &Story<'_>, place: usize) -> bool {
    story.answer(place) == Answer::Yes || story.is_held(place) || story.adder(place).is_some()
}

/// The first goal that a candidate asks which is not known to hold.
fn open_premise(story: &Story<'_>, candidate: &CandidateNode) -> Option<usize> {
    for premise in &candidate.premises {
        if story.answer(*premise) != Answer::Yes {
            return Some(*premise);
        }
    }
    None
}

/// The goal for which a goal is not refused: one that its first candidate which is left asks.
fn next_goal(story: &Story<'_>, place: usize) -> Option<usize> {
    if tells(story, place) {
        return None;
    }
    for candidate in story.candidates(place) {
        if is_left(candidate) {
            return open_premise(story, candidate);
        }
    }
    None
}

/// The goals from a place down, each one for which the one above is not refused.
pub(crate) fn open_path(
    alloc: Global,
    story: &Story<'_>,
    place: usize,
) -> Result<Vec<usize>, AllocError> {
    let mut path = Vec::new(alloc);
    let mut at = place;
    for _goal in 0..story.len() {
        path.push(at)?;
        match next_goal(story, at) {
            Some(next) => at = next,
            None => return Ok(path),
        }
    }
    Ok(path)
}

/// The limit that a goal met, if it did.
fn limit_of(story: &Story<'_>, leaf: usize, may_run_out: bool) -> Option<Reason>
    ensures { IfSome result (IsClaimed story.now leaf) }
{
    if story.answer(leaf) != Answer::Maybe(MaybeCause::Overflow) {
        None
    } else if story.is_cut(leaf) && !may_run_out {
        Some(Reason::Depth)
    } else if story.is_cut(leaf) || story.is_left_out(leaf) {
        Some(Reason::Either)
    } else {
        Some(Reason::Limits)
    }
}

/// Whether the self type of a goal is a variable, and no impl may be added for it though its trait may have impls: an impl is for all types.
fn is_overlapped(story: &Story<'_>, leaf: usize) -> bool {
    match story.spoken(leaf) {
        Some(spoken) => {
            matches!(spoken.kind, SubjectKind::Unknown) && !has_rules(story.texts, spoken.trait_id)
        }
        None => false,
    }
}

/// Why a goal is not refused, where the path of goals ends there.
pub(crate) fn reason_of(story: &Story<'_>, leaf: usize, asking: Asking<'_>) -> Reason
    ensures { IsClaimed story.now leaf result }
{
    if story.is_held(leaf) {
        return Reason::Holds;
    }
    if story.answer(leaf) == Answer::Yes {
        return Reason::Answered;
    }
    if let Some(adder) = story.adder(leaf) {
        return Reason::Added(adder);
    }
    if story.is_cycle(leaf) {
        return Reason::Cycle;
    }
    if let Some(limit) = limit_of(story, leaf, asking.may_run_out) {
        return limit;
    }
    if is_overlapped(story, leaf) {
        return Reason::Variable;
    }
    match story.unseen(leaf) {
        Some(Some(conflict)) => Reason::Unknown(conflict),
        _ => Reason::Open,
    }
}

/// Who may write which impl.
fn adder_said<'s>(texts: Texts<'s>, spoken: &'s Spoken, adder: Adder) -> Sentence<'s> {
    let bound = spoken.bound_piece();
    let subject = spoken.subject_piece();
    match adder {
        Adder::Owner(home) => {
            let name = Piece::Name(trait_name(texts, spoken.trait_id));
            let home = Piece::Name(crate_name(texts, home));
            with_four(
                "upstream crates may add a new impl of trait `{}` for type `{}` in future versions (`{}` is of crate `{}`)",
                [bound, subject, name, home],
            )
        }
        Adder::User => with_two(
            "downstream crates may implement trait `{}` for type `{}` (any crate that uses this one)",
            bound,
            subject,
        ),
    }
}

/// That a goal is not known to the crate that asks.
fn unknown_said<'s>(texts: Texts<'s>, spoken: &'s Spoken, conflict: Conflict) -> Sentence<'s> {
    let reference = spoken.reference_piece();
    match conflict {
        Conflict::Upstream => {
            let name = Piece::Name(trait_name(texts, spoken.trait_id));
            let home = Piece::Name(trait_home(texts, spoken.trait_id));
            with_three(
                "`{}` is not refused: trait `{}` is of crate `{}`, and no type of this crate comes first",
                reference,
                name,
                home,
            )
        }
        Conflict::Downstream => with_one(
            "`{}` is not refused: a type of a crate that uses this one may stand in it",
            reference,
        ),
    }
}

/// Whether an impl is for a reference as it is written.
fn is_written_for(texts: Texts<'_>, id: ImplId, spoken: &Spoken) -> bool {
    if !is_of_trait(texts, id, spoken.trait_id) {
        return false;
    }
    match impl_line(texts, id) {
        Some(found) => {
            let subject = written(texts, found.line, found.parts.subject);
            let bound = written(texts, found.line, found.parts.bound);
            match found.given {
                Some(given) => {
                    let given = written(texts, found.line, given);
                    spoken.is_given(subject, bound, given)
                }
                None => spoken.is_written(subject, bound),
            }
        }
        None => false,
    }
}

/// The impl of those that are seen that is for a reference as it is written, if there is one.
fn written_impl(texts: Texts<'_>, seen: &[ImplId], spoken: &Spoken) -> Option<ImplId> {
    for id in seen {
        if is_written_for(texts, *id, spoken) {
            return Some(*id);
        }
    }
    None
}

/// By what a goal holds, where that is known: the first candidate that is left, or an impl that is written for it. What is no struct has no
/// impl of an auto trait.
fn source_of<'s>(story: &'s Story<'_>, place: usize, seen: &[ImplId]) -> Option<Piece<'s>> {
    for candidate in story.candidates(place) {
        if is_left(candidate) {
            return Some(source_piece(story.texts, candidate.source));
        }
    }
    let spoken = story.spoken(place)?;
    match spoken.kind {
        SubjectKind::Other if is_auto(story.texts, spoken.trait_id) => {
            Some(Piece::Text("built-in rule"))
        }
        _ => Some(impl_piece(story.texts, written_impl(story.texts, seen, spoken)?)),
    }
}

/// That a goal holds, and by what.
fn holds_said<'s>(story: &'s Story<'_>, place: usize, seen: &[ImplId]) -> Sentence<'s> {
    let reference = story.reference(place);
    match source_of(story, place, seen) {
        Some(source) => with_two("`{}` holds, by the {}", reference, source),
        None => with_one("`{}` holds", reference),
    }
}

/// What is said of a goal that is not refused for a reason.
pub(crate) fn reason_said<'s>(
    story: &'s Story<'_>,
    place: usize,
    reason: Reason,
    asking: Asking<'_>,
) -> Sentence<'s>
    requires { IsClaimed story.now place reason }
    ensures { reason ≡ Reason.Answered → is_marked result ≡ true }
{
    let depth = Piece::Number(asking.depth as usize);
    let reference = story.reference(place);
    match (reason, story.spoken(place)) {
        (Reason::Holds, _) => holds_said(story, place, asking.seen),
        (Reason::Answered, _) => with_one("`{}` holds, not checked", reference),
        (Reason::Added(adder), Some(spoken)) => adder_said(story.texts, spoken, adder),
        (Reason::Unknown(conflict), Some(spoken)) => unknown_said(story.texts, spoken, conflict),
        (Reason::Variable, _) => with_two(
            "`{}` is not refused: `{}` is not known yet",
            reference,
            story.subject(place),
        ),
        (Reason::Cycle, _) => with_one(
            "`{}` needs itself: such a cycle refuses nothing",
            reference,
        ),
        (Reason::Depth, _) => with_two(
            "`{}` is not refused within the depth limit {}",
            reference,
            depth,
        ),
        (Reason::Either, _) => with_two(
            "`{}` is not refused within the depth limit {} and 65,536 nested goals",
            reference,
            depth,
        ),
        (Reason::Limits, _) => with_one(
            "`{}` is not refused within the limits of the search",
            reference,
        ),
        (Reason::Open | Reason::Added(_) | Reason::Unknown(_), _) => {
            with_one("`{}` is not refused", reference)
        }
    }
}

/// Tells what may help where a limit was met.
pub(crate) fn tell_limit(reason: Reason, depth: u32, telling: &mut Telling)
    ensures { KeepsMessage telling.old telling.new }
{
    match reason {
        Reason::Depth => tell_deeper(depth, telling),
        Reason::Limits => tell_given_up(telling),
        Reason::Holds
        | Reason::Answered
        | Reason::Added(_)
        | Reason::Either
        | Reason::Cycle
        | Reason::Variable
        | Reason::Unknown(_)
        | Reason::Open => {}
    }
}

/// Tells why the goal at the start of a path is not refused: the reason of the last one, which it answers, and for what that is required.
pub(crate) fn tell_path(
    story: &Story<'_>,
    path: &[usize],
    asking: Asking<'_>,
    telling: &mut Telling,
) -> Reason
    ensures { KeepsMessage telling.old telling.new }
{
    let leaf = last_of(path);
    let reason = reason_of(story, leaf, asking);
    telling.note(reason_said(story, leaf, reason, asking));
    tell_links(story, path, telling);
    reason
}

/// Marks who asks in the last child, if that stands in a line.
fn mark_asking(asking: Asking<'_>, telling: &mut Telling)
    ensures { KeepsMessage telling.old telling.new }
{
    if asking.span.line > 0 {
        telling.mark_child(asking.span);
    }
}

/// Tells why a where-clause does not keep two impls apart: its goal is not refused. It is marked
/// where it stands.
pub fn tell_clause(
    story: &Story<'_>,
    place: usize,
    asking: Asking<'_>,
    telling: &mut Telling,
) -> Result<(), AllocError> {
    let path = open_path(telling.alloc(), story, place)?;
    if path.len() > 1 {
        telling.note(with_one("`{}` is not refused", story.reference(place)));
        mark_asking(asking, telling);
        let reason = tell_path(story, &path, asking, telling);
        tell_limit(reason, asking.depth, telling);
        return Ok(());
    }
    let reason = reason_of(story, place, asking);
    telling.note(reason_said(story, place, reason, asking));
    mark_asking(asking, telling);
    tell_limit(reason, asking.depth, telling);
    Ok(())
}
