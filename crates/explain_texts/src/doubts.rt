//! The text for a goal that is ambiguous: several candidates, a variable, the depth limit, a cycle, or values without end.

ghost use Rattle.std.specs.Prelude.{◌≡◌, ◌<◌, ◌≤◌, ◌⊎◌, if◌then◌else◌, IfOk, IfSome};
ghost use Rattle.messages.specs.Told.{IsAbout, KeepsMessage};
ghost use Rattle.explain_texts.specs.Doubts.{is_overflow};

use crate::failures::{Asking, tell_implemented};
use crate::items::{Texts, impl_line, mark_parts};
use crate::links::{last_of, tell_links, tell_narrowed, tell_supertrait};
use crate::open_questions::chance;
use crate::sources::source_piece;
use crate::story::{Story, unsure_premise};
use explain_diagnostics::{Diagnostic, ErrCode, LIST_LIMIT, Level};
use explain_sessions::explain_traces::{Answer, CandidateNode};
use explain_sessions::goal_evaluator::{CandidateSource, MaybeCause};
use messages::{Piece, Sentence, Telling, plain, with_one, with_two};
use std::alloc::{AllocError, Global};

/// Why a goal is ambiguous.
#[derive(Clone, Copy)]
enum Doubt {
    /// The search reached its depth limit.
    Depth,
    /// The search reached a limit, which need not be that of the depth.
    Limits,
    /// The search met a limit, and it is not seen which.
    Either,
    /// A goal needs itself.
    Cycle,
    /// The answers to a bound of a query have values again and again.
    Growth,
    /// More than one candidate is left.
    Ways,
    /// An argument is a variable.
    Open,
    /// None of these is found.
    Other,
}

/// The first nested goal of a candidate with this answer.
fn premise_answered(story: &Story<'_>, candidate: &CandidateNode, answer: Answer) -> Option<usize> {
    for premise in &candidate.premises {
        if story.answer(*premise) == answer {
            return Some(*premise);
        }
    }
    None
}

/// Whether a goal that holds when it is evaluated alone may reach the limit as a nested goal: it has nested goals, or those are not
/// displayed.
fn may_go_deeper(story: &Story<'_>, place: usize) -> bool {
    match story.only_candidate(place) {
        Some(candidate) => !candidate.premises.is_empty(),
        None => true,
    }
}

/// The nested goal through which a goal reaches the depth limit, though each nested goal holds when it is evaluated alone. `None` if it is
/// not known which one it is.
fn deep_premise(story: &Story<'_>, place: usize) -> Option<usize> {
    let candidate = story.only_candidate(place)?;
    let mut found = None;
    let mut count = 0usize;
    for premise in &candidate.premises {
        if may_go_deeper(story, *premise) {
            found = Some(*premise);
            count = count.saturating_add(1);
        }
    }
    if count == 1 { found } else { None }
}

/// The nested goal that makes a goal ambiguous. One that is ambiguous for the same cause is preferred.
fn unsure_goal(story: &Story<'_>, place: usize) -> Option<usize> {
    let answer = story.answer(place);
    for candidate in story.candidates(place) {
        if let Some(premise) = premise_answered(story, candidate, answer) {
            return Some(premise);
        }
    }
    for candidate in story.candidates(place) {
        if let Some(premise) = unsure_premise(story, candidate) {
            return Some(premise);
        }
    }
    None
}

/// Whether the goal at index 0 is ambiguous because a limit was reached, or because a goal needs itself.
fn overflows(story: &Story<'_>) -> bool {
    story.answer(0) == Answer::Maybe(MaybeCause::Overflow)
}

/// The nested goal that makes a goal ambiguous.
fn doubtful_premise(story: &Story<'_>, place: usize) -> Option<usize> {
    let is_ambiguous = story.answer(place) == Answer::Maybe(MaybeCause::Ambiguity);
    if is_ambiguous && story.candidates(place).len() > 1 {
        return None;
    }
    if story.is_unsure(place) {
        if let Some(premise) = unsure_goal(story, place) {
            return Some(premise);
        }
    }
    if overflows(story) {
        deep_premise(story, place)
    } else {
        None
    }
}

/// The goals from index 0 down, each of which makes the one above ambiguous. The last one is ambiguous by itself: it has more than one
/// candidate, or a variable, or is as deep as goals are looked at. If the goal at index 0 is exhausted, that is the last one.
fn doubtful_path(
    alloc: Global,
    story: &Story<'_>,
    is_exhausted: bool,
) -> Result<Vec<usize>, AllocError> {
    let mut path = Vec::new(alloc);
    let mut at = 0usize;
    for _goal in 0..story.len() {
        path.push(at)?;
        if is_exhausted {
            return Ok(path);
        }
        match doubtful_premise(story, at) {
            Some(premise) => at = premise,
            None => return Ok(path),
        }
    }
    Ok(path)
}

/// Why the goal at index 0 is ambiguous, if its path of goals ends here.
fn doubt_of(story: &Story<'_>, leaf: usize, asking: Asking<'_>) -> Doubt {
    if asking.is_exhausted {
        Doubt::Growth
    } else if story.is_cycle(leaf) {
        Doubt::Cycle
    } else if overflows(story) && story.is_cut(leaf) && !asking.may_run_out {
        Doubt::Depth
    } else if overflows(story) && (story.is_cut(leaf) || story.is_left_out(leaf)) {
        Doubt::Either
    } else if overflows(story) {
        Doubt::Limits
    } else if story.candidates(leaf).len() > 1 {
        Doubt::Ways
    } else if !story.unknown(leaf).is_empty() {
        Doubt::Open
    } else {
        Doubt::Other
    }
}

/// The code.
fn code_of(doubt: Doubt) -> ErrCode
    ensures { result ≡ if is_overflow doubt then ErrCode.E0275 else ErrCode.E0283 }
{
    match doubt {
        Doubt::Depth | Doubt::Limits | Doubt::Either | Doubt::Cycle | Doubt::Growth => {
            ErrCode::E0275
        }
        Doubt::Ways | Doubt::Open | Doubt::Other => ErrCode::E0283,
    }
}

/// The message.
fn message_of<'s>(story: &'s Story<'_>, doubt: Doubt, leaf: usize) -> Sentence<'s> {
    let (template, place) = match doubt {
        Doubt::Depth | Doubt::Limits | Doubt::Either | Doubt::Growth => (
            "overflow evaluating the requirement `{}`",
            0,
        ),
        Doubt::Cycle => ("overflow evaluating the requirement `{}`", leaf),
        Doubt::Ways | Doubt::Open | Doubt::Other => (
            "type annotations needed: cannot satisfy `{}`",
            leaf,
        ),
    };
    with_one(template, story.reference(place))
}

/// The label at the bound that is queried.
fn said_at<'s>(story: &'s Story<'_>, doubt: Doubt, leaf: usize, depth: u32) -> Sentence<'s> {
    let reference = story.reference(leaf);
    match doubt {
        Doubt::Depth => with_one(
            "not settled within the depth limit {}",
            Piece::Number(depth as usize),
        ),
        Doubt::Limits => plain("not settled within the limits of the search"),
        Doubt::Either => with_one(
            "not settled within the depth limit {} and 65,536 nested goals",
            Piece::Number(depth as usize),
        ),
        Doubt::Cycle => with_one(
            "`{}` needs itself: such a cycle proves nothing and refuses nothing",
            reference,
        ),
        Doubt::Growth => with_one(
            "each answer fixes more, up to the depth limit {}",
            Piece::Number(depth as usize),
        ),
        Doubt::Ways => plain("more than one way is left"),
        Doubt::Open => with_one(
            "it is not known what `{}` is",
            Piece::Text(story.unknown(leaf)),
        ),
        Doubt::Other => with_one("whether `{}` holds is not settled", reference),
    }
}

/// Adds the note for a candidate that is left, and says so if it was not checked that it may apply.
fn tell_way(texts: Texts<'_>, source: CandidateSource, may_apply: bool, telling: &mut Telling)
    ensures { KeepsMessage telling.old telling.new }
{
    telling.note(with_one(chance(may_apply), source_piece(texts, source)));
    if let CandidateSource::Impl(id) = source {
        if let Some(found) = impl_line(texts, id) {
            mark_parts(found, telling);
        }
    }
}

/// Adds the notes for the candidates that are left of the goal at this index.
fn tell_ways(story: &Story<'_>, place: usize, telling: &mut Telling)
    ensures { KeepsMessage telling.old telling.new }
{
    for (index, candidate) in story.candidates(place).iter().enumerate() {
        if index == LIST_LIMIT {
            telling.note(plain("others may apply too"));
            return;
        }
        let may_apply = story.may_apply(place, index);
        tell_way(story.texts, candidate.source, may_apply, telling);
    }
}

/// The greatest depth limit that the program takes.
const GREATEST_DEPTH: u32 = 255;

/// A greater depth limit to try: twice as much, but at most `GREATEST_DEPTH`. `None` if the limit is that already.
fn deeper(depth: u32) -> Option<u32>
    ensures greater { IfSome result (λ other. depth < other) }
    ensures taken { IfSome result (λ other. other ≤ GREATEST_DEPTH) }
    ensures none { result ≡ None → depth < 1 ⊎ GREATEST_DEPTH ≤ depth }
{
    let twice = depth.saturating_mul(2).min(GREATEST_DEPTH);
    if twice > depth { Some(twice) } else { None }
}

/// Adds the advice to try a greater depth limit, if there is one.
pub(crate) fn tell_deeper(depth: u32, telling: &mut Telling)
    ensures { KeepsMessage telling.old telling.new }
{
    if let Some(other) = deeper(depth) {
        telling.help(with_two(
            "ask with a greater depth limit: `{}` in place of `{}`",
            Piece::Number(other as usize),
            Piece::Number(depth as usize),
        ));
    }
}

/// The advice if the search may have been given up. It may have evaluated too many goals, so a smaller depth may help.
const GIVEN_UP: &str =
    "a search is given up after 65,536 nested goals: a smaller depth limit may settle it";

/// Tells what may help where the search may have been given up.
pub(crate) fn tell_given_up(telling: &mut Telling)
    ensures { KeepsMessage telling.old telling.new }
{
    telling.help(plain(GIVEN_UP));
}

/// Adds what follows from why the goal is ambiguous.
fn tell_doubt(
    story: &Story<'_>,
    doubt: Doubt,
    leaf: usize,
    asking: Asking<'_>,
    telling: &mut Telling,
)
    ensures { KeepsMessage telling.old telling.new }
{
    match doubt {
        Doubt::Ways => tell_ways(story, leaf, telling),
        Doubt::Depth | Doubt::Growth => tell_deeper(asking.depth, telling),
        Doubt::Limits => tell_given_up(telling),
        Doubt::Open => tell_implemented(story, leaf, asking.seen, None, telling),
        Doubt::Either | Doubt::Cycle | Doubt::Other => {}
    }
}

/// The diagnostic for a goal that is ambiguous.
pub fn unsettled(
    alloc: Global,
    story: &Story<'_>,
    asking: Asking<'_>,
) -> Result<Diagnostic, AllocError>
    ensures { IfOk result (λ d. IsAbout Level.Error d.code asking.entry.span d) }
{
    let path = doubtful_path(alloc, story, asking.is_exhausted)?;
    let leaf = last_of(&path);
    let doubt = doubt_of(story, leaf, asking);
    let message = message_of(story, doubt, leaf);
    let mut telling = Telling::begin(alloc, Level::Error, Some(code_of(doubt)), message);
    telling.mark(asking.span, said_at(story, doubt, leaf, asking.depth));
    tell_links(story, &path, &mut telling);
    tell_supertrait(story, asking.supertrait, &mut telling);
    tell_narrowed(story, asking.is_narrowed, &mut telling);
    tell_doubt(story, doubt, leaf, asking, &mut telling);
    telling.finish()
}
