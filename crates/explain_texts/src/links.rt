//! What requires the goals of a path.

ghost use Rattle.std.specs.Prelude.{◌≡◌, IfSome, not};
ghost use Rattle.messages.specs.Marked.{is_marked};
ghost use Rattle.messages.specs.Told.{KeepsMessage};
ghost use Rattle.explain_texts.specs.Claimed.{IsClaimedLink};
ghost use Rattle.explain_texts.specs.Marks.{is_rule_of};

use crate::items::{impl_line, mark_parts, struct_line};
use crate::sources::source_piece;
use crate::spoken::SubjectKind;
use crate::story::Story;
use explain_sessions::explain_traces::CandidateNode;
use explain_sessions::goal_evaluator::CandidateSource;
use explain_sessions::type_terms::ImplId;
use messages::{Piece, Sentence, Telling, plain, with_one, with_three, with_two};

/// The last goal of a path.
pub(crate) fn last_of(path: &[usize]) -> usize {
    path.last().copied().unwrap_or(0)
}

/// A step of a path, from a goal to one of its nested goals.
#[derive(Clone, Copy)]
struct Link {
    /// The parent goal.
    asker: usize,
    /// The nested goal.
    asked: usize,
}

/// The link of a path with this number. They count from the inside: the link to the last goal has number 0.
fn link_at(path: &[usize], number: usize) -> Option<Link> {
    match path.get(..path.len().saturating_sub(number)) {
        Some([.., asker, asked]) => Some(Link {
            asker: *asker,
            asked: *asked,
        }),
        _ => None,
    }
}

/// A candidate with one of its nested goals.
#[derive(Clone, Copy)]
struct CandidateLink<'s> {
    candidate: &'s CandidateNode,
    /// The index of the nested goal among those of the candidate, from 0.
    clause: usize,
    /// Whether it was checked that its impl, or the built-in rule, needs this goal.
    is_rule: bool,
}

/// The candidate of the parent goal that needs the nested goal.
fn asking<'s>(story: &'s Story<'_>, link: Link) -> Option<CandidateLink<'s>>
    ensures { IfSome result (IsClaimedLink story.now link.asker) }
{
    for (number, candidate) in story.candidates(link.asker).iter().enumerate() {
        for (clause, premise) in candidate.premises.iter().enumerate() {
            if *premise == link.asked {
                return Some(CandidateLink {
                    candidate,
                    clause,
                    is_rule: story.is_rule(link.asker, number),
                });
            }
        }
    }
    None
}

/// The label at the bound that needs the goal.
fn bound_label(story: &Story<'_>, link: Link) -> &'static str {
    if story.is_refused(link.asker) {
        "unproved trait bound introduced here"
    } else {
        "required by this bound"
    }
}

/// The sentence for what requires the nested goal of a link. It names the candidate if that is no impl, and says so if it was not checked.
fn required_for<'s>(
    story: &'s Story<'_>,
    link: Link,
    asks: Option<CandidateLink<'_>>,
) -> Sentence<'s>
    ensures { is_marked result ≡ not (is_rule_of asks.entry) }
{
    let subject = story.subject(link.asker);
    let bound = story.bound(link.asker);
    match asks {
        Some(asks) if !matches!(asks.candidate.source, CandidateSource::Impl(_)) => {
            let template = if asks.is_rule {
                "required for `{}` to implement `{}`, by a {}"
            } else {
                "required for `{}` to implement `{}`, by a {}, not checked"
            };
            with_three(
                template,
                subject,
                bound,
                source_piece(story.texts, asks.candidate.source),
            )
        }
        Some(asks) if asks.is_rule => {
            with_two("required for `{}` to implement `{}`", subject, bound)
        }
        _ => with_two(
            "required for `{}` to implement `{}`, not checked",
            subject,
            bound,
        ),
    }
}

/// Marks the struct that the parent goal is about in the last child.
fn mark_struct(story: &Story<'_>, link: Link, telling: &mut Telling)
    ensures { KeepsMessage telling.old telling.new }
{
    if let SubjectKind::Struct(id) = story.kind(link.asker)
        && let Some(span) = struct_line(story.texts, id)
    {
        telling.mark_child(span);
    }
}

/// Marks the header of the impl that needs the goal, and its bound, in the last child. Where a built-in rule does, it marks the struct.
fn mark_asking(story: &Story<'_>, link: Link, asks: CandidateLink<'_>, telling: &mut Telling)
    ensures { KeepsMessage telling.old telling.new }
{
    let CandidateSource::Impl(id) = asks.candidate.source else {
        mark_struct(story, link, telling);
        return;
    };
    let Some(found) = impl_line(story.texts, id) else {
        return;
    };
    mark_parts(found, telling);
    if let Some(span) = found.clause(asks.clause) {
        telling.mark_child_beside(span, plain(bound_label(story, link)));
    }
}

/// Adds the note for one link: what requires the nested goal, with its bound marked.
fn tell_link(story: &Story<'_>, link: Link, is_marked: bool, telling: &mut Telling)
    ensures { KeepsMessage telling.old telling.new }
{
    let asks = asking(story, link);
    telling.note(required_for(story, link, asks));
    if let (true, Some(asks)) = (is_marked, asks) {
        mark_asking(story, link, asks, telling);
    }
}

/// Adds the note for how many links in a row are left out.
fn tell_hidden(hidden: usize, telling: &mut Telling)
    ensures { KeepsMessage telling.old telling.new }
{
    let template = match hidden {
        0 => return,
        1 => "{} redundant requirement hidden",
        _ => "{} redundant requirements hidden",
    };
    telling.note(with_one(template, Piece::Number(hidden)));
}

/// The impl that needs the goal.
fn asking_impl(story: &Story<'_>, link: Link) -> Option<ImplId> {
    match asking(story, link)?.candidate.source {
        CandidateSource::Impl(id) => Some(id),
        _ => None,
    }
}

/// The impl that needs the last goal of a path.
pub(crate) fn impl_above(story: &Story<'_>, path: &[usize]) -> Option<ImplId> {
    asking_impl(story, link_at(path, 0)?)
}

/// Whether the same impl is that of another link.
fn is_asked_by(story: &Story<'_>, link: Option<Link>, id: Option<ImplId>) -> bool {
    match link {
        Some(link) => id.is_some() && asking_impl(story, link) == id,
        None => false,
    }
}

/// Adds the note that the goal at index 0 is a supertrait of a header, by its number from 1. For a query it adds nothing.
pub(crate) fn tell_supertrait(story: &Story<'_>, supertrait: Option<u32>, telling: &mut Telling)
    ensures { KeepsMessage telling.old telling.new }
{
    let Some(number) = supertrait else {
        return;
    };
    telling.note(with_two(
        "`{}` is supertrait {} of the header: an impl of a trait needs its supertraits to hold",
        story.reference(0),
        Piece::Number(number as usize),
    ));
}

/// Adds the note what the bounds of a query make of the one that is the goal at index 0, if they fix variables of it.
pub(crate) fn tell_narrowed(story: &Story<'_>, is_narrowed: bool, telling: &mut Telling)
    ensures { KeepsMessage telling.old telling.new }
{
    if is_narrowed {
        telling.note(with_one(
            "with what the bounds of the query fix, this one is `{}`",
            story.reference(0),
        ));
    }
}

/// Adds the notes for what requires the goals of a path, from the inside out. For goals in a row by one impl, only the first and the last
/// are added.
pub(crate) fn tell_links(story: &Story<'_>, path: &[usize], telling: &mut Telling)
    ensures { KeepsMessage telling.old telling.new }
{
    let mut hidden = 0usize;
    let mut last: Option<ImplId> = None;
    for number in 0..path.len() {
        let Some(link) = link_at(path, number) else {
            return;
        };
        let used = asking_impl(story, link);
        let is_same = used.is_some() && used == last;
        if is_same && is_asked_by(story, link_at(path, number.saturating_add(1)), used) {
            hidden = hidden.saturating_add(1);
        } else {
            tell_hidden(hidden, telling);
            tell_link(story, link, !is_same, telling);
            hidden = 0;
        }
        last = used;
    }
}
