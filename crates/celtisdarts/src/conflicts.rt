//! The text for the other pairs of a crate that overlap, after the pair that its verdict names.

ghost use Rattle.std.specs.Prelude.{◌≡◌, true, IfOk};
ghost use Rattle.celtisdarts.specs.Told.{ShowsCommonOf, ShowsOverlap};
ghost use Rattle.explain_texts.specs.ExplainSessions.Walked.{PairWalkHeld};
ghost use Rattle.explain_texts.specs.Sessions.Promised.Subjects.{StaysOn};

use crate::spending::Spending;
use explain_texts::explain_diagnostics::LIST_LIMIT;
use explain_texts::explain_sessions::{PairWalk, explain_overlap, impls_overlap};
use explain_texts::messages::{Piece, Sentence, Telling, plain, with_four, with_three, with_two};
use explain_texts::sessions::Session;
use explain_texts::text_printer::ShownNames;
use explain_texts::text_tables::ImplEntry;
use explain_texts::type_terms::{Fault, ImplId};
use explain_texts::{Spoken, Texts, impl_line, is_companion, speak};
use std::alloc::{AllocError, Global};

/// How many pairs of a crate are compared at most after the first that overlaps.
const PAIR_LIMIT: usize = 4096;

/// How many impls are looked at in search of these pairs, before the last own impl.
const LOOK_LIMIT: usize = 4_194_304;

/// Two impls of one trait. The later one is of the session's crate.
#[derive(Clone, Copy)]
pub(crate) struct Pair {
    pub later: ImplId,
    pub earlier: ImplId,
}

impl Pair {
    /// Whether the crate compares this pair after another one.
    fn comes_after(self, other: Pair) -> bool {
        if self.later.index == other.later.index {
            return self.earlier.index > other.earlier.index;
        }
        self.later.index > other.later.index
    }
}

/// The pairs that a crate may have to compare after the first that overlaps, in the order in which it compares them.
#[derive(Drop)]
struct LaterPairs {
    pairs: Vec<Pair>,
    /// Whether there may be more.
    is_cut: bool,
}

/// The message for a pair that overlaps, with the lines of the impls: an impl of `core` has none.
pub(crate) fn pair_said<'s>(
    texts: Texts<'s>,
    pair: Pair,
    common: &'s Spoken,
    is_first: bool,
) -> Sentence<'s> {
    let bound = common.bound_piece();
    let subject = common.subject_piece();
    let later = impl_line(texts, pair.later);
    let earlier = impl_line(texts, pair.earlier);
    match (later, earlier) {
        (Some(later), Some(earlier)) => with_four(
            if is_first {
                "conflicting implementations of trait `{}` for type `{}`: lines {} and {}"
            } else {
                "conflicting implementations of trait `{}` for type `{}` too: lines {} and {}"
            },
            [
                bound,
                subject,
                Piece::Line(texts.file.own_line(earlier.line)),
                Piece::Line(texts.file.own_line(later.line)),
            ],
        ),
        (Some(later), None) => with_three(
            if is_first {
                "conflicting implementations of trait `{}` for type `{}`: line {}"
            } else {
                "conflicting implementations of trait `{}` for type `{}` too: line {}"
            },
            bound,
            subject,
            Piece::Line(texts.file.own_line(later.line)),
        ),
        _ => with_two(
            "conflicting implementations of trait `{}` for type `{}`",
            bound,
            subject,
        ),
    }
}

/// Adds the pairs of an impl with those of its trait among the impls with smaller numbers, if they come after the first pair.
fn push_pairs(
    impls: &[ImplEntry],
    later: &ImplEntry,
    first: Pair,
    pairs: &mut Vec<Pair>,
) -> Result<(), AllocError> {
    for earlier in impls.iter().take(later.id.index as usize) {
        let pair = Pair {
            later: later.id,
            earlier: earlier.id,
        };
        if earlier.header.trait_id == later.header.trait_id && pair.comes_after(first) {
            if pairs.len() == PAIR_LIMIT {
                return Ok(());
            }
            pairs.push(pair)?;
        }
    }
    Ok(())
}

/// The pairs that a crate may have to compare after the first that overlaps.
fn later_pairs(alloc: Global, texts: Texts<'_>, first: Pair) -> Result<LaterPairs, AllocError> {
    let mut pairs = Vec::new(alloc);
    let impls = texts.workspace.impls();
    let Some(own) = impls.get(first.later.index as usize) else {
        return Ok(LaterPairs {
            pairs,
            is_cut: false,
        });
    };
    let mut looked = 0usize;
    for later in impls {
        // Impls of companions overlap only where those of their traits do.
        let is_own = later.owner.index == own.owner.index
            && !is_companion(texts, later.header.trait_id);
        if is_own && later.id.index >= first.later.index && looked < LOOK_LIMIT {
            looked = looked.saturating_add(later.id.index as usize);
            push_pairs(impls, later, first, &mut pairs)?;
        }
    }
    let is_cut = looked >= LOOK_LIMIT || pairs.len() == PAIR_LIMIT;
    Ok(LaterPairs { pairs, is_cut })
}

/// Whether a pair of the session's crate overlaps.
fn judge(session: &mut Session<'_>, pair: Pair, spending: &mut Spending) -> Result<bool, Fault>
    ensures overlap { IfOk result (λ b. b ≡ true → ShowsOverlap session.new pair.later pair.earlier) }
    ensures stays { StaysOn session.old session.new }
{
    let before = session.frames();
    let overlaps = impls_overlap(session, pair.later, pair.earlier)?;
    spending.add_explanation(before, session.frames(), 0);
    Ok(overlaps)
}

/// Adds the note for a pair that was traced. The caller must prove that it overlaps, and that both impls conclude the common instance, if it
/// is displayed as checked.
fn note_pair(
    texts: Texts<'_>,
    session: &Session<'_>,
    pair: Pair,
    walk: &PairWalk,
    telling: &mut Telling,
) -> Result<(), AllocError>
    requires walked { PairWalkHeld session.now.terms walk.now }
    requires overlap { ShowsOverlap session.now pair.later pair.earlier }
    requires common { ShowsCommonOf session.now pair.later pair.earlier walk.now }
{
    let names = ShownNames {
        workspace: texts.workspace,
        params: &[],
        variables: &[],
    };
    let common = speak(
        session.search.cx.alloc,
        session.interner(),
        &names,
        walk.common,
    )?;
    telling.note(pair_said(texts, pair, &common, false));
    if let Some(line) = impl_line(texts, pair.later) {
        telling.mark_child(line.header());
    }
    if !walk.is_checked {
        telling.note(plain(NOT_CHECKED));
    }
    Ok(())
}

/// What is said of a common instance that was not checked.
pub(crate) const NOT_CHECKED: &str = "that both headers have this instance is not checked";

/// Adds the note for a pair of the session's crate. The caller must prove that it overlaps.
fn tell_later_pair(
    texts: Texts<'_>,
    session: &mut Session<'_>,
    pair: Pair,
    spending: &mut Spending,
    telling: &mut Telling,
) -> Result<(), Fault>
    requires { ShowsOverlap session.old pair.later pair.earlier }
    ensures { StaysOn session.old session.new }
{
    let before = session.frames();
    let Some(walk) = explain_overlap(session, pair.later, pair.earlier)? else {
        return Ok(());
    };
    spending.add_explanation(before, session.frames(), walk.walk.nodes.len());
    note_pair(texts, session, pair, &walk, telling)?;
    Ok(())
}

/// What is said if not all pairs of a crate were compared.
const MORE_MAY: &str = "other implementations may conflict too";

/// Adds the notes for these pairs of the session's crate, if they overlap.
fn tell_pairs(
    texts: Texts<'_>,
    session: &mut Session<'_>,
    found: &LaterPairs,
    spending: &mut Spending,
    telling: &mut Telling,
) -> Result<(), Fault>
    ensures { StaysOn session.old session.new }
{
    let mut count = 0usize;
    for pair in &found.pairs {
        if spending.is_over() {
            telling.note(plain(MORE_MAY));
            return Ok(());
        }
        if judge(session, *pair, spending)? {
            if count == LIST_LIMIT {
                telling.note(plain("other implementations conflict too"));
                return Ok(());
            }
            count = count.saturating_add(1);
            tell_later_pair(texts, session, *pair, spending, telling)?;
        }
    }
    if found.is_cut {
        telling.note(plain(MORE_MAY));
    }
    Ok(())
}

/// Adds the notes for the pairs of the session's crate that overlap, after the first one. Sixteen that are compared count as a frame.
pub(crate) fn tell_later_pairs(
    texts: Texts<'_>,
    session: &mut Session<'_>,
    first: Pair,
    spending: &mut Spending,
    telling: &mut Telling,
) -> Result<(), Fault>
    ensures { StaysOn session.old session.new }
{
    let found = later_pairs(session.search.cx.alloc, texts, first)?;
    spending.add_explanation(0, found.pairs.len() as u64 / 16, 0);
    tell_pairs(texts, session, &found, spending, telling)
}
