//! The text for two impls that overlap: a common instance of both headers, and why no where-clause rules the overlap out.

ghost use Rattle.std.specs.Prelude.{◌≡◌, IfOk};
ghost use Rattle.celtisdarts.specs.Told.{ShowsCommonOf};
ghost use Rattle.explain_texts.specs.Sessions.Promised.Subjects.{StaysOn};
ghost use Rattle.explain_texts.specs.ExplainSessions.Claims.{ClaimsHold};
ghost use Rattle.explain_texts.specs.ExplainSessions.Walked.{PairWalkHeld};

use crate::conflicts::{NOT_CHECKED, Pair, pair_said, tell_later_pairs};
use crate::explaining::seen_impls;
use crate::spending::Spending;
use explain_texts::explain_diagnostics::{Diagnostic, ErrCode, Level, Span};
use explain_texts::explain_sessions::{
    Claims, PairWalk, explain_overlap, impl_header, pair_claims,
};
use explain_texts::messages::{Sentence, Telling, plain, with_one};
use explain_texts::sessions::Session;
use explain_texts::text_printer::ShownNames;
use explain_texts::type_terms::{Fault, ImplId};
use explain_texts::{Asking, Spoken, Story, Texts, impl_line, speak, tell, tell_clause};
use std::alloc::{AllocError, Global};

/// A where-clause of one of the impls.
#[derive(Clone, Copy)]
struct Clause {
    id: ImplId,
    /// Its index among those of its impl, from 0.
    number: usize,
    /// The index of its goal.
    place: usize,
}

/// Two impls that overlap, rendered.
struct Conflicting<'w> {
    impls: Pair,
    common: Spoken,
    /// Whether it was checked that both impls conclude the common instance.
    is_checked: bool,
    story: Story<'w>,
    clauses: Vec<Clause>,
    /// The header of the earlier impl, if the crate sees it.
    header: Option<Spoken>,
    /// The depth limit with which the where-clauses were asked.
    depth: u32,
    /// Whether the search for the verdict may have evaluated as many nested goals as it may.
    may_run_out: bool,
    /// The impls that the crate sees.
    seen: Vec<ImplId>,
}

// Hand-written so that the prover sees one drop call: docs/PROVING.md#drop.
impl Drop for Conflicting<'_> {
    fn drop(self) {
        let Conflicting {
            impls: _,
            common: _,
            is_checked: _,
            story: _,
            clauses: _,
            header: _,
            depth: _,
            may_run_out: _,
            seen: _,
        } = self;
    }
}

/// Adds the where-clauses of an impl.
fn push_clauses(id: ImplId, places: &[usize], clauses: &mut Vec<Clause>) -> Result<(), AllocError> {
    for (number, place) in places.iter().enumerate() {
        clauses.push(Clause {
            id,
            number,
            place: *place,
        })?;
    }
    Ok(())
}

/// The where-clauses of both impls.
fn clauses_of(alloc: Global, pair: &PairWalk, impls: Pair) -> Result<Vec<Clause>, AllocError> {
    let mut clauses = Vec::new(alloc);
    push_clauses(impls.later, &pair.left, &mut clauses)?;
    push_clauses(impls.earlier, &pair.right, &mut clauses)?;
    Ok(clauses)
}

/// The header of an impl, rendered, if the crate sees it.
fn speak_header(
    alloc: Global,
    texts: Texts<'_>,
    session: &Session<'_>,
    id: ImplId,
) -> Result<Option<Spoken>, AllocError> {
    let Some(header) = impl_header(session, id) else {
        return Ok(None);
    };
    let Some(entry) = texts.workspace.impls().get(id.index as usize) else {
        return Ok(None);
    };
    let names = ShownNames {
        workspace: texts.workspace,
        params: &entry.params,
        variables: &[],
    };
    let spoken = speak(alloc, session.interner(), &names, header)?;
    Ok(Some(spoken))
}

/// Renders the trace of a pair. The caller must prove that both impls conclude the common instance, if it is displayed as checked.
fn tell_pair<'w>(
    texts: Texts<'w>,
    session: &Session<'_>,
    impls: Pair,
    pair: &'w PairWalk,
    claims: &'w Claims,
    may_run_out: bool,
) -> Result<Conflicting<'w>, AllocError>
    requires walked { PairWalkHeld session.now.terms pair.now }
    requires common { ShowsCommonOf session.now impls.later impls.earlier pair.now }
    requires claims { ClaimsHold session.now pair.now.walk claims.now }
{
    let alloc = session.search.cx.alloc;
    let names = ShownNames {
        workspace: texts.workspace,
        params: &[],
        variables: &[],
    };
    let clauses = clauses_of(alloc, pair, impls)?;
    let header = speak_header(alloc, texts, session, impls.earlier)?;
    let common = speak(alloc, session.interner(), &names, pair.common)?;
    let story = tell(alloc, texts, session, &names, &pair.walk, claims)?;
    Ok(Conflicting {
        impls,
        common,
        is_checked: pair.is_checked,
        story,
        clauses,
        header,
        depth: session.limits.depth,
        may_run_out,
        seen: seen_impls(alloc, texts.workspace, session)?,
    })
}

/// Where a where-clause stands; nowhere in an impl of `core`.
fn span_of(texts: Texts<'_>, clause: Clause) -> Span {
    let none = Span {
        line: 0,
        start: 0,
        end: 0,
    };
    match impl_line(texts, clause.id) {
        Some(line) => line.clause(clause.number).unwrap_or(none),
        None => none,
    }
}

/// Adds why a where-clause does not rule the overlap out, and marks it.
fn tell_one(
    found: &Conflicting<'_>,
    clause: Clause,
    telling: &mut Telling,
) -> Result<(), AllocError> {
    let asking = Asking {
        span: span_of(found.story.texts, clause),
        depth: found.depth,
        may_run_out: found.may_run_out,
        seen: &found.seen,
        supertrait: None,
        is_narrowed: false,
        is_exhausted: false,
    };
    tell_clause(&found.story, clause.place, asking, telling)
}

/// The sentence for an impl of `core`, which has no line.
fn core_said<'s>(found: &'s Conflicting<'_>) -> Sentence<'s> {
    match &found.header {
        None => with_one(
            "conflicting implementation of `{}` in crate `core`",
            found.common.bound_piece(),
        ),
        Some(header) => with_one(
            "conflicting implementation in crate `core`: `{}`",
            header.reference_piece(),
        ),
    }
}

/// Marks both headers, and adds a note for the earlier one if it has no line.
fn tell_headers(found: &Conflicting<'_>, telling: &mut Telling) {
    let texts = found.story.texts;
    let earlier = impl_line(texts, found.impls.earlier);
    if let Some(line) = earlier {
        telling.mark_beside(line.header(), plain("first implementation here"));
    }
    if let Some(line) = impl_line(texts, found.impls.later) {
        let subject = found.common.subject_piece();
        telling.mark(
            line.header(),
            with_one("conflicting implementation for `{}`", subject),
        );
    }
    if earlier.is_none() {
        telling.note(core_said(found));
    }
}

/// The diagnostic for the overlap, which others may follow.
fn diagnose(alloc: Global, found: &Conflicting<'_>) -> Result<Telling, AllocError> {
    let message = pair_said(found.story.texts, found.impls, &found.common, true);
    let mut telling = Telling::begin(alloc, Level::Error, Some(ErrCode::E0119), message);
    tell_headers(found, &mut telling);
    if !found.is_checked {
        telling.note(plain(NOT_CHECKED));
    }
    for clause in &found.clauses {
        tell_one(found, *clause, &mut telling)?;
    }
    Ok(telling)
}

/// The diagnostic for two impls that overlap, with the later pairs of the crate. The session stays as it was, after a fault too.
pub(crate) fn overlap(
    alloc: Global,
    texts: Texts<'_>,
    session: &mut Session<'_>,
    impls: Pair,
    may_run_out: bool,
    spending: &mut Spending,
) -> Result<Option<Diagnostic>, Fault>
    ensures { StaysOn session.old session.new }
{
    let Some(pair) = explain_overlap(session, impls.later, impls.earlier)? else {
        return Ok(None);
    };
    let claims = pair_claims(session, &pair)?;
    let found = tell_pair(texts, session, impls, &pair, &claims, may_run_out)?;
    let mut telling = diagnose(alloc, &found)?;
    tell_later_pairs(texts, session, impls, spending, &mut telling)?;
    let told = telling.finish()?;
    Ok(Some(told))
}
