//! The text for an unproved supertrait.

ghost use Rattle.std.specs.Prelude.{◌≡◌};
ghost use Rattle.explain_texts.specs.ExplainSessions.Claims.{ClaimsHold};
ghost use Rattle.explain_texts.specs.ExplainSessions.Walked.{WalkHeld};
ghost use Rattle.explain_texts.specs.Sessions.Promised.Subjects.{StaysOn};

use explain_texts::explain_diagnostics::{Diagnostic, Place, Span, on_line};
use explain_texts::explain_sessions::{Claims, GoalWalk, explain_supertrait, question_claims};
use explain_texts::sessions::{Session, SupersAnswer};
use explain_texts::text_printer::ShownNames;
use explain_texts::text_tables::Param;
use explain_texts::type_terms::{Fault, ImplId};
use explain_texts::{Asking, Texts, impl_line, tell, unproved, unsettled};
use std::alloc::AllocError;

/// A supertrait of the header of an impl that is not proved, by its number from 1.
#[derive(Clone, Copy)]
struct Unheld {
    id: ImplId,
    number: u32,
    is_missing: bool,
}

/// The supertrait that an answer names. `None` if all are proved.
fn unheld_of(answer: SupersAnswer) -> Option<Unheld> {
    match answer {
        SupersAnswer::Held => None,
        SupersAnswer::Missing(id, number) => Some(Unheld {
            id,
            number,
            is_missing: true,
        }),
        SupersAnswer::Undecided(id, number) => Some(Unheld {
            id,
            number,
            is_missing: false,
        }),
    }
}

/// The parameters of an impl.
fn params_of(texts: Texts<'_>, id: ImplId) -> &[Param] {
    match texts.workspace.impls().get(id.index as usize) {
        Some(entry) => &entry.params,
        None => &[],
    }
}

/// The span of the header of an impl. It is empty if the impl has no line.
fn header_span(texts: Texts<'_>, id: ImplId) -> Span {
    match impl_line(texts, id) {
        Some(found) => found.header(),
        None => on_line(0, Place { start: 0, end: 0 }),
    }
}

/// The diagnostic for a supertrait that was traced.
fn explain_walk(
    texts: Texts<'_>,
    session: &Session<'_>,
    walk: &GoalWalk,
    claims: &Claims,
    unheld: Unheld,
    asking: Asking<'_>,
) -> Result<Diagnostic, AllocError>
    requires walked { WalkHeld session.now.terms walk.now }
    requires claims { ClaimsHold session.now walk.now claims.now }
{
    let alloc = session.search.cx.alloc;
    let names = ShownNames {
        workspace: texts.workspace,
        params: params_of(texts, unheld.id),
        variables: &[],
    };
    let story = tell(alloc, texts, session, &names, walk, claims)?;
    if unheld.is_missing {
        unproved(alloc, &story, asking)
    } else {
        unsettled(alloc, &story, asking)
    }
}

/// Explains why a supertrait is not proved. `None` if there is no such supertrait.
fn explain_unheld(
    texts: Texts<'_>,
    session: &mut Session<'_>,
    unheld: Unheld,
    may_run_out: bool,
    seen: &[ImplId],
) -> Result<Option<Diagnostic>, Fault>
    ensures { StaysOn session.old session.new }
{
    let Some(walk) = explain_supertrait(session, unheld.id, unheld.number)? else {
        return Ok(None);
    };
    let claims = question_claims(session, &walk)?;
    let asking = Asking {
        span: header_span(texts, unheld.id),
        depth: session.limits.depth,
        may_run_out,
        seen,
        supertrait: Some(unheld.number),
        is_narrowed: false,
        is_exhausted: false,
    };
    let told = explain_walk(texts, session, &walk, &claims, unheld, asking)?;
    Ok(Some(told))
}

/// The diagnostic for a crate whose headers' supertraits were checked. `None` if all are proved. The session stays as it was, after a fault
/// too.
pub(crate) fn supertraits(
    texts: Texts<'_>,
    session: &mut Session<'_>,
    may_run_out: bool,
    seen: &[ImplId],
) -> Result<Option<Diagnostic>, Fault>
    ensures { StaysOn session.old session.new }
{
    let answer = session.check_supertraits()?;
    let Some(unheld) = unheld_of(answer) else {
        return Ok(None);
    };
    explain_unheld(texts, session, unheld, may_run_out, seen)
}
