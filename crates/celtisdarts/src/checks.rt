//! Explanations of checks.

ghost use Rattle.celtisdarts.specs.Asked.{IsCheckOf};
ghost use Rattle.explain_texts.specs.Sessions.Promised.Releases.{IsSectionOf};
ghost use Rattle.explain_texts.specs.Sessions.Promised.Subjects.{StaysOn};

use crate::breaking::breaking;
use crate::supertraits::supertraits;
use explain_texts::Texts;
use explain_texts::explain_diagnostics::Diagnostic;
use explain_texts::explain_sessions::explain_breaking;
use explain_texts::sessions::{LaterAnswer, Session};
use explain_texts::text_tables::Check;
use explain_texts::type_terms::{CrateId, Fault, ImplId};
use std::alloc::Global;

/// Explains the answer for a section: why the first breaking impl may not be added. `None` if the section is compatible.
fn explain_later(
    alloc: Global,
    texts: Texts<'_>,
    session: &mut Session<'_>,
    section: u32,
    changed: CrateId,
) -> Result<Option<Diagnostic>, Fault>
    requires { IsSectionOf session.old.declarations session.old.of_crate section }
    ensures { StaysOn session.old session.new }
{
    let LaterAnswer::Breaking(number) = session.check_later(section)? else {
        return Ok(None);
    };
    let Some(cause) = explain_breaking(session, section, number)? else {
        return Ok(None);
    };
    let told = breaking(alloc, texts, changed, section, number, cause)?;
    Ok(Some(told))
}

/// Explains the answer for a check of the session's crate. The session stays as it was, after a fault too.
pub(crate) fn explain_checked(
    alloc: Global,
    texts: Texts<'_>,
    session: &mut Session<'_>,
    check: Check,
    may_run_out: bool,
    seen: &[ImplId],
) -> Result<Option<Diagnostic>, Fault>
    requires { IsCheckOf session.old.declarations session.old.of_crate check }
    ensures { StaysOn session.old session.new }
{
    match check {
        Check::Later(section, changed) => explain_later(alloc, texts, session, section, changed),
        Check::Supers(_) => supertraits(texts, session, may_run_out, seen),
    }
}
