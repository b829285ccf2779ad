//! The lines of checks and of queries, stored until all crates have their lines. The lines of crates come first in the output, and one
//! session makes all lines of its crate.

ghost use Rattle.std.specs.Prelude.{◌≡◌, ◌+◌, ◌<◌, ◌≤◌, ℕ, length, IfOk, IfErr, IfSome, OnOk};
ghost use Rattle.sessions.specs.TextTables.Numbered.{IsNumbered, IsFew};
ghost use Rattle.sessions.specs.Promised.Shortages.{SessionFullAtLimit};
ghost use Rattle.sessions.specs.Promised.Subjects.{IsOfText, StaysOn};
ghost use Rattle.coherence.specs.Groups.{IsAskedIn, IsCheckedIn, ArePlacesWhere, IsGroup};
ghost use Rattle.coherence.specs.LineByLine.{CountsLine};
ghost use Rattle.coherence.specs.KeptLines.{KeepsChecks, KeepsQuestions, KeepsLines, HasKeptLineAt, IsCheckLineOf, IsSupersLine};

use crate::groups::Group;
use crate::lines::{check_line, question_line};
use crate::listener::Listener;
use sessions::Session;
use sessions::text_tables::{Check, ENTRY_LIMIT, Workspace};
use sessions::type_terms::Fault;
use std::alloc::{AllocError, Global};

/// A line as text, with its line end. It is empty before it is known.
#[derive(Drop)]
pub struct KeptLine {
    pub text: Vec<u8>,
}

/// The lines of all checks and of all queries, each at its index.
#[derive(Drop)]
pub struct KeptLines {
    pub checks: Vec<KeptLine>,
    pub questions: Vec<KeptLine>,
}

/// As many lines, none of them known yet.
fn empty_lines(alloc: Global, count: usize) -> Result<Vec<KeptLine>, AllocError>
    ensures { IfOk result (λ lines. length lines.items ≡ count) }
{
    let mut lines = Vec::new(alloc);
    for _line in 0..count {
        lines.push(KeptLine {
            text: Vec::new(alloc),
        })?;
    }
    Ok(lines)
}

/// A copy of a line.
fn copy_line(alloc: Global, line: &KeptLine) -> Result<Vec<u8>, AllocError>
    ensures { IfOk result (λ text. text.items ≡ line.now.text.items) }
{
    let mut text = Vec::new(alloc);
    text.extend_from_slice(&line.text)?;
    Ok(text)
}

/// The line at this index, which is counted up. After the last line there is none.
pub fn next_line(
    alloc: Global,
    lines: &[KeptLine],
    place: &mut usize,
) -> Result<Option<Vec<u8>>, AllocError>
    requires { place.old ≤ length lines.now }
    ensures line { IfOk result (λ next. IfSome next (λ text. HasKeptLineAt lines.now place.old text.items)) }
    ensures counts { CountsLine (length lines.now) place.old place.new result }
    ensures within { place.new ≤ length lines.now }
{
    if *place >= lines.len() {
        return Ok(None);
    }
    let text = copy_line(alloc, &lines[*place])?;
    *place += 1;
    Ok(Some(text))
}

/// Room for a line of each check and of each query. Fails only if memory is refused.
pub fn no_lines(alloc: Global, workspace: &Workspace) -> Result<KeptLines, AllocError>
    ensures { (limit : ℕ) → IfOk result (λ lines. KeepsLines limit workspace.now 0 lines) }
{
    let checks = empty_lines(alloc, workspace.checks().len())?;
    let questions = empty_lines(alloc, workspace.questions().len())?;
    Ok(KeptLines { checks, questions })
}

/// The line of a check of the session's crate, by its index in the text. All `supers` checks of a crate have the same line: it is made once,
/// and copied from then on.
fn check_line_once(
    alloc: Global,
    session: &mut Session<'_>,
    workspace: &Workspace,
    place: usize,
    supers: &mut Option<KeptLine>,
) -> Result<Vec<u8>, Fault>
    requires on { session.old.declarations ≡ workspace.now }
    requires numbered { IsNumbered workspace.now }
    requires checked { IsCheckedIn workspace.now session.old.of_crate place }
    requires supers { IsSupersLine session.old.depth workspace.now session.old.of_crate supers.old }
    ensures line { IfOk result (λ text. IsCheckLineOf session.old.depth workspace.now place text.items) }
    ensures supers { OnOk result (IsSupersLine session.old.depth workspace.now session.old.of_crate supers.new) }
    ensures stays { StaysOn session.old session.new }
    ensures full { IfErr result (SessionFullAtLimit session.new) }
{
    let Check::Supers(_) = workspace.checks()[place] else {
        return check_line(alloc, session, workspace, place);
    };
    let line = match supers.take() {
        Some(line) => line,
        None => {
            let text = check_line(alloc, session, workspace, place)?;
            KeptLine { text }
        }
    };
    let text = copy_line(alloc, &line)?;
    *supers = Some(line);
    Ok(text)
}

/// Makes the checks of the session's crate, and stores their lines.
fn keep_checks<L: Listener>(
    alloc: Global,
    session: &mut Session<'_>,
    workspace: &Workspace,
    places: &[usize],
    lines: &mut Vec<KeptLine>,
    listener: &mut L,
) -> Result<(), Fault>
    requires on { session.old.declarations ≡ workspace.now }
    requires numbered { IsNumbered workspace.now }
    requires places { ArePlacesWhere (length workspace.now.checks) (IsCheckedIn workspace.now session.old.of_crate) places.now }
    requires kept { KeepsChecks session.old.depth workspace.now session.old.of_crate lines.old.items }
    ensures kept { OnOk result (KeepsChecks session.old.depth workspace.now (session.old.of_crate + 1) lines.new.items) }
    ensures stays { StaysOn session.old session.new }
    ensures full { IfErr result (SessionFullAtLimit session.new) }
{
    let mut supers = None;
    for place in places {
        let text = check_line_once(alloc, session, workspace, *place, &mut supers)?;
        lines[*place] = KeptLine { text };
        listener.checked(session, workspace, *place);
    }
    Ok(())
}

/// Answers the queries of the session's crate, and stores their lines.
fn keep_questions<L: Listener>(
    alloc: Global,
    session: &mut Session<'_>,
    workspace: &Workspace,
    places: &[u32],
    lines: &mut Vec<KeptLine>,
    listener: &mut L,
) -> Result<(), Fault>
    requires on { session.old.declarations ≡ workspace.now }
    requires parsed { IsOfText workspace.now }
    requires few { IsFew workspace.now ENTRY_LIMIT }
    requires places { ArePlacesWhere (length workspace.now.questions) (IsAskedIn workspace.now session.old.of_crate) places.now }
    requires kept { KeepsQuestions session.old.depth workspace.now session.old.of_crate lines.old.items }
    ensures kept { OnOk result (KeepsQuestions session.old.depth workspace.now (session.old.of_crate + 1) lines.new.items) }
    ensures stays { StaysOn session.old session.new }
    ensures full { IfErr result (SessionFullAtLimit session.new) }
{
    for place in places {
        let text = question_line(alloc, session, workspace, *place, listener)?;
        lines[*place as usize] = KeptLine { text };
    }
    Ok(())
}

/// Makes the checks of the session's crate, answers its queries, and stores their lines. Fails with `Memory`, or with `Full` only if the
/// session is at a limit.
pub fn keep_answers<L: Listener>(
    alloc: Global,
    session: &mut Session<'_>,
    workspace: &Workspace,
    group: &Group,
    lines: &mut KeptLines,
    listener: &mut L,
) -> Result<(), Fault>
    requires on { session.old.declarations ≡ workspace.now }
    requires parsed { IsOfText workspace.now }
    requires numbered { IsNumbered workspace.now }
    requires few { IsFew workspace.now ENTRY_LIMIT }
    requires group { IsGroup (length workspace.now.checks) (length workspace.now.questions) workspace.now session.old.of_crate group.now }
    requires kept { KeepsLines session.old.depth workspace.now session.old.of_crate lines.old }
    ensures kept { OnOk result (KeepsLines session.old.depth workspace.now (session.old.of_crate + 1) lines.new) }
    ensures stays { StaysOn session.old session.new }
    ensures full { IfErr result (SessionFullAtLimit session.new) }
{
    keep_checks(
        alloc,
        session,
        workspace,
        &group.checks,
        &mut lines.checks,
        listener,
    )?;
    keep_questions(
        alloc,
        session,
        workspace,
        &group.questions,
        &mut lines.questions,
        listener,
    )
}
