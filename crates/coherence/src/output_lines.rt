//! The output for a text in memory, line by line.

ghost use Rattle.std.specs.Prelude.{◌≡◌, ◌+◌, ◌-◌, ◌<◌, ℕ, true, false, None, Ok, length, IfOk, IfErr, IfSome, OnOk, OnErr};
ghost use Rattle.text_parser.specs.TextNames.FaultNumbers.{fault_number};
ghost use Rattle.sessions.specs.TextLanguage.Output.{fault, output_text};
ghost use Rattle.sessions.specs.TextLanguage.Text.{TextGives};
ghost use Rattle.sessions.specs.TextTables.Numbered.{IsNumbered, IsFew};
ghost use Rattle.sessions.specs.Promised.Shortages.{SessionFullAtLimit};
ghost use Rattle.sessions.specs.Promised.Subjects.{IsOfText, StaysOn};
ghost use Rattle.coherence.specs.Groups.{IsGroup};
ghost use Rattle.coherence.specs.LineByLine.{CountsLine, HasNoMore, IsAfterFault, IsAfterLine, IsLineAt, IsVerdictLine, line_count};
ghost use Rattle.coherence.specs.Promised.Told.{status_of};
ghost use Rattle.coherence.specs.LineSources.{HasRoom, HoldsLines, IsGivenInOrder, IsGivenOfFault, IsNoneGiven, KeepsAnswers, lines_given, text_of};
ghost use Rattle.coherence.specs.KeptLines.{KeepsLines};
ghost use Rattle.coherence.specs.declared.output_lines.LineCounts.{LineCounts};

use crate::groups::{Group, groups_by_crate};
use crate::kept::{KeptLines, keep_answers, next_line, no_lines};
use crate::lines::verdict_line;
use crate::listener::{Listener, Nobody};
use crate::status::Status;
use sessions::text_tables::{ENTRY_LIMIT, Workspace};
use sessions::type_terms::{CrateId, Fault};
use sessions::{Limits, SeenView, Session};
use std::alloc::{AllocError, Global};
use std::marker::Model;
use text_parser::{TextError, TextFault, parse};
use text_printer::{Answer, print_line};

/// The crate at this index of the text.
fn crate_at(workspace: &Workspace, place: usize) -> CrateId
    requires { place < length workspace.now.crates }
    ensures { result.index ≡ place }
{
    workspace.crates()[place]
}

/// How many crates have a line of their own: all but `core`.
fn crates_with_lines(workspace: &Workspace) -> usize
    requires { IsNumbered workspace.now }
    ensures { result ≡ length workspace.now.crates - 1 }
{
    workspace.crates().len() - 1
}

/// Judges the session's crate, and stores the lines of its checks and queries.
fn judge_by<L: Listener>(
    session: &mut Session<'_>,
    workspace: &Workspace,
    id: CrateId,
    group: &Group,
    lines: &mut KeptLines,
    listener: &mut L,
) -> Result<Vec<u8>, Fault>
    requires parsed { IsOfText workspace.now }
    requires on { session.old.declarations ≡ workspace.now }
    requires of_crate { session.old.of_crate ≡ id.index }
    requires numbered { IsNumbered workspace.now }
    requires few { IsFew workspace.now ENTRY_LIMIT }
    requires declared { id.index < length workspace.now.crates }
    requires group { IsGroup (length workspace.now.checks) (length workspace.now.questions) workspace.now id.index group.now }
    requires kept { KeepsLines session.old.depth workspace.now id.index lines.old }
    ensures line { IfOk result (λ text. IsVerdictLine session.old.depth workspace.now id.index text.items) }
    ensures kept { OnOk result (KeepsLines session.old.depth workspace.now (id.index + 1) lines.new) }
    ensures stays { OnOk result (StaysOn session.old session.new) }
    ensures full { IfErr result (SessionFullAtLimit session.new) }
{
    let alloc = *lines.checks.allocator();
    let verdict = session.check_crate()?;
    let line = verdict_line(alloc, session.interner(), workspace, id, &verdict)?;
    listener.judged(session, workspace, &verdict);
    keep_answers(alloc, session, workspace, group, lines, listener)?;
    Ok(line)
}

/// Stores the lines of the checks and queries of `core`, which has no line of its own.
fn answer_core<L: Listener>(
    alloc: Global,
    workspace: &Workspace,
    limits: Limits,
    group: &Group,
    lines: &mut KeptLines,
    listener: &mut L,
) -> Result<(), Fault>
    requires parsed { IsOfText workspace.now }
    requires numbered { IsNumbered workspace.now }
    requires few { IsFew workspace.now ENTRY_LIMIT }
    requires group { IsGroup (length workspace.now.checks) (length workspace.now.questions) workspace.now 0 group.now }
    requires kept { KeepsLines limits.depth workspace.now 0 lines.old }
    ensures kept { OnOk result (KeepsLines limits.depth workspace.now 1 lines.new) }
{
    if group.is_empty() {
        return Ok(());
    }
    let mut session = Session::new(alloc, workspace, crate_at(workspace, 0), limits)?;
    keep_answers(alloc, &mut session, workspace, group, lines, listener)
}

/// What a text without a fault declares and queries, with the checks and queries of each crate, the lines stored so far, and what the last
/// session lowered.
#[derive(Drop)]
struct TextAnswers {
    workspace: Workspace,
    groups: Vec<Group>,
    kept: KeptLines,
    view: Option<SeenView>,
}

/// What the lines of a text are made of.
#[derive(Drop)]
enum LineSource {
    Fault(TextFault),
    Answers(TextAnswers),
}

/// How many lines of each kind have been given.
#[derive(Drop)]
struct LineCounts {
    faults: usize,
    crates: usize,
    checks: usize,
    questions: usize,
}

/// What is needed for the lines of a text without a fault. The checks and queries of `core` are answered.
fn text_answers<L: Listener>(
    alloc: Global,
    workspace: Workspace,
    limits: Limits,
    listener: &mut L,
) -> Result<TextAnswers, Fault>
    requires { IsOfText workspace }
    ensures keeps { IfOk result (λ answers. KeepsAnswers limits.depth limits.handles 0 answers) }
    ensures same { IfOk result (λ answers. answers.workspace ≡ workspace) }
{
    let _crates = workspace.crates();
    let mut kept = no_lines(alloc, &workspace)?;
    let groups = groups_by_crate(alloc, &workspace)?;
    answer_core(alloc, &workspace, limits, &groups[0], &mut kept, listener)?;
    Ok(TextAnswers {
        workspace,
        groups,
        kept,
        view: None,
    })
}

/// The line of the crate after this many others with lines of their own. One session makes it, and the stored lines of its checks and
/// queries. It begins with the view that is stored, and leaves its own.
fn crate_line<L: Listener>(
    limits: Limits,
    answers: &mut TextAnswers,
    place: usize,
    listener: &mut L,
) -> Result<Vec<u8>, Fault>
    requires keeps { KeepsAnswers limits.depth limits.handles place answers.old }
    requires there { place < length answers.old.workspace.crates - 1 }
    ensures line { IfOk result (λ text. IsVerdictLine limits.depth answers.old.workspace (place + 1) text.items) }
    ensures keeps { OnOk result (KeepsAnswers limits.depth limits.handles (place + 1) answers.new) }
    ensures same { answers.new.workspace ≡ answers.old.workspace }
{
    let alloc = *answers.kept.checks.allocator();
    let id = crate_at(&answers.workspace, place + 1);
    let workspace = &answers.workspace;
    let mut session = Session::on_crate(alloc, workspace, id, limits, answers.view.take())?;
    let group = &answers.groups[place + 1];
    let line = judge_by(
        &mut session,
        workspace,
        id,
        group,
        &mut answers.kept,
        listener,
    )?;
    answers.view = Some(session.into_view());
    Ok(line)
}

/// The line of a text's fault.
fn fault_line(alloc: Global, found: &TextFault) -> Result<Vec<u8>, AllocError>
    ensures { IfOk result (λ text. text.items ≡ output_text (fault found.now.line (fault_number found.now.kind))) }
{
    let line = found.line;
    let number = u32::from(found.kind.number());
    print_line(alloc, &Answer::Fault { line, number })
}

/// The next line of a text with a fault: that of the fault, once.
fn next_of_fault<L: Listener>(
    alloc: Global,
    found: &TextFault,
    given: &mut LineCounts,
    listener: &mut L,
) -> Result<Option<Vec<u8>>, AllocError>
    requires { IsGivenOfFault given.old }
    ensures line { IfOk result (λ next. IfSome next (λ line. line.items ≡ output_text (fault found.now.line (fault_number found.now.kind)))) }
    ensures counts { CountsLine 1 (lines_given given.old) (lines_given given.new) result }
    ensures holds { IsGivenOfFault given.new }
{
    if given.faults > 0 {
        return Ok(None);
    }
    let line = fault_line(alloc, found)?;
    listener.faulty(*found);
    given.faults = 1;
    Ok(Some(line))
}

/// The next stored line, after all crates have theirs: those of the checks first, then those of the queries.
fn next_kept(
    alloc: Global,
    answers: &TextAnswers,
    given: &mut LineCounts,
) -> Result<Option<Vec<u8>>, AllocError>
    requires order { IsGivenInOrder answers.now.workspace given.old }
    requires judged { given.old.crates ≡ length answers.now.workspace.crates - 1 }
    requires numbered { IsNumbered answers.now.workspace }
    requires room { HasRoom answers.now.workspace answers.now.kept }
    ensures line { (limit : ℕ) → KeepsLines limit answers.now.workspace (length answers.now.workspace.crates) answers.now.kept
        → IfOk result (λ next. IfSome next (λ line. IsLineAt limit (Ok answers.now.workspace) (lines_given given.old) line.items)) }
    ensures counts { CountsLine (line_count (Ok answers.now.workspace)) (lines_given given.old) (lines_given given.new) result }
    ensures order { IsGivenInOrder answers.now.workspace given.new }
    ensures judged { given.new.crates ≡ given.old.crates }
{
    if let Some(line) = next_line(alloc, &answers.kept.checks, &mut given.checks)? {
        return Ok(Some(line));
    }
    next_line(alloc, &answers.kept.questions, &mut given.questions)
}

/// The next line of a text without a fault.
fn next_of_answers<L: Listener>(
    alloc: Global,
    limits: Limits,
    answers: &mut TextAnswers,
    given: &mut LineCounts,
    listener: &mut L,
) -> Result<Option<Vec<u8>>, Fault>
    requires order { IsGivenInOrder answers.old.workspace given.old }
    requires keeps { KeepsAnswers limits.depth limits.handles given.old.crates answers.old }
    ensures line { IfOk result (λ next. IfSome next (λ line. IsLineAt limits.depth (Ok answers.old.workspace) (lines_given given.old) line.items)) }
    ensures counts { CountsLine (line_count (Ok answers.old.workspace)) (lines_given given.old) (lines_given given.new) result }
    ensures order { IsGivenInOrder answers.old.workspace given.new }
    ensures keeps { OnOk result (KeepsAnswers limits.depth limits.handles given.new.crates answers.new) }
    ensures same { answers.new.workspace ≡ answers.old.workspace }
{
    if given.crates < crates_with_lines(&answers.workspace) {
        let line = crate_line(limits, answers, given.crates, listener)?;
        given.crates += 1;
        return Ok(Some(line));
    }
    let next = next_kept(alloc, answers, given)?;
    Ok(next)
}

/// The next line of a text.
fn next_of<L: Listener>(
    alloc: Global,
    limits: Limits,
    source: &mut LineSource,
    given: &mut LineCounts,
    listener: &mut L,
) -> Result<Option<Vec<u8>>, Fault>
    requires { HoldsLines limits.depth limits.handles false given.old source.old }
    ensures line { IfOk result (λ next. IfSome next (λ line. IsLineAt limits.depth (text_of source.old) (lines_given given.old) line.items)) }
    ensures counts { CountsLine (line_count (text_of source.old)) (lines_given given.old) (lines_given given.new) result }
    ensures holds { OnOk result (HoldsLines limits.depth limits.handles false given.new source.new) }
    ensures failed { OnErr result (HoldsLines limits.depth limits.handles true given.new source.new) }
    ensures same { text_of source.new ≡ text_of source.old }
{
    match source {
        LineSource::Fault(found) => Ok(next_of_fault(alloc, found, given, listener)?),
        LineSource::Answers(answers) => next_of_answers(alloc, limits, answers, given, listener),
    }
}

/// What the lines of a text are made of. The text is read whole.
fn line_source<L: Listener>(
    alloc: Global,
    text: &[u8],
    limits: Limits,
    listener: &mut L,
) -> Result<LineSource, Fault>
    ensures text { IfOk result (λ source. TextGives text.now (text_of source)) }
    ensures holds { (given : LineCounts) → IsNoneGiven given → IfOk result (HoldsLines limits.depth limits.handles false given) }
{
    match parse(alloc, text) {
        Err(TextError::Memory) => Err(Fault::Memory),
        Err(TextError::Text(found)) => Ok(LineSource::Fault(found)),
        Ok(workspace) => Ok(LineSource::Answers(text_answers(alloc, workspace, limits, listener)?)),
    }
}

/// The output for a text in memory, line by line. It is the line of the text's first fault. Without a fault it is a line for each crate but
/// `core`, then one for each check (`later` or `supers`), and then one for each query.
///
/// A crate is judged, and its checks and queries are answered, when its line is made.
#[derive(Drop)]
pub struct OutputLines {
    alloc: Global,
    limits: Limits,
    source: LineSource,
    given: LineCounts,
    has_failed: bool,
}

impl Model for OutputLines {
    ghost use Rattle.coherence.specs.LineByLine.{OutputProgress, progress_code};
    ghost use Rattle.coherence.specs.LineSources.{HoldsLines, lines_given, text_of};

    ghost Value = { OutputProgress };

    ghost coded = { progress_code };

    ghost view = { λ s. record { text = text_of s.source; depth = s.limits.depth; given = lines_given s.given; has_failed = s.has_failed } };

    ghost invariant = { λ s. HoldsLines s.limits.depth s.limits.handles s.has_failed s.given s.source };
}

impl OutputLines {
    /// Reads the text whole, and answers the checks and queries of `core`. No line is given yet. Fails with `Memory`, or with `Full` if a
    /// table is full.
    pub fn new(alloc: Global, text: &[u8], limits: Limits) -> Result<Self, Fault>
        ensures text { IfOk result (λ lines. TextGives text.now lines.text) }
        ensures depth { IfOk result (λ lines. lines.depth ≡ limits.depth) }
        ensures given { IfOk result (λ lines. lines.given ≡ 0) }
        ensures has_failed { IfOk result (λ lines. lines.has_failed ≡ false) }
    {
        OutputLines::heard(alloc, text, limits, &mut Nobody {})
    }

    /// The same, where a listener hears of the answers of `core`.
    pub fn heard<L: Listener>(
        alloc: Global,
        text: &[u8],
        limits: Limits,
        listener: &mut L,
    ) -> Result<Self, Fault>
        ensures text { IfOk result (λ lines. TextGives text.now lines.text) }
        ensures depth { IfOk result (λ lines. lines.depth ≡ limits.depth) }
        ensures given { IfOk result (λ lines. lines.given ≡ 0) }
        ensures has_failed { IfOk result (λ lines. lines.has_failed ≡ false) }
    {
        let source = line_source(alloc, text, limits, listener)?;
        let given = LineCounts {
            faults: 0,
            crates: 0,
            checks: 0,
            questions: 0,
        };
        Ok(OutputLines {
            alloc,
            limits,
            source,
            given,
            has_failed: false,
        })
    }

    /// Whether the lines are answers, or the line of the text's first fault.
    pub fn status(&self) -> Status
        ensures { result ≡ status_of self.now.text }
    {
        match self.source {
            LineSource::Fault(_) => Status::TextFault,
            LineSource::Answers(_) => Status::Done,
        }
    }

    /// The next line, with its line end, or `None` after the last. A line that cannot be made is a fault, `Memory` or `Full`, and no line
    /// comes after it.
    pub fn next(&mut self) -> Option<Result<Vec<u8>, Fault>>
        ensures line { IfSome result (λ next. IfOk next (λ line. IsLineAt self.old.depth self.old.text self.old.given line.items)) }
        ensures given { IfSome result (λ next. OnOk next (IsAfterLine self.old self.new)) }
        ensures failed { IfSome result (λ next. OnErr next (IsAfterFault self.old self.new)) }
        ensures end { result ≡ None → (self.new ≡ self.old) × HasNoMore self.old }
        ensures over { self.old.has_failed ≡ true → result ≡ None }
    {
        self.next_heard(&mut Nobody {})
    }

    /// The same, where a listener hears of the fault, or of the answers that are given for the line.
    pub fn next_heard<L: Listener>(&mut self, listener: &mut L) -> Option<Result<Vec<u8>, Fault>>
        ensures line { IfSome result (λ next. IfOk next (λ line. IsLineAt self.old.depth self.old.text self.old.given line.items)) }
        ensures given { IfSome result (λ next. OnOk next (IsAfterLine self.old self.new)) }
        ensures failed { IfSome result (λ next. OnErr next (IsAfterFault self.old self.new)) }
        ensures end { result ≡ None → (self.new ≡ self.old) × HasNoMore self.old }
        ensures over { self.old.has_failed ≡ true → result ≡ None }
    {
        if self.has_failed {
            return None;
        }
        match next_of(
            self.alloc,
            self.limits,
            &mut self.source,
            &mut self.given,
            listener,
        ) {
            Ok(None) => None,
            Ok(Some(line)) => Some(Ok(line)),
            Err(fault) => {
                self.has_failed = true;
                Some(Err(fault))
            }
        }
    }
}
