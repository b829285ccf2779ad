//! A text that is read once, and asked at run time.

ghost use Rattle.std.specs.Prelude.{◌≡◌, ◌<◌, ◌≤◌, ℕ, List, length, None, Ok, IfOk, IfErr, IfSome};
ghost use Rattle.std.specs.Option.{option_map, option_and_then};
ghost use Rattle.sessions.specs.TextLanguage.Promised.Declarations.{known};
ghost use Rattle.sessions.specs.TextLanguage.Text.{TextGives};
ghost use Rattle.text_parser.specs.Behind.{FitsBehind, behind};
ghost use Rattle.text_parser.specs.Outcomes.{IsTextError};
ghost use Rattle.text_parser.specs.Queries.{FitsTables};
ghost use Rattle.sessions.specs.TextTables.Numbered.{IsNumbered, IsFew};
ghost use Rattle.sessions.specs.TextTables.Tables.{with_question, number_of_crate};
ghost use Rattle.sessions.specs.TextTables.Views.{asker_of, question_of};
ghost use Rattle.sessions.specs.TextLanguage.Promised.Declarations.{Declarations, Question};
ghost use Rattle.sessions.specs.Promised.Given.{refutation_of};
ghost use Rattle.sessions.specs.Promised.Promises.{IsRefutation};
ghost use Rattle.sessions.specs.Promised.Subjects.{IsOfText, AsksProof, AsksRefutation, StaysOn};
ghost use Rattle.coherence.specs.Asking.{IsAnswerBehind, IsAskFault, IsLastLine, IsQueryBehind, IsShortage};
ghost use Rattle.coherence.specs.Groups.{IsAskedIn};
ghost use Rattle.coherence.specs.KeptLines.{IsLineOf};
ghost use Rattle.coherence.specs.KeptSessions.{AreLeftSessions};
ghost use Rattle.coherence.specs.LineByLine.{IsVerdictLine};
ghost use Rattle.session_inference.specs.LeftInferences.{IsLeftInference, inference_after};
ghost use Rattle.coherence.specs.Inferring.{HasBegun};
ghost use Rattle.coherence.specs.Queries.{HasNoQuery, IsNamedAnswer, IsProveQuery, IsQueryAt, IsRefuteQuery};

use crate::ask_fault::AskFault;
use crate::kept_sessions::KeptSessions;
use crate::lines::{question_line, verdict_line};
use crate::listener::Nobody;
use crate::named_answer::{NamedAnswer, named_answer};
use crate::query::{ProveQuery, Query, RefuteQuery};
use session_inference::{InferenceSession, LeftInference};
use sessions::text_tables::{Asked, ENTRY_LIMIT, QuestionEntry, Workspace};
use sessions::type_terms::{CrateId, Fault};
use sessions::{Limits, RefuteAnswer, Session};
use std::alloc::Global;
use std::marker::Model;
use text_parser::{
    QueryLine, TEXT_LIMIT, TextError, is_one_line, lines_behind_texts, parse, read_query,
    texts_are_few,
};

/// The line of a session's crate.
fn judged_line(
    alloc: Global,
    session: &mut Session<'_>,
    workspace: &Workspace,
    id: CrateId,
) -> Result<Vec<u8>, Fault>
    requires on { session.old.declarations ≡ workspace.now }
    requires of_crate { session.old.of_crate ≡ id.index }
    requires numbered { IsNumbered workspace.now }
    requires declared { id.index < length workspace.now.crates }
    ensures line { IfOk result (λ text. IsVerdictLine session.old.depth workspace.now id.index text.items) }
    ensures stays { StaysOn session.old session.new }
{
    let verdict = session.check_crate()?;
    let line = verdict_line(alloc, session.interner(), workspace, id, &verdict)?;
    Ok(line)
}

/// The line of a crate.
fn crate_answer(
    kept: &mut KeptSessions,
    workspace: &Workspace,
    id: CrateId,
) -> Result<Vec<u8>, Fault>
    requires parsed { IsOfText workspace.now }
    requires numbered { IsNumbered workspace.now }
    requires declared { id.index < length workspace.now.crates }
    requires left { AreLeftSessions workspace.now kept.old.limits kept.old.left.items }
    ensures line { IfOk result (λ text. IsVerdictLine kept.old.limits.depth workspace.now id.index text.items) }
    ensures limits { kept.new.limits ≡ kept.old.limits }
    ensures left { AreLeftSessions workspace.now kept.old.limits kept.new.left.items }
{
    let alloc = kept.alloc;
    let mut session = kept.resume(workspace, id)?;
    let answer = judged_line(alloc, &mut session, workspace, id);
    kept.keep(session, &answer, 0);
    answer
}

/// The line of a question, by its place in the text, its crate, and how many bytes its own line has.
fn question_answer(
    kept: &mut KeptSessions,
    workspace: &Workspace,
    id: CrateId,
    place: u32,
    line_length: usize,
) -> Result<Vec<u8>, Fault>
    requires parsed { IsOfText workspace.now }
    requires few { IsFew workspace.now ENTRY_LIMIT }
    requires declared { id.index < length workspace.now.crates }
    requires asked { IsAskedIn workspace.now id.index place }
    requires left { AreLeftSessions workspace.now kept.old.limits kept.old.left.items }
    ensures line { IfOk result (λ text. IsLineOf kept.old.limits.depth workspace.now place text.items) }
    ensures limits { kept.new.limits ≡ kept.old.limits }
    ensures left { AreLeftSessions workspace.now kept.old.limits kept.new.left.items }
{
    let alloc = kept.alloc;
    let mut session = kept.resume(workspace, id)?;
    let answer = question_line(alloc, &mut session, workspace, place, &mut Nobody {});
    kept.keep(session, &answer, line_length);
    answer
}

/// The same. If a table is full, a new session answers: terms, goals and answers of earlier calls may have filled it.
fn question_answer_anew(
    kept: &mut KeptSessions,
    workspace: &Workspace,
    id: CrateId,
    place: u32,
    line_length: usize,
) -> Result<Vec<u8>, Fault>
    requires parsed { IsOfText workspace.now }
    requires few { IsFew workspace.now ENTRY_LIMIT }
    requires declared { id.index < length workspace.now.crates }
    requires asked { IsAskedIn workspace.now id.index place }
    requires left { AreLeftSessions workspace.now kept.old.limits kept.old.left.items }
    ensures line { IfOk result (λ text. IsLineOf kept.old.limits.depth workspace.now place text.items) }
    ensures limits { kept.new.limits ≡ kept.old.limits }
    ensures left { AreLeftSessions workspace.now kept.old.limits kept.new.left.items }
{
    let had_none = kept.is_empty();
    match question_answer(kept, workspace, id, place, line_length) {
        Err(Fault::Full) if !had_none => {
            kept.clear();
            question_answer(kept, workspace, id, place, line_length)
        }
        answer => answer,
    }
}

/// The answer of a `prove` query.
fn prove_answer(
    kept: &mut KeptSessions,
    workspace: &Workspace,
    query: ProveQuery,
) -> Result<NamedAnswer, Fault>
    requires parsed { IsOfText workspace.now }
    requires query { IsProveQuery workspace.now query }
    requires left { AreLeftSessions workspace.now kept.old.limits kept.old.left.items }
    ensures answer { (q : Question) → AsksProof workspace.now query.crate_id.index query.number q
        → IfOk result (IsNamedAnswer kept.old.limits.depth workspace.now query.number q) }
    ensures limits { kept.new.limits ≡ kept.old.limits }
    ensures left { AreLeftSessions workspace.now kept.old.limits kept.new.left.items }
{
    let alloc = kept.alloc;
    let mut session = kept.resume(workspace, query.crate_id)?;
    let answer = named_answer(alloc, &mut session, workspace, query.number, &mut Nobody {});
    kept.keep(session, &answer, 0);
    answer
}

/// The answer of a `refute` query.
fn refute_answer(
    kept: &mut KeptSessions,
    workspace: &Workspace,
    query: RefuteQuery,
) -> Result<RefuteAnswer, Fault>
    requires parsed { IsOfText workspace.now }
    requires query { IsRefuteQuery workspace.now query }
    requires left { AreLeftSessions workspace.now kept.old.limits kept.old.left.items }
    ensures answer { (q : Question) → AsksRefutation workspace.now query.crate_id.index query.number q
        → IfOk result (λ a. IsRefutation kept.old.limits.depth workspace.now q (refutation_of a)) }
    ensures limits { kept.new.limits ≡ kept.old.limits }
    ensures left { AreLeftSessions workspace.now kept.old.limits kept.new.left.items }
{
    let mut session = kept.resume(workspace, query.crate_id)?;
    let answer = session.refute(query.number);
    kept.keep(session, &answer, 0);
    answer
}

/// What an inference session in a crate leaves, which nothing was asked yet.
fn begin(
    kept: &mut KeptSessions,
    workspace: &Workspace,
    id: CrateId,
) -> Result<LeftInference, Fault>
    requires parsed { IsOfText workspace.now }
    requires declared { id.index < length workspace.now.crates }
    requires left { AreLeftSessions workspace.now kept.old.limits kept.old.left.items }
    ensures begun { IfOk result (HasBegun kept.old.limits.depth workspace.now id.index) }
    ensures limits { kept.new.limits ≡ kept.old.limits }
    ensures left { AreLeftSessions workspace.now kept.old.limits kept.new.left.items }
{
    let session = kept.resume(workspace, id)?;
    let inference = InferenceSession::new(session);
    Ok(inference.leave())
}

/// The crate in which a question is asked.
fn asker_of(asked_how: Asked) -> CrateId
    ensures { result.index ≡ asker_of asked_how }
{
    match asked_how {
        Asked::Prove(id) => id,
        Asked::Refute(id) => id,
    }
}

/// What a line asks behind a text that has so many bytes.
fn query_behind(
    alloc: Global,
    workspace: &Workspace,
    text_length: usize,
    line: &[u8],
) -> Result<QuestionEntry, AskFault>
    requires { text_length ≤ TEXT_LIMIT }
    ensures entry { IfOk result (IsQueryBehind workspace.now text_length line.now) }
    ensures fault { IfErr result (IsAskFault workspace.now text_length line.now) }
{
    if !is_one_line(line) {
        return Err(AskFault::SeveralLines);
    }
    if line.len() >= TEXT_LIMIT - text_length {
        return Err(AskFault::TooLong);
    }
    match read_query(workspace.tables(), alloc, line)? {
        QueryLine::Query(entry) => Ok(entry),
        QueryLine::Faulty(kind) => Err(AskFault::Line(kind)),
        QueryLine::Other => Err(AskFault::NotAQuery),
        QueryLine::Declared => Err(AskFault::NotAQuery),
    }
}

/// The line of a question that is asked behind all others, and taken out again. Its own line has so many bytes.
fn answer_behind(
    kept: &mut KeptSessions,
    workspace: &mut Workspace,
    entry: QuestionEntry,
    line_length: usize,
) -> Result<Vec<u8>, AskFault>
    requires fits { FitsTables workspace.old entry }
    requires parsed { IsOfText (with_question workspace.old (question_of entry)) }
    requires left { AreLeftSessions workspace.old kept.old.limits kept.old.left.items }
    ensures line { IfOk result (λ text. IsAnswerBehind kept.old.limits.depth workspace.old (question_of entry) text.items) }
    ensures fault { IfErr result IsShortage }
    ensures stays { workspace.new ≡ workspace.old }
    ensures limits { kept.new.limits ≡ kept.old.limits }
    ensures left { AreLeftSessions workspace.old kept.old.limits kept.new.left.items }
{
    texts_are_few();
    let place = workspace.questions().len() as u32;
    let id = asker_of(entry.asked_how);
    workspace.add_question(entry)?;
    let answer = question_answer_anew(kept, workspace, id, place, line_length);
    workspace.remove_question();
    let line = answer?;
    Ok(line)
}

/// A text that was read once, and is asked at run time: whether its crates are coherent, and what lines ask that stand in no text.
///
/// It owns all that it needs. After any call, one that ended with a fault too, it is as before and can be asked again.
///
/// What a call has lowered and found is kept for later calls of its crate: what searches of at most 65,536 frames found, of all crates
/// together. 64 bytes of a line count as a frame. It is that of at most 16 crates, and of one alone where the text has more than 2 MiB.
/// Where it would be more, the crate that was asked least lately is dropped. A fault drops that of its crate. A crate that is asked for
/// the first time may take over what another one has lowered, if little was found for that.
#[derive(Drop)]
pub struct Asker {
    /// How many bytes the text has.
    text_length: usize,
    workspace: Workspace,
    kept: KeptSessions,
}

impl Model for Asker {
    ghost use Rattle.coherence.specs.Asking.{AskedText, Serves, asked_text_code};

    ghost Value = { AskedText };

    ghost coded = { asked_text_code };

    ghost view = { λ a. record { declarations = a.workspace; text_length = a.text_length; depth = a.kept.limits.depth } };

    ghost invariant = { λ a. Serves a.workspace a.text_length a.kept.limits a.kept.left.items };
}

impl Asker {
    /// Reads a text. The error is the first faulty line, counted from 1, with the smallest number of a fault in it; or that a request for
    /// memory was refused.
    pub fn read(alloc: Global, text: &[u8], limits: Limits) -> Result<Self, TextError>
        ensures taken { IfOk result (λ asker. TextGives text.now (Ok asker.declarations)) }
        ensures text_length { IfOk result (λ asker. asker.text_length ≡ length text.now) }
        ensures depth { IfOk result (λ asker. asker.depth ≡ limits.depth) }
        ensures refused { IfErr result (λ e. IsTextError text.now e) }
    {
        let workspace = parse(alloc, text)?;
        Ok(Asker {
            text_length: text.len(),
            workspace,
            kept: KeptSessions::new(alloc, limits, text.len()),
        })
    }

    /// What the text declares and asks.
    pub fn workspace(&self) -> &Workspace
        ensures { result.now ≡ self.now.declarations }
    {
        &self.workspace
    }

    /// The crate of a name; none where the text declares no crate of that name.
    pub fn crate_named(&self, name: &[u8]) -> Option<CrateId>
        ensures number { option_map (λ c. c.index) result ≡ option_and_then number_of_crate (known self.now.declarations name.now) }
        ensures there { IfSome result (λ c. c.index < length self.now.declarations.crates) }
    {
        self.workspace.tables().crate_named(name)
    }

    /// The line of a crate, with its end, as the output for the text has it; `core` has none there, and is judged as any other. The fault
    /// is `Memory` or `Full`.
    pub fn check(&mut self, id: CrateId) -> Result<Vec<u8>, Fault>
        requires { id.index < length self.old.declarations.crates }
        ensures line { IfOk result (λ text. IsVerdictLine self.old.depth self.old.declarations id.index text.items) }
        ensures stays { self.new ≡ self.old }
    {
        let _crates = self.workspace.crates();
        crate_answer(&mut self.kept, &self.workspace, id)
    }

    /// The query of the text with this number, from 1. `None` if the text has no such query.
    pub fn query(&self, number: u32) -> Option<Query>
        ensures is { IfSome result (IsQueryAt self.now.declarations number) }
        ensures none { result ≡ None → HasNoQuery self.now.declarations number }
    {
        Query::of_text(&self.workspace, number)
    }

    /// The answer of a `prove` query of the text, with the values of its variables by their names.
    ///
    /// Fails with `Memory` if memory is refused, or with `Full` if a table is full.
    pub fn prove(&mut self, query: ProveQuery) -> Result<NamedAnswer, Fault>
        requires { IsProveQuery self.old.declarations query }
        ensures answer { (q : Question) → AsksProof self.old.declarations query.crate_id.index query.number q
            → IfOk result (IsNamedAnswer self.old.depth self.old.declarations query.number q) }
        ensures stays { self.new ≡ self.old }
    {
        prove_answer(&mut self.kept, &self.workspace, query)
    }

    /// The answer of a `refute` query of the text.
    ///
    /// Fails with `Memory` if memory is refused, or with `Full` if a table is full.
    pub fn refute(&mut self, query: RefuteQuery) -> Result<RefuteAnswer, Fault>
        requires { IsRefuteQuery self.old.declarations query }
        ensures answer { (q : Question) → AsksRefutation self.old.declarations query.crate_id.index query.number q
            → IfOk result (λ a. IsRefutation self.old.depth self.old.declarations q (refutation_of a)) }
        ensures stays { self.new ≡ self.old }
    {
        refute_answer(&mut self.kept, &self.workspace, query)
    }

    /// The line that the output for the text with this line behind it ends with: the answer to what the line asks. The text stays as it
    /// was.
    pub fn ask(&mut self, line: &[u8]) -> Result<Vec<u8>, AskFault>
        // Of each text that gives the declarations and has room for the line.
        ensures last { (bytes : List ℕ) → TextGives bytes (Ok self.old.declarations) → FitsBehind bytes line.now
            → IfOk result (λ text. IsLastLine self.old.depth (behind bytes line.now) text.items) }
        ensures fault { IfErr result (IsAskFault self.old.declarations self.old.text_length line.now) }
        ensures stays { self.new ≡ self.old }
    {
        lines_behind_texts();
        let entry = query_behind(self.kept.alloc, &self.workspace, self.text_length, line)?;
        answer_behind(&mut self.kept, &mut self.workspace, entry, line.len())
    }

    /// Begins inference in a crate, over what is kept for it. [`Asker::inferring`] goes on with what it leaves, and [`Asker::keep`] keeps what
    /// was found at the end.
    ///
    /// Fails with `Memory` if memory is refused, or with `Full` if a table is full.
    pub fn begin_inference(&mut self, id: CrateId) -> Result<LeftInference, Fault>
        requires { id.index < length self.old.declarations.crates }
        ensures begun { IfOk result (HasBegun self.old.depth self.old.declarations id.index) }
        ensures stays { self.new ≡ self.old }
    {
        begin(&mut self.kept, &self.workspace, id)
    }

    /// The inference session that goes on with what one on this text left.
    pub fn inferring(&self, left: LeftInference) -> InferenceSession<'_>
        requires { IsLeftInference self.now.declarations left }
        ensures { result ≡ inference_after self.now.declarations left }
    {
        InferenceSession::resumed(&self.workspace, left)
    }

    /// Keeps what the searches of an inference session found, for later calls in its crate. Variables, goals and terms are dropped.
    pub fn keep(&mut self, left: LeftInference)
        requires { IsLeftInference self.old.declarations left }
        ensures stays { self.new ≡ self.old }
    {
        self.kept.keep_inference(left);
    }
}
