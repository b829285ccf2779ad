//! Explanations of the lines of an output, made while the lines are made.
//!
//! The text for a crate is made from its verdict, and the text for a query from a trace of its goal (`explain_traces`), by the session that
//! answered. No contract says that a sentence is true.

ghost use Rattle.std.specs.Prelude.{◌≡◌};
ghost use Rattle.coherence.specs.Groups.{IsCheckedIn};
ghost use Rattle.explain_texts.specs.Sessions.Promised.Given.{AnswerValuesHeld, VerdictHeld};
ghost use Rattle.explain_texts.specs.Sessions.Promised.Subjects.{AsksProof, AsksRefutation, StaysOn};
ghost use Rattle.explain_texts.specs.TextLanguage.Promised.Declarations.{Question};

use crate::checks::explain_checked;
use crate::conflicts::Pair;
use crate::overlaps::overlap;
use crate::places::check_at;
use crate::printed::Lack;
use crate::questions::{Questioned, explain_proved, explain_refuted};
use crate::spending::{Next, Spending, may_run_out, too_long};
use coherence::{Listener, TextFault};
use explain_faults::{FurtherFault, fault_diagnostic, further_faults};
use explain_texts::explain_diagnostics::{Diagnostic, SourceFile};
use explain_texts::explain_sessions::impl_header;
use explain_texts::sessions::{ProveAnswer, RefuteAnswer, Session, Verdict};
use explain_texts::text_tables::Workspace;
use explain_texts::type_terms::{CrateId, Fault, ImplId};
use explain_texts::{ItemLines, Texts, item_lines, orphan};
use std::alloc::{AllocError, Global};

/// Room for this many diagnostics, with none in it.
fn reserve(count: usize, found: &mut Vec<Option<Diagnostic>>) -> Result<(), AllocError> {
    for _line in 0..count {
        found.push(None)?;
    }
    Ok(())
}

/// Explains why a crate is refused. `None` if it is accepted.
fn explain_verdict(
    alloc: Global,
    texts: Texts<'_>,
    session: &mut Session<'_>,
    verdict: &Verdict,
    may_run_out: bool,
    spending: &mut Spending,
) -> Result<Option<Diagnostic>, Fault>
    requires { VerdictHeld session.old.terms verdict.now }
    ensures { StaysOn session.old session.new }
{
    match verdict {
        Verdict::Accepted => Ok(None),
        Verdict::Orphan(number, error) => {
            let told = orphan(alloc, texts, session, session.crate_id, *number, error)?;
            Ok(told)
        }
        Verdict::Overlap(later, earlier) => {
            let pair = Pair {
                later: *later,
                earlier: *earlier,
            };
            overlap(alloc, texts, session, pair, may_run_out, spending)
        }
    }
}

/// How many lines crates have: one for each but `core`.
fn crate_lines(workspace: &Workspace) -> usize {
    workspace.crates().len().saturating_sub(1)
}

/// The index of the line of the query at this index.
fn question_line(workspace: &Workspace, place: usize) -> usize {
    let checks = workspace.checks().len();
    crate_lines(workspace)
        .saturating_add(checks)
        .saturating_add(place)
}

/// The impls that the session's crate sees.
pub(crate) fn seen_impls(
    alloc: Global,
    workspace: &Workspace,
    session: &Session<'_>,
) -> Result<Vec<ImplId>, AllocError> {
    let mut seen = Vec::new(alloc);
    for entry in workspace.impls() {
        if impl_header(session, entry.id).is_some() {
            seen.push(entry.id)?;
        }
    }
    Ok(seen)
}

/// A text with its items, and the impls that a crate sees.
#[derive(Drop)]
struct Known<'f> {
    file: &'f SourceFile<'f>,
    items: ItemLines,
    seen: Vec<ImplId>,
    seen_by: Option<CrateId>,
}

impl Known<'_> {
    /// The text with what it declares.
    fn texts<'s>(&'s self, workspace: &'s Workspace) -> Texts<'s> {
        Texts {
            workspace,
            file: self.file,
            lines: &self.items,
        }
    }

    /// The query at this index.
    fn question<'s>(
        &'s self,
        workspace: &'s Workspace,
        session: &Session<'_>,
        place: usize,
        may_run_out: bool,
    ) -> Questioned<'s> {
        Questioned {
            texts: self.texts(workspace),
            place,
            depth: session.limits.depth,
            may_run_out,
            seen: &self.seen,
        }
    }

    /// Finds the impls that the session's crate sees, if they are not known.
    fn see(
        &mut self,
        alloc: Global,
        session: &Session<'_>,
        workspace: &Workspace,
    ) -> Result<(), AllocError> {
        let of_crate = session.crate_id;
        let is_seen = match self.seen_by {
            None => false,
            Some(id) => id.index == of_crate.index,
        };
        if !is_seen {
            self.seen = seen_impls(alloc, workspace, session)?;
            self.seen_by = Some(of_crate);
        }
        Ok(())
    }
}

/// Explains each answer of a text when it is given. An explanation counts from nothing, as the answer did. What its searches have counted is
/// forgotten, so that later answers are as without it. If memory is refused, or a table of a session is full, what was found stays, and no
/// more is explained.
#[derive(Drop)]
pub struct Explaining<'f> {
    alloc: Global,
    text: &'f [u8],
    known: Known<'f>,
    spending: Spending,
    /// How many frames the session had started after its last explanation.
    frames: u64,
    /// The explanation of each line of the output, by index: for each crate but `core`, then for each `later` and `supers` line, then for
    /// each query, in their order. A text with a fault has one line. A line without an explanation has `None`.
    pub lines: Vec<Option<Diagnostic>>,
    /// The faulty lines after the one that the output names.
    pub further: Vec<FurtherFault>,
    /// Why the explanations ended before the last line, if they did.
    pub lack: Option<Lack>,
}

impl<'f> Explaining<'f> {
    /// Nothing is explained yet. `file` is the same text with its name.
    pub fn new(
        alloc: Global,
        text: &'f [u8],
        file: &'f SourceFile<'f>,
    ) -> Result<Explaining<'f>, AllocError> {
        let known = Known {
            file,
            items: item_lines(alloc, file)?,
            seen: Vec::new(alloc),
            seen_by: None,
        };
        Ok(Explaining {
            alloc,
            text,
            known,
            spending: Spending::new(),
            frames: 0,
            lines: Vec::new(alloc),
            further: Vec::new(alloc),
            lack: None,
        })
    }

    /// Ends the explanations.
    pub fn end(&mut self, lack: Lack) {
        if self.lack.is_none() {
            self.lack = Some(lack);
        }
    }

    /// Makes room for all lines, the first time.
    fn begin(&mut self, workspace: &Workspace) -> Result<(), AllocError> {
        if self.lines.is_empty() {
            let count = question_line(workspace, workspace.questions().len());
            reserve(count, &mut self.lines)?;
        }
        Ok(())
    }

    /// Stores the diagnostic of a line.
    fn put(&mut self, session: &Session<'_>, line: usize, told: Result<Option<Diagnostic>, Fault>) {
        self.frames = session.frames();
        match told {
            Err(Fault::Memory) => self.end(Lack::Memory),
            Err(Fault::Full) => self.end(Lack::Full),
            Ok(told) => {
                if let Some(place) = self.lines.get_mut(line) {
                    *place = told;
                }
            }
        }
    }

    /// Explains the faulty lines of the text.
    fn explain_faults(&mut self, first: TextFault) -> Result<(), AllocError> {
        let file = self.known.file;
        let told = fault_diagnostic(self.alloc, self.text, file, first)?;
        self.lines.push(Some(told))?;
        further_faults(self.alloc, self.text, file, first, &mut self.further)
    }

    /// Finds what an explanation needs, and says what is to be done with the answer of a query. What it took counts if it is explained.
    fn next(&mut self, session: &Session<'_>, workspace: &Workspace) -> Result<Next, AllocError> {
        self.begin(workspace)?;
        self.known.see(self.alloc, session, workspace)?;
        let next = self.spending.next();
        if let Next::Explained = next {
            self.spending.add_answer(self.frames, session.frames());
        }
        Ok(next)
    }

    fn explain_judged(
        &mut self,
        session: &mut Session<'_>,
        workspace: &Workspace,
        verdict: &Verdict,
    ) -> Result<Option<Diagnostic>, Fault>
        requires { VerdictHeld session.old.terms verdict.now }
        ensures { StaysOn session.old session.new }
    {
        self.begin(workspace)?;
        let texts = self.known.texts(workspace);
        let ran_out = may_run_out(0, session.frames());
        let spending = &mut self.spending;
        explain_verdict(self.alloc, texts, session, verdict, ran_out, spending)
    }

    fn explain_check(
        &mut self,
        session: &mut Session<'_>,
        workspace: &Workspace,
        place: usize,
    ) -> Result<Option<Diagnostic>, Fault>
        requires on { session.old.declarations ≡ workspace.now }
        requires checked { IsCheckedIn workspace.now session.old.of_crate place }
        ensures { StaysOn session.old session.new }
    {
        self.begin(workspace)?;
        self.known.see(self.alloc, session, workspace)?;
        let check = check_at(workspace, place);
        let ran_out = may_run_out(0, session.frames());
        let known = self.known.question(workspace, session, place, ran_out);
        explain_checked(self.alloc, known.texts, session, check, ran_out, known.seen)
    }

    fn explain_proved(
        &mut self,
        session: &mut Session<'_>,
        workspace: &Workspace,
        number: u32,
        answer: &ProveAnswer,
    ) -> Result<Option<Diagnostic>, Fault>
        requires asked { (q : Question) × AsksProof session.old.declarations session.old.of_crate number q }
        requires held { AnswerValuesHeld session.old.terms answer.now }
        ensures { StaysOn session.old session.new }
    {
        match self.next(session, workspace)? {
            Next::Silent => Ok(None),
            Next::Told => Ok(Some(too_long(self.alloc)?)),
            Next::Explained => {
                let place = (number as usize).saturating_sub(1);
                let ran_out = may_run_out(self.frames, session.frames());
                let question = self.known.question(workspace, session, place, ran_out);
                explain_proved(
                    self.alloc,
                    question,
                    session,
                    number,
                    answer,
                    &mut self.spending,
                )
            }
        }
    }

    fn explain_refuted(
        &mut self,
        session: &mut Session<'_>,
        workspace: &Workspace,
        number: u32,
        answer: RefuteAnswer,
    ) -> Result<Option<Diagnostic>, Fault>
        requires { (q : Question) × AsksRefutation session.old.declarations session.old.of_crate number q }
        ensures { StaysOn session.old session.new }
    {
        match self.next(session, workspace)? {
            Next::Silent => Ok(None),
            Next::Told => Ok(Some(too_long(self.alloc)?)),
            Next::Explained => {
                let place = (number as usize).saturating_sub(1);
                let ran_out = may_run_out(self.frames, session.frames());
                let question = self.known.question(workspace, session, place, ran_out);
                explain_refuted(
                    self.alloc,
                    question,
                    session,
                    number,
                    answer,
                    &mut self.spending,
                )
            }
        }
    }
}

impl Listener for Explaining<'_> {
    fn faulty(&mut self, fault: TextFault) {
        if self.explain_faults(fault).is_err() {
            self.end(Lack::Memory);
        }
    }

    fn judged(&mut self, session: &mut Session<'_>, workspace: &Workspace, verdict: &Verdict) {
        if self.lack.is_none() {
            // (An explanation counts from nothing, as its answer did.)
            session.begin_count();
            let told = self.explain_judged(session, workspace, verdict);
            let line = (session.crate_id.index as usize).saturating_sub(1);
            self.put(session, line, told);
        }
    }

    fn checked(&mut self, session: &mut Session<'_>, workspace: &Workspace, place: usize) {
        if self.lack.is_none() {
            session.begin_count();
            let told = self.explain_check(session, workspace, place);
            let line = crate_lines(workspace).saturating_add(place);
            self.put(session, line, told);
        }
    }

    fn proved(
        &mut self,
        session: &mut Session<'_>,
        workspace: &Workspace,
        number: u32,
        answer: &ProveAnswer,
    ) {
        if self.lack.is_none() {
            session.begin_count();
            let told = self.explain_proved(session, workspace, number, answer);
            let line = question_line(workspace, (number as usize).saturating_sub(1));
            self.put(session, line, told);
        }
    }

    fn refuted(
        &mut self,
        session: &mut Session<'_>,
        workspace: &Workspace,
        number: u32,
        answer: RefuteAnswer,
    ) {
        if self.lack.is_none() {
            session.begin_count();
            let told = self.explain_refuted(session, workspace, number, answer);
            let line = question_line(workspace, (number as usize).saturating_sub(1));
            self.put(session, line, told);
        }
    }
}
