//! The text for a query that was answered `yes`: the proofs of its bounds, as trees of the checked steps.

ghost use Rattle.std.specs.Prelude.{◌≡◌, ℕ, true, IfSome};
ghost use Rattle.celtisdarts.specs.Told.{ShowsProofOf};
ghost use Rattle.explain_texts.specs.ExplainSessions.Claims.{ClaimsHold};
ghost use Rattle.explain_texts.specs.ExplainSessions.Walked.{AllStepsHeld, ProofWalkHeld};

use explain_texts::explain_diagnostics::{Diagnostic, Level, Span};
use explain_texts::explain_sessions::goal_evaluator::CandidateSource;
use explain_texts::explain_sessions::{Claims, ProofWalk, Step, Way};
use explain_texts::messages::{Piece, Sentence, Telling, plain, with_one};
use explain_texts::sessions::Session;
use explain_texts::text_printer::ShownNames;
use explain_texts::type_terms::ImplId;
use explain_texts::type_terms::interner::Interner;
use explain_texts::{Spoken, Story, Texts, impl_piece, source_piece, speak, tell};
use std::alloc::{AllocError, Global};

/// How many rows the proofs of a query have at most, together.
const ROW_LIMIT: usize = 128;

/// The reason for a goal that holds, if no more of its proof is displayed.
const NOT_SHOWN: &str = "holds; its proof is not shown";

/// A proof with the trait references of its steps rendered.
pub(crate) struct ToldProof<'w> {
    proof: &'w ProofWalk,
    story: Story<'w>,
    /// One for each step.
    goals: Vec<Spoken>,
}

// Hand-written so that the prover sees one drop call: docs/PROVING.md#drop.
impl Drop for ToldProof<'_> {
    fn drop(self) {
        let ToldProof {
            proof: _,
            story: _,
            goals: _,
        } = self;
    }
}

/// The trait references of steps, rendered.
fn speak_steps(
    alloc: Global,
    cx: &Interner,
    names: &ShownNames<'_>,
    steps: &[Step],
) -> Result<Vec<Spoken>, AllocError>
    requires { AllStepsHeld cx.now.entries steps.now }
{
    let mut spoken = Vec::new(alloc);
    for step in steps {
        let next = speak(alloc, cx, names, step.reference)?;
        spoken.push(next)?;
    }
    Ok(spoken)
}

/// Renders a proof that a session found, with what is claimed of its trace. The caller must prove that the steps are a proof, if they are
/// displayed as checked.
pub(crate) fn tell_proof<'w>(
    alloc: Global,
    texts: Texts<'w>,
    session: &Session<'_>,
    names: &ShownNames<'_>,
    proof: &'w ProofWalk,
    claims: &'w Claims,
) -> Result<ToldProof<'w>, AllocError>
    requires walked { ProofWalkHeld session.now.terms proof.now }
    requires proof { (n m : ℕ) × ShowsProofOf session.now n m proof.now }
    requires claims { ClaimsHold session.now proof.now.walk claims.now }
{
    let goals = speak_steps(alloc, session.interner(), names, &proof.steps)?;
    let story = tell(alloc, texts, session, names, &proof.walk, claims)?;
    Ok(ToldProof {
        proof,
        story,
        goals,
    })
}

/// A step that is to be displayed.
#[derive(Clone, Copy)]
struct Row {
    step: usize,
    depth: usize,
    /// Whether it is a goal above, which is assumed here.
    is_assumed: bool,
}

/// How far a proof is displayed.
#[derive(Drop)]
struct Course {
    /// The steps that were displayed.
    shown: Vec<usize>,
    /// The steps that are to be displayed, the next one last.
    left: Vec<Row>,
}

/// Why a step holds.
#[derive(Clone, Copy)]
enum Reason {
    /// No more of it is displayed.
    NotShown,
    /// It is a goal above.
    Assumed,
    ShownAbove,
    Clause,
    Supertrait,
    BuiltIn,
    Impl(ImplId),
    /// The rule by which the search has it, of the goal at this index of the trace. The checker assumes it.
    Searched(usize),
}

impl Reason {
    /// Whether the premises of the step follow.
    fn goes_on(self) -> bool {
        matches!(
            self,
            Reason::BuiltIn | Reason::Impl(_) | Reason::Searched(_)
        )
    }
}

impl ToldProof<'_> {
    /// The trait reference of a step, for a sentence.
    fn goal(&self, step: usize) -> Piece<'_> {
        match self.goals.get(step) {
            Some(spoken) => spoken.reference_piece(),
            None => Piece::Text(""),
        }
    }

    /// Why a step holds that the checker assumes: a rule of the search, or it is not displayed.
    fn assumed_by(&self, step: usize) -> Reason {
        match self.proof.shown.get(step) {
            Some(shown) if !self.story.candidates(shown.place).is_empty() => {
                Reason::Searched(shown.place)
            }
            _ => Reason::NotShown,
        }
    }

    /// Why a step holds.
    fn reason_by(&self, step: usize) -> Reason {
        let Some(entry) = self.proof.steps.get(step) else {
            return Reason::NotShown;
        };
        match entry.way {
            Way::Impl(source) => Reason::Impl(source.impl_def_id),
            Way::BuiltIn => Reason::BuiltIn,
            Way::Clause(_) => Reason::Clause,
            Way::Supertrait(_) => Reason::Supertrait,
            Way::Assumed => self.assumed_by(step),
        }
    }

    /// Why a step holds, and whether its premises are displayed here.
    fn reason_of(&self, row: Row, course: &Course) -> Reason {
        if row.is_assumed {
            Reason::Assumed
        } else if course.shown.contains(&row.step) {
            Reason::ShownAbove
        } else {
            self.reason_by(row.step)
        }
    }

    /// The sentence for a rule by which the search has a goal.
    fn searched_said(&self, place: usize) -> Sentence<'_> {
        match self.story.candidates(place).first() {
            Some(candidate) => with_one(
                "{}, not checked",
                source_piece(self.story.texts, candidate.source),
            ),
            None => plain(NOT_SHOWN),
        }
    }

    /// The sentence for a reason.
    fn reason_said(&self, reason: Reason) -> Sentence<'_> {
        match reason {
            Reason::Impl(id) => with_one("{}", impl_piece(self.story.texts, id)),
            Reason::Searched(place) => self.searched_said(place),
            Reason::NotShown => plain(NOT_SHOWN),
            Reason::Assumed => plain("assumed: it is the goal above, and its trait is coinductive"),
            Reason::ShownAbove => plain("shown above"),
            Reason::Clause => plain("where-clause"),
            Reason::Supertrait => plain("supertrait of a where-clause"),
            Reason::BuiltIn => plain("built-in rule"),
        }
    }

    /// Notes that the premises of a step are to be displayed, the first one next.
    fn push_premises(&self, row: Row, left: &mut Vec<Row>) -> Result<(), AllocError> {
        let Some(shown) = self.proof.shown.get(row.step) else {
            return Ok(());
        };
        for premise in shown.premises.iter().rev() {
            left.push(Row {
                step: *premise,
                depth: row.depth.saturating_add(1),
                is_assumed: *premise >= row.step,
            })?;
        }
        Ok(())
    }

    /// Adds the row of a step, and notes what is to be displayed below it.
    fn tell_row(
        &self,
        row: Row,
        course: &mut Course,
        telling: &mut Telling,
    ) -> Result<(), AllocError> {
        let reason = self.reason_of(row, course);
        telling.row(row.depth, self.goal(row.step), self.reason_said(reason));
        course.shown.push(row.step)?;
        if reason.goes_on() {
            self.push_premises(row, &mut course.left)?;
        }
        Ok(())
    }

    /// Adds the rows of the proof, so many at most. Returns whether these are all.
    fn tell_rows(
        &self,
        last: usize,
        limit: usize,
        telling: &mut Telling,
    ) -> Result<bool, AllocError>
        requires { self.now.proof.now.is_checked ≡ true }
    {
        let mut course = Course {
            shown: Vec::new(telling.alloc()),
            left: Vec::new(telling.alloc()),
        };
        course.left.push(Row {
            step: last,
            depth: 0,
            is_assumed: false,
        })?;
        for _row in 0..limit {
            if let Some(row) = course.left.pop() {
                self.tell_row(row, &mut course, telling)?;
            }
        }
        Ok(course.left.is_empty())
    }

    /// Whether a step is assumed that is no built-in rule's: the checker has rules for all impls and where-clauses.
    fn is_doubtful(&self, step: usize) -> bool {
        let Reason::Searched(place) = self.reason_by(step) else {
            return false;
        };
        match self.story.candidates(place).first() {
            Some(candidate) => !matches!(candidate.source, CandidateSource::BuiltinImpl(_)),
            None => false,
        }
    }

    /// Whether the proof was checked, and only built-in rules are assumed in it.
    fn is_own(&self) -> bool
        ensures { result ≡ true → self.now.proof.now.is_checked ≡ true }
    {
        for step in 0..self.proof.steps.len() {
            if self.is_doubtful(step) {
                return false;
            }
        }
        self.proof.is_checked
    }

    /// The last step of the proof, if the proof was checked.
    fn last_step(&self) -> Option<usize>
        ensures { IfSome result (λ _. self.now.proof.now.is_checked ≡ true) }
    {
        if self.is_own() {
            self.proof.steps.len().checked_sub(1)
        } else {
            None
        }
    }

    /// Adds the proof, so many rows at most, or that it is not displayed. Returns whether no row is left out.
    pub(crate) fn tell_all(&self, limit: usize, telling: &mut Telling) -> bool {
        match self.last_step() {
            Some(last) => {
                let told = self.tell_rows(last, limit, telling);
                telling.granted(told).unwrap_or(true)
            }
            None => {
                telling.row(0, self.story.reference(0), plain(NOT_SHOWN));
                true
            }
        }
    }
}

/// Adds that rows of proofs are left out.
pub(crate) fn tell_rest(telling: &mut Telling) {
    telling.note(plain("the rest of the proof is not shown"));
}

/// The diagnostic for a query with one bound that was answered `yes`, at this span.
pub(crate) fn proved(
    alloc: Global,
    proof: &ToldProof<'_>,
    span: Span,
) -> Result<Diagnostic, AllocError> {
    let message = with_one("`{}` holds", proof.story.reference(0));
    let mut telling = Telling::begin(alloc, Level::Note, None, message);
    telling.mark(span, plain(""));
    if !proof.tell_all(ROW_LIMIT, &mut telling) {
        tell_rest(&mut telling);
    }
    telling.finish()
}

/// Begins the diagnostic for a query with so many bounds that was answered `yes`.
pub(crate) fn begin_proofs(alloc: Global, count: usize) -> Telling {
    let message = with_one("the {} bounds hold together", Piece::Number(count));
    Telling::begin(alloc, Level::Note, None, message)
}

/// How many rows the proof of each of so many bounds has at most.
pub(crate) fn rows_of_each(count: usize) -> usize {
    ROW_LIMIT / count.max(1)
}
