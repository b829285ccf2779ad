//! Explanations of queries.

ghost use Rattle.std.specs.Prelude.{◌≡◌, ℕ, IfOk};
ghost use Rattle.celtisdarts.specs.Told.{ShowsProofOf};
ghost use Rattle.explain_texts.specs.ExplainSessions.Claims.{ClaimsHold};
ghost use Rattle.explain_texts.specs.ExplainSessions.Walked.{ProofWalkHeld, WalkHeld};
ghost use Rattle.explain_texts.specs.Sessions.Promised.Given.{AnswerValuesHeld};
ghost use Rattle.explain_texts.specs.Sessions.Promised.Subjects.{AsksProof, AsksRefutation, StaysOn};
ghost use Rattle.explain_texts.specs.TextLanguage.Promised.Declarations.{Question};
ghost use Rattle.explain_texts.specs.TypeTerms.Promised.Handles.{ArgsHeld};

use crate::proofs::{ToldProof, begin_proofs, proved, rows_of_each, tell_proof, tell_rest};
use crate::spending::Spending;
use explain_texts::explain_diagnostics::{Diagnostic, Span};
use explain_texts::explain_sessions::{
    BoundWalk, Claims, ProofWalk, explain_proof, explain_question, explain_refutation, no_claims,
    question_claims, refutation_claims,
};
use explain_texts::messages::{Telling, plain};
use explain_texts::sessions::{ProveAnswer, RefuteAnswer, Session};
use explain_texts::text_printer::ShownNames;
use explain_texts::text_tables::Param;
use explain_texts::type_terms::kinds::GenericArgKind;
use explain_texts::type_terms::{Fault, ImplId};
use explain_texts::{Asking, Texts, left_open, refuted, tell, unproved, unsettled};
use std::alloc::{AllocError, Global};

/// A query of a text, by its index there.
#[derive(Clone, Copy)]
pub(crate) struct Questioned<'s> {
    pub texts: Texts<'s>,
    pub place: usize,
    pub depth: u32,
    /// Whether its search may have evaluated as many nested goals as it may.
    pub may_run_out: bool,
    /// The impls that its crate sees.
    pub seen: &'s [ImplId],
}

/// How a query is answered, if not with a proof.
#[derive(Clone, Copy)]
enum NotProved {
    Unproved,
    Maybe,
    Refuted,
    Open,
}

impl<'s> Questioned<'s> {
    /// The parameters of the query.
    fn params(self) -> &'s [Param] {
        match self.texts.workspace.question_entries().get(self.place) {
            Some(entry) => &entry.params,
            None => &[],
        }
    }

    /// The variables of the query.
    fn variables(self) -> &'s [Param] {
        match self.texts.workspace.question_entries().get(self.place) {
            Some(entry) => &entry.variables,
            None => &[],
        }
    }

    /// The names of its parameters and variables.
    fn names(self) -> ShownNames<'s> {
        ShownNames {
            workspace: self.texts.workspace,
            params: self.params(),
            variables: self.variables(),
        }
    }

    /// How many bounds it has.
    fn bound_count(self) -> usize {
        match self.texts.workspace.question_entries().get(self.place) {
            Some(entry) => entry.further.len().saturating_add(1),
            None => 1,
        }
    }

    /// The span of its bound with this number, counted from 0.
    fn span(self, number: usize) -> Span {
        let none = Span {
            line: 0,
            start: 0,
            end: 0,
        };
        match self.texts.lines.questions.get(self.place) {
            Some(found) => found.bound(number).unwrap_or(none),
            None => none,
        }
    }

    /// Whether a bound is the first that stands where it does: one that binds several types stands for several.
    fn begins_at(self, number: usize) -> bool {
        match number.checked_sub(1) {
            Some(before) => self.span(before).start != self.span(number).start,
            None => true,
        }
    }

    /// What requires the goal of a bound: this query.
    fn asking(self, found: &BoundWalk) -> Asking<'s> {
        Asking {
            span: self.span(found.number),
            depth: self.depth,
            may_run_out: self.may_run_out,
            seen: self.seen,
            supertrait: None,
            is_narrowed: found.is_narrowed,
            is_exhausted: found.is_exhausted,
        }
    }
}

/// An answer `yes`: to the query with this number, counted from 1, with these values.
#[derive(Clone, Copy)]
struct YesAnswer<'v> {
    number: u32,
    values: &'v [GenericArgKind],
}

/// The proof of the bound with this number, counted from 0, of a query that was proved.
fn find_proof(
    session: &mut Session<'_>,
    yes: YesAnswer<'_>,
    bound: usize,
    spending: &mut Spending,
) -> Result<ProofWalk, Fault>
    requires asked { (q : Question) × AsksProof session.old.declarations session.old.of_crate yes.number q }
    requires values { ArgsHeld session.old.terms yes.values.now }
    ensures walked { IfOk result (ProofWalkHeld session.new.terms) }
    ensures proof { IfOk result (ShowsProofOf session.new yes.entry.number bound) }
    ensures stays { StaysOn session.old session.new }
{
    let before = session.frames();
    let proof = explain_proof(session, yes.number, bound, yes.values)?;
    spending.add_explanation(before, session.frames(), proof.walk.nodes.len());
    Ok(proof)
}

/// Renders the proof of a bound of a query. The caller must prove that the steps are a proof, if they are displayed as checked.
fn speak_proof<'w>(
    alloc: Global,
    question: Questioned<'w>,
    session: &Session<'_>,
    proof: &'w ProofWalk,
    claims: &'w Claims,
) -> Result<ToldProof<'w>, AllocError>
    requires walked { ProofWalkHeld session.now.terms proof.now }
    requires proof { (n m : ℕ) × ShowsProofOf session.now n m proof.now }
    requires claims { ClaimsHold session.now proof.now.walk claims.now }
{
    let names = question.names();
    tell_proof(alloc, question.texts, session, &names, proof, claims)
}

/// Explains the answer `yes` of a query with one bound.
fn explain_one(
    alloc: Global,
    question: Questioned<'_>,
    session: &mut Session<'_>,
    yes: YesAnswer<'_>,
    spending: &mut Spending,
) -> Result<Diagnostic, Fault>
    requires asked { (q : Question) × AsksProof session.old.declarations session.old.of_crate yes.number q }
    requires values { ArgsHeld session.old.terms yes.values.now }
    ensures { StaysOn session.old session.new }
{
    let proof = find_proof(session, yes, 0, spending)?;
    let claims = no_claims(alloc);
    let told = speak_proof(alloc, question, session, &proof, &claims)?;
    Ok(proved(alloc, &told, question.span(0))?)
}

/// Adds the proof of the bound with this number, counted from 0. Returns whether no row is left out.
fn explain_bound(
    question: Questioned<'_>,
    session: &mut Session<'_>,
    yes: YesAnswer<'_>,
    bound: usize,
    telling: &mut Telling,
    spending: &mut Spending,
) -> Result<bool, Fault>
    requires asked { (q : Question) × AsksProof session.old.declarations session.old.of_crate yes.number q }
    requires values { ArgsHeld session.old.terms yes.values.now }
    ensures { StaysOn session.old session.new }
{
    let proof = find_proof(session, yes, bound, spending)?;
    let claims = no_claims(telling.alloc());
    let told = speak_proof(telling.alloc(), question, session, &proof, &claims)?;
    if question.begins_at(bound) {
        telling.mark(question.span(bound), plain(""));
    }
    Ok(told.tell_all(rows_of_each(question.bound_count()), telling))
}

/// Explains the answer `yes` of a query with several bounds: the proof of each, as long as explanations may go on.
fn explain_each(
    alloc: Global,
    question: Questioned<'_>,
    session: &mut Session<'_>,
    yes: YesAnswer<'_>,
    spending: &mut Spending,
) -> Result<Diagnostic, Fault>
    requires asked { (q : Question) × AsksProof session.old.declarations session.old.of_crate yes.number q }
    requires values { ArgsHeld session.old.terms yes.values.now }
    ensures { StaysOn session.old session.new }
{
    let count = question.bound_count();
    let mut telling = begin_proofs(alloc, count);
    let mut is_whole = true;
    for bound in 0..count {
        if bound > 0 && spending.is_over() {
            is_whole = false;
            break;
        }
        let is_all = explain_bound(question, session, yes, bound, &mut telling, spending)?;
        is_whole = is_whole && is_all;
    }
    if !is_whole {
        tell_rest(&mut telling);
    }
    Ok(telling.finish()?)
}

/// Explains the answer `yes`.
fn explain_yes(
    alloc: Global,
    question: Questioned<'_>,
    session: &mut Session<'_>,
    yes: YesAnswer<'_>,
    spending: &mut Spending,
) -> Result<Diagnostic, Fault>
    requires asked { (q : Question) × AsksProof session.old.declarations session.old.of_crate yes.number q }
    requires values { ArgsHeld session.old.terms yes.values.now }
    ensures { StaysOn session.old session.new }
{
    if question.bound_count() == 1 {
        explain_one(alloc, question, session, yes, spending)
    } else {
        explain_each(alloc, question, session, yes, spending)
    }
}

/// The diagnostic for a query that was not proved.
fn tell_not_proved(
    alloc: Global,
    question: Questioned<'_>,
    session: &Session<'_>,
    found: &BoundWalk,
    claims: &Claims,
    answer: NotProved,
) -> Result<Diagnostic, AllocError>
    requires walked { WalkHeld session.now.terms found.now.walk }
    requires claims { ClaimsHold session.now found.now.walk claims.now }
{
    let names = question.names();
    let story = tell(alloc, question.texts, session, &names, &found.walk, claims)?;
    let asking = question.asking(found);
    match answer {
        NotProved::Unproved => unproved(alloc, &story, asking),
        NotProved::Maybe => unsettled(alloc, &story, asking),
        NotProved::Refuted => refuted(alloc, &story, asking),
        NotProved::Open => left_open(alloc, &story, asking),
    }
}

/// Explains why a query is not proved.
fn explain_not_proved(
    alloc: Global,
    question: Questioned<'_>,
    session: &mut Session<'_>,
    number: u32,
    answer: NotProved,
    spending: &mut Spending,
) -> Result<Diagnostic, Fault>
    requires { (q : Question) × AsksProof session.old.declarations session.old.of_crate number q }
    ensures { StaysOn session.old session.new }
{
    let before = session.frames();
    let found = explain_question(session, number)?;
    let claims = question_claims(session, &found.walk)?;
    spending.add_explanation(before, session.frames(), found.walk.nodes.len());
    Ok(tell_not_proved(alloc, question, session, &found, &claims, answer)?)
}

/// Explains the answer of a `prove` query of the session's crate. Queries count from 1. The session stays as it was, after a fault too.
pub(crate) fn explain_proved(
    alloc: Global,
    question: Questioned<'_>,
    session: &mut Session<'_>,
    number: u32,
    answer: &ProveAnswer,
    spending: &mut Spending,
) -> Result<Option<Diagnostic>, Fault>
    requires asked { (q : Question) × AsksProof session.old.declarations session.old.of_crate number q }
    requires held { AnswerValuesHeld session.old.terms answer.now }
    ensures { StaysOn session.old session.new }
{
    let told = match answer {
        ProveAnswer::Yes(values) => {
            let yes = YesAnswer { number, values };
            explain_yes(alloc, question, session, yes, spending)?
        }
        ProveAnswer::Maybe(_) => {
            explain_not_proved(alloc, question, session, number, NotProved::Maybe, spending)?
        }
        ProveAnswer::Unproved => {
            explain_not_proved(
                alloc,
                question,
                session,
                number,
                NotProved::Unproved,
                spending,
            )?
        }
    };
    Ok(Some(told))
}

/// Explains the answer of a `refute` query of the session's crate. Queries count from 1. The session stays as it was, after a fault too.
pub(crate) fn explain_refuted(
    alloc: Global,
    question: Questioned<'_>,
    session: &mut Session<'_>,
    number: u32,
    answer: RefuteAnswer,
    spending: &mut Spending,
) -> Result<Option<Diagnostic>, Fault>
    requires { (q : Question) × AsksRefutation session.old.declarations session.old.of_crate number q }
    ensures { StaysOn session.old session.new }
{
    let before = session.frames();
    let found = explain_refutation(session, number)?;
    let claims = refutation_claims(session, &found.walk)?;
    spending.add_explanation(before, session.frames(), found.walk.nodes.len());
    let answer = match answer {
        RefuteAnswer::No => NotProved::Refuted,
        RefuteAnswer::Open => NotProved::Open,
    };
    let told = tell_not_proved(alloc, question, session, &found, &claims, answer)?;
    Ok(Some(told))
}
