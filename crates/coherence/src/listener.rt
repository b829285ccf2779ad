//! Who hears of the answers of a text while its lines are made.

ghost use Rattle.std.specs.Prelude.{◌≡◌};
ghost use Rattle.sessions.specs.TextLanguage.Promised.Declarations.{Question};
ghost use Rattle.sessions.specs.Promised.Given.{AnswerValuesHeld, VerdictHeld, answer_in, refutation_of, verdict_in};
ghost use Rattle.sessions.specs.Promised.Promises.{IsProved, IsRefutation, IsVerdictOf};
ghost use Rattle.sessions.specs.Promised.Subjects.{AsksProof, AsksRefutation, StaysOn};
ghost use Rattle.coherence.specs.Groups.{IsCheckedIn};

use sessions::text_tables::Workspace;
use sessions::{ProveAnswer, RefuteAnswer, Session, Verdict};
use text_parser::TextFault;

/// Hears of each answer of a text when its line is made. The answers are right, like the lines. A method that is left out does nothing.
///
/// It gets the session that answered, and may let it evaluate more. Later answers are right all the same, but a table of the session may be
/// full sooner.
pub trait Listener {
    /// The text has this fault.
    fn faulty(&mut self, fault: TextFault) {}

    /// The crate of the session was judged. This comes before its checks and queries. `core` is not judged.
    fn judged(&mut self, session: &mut Session<'_>, workspace: &Workspace, verdict: &Verdict)
        requires on { session.old.declarations ≡ workspace.now }
        requires held { VerdictHeld session.old.terms verdict.now }
        requires verdict { let s = session.old in IsVerdictOf s.depth s.declarations s.of_crate (verdict_in s.terms verdict.now) }
        ensures { StaysOn session.old session.new }
    {}

    /// The check at this index of the text was made.
    fn checked(&mut self, session: &mut Session<'_>, workspace: &Workspace, place: usize)
        requires on { session.old.declarations ≡ workspace.now }
        requires checked { IsCheckedIn workspace.now session.old.of_crate place }
        ensures { StaysOn session.old session.new }
    {}

    /// The `prove` query with this number, from 1, was answered.
    fn proved(
        &mut self,
        session: &mut Session<'_>,
        workspace: &Workspace,
        number: u32,
        answer: &ProveAnswer,
    )
        requires on { session.old.declarations ≡ workspace.now }
        requires asked { (q : Question) × AsksProof session.old.declarations session.old.of_crate number q }
        requires held { AnswerValuesHeld session.old.terms answer.now }
        requires answer { (q : Question) → AsksProof session.old.declarations session.old.of_crate number q
            → IsProved session.old.depth session.old.declarations q (answer_in session.old.terms answer.now) }
        ensures { StaysOn session.old session.new }
    {}

    /// The `refute` query with this number, from 1, was answered.
    fn refuted(
        &mut self,
        session: &mut Session<'_>,
        workspace: &Workspace,
        number: u32,
        answer: RefuteAnswer,
    )
        requires on { session.old.declarations ≡ workspace.now }
        requires asked { (q : Question) × AsksRefutation session.old.declarations session.old.of_crate number q }
        requires answer { (q : Question) → AsksRefutation session.old.declarations session.old.of_crate number q
            → IsRefutation session.old.depth session.old.declarations q (refutation_of answer) }
        ensures { StaysOn session.old session.new }
    {}
}

/// Nobody: the lines alone are wanted.
#[derive(Clone, Copy)]
pub struct Nobody {}

impl Listener for Nobody {}
