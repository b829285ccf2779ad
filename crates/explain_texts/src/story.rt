//! A trace with its trait references rendered.

ghost use Rattle.std.specs.Prelude.{◌≡◌};
ghost use Rattle.explain_sessions.specs.ExplainTraces.Walking.{ReferencesHeld};
ghost use Rattle.explain_sessions.specs.Claims.{ClaimsHold};
ghost use Rattle.explain_sessions.specs.Walked.{WalkHeld};
ghost use Rattle.explain_texts.specs.Claimed.{claimed_adder, claimed_unseen, claims_chance, claims_held, claims_of, claims_refused, claims_rule};
ghost use Rattle.explain_texts.specs.Claimed.{shown_place, goal_standing};

use crate::items::Texts;
use crate::spoken::{Spoken, SubjectKind, speak};
use explain_sessions::explain_traces::{Answer, CandidateNode, GoalWalk, Standing};
use explain_sessions::orphan_check::errors::Conflict;
use explain_sessions::sessions::Session;
use explain_sessions::term_folds::predicate::TraitRef;
use explain_sessions::type_terms::interner::Interner;
use explain_sessions::{Adder, Claims};
use messages::{NONE, Piece};
use std::alloc::{AllocError, Global};
use text_printer::ShownNames;

/// A trace of a text's goal, with its trait references rendered, and what is claimed of it. Goals are named by their indices.
pub struct Story<'w> {
    pub texts: Texts<'w>,
    spoken: Vec<Spoken>,
    walk: &'w GoalWalk,
    claims: &'w Claims,
}

// Hand-written so that the prover sees one drop call: docs/PROVING.md#drop.
impl Drop for Story<'_> {
    fn drop(self) {
        let Story {
            texts: _,
            spoken: _,
            walk: _,
            claims: _,
        } = self;
    }
}

/// Renders all trait references.
fn speak_all(
    alloc: Global,
    cx: &Interner,
    names: &ShownNames<'_>,
    references: &[TraitRef],
) -> Result<Vec<Spoken>, AllocError>
    requires { ReferencesHeld cx.now.entries references.now }
{
    let mut spoken = Vec::new(alloc);
    for reference in references {
        let next = speak(alloc, cx, names, *reference)?;
        spoken.push(next)?;
    }
    Ok(spoken)
}

/// Renders a trace of a session, with what is claimed of it. The caller must prove the claims, so what the crate's view does not make true
/// cannot be stated as checked.
pub fn tell<'w>(
    alloc: Global,
    texts: Texts<'w>,
    session: &Session<'_>,
    names: &ShownNames<'_>,
    walk: &'w GoalWalk,
    claims: &'w Claims,
) -> Result<Story<'w>, AllocError>
    requires walked { WalkHeld session.now.terms walk.now }
    requires claims { ClaimsHold session.now walk.now claims.now }
{
    let spoken = speak_all(alloc, session.interner(), names, &walk.references)?;
    Ok(Story {
        texts,
        spoken,
        walk,
        claims,
    })
}

impl Story<'_> {
    /// How many goals there are.
    pub(crate) fn len(&self) -> usize {
        self.walk.nodes.len()
    }

    /// The rendered trait reference of a goal.
    pub(crate) fn spoken(&self, place: usize) -> Option<&Spoken> {
        self.spoken.get(place)
    }

    /// The trait reference of a goal, for a sentence.
    pub fn reference(&self, place: usize) -> Piece<'_> {
        match self.spoken(place) {
            Some(spoken) => spoken.reference_piece(),
            None => NONE,
        }
    }

    /// The self type of a goal, for a sentence.
    pub(crate) fn subject(&self, place: usize) -> Piece<'_> {
        match self.spoken(place) {
            Some(spoken) => spoken.subject_piece(),
            None => NONE,
        }
    }

    /// The bound of a goal, for a sentence.
    pub(crate) fn bound(&self, place: usize) -> Piece<'_> {
        match self.spoken(place) {
            Some(spoken) => spoken.bound_piece(),
            None => NONE,
        }
    }

    /// What the self type of a goal is.
    pub(crate) fn kind(&self, place: usize) -> SubjectKind {
        match self.spoken(place) {
            Some(spoken) => spoken.kind,
            None => SubjectKind::Other,
        }
    }

    /// The first argument of a goal that is a variable. Empty if there is none.
    pub(crate) fn unknown(&self, place: usize) -> &str {
        match self.spoken(place) {
            Some(spoken) => spoken.unknown.as_str(),
            None => "",
        }
    }

    /// How a goal is answered.
    pub(crate) fn answer(&self, place: usize) -> Answer {
        match self.walk.node(place) {
            Some(node) => node.answer,
            None => Answer::Nothing,
        }
    }

    /// Whether a goal is refused.
    pub(crate) fn is_refused(&self, place: usize) -> bool {
        self.answer(place) == Answer::Refused
    }

    /// Whether a goal is ambiguous.
    pub(crate) fn is_unsure(&self, place: usize) -> bool {
        matches!(self.answer(place), Answer::Maybe(_))
    }

    /// Whether the candidates of a goal are displayed, and where.
    pub(crate) fn standing(&self, place: usize) -> Standing
        ensures { result ≡ goal_standing self.now place }
    {
        match self.walk.nodes.get(place) {
            Some(node) => node.standing,
            None => Standing::Cut,
        }
    }

    /// Whether a goal is a nested goal of itself.
    pub(crate) fn is_cycle(&self, place: usize) -> bool {
        matches!(self.standing(place), Standing::Cycle(_))
    }

    /// Whether a goal that met a limit met that of the depth: it is as deep as goals are looked at, the walk ended there though it took no
    /// more than it may, or each of its nested goals, asked alone, has an answer that settles it.
    pub(crate) fn is_cut(&self, place: usize) -> bool {
        match self.standing(place) {
            Standing::Cut => true,
            Standing::Unwalked => !self.walk.is_spent(),
            Standing::Opened | Standing::Same(_) | Standing::Cycle(_) => {
                self.candidates(place).is_empty()
            }
        }
    }

    /// Whether the walk took what it may before the candidates of a goal.
    pub(crate) fn is_left_out(&self, place: usize) -> bool {
        self.standing(place) == Standing::Unwalked && self.walk.is_spent()
    }

    /// Whether all candidates of a goal were looked at.
    pub(crate) fn is_whole(&self, place: usize) -> bool {
        match self.walk.node(self.shown_at(place)) {
            Some(node) => node.is_whole,
            None => false,
        }
    }

    /// The index that has the candidates of a goal. It is another one if the same goal is displayed already.
    pub(crate) fn shown_at(&self, place: usize) -> usize
        ensures { result ≡ shown_place self.now place }
    {
        match self.standing(place) {
            Standing::Same(earlier) => earlier,
            _ => place,
        }
    }

    /// The candidates of a goal that explain its answer.
    pub fn candidates(&self, place: usize) -> &[CandidateNode] {
        match self.walk.node(self.shown_at(place)) {
            Some(node) => &node.candidates,
            None => &[],
        }
    }

    /// Whether it is claimed that the candidate with this number, of this goal, is a rule.
    pub(crate) fn is_rule(&self, place: usize, number: usize) -> bool
        ensures { result ≡ claims_rule self.now place number }
    {
        let shown = self.shown_at(place);
        self.claims.candidates.rules.contains(&(shown, number))
    }

    /// Whether it is claimed that the candidate with this number, of this goal, may apply.
    pub(crate) fn may_apply(&self, place: usize, number: usize) -> bool
        ensures { result ≡ claims_chance self.now place number }
    {
        let shown = self.shown_at(place);
        self.claims.candidates.chances.contains(&(shown, number))
    }

    /// Whether it is claimed that a goal has no proof in any linked set with the crate.
    pub(crate) fn is_refused_everywhere(&self, place: usize) -> bool
        ensures { result ≡ claims_refused self.now place }
    {
        self.claims.refused.contains(&place)
    }

    /// Whether it is claimed that a goal has a proof.
    pub(crate) fn is_held(&self, place: usize) -> bool
        ensures { result ≡ claims_held self.now place }
    {
        self.claims.held.contains(&place)
    }

    /// Which crates outside the view may have an impl for a goal, if that is claimed. The inner `None` says that the goal is knowable.
    pub(crate) fn unseen(&self, place: usize) -> Option<Option<Conflict>>
        ensures { result ≡ claimed_unseen self.now place }
    {
        self.claims
            .unseen
            .iter()
            .find(|found| found.0 == place)
            .map(|found| found.1)
    }

    /// Who may write an impl for a goal that is not seen, where that is claimed.
    pub(crate) fn adder(&self, place: usize) -> Option<Adder>
        ensures { result ≡ claimed_adder self.now place }
    {
        self.claims
            .adders
            .iter()
            .find(|found| found.0 == place)
            .map(|found| found.1)
    }

    /// Whether it is claimed that no impl fits the goal at index 0.
    pub(crate) fn has_no_impl(&self) -> bool
        ensures { result ≡ (claims_of self.now).no_impl }
    {
        self.claims.no_impl
    }

    /// Whether it is claimed that no built-in rule fits the goal at index 0.
    pub(crate) fn has_no_built_in_rule(&self) -> bool
        ensures { result ≡ (claims_of self.now).no_built_in_rule }
    {
        self.claims.no_built_in_rule
    }

    /// The candidate of a goal, if there is exactly one.
    pub(crate) fn only_candidate(&self, place: usize) -> Option<&CandidateNode> {
        match self.candidates(place) {
            [candidate] => Some(candidate),
            _ => None,
        }
    }
}

/// The last nested goal of a candidate, if it is refused.
pub(crate) fn refused_premise(story: &Story<'_>, candidate: &CandidateNode) -> Option<usize> {
    match candidate.premises.last() {
        Some(premise) if story.is_refused(*premise) => Some(*premise),
        _ => None,
    }
}

/// The first nested goal of a candidate that is ambiguous.
pub(crate) fn unsure_premise(story: &Story<'_>, candidate: &CandidateNode) -> Option<usize> {
    for premise in &candidate.premises {
        if story.is_unsure(*premise) {
            return Some(*premise);
        }
    }
    None
}
