//! What a trace finds: goals, each with its answer and the candidates that explain it.

ghost use Rattle.std.specs.Prelude.{◌≡◌, [], ◌∷◌, ◌++◌, ◌⊎◌};

use crate::effort::Effort;
use goal_evaluator::{CandidateSource, Certainty, MaybeCause};
use goal_frames::store::InputId;
use std::alloc::Global;
use term_folds::predicate::TraitRef;
use type_terms::Fault;

/// How many goals are opened at most.
pub const GOAL_LIMIT: usize = 64;

/// How many goals are named at most, opened or not.
pub const NAME_LIMIT: usize = 512;

/// How many candidates of a goal are looked at, at most.
pub const CANDIDATE_LIMIT: usize = 256;

/// How a search answers a goal.
#[derive(Clone, Copy, PartialEq, Eq)]
pub enum Answer {
    /// It holds, maybe with values for its variables.
    Yes,
    /// The search does not know.
    Maybe(MaybeCause),
    /// It is refused.
    Refused,
    /// The search gave no answer.
    Nothing,
}

/// Whether the candidates of a goal are displayed.
#[derive(Clone, Copy, PartialEq, Eq)]
pub enum Standing {
    /// They are.
    Opened,
    /// They are displayed at this index, where the same goal occurs.
    Same(usize),
    /// The same goal is the one at this index, and this one is a nested goal of it, directly or through others.
    Cycle(usize),
    /// The goal is deeper than is shown.
    Cut,
    /// The walk ended before its candidates: as many goals as are opened were, or it took what it may.
    Unwalked,
}

/// A candidate whose header fits, with its nested goals up to the first that is refused.
pub struct CandidateNode {
    pub source: CandidateSource,
    /// The certainty of its response. `None` if it was refused.
    pub certainty: Option<Certainty>,
    /// The indices of its nested goals.
    pub premises: Vec<usize>,
}

/// A goal, and why it is answered so.
pub struct Node {
    input: InputId,
    pub answer: Answer,
    pub standing: Standing,
    /// Whether its trait is coinductive: a goal holds if it needs nothing but itself.
    pub is_coinductive: bool,
    /// Whether its nested goals are being traced.
    is_open: bool,
    /// Whether the trace has a proof of it: no goal in it needs itself, except by coinductive steps alone. Only for goals that hold.
    pub is_founded: bool,
    /// Whether all its candidates were looked at.
    pub is_whole: bool,
    /// The candidates that explain its answer. For a goal that holds, one that proves it.
    pub candidates: Vec<CandidateNode>,
}

/// The goals of a trace. Each has an index, in the order in which they were met.
pub struct GoalWalk {
    /// The trait reference of the goal at each index, as the table resolved it when the goal was met.
    pub references: Vec<TraitRef>,
    pub nodes: Vec<Node>,
    pub(crate) effort: Effort,
}

// Hand-written so that the prover sees one drop call: docs/PROVING.md#drop.
impl Drop for CandidateNode {
    fn drop(self) {
        let CandidateNode {
            source: _,
            certainty: _,
            premises: _,
        } = self;
    }
}

impl Drop for Node {
    fn drop(self) {
        let Node {
            input: _,
            answer: _,
            standing: _,
            is_coinductive: _,
            is_open: _,
            is_founded: _,
            is_whole: _,
            candidates: _,
        } = self;
    }
}

impl Drop for GoalWalk {
    fn drop(self) {
        let GoalWalk {
            references: _,
            nodes: _,
            effort: _,
        } = self;
    }
}

/// Whether a candidate of this certainty explains this answer.
pub(crate) fn is_telling(answer: Answer, certainty: Option<Certainty>) -> bool {
    match (answer, certainty) {
        (Answer::Yes, Some(Certainty::Yes)) => true,
        (Answer::Yes, _) => false,
        (Answer::Maybe(_), None) => false,
        (Answer::Maybe(_), Some(_)) => true,
        (Answer::Refused, _) => true,
        (Answer::Nothing, _) => false,
    }
}

impl GoalWalk {
    /// A trace without goals.
    pub fn new(alloc: Global) -> GoalWalk
        ensures references { result.references.items ≡ [] }
        ensures nodes { result.nodes.items ≡ [] }
    {
        GoalWalk {
            references: Vec::new(alloc),
            nodes: Vec::new(alloc),
            effort: Effort::none(alloc),
        }
    }

    /// Whether the walk took what it may, so that no further goal is opened.
    pub fn is_spent(&self) -> bool {
        self.effort.is_spent()
    }

    /// With how many frames of the searches no further goal is asked.
    pub(crate) fn last_frame(&self) -> u64 {
        self.effort.last_frame()
    }

    /// Notes that a goal with types of so many levels is asked next, when the searches have started so many frames.
    pub(crate) fn begin(&mut self, frames: u64, levels: u32)
        ensures { self.new.references ≡ self.old.references }
    {
        self.effort.begin(frames, levels);
    }

    /// Counts what the walk took, when the searches have started so many frames.
    pub(crate) fn count(&mut self, frames: u64)
        ensures { self.new.references ≡ self.old.references }
    {
        self.effort.count(frames);
    }

    /// The goal at this index.
    pub fn node(&self, place: usize) -> Option<&Node> {
        self.nodes.get(place)
    }

    /// The index at which the same goal has its candidates.
    fn earlier(&self, input: InputId) -> Option<usize> {
        for (place, node) in self.nodes.iter().enumerate() {
            if node.input == input && node.standing == Standing::Opened {
                return Some(place);
            }
        }
        None
    }

    /// Whether the goal at this index, and all open goals after it, are of coinductive traits.
    fn is_coinductive_from(&self, place: usize) -> bool {
        for (other, node) in self.nodes.iter().enumerate() {
            if other >= place && node.is_open && !node.is_coinductive {
                return false;
            }
        }
        true
    }

    fn is_open(&self, place: usize) -> bool {
        match self.nodes.get(place) {
            Some(node) => node.is_open,
            None => false,
        }
    }

    /// Whether the goal at this index holds, and the trace has a proof of it.
    pub fn is_founded(&self, place: usize) -> bool {
        match self.nodes.get(place) {
            Some(node) => node.is_founded,
            None => false,
        }
    }

    /// How a goal that is met now relates to those that were met, and whether a proof of it is displayed or assumed.
    fn standing(&self, input: InputId, depth: u32) -> (Standing, bool) {
        match self.earlier(input) {
            Some(place) if self.is_open(place) => {
                (Standing::Cycle(place), self.is_coinductive_from(place))
            }
            Some(place) => (Standing::Same(place), self.is_founded(place)),
            None => {
                if depth == 0 {
                    (Standing::Cut, true)
                } else if self.nodes.len() >= GOAL_LIMIT || self.is_spent() {
                    (Standing::Unwalked, true)
                } else {
                    (Standing::Opened, false)
                }
            }
        }
    }

    /// Adds a goal that is met now, and returns its index.
    pub(crate) fn meet(
        &mut self,
        input: InputId,
        reference: TraitRef,
        answer: Answer,
        is_coinductive: bool,
        depth: u32,
    ) -> Result<usize, Fault>
        ensures { (self.new.references.items ≡ self.old.references.items)
            ⊎ (self.new.references.items ≡ self.old.references.items ++ reference ∷ []) }
    {
        let alloc = *self.references.allocator();
        let place = self.nodes.len();
        let (standing, is_founded) = self.standing(input, depth);
        self.references.push(reference)?;
        self.nodes.push(Node {
            input,
            answer,
            standing,
            is_coinductive,
            is_open: standing == Standing::Opened,
            is_founded: is_founded && answer == Answer::Yes,
            is_whole: false,
            candidates: Vec::new(alloc),
        })?;
        Ok(place)
    }

    /// Ends the walk of the goal at a place, when the searches have started so many frames.
    pub(crate) fn close(&mut self, place: usize, frames: u64)
        ensures { self.new.references ≡ self.old.references }
    {
        self.effort.count(frames);
        let is_spent = self.is_spent();
        if let Some(node) = self.nodes.get_mut(place) {
            node.is_open = false;
            if is_spent && node.candidates.is_empty() {
                node.standing = Standing::Unwalked;
            }
        }
    }

    /// Notes that all candidates of the goal at this index were looked at.
    pub(crate) fn note_whole(&mut self, place: usize)
        ensures { self.new.references ≡ self.old.references }
    {
        if let Some(node) = self.nodes.get_mut(place) {
            node.is_whole = true;
        }
    }

    /// Whether each nested goal of a candidate has a proof that is displayed or assumed.
    fn are_founded(&self, premises: &[usize]) -> bool {
        for place in premises {
            if !self.is_founded(*place) {
                return false;
            }
        }
        true
    }

    /// Adds a candidate that explains the answer of the goal at this index. For a goal that holds, only one that proves it is stored.
    pub(crate) fn note_candidate(
        &mut self,
        place: usize,
        candidate: CandidateNode,
    ) -> Result<(), Fault>
        ensures { self.new.references ≡ self.old.references }
    {
        let proves = self.are_founded(&candidate.premises);
        if let Some(node) = self.nodes.get_mut(place) {
            if node.answer == Answer::Yes {
                if !proves {
                    return Ok(());
                }
                node.is_founded = true;
            }
            node.candidates.push(candidate)?;
        }
        Ok(())
    }

    /// Whether no more candidates of the goal at a place are looked at: they need not be, or the walk took what it may.
    pub(crate) fn is_told(&self, place: usize) -> bool {
        if self.is_spent() {
            return true;
        }
        match self.nodes.get(place) {
            Some(node) => node.answer == Answer::Nothing || node.is_founded,
            None => true,
        }
    }

    /// Whether a candidate of this certainty explains the answer of the goal at this index.
    pub(crate) fn tells(&self, place: usize, certainty: Option<Certainty>) -> bool {
        match self.nodes.get(place) {
            Some(node) => { is_telling(node.answer, certainty) && self.nodes.len() < NAME_LIMIT }
            None => false,
        }
    }

    /// Whether the candidates of the goal at this index are displayed.
    pub(crate) fn is_opened(&self, place: usize) -> bool {
        match self.nodes.get(place) {
            Some(node) => node.standing == Standing::Opened,
            None => false,
        }
    }

    /// Whether the goal at this index holds.
    pub(crate) fn holds(&self, place: usize) -> bool {
        match self.nodes.get(place) {
            Some(node) => node.answer == Answer::Yes,
            None => false,
        }
    }

    /// Whether the goal at this index is refused.
    pub(crate) fn is_refused(&self, place: usize) -> bool {
        match self.nodes.get(place) {
            Some(node) => node.answer == Answer::Refused,
            None => true,
        }
    }
}
