//! The goals of a proof, each after its nested goals.

use crate::walks::ShownStep;
use explain_traces::{GoalWalk, Standing};
use std::alloc::{AllocError, Global};

/// How often a goal is entered or left at most. It is more often than a trace has goals.
const VISIT_LIMIT: usize = 4096;

/// What is to be done with the goal at an index.
#[derive(Clone, Copy)]
enum Visit {
    /// Visit its nested goals before it.
    Enter(usize),
    /// Its nested goals were visited.
    Leave(usize),
}

/// A visit of the goals of a proof.
struct ProofOrder {
    /// The indices of goals that were entered.
    entered: Vec<usize>,
    /// What is left to do, the next at the end.
    visits: Vec<Visit>,
    /// The indices of goals that were left, in order.
    places: Vec<usize>,
}

// Hand-written so that the prover sees one drop call: docs/PROVING.md#drop.
impl Drop for ProofOrder {
    fn drop(self) {
        let ProofOrder {
            entered: _,
            visits: _,
            places: _,
        } = self;
    }
}

/// The index that has the candidates of the goal at this index.
fn opened_at(walk: &GoalWalk, place: usize) -> usize {
    match walk.node(place) {
        Some(node) => match node.standing {
            Standing::Same(earlier) => earlier,
            Standing::Cycle(above) => above,
            Standing::Opened => place,
            Standing::Cut => place,
            Standing::Unwalked => place,
        },
        None => place,
    }
}

/// The indices of the nested goals of the first candidate of the goal at this index.
fn premises_at(walk: &GoalWalk, place: usize) -> &[usize] {
    match walk.node(place) {
        Some(node) => match node.candidates.first() {
            Some(candidate) => &candidate.premises,
            None => &[],
        },
        None => &[],
    }
}

/// The first position of an index in the list. If it is not there, the length of the list.
fn number_of(places: &[usize], place: usize) -> usize {
    for (number, other) in places.iter().enumerate() {
        if *other == place {
            return number;
        }
    }
    places.len()
}

impl ProofOrder {
    /// Enters the goal at this index, if it was not entered before.
    fn enter(&mut self, walk: &GoalWalk, place: usize) -> Result<(), AllocError> {
        let place = opened_at(walk, place);
        if number_of(&self.entered, place) < self.entered.len() {
            return Ok(());
        }
        self.entered.push(place)?;
        self.visits.push(Visit::Leave(place))?;
        for premise in premises_at(walk, place).iter().rev() {
            self.visits.push(Visit::Enter(*premise))?;
        }
        Ok(())
    }

    /// Does what is next. Returns whether there was something.
    fn visit(&mut self, walk: &GoalWalk) -> Result<bool, AllocError> {
        match self.visits.pop() {
            None => Ok(false),
            Some(Visit::Enter(place)) => {
                self.enter(walk, place)?;
                Ok(true)
            }
            Some(Visit::Leave(place)) => {
                self.places.push(place)?;
                Ok(true)
            }
        }
    }
}

/// The indices of the goals that a proof of the goal at this index needs. Each comes after its nested goals, except for cycles. The goal
/// itself is the last.
fn places_of(alloc: Global, walk: &GoalWalk, place: usize) -> Result<ProofOrder, AllocError> {
    let mut order = ProofOrder {
        entered: Vec::new(alloc),
        visits: Vec::new(alloc),
        places: Vec::new(alloc),
    };
    order.enter(walk, place)?;
    for _visit in 0..VISIT_LIMIT {
        if !order.visit(walk)? {
            break;
        }
    }
    Ok(order)
}

/// How the goal at this index is displayed, if those of the proof have these indices.
fn shown_at(
    alloc: Global,
    walk: &GoalWalk,
    places: &[usize],
    place: usize,
) -> Result<ShownStep, AllocError> {
    let mut premises = Vec::new(alloc);
    for premise in premises_at(walk, place) {
        premises.push(number_of(places, opened_at(walk, *premise)))?;
    }
    Ok(ShownStep { place, premises })
}

/// The proof of the goal at this index, as it is displayed. It is empty if the trace has none.
pub(crate) fn shown_steps(
    alloc: Global,
    walk: &GoalWalk,
    place: usize,
) -> Result<Vec<ShownStep>, AllocError> {
    let mut shown = Vec::new(alloc);
    if !walk.is_founded(place) {
        return Ok(shown);
    }
    let order = places_of(alloc, walk, place)?;
    for next in &order.places {
        let step = shown_at(alloc, walk, &order.places, *next)?;
        shown.push(step)?;
    }
    Ok(shown)
}
