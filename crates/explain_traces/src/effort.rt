//! How much a walk takes, and what was answered in its course.

use crate::nodes::Answer;
use goal_frames::store::InputId;
use std::alloc::{AllocError, Global};

/// How much a walk may take until no further goal is opened: about what a search does in a fifth of a second.
const EFFORT_LIMIT: u64 = 32768;

/// For each so many levels of its goal's types a frame takes as long as one more.
const LEVELS_OF_A_FRAME: u64 = 4;

/// For each so many frames that were started together, each takes as long as one more: then the results are not cached, and each question
/// of a frame is answered anew.
const CACHED_FRAMES: u64 = 64;

/// How many frames a walk may start in any case.
const FREE_FRAMES: u64 = 16384;

/// How much a walk took so far, and what was answered.
pub(crate) struct Effort {
    /// How many frames the searches had started before the first goal; none where it was not asked yet.
    start: Option<u64>,
    /// With how many no further goal is asked: the walk may take three times what the first goal did, and what is free. None where that
    /// was not answered yet.
    last: Option<u64>,
    /// How many they had started when it was counted last.
    seen: u64,
    /// How many levels the types of the last goal have.
    levels: u64,
    taken: u64,
    /// How the search answered goals.
    answers: Vec<(InputId, Answer)>,
}

// Hand-written so that the prover sees one drop call: docs/PROVING.md#drop.
impl Drop for Effort {
    fn drop(self) {
        let Effort {
            start: _,
            last: _,
            seen: _,
            levels: _,
            taken: _,
            answers: _,
        } = self;
    }
}

impl Effort {
    /// Nothing was taken.
    pub(crate) fn none(alloc: Global) -> Effort {
        Effort {
            start: None,
            last: None,
            seen: 0,
            levels: 0,
            taken: 0,
            answers: Vec::new(alloc),
        }
    }

    /// Notes how the search answered a goal.
    pub(crate) fn note_answer(&mut self, input: InputId, answer: Answer) -> Result<(), AllocError> {
        self.answers.push((input, answer))?;
        Ok(())
    }

    /// How the search answered a goal, if it was asked.
    pub(crate) fn answer(&self, input: InputId) -> Option<Answer> {
        for answered in &self.answers {
            if answered.0 == input {
                return Some(answered.1);
            }
        }
        None
    }

    /// Notes that a goal with types of so many levels is asked next, when the searches have started so many frames.
    pub(crate) fn begin(&mut self, frames: u64, levels: u32) {
        self.levels = levels as u64;
        if self.start.is_none() {
            self.start = Some(frames);
        }
    }

    /// What it took to start so many frames, for goals as large as the last one.
    fn of_frames(&self, started: u64) -> u64 {
        let alone = (started / CACHED_FRAMES).saturating_add(1);
        let sized = (self.levels / LEVELS_OF_A_FRAME).saturating_add(1);
        started.saturating_mul(alone).saturating_mul(sized)
    }

    /// Counts what was taken since the last time, when the searches have started so many frames, and may start so many.
    fn take(&mut self, frames: u64, last: u64) {
        let started = frames.saturating_sub(self.seen);
        self.taken = self.taken.saturating_add(self.of_frames(started));
        if frames > last {
            self.taken = self.taken.max(EFFORT_LIMIT);
        }
    }

    /// Notes what the first goal took, when the searches have started so many frames.
    fn take_first(&mut self, frames: u64) {
        let own = frames.saturating_sub(self.start.unwrap_or(frames));
        let further = own.saturating_mul(3).saturating_add(FREE_FRAMES);
        self.last = Some(frames.saturating_add(further));
    }

    /// Counts what was taken since the last time, when the searches have started so many frames. What the first goal took is not counted.
    pub(crate) fn count(&mut self, frames: u64) {
        match self.last {
            Some(last) => self.take(frames, last),
            None => self.take_first(frames),
        }
        self.seen = frames;
    }

    /// Whether no further goal is opened.
    pub(crate) fn is_spent(&self) -> bool {
        self.taken >= EFFORT_LIMIT
    }

    /// With how many frames of the searches no further goal is asked.
    pub(crate) fn last_frame(&self) -> u64 {
        self.last.unwrap_or(u64::MAX)
    }
}
