//! The budget of explanations, in frames.

ghost use Rattle.std.specs.Prelude.{◌≡◌, ◌≤◌, ◌+◌, false};

use explain_texts::explain_diagnostics::{Diagnostic, Level};
use explain_texts::messages::{Telling, plain};
use std::alloc::{AllocError, Global};

/// How many frames explanations may take in any case.
const FREE: u64 = 4096;

/// How many frames the answers of a text took, and how many its explanations.
#[derive(Clone, Copy)]
pub(crate) struct Spending {
    answering: u64,
    explaining: u64,
    /// Whether it was reported that nothing more is explained.
    is_told: bool,
}

impl Spending {
    /// No frames yet.
    pub(crate) fn new() -> Spending {
        Spending {
            answering: 0,
            explaining: 0,
            is_told: false,
        }
    }

    /// Adds what an answer took, from one count of frames to another.
    pub(crate) fn add_answer(&mut self, from: u64, to: u64) {
        self.answering = self.answering.saturating_add(to.saturating_sub(from));
    }

    /// Adds what an explanation took, and the goals of its trace. A displayed goal counts as two frames.
    pub(crate) fn add_explanation(&mut self, from: u64, to: u64, goals: usize) {
        let telling = (goals as u64).saturating_mul(2);
        let frames = to.saturating_sub(from).saturating_add(telling);
        self.explaining = self.explaining.saturating_add(frames);
    }

    /// Whether explanations took as much as they may: twice what the answers took, and what is free.
    pub(crate) fn is_over(&self) -> bool
        ensures { result ≡ false → self.now.explaining ≤ self.now.answering + self.now.answering + FREE }
    {
        let twice = self.answering.saturating_add(self.answering);
        self.explaining > twice.saturating_add(FREE)
    }

    /// What is to be done with the next query. It is explained only if the explanations before took no more than they may.
    pub(crate) fn next(&mut self) -> Next
        ensures { result ≡ Next.Explained → self.old.explaining ≤ self.old.answering + self.old.answering + FREE }
    {
        if !self.is_over() {
            return Next::Explained;
        }
        if self.is_told {
            return Next::Silent;
        }
        self.is_told = true;
        Next::Told
    }
}

/// In fewer frames no search evaluates 65,536 nested goals, unless its goals have more than thirty each.
const RUN_OUT: u64 = 2048;

/// Whether the search for an answer may have evaluated as many nested goals as it may. The answer took the frames from one count to another.
/// One that took none was stored before.
pub(crate) fn may_run_out(from: u64, to: u64) -> bool {
    let own = to.saturating_sub(from);
    let frames = if own == 0 { to } else { own };
    frames >= RUN_OUT
}

/// What is to be done with a query.
#[derive(Clone, Copy)]
pub(crate) enum Next {
    /// It is explained.
    Explained,
    /// It is reported that this query and those after it are not explained.
    Told,
    /// It has no explanation.
    Silent,
}

/// The diagnostic for the first query that is not explained, because that would take too long.
pub(crate) fn too_long(alloc: Global) -> Result<Diagnostic, AllocError> {
    let message = plain(
        "no explanation of this question and those behind it: those before took as long as they may",
    );
    Telling::begin(alloc, Level::Note, None, message).finish()
}
