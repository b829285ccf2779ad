//! The frames of a search.

ghost use Rattle.type_terms.specs.Growth.{GrewOrFull};
ghost use Rattle.std.specs.Prelude.{◌≡◌, IfOk, IfErr, OnOk};
ghost use Rattle.type_terms.specs.declared.Fault.TheVariants.{Memory};
ghost use Rattle.goal_frames.specs.Frames.{ReplyIsDue, ReplyIsMade, RequestHeld, FrameSteps, reply_read};
ghost use Rattle.goal_frames.specs.Meanings.{StayNotes, goal_meaning};
ghost use Rattle.goal_frames.specs.Steps.{AsksFewer};

use goal_frames::{GoalFrame, GoalHandler};
use infer_table::input::CanonicalInput;
use infer_table::response::CanonicalResponse;
use search_graph::{Reply, Request};
use std::alloc::Global;
use std::marker::Model;
use type_terms::Fault;
use type_terms::interner::Interner;

/// The frame of a goal, on the heap.
///
/// A search calls itself for each nested goal, and compiled code has a place on the stack for each move and each drop of a value. So
/// a frame by value takes its size many times at each level.
pub struct SolverFrame {
    frame: Box<GoalFrame>,
}

impl Model for SolverFrame {
    ghost use Rattle.goal_frames.specs.declared.frame.GoalFrame.{GoalFrame};

    ghost Value = { GoalFrame };

    ghost view = { λ f. f.frame.value };
}

// Hand-written so that the prover sees one drop call: docs/PROVING.md#drop. It is not inlined, since it has room for a whole frame.
impl Drop for SolverFrame {
    #[inline(never)]
    fn drop(self) {
        let SolverFrame { frame: _ } = self;
    }
}

impl SolverFrame {
    /// This frame, on the heap. The only fault is `Memory`.
    pub(crate) fn new(alloc: Global, frame: GoalFrame) -> Result<SolverFrame, Fault>
        ensures is { IfOk result (λ f. f ≡ frame) }
        ensures memory { IfErr result (λ fault. fault ≡ Memory) }
    {
        let frame = Box::new(alloc, frame)?;
        Ok(SolverFrame { frame })
    }

    /// The frame.
    pub fn frame(&self) -> &GoalFrame
        ensures { result.now ≡ self.now }
    {
        &self.frame
    }

    /// Passes the reply for which the frame waits, and returns its next request, as `GoalFrame::step` does.
    pub(crate) fn step<H: GoalHandler>(
        &mut self,
        alloc: Global,
        cx: &mut Interner,
        handler: &H,
        reply: Reply<Option<CanonicalResponse>>,
    ) -> Result<Request<CanonicalInput, Option<CanonicalResponse>>, Fault>
        requires ready { H.meaning.IsReady handler.now cx.old.entries }
        requires reply { ReplyIsMade cx.old.entries reply }
        requires due { ReplyIsDue cx.old.entries (goal_meaning H.meaning handler.now cx.old.entries self.old.goal) self.old (reply_read cx.old.entries reply) }
        requires notes { StayNotes H.meaning handler.now cx.old.entries self.old.notes.items }
        ensures goal { self.new.goal ≡ self.old.goal }
        ensures terms { GrewOrFull cx.old cx.new result }
        ensures held { IfOk result (RequestHeld cx.new.entries) }
        ensures steps { IfOk result (let h = goal_meaning H.meaning handler.now cx.old.entries self.old.goal in
            FrameSteps cx.old.entries h self.old (reply_read cx.old.entries reply) cx.new.entries self.new) }
        ensures fewer { IfOk result (λ _. AsksFewer self.old.place self.new.place) }
        ensures notes { OnOk result (StayNotes H.meaning handler.now cx.new.entries self.new.notes.items) }
    {
        self.frame.step(alloc, cx, handler, reply)
    }
}
