//! The frame of a goal, run step by step outside a search.

ghost use Rattle.std.specs.Prelude.{◌≡◌, ◌<◌, IfOk, IfSome};
ghost use Rattle.goal_evaluator.specs.Readings.{SpecHeld};
ghost use Rattle.goal_frames.specs.declared.store.InputId.{InputId};
ghost use Rattle.search_graph.specs.Meaning as Searches;
ghost use Rattle.search_graph.specs.declared.delegate.Request.TheVariants as Requested;
ghost use Rattle.search_graph.specs.SearchPaths.declared.path_kind.PathKind.{PathKind};
ghost use Rattle.solver_graph.specs.Contexts.{IsInput, IsReady, ResponseIsMade};
ghost use Rattle.solver_graph.specs.Searching.{solver_meaning, steps_left};
ghost use Rattle.explain_traces.specs.Frames.{IsWalked};

use goal_evaluator::{CandidateSource, CandidateSpec, Certainty};
use goal_frames::GoalHandler;
use goal_frames::store::{InputId, ResponseId};
use search_graph::{Candidates, Delegate, GraphFault, Reply, Request};
use solver_graph::{SolverCx, SolverFrame, SolverGraph};
use type_terms::Fault;

/// The frame of a goal, with the request that it makes, and its candidates so far.
pub(crate) struct FrameWalk {
    frame: SolverFrame,
    request: Request<InputId, Option<ResponseId>>,
    candidates: Candidates,
}

// Hand-written so that the prover sees one drop call: docs/PROVING.md#drop.
impl Drop for FrameWalk {
    fn drop(self) {
        let FrameWalk {
            frame: _,
            request: _,
            candidates: _,
        } = self;
    }
}

/// What a frame needs next.
#[derive(Clone, Copy)]
pub(crate) enum Turn {
    /// The answer to the goal with this number.
    Ask(InputId),
    /// Its next candidate is tried.
    Enter,
    /// The open candidate is finished.
    Finish,
    /// Nothing more. All its candidates were considered.
    End,
}

impl FrameWalk {
    /// The frame of the goal with this number, which has been begun.
    pub(crate) fn begin<H: GoalHandler>(
        cx: &mut SolverCx<H>,
        input: InputId,
    ) -> Result<FrameWalk, Fault>
        requires { IsInput H.meaning.IsReady cx.old input }
        ensures keeps { Searches.KeepsContext (solver_meaning H.meaning) cx.old cx.new }
        ensures ready { IsReady H.meaning.IsReady cx.new }
        ensures walked { IfOk result (IsWalked H.meaning cx.new) }
    {
        let mut frame = SolverGraph::<H>::start(cx, &input)?;
        let request = SolverGraph::<H>::step(&mut frame, cx, Reply::Begin)?;
        let candidates = Candidates::new(cx.alloc);
        Ok(FrameWalk {
            frame,
            request,
            candidates,
        })
    }

    /// What the frame needs next.
    pub(crate) fn turn(&self) -> Turn
        ensures asks { (i : InputId) → result ≡ Turn.Ask i → (k : PathKind) × (self.now.request ≡ Requested.Evaluate i k) }
        ensures enters { result ≡ Turn.Enter → self.now.request ≡ Requested.EnterCandidate }
        ensures finishes { result ≡ Turn.Finish → self.now.request ≡ Requested.FinishCandidate }
    {
        match &self.request {
            Request::Evaluate(input, _) => Turn::Ask(*input),
            Request::EnterCandidate => Turn::Enter,
            Request::FinishCandidate => Turn::Finish,
            Request::IgnoreCandidate(_) => Turn::End,
            Request::Done(_) => Turn::End,
        }
    }

    /// The candidate that is to be entered.
    pub(crate) fn candidate<H: GoalHandler>(&self, cx: &SolverCx<H>) -> Option<&CandidateSpec>
        requires { IsWalked H.meaning cx.now self.now }
        ensures { IfSome result (λ s. SpecHeld cx.now.interner.entries s.now) }
    {
        let _context = cx;
        self.frame.frame().candidate()
    }

    /// The response of the candidate that is to be finished.
    pub(crate) fn outcome(&self) -> Option<(CandidateSource, Option<Certainty>)> {
        self.frame.frame().outcome()
    }

    /// Goes on with the answer to the nested goal.
    pub(crate) fn hear<H: GoalHandler>(
        self,
        cx: &mut SolverCx<H>,
        input: InputId,
        answer: Option<ResponseId>,
    ) -> Result<FrameWalk, Fault>
        requires walked { IsWalked H.meaning cx.old self }
        requires asks { (k : PathKind) × (self.request ≡ Requested.Evaluate input k) }
        requires answer { ResponseIsMade H.meaning.IsReady cx.old answer }
        ensures keeps { Searches.KeepsContext (solver_meaning H.meaning) cx.old cx.new }
        ensures ready { IsReady H.meaning.IsReady cx.new }
        ensures walked { IfOk result (IsWalked H.meaning cx.new) }
        ensures falls { IfOk result (λ w. steps_left H.meaning cx.new w.frame < steps_left H.meaning cx.old self.frame) }
    {
        let _asked = input;
        let FrameWalk {
            mut frame,
            request: _,
            candidates,
        } = self;
        let request = SolverGraph::<H>::step(&mut frame, cx, Reply::Result(answer))?;
        Ok(FrameWalk {
            frame,
            request,
            candidates,
        })
    }

    /// Enters the next candidate. `None` if one is open, or if there is none to enter.
    pub(crate) fn enter<H: GoalHandler>(
        self,
        cx: &mut SolverCx<H>,
    ) -> Result<Option<FrameWalk>, Fault>
        requires { IsWalked H.meaning cx.old self }
        ensures keeps { Searches.KeepsContext (solver_meaning H.meaning) cx.old cx.new }
        ensures ready { IsReady H.meaning.IsReady cx.new }
        ensures walked { IfOk result (λ o. IfSome o (IsWalked H.meaning cx.new)) }
    {
        let Turn::Enter = self.turn() else {
            return Ok(None);
        };
        let FrameWalk {
            mut frame,
            request: _,
            mut candidates,
        } = self;
        match candidates.enter() {
            Ok(()) => {}
            Err(_) => return Ok(None),
        }
        let request = SolverGraph::<H>::step(&mut frame, cx, Reply::Entered)?;
        Ok(Some(FrameWalk {
            frame,
            request,
            candidates,
        }))
    }

    /// Finishes the open candidate. `None` if none is open, or if it still has nested goals.
    pub(crate) fn finish<H: GoalHandler>(
        self,
        cx: &mut SolverCx<H>,
    ) -> Result<Option<FrameWalk>, Fault>
        requires { IsWalked H.meaning cx.old self }
        ensures keeps { Searches.KeepsContext (solver_meaning H.meaning) cx.old cx.new }
        ensures ready { IsReady H.meaning.IsReady cx.new }
        ensures walked { IfOk result (λ o. IfSome o (IsWalked H.meaning cx.new)) }
    {
        let Turn::Finish = self.turn() else {
            return Ok(None);
        };
        let FrameWalk {
            mut frame,
            request: _,
            mut candidates,
        } = self;
        let number = match candidates.finish() {
            Ok(number) => number,
            Err(GraphFault::Memory) => return Err(Fault::Memory),
            Err(_) => return Ok(None),
        };
        let request = SolverGraph::<H>::step(&mut frame, cx, Reply::Finished(number))?;
        Ok(Some(FrameWalk {
            frame,
            request,
            candidates,
        }))
    }
}
