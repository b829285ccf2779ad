//! The frame of a goal.

ghost use Rattle.type_terms.specs.Growth.{GrewOrFull};
ghost use Rattle.std.specs.Prelude.{◌≡◌, [], Err, IfOk, IfSome, drop, option_map, List, OnOk};
ghost use Rattle.type_terms.specs.Promised.Handles.{Entry};
ghost use Rattle.infer_table.specs.Goals.{GoalHeld};
ghost use Rattle.infer_table.specs.Canonical.{CanonicalForm};
ghost use Rattle.infer_table.specs.declared.certainty.TypingMode.{TypingMode};
ghost use Rattle.goal_evaluator.specs.Readings.{ResultHeld, SpecHeld, is_coinductive_step};
ghost use Rattle.goal_frames.specs.Searches.{step_kind};
ghost use Rattle.goal_frames.specs.Meanings.{StayNotes, goal_meaning};
ghost use Rattle.goal_frames.specs.Fitting.{ResultFits};
ghost use Rattle.goal_frames.specs.Places.{FrameStanding};
ghost use Rattle.goal_frames.specs.Frames.{FrameHeld, HasHeard, ReplyIsDue, ReplyIsMade, RequestHeld, FrameSteps, AsksHandler, AsksAt, GoesOnWith, IgnoresAt, IsAtStep, IsFinishingWith, reply_read};
ghost use Rattle.goal_frames.specs.Steps.{AsksFewer};

use crate::handler::GoalHandler;
use goal_evaluator::{
    BoxedCandidate, CandidateSource, CandidateSpec, CandidateStep, Certainty, Considered,
    EvalError, GoalSource, HandlerStep, begin_candidate,
};
use infer_table::input::CanonicalInput;
use infer_table::response::CanonicalResponse;
use search_graph::{PathKind, Reply, Request};
use std::alloc::Global;
use std::mem;
use term_folds::predicate::TraitRef;
use type_terms::Fault;
use type_terms::interner::Interner;

/// The state of a frame.
#[derive(Drop)]
enum Place {
    /// It has had no reply.
    Begun,
    /// It has requested to enter this candidate.
    Entering(CandidateSpec),
    /// The open candidate, from this source, waits for the response to a nested goal.
    Inside(CandidateSource, BoxedCandidate),
    /// The open candidate, from this source, has this result.
    Finishing(CandidateSource, Option<CanonicalResponse>),
    /// The result, the numbers of the candidates to ignore, and the index of the one that the frame has requested to ignore.
    Ignoring(Option<CanonicalResponse>, Vec<usize>, usize),
    /// It has returned its result.
    Over,
}

/// The evaluation of one goal. It evaluates its handler's candidates one after another, and then returns the handler's result.
///
/// An open candidate continues in its own table with each reply, and no reply is applied twice. The frame's requests are a
/// function of its goal and its replies as terms: handles do not matter.
pub struct GoalFrame {
    goal: CanonicalInput,
    /// The finished candidates, the oldest first.
    considered: Vec<Considered>,
    place: Place,
    /// What the handler left for its next step.
    notes: Vec<TraitRef>,
}

// Hand-written so that the prover sees one drop call: docs/PROVING.md#drop.
impl Drop for GoalFrame {
    fn drop(self) {
        let GoalFrame {
            goal: _,
            considered: _,
            place: _,
            notes: _,
        } = self;
    }
}

/// The kind of the step to a nested goal. It is coinductive exactly if the goal is a premise and the trait of the frame's goal is
/// coinductive.
fn kind_of_step(coinductive: bool, source: GoalSource) -> PathKind
    ensures { result ≡ step_kind (is_coinductive_step coinductive source) }
{
    match source {
        GoalSource::ImplWhereBound if coinductive => PathKind::Coinductive,
        _ => PathKind::Unknown,
    }
}

/// The certainty of a response, if there is one.
fn certainty_of(response: &Option<CanonicalResponse>) -> Option<Certainty>
    ensures { result ≡ option_map (λ r. r.certainty) response.now }
{
    match response {
        Some(response) => Some(response.certainty),
        None => None,
    }
}

impl GoalFrame {
    /// The frame of a goal, without replies.
    pub fn new<H: GoalHandler>(alloc: Global, goal: CanonicalInput) -> GoalFrame
        ensures goal { result.goal ≡ goal }
        ensures notes { result.notes.items ≡ [] }
        ensures heard { (es : List Entry) (m : H.meaning.goals.World) (mode : TypingMode) (form : CanonicalForm) → GoalHeld es goal.goal
            → HasHeard es (H.meaning.goals.handled m mode form) result [] }
    {
        GoalFrame {
            goal,
            considered: Vec::new(alloc),
            place: Place::Begun,
            notes: Vec::new(alloc),
        }
    }

    /// The candidate that the frame has requested to enter. `None` after any other request.
    pub fn candidate(&self) -> Option<&CandidateSpec>
        ensures { (es : List Entry) → FrameHeld es self.now → IfSome result (λ s. SpecHeld es s.now) }
    {
        match &self.place {
            Place::Entering(spec) => Some(spec),
            _ => None,
        }
    }

    /// The source and the certainty of the candidate that the frame has requested to finish. The certainty is `None` if the
    /// candidate has no solution.
    pub fn outcome(&self) -> Option<(CandidateSource, Option<Certainty>)>
        ensures { IfSome result (λ found. IsFinishingWith found.0 found.1 self.now.place) }
    {
        match &self.place {
            Place::Finishing(source, result) => Some((*source, certainty_of(result))),
            _ => None,
        }
    }

    /// Passes the reply for which the frame waits, and returns its next request. By the meaning of its handler this is the
    /// request of the goal's frame after these replies. After a fault the frame must not be used.
    pub fn step<H: GoalHandler>(
        &mut self,
        alloc: Global,
        cx: &mut Interner,
        handler: &H,
        reply: Reply<Option<CanonicalResponse>>,
    ) -> Result<Request<CanonicalInput, Option<CanonicalResponse>>, Fault>
        requires ready { H.meaning.IsReady handler.now cx.old.entries }
        requires reply { ReplyIsMade cx.old.entries reply }
        requires due { ReplyIsDue cx.old.entries (goal_meaning H.meaning handler.now cx.old.entries self.old.goal) self.old (reply_read cx.old.entries reply) }
        requires notes { StayNotes H.meaning handler.now cx.old.entries self.old.notes.items }
        ensures goal { self.new.goal ≡ self.old.goal }
        ensures terms { GrewOrFull cx.old cx.new result }
        ensures held { IfOk result (RequestHeld cx.new.entries) }
        ensures steps { IfOk result (let h = goal_meaning H.meaning handler.now cx.old.entries self.old.goal in
            FrameSteps cx.old.entries h self.old (reply_read cx.old.entries reply) cx.new.entries self.new) }

        ensures notes { OnOk result (StayNotes H.meaning handler.now cx.new.entries self.new.notes.items) }

        // The open candidate can request fewer responses than before.
        ensures fewer { IfOk result (λ _. AsksFewer self.old.place self.new.place) }
    {
        match (mem::replace(&mut self.place, Place::Over), reply) {
            (Place::Begun, Reply::Begin) => self.go_on(alloc, cx, handler),
            (Place::Entering(spec), Reply::Entered) => {
                let step = begin_candidate(alloc, cx, &self.goal, &spec);
                self.go_on_with(handler, spec.source, step)
            }
            (Place::Inside(source, waiting), Reply::Result(answer)) => {
                let step = waiting.resume(alloc, cx, answer);
                self.go_on_with(handler, source, step)
            }
            (Place::Finishing(source, outcome), Reply::Finished(head_usages)) => {
                self.considered.push(Considered {
                    source,
                    result: outcome,
                    head_usages,
                })?;
                self.go_on(alloc, cx, handler)
            }
            (Place::Ignoring(answer, ignored, at), Reply::Ignored) => {
                Ok(self.ignore_from(answer, ignored, at + 1))
            }
            _ => unreachable!(),
        }
    }

    /// Calls the handler for the next request.
    fn go_on<H: GoalHandler>(
        &mut self,
        alloc: Global,
        cx: &mut Interner,
        handler: &H,
    ) -> Result<Request<CanonicalInput, Option<CanonicalResponse>>, Fault>
        requires ready { H.meaning.IsReady handler.now cx.old.entries }
        requires held { FrameHeld cx.old.entries self.old }
        requires between { (p : FrameStanding) × AsksHandler cx.old.entries (goal_meaning H.meaning handler.now cx.old.entries self.old.goal) self.old p }
        requires notes { StayNotes H.meaning handler.now cx.old.entries self.old.notes.items }
        ensures goal { self.new.goal ≡ self.old.goal }
        ensures terms { GrewOrFull cx.old cx.new result }
        ensures held { IfOk result (λ q. FrameHeld cx.new.entries self.new × RequestHeld cx.new.entries q) }
        ensures notes { OnOk result (StayNotes H.meaning handler.now cx.new.entries self.new.notes.items) }
        ensures asks { IfOk result (λ q. let h = goal_meaning H.meaning handler.now cx.old.entries self.old.goal in
            (p : FrameStanding) → AsksHandler cx.old.entries h self.old p → AsksAt self.old.goal.mode cx.new.entries h self.new q p) }
    {
        match handler.step(alloc, cx, &self.goal, &self.considered, &mut self.notes)? {
            HandlerStep::Consider(spec) => {
                self.place = Place::Entering(spec);
                Ok(Request::EnterCandidate)
            }
            HandlerStep::Answer(response, ignored) => {
                Ok(self.ignore_from(Some(response), ignored, 0))
            }
            HandlerStep::NoSolution => Ok(self.ignore_from(None, Vec::new(alloc), 0)),
        }
    }

    /// Continues after a step of the open candidate, from this source.
    fn go_on_with<H: GoalHandler>(
        &mut self,
        handler: &H,
        source: CandidateSource,
        step: Result<CandidateStep, EvalError>,
    ) -> Result<Request<CanonicalInput, Option<CanonicalResponse>>, Fault>
        ensures goal { self.new.goal ≡ self.old.goal }
        ensures notes { self.new.notes ≡ self.old.notes }
        ensures place { IfOk result (λ _. IsAtStep step self.new.place) }
        ensures goes_on { IfOk result (λ q. (old new : List Entry) →
            GoesOnWith old new (goal_meaning H.meaning handler.now old self.old.goal) self.old source step self.new q) }
        ensures fault { (f : Fault) → result ≡ Err f → step ≡ Err (EvalError.Fault f) }
    {
        match step {
            Ok(CandidateStep::Ask(waiting, input, asked_for)) => {
                let def_id = self.goal.goal.predicate.def_id();
                let kind = kind_of_step(handler.trait_is_coinductive(def_id), asked_for);
                self.place = Place::Inside(source, waiting);
                Ok(Request::Evaluate(input, kind))
            }
            Ok(CandidateStep::Ready(answer)) => Ok(self.finish(source, Some(answer))),
            Err(EvalError::NoSolution) => Ok(self.finish(source, None)),
            Err(EvalError::Fault(fault)) => Err(fault),
        }
    }

    /// The open candidate has this result.
    fn finish(
        &mut self,
        source: CandidateSource,
        outcome: Option<CanonicalResponse>,
    ) -> Request<CanonicalInput, Option<CanonicalResponse>>
        ensures is { result ≡ Request.FinishCandidate }
        ensures place { self.new ≡ record self.old { place = Place.Finishing source outcome } }
    {
        self.place = Place::Finishing(source, outcome);
        Request::FinishCandidate
    }

    /// Requests to ignore the candidate at this index of the list. If there is none, returns the frame's result.
    fn ignore_from(
        &mut self,
        answer: Option<CanonicalResponse>,
        ignored: Vec<usize>,
        at: usize,
    ) -> Request<CanonicalInput, Option<CanonicalResponse>>
        ensures goal { self.new.goal ≡ self.old.goal }
        ensures considered { self.new.considered ≡ self.old.considered }
        ensures notes { self.new.notes ≡ self.old.notes }
        ensures held { (es : List Entry) → FrameHeld es self.old → ResultHeld es answer → ResultFits es answer → FrameHeld es self.new × RequestHeld es result }
        ensures asks { IgnoresAt answer (drop at ignored.items) result self.new.place }
    {
        match ignored.get(at) {
            Some(number) => {
                let number = *number;
                self.place = Place::Ignoring(answer, ignored, at);
                Request::IgnoreCandidate(number)
            }
            None => {
                self.place = Place::Over;
                Request::Done(answer)
            }
        }
    }
}
