//! A lawful delegate over scripts, to test the search graph on small goals.
#![tactic(auto)]

ghost use Rattle.std.specs.Prelude.{◌≡◌, slice_get};
ghost use Rattle.test_delegate.specs.Toy.{decided, asks_next, step_at};

use search_graph::{Cx, Delegate, PathKind, Reply, Request};
use std::alloc::AllocError;
use type_terms::Fault;

/// The answer no.
pub const NO: u8 = 0;
/// The answer of an overflow: the limit of the depth or of the runs was met.
pub const OVERFLOW: u8 = 1;
/// The answer yes.
pub const YES: u8 = 2;
/// Another ambiguous answer.
pub const AMBIGUOUS: u8 = 3;

/// A request of a script.
#[derive(Clone, Copy)]
pub enum Step {
    /// Evaluates a nested goal, by a step of this kind.
    Ask(usize, PathKind),
    /// Enters a candidate.
    Enter,
    /// Finishes the open candidate.
    Finish,
    /// Ignores the candidate of this number.
    Ignore(usize),
}

/// How a frame's result depends on the answers of its nested goals.
#[derive(Clone, Copy)]
pub enum Rule {
    /// The frame ends at the first answer that is not a yes, with that answer.
    All,
    /// The frame ends at the first yes, with a yes.
    Any,
    /// The frame ends at the first answer, with the result given here for it: for no, for an overflow, for yes, for another ambiguity.
    Map(u8, u8, u8, u8),
}

impl Rule {
    /// Returns the result of a frame that gets this answer, if the frame ends with it.
    pub fn decides(self, answer: u8) -> Option<u8>
        ensures { result ≡ decided self answer }
    {
        match self {
            Rule::All => if answer == YES { None } else { Some(answer) },
            Rule::Any => if answer == YES { Some(YES) } else { None },
            Rule::Map(no, overflow, yes, ambiguous) => {
                if answer == NO {
                    Some(no)
                } else if answer == OVERFLOW {
                    Some(overflow)
                } else if answer == YES {
                    Some(yes)
                } else {
                    Some(ambiguous)
                }
            }
        }
    }
}

/// The script of a goal's frame.
pub struct Script {
    /// Its requests, in order. At most the first 64 are made.
    pub steps: Vec<Step>,
    pub rule: Rule,
    /// The result after the last step.
    pub otherwise: u8,
}

// Written by hand, so that owners drop it in one call (docs/PROVING.md, 'Drop').
impl Drop for Script {
    fn drop(self) {
        let Script {
            steps: _,
            rule: _,
            otherwise: _,
        } = self;
    }
}

/// The scripts of the goals, by number.
#[derive(Drop)]
pub struct Scripts {
    pub goals: Vec<Script>,
}

/// A goal's frame.
#[derive(Drop)]
pub struct ToyFrame {
    pub goal: usize,
    /// How many replies it has received.
    pub heard: usize,
    /// It takes at most this many steps.
    pub left: usize,
}

impl Cx for Scripts {
    ghost use Rattle.std.specs.Prelude.{IfOk, Ok};
    ghost use Rattle.std.proofs.lemmas.Bool.{eqb-true};

    type Input = usize;

    type Result = u8;

    type AmbiguityInfo = ();

    fn copy_input(&self, input: &usize) -> Result<usize, AllocError>
        ensures copy { IfOk result (λ copy. copy ≡ input.now) }
        ensures is { result ≡ Ok input.now }
    {
        Ok(*input)
    }

    fn copy_result(&self, of: &u8) -> Result<u8, AllocError>
        ensures copy { IfOk result (λ copy. copy ≡ of.now) }
        ensures is { result ≡ Ok of.now }
    {
        Ok(*of)
    }

    ghost same_input = { eqb-true };

    ghost same_result = { eqb-true };
}

/// Evaluates goals by their scripts.
pub struct Toy;

impl Delegate for Toy {
    ghost use Rattle.std.specs.Prelude.{IfOk, OnOk, IsOk, Ok, ◌<◌, ◌≤◌, ◌+◌, ◌^◌, IsTrue, IsSome, ◌↔◌};
    ghost use Rattle.search_graph.specs.Meaning.{KeepsContext, IsDue, Steps};
    ghost use Rattle.test_delegate.specs.Toy.{toy_meaning, toy_initial};

    type Cx = Scripts;

    type Frame = ToyFrame;

    const FIXPOINT_STEP_LIMIT: usize = 8;

    const DIVIDE_AVAILABLE_DEPTH_ON_OVERFLOW: usize = 4;

    ghost FIXPOINT_STEP_LIMIT = { 8 };

    ghost DIVIDE_AVAILABLE_DEPTH_ON_OVERFLOW = { 4 };

    ghost meaning = { toy_meaning };

    ghost steps_left = { λ c f. f.left };

    fn initial_provisional_result(
        _cx: &mut Scripts,
        kind: PathKind,
        _input: &usize,
    ) -> Result<u8, Fault>
        ensures keeps { KeepsContext toy_meaning _cx.old _cx.new }
        ensures full { result ≡ Err Fault.Full → ⊥ }
        ensures is { result ≡ Ok (toy_initial kind) }
    {
        match kind {
            PathKind::Inductive => Ok(NO),
            PathKind::Unknown => Ok(OVERFLOW),
            PathKind::Coinductive => Ok(YES),
            PathKind::ForcedAmbiguity => Ok(OVERFLOW),
        }
    }

    fn is_initial_provisional_result(_cx: &Scripts, kind: PathKind, _input: &usize, of: &u8) -> bool
        ensures { IsTrue result ↔ (of.now ≡ toy_initial kind) }
    {
        match kind {
            PathKind::Inductive => *of == NO,
            PathKind::Unknown | PathKind::ForcedAmbiguity => *of == OVERFLOW,
            PathKind::Coinductive => *of == YES,
        }
    }

    fn stack_overflow_result(_cx: &mut Scripts, _input: &usize) -> Result<u8, Fault>
        ensures keeps { KeepsContext toy_meaning _cx.old _cx.new }
        ensures full { result ≡ Err Fault.Full → ⊥ }
        ensures is { result ≡ Ok 1 }
    {
        Ok(OVERFLOW)
    }

    fn fixpoint_overflow_result(_cx: &mut Scripts, _input: &usize) -> Result<u8, Fault>
        ensures keeps { KeepsContext toy_meaning _cx.old _cx.new }
        ensures full { result ≡ Err Fault.Full → ⊥ }
        ensures is { result ≡ Ok 1 }
    {
        Ok(OVERFLOW)
    }

    fn is_ambiguous_result(_cx: &Scripts, of: &u8) -> Option<()>
        ensures { IsSome result ↔ (of.now ≡ 3) }
    {
        if *of == AMBIGUOUS { Some(()) } else { None }
    }

    fn propagate_ambiguity(
        _cx: &mut Scripts,
        _for_input: &usize,
        _ambiguity_info: (),
    ) -> Result<u8, Fault>
        ensures keeps { KeepsContext toy_meaning _cx.old _cx.new }
        ensures full { result ≡ Err Fault.Full → ⊥ }
        ensures is { result ≡ Ok 3 }
    {
        Ok(AMBIGUOUS)
    }

    fn cost_of(_cx: &Scripts, _input: &usize) -> usize {
        0
    }

    fn start(_cx: &mut Scripts, input: &usize) -> Result<ToyFrame, Fault>
        ensures keeps { KeepsContext toy_meaning _cx.old _cx.new }
        ensures full { result ≡ Err Fault.Full → ⊥ }
        ensures is { result ≡ Ok (record { goal = input.now; heard = 0; left = 100 }) }
    {
        Ok(ToyFrame {
            goal: *input,
            heard: 0,
            left: 100,
        })
    }

    #[tactic(auto, using(crate::specs::ToyLaws::has_steps_left))]
    fn step(
        frame: &mut ToyFrame,
        cx: &mut Scripts,
        reply: Reply<u8>,
    ) -> Result<Request<usize, u8>, Fault>
        requires due { IsDue toy_meaning cx.old frame.old reply }
        ensures keeps { KeepsContext toy_meaning cx.old cx.new }
        ensures full { result ≡ Err Fault.Full → ⊥ }
        ensures steps { IfOk result (λ q. Steps toy_meaning cx.old frame.old reply cx.new frame.new q) }
        ensures falls { IfOk result (λ q. frame.new.left < frame.old.left) }

        // The request of the script, unless the frame has no step left, or its number of replies is the greatest.
        ensures is { IfOk result (λ q. q ≡ asks_next (slice_get cx.old.goals.items frame.old.goal) frame.old.heard reply) }
        ensures counts { OnOk result ((frame.new.goal ≡ frame.old.goal) × (frame.new.heard ≡ frame.old.heard + 1) × (frame.new.left + 1 ≡ frame.old.left)) }
        ensures room { 1 ≤ frame.old.left → frame.old.heard + 1 < 2 ^ 64 → IsOk result }
    {
        let next = frame.heard;
        frame.left = frame.left.checked_sub(1).ok_or(Fault::Full)?;
        frame.heard = next.checked_add(1).ok_or(Fault::Full)?;
        Ok(next_request(cx, frame.goal, next, reply))
    }

    ghost use Rattle.test_delegate.specs.ToyLaws.{toy_lawful};

    ghost lawful = { toy_lawful };

    ghost use Rattle.std.proofs.Common.{le_refl};

    ghost steps_kept = { λ c d g heard f keeps had. le_refl f.left };

    ghost use Rattle.std.proofs.lemmas.Bool.{eq-eqb};

    ghost same_answer = { λ c r s h k e. eq-eqb r s e };

    ghost use Rattle.std.proofs.Common.{lit≤};

    ghost divides = { lit≤ tt };
}

/// Returns the request of the frame of a goal, after this many replies and this one.
fn next_request(scripts: &Scripts, goal: usize, next: usize, reply: Reply<u8>) -> Request<usize, u8>
    ensures { result ≡ asks_next (slice_get scripts.now.goals.items goal) next reply }
{
    let Some(script) = scripts.goals.get(goal) else {
        return Request::Done(NO);
    };
    if let Reply::Result(answer) = reply {
        if let Some(value) = script.rule.decides(answer) {
            return Request::Done(value);
        }
    }
    step_request(script, next)
}

fn step_request(script: &Script, next: usize) -> Request<usize, u8>
    ensures { result ≡ step_at script.now next }
{
    if next >= 64 {
        return Request::Done(OVERFLOW);
    }
    match script.steps.get(next) {
        None => Request::Done(script.otherwise),
        Some(Step::Ask(goal, kind)) => Request::Evaluate(*goal, *kind),
        Some(Step::Enter) => Request::EnterCandidate,
        Some(Step::Finish) => Request::FinishCandidate,
        Some(Step::Ignore(number)) => Request::IgnoreCandidate(*number),
    }
}
