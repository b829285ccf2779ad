//! The candidates of a goal, one after the other.

ghost use Rattle.std.specs.Prelude.{◌≡◌, List, IfOk, IfSome};
ghost use Rattle.type_terms.specs.Promised.Handles.{ArgsHeld};
ghost use Rattle.type_terms.specs.Promised.Handles.{Entry};
ghost use Rattle.infer_table.specs.Content.{Ready, Grows};
ghost use Rattle.solver_graph.specs.Contexts.{IsReady, Advances};
ghost use Rattle.explain_traces.specs.Frames.{IsWalked};
ghost use Rattle.explain_traces.specs.Walking.{GoalsHeld, WalkIsAskable, WalkHasAsked};

use crate::asking::{answer_in, result_of};
use crate::effort::Effort;
use crate::frames::{FrameWalk, Turn};
use crate::nodes::GoalWalk;
use crate::opening::{are_unbound, open_candidate};
use goal_evaluator::{CandidateSource, Certainty, Goal, TypingMode};
use goal_frames::GoalHandler;
use goal_frames::store::InputId;
use infer_table::infer_ctxt::InferCtxt;
use solver_graph::{Search, SolverCx, context_laws};
use type_terms::Fault;
use type_terms::interner::Interner;
use type_terms::kinds::GenericArgKind;

/// Goes on with the open candidate of a frame, up to its end: each goal that it asks has the answer of the search. `None` where the
/// search gives no answer, or more frames were started than may be.
fn run_candidate<H: GoalHandler>(
    search: &mut Search<H>,
    frame: FrameWalk,
    effort: &mut Effort,
) -> Result<Option<FrameWalk>, Fault>
    requires askable { WalkIsAskable H.meaning search.old.graph search.old.cache search.old.cx }
    requires walked { IsWalked H.meaning search.old.cx frame }
    ensures again { WalkIsAskable H.meaning search.new.graph search.new.cache search.new.cx }
    ensures asked { WalkHasAsked H.meaning search.old.graph search.old.cx search.new.graph search.new.cx }
    ensures walked { IfOk result (λ o. IfSome o (IsWalked H.meaning search.new.cx)) }
{
    let mut walk = frame;
    while let Turn::Ask(input) = walk.turn() {
        if search.graph.frames() > effort.last_frame() {
            return Ok(None);
        }
        let Some(answer) = result_of(search, input)? else {
            return Ok(None);
        };
        let told = answer_in(&search.cx, Some(answer))?;
        effort.note_answer(input, told)?;
        walk = walk.hear(&mut search.cx, input, answer)?;
    }
    Ok(Some(walk))
}

/// Enters the next candidate of a frame, and goes on up to its end.
fn try_candidate<H: GoalHandler>(
    search: &mut Search<H>,
    frame: FrameWalk,
    effort: &mut Effort,
) -> Result<Option<FrameWalk>, Fault>
    requires askable { WalkIsAskable H.meaning search.old.graph search.old.cache search.old.cx }
    requires walked { IsWalked H.meaning search.old.cx frame }
    ensures again { WalkIsAskable H.meaning search.new.graph search.new.cache search.new.cx }
    ensures asked { WalkHasAsked H.meaning search.old.graph search.old.cx search.new.graph search.new.cx }
    ensures walked { IfOk result (λ o. IfSome o (IsWalked H.meaning search.new.cx)) }
{
    match frame.enter(&mut search.cx)? {
        Some(entered) => run_candidate(search, entered, effort),
        None => Ok(None),
    }
}

/// The nested goals of a candidate that was opened over the table of the parent goal. `None` if the parent goal holds and the candidate gives
/// its variables values that the answer does not give: the answer comes from another candidate.
///
/// For `&?x: Show` under the where-clause `&char: Show` an `impl<T> Show for T` gives the answer, and leaves `?x` open.
fn own_goals(
    cx: &Interner,
    table: &InferCtxt,
    goal: OpenedGoal<'_>,
    opened: Result<Option<Vec<Goal>>, Fault>,
) -> Result<Option<Vec<Goal>>, Fault>
    requires table { Ready cx.now.entries table.now }
    requires values { ArgsHeld cx.now.entries goal.values.now }
    ensures { (es : List Entry) → IfOk opened (λ o. IfSome o (λ gs. GoalsHeld es gs.items)) → IfOk result (λ o. IfSome o (λ gs. GoalsHeld es gs.items)) }
{
    if goal.holds && !are_unbound(cx, table, goal.values) {
        return Ok(None);
    }
    opened
}

/// Opens the candidate that a frame is to enter over the table of the parent goal, and returns its nested goals. `None` if it does not fit,
/// or is not the one that gave the answer.
fn open_next<H: GoalHandler>(
    cx: &mut SolverCx<H>,
    table: &mut InferCtxt,
    goal: OpenedGoal<'_>,
    frame: &FrameWalk,
) -> Result<Option<Vec<Goal>>, Fault>
    requires ready { IsReady H.meaning.IsReady cx.old }
    requires walked { IsWalked H.meaning cx.old frame.now }
    requires table { Ready cx.old.interner.entries table.old }
    requires values { ArgsHeld cx.old.interner.entries goal.values.now }
    ensures advances { Advances H.meaning.IsReady cx.old cx.new }
    ensures table { Ready cx.new.interner.entries table.new }
    ensures grows { Grows table.old table.new }
    ensures held { IfOk result (λ o. IfSome o (λ gs. GoalsHeld cx.new.interner.entries gs.items)) }
{
    context_laws::<H>();
    let Some(spec) = frame.candidate(cx) else {
        return Ok(None);
    };
    let opened = open_candidate(cx.alloc, &mut cx.interner, table, goal.values, spec);
    cx.interner.lawful();
    own_goals(&cx.interner, table, goal, opened)
}

/// A goal of a trace whose candidates are traced.
#[derive(Clone, Copy)]
pub(crate) struct OpenedGoal<'v> {
    /// Its index in the trace.
    pub(crate) place: usize,
    /// The number of its canonical form.
    pub(crate) input: InputId,
    /// The values of the form's variables.
    pub(crate) values: &'v [GenericArgKind],
    /// Whether it holds, with the values that the table has.
    pub(crate) holds: bool,
    /// The mode in which the search is asked.
    pub(crate) mode: TypingMode,
    /// How deep the nested goals of its candidates are traced.
    pub(crate) depth: u32,
}

/// A goal with its frame, of which the next candidate is tried.
pub(crate) struct Visit<'v> {
    pub(crate) goal: OpenedGoal<'v>,
    pub(crate) frame: FrameWalk,
}

/// A candidate that was tried.
pub(crate) struct Tried {
    /// The frame in which the candidate is to be finished.
    pub(crate) frame: FrameWalk,
    /// Its nested goals. `None` if it does not fit.
    pub(crate) opened: Option<Vec<Goal>>,
}

/// Tries the next candidate of a frame, and opens it over the table of the one who asks. `None` where the search gives no answer, or more
/// frames were started than may be.
pub(crate) fn try_next<H: GoalHandler>(
    search: &mut Search<H>,
    table: &mut InferCtxt,
    visit: Visit<'_>,
    effort: &mut Effort,
) -> Result<Option<Tried>, Fault>
    requires askable { WalkIsAskable H.meaning search.old.graph search.old.cache search.old.cx }
    requires walked { IsWalked H.meaning search.old.cx visit.frame }
    requires table { Ready search.old.cx.interner.entries table.old }
    requires values { ArgsHeld search.old.cx.interner.entries visit.goal.values.now }
    ensures again { WalkIsAskable H.meaning search.new.graph search.new.cache search.new.cx }
    ensures asked { WalkHasAsked H.meaning search.old.graph search.old.cx search.new.graph search.new.cx }
    ensures table { Ready search.new.cx.interner.entries table.new }
    ensures grows { Grows table.old table.new }
    ensures walked { IfOk result (λ o. IfSome o (λ t. IsWalked H.meaning search.new.cx t.frame)) }
    ensures held { IfOk result (λ o. IfSome o (λ t. IfSome t.opened (λ gs. GoalsHeld search.new.cx.interner.entries gs.items))) }
{
    context_laws::<H>();
    let Visit { goal, frame } = visit;
    let opened = open_next(&mut search.cx, table, goal, &frame)?;
    let tried = try_candidate(search, frame, effort)?;
    match tried {
        Some(frame) => Ok(Some(Tried { frame, opened })),
        None => Ok(None),
    }
}

/// A candidate that explains the answer of its goal.
pub(crate) struct Telling {
    pub(crate) source: CandidateSource,
    pub(crate) certainty: Option<Certainty>,
    /// Its nested goals.
    pub(crate) goals: Vec<Goal>,
}

/// The candidate with its nested goals, if it explains the answer of the goal at this index. `None` if it does not fit.
pub(crate) fn told_candidate(
    walk: &GoalWalk,
    frame: &FrameWalk,
    opened: Option<Vec<Goal>>,
    place: usize,
) -> Option<Telling>
    ensures { (es : List Entry) → IfSome opened (λ gs. GoalsHeld es gs.items) → IfSome result (λ t. GoalsHeld es t.goals.items) }
{
    let goals = opened?;
    let (source, certainty) = frame.outcome()?;
    if !walk.tells(place, certainty) {
        return None;
    }
    Some(Telling {
        source,
        certainty,
        goals,
    })
}

/// Whether no more candidates of the goal at a place are walked, when its frame wants this, and the searches have started so many frames. If
/// all were looked at, it is noted.
pub(crate) fn is_over(walk: &mut GoalWalk, place: usize, turn: Turn, frames: u64) -> bool
    ensures { walk.new.references ≡ walk.old.references }
{
    walk.count(frames);
    if walk.is_told(place) {
        return true;
    }
    match turn {
        Turn::Enter => false,
        Turn::End => {
            walk.note_whole(place);
            true
        }
        Turn::Ask(_) => true,
        Turn::Finish => true,
    }
}
