//! Traces of goals and of their nested goals.

ghost use Rattle.std.specs.Prelude.{◌≡◌, IfOk, IfSome};
ghost use Rattle.type_terms.specs.Promised.Handles.{ArgsHeld};
ghost use Rattle.infer_table.specs.Content.{Table, Grows, place_in};
ghost use Rattle.infer_table.specs.Goals.{GoalHeld};
ghost use Rattle.solver_graph.specs.Contexts.{IsInput};
ghost use Rattle.explain_traces.specs.Frames.{IsWalked};
ghost use Rattle.explain_traces.specs.Walking.{GoalsHeld, IsWalkable, HasWalked};

use crate::asking::{Met, TracedGoal, meet_goal};
use crate::candidates::{OpenedGoal, Telling, Tried, Visit, is_over, told_candidate, try_next};
use crate::frames::FrameWalk;
use crate::nodes::{CANDIDATE_LIMIT, CandidateNode, GoalWalk};
use crate::settling::settle;
use goal_evaluator::{Goal, TypingMode};
use goal_frames::GoalHandler;
use infer_table::infer_ctxt::InferCtxt;
use infer_table::terms::Snapshot;
use solver_graph::Search;
use type_terms::Fault;

/// Rolls the table back to the snapshot: no value of an opened candidate stays.
fn take_back(table: &mut InferCtxt, place: Snapshot)
    ensures { (before : Table) → place ≡ place_in before → Grows before table.old → table.new ≡ before }
{
    table.roll_back(place);
}

/// Traces a goal over a table, and returns its index: the answer of the search, the candidates that explain it, and
/// their nested goals.
///
/// What the search reads of the table is as before. The interner, the cache, and the context's goals and answers may grow. No answer
/// changes: the search can be used after it, also after a fault. Fails with `Memory` if memory is refused, or with `Full` if a table is
/// full.
#[cycle(walk)]
pub fn walk_goal<H: GoalHandler>(
    search: &mut Search<H>,
    table: &mut InferCtxt,
    walk: &mut GoalWalk,
    traced: TracedGoal<'_>,
) -> Result<usize, Fault>
    requires walkable { IsWalkable H.meaning search.old.graph search.old.cache search.old.cx table.old walk.old.references.items }
    requires goal { GoalHeld search.old.cx.interner.entries traced.goal.now }
    ensures again { IsWalkable H.meaning search.new.graph search.new.cache search.new.cx table.new walk.new.references.items }
    ensures walked { HasWalked H.meaning search.old.graph search.old.cx table.old search.new.graph search.new.cx table.new }
{
    let met = meet_goal(search, table, walk, traced)?;
    let Met {
        place,
        input,
        values,
    } = met;
    if traced.depth == 0 {
        return Ok(place);
    }
    if !walk.is_opened(place) {
        return Ok(place);
    }
    let opened = OpenedGoal {
        place,
        input,
        values: &values,
        holds: walk.holds(place),
        mode: traced.mode,
        depth: traced.depth - 1,
    };
    walk_candidates(search, table, walk, opened)?;
    walk.close(place, search.graph.frames());
    Ok(place)
}

/// Traces the candidates of a goal, as many as are looked at.
#[cycle(walk)]
fn walk_candidates<H: GoalHandler>(
    search: &mut Search<H>,
    table: &mut InferCtxt,
    walk: &mut GoalWalk,
    opened: OpenedGoal<'_>,
) -> Result<(), Fault>
    requires walkable { IsWalkable H.meaning search.old.graph search.old.cache search.old.cx table.old walk.old.references.items }
    requires input { IsInput H.meaning.IsReady search.old.cx opened.input }
    requires values { ArgsHeld search.old.cx.interner.entries opened.values.now }
    ensures again { IsWalkable H.meaning search.new.graph search.new.cache search.new.cx table.new walk.new.references.items }
    ensures walked { HasWalked H.meaning search.old.graph search.old.cx table.old search.new.graph search.new.cx table.new }
{
    let mut frame = FrameWalk::begin(&mut search.cx, opened.input)?;
    for _candidate in 0..CANDIDATE_LIMIT {
        let turn = frame.turn();
        if is_over(walk, opened.place, turn, search.graph.frames()) {
            return Ok(());
        }
        let visit = Visit {
            goal: opened,
            frame,
        };
        let visited = visit_candidate(search, table, walk, visit)?;
        let Some(next) = visited else {
            return Ok(());
        };
        frame = next;
    }
    Ok(())
}

/// Traces the next candidate of a goal, if it explains the goal's answer. `None` if the search gives no answer.
#[cycle(walk)]
fn visit_candidate<H: GoalHandler>(
    search: &mut Search<H>,
    table: &mut InferCtxt,
    walk: &mut GoalWalk,
    visit: Visit<'_>,
) -> Result<Option<FrameWalk>, Fault>
    requires walkable { IsWalkable H.meaning search.old.graph search.old.cache search.old.cx table.old walk.old.references.items }
    requires values { ArgsHeld search.old.cx.interner.entries visit.goal.values.now }
    requires frame { IsWalked H.meaning search.old.cx visit.frame }
    ensures again { IsWalkable H.meaning search.new.graph search.new.cache search.new.cx table.new walk.new.references.items }
    ensures walked { HasWalked H.meaning search.old.graph search.old.cx table.old search.new.graph search.new.cx table.new }
    ensures frame { IfOk result (λ o. IfSome o (IsWalked H.meaning search.new.cx)) }
{
    let goal = visit.goal;
    let before = table.snapshot();
    let tried = try_next(search, table, visit, &mut walk.effort)?;
    let Some(tried) = tried else {
        take_back(table, before);
        return Ok(None);
    };
    let Tried { frame, opened } = tried;
    let told = told_candidate(walk, &frame, opened, goal.place);
    walk_telling(search, table, walk, ToldCandidate { goal, told })?;
    take_back(table, before);
    frame.finish(&mut search.cx)
}

/// A candidate that was tried, told if it explains the answer of its goal.
struct ToldCandidate<'v> {
    goal: OpenedGoal<'v>,
    told: Option<Telling>,
}

/// Traces the nested goals of a candidate, and notes the candidate if it explains the goal's answer.
#[cycle(walk)]
fn walk_telling<H: GoalHandler>(
    search: &mut Search<H>,
    table: &mut InferCtxt,
    walk: &mut GoalWalk,
    candidate: ToldCandidate<'_>,
) -> Result<(), Fault>
    requires walkable { IsWalkable H.meaning search.old.graph search.old.cache search.old.cx table.old walk.old.references.items }
    requires goals { IfSome candidate.told (λ t. GoalsHeld search.old.cx.interner.entries t.goals.items) }
    ensures again { IsWalkable H.meaning search.new.graph search.new.cache search.new.cx table.new walk.new.references.items }
    ensures walked { HasWalked H.meaning search.old.graph search.old.cx table.old search.new.graph search.new.cx table.new }
{
    let ToldCandidate { goal, told } = candidate;
    let Some(told) = told else {
        return Ok(());
    };
    let Telling {
        source,
        certainty,
        goals,
    } = told;
    let traced = TracedGoals {
        goals: &goals,
        mode: goal.mode,
        depth: goal.depth,
    };
    let premises = walk_premises(search, table, walk, traced)?;
    let Some(premises) = premises else {
        return Ok(());
    };
    let candidate = CandidateNode {
        source,
        certainty,
        premises,
    };
    walk.note_candidate(goal.place, candidate)
}

/// Goals that are traced one after another, in one mode and as deep.
#[derive(Clone, Copy)]
struct TracedGoals<'g> {
    goals: &'g [Goal],
    mode: TypingMode,
    depth: u32,
}

/// Walks the goals that a candidate asks, up to the first that is refused. `None` where the walk took what it may before the last of them.
#[cycle(walk)]
fn walk_premises<H: GoalHandler>(
    search: &mut Search<H>,
    table: &mut InferCtxt,
    walk: &mut GoalWalk,
    traced: TracedGoals<'_>,
) -> Result<Option<Vec<usize>>, Fault>
    requires walkable { IsWalkable H.meaning search.old.graph search.old.cache search.old.cx table.old walk.old.references.items }
    requires goals { GoalsHeld search.old.cx.interner.entries traced.goals.now }
    ensures again { IsWalkable H.meaning search.new.graph search.new.cache search.new.cx table.new walk.new.references.items }
    ensures walked { HasWalked H.meaning search.old.graph search.old.cx table.old search.new.graph search.new.cx table.new }
{
    let mut premises = Vec::new(search.cx.alloc);
    for goal in traced.goals {
        if search.graph.frames() > walk.last_frame() {
            return Ok(None);
        }
        settle(search, table, traced.mode, goal)?;
        let next = TracedGoal {
            goal,
            mode: traced.mode,
            depth: traced.depth,
        };
        let premise = walk_goal(search, table, walk, next)?;
        premises.push(premise)?;
        if walk.is_refused(premise) {
            return Ok(Some(premises));
        }
    }
    Ok(Some(premises))
}
