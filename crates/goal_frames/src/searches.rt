//! The frames of goals as lawful delegates of a search graph.

ghost use Rattle.std.specs.Prelude.{Option};
ghost use Rattle.goal_evaluator.specs.Table.{Tables, IsTable};
ghost use Rattle.search_graph.specs.Meaning.{IsLawful};
ghost use Rattle.goal_frames.specs.Programs.{Programs, ArePrograms};
ghost use Rattle.goal_frames.specs.Searches.{Handles, GoalInMode, meaning};
ghost use Rattle.goal_frames.specs.Graphs.{GraphsGiveProofLists};
ghost use Rattle.goal_frames.specs.Orders.{KeepOrder, End, SilentIsFair};

/// Handlers of goals, the tables of their candidates, and the handles by which a search refers to goals and responses.
pub trait Searching {
    ghost Question: { Type 0 };

    ghost Response: { Type 0 };

    ghost tables: { Tables Question Response };

    ghost programs: { Programs tables };

    ghost Context: { Type 0 };

    ghost Input: { Type 0 };

    ghost Result: { Type 0 };

    ghost Frame: { Type 0 };

    ghost handles: { Handles Context Input Result Frame programs.World (GoalInMode tables programs) (Option Response) };
}

/// If the tables and handlers are lawful, the meaning of their frames is lawful for a search.
///
/// * A definite yes of a frame follows by a rule from nested goals with a definite yes outside ignored candidates.
/// * A response covers its goal if the replies cover theirs.
/// * No frame has more nested goals than its goal's number.
/// * No nested goal and no response has wider terms than the frame may have.
pub fn frames_are_lawful<S: Searching>()
    requires tables { IsTable S.tables }
    requires programs { ArePrograms S.tables S.programs }
    ensures { IsLawful (meaning S.tables S.programs S.handles) }
{}

/// A response without values covers its goal, and is no wider than its frame's terms. Such are overflows, initial results and
/// propagated ambiguities.
pub fn silent_answers_are_fair<S: Searching>()
    requires tables { IsTable S.tables }
    requires programs { ArePrograms S.tables S.programs }
    ensures { SilentIsFair S.tables S.programs S.handles }
{}

/// No frame makes a request out of order. So no search fails for that reason.
pub fn frames_keep_order<S: Searching>()
    requires { ArePrograms S.tables S.programs }
    ensures { KeepOrder S.tables S.programs S.handles }
{}

/// Each frame ends, whatever the replies. It has at most as many as eight times its goal's number, three for each candidate, and
/// the first one.
pub fn frames_end<S: Searching>()
    requires { ArePrograms S.tables S.programs }
    ensures { End S.tables S.programs S.handles }
{}

/// If a goal has a proof graph, as a search's definite yes promises, each of its instances has a proof by the rules of all goals.
pub fn graphs_prove<S: Searching>()
    requires { ArePrograms S.tables S.programs }
    ensures { GraphsGiveProofLists S.tables S.programs }
{}
