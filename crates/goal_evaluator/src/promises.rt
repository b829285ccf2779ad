//! What is proved of frames, for every lawful handler over every lawful table. Each function here only states a fact in its
//! contract.

ghost use Rattle.goal_evaluator.specs.Table.{Tables, IsTable};
ghost use Rattle.goal_evaluator.specs.Handler.{Handled, IsHandler};
ghost use Rattle.goal_evaluator.specs.Promises.{DefiniteYesFollows, AnswerCoversGoal, IsBounded, KeepsNumber, IgnoresFinishedOnce, MergesResponses};
ghost use Rattle.goal_evaluator.specs.Plans.{Planned, IsPlan, planned};
ghost use Rattle.goal_evaluator.specs.System.{System, IsSystem, YesFollowsFromQuestions, GraphsProve};
ghost use Rattle.goal_evaluator.specs.Operations.{Operations, Workings};
ghost use Rattle.goal_evaluator.specs.Correspondences.{Correspondence, IsCorrespondence, RoundsCorrespond, CandidateCorrespondence, IsCandidateCorrespondence, CandidatesCorrespond, FramesCorrespond};
ghost use Rattle.goal_evaluator.specs.ByRules.{ProofsAreProofs};

/// The goals of a handler, what they mean, and the tables in which their candidates are evaluated.
pub trait Evaluation {
    ghost Question: { Type 0 };

    ghost Response: { Type 0 };

    ghost tables: { Tables Question Response };

    ghost Goal: { Type 0 };

    ghost handled: { Goal → Handled tables };
}

/// If a frame returns a definite yes, each instance of its goal follows by a rule. The premises are instances of nested goals
/// that were answered with a definite yes in candidates that are not ignored. Their values are terms among those of the goal's
/// variables.
pub fn definite_yes_follows<E: Evaluation>()
    requires tables { IsTable E.tables }
    requires handler { (goal : E.Goal) → IsHandler E.tables (E.handled goal) }
    ensures { (goal : E.Goal) → DefiniteYesFollows E.tables (E.handled goal) }
{}

/// If each response covers its nested goal, the frame's response covers the goal: each solution agrees with it.
pub fn answer_covers_goal<E: Evaluation>()
    requires tables { IsTable E.tables }
    requires handler { (goal : E.Goal) → IsHandler E.tables (E.handled goal) }
    ensures { (goal : E.Goal) → AnswerCoversGoal E.tables (E.handled goal) }
{}

/// A frame has at most 8 times as many nested goals as the handler states, and makes at most three other requests for each
/// candidate.
pub fn frame_is_bounded<E: Evaluation>()
    requires handler { (goal : E.Goal) → IsHandler E.tables (E.handled goal) }
    ensures { (goal : E.Goal) → IsBounded E.tables (E.handled goal) }
{}

/// No nested goal and no response of a frame has wider terms than the handler states, if the responses to such nested goals have
/// none.
pub fn frame_keeps_number<E: Evaluation>()
    requires tables { IsTable E.tables }
    requires handler { (goal : E.Goal) → IsHandler E.tables (E.handled goal) }
    ensures { (goal : E.Goal) → KeepsNumber E.tables (E.handled goal) }
{}

/// A frame ignores only numbers of finished candidates, each at most once.
pub fn ignores_finished_once<E: Evaluation>()
    requires handler { (goal : E.Goal) → IsHandler E.tables (E.handled goal) }
    ensures { (goal : E.Goal) → IgnoresFinishedOnce E.tables (E.handled goal) }
{}

/// A plan for a goal: a finite decision tree. Each node evaluates a candidate, whose response selects the next node. Each leaf is
/// the goal's result.
pub trait HasPlan {
    ghost Question: { Type 0 };

    ghost Response: { Type 0 };

    ghost tables: { Tables Question Response };

    ghost plan: { Planned tables };
}

/// A lawful plan is a lawful handler.
pub fn plans_are_lawful<P: HasPlan>()
    requires plan { IsPlan P.tables P.plan }
    ensures { IsHandler P.tables (planned P.tables P.plan) }
{}

/// The merge of the candidates' responses, for each test that only definite yeses pass. A definite yes is one of the responses.
/// Values that agree with a response agree with the merge. The merge has no wider terms.
pub fn merges_responses<E: Evaluation>()
    requires tables { IsTable E.tables }
    requires handler { (goal : E.Goal) → IsHandler E.tables (E.handled goal) }
    ensures { (goal : E.Goal) → MergesResponses E.tables (E.handled goal) }
{}

/// All goals of a handler.
pub trait GoalSystem {
    ghost Question: { Type 0 };

    ghost Response: { Type 0 };

    ghost tables: { Tables Question Response };

    ghost system: { System tables };
}

/// If a frame returns a definite yes, each instance of its goal follows by a rule from instances of the nested goals that count,
/// by terms of its own values.
pub fn yes_follows_from_questions<S: GoalSystem>()
    requires tables { IsTable S.tables }
    requires handlers { (goal : S.system.Goal) → IsHandler S.tables (S.system.handled goal) }
    ensures { YesFollowsFromQuestions S.tables S.system }
{}

/// If a goal has a proof graph of goals with definite yeses, each of its instances has a proof.
pub fn graph_has_proof<S: GoalSystem>()
    requires { IsSystem S.tables S.system }
    ensures { GraphsProve S.tables S.system }
{}

/// Two kinds of operations, and a correspondence between them.
pub trait CorrespondingOperations {
    ghost Question: { Type 0 };

    ghost Response: { Type 0 };

    ghost OtherQuestion: { Type 0 };

    ghost OtherResponse: { Type 0 };

    ghost one: { Operations Question Response };

    ghost other: { Operations OtherQuestion OtherResponse };

    ghost correspondence: { Correspondence one other };
}

/// If tables, goals and responses correspond, a round and all rounds have corresponding ends. Both wait for corresponding nested
/// goals, or both end with corresponding results and remaining responses.
pub fn rounds_correspond<C: CorrespondingOperations>()
    requires { IsCorrespondence C.one C.other C.correspondence }
    ensures { RoundsCorrespond C.one C.other C.correspondence }
{}

/// Two kinds of workings, and a correspondence between them.
pub trait CorrespondingWorkings {
    ghost Question: { Type 0 };

    ghost Response: { Type 0 };

    ghost OtherQuestion: { Type 0 };

    ghost OtherResponse: { Type 0 };

    ghost one: { Workings Question Response };

    ghost other: { Workings OtherQuestion OtherResponse };

    ghost correspondence: { CandidateCorrespondence one other };
}

/// If tables, candidates and responses correspond, the nested goals and results correspond.
pub fn candidates_correspond<C: CorrespondingWorkings>()
    requires { IsCandidateCorrespondence C.one C.other C.correspondence }
    ensures { CandidatesCorrespond C.one C.other C.correspondence }
{}

/// After corresponding replies, the frames of corresponding handlers make corresponding requests.
pub fn frames_correspond<C: CorrespondingWorkings>()
    requires { IsCandidateCorrespondence C.one C.other C.correspondence }
    ensures { FramesCorrespond C.one C.other C.correspondence }
{}

/// A proof by the rules of a set of crates and of where-clauses is a proof as the promised definitions state it.
pub fn proofs_by_rules_are_proofs()
    ensures { ProofsAreProofs }
{}
