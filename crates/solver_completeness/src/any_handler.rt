//! The results of plain recursion over frames for goals without inference variables. If the chains of premises are short, a goal
//! is refuted exactly if none of its rule instances is possible. If at most one rule instance of each trait reference holds, the
//! result is a definite yes or a refutation. This is proved for every handler whose candidates are the rule instances of its
//! goal.

ghost use Rattle.std.specs.Prelude.{Option};
ghost use Rattle.infer_table.specs.Responses.{AnswerTrees};
ghost use Rattle.goal_evaluator.specs.Table.{Tables, IsTable};
ghost use Rattle.goal_evaluator.specs.Content.{Fact};
ghost use Rattle.goal_evaluator.specs.Tables.{frame_tables};
ghost use Rattle.goal_frames.specs.Programs.{Programs, ArePrograms};
ghost use Rattle.goal_frames.specs.Searches.{Handles, GoalInMode};
ghost use Rattle.goal_frames.specs.RulePrograms.{DeclaredRules};
ghost use Rattle.solver_completeness.specs.Closed.{Closing, IsClosing};
ghost use Rattle.solver_completeness.specs.ClosedTables.{closed_tables};
ghost use Rattle.solver_completeness.specs.Exact.{AnswersExactly, AreSure, PlainIsExact, PlainIsRight, PlainAnswers};
ghost use Rattle.solver_completeness.specs.Found.{FoundIsExact, FoundIsRight};
ghost use Rattle.solver_completeness.specs.ModelWays.{ProofsAreByWays, SingleWayIsDecided, PossibleIsByWays, ShortIsByWays};
ghost use Rattle.solver_completeness.specs.RuleAnswers.{rule_programs, RulesAreExact, RulesAreRight, RulesAnswer};
ghost use Rattle.solver_completeness.specs.Ways.{HoldsByWays};
ghost use Rattle.solver_completeness.specs.NestedFacts.{PremisesAreAsked};

/// By the rules of a set of crates and of where-clauses, a trait reference has a proof exactly if the premises of one of its rule
/// instances have proofs.
pub fn proofs_are_by_ways()
    ensures { ProofsAreByWays }
{}

/// A trait reference that is unambiguous by its rules is unambiguous by its rule instances.
pub fn decided_by_ways()
    ensures { SingleWayIsDecided }
{}

/// A trait reference is possible exactly if it is by the rule instances of its rules or, if it is not knowable, by its supertraits.
pub fn possible_by_ways()
    ensures { PossibleIsByWays }
{}

/// Bounded trait references have short chains of such rule instances.
pub fn bounded_by_ways()
    ensures { ShortIsByWays }
{}

/// The tables of frames are lawful for goals without inference variables. A table that did not fail has solutions, for all values
/// of the goal's placeholders. Its response has only a certainty. A nested goal that the goal determines has no inference
/// variables.
pub fn closed_tables_are_lawful()
    ensures { IsClosing frame_tables closed_tables }
{}

/// Programs over some tables, their goals without inference variables, and the handles by which a search refers to goals and
/// responses.
pub trait ExactPrograms {
    ghost Question: { Type 0 };

    ghost Response: { Type 0 };

    ghost tables: { Tables Question Response };

    ghost closing: { Closing tables };

    ghost programs: { Programs tables };

    ghost world: { programs.World };

    ghost mode: { programs.Mode };

    ghost exact: { AnswersExactly tables closing programs world mode };

    /// What it means that a trait reference holds, for example that it has a proof.
    ghost Holds: { tables.Fact → Type 0 };

    ghost Context: { Type 0 };

    ghost Input: { Type 0 };

    ghost Result: { Type 0 };

    ghost Frame: { Type 0 };

    ghost handles: { Handles Context Input Result Frame programs.World (GoalInMode tables programs) (Option Response) };
}

/// If a property holds of all premises of the rule instances that the candidates are, it holds of all their nested goals if their
/// equations hold, for all values.
pub fn premises_are_asked<E: ExactPrograms>()
    ensures { PremisesAreAsked E.tables E.Holds }
{}

/// Plain recursion refutes exactly what is not possible.
pub fn plain_recursion_is_exact<E: ExactPrograms>()
    requires tables { IsTable E.tables }
    requires closing { IsClosing E.tables E.closing }
    ensures { PlainIsExact E.tables E.closing E.programs E.world E.mode E.exact E.handles }
{}

/// If no candidate is `Maybe` by itself, and at most one rule instance of each trait reference holds, plain recursion returns a
/// definite yes for what holds, and refutes what does not.
pub fn plain_recursion_is_right<E: ExactPrograms>()
    requires tables { IsTable E.tables }
    requires closing { IsClosing E.tables E.closing }
    requires sure { AreSure E.tables E.closing E.programs E.world E.mode E.exact }
    requires holds { HoldsByWays E.exact.ways E.Holds }
    ensures { PlainIsRight E.tables E.closing E.programs E.world E.mode E.exact E.handles E.Holds }
{}

/// Plain recursion has a result for each goal with short chains of premises.
pub fn plain_recursion_answers<E: ExactPrograms>()
    requires tables { IsTable E.tables }
    requires closing { IsClosing E.tables E.closing }
    requires programs { ArePrograms E.tables E.programs }
    ensures { PlainAnswers E.tables E.closing E.programs E.world E.mode E.exact E.handles }
{}

/// A search that agrees with plain recursion within its depth refutes a bounded goal exactly if it is not possible.
pub fn searches_are_exact<E: ExactPrograms>()
    requires tables { IsTable E.tables }
    requires closing { IsClosing E.tables E.closing }
    requires programs { ArePrograms E.tables E.programs }
    ensures { FoundIsExact E.tables E.closing E.programs E.world E.mode E.exact E.handles }
{}

/// It returns a definite yes for an unambiguous goal that holds, and refutes one that does not.
pub fn searches_are_right<E: ExactPrograms>()
    requires tables { IsTable E.tables }
    requires closing { IsClosing E.tables E.closing }
    requires programs { ArePrograms E.tables E.programs }
    requires sure { AreSure E.tables E.closing E.programs E.world E.mode E.exact }
    requires holds { HoldsByWays E.exact.ways E.Holds }
    ensures { FoundIsRight E.tables E.closing E.programs E.world E.mode E.exact E.handles E.Holds }
{}

/// The handles by which a search refers to the goals and responses of lists of rules.
pub trait RuleSearching {
    ghost Context: { Type 0 };

    ghost Input: { Type 0 };

    ghost Result: { Type 0 };

    ghost Frame: { Type 0 };

    ghost handles: { Handles Context Input Result Frame DeclaredRules (GoalInMode frame_tables rule_programs) (Option AnswerTrees) };

    /// What it means that a trait reference holds.
    ghost Holds: { Fact → Type 0 };
}

/// Plain recursion over the frames of a list of rules refutes a canonical goal without where-clauses and inference variables
/// exactly if it is not possible by the rules.
pub fn rules_are_exact<S: RuleSearching>()
    ensures { RulesAreExact S.handles }
{}

/// If at most one rule of each trait reference has premises that hold, it returns a definite yes for what holds, and refutes what
/// does not.
pub fn rules_are_right<S: RuleSearching>()
    ensures { RulesAreRight S.handles S.Holds }
{}

/// It has a result for each goal with short chains of premises.
pub fn rules_answer<S: RuleSearching>()
    ensures { RulesAnswer S.handles }
{}
