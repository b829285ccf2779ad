//! Completeness for goals without inference variables whose facts are well-formed. Their nested goals are such goals again.
ghost use Rattle.std.specs.Prelude.{Bool, List};
ghost use Rattle.type_terms.specs.Promised.Handles.{Entry};
ghost use Rattle.goal_frames.specs.Notes.{Notes};
ghost use Rattle.infer_table.specs.Canonical.{CanonicalForm};
ghost use Rattle.infer_table.specs.Responses.{AnswerTrees};
ghost use Rattle.goal_evaluator.specs.Tables.{frame_tables};
ghost use Rattle.candidate_model.specs.Meaning.{ViewMeaning};
ghost use Rattle.goal_frames.specs.Programs.{ArePrograms};
ghost use Rattle.solver_completeness.specs.SolverAnswers.{solver_programs};
ghost use Rattle.solver_completeness.specs.GoalSets.{GoalsLeadToGoals};
ghost use Rattle.solver_completeness.specs.FormedFacts.{FormedAreKept, FormedGoalsFit};
ghost use Rattle.solver_completeness.specs.UnboundGoals.{UnboundAreKept, UnboundAreAdmitted};
ghost use Rattle.solver_completeness.specs.FormedTests.{FormedTestTells, CoreIsFormed};
ghost use Rattle.solver_completeness.specs.RootAnswers.{RootsAreExact, RootsAreRight, RootsTellPossible};
ghost use Rattle.solver_completeness.specs.FormedAnswers.{FormedIsExact, FormedSearchesAreExact, FormedSearchesAreRight, FormedTellsPossible};

use crate::{Judging, SolverSearching};

/// Let a property of facts be preserved by premises, and let such facts be goals. Then the nested goals of decided goals without
/// inference variables with such facts are such goals again, in both typing modes and from all tables: each nested goal is
/// decided. Whether goals fit the declarations has to be preserved from goal to nested goal.
pub fn goals_lead_to_goals<J: Judging>()
    ensures { GoalsLeadToGoals J.Judged }
{}

/// If declarations are well-formed, with the declared numbers and kinds of arguments, well-formed facts are preserved: premises
/// of rules, and supertraits of trait references that are not knowable, are well-formed and can be goals.
pub fn formed_facts_are_kept()
    ensures { FormedAreKept }
{}

/// The terms of a decided goal with a well-formed fact have the declared kinds, for all values of the goal's variables. So goals
/// with well-formed facts fit the declarations, as far as names and kinds are concerned.
pub fn formed_goals_fit()
    ensures { FormedGoalsFit }
{}

/// In a well-formed view, the nested goals of goals without bound variables have none either, from all tables of the frame. So a
/// test of forms that depends only on names and kinds is preserved for goals with well-formed facts and without bound variables.
pub fn unbound_goals_are_kept()
    ensures kept { UnboundAreKept }
    ensures admitted { UnboundAreAdmitted }
{}

/// A view that passes the test is well-formed, and `core` passes it, with the kinds of its structs' and traits' parameters.
pub fn formed_views_are_tested()
    ensures tell { FormedTestTells }
    ensures core { CoreIsFormed }
{}

/// Among decided goals with well-formed facts, plain recursion over the solver's frames refutes exactly what is not possible by
/// the rules of the view.
pub fn formed_goals_are_exact<S: SolverSearching>()
    ensures { FormedIsExact S.applicable S.same S.meaning_of S.fits_in S.handles }
{}

/// The same for searches that agree with plain recursion within their limit.
///
/// * A goal with short chains of premises is refuted exactly if it is not possible.
/// * Outside coherence, an unambiguous goal gets a definite yes if it has a proof, and is refuted otherwise.
/// * In coherence, a bounded goal without where-clauses is refuted exactly if it is not possible for the crate.
pub fn formed_goals_are_searched_right<S: SolverSearching>()
    requires programs { ArePrograms frame_tables (solver_programs S.applicable S.same S.meaning_of S.fits_in) }
    ensures exact { FormedSearchesAreExact S.applicable S.same S.meaning_of S.fits_in S.handles }
    ensures right { FormedSearchesAreRight S.applicable S.same S.meaning_of S.fits_in S.handles }
    ensures possible { FormedTellsPossible S.applicable S.same S.meaning_of S.fits_in S.handles }
{}

/// A handler in a context of `solver_graph` with the solver's meaning, for the declarations that its handles represent in an
/// interner.
pub trait RootSearching {
    /// The declarations of a handler.
    ghost World: { Type 0 };

    ghost meaning_of: { World → ViewMeaning };

    /// Which goals fit the declarations.
    ghost fits_in: { World → CanonicalForm → Bool };

    /// Which where-clauses are always applicable, and which responses are equal.
    ghost applicable: { AnswerTrees → Bool };

    ghost same: { AnswerTrees → AnswerTrees → Bool };

    ghost Handler: { Type 0 };

    ghost is_ready: { Handler → List Entry → Type 0 };

    ghost declares: { Handler → List Entry → World };

    /// What the handler's notes claim.
    ghost are_notes: { Handler → List Entry → Notes → Type 0 };
}

/// The same for the search results of `evaluate_root_goal` in its clauses `says` and `refusal` (`found` of `IsResult`), for
/// chains of premises that are at most one longer than the graph's depth. A refuted goal with a well-formed fact is not possible,
/// and any other is. Outside coherence a goal with a definite yes has a proof, and a refuted one has none.
pub fn root_answers_are_right<S: RootSearching>()
    requires programs { ArePrograms frame_tables (solver_programs S.applicable S.same S.meaning_of S.fits_in) }
    ensures exact { RootsAreExact S.applicable S.same S.meaning_of S.fits_in S.is_ready S.declares S.are_notes }
    ensures right { RootsAreRight S.applicable S.same S.meaning_of S.fits_in S.is_ready S.declares S.are_notes }
    ensures possible { RootsTellPossible S.applicable S.same S.meaning_of S.fits_in S.is_ready S.declares S.are_notes }
{}
