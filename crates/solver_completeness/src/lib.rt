//! Completeness, as theorems without running code: for goals without inference variables the solver finds exactly what has a
//! proof, within plain recursion.
//!
//! `any_handler` proves this for every lawful handler. The rest applies it to the solver: its candidates are the rule instances
//! of a goal, in order, and its results are those of the root call.
#![tactic(auto)]

ghost use Rattle.solver_completeness.specs.ReadBack.{OutsideComesBack, CoherenceComesBack};
ghost use Rattle.solver_completeness.specs.RowWays.{RowsAreWays, EquatedRowsAreWays, ClausesAreWays};
ghost use Rattle.std.specs.Prelude.{Bool, Option};
ghost use Rattle.infer_table.specs.Canonical.{CanonicalForm};
ghost use Rattle.infer_table.specs.Responses.{AnswerTrees};
ghost use Rattle.goal_evaluator.specs.Content.{Fact, NestedQuestion, Values};
ghost use Rattle.goal_evaluator.specs.Tables.{frame_tables};
ghost use Rattle.goal_frames.specs.Programs.{ArePrograms};
ghost use Rattle.goal_frames.specs.Searches.{Handles, GoalInMode};
ghost use Rattle.candidate_model.specs.Meaning.{ViewMeaning};
ghost use Rattle.solver_completeness.specs.SolverAnswers.{solver_programs, SolverIsExact, SolverSearchesAreExact, SolverSearchesAreRight, SolverTellsPossible};
ghost use Rattle.solver_completeness.specs.SolverGoals.{LeadingAreGoals};
ghost use Rattle.solver_completeness.specs.BoundWays.{BoundRowsAreWays, ImplsAreWays};
ghost use Rattle.solver_completeness.specs.SolverChoices.{SpecsAreWays, CoherenceSpecsAreWays};
ghost use Rattle.solver_completeness.specs.SolverPlans.{PlansAreExact};
ghost use Rattle.solver_completeness.specs.SolverSpecs.{SpecsAreDetermined, SpecsAreFew, SpecsAreSure};

mod any_handler;
pub mod laws;

pub use any_handler::{
    ExactPrograms, RuleSearching, bounded_by_ways, closed_tables_are_lawful, decided_by_ways,
    plain_recursion_answers, plain_recursion_is_exact, plain_recursion_is_right, possible_by_ways,
    premises_are_asked, proofs_are_by_ways, rules_answer, rules_are_exact, rules_are_right,
    searches_are_exact, searches_are_right,
};

/// The rule instances of facts are those of their trait references, by the rules of the view and the fact's where-clauses. In
/// coherence, for concrete trait references without where-clauses, they are those that decide what is possible for a crate.
pub fn ways_come_back()
    ensures outside { OutsideComesBack }
    ensures coherence { CoherenceComesBack }
{}

/// The order in which the solver evaluates the candidates of a goal without inference variables, in both typing modes.
///
/// * In coherence, if the trait reference is not knowable, the candidate for that is the first. If it has a response, this is the
///   result.
/// * Outside coherence, impls and object bounds may be left out if some where-clause has a response.
/// * If no candidate has a response, none was left out, and the goal has no solution. Otherwise it has a response.
/// * The result has no values if the responses have none. A single response is the result if it is a definite yes.
pub fn plans_are_exact()
    ensures { PlansAreExact }
{}

/// For a goal without inference variables, the candidates of `Sized`, `Copy` and `Clone`, auto traits, `Tuple` and `FnPtr` are
/// the built-in rules of the goal's instance with their premises, in the same order, for all values of the goal's placeholders.
pub fn rows_are_ways()
    ensures { RowsAreWays }
{}

/// The same for candidates that equate terms: calls of fn pointers, and `Unsize` for arrays, for types that are no `dyn`, and for
/// structs. If the terms have the same value the candidate applies, and otherwise it has no solution.
pub fn equated_rows_are_ways()
    ensures { EquatedRowsAreWays }
{}

/// For all values of the goal's placeholders, the candidate of an impl that concludes the goal's instance applies with the impl's
/// where-clauses, in order. Other impls' candidates have no solution.
pub fn impls_are_ways()
    ensures { ImplsAreWays }
{}

/// A property of facts, for example that they have proofs.
pub trait Judging {
    ghost Judged: { Fact → Type 0 };
}

/// The candidates for upcasts of a `dyn`, and for object bounds without duplicate auto traits, are rule instances of the goal's
/// instance too. Each supertrait is one candidate, which has each of the goal's supertraits as a nested goal once. So they are
/// the rule instances up to order and duplicates, for every property of facts.
pub fn bounds_are_ways<J: Judging>()
    ensures { BoundRowsAreWays J.Judged }
{}

/// For a goal without inference variables, the candidate of a where-clause that is the goal's instance applies without nested
/// goals. Other where-clauses' candidates have no solution.
pub fn clauses_are_ways()
    ensures { ClausesAreWays }
{}

/// If the view is well-formed, a goal determines the nested goals of each of its candidates, even of the one for trait references
/// that are not knowable, and the number of candidates is bounded. Outside coherence no candidate of a goal without inference
/// variables is `Maybe` by itself.
pub fn specs_are_lawful()
    ensures determined { SpecsAreDetermined }
    ensures few { SpecsAreFew }
    ensures sure { SpecsAreSure }
{}

/// All candidates together are the rule instances of the goal's instance up to order and duplicates, for every property of facts.
/// Outside coherence these are by the rules of the view and the goal's where-clauses. In coherence they are also by the
/// supertraits of trait references that are not knowable. The where-clauses must be elaborated, and no auto trait may occur twice
/// in a `dyn`.
pub fn specs_are_ways<J: Judging>()
    ensures outside { SpecsAreWays J.Judged }
    ensures coherence { CoherenceSpecsAreWays J.Judged }
{}

/// The solver in a search, and a set of canonical goals with values of their placeholders.
pub trait SolverSearching {
    /// The declarations of a context.
    ghost World: { Type 0 };

    ghost meaning_of: { World → ViewMeaning };

    /// Which goals fit the declarations. Other goals are not decided.
    ghost fits_in: { World → CanonicalForm → Bool };

    /// Which where-clauses are always applicable, and which responses are equal, for the solver's merge.
    ghost applicable: { AnswerTrees → Bool };

    ghost same: { AnswerTrees → AnswerTrees → Bool };

    ghost Context: { Type 0 };

    ghost Input: { Type 0 };

    ghost Result: { Type 0 };

    ghost Frame: { Type 0 };

    ghost handles: { Handles Context Input Result Frame World (GoalInMode frame_tables (solver_programs applicable same meaning_of fits_in)) (Option AnswerTrees) };

    ghost IsAsked: { NestedQuestion → Values → Type 0 };
}

/// For a set of goals without inference variables that is closed under nested goals, plain recursion over the solver's frames
/// refutes exactly what is not possible by the rules of the view, in both typing modes.
pub fn solver_is_exact<S: SolverSearching>()
    ensures { SolverIsExact S.applicable S.same S.meaning_of S.fits_in S.handles S.IsAsked }
{}

/// A search that agrees with plain recursion within its limit, which for `evaluate_root_goal` is its depth plus one, refutes a
/// goal of the set with short chains of premises exactly if it is not possible.
pub fn solver_searches_are_exact<S: SolverSearching>()
    requires programs { ArePrograms frame_tables (solver_programs S.applicable S.same S.meaning_of S.fits_in) }
    ensures { SolverSearchesAreExact S.applicable S.same S.meaning_of S.fits_in S.handles S.IsAsked }
{}

/// Outside coherence, for goals with short chains along which at most one rule instance of each trait reference has premises with
/// proofs: a search returns a definite yes if the goal has a proof by the rules of the view and its where-clauses, and refutes it
/// otherwise.
pub fn solver_searches_are_right<S: SolverSearching>()
    requires programs { ArePrograms frame_tables (solver_programs S.applicable S.same S.meaning_of S.fits_in) }
    ensures { SolverSearchesAreRight S.applicable S.same S.meaning_of S.fits_in S.handles S.IsAsked }
{}

/// In coherence a search refutes a bounded trait reference without where-clauses exactly if it is not possible for the crate.
pub fn solver_tells_possible<S: SolverSearching>()
    requires programs { ArePrograms frame_tables (solver_programs S.applicable S.same S.meaning_of S.fits_in) }
    ensures { SolverTellsPossible S.applicable S.same S.meaning_of S.fits_in S.handles S.IsAsked }
{}

/// The canonical goals whose nested goals, in any number of steps, are all good are a set that is closed under nested goals.
pub fn leading_are_goals()
    ensures { LeadingAreGoals }
{}
