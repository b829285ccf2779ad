//! Laws about pairs of impls, and about the promises of a session. The solutions of equated headers are the common instances. The answers to
//! queries give the verdicts.

ghost use Rattle.type_terms.specs.Promised.ReadByLaws.{ImplRulesAreInstances};
ghost use Rattle.type_terms.specs.Promised.SetLaws.{AnswersHoldEverywhere, HeadlineHolds};
ghost use Rattle.overlap_check.specs.Laws.{ApartHaveNoInstance, OtherTraitsHaveNoInstance, EquatedHaveGoals};
ghost use Rattle.overlap_check.specs.Laws.{RefusedGoalPasses, OpenGoalsRefuse, ValuesAreOfSolutions};
ghost use Rattle.overlap_check.specs.Partners.{PairsAreBelow};
ghost use Rattle.overlap_check.specs.Written.{WrittenIsInstantiable};
ghost use Rattle.overlap_check.specs.SessionLaws.{RefusedIsReal, ApartIsCleared, BoundedIsRefuted, DecidedIsAnswered};
ghost use Rattle.overlap_check.specs.SessionLaws.{HeadlineInAnyOrder, HeadlineOfHeldSets, PassedIsAccepted, RefusedClauseClears};
ghost use Rattle.overlap_check.specs.Worked.{ALaterPairIsRefused, ClearedByAClause, FlagsOfLeaves, ForeignLeaf, LifetimesAlone};
ghost use Rattle.overlap_check.specs.Worked.{NotAcceptedUnlinked, ParametersStandForThemselves, ProvedAloneAndRefuted, RefusedForSomeDay};
ghost use Rattle.overlap_check.specs.Worked.{RefutedForAllValues, TwoTextsAccepted, VariableUncoveredBeforeLocal, ValuesOfBothKinds};

// ---- pairs of impls

/// Headers with fresh variables:
///
/// - `apart`, `other_traits`: if they cannot be equated, the impls have no common instance.
/// - `goals`: otherwise they have one. The where-clauses with the values of variables put in are the goals. Each goal covers its
///   where-clause. It has no variables if the where-clause is fixed: one bound in all common instances.
pub fn headers_over_fresh_unknowns()
    ensures apart { ApartHaveNoInstance }
    ensures other_traits { OtherTraitsHaveNoInstance }
    ensures goals { EquatedHaveGoals }
{}

/// Fresh variables are arguments for the parameters of each impl that a text can declare.
pub fn written_impls_are_instantiable()
    ensures { WrittenIsInstantiable }
{}

/// If one goal of a pair is refuted, the pair is accepted. If none is, the pair is refused.
pub fn answers_to_goals()
    ensures passed { RefusedGoalPasses }
    ensures refused { OpenGoalsRefuse }
{}

/// All values for the variables of a table come from a solution of it: a goal with the values put in is its instance by that solution. So if
/// a goal has a proof for no solution, it has a proof for no values.
pub fn values_are_of_solutions()
    ensures { ValuesAreOfSolutions }
{}

/// If the indices of all impls are below `end`, so are those of each pair that a crate has to check.
pub fn pairs_have_numbers_below()
    ensures { PairsAreBelow }
{}

// ---- promises of a session, and their consequences

/// In a linked set of accepted crates, of one text or of several, no concrete trait reference has proofs by two impls.
pub fn accepted_sets_have_one_impl()
    ensures { HeadlineHolds }
{}

/// In every linked set with the queried crates, a query with the answer `no` has no solution. One with the answer `yes` and without
/// where-clauses has a proof.
pub fn answers_hold_in_linked_sets()
    ensures { AnswersHoldEverywhere }
{}

/// Both laws hold for a joined set whose crates are all `accepted` and `held`. Nothing is assumed about supertraits of headers.
pub fn held_sets_have_one_impl()
    ensures { HeadlineOfHeldSets }
{}

/// Both laws hold for texts that list the auto traits of a `dyn` type in different orders.
pub fn accepted_texts_in_any_order()
    ensures { HeadlineInAnyOrder }
{}

/// A pair of impls without a common instance is cleared.
pub fn apart_is_cleared()
    ensures { ApartIsCleared }
{}

/// A pair of impls with a refuted goal is cleared.
pub fn a_refused_clause_clears()
    ensures { RefusedClauseClears }
{}

/// A crate that keeps the orphan rule and refuses no pair is accepted.
pub fn passed_is_accepted()
    ensures { PassedIsAccepted }
{}

/// For an unambiguous trait reference, the answer is `yes` if it has a proof, and `unproved` if it has none.
pub fn decided_is_answered()
    ensures { DecidedIsAnswered }
{}

/// For a bounded trait reference, the answer `no` means exactly that it is impossible. Then it has no proof by the view.
pub fn bounded_is_refuted()
    ensures { BoundedIsRefuted }
{}

/// Worked orphan errors.
pub fn worked_headers()
    ensures foreign { ForeignLeaf }
    ensures uncovered { VariableUncoveredBeforeLocal }
    ensures flags { FlagsOfLeaves }
{}

/// Worked verdicts on pairs of impls.
pub fn worked_pairs()
    ensures cleared { ClearedByAClause }
    ensures some_day { RefusedForSomeDay }
    ensures lifetimes { LifetimesAlone }
    ensures later { ALaterPairIsRefused }
    ensures unlinked { NotAcceptedUnlinked }
{}

/// Two texts in one linked set, and worked answers. One is a `no` for a trait reference that has a proof by the view, but no linked set has
/// that view.
pub fn worked_answers()
    ensures two_texts { TwoTextsAccepted }
    ensures values { ValuesOfBothKinds }
    ensures parameters { ParametersStandForThemselves }
    ensures for_all { RefutedForAllValues }
    ensures alone { ProvedAloneAndRefuted }
{}

/// If each where-clause of a pair has a goal that covers it and is not refuted, the pair really overlaps.
pub fn refused_is_real()
    ensures { RefusedIsReal }
{}

/// An impl gives a rule for a trait reference exactly if some fitting arguments make its header the trait reference. The rule is the one for
/// these arguments. So the meaning of a proof does not depend on how the arguments are computed.
pub fn impl_rules_are_instances()
    ensures { ImplRulesAreInstances }
{}
