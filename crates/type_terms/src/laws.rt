//! Laws of the definitions that all contracts cite. Each function proves the law that its contract names, and does
//! nothing at run time.

ghost use Rattle.type_terms.specs.Laws.{AddedByTheViewIsAdded, AnImpossibleClauseClearsThePair, CoreIsCoherent, CoreIsLinked, ErasedWorldsAreTerms, HeldSetsAreLinked, ImplsApplyUpToLifetimes, KeptByTheViewIsKept, KnownByTheViewIsKnown, LaterImplsConcludeNothingKnown, LaterVersionsBreakNoUser, NoHolds, NoTwoCratesSeeEachOther, NoTwoImpls, ProofsByTheViewHold, RenumberingCarriesOver, RulesOfTermsAskTerms, SupertraitsAreProved, UnrelatedImplsDoNotOverlap, UnseenImplsConcludeNothingKnown, UsersSeeWhatTheirUsesSee, WalksSkipLifetimes, WhatTheViewDoesNotGiveIsUnknown};
ghost use Rattle.type_terms.specs.Promised.LinkedSet.{InEveryLinkedSet};
ghost use Rattle.type_terms.specs.Promised.ReadByLaws.{SameIsEqual};
ghost use Rattle.type_terms.specs.WiderLaws.{AboveCovers, AboveHasRules, AccountsForTheSet, NoOfWhatIsAccountedFor, AgreeOnHeaders, AnImpossibleClauseAboveClearsThePair, ClearedAboveIsCleared, KnownHasARuleAbove, NoAboveHolds, PossibleAbove, ProofsHoldAbove, RulesHoldAbove, TestedProofsHoldAbove, ViewProofsHoldAbove, WidenedIsAbove, WiderImpls, WiderImplsMeet};
ghost use Rattle.type_terms.specs.WorkedParts.{AnImplThatConcludesNothingIsNeeded, FourImplsAreEnough, NamesHaveToStay, SameRulesAreNotEnough, TooFew};
ghost use Rattle.type_terms.specs.Parts.{AClosedListIsClosed, AnImpossibleClauseByAPartClears, AnswersOfAPartHold, APartAgrees, APartAnswersAlike, APartKeepsHeaders, ATextOfAPartAnswersAlike, ClosedByThePartIsClosed, SupersHeldByAPart, WhatAgreesAnswersAlike, WhatAgreesIsDeterminateAlike, WhatIsCutDownHasTheSameRules, WhatIsCutDownIsAPart, WhatPassesIsEnough};
ghost use Rattle.type_terms.specs.Arranging.{AnyTwoOrdersAreArranged};
ghost use Rattle.type_terms.specs.ArrangingLaws.{AnswersHoldInAnyOrder, ArrangedSetsAreLinked, ArrangingCarriesOver, HeldSetsInAnyOrder, NoTwoImplsInAnyOrder, OneOrderIsOneList, OppositeOrdersOfOneDyn};
ghost use Rattle.type_terms.specs.WorkedSupers.{AMissingSupertrait, ByAWhereClause, ByAnotherImpl, ByASupertraitOfAWhereClause, NoDynIsSized};
ghost use Rattle.type_terms.specs.Worked.{AClauseThatMayHoldSomeDay, AddedWithoutItsSupertrait, ALaterVersionInOneSet, AnImplInPlaceOfTheAutoRule, AnImpossibleClause, AutoRows, AutosOfDyns, BlanketInALaterVersion, Calls, CoinductiveCycle, CopiesInCore, CopyRows, ExampleIsLinked, FundamentalAroundLocal, HeaderOutOfScope, InductiveCycle, LocalDynBehindLeaf, LocalFundamental, NestedImpls, NothingLocal, OneNameTwoStructs, OnlyLifetimesDiffer, OppositeOrdersInOneSet, OverlapWithCore, OwnLaterVersions, ParameterAsBound, SizedRows, SortsAreTested, SupertraitsDecide, TextsAreErased, TupleAndFnPtrRows, TwoPathsToOneSupertrait, TwoTextsInOneSet, TwoUsersOfOneTrait, TwoWaysUpToLifetimes, UncoveredBeforeLocal, UndeclaredHasNoRule, Unsizing, Upcast, UsersMayImplement, WhereClauses, WhichMayBeAdded};

/// The headers of `core` keep the orphan rule, and no two of its impls overlap.
pub fn core_is_coherent()
    ensures { CoreIsCoherent }
{}

/// A world without lifetimes has only erased terms, and its views are the erased views of the world.
pub fn erased_worlds_are_terms()
    ensures { ErasedWorldsAreTerms }
{}

/// The premises of a trait reference without lifetimes have none either, so that it is enough to erase lifetimes once.
pub fn rules_of_terms_ask_terms()
    ensures { RulesOfTermsAskTerms }
{}

/// An impl that matches a trait reference up to lifetimes gives a rule instance of the erased world.
pub fn impls_apply_up_to_lifetimes()
    ensures { ImplsApplyUpToLifetimes }
{}

/// Orphan walks skip lifetimes. The orphan rule and knowable trait references are those of the erased world.
pub fn walks_skip_lifetimes()
    ensures { WalksSkipLifetimes }
{}

/// The test `same` is equality of terms.
pub fn same_is_equal()
    ensures { SameIsEqual }
{}

/// `core` alone is a linked set. In particular, each of its `Copy` impls has proofs of `Clone` and `Sized`.
pub fn core_is_linked()
    ensures { CoreIsLinked }
{}

/// A joined set of crates whose headers have proofs of their supertraits is a linked set.
pub fn held_sets_are_linked()
    ensures { HeldSetsAreLinked }
{}

/// In a linked set, a trait reference with a proof has proofs of its supertraits, by whatever rule it is concluded.
pub fn supertraits_are_proved()
    ensures { InEveryLinkedSet SupertraitsAreProved }
{}

/// A crate sees what the crates see that it uses.
pub fn users_see_what_their_uses_see()
    ensures { InEveryLinkedSet UsersSeeWhatTheirUsesSee }
{}

/// Two crates of a linked set that see each other are equal.
pub fn no_two_crates_see_each_other()
    ensures { InEveryLinkedSet NoTwoCratesSeeEachOther }
{}

/// Impls of crates that `c` does not see conclude only what is not knowable to `c` (RFC 1023).
pub fn unseen_impls_conclude_nothing_known()
    ensures { InEveryLinkedSet UnseenImplsConcludeNothingKnown }
{}

/// Impls of crates that do not see each other do not overlap (RFC 2451).
pub fn unrelated_impls_do_not_overlap()
    ensures { InEveryLinkedSet UnrelatedImplsDoNotOverlap }
{}

/// A rule instance of a linked set that is not in a crate's view concludes what is not knowable to the crate. Its
/// supertraits have proofs.
pub fn what_the_view_does_not_give_is_unknown()
    ensures { InEveryLinkedSet WhatTheViewDoesNotGiveIsUnknown }
{}

/// What is knowable by the view alone is knowable in every linked set with this view.
pub fn known_by_the_view_is_known()
    ensures { InEveryLinkedSet KnownByTheViewIsKnown }
{}

/// A proof by the rules of a crate's view is a proof in every linked set with this view.
pub fn proofs_by_the_view_hold()
    ensures { InEveryLinkedSet ProofsByTheViewHold }
{}

/// If all crates of impls were accepted, no closed trait reference has proofs by two impls.
pub fn no_two_impls()
    ensures { InEveryLinkedSet NoTwoImpls }
{}

/// A bounded trait reference that is not possible by a crate's view has no proof in any linked set with this view.
pub fn no_holds()
    ensures { InEveryLinkedSet NoHolds }
{}

/// A pair of impls with an impossible fixed clause is cleared in every linked set with the view.
pub fn an_impossible_clause_clears_the_pair()
    ensures { InEveryLinkedSet AnImpossibleClauseClearsThePair }
{}

/// What holds of a view holds of it with other numbers, so that crates of different texts can be in one set.
pub fn renumbering_carries_over()
    ensures { RenumberingCarriesOver }
{}

/// An impl that a later version of a crate may add concludes only what is not knowable to the crate's users (RFC 1023).
pub fn later_impls_conclude_nothing_known()
    ensures { InEveryLinkedSet LaterImplsConcludeNothingKnown }
{}

/// An impl that a later version of a crate may add overlaps no impl of the crate's users (RFC 2451).
pub fn later_versions_break_no_user()
    ensures { InEveryLinkedSet LaterVersionsBreakNoUser }
{}

/// A header that keeps the orphan rule by its crate's view keeps it in every linked set with this view.
pub fn kept_by_the_view_is_kept()
    ensures { InEveryLinkedSet KeptByTheViewIsKept }
{}

/// An impl that a later version may add, by its crate's view, may be added in every linked set with this view.
pub fn added_by_the_view_is_added()
    ensures { InEveryLinkedSet AddedByTheViewIsAdded }
{}

/// An impl with fewer where-clauses is wider, and so is an impl of which it is an instance.
pub fn wider_impls()
    ensures one { WiderImpls }
    ensures meet { WiderImplsMeet }
    ensures worlds { WidenedIsAbove }
{}

/// Each rule instance of a world is one of each world above it, with some of the premises.
pub fn rules_hold_above()
    ensures each { RulesHoldAbove }
    ensures together { AboveHasRules }
{}

/// A proof by a text that has fewer rules than the crates is a proof by the crates.
pub fn proofs_hold_above()
    ensures all { ProofsHoldAbove }
    ensures tested { TestedProofsHoldAbove }
    ensures views { InEveryLinkedSet ViewProofsHoldAbove }
{}

/// Texts that differ in impls alone agree on headers, knowable trait references and supertraits.
pub fn agree_on_headers()
    ensures { AgreeOnHeaders }
{}

/// What is possible by the crates is possible by a text with more rules.
pub fn possible_above()
    ensures { PossibleAbove }
{}

/// A text with wider impls covers the crates.
pub fn above_covers()
    ensures { AboveCovers }
{}

/// A pair is cleared if two wider impls are cleared in a world above.
pub fn cleared_above_is_cleared()
    ensures { ClearedAboveIsCleared }
{}

/// The answer `no` by a text with more rules holds of the crates, in every linked set with them.
pub fn no_above_holds()
    ensures set { InEveryLinkedSet NoAboveHolds }
    ensures any { NoOfWhatIsAccountedFor }
    ensures accounts { InEveryLinkedSet AccountsForTheSet }
{}

/// What a search uses from a linked set, by a text that covers the set.
pub fn known_has_a_rule_above()
    ensures { InEveryLinkedSet KnownHasARuleAbove }
{}

/// A pair is cleared if two wider impls have an impossible fixed clause.
pub fn an_impossible_clause_above_clears_the_pair()
    ensures { InEveryLinkedSet AnImpossibleClauseAboveClearsThePair }
{}

/// A part of a world with all that a closed set of trait references needs gives the same answers for these as the
/// world.
pub fn a_part_answers_alike()
    ensures agreeing { WhatAgreesAnswersAlike }
    ensures part { APartAgrees }
    ensures answers { APartAnswersAlike }
    ensures texts { ATextOfAPartAnswersAlike }
    ensures headers { APartKeepsHeaders }
    ensures closed { ClosedByThePartIsClosed }
    ensures listed { AClosedListIsClosed }
    ensures cut { WhatIsCutDownIsAPart }
    ensures rules { WhatIsCutDownHasTheSameRules }
    ensures determinate { WhatAgreesIsDeterminateAlike }
    ensures tested { WhatPassesIsEnough }
    ensures supers { SupersHeldByAPart }
    ensures sets { InEveryLinkedSet AnswersOfAPartHold }
    ensures pairs { InEveryLinkedSet AnImpossibleClauseByAPartClears }
{}

/// Examples of headers: which keep the orphan rule, and the steps of their orphan walks.
pub fn worked_headers()
    ensures uncovered { UncoveredBeforeLocal }
    ensures nothing_local { NothingLocal }
    ensures around_local { FundamentalAroundLocal }
    ensures two_users { TwoUsersOfOneTrait }
    ensures local_fundamental { LocalFundamental }
    ensures behind_leaf { LocalDynBehindLeaf }
{}

/// Examples of pairs of impls: which overlap, and what their where-clauses decide.
pub fn worked_pairs()
    ensures impossible { AnImpossibleClause }
    ensures some_day { AClauseThatMayHoldSomeDay }
    ensures lifetimes { OnlyLifetimesDiffer }
    ensures with_core { OverlapWithCore }
{}

/// Examples of trait references with a proof, and without one.
pub fn worked_proofs()
    ensures nested { NestedImpls }
    ensures where_clauses { WhereClauses }
    ensures coinductive { CoinductiveCycle }
    ensures inductive { InductiveCycle }
    ensures in_place { AnImplInPlaceOfTheAutoRule }
    ensures copies { CopiesInCore }
{}

/// Examples of trait references that some linked set may prove, and of some that none does.
pub fn worked_possibilities()
    ensures users { UsersMayImplement }
    ensures supertraits { SupertraitsDecide }
{}

/// Examples of parts: what a query needs of a small text, and parts that lack something.
pub fn worked_parts()
    ensures enough { FourImplsAreEnough }
    ensures too_few { TooFew }
    ensures autos { AnImplThatConcludesNothingIsNeeded }
    ensures same { SameRulesAreNotEnough }
    ensures names { NamesHaveToStay }
{}

/// Examples of impls: which have proofs of their headers' supertraits, and why no `dyn` is `Sized`.
pub fn worked_supertraits()
    ensures missing { AMissingSupertrait }
    ensures another { ByAnotherImpl }
    ensures clause { ByAWhereClause }
    ensures of_clause { ByASupertraitOfAWhereClause }
    ensures no_dyn { NoDynIsSized }
{}

/// Examples of trait references with all of their built-in rules, at least one for each rule.
pub fn worked_built_in_rules()
    ensures sized_rows { SizedRows }
    ensures copy_rows { CopyRows }
    ensures auto_rows { AutoRows }
    ensures tuple_and_fn_ptr_rows { TupleAndFnPtrRows }
    ensures upcast { Upcast }
    ensures two_paths { TwoPathsToOneSupertrait }
    ensures two_ways { TwoWaysUpToLifetimes }
    ensures unsizing { Unsizing }
    ensures autos_of_dyns { AutosOfDyns }
    ensures calls { Calls }
{}

/// Examples of what the conditions are for: of rules, of linked sets and of later versions.
pub fn worked_conditions()
    ensures sorts { SortsAreTested }
    ensures undeclared { UndeclaredHasNoRule }
    ensures one_name { OneNameTwoStructs }
    ensures scope { HeaderOutOfScope }
    ensures shape { ParameterAsBound }
    ensures later { BlanketInALaterVersion }
    ensures addable { WhichMayBeAdded }
    ensures later_base { ALaterVersionInOneSet }
    ensures own_later { OwnLaterVersions }
    ensures no_supertrait { AddedWithoutItsSupertrait }
    ensures linked { ExampleIsLinked }
    ensures texts { TwoTextsInOneSet }
    ensures orders { OppositeOrdersInOneSet }
    ensures erased { TextsAreErased }
{}

/// What holds of a world holds of it with the auto traits of each `dyn` in another order.
pub fn arranging_carries_over()
    ensures law { ArrangingCarriesOver }
    ensures sets { ArrangedSetsAreLinked }
    ensures answers { AnswersHoldInAnyOrder }
    ensures no_two { NoTwoImplsInAnyOrder }
    ensures held { HeldSetsInAnyOrder }
    ensures orders { AnyTwoOrdersAreArranged }
    ensures one_list { OneOrderIsOneList }
    ensures worked { OppositeOrdersOfOneDyn }
{}
