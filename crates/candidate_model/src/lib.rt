//! The solver as mathematics: its candidates for a goal, and what it means for a goal. The laws say that candidates by rules are sound,
//! and that the candidates cover each solution, by the view alone and in every linked set.
#![tactic(auto)]

ghost use Rattle.candidate_model.specs.Facts.{ProofsOfFactsAreProofs, ReferencesComeBack};
ghost use Rattle.candidate_model.specs.Knowing.{WhatIsKnownFollowsByTheView, SupertraitsByTheViewStand};
ghost use Rattle.candidate_model.specs.WrittenCore.{WrittenCoreIsLinked};
ghost use Rattle.candidate_model.specs.Cover.{SolutionsAreByCandidates, GivenIsRealized};
ghost use Rattle.candidate_model.specs.Lawful.{SolverIsLawfulAndCovers, WellDeclaredIsLawful, RowsAreSound, UnsizingIsSound, ImplsAreSound, ObjectBoundsAreSound, UpcastsAreSound, ToDynIsSound};
ghost use Rattle.candidate_model.specs.DeclaredWell.{TestsTell, CoreIsDeclaredWell};
ghost use Rattle.candidate_model.specs.HeldViews.{HeldIsDeclaredWell};
ghost use Rattle.candidate_model.specs.NestedGoals.{NestedGoalsAreFew, NumberIsSmall};
ghost use Rattle.candidate_model.specs.Worlds.{KeepWorlds};
ghost use Rattle.candidate_model.specs.CoverLaw.{CoherenceIsCovered, CoherenceIsLawful, ErasedBoundsAreLeft};

/// A trait reference with clauses can be read back from its fact. A proof of facts by the rules of a view is a proof of the trait references.
pub fn facts_are_references()
    ensures back { ReferencesComeBack }
    ensures proofs { ProofsOfFactsAreProofs }
{}

/// In a linked set, a trait reference that is knowable to a crate and has a proof follows by a rule of the crate's view. If the
/// supertraits of what has a proof always have proofs in the set, so do the supertraits by the view. `core` as it is written, with
/// lifetimes, has a linked set.
pub fn views_tell()
    ensures known { WhatIsKnownFollowsByTheView }
    ensures supertraits { SupertraitsByTheViewStand }
    ensures core { WrittenCoreIsLinked }
{}

/// Each solution of a goal is one by the unknowable candidate. If the goal is knowable for all values of its variables, it is also one by a
/// where-clause, a built-in rule, an impl or an object bound.
///
/// The goal has no where-clauses and no placeholders, and its structs have arguments for the lifetimes that their fields name. Solutions
/// are those by the crate's view alone, with proofs that contain the supertraits of all that they conclude, and those in each linked set
/// with the view, without lifetimes and by other numbers. With any proofs by the view alone, each solution is one by such a candidate, also
/// of a goal that is not knowable.
pub fn solutions_are_by_candidates()
    ensures { SolutionsAreByCandidates }
{}

/// If a candidate's equations hold for some terms of its own variables, and its premises are solutions, then these terms realize the
/// goal's values in the tables of frames.
pub fn given_terms_realize()
    ensures { GivenIsRealized }
{}

/// The solutions of a nested goal are looked for everywhere that those of the goal are looked for.
pub fn worlds_are_kept()
    ensures { KeepWorlds }
{}

/// In coherence, a candidate that was considered before the answer realizes each solution of a goal, if the goal's structs have arguments
/// for the lifetimes that their fields name. If the candidates satisfy the laws, so does the handler. If the bounds of traits are without
/// lifetime parameters, the bounds of `dyn` types are well-formed terms.
pub fn coherence_is_covered()
    ensures covered { CoherenceIsCovered }
    ensures lawful { CoherenceIsLawful }
    ensures bounds { ErasedBoundsAreLeft }
{}

/// A view that passes the tests is declared well, and `core` passes them. Declarations whose terms are of an interner need only some of
/// them: all open places are parameters, parameters of an impl occur in its header with one kind, supertraits form no cycle, and no two
/// structs have one name.
pub fn views_are_tested()
    ensures tell { TestsTell }
    ensures core { CoreIsDeclaredWell }
    ensures held { HeldIsDeclaredWell }
{}

/// If the view is declared well, the nested goals of all candidates of a goal are no more than the promised number. With k where-clauses of
/// impls, and no list of terms, bounds, fields or supertraits longer than m, it is less than `k + (m + 2) * (m + 2)`.
pub fn nested_goals_are_few()
    ensures few { NestedGoalsAreFew }
    ensures small { NumberIsSmall }
{}

/// Each candidate by a rule is sound: if its equations hold, it is a rule instance of the view.
///
/// - `rows`: the built-in rules of `Sized`, `Copy` and `Clone`, auto traits, `Tuple`, `FnPtr`, and calls of `fn` pointers
/// - `unsizing`: arrays that unsize to slices, and structs whose last field unsizes
/// - `to_dyn`: types that unsize to a `dyn` and are no `dyn`. The self type must not be an inference variable.
pub fn rows_are_sound()
    ensures rows { RowsAreSound }
    ensures unsizing { UnsizingIsSound }
    ensures impls { ImplsAreSound }
    ensures objects { ObjectBoundsAreSound }
    ensures upcasts { UpcastsAreSound }
    ensures to_dyn { ToDynIsSound }
{}

/// If the view is declared well, the solver satisfies the laws of handlers in both modes, for each goal whose structs have arguments for
/// the lifetimes that their fields name. In coherence, a candidate that was considered before the answer realizes each solution, by the
/// view and in every linked set with the crate. Outside coherence one realizes each solution by the view alone, if there are no where-clauses
/// and no placeholders, and the candidates that are left out lose none. If the view fails the tests, no goal is decided. Each candidate of a
/// goal satisfies the laws of candidates, if the self type is no inference variable.
pub fn solver_is_lawful()
    ensures handler { SolverIsLawfulAndCovers }
    ensures candidates { WellDeclaredIsLawful }
{}
