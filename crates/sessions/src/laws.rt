//! Laws of sessions, with no code to run: what the calls promise of texts without a fault, and what follows from it.

ghost use Rattle.std.specs.Prelude.{Option};
ghost use Rattle.type_terms.specs.Promised.LinkedSet.{InEveryLinkedSet};
ghost use Rattle.infer_table.specs.Responses.{AnswerTrees};
ghost use Rattle.goal_evaluator.specs.Tables.{frame_tables};
ghost use Rattle.goal_frames.specs.Searches.{Handles, GoalInMode};
ghost use Rattle.candidate_assembly.specs.Solving.{Solving};
ghost use Rattle.text_lowering.specs.Ready.{OfTexts};
ghost use Rattle.sessions.specs.Clauses.{SupertraitsAreErased, SupertraitsProveNoMore};
ghost use Rattle.sessions.specs.Laws.{UnboundStandForThemselves, ValuesFill};
ghost use Rattle.sessions.specs.Proved.{ValuesAreProved};
ghost use Rattle.sessions.specs.Answers.{solver_goals, AreAnsweredRight, AreAnsweredAsWritten, AreToldPossible};
ghost use Rattle.sessions.specs.Decided.{DecidedAreAnswered, DecidedQuestionsAreAnswered, ShortAreAnswered};
ghost use Rattle.sessions.specs.Fitting.{SortsTellFits};
ghost use Rattle.sessions.specs.Goals.{FormedQuestionsAreGoals};
ghost use Rattle.sessions.specs.Questions.{TextsQuestionsAreFormed, TextsQuestionsAreElaborated, ReferencesAreGoals};
ghost use Rattle.sessions.specs.Refusals.{RefusalsAreExact};
ghost use Rattle.sessions.specs.Views.{TextsAreFormed};
ghost use Rattle.sessions.specs.DecidedAnswers.{OtherAnswersAreRight};
ghost use Rattle.sessions.specs.ProvedQuestions.{YesIsRight};
ghost use Rattle.sessions.specs.Applying.{TextsClausesApply, SolversClausesApply};
ghost use Rattle.sessions.specs.OpenPairs.{OpenPairGoalsArePossible};
ghost use Rattle.sessions.specs.PairGoals.{PairGoalsAreFormed};
ghost use Rattle.sessions.specs.Supertraits.{SolversImplsApply, SupertraitsAreTold};
ghost use Rattle.sessions.specs.Checking.{ReadyAreWritten};
ghost use Rattle.sessions.specs.Promised.AnsweredSets.{AnsweredSetsAreCoherent, AnsweredSetsAreLinked};
ghost use Rattle.sessions.specs.AnsweredSets.{AnsweredSetsInAnyOrder, TextsObeyTheirRules};
ghost use Rattle.sessions.specs.CoherentTexts.{AcceptedTextsAreCoherent};
ghost use Rattle.sessions.specs.Promised.CoherentTexts.{HeldTextsAreCoherent};
ghost use Rattle.sessions.specs.Promised.Entailment.{YesHolds};
ghost use Rattle.sessions.specs.TogetherLaws.{SeveralAreAnsweredRightly};
ghost use Rattle.sessions.specs.JoinedTexts.{TextsAreJoined, TextsListInOrder};
ghost use Rattle.sessions.specs.ScopedTexts.{ImplsAreInScope};
ghost use Rattle.sessions.specs.WorkedSets.{CratesOfTwoTextsAreASet};

use goal_frames::GoalHandler;

// ---- the values of a query's variables

/// Each table that calls made has a solution under which a term is the term with the table's values put in, without lifetimes. Each
/// variable without a value stands for itself there.
pub fn unbound_stand_for_themselves()
    ensures { UnboundStandForThemselves }
{}

/// What the variables of a query resolve to are values of their kinds. A term of the query with these values put in is the term with the
/// table's values put in.
pub fn values_fill()
    ensures { ValuesFill }
{}

/// Where-clauses with all their supertraits prove no more than the where-clauses as they are written, because the rules read supertraits
/// themselves. Supertraits with lifetimes are also supertraits without them.
pub fn supertraits_prove_no_more()
    ensures proofs { SupertraitsProveNoMore }
    ensures erased { SupertraitsAreErased }
{}

/// What has a proof at each solution of a table, as `ask_until_settled` says of a goal that it proves, has a proof with the values of the
/// table. Each variable without a value stands for itself there.
pub fn values_are_proved<H: GoalHandler>()
    ensures { (w : H.meaning.goals.World) → ValuesAreProved (H.meaning.goals.Rule w) (H.meaning.goals.coinductive w) }
{}

// ---- queries of a text are answered exactly: what the solver requires of declarations and goals holds for what a crate sees

/// If declarations are well-formed, a goal in which nothing is bound, and whose terms have the declared kinds, fits them and gives its
/// structs the lifetimes that their fields name. So the solver decides it.
pub fn sorts_tell_fits()
    ensures { SortsTellFits }
{}

/// What a crate sees of a text without a fault is well-formed: it sees each name in its terms, and each has as many arguments as declared,
/// of the declared kinds.
pub fn texts_are_formed()
    ensures { TextsAreFormed }
{}

/// A query without variables of a text without a fault is lowered to terms that are well-formed by what its crate sees. Its where-clauses
/// are well-formed as they are written. Under elaborated where-clauses it is a well-formed query.
pub fn questions_are_formed()
    ensures { TextsQuestionsAreFormed }
{}

/// The where-clauses of each query of such a text, with all their supertraits, are well-formed. The supertraits of each of them are among
/// them, and they add nothing but supertraits. A query without variables is well-formed under them.
pub fn questions_are_elaborated()
    ensures { TextsQuestionsAreElaborated }
{}

/// A goal for a trait reference under trait references as where-clauses stands for the goal that their terms form.
pub fn references_are_goals()
    ensures { ReferencesAreGoals }
{}

/// A query without variables whose terms are well-formed is a goal that the solver answers exactly. Its placeholders stand for different
/// positions. Up to lifetimes it is the query's trait reference under the query's where-clauses.
pub fn formed_questions_are_goals()
    ensures { FormedQuestionsAreGoals }
{}

/// A search for the solver's goals, with the handles of the goals and of their answers.
pub trait SolverSearch {
    ghost Context: { Type 0 };

    ghost Input: { Type 0 };

    ghost Result: { Type 0 };

    ghost Frame: { Type 0 };

    ghost handles: { Handles Context Input Result Frame Solving (GoalInMode frame_tables solver_goals) (Option AnswerTrees) };
}

/// By what a crate sees of a text without a fault, each answer of a search to a query without variables is exact, if plain recursion within
/// its depth comes to no other, as `evaluate_root_goal` says of its own.
///
/// - Outside coherence, for an unambiguous query: the answer is a definite yes if there is a proof, and a refusal if there is none.
/// - In coherence, for a bounded one without where-clauses: it is refused exactly if it is not possible in the crate.
pub fn questions_are_answered_exactly<S: SolverSearch>()
    ensures right { OfTexts (AreAnsweredRight S.handles) }
    ensures possible { OfTexts (AreToldPossible S.handles) }
{}

/// The same holds for a query under its where-clauses with all their supertraits, by the clauses as they are written. If it is unambiguous
/// by these, the answer is a definite yes if they prove it, and a refusal if they do not.
pub fn questions_are_answered_as_written<S: SolverSearch>()
    ensures { OfTexts (AreAnsweredAsWritten S.handles) }
{}

/// A bounded trait reference whose terms are well-formed by what a crate sees of a text without a fault, evaluated alone in coherence, is
/// refused exactly if it is not possible in the crate. If it is left open, it has an answer within the depth that is no refusal. Lifetime
/// variables may occur in it.
pub fn refusals_are_exact()
    ensures { RefusalsAreExact }
{}

/// The search of a session answers each unambiguous trait reference under elaborated where-clauses, if all are well-formed by what a crate
/// sees of a text without a fault. It has an answer within the depth: a definite yes if there is a proof by what the crate sees and the
/// clauses as they are written, and a refusal if there is none. The same holds for each unambiguous query of such a text. If the chains of
/// premises are within the depth, there is a refusal exactly if there is no proof, and with few rules at each step a definite yes otherwise.
pub fn decided_are_answered()
    ensures references { DecidedAreAnswered }
    ensures questions { DecidedQuestionsAreAnswered }
    ensures short { ShortAreAnswered }
{}

// ---- answers apart from `Yes`

/// For a query without variables of a text without a fault, whose chains of premises are within the depth, `Unproved` says rightly that it
/// has no proof, and `Maybe` that it has one. With few rules at each step, as for an unambiguous query, `Maybe` is never the answer. For a
/// query without where-clauses and parameters `Unproved` says rightly that it has no solution.
pub(crate) fn other_answers_are_right()
    ensures { OtherAnswersAreRight }
{}

// ---- what the answer `Yes` proves

/// The answer `Yes` to a query of a text without a fault is right. There is a value of its kind for each variable. With these values the
/// query's bound has a proof by its where-clauses and by what its crate sees, up to lifetimes. If it has one solution alone, these are it.
pub(crate) fn yes_is_proved()
    ensures { YesIsRight }
{}

// ---- several trait references

/// What the solver answers to a query of a text without a fault about several trait references is right.
pub(crate) fn several_are_answered_rightly()
    ensures { SeveralAreAnsweredRightly }
{}

// ---- the where-clauses of queries can be elaborated

/// Each where-clause of a query of a text without a fault has an argument for each parameter of its trait. This holds by what the query's
/// crate sees, and by all declarations that mean the same for the solver.
pub fn clauses_apply()
    ensures seen { TextsClausesApply }
    ensures solved { SolversClausesApply }
{}

// ---- the goals of a pair of impls

/// The goals of two impls that a crate sees in a text without a fault are well-formed, as the table of the pair resolves them. The crate
/// sees each struct and trait that they name, with as many arguments as declared, of the declared kinds. Variables may occur in them.
pub fn pair_goals_are_formed()
    ensures { PairGoalsAreFormed }
{}

/// If a search in coherence leaves a goal of such a pair open within a depth, and the goal is bounded within it, then the goal is possible.
pub fn open_pair_goals_are_possible()
    ensures { OpenPairGoalsArePossible }
{}

// ---- the supertraits of the headers of impls

/// The header and the where-clauses of an impl that a crate sees in a text without a fault have, with placeholders for its parameters, an
/// argument for each parameter of their traits. This holds by all declarations that mean for the solver what the crate sees.
pub fn impls_apply()
    ensures { SolversImplsApply }
{}

/// What the solver answers to the supertraits of an impl's header is right, by what the local crate sees of a text without a fault and by
/// the impl's where-clauses. Those that it proves have proofs, and one that it does not prove is not determinate.
pub(crate) fn supertraits_are_told()
    ensures { SupertraitsAreTold }
{}

// ---- impls that are ready for the solver

/// Impls that are ready for the solver are as a text writes them, and hold no variables.
pub fn ready_impls_are_written_well()
    ensures { ReadyAreWritten }
{}

// ---- the crates of a text without a fault, as a linked set

/// In each linked set, the where-clauses of a query that was answered `yes` by a view that the set holds entail the query's trait reference
/// with the values.
pub(crate) fn yes_holds_in_linked_sets()
    ensures { InEveryLinkedSet YesHolds }
{}

/// For linkers: a finite set of crates of any texts, closed under uses, that fit together, and each of which is accepted and held, is a
/// linked set. So no closed reference has proofs by two impls in it, and what was answered of its crates holds in it; also where the texts
/// list the auto traits of a `dyn` in different orders.
pub fn answered_sets_are_linked()
    ensures rules { TextsObeyTheirRules }
    ensures linked { AnsweredSetsAreLinked }
    ensures coherent { AnsweredSetsAreCoherent }
    ensures any_order { AnsweredSetsInAnyOrder }
{}

/// Two crates of two texts are such a set.
pub fn crates_of_two_texts_are_a_set()
    ensures { CratesOfTwoTextsAreASet }
{}

/// The crates of a text without a fault are a joined set, with the views that their answers are about, if all headers keep the orphan rule.
/// To be a linked set they lack only the supertraits of headers.
pub fn texts_are_joined()
    ensures { TextsAreJoined }
{}

/// A text lists the auto traits of each `dyn` in the order in which it declares them, each once.
pub fn texts_list_in_order()
    ensures { TextsListInOrder }
{}

/// If all crates of a text are accepted, and the supertraits of headers have proofs, then no concrete trait reference has proofs by two
/// impls, and the answers hold for the text as a whole.
pub fn accepted_texts_are_coherent()
    ensures { AcceptedTextsAreCoherent }
{}

/// The same holds if each crate proves the supertraits of its headers from what it sees and the impls' where-clauses, as
/// `Session::check_supertraits` finds it.
pub fn held_texts_are_coherent()
    ensures { HeldTextsAreCoherent }
{}

/// The header and the where-clauses of each impl of a text without a fault, also of impls that later versions add, name only what the
/// impl's crate sees.
pub fn impls_are_in_scope()
    ensures { ImplsAreInScope }
{}
