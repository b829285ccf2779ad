//! Small handlers. They show that the laws of tables and handlers can be satisfied, and what frames do.
//!
//! Each function only states a fact in its contract.
#![tactic(auto)]

ghost use Rattle.std.specs.Prelude.{◌≡◌, List, [], ◌∷◌, None};
ghost use Rattle.goal_evaluator.specs.Table.{IsTable, workings};
ghost use Rattle.goal_evaluator.specs.Handler.{IsHandler};
ghost use Rattle.goal_evaluator.specs.System.{IsSystem, GraphsProve};
ghost use Rattle.goal_evaluator.specs.Promises.{DefiniteYesFollows, AnswerCoversGoal};
ghost use Rattle.goal_evaluator.specs.History.{evaluate, enter_candidate, finish_candidate, returns, begin, entered, evaluated, finished, ignored, ignore_candidate};
ghost use Rattle.test_handlers.specs.Atoms.{Goal, Response, AtomRuleBook, atoms, atom, unknown, handled_by, system_of, AtomHasProofByBook};
ghost use Rattle.goal_evaluator.specs.Correspondences.{RoundsCorrespond, CandidatesCorrespond, FramesCorrespond};
ghost use Rattle.test_handlers.specs.Counted.{counting, but_for_tables, but_for_counts};
ghost use Rattle.test_handlers.specs.Toys.{no_rule, one_rule, two_rules, three_premises, premise_binds, coinductive_rule, u8, bool, show, clone_goal, copy_goal, sized_goal, send, yes, yes_with, maybe, overflow, rounds_with_values, ToyAsks};

use goal_evaluator::promises::{
    CorrespondingOperations, CorrespondingWorkings, Evaluation, GoalSystem, answer_covers_goal,
    candidates_correspond, definite_yes_follows, frames_correspond, graph_has_proof,
    rounds_correspond,
};

/// The handlers of all lists of rules, over tables with one variable.
pub struct RuleBooks;

impl Evaluation for RuleBooks {
    ghost Question = { Goal };

    ghost Response = { Response };

    ghost tables = { atoms };

    ghost Goal = { AtomRuleBook × Goal };

    ghost handled = { λ goal. handled_by goal.0 goal.1 };
}

/// The tables with one variable satisfy the laws of tables.
pub fn atoms_are_lawful()
    ensures { IsTable atoms }
{}

/// The handler of each list of rules satisfies the laws of handlers.
pub fn rule_books_are_lawful()
    ensures { (book : AtomRuleBook) (goal : Goal) → IsHandler atoms (handled_by book goal) }
{}

/// The goals of a list of rules, with the rules that conclude them.
pub fn rule_books_are_systems()
    ensures { (book : AtomRuleBook) → IsSystem atoms (system_of book) }
{}

/// So the promises about frames hold of their frames.
pub fn rule_books_keep_promises()
    ensures yes { (book : AtomRuleBook) (goal : Goal) → DefiniteYesFollows atoms (handled_by book goal) }
    ensures covers { (book : AtomRuleBook) (goal : Goal) → AnswerCoversGoal atoms (handled_by book goal) }
{
    atoms_are_lawful();
    rule_books_are_lawful();
    definite_yes_follows::<RuleBooks>();
    answer_covers_goal::<RuleBooks>();
}

/// The goals of the rule `send(x) if send(x)`.
pub struct CoinductiveRule;

impl GoalSystem for CoinductiveRule {
    ghost Question = { Goal };

    ghost Response = { Response };

    ghost tables = { atoms };

    ghost system = { system_of coinductive_rule };
}

/// A proof graph of a goal of this rule, which needs itself, gives each of its instances a proof.
pub fn coinductive_graphs_prove()
    ensures { GraphsProve atoms (system_of coinductive_rule) }
{
    rule_books_are_systems();
    graph_has_proof::<CoinductiveRule>();
}

/// The tables with one variable, and the same tables with the number of responses that were applied to them.
pub struct CountedAtoms;

impl CorrespondingOperations for CountedAtoms {
    ghost Question = { Goal };

    ghost Response = { Response };

    ghost OtherQuestion = { Goal };

    ghost OtherResponse = { Response };

    ghost one = { (workings atoms).operations };

    ghost other = { (counting (workings atoms)).operations };

    ghost correspondence = { (but_for_tables (workings atoms) (λ table counted. table ≡ counted.table)).rounds };
}

impl CorrespondingWorkings for CountedAtoms {
    ghost Question = { Goal };

    ghost Response = { Response };

    ghost OtherQuestion = { Goal };

    ghost OtherResponse = { Response };

    ghost one = { workings atoms };

    ghost other = { counting (workings atoms) };

    ghost correspondence = { but_for_tables (workings atoms) (λ table counted. table ≡ counted.table) };
}

/// Counting does not change the requests and results of rounds, candidates and frames.
#[tactic(auto, using(crate::proofs::Counted::atoms_correspond))]
pub fn counting_changes_nothing()
    ensures rounds { RoundsCorrespond (workings atoms).operations (counting (workings atoms)).operations (but_for_counts (workings atoms)).rounds }
    ensures candidates { CandidatesCorrespond (workings atoms) (counting (workings atoms)) (but_for_counts (workings atoms)) }
    ensures frames { FramesCorrespond (workings atoms) (counting (workings atoms)) (but_for_counts (workings atoms)) }
{
    rounds_correspond::<CountedAtoms>();
    candidates_correspond::<CountedAtoms>();
    frames_correspond::<CountedAtoms>();
}

/// Without a rule there is no candidate, and the goal fails at once.
pub fn no_rule_is_refused()
    ensures { ToyAsks no_rule (show (atom u8)) (begin ∷ []) (returns None) }
{}

/// `show(u8)` holds by a rule without premises. `show(bool)` fails by its equation. A variable gets the value `u8`.
pub fn one_rule_answers()
    ensures begins { ToyAsks one_rule (show (atom u8)) (begin ∷ []) enter_candidate }
    ensures ends { ToyAsks one_rule (show (atom u8)) (entered ∷ begin ∷ []) finish_candidate }
    ensures yes { ToyAsks one_rule (show (atom u8)) (finished 0 ∷ entered ∷ begin ∷ []) (returns yes) }
    ensures ignores { ToyAsks one_rule (show (atom bool)) (finished 0 ∷ entered ∷ begin ∷ []) (ignore_candidate 0) }
    ensures refused { ToyAsks one_rule (show (atom bool)) (ignored ∷ finished 0 ∷ entered ∷ begin ∷ []) (returns None) }
    ensures bound { ToyAsks one_rule (show unknown) (finished 0 ∷ entered ∷ begin ∷ []) (returns (yes_with u8)) }
{}

/// Two rules with different values leave the goal ambiguous.
pub fn two_rules_are_ambiguous()
    ensures known { ToyAsks two_rules (show (atom bool)) (ignored ∷ finished 1 ∷ entered ∷ finished 0 ∷ entered ∷ begin ∷ []) (returns yes) }
    ensures open { ToyAsks two_rules (show unknown) (finished 1 ∷ entered ∷ finished 0 ∷ entered ∷ begin ∷ []) (returns maybe) }
{}

/// Three premises are evaluated in order. If the second fails, the third is not evaluated.
pub fn three_premises_are_asked_in_order()
    ensures first { ToyAsks three_premises (show (atom u8)) (entered ∷ begin ∷ []) (evaluate (clone_goal (atom u8))) }
    ensures second { ToyAsks three_premises (show (atom u8)) (evaluated yes ∷ entered ∷ begin ∷ []) (evaluate (copy_goal (atom u8))) }
    ensures third { ToyAsks three_premises (show (atom u8)) (evaluated yes ∷ evaluated yes ∷ entered ∷ begin ∷ []) (evaluate (sized_goal (atom u8))) }
    ensures yes { ToyAsks three_premises (show (atom u8))
        (finished 0 ∷ evaluated yes ∷ evaluated yes ∷ evaluated yes ∷ entered ∷ begin ∷ []) (returns yes) }
    ensures refused { ToyAsks three_premises (show (atom u8)) (evaluated None ∷ evaluated yes ∷ entered ∷ begin ∷ []) finish_candidate }

    // In a round without values, the premises that are not yes remain, and an overflow among them is the cause.
    ensures ambiguous { ToyAsks three_premises (show (atom u8))
        (finished 0 ∷ evaluated yes ∷ evaluated maybe ∷ evaluated yes ∷ entered ∷ begin ∷ []) (returns maybe) }
    ensures overflowed { ToyAsks three_premises (show (atom u8))
        (finished 0 ∷ evaluated maybe ∷ evaluated overflow ∷ evaluated yes ∷ entered ∷ begin ∷ []) (returns overflow) }
{}

/// A premise that gives the variable a value is evaluated again with it. After eight rounds with values the result is an
/// overflow without values.
pub fn premise_binds_unknown()
    ensures asked { ToyAsks premise_binds (show unknown) (entered ∷ begin ∷ []) (evaluate (clone_goal unknown)) }
    ensures asked_again { ToyAsks premise_binds (show unknown) (evaluated (yes_with u8) ∷ entered ∷ begin ∷ []) (evaluate (clone_goal (atom u8))) }
    ensures bound { ToyAsks premise_binds (show unknown)
        (finished 0 ∷ evaluated yes ∷ evaluated (yes_with u8) ∷ entered ∷ begin ∷ []) (returns (yes_with u8)) }
    ensures eighth { ToyAsks premise_binds (show unknown) (rounds_with_values 7 (entered ∷ begin ∷ [])) (evaluate (clone_goal (atom u8))) }
    ensures no_ninth { ToyAsks premise_binds (show unknown) (finished 0 ∷ rounds_with_values 8 (entered ∷ begin ∷ [])) (returns overflow) }
{}

/// A coinductive goal that needs itself has a proof, and its frame evaluates itself.
pub fn coinductive_rule_needs_itself()
    ensures asked { ToyAsks coinductive_rule (send (atom u8)) (entered ∷ begin ∷ []) (evaluate (send (atom u8))) }
    ensures yes { ToyAsks coinductive_rule (send (atom u8)) (finished 0 ∷ evaluated yes ∷ entered ∷ begin ∷ []) (returns yes) }
    ensures proved { AtomHasProofByBook coinductive_rule (4, u8) }
{}
