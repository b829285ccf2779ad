//! Lists of rules over terms as handlers of goals. Over the tables of frames they are lawful.

ghost use Rattle.std.specs.Prelude.{Bool};
ghost use Rattle.goal_evaluator.specs.Table.{Tables, IsTable};
ghost use Rattle.goal_evaluator.specs.Handler.{IsHandler};
ghost use Rattle.goal_evaluator.specs.Merge.{TellsResponsesApart, IsTest};
ghost use Rattle.goal_frames.specs.Listings.{Listing, IsListing, listed};
ghost use Rattle.goal_frames.specs.Handlers.{HandlersAreLawful};
ghost use Rattle.goal_frames.specs.RulePrograms.{RulesArePrograms};
ghost use Rattle.goal_frames.specs.RuleFitting.{CandidatesFit};
ghost use Rattle.goal_frames.specs.Forms.{CanonicalGoalsAreAsked};

/// A list of candidates for a goal, with the tests for responses that are always applicable and for equal responses.
pub trait Listed {
    ghost Question: { Type 0 };

    ghost Response: { Type 0 };

    ghost tables: { Tables Question Response };

    ghost applicable: { Response → Bool };

    ghost same: { Response → Response → Bool };

    ghost listing: { Listing tables };
}

/// Over lawful tables, a list of lawful candidates is a lawful plan: the candidates are evaluated one after another, and then all
/// responses are merged, by any test that only definite yeses pass.
pub fn listings_are_lawful<L: Listed>()
    requires tables { IsTable L.tables }
    requires test { IsTest L.tables L.applicable }
    requires told { TellsResponsesApart L.same }
    requires list { IsListing L.tables L.applicable L.same L.listing }
    ensures { IsHandler L.tables (listed L.tables L.applicable L.same L.listing) }
{}

/// A list of rules over terms is a lawful handler of every goal in every typing mode, over the tables of frames.
///
/// * Each rule of the goal's trait is a candidate, with its own variables numbered after the goal's. The result merges the
///   responses.
/// * A definite yes follows by a rule. The goal's variables determine the rule's own, since these occur in its head.
/// * In coherence each concrete instance with a proof by the rules is one by a candidate.
/// * A goal with where-clauses, or one that is not in canonical form, is not decided. If it has placeholders too, nothing is
///   stated about its solutions.
pub fn rule_handlers_are_lawful()
    ensures { HandlersAreLawful }
{}

/// Lists of rules over terms are lawful programs, whichever of their traits are coinductive. So the results of a search with
/// their frames are correct. A goal that recurs by inductive steps is an overflow in coherence. Otherwise it has no solution, and
/// no solutions are sought.
pub fn rules_are_programs()
    ensures { RulesArePrograms }
{}

/// The candidates of a list of rules contain only the goal's variables and their own, with the right kinds. So code can evaluate
/// them in a frame's table.
pub fn candidates_fit()
    ensures { CandidatesFit }
{}

/// A list of rules decides the canonical form of each goal without where-clauses.
pub fn canonical_goals_are_asked()
    ensures { CanonicalGoalsAreAsked }
{}
