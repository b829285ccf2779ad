//! The candidate for what crates outside the view may say.
ghost use Rattle.type_terms.specs.Growth.{GrewOrFull};
ghost use Rattle.std.specs.Prelude.{◌≡◌, IfOk};
ghost use Rattle.infer_table.specs.Goals.{GoalHeld};
ghost use Rattle.goal_evaluator.specs.Readings.{SpecHeld};
ghost use Rattle.declarations.specs.Items.{written};
ghost use Rattle.declarations.specs.Held.{AreHeld};
ghost use Rattle.declarations.specs.Applied.{IsApplied, HaveBounds};
ghost use Rattle.candidate_model.specs.Candidates.{unknowable};
ghost use Rattle.built_in_candidates.specs.Goals.{asked_of, candidate_of};

use built_in_candidates::parts::nested_goals;
use declarations::declarations::Declarations;
use goal_evaluator::{CandidateSource, CandidateSpec, Certainty, GoalSource, MaybeCause};
use infer_table::input::CanonicalInput;
use std::alloc::Global;
use type_terms::Fault;
use type_terms::interner::Interner;

/// The candidate that a crate outside the view may have an impl for the goal. It is ambiguous. Such an impl also has the goal's
/// supertraits, so these are its nested goals. If one of them fails, there is no such impl.
///
/// Fails with `Memory`, or with `Full` if a table of the interner is full. rustc: `consider_coherence_unknowable_candidate`.
pub fn consider_coherence_unknowable_candidate(
    alloc: Global,
    cx: &mut Interner,
    declarations: &Declarations,
    goal: &CanonicalInput,
) -> Result<CandidateSpec, Fault>
    requires goal { GoalHeld cx.old.entries goal.now.goal }
    requires declared { AreHeld cx.old.entries declarations.now }
    requires bounds { HaveBounds cx.old.entries declarations.now }
    requires applied { IsApplied cx.old.entries declarations.now goal.now.goal.predicate.trait_ref }
    ensures terms { GrewOrFull cx.old cx.new result }
    ensures held { IfOk result (SpecHeld cx.new.entries) }
    ensures is { IfOk result (λ s. candidate_of (written cx.old.entries declarations.now) goal.now.goal.predicate.trait_ref.def_id.index cx.new.entries s
        ≡ unknowable (written cx.old.entries declarations.now) (asked_of cx.old.entries goal.now)) }
{
    let supertraits = declarations.supertraits(alloc, cx, goal.goal.predicate.trait_ref)?;
    let nested_goals = nested_goals(alloc, goal, GoalSource::Misc, &supertraits)?;
    Ok(CandidateSpec {
        source: CandidateSource::CoherenceUnknowable,
        variables: Vec::new(alloc),
        equations: Vec::new(alloc),
        region_constraints: Vec::new(alloc),
        nested_goals,
        certainty: Certainty::Maybe(MaybeCause::Ambiguity),
    })
}
