//! Parts of candidates.
ghost use Rattle.std.specs.Prelude.{◌≡◌, Bool, List, IfOk, IfErr, map, []};
ghost use Rattle.type_terms.specs.Promised.Handles.{Entry};
ghost use Rattle.type_terms.specs.declared.Fault.TheVariants.{Memory};
ghost use Rattle.infer_table.specs.Goals.{GoalHeld};
ghost use Rattle.type_terms.specs.Promised.Worlds.{World};
ghost use Rattle.goal_evaluator.specs.Lists.{Every};
ghost use Rattle.goal_evaluator.specs.Readings.{SpecHeld, EquationHeld, is_coinductive_step};
ghost use Rattle.goal_evaluator.specs.StepReadings.{nested_read, spec_read, equation_read};
ghost use Rattle.declarations.specs.Items.{reference_in};
ghost use Rattle.declarations.specs.Held.{ReferenceHeld};
ghost use Rattle.declarations.specs.Applied.{references_in, TraitRefsHeld};
ghost use Rattle.candidate_model.specs.Candidates.{premise, by_rule, unsure};
ghost use Rattle.built_in_candidates.specs.Goals.{asked_of, candidate_of, nested_of, NestedGoalsHeld};

use goal_evaluator::{
    BuiltinImplSource, CandidateSource, CandidateSpec, Certainty, Goal, GoalSource, MaybeCause,
};
use infer_table::input::CanonicalInput;
use infer_table::terms::Equation;
use std::alloc::Global;
use term_folds::predicate::{TraitPredicate, TraitRef};
use type_terms::Fault;
use type_terms::kinds::Ty;

/// The two types of a goal `self_ty: Unsize<target>`.
#[derive(Clone, Copy)]
pub struct Coercion {
    pub self_ty: Ty,
    pub target: Ty,
}

/// A trait reference as a nested goal, with the goal's where-clauses. Fails only with `Memory`.
fn nested_goal(
    alloc: Global,
    goal: &CanonicalInput,
    source: GoalSource,
    trait_ref: TraitRef,
) -> Result<(GoalSource, Goal), Fault>
    ensures is { IfOk result (λ n. (es : List Entry) (kind : Bool)
        → nested_read es kind n ≡ premise (asked_of es goal.now) (is_coinductive_step kind source) (reference_in es trait_ref)) }
    ensures held { IfOk result (λ n. (es : List Entry) → GoalHeld es goal.now.goal → ReferenceHeld es trait_ref → GoalHeld es n.1) }
    ensures memory { IfErr result (λ fault. fault ≡ Memory) }
{
    let goal = Goal {
        param_env: Vec::from_slice(alloc, &goal.goal.param_env)?,
        predicate: TraitPredicate { trait_ref },
    };
    Ok((source, goal))
}

/// Trait references as nested goals, with the goal's where-clauses. Fails only with `Memory`.
pub fn nested_goals(
    alloc: Global,
    goal: &CanonicalInput,
    source: GoalSource,
    references: &[TraitRef],
) -> Result<Vec<(GoalSource, Goal)>, Fault>
    ensures are { IfOk result (λ v. (es : List Entry) (kind : Bool)
        → nested_of es kind v.items ≡ map (premise (asked_of es goal.now) (is_coinductive_step kind source)) (references_in es references.now)) }
    ensures held { IfOk result (λ v. (es : List Entry) → GoalHeld es goal.now.goal → TraitRefsHeld es references.now → NestedGoalsHeld es v.items) }
    ensures memory { IfErr result (λ fault. fault ≡ Memory) }
{
    let mut nested = Vec::new(alloc);
    let mut left = references;
    'references: while let Some((next, others)) = left.split_first() {
        let goal = nested_goal(alloc, goal, source, *next)?;
        nested.push(goal)?;
        left = others;
    }
    Ok(nested)
}

/// The candidate by a rule without variables of its own. If the equations hold, it is as certain as its premises. These are nested goals
/// like the where-clauses of an impl. Fails only with `Memory`.
pub fn by_rule(
    alloc: Global,
    goal: &CanonicalInput,
    source: CandidateSource,
    equations: Vec<Equation>,
    premises: &[TraitRef],
) -> Result<CandidateSpec, Fault>
    ensures is { IfOk result (λ s. (es : List Entry) (V : World)
        → candidate_of V goal.now.goal.predicate.trait_ref.def_id.index es s
        ≡ by_rule V (asked_of es goal.now) source (map (equation_read es) equations.items) (references_in es premises.now)) }
    ensures held { IfOk result (λ s. (es : List Entry) → GoalHeld es goal.now.goal → Every (EquationHeld es) equations.items → TraitRefsHeld es premises.now
        → SpecHeld es s) }
    ensures memory { IfErr result (λ fault. fault ≡ Memory) }
{
    let nested_goals = nested_goals(alloc, goal, GoalSource::ImplWhereBound, premises)?;
    Ok(CandidateSpec {
        source,
        variables: Vec::new(alloc),
        equations,
        region_constraints: Vec::new(alloc),
        nested_goals,
        certainty: Certainty::Yes,
    })
}

/// The ambiguous candidate. A goal that cannot be decided has no other.
pub fn unsure(alloc: Global) -> CandidateSpec
    ensures is { (es : List Entry) (kind : Bool) → spec_read es kind result ≡ unsure }
    ensures held { (es : List Entry) → SpecHeld es result }
{
    CandidateSpec {
        source: CandidateSource::BuiltinImpl(BuiltinImplSource::Misc),
        variables: Vec::new(alloc),
        equations: Vec::new(alloc),
        region_constraints: Vec::new(alloc),
        nested_goals: Vec::new(alloc),
        certainty: Certainty::Maybe(MaybeCause::Ambiguity),
    }
}
