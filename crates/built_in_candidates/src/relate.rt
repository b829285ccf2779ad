//! Equations between the arguments of trait references, and which of these references are disjoint.
ghost use Rattle.type_terms.specs.Growth.{GrewOrFull};
ghost use Rattle.std.specs.Prelude.{◌≡◌, IfOk, IfErr, map};
ghost use Rattle.type_terms.specs.Promised.Handles.{Has, trees_at};
ghost use Rattle.type_terms.specs.Terms.{args_lists};
ghost use Rattle.type_terms.specs.declared.Fault.TheVariants.{Memory};
ghost use Rattle.goal_evaluator.specs.Lists.{Every};
ghost use Rattle.goal_evaluator.specs.Readings.{EquationHeld};
ghost use Rattle.goal_evaluator.specs.StepReadings.{equation_read};
ghost use Rattle.declarations.specs.Items.{reference_in};
ghost use Rattle.declarations.specs.Held.{ReferenceHeld};
ghost use Rattle.candidate_model.specs.Candidates.{all_equal, can_be, never_met};
ghost use Rattle.built_in_candidates.specs.Equations.{ArePaired};

use declarations::apart::are_apart;
use infer_table::terms::Equation;
use std::alloc::Global;
use term_folds::predicate::TraitRef;
use type_terms::Fault;
use type_terms::interner::Interner;
use type_terms::kinds::{GenericArgKind, GenericArgs, TyKind};

/// Whether a where-clause, or a bound of a `dyn`, can be what is asked: it is of the same trait, and its arguments are not disjoint from
/// those that are asked.
///
/// rustc: `fast_reject_assumption`, by `DeepRejectCtxt`.
pub fn can_be(cx: &Interner, asked: TraitRef, trait_ref: TraitRef) -> bool
    requires asked { ReferenceHeld cx.now.entries asked }
    requires held { ReferenceHeld cx.now.entries trait_ref }
    ensures { result ≡ can_be (reference_in cx.now.entries asked) (reference_in cx.now.entries trait_ref) }
{
    trait_ref.def_id.index == asked.def_id.index && !are_apart(cx, asked.args, trait_ref.args)
}

/// Equations between the arguments with the same index in two lists, and whether one list is longer. Fails only with `Memory`.
fn paired_args(
    alloc: Global,
    first: &[GenericArgKind],
    second: &[GenericArgKind],
) -> Result<(Vec<Equation>, bool), Fault>
    ensures are { IfOk result (λ r. ArePaired first.now second.now (r.0.items, r.1)) }
    ensures memory { IfErr result (λ fault. fault ≡ Memory) }
{
    let mut found = Vec::new(alloc);
    let mut xs = first;
    let mut ys = second;
    'pairs: loop {
        match (xs.split_first(), ys.split_first()) {
            (Some((x, xs_left)), Some((y, ys_left))) => {
                found.push(Equation {
                    left: *x,
                    right: *y,
                })?;
                xs = xs_left;
                ys = ys_left;
            }
            (None, None) => return Ok((found, false)),
            (Some(_), None) => return Ok((found, true)),
            (None, Some(_)) => return Ok((found, true)),
        }
    }
}

/// An equation without solutions: `bool` is `char`.
fn never_met(cx: &mut Interner) -> Result<Equation, Fault>
    ensures terms { GrewOrFull cx.old cx.new result }
    ensures held { IfOk result (EquationHeld cx.new.entries) }
    ensures is { IfOk result (λ e. equation_read cx.new.entries e ≡ never_met) }
{
    let bool_ty = cx.mk_ty(TyKind::Bool)?;
    let char_ty = cx.mk_ty(TyKind::Char)?;
    Ok(Equation {
        left: GenericArgKind::Ty(bool_ty),
        right: GenericArgKind::Ty(char_ty),
    })
}

/// Equations that hold if two lists of arguments are equal. Lists of different lengths are never equal, so they get an equation without
/// solutions. Fails with `Memory`, or with `Full` if the interner has no room for the terms of that equation. rustc: `relate_args`.
pub fn relate_args(
    alloc: Global,
    cx: &mut Interner,
    left: GenericArgs,
    right: GenericArgs,
) -> Result<Vec<Equation>, Fault>
    requires left { Has cx.old.entries args_lists left.0 }
    requires right { Has cx.old.entries args_lists right.0 }
    ensures terms { GrewOrFull cx.old cx.new result }
    ensures held { IfOk result (λ v. Every (EquationHeld cx.new.entries) v.items) }
    ensures are { IfOk result (λ v. map (equation_read cx.new.entries) v.items ≡ all_equal (trees_at cx.old.entries left.0) (trees_at cx.old.entries right.0)) }
{
    cx.lawful();
    let (mut equations, is_longer) = paired_args(alloc, cx.args(left), cx.args(right))?;
    if is_longer {
        let never = never_met(cx)?;
        equations.push(never)?;
        return Ok(equations);
    }
    Ok(equations)
}
