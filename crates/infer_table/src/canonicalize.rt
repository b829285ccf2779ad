//! The canonical form of a response.
ghost use Rattle.type_terms.specs.Growth.{GrewOrFull};
ghost use Rattle.std.specs.Prelude.{◌≡◌, ℕ, List, [], IfOk, IfErr, map, Some};
ghost use Rattle.type_terms.specs.Promised.Trees.{◌+++◌};
ghost use Rattle.type_terms.specs.Promised.Handles.{Has, trees_at};
ghost use Rattle.type_terms.specs.Terms.{args_lists};
ghost use Rattle.type_terms.specs.Promised.Handles.{ArgsHeld};
ghost use Rattle.type_terms.specs.Kinds.{args_trees};
ghost use Rattle.infer_table.specs.Canonical.{canonical_form, kind_of_leaf, HasNoCanonical};
ghost use Rattle.infer_table.specs.Content.{Ready, AllConstraintsHeld};
ghost use Rattle.infer_table.specs.Constraints.{constraints_trees};
ghost use Rattle.infer_table.specs.Leaves.{AreLeaves, OpenAreLeaves, labels};
ghost use Rattle.infer_table.specs.Responses.{as_goal, response_form, answer_leaves, ResponseHeld};
ghost use Rattle.infer_table.specs.TableSays.{values_resolved, answer_given, numbered_values, numbered_constraints};
ghost use Rattle.infer_table.specs.AnswersApplied.{AgreesWithAll};
ghost use Rattle.infer_table.specs.Covers.{AreNumbered};

use crate::canonicalizer::{Canonicalizer, LeafCollector};
use crate::certainty::Certainty;
use crate::constraints::{fold_constraints, resolve_constraints};
use crate::infer_ctxt::InferCtxt;
use crate::input::variable_kinds;
use crate::response::CanonicalResponse;
use crate::terms::RegionConstraint;
use indexmap::IndexSet;
use std::alloc::Global;
use term_folds::foldable::TypeFoldable;
use type_terms::Fault;
use type_terms::interner::Interner;
use type_terms::kinds::{GenericArgKind, GenericArgs};

/// The open leaves of the values and then of the constraints, each once, in order of first occurrence.
fn collect_leaves(
    alloc: Global,
    cx: &Interner,
    values: GenericArgs,
    constraints: &[RegionConstraint],
) -> Result<LeafCollector, Fault>
    requires values { Has cx.now.entries args_lists values.0 }
    requires constraints { AllConstraintsHeld cx.now.entries constraints.now }
    ensures listed { IfOk result (λ s. AreLeaves cx.now.entries s.leaves.keys) }
    ensures leaves { IfOk result (λ s. labels cx.now.entries s.leaves.keys
        ≡ answer_leaves (trees_at cx.now.entries values.0 +++ constraints_trees cx.now.entries constraints.now)) }
    ensures only { IfOk result (λ s. OpenAreLeaves kind_of_leaf (trees_at cx.now.entries values.0)) }
    ensures memory { IfErr result (λ e. e ≡ Fault.Memory) }
{
    let mut collector = LeafCollector {
        leaves: IndexSet::new(alloc),
        in_clause: false,
    };
    collector = collector.collect(alloc, cx, values)?;
    for constraint in constraints {
        collector = collector.collect(alloc, cx, *constraint)?;
    }
    Ok(collector)
}

/// The canonical response for a goal: the values of its variables and the recorded constraints on lifetimes.
///
/// `values` are the values of the variables of the canonical goal. They and the constraints are resolved by the table.
/// Then each inference variable, parameter, placeholder and lifetime in them is numbered by first occurrence. `'static` is
/// numbered like any other lifetime. So two responses are equal exactly if a renaming maps one to the other.
///
/// A response whose certainty is an overflow must not constrain anything. Use `response_no_constraints_raw` for it.
/// The call also fails with `Memory` if there are more leaves than numbers. rustc's `make_canonical_response` with
/// `canonicalize_response`.
pub fn canonicalize_response(
    alloc: Global,
    cx: &mut Interner,
    table: &InferCtxt,
    certainty: Certainty,
    values: &[GenericArgKind],
) -> Result<CanonicalResponse, Fault>
    requires ready { Ready cx.old.entries table.now }
    requires held { ArgsHeld cx.old.entries values.now }
    ensures terms { GrewOrFull cx.old cx.new result }
    ensures certainty { IfOk result (λ r. r.certainty ≡ certainty) }
    ensures held { IfOk result (λ r. ResponseHeld cx.new.entries r) }

    // The form is the canonical form of the resolved values and constraints.
    ensures form { IfOk result (λ r. response_form cx.new.entries r ≡ canonical_form (as_goal (answer_given cx.old.entries table.now values.now))) }

    // The values and constraints of the response are the resolved ones, numbered.
    ensures values { IfOk result (λ r. args_trees cx.new.entries r.var_values.items ≡ numbered_values cx.old.entries table.now values.now) }
    ensures constraints { IfOk result (λ r. constraints_trees cx.new.entries r.region_constraints.items
        ≡ numbered_constraints cx.old.entries table.now values.now) }

    // The response agrees with each solution of the table, and its variables are of its kinds.
    ensures agrees { IfOk result (λ r. HasNoCanonical (values_resolved cx.old.entries table.now values.now)
        → AgreesWithAll cx.old.entries table.now values.now cx.new.entries r) }
    ensures numbered { IfOk result (λ r. HasNoCanonical (values_resolved cx.old.entries table.now values.now)
        → AreNumbered r.variables.items (args_trees cx.new.entries r.var_values.items)) }

// `Full` is returned only if some kind of term has reached its limit.
{
    let given = cx.mk_args(Vec::from_slice(alloc, values)?)?;
    let resolved = table.eager_resolve_vars(cx, given)?;
    let constraints = resolve_constraints(alloc, cx, table, table.region_constraints())?;
    let collected = collect_leaves(alloc, cx, resolved, &constraints)?;
    let variables = variable_kinds(alloc, cx, collected.leaves.as_slice())?;
    let folder = Canonicalizer {
        leaves: &collected.leaves,
        in_clause: false,
    };
    let numbered = resolved.fold_with(alloc, cx, &folder)?;
    let region_constraints = fold_constraints(alloc, cx, &folder, &constraints)?;
    let var_values = Vec::from_slice(alloc, cx.args(numbered))?;
    Ok(CanonicalResponse {
        variables,
        certainty,
        var_values,
        region_constraints,
    })
}
