//! Canonical goals.
ghost use Rattle.type_terms.specs.Growth.{GrewOrFull};
ghost use Rattle.std.specs.Prelude.{◌≡◌, ◌↔◌, ℕ, List, IfOk, IfErr, IsTrue, IsSome, map, Some};
ghost use Rattle.type_terms.specs.Promised.Handles.{ArgsHeld};
ghost use Rattle.infer_table.specs.Content.{Ready};
ghost use Rattle.infer_table.specs.Canonical.{canonical_label, goal_leaves, renamed, kind_of_leaf};
ghost use Rattle.infer_table.specs.Goals.{GoalHeld, PredicateHeld, goal_trees, predicate_trees};
ghost use Rattle.infer_table.specs.Leaves.{AreLeaves, AreOpen, OpenAreLeavesOf, labels, leaf_label, IsLeaf, is_closed_goal};
ghost use Rattle.infer_table.specs.Responses.{numbered_by};
ghost use Rattle.infer_table.specs.Inputs.{IsCanonicalInput, IsItsOwnForm, AreEqual};
ghost use Rattle.infer_table.specs.TableSays.{resolved_goal, GivesBack, TellsQuestions};

use crate::canonical::CanonicalVarKind;
use crate::canonicalizer::{Canonicalizer, LeafCollector, is_closed};
use crate::certainty::TypingMode;
use crate::goal::{Goal, fold_clauses};
use crate::infer_ctxt::InferCtxt;
use crate::resolving::resolve_goal;
use indexmap::IndexSet;
use std::alloc::{AllocError, Global};
use term_folds::foldable::TypeFoldable;
use term_folds::predicate::TraitPredicate;
use type_terms::Fault;
use type_terms::interner::Interner;
use type_terms::kinds::{ConstKind, GenericArgKind, TyKind};
use type_terms::visitable::TypeVisitable;
use type_terms::visitable_ext::TypeVisitableExt;

/// A canonical goal. It is the input of the search, and the key under which the result is cached.
///
/// rustc's `CanonicalInput`. Canonical variable i replaces a leaf of the kind `variables[i]`.
#[derive(PartialEq, Eq, Hash, Drop)]
pub struct CanonicalInput {
    pub mode: TypingMode,
    pub goal: Goal,
    pub variables: Vec<CanonicalVarKind>,
}

impl Clone for CanonicalInput {
    ghost use Rattle.infer_table.specs.Inputs.{AreEqual};

    ghost is_clone = { λ a b. AreEqual b a };

    fn clone(&self) -> Result<CanonicalInput, AllocError> {
        let goal = self.goal.clone()?;
        let variables = Vec::from_slice(*self.variables.allocator(), &self.variables)?;
        Ok(CanonicalInput {
            mode: self.mode,
            goal,
            variables,
        })
    }
}

/// Whether two canonical goals are equal.
///
/// They are equal exactly if they have the same mode and a renaming maps one of the original goals to the other. A
/// renaming maps inference variables, parameters with placeholders, and lifetimes, each one-to-one. So results can be
/// cached by canonical goal.
pub fn is_same_question(cx: &Interner, left: &CanonicalInput, right: &CanonicalInput) -> bool
    ensures equal { IsTrue result ↔ AreEqual left.now right.now }
    ensures renaming { TellsQuestions cx.now.entries left.now right.now result }
{
    cx.lawful();
    left == right
}

/// A canonical goal with the leaves that its variables replace.
#[derive(Drop)]
pub struct Canonicalized {
    pub input: CanonicalInput,
    pub values: Vec<GenericArgKind>,
}

/// The canonical form of the resolved goal. rustc's `Canonicalizer::canonicalize_input`.
///
/// Each inference variable, parameter, placeholder and lifetime is numbered by first occurrence. `(?7, ?9, ?7): Show` and
/// `(?3, ?4, ?3): Show` both have the form `(^0, ^1, ^0): Show`. So has `(?7, ?9, ?8): Show` if ?8 has the value ?7.
/// `'static` is numbered outside where-clauses only. The call also fails with `Memory` if there are more leaves than
/// numbers.
///
/// A goal without open leaves is its own form. The flags of its terms show this, so its terms are not visited.
pub fn canonicalize_goal(
    alloc: Global,
    cx: &mut Interner,
    table: &InferCtxt,
    mode: TypingMode,
    goal: &Goal,
) -> Result<Canonicalized, Fault>
    requires held { GoalHeld cx.old.entries goal.now }
    requires ready { Ready cx.old.entries table.now }
    ensures ready { Ready cx.new.entries table.now }
    ensures terms { GrewOrFull cx.old cx.new result }
    ensures mode { IfOk result (λ r. r.input.mode ≡ mode) }

    // The form is the canonical form of the resolved goal.
    ensures form { IfOk result (λ r. IsCanonicalInput cx.new.entries (resolved_goal cx.old.entries table.now goal.now) r.input) }

    // A goal without open leaves is its own form.
    ensures closed { IfOk result (λ r. IsTrue (is_closed_goal (goal_trees cx.old.entries goal.now)) → IsItsOwnForm mode goal.now r) }

    // The values are the open leaves of the resolved goal.
    ensures held { IfOk result (λ r. AreLeaves cx.new.entries r.values.items) }
    ensures args { IfOk result (λ r. ArgsHeld cx.new.entries r.values.items) }
    ensures values { IfOk result (λ r. labels cx.new.entries r.values.items ≡ goal_leaves (resolved_goal cx.old.entries table.now goal.now)) }

    // The form with these values for its variables is the resolved goal.
    ensures back { IfOk result (λ r. GivesBack cx.new.entries r (resolved_goal cx.old.entries table.now goal.now)) }

// `Full` is returned only if some kind of term has reached its limit.
{
    if is_closed_goal(cx, goal) {
        return own_form(alloc, mode, goal);
    }
    let resolved = resolve_goal(alloc, cx, table, goal)?;
    canonicalize_resolved(alloc, cx, mode, &resolved)
}

/// Whether the goal has no open leaf.
fn is_closed_goal(cx: &Interner, goal: &Goal) -> bool
    requires { GoalHeld cx.now.entries goal.now }
    ensures { result ≡ is_closed_goal (goal_trees cx.now.entries goal.now) }
{
    'clauses: for clause in &goal.param_env {
        if !is_closed(clause.flags(cx), true) {
            return false;
        }
    }
    is_closed(goal.predicate.flags(cx), false)
}

/// The goal as its own canonical form.
fn own_form(alloc: Global, mode: TypingMode, goal: &Goal) -> Result<Canonicalized, Fault>
    ensures form { IfOk result (λ r. IsItsOwnForm mode goal.now r) }
    ensures memory { IfErr result (λ e. e ≡ Fault.Memory) }
{
    let param_env = Vec::from_slice(alloc, &goal.param_env)?;
    let goal = Goal {
        param_env,
        predicate: goal.predicate,
    };
    let input = CanonicalInput {
        mode,
        goal,
        variables: Vec::new(alloc),
    };
    Ok(Canonicalized {
        input,
        values: Vec::new(alloc),
    })
}

/// `canonicalize_goal` for a resolved goal.
fn canonicalize_resolved(
    alloc: Global,
    cx: &mut Interner,
    mode: TypingMode,
    goal: &Goal,
) -> Result<Canonicalized, Fault>
    requires { GoalHeld cx.old.entries goal.now }
    ensures terms { GrewOrFull cx.old cx.new result }
    ensures mode { IfOk result (λ r. r.input.mode ≡ mode) }

    // The form is the canonical form of the goal.
    ensures form { IfOk result (λ r. IsCanonicalInput cx.new.entries (goal_trees cx.old.entries goal.now) r.input) }

    // The values are the open leaves of the goal.
    ensures held { IfOk result (λ r. AreLeaves cx.new.entries r.values.items) }
    ensures args { IfOk result (λ r. ArgsHeld cx.new.entries r.values.items) }
    ensures values { IfOk result (λ r. labels cx.new.entries r.values.items ≡ goal_leaves (goal_trees cx.old.entries goal.now)) }

    // The form with these values for its variables is the goal.
    ensures back { IfOk result (λ r. GivesBack cx.new.entries r (goal_trees cx.old.entries goal.now)) }

// `Full` is returned only if some kind of term has reached its limit.
{
    cx.lawful();
    let collected = collect_leaves(alloc, cx, goal)?;
    let values = Vec::from_slice(alloc, collected.leaves.as_slice())?;
    let variables = variable_kinds(alloc, cx, &values)?;
    let goal = number_leaves(alloc, cx, &collected.leaves, goal)?;
    let input = CanonicalInput {
        mode,
        goal,
        variables,
    };
    Ok(Canonicalized { input, values })
}

/// The open leaves of the goal, each once, in order of first occurrence.
fn collect_leaves(alloc: Global, cx: &Interner, goal: &Goal) -> Result<LeafCollector, Fault>
    requires { GoalHeld cx.now.entries goal.now }
    ensures listed { IfOk result (λ s. AreLeaves cx.now.entries s.leaves.keys) }
    ensures leaves { IfOk result (λ s. labels cx.now.entries s.leaves.keys ≡ goal_leaves (goal_trees cx.now.entries goal.now)) }
    ensures only { IfOk result (λ s. OpenAreLeavesOf (goal_trees cx.now.entries goal.now)) }
    ensures memory { IfErr result (λ e. e ≡ Fault.Memory) }
{
    let mut collector = LeafCollector {
        leaves: IndexSet::new(alloc),
        in_clause: true,
    };
    'clauses: for clause in &goal.param_env {
        collector = collector.collect(alloc, cx, *clause)?;
    }
    if !is_closed(goal.predicate.flags(cx), false) {
        collector.in_clause = false;
        collector = collector.collect(alloc, cx, goal.predicate)?;
    }
    Ok(collector)
}

/// The kind of each leaf.
pub fn variable_kinds(
    alloc: Global,
    cx: &Interner,
    leaves: &[GenericArgKind],
) -> Result<Vec<CanonicalVarKind>, Fault>
    requires listed { AreLeaves cx.now.entries leaves.now }
    requires open { AreOpen (labels cx.now.entries leaves.now) }
    ensures kinds { IfOk result (λ ks. map Some ks.items ≡ map kind_of_leaf (labels cx.now.entries leaves.now)) }
    ensures memory { IfErr result (λ e. e ≡ Fault.Memory) }
{
    let mut kinds = Vec::new(alloc);
    'leaves: for leaf in leaves {
        kinds.push(variable_kind(cx, *leaf))?;
    }
    Ok(kinds)
}

fn variable_kind(cx: &Interner, leaf: GenericArgKind) -> CanonicalVarKind
    requires leaf { IsLeaf cx.now.entries leaf }
    requires open { IsSome (kind_of_leaf (leaf_label cx.now.entries leaf)) }
    ensures { Some result ≡ kind_of_leaf (leaf_label cx.now.entries leaf) }
{
    match leaf {
        GenericArgKind::Lifetime(_) => CanonicalVarKind::Region,
        GenericArgKind::Ty(ty) => match cx.kind(ty) {
            TyKind::Infer(_) => CanonicalVarKind::Ty,
            _ => CanonicalVarKind::PlaceholderTy,
        },
        GenericArgKind::Const(ct) => match cx.const_kind(ct) {
            ConstKind::Infer(_) => CanonicalVarKind::Const,
            _ => CanonicalVarKind::PlaceholderConst,
        },
    }
}

/// The goal with its leaves replaced by canonical variables.
fn number_leaves(
    alloc: Global,
    cx: &mut Interner,
    leaves: &IndexSet<GenericArgKind>,
    goal: &Goal,
) -> Result<Goal, Fault>
    requires goal { GoalHeld cx.old.entries goal.now }
    requires listed { AreLeaves cx.old.entries leaves.now.keys }
    ensures terms { GrewOrFull cx.old cx.new result }
    ensures held { IfOk result (λ r. GoalHeld cx.new.entries r) }
    ensures numbered { IfOk result (λ r. goal_trees cx.new.entries r
        ≡ renamed (canonical_label (labels cx.old.entries leaves.now.keys)) (goal_trees cx.old.entries goal.now)) }
{
    let predicate = number_predicate(alloc, cx, leaves, goal.predicate)?;
    let in_clauses = Canonicalizer {
        leaves,
        in_clause: true,
    };
    let param_env = fold_clauses(alloc, cx, &in_clauses, &goal.param_env)?;
    Ok(Goal {
        param_env,
        predicate,
    })
}

/// The predicate with its leaves replaced by canonical variables.
fn number_predicate(
    alloc: Global,
    cx: &mut Interner,
    leaves: &IndexSet<GenericArgKind>,
    predicate: TraitPredicate,
) -> Result<TraitPredicate, Fault>
    requires held { PredicateHeld cx.old.entries predicate }
    requires listed { AreLeaves cx.old.entries leaves.now.keys }
    ensures terms { GrewOrFull cx.old cx.new result }
    ensures held { IfOk result (λ r. PredicateHeld cx.new.entries r) }
    ensures numbered { IfOk result (λ r. predicate_trees cx.new.entries r
        ≡ numbered_by (labels cx.old.entries leaves.now.keys) (predicate_trees cx.old.entries predicate)) }
{
    if is_closed(predicate.flags(cx), false) {
        return Ok(predicate);
    }
    let outside_clauses = Canonicalizer {
        leaves,
        in_clause: false,
    };
    predicate.fold_with(alloc, cx, &outside_clauses)
}
