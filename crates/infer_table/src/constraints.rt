//! Resolution and folds of lists of constraints on lifetimes.
ghost use Rattle.type_terms.specs.Growth.{Grew, GrewOrFull};
ghost use Rattle.std.specs.Prelude.{◌≡◌, ℕ, List, [], ◌∷◌, ◌++◌, IfOk, OnOk, OnErr, Err, ◌⊎◌};
ghost use Rattle.type_terms.specs.Promised.Handles.{SomeKindIsFull};
ghost use Rattle.infer_table.specs.Solutions.{resolved};
ghost use Rattle.infer_table.specs.Content.{content, Ready, AllConstraintsHeld};
ghost use Rattle.infer_table.specs.Constraints.{constraints_trees};
ghost use Rattle.infer_table.specs.Responses.{ConstraintsFold};

use crate::infer_ctxt::InferCtxt;
use crate::terms::RegionConstraint;
use std::alloc::Global;
use term_folds::foldable::TypeFoldable;
use term_folds::folder::TypeFolder;
use type_terms::Fault;
use type_terms::interner::Interner;

/// The constraints, resolved by the table.
pub(crate) fn resolve_constraints(
    alloc: Global,
    cx: &mut Interner,
    table: &InferCtxt,
    constraints: &[RegionConstraint],
) -> Result<Vec<RegionConstraint>, Fault>
    requires ready { Ready cx.old.entries table.now }
    requires held { AllConstraintsHeld cx.old.entries constraints.now }
    ensures terms { GrewOrFull cx.old cx.new result }
    ensures held { IfOk result (λ r. AllConstraintsHeld cx.new.entries r.items) }
    ensures resolved { IfOk result (λ r. constraints_trees cx.new.entries r.items
        ≡ resolved (content cx.old.entries table.now.values) (constraints_trees cx.old.entries constraints.now)) }
{
    let mut resolved = Vec::new(alloc);
    for constraint in constraints {
        let next = table.eager_resolve_vars(cx, *constraint)?;
        resolved.push(next)?;
    }
    Ok(resolved)
}

/// The fold of each constraint, in order.
pub fn fold_constraints<F: TypeFolder>(
    alloc: Global,
    cx: &mut Interner,
    folder: &F,
    constraints: &[RegionConstraint],
) -> Result<Vec<RegionConstraint>, Fault>
    requires ready { F.ready folder.now cx.old.entries }
    requires held { AllConstraintsHeld cx.old.entries constraints.now }
    ensures grew { Grew cx.old cx.new }
    ensures held { IfOk result (λ r. AllConstraintsHeld cx.new.entries r.items) }
    ensures folded { IfOk result (λ r. ConstraintsFold (F.action folder.now cx.old.entries) cx.old.entries constraints.now cx.new.entries r.items) }
    ensures full { result ≡ Err Fault.Full → SomeKindIsFull cx.new.entries cx.new.limit ⊎ F.refuses folder.now }
{
    let mut folded = Vec::new(alloc);
    for constraint in constraints {
        let next = constraint.fold_with(alloc, cx, folder)?;
        folded.push(next)?;
    }
    Ok(folded)
}
