//! Goals by their indices.

ghost use Rattle.std.specs.Prelude.{◌≡◌, ◌++◌, ◌∷◌, [], IfSome, OnOk, Some, slice_get, if◌then◌else◌};

use explain_traces::{Answer, GoalWalk};
use sessions::term_folds::predicate::TraitRef;
use std::alloc::AllocError;

/// Of how many goals of a walk it is told, at most, whether they hold though they are not settled, and who may write impls for them.
pub(crate) const TOLD_LIMIT: usize = 64;

/// The trait reference at this index, if there is one.
pub(crate) fn reference_at(references: &[TraitRef], place: usize) -> Option<TraitRef>
    ensures { IfSome result (λ r. slice_get references.now place ≡ Some r) }
{
    if place < references.len() {
        Some(references[place])
    } else {
        None
    }
}

/// Whether the goal at this index of a trace has this answer.
pub(crate) fn is_answered(walk: &GoalWalk, place: usize, answer: Answer) -> bool {
    match walk.node(place) {
        Some(node) => node.answer == answer,
        None => false,
    }
}

/// Appends an element, if `stands`.
pub(crate) fn push_if<T: Copy>(list: &mut Vec<T>, next: T, stands: bool) -> Result<(), AllocError>
    ensures { OnOk result (list.new.items ≡ if stands then list.old.items ++ next ∷ [] else list.old.items) }
{
    if stands {
        list.push(next)?;
    }
    Ok(())
}
