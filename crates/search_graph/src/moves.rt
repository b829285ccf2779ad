//! Moves the provisional entries of a goal that ended to goals preceding it on the stack.

ghost use Rattle.std.specs.Prelude.{◌≡◌, ◌+◌, ◌∷◌, [], ℕ, OnOk, Some, length, slice_get};
ghost use Rattle.search_paths.specs.KeptPaths.{indices, AreBelow};
ghost use Rattle.search_graph.specs.Provisional.{AreMoved};

use crate::delegate::{Delegate, InputOf, ResultOf};
use crate::provisional::{Entries, ProvisionalEntries, ProvisionalEntry, find_among};
use crate::stack::{StackEntry, kind_of_path};
use crate::steps::is_met;
use bitflags::Flags;
use search_paths::{
    CycleHead, EvaluationResult, PathKind, PathsToNested, nearest_head, rest_through, take_head,
};
use std::alloc::AllocError;

/// Moves the entries of a goal that ended to their next heads on the stack, if they have the goal's result. Drops the others.
///
/// `ended` is the result of the goal, `step_kind` the kind of the step to it, `ended_reach` the greatest depth at which its result is used,
/// and `asked` the index of its nested goals in the cache.
/// If memory is refused, some entries may be missing. `rebase_provisional_cache_entries` of `rustc_type_ir::search_graph`, which has
/// other conditions.
pub(crate) fn move_entries<D: Delegate>(
    entries: &mut ProvisionalEntries<D>,
    stack: &[StackEntry<InputOf<D>, ResultOf<D>>],
    left: Entries<D>,
    step_kind: PathKind,
    ended: &EvaluationResult<ResultOf<D>>,
    ended_reach: usize,
    asked: usize,
) -> Result<(), AllocError>
    requires listed { length stack.now ≡ length entries.old.lists.items }
    requires below { AreBelow (length stack.now) (indices ended.now.dependencies.heads.items) }
    requires rests { (place : ℕ) (e : _) → slice_get left.items place ≡ Some e → AreBelow (length stack.now + 1) (indices e.heads.items) }
    ensures moved { OnOk result (AreMoved stack.now left.items step_kind ended.now ended_reach asked entries.old.lists.items entries.new.lists.items) }
    ensures goals { length entries.new.lists.items ≡ length entries.old.lists.items }
{
    let mut left = left;
    while let Some(entry) = left.pop() {
        if entry.result == ended.result {
            move_entry::<D>(entries, stack, entry, step_kind, ended, ended_reach, asked)?;
        }
    }
    Ok(())
}

/// Moves an entry to its next head. Drops it if there is none, if a forced step is on the path from that head, or if that head has
/// entries that are used at its least and at its greatest depth.
fn move_entry<D: Delegate>(
    entries: &mut ProvisionalEntries<D>,
    stack: &[StackEntry<InputOf<D>, ResultOf<D>>],
    entry: ProvisionalEntry<InputOf<D>, ResultOf<D>>,
    step_kind: PathKind,
    ended: &EvaluationResult<ResultOf<D>>,
    ended_reach: usize,
    asked: usize,
) -> Result<(), AllocError>
    requires listed { length stack.now ≡ length entries.old.lists.items }
    requires below { AreBelow (length stack.now) (indices ended.now.dependencies.heads.items) }
    requires rests { AreBelow (length stack.now + 1) (indices entry.heads.items) }
    requires same { entry.result ≡ ended.now.result }
    ensures moved { OnOk result (AreMoved stack.now (entry ∷ []) step_kind ended.now ended_reach asked entries.old.lists.items entries.new.lists.items) }
    ensures goals { length entries.new.lists.items ≡ length entries.old.lists.items }
{
    let mut entry = entry;
    let read = take_head(&mut entry.heads, stack.len()).unwrap_or(PathsToNested::empty());
    rest_through(&mut entry.heads, &ended.dependencies.heads, read)?;
    let Some(next) = nearest_head(&entry.heads) else {
        return Ok(());
    };
    let kind = kind_of_path(stack, next, step_kind.extend(entry.kind));
    if kind == PathKind::ForcedAmbiguity {
        return Ok(());
    }
    let reach = entry.reach.min(ended_reach);
    let list = &entries.lists[next];
    if find_among::<D>(list, entry.number, &entry.input, kind, entry.required_depth).is_some()
        && find_among::<D>(list, entry.number, &entry.input, kind, reach).is_some()
    {
        return Ok(());
    }
    let ended_overflow = ended.dependencies.encountered_overflow;
    let encountered_overflow = is_met(entry.encountered_overflow, ended_overflow);
    entry.kind = kind;
    entry.encountered_overflow = encountered_overflow;
    entry.reach = reach;
    entry.asked = asked;
    entries.leave(next, entry)?;
    Ok(())
}
