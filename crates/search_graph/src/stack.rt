//! The stack: the goals that are being evaluated. Each is a nested goal of the one preceding it.

ghost use Rattle.std.specs.Prelude.{◌≡◌, ◌+◌, ◌<◌, ℕ, IfOk, IfSome, IfNone, OnOk, OnErr, Some, None, cond, nat_eq, length, slice_get, drop};
ghost use Rattle.indexmap.specs.IndexMap.{get};
ghost use Rattle.search_paths.specs.KeptPaths.{indices};
ghost use Rattle.search_graph.specs.Stack.{kind_after, IsClosedBy, IsNextRun};

use crate::delegate::{Delegate, InputOf, ResultOf};
use indexmap::IndexMap;
use search_paths::{Dependencies, PathKind, Span, places_of};
use std::alloc::{AllocError, Global};

/// A goal that is evaluated, with what its asker states about it.
#[derive(Drop)]
pub struct NestedGoal<I> {
    /// Its number in the cache.
    pub number: usize,
    /// The goal.
    pub input: I,
    /// The kind of the step from its asker to it.
    pub step_kind: PathKind,
    /// The depth that is available to it. `AvailableDepth` of `rustc_type_ir::search_graph`.
    pub depth: usize,
}

/// A goal that is being evaluated. `StackEntry` of `rustc_type_ir::search_graph`.
#[derive(Drop)]
pub struct StackEntry<I, R> {
    /// The goal.
    pub input: I,
    /// The kind of the step to it from the goal preceding it.
    pub step_kind: PathKind,
    /// The result of the previous run, if there was one.
    pub provisional_result: Option<R>,
    /// The indices of the goals of the stack that this result depends on.
    pub heads: Vec<usize>,
    /// Its number in the cache.
    pub number: usize,
    /// A range that contains the numbers of the goals of the stack up to this one.
    pub span: Span,
}

impl<I: Drop, R: Drop> StackEntry<I, R> {
    /// Returns the goal alone.
    pub fn into_input(self) -> I
        ensures { result ≡ self.input }
    {
        let StackEntry { input, .. } = self;
        input
    }

    /// Returns the entry for the next run, after a run with this result and these dependencies.
    pub fn next_run(
        self,
        alloc: Global,
        answer: R,
        dependencies: &Dependencies,
    ) -> Result<StackEntry<I, R>, AllocError>
        ensures { IfOk result (IsNextRun self answer (indices dependencies.now.heads.items)) }
    {
        let heads = places_of(alloc, &dependencies.heads)?;
        let StackEntry {
            input,
            step_kind,
            provisional_result: _,
            heads: _,
            number,
            span,
        } = self;
        Ok(StackEntry {
            input,
            step_kind,
            provisional_result: Some(answer),
            heads,
            number,
            span,
        })
    }
}

/// A cycle: a goal of the stack that is reached again, and the kind of the path from it back to it.
#[derive(Clone, Copy)]
pub struct Cycle {
    /// The index of the goal in the stack.
    pub index: usize,
    /// The maximum of the kinds of the steps from the goal to the top of the stack, and of the step that closes the cycle.
    pub path_kind: PathKind,
}

/// Stores the index of a goal by its number, unless the number has one.
pub(crate) fn add_place(
    positions: &mut IndexMap<usize, usize>,
    number: usize,
    place: usize,
) -> Result<(), AllocError>
    ensures again { OnOk result ((older : ℕ) → get nat_eq positions.old number ≡ Some older → (other : ℕ)
        → get nat_eq positions.new other ≡ get nat_eq positions.old other) }
    ensures added { OnOk result (get nat_eq positions.old number ≡ None → (other : ℕ)
        → get nat_eq positions.new other ≡ cond (nat_eq number other) (Some place) (get nat_eq positions.old other)) }
    ensures err { OnErr result ((other : ℕ) → get nat_eq positions.new other ≡ get nat_eq positions.old other) }
{
    if positions.contains_key(&number) {
        return Ok(());
    }
    positions.insert(number, place)?;
    Ok(())
}

/// Removes the index of a number, if it is `place`.
pub(crate) fn remove_place(positions: &mut IndexMap<usize, usize>, number: usize, place: usize)
    ensures removed { get nat_eq positions.old number ≡ Some place → (other : ℕ)
        → get nat_eq positions.new other ≡ cond (nat_eq number other) None (get nat_eq positions.old other) }
    ensures kept { (get nat_eq positions.old number ≡ Some place → ⊥) → (other : ℕ) → get nat_eq positions.new other ≡ get nat_eq positions.old other }
{
    let Some(found) = positions.get(&number).copied() else {
        return;
    };
    if found == place {
        positions.swap_remove(&number);
    }
}

/// Returns the cycle that a goal closes, if it is on the stack. `positions` has the index of each goal by its number.
pub(crate) fn find_cycle<D: Delegate>(
    stack: &[StackEntry<InputOf<D>, ResultOf<D>>],
    positions: &IndexMap<usize, usize>,
    number: usize,
    input: &InputOf<D>,
    step_kind: PathKind,
) -> Option<Cycle>
    ensures found { IfSome result (IsClosedBy stack.now input.now step_kind) }
    ensures place { IfSome result (λ cycle. get nat_eq positions.now number ≡ Some cycle.index) }
    ensures none { IfNone result ((place : ℕ) (e : _) → get nat_eq positions.now number ≡ Some place → slice_get stack.now place ≡ Some e
        → e.input ≡ input.now → ⊥) }
{
    let index = *positions.get(&number)?;
    if index >= stack.len() {
        return None;
    }
    let entry = &stack[index];
    if entry.input == *input {
        let path_kind = kind_of_path(stack, index, step_kind);
        return Some(Cycle { index, path_kind });
    }
    None
}

/// Returns the greatest kind of the steps after the goal at `index`, and of a last step.
pub(crate) fn kind_of_path<I, R>(
    stack: &[StackEntry<I, R>],
    index: usize,
    step_kind: PathKind,
) -> PathKind
    requires { index < length stack.now }
    ensures { result ≡ kind_after (drop (index + 1) stack.now) step_kind }
{
    let mut above = stack.len();
    let mut path_kind = step_kind;
    while above > index + 1 {
        above -= 1;
        path_kind = stack[above].step_kind.extend(path_kind);
    }
    path_kind
}
