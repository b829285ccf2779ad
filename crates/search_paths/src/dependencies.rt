//! What the evaluation of a goal depends on.

ghost use Rattle.std.specs.Prelude.{◌≡◌, ◌≢◌, ◌==◌, ◌+◌, ◌-◌, ◌^◌, ◌++◌, ◌∷◌, ◌↔◌, [], ℕ, min, max, position, slice_get, ◌||◌, if◌then◌else◌, All, IfOk, IfSome, IfNone, IsPermutation, OnOk, Some, None, false};
ghost use Rattle.search_paths.specs.declared.dependencies.CycleHead.{CycleHead};
ghost use Rattle.std.specs.Int.RustNames.{bit_or};
ghost use Rattle.search_paths.specs.Heads.{paths_to, RestsOn, IsFirstOf, AreHeadsOfBoth, AreReadThrough};
ghost use Rattle.search_paths.specs.KeptPaths.{indices, AreBelow};
ghost use Rattle.search_paths.specs.Nested.{no_goal, covered};

use crate::nested_goals::NestedGoals;
use crate::path_kind::PathsToNested;
use bitflags::Flags;
use std::alloc::{AllocError, Global};

/// A goal of the stack that a result depends on, and the kinds of the paths by which its own result was read.
///
/// There are no paths if its own result was not read, but a result that depends on it.
/// An entry of `CycleHeads` of `rustc_type_ir::search_graph`.
#[derive(Clone, Copy, PartialEq, Eq)]
pub struct CycleHead {
    pub index: usize,
    pub paths: PathsToNested,
}

/// What the evaluation of a goal depends on, over all its runs.
#[derive(Drop)]
pub struct Dependencies {
    /// The goals of the stack that the result depends on: those whose results were read, and those that such a result depends on.
    pub heads: Vec<CycleHead>,
    /// Whether a goal of depth 0 had a nested goal anywhere under the goal, through a cached result too.
    pub encountered_overflow: bool,
    /// The depth that the goal needed, if it met no overflow.
    pub required_depth: usize,
    pub nested_goals: NestedGoals,
    /// The number of nested goals in all runs of the goal, at most `usize::MAX`.
    pub questions: usize,
}

impl Dependencies {
    /// Returns the dependencies of a result that depends on no goal of the stack.
    pub fn new(alloc: Global) -> Dependencies
        ensures unread { result.heads.items ≡ [] }
        ensures within { result.encountered_overflow ≡ false }
        ensures depth { result.required_depth ≡ 0 }
        ensures uncounted { result.questions ≡ 0 }
        ensures unasked { (result.nested_goals.goals.items ≡ []) × (result.nested_goals.cached.items ≡ []) × (result.nested_goals.span ≡ no_goal) }
    {
        Dependencies {
            heads: Vec::new(alloc),
            encountered_overflow: false,
            required_depth: 0,
            nested_goals: NestedGoals::new(alloc),
            questions: 0,
        }
    }

    /// Records that the result of the goal with this index was read, by paths of these kinds. That result depends on the goals with
    /// those indices. If memory is refused, some of these may be missing.
    pub fn read_head(
        &mut self,
        index: usize,
        paths: PathsToNested,
        below: &[usize],
    ) -> Result<(), AllocError>
        requires { self.old.heads.items ≡ [] }
        ensures heads { OnOk result (indices self.new.heads.items ≡ index ∷ below.now) }
        ensures read { OnOk result ((place : ℕ) → paths_to self.new.heads.items place ≡ (if index == place then paths.0 else 0)) }
        ensures questions { self.new.questions ≡ self.old.questions }
        ensures overflow { self.new.encountered_overflow ≡ self.old.encountered_overflow }
        ensures depth { self.new.required_depth ≡ self.old.required_depth }
        ensures goals { self.new.nested_goals ≡ self.old.nested_goals }
    {
        self.heads.push(CycleHead { index, paths })?;
        rest_on(&mut self.heads, below)
    }

    /// Adds those of a nested goal. If memory is refused, some of them may be missing.
    pub fn gather(&mut self, nested: Dependencies) -> Result<(), AllocError>
        ensures overflow { OnOk result (self.new.encountered_overflow ≡ (self.old.encountered_overflow || nested.encountered_overflow)) }

        // The goal needs one more than its nested goal, at most `usize::MAX`.
        ensures depth { OnOk result (self.new.required_depth ≡ max self.old.required_depth (min (nested.required_depth + 1) (2 ^ 64 - 1))) }

        ensures questions { OnOk result (self.new.questions ≡ min (self.old.questions + 1) (2 ^ 64 - 1)) }

        ensures unread { OnOk result (self.old.heads.items ≡ [] → nested.heads.items ≡ [] → self.new.heads.items ≡ []) }
        ensures heads { OnOk result ((place : ℕ)
            → paths_to self.new.heads.items place ≡ bit_or (paths_to self.old.heads.items place) (paths_to nested.heads.items place)) }
        ensures rests { OnOk result (AreHeadsOfBoth self.old.heads.items nested.heads.items self.new.heads.items) }

        ensures goals { OnOk result (IsPermutation (self.old.nested_goals.goals.items ++ nested.nested_goals.goals.items) self.new.nested_goals.goals.items) }
        ensures cached { OnOk result
            (IsPermutation (self.old.nested_goals.cached.items ++ nested.nested_goals.cached.items) self.new.nested_goals.cached.items) }
        ensures span { OnOk result (self.new.nested_goals.span ≡ covered self.old.nested_goals.span nested.nested_goals.span) }
    {
        let Dependencies {
            heads,
            encountered_overflow,
            required_depth,
            nested_goals,
            questions: _,
        } = nested;
        merge_heads(&mut self.heads, &heads)?;
        self.nested_goals.extend(nested_goals)?;
        self.encountered_overflow = self.encountered_overflow || encountered_overflow;
        self.required_depth = self.required_depth.max(required_depth.saturating_add(1));
        self.questions = self.questions.saturating_add(1);
        Ok(())
    }
}

/// Adds the goals with these indices. Their own results were not read.
fn rest_on(heads: &mut Vec<CycleHead>, places: &[usize]) -> Result<(), AllocError>
    ensures added { OnOk result (indices heads.new.items ≡ indices heads.old.items ++ places.now) }
    ensures unread { OnOk result ((place : ℕ) → paths_to heads.new.items place ≡ paths_to heads.old.items place) }
{
    for place in places {
        heads.push(CycleHead {
            index: *place,
            paths: PathsToNested::empty(),
        })?;
    }
    Ok(())
}

/// Returns the indices of the heads.
pub fn places_of(alloc: Global, heads: &[CycleHead]) -> Result<Vec<usize>, AllocError>
    ensures { IfOk result (λ places. places.items ≡ indices heads.now) }
{
    let mut places = Vec::new(alloc);
    for head in heads {
        places.push(head.index)?;
    }
    Ok(places)
}

/// Returns the index of the nearest head, which is the newest goal of the stack among the heads.
pub fn nearest_head(heads: &[CycleHead]) -> Option<usize>
    ensures head { IfSome result (RestsOn heads.now) }
    ensures nearest { IfSome result (λ place. AreBelow (place + 1) (indices heads.now)) }
    ensures none { IfNone result (heads.now ≡ []) }
{
    let mut nearest = heads.first()?.index;
    for head in heads {
        nearest = nearest.max(head.index);
    }
    Some(nearest)
}

/// Sets the heads as if none of their own results were read. If memory is refused, some may be missing.
pub fn forget_paths(alloc: Global, heads: &mut Vec<CycleHead>) -> Result<(), AllocError>
    ensures same { OnOk result (indices heads.new.items ≡ indices heads.old.items) }
    ensures unread { OnOk result ((place : ℕ) → paths_to heads.new.items place ≡ 0) }
{
    let places = places_of(alloc, heads)?;
    heads.clear();
    rest_on(heads, &places)
}

/// Adds the paths of a head, if the list has it. It is looked for from `start` on first. Returns where to begin with the next head.
fn add_paths(heads: &mut Vec<CycleHead>, read: CycleHead, start: usize) -> usize
    ensures same { indices heads.new.items ≡ indices heads.old.items }
    ensures counted { (place : ℕ) → RestsOn heads.old.items place
        → paths_to heads.new.items place ≡ bit_or (paths_to heads.old.items place) (paths_to (read ∷ []) place) }
{
    match place_from(heads, read.index, start) {
        Some(place) => {
            heads[place].paths.insert(read.paths);
            place
        }
        None => start,
    }
}

/// Adds the paths of these heads, as far as the list has them.
pub fn add_all_paths(heads: &mut Vec<CycleHead>, more: &[CycleHead])
    ensures same { indices heads.new.items ≡ indices heads.old.items }
    ensures counted { (place : ℕ) → RestsOn heads.old.items place
        → paths_to heads.new.items place ≡ bit_or (paths_to heads.old.items place) (paths_to more.now place) }
{
    let mut start = 0;
    for head in more {
        start = add_paths(heads, *head, start);
    }
}

/// Adds the heads of a nested goal.
pub fn merge_heads(heads: &mut Vec<CycleHead>, more: &[CycleHead]) -> Result<(), AllocError>
    ensures unread { more.now ≡ [] → heads.new.items ≡ heads.old.items }
    ensures united { OnOk result ((place : ℕ) → paths_to heads.new.items place ≡ bit_or (paths_to heads.old.items place) (paths_to more.now place)) }
    ensures rests { OnOk result (AreHeadsOfBoth heads.old.items more.now heads.new.items) }
{
    let mut start = 0;
    for head in more {
        start = add_head(heads, *head, start)?;
    }
    Ok(())
}

/// Adds the heads of a goal whose result was read by these paths. They were read by its paths followed by these.
pub fn rest_through(
    heads: &mut Vec<CycleHead>,
    more: &[CycleHead],
    paths: PathsToNested,
) -> Result<(), AllocError>
    ensures read { OnOk result (AreReadThrough paths.0 heads.old.items more.now heads.new.items) }
    ensures rests { OnOk result (AreHeadsOfBoth heads.old.items more.now heads.new.items) }
{
    let mut start = 0;
    for head in more {
        let read = CycleHead {
            index: head.index,
            paths: head.paths.extend_with_each(paths),
        };
        start = add_head(heads, read, start)?;
    }
    Ok(())
}

/// Adds a head, or its paths if the list has it. It is looked for from `start` on first. Returns where to begin with the next head.
fn add_head(heads: &mut Vec<CycleHead>, head: CycleHead, start: usize) -> Result<usize, AllocError>
    ensures united { OnOk result ((place : ℕ) → paths_to heads.new.items place ≡ bit_or (paths_to heads.old.items place) (paths_to (head ∷ []) place)) }
    ensures rests { OnOk result (AreHeadsOfBoth heads.old.items (head ∷ []) heads.new.items) }
{
    match place_from(heads, head.index, start) {
        Some(place) => {
            heads[place].paths.insert(head.paths);
            Ok(place)
        }
        None => {
            heads.push(head)?;
            Ok(start)
        }
    }
}

/// Returns a position in the list of the head that is the goal with this index in the stack. It looks from `start` on first: two lists
/// mostly have their heads in one order, so that a merge of both takes time in proportion to their lengths.
fn place_from(heads: &[CycleHead], index: usize, start: usize) -> Option<usize>
    ensures found { IfSome result (λ place. (head : CycleHead) × (slice_get heads.now place ≡ Some head) × (head.index ≡ index)) }
    ensures absent { IfNone result (All (λ head. head.index ≢ index) heads.now) }
{
    for place in start..heads.len() {
        if heads[place].index == index {
            return Some(place);
        }
    }
    place_of(heads, index)
}

/// Returns the position in the list of the head that is the goal with this index in the stack.
fn place_of(heads: &[CycleHead], index: usize) -> Option<usize>
    ensures first { result ≡ position (λ head. head.index == index) heads.now }
    ensures absent { IfNone result (All (λ head. head.index ≢ index) heads.now) }
{
    heads.iter().position(|head| head.index == index)
}

/// Removes a goal of the stack from the heads, if it is one. Returns the kinds of the paths by which its own result was read: none if
/// it was not read.
pub fn take_head(heads: &mut Vec<CycleHead>, index: usize) -> Option<PathsToNested>
    ensures unread { heads.old.items ≡ [] → (result ≡ None) × (heads.new.items ≡ []) }
    ensures taken { IfSome result (λ paths. IsFirstOf heads.old.items (record { index = index; paths = paths })) }
    ensures absent { IfNone result (All (λ head. head.index ≢ index) heads.old.items) }
    ensures unchanged { IfNone result (heads.new.items ≡ heads.old.items) }
    ensures others { (other : ℕ) → other ≢ index → paths_to heads.new.items other ≡ paths_to heads.old.items other }
    ensures rests { (other : ℕ) → RestsOn heads.new.items other ↔ (RestsOn heads.old.items other × (other ≢ index)) }
{
    let place = place_of(heads, index)?;
    let paths = heads[place].paths;
    heads.retain(|head| head.index != index);
    Some(paths)
}

/// The result of a goal, and what it depends on.
#[derive(Drop)]
pub struct EvaluationResult<R> {
    pub result: R,
    pub dependencies: Dependencies,
}
