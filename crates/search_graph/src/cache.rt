//! Results that hold whatever is being evaluated.

ghost use Rattle.std.specs.Prelude.{◌≡◌, ◌↔◌, ◌+◌, ◌<◌, ◌≤◌, ◌⊎◌, [], ℕ, All, length, get_or, IfOk, OnOk, OnErr, IfSome, IfNone, IsTrue, Some, None, nat_eq, slice_get, true, false};
ghost use Rattle.std.proofs.Props.{props};
ghost use Rattle.indexmap.specs.IndexMap.{ContainsKey};
ghost use Rattle.search_graph.specs.declared.newest.Chain.{Chain};
ghost use Rattle.search_graph.specs.Chain.{newest_of, newest_in, number_of_chain, IsInChainAt, AreLinked, IsWithinDepth, AllInRange, AreCovered, AreRecorded};
ghost use Rattle.search_graph.specs.Chain.{AreInRange, range_of, IsUsableAt, NoneIsUsable, NoneIsUsableAlong, IsReachedOrApart, IsNotedBy, KeepsNoted, AreNoted};
ghost use Rattle.search_graph.specs.Chain.{IsAskedUnder, IsClear, AreBlockers};
ghost use Rattle.search_paths.specs.Nested.{IsWithin};
ghost use Rattle.indexmap.specs.IndexSet.{insert_key};
ghost use Rattle.search_graph.specs.Meaning.{KeepsContext};
ghost use Rattle.search_graph.specs.Stack.{IsProvisional, AreCached};
ghost use Rattle.search_graph.specs.Cache.{known_result, known_results, HasConflict, IsAlike, AreConsistent, IsNumberOf};
ghost use Rattle.search_graph.specs.Cache.{KeepsNumbers, KeepsResults, HoldsOther, IsUseOf, AddsResult, AddsAsked};
ghost use Rattle.search_graph.specs.Question.{IsKeptResult, IsNotPlainAt, IsWithinAsCached, KeepsWithin};

use crate::delegate::{Cx, Delegate, InputOf, ResultOf};
use crate::fault::GraphFault;
use crate::newest::{Chain, Newest, make_room};
use crate::stack::NestedGoal;
use indexmap::{IndexMap, IndexSet};
use search_paths::{NestedGoals, PathKind, Span};
use std::alloc::{AllocError, Global};

/// A result that rests on no goal of the stack. `CacheEntry` of `rustc_type_ir::search_graph`.
#[derive(Drop)]
pub struct CacheEntry<I, R> {
    /// The goal.
    pub input: I,
    /// The result of the goal: a success, or the result for an overflow by depth.
    pub result: R,
    /// The depth that the goal needed, or the depth that it had if there was an overflow by depth.
    pub depth: usize,
    /// Whether there was an overflow by depth: a goal of depth 0 had a nested goal.
    pub encountered_overflow: bool,
    /// The number of the goal.
    pub number: usize,
    /// The index of the result before this one in its chain.
    pub previous: Option<usize>,
    /// The index in `asked` of the goal with its nested goals.
    pub asked: usize,
}

/// A goal that was evaluated, with its nested goals.
#[derive(Drop)]
pub struct Asked {
    /// The number of the goal.
    pub number: usize,
    /// The nested goals.
    pub nested_goals: NestedGoals,
}

impl Asked {
    /// A range with the goal and all of its nested goals.
    fn span(&self) -> Span
        ensures { result ≡ range_of self.now }
    {
        self.nested_goals.span.cover(Span::of(self.number))
    }
}

/// A cached result as it is used.
#[derive(Drop)]
pub(crate) struct Cached<R> {
    pub(crate) result: R,
    pub(crate) depth: usize,
    pub(crate) encountered_overflow: bool,
    pub(crate) asked: usize,
}

/// Whether a goal of depth `depth` may use a result that needed depth `needed`.
fn is_usable(encountered_overflow: bool, needed: usize, depth: usize) -> bool
    ensures overflow { result ≡ true → encountered_overflow ≡ true → needed ≡ depth }
    ensures success { result ≡ true → encountered_overflow ≡ false → needed ≤ depth }
    ensures within { IsWithinDepth encountered_overflow needed depth → result ≡ true }
{
    if encountered_overflow {
        needed == depth
    } else {
        needed <= depth
    }
}

/// The cached results, found by their goals. They rest on no goal of the stack.
pub struct CachedResults<D: Delegate> {
    pub(crate) alloc: Global,
    /// The goals that were asked. The number of a goal is its index here.
    pub goals: IndexSet<InputOf<D>>,
    /// The index of the newest result of each chain.
    newest: Newest,
    /// The results, the oldest first.
    pub entries: Vec<CacheEntry<InputOf<D>, ResultOf<D>>>,
    /// The goals with their nested goals, the oldest first.
    pub asked: Vec<Asked>,
    /// The first index in `asked` at which each goal is listed, or `usize::MAX`, by the goal's number.
    first: Vec<usize>,
    /// A nested goal of each goal of `asked` that was on the stack when its result was looked for last.
    blockers: Vec<Option<usize>>,
    ghost listed: { (chain : Chain) → newest_in newest chain ≡ newest_of entries.items chain } by { Prim.hlevel props },
    ghost linked: { AreLinked entries.items } by { Prim.hlevel props },
    pub ghost numbered: { (place : ℕ) (e : _) → slice_get entries.items place ≡ Some e → IsNumberOf D.Cx.Input.eq goals.keys e.input e.number } by { Prim.hlevel props },
    pub ghost recorded: { AreRecorded entries.items asked.items } by { Prim.hlevel props },
    pub ghost covered: { AreCovered asked.items } by { Prim.hlevel props },
    ghost noted: { AreNoted first.items asked.items } by { Prim.hlevel props },
    ghost blocked: { AreBlockers blockers.items asked.items } by { Prim.hlevel props },
    pub ghost consistent: { AreConsistent (known_results entries.items) } by { Prim.hlevel props },
}

impl<D: Delegate> Drop for CachedResults<D> {
    fn drop(self) {
        let CachedResults {
            alloc: _,
            goals: _,
            newest: _,
            entries: _,
            asked: _,
            first: _,
            blockers: _,
        } = self;
    }
}

impl<D: Delegate> CachedResults<D> {
    /// A cache without results. It allocates nothing yet.
    pub fn new(alloc: Global) -> Self
        ensures entries { result.entries.items ≡ [] }
        ensures goals { result.goals.keys ≡ [] }
        ensures asked { result.asked.items ≡ [] }
    {
        CachedResults {
            alloc,
            goals: IndexSet::new(alloc),
            newest: Newest::new(alloc),
            entries: Vec::new(alloc),
            asked: Vec::new(alloc),
            first: Vec::new(alloc),
            blockers: Vec::new(alloc),
        }
    }

    /// The number of a goal, by one hash of its input unless the goal is new. It fails if memory is refused.
    pub fn number_of(&mut self, cx: &D::Cx, input: &InputOf<D>) -> Result<usize, AllocError>
        ensures number { IfOk result (λ number. slice_get self.new.goals.keys number ≡ Some input.now) }
        ensures place { IfOk result (λ number. IsNumberOf D.Cx.Input.eq self.new.goals.keys input.now number) }
        ensures others { KeepsNumbers D.Cx.Input.eq self.old.goals.keys self.new.goals.keys }
        ensures goals { OnOk result (self.new.goals.keys ≡ insert_key D.Cx.Input.eq self.old.goals.keys input.now) }
        ensures err { OnErr result (self.new.goals.keys ≡ self.old.goals.keys) }
        ensures entries { self.new.entries ≡ self.old.entries }
        ensures asked { self.new.asked ≡ self.old.asked }
        ensures results { KeepsResults self.old.entries.items self.new.entries.items }
    {
        if let Some(number) = self.goals.get_index_of(input) {
            return Ok(number);
        }
        let key = cx.copy_input(input)?;
        let (number, _) = self.goals.insert_full(key)?;
        Ok(number)
    }

    /// The index of a result that the goal may use at this depth, over a stack with these goals.
    ///
    /// It reads the successes of the goal and its overflows at this very depth. No other overflow may be used.
    pub(crate) fn find(
        &mut self,
        positions: &IndexMap<usize, usize>,
        on_stack: Span,
        number: usize,
        input: &InputOf<D>,
        depth: usize,
    ) -> Result<Option<usize>, AllocError>
        requires range { AllInRange (ContainsKey nat_eq positions.now) on_stack }
        ensures found { IfOk result
            (λ found. IfSome found (IsUsableAt self.old.entries.items self.old.asked.items (ContainsKey nat_eq positions.now) number input.now depth)) }
        ensures none { IfOk result
            (λ found. IfNone found (NoneIsUsable self.old.entries.items self.old.asked.items (ContainsKey nat_eq positions.now) number input.now depth)) }
        ensures entries { self.new.entries ≡ self.old.entries }
        ensures asked { self.new.asked ≡ self.old.asked }
        ensures goals { self.new.goals ≡ self.old.goals }
    {
        let successes = Chain::Successes(number);
        let found = self.find_along(positions, on_stack, successes, input, depth)?;
        if found.is_some() {
            return Ok(found);
        }
        self.find_along(
            positions,
            on_stack,
            Chain::Overflows(number, depth),
            input,
            depth,
        )
    }

    /// The index of such a result in the chain.
    fn find_along(
        &mut self,
        positions: &IndexMap<usize, usize>,
        on_stack: Span,
        chain: Chain,
        input: &InputOf<D>,
        depth: usize,
    ) -> Result<Option<usize>, AllocError>
        requires range { AllInRange (ContainsKey nat_eq positions.now) on_stack }
        ensures found { IfOk result (λ found. IfSome found
            (IsUsableAt self.old.entries.items self.old.asked.items (ContainsKey nat_eq positions.now) (number_of_chain chain) input.now depth)) }
        ensures none { IfOk result (λ found. IfNone found
            (NoneIsUsableAlong chain self.old.entries.items self.old.asked.items (ContainsKey nat_eq positions.now) input.now depth)) }
        ensures entries { self.new.entries ≡ self.old.entries }
        ensures asked { self.new.asked ≡ self.old.asked }
        ensures goals { self.new.goals ≡ self.old.goals }
    {
        let mut next = self.newest.get(chain);
        for _ in 0..self.entries.len() {
            let Some(place) = next else {
                return Ok(None);
            };
            if place >= self.entries.len() {
                return Ok(None);
            }
            let entry = &self.entries[place];
            let asked = entry.asked;
            next = entry.previous;
            if entry.input == *input
                && is_usable(entry.encountered_overflow, entry.depth, depth)
                && self.is_clear_of(positions, on_stack, asked)?
            {
                return Ok(Some(place));
            }
        }
        Ok(None)
    }

    /// Whether no nested goal of the goal at `asked[place]` is on the stack. One that is there is noted. The next time it is looked for
    /// first: the results of a goal in a cycle may be many, and are in the way of the same goals.
    fn is_clear_of(
        &mut self,
        positions: &IndexMap<usize, usize>,
        on_stack: Span,
        place: usize,
    ) -> Result<bool, AllocError>
        requires range { AllInRange (ContainsKey nat_eq positions.now) on_stack }
        ensures clear { IfOk result (λ clear. clear ≡ true → IsClear self.old.asked.items (ContainsKey nat_eq positions.now) place) }
        ensures blocked { IfOk result (λ clear. clear ≡ false → IsClear self.old.asked.items (ContainsKey nat_eq positions.now) place → ⊥) }
        ensures entries { self.new.entries ≡ self.old.entries }
        ensures asked { self.new.asked ≡ self.old.asked }
        ensures goals { self.new.goals ≡ self.old.goals }
    {
        if self.is_blocked(positions, place) {
            return Ok(false);
        }
        match self.find_blocker(positions, on_stack, place)? {
            Some(number) => {
                self.note_blocker(place, number)?;
                Ok(false)
            }
            None => Ok(true),
        }
    }

    /// Whether the nested goal that is noted for the goal at `asked[place]` is on the stack.
    fn is_blocked(&self, positions: &IndexMap<usize, usize>, place: usize) -> bool
        ensures { result ≡ true → IsClear self.now.asked.items (ContainsKey nat_eq positions.now) place → ⊥ }
    {
        match self.blockers.get(place) {
            Some(Some(number)) => positions.contains_key(number),
            _ => false,
        }
    }

    /// Notes a nested goal of the goal at `asked[place]`.
    fn note_blocker(&mut self, place: usize, number: usize) -> Result<(), AllocError>
        requires { IsAskedUnder self.old.asked.items place number }
        ensures entries { self.new.entries ≡ self.old.entries }
        ensures asked { self.new.asked ≡ self.old.asked }
        ensures goals { self.new.goals ≡ self.old.goals }
    {
        make_room(&mut self.blockers, place)?;
        self.blockers[place] = Some(number);
        Ok(())
    }

    /// A nested goal of the goal at `asked[place]` that is on the stack.
    fn find_blocker(
        &self,
        positions: &IndexMap<usize, usize>,
        on_stack: Span,
        place: usize,
    ) -> Result<Option<usize>, AllocError>
        requires range { AllInRange (ContainsKey nat_eq positions.now) on_stack }
        ensures asked { IfOk result (λ found. IfSome found
            (λ number. IsAskedUnder self.now.asked.items place number × ContainsKey nat_eq positions.now number)) }
        ensures clear { IfOk result (λ found. IfNone found (IsClear self.now.asked.items (ContainsKey nat_eq positions.now) place)) }
    {
        let Some(entry) = self.asked.get(place) else {
            return Ok(None);
        };
        let range = entry.nested_goals.span;
        if !range.overlaps(on_stack) {
            return Ok(None);
        }
        // A goal that is evaluated for the first time is a nested goal of none that is listed, so mostly this is all.
        if !is_any_noted(positions, range, &self.first, place) {
            return Ok(None);
        }
        let mut reached: IndexSet<usize> = IndexSet::new(self.alloc);
        reached.insert(place)?;
        let mut round = 0;
        while round < reached.len() {
            let below = reached[round];
            let entry = &self.asked[below];
            if round > 0 && positions.contains_key(&entry.number) {
                return Ok(Some(entry.number));
            }
            if let Some(number) = find_on_stack(positions, &entry.nested_goals.goals) {
                return Ok(Some(number));
            }
            self.reach(&mut reached, &entry.nested_goals.cached, on_stack)?;
            round += 1;
        }
        Ok(None)
    }

    /// Adds those of the indices whose goals may have a nested goal in this range.
    fn reach(
        &self,
        reached: &mut IndexSet<usize>,
        places: &[usize],
        on_stack: Span,
    ) -> Result<(), AllocError>
        ensures stay { KeepsResults reached.old.keys reached.new.keys }
        ensures among { (j place : ℕ) → slice_get reached.new.keys j ≡ Some place
            → (slice_get reached.old.keys j ≡ Some place) ⊎ ((i : ℕ) × (slice_get places.now i ≡ Some place)) }
        ensures reached { OnOk result (All (IsReachedOrApart self.now.asked.items reached.new.keys on_stack) places.now) }
    {
        for place in places {
            if self.span_of(*place).overlaps(on_stack) {
                reached.insert(*place)?;
            }
        }
        Ok(())
    }

    /// A range with the goal at `asked[place]` and all of its nested goals.
    pub(crate) fn span_of(&self, place: usize) -> Span
        ensures { (e : _) → slice_get self.now.asked.items place ≡ Some e → result ≡ range_of e }
    {
        match self.asked.get(place) {
            Some(entry) => entry.span(),
            None => Span::empty(),
        }
    }

    /// A copy of the result at an index, with the depth that it needed and whether there was an overflow.
    pub(crate) fn get(
        &self,
        cx: &D::Cx,
        place: usize,
        input: &InputOf<D>,
    ) -> Result<Cached<ResultOf<D>>, AllocError>
        requires cache { AreCached D.meaning (D.meaning.world cx.now) cx.now self.now.entries.items }
        requires place { (e : _) × (slice_get self.now.entries.items place ≡ Some e) × (e.input ≡ input.now) }
        ensures result { IfOk result
            (λ r. IsProvisional D.meaning (D.meaning.world cx.now) [] (D.meaning.goal_of cx.now input.now, PathKind.Inductive) [] cx.now r.result) }
        ensures kept { IfOk result (λ r. IsKeptResult D.meaning cx.now input.now r.result r.depth r.encountered_overflow) }
        ensures within { IfOk result (λ r. IsWithinAsCached D.meaning cx.now self.now.entries.items input.now r.result) }
        ensures entry { IfOk result (IsUseOf self.now.entries.items place) }
    {
        let entry = &self.entries[place];
        let copy = cx.copy_result(&entry.result)?;
        Ok(Cached {
            result: copy,
            depth: entry.depth,
            encountered_overflow: entry.encountered_overflow,
            asked: entry.asked,
        })
    }

    /// The index of a result of the goal in the chain.
    fn find_alike(&self, chain: Chain, input: &InputOf<D>) -> Option<usize>
        ensures found { IfSome result (IsInChainAt chain self.now.entries.items input.now) }
        ensures none { IfNone result ((place : ℕ) → IsInChainAt chain self.now.entries.items input.now place → ⊥) }
    {
        let mut next = self.newest.get(chain);
        for _ in 0..self.entries.len() {
            let place = next?;
            if place >= self.entries.len() {
                return None;
            }
            let entry = &self.entries[place];
            if entry.input == *input {
                return Some(place);
            }
            next = entry.previous;
        }
        None
    }

    /// Whether the cache has a different result of the input, if both are successes or both are overflows at one depth.
    fn differs(
        &self,
        number: usize,
        input: &InputOf<D>,
        found: &ResultOf<D>,
        depth: usize,
        encountered_overflow: bool,
    ) -> bool
        requires number { IsNumberOf D.Cx.Input.eq self.now.goals.keys input.now number }
        ensures other { result ≡ true → HoldsOther D.Cx.Result.eq self.now.entries.items input.now depth encountered_overflow found.now }
        ensures none { result ≡ false → (place : ℕ) (e : _) → slice_get self.now.entries.items place ≡ Some e
            → IsAlike input.now depth encountered_overflow (known_result e) → e.result ≡ found.now }
    {
        match self.find_alike(Chain::of(number, depth, encountered_overflow), input) {
            Some(place) => {
                let entry = &self.entries[place];
                entry.result != *found
            }
            None => false,
        }
    }

    /// Lists a goal, whose result is stored elsewhere, with its nested goals. Returns the index in `asked`.
    pub(crate) fn list(
        &mut self,
        number: usize,
        nested_goals: NestedGoals,
    ) -> Result<usize, AllocError>
        requires nested { AreInRange self.old.asked.items nested_goals }
        ensures place { IfOk result (λ place. place ≡ length self.old.asked.items) }
        ensures recorded { OnOk result (AddsAsked self.old.asked.items self.new.asked.items number nested_goals) }
        ensures asked { KeepsResults self.old.asked.items self.new.asked.items }
        ensures entries { self.new.entries ≡ self.old.entries }
        ensures goals { self.new.goals ≡ self.old.goals }
    {
        let asked = self.asked.len();
        note_asked(&mut self.first, number, &nested_goals, asked)?;
        self.asked.push(Asked {
            number,
            nested_goals,
        })?;
        Ok(asked)
    }

    /// Caches a result that rests on no goal of the stack. Returns the index in `asked` of its nested goals.
    pub(crate) fn insert(
        &mut self,
        cx: &D::Cx,
        goal: NestedGoal<InputOf<D>>,
        found: &ResultOf<D>,
        encountered_overflow: bool,
        nested_goals: NestedGoals,
    ) -> Result<usize, GraphFault>
        requires cache { AreCached D.meaning (D.meaning.world cx.now) cx.now self.old.entries.items }
        requires input { D.meaning.IsInput cx.now goal.input }
        requires nested { AreInRange self.old.asked.items nested_goals }
        requires number { IsNumberOf D.Cx.Input.eq self.old.goals.keys goal.input goal.number }
        requires result { IsProvisional D.meaning (D.meaning.world cx.now) [] (D.meaning.goal_of cx.now goal.input, PathKind.Inductive) [] cx.now found.now }
        requires kept { IsKeptResult D.meaning cx.now goal.input found.now goal.depth encountered_overflow }
        ensures place { IfOk result (λ place. place ≡ length self.old.asked.items) }
        ensures kept { OnOk result
            (AddsResult self.old.entries.items self.new.entries.items goal.input found.now goal.depth encountered_overflow goal.number
            (length self.old.asked.items)) }
        ensures recorded { OnOk result (AddsAsked self.old.asked.items self.new.asked.items goal.number nested_goals) }
        ensures asked { KeepsResults self.old.asked.items self.new.asked.items }
        ensures err { OnErr result (self.new.entries.items ≡ self.old.entries.items) }
        ensures results { KeepsResults self.old.entries.items self.new.entries.items }
        ensures goals { self.new.goals ≡ self.old.goals }
        ensures cache { AreCached D.meaning (D.meaning.world cx.now) cx.now self.new.entries.items }
        ensures within { OnOk result (KeepsWithin D.meaning cx.now self.old.entries.items goal.input found.now self.new.entries.items) }
        ensures no_conflict { result ≡ Err GraphFault.Conflict → IsNotPlainAt D.meaning cx.now goal.input goal.depth encountered_overflow }
        ensures conflict { result ≡ Err GraphFault.Conflict → HasConflict D.meaning cx.now (known_results self.new.entries.items) }
        ensures in_order { result ≡ Err GraphFault.Protocol → ⊥ }
        ensures room { result ≡ Err GraphFault.Full → ⊥ }
    {
        let NestedGoal {
            number,
            input,
            depth,
            ..
        } = goal;
        if self.differs(number, &input, found, depth, encountered_overflow) {
            return Err(GraphFault::Conflict);
        }
        let result = cx.copy_result(found)?;
        let place = self.entries.len();
        let asked = self.asked.len();
        let chain = Chain::of(number, depth, encountered_overflow);
        let previous = self.newest.get(chain);
        self.entries.reserve(1)?;
        note_asked(&mut self.first, number, &nested_goals, asked)?;
        self.asked.push(Asked {
            number,
            nested_goals,
        })?;
        self.newest.put(chain, place)?;
        self.entries.push_reserved(CacheEntry {
            input,
            result,
            depth,
            encountered_overflow,
            number,
            previous,
            asked,
        });
        Ok(asked)
    }
}

/// One of the goals that is on the stack.
fn find_on_stack(positions: &IndexMap<usize, usize>, goals: &[usize]) -> Option<usize>
    ensures one { IfSome result (λ asked. ((i : ℕ) × (slice_get goals.now i ≡ Some asked)) × ContainsKey nat_eq positions.now asked) }
    ensures none { IfNone result (All (λ asked. ContainsKey nat_eq positions.now asked → ⊥) goals.now) }
{
    for goal in goals {
        if positions.contains_key(goal) {
            return Some(*goal);
        }
    }
    None
}

/// Whether a goal of the stack is in the range and is listed at the index or before it.
fn is_any_noted(
    positions: &IndexMap<usize, usize>,
    range: Span,
    first: &[usize],
    place: usize,
) -> bool
    ensures { result ≡ false → (number : ℕ) → ContainsKey nat_eq positions.now number → IsWithin range number → IsNotedBy first.now place number → ⊥ }
{
    for index in 0..positions.len() {
        let Some((number, _)) = positions.get_index(index) else {
            return true;
        };
        if may_be_under(range, first, place, *number) {
            return true;
        }
    }
    false
}

/// Whether the goal with the number is in the range and is listed at the index or before it.
fn may_be_under(range: Span, first: &[usize], place: usize, number: usize) -> bool
    ensures { IsWithin range number → IsNotedBy first.now place number → result ≡ true }
{
    range.has(number) && number < first.len() && first[number] <= place
}

/// Notes that the goal and its nested goals are listed at the index.
fn note_asked(
    first: &mut Vec<usize>,
    number: usize,
    nested: &NestedGoals,
    place: usize,
) -> Result<(), AllocError>
    ensures noted { OnOk result (IsNotedBy first.new.items place number × All (IsNotedBy first.new.items place) nested.now.goals.items) }
    ensures others { KeepsNoted first.old.items first.new.items }
{
    note(first, number, place)?;
    for goal in &nested.goals {
        note(first, *goal, place)?;
    }
    Ok(())
}

/// Notes that the goal with the number is listed at the index.
fn note(first: &mut Vec<usize>, number: usize, place: usize) -> Result<(), AllocError>
    ensures noted { OnOk result (IsNotedBy first.new.items place number) }
    ensures others { KeepsNoted first.old.items first.new.items }
{
    while first.len() <= number {
        first.push(usize::MAX)?;
    }
    if place < first[number] {
        first[number] = place;
    }
    Ok(())
}
