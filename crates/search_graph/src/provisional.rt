//! Provisional entries: results that depend on goals of the stack, stored as long as the runs of those goals last.

ghost use Rattle.std.specs.Prelude.{◌≡◌, ◌<◌, ◌+◌, ◌++◌, ◌∷◌, [], ◌↔◌, ℕ, IfSome, IfNone, IsSome, OnOk, OnErr, Some, length, slice_get, option_to_list, true, false};
ghost use Rattle.std.proofs.Props.{props};
ghost use Rattle.search_graph.specs.Provisional.{IsServing, IsServingAt, NoneServes, NoneIsLeft, AddsEntry};

use crate::delegate::{Delegate, InputOf, ResultOf};
use crate::stack::StackEntry;
use search_paths::{CycleHead, PathKind};
use std::alloc::{AllocError, Global};

/// A result of a goal that depends on goals of the stack. It is used for the goal during the run of its nearest head in which it was
/// computed.
///
/// `ProvisionalCacheEntry` of `rustc_type_ir::search_graph`.
#[derive(Drop)]
pub struct ProvisionalEntry<I, R> {
    /// The goal.
    pub input: I,
    /// The number of the goal.
    pub number: usize,
    /// The result of the goal.
    pub result: R,
    /// The goals of the stack that the result depends on, and the kinds of the paths by which it read them.
    pub heads: Vec<CycleHead>,
    /// The kind of the path from its nearest head to the goal.
    pub kind: PathKind,
    /// Whether the goal met an overflow by depth, or a goal that the entry moved over did.
    pub encountered_overflow: bool,
    /// The least depth at which the result is used: what the goal needed if it met no overflow by depth, else 0.
    pub required_depth: usize,
    /// The greatest depth at which the result is used: what the goal had if it met an overflow by depth, else `usize::MAX`. If the entry
    /// moved over goals that met one, it is at most what each of these had.
    pub reach: usize,
    /// The index of its nested goals in the cache.
    pub asked: usize,
}

/// A result that met an overflow by depth becomes an entry if it depends on at most this many goals of the stack.
///
/// An entry moves each time that its nearest head ends, and lists of heads are merged then. If each of a thousand goals reaches most
/// others, there are many such results with hundreds of heads, and few are ever used.
pub(crate) const OVERFLOW_HEADS_LIMIT: usize = 64;

/// The list of the entries whose nearest head is one goal of the stack.
pub(crate) type Entries<D> = Vec<ProvisionalEntry<InputOf<D>, ResultOf<D>>>;

/// The provisional entries of a search. Each goal of the stack has a list of the entries whose nearest head it is.
///
/// When a run ends, the list of its goal is removed. So all entries are removed that depend on the run.
pub struct ProvisionalEntries<D: Delegate> {
    alloc: Global,
    /// The lists of the goals of the stack, the oldest goal first.
    pub lists: Vec<Entries<D>>,
    /// Whether an entry was stored since there was no list. If goals form no cycle there is no entry, and no lookup is needed.
    used: bool,
    ghost unused: { used ≡ false → NoneIsLeft lists.items } by { Prim.hlevel props },
}

impl<D: Delegate> Drop for ProvisionalEntries<D> {
    fn drop(self) {
        let ProvisionalEntries {
            alloc: _,
            lists: _,
            used: _,
        } = self;
    }
}

impl<D: Delegate> ProvisionalEntries<D> {
    /// Returns no lists, without allocating.
    pub fn new(alloc: Global) -> Self
        ensures { result.lists.items ≡ [] }
    {
        ProvisionalEntries {
            alloc,
            lists: Vec::new(alloc),
            used: false,
        }
    }

    /// Begins a run of a goal that is pushed. No entry depends on it yet.
    pub fn begin(&mut self) -> Result<(), AllocError>
        ensures begun { OnOk result ((list : _) × (self.new.lists.items ≡ self.old.lists.items ++ list ∷ []) × (list.items ≡ [])) }
        ensures err { OnErr result (self.new.lists.items ≡ self.old.lists.items) }
    {
        self.lists.push(Vec::new(self.alloc))?;
        Ok(())
    }

    /// Ends the run of the newest goal. Removes the entries whose nearest head it is, and returns them.
    pub fn end(&mut self) -> Option<Entries<D>>
        ensures lists { self.old.lists.items ≡ self.new.lists.items ++ option_to_list result }
        ensures some { IsSome result ↔ (0 < length self.old.lists.items) }
    {
        let ended = self.lists.pop()?;
        if self.lists.is_empty() {
            self.used = false;
        }
        Some(ended)
    }

    /// Removes all lists.
    pub fn clear(&mut self)
        ensures { self.new.lists.items ≡ [] }
    {
        self.lists.clear();
        self.used = false;
    }

    /// Returns the position of an entry that may be used for a goal over this stack: the index of its nearest head, and its index in
    /// that head's list.
    ///
    /// The path from the nearest head to the goal has the entry's kind, and the entry is used at this depth.
    /// `lookup_provisional_cache` of `rustc_type_ir::search_graph`.
    pub fn find(
        &self,
        stack: &[StackEntry<InputOf<D>, ResultOf<D>>],
        number: usize,
        input: &InputOf<D>,
        step_kind: PathKind,
        depth: usize,
    ) -> Option<(usize, usize)>
        requires { length stack.now ≡ length self.now.lists.items }
        ensures found { IfSome result (λ at. IsServingAt self.now.lists.items stack.now number input.now step_kind depth at.0 at.1) }
        ensures none { IfNone result (NoneServes self.now.lists.items stack.now number input.now step_kind depth) }
    {
        if !self.used {
            return None;
        }
        let mut head = stack.len();
        let mut path_kind = step_kind;
        while head > 0 {
            head -= 1;
            let list = &self.lists[head];
            if let Some(place) = find_among::<D>(list, number, input, path_kind, depth) {
                return Some((head, place));
            }
            path_kind = stack[head].step_kind.extend(path_kind);
        }
        None
    }

    /// Stores an entry in the list of the goal with this index in the stack.
    pub fn leave(
        &mut self,
        head: usize,
        entry: ProvisionalEntry<InputOf<D>, ResultOf<D>>,
    ) -> Result<(), AllocError>
        requires { head < length self.old.lists.items }
        ensures added { OnOk result (AddsEntry self.old.lists.items self.new.lists.items head entry) }
        ensures goals { length self.new.lists.items ≡ length self.old.lists.items }
    {
        self.used = true;
        let list = &mut self.lists[head];
        list.push(entry)?;
        Ok(())
    }
}

/// Returns the index of an entry of the goal for a path of this kind that is used at this depth.
pub(crate) fn find_among<D: Delegate>(
    entries: &[ProvisionalEntry<InputOf<D>, ResultOf<D>>],
    number: usize,
    input: &InputOf<D>,
    kind: PathKind,
    depth: usize,
) -> Option<usize>
    ensures found { IfSome result (λ place. (e : _) × (slice_get entries.now place ≡ Some e) × IsServing number input.now kind depth e) }
    ensures none { IfNone result ((place : ℕ) (e : _) → slice_get entries.now place ≡ Some e → IsServing number input.now kind depth e → ⊥) }
{
    let mut place = 0;
    while place < entries.len() {
        if serves::<D>(&entries[place], number, input, kind, depth) {
            return Some(place);
        }
        place += 1;
    }
    None
}

/// Returns whether the entry is of the goal, for a path of this kind, and is used at this depth.
fn serves<D: Delegate>(
    entry: &ProvisionalEntry<InputOf<D>, ResultOf<D>>,
    number: usize,
    input: &InputOf<D>,
    kind: PathKind,
    depth: usize,
) -> bool
    ensures yes { result ≡ true → IsServing number input.now kind depth entry.now }
    ensures no { result ≡ false → IsServing number input.now kind depth entry.now → ⊥ }
{
    if entry.number != number || entry.kind != kind {
        return false;
    }
    if entry.required_depth > depth || depth > entry.reach {
        return false;
    }
    entry.input == *input
}
