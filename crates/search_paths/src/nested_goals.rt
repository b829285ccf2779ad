//! The goals that were evaluated under a goal, by their numbers.

ghost use Rattle.std.specs.Prelude.{◌≡◌, ◌≤◌, ◌++◌, ◌∷◌, [], ◌↔◌, ◌⊎◌, ℕ, IsTrue, IsPermutation, OnOk, OnErr};
ghost use Rattle.search_paths.specs.Nested.{IsWithin, no_goal, one_goal, covered};

use std::alloc::{AllocError, Global};
use std::mem;

/// A range that contains the numbers of some goals.
#[derive(Clone, Copy, PartialEq, Eq)]
pub struct Span {
    pub lowest: usize,
    pub highest: usize,
}

impl Span {
    /// Returns the range of no goal.
    pub fn empty() -> Span
        ensures is { result ≡ no_goal }
        ensures none { (number : ℕ) → IsWithin result number → ⊥ }
    {
        Span {
            lowest: usize::MAX,
            highest: 0,
        }
    }

    /// Returns the range of one goal.
    pub fn of(number: usize) -> Span
        ensures is { result ≡ one_goal number }
        ensures one { (other : ℕ) → IsWithin result other ↔ (other ≡ number) }
    {
        Span {
            lowest: number,
            highest: number,
        }
    }

    /// Returns the least range that contains both.
    pub fn cover(self, other: Span) -> Span
        ensures is { result ≡ covered self other }
        ensures covers { (number : ℕ) → IsWithin self number ⊎ IsWithin other number → IsWithin result number }
    {
        Span {
            lowest: self.lowest.min(other.lowest),
            highest: self.highest.max(other.highest),
        }
    }

    /// Returns whether the range contains this number.
    pub fn has(self, number: usize) -> bool
        ensures { IsTrue result ↔ IsWithin self number }
    {
        self.lowest <= number && number <= self.highest
    }

    /// Returns whether a number may be in both ranges.
    pub fn overlaps(self, other: Span) -> bool
        ensures shares { (number : ℕ) → IsWithin self number → IsWithin other number → IsTrue result }
        ensures meets { IsTrue result ↔ ((self.lowest ≤ other.highest) × (other.lowest ≤ self.highest)) }
    {
        self.lowest <= other.highest && other.lowest <= self.highest
    }
}

/// All goals that were evaluated under a goal, in whatever way they got their results.
///
/// A stored result that was used is listed by its index in the cache, which has the goals that were evaluated under it. So the lists
/// are no longer than the number of nested goals.
#[derive(Drop)]
pub struct NestedGoals {
    /// Goals that had no stored result, in the order of their evaluation.
    pub goals: Vec<usize>,
    /// Indices in the cache for stored results that were used: of their goals, with all that was evaluated under these.
    pub cached: Vec<usize>,
    /// A range that contains the numbers of all of them.
    pub span: Span,
}

impl NestedGoals {
    /// Returns no goals.
    pub fn new(alloc: Global) -> NestedGoals
        ensures goals { result.goals.items ≡ [] }
        ensures cached { result.cached.items ≡ [] }
        ensures span { result.span ≡ no_goal }
    {
        NestedGoals {
            goals: Vec::new(alloc),
            cached: Vec::new(alloc),
            span: Span::empty(),
        }
    }

    /// Adds a goal that had no stored result, by its number. If memory is refused, `goals` and `span` stay the same.
    pub fn add_goal(&mut self, number: usize) -> Result<(), AllocError>
        ensures added { OnOk result (self.new.goals.items ≡ self.old.goals.items ++ number ∷ []) }
        ensures span { OnOk result (self.new.span ≡ covered self.old.span (one_goal number)) }
        ensures cached { self.new.cached ≡ self.old.cached }
        ensures err { OnErr result ((self.new.goals.items ≡ self.old.goals.items) × (self.new.span ≡ self.old.span)) }
    {
        self.goals.push(number)?;
        self.span = self.span.cover(Span::of(number));
        Ok(())
    }

    /// Adds a goal and all goals that were evaluated under it, by their index in the cache. `span` contains their numbers.
    pub fn add_cached(&mut self, place: usize, span: Span) -> Result<(), AllocError>
        ensures added { OnOk result (self.new.cached.items ≡ self.old.cached.items ++ place ∷ []) }
        ensures span { OnOk result (self.new.span ≡ covered self.old.span span) }
        ensures goals { self.new.goals ≡ self.old.goals }
        ensures err { OnErr result ((self.new.cached.items ≡ self.old.cached.items) × (self.new.span ≡ self.old.span)) }
    {
        self.cached.push(place)?;
        self.span = self.span.cover(span);
        Ok(())
    }

    /// Adds the goals of another list. The shorter list is moved to the end of the longer one.
    ///
    /// If memory is refused, some of them may be missing.
    pub fn extend(&mut self, more: NestedGoals) -> Result<(), AllocError>
        ensures goals { OnOk result (IsPermutation (self.old.goals.items ++ more.goals.items) self.new.goals.items) }
        ensures cached { OnOk result (IsPermutation (self.old.cached.items ++ more.cached.items) self.new.cached.items) }
        ensures span { OnOk result (self.new.span ≡ covered self.old.span more.span) }
    {
        let NestedGoals {
            goals,
            cached,
            span,
        } = more;
        join(&mut self.goals, goals)?;
        join(&mut self.cached, cached)?;
        self.span = self.span.cover(span);
        Ok(())
    }
}

/// Adds the numbers of another list, in any order. The shorter list is moved to the end of the longer one.
fn join(numbers: &mut Vec<usize>, mut more: Vec<usize>) -> Result<(), AllocError>
    ensures { OnOk result (IsPermutation (numbers.old.items ++ more.items) numbers.new.items) }
{
    if numbers.len() < more.len() {
        mem::swap(numbers, &mut more);
    }
    numbers.append(&mut more)?;
    Ok(())
}
