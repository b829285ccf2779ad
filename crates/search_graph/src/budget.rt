//! What is counted in a call from outside, and what goals may still evaluate once they have run out.

ghost use Rattle.std.specs.Prelude.{◌≡◌, ◌+◌, ◌-◌, ◌^◌, ◌<◌, ◌≤◌, [], min, Some, None, IfSome, IfNone, IsSome, cond, true, false};
ghost use Rattle.search_graph.specs.Bound.{uncached_questions_limit, counted_before, least_share, share_of, spare_of};

use crate::delegate::Delegate;
use crate::search::nested_depth;
use search_paths::Dependencies;

/// A call from outside is given up when uncached goals have evaluated this many nested goals, in it and in earlier calls.
///
/// A goal is uncached if its result depends on goals of the stack, or if it met an overflow by depth. The goal is counted when it ends,
/// with the nested goals of all its runs. Each counts once, and `Delegate::cost_of` times more for the goal's own types. A goal that
/// has run out is not counted.
///
/// An uncached result is stored for one run of its nearest head at most. It is computed again if its goal is evaluated after that run.
/// If goals reach each other by many paths, that may happen exponentially often in the number of goals. All other goals are cached, so
/// this bounds the time of a call. Goals that form no cycle and whose chains fit the depth are never counted, whatever they cost. Types
/// that grow at each step reach the number: in two ways within a depth of 139, in three within 100, in sixteen within 16.
pub(crate) const UNCACHED_QUESTIONS_LIMIT: usize = 65536;

/// Each call from outside takes so many off the count of earlier calls, so it may count as many at least. Where each call counts fewer,
/// none is given up for what others counted.
const QUESTIONS_OF_A_CALL: usize = 64;

/// The goals of the stack run out when only this part of what a call may count is left: each has met an overflow by depth. They continue
/// with their other nested goals and candidates, each of which has a share of that part. If it is no share, the call is given up at once.
const PARTS_OF_A_CALL: usize = 16;

/// A nested goal of the oldest goal of the stack gets this part of what is left, and of the next goals half of it, a third and so on.
const PARTS_OF_A_LEVEL: usize = 16;

/// A smaller share is not given. It is more than most goals need that no impl fits.
const LEAST_SHARE: usize = 16;

/// A nested goal has one level of depth for so many nested goals of its share.
const QUESTIONS_OF_A_LEVEL: usize = 8;

/// The count of a call from outside, and how far it may go.
#[derive(Drop)]
pub struct Budget {
    /// The number of nested goals of the uncached goals that ended in this call, as `UNCACHED_QUESTIONS_LIMIT` counts them, and what is
    /// left of the count of earlier calls.
    pub(crate) counted: usize,
    /// The goals that are evaluated now have run out when the count reaches this number.
    pub(crate) allowance: usize,
    /// How many goals of the stack have run out before the newest share was given. They may give shares.
    pub(crate) sharing: usize,
}

impl Budget {
    /// Returns the budget of a call in which no goal has ended, after earlier calls have counted `spent`.
    pub(crate) fn after(spent: usize) -> Self
        ensures count { result.counted ≡ counted_before spent }
        ensures spare { least_share ≤ spare_of (counted_before spent) → result.allowance ≡ uncached_questions_limit - spare_of (counted_before spent) }
        ensures no_spare { spare_of (counted_before spent) < least_share → result.allowance ≡ uncached_questions_limit }
        ensures unshared { result.sharing ≡ 0 }
    {
        let counted = spent
            .min(UNCACHED_QUESTIONS_LIMIT)
            .saturating_sub(QUESTIONS_OF_A_CALL);
        let spare = UNCACHED_QUESTIONS_LIMIT.saturating_sub(counted) / PARTS_OF_A_CALL;
        let kept = if spare < LEAST_SHARE { 0 } else { spare };
        Budget {
            counted,
            allowance: UNCACHED_QUESTIONS_LIMIT.saturating_sub(kept),
            sharing: 0,
        }
    }

    /// Adds `cost` for a goal that ended, if the goal is uncached and has not run out. `level` is the number of goals below it on the
    /// stack. They run out if the count reaches the limit. Returns whether the call may continue.
    pub(crate) fn count_end(&mut self, level: usize, is_open: bool, cost: usize) -> bool
        ensures limit { is_open ≡ true → self.old.counted < self.old.allowance → result ≡ true → self.new.counted < uncached_questions_limit }
        ensures count { is_open ≡ true → self.old.counted < self.old.allowance → result ≡ true → self.new.counted ≡ self.old.counted + cost }
        ensures uncounted { is_open ≡ false → (result ≡ true) × (self.new ≡ self.old) }
        ensures unwound { self.old.allowance ≤ self.old.counted → (result ≡ true) × (self.new ≡ self.old) }
        ensures allowance { self.new.allowance ≡ self.old.allowance }
        ensures first { is_open ≡ true → self.old.counted < self.old.allowance → self.old.sharing ≡ 0 → self.old.allowance ≤ self.new.counted
            → self.new.sharing ≡ level }
    {
        if !is_open || self.counted >= self.allowance {
            return true;
        }
        self.counted = self.counted.saturating_add(cost);
        if self.sharing == 0 && self.counted >= self.allowance {
            self.sharing = level;
        }
        self.counted < UNCACHED_QUESTIONS_LIMIT
    }

    /// Returns the depth of a nested goal of a goal with this depth, which is the newest of `level` goals on the stack. It is `None` if the
    /// nested goal is answered by an overflow: at depth 0, and if no share is left for it.
    pub(crate) fn depth_for<D: Delegate>(
        &mut self,
        level: usize,
        depth: usize,
        overflowed: bool,
    ) -> Option<usize>
        ensures falls { IfSome result (λ nested. nested < depth) }
        ensures less { IfSome result (λ nested. overflowed ≡ false → nested + 1 ≡ depth) }
        ensures none { IfNone result (cond overflowed 0 depth ≡ 0) }
        ensures goes_on { 1 ≤ depth → self.old.counted < self.old.allowance → IsSome result }
        ensures shared { 1 ≤ depth → level ≤ self.old.sharing → least_share ≤ share_of self.old.counted level → IsSome result }
        ensures counted { self.new.counted ≡ self.old.counted }
    {
        if depth == 0 {
            return None;
        }
        let nested = nested_depth::<D>(depth, overflowed);
        if !overflowed || self.counted < self.allowance {
            return Some(nested);
        }
        let share = self.give_share(level)?;
        Some(nested.min(share / QUESTIONS_OF_A_LEVEL))
    }

    /// Gives a share to the next nested goal of the newest of `level` goals. It is `None` if that goal is itself evaluated under a share, or
    /// if too little is left.
    fn give_share(&mut self, level: usize) -> Option<usize>
        ensures given { level ≤ self.old.sharing → least_share ≤ share_of self.old.counted level → result ≡ Some (share_of self.old.counted level) }
        ensures share { IfSome result (λ share. (share ≡ share_of self.old.counted level) × (self.new.sharing ≡ level)
            × (self.new.allowance ≡ min (self.old.counted + share) (2 ^ 64 - 1))) }
        ensures under { self.old.sharing < level → (result ≡ None) × (self.new ≡ self.old) }
        ensures counted { self.new.counted ≡ self.old.counted }
    {
        if level > self.sharing {
            return None;
        }
        let left = UNCACHED_QUESTIONS_LIMIT.saturating_sub(self.counted);
        let share = left / PARTS_OF_A_LEVEL / level.max(1);
        if share < LEAST_SHARE {
            return None;
        }
        self.sharing = level;
        self.allowance = self.counted.saturating_add(share);
        Some(share)
    }

    /// Returns whether the result of a nested goal of the newest of `level` goals is one after an overflow since the newest goal has run out.
    /// That is so if it depends on goals of the stack. The nested goal's share ends with it.
    pub(crate) fn end_nested(&mut self, level: usize, found: &Dependencies) -> bool
        ensures run_out { self.old.allowance ≤ self.old.counted → (found.now.heads.items ≡ [] → ⊥) → result ≡ true }
        ensures shared { level ≤ self.old.sharing → (found.now.heads.items ≡ [] → ⊥) → result ≡ true }
        ensures rests { result ≡ true → found.now.heads.items ≡ [] → ⊥ }
        ensures ended { level ≤ self.old.sharing → self.new.allowance ≡ 0 }
        ensures counted { self.new.counted ≡ self.old.counted }
    {
        if level <= self.sharing {
            self.allowance = 0;
        }
        if self.counted < self.allowance {
            return false;
        }
        !found.heads.is_empty()
    }
}
