//! The set of types that an orphan walk has visited.
ghost use Rattle.std.specs.Prelude.{◌≡◌, ◌⊎◌, ℕ, IsTrue, true};
ghost use Rattle.std.specs.HashSet.{contains};
ghost use Rattle.orphan_check.specs.Visited.{visit_eq, visit_at};

use std::alloc::Global;
use std::collections::HashSet;
use type_terms::kinds::Ty;

/// How many types are visited before the set is used. A small orphan walk needs no memory for it.
const BEFORE: u32 = 32;

/// A visited type.
#[derive(Clone, Copy, PartialEq, Eq, Hash)]
pub(crate) struct Visit {
    /// The handle of the type.
    pub ty: u32,
    /// How many levels the walk may visit from here on, this type included.
    pub limit: u32,
}

/// The types that an orphan walk has visited, without the first `BEFORE` of them.
pub(crate) struct Visited {
    /// How many types were visited, up to `BEFORE`.
    pub steps: u32,
    pub visits: HashSet<Visit>,
}

// Hand-written so that the prover sees one drop call: docs/PROVING.md#drop.
impl Drop for Visited {
    fn drop(self) {
        let Visited {
            steps: _,
            visits: _,
        } = self;
    }
}

impl Visited {
    /// Returns the empty set. It takes no memory.
    pub fn new(alloc: Global) -> Visited
        ensures { (v : Visit) → contains visit_eq result.visits v ≡ true → ⊥ }
    {
        Visited {
            steps: 0,
            visits: HashSet::new(alloc),
        }
    }

    /// Adds a type, and returns whether it was in the set with the same limit. If memory is refused, the type is not added. It is then
    /// visited again where it occurs again.
    pub fn enter(&mut self, ty: Ty, limit: u32) -> bool
        ensures before { IsTrue result → contains visit_eq self.old.visits (visit_at ty limit) ≡ true }
        ensures one { (v : Visit) → contains visit_eq self.new.visits v ≡ true → (contains visit_eq self.old.visits v ≡ true) ⊎ (v ≡ visit_at ty limit) }
    {
        if self.steps < BEFORE {
            self.steps += 1;
            return false;
        }
        match self.visits.insert(Visit { ty: ty.0, limit }) {
            Ok(added) => !added,
            Err(_) => false,
        }
    }
}
