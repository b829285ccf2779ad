//! The types that a visit has entered.
ghost use Rattle.std.specs.Prelude.{◌≡◌, ◌⊎◌, ℕ, IsTrue, true, nat_eq};
ghost use Rattle.std.specs.HashSet.{contains};

use crate::kinds::Ty;
use std::alloc::Global;
use std::collections::HashSet;

/// A visit stores the types that it enters only after this number, so that a small term needs no table.
pub const BEFORE: u32 = 32;

/// The types that a visit has entered, by their handles, without the first 32.
pub struct Entered {
    pub steps: u32,
    pub types: HashSet<u32>,
}

// Written by hand, so that the drop of an owner calls it once at each exit, and not once for each field.
impl Drop for Entered {
    fn drop(self) {
        let Entered { steps: _, types: _ } = self;
    }
}

impl Entered {
    /// The empty set. It allocates nothing.
    pub fn new(alloc: Global) -> Entered
        ensures { (i : ℕ) → contains nat_eq result.types i ≡ true → ⊥ }
    {
        Entered {
            steps: 0,
            types: HashSet::new(alloc),
        }
    }

    /// Adds a type, and returns whether it was there. If memory is refused it is not added, and the visit enters it
    /// again where it occurs again.
    pub fn enter(&mut self, ty: Ty) -> bool
        ensures before { IsTrue result → contains nat_eq self.old.types ty.0 ≡ true }
        ensures one { (i : ℕ) → contains nat_eq self.new.types i ≡ true → (contains nat_eq self.old.types i ≡ true) ⊎ (i ≡ ty.0) }
    {
        if self.steps < BEFORE {
            self.steps += 1;
            return false;
        }
        match self.types.insert(ty.0) {
            Ok(added) => !added,
            Err(_) => false,
        }
    }
}
