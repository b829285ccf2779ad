//! The cache of a fold.
//!
//! What a folder does depends on the number of binders around a node (`by_depth`). So the fold of a type is cached by
//! handle and number of binders. A cache serves one fold, and so one folder. Its entries remain valid as the interner
//! grows.
ghost use Rattle.std.specs.Prelude.{◌≡◌, ℕ, List, IfSome, IfErr, OnOk};
ghost use Rattle.type_terms.specs.Promised.Handles.{Entry};
ghost use Rattle.term_folds.specs.Memos.{Action, IsMemoUnder, IsNoted, Remembers};

use std::alloc::Global;
use std::collections::HashMap;
use type_terms::binders::Binders;
use type_terms::entered::BEFORE;
use type_terms::kinds::Ty;
use type_terms::{Fault, MAX_INDEX};

/// A type under a number of binders.
#[derive(Clone, Copy, PartialEq, Eq, Hash)]
pub(crate) struct Place {
    pub ty: u32,
    pub depth: u32,
}

/// The folds of types under numbers of binders. The first `BEFORE` lookups are not cached.
pub(crate) struct Memo {
    pub steps: u32,
    pub found: HashMap<Place, Ty>,
}

// Written by hand, so that an owner drops it by one call instead of field by field.
impl Drop for Memo {
    fn drop(self) {
        let Memo { steps: _, found: _ } = self;
    }
}

impl Memo {
    /// An empty cache. It allocates nothing.
    pub fn new(alloc: Global) -> Memo
        ensures { (f : Action) (es : List Entry) → Remembers f es result }
    {
        Memo {
            steps: 0,
            found: HashMap::new(alloc),
        }
    }

    /// The fold of a type under these binders, if it is cached.
    pub fn known(&mut self, ty: Ty, binders: &Binders) -> Option<Ty>
        ensures found { (f : Action) (es : List Entry) → Remembers f es self.old → IfSome result (λ t. IsMemoUnder f es binders.now ty.0 t.0) }
        ensures same { self.new.found ≡ self.old.found }
    {
        if self.steps < BEFORE {
            self.steps += 1;
            return None;
        }
        let depth = binders.depth().index;
        if depth == MAX_INDEX {
            return None;
        }
        self.found.get(&Place { ty: ty.0, depth }).copied()
    }

    /// Caches the fold of a type under these binders.
    pub fn note(&mut self, ty: Ty, binders: &Binders, folded: Ty) -> Result<(), Fault>
        ensures noted { OnOk result (IsNoted self.old self.new binders.now ty.0 folded.0) }
        ensures memory { IfErr result (λ e. e ≡ Fault.Memory) }
    {
        let depth = binders.depth().index;
        if self.steps < BEFORE || depth == MAX_INDEX {
            return Ok(());
        }
        self.found.insert(Place { ty: ty.0, depth }, folded)?;
        Ok(())
    }
}
