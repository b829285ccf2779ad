//! The cache of pairs of types that an equation has related.
ghost use Rattle.std.specs.Prelude.{◌≡◌, ◌⊎◌, ◌∷◌, List, [], IsTrue, true, length};
ghost use Rattle.std.specs.HashSet.{contains};
ghost use Rattle.type_terms.specs.Promised.Handles.{Entry};
ghost use Rattle.infer_table.specs.Content.{Table};
ghost use Rattle.infer_table.specs.Unification.{Worklist};
ghost use Rattle.infer_table.specs.Worklists.{equation_trees};
ghost use Rattle.infer_table.specs.Related.{RestsIn, Tracks, TracksOpen, Begins, pair_eq};

use crate::terms::Equation;
use std::alloc::Global;
use std::collections::HashSet;
use type_terms::kinds::GenericArgKind;

/// The number of pairs that are entered before the cache is used, so that a small equation allocates none.
const BEFORE: u32 = 32;

/// The handles of two types.
#[derive(Clone, Copy, PartialEq, Eq, Hash)]
pub struct Pair {
    pub left: u32,
    pub right: u32,
}

/// A pair whose parts are being related, with the number of equations after these parts and the number of lifetime
/// variables that the table had before.
#[derive(Clone, Copy)]
pub struct Begun {
    pub pair: Pair,
    pub left: usize,
    pub lifetimes: u32,
}

impl Begun {
    /// Whether no binder was opened since, if the table has this number of lifetime variables now.
    fn opened_none(self, lifetimes: u32) -> bool
        ensures { IsTrue result → self.lifetimes ≡ lifetimes }
    {
        self.lifetimes == lifetimes
    }
}

/// The pairs of types that are completely related, and a stack of those that were begun.
///
/// A related pair that occurs again can be skipped, since a constraint on lifetimes is recorded once. A pair is not cached
/// if a binder was opened while it was related, since each opening takes new variables.
pub struct Related {
    pub steps: u32,
    pub settled: HashSet<Pair>,
    pub begun: Vec<Begun>,
}

// Written by hand, so that an owner drops it by one call instead of field by field.
impl Drop for Related {
    fn drop(self) {
        let Related {
            steps: _,
            settled: _,
            begun: _,
        } = self;
    }
}

impl Related {
    /// An empty cache. It allocates nothing.
    pub fn new(alloc: Global) -> Related
        ensures { (es : List Entry) (t : Table) (todo : Worklist) → TracksOpen es t todo result }
    {
        Related {
            steps: 0,
            settled: HashSet::new(alloc),
            begun: Vec::new(alloc),
        }
    }

    /// Whether the equation is of a completely related pair.
    pub fn is_settled(&self, equation: Equation) -> bool
        ensures settled { IsTrue result → (es : List Entry) (t : Table) (todo : Worklist) → Tracks es t todo self.now
            → RestsIn es t [] (equation_trees es equation ∷ []) }
    {
        match equation.left {
            GenericArgKind::Ty(left) => match equation.right {
                GenericArgKind::Ty(right) => self.settled.contains(&Pair {
                    left: left.0,
                    right: right.0,
                }),
                _ => false,
            },
            _ => false,
        }
    }

    /// Begins the pair of an equation of types. `left` equations follow its parts, and the table had `lifetimes` lifetime
    /// variables before it. The first pairs are not cached. If memory is refused, the pair is not cached.
    pub fn begin(&mut self, equation: Equation, left: usize, lifetimes: u32)
        ensures settled { self.new.settled ≡ self.old.settled }
        ensures begun { Begins equation left lifetimes self.old.begun.items self.new.begun.items }
    {
        if self.steps < BEFORE {
            self.steps += 1;
            return;
        }
        match equation.left {
            GenericArgKind::Ty(a) => match equation.right {
                GenericArgKind::Ty(b) => {
                    let pair = Pair {
                        left: a.0,
                        right: b.0,
                    };
                    let _ = self.begun.push(Begun {
                        pair,
                        left,
                        lifetimes,
                    });
                }
                _ => {}
            },
            _ => {}
        }
    }

    /// Caches the begun pairs whose parts are solved, if `left` equations remain and the table has `lifetimes` lifetime
    /// variables. Pairs that opened a binder are not cached.
    pub fn finish(&mut self, left: usize, lifetimes: u32)
        ensures tracks { (es : List Entry) (t : Table) (todo : Worklist) → Tracks es t todo self.old → length todo ≡ left → lifetimes ≡ t.region_vars
            → TracksOpen es t todo self.new }
    {
        'done: while let Some(last) = self.begun.pop() {
            if last.left < left {
                let _ = self.begun.push(last);
                return;
            }
            if last.opened_none(lifetimes) {
                self.settle(last.pair);
            }
        }
    }

    /// Caches a pair. If memory is refused, the pair is not cached, and is related again if it occurs again.
    fn settle(&mut self, pair: Pair)
        ensures begun { self.new.begun ≡ self.old.begun }
        ensures one { (p : Pair) → contains pair_eq self.new.settled p ≡ true → (contains pair_eq self.old.settled p ≡ true) ⊎ (p ≡ pair) }
    {
        let _ = self.settled.insert(pair);
    }
}
