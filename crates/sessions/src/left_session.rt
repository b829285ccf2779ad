//! What a session leaves for the next session of the same crate.

ghost use Rattle.std.specs.Prelude.{◌≡◌};
ghost use Rattle.sessions.specs.LeftSessions.{LeavesView, StaysLeft};

use crate::seen_view::SeenView;
use candidate_assembly::solver::Solver;
use declarations::declarations::Declarations;
use solver_graph::Search;
use std::mem;
use type_terms::CrateId;
use type_terms::interner::Interner;

/// A session without its text: what its crate sees, and all terms, goals, answers and results of its calls. `Session::leave` leaves it.
///
/// The next session of the crate goes on with it (`Session::after`), also where the text has other queries by then.
pub struct LeftSession {
    /// The crate.
    pub crate_id: CrateId,
    pub(crate) search: Search<Solver>,

    // How many frames earlier sessions over the interner have started.
    pub(crate) frames_before: u64,
}

// Hand-written so that the prover sees one drop call: docs/PROVING.md#drop.
impl Drop for LeftSession {
    fn drop(self) {
        let LeftSession {
            crate_id: _,
            search: _,
            frames_before: _,
        } = self;
    }
}

impl LeftSession {
    /// How many frames searches over its interner have started, with those that `count` added. A frame leaves some terms, a goal and a
    /// result.
    pub fn frames(&self) -> u64 {
        self.frames_before
            .saturating_add(self.search.graph.frames())
    }

    /// Counts so many frames more, for terms that no frame made.
    pub fn count(&mut self, frames: u64)
        ensures stays { StaysLeft self.old self.new }
    {
        self.frames_before = self.frames_before.saturating_add(frames);
    }

    /// The crate's view, with the terms of all calls. Goals, answers and the cache are dropped.
    pub(crate) fn into_view(self) -> SeenView
        ensures view { LeavesView self result }
    {
        let LeftSession {
            crate_id,
            mut search,
            frames_before,
        } = self;
        let no_terms = Interner::new(search.cx.alloc, 0);
        let nothing = Solver::new(Declarations::new(search.cx.alloc, crate_id));
        let interner = mem::replace(&mut search.cx.interner, no_terms);
        let solver = mem::replace(&mut search.cx.handler, nothing);
        SeenView {
            crate_id,
            interner,
            declarations: solver.declarations,
            frames: frames_before.saturating_add(search.graph.frames()),
        }
    }

    /// Its search, and how many frames earlier sessions have started.
    pub(crate) fn into_parts(self) -> (Search<Solver>, u64)
        ensures { result ≡ (self.search, self.frames_before) }
    {
        let LeftSession {
            crate_id: _,
            search,
            frames_before,
        } = self;
        (search, frames_before)
    }
}
