//! The public interface of a cache.

ghost use Rattle.std.specs.Prelude.{◌≡◌, ◌<◌, ◌≤◌, [], length};
ghost use Rattle.search_graph.specs.Cache.{AreJustified};
ghost use Rattle.search_graph.specs.declared.global_cache.TheConstants.{MAX_KEPT_RESULTS};

use crate::cache::CachedResults;
use crate::delegate::Delegate;
use std::alloc::Global;
use std::marker::Model;

/// How many results a cache keeps at most from one root goal to the next.
pub const MAX_KEPT_RESULTS: usize = 262_144;

/// The results that depend on no goal of the stack, by their goals.
///
/// In clauses it is the list of its results, the oldest first. `GlobalCache` of `rustc_type_ir::search_graph`.
pub struct GlobalCache<D: Delegate> {
    pub(crate) results: CachedResults<D>,
}

impl<D: Delegate> Model for GlobalCache<D> {
    ghost use Rattle.std.specs.Prelude.{List};
    ghost use Rattle.search_graph.specs.Cache.{KnownResult, known_results};

    ghost Value = { List (KnownResult D.Cx.Input D.Cx.Result) };

    ghost view = { λ cache. known_results cache.results.entries.items };
}

impl<D: Delegate> Drop for GlobalCache<D> {
    fn drop(self) {
        let GlobalCache { results: _ } = self;
    }
}

impl<D: Delegate> GlobalCache<D> {
    /// Returns a cache without entries, without allocating.
    pub fn new(alloc: Global) -> Self
        ensures { result ≡ [] }
    {
        GlobalCache {
            results: CachedResults::new(alloc),
        }
    }

    /// Forgets all results if there are more than `MAX_KEPT_RESULTS`, so that a cache has at most these and those of one root goal.
    ///
    /// A chain longer than the depth leaves a result for each goal and depth, and no later goal uses them.
    pub fn forget_if_many(&mut self)
        ensures kept { length self.old ≤ MAX_KEPT_RESULTS → self.new ≡ self.old }
        ensures forgotten { MAX_KEPT_RESULTS < length self.old → self.new ≡ [] }
        ensures justified { (c : D.Cx) → AreJustified D.meaning c self.old → AreJustified D.meaning c self.new }
    {
        if self.results.entries.len() > MAX_KEPT_RESULTS {
            self.results = CachedResults::new(self.results.alloc);
        }
    }
}
