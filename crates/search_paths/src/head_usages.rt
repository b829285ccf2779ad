//! How often the results of goals of the stack were read, as rustc counts them.

ghost use Rattle.std.specs.Prelude.{◌≡◌, ℕ, IfErr, OnOk, OnErr};
ghost use Rattle.std.specs.FinMap as map;
ghost use Rattle.search_paths.specs.Laws.{IsAssociative, IsCommutative};
ghost use Rattle.search_paths.specs.Usages.{sticking_sum, count_by, no_usages, usage_count};
ghost use Rattle.search_paths.specs.declared.path_kind.PathKind.{PathKind};
ghost use Rattle.type_terms.specs.declared.Fault.TheVariants.{Memory};

use crate::path_kind::PathKind;
use indexmap::IndexMap;
use std::alloc::Global;
use std::marker::Model;
use type_terms::Fault;

/// How often the result of a goal of the stack was read, by the kinds of the paths that led to it.
///
/// Each number is at most `u32::MAX`. `HeadUsages` of `rustc_type_ir::search_graph`.
#[derive(Clone, Copy, PartialEq, Eq)]
pub struct HeadUsages {
    pub inductive: u32,
    pub unknown: u32,
    pub coinductive: u32,
    pub forced_ambiguity: u32,
}

impl HeadUsages {
    /// Returns that it was never read.
    pub fn new() -> HeadUsages
        ensures { result ≡ no_usages }
    {
        HeadUsages {
            inductive: 0,
            unknown: 0,
            coinductive: 0,
            forced_ambiguity: 0,
        }
    }

    /// Returns how often it was read by paths of this kind.
    pub fn count(&self, path: PathKind) -> u32
        ensures { result ≡ count_by self.now path }
    {
        match path {
            PathKind::Inductive => self.inductive,
            PathKind::Unknown => self.unknown,
            PathKind::Coinductive => self.coinductive,
            PathKind::ForcedAmbiguity => self.forced_ambiguity,
        }
    }

    /// Counts one more read, by a path of this kind.
    pub fn add_usage(&mut self, path: PathKind)
        ensures added { count_by self.new path ≡ sticking_sum (count_by self.old path) 1 }
        ensures others { (other : PathKind) → (other ≡ path → ⊥) → count_by self.new other ≡ count_by self.old other }
    {
        match path {
            PathKind::Inductive => self.inductive = self.inductive.saturating_add(1),
            PathKind::Unknown => self.unknown = self.unknown.saturating_add(1),
            PathKind::Coinductive => self.coinductive = self.coinductive.saturating_add(1),
            PathKind::ForcedAmbiguity => self.forced_ambiguity = self
                .forced_ambiguity
                .saturating_add(1),
        }
    }

    /// Adds both.
    pub fn plus(self, other: HeadUsages) -> HeadUsages
        ensures { (path : PathKind) → count_by result path ≡ sticking_sum (count_by self path) (count_by other path) }
    {
        HeadUsages {
            inductive: self.inductive.saturating_add(other.inductive),
            unknown: self.unknown.saturating_add(other.unknown),
            coinductive: self.coinductive.saturating_add(other.coinductive),
            forced_ambiguity: self.forced_ambiguity.saturating_add(other.forced_ambiguity),
        }
    }
}

/// How often the results of goals of the stack were read while a candidate was considered.
///
/// `CandidateHeadUsages` of `rustc_type_ir::search_graph`, which panics if a number overflows.
pub struct CandidateHeadUsages {
    /// By the indices of the goals in the stack.
    usages: IndexMap<usize, HeadUsages>,
}

// Written by hand, so that owners drop it in one call (docs/PROVING.md, 'Drop').
impl Drop for CandidateHeadUsages {
    fn drop(self) {
        let CandidateHeadUsages { usages: _ } = self;
    }
}

impl Model for CandidateHeadUsages {
    ghost use Rattle.std.specs.Ordering.{nat_cmp};
    ghost use Rattle.std.specs.Prelude.{ℕ, ◌<◌, ◌^◌};
    ghost use Rattle.std.specs.FinMap as map;
    ghost use Rattle.std.specs.Coded.{coded_ℕ};
    ghost use Rattle.search_paths.specs.Usages.{usage_count, usages_code};
    ghost use Rattle.search_paths.specs.declared.path_kind.PathKind.{PathKind};
    ghost use Rattle.search_paths.specs.declared.head_usages.HeadUsages.{HeadUsages};

    ghost Value = { map.FinMap nat_cmp HeadUsages };

    ghost coded = { map.code coded_ℕ usages_code };

    ghost view = { λ u. map.from_entries u.usages.entries };

    ghost invariant = { λ u. (head : ℕ) (path : PathKind) → usage_count (map.from_entries u.usages.entries) head path < 2 ^ 32 };
}

impl CandidateHeadUsages {
    /// Returns that nothing was read, without allocating.
    pub fn new(alloc: Global) -> CandidateHeadUsages
        ensures { result ≡ map.empty }
    {
        CandidateHeadUsages {
            usages: IndexMap::new(alloc),
        }
    }

    /// Returns how often the result of the goal with this index was read, by paths of this kind.
    pub fn count(&self, head: usize, path: PathKind) -> u32
        ensures { result ≡ usage_count self.now head path }
    {
        match self.usages.get(&head) {
            Some(usages) => usages.count(path),
            None => 0,
        }
    }

    /// Counts one more read of the result of the goal with this index, by a path of this kind. Fails if memory is refused, and then
    /// changes nothing.
    pub fn add_usage(&mut self, head: usize, path: PathKind) -> Result<(), Fault>
        ensures added { OnOk result (usage_count self.new head path ≡ sticking_sum (usage_count self.old head path) 1) }
        ensures others { OnOk result ((place : ℕ) (kind : PathKind) → (place ≡ head → kind ≡ path → ⊥)
            → usage_count self.new place kind ≡ usage_count self.old place kind) }

        ensures memory { IfErr result (λ fault. fault ≡ Memory) }
        ensures unchanged { OnErr result (self.new ≡ self.old) }
    {
        let mut usages = self.usages.get(&head).copied().unwrap_or(HeadUsages::new());
        usages.add_usage(path);
        self.usages.insert(head, usages)?;
        Ok(())
    }

    /// Adds other reads, each number to its own. Fails if memory is refused, and then changes nothing.
    pub fn merge_usages(&mut self, other: CandidateHeadUsages) -> Result<(), Fault>
        ensures sums { OnOk result ((head : ℕ) (path : PathKind)
            → usage_count self.new head path ≡ sticking_sum (usage_count self.old head path) (usage_count other head path)) }

        // Neither the order nor the grouping of merges matters.
        ensures commutative { IsCommutative sticking_sum }
        ensures associative { IsAssociative sticking_sum }

        ensures memory { IfErr result (λ fault. fault ≡ Memory) }
        ensures unchanged { OnErr result (self.new ≡ self.old) }
    {
        let CandidateHeadUsages { usages } = other;
        self.usages.reserve(usages.len())?;
        for (head, more) in usages {
            let known = self.usages.get(&head).copied().unwrap_or(HeadUsages::new());
            self.usages.insert(head, known.plus(more))?;
        }
        Ok(())
    }
}
