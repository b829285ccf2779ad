//! The goals of the stack whose results the candidates of a frame read.

ghost use Rattle.std.specs.Prelude.{◌≡◌, ◌++◌, ◌∷◌, [], ℕ, true, false, Some, OnOk, slice_get};
ghost use Rattle.std.specs.Int.RustNames.{bit_or};
ghost use Rattle.search_graph.specs.declared.delegate.Request.TheVariants.{FinishCandidate, IgnoreCandidate};
ghost use Rattle.search_paths.specs.Heads.{paths_to, paths_in, RestsOn};
ghost use Rattle.search_paths.specs.KeptPaths.{indices};

use crate::delegate::Request;
use search_paths::{CycleHead, add_all_paths, forget_paths, merge_heads};
use std::alloc::{AllocError, Global};
use std::mem;

/// The goals of the stack whose results the candidates of a frame read. The reads of an ignored candidate no longer count.
pub(crate) struct CandidateReads {
    alloc: Global,
    /// The goals of the stack whose results the open candidate read, with the kinds of the paths.
    pub(crate) unfinished: Vec<CycleHead>,
    /// The same for the candidates that were finished, by number. Empty for those that were ignored since.
    pub(crate) finished: Vec<Vec<CycleHead>>,
}

impl Drop for CandidateReads {
    fn drop(self) {
        let CandidateReads {
            alloc: _,
            unfinished: _,
            finished: _,
        } = self;
    }
}

impl CandidateReads {
    /// Returns no reads, of no candidate.
    pub(crate) fn new(alloc: Global) -> CandidateReads
        ensures unfinished { result.unfinished.items ≡ [] }
        ensures finished { result.finished.items ≡ [] }
    {
        CandidateReads {
            alloc,
            unfinished: Vec::new(alloc),
            finished: Vec::new(alloc),
        }
    }

    /// Records a request of the frame: a candidate is finished, or ignored.
    pub(crate) fn note<I, R>(&mut self, request: &Request<I, R>) -> Result<(), AllocError>
        ensures finished { OnOk result (request.now ≡ FinishCandidate
            → (self.new.finished.items ≡ self.old.finished.items ++ self.old.unfinished ∷ []) × (self.new.unfinished.items ≡ [])) }
        ensures ignored { (number : ℕ) (read : _) → request.now ≡ IgnoreCandidate number → slice_get self.new.finished.items number ≡ Some read
            → read.items ≡ [] }
    {
        match request {
            Request::FinishCandidate => {
                let read = mem::replace(&mut self.unfinished, Vec::new(self.alloc));
                self.finished.push(read)?;
            }
            Request::IgnoreCandidate(number) => {
                if *number < self.finished.len() {
                    self.finished[*number].clear();
                }
            }
            _ => {}
        }
        Ok(())
    }

    /// If a candidate is open, moves the paths by which it read the heads from `heads` to itself. `heads` still has the heads.
    pub(crate) fn hold(
        &mut self,
        is_open: bool,
        heads: &mut Vec<CycleHead>,
    ) -> Result<(), AllocError>
        ensures same { OnOk result (indices heads.new.items ≡ indices heads.old.items) }
        ensures counted { is_open ≡ false → heads.new.items ≡ heads.old.items }
        ensures held { OnOk result (is_open ≡ true → (place : ℕ)
            → paths_to self.new.unfinished.items place ≡ bit_or (paths_to self.old.unfinished.items place) (paths_to heads.old.items place)) }
        ensures unread { OnOk result (is_open ≡ true → (place : ℕ) → paths_to heads.new.items place ≡ 0) }
    {
        if !is_open {
            return Ok(());
        }
        merge_heads(&mut self.unfinished, heads)?;
        forget_paths(self.alloc, heads)
    }

    /// Adds the paths of the candidates that were finished and not ignored, for the heads that the list has.
    pub(crate) fn count(&self, heads: &mut Vec<CycleHead>)
        ensures same { indices heads.new.items ≡ indices heads.old.items }
        ensures counted { (place : ℕ) → RestsOn heads.old.items place
            → paths_to heads.new.items place ≡ bit_or (paths_to heads.old.items place) (paths_in self.now.finished.items place) }
    {
        for read in &self.finished {
            add_all_paths(heads, read);
        }
    }
}
