//! The candidates of a frame.

ghost use Rattle.std.specs.Prelude.{◌≡◌, ◌++◌, ◌∷◌, [], Bool, true, false, None, Some, IfOk, OnOk, length, slice_get, slice_set};
ghost use Rattle.search_graph.specs.declared.fault.GraphFault.TheVariants.{Full, Protocol, Conflict};
ghost use Rattle.search_graph.specs.Turn.{IsInTurn, IsTurn};

use crate::delegate::{Reply, Request};
use crate::fault::GraphFault;
use search_paths::PathKind;
use std::alloc::Global;

/// The candidates of a frame, by the requests that it made.
///
/// The goals of the stack whose results they read are stored apart, in `CandidateReads`.
#[derive(Drop)]
pub struct Candidates {
    /// Whether the frame has entered a candidate that it has not finished. There is one at most.
    pub open: bool,
    /// The candidates that were finished, by number: whether each was ignored since.
    pub finished: Vec<bool>,
}

/// What is due after a request in order.
#[derive(Drop)]
pub(crate) enum Turn<I, R> {
    /// The nested goal is evaluated, by a step of this kind.
    Ask(I, PathKind),
    /// The frame is given this reply.
    Tell(Reply<R>),
    /// The frame is done, with this result.
    End(R),
}

impl Candidates {
    /// Returns no candidates.
    pub fn new(alloc: Global) -> Candidates
        ensures open { result.open ≡ false }
        ensures finished { result.finished.items ≡ [] }
    {
        Candidates {
            open: false,
            finished: Vec::new(alloc),
        }
    }

    /// Returns what is due after a request. Fails if the request is out of order (`Protocol`), or if memory is refused.
    pub(crate) fn take<I: Drop, R: Drop>(
        &mut self,
        request: Request<I, R>,
    ) -> Result<Turn<I, R>, GraphFault>
        ensures turn { IfOk result (λ turn. IsTurn self.old.open self.old.finished.items request turn self.new.open self.new.finished.items) }
        ensures protocol { result ≡ Err Protocol → IsInTurn self.old.open self.old.finished.items request → ⊥ }
        ensures no_conflict { result ≡ Err Conflict → ⊥ }
        ensures room { result ≡ Err Full → ⊥ }
    {
        match request {
            Request::Evaluate(input, step_kind) => Ok(Turn::Ask(input, step_kind)),
            Request::EnterCandidate => {
                self.enter()?;
                Ok(Turn::Tell(Reply::Entered))
            }
            Request::FinishCandidate => {
                let number = self.finish()?;
                Ok(Turn::Tell(Reply::Finished(number)))
            }
            Request::IgnoreCandidate(number) => {
                self.ignore(number)?;
                Ok(Turn::Tell(Reply::Ignored))
            }
            Request::Done(_) if self.open => Err(GraphFault::Protocol),
            Request::Done(answer) => Ok(Turn::End(answer)),
        }
    }

    /// Enters a candidate. Fails if one is open.
    pub fn enter(&mut self) -> Result<(), GraphFault>
        ensures entered { OnOk result ((self.old.open ≡ false) × (self.new.open ≡ true)) }
        ensures finished { self.new.finished ≡ self.old.finished }
        ensures protocol { result ≡ Err Protocol → self.old.open ≡ true }
        ensures no_conflict { result ≡ Err Conflict → ⊥ }
        ensures room { result ≡ Err Full → ⊥ }
    {
        if self.open {
            return Err(GraphFault::Protocol);
        }
        self.open = true;
        Ok(())
    }

    /// Finishes the open candidate, and returns its number.
    pub fn finish(&mut self) -> Result<usize, GraphFault>
        ensures number { IfOk result (λ number. number ≡ length self.old.finished.items) }
        ensures finished { OnOk result (self.new.finished.items ≡ self.old.finished.items ++ false ∷ []) }
        ensures open { OnOk result ((self.old.open ≡ true) × (self.new.open ≡ false)) }
        ensures protocol { result ≡ Err Protocol → self.old.open ≡ false }
        ensures no_conflict { result ≡ Err Conflict → ⊥ }
        ensures room { result ≡ Err Full → ⊥ }
    {
        if !self.open {
            return Err(GraphFault::Protocol);
        }
        let number = self.finished.len();
        self.finished.push(false)?;
        self.open = false;
        Ok(number)
    }

    /// Ignores a candidate. Fails unless it was finished and not ignored since.
    pub fn ignore(&mut self, number: usize) -> Result<(), GraphFault>
        ensures ignored { OnOk result ((slice_get self.old.finished.items number ≡ Some false)
            × (self.new.finished.items ≡ slice_set self.old.finished.items number true)) }
        ensures open { self.new.open ≡ self.old.open }
        ensures protocol { result ≡ Err Protocol → slice_get self.old.finished.items number ≡ Some false → ⊥ }
        ensures no_conflict { result ≡ Err Conflict → ⊥ }
        ensures room { result ≡ Err Full → ⊥ }
    {
        match self.finished.get(number) {
            Some(false) => {
                self.finished[number] = true;
                Ok(())
            }
            Some(true) | None => Err(GraphFault::Protocol),
        }
    }
}
