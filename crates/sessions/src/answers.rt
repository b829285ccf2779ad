//! What a session answers: verdicts, and answers of queries and checks.

ghost use Rattle.std.specs.Prelude.{◌≡◌};
ghost use Rattle.sessions.specs.Promised.Given.{values_of_answer};

use orphan_check::errors::OrphanCheckErr;
use type_terms::ImplId;
use type_terms::kinds::{GenericArgKind, Ty};

/// The verdict of a crate.
#[derive(Drop)]
pub enum Verdict {
    /// Each impl of the crate keeps the orphan rule, and no two impls that it brings together overlap.
    Accepted,
    /// The first impl whose header breaks the orphan rule, and why it does.
    Orphan(ImplId, OrphanCheckErr<Ty>),
    /// Two impls that overlap: one of the crate, and one that it sees.
    Overlap(ImplId, ImplId),
}

/// The answer of a `prove` query.
#[derive(Drop)]
pub enum ProveAnswer {
    /// Each bound has a proof with these values for the query's variables, in their order. A variable without a value stands for itself.
    Yes(Vec<GenericArgKind>),
    /// The search does not know. These values are what it knows of the query's variables, in their order. Without where-clauses and
    /// parameters each solution is an instance of them. An unambiguous query for one bound never gets this answer.
    Maybe(Vec<GenericArgKind>),
    /// The search found no proof of some bound. If the query is for one and unambiguous, there is none.
    Unproved,
}

impl ProveAnswer {
    /// The values of the query's variables, in their order.
    pub fn values(&self) -> &[GenericArgKind]
        ensures { result.now ≡ values_of_answer self.now }
    {
        match self {
            ProveAnswer::Yes(values) => values,
            ProveAnswer::Maybe(values) => values,
            ProveAnswer::Unproved => &[],
        }
    }
}

/// The answer of a `refute` query.
#[derive(Clone, Copy, PartialEq, Eq)]
pub enum RefuteAnswer {
    /// The bounds have no proofs in any linked set with the crate, whatever their variables stand for: at least one of them has none.
    No,
    /// None was refused. If there is one alone, and it is bounded, it is possible in the crate.
    Open,
}

/// Whether a later version of a crate may add the impls of a section.
#[derive(Clone, Copy, PartialEq, Eq)]
pub enum LaterAnswer {
    /// It may add each of them.
    Compatible,
    /// It may not. The number is that of the first impl of the section that it may not add, counted from 1.
    Breaking(u32),
}

/// Whether each impl of a crate has the supertraits of its trait.
#[derive(Clone, Copy, PartialEq, Eq)]
pub enum SupersAnswer {
    /// Each supertrait of each header has a proof from the impl's where-clauses.
    Held,
    /// The search found no proof of this supertrait of this impl's header. Supertraits count from 1, in the order of `supertraits`.
    Missing(ImplId, u32),
    /// The search does not know whether this supertrait has a proof.
    Undecided(ImplId, u32),
}
