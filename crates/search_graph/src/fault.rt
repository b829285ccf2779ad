//! Why a goal gets no result.

ghost use Rattle.std.specs.Prelude.{◌≡◌};

use std::alloc::{AllocError, AllocFailed};
use type_terms::Fault;

/// Why a goal got no result.
#[derive(Clone, Copy, PartialEq, Eq, Debug, thiserror::Error)]
pub enum GraphFault {
    /// Memory was refused.
    #[error("out of memory")]
    Memory,
    /// A table of the context is full.
    #[error("a table is full")]
    Full,
    /// A cached result differs from a new one for the same goal.
    #[error("a cached result differs from a new one")]
    Conflict,
    /// A frame made a request out of order.
    #[error("a request out of order")]
    Protocol,
}

/// Why a nested goal gets no result.
#[derive(Clone, Copy, PartialEq, Eq)]
pub(crate) enum Stop {
    /// The evaluation failed.
    Fault(GraphFault),
    /// The call from outside is given up: uncached goals have evaluated too many nested goals in it.
    Exhausted,
}

impl From<GraphFault> for Stop {
    ghost use Rattle.search_graph.specs.declared.fault.Stop.TheVariants.{Fault as Refused};

    ghost from_gives = { λ fault stop. stop ≡ Refused fault };

    fn from(fault: GraphFault) -> Self {
        Stop::Fault(fault)
    }
}

impl From<Fault> for Stop {
    ghost use Rattle.search_graph.specs.declared.fault.Stop.TheVariants.{Fault as Refused, Exhausted as GivenUp};
    ghost use Rattle.search_graph.specs.declared.fault.GraphFault.TheVariants.{Full as FullFault, Conflict as ConflictFault, Protocol as ProtocolFault};
    ghost use Rattle.type_terms.specs.declared.Fault.TheVariants.{Full as FullTable};

    ghost from_gives = { λ fault stop. (stop ≡ GivenUp → ⊥) × (stop ≡ Refused ConflictFault → ⊥) × (stop ≡ Refused ProtocolFault → ⊥)
        × (stop ≡ Refused FullFault → fault ≡ FullTable) };

    fn from(fault: Fault) -> Self {
        match fault {
            Fault::Memory => Stop::Fault(GraphFault::Memory),
            Fault::Full => Stop::Fault(GraphFault::Full),
        }
    }
}

impl From<AllocError> for Stop {
    ghost use Rattle.search_graph.specs.declared.fault.Stop.TheVariants.{Fault as Refused};
    ghost use Rattle.search_graph.specs.declared.fault.GraphFault.TheVariants.{Memory};

    ghost from_gives = { λ _ stop. stop ≡ Refused Memory };

    fn from(_: AllocError) -> Self {
        Stop::Fault(GraphFault::Memory)
    }
}

impl From<Fault> for GraphFault {
    ghost use Rattle.search_graph.specs.declared.fault.GraphFault.TheVariants.{Full as FullFault, Conflict as ConflictFault, Protocol as ProtocolFault};
    ghost use Rattle.type_terms.specs.declared.Fault.TheVariants.{Full as FullTable};

    ghost from_gives = { λ fault e. (e ≡ ConflictFault → ⊥) × (e ≡ ProtocolFault → ⊥) × (e ≡ FullFault → fault ≡ FullTable) };

    fn from(fault: Fault) -> Self {
        match fault {
            Fault::Memory => GraphFault::Memory,
            Fault::Full => GraphFault::Full,
        }
    }
}

impl From<AllocError> for GraphFault {
    ghost use Rattle.search_graph.specs.declared.fault.GraphFault.TheVariants.{Memory};

    ghost from_gives = { λ _ e. e ≡ Memory };

    fn from(_: AllocError) -> Self {
        GraphFault::Memory
    }
}

impl<T: Drop> From<AllocFailed<T>> for GraphFault {
    ghost use Rattle.search_graph.specs.declared.fault.GraphFault.TheVariants.{Memory};

    ghost from_gives = { λ _ e. e ≡ Memory };

    fn from(_: AllocFailed<T>) -> Self {
        GraphFault::Memory
    }
}
