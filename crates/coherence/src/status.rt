//! How a run ends.

ghost use Rattle.std.specs.Prelude.{◌≡◌};
ghost use Rattle.coherence.specs.declared.status.RunFault.TheVariants.{Memory};

use sessions::type_terms::Fault;
use std::alloc::AllocError;

/// What a run wrote.
#[derive(Clone, Copy, PartialEq, Eq)]
pub enum Status {
    /// A line for each crate but `core`, then one for each check (`later` or `supers`), and then one for each query.
    Done,
    /// The line of the text's first fault, alone.
    TextFault,
}

/// Why a run stopped. What it wrote before is a prefix of its answer.
#[derive(Clone, Copy, Debug, PartialEq, Eq, thiserror::Error)]
pub enum RunFault {
    /// The reader returned an error of any kind. Nothing was written.
    #[error("the text could not be read")]
    Read,
    /// The writer returned an error of any kind, or took no byte.
    #[error("an answer could not be written")]
    Write,
    /// A request for memory was refused, or there were no numbers for so many variables.
    #[error("out of memory")]
    Memory,
    /// A table of terms, of goals or of answers was full.
    #[error("a table is full")]
    Full,
}

impl From<AllocError> for RunFault {
    ghost from_gives = { λ _ fault. fault ≡ Memory };

    fn from(_refused: AllocError) -> RunFault {
        RunFault::Memory
    }
}

impl From<Fault> for RunFault {
    ghost use Rattle.coherence.specs.Faults.{of_fault};

    ghost from_gives = { λ fault run_fault. run_fault ≡ of_fault fault };

    fn from(fault: Fault) -> RunFault {
        match fault {
            Fault::Memory => RunFault::Memory,
            Fault::Full => RunFault::Full,
        }
    }
}
