//! Why a line has no answer.

ghost use Rattle.std.specs.Prelude.{◌≡◌};
ghost use Rattle.coherence.specs.declared.ask_fault.AskFault.TheVariants.{Memory};

use sessions::type_terms::Fault;
use std::alloc::AllocError;
use text_parser::text_names::FaultKind;

/// Why a line that is asked behind a text has no answer.
#[derive(Clone, Copy, Debug, PartialEq, Eq, thiserror::Error)]
pub enum AskFault {
    /// The line has this fault: of all that apply the one with the smallest number.
    #[error("the line has a fault")]
    Line(FaultKind),
    /// The line asks nothing: it is empty, a comment, a declaration or a check. It has no fault, unless it declares a trait or an impl with
    /// types: whether such a line has a fault is not said.
    #[error("the line asks nothing")]
    NotAQuery,
    /// A byte in it ends a line.
    #[error("these are several lines")]
    SeveralLines,
    /// The text and the line together are longer than texts may be.
    #[error("the text has no room for the line")]
    TooLong,
    /// A request for memory was refused, or there were no numbers for so many variables.
    #[error("out of memory")]
    Memory,
    /// A table of terms, of goals or of answers was full.
    #[error("a table is full")]
    Full,
}

impl From<AllocError> for AskFault {
    ghost from_gives = { λ _ fault. fault ≡ Memory };

    fn from(_refused: AllocError) -> AskFault {
        AskFault::Memory
    }
}

impl From<Fault> for AskFault {
    ghost use Rattle.coherence.specs.Asking.{ask_fault_of};

    ghost from_gives = { λ fault ask_fault. ask_fault ≡ ask_fault_of fault };

    fn from(fault: Fault) -> AskFault {
        match fault {
            Fault::Full => AskFault::Full,
            Fault::Memory => AskFault::Memory,
        }
    }
}
