//! Why a text gives no declarations.

use std::alloc::AllocError;
use text_names::FaultKind;

/// The first faulty line, counted from 1, with the fault of the smallest number in it.
#[derive(Clone, Copy, Debug, PartialEq, Eq)]
pub struct TextFault {
    pub line: u32,
    pub kind: FaultKind,
}

/// Why a text gives no declarations.
#[derive(Clone, Copy, Debug, PartialEq, Eq, thiserror::Error)]
pub enum TextError {
    /// A line is faulty.
    #[error("line {}: fault {}", .0.line, .0.kind.number())]
    Text(TextFault),
    /// A request for memory was refused.
    #[error("out of memory")]
    Memory,
}

impl From<AllocError> for TextError {
    ghost use Rattle.std.specs.Prelude.{◌≡◌};
    ghost use Rattle.text_parser.specs.declared.fault.TextError.TheVariants.{Memory};

    ghost from_gives = { λ _ e. e ≡ Memory };

    fn from(_e: AllocError) -> TextError {
        TextError::Memory
    }
}
