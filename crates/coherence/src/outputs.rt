//! From a text in memory to its output in memory. No stream is read or written.

ghost use Rattle.std.specs.Prelude.{◌≡◌, ◌⊎◌, IfOk, IfErr};
ghost use Rattle.coherence.specs.Promised.Told.{IsToldText};

use crate::listener::Nobody;
use crate::status::{RunFault, Status};
use crate::text_run::answer_text;
use sessions::Limits;
use std::alloc::Global;

/// The output for a text.
#[derive(Drop)]
pub struct Output {
    /// Its lines, each with its line end.
    pub text: Vec<u8>,
    /// Whether they are answers, or the line of the text's first fault.
    pub status: Status,
}

/// The output for a text. It is the line of the text's first fault. Without a fault it is a line for each crate but `core`, then one for
/// each check (`later` or `supers`), and then one for each query.
///
/// Fails with `Memory` if memory is refused, or with `Full` if a table is full. A text of more than 67,108,864 bytes has a fault.
pub fn answer(alloc: Global, text: &[u8], limits: Limits) -> Result<Output, RunFault>
    ensures whole { IfOk result (λ output. IsToldText limits.depth text.now output.status output.text.items) }
    ensures fault { IfErr result (λ fault. (fault ≡ RunFault.Memory) ⊎ (fault ≡ RunFault.Full)) }
{
    let mut lines = Vec::new(alloc);
    match answer_text(alloc, text, limits, &mut lines, &mut Nobody {}) {
        Ok(status) => Ok(Output {
            text: lines,
            status,
        }),
        // A vector takes each line unless memory is refused.
        Err(RunFault::Write) => Err(RunFault::Memory),
        Err(fault) => Err(fault),
    }
}
