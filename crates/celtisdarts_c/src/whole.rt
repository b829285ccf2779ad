//! Whole texts, each in one call.

ghost use Rattle.std.specs.Prelude.{◌≡◌, ◌≢◌, ◌≤◌, ◌↔◌};
ghost use Rattle.celtisdarts_c.specs.Outputs.{status_word, IsOutput, IsSomeOutput};
ghost use Rattle.celtisdarts_c.specs.Told.{Tells, TellsLength};

use crate::told::tell;
use coherence::{Limits, RunFault, Status, answer};
use std::alloc::Global;

/// The maximum number of handles of each kind in a session.
pub const HANDLES: u32 = 16_777_216;

/// The status of an output.
fn status_word(status: Status) -> u32
    ensures { result ≡ status_word status }
{
    match status {
        Status::Done => 0,
        Status::TextFault => 1,
    }
}

/// Checks the crates of a text and answers its queries: writes the output of the program `celtisdarts` for the text at this depth.
///
/// Returns 0 if the output is answers, 1 if it is the line of the text's first fault, or 2 to 5.
#[unsafe(no_mangle)]
pub extern "C" fn celtisdarts_run(
    alloc: Global,
    text: &[u8],
    depth: u32,
    buffer: &mut [u8],
    needed: &mut usize,
) -> u32
    ensures word { result ≤ 5 }
    ensures in_range { (result ≢ 2) ↔ ((1 ≤ depth) × (depth ≤ 255)) }
    ensures told { result ≤ 1 → Tells (IsOutput depth text.now result) buffer.new needed.new }
    ensures short { result ≡ 5 → TellsLength (IsSomeOutput depth text.now) buffer.old needed.new }
{
    let Some(limits) = Limits::new(depth, HANDLES) else {
        return 2;
    };
    match answer(alloc, text, limits) {
        Err(RunFault::Full) => 4,
        Err(_) => 3,
        Ok(output) => {
            if tell(&output.text, buffer, needed) {
                status_word(output.status)
            } else {
                5
            }
        }
    }
}
