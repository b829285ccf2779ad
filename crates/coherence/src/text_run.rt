//! A run: from the bytes of a reader to the bytes of a writer.

ghost use Rattle.std.specs.Prelude.{◌≡◌, ◌≢◌, IfOk, IfErr, IfSome, OnErr};
ghost use Rattle.std.specs.Io.KnownBytes.{Keeps};
ghost use Rattle.coherence.specs.Promised.Streams.{ConsumesAtMost};
ghost use Rattle.coherence.specs.Promised.Told.{AcceptedTextsHold, AllSayHeld, SupertraitsStand, TellsAll, TellsSome};

use crate::coherent::{accepted_lines_tell, held_lines_tell};
use crate::listener::{Listener, Nobody};
use crate::output_lines::OutputLines;
use crate::status::{RunFault, Status};
use crate::streams::{READ_LIMIT, read_text, write_text};
use sessions::Limits;
use std::alloc::Global;
use std::io::{Read, Write};
use text_parser::first_bytes;

/// Writes the output for a text in memory, as `run` does, while a listener hears of the answers.
pub fn answer_text<W: Write, L: Listener>(
    alloc: Global,
    text: &[u8],
    limits: Limits,
    writer: &mut W,
    listener: &mut L,
) -> Result<Status, RunFault>
    ensures whole { IfOk result (λ status. TellsAll limits.depth text.now status (W.contents writer.old) (W.contents writer.new)) }
    ensures prefix { OnErr result (TellsSome limits.depth text.now (W.contents writer.old) (W.contents writer.new)) }
    ensures written { IfErr result (λ fault. fault ≢ RunFault.Read) }
{
    let mut lines = OutputLines::heard(alloc, text, limits, listener)?;
    while let Some(line) = lines.next_heard(listener) {
        write_text(writer, &line?)?;
    }
    Ok(lines.status())
}

/// Reads a text, and writes its output, each line when it is ready. The output is the line of the text's first fault. Without a fault it is
/// a line for each crate but `core`, then one for each check (`later` or `supers`), and then one for each query.
///
/// At most 67,108,865 bytes are read, one more than a text may have. What was written before a `RunFault` is a prefix of the output.
pub fn run<R: Read, W: Write>(
    alloc: Global,
    reader: &mut R,
    writer: &mut W,
    limits: Limits,
) -> Result<Status, RunFault>
    // What is written is the output for all that the reader holds.
    ensures whole { IfOk result
        (λ status. IfSome (R.remaining reader.old) (λ bytes. TellsAll limits.depth bytes status (W.contents writer.old) (W.contents writer.new))) }
    // If the run stops before, a prefix of the output has been written.
    ensures prefix { OnErr result (IfSome (R.remaining reader.old) (λ bytes. TellsSome limits.depth bytes (W.contents writer.old) (W.contents writer.new))) }
    // If reading fails, nothing has been written.
    ensures unread { IfErr result (λ fault. fault ≡ RunFault.Read → Keeps (W.contents writer.old) (W.contents writer.new)) }
    // If the line of each crate says `accepted`, and the supertraits of headers have proofs, the text is coherent as a whole.
    ensures coherent { AcceptedTextsHold SupertraitsStand }
    // The same holds if each crate also has a line `supers N: held`. Then nothing is assumed of supertraits.
    ensures held { AcceptedTextsHold AllSayHeld }
    // No more is read in any case.
    ensures bounded { ConsumesAtMost (R.remaining reader.old) (R.remaining reader.new) READ_LIMIT }
{
    accepted_lines_tell();
    held_lines_tell();
    first_bytes();
    let text = read_text(alloc, reader)?;
    let status = answer_text(alloc, &text, limits, writer, &mut Nobody {})?;
    Ok(status)
}
