//! The streams of a run: the text that is read, and the lines that are written.

ghost use Rattle.std.specs.Prelude.{◌≡◌, ◌≤◌, ◌<◌, ◌⊎◌, length, take, IfOk, IfErr, IfSome, OnOk};
ghost use Rattle.std.specs.Io.KnownBytes.{Appends};
ghost use Rattle.coherence.specs.Promised.Streams.{ConsumesAtMost, AppendsPrefix};

use crate::status::RunFault;
use std::alloc::Global;
use std::io::{Read, Write};

/// How many bytes are read at most: one more than a text may have, so that a text that is too long can be detected.
pub const READ_LIMIT: usize = 67_108_865;

/// What a reader gives, up to `READ_LIMIT` bytes.
///
/// Each error of the reader ends the run with `Read`, also one after which another call might succeed.
pub fn read_text<R: Read>(alloc: Global, reader: &mut R) -> Result<Vec<u8>, RunFault>
    ensures text { IfOk result (λ text. IfSome (R.remaining reader.old) (λ bytes. text.items ≡ take READ_LIMIT bytes)) }
    ensures bounded { ConsumesAtMost (R.remaining reader.old) (R.remaining reader.new) READ_LIMIT }
    ensures fault { IfErr result (λ fault. (fault ≡ RunFault.Read) ⊎ (fault ≡ RunFault.Memory)) }
{
    let mut text = Vec::new(alloc);
    let mut buffer = [0u8; 4096];
    while text.len() < READ_LIMIT {
        let room = (READ_LIMIT - text.len()).min(4096);
        let Ok(count) = reader.read(&mut buffer[..room]) else {
            return Err(RunFault::Read);
        };
        if count == 0 {
            break;
        }
        text.extend_from_slice(&buffer[..count])?;
    }
    Ok(text)
}

/// Writes all of a text, by as many calls of the writer as it takes.
///
/// An error of the writer, or a call that takes no byte, is the fault `Write`. What was written before is a prefix of the text.
pub fn write_text<W: Write>(writer: &mut W, text: &[u8]) -> Result<(), RunFault>
    ensures whole { OnOk result (Appends (W.contents writer.old) (W.contents writer.new) text.now) }
    ensures prefix { AppendsPrefix (W.contents writer.old) (W.contents writer.new) text.now }
    ensures fault { IfErr result (λ fault. fault ≡ RunFault.Write) }
{
    let mut at = 0;
    while at < text.len() {
        match writer.write(&text[at..]) {
            Ok(0) | Err(_) => return Err(RunFault::Write),
            Ok(count) => at += count,
        }
    }
    Ok(())
}
