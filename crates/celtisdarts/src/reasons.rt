//! The answer to a text that is kept in memory, with the reasons if they are asked for.

ghost use Rattle.std.specs.Prelude.{◌≡◌, [], IfOk, Ok};
ghost use Rattle.coherence.specs.Promised.Told.{IsToldText};

use crate::explaining::Explaining;
use crate::printed::{Explanations, Kept, Lack, write_told};
use coherence::{Limits, RunFault, Status, answer_text, run};
use command_line::How;
use explain_texts::explain_diagnostics::SourceFile;
use std::alloc::Global;
use std::io::Write;

/// A run whose lines go into memory: a writer there fails if memory is refused.
fn in_memory(ran: Result<Status, RunFault>) -> Result<Status, RunFault>
    ensures { IfOk result (λ status. ran ≡ Ok status) }
{
    match ran {
        Err(RunFault::Write) => Err(RunFault::Memory),
        _ => ran,
    }
}

/// Writes the lines of the output, each with its explanation. A line that was asked has its answer or none.
fn tell<W: Write>(
    alloc: Global,
    writer: &mut W,
    kept: Kept<'_>,
    ran: Result<Status, RunFault>,
    lines: &[u8],
    explanations: Explanations<'_>,
) -> Result<Status, RunFault>
    ensures { IfOk result (λ status. ran ≡ Ok status) }
{
    if kept.is_asked && ran.is_err() {
        return ran;
    }
    write_told(alloc, writer, kept, lines, explanations)?;
    ran
}

/// Answers a text without explanations, since none are asked for, or what lacks is what they would take.
fn answer_alone<W: Write>(
    alloc: Global,
    writer: &mut W,
    kept: Kept<'_>,
    lines: &mut Vec<u8>,
    lack: Option<Lack>,
) -> Result<Status, RunFault>
    requires { lines.old.items ≡ [] }
    ensures { IfOk result (λ status. IsToldText kept.entry.limits.depth kept.entry.text.now status lines.new.items) }
{
    let mut reader = kept.text;
    let ran = in_memory(run(alloc, &mut reader, lines, kept.limits));
    let explanations = Explanations {
        file: None,
        found: &[],
        further: &[],
        lack,
    };
    tell(alloc, writer, kept, ran, lines, explanations)
}

/// What was missing if a run in memory stopped so.
fn lack_of(fault: RunFault) -> Lack {
    match fault {
        RunFault::Full => Lack::Full,
        RunFault::Memory | RunFault::Read | RunFault::Write => Lack::Memory,
    }
}

/// The lines of a text, while they are explained. If that stops, they are made anew and alone: what was missing may be what the
/// explanations took.
fn explain_lines(
    alloc: Global,
    text: &[u8],
    limits: Limits,
    lines: &mut Vec<u8>,
    explaining: &mut Explaining<'_>,
) -> Result<Status, RunFault>
    requires { lines.old.items ≡ [] }
    ensures { IfOk result (λ status. IsToldText limits.depth text.now status lines.new.items) }
{
    match answer_text(alloc, text, limits, lines, explaining) {
        Ok(status) => Ok(status),
        Err(fault) => {
            explaining.end(lack_of(fault));
            lines.clear();
            let mut reader = text;
            in_memory(run(alloc, &mut reader, lines, limits))
        }
    }
}

/// Answers a text. All lines are made first, with what explains them, and then they are written.
pub fn answer_kept<W: Write>(
    alloc: Global,
    writer: &mut W,
    kept: Kept<'_>,
    lines: &mut Vec<u8>,
) -> Result<Status, RunFault>
    requires { lines.old.items ≡ [] }
    ensures { IfOk result (λ status. IsToldText kept.entry.limits.depth kept.entry.text.now status lines.new.items) }
{
    if kept.how == How::Plain {
        return answer_alone(alloc, writer, kept, lines, None);
    }
    let Ok(file) = SourceFile::new(alloc, kept.parts, kept.text) else {
        return answer_alone(alloc, writer, kept, lines, Some(Lack::Memory));
    };
    let Ok(mut explaining) = Explaining::new(alloc, kept.text, &file) else {
        return answer_alone(alloc, writer, kept, lines, Some(Lack::Memory));
    };
    let ran = explain_lines(alloc, kept.text, kept.limits, lines, &mut explaining);
    let explanations = Explanations {
        file: Some(&file),
        found: &explaining.lines,
        further: &explaining.further,
        lack: explaining.lack,
    };
    tell(alloc, writer, kept, ran, lines, explanations)
}
