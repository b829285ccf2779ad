//! The lines of the output as they are printed, with their explanations.

ghost use Rattle.std.specs.Prelude.{◌≤◌};

use crate::lines::{last_line, split_line};
use crate::picture::write_picture;
use coherence::{Limits, RunFault};
use command_line::How;
use explain_faults::FurtherFault;
use explain_texts::explain_diagnostics::{
    Diagnostic, Part, SourceFile, json_fault, json_line, own_fault, render,
};
use std::alloc::{AllocError, Global};
use std::io;
use std::io::Write;

/// A text that is kept in memory, and how it is answered.
#[derive(Clone, Copy)]
pub struct Kept<'t> {
    pub text: &'t [u8],
    /// The files that it is made of.
    pub parts: &'t [Part<'t>],
    pub limits: Limits,
    pub how: How,
    pub has_colors: bool,
    /// Whether only the last answer is printed: that to a line which was asked.
    pub is_asked: bool,
}

/// What writing gave, as a run says it.
pub(crate) fn written<T>(ended: io::Result<T>) -> Result<T, RunFault> {
    match ended {
        Ok(value) => Ok(value),
        Err(_) => Err(RunFault::Write),
    }
}

/// The text with its lines, and what is said of a line of the answer.
type Found<'f> = (&'f SourceFile<'f>, &'f Diagnostic);

/// A line of the answer as it is displayed: that of a fault by the line of its own file, and for a line that was asked without that.
/// `None` for any other line.
fn displayed(alloc: Global, kept: Kept<'_>, line: &[u8]) -> Result<Option<String>, AllocError> {
    if !line.starts_with(b"line ") {
        return Ok(None);
    }
    let line = String::from_utf8_lossy(alloc, line)?;
    if kept.is_asked && kept.how != How::Json {
        return match line.as_str().split_once(": ") {
            Some((_, fault)) => Ok(Some(String::from_str(alloc, fault)?)),
            None => Ok(None),
        };
    }
    own_fault(alloc, kept.parts, line.as_str())
}

/// What is said of a line: as text what stands below it, if something does, as JSON an object that has the line in it.
fn explanation(
    alloc: Global,
    kept: Kept<'_>,
    answer: &[u8],
    line: &[u8],
    found: Option<Found<'_>>,
) -> Result<Option<String>, AllocError> {
    if kept.how == How::Json {
        let answer = String::from_utf8_lossy(alloc, answer)?;
        let line = String::from_utf8_lossy(alloc, line)?;
        return Ok(Some(json_line(alloc, answer.as_str(), line.as_str(), found)?));
    }
    match found {
        None => Ok(None),
        Some((file, diagnostic)) => Ok(Some(render(alloc, file, diagnostic, kept.has_colors)?)),
    }
}

/// Writes parts, one after the other.
fn write_parts<W: Write>(writer: &mut W, parts: &[&[u8]]) -> io::Result<()> {
    for part in parts {
        writer.write_all(*part)?;
    }
    Ok(())
}

/// Writes a line alone, with its end.
///
/// As JSON too this takes no memory, and gives no parts: what lines are made of, names, numbers and signs, stands for itself there.
fn write_bare<W: Write>(writer: &mut W, how: How, line: &[u8]) -> io::Result<()> {
    if how == How::Json {
        write_parts(
            writer,
            &[
                b"{\"$message_type\":\"answer\",\"answer\":\"",
                line,
                b"\"}\n",
            ],
        )
    } else {
        write_parts(writer, &[line, b"\n"])
    }
}

/// Writes an explanation: as text below its line, as JSON with the line in it.
fn write_text<W: Write>(writer: &mut W, how: How, line: &[u8], text: &[u8]) -> io::Result<()> {
    if how == How::Json {
        write_parts(writer, &[text, b"\n"])
    } else {
        write_parts(writer, &[line, b"\n", text, b"\n"])
    }
}

/// Writes a line with what was found for it, if there is something; the answer is whether that was cut, since memory was refused: then the
/// line stands alone.
fn write_line<W: Write>(
    alloc: Global,
    writer: &mut W,
    kept: Kept<'_>,
    line: &[u8],
    found: Option<Found<'_>>,
) -> io::Result<bool> {
    let Ok(own) = displayed(alloc, kept, line) else {
        write_bare(writer, kept.how, line)?;
        return Ok(true);
    };
    let answer = match &own {
        Some(own) => own.as_bytes(),
        None => line,
    };
    match explanation(alloc, kept, answer, line, found) {
        Ok(Some(text)) => {
            write_text(writer, kept.how, answer, text.as_bytes())?;
            Ok(false)
        }
        Ok(None) => {
            write_bare(writer, kept.how, answer)?;
            Ok(false)
        }
        Err(_) => {
            write_bare(writer, kept.how, answer)?;
            Ok(found.is_some())
        }
    }
}

/// What was found for the line at a place, where the text's lines could be kept.
fn found_at<'f>(
    file: Option<&'f SourceFile<'f>>,
    found: &'f [Option<Diagnostic>],
    place: usize,
) -> Option<Found<'f>> {
    let diagnostic = found.get(place)?.as_ref()?;
    Some((file?, diagnostic))
}

/// Writes the lines of the output, each with its explanation. If the text's lines could not be stored, they are written alone. Returns
/// whether memory was refused for an explanation.
fn write_answers<W: Write>(
    alloc: Global,
    writer: &mut W,
    kept: Kept<'_>,
    file: Option<&SourceFile<'_>>,
    lines: &[u8],
    found: &[Option<Diagnostic>],
) -> io::Result<bool> {
    let mut is_any_cut = file.is_none();
    let mut place = 0usize;
    let mut rest = lines;
    while let Some((line, behind)) = split_line(rest) {
        let is_cut = write_line(alloc, writer, kept, line, found_at(file, found, place))?;
        is_any_cut = is_any_cut || is_cut;
        place = place.saturating_add(1);
        rest = behind;
    }
    Ok(is_any_cut)
}

/// What is said of a faulty line that is no line of the output.
fn further_explanation(
    alloc: Global,
    kept: Kept<'_>,
    file: &SourceFile<'_>,
    fault: &FurtherFault,
) -> Result<String, AllocError> {
    if kept.how == How::Json {
        json_fault(alloc, fault.answer.as_str(), file, &fault.told)
    } else {
        render(alloc, file, &fault.told, kept.has_colors)
    }
}

/// Writes what is said of faulty lines that are no lines of the output. Returns whether memory was refused for one: then none after it is
/// written.
fn write_further<W: Write>(
    alloc: Global,
    writer: &mut W,
    kept: Kept<'_>,
    file: &SourceFile<'_>,
    further: &[FurtherFault],
) -> io::Result<bool> {
    for fault in further {
        match further_explanation(alloc, kept, file, fault) {
            Err(_) => return Ok(true),
            Ok(text) => write_parts(writer, &[text.as_bytes(), b"\n"])?,
        }
    }
    Ok(false)
}

/// The explanations of a text.
#[derive(Clone, Copy)]
pub struct Explanations<'f> {
    /// The text's lines. `None` if they could not be stored.
    pub file: Option<&'f SourceFile<'f>>,
    /// What was found for each line of the output.
    pub found: &'f [Option<Diagnostic>],
    /// The faulty lines after the one that the output names.
    pub further: &'f [FurtherFault],
    /// Why they ended before the last line, if they did.
    pub lack: Option<Lack>,
}

/// Writes the lines of the output, each with its explanation, and after the line of a fault what is said of further faulty lines. If
/// explanations are missing, it adds why: memory was refused for one, or the reason for which they ended.
fn write_explained<W: Write>(
    alloc: Global,
    writer: &mut W,
    kept: Kept<'_>,
    lines: &[u8],
    explanations: Explanations<'_>,
) -> io::Result<()> {
    let Explanations {
        file,
        found,
        further,
        lack,
    } = explanations;
    let is_cut = write_answers(alloc, writer, kept, file, lines, found)?;
    let is_further_cut = match file {
        Some(file) if !lines.is_empty() => write_further(alloc, writer, kept, file, further)?,
        _ => false,
    };
    let lack = if is_cut || is_further_cut {
        Some(Lack::Memory)
    } else {
        lack
    };
    match lack {
        Some(lack) => write_note(writer, kept.how, lack),
        None => Ok(()),
    }
}

/// Writes the lines of the output as they are. Only that of a fault is displayed otherwise.
fn write_plain<W: Write>(
    alloc: Global,
    writer: &mut W,
    kept: Kept<'_>,
    lines: &[u8],
) -> io::Result<()> {
    if lines.starts_with(b"line ") {
        let _is_cut = write_answers(alloc, writer, kept, None, lines, &[])?;
        return Ok(());
    }
    writer.write_all(lines)
}

/// Writes the lines of the output, as a call asks for them.
pub fn write_told<W: Write>(
    alloc: Global,
    writer: &mut W,
    kept: Kept<'_>,
    lines: &[u8],
    explanations: Explanations<'_>,
) -> Result<(), RunFault> {
    let (skipped, lines) = if kept.is_asked {
        last_line(lines)
    } else {
        (0, lines)
    };
    let explanations = Explanations {
        found: explanations.found.get(skipped..).unwrap_or(&[]),
        ..explanations
    };
    match kept.how {
        How::Dot => write_picture(alloc, writer, lines, explanations.found),
        How::Plain => written(write_plain(alloc, writer, kept, lines)),
        How::Explained | How::Json => {
            written(write_explained(alloc, writer, kept, lines, explanations))
        }
    }
}

/// Why not all lines are explained.
#[derive(Clone, Copy)]
pub enum Lack {
    /// A request for memory was refused.
    Memory,
    /// A table of a session is full.
    Full,
}

/// Writes that not all lines are explained. It takes no memory.
fn write_note<W: Write>(writer: &mut W, how: How, lack: Lack) -> io::Result<()> {
    let message: &[u8] = match lack {
        Lack::Memory => b"no explanation: out of memory",
        Lack::Full => b"no explanation: a table is full",
    };
    if how == How::Json {
        write_parts(
            writer,
            &[
                b"{\"$message_type\":\"diagnostic\",\"answer\":\"\",\"children\":[],\"code\":null,\"level\":\"note\",\"message\":\"",
                message,
                b"\",\"parts\":{},\"proof\":[],\"rendered\":\"note: ",
                message,
                b"\\n\",\"spans\":[]}\n",
            ],
        )
    } else {
        write_parts(writer, &[b"note: ", message, b"\n"])
    }
}
