//! Diagnostics as text for people, in rustc's form.

ghost use Rattle.std.specs.Prelude.{◌≡◌, ◌≤◌, ◌+◌, ◌++◌, false, string_len};
ghost use Rattle.explain_diagnostics.specs.Names.{in_brackets, level_name};
ghost use Rattle.explain_diagnostics.specs.Shown.{Appends};

use crate::diagnostic::{Diagnostic, ErrCode, Level, ProofRow, SpanLabel, Subdiagnostic};
use crate::excerpt::{Frame, push_excerpt};
use crate::proof_tree::{goal_columns, push_proof_row};
use crate::row::{COLUMNS, Ink, push_in, push_ink, push_reset};
use crate::source::SourceFile;
use crate::writer::TextWriter;
use std::alloc::{AllocError, Global};
use std::fmt::InlineText;

/// How many digits a number has.
fn count_digits(number: u32) -> usize
    ensures { result ≤ 10 }
{
    InlineText::<10>::of(number).as_str().len()
}

/// The greatest line of the labels, or `least` if that is greater.
fn greatest_line(labels: &[SpanLabel], least: u32) -> u32 {
    let mut greatest = least;
    for label in labels {
        greatest = greatest.max(label.span.line);
    }
    greatest
}

/// The frame of a diagnostic, with room for its greatest line number.
fn frame_of(diagnostic: &Diagnostic, has_colors: bool) -> Frame {
    let mut greatest = greatest_line(&diagnostic.spans, 0);
    for child in &diagnostic.children {
        greatest = greatest_line(&child.spans, greatest);
    }
    Frame {
        has_colors,
        digits: count_digits(greatest),
    }
}

/// Appends the level of a message, and its code if there is one.
fn push_header(out: &mut TextWriter, has_colors: bool, level: Level, code: Option<ErrCode>)
    ensures { has_colors ≡ false → Appends out.old out.new (level_name level ++ in_brackets code) }
{
    push_ink(out, has_colors, Ink::OfLevel(level));
    out.push_str(level.name());
    if let Some(code) = code {
        out.push_str("[");
        out.push_str(code.name());
        out.push_str("]");
    }
    push_reset(out, has_colors);
}

/// Appends a message after its level.
fn push_title(out: &mut TextWriter, has_colors: bool, message: &str) {
    push_ink(out, has_colors, Ink::Bold);
    out.push_str(": ");
    out.push_str(message);
    push_reset(out, has_colors);
    out.push_str("\n");
}

/// Appends what comes before a row of a proof: the frame, and in the first row the word `proof`.
fn push_proof_head(out: &mut TextWriter, frame: Frame, is_first: bool)
    ensures { frame.has_colors ≡ false → string_len out.new.text ≤ string_len out.old.text + frame.digits + 10 }
{
    out.push_spaces(frame.digits + 1);
    if is_first {
        push_in(out, frame.has_colors, Ink::Frame, "= ");
        push_in(out, frame.has_colors, Ink::Bold, "proof");
        out.push_str(": ");
    } else {
        out.push_spaces(9);
    }
}

/// Appends a row of a proof with its end. `below` are the rows after it.
fn push_proof_line(
    out: &mut TextWriter,
    frame: Frame,
    row: &ProofRow,
    below: &[ProofRow],
    columns: usize,
    is_first: bool,
)
    ensures { frame.has_colors ≡ false → string_len out.new.text ≤ string_len out.old.text + COLUMNS + 1 }
{
    push_proof_head(out, frame, is_first);
    push_proof_row(out, row, below, columns, COLUMNS - 10 - frame.digits);
    out.push_str("\n");
}

/// Appends a proof, one row for each goal.
fn push_proof(out: &mut TextWriter, frame: Frame, rows: &[ProofRow]) {
    let columns = goal_columns(rows);
    for (index, row) in rows.iter().enumerate() {
        let below = &rows[index + 1..];
        push_proof_line(out, frame, row, below, columns, index == 0);
    }
}

/// Appends a child: a row of the frame if it has no span, and otherwise a message with an excerpt.
fn push_child(out: &mut TextWriter, frame: Frame, file: &SourceFile<'_>, child: &Subdiagnostic) {
    if child.spans.is_empty() {
        out.push_spaces(frame.digits + 1);
        push_in(out, frame.has_colors, Ink::Frame, "= ");
        push_in(out, frame.has_colors, Ink::Bold, child.level.name());
    } else {
        push_header(out, frame.has_colors, child.level, None);
    }
    out.push_str(": ");
    out.push_str(child.message.as_str());
    out.push_str("\n");
    push_excerpt(out, frame, file, child.level, &child.spans);
}

/// Whether a row with only a bar comes between the message and what follows it.
fn has_bar(diagnostic: &Diagnostic) -> bool {
    if !diagnostic.proof.is_empty() {
        return true;
    }
    match diagnostic.children.first() {
        None => false,
        Some(child) => !diagnostic.spans.is_empty() || child.spans.is_empty(),
    }
}

/// Appends a diagnostic in rustc's form.
pub(crate) fn push_diagnostic(
    out: &mut TextWriter,
    file: &SourceFile<'_>,
    diagnostic: &Diagnostic,
    has_colors: bool,
) {
    let frame = frame_of(diagnostic, has_colors);
    push_header(out, has_colors, diagnostic.level, diagnostic.code);
    push_title(out, has_colors, diagnostic.message.as_str());
    push_excerpt(out, frame, file, diagnostic.level, &diagnostic.spans);
    if has_bar(diagnostic) {
        frame.push_bar(out);
    }
    push_proof(out, frame, &diagnostic.proof);
    for child in &diagnostic.children {
        push_child(out, frame, file, child);
    }
}

/// A diagnostic in rustc's form, with colours if `has_colors`. Its last line has its end, and no empty line follows.
///
/// A line of an excerpt or of a proof has at most 100 columns, without the codes of colours. Of a longer line of text the part around its
/// marks is displayed, with `..` where something is left out. A goal or a reason that is too long ends with `..`. Fails only if memory is
/// refused.
pub fn render(
    alloc: Global,
    file: &SourceFile<'_>,
    diagnostic: &Diagnostic,
    has_colors: bool,
) -> Result<String, AllocError> {
    let mut out = TextWriter::new(alloc);
    push_diagnostic(&mut out, file, diagnostic, has_colors);
    out.finish()
}
