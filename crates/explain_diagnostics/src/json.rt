//! Diagnostics as one JSON object per line, with the keys of `rustc --error-format=json` and the key `answer`.

ghost use Rattle.std.specs.Prelude.{length};
ghost use Rattle.explain_diagnostics.specs.Places.{IsPartOf};

use crate::answer_parts::put_answer;
use crate::diagnostic::{Diagnostic, ErrCode, Level, ProofRow, SpanLabel, Subdiagnostic};
use crate::proof_tree::{goal_columns, push_proof_row};
use crate::rendering::render;
use crate::source::SourceFile;
use crate::span::{Place, Span, place_in};
use crate::window::{place_in_window, window};
use crate::writer::TextWriter;
use serde_json::{Map, Value, put};
use std::alloc::{AllocError, Global};

/// How many bytes of a line are stored with a span.
const LINE_BYTES: usize = 1000;

/// The members of an object that is being made. A function that adds some owns nothing at its exits.
pub(crate) type Members = Map<String, Value>;

/// Adds a text.
pub(crate) fn put_text(
    alloc: Global,
    object: &mut Members,
    key: &str,
    text: &str,
) -> Result<(), AllocError> {
    let value = Value::try_from_str(alloc, text)?;
    put(object, alloc, key, value)
}

/// Adds a text, or null if it is empty.
fn put_text_or_null(
    alloc: Global,
    object: &mut Members,
    key: &str,
    text: &str,
) -> Result<(), AllocError> {
    if text.is_empty() {
        put(object, alloc, key, Value::Null)
    } else {
        put_text(alloc, object, key, text)
    }
}

/// Adds numbers with their keys.
fn put_numbers(
    alloc: Global,
    object: &mut Members,
    numbers: &[(&str, usize)],
) -> Result<(), AllocError> {
    for member in numbers {
        put(object, alloc, member.0, Value::from(member.1))?;
    }
    Ok(())
}

/// Adds keys with the value null.
fn put_nulls(alloc: Global, object: &mut Members, keys: &[&str]) -> Result<(), AllocError> {
    for key in keys {
        put(object, alloc, *key, Value::Null)?;
    }
    Ok(())
}

/// Adds the line of a span, and where the span is in it. Of a long line only the part around the span is added. If the span ends after that
/// part, the rest of it is left out.
fn put_line(
    alloc: Global,
    object: &mut Members,
    line: &[u8],
    place: Place,
) -> Result<(), AllocError>
    requires { IsPartOf (length line.now) place }
{
    let view = window(line.len(), LINE_BYTES, place);
    let mut text = TextWriter::new(alloc);
    text.push_shown(&line[view.start..view.end]);
    let text = text.finish()?;
    put(object, alloc, "text", Value::String(text))?;
    let marked = place_in_window(view, place);
    put_numbers(
        alloc,
        object,
        &[
            ("highlight_start", marked.start.saturating_add(1)),
            ("highlight_end", marked.end.saturating_add(1)),
        ],
    )
}

/// The same as an object.
fn line_value(alloc: Global, line: &[u8], place: Place) -> Result<Value, AllocError>
    requires { IsPartOf (length line.now) place }
{
    let mut object = Map::new(alloc);
    put_line(alloc, &mut object, line, place)?;
    Ok(Value::Object(object))
}

/// Adds that line as the only line of a span.
fn put_lines(
    alloc: Global,
    object: &mut Members,
    line: &[u8],
    place: Place,
) -> Result<(), AllocError>
    requires { IsPartOf (length line.now) place }
{
    let value = line_value(alloc, line, place)?;
    let mut lines = Vec::new(alloc);
    lines.push(value)?;
    put(object, alloc, "text", Value::Array(lines))
}

/// Adds the position of a part of a line, after this many bytes of its file.
fn put_place(
    alloc: Global,
    object: &mut Members,
    number: u32,
    before: usize,
    place: Place,
) -> Result<(), AllocError> {
    put_numbers(
        alloc,
        object,
        &[
            ("byte_start", before.saturating_add(place.start)),
            ("byte_end", before.saturating_add(place.end)),
            ("line_start", number as usize),
            ("line_end", number as usize),
            ("column_start", place.start.saturating_add(1)),
            ("column_end", place.end.saturating_add(1)),
        ],
    )
}

/// Adds the members of a span with its label.
fn put_span(
    alloc: Global,
    object: &mut Members,
    file: &SourceFile<'_>,
    label: &SpanLabel,
) -> Result<(), AllocError> {
    let number = label.span.line;
    let line = file.line(number);
    let place = place_in(&label.span, line.len());
    let part = file.part(number);
    let before = file.line_start(number).saturating_sub(part.start);
    put_text(alloc, object, "file_name", part.name)?;
    put_place(alloc, object, file.own_line(number).number, before, place)?;
    put_lines(alloc, object, line, place)?;
    put(object, alloc, "is_primary", Value::Bool(label.is_primary))?;
    put_text_or_null(alloc, object, "label", label.label.as_str())?;
    put_nulls(
        alloc,
        object,
        &[
            "suggested_replacement",
            "suggestion_applicability",
            "expansion",
        ],
    )
}

/// A span with its label.
fn span_value(
    alloc: Global,
    file: &SourceFile<'_>,
    label: &SpanLabel,
) -> Result<Value, AllocError> {
    let mut object = Map::new(alloc);
    put_span(alloc, &mut object, file, label)?;
    Ok(Value::Object(object))
}

fn span_values(
    alloc: Global,
    file: &SourceFile<'_>,
    labels: &[SpanLabel],
) -> Result<Value, AllocError> {
    let mut values = Vec::new(alloc);
    for label in labels {
        let value = span_value(alloc, file, label)?;
        values.push(value)?;
    }
    Ok(Value::Array(values))
}

/// The code of rustc, or else the fault that an answer names, or null.
fn code_value(alloc: Global, code: Option<ErrCode>, answer: &str) -> Result<Value, AllocError> {
    let name = match (code, answer.split_once(": ")) {
        (Some(code), _) => code.name(),
        (None, Some((_, fault))) if fault.starts_with("fault ") => fault,
        _ => return Ok(Value::Null),
    };
    let mut object = Map::new(alloc);
    put_text(alloc, &mut object, "code", name)?;
    put(&mut object, alloc, "explanation", Value::Null)?;
    Ok(Value::Object(object))
}

/// Adds a message with its level.
fn put_message(
    alloc: Global,
    object: &mut Members,
    level: Level,
    message: &str,
) -> Result<(), AllocError> {
    put_text(alloc, object, "level", level.name())?;
    put_text(alloc, object, "message", message)
}

/// A child of a message.
fn child_value(
    alloc: Global,
    level: Level,
    message: &str,
    spans: Value,
) -> Result<Value, AllocError> {
    let mut object = Map::new(alloc);
    put(&mut object, alloc, "spans", spans)?;
    put(
        &mut object,
        alloc,
        "children",
        Value::Array(Vec::new(alloc)),
    )?;
    put_message(alloc, &mut object, level, message)?;
    put_nulls(alloc, &mut object, &["code", "rendered"])?;
    Ok(Value::Object(object))
}

/// A proof as one text, one line for each row, none of them cut.
fn proof_text(alloc: Global, rows: &[ProofRow]) -> Result<String, AllocError> {
    let mut text = TextWriter::new(alloc);
    text.push_str("proof:");
    let columns = goal_columns(rows);
    for (index, row) in rows.iter().enumerate() {
        text.push_str("\n");
        push_proof_row(&mut text, row, &rows[index + 1..], columns, usize::MAX);
    }
    text.finish()
}

/// The same as one note.
fn proof_value(alloc: Global, rows: &[ProofRow]) -> Result<Value, AllocError> {
    let message = proof_text(alloc, rows)?;
    let spans = Value::Array(Vec::new(alloc));
    child_value(alloc, Level::Note, message.as_str(), spans)
}

fn subdiagnostic_value(
    alloc: Global,
    file: &SourceFile<'_>,
    child: &Subdiagnostic,
) -> Result<Value, AllocError> {
    let spans = span_values(alloc, file, &child.spans)?;
    child_value(alloc, child.level, child.message.as_str(), spans)
}

/// The line of the impl by which a row holds, or null.
fn impl_span_value(
    alloc: Global,
    file: &SourceFile<'_>,
    row: &ProofRow,
) -> Result<Value, AllocError> {
    let Some(line) = row.impl_line else {
        return Ok(Value::Null);
    };
    let span = Span {
        line,
        start: 0,
        end: file.line(line).len(),
    };
    span_value(alloc, file, &SpanLabel::primary(span, String::new(alloc)))
}

/// A row of a proof above its premises.
fn row_value(
    alloc: Global,
    file: &SourceFile<'_>,
    row: &ProofRow,
    premises: Vec<Value>,
) -> Result<Value, AllocError> {
    let span = impl_span_value(alloc, file, row)?;
    let mut object = Map::new(alloc);
    put_text(alloc, &mut object, "goal", row.goal.as_str())?;
    put_text(alloc, &mut object, "rule", row.reason.as_str())?;
    put(&mut object, alloc, "span", span)?;
    put(&mut object, alloc, "premises", Value::Array(premises))?;
    Ok(Value::Object(object))
}

/// A row of a proof with what is below it, and how deep it stands.
type Branch = (usize, Value);

/// Takes the last branches that stand so deep, the last one first.
fn take_branches(
    alloc: Global,
    branches: &mut Vec<Branch>,
    depth: usize,
) -> Result<Vec<Value>, AllocError> {
    let mut taken = Vec::new(alloc);
    for _ in 0..branches.len() {
        match branches.last() {
            Some(branch) if branch.0 >= depth => {}
            _ => break,
        }
        if let Some((_, value)) = branches.pop() {
            taken.push(value)?;
        }
    }
    Ok(taken)
}

/// The rows of a proof as trees: each has those that stand one deeper below it.
fn tree_values(
    alloc: Global,
    file: &SourceFile<'_>,
    rows: &[ProofRow],
) -> Result<Value, AllocError> {
    // What is below the rows that are left, the first one last.
    let mut branches = Vec::new(alloc);
    for row in rows.iter().rev() {
        let premises = take_branches(alloc, &mut branches, row.depth.saturating_add(1))?;
        let value = row_value(alloc, file, row, premises)?;
        branches.push((row.depth, value))?;
    }
    let trees = take_branches(alloc, &mut branches, 0)?;
    Ok(Value::Array(trees))
}

/// The proof, if there is one, and then the children.
fn child_values(
    alloc: Global,
    file: &SourceFile<'_>,
    diagnostic: &Diagnostic,
) -> Result<Value, AllocError> {
    let mut values = Vec::new(alloc);
    if !diagnostic.proof.is_empty() {
        let proof = proof_value(alloc, &diagnostic.proof)?;
        values.push(proof)?;
    }
    for child in &diagnostic.children {
        let value = subdiagnostic_value(alloc, file, child)?;
        values.push(value)?;
    }
    Ok(Value::Array(values))
}

/// Adds the text for people, with an empty line after it.
fn put_rendered(
    alloc: Global,
    object: &mut Members,
    file: &SourceFile<'_>,
    diagnostic: &Diagnostic,
) -> Result<(), AllocError> {
    let mut rendered = render(alloc, file, diagnostic, false)?;
    rendered.push_str("\n")?;
    put(object, alloc, "rendered", Value::String(rendered))
}

/// Adds the parts of a diagnostic.
fn put_diagnostic(
    alloc: Global,
    object: &mut Members,
    file: &SourceFile<'_>,
    answer: &str,
    diagnostic: &Diagnostic,
) -> Result<(), AllocError> {
    let code = code_value(alloc, diagnostic.code, answer)?;
    put(object, alloc, "code", code)?;
    let spans = span_values(alloc, file, &diagnostic.spans)?;
    put(object, alloc, "spans", spans)?;
    let children = child_values(alloc, file, diagnostic)?;
    put(object, alloc, "children", children)?;
    let proof = tree_values(alloc, file, &diagnostic.proof)?;
    put(object, alloc, "proof", proof)?;
    put_message(alloc, object, diagnostic.level, diagnostic.message.as_str())?;
    put_rendered(alloc, object, file, diagnostic)
}

/// What a line of the answer says.
fn answer_value(
    alloc: Global,
    answer: &str,
    file: Option<&SourceFile<'_>>,
) -> Result<Value, AllocError> {
    let mut object = Map::new(alloc);
    put_answer(alloc, &mut object, answer, file)?;
    Ok(Value::Object(object))
}

/// An object with this `answer`, with the parts of `line`, and with the diagnostic if there is one.
fn object_text(
    alloc: Global,
    answer: &str,
    line: &str,
    told: Option<(&SourceFile<'_>, &Diagnostic)>,
) -> Result<String, AllocError> {
    let mut object = Map::new(alloc);
    let kind = if told.is_some() {
        "diagnostic"
    } else {
        "answer"
    };
    put_text(alloc, &mut object, "$message_type", kind)?;
    put_text(alloc, &mut object, "answer", answer)?;
    let file = match told {
        Some((file, _)) => Some(file),
        None => None,
    };
    let parts = answer_value(alloc, line, file)?;
    put(&mut object, alloc, "parts", parts)?;
    if let Some((file, diagnostic)) = told {
        put_diagnostic(alloc, &mut object, file, line, diagnostic)?;
    }
    Value::Object(object).to_string(alloc)
}

/// A line of the answer as a line of JSON without its end, with its diagnostic if it has one: then with the keys that rustc writes.
///
/// `answer` is the line as it is displayed, and `parts` what `line` says. `rendered` is the text for people, without colours, with an empty line behind it. A proof
/// is the first child, with its rows whole, and `proof` its trees. Of a span's line at most 1,000 bytes are there, and what is marked lies in
/// these.
pub fn json_line(
    alloc: Global,
    answer: &str,
    line: &str,
    told: Option<(&SourceFile<'_>, &Diagnostic)>,
) -> Result<String, AllocError> {
    object_text(alloc, answer, line, told)
}

/// The same of a fault that is no line of the answer: `answer` is empty, and `parts` is what `fault` says.
pub fn json_fault(
    alloc: Global,
    fault: &str,
    file: &SourceFile<'_>,
    diagnostic: &Diagnostic,
) -> Result<String, AllocError> {
    object_text(alloc, "", fault, Some((file, diagnostic)))
}
