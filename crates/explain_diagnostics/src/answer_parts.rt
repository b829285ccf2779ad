//! What a line of the answer says, as data.

use crate::json::{Members, put_text};
use crate::source::{OwnLine, Part, SourceFile, own_line};
use crate::writer::TextWriter;
use serde_json::{Map, Value, put};
use std::alloc::{AllocError, Global};

/// The first word of a text, and what stands behind the space after it.
fn cut_word(text: &str) -> (&str, &str) {
    match text.split_once(' ') {
        Some(parts) => parts,
        None => (text, ""),
    }
}

/// Adds a word: a number as a number.
fn put_word(alloc: Global, object: &mut Members, key: &str, word: &str) -> Result<(), AllocError> {
    match word.parse::<u32>() {
        Ok(number) => put(object, alloc, key, Value::from(number)),
        Err(_) => put_text(alloc, object, key, word),
    }
}

/// Adds the values of variables, which are written `?x = T, ?y = U`.
fn put_values(alloc: Global, object: &mut Members, text: &str) -> Result<(), AllocError> {
    let mut values = Map::new(alloc);
    let mut left = text.split_once(" = ");
    // A question has 16 variables at most.
    for _ in 0..16 {
        let Some((name, rest)) = left else {
            break;
        };
        left = None;
        let mut value = rest;
        if let Some((before, behind)) = rest.split_once(" = ")
            && let Some((own, next)) = before.rsplit_once(", ")
        {
            value = own;
            left = Some((next, behind));
        }
        put_text(alloc, &mut values, name, value)?;
    }
    put(object, alloc, "values", Value::Object(values))
}

/// Adds what stands first behind the kind of an answer, by its own name, and gives what stands behind that.
fn put_detail<'t>(
    alloc: Global,
    object: &mut Members,
    text: &'t str,
) -> Result<&'t str, AllocError> {
    let (key, behind) = cut_word(text);
    if key == "nonlocal" {
        put(object, alloc, key, Value::Bool(true))?;
        return Ok(behind);
    }
    if key == "before" {
        put_text(alloc, object, key, behind)?;
        return Ok("");
    }
    let (value, behind) = cut_word(behind);
    put_word(alloc, object, key, value)?;
    if key != "with" {
        return Ok(behind);
    }
    let (number, behind) = cut_word(behind);
    put_word(alloc, object, "with_impl", number)?;
    Ok(behind)
}

/// The line of a fault as it is displayed for a text with these files: `NAME: line N: fault K`, with the line as it counts in its own file,
/// and without the name if that is the last one. `None` for any other line.
pub fn own_fault(
    alloc: Global,
    parts: &[Part<'_>],
    line: &str,
) -> Result<Option<String>, AllocError> {
    let Some(rest) = line.strip_prefix("line ") else {
        return Ok(None);
    };
    let (number, fault) = cut_word(rest);
    let Ok(number) = number.strip_suffix(':').unwrap_or(number).parse::<u32>() else {
        return Ok(None);
    };
    let own = own_line(parts, number);
    let mut out = TextWriter::new(alloc);
    if !own.is_last {
        out.push_shown(own.name.as_bytes());
        out.push_str(": ");
    }
    out.push_number("line ", own.number as usize);
    out.push_str(": ");
    out.push_str(fault);
    Ok(Some(out.finish()?))
}

/// Adds a line as it counts in its own file, and the name of that if it is not the last one.
fn put_own(alloc: Global, object: &mut Members, own: OwnLine<'_>) -> Result<(), AllocError> {
    put(object, alloc, "line", Value::from(own.number))?;
    if own.is_last {
        Ok(())
    } else {
        put_text(alloc, object, "file", own.name)
    }
}

/// Adds what is answered, as its crate or its number.
fn put_subject(
    alloc: Global,
    object: &mut Members,
    answered: &str,
    subject: &str,
    file: Option<&SourceFile<'_>>,
) -> Result<(), AllocError> {
    match (answered, file, subject.parse::<u32>()) {
        ("line", Some(file), Ok(number)) => put_own(alloc, object, file.own_line(number)),
        ("line", _, _) => put_word(alloc, object, "line", subject),
        ("prove" | "refute", _, _) => put_word(alloc, object, "question", subject),
        _ => put_word(alloc, object, "crate", subject),
    }
}

/// Adds what an answer says: what is answered, by its crate or its number; of which kind the answer is; and what stands behind that, as
/// numbers, names and values.
pub(crate) fn put_answer(
    alloc: Global,
    object: &mut Members,
    line: &str,
    file: Option<&SourceFile<'_>>,
) -> Result<(), AllocError> {
    let (answered, rest) = cut_word(line);
    let (subject, rest) = cut_word(rest);
    let (kind, rest) = cut_word(rest);
    let subject = subject.strip_suffix(':').unwrap_or(subject);
    put_text(alloc, object, "answered", answered)?;
    put_subject(alloc, object, answered, subject, file)?;
    put_text(alloc, object, "kind", kind)?;
    if kind == "fault" {
        return put_word(alloc, object, kind, rest);
    }
    if kind == "yes" || kind == "maybe" {
        return put_values(alloc, object, rest);
    }
    let mut left = rest;
    for _ in 0..3 {
        if !left.is_empty() {
            left = put_detail(alloc, object, left)?;
        }
    }
    Ok(())
}
