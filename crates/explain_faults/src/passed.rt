//! Limits that a line passes.

ghost use Rattle.std.specs.Prelude.{◌≡◌};
ghost use Rattle.text_lines.specs.Pieces.{companions_in, names_in};

use crate::grammar::Word;
use crate::offending::{Faulty, LineReading, if_written, reading};
use crate::sorts::list_items;
use crate::types::{most_types, trait_of};
use explain_diagnostics::{Span, on_line};
use messages::{Piece, Telling, plain, whole_line, with_one, with_three};
use std::alloc::{AllocError, Global};
use text_lines::{Token, companion_names, is_overlong, line_of_list, read_typed};

/// How many of something there are, and how many there may be.
#[derive(Clone, Copy)]
struct Count {
    of: &'static str,
    count: usize,
    limit: usize,
}

/// How long the name of the trait is to which a type belongs.
fn trait_length(line: Faulty<'_>, at: usize) -> usize {
    match trait_of(line, at) {
        Some(owner) => owner.text.len(),
        None => 0,
    }
}

/// What a token has so many of, or the list that it opens.
fn count_at(
    alloc: Global,
    line: Faulty<'_>,
    at: usize,
    word: Word<'_>,
) -> Result<Count, AllocError> {
    let (of, count, limit) = match word.class {
        b'@' if word.used_as == "@item" => (
            "bytes of the names of the trait and its type",
            word.text.len().saturating_add(trait_length(line, at)),
            62,
        ),
        b'@' => ("bytes of a name", word.text.len(), 64),
        b'\'' | b'?' => ("bytes of a name", word.text.len().saturating_sub(1), 64),
        _ if word.text == b"(".as_slice() => {
            let items = list_items(alloc, line.words, at)?.len();
            if line.has_fields_at(at) {
                ("fields", items, 64)
            } else {
                ("items of a tuple or inputs of a `fn`", items, 12)
            }
        }
        _ => ("", 0, 0),
    };
    Ok(Count { of, count, limit })
}

/// How many parameters a line has, and how many variables, each counted once.
fn count_names(alloc: Global, words: &[Word<'_>]) -> Result<(usize, usize), AllocError> {
    let mut params = 0usize;
    let mut variables: Vec<&[u8]> = Vec::new(alloc);
    for word in words {
        if matches!(word.used_as, "'param" | "@param" | "@const") {
            params = params.saturating_add(1);
        }
        if word.class == b'?' && !variables.contains(&word.text) {
            variables.push(word.text)?;
        }
    }
    Ok((params, variables.len()))
}

/// How many parameters a line may have: a trait with types has one less.
fn param_limit(words: &[Word<'_>]) -> usize {
    for word in words {
        if word.used_as == "@item" {
            return 63;
        }
    }
    64
}

/// How many bounds or clauses the line has that a list spells, whose companions have these names.
fn count_list<'t, 'a>(
    alloc: Global,
    list: &[text_lines::Piece<'t, 'a>],
    names: &'a [Vec<u8>],
) -> Result<usize, AllocError>
    requires { names_in names.now ≡ companions_in list.now }
{
    match if_written(line_of_list(alloc, list, names))? {
        Some(read) => Ok(read.statement.part_count()),
        None => Ok(0),
    }
}

/// How many bounds or clauses one of the lines has at most for which a line with types stands: one for each bound, and for each type that
/// is bound.
fn count_typed(alloc: Global, found: &[Token<'_>]) -> Result<usize, AllocError> {
    let Some(typed) = if_written(read_typed(alloc, found))? else {
        return Ok(0);
    };
    let lists = typed.lists(alloc)?;
    let mut most = 0usize;
    for list in &lists {
        let names = companion_names(alloc, list)?;
        most = most.max(count_list(alloc, list, &names)?);
    }
    Ok(most)
}

/// How many bounds or clauses a line has.
fn count_parts(alloc: Global, line: Faulty<'_>) -> Result<usize, AllocError> {
    match reading(alloc, line.file.line(line.number))? {
        Some(LineReading::Plain(read)) => Ok(read.statement.part_count()),
        Some(LineReading::Typed(found)) => count_typed(alloc, &found),
        None => Ok(0),
    }
}

/// Tells of a count that is too large, and whether it is.
fn tell_large(span: Span, it: Count, telling: &mut Telling) -> bool {
    if it.count <= it.limit {
        return false;
    }
    let label = with_three(
        "{} {}, at most {}",
        Piece::Number(it.count),
        Piece::Text(it.of),
        Piece::Number(it.limit),
    );
    telling.mark(span, label);
    true
}

/// Whether a line speaks of types of traits.
fn is_typed(words: &[Word<'_>]) -> bool {
    for word in words {
        if word.is_type_name() {
            return true;
        }
    }
    false
}

/// What else a line may pass, by its first word.
fn other_limit(line: Faulty<'_>) -> &'static str {
    let first = match line.words.first() {
        Some(word) => word.text,
        None => &[],
    };
    match (first, is_typed(line.words)) {
        (b"crate", _) => "4095 crates beside `core`, at most",
        (b"prove" | b"refute", false) => {
            "65536 questions, 64 bits of a number, types 64 deep, 64 bounds of a `dyn`, at most"
        }
        (b"prove" | b"refute", true) =>
            "65536 questions, 64 bits of a number, types 64 deep, 63 as a type of a trait, 64 bounds of a `dyn`, at most",
        (_, false) =>
            "65535 items of a crate, 64 bits of a number, types 64 deep, 64 bounds of a `dyn`, at most",
        (_, true) =>
            "65535 items of a crate with the types of its traits and impls, 64 bits of a number, types 64 deep, 63 as a type of a trait, 64 bounds of a `dyn`, at most",
    }
}

/// Tells of a limit that a line passes, and whether it is found.
pub(crate) fn tell_passed(line: Faulty<'_>, telling: &mut Telling) -> bool {
    let whole = on_line(line.number, whole_line(line.file.line(line.number)));
    if is_overlong(line.file.line(line.number)) {
        telling.mark(
            whole,
            with_one(
                "a line with `=` or `{}` has 65536 bytes at most",
                Piece::Text("{"),
            ),
        );
        return true;
    }
    let types = Count {
        of: "types of a trait",
        count: most_types(line.words),
        limit: 16,
    };
    if tell_large(whole, types, telling) {
        return true;
    }
    for (at, word) in line.words.iter().enumerate() {
        let count = count_at(telling.alloc(), line, at, *word);
        if let Some(count) = telling.granted(count)
            && tell_large(line.span(*word), count, telling)
        {
            return true;
        }
    }
    let names = count_names(telling.alloc(), line.words);
    let (params, variables) = telling.granted(names).unwrap_or((0, 0));
    let parts = count_parts(telling.alloc(), line);
    let parts = telling.granted(parts).unwrap_or(0);
    for (of, count, limit) in [
        ("parameters", params, param_limit(line.words)),
        ("variables", variables, 16),
        ("bounds or clauses", parts, 64),
    ] {
        if tell_large(whole, Count { of, count, limit }, telling) {
            return true;
        }
    }
    telling.mark(whole, plain(other_limit(line)));
    true
}
