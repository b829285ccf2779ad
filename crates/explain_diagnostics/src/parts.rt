//! The parts of an impl's line, and the bounds of a query's line.

ghost use Rattle.std.specs.Prelude.{◌<◌, ◌≤◌, length, All, IfOk, IfSome};
ghost use Rattle.explain_diagnostics.specs.Places.{IsPartOfLine, IsPartOf};

use crate::span::Place;
use crate::tokens::{text_of, token_places};
use std::alloc::{AllocError, Global};

/// The parts of an impl's line: `impl<T> Show for V<T> where T: Show`.
#[derive(Drop)]
pub struct LineParts {
    /// The bound and the type: `Show for V<T>`.
    pub header: Place,
    /// The trait with its arguments.
    pub bound: Place,
    /// The type.
    pub subject: Place,
    /// The where-clauses, in their order.
    pub clauses: Vec<Place>,
}

/// Whether a token is a word.
fn is_token(line: &[u8], place: Place, word: &[u8]) -> bool {
    text_of(line, place) == word
}

/// The index after a token. If the token opens a list, the index after the list. It is past the last token if there is no more.
fn behind_list(line: &[u8], tokens: &[Place], from: usize) -> usize
    requires { from < length tokens.now }
    ensures behind { from < result }
    ensures within { result ≤ length tokens.now }
{
    let mut depth = 0usize;
    for at in from..tokens.len() {
        match text_of(line, tokens[at]).first() {
            Some(b'<' | b'(' | b'[') => depth = depth.saturating_add(1),
            Some(b'>' | b')' | b']') => depth = depth.saturating_sub(1),
            _ => {}
        }
        if depth == 0 {
            return at + 1;
        }
    }
    tokens.len()
}

/// The index of the first token from here on that is this word and in no list. If there is none, it is past the last token.
fn find_outside(line: &[u8], tokens: &[Place], from: usize, word: &[u8]) -> usize
    requires { from ≤ length tokens.now }
    ensures behind { from ≤ result }
    ensures within { result ≤ length tokens.now }
{
    let mut at = from;
    while at < tokens.len() {
        if is_token(line, tokens[at], word) {
            return at;
        }
        at = behind_list(line, tokens, at);
    }
    at
}

/// The range from one token to before another.
fn between(tokens: &[Place], from: usize, to: usize) -> Place
    requires some { from < to }
    requires there { to ≤ length tokens.now }
{
    let end = tokens[to - 1].end;
    Place {
        start: tokens[from].start.min(end),
        end,
    }
}

/// The ranges between commas, from this token on.
fn list_places(
    alloc: Global,
    line: &[u8],
    tokens: &[Place],
    from: usize,
) -> Result<Vec<Place>, AllocError> {
    let mut places = Vec::new(alloc);
    let mut at = from;
    while at < tokens.len() {
        let comma = find_outside(line, tokens, at, b",");
        if at < comma {
            places.push(between(tokens, at, comma))?;
        }
        at = comma.saturating_add(1);
    }
    Ok(places)
}

/// The index after the parameters of a line, which may begin at this token. If there are fewer tokens, it is past the last one.
fn behind_params(line: &[u8], tokens: &[Place], from: usize) -> usize
    ensures { result ≤ length tokens.now }
{
    if from < tokens.len() && is_token(line, tokens[from], b"<") {
        behind_list(line, tokens, from)
    } else {
        from.min(tokens.len())
    }
}

/// The parts of an impl's line, whose bound begins at this token.
fn parts_from(
    alloc: Global,
    line: &[u8],
    tokens: &[Place],
    from: usize,
) -> Result<Option<LineParts>, AllocError>
    requires { from ≤ length tokens.now }
{
    let end = find_outside(line, tokens, from, b"where");
    let split = find_outside(line, tokens, from, b"for");
    let behind = split.saturating_add(1);
    if split == from || end <= behind {
        return Ok(None);
    }
    let clauses = list_places(alloc, line, tokens, end.saturating_add(1))?;
    Ok(Some(LineParts {
        header: between(tokens, from, end),
        bound: between(tokens, from, split),
        subject: between(tokens, behind, end),
        clauses,
    }))
}

/// The parts of an impl's line. `None` if the line has another form. Fails only if memory is refused.
pub fn parts_of_impl(alloc: Global, line: &[u8]) -> Result<Option<LineParts>, AllocError> {
    let tokens = token_places(alloc, line)?;
    let from = behind_params(line, &tokens, 1);
    parts_from(alloc, line, &tokens, from)
}

/// The queried bounds of a query's line, in their order. Of a line of another form they may be any parts. Fails only if memory is refused.
pub fn bounds_of_question(alloc: Global, line: &[u8]) -> Result<Vec<Place>, AllocError> {
    let tokens = token_places(alloc, line)?;
    let from = behind_params(line, &tokens, 3);
    let end = find_outside(line, &tokens, from, b"where");
    list_places(alloc, line, &tokens[..end], from)
}
