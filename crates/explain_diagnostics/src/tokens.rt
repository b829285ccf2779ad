//! The tokens of a line.

ghost use Rattle.std.specs.Prelude.{◌<◌, ◌≤◌, ◌≡◌, ◌+◌, length, All, IfOk, slice_range};
ghost use Rattle.explain_diagnostics.specs.Places.{CoverUpTo, IsPartOfLine};

use crate::span::Place;
use std::alloc::{AllocError, Global};

fn is_word_byte(byte: u8) -> bool {
    byte.is_ascii_alphanumeric() || byte == b'_'
}

/// Where the word that begins here ends.
fn word_end(line: &[u8], start: usize) -> usize
    requires { start ≤ length line.now }
    ensures within { result ≤ length line.now }
    ensures behind { start ≤ result }
{
    let mut at = start;
    while at < line.len() && is_word_byte(line[at]) {
        at += 1;
    }
    at
}

/// Where the token that begins here ends.
fn token_end(line: &[u8], start: usize) -> usize
    requires { start < length line.now }
    ensures within { result ≤ length line.now }
    ensures behind { start < result }
{
    let byte = line[start];
    if is_word_byte(byte) || byte == b'\'' || byte == b'?' {
        word_end(line, start + 1)
    } else if byte == b'-' && start + 1 < line.len() && line[start + 1] == b'>' {
        start + 2
    } else {
        start + 1
    }
}

/// The ranges of the tokens of a line, in order: words, lifetimes, variables, arrows, and each other byte but spaces by itself. Fails only
/// if memory is refused.
///
/// For a line of the grammar these are its tokens. Any other line has some too.
pub fn token_places(alloc: Global, line: &[u8]) -> Result<Vec<Place>, AllocError>
    ensures within { IfOk result (λ places. All (IsPartOfLine (length line.now)) places.items) }
    ensures covered { IfOk result (λ places. CoverUpTo line.now places.items (length line.now)) }
{
    let mut places = Vec::new(alloc);
    let mut at = 0;
    while at < line.len() {
        if line[at] == b' ' {
            at += 1;
        } else {
            let end = token_end(line, at);
            places.push(Place { start: at, end })?;
            at = end;
        }
    }
    Ok(places)
}

/// The text of a range of a line. It is empty if the line does not have the range.
pub fn text_of<'t>(line: &'t [u8], place: Place) -> &'t [u8] {
    line.get(place.start..place.end).unwrap_or(&[])
}
