//! What a line of `--ask` asks.

use std::alloc::{AllocError, Global};

/// The first words of lines that ask nothing.
const ITEMS: [&[u8]; 8] = [
    b"crate",
    b"struct",
    b"trait",
    b"impl",
    b"later",
    b"supers",
    b"auto",
    b"fundamental",
];

/// The first word of a line, and what comes after it.
fn first_word(line: &[u8]) -> (&[u8], &[u8]) {
    let start = line.trim_ascii_start();
    match start.iter().position(|byte| byte.is_ascii_whitespace()) {
        Some(end) => start.split_at(end),
        None => (start, &[]),
    }
}

/// Whether a line asks something: in the crate that it names, or as a bound, in this crate.
fn asks(word: &[u8], is_kind: bool, asker: Option<&str>) -> bool {
    is_kind || asker.is_some() && !ITEMS.iter().any(|item| *item == word)
}

/// The query that a line asks, as a line of a text: as it is if it names its crate, else in this crate. `None` if it asks nothing.
pub fn query_of(
    alloc: Global,
    line: &[u8],
    asker: Option<&str>,
) -> Result<Option<Vec<u8>>, AllocError> {
    let (word, behind) = first_word(line);
    let is_kind = word == b"prove".as_slice() || word == b"refute".as_slice();
    if !asks(word, is_kind, asker) {
        return Ok(None);
    }
    let names_crate = is_kind && first_word(behind).0 == b"in".as_slice();
    let mut query = Vec::new(alloc);
    match asker {
        Some(name) if !names_crate => {
            let (kind, bound) = if is_kind {
                (word, behind.trim_ascii_start())
            } else {
                (b"prove".as_slice(), line)
            };
            query.extend_from_slice(kind)?;
            query.extend_from_slice(b" in ")?;
            query.extend_from_slice(name.as_bytes())?;
            query.extend_from_slice(b" ")?;
            query.extend_from_slice(bound)?;
        }
        _ => query.extend_from_slice(line)?,
    }
    Ok(Some(query))
}
