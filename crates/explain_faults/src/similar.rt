//! Names that are similar to one that is not declared.

use explain_diagnostics::{TYPE_LIMIT, cut_text};
use messages::{Name, name_of};
use std::alloc::{AllocError, Global};
use strsim::osa_distance;
use text_tables::Workspace;

/// How many edits a name that is alike may be away: one for each three bytes, and at least one, as in the original. One letter is like nothing.
fn near(name: &str) -> usize {
    if name.len() < 2 {
        0
    } else {
        (name.len() / 3).max(1)
    }
}

/// The most similar name so far.
#[derive(Clone, Copy)]
struct Nearest<'w> {
    name: Option<Name<'w>>,
    distance: usize,
}

/// How many edits a name is away. Two letters that change places are one.
fn edits(alloc: Global, wanted: &str, name: &[u8]) -> Result<usize, AllocError> {
    let other = cut_text(alloc, name, TYPE_LIMIT)?;
    osa_distance(alloc, wanted, other.as_str())
}

/// Compares one more name.
fn compare<'w>(
    alloc: Global,
    best: Nearest<'w>,
    wanted: &str,
    name: &'w [u8],
) -> Result<Nearest<'w>, AllocError> {
    let distance = edits(alloc, wanted, name)?;
    if distance < best.distance {
        Ok(Nearest {
            name: Some(name_of(name)),
            distance,
        })
    } else {
        Ok(best)
    }
}

/// Whether a name can stand in a text: those that lines with types stand for have colons.
fn is_written(name: &[u8]) -> bool {
    !name.contains(&b':')
}

/// The struct or trait whose name is most similar to a text, if one is near.
fn nearest_name<'w>(
    alloc: Global,
    workspace: &'w Workspace,
    wanted: &str,
) -> Result<Option<Name<'w>>, AllocError> {
    let mut best = Nearest {
        name: None,
        distance: near(wanted).saturating_add(1),
    };
    for entry in workspace.structs() {
        if is_written(&entry.name) {
            best = compare(alloc, best, wanted, &entry.name)?;
        }
    }
    for entry in workspace.traits() {
        if is_written(&entry.name) {
            best = compare(alloc, best, wanted, &entry.name)?;
        }
    }
    Ok(best.name)
}

/// The struct or trait whose name is most similar to this one, if one is near.
pub(crate) fn similar_name<'w>(
    alloc: Global,
    workspace: &'w Workspace,
    wanted: &[u8],
) -> Result<Option<Name<'w>>, AllocError> {
    let wanted = cut_text(alloc, wanted, TYPE_LIMIT)?;
    nearest_name(alloc, workspace, wanted.as_str())
}

/// The words of the grammar that stand outside types.
static WORDS: [&str; 16] = [
    "crate",
    "uses",
    "fundamental",
    "struct",
    "auto",
    "trait",
    "impl",
    "for",
    "where",
    "prove",
    "refute",
    "in",
    "later",
    "supers",
    "const",
    "type",
];

/// The word of the grammar that is most like this one, if one is near.
pub(crate) fn similar_word(
    alloc: Global,
    wanted: &[u8],
) -> Result<Option<Name<'static>>, AllocError> {
    let wanted = cut_text(alloc, wanted, TYPE_LIMIT)?;
    let mut best = Nearest {
        name: None,
        distance: near(wanted.as_str()).saturating_add(1),
    };
    for word in &WORDS {
        best = compare(alloc, best, wanted.as_str(), word.as_bytes())?;
    }
    Ok(best.name)
}
