//! Names that stand for something else than their places need, and arguments that are others than what a name takes.

use crate::grammar::Word;
use crate::offending::{Faulty, kind_of, mark_declaration};
use messages::{Piece, Telling, name_of, with_four, with_two};
use std::alloc::{AllocError, Global};
use text_tables::{Known, ParamKind};

/// What a place needs, by what is used there.
fn needed(used_as: &str) -> &'static str {
    match used_as {
        "@crate" => "crate",
        "@trait" | "@bound" => "trait",
        "@length" => "constant",
        "@type" => "type",
        _ => "",
    }
}

/// What a token stands for: something of its line, or of the lines above. Empty where that is not known.
fn sort_of(line: Faulty<'_>, word: Word<'_>) -> &'static str {
    match (word.class, line.declaring(word.text)) {
        (b'@', Some(param)) if param.used_as == "@param" => "type",
        (b'@', Some(param)) if param.used_as == "@const" => "constant",
        (b'@', None) => match line.workspace.known(word.text) {
            Some(known) => kind_of(known),
            None => "",
        },
        (b'@' | b'?', _) => "",
        (b'\'', _) => "lifetime",
        (b'#', _) => "constant",
        _ => "type",
    }
}

/// Whether what a token stands for serves where this is needed.
fn serves(sort: &str, needed: &str) -> bool {
    sort.is_empty() || needed.is_empty() || sort == needed || sort == "struct" && needed == "type"
}

/// Which tokens begin the items of a list that opens at a token.
pub(crate) fn list_items(
    alloc: Global,
    words: &[Word<'_>],
    open: usize,
) -> Result<Vec<usize>, AllocError> {
    let mut items = Vec::new(alloc);
    let mut depth = 0usize;
    let mut is_first = false;
    for at in open..words.len() {
        let text = words[at].text;
        let closes = matches!(text, b">" | b")" | b"]");
        if closes {
            depth = depth.saturating_sub(1);
        } else if is_first {
            items.push(at)?;
        }
        if depth == 0 && at > open {
            break;
        }
        is_first = depth == 1 && text == b",".as_slice() || at == open;
        if matches!(text, b"<" | b"(" | b"[") {
            depth = depth.saturating_add(1);
        }
    }
    Ok(items)
}

/// What a parameter takes.
fn taken_by(param: ParamKind) -> &'static str {
    match param {
        ParamKind::Lifetime => "lifetime",
        ParamKind::Type => "type",
        ParamKind::Const => "constant",
    }
}

/// What a name takes; none where that is not known.
fn params_of<'t>(line: Faulty<'t>, word: Word<'_>) -> Option<&'t [ParamKind]> {
    match (line.declaring(word.text), line.workspace.known(word.text)) {
        (None, Some(Known::Struct { params, .. })) => Some(params),
        (None, Some(Known::Trait { params, .. })) => Some(params),
        (Some(param), _) if param.used_as == "@param" => Some(&[]),
        _ => None,
    }
}

/// Whether a token begins a binding.
fn is_binding(words: &[Word<'_>], at: usize) -> bool {
    match words.get(at) {
        Some(word) => word.used_as == "@binding",
        None => false,
    }
}

/// The tokens that begin the arguments behind a token.
fn arguments(alloc: Global, words: &[Word<'_>], at: usize) -> Result<Vec<usize>, AllocError> {
    let open = at.saturating_add(1);
    let mut arguments = Vec::new(alloc);
    if let Some(next) = words.get(open)
        && next.text == b"<".as_slice()
    {
        let items = list_items(alloc, words, open)?;
        for item in &items {
            if !is_binding(words, *item) {
                arguments.push(*item)?;
            }
        }
    }
    Ok(arguments)
}

/// Tells of another number of arguments than a name takes.
fn tell_count(line: Faulty<'_>, word: Word<'_>, takes: usize, given: usize, telling: &mut Telling) {
    let noun = if takes == 1 { "argument" } else { "arguments" };
    let label = if given == 1 {
        "`{}` takes {} {}, {} is given"
    } else {
        "`{}` takes {} {}, {} are given"
    };
    let pieces = [
        Piece::Name(name_of(word.text)),
        Piece::Number(takes),
        Piece::Text(noun),
        Piece::Number(given),
    ];
    telling.mark(line.span(word), with_four(label, pieces));
    mark_declaration(line, word, telling);
}

/// Tells of arguments that are others than what a name takes, and whether there are some.
fn tell_arguments(line: Faulty<'_>, at: usize, word: Word<'_>, telling: &mut Telling) -> bool {
    let Some(params) = params_of(line, word) else {
        return false;
    };
    let given = arguments(telling.alloc(), line.words, at);
    let Some(given) = telling.granted(given) else {
        return false;
    };
    if given.len() != params.len() {
        tell_count(line, word, params.len(), given.len(), telling);
        return true;
    }
    for (place, param) in given.iter().zip(params) {
        if let Some(argument) = line.words.get(*place)
            && !serves(sort_of(line, *argument), taken_by(*param))
        {
            tell_sort(line, *argument, taken_by(*param), telling);
            mark_declaration(line, word, telling);
            return true;
        }
    }
    false
}

/// Tells of a token that stands for something else than is needed.
fn tell_sort(line: Faulty<'_>, word: Word<'_>, needed: &'static str, telling: &mut Telling) {
    let label = with_two(
        "a {} is needed here, and this is a {}",
        Piece::Text(needed),
        Piece::Text(sort_of(line, word)),
    );
    telling.mark(line.span(word), label);
}

/// Tells of a name that stands for something else than its place needs, or has other arguments than it takes, and whether there is one.
pub(crate) fn tell_other_sort(line: Faulty<'_>, telling: &mut Telling) -> bool {
    for (at, word) in line.words.iter().enumerate() {
        if word.uses() {
            let (sort, needed) = (sort_of(line, *word), needed(word.used_as));
            // Whether a constant may stand as an argument, its name's arguments tell.
            if !serves(sort, needed) && !(sort == "constant" && needed == "type") {
                tell_sort(line, *word, needed, telling);
                return true;
            }
            if tell_arguments(line, at, *word, telling) {
                return true;
            }
        }
    }
    false
}
