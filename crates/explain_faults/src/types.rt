//! The types of traits, as a line speaks of them.

use crate::grammar::Word;
use crate::offending::{Faulty, kind_of, mark_declaration};
use explain_diagnostics::LIST_LIMIT;
use messages::{Name, Piece, Telling, name_of, plain, with_one, with_three, with_two};
use std::alloc::{AllocError, Global};

/// The name of a type of a trait, if this is the name under which the tables have it: `It::Item`.
fn type_in<'n>(name: &'n [u8], of_trait: &[u8]) -> Option<Name<'n>> {
    let own = name.strip_prefix(of_trait)?.strip_prefix(b"::")?;
    Some(name_of(own))
}

/// Whether a trait has a type.
fn has_type(line: Faulty<'_>, of_trait: &[u8], name: &[u8]) -> bool {
    for entry in line.workspace.traits() {
        if let Some(own) = type_in(&entry.name, of_trait)
            && own.bytes == name
        {
            return true;
        }
    }
    false
}

/// The first of these tokens that is used as a symbol of the grammar.
fn first_used<'t>(words: &[Word<'t>], symbol: &str) -> Option<Word<'t>> {
    for word in words {
        if word.used_as == symbol {
            return Some(*word);
        }
    }
    None
}

/// The last of these tokens that is used as a symbol of the grammar.
fn last_used<'t>(words: &[Word<'t>], symbol: &str) -> Option<Word<'t>> {
    for word in words.iter().rev() {
        if word.used_as == symbol {
            return Some(*word);
        }
    }
    None
}

/// The token of the trait to which a type belongs, by the index of the token of the type: the trait that is declared, that of the header
/// where an impl gives the type, and that of the bound where it is bound.
pub(crate) fn trait_of<'t>(line: Faulty<'t>, at: usize) -> Option<Word<'t>> {
    let before = line.words.get(..at)?;
    match line.words.get(at)?.used_as {
        "@item" => first_used(before, "@own"),
        "@given" => first_used(before, "@trait"),
        _ => last_used(before, "@trait"),
    }
}

/// Tells which types a trait has.
fn tell_types_of(line: Faulty<'_>, of_trait: &[u8], telling: &mut Telling) {
    let mut count = 0usize;
    for entry in line.workspace.traits() {
        if let Some(own) = type_in(&entry.name, of_trait) {
            let name = Piece::Name(own);
            if count == 0 {
                telling.help(with_one("it has `{}`", name));
            } else if count < LIST_LIMIT {
                telling.extend_child(with_one(", `{}`", name));
            } else if count == LIST_LIMIT {
                telling.extend_child(plain(", .."));
            }
            count = count.saturating_add(1);
        }
    }
    if count == 0 {
        telling.help(plain("it has no types"));
    }
}

/// The trait and the type, if this is the name under which the tables have the type of a trait.
fn both_names(name: &[u8]) -> Option<(Name<'_>, Name<'_>)> {
    let end = name.iter().take_while(|byte| **byte != b':').count();
    let (of_trait, _) = name.split_at_checked(end)?;
    Some((name_of(of_trait), type_in(name, of_trait)?))
}

/// Tells of another trait that has a type with this name, if there is one: it may be a supertrait.
fn tell_other_trait(line: Faulty<'_>, name: &[u8], telling: &mut Telling) {
    for entry in line.workspace.traits() {
        if let Some((of_trait, own)) = both_names(&entry.name)
            && own.bytes == name
        {
            telling.help(with_two(
                "`{}` is a type of the trait `{}`: bind it in a bound of that trait",
                Piece::Name(own),
                Piece::Name(of_trait),
            ));
            return;
        }
    }
}

/// What a name stands for where a trait is needed, in a word.
fn sort_of_owner(line: Faulty<'_>, owner: Word<'_>) -> &'static str {
    match line.workspace.known(owner.text) {
        Some(known) => kind_of(known),
        None => "parameter",
    }
}

/// Tells of a type that its trait does not have, and whether there is one.
pub(crate) fn tell_no_type(line: Faulty<'_>, telling: &mut Telling) -> bool {
    for (at, word) in line.words.iter().enumerate() {
        if word.is_type_name()
            && let Some(owner) = trait_of(line, at)
            && !has_type(line, owner.text, word.text)
        {
            let label = with_three(
                "the {} `{}` has no type `{}`",
                Piece::Text(sort_of_owner(line, owner)),
                Piece::Name(name_of(owner.text)),
                Piece::Name(name_of(word.text)),
            );
            telling.mark(line.span(*word), label);
            mark_declaration(line, owner, telling);
            tell_types_of(line, owner.text, telling);
            if word.used_as == "@binding" {
                tell_other_trait(line, word.text, telling);
            }
            return true;
        }
    }
    false
}

/// Whether a token begins a list of types: what is said of a trait, or what stands in braces.
fn begins_types(word: Word<'_>) -> bool {
    word.used_as == "@trait" || word.used_as == "{"
}

/// The first token of a list of types that names a type, if it stands before this index.
fn first_naming<'t>(line: Faulty<'t>, list: usize, at: usize, word: Word<'_>) -> Option<Word<'t>> {
    for other in line.words.iter().take(at).skip(list) {
        if other.is_type_name() && other.text == word.text {
            return Some(*other);
        }
    }
    None
}

/// Tells of a type that a line names twice of one trait, and whether there is one.
pub(crate) fn tell_twice(line: Faulty<'_>, telling: &mut Telling) -> bool {
    let mut list = 0usize;
    for (at, word) in line.words.iter().enumerate() {
        if begins_types(*word) {
            list = at;
        } else if word.is_type_name()
            && let Some(first) = first_naming(line, list, at, *word)
        {
            let label = match word.used_as {
                "@item" => "declared twice in this line",
                "@given" => "given twice",
                _ => "bound twice",
            };
            telling.mark(line.span(*word), plain(label));
            telling.mark_beside(line.span(first), plain(""));
            return true;
        }
    }
    false
}

/// Whether an impl gives a type.
fn gives(line: Faulty<'_>, name: Name<'_>) -> bool {
    for word in line.words {
        if word.used_as == "@given" && word.text == name.bytes {
            return true;
        }
    }
    false
}

/// Tells of a type of the trait that an impl does not give, and whether there is one.
fn tell_not_given(line: Faulty<'_>, telling: &mut Telling) -> bool {
    let Some(owner) = first_used(line.words, "@trait") else {
        return false;
    };
    for entry in line.workspace.traits() {
        if let Some(own) = type_in(&entry.name, owner.text)
            && !gives(line, own)
        {
            let name = Piece::Name(own);
            telling.mark(
                line.span(owner),
                with_one("the type `{}` of this trait is not given", name),
            );
            mark_declaration(line, owner, telling);
            telling.help(with_three(
                "give it at the end of the line: `{} type {} = ..; {}`",
                Piece::Text("{"),
                name,
                Piece::Text("}"),
            ));
            return true;
        }
    }
    false
}

/// Tells of a constant of a trait with types, and whether there is one.
fn tell_const(line: Faulty<'_>, telling: &mut Telling) -> bool {
    match (
        first_used(line.words, "@const"),
        first_used(line.words, "@item"),
    ) {
        (Some(param), Some(item)) => {
            telling.mark(
                line.span(param),
                plain("a trait with types has no const parameters"),
            );
            telling.mark_beside(line.span(item), plain("a type"));
            true
        }
        _ => false,
    }
}

/// Tells what is wrong with the types of a line whose names are right, and gives the message for it, if something is.
pub(crate) fn tell_types(line: Faulty<'_>, telling: &mut Telling) -> Option<&'static str> {
    let is_impl = matches!(line.words.first(), Some(word) if word.text == b"impl".as_slice());
    if tell_const(line, telling) {
        Some("a trait with types has const parameters")
    } else if tell_twice(line, telling) {
        Some("a type of a trait is given or bound twice")
    } else if is_impl && tell_not_given(line, telling) {
        Some("an impl does not give all types of its trait")
    } else {
        None
    }
}

/// The most types that a line names of one trait.
pub(crate) fn most_types(words: &[Word<'_>]) -> usize {
    let mut most = 0usize;
    let mut count = 0usize;
    for word in words {
        if begins_types(*word) {
            count = 0;
        } else if word.is_type_name() {
            count = count.saturating_add(1);
            most = most.max(count);
        }
    }
    most
}
