//! Sentences as data, and how they are written.
//!
//! A sentence borrows its parts and owns nothing. So choosing one takes no memory and cannot fail. `Telling` takes sentences and writes
//! them.

ghost use Rattle.std.specs.Prelude.{◌≡◌, ◌∷◌, [], map, true, string_bytes, IfOk};
ghost use Rattle.explain_diagnostics.specs.Shown.{Appends};
ghost use Rattle.messages.specs.Marked.{is_marked, says_unchecked};
ghost use Rattle.messages.specs.Written.{IsSentence, WritesByte, cut_name, impl_line_of, own_line_text, piece_words, sentence_text};

use crate::names::Name;
use explain_diagnostics::{OwnLine, TYPE_LIMIT, TextWriter};
use std::alloc::{AllocError, Global};
use std::slice::Iter;

/// A part that is put into a sentence.
#[derive(Clone, Copy)]
pub enum Piece<'t> {
    Text(&'t str),
    /// A name of the text.
    Name(Name<'t>),
    Number(usize),
    /// A line of the text, with its file if that is not the last one.
    Line(OwnLine<'t>),
    /// A trait reference, by its self type and its bound.
    Reference(&'t str, &'t str),
    /// An impl of the text, by its line.
    ImplAtLine(OwnLine<'t>),
    /// An impl of `core`, by its number there.
    ImplOfCore(u32),
}

/// A sentence: a template, and the parts that replace its `{}`, in order.
#[derive(Clone, Copy)]
pub struct Sentence<'t> {
    template: &'static str,
    pieces: [Piece<'t>; 4],
}

/// The part for a `{}` that has none.
pub const NONE: Piece<'static> = Piece::Text("");

/// A sentence without parts.
pub fn plain(template: &'static str) -> Sentence<'static>
    ensures marks { is_marked result ≡ says_unchecked template.now }
    ensures says { IsSentence result template.now ([] ∷ [] ∷ [] ∷ [] ∷ []) }
{
    Sentence {
        template,
        pieces: [NONE, NONE, NONE, NONE],
    }
}

/// A sentence with one part.
pub fn with_one<'t>(template: &'static str, first: Piece<'t>) -> Sentence<'t>
    ensures marks { is_marked result ≡ says_unchecked template.now }
    ensures says { IsSentence result template.now (piece_words first.entry ∷ [] ∷ [] ∷ [] ∷ []) }
{
    Sentence {
        template,
        pieces: [first, NONE, NONE, NONE],
    }
}

/// A sentence with two parts.
pub fn with_two<'t>(template: &'static str, first: Piece<'t>, second: Piece<'t>) -> Sentence<'t>
    ensures marks { is_marked result ≡ says_unchecked template.now }
    ensures says { IsSentence result template.now (piece_words first.entry ∷ piece_words second.entry ∷ [] ∷ [] ∷ []) }
{
    Sentence {
        template,
        pieces: [first, second, NONE, NONE],
    }
}

/// A sentence with three parts.
pub fn with_three<'t>(
    template: &'static str,
    first: Piece<'t>,
    second: Piece<'t>,
    third: Piece<'t>,
) -> Sentence<'t>
    ensures marks { is_marked result ≡ says_unchecked template.now }
    ensures says { IsSentence result template.now (piece_words first.entry ∷ piece_words second.entry ∷ piece_words third.entry ∷ [] ∷ []) }
{
    Sentence {
        template,
        pieces: [first, second, third, NONE],
    }
}

/// A sentence with four parts.
pub fn with_four<'t>(template: &'static str, pieces: [Piece<'t>; 4]) -> Sentence<'t>
    ensures marks { is_marked result ≡ says_unchecked template.now }
    ensures says { IsSentence result template.now (map piece_words pieces.entry) }
{
    Sentence { template, pieces }
}

/// Appends a name, cut if it is long.
fn push_name(out: &mut TextWriter, name: &[u8])
    ensures { Appends out.old out.new (cut_name name.now) }
{
    if name.len() <= TYPE_LIMIT {
        out.push_shown(name);
    } else {
        out.push_shown(&name[..TYPE_LIMIT]);
        out.push_str("..");
    }
}

/// Appends a line as it counts in its own file, with the name of that if it is not the last one.
fn push_own_line(out: &mut TextWriter, own: OwnLine<'_>)
    ensures { Appends out.old out.new (own_line_text own.entry) }
{
    out.push_number("", own.number as usize);
    if !own.is_last {
        out.push_str(" of ");
        out.push_shown(own.name.as_bytes());
    }
}

/// Appends a part.
fn push_piece(out: &mut TextWriter, piece: Piece<'_>)
    ensures { Appends out.old out.new (piece_words piece.entry) }
{
    match piece {
        Piece::Text(text) => out.push_str(text),
        Piece::Name(name) => push_name(out, name.bytes),
        Piece::Number(number) => out.push_number("", number),
        Piece::Line(own) => push_own_line(out, own),
        Piece::Reference(subject, bound) => {
            out.push_str(subject);
            out.push_str(": ");
            out.push_str(bound);
        }
        Piece::ImplAtLine(own) => {
            out.push_str("impl at line ");
            push_own_line(out, own);
        }
        Piece::ImplOfCore(number) => {
            out.push_number("impl ", number as usize);
            out.push_str(" of `core`");
        }
    }
}

/// Appends what a byte of the fixed words stands for: the next part in place of `{}`, and else the byte.
fn push_at(out: &mut TextWriter, byte: u8, pieces: &mut Iter<'_, Piece<'_>>)
    ensures { WritesByte out.old out.new byte pieces.old pieces.new }
{
    if byte == b'{' {
        if let Some(piece) = pieces.next() {
            push_piece(out, *piece);
        }
    } else if byte != b'}' {
        out.push_byte(byte);
    }
}

/// Appends a sentence.
fn push_sentence(out: &mut TextWriter, sentence: Sentence<'_>)
    ensures { Appends out.old out.new (sentence_text sentence.entry) }
{
    let mut pieces = sentence.pieces.iter();
    let template = sentence.template.as_bytes();
    for byte in template {
        push_at(out, *byte, &mut pieces);
    }
}

/// The line of the impl that a sentence speaks of first, if that is what it speaks of.
pub(crate) fn impl_line_in(sentence: Sentence<'_>) -> Option<u32>
    ensures { result ≡ impl_line_of sentence.entry }
{
    match sentence.pieces {
        [Piece::ImplAtLine(own), ..] => Some(own.line),
        _ => None,
    }
}

/// A sentence as text. Fails only if memory is refused.
#[tactic(auto, using(crate::proofs::MarkedTexts::marked_written))]
pub fn sentence_text(alloc: Global, sentence: Sentence<'_>) -> Result<String, AllocError>
    ensures text { IfOk result (λ t. string_bytes t ≡ sentence_text sentence.entry) }
    ensures marked { is_marked sentence.entry ≡ true → IfOk result (λ t. says_unchecked (string_bytes t) ≡ true) }
{
    let mut out = TextWriter::new(alloc);
    push_sentence(&mut out, sentence);
    out.finish()
}
