//! A line as words and signs.
ghost use Rattle.std.specs.Prelude.{◌≡◌, IsTrue, length, drop, take_while, IfOk};
ghost use Rattle.std.specs.Option.{option_map};
ghost use Rattle.std.specs.List.{list_all};
ghost use Rattle.text_language.specs.Words.{keyword_named, primitive_named, is_digit, is_word_byte, sign_at};
ghost use Rattle.text_language.specs.Tokens.{word_token, as_lifetime, as_variable, tokens_of};
ghost use Rattle.text_lines.specs.TokenViews.{keyword_of, primitive_label, sign_of, token_of, tokens_in};
ghost use Rattle.text_lines.specs.TokenReading.{IsUnreserved, of_word, itself, arrow_at, lone_sign, token_at};

use std::alloc::{AllocError, Global};

/// A reserved word other than the primitive types.
#[derive(Clone, Copy)]
pub enum Keyword {
    Crate,
    Uses,
    Fundamental,
    Struct,
    Auto,
    Trait,
    Impl,
    For,
    Where,
    Prove,
    Refute,
    In,
    Later,
    Supers,
    Mut,
    Const,
    Fn,
    Dyn,
    Type,
}

/// A primitive type.
#[derive(Clone, Copy)]
pub enum Primitive {
    Bool,
    Char,
    Str,
    I8,
    I16,
    I32,
    I64,
    I128,
    Isize,
    U8,
    U16,
    U32,
    U64,
    U128,
    Usize,
}

/// Each keyword with its word.
const KEYWORDS: [(&[u8], Keyword); 19] = [
    (b"crate", Keyword::Crate),
    (b"uses", Keyword::Uses),
    (b"fundamental", Keyword::Fundamental),
    (b"struct", Keyword::Struct),
    (b"auto", Keyword::Auto),
    (b"trait", Keyword::Trait),
    (b"impl", Keyword::Impl),
    (b"for", Keyword::For),
    (b"where", Keyword::Where),
    (b"prove", Keyword::Prove),
    (b"refute", Keyword::Refute),
    (b"in", Keyword::In),
    (b"later", Keyword::Later),
    (b"supers", Keyword::Supers),
    (b"mut", Keyword::Mut),
    (b"const", Keyword::Const),
    (b"fn", Keyword::Fn),
    (b"dyn", Keyword::Dyn),
    (b"type", Keyword::Type),
];

/// The keyword with this spelling.
fn keyword_named(word: &[u8]) -> Option<Keyword>
    ensures { option_map keyword_of result ≡ keyword_named word.now }
{
    for (text, keyword) in &KEYWORDS {
        if word == *text {
            return Some(*keyword);
        }
    }
    None
}

/// Each primitive type with its name.
const PRIMITIVES: [(&[u8], Primitive); 15] = [
    (b"bool", Primitive::Bool),
    (b"char", Primitive::Char),
    (b"str", Primitive::Str),
    (b"i8", Primitive::I8),
    (b"i16", Primitive::I16),
    (b"i32", Primitive::I32),
    (b"i64", Primitive::I64),
    (b"i128", Primitive::I128),
    (b"isize", Primitive::Isize),
    (b"u8", Primitive::U8),
    (b"u16", Primitive::U16),
    (b"u32", Primitive::U32),
    (b"u64", Primitive::U64),
    (b"u128", Primitive::U128),
    (b"usize", Primitive::Usize),
];

/// The primitive type with this name.
fn primitive_named(word: &[u8]) -> Option<Primitive>
    ensures { option_map primitive_label result ≡ primitive_named word.now }
{
    for (name, primitive) in &PRIMITIVES {
        if word == *name {
            return Some(*primitive);
        }
    }
    None
}

/// Whether the first byte is before `a`, as in most names of structs and traits. Each reserved word begins with a small letter.
fn is_never_reserved(word: &[u8]) -> bool
    ensures { IsTrue result → IsUnreserved word.now }
{
    match word {
        [first, ..] => *first < b'a',
        [] => false,
    }
}

fn is_digit(b: u8) -> bool
    ensures { result ≡ is_digit b }
{
    b.is_ascii_digit()
}

fn is_word_byte(b: u8) -> bool
    ensures { result ≡ is_word_byte b }
{
    b.is_ascii_alphanumeric() || b == b'_'
}

/// The sign of this byte.
fn sign_at(b: u8) -> Option<Sign>
    ensures { option_map sign_of result ≡ sign_at b }
{
    match b {
        b'<' => Some(Sign::OpenAngle),
        b'>' => Some(Sign::CloseAngle),
        b'(' => Some(Sign::OpenRound),
        b')' => Some(Sign::CloseRound),
        b'[' => Some(Sign::OpenSquare),
        b']' => Some(Sign::CloseSquare),
        b',' => Some(Sign::Comma),
        b':' => Some(Sign::Colon),
        b';' => Some(Sign::Semicolon),
        b'&' => Some(Sign::Ampersand),
        b'*' => Some(Sign::Star),
        b'+' => Some(Sign::Plus),
        b'!' => Some(Sign::Exclamation),
        b'=' => Some(Sign::Equals),
        b'{' => Some(Sign::OpenBrace),
        b'}' => Some(Sign::CloseBrace),
        _ => None,
    }
}

/// The number of bytes of the word at the front.
fn word_len(bytes: &[u8]) -> usize
    ensures { result ≡ length (take_while is_word_byte bytes.now) }
{
    bytes.iter().take_while(|b| is_word_byte(**b)).count()
}

/// One of `< > ( ) [ ] , : ; & * + ! = { }`.
#[derive(Clone, Copy)]
pub enum Sign {
    OpenAngle,
    CloseAngle,
    OpenRound,
    CloseRound,
    OpenSquare,
    CloseSquare,
    Comma,
    Colon,
    Semicolon,
    Ampersand,
    Star,
    Plus,
    Exclamation,
    Equals,
    OpenBrace,
    CloseBrace,
}

/// A word, `'word`, `?word`, `->` or a sign. Words are borrowed from the line.
#[derive(Clone, Copy)]
pub enum Token<'a> {
    /// A reserved word other than the primitive types.
    Keyword(Keyword),
    Primitive(Primitive),
    /// A word that is not reserved and does not begin with a digit.
    Name(&'a [u8]),
    /// `'a`, without the `'`.
    Lifetime(&'a [u8]),
    /// `?x`, without the `?`.
    Variable(&'a [u8]),
    /// Decimal digits, however many there are: the number may exceed every limit.
    Number(&'a [u8]),
    Sign(Sign),
    /// `->`
    Arrow,
}

fn is_number(word: &[u8]) -> bool
    ensures { result ≡ list_all is_digit word.now }
{
    word.iter().all(|b| is_digit(*b))
}

fn word_token(word: &[u8]) -> Option<Token<'_>>
    ensures { option_map token_of result ≡ word_token word.now }
{
    if is_number(word) {
        return Some(Token::Number(word));
    }
    if word.first().is_some_and(|b| is_digit(*b)) {
        return None;
    }
    if is_never_reserved(word) {
        return Some(Token::Name(word));
    }
    if let Some(keyword) = keyword_named(word) {
        return Some(Token::Keyword(keyword));
    }
    if let Some(primitive) = primitive_named(word) {
        return Some(Token::Primitive(primitive));
    }
    Some(Token::Name(word))
}

/// `'word`, if the word is a name.
fn lifetime_token(word: &[u8]) -> Option<Token<'_>>
    ensures { option_map token_of result ≡ as_lifetime (word_token word.now) }
{
    match word_token(word) {
        Some(Token::Name(name)) => Some(Token::Lifetime(name)),
        _ => None,
    }
}

/// `?word`, if the word is a name.
fn variable_token(word: &[u8]) -> Option<Token<'_>>
    ensures { option_map token_of result ≡ as_variable (word_token word.now) }
{
    match word_token(word) {
        Some(Token::Name(name)) => Some(Token::Variable(name)),
        _ => None,
    }
}

/// The word at the front, and the bytes after it.
fn split_word(bytes: &[u8]) -> (&[u8], &[u8])
    ensures word { result.0.now ≡ take_while is_word_byte bytes.now }
    ensures after { result.1.now ≡ drop (length (take_while is_word_byte bytes.now)) bytes.now }
{
    bytes.split_at(word_len(bytes))
}

/// The token of the word at the front, and the bytes after it.
fn word_at(bytes: &[u8]) -> Option<(Token<'_>, &[u8])>
    ensures { option_map (λ x. (token_of x.0, x.1.now)) result ≡ of_word itself bytes.now }
{
    let (word, after) = split_word(bytes);
    match word_token(word) {
        Some(token) => Some((token, after)),
        None => None,
    }
}

fn lifetime_at(bytes: &[u8]) -> Option<(Token<'_>, &[u8])>
    ensures { option_map (λ x. (token_of x.0, x.1.now)) result ≡ of_word as_lifetime bytes.now }
{
    let (word, after) = split_word(bytes);
    match lifetime_token(word) {
        Some(token) => Some((token, after)),
        None => None,
    }
}

fn variable_at(bytes: &[u8]) -> Option<(Token<'_>, &[u8])>
    ensures { option_map (λ x. (token_of x.0, x.1.now)) result ≡ of_word as_variable bytes.now }
{
    let (word, after) = split_word(bytes);
    match variable_token(word) {
        Some(token) => Some((token, after)),
        None => None,
    }
}

/// What follows the `-` of an arrow.
fn arrow_at(bytes: &[u8]) -> Option<(Token<'_>, &[u8])>
    ensures { option_map (λ x. (token_of x.0, x.1.now)) result ≡ arrow_at bytes.now }
{
    match bytes {
        [b'>', rest @ ..] => Some((Token::Arrow, rest)),
        _ => None,
    }
}

/// The sign of a byte, and the bytes after it.
fn lone_sign(b: u8, rest: &[u8]) -> Option<(Token<'_>, &[u8])>
    ensures { option_map (λ x. (token_of x.0, x.1.now)) result ≡ lone_sign b rest.now }
{
    match sign_at(b) {
        Some(sign) => Some((Token::Sign(sign), rest)),
        None => None,
    }
}

/// The first token of bytes that do not begin with a space, and the bytes after it.
#[tactic(auto, unfolding(crate::specs::TokenReading::token_at))]
fn token_at(bytes: &[u8]) -> Option<(Token<'_>, &[u8])>
    ensures { option_map (λ x. (token_of x.0, x.1.now)) result ≡ token_at bytes.now }
{
    match bytes {
        [] => None,
        [first, rest @ ..] => {
            if is_word_byte(*first) {
                word_at(bytes)
            } else if *first == b'\'' {
                lifetime_at(rest)
            } else if *first == b'?' {
                variable_at(rest)
            } else if *first == b'-' {
                arrow_at(rest)
            } else {
                lone_sign(*first, rest)
            }
        }
    }
}

/// Room for the tokens of most lines, so that the list grows for long ones alone.
const TOKENS_EXPECTED: usize = 40;

/// The tokens of a line, from left to right. Returns `None` if something in it is no token: another byte, a `'`, `?` or `-` alone, or a
/// word that begins with a digit and has other characters. Fails only if memory is refused.
pub fn tokens(alloc: Global, line: &[u8]) -> Result<Option<Vec<Token<'_>>>, AllocError>
    ensures { IfOk result (λ found. option_map (λ v. tokens_in v.items) found ≡ tokens_of line.now) }
{
    let mut found = Vec::with_capacity(alloc, line.len().min(TOKENS_EXPECTED))?;
    let mut rest = line;
    while let [first, after_first @ ..] = rest {
        if *first == b' ' {
            rest = after_first;
        } else {
            match token_at(rest) {
                None => return Ok(None),
                Some((token, after)) => {
                    found.push(token)?;
                    rest = after;
                }
            }
        }
    }
    Ok(Some(found))
}
