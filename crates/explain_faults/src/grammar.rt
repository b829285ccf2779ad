//! The grammar of lines as a table, by which a faulty line is read: what each token is used as, and the first token at which no line can
//! go on, with what could stand there. That a line has a fault is said by the answer, and no more is claimed of this reading.

use explain_diagnostics::{Place, text_of, token_places};
use std::alloc::{AllocError, Global};
use text_lines::{Token, tokens};

/// Each way in which a part of a line is written, behind the name of the part: the statements of docs/FORMAT.md.
///
/// A part begins with a capital letter. `@` stands before what a name is used as, `'` before what a lifetime, `?` a variable, `#` a number
/// and `%` a primitive type; any other symbol is the token itself. A way begins with a token, or with `Type`, or is empty: then the part may
/// be left out. The rows are texts, since the prover reads a table of lists slowly.
static GRAMMAR: [&str; 113] = [
    "Line crate @own Uses",
    "Line fundamental Fundamental",
    "Line struct @own Params Fields",
    "Line auto trait @own Params Bounds Types",
    "Line trait @own Params Bounds Types",
    "Line impl Params @trait Args for Type Where Given",
    "Line prove in @crate Params Type : @trait BoundArgs MoreAsked",
    "Line refute in @crate Params Type : @trait BoundArgs MoreClauses",
    "Line later @crate",
    "Line supers in @crate",
    "Fundamental struct @own Params Fields",
    "Fundamental auto trait @own Params Bounds Types",
    "Fundamental trait @own Params Bounds Types",
    "Uses uses @crate MoreUses",
    "Uses",
    "MoreUses , @crate MoreUses",
    "MoreUses",
    "Fields ( Type MoreFields",
    "Fields",
    "MoreFields , Type MoreFields",
    "MoreFields )",
    "Bounds : @trait BoundArgs MoreBounds",
    "Bounds",
    "MoreBounds + @trait BoundArgs MoreBounds",
    "MoreBounds",
    "Types { type @item ; MoreTypes",
    "Types",
    "MoreTypes type @item ; MoreTypes",
    "MoreTypes }",
    "MoreAsked , Type : @trait BoundArgs MoreAsked",
    "MoreAsked where Type : @trait BoundArgs MoreClauses",
    "MoreAsked",
    "Where where Type : @trait BoundArgs MoreClauses",
    "Where",
    "MoreClauses , Type : @trait BoundArgs MoreClauses",
    "MoreClauses",
    "Given { type @given = Type ; MoreGiven",
    "Given",
    "MoreGiven type @given = Type ; MoreGiven",
    "MoreGiven }",
    "Params < Param",
    "Params",
    "Param 'param BehindLifetime",
    "Param @param BehindType",
    "Param const @const BehindConst",
    "BehindLifetime , Param",
    "BehindLifetime >",
    "BehindType , NoLifetime",
    "BehindType >",
    "NoLifetime @param BehindType",
    "NoLifetime const @const BehindConst",
    "BehindConst , const @const BehindConst",
    "BehindConst >",
    "Args < Arg MoreArgs",
    "Args",
    "MoreArgs , Arg MoreArgs",
    "MoreArgs >",
    "Arg 'used",
    "Arg #argument",
    "Arg Type",
    "BoundArgs < BoundArg",
    "BoundArgs",
    "BoundArg 'used MoreBoundArgs",
    "BoundArg #argument MoreBoundArgs",
    "BoundArg @type BehindName",
    "BoundArg Type MoreBoundArgs",
    "BehindName < Arg MoreArgs MoreBoundArgs",
    "BehindName = Type MoreBindings",
    "BehindName MoreBoundArgs",
    "MoreBoundArgs , BoundArg",
    "MoreBoundArgs >",
    "MoreBindings , @binding = Type MoreBindings",
    "MoreBindings >",
    "Type %primitive",
    "Type !",
    "Type ?variable",
    "Type @type Args",
    "Type & Target",
    "Type * Pointer",
    "Type [ Type Brackets",
    "Type ( Tuple",
    "Type for < 'binder MoreBinders fn ( Inputs",
    "Type fn ( Inputs",
    "Type dyn Item MoreItems",
    "Target 'used Unnamed",
    "Target mut Type",
    "Target Type",
    "Unnamed mut Type",
    "Unnamed Type",
    "Pointer const Type",
    "Pointer mut Type",
    "Brackets ]",
    "Brackets ; Length ]",
    "Length #length",
    "Length @length",
    "Length ?length",
    "Tuple )",
    "Tuple Type , Second",
    "Second )",
    "Second Type MoreFields",
    "Inputs ) Output",
    "Inputs Type MoreInputs",
    "MoreInputs , Type MoreInputs",
    "MoreInputs ) Output",
    "Output -> Type",
    "Output",
    "Item 'item",
    "Item @bound Args",
    "Item for < 'binder MoreBinders @bound Args",
    "MoreItems + Item MoreItems",
    "MoreItems",
    "MoreBinders , 'binder MoreBinders",
    "MoreBinders >",
];

/// What stands behind the last token of a line.
pub(crate) const END: &str = "End";

/// A token of a line.
#[derive(Clone, Copy)]
pub(crate) struct Word<'t> {
    pub place: Place,
    /// As it is written; empty behind the last one.
    pub text: &'t [u8],
    /// The sign of a name, a lifetime, a variable, a number or a primitive type in the grammar; a space for others.
    pub class: u8,
    /// What it is used as: a symbol of the grammar. Empty from the first token on at which no line can go on.
    pub used_as: &'static str,
}

impl Word<'_> {
    /// Whether it declares a name or a lifetime in its line.
    pub(crate) fn declares(self) -> bool {
        matches!(
            self.used_as,
            "@own" | "@param" | "@const" | "'param" | "'binder"
        )
    }

    /// Whether it is the name of a type of a trait.
    pub(crate) fn is_type_name(self) -> bool {
        matches!(self.used_as, "@item" | "@given" | "@binding")
    }

    /// Whether it uses a name or a lifetime.
    pub(crate) fn uses(self) -> bool {
        matches!(self.class, b'@' | b'\'') && !self.declares() && !self.is_type_name()
    }
}

/// A line as the grammar has it.
pub(crate) struct LineWords<'t> {
    /// Its tokens, and behind them one that is empty.
    pub words: Vec<Word<'t>>,
    /// What could stand where no line can go on, if there is such a token.
    pub expected: Vec<&'static str>,
    /// How many tokens stand before that one.
    pub read: usize,
}

// Hand-written so that the prover sees one drop call: docs/PROVING.md#drop.
impl Drop for LineWords<'_> {
    fn drop(self) {
        let LineWords {
            words: _,
            expected: _,
            read: _,
        } = self;
    }
}

/// The sign of a token's class.
fn class_of(alloc: Global, text: &[u8]) -> Result<u8, AllocError> {
    let Some(found) = tokens(alloc, text)? else {
        return Ok(b' ');
    };
    Ok(match found.first() {
        Some(Token::Name(_)) => b'@',
        Some(Token::Lifetime(_)) => b'\'',
        Some(Token::Variable(_)) => b'?',
        Some(Token::Number(_)) => b'#',
        Some(Token::Primitive(_)) => b'%',
        _ => b' ',
    })
}

/// Whether a symbol is a part, and no token.
fn is_part(symbol: &str) -> bool {
    symbol
        .as_bytes()
        .first()
        .is_some_and(|byte| byte.is_ascii_uppercase())
}

/// Whether a token can stand where a symbol does.
fn is_symbol(word: Word<'_>, symbol: &str) -> bool {
    symbol.as_bytes() == word.text || symbol.as_bytes().first() == Some(&word.class)
}

/// The first symbol of some, and the others.
pub(crate) fn first_symbol(symbols: &str) -> (&str, &str) {
    match symbols.split_once(' ') {
        Some(parts) => parts,
        None => (symbols, ""),
    }
}

/// The way in which a part goes on with a token, or else the one that says nothing of the token, if there is one.
fn way_with(part: &str, word: Word<'_>) -> Option<&'static str> {
    let mut other = None;
    for row in &GRAMMAR {
        let (name, symbols) = first_symbol(row);
        if name == part {
            let (first, _) = first_symbol(symbols);
            if first.is_empty() || is_part(first) {
                other = Some(symbols);
            } else if is_symbol(word, first) {
                return Some(symbols);
            }
        }
    }
    other
}

/// How a symbol that is awaited takes a token.
#[derive(Clone, Copy)]
enum Taken {
    /// It is used as this.
    As(&'static str),
    /// The token is still to be read.
    Not,
    /// No line can go on so.
    Refused,
}

/// A line that is being read.
#[derive(Drop)]
struct Reading {
    /// What is to come: symbols, the next ones last.
    awaited: Vec<&'static str>,
    /// What could have stood where the last token does, as far as it was asked for.
    expected: Vec<&'static str>,
}

impl Reading {
    /// Awaits symbols next.
    fn wait_for(&mut self, symbols: &'static str) -> Result<(), AllocError> {
        if !symbols.is_empty() {
            self.awaited.push(symbols)?;
        }
        Ok(())
    }

    /// Keeps in mind what a part may begin with: a type and a line by their names.
    fn expect(&mut self, part: &'static str) -> Result<(), AllocError> {
        if part == "Type" || part == "Line" {
            self.expected.push(part)?;
            return Ok(());
        }
        for row in &GRAMMAR {
            let (name, symbols) = first_symbol(row);
            let (first, _) = first_symbol(symbols);
            // A name as an argument of a bound is a type.
            if name == part && !first.is_empty() && !is_part(first) && first != "@type" {
                self.expected.push(first)?;
            }
        }
        Ok(())
    }

    /// Reads a token where a part is awaited.
    fn read_part(&mut self, part: &'static str, word: Word<'_>) -> Result<Taken, AllocError> {
        let Some(symbols) = way_with(part, word) else {
            self.expect(part)?;
            return Ok(Taken::Refused);
        };
        let (first, rest) = first_symbol(symbols);
        if first.is_empty() || is_part(first) {
            self.expect(part)?;
            self.wait_for(symbols)?;
            return Ok(Taken::Not);
        }
        self.wait_for(rest)?;
        Ok(Taken::As(first))
    }

    /// Reads a token where a symbol is awaited.
    fn read_symbol(&mut self, symbol: &'static str, word: Word<'_>) -> Result<Taken, AllocError> {
        if is_part(symbol) {
            return self.read_part(symbol, word);
        }
        if is_symbol(word, symbol) {
            return Ok(Taken::As(symbol));
        }
        self.expected.push(symbol)?;
        Ok(Taken::Refused)
    }

    /// Reads a token; what it is used as, if a line can go on so.
    fn read(&mut self, word: Word<'_>) -> Result<Option<&'static str>, AllocError> {
        self.expected.clear();
        // Of what is awaited some is left out, nine symbols each at most, and one begins with a type, which is not left out.
        for _ in 0..self.awaited.len().saturating_mul(9).saturating_add(2) {
            let Some(symbols) = self.awaited.pop() else {
                break;
            };
            let (symbol, rest) = first_symbol(symbols);
            self.wait_for(rest)?;
            match self.read_symbol(symbol, word)? {
                Taken::As(symbol) => return Ok(Some(symbol)),
                Taken::Refused => return Ok(None),
                Taken::Not => {}
            }
        }
        self.expected.push(END)?;
        Ok(None)
    }

    /// What could have stood where the last token does.
    fn into_expected(self) -> Vec<&'static str> {
        let Reading {
            awaited: _,
            expected,
        } = self;
        expected
    }
}

/// How many tokens of a line are read at most.
const WORD_LIMIT: usize = 4096;

/// The tokens of a line, and behind them one that is empty; none of a line that has very many.
fn words_of(alloc: Global, line: &[u8]) -> Result<Vec<Word<'_>>, AllocError> {
    let mut words = Vec::new(alloc);
    let places = token_places(alloc, line)?;
    if places.len() > WORD_LIMIT {
        return Ok(words);
    }
    for place in &places {
        let text = text_of(line, *place);
        words.push(Word {
            place: *place,
            text,
            class: class_of(alloc, text)?,
            used_as: "",
        })?;
    }
    words.push(Word {
        place: Place {
            start: line.len(),
            end: line.len(),
        },
        text: &[],
        class: b' ',
        used_as: "",
    })?;
    Ok(words)
}

/// Says of the first binding of each bound that its name is that of a type of a trait: before `=` is read, it may be a type.
fn mark_bindings(words: &mut [Word<'_>]) {
    for at in 0..words.len() {
        let is_bound = matches!(words.get(at.saturating_add(1)), Some(next) if next.used_as == "=");
        if let Some(word) = words.get_mut(at)
            && is_bound
            && word.used_as == "@type"
        {
            word.used_as = "@binding";
        }
    }
}

/// Reads a line as far as the grammar goes.
pub(crate) fn read_words(alloc: Global, line: &[u8]) -> Result<LineWords<'_>, AllocError> {
    let mut words = words_of(alloc, line)?;
    let mut reading = Reading {
        awaited: vec![in alloc; "Line"]?,
        expected: Vec::new(alloc),
    };
    let mut read = 0usize;
    for word in words.iter_mut() {
        match reading.read(*word)? {
            Some(symbol) => word.used_as = symbol,
            None => break,
        }
        read = read.saturating_add(1);
    }
    mark_bindings(&mut words);
    let expected = reading.into_expected();
    Ok(LineWords {
        words,
        expected,
        read,
    })
}
