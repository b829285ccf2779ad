//! The token that a fault is about.

use crate::grammar::{END, LineWords, Word, read_words};
use crate::hints::hint_for;
use crate::passed::tell_passed;
use crate::similar::{similar_name, similar_word};
use crate::sorts::tell_other_sort;
use crate::types::{tell_no_type, tell_twice, tell_types};
use explain_diagnostics::{SourceFile, Span, TextWriter, on_line, parts_of_impl};
use messages::{
    Piece, Telling, name_in, name_of, plain, whole_line, with_one, with_three, with_two,
};
use std::alloc::{AllocError, Global};
use text_lines::{Keyword, LineError, LineRead, Statement, Token, read_typed};
use text_names::FaultKind;
use text_parser::{LineForm, TEXT_LIMIT, TextFault, line_form};
use text_tables::{Known, Workspace};
use type_terms::CrateId;

/// A line that the grammar has.
#[derive(Drop)]
pub(crate) enum LineReading<'a> {
    Plain(LineRead<'a>),
    /// The tokens of a line with types.
    Typed(Vec<Token<'a>>),
}

/// What was read, if the grammar has it.
pub(crate) fn if_written<T>(read: Result<T, LineError>) -> Result<Option<T>, AllocError> {
    match read {
        Ok(found) => Ok(Some(found)),
        Err(LineError::Syntax) => Ok(None),
        Err(LineError::Memory) => Err(AllocError),
    }
}

/// Whether the tokens are those of a line with types.
fn is_typed(alloc: Global, found: &[Token<'_>]) -> Result<bool, AllocError> {
    let typed = if_written(read_typed(alloc, found))?;
    Ok(typed.is_some())
}

/// What a line says, if the grammar has it.
pub(crate) fn reading(alloc: Global, line: &[u8]) -> Result<Option<LineReading<'_>>, AllocError> {
    match line_form(alloc, line)? {
        LineForm::Read(read) => Ok(Some(LineReading::Plain(read))),
        LineForm::Typed(found) => {
            if is_typed(alloc, &found)? {
                Ok(Some(LineReading::Typed(found)))
            } else {
                Ok(None)
            }
        }
        LineForm::OtherByte | LineForm::Blank | LineForm::Unwritten => Ok(None),
    }
}

/// The trait that a line with types declares, if it does.
fn declared_trait<'a>(found: &[Token<'a>]) -> Option<&'a [u8]> {
    for two in found.windows(2) {
        if let [Token::Keyword(Keyword::Trait), Token::Name(name)] = two {
            return Some(*name);
        }
    }
    None
}

impl<'a> LineReading<'a> {
    /// The name that it declares, if it does.
    fn declared_name(&self) -> Option<&'a [u8]> {
        match self {
            LineReading::Plain(read) => read.statement.declared_name(),
            LineReading::Typed(found) => declared_trait(found),
        }
    }

    /// Whether it declares something in the crate or the section that is open.
    pub(crate) fn is_item(&self) -> bool {
        match self {
            LineReading::Plain(read) => {
                matches!(
                    read.statement,
                    Statement::Struct { .. } | Statement::Trait { .. } | Statement::Impl { .. }
                )
            }
            LineReading::Typed(found) => !matches!(
                found.first(),
                Some(Token::Keyword(Keyword::Prove | Keyword::Refute))
            ),
        }
    }

    /// Whether it begins a crate or a section.
    pub(crate) fn is_beginning(&self) -> bool {
        match self {
            LineReading::Plain(read) => {
                matches!(
                    read.statement,
                    Statement::Crate { .. } | Statement::Later { .. }
                )
            }
            LineReading::Typed(_) => false,
        }
    }
}

/// The span of one byte of a line.
fn byte_span(line: u32, at: usize) -> Span {
    Span {
        line,
        start: at,
        end: at.saturating_add(1),
    }
}

/// Marks a byte of 128 or more. Returns whether there is one.
fn tell_other_byte(line: u32, bytes: &[u8], telling: &mut Telling) -> bool {
    for (at, byte) in bytes.iter().enumerate() {
        if *byte >= 128 {
            let label = with_one("byte {}", Piece::Number(*byte as usize));
            telling.mark(byte_span(line, at), label);
            return true;
        }
    }
    false
}

/// Tells of the first byte too many of a text.
fn tell_long_text(file: &SourceFile<'_>, line: u32, telling: &mut Telling) -> bool {
    let at = TEXT_LIMIT.saturating_sub(file.line_start(line));
    let label = with_one("a text has {} bytes at most", Piece::Number(TEXT_LIMIT));
    telling.mark(byte_span(line, at), label);
    true
}

/// How a symbol of the grammar is called, where it is no token.
static CALLED: [(&str, &str); 19] = [
    (END, "the line's end"),
    ("Line", "the first word of a line"),
    ("Type", "a type"),
    ("@own", "a name"),
    ("@param", "a name"),
    ("@const", "a name"),
    ("@length", "a name"),
    ("@crate", "the name of a crate"),
    ("@trait", "the name of a trait"),
    ("@bound", "the name of a trait"),
    ("@item", "the name of a type"),
    ("@given", "the name of a type"),
    ("@binding", "the name of a type"),
    ("'param", "a lifetime"),
    ("'binder", "a lifetime"),
    ("'used", "a lifetime"),
    ("'item", "a lifetime"),
    ("#argument", "a number"),
    ("#length", "a number"),
];

/// Appends what a symbol of the grammar is called.
fn push_symbol(out: &mut TextWriter, symbol: &str) {
    for (name, called) in &CALLED {
        if *name == symbol {
            out.push_str(called);
            return;
        }
    }
    out.push_str("`");
    out.push_str(symbol);
    out.push_str("`");
}

/// What could stand at a place, in words.
fn expected_text(alloc: Global, expected: &[&str]) -> Result<String, AllocError> {
    let mut out = TextWriter::new(alloc);
    for (at, symbol) in expected.iter().enumerate() {
        if at > 0 {
            let is_last = at.saturating_add(1) == expected.len();
            out.push_str(if is_last { " or " } else { ", " });
        }
        push_symbol(&mut out, symbol);
    }
    out.finish()
}

/// Tells of the first token at which no line can go on, and whether there is one.
fn tell_unwritten(number: u32, line: &LineWords<'_>, telling: &mut Telling) -> bool {
    let alloc = telling.alloc();
    let Some(word) = line.words.get(line.read) else {
        return false;
    };
    if let Some(expected) = telling.granted(expected_text(alloc, &line.expected)) {
        let label = with_one("expected {}", Piece::Text(expected.as_str()));
        telling.mark(on_line(number, word.place), label);
    }
    if let Some(advice) = hint_for(line) {
        telling.help(with_one("{}", Piece::Text(advice)));
    } else if let Some(Some(similar)) = telling.granted(similar_word(alloc, word.text)) {
        telling.help(with_one("a similar word is `{}`", Piece::Name(similar)));
    }
    true
}

/// Tells of an item that no crate may have there.
fn tell_misplaced(
    file: &SourceFile<'_>,
    line: u32,
    above: Option<&Workspace>,
    telling: &mut Telling,
) -> bool {
    let (label, help) = match above {
        Some(above) if above.tables().is_in_section() => (
            "a later version adds impls alone here",
            "declare it in the crate itself, above the section",
        ),
        _ => (
            "no `crate` line stands above",
            "begin a crate above it: `crate NAME`",
        ),
    };
    telling.mark(on_line(line, whole_line(file.line(line))), plain(label));
    telling.help(plain(help));
    true
}

/// A faulty line that the grammar has, and what the lines above it give.
#[derive(Clone, Copy)]
pub(crate) struct Faulty<'t> {
    pub file: &'t SourceFile<'t>,
    pub number: u32,
    /// Its tokens, and behind them one that is empty.
    pub words: &'t [Word<'t>],
    pub workspace: &'t Workspace,
}

impl<'t> Faulty<'t> {
    /// The span of a token.
    pub(crate) fn span(self, word: Word<'_>) -> Span {
        on_line(self.number, word.place)
    }

    /// Whether the list that a token opens are the fields of a struct: the first one in round brackets.
    pub(crate) fn has_fields_at(self, at: usize) -> bool {
        let mut is_struct = false;
        for word in self.words.iter().take(at) {
            match word.text {
                b"struct" => is_struct = true,
                b"(" => return false,
                _ => {}
            }
        }
        is_struct
    }

    /// The first token that declares a name, or a lifetime, that is written so.
    pub(crate) fn declaring(self, text: &[u8]) -> Option<Word<'t>> {
        for word in self.words {
            if word.declares() && word.text == text {
                return Some(*word);
            }
        }
        None
    }
}

/// What a name stands for in `core` or in the lines above, in a word.
pub(crate) fn kind_of(known: Known<'_>) -> &'static str {
    match known {
        Known::Crate(_) => "crate",
        Known::Struct { .. } => "struct",
        Known::Trait { .. } => "trait",
    }
}

/// Marks a declared name that is taken. Returns whether there is one.
fn tell_taken(line: Faulty<'_>, telling: &mut Telling) -> bool {
    for word in line.words {
        if !word.declares() {
            continue;
        }
        if let Some(known) = line.workspace.known(word.text) {
            let kind = Piece::Text(kind_of(known));
            telling.mark(
                line.span(*word),
                with_one("the name of a {} above, or in `core`", kind),
            );
            return true;
        }
        if word.text == b"'static".as_slice() {
            telling.mark(line.span(*word), plain("`'static` needs no declaration"));
            return true;
        }
        if let Some(first) = line.declaring(word.text)
            && first.place.start < word.place.start
        {
            telling.mark(line.span(*word), plain("declared twice in this line"));
            telling.mark_beside(line.span(first), plain(""));
            return true;
        }
    }
    tell_twice(line, telling)
}

/// What to write for a name or a lifetime of Rust that is not known.
static WRITTEN: [(&[&str], &str); 8] = [
    (
        &["_"],
        "an unknown type is written `?x`, in what a question asks",
    ),
    (&["'_"], "leave it out: an omitted lifetime is `'static`"),
    (
        &["Self"],
        "write the type itself; the bounds of a trait cannot name it",
    ),
    (
        &["f32", "f64"],
        "declare `struct {}`: it is no primitive type here",
    ),
    (
        &[
            "Vec",
            "Rc",
            "Arc",
            "Option",
            "Cell",
            "RefCell",
            "Mutex",
            "PhantomData",
        ],
        "declare what the text speaks of, as `struct {}<T>(*const T)`, or read texts/std.txt before it: `--with texts/std.txt`",
    ),
    (
        &["String", "Path", "PathBuf", "OsString"],
        "declare `struct {}`, or read texts/std.txt before it: `--with texts/std.txt`",
    ),
    (
        &["Send", "Sync"],
        "declare `auto trait {}`; Rust's is another for `&T` and raw pointers: see `Send and Sync` in docs/FORMAT.md",
    ),
    (
        &[
            "Display",
            "Debug",
            "Default",
            "Iterator",
            "From",
            "Into",
            "Hash",
            "Eq",
            "PartialEq",
            "Ord",
            "Error",
        ],
        "declare the trait, or read texts/std.txt before it: `--with texts/std.txt`",
    ),
];

/// What to write for a name or a lifetime of Rust; none where that is not known. A capital letter is a parameter.
fn written_for(text: &[u8]) -> Option<&'static str> {
    for (names, advice) in &WRITTEN {
        for name in *names {
            if name.as_bytes() == text {
                return Some(*advice);
            }
        }
    }
    match text {
        [b'A'..=b'Z'] => Some("declare a parameter behind the first word of the line: `<{}>`"),
        _ => None,
    }
}

/// The first line behind one, before another, that declares a name, if there is one.
fn line_declaring(
    alloc: Global,
    file: &SourceFile<'_>,
    behind: u32,
    before: u32,
    name: &[u8],
) -> Result<Option<u32>, AllocError> {
    for above in behind..before {
        let number = above.saturating_add(1);
        if let Some(read) = reading(alloc, file.line(number))? {
            if read.declared_name() == Some(name) {
                return Ok(Some(number));
            }
        }
    }
    Ok(None)
}

/// Marks the line that declares a name beside what is marked.
pub(crate) fn mark_declaration(line: Faulty<'_>, word: Word<'_>, telling: &mut Telling) {
    let declared = line_declaring(telling.alloc(), line.file, 0, line.number, word.text);
    if let Some(Some(number)) = telling.granted(declared) {
        let whole = whole_line(line.file.line(number));
        telling.mark_beside(on_line(number, whole), plain(""));
    }
}

/// Tells what to do about a name or a lifetime that is not known.
fn tell_known(line: Faulty<'_>, name: &[u8], telling: &mut Telling) {
    let alloc = telling.alloc();
    let shown = Piece::Name(name_of(name));
    let end = u32::try_from(line.file.count_lines()).unwrap_or(0);
    let below = line_declaring(alloc, line.file, line.number, end, name);
    if let Some(Some(below)) = telling.granted(below) {
        telling.help(with_two(
            "`{}` is declared in line {}: a name is known from the line behind its own, so move that up",
            shown,
            Piece::Line(line.file.own_line(below)),
        ));
    } else if let Some(advice) = written_for(name) {
        telling.help(with_one(advice, shown));
    } else if let Some(Some(other)) = telling.granted(similar_name(alloc, line.workspace, name)) {
        telling.help(with_one(
            "a struct or trait with a similar name is known: `{}`",
            Piece::Name(other),
        ));
    }
}

/// Marks a name or a lifetime that is not declared. Returns whether there is one.
fn tell_unknown(line: Faulty<'_>, telling: &mut Telling) -> bool {
    for word in line.words {
        let is_lifetime = word.class == b'\'';
        if word.uses()
            && line.declaring(word.text).is_none()
            && line.workspace.known(word.text).is_none()
            && word.text != b"'static".as_slice()
        {
            let label = if is_lifetime {
                "the lifetime `{}` is not declared in this line"
            } else {
                "`{}` is not known here"
            };
            let shown = Piece::Name(name_of(word.text));
            telling.mark(line.span(*word), with_one(label, shown));
            tell_known(line, word.text, telling);
            return true;
        }
    }
    tell_no_type(line, telling)
}

/// The crate to which a line belongs: that of the last section or crate that begins above it. For a query the crate that it names.
fn seeing_crate(line: Faulty<'_>) -> CrateId {
    let above = line.workspace.tables();
    for word in line.words {
        if word.used_as == "@crate"
            && let Some(asking) = above.crate_named(word.text)
        {
            return asking;
        }
    }
    above.impl_owner()
}

/// Adds which crate declares a struct or trait that another crate does not see.
fn tell_owner(
    line: Faulty<'_>,
    seeing: CrateId,
    owner: CrateId,
    word: Word<'_>,
    telling: &mut Telling,
) {
    let shown = Piece::Name(name_of(word.text));
    let home = Piece::Name(name_in(line.workspace, owner));
    telling.mark(
        line.span(word),
        with_two("`{}` is of crate `{}`", shown, home),
    );
    if owner.index < seeing.index {
        let own = Piece::Name(name_in(line.workspace, seeing));
        telling.help(with_three("let crate `{}` use it: `crate {} uses {}`", own, own, home));
    }
}

/// Marks a struct or trait that the crate of a line does not see. Returns whether there is one.
fn tell_hidden(line: Faulty<'_>, telling: &mut Telling) -> bool {
    let seeing = seeing_crate(line);
    if seeing.index as usize >= line.workspace.crates().len() {
        return false;
    }
    for word in line.words {
        if !word.uses() || line.declaring(word.text).is_some() {
            continue;
        }
        let owner = match line.workspace.known(word.text) {
            Some(Known::Struct { owner, .. }) => owner,
            Some(Known::Trait { owner, .. }) => owner,
            _ => continue,
        };
        if !line.workspace.sees(seeing, owner) {
            tell_owner(line, seeing, owner, *word, telling);
            return true;
        }
    }
    false
}

/// What is wrong with an item of a `dyn`, between the tokens around it.
fn item_fault(
    line: Faulty<'_>,
    before: Word<'_>,
    word: Word<'_>,
    behind: Word<'_>,
) -> &'static str {
    let is_auto = match line.workspace.known(word.text) {
        Some(Known::Trait { is_auto, .. }) => is_auto,
        _ => false,
    };
    let is_bound = word.used_as == "@bound";
    if is_bound && !is_auto && before.text == b"+".as_slice() {
        "`{}` is no auto trait: a `dyn` has one such trait at most, and that stands first"
    } else if is_bound && is_auto && before.text == b">".as_slice() {
        "no `for<..>` stands before an auto trait"
    } else if word.used_as == "'item" && behind.text == b"+".as_slice() {
        "the lifetime of a `dyn` stands last"
    } else if word.used_as == "'item" && before.text == b"dyn".as_slice() {
        "a `dyn` has a trait"
    } else {
        ""
    }
}

/// Whether a parameter is left out of the header of its impl.
fn is_free(line: Faulty<'_>, param: Word<'_>) -> bool {
    for word in line.words {
        if matches!(word.text, b"where" | b"{") {
            break;
        }
        if word.uses() && word.text == param.text {
            return false;
        }
    }
    param.used_as == "@param" || param.used_as == "@const"
}

/// Whether a variable stands outside what is asked, or for two kinds.
fn is_stray(line: Faulty<'_>, variable: Word<'_>) -> bool {
    let mut is_stray = true;
    for word in line.words {
        match word.text {
            b"prove" | b"refute" => is_stray = false,
            b"where" if word.place.start < variable.place.start => return true,
            text if text == variable.text && word.used_as != variable.used_as => return true,
            _ => {}
        }
    }
    is_stray
}

/// What is said of a token, between those around it, in a line with a fault of this kind; nothing where the fault is not about it.
fn said_of(
    line: Faulty<'_>,
    kind: FaultKind,
    before: Word<'_>,
    word: Word<'_>,
    behind: Word<'_>,
) -> &'static str {
    match kind {
        FaultKind::FreeParam if is_free(line, word) => "`{}` is not in the header",
        FaultKind::OwnBound if word.uses() && line.declaring(word.text).is_some() =>
            "the trait itself",
        FaultKind::LoadedAuto if word.used_as == "@item" => "an auto trait has no types",
        FaultKind::LoadedAuto if before.used_as == "@own" && word.used_as != "{" =>
            "an auto trait has none",
        FaultKind::BuiltIn if word.used_as == "@trait" => "an impl of `{}` cannot be written",
        FaultKind::StrayVariable if word.class == b'?' && is_stray(line, word) =>
            "`{}` is a variable",
        FaultKind::RefutesParams if word.declares() => "`{}` is a parameter",
        FaultKind::BadDyn => item_fault(line, before, word, behind),
        _ => "",
    }
}

/// Tells of the first token of a line that a fault of this kind is about, and whether there is one.
fn tell_word(line: Faulty<'_>, kind: FaultKind, telling: &mut Telling) -> bool {
    for three in line.words.windows(3) {
        if let [before, word, behind] = three {
            let said = said_of(line, kind, *before, *word, *behind);
            if !said.is_empty() {
                let shown = Piece::Name(name_of(word.text));
                telling.mark(line.span(*word), with_one(said, shown));
                return true;
            }
        }
    }
    false
}

/// A line up to the types that an impl gives.
fn before_types(line: Faulty<'_>) -> &[u8] {
    let whole = line.file.line(line.number);
    let end = whole.iter().take_while(|byte| **byte != b'{').count();
    whole.get(..end).unwrap_or(whole)
}

/// Tells of the type for which an auto trait is implemented, and whether it is found.
fn tell_foreign_auto(line: Faulty<'_>, telling: &mut Telling) -> bool {
    let parts = parts_of_impl(telling.alloc(), before_types(line));
    let Some(Some(parts)) = telling.granted(parts) else {
        return false;
    };
    let own = Piece::Name(name_in(line.workspace, seeing_crate(line)));
    telling.mark(
        on_line(line.number, parts.subject),
        with_one("no struct of crate `{}`", own),
    );
    telling.mark_beside(on_line(line.number, parts.bound), plain("an auto trait"));
    true
}

/// What was told of a fault.
#[derive(Clone, Copy)]
pub(crate) enum Told {
    /// The part of the line that it is about was not found.
    Nothing,
    Part,
    /// It is about types of traits, and has this message.
    Types(&'static str),
}

/// What was told, where it is seen whether the part of the line was found.
fn told_if(is_found: bool) -> Told {
    if is_found { Told::Part } else { Told::Nothing }
}

/// Tells of a name that stands for something else than its place needs, of other arguments than it takes, or of types of traits.
fn tell_sorts(line: Faulty<'_>, telling: &mut Telling) -> Told {
    if tell_other_sort(line, telling) {
        return Told::Part;
    }
    match tell_types(line, telling) {
        Some(message) => Told::Types(message),
        None => Told::Nothing,
    }
}

/// Tells of the part of a line that a fault is about, by its tokens and what the lines above it give.
fn tell_part(
    file: &SourceFile<'_>,
    fault: TextFault,
    words: &[Word<'_>],
    workspace: &Workspace,
    telling: &mut Telling,
) -> Told {
    let line = Faulty {
        file,
        number: fault.line,
        words,
        workspace,
    };
    match fault.kind {
        FaultKind::Taken => told_if(tell_taken(line, telling)),
        FaultKind::Unknown => told_if(tell_unknown(line, telling)),
        FaultKind::Hidden => told_if(tell_hidden(line, telling)),
        FaultKind::OtherSort => tell_sorts(line, telling),
        FaultKind::ForeignAuto => told_if(tell_foreign_auto(line, telling)),
        FaultKind::Limit => told_if(tell_passed(line, telling)),
        _ => told_if(tell_word(line, fault.kind, telling)),
    }
}

/// Tells of the part of a line that a fault is about, by the grammar and by what the lines above it give.
fn tell_written(
    file: &SourceFile<'_>,
    fault: TextFault,
    above: Option<&Workspace>,
    telling: &mut Telling,
) -> Told {
    let read = read_words(telling.alloc(), file.line(fault.line));
    let Some(read) = telling.granted(read) else {
        return Told::Nothing;
    };
    if fault.kind == FaultKind::Syntax {
        return told_if(tell_unwritten(fault.line, &read, telling));
    }
    match above {
        None => Told::Nothing,
        Some(workspace) => tell_part(file, fault, &read.words, workspace, telling),
    }
}

/// Marks what a fault is about, and tells what follows; where it is not found, marks the whole line. Gives the message, where that is another
/// than for most faults of the kind. `above` is what the lines above give.
pub(crate) fn tell_offence(
    text: &[u8],
    file: &SourceFile<'_>,
    fault: TextFault,
    above: Option<&Workspace>,
    telling: &mut Telling,
) -> Option<&'static str> {
    let number = fault.line;
    let told = match fault.kind {
        FaultKind::OtherByte => told_if(tell_other_byte(number, file.line(number), telling)),
        FaultKind::Misplaced => told_if(tell_misplaced(file, number, above, telling)),
        FaultKind::Limit if text.len() > TEXT_LIMIT => {
            told_if(tell_long_text(file, number, telling))
        }
        _ => tell_written(file, fault, above, telling),
    };
    match told {
        Told::Types(message) => Some(message),
        Told::Part => None,
        Told::Nothing => {
            let whole = whole_line(file.line(number));
            telling.mark(on_line(number, whole), plain(""));
            None
        }
    }
}
