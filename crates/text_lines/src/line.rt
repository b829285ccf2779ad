//! A whole line.
ghost use Rattle.std.specs.Prelude.{◌≡◌, ◌==◌, ◌||◌, length, take_while, IfOk, IsErrOf};
ghost use Rattle.std.specs.List.{list_any};
ghost use Rattle.text_language.specs.Promised.Syntax.{Line};
ghost use Rattle.text_language.specs.Promised.Written.{is_ascii, is_blank, is_overlong};
ghost use Rattle.text_lines.specs.TokenViews.{tokens_in};
ghost use Rattle.text_language.specs.Syntax.{spelling};
ghost use Rattle.text_lines.specs.Lines.{ReadsLine, SpellsLine};
ghost use Rattle.text_lines.specs.Pieces.{companions_in, names_in, pieces_tokens};
ghost use Rattle.text_lines.specs.Parts.{auto_front, fundamental_front, statement_at, line_at};
ghost use Rattle.text_lines.specs.Steps.{Reads, GivesAlone};
ghost use Rattle.text_lines.specs.Views.{statement_of, read_of};

use crate::cursor::Cursor;
use crate::line_error::LineError;
use crate::line_lists::{Piece, list_tokens};
use crate::reader::Reader;
use crate::statement::{LineRead, Statement};
use crate::token::{Keyword, Token};
use std::alloc::Global;

impl<'t, 'a> Reader<'t, 'a> {
    /// The rest of the line after `auto`.
    fn auto_line(&mut self, is_fundamental: bool) -> Result<Statement<'a>, LineError>
        ensures { Reads statement_of result (λ p. auto_front is_fundamental p.0 p.1) self.old self.new }
    {
        match self.cursor.next() {
            Some(Token::Keyword(Keyword::Trait)) => self.trait_line(is_fundamental, true),
            _ => Err(LineError::Syntax),
        }
    }

    /// The rest of the line after `fundamental`.
    fn fundamental_line(&mut self) -> Result<Statement<'a>, LineError>
        ensures { Reads statement_of result (λ p. fundamental_front p.0 p.1) self.old self.new }
    {
        match self.cursor.next() {
            Some(Token::Keyword(Keyword::Struct)) => self.struct_line(true),
            Some(Token::Keyword(Keyword::Trait)) => self.trait_line(true, false),
            Some(Token::Keyword(Keyword::Auto)) => self.auto_line(true),
            _ => Err(LineError::Syntax),
        }
    }

    #[tactic(auto, unfolding(crate::specs::Parts::statement_at))]
    fn statement(&mut self) -> Result<Statement<'a>, LineError>
        ensures { Reads statement_of result statement_at self.old self.new }
    {
        match self.cursor.next() {
            Some(Token::Keyword(Keyword::Crate)) => self.crate_line(),
            Some(Token::Keyword(Keyword::Fundamental)) => self.fundamental_line(),
            Some(Token::Keyword(Keyword::Struct)) => self.struct_line(false),
            Some(Token::Keyword(Keyword::Trait)) => self.trait_line(false, false),
            Some(Token::Keyword(Keyword::Auto)) => self.auto_line(false),
            Some(Token::Keyword(Keyword::Impl)) => self.impl_line(),
            Some(Token::Keyword(Keyword::Prove)) => self.prove_line(),
            Some(Token::Keyword(Keyword::Refute)) => self.refute_line(),
            Some(Token::Keyword(Keyword::Later)) => self.later_line(),
            Some(Token::Keyword(Keyword::Supers)) => self.supers_line(),
            _ => Err(LineError::Syntax),
        }
    }
}

/// Whether all bytes are below 128.
pub fn is_ascii(line: &[u8]) -> bool
    ensures { result ≡ is_ascii line.now }
{
    line.iter().all(|b| *b < 128)
}

fn spaces(line: &[u8]) -> usize
    ensures { result ≡ length (take_while (λ b. b == 32) line.now) }
{
    line.iter().take_while(|b| **b == b' ').count()
}

/// Whether a line is blank: spaces, and then nothing or a comment.
pub fn is_blank(line: &[u8]) -> bool
    ensures { result ≡ is_blank line.now }
{
    let rest = line.split_at(spaces(line)).1;
    rest.is_empty() || rest.starts_with(b"//")
}

/// The maximum length of a line with `=` or `{`. What it says of types is repeated for each type.
const TYPED_LINE_LIMIT: usize = 65536;

fn has_type_byte(line: &[u8]) -> bool
    ensures { result ≡ list_any (λ b. b == 61 || b == 123) line.now }
{
    line.iter().any(|b| *b == b'=' || *b == b'{')
}

/// Whether a line with `=` or `{` exceeds the limit for such lines.
pub fn is_overlong(line: &[u8]) -> bool
    ensures { result ≡ is_overlong line.now }
{
    line.len() > TYPED_LINE_LIMIT && has_type_byte(line)
}

/// Room for the cells of most lines, so that the list grows for long ones alone.
const CELLS_EXPECTED: usize = 24;

/// The line that these tokens spell.
#[tactic(auto, unfolding(crate::specs::Parts::line_at))]
fn read_tokens<'a>(alloc: Global, tokens: &[Token<'a>]) -> Result<LineRead<'a>, LineError>
    ensures { GivesAlone read_of result (line_at (tokens_in tokens.now)) }
{
    let mut reader = Reader {
        alloc,
        cursor: Cursor::new(tokens),
        cells: Vec::with_capacity(alloc, tokens.len().min(CELLS_EXPECTED))?,
    };
    let statement = reader.statement()?;
    if !reader.cursor.is_empty() {
        return Err(LineError::Syntax);
    }
    let Reader {
        alloc: _,
        cursor: _,
        cells,
    } = reader;
    Ok(LineRead { cells, statement })
}

/// Reads the line that these tokens spell.
///
/// Fails with `Syntax` if they spell no line, and with `Memory` if memory is refused.
pub fn line_of_tokens<'a>(alloc: Global, tokens: &[Token<'a>]) -> Result<LineRead<'a>, LineError>
    ensures found { IfOk result (λ r. SpellsLine (tokens_in tokens.now) r) }
    ensures only { (l : Line) → tokens_in tokens.now ≡ spelling l → IfOk result (λ r. ReadsLine l r) }
    ensures refused { IsErrOf result LineError.Syntax → (l : Line) → tokens_in tokens.now ≡ spelling l → ⊥ }
{
    read_tokens(alloc, tokens)
}

/// Reads one of the lines for which a line with types stands. Companions have these names.
pub fn line_of_list<'t, 'a>(
    alloc: Global,
    list: &[Piece<'t, 'a>],
    names: &'a [Vec<u8>],
) -> Result<LineRead<'a>, LineError>
    requires { names_in names.now ≡ companions_in list.now }
    ensures only { (l : Line) → pieces_tokens list.now ≡ spelling l → IfOk result (λ r. ReadsLine l r) }
    ensures refused { IsErrOf result LineError.Syntax → (l : Line) → pieces_tokens list.now ≡ spelling l → ⊥ }
{
    let tokens = list_tokens(alloc, list, names)?;
    line_of_tokens(alloc, &tokens)
}
