//! What a line is by itself, before any name is looked up.
ghost use Rattle.std.specs.Prelude.{IfOk};
ghost use Rattle.text_lines.specs.TokenViews.{tokens_in};
ghost use Rattle.text_parser.specs.Forms.{IsForm, IsFormOf};

use std::alloc::{AllocError, Global};
use text_lines::{
    LineError, LineRead, Token, has_types, is_ascii, is_blank, line_of_tokens, tokens,
};

/// What a line of a text is, before any name is looked up.
#[derive(Drop)]
pub enum LineForm<'a> {
    /// It holds a byte of 128 or more.
    OtherByte,
    /// It declares nothing: only spaces, or a comment after them.
    Blank,
    /// The grammar has no such line.
    Unwritten,
    /// What it says. It says nothing of types of traits.
    Read(LineRead<'a>),
    /// The tokens of a line with `=` or `{`. The grammar may have no such line.
    Typed(Vec<Token<'a>>),
}

/// What a line with these tokens is.
fn form_of_tokens<'a>(alloc: Global, found: Vec<Token<'a>>) -> Result<LineForm<'a>, AllocError>
    ensures { IfOk result (IsFormOf (tokens_in found.entry.items)) }
{
    if has_types(&found) {
        return Ok(LineForm::Typed(found));
    }
    match line_of_tokens(alloc, &found) {
        Err(LineError::Memory) => Err(AllocError),
        Err(LineError::Syntax) => Ok(LineForm::Unwritten),
        Ok(read) => Ok(LineForm::Read(read)),
    }
}

/// What a line is by itself. Fails only if memory is refused.
pub fn line_form(alloc: Global, line: &[u8]) -> Result<LineForm<'_>, AllocError>
    ensures { IfOk result (λ form. IsForm line.now form) }
{
    if !is_ascii(line) {
        return Ok(LineForm::OtherByte);
    }
    if is_blank(line) {
        return Ok(LineForm::Blank);
    }
    match tokens(alloc, line)? {
        None => Ok(LineForm::Unwritten),
        Some(found) => form_of_tokens(alloc, found),
    }
}
