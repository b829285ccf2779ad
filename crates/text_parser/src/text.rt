//! Whole texts: the loop over lines.
ghost use Rattle.std.specs.Prelude.{◌≡◌, ◌≤◌, length, IfOk, IfErr, OnOk, Ok, None};
ghost use Rattle.text_language.specs.Text.{LinesGive, lines_of, TextGives};
ghost use Rattle.text_parser.specs.Declaring.{IsRead, FindsFault, AddsLine};
ghost use Rattle.text_lines.specs.TokenViews.{tokens_in};
ghost use Rattle.text_parser.specs.Forms.{HasTyped, SaysSomething};
ghost use Rattle.text_parser.specs.Lists.{HasRoom};
ghost use Rattle.text_parser.specs.Outcomes.{TakesLine, AreRefused, IsTextError};
ghost use Rattle.text_parser.specs.WrittenLines.{IsTypedLine, TakesPlain, TakesTyped};
ghost use Rattle.text_tables.specs.Numbered.{IsFew};
ghost use Rattle.text_tables.specs.Tables.{declared, IsConsistent};

use crate::declaring::declare;
use crate::fault::{TextError, TextFault};
use crate::faults::judge_line;
use crate::form::{LineForm, line_form};
use crate::lines::{TEXT_LIMIT, long_line, split_line};
use crate::lists::take_lists;
use crate::own_faults::{is_ill_bound, lacks_types, with_own_fault};
use std::alloc::{AllocError, Global};
use text_lines::{LineError, LineRead, Token, TypedLine, is_overlong, read_typed};
use text_names::{FaultKind, JudgedLine};
use text_tables::{ENTRY_LIMIT, Tables, Workspace};

/// `core` has fewer of anything.
const CORE_LIMIT: usize = 50;

/// Takes a line that was read. Returns its fault, or `None` if the line was declared.
pub(crate) fn take_read(
    alloc: Global,
    tables: &mut Tables,
    read: &LineRead<'_>,
) -> Result<Option<FaultKind>, AllocError>
    requires agrees { IsConsistent tables.old }
    requires few { IsFew (declared tables.old) ENTRY_LIMIT }
    requires read { IsRead read.now }
    requires short { length read.now.cells.items ≤ TEXT_LIMIT }
    ensures finds { IfOk result (λ found. FindsFault (declared tables.old) read.now found) }
    ensures added { IfOk result (λ found. found ≡ None → AddsLine (declared tables.old) read.now (declared tables.new)) }
    ensures agrees { OnOk result (IsConsistent tables.new) }
{
    match judge_line(tables, alloc, read)? {
        JudgedLine::Faulty(kind) => Ok(Some(kind)),
        JudgedLine::Faultless(found) => {
            declare(tables, alloc, read, &found)?;
            Ok(None)
        }
    }
}

/// Takes a line that says nothing of types, with these bytes. Returns its fault, or `None` if it was declared.
fn take_plain(
    alloc: Global,
    tables: &mut Tables,
    line: &[u8],
    read: &LineRead<'_>,
) -> Result<Option<FaultKind>, AllocError>
    requires agrees { IsConsistent tables.old }
    requires few { IsFew (declared tables.old) ENTRY_LIMIT }
    requires read { IsRead read.now }
    requires short { length read.now.cells.items ≤ TEXT_LIMIT }
    ensures gives { IfOk result (λ found. TakesPlain (declared tables.old) line.now read.now found (declared tables.new)) }
    ensures agrees { OnOk result (IsConsistent tables.new) }
{
    if is_overlong(line) {
        return Ok(Some(FaultKind::Limit));
    }
    let is_ill = lacks_types(alloc, tables, read)?;
    let found = take_read(alloc, tables, read)?;
    Ok(with_own_fault(found, is_ill))
}

/// Takes a line with types that was read, with these bytes. Returns its fault, or `None` if all lines for which it stands were declared.
fn take_typed(
    alloc: Global,
    tables: &mut Tables,
    line: &[u8],
    read: &TypedLine<'_, '_>,
) -> Result<Option<FaultKind>, AllocError>
    requires agrees { IsConsistent tables.old }
    requires room { HasRoom (declared tables.old) (length line.now) }
    requires read { IsTypedLine line.now read.now }
    ensures gives { IfOk result (λ found. TakesTyped (declared tables.old) line.now read.now found (declared tables.new)) }
    ensures agrees { OnOk result (IsConsistent tables.new) }
{
    if is_overlong(line) {
        return Ok(Some(FaultKind::Limit));
    }
    if read.has_many_types() {
        return Ok(Some(FaultKind::Limit));
    }
    let is_ill = is_ill_bound(alloc, tables, read)?;
    let lists = read.lists(alloc)?;
    let found = take_lists(alloc, tables, &lists)?;
    Ok(with_own_fault(found, is_ill))
}

/// Takes a line with these tokens, with `=` or `{` among them. Returns its fault, or `None` if all lines for which it stands were declared.
fn take_tokens(
    alloc: Global,
    tables: &mut Tables,
    line: &[u8],
    tokens: &[Token<'_>],
) -> Result<Option<FaultKind>, AllocError>
    requires agrees { IsConsistent tables.old }
    requires room { HasRoom (declared tables.old) (length line.now) }
    requires says { SaysSomething line.now }
    requires tokens { HasTyped line.now (tokens_in tokens.now) }
    ensures gives { IfOk result (λ found. TakesLine (declared tables.old) line.now found (declared tables.new)) }
    ensures agrees { OnOk result (IsConsistent tables.new) }
{
    match read_typed(alloc, tokens) {
        Err(LineError::Memory) => Err(AllocError),
        Err(LineError::Syntax) => Ok(Some(FaultKind::Syntax)),
        Ok(read) => take_typed(alloc, tables, line, &read),
    }
}

/// Takes a line. Returns its fault, or `None` if the line was declared or says nothing.
fn take_line(
    alloc: Global,
    tables: &mut Tables,
    line: &[u8],
) -> Result<Option<FaultKind>, AllocError>
    requires agrees { IsConsistent tables.old }
    requires room { HasRoom (declared tables.old) (length line.now) }
    requires short { length line.now ≤ TEXT_LIMIT }
    ensures gives { IfOk result (λ found. TakesLine (declared tables.old) line.now found (declared tables.new)) }
    ensures agrees { OnOk result (IsConsistent tables.new) }
{
    match line_form(alloc, line)? {
        LineForm::OtherByte => Ok(Some(FaultKind::OtherByte)),
        LineForm::Unwritten => Ok(Some(FaultKind::Syntax)),
        LineForm::Blank => Ok(None),
        LineForm::Read(read) => take_plain(alloc, tables, line, &read),
        LineForm::Typed(tokens) => take_tokens(alloc, tables, line, &tokens),
    }
}

/// Takes the lines of a text, one after the other, up to the first faulty one.
fn take_lines(alloc: Global, tables: &mut Tables, bytes: &[u8]) -> Result<(), TextError>
    requires agrees { IsConsistent tables.old }
    requires few { IsFew (declared tables.old) CORE_LIMIT }
    requires short { length bytes.now ≤ TEXT_LIMIT }
    ensures taken { OnOk result (LinesGive (declared tables.old) 1 (lines_of bytes.now) (Ok (declared tables.new))) }
    ensures agrees { OnOk result (IsConsistent tables.new) }
    ensures few { OnOk result (IsFew (declared tables.new) ENTRY_LIMIT) }
    ensures refused { IfErr result (λ e. AreRefused (declared tables.old) (lines_of bytes.now) e) }
{
    let mut rest = bytes;
    let mut place = 1u32;
    'lines: loop {
        let (line, behind) = split_line(rest);
        if let Some(kind) = take_line(alloc, tables, line)? {
            return Err(TextError::Text(TextFault { line: place, kind }));
        }
        match behind {
            None => return Ok(()),
            Some(others) => {
                rest = others;
                place += 1;
            }
        }
    }
}

/// Reads a whole text: each line is declared after the lines before it. A text that is too long is refused before anything else.
///
/// Fails with the first faulty line and the smallest number of a fault in it, or with `Memory` if memory is refused.
pub(crate) fn read_text(alloc: Global, bytes: &[u8]) -> Result<Workspace, TextError>
    ensures taken { IfOk result (λ w. TextGives bytes.now (Ok w)) }
    // The fault is that of the first faulty line, with the smallest number.
    ensures refused { IfErr result (λ e. IsTextError bytes.now e) }
{
    if let Some(line) = long_line(bytes) {
        return Err(TextError::Text(TextFault {
            line,
            kind: FaultKind::Limit,
        }));
    }
    let mut tables = Tables::new(alloc)?;
    take_lines(alloc, &mut tables, bytes)?;
    Ok(Workspace::new(tables))
}
