//! A line that is asked behind the lines of a text.
ghost use Rattle.std.specs.Prelude.{◌≡◌, ◌<◌, ◌≤◌, true, length, IfOk};
ghost use Rattle.text_language.specs.Promised.Declarations.{Declarations};
ghost use Rattle.text_language.specs.Promised.Syntax.{WrittenLine};
ghost use Rattle.text_lines.specs.Pieces.{companions_in, names_in};
ghost use Rattle.text_lines.specs.TokenViews.{tokens_in};
ghost use Rattle.text_lines.specs.TypedLines.{ReadsTyped, is_query_line};
ghost use Rattle.text_lines.specs.Views.{params_in, statement_of};
ghost use Rattle.text_parser.specs.Declaring.{IsRead, IsJudged};
ghost use Rattle.text_parser.specs.Entries.{IsAsking};
ghost use Rattle.text_parser.specs.Forms.{HasTyped, SaysSomething};
ghost use Rattle.text_parser.specs.Lists.{AreShortLists, IsShortList};
ghost use Rattle.text_parser.specs.Queries.{IsQueryLine, IsQueryList, IsQueryLists, IsQueryPlain, IsQueryRead, IsQueryTyped, IsWithOwn};
ghost use Rattle.text_parser.specs.WrittenLines.{IsTypedLine};
ghost use Rattle.text_tables.specs.Numbered.{IsFew};
ghost use Rattle.text_tables.specs.Tables.{declared, IsConsistent};
ghost use Rattle.text_tables.specs.Views.{asker_of};

use crate::entries::question_entry;
use crate::faults::judge_line;
use crate::form::{LineForm, line_form};
use crate::lines::TEXT_LIMIT;
use crate::own_faults::{is_ill_bound, lacks_types};
use crate::so_far::SoFar;
use std::alloc::{AllocError, Global};
use text_lines::{
    LineError, LineRead, Param, Piece, Statement, Token, TypedLine, companion_names, is_overlong,
    line_of_list, read_typed,
};
use text_names::{FaultKind, JudgedLine, LineFound};
use text_tables::{Asked, ENTRY_LIMIT, QuestionEntry, Tables};

/// What a line is that is asked behind the lines of a text.
#[derive(Drop)]
pub enum QueryLine {
    /// It asks this, and has no fault.
    Query(QuestionEntry),
    /// It has this fault: of all that apply the one with the smallest number.
    Faulty(FaultKind),
    /// It has no fault, and asks nothing: it is empty, a comment, a declaration or a check.
    Other,
    /// It asks nothing: it declares a trait or an impl with types. Whether it has a fault is not said.
    Declared,
}

/// What a line asks of which this was found.
fn asked_line<'a>(
    tables: &Tables,
    alloc: Global,
    read: &LineRead<'a>,
    found: &LineFound<'a>,
    asked_how: Asked,
    params: &[Param<'_>],
) -> Result<QueryLine, AllocError>
    requires judged { IsJudged tables.now read.now found.now }
    requires line { IsAsking (declared tables.now) (statement_of read.now.statement) asked_how (params_in params.now) }
    requires asker { asker_of asked_how < length (declared tables.now).crates }
    ensures { IfOk result (IsQueryRead (declared tables.now) read.now) }
{
    let entry = question_entry(tables, alloc, read, found, asked_how, params)?;
    Ok(QueryLine::Query(entry))
}

/// What a line without a fault asks, of which this was found, or that it asks nothing.
fn faultless_line<'a>(
    tables: &Tables,
    alloc: Global,
    read: &LineRead<'a>,
    found: &LineFound<'a>,
) -> Result<QueryLine, AllocError>
    requires { IsJudged tables.now read.now found.now }
    ensures { IfOk result (IsQueryRead (declared tables.now) read.now) }
{
    match &read.statement {
        Statement::Prove {
            crate_name,
            params,
            ..
        } => {
            let asker = SoFar::new(tables).asking_crate(crate_name);
            asked_line(tables, alloc, read, found, Asked::Prove(asker), params)
        }
        Statement::Refute {
            crate_name,
            params,
            ..
        } => {
            let asker = SoFar::new(tables).asking_crate(crate_name);
            asked_line(tables, alloc, read, found, Asked::Refute(asker), params)
        }
        _ => Ok(QueryLine::Other),
    }
}

/// What a line is that was read.
fn read_line_behind(
    tables: &Tables,
    alloc: Global,
    read: &LineRead<'_>,
) -> Result<QueryLine, AllocError>
    requires agrees { IsConsistent tables.now }
    requires few { IsFew (declared tables.now) ENTRY_LIMIT }
    requires read { IsRead read.now }
    requires short { length read.now.cells.items ≤ TEXT_LIMIT }
    ensures { IfOk result (IsQueryRead (declared tables.now) read.now) }
{
    match judge_line(tables, alloc, read)? {
        JudgedLine::Faulty(kind) => Ok(QueryLine::Faulty(kind)),
        JudgedLine::Faultless(found) => faultless_line(tables, alloc, read, &found),
    }
}

/// What a line is, with the fault that it has by itself if it is ill bound.
fn with_own_fault(query: QueryLine, is_ill: bool) -> QueryLine
    ensures { (d : Declarations) → IsWithOwn d query is_ill result }
{
    if !is_ill {
        return query;
    }
    match query {
        QueryLine::Faulty(kind) => {
            if kind.number() < 7 {
                QueryLine::Faulty(kind)
            } else {
                QueryLine::Faulty(FaultKind::OtherSort)
            }
        }
        _ => QueryLine::Faulty(FaultKind::OtherSort),
    }
}

/// What a line without types is that was read, and that has these bytes.
fn read_plain_behind(
    tables: &Tables,
    alloc: Global,
    line: &[u8],
    read: &LineRead<'_>,
) -> Result<QueryLine, AllocError>
    requires agrees { IsConsistent tables.now }
    requires few { IsFew (declared tables.now) ENTRY_LIMIT }
    requires read { IsRead read.now }
    requires short { length read.now.cells.items ≤ TEXT_LIMIT }
    ensures { IfOk result (IsQueryPlain (declared tables.now) line.now read.now) }
{
    if is_overlong(line) {
        return Ok(QueryLine::Faulty(FaultKind::Limit));
    }
    let is_ill = lacks_types(alloc, tables, read)?;
    let query = read_line_behind(tables, alloc, read)?;
    Ok(with_own_fault(query, is_ill))
}

/// What the line is that a list spells, whose companions have these names.
fn read_list_behind<'t, 'a>(
    tables: &Tables,
    alloc: Global,
    list: &[Piece<'t, 'a>],
    names: &'a [Vec<u8>],
) -> Result<QueryLine, AllocError>
    requires names { names_in names.now ≡ companions_in list.now }
    requires agrees { IsConsistent tables.now }
    requires few { IsFew (declared tables.now) ENTRY_LIMIT }
    requires line { IsShortList list.now }
    ensures { IfOk result (IsQueryList (declared tables.now) list.now) }
{
    match line_of_list(alloc, list, names) {
        Err(_) => Err(AllocError),
        Ok(read) => read_line_behind(tables, alloc, &read),
    }
}

/// What a query is that stands for the line that the first of the lists spells.
fn read_lists_behind(
    tables: &Tables,
    alloc: Global,
    lists: &[Vec<Piece<'_, '_>>],
) -> Result<QueryLine, AllocError>
    requires agrees { IsConsistent tables.now }
    requires few { IsFew (declared tables.now) ENTRY_LIMIT }
    requires lines { AreShortLists lists.now }
    ensures { IfOk result (IsQueryLists (declared tables.now) lists.now) }
{
    match lists {
        [] => Ok(QueryLine::Other),
        [first, ..] => {
            let names = companion_names(alloc, first)?;
            read_list_behind(tables, alloc, first, &names)
        }
    }
}

/// What a query with types is that was read, and that has these bytes.
fn read_typed_behind(
    tables: &Tables,
    alloc: Global,
    line: &[u8],
    read: &TypedLine<'_, '_>,
) -> Result<QueryLine, AllocError>
    requires agrees { IsConsistent tables.now }
    requires few { IsFew (declared tables.now) ENTRY_LIMIT }
    requires read { IsTypedLine line.now read.now }
    requires query { (w : WrittenLine) → ReadsTyped w read.now → is_query_line w ≡ true }
    ensures { IfOk result (IsQueryTyped (declared tables.now) line.now read.now) }
{
    if is_overlong(line) {
        return Ok(QueryLine::Faulty(FaultKind::Limit));
    }
    if read.has_many_types() {
        return Ok(QueryLine::Faulty(FaultKind::Limit));
    }
    let is_ill = is_ill_bound(alloc, tables, read)?;
    let lists = read.lists(alloc)?;
    let query = read_lists_behind(tables, alloc, &lists)?;
    Ok(with_own_fault(query, is_ill))
}

/// What a line with these tokens is, with `=` or `{` among them.
fn read_tokens_behind(
    tables: &Tables,
    alloc: Global,
    line: &[u8],
    tokens: &[Token<'_>],
) -> Result<QueryLine, AllocError>
    requires agrees { IsConsistent tables.now }
    requires few { IsFew (declared tables.now) ENTRY_LIMIT }
    requires says { SaysSomething line.now }
    requires tokens { HasTyped line.now (tokens_in tokens.now) }
    ensures { IfOk result (IsQueryLine (declared tables.now) line.now) }
{
    match read_typed(alloc, tokens) {
        Err(LineError::Memory) => Err(AllocError),
        Err(LineError::Syntax) => Ok(QueryLine::Faulty(FaultKind::Syntax)),
        Ok(read) => {
            if read.is_query() {
                read_typed_behind(tables, alloc, line, &read)
            } else {
                Ok(QueryLine::Declared)
            }
        }
    }
}

/// What a line is that is asked behind the lines that the tables hold: a question, which they do not hold yet; a line with a fault, as if
/// it were the text's next; or one that asks nothing. A declaration with types is not judged.
///
/// The error says that a request for memory was refused.
pub fn read_query(tables: &Tables, alloc: Global, line: &[u8]) -> Result<QueryLine, AllocError>
    requires agrees { IsConsistent tables.now }
    requires few { IsFew (declared tables.now) ENTRY_LIMIT }
    requires short { length line.now ≤ TEXT_LIMIT }
    ensures { IfOk result (IsQueryLine (declared tables.now) line.now) }
{
    match line_form(alloc, line)? {
        LineForm::OtherByte => Ok(QueryLine::Faulty(FaultKind::OtherByte)),
        LineForm::Unwritten => Ok(QueryLine::Faulty(FaultKind::Syntax)),
        LineForm::Blank => Ok(QueryLine::Other),
        LineForm::Read(read) => read_plain_behind(tables, alloc, line, &read),
        LineForm::Typed(tokens) => read_tokens_behind(tables, alloc, line, &tokens),
    }
}
