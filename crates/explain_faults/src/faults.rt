//! The text for a fault of a text.

ghost use Rattle.std.specs.Prelude.{◌≡◌, IfOk};
ghost use Rattle.explain_faults.specs.Codes.{IsFaultError, fault_code};

use crate::offending::tell_offence;
use explain_diagnostics::{Diagnostic, ErrCode, Level, SourceFile};
use messages::{Piece, Telling, plain, with_one};
use std::alloc::{AllocError, Global};
use text_names::FaultKind;
use text_parser::{TEXT_LIMIT, TextError, TextFault, parse};
use text_tables::Workspace;

/// The message for a fault.
fn message(kind: FaultKind) -> &'static str {
    match kind {
        FaultKind::OtherByte => "a byte that is not ASCII",
        FaultKind::Syntax => "this line is not in the grammar",
        FaultKind::Misplaced =>
            "an item stands before any `crate` line, or a struct or a trait in a section",
        FaultKind::Taken => "a name is declared twice",
        FaultKind::Unknown => "a name is not known",
        FaultKind::Hidden => "a struct or trait is used that the crate does not see",
        FaultKind::OtherSort =>
            "a name stands for something of another kind, or has other arguments",
        FaultKind::FreeParam => "a type or const parameter of the impl is not in its header",
        FaultKind::OwnBound => "the bounds of a trait use its own name",
        FaultKind::LoadedAuto => "an auto trait has no parameters and no bounds",
        FaultKind::ForeignAuto =>
            "an auto trait is implemented for structs of the impl's crate alone",
        FaultKind::BuiltIn => "this trait has built-in rules alone",
        FaultKind::StrayVariable => "a variable stands outside what is asked, or for two kinds",
        FaultKind::RefutesParams => "a `refute` has no parameters",
        FaultKind::BadDyn => "the items of a `dyn` do not fit one another",
        FaultKind::Limit => "a limit is passed",
    }
}

/// The code of rustc for the same error, if there is one.
fn code(kind: FaultKind) -> Option<ErrCode>
    ensures { result ≡ fault_code kind }
{
    match kind {
        FaultKind::FreeParam => Some(ErrCode::E0207),
        FaultKind::OwnBound => Some(ErrCode::E0391),
        _ => None,
    }
}

/// What to do about it, where that is the same for all lines with the fault.
fn advice(kind: FaultKind) -> Option<&'static str> {
    match kind {
        FaultKind::OtherByte => Some("write the text in ASCII, its comments too"),
        FaultKind::FreeParam => Some(
            "leave the parameter out, or use it in the trait's arguments or in the self type",
        ),
        FaultKind::LoadedAuto => Some("leave them out, or leave `auto` out"),
        FaultKind::RefutesParams => Some("ask with a variable, as `?x`"),
        _ => None,
    }
}

/// Under which heading of docs/FORMAT.md the rule stands.
fn heading(kind: FaultKind) -> &'static str {
    match kind {
        FaultKind::OtherByte => "Bytes, lines and tokens",
        FaultKind::Syntax => "Rust and how it is written here",
        FaultKind::Misplaced | FaultKind::Taken | FaultKind::Unknown | FaultKind::Hidden => {
            "Statements"
        }
        FaultKind::BuiltIn => "Built-in rules",
        FaultKind::Limit => "Limits",
        _ => "Faults",
    }
}

/// What the lines above a faulty line give, for the faults that are read by it. Fails only if memory is refused.
pub(crate) fn lines_above(
    alloc: Global,
    text: &[u8],
    file: &SourceFile<'_>,
    fault: TextFault,
) -> Result<Option<Workspace>, AllocError> {
    match fault.kind {
        FaultKind::OtherByte | FaultKind::Syntax => return Ok(None),
        FaultKind::Limit if text.len() > TEXT_LIMIT => return Ok(None),
        _ => {}
    }
    let end = file.line_start(fault.line).min(text.len());
    match parse(alloc, &text[..end]) {
        Ok(workspace) => Ok(Some(workspace)),
        Err(TextError::Text(_)) => Ok(None),
        Err(TextError::Memory) => Err(AllocError),
    }
}

/// The diagnostic for a fault. `above` is what the lines above it give.
pub(crate) fn tell_fault(
    alloc: Global,
    text: &[u8],
    file: &SourceFile<'_>,
    fault: TextFault,
    above: Option<&Workspace>,
) -> Result<Diagnostic, AllocError>
    ensures { IfOk result (IsFaultError fault.kind) }
{
    let message = plain(message(fault.kind));
    let mut telling = Telling::begin(alloc, Level::Error, None, message);
    let own_message = tell_offence(text, file, fault, above, &mut telling);
    if let Some(advice) = advice(fault.kind) {
        telling.help(plain(advice));
    }
    let heading = Piece::Text(heading(fault.kind));
    telling.help(with_one("the rule: docs/FORMAT.md, `{}`", heading));
    let mut told = telling.finish()?;
    if let Some(message) = own_message {
        told.message = String::from_str(alloc, message)?;
    }
    told.level = Level::Error;
    told.code = code(fault.kind);
    Ok(told)
}

/// The diagnostic for a text with a fault.
pub fn fault_diagnostic(
    alloc: Global,
    text: &[u8],
    file: &SourceFile<'_>,
    fault: TextFault,
) -> Result<Diagnostic, AllocError>
    ensures { IfOk result (IsFaultError fault.kind) }
{
    let above = lines_above(alloc, text, file, fault)?;
    tell_fault(alloc, text, file, fault, above.as_ref())
}
