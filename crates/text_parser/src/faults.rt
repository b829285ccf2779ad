//! The fault of a line, after the lines before it.
ghost use Rattle.std.specs.Prelude.{◌≡◌, IfOk};
ghost use Rattle.std.specs.Option.{option_map};
ghost use Rattle.text_language.specs.Promised.Syntax.{Line};
ghost use Rattle.text_language.specs.Faults.{fault_of};
ghost use Rattle.text_lines.specs.Lines.{ReadsLine};
ghost use Rattle.text_names.specs.FaultNumbers.{fault_number};
ghost use Rattle.text_names.specs.Judged.{fault_in};
ghost use Rattle.text_parser.specs.Declaring.{HandsOnFound};
ghost use Rattle.text_tables.specs.Numbered.{IsFew};
ghost use Rattle.text_tables.specs.Tables.{declared, IsConsistent};
ghost use Rattle.text_parser.specs.Sights.{HasReadLine};

use crate::line_tables::LineTables;
use crate::so_far::SoFar;
use std::alloc::{AllocError, Global};
use text_lines::LineRead;
use text_names::JudgedLine;
use text_tables::{ENTRY_LIMIT, Tables};

/// The fault of a line that was read, after the lines that the tables hold: of all faults that apply, the one with the smallest number. For
/// a line without a fault, what was found of it: its types and bounds with all names looked up.
///
/// Fails only if memory is refused. Nothing is changed.
pub(crate) fn judge_line<'a>(
    tables: &Tables,
    alloc: Global,
    read: &LineRead<'a>,
) -> Result<JudgedLine<'a>, AllocError>
    requires agrees { IsConsistent tables.now }
    requires few { IsFew (declared tables.now) ENTRY_LIMIT }
    requires line { HasReadLine read.now }
    ensures fault { IfOk result (λ judged. (l : Line) → ReadsLine l read.now → option_map fault_number (fault_in judged) ≡ fault_of (declared tables.now) l) }
    ensures found { IfOk result (HandsOnFound (declared tables.now) read.now) }
{
    let names = LineTables::new(alloc, SoFar::new(tables), &read.statement)?;
    text_names::judge_line(&names, alloc, read)
}
