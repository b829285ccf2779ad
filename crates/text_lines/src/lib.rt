//! Lines: their tokens, the types in them, and whole lines. Bytes go in, and a statement comes out.
//!
//! A cursor reads the tokens of a line. The reader of types has a stack of its own, so types may be nested to any depth. It produces a
//! flat list of cells, and the types of a line are spans of this list. Another cursor visits these cells from the last to the first.
//! A line with types of traits stands for several lines. It gives their lists of tokens, and each of these is read as a line.
//! The laws of the grammar are here too: bytes spell at most one line, a text has exactly one outcome, and what is true of a line
//! without a fault.
#![tactic(auto)]

ghost use Rattle.text_lines.specs.Laws.{OneType, MachineFinds, MachineReads, MachineReadsBound, MachineRefuses};
ghost use Rattle.text_lines.specs.LineParts.{PartsStand, UsesOfParts, AskedOfParts, DepthOfParts};
ghost use Rattle.text_lines.specs.Places.{SpansStand};
ghost use Rattle.text_lines.specs.Says.{NameIsSaid, ParamsAreSaid, ParamsAreCounted, PartsAreCounted, TestsAgree};
ghost use Rattle.text_lines.specs.Faultless.{BelongsToCrate, DeclaresNew, FaultlessLimits, FaultlessPasses, FaultlessUses, UsesCrates};
ghost use Rattle.text_lines.specs.WrittenLines.{LinesWithoutTypes, ListsAreLines, WrittenIsFound, WrittenIsRead};
ghost use Rattle.text_lines.specs.Grammar.{OneLine, OneOutcome, OneWritten, SyntaxFaults, UnwrittenLines};

mod cell;
mod cell_cursor;
mod clauses;
mod crate_line;
mod cursor;
mod impl_line;
mod line;
mod line_error;
mod line_lists;
mod params;
mod parts;
mod question_lines;
mod reader;
mod says;
mod statement;
mod struct_line;
mod token;
mod trait_line;
mod type_machine;
mod typed_line;
mod written_line;

pub use cell::{Cell, Length};
pub use cell_cursor::CellCursor;
pub use cursor::Cursor;
pub use line::{is_ascii, is_blank, is_overlong, line_of_list, line_of_tokens};
pub use line_error::LineError;
pub use line_lists::{Piece, companion_names, has_types};
pub use parts::LinePart;
pub use statement::{ClauseSpans, LineRead, Param, Span, Statement};
pub use token::{Keyword, Primitive, Sign, Token, tokens};
pub use type_machine::{TypeRead, read_type};
pub use typed_line::{HeaderNames, TypedLine, read_typed};

/// The front of a list of tokens spells at most one type.
pub fn one_type()
    ensures { OneType }
{}

/// The machine ends with a type exactly if the tokens spell one, and then with its cells.
pub fn machine_laws()
    ensures finds { MachineFinds }
    ensures reads { MachineReads }
    ensures bounds { MachineReadsBound }
    ensures refuses { MachineRefuses }
{}

/// The span of each type and bound holds its cells, at least one. These are the cells of the type appended to those that precede the
/// span.
pub fn spans_stand()
    ensures { SpansStand }
{}

/// The types and bounds of a line of any kind. Each is at its span in the statement. The names that the line uses, the bound that its
/// query evaluates and the depth of the line follow from them.
pub fn line_parts()
    ensures stand { PartsStand }
    ensures uses { UsesOfParts }
    ensures asked { AskedOfParts }
    ensures depth { DepthOfParts }
{}

/// Apart from its types, a statement is what its line is.
pub fn what_is_said()
    ensures name { NameIsSaid }
    ensures params { ParamsAreSaid }
    ensures count { ParamsAreCounted }
    ensures parts { PartsAreCounted }
    ensures tests { TestsAgree }
{}

/// The parts of a line with types are read exactly if the tokens spell such a line. The lists of tokens that are made of them spell the
/// lines for which it stands. A line without types stands for itself.
pub fn written_lines()
    ensures found { WrittenIsFound }
    ensures reads { WrittenIsRead }
    ensures lists { ListsAreLines }
    ensures plain { LinesWithoutTypes }
{}

/// Bytes spell at most one line.
pub fn one_line()
    ensures { OneLine }
{}

/// Bytes are at most one line as it is written.
pub fn one_written()
    ensures { OneWritten }
{}

/// A text has one outcome: the same declarations, or the same fault, however it is read.
pub fn one_outcome()
    ensures { OneOutcome }
{}

/// Worked lines that nothing spells, and the fault of a text with such a line.
pub fn worked_syntax_faults()
    ensures lines { UnwrittenLines }
    ensures texts { SyntaxFaults }
{}

/// A line without a fault fails none of the tests. The name that it declares is new. The crates that it names are declared. An item is
/// preceded by the line of a crate. Each name that it uses has the kind that its position needs, and as many arguments as it takes. No
/// limit is exceeded.
pub fn faultless_lines()
    ensures tests { FaultlessPasses }
    ensures names { DeclaresNew }
    ensures crates { UsesCrates }
    ensures homes { BelongsToCrate }
    ensures uses { FaultlessUses }
    ensures limits { FaultlessLimits }
{}
