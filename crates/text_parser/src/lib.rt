//! Whole texts, line by line. What each line declares is added to the tables of a workspace. The first faulty line is reported, with the
//! smallest number of a fault in it.
#![tactic(auto)]

ghost use Rattle.text_parser.specs.Behind.{LinesBehindTexts, TextsAreFew};
ghost use Rattle.text_parser.specs.Laws.{FaultlessParts, NumbersAreSmall};
ghost use Rattle.text_parser.specs.Prefixes.{FirstBytesDecide};

mod cell;
mod declaring;
mod entries;
mod fault;
mod faults;
mod form;
mod keep;
mod line_tables;
mod lines;
mod lists;
mod numbering;
mod own_faults;
mod own_items;
mod params;
mod parsing;
mod parts;
mod query_line;
mod small;
mod so_far;
mod text;

pub use fault::{TextError, TextFault};
pub use form::{LineForm, line_form};
pub use lines::{TEXT_LIMIT, is_one_line, long_line, split_line};
pub use numbering::Numbering;
pub use parsing::parse;
pub use parts::{bound_cells, clause_cells, clauses_cells, field_cells};
pub use query_line::{QueryLine, read_query};
use text_tables::ENTRY_LIMIT;

// The crates below whose names the crates above need too: these list this crate alone.
pub use text_names;
pub use text_tables;
pub use type_terms;

/// What the types and bounds of a line without a fault use fits, part by part.
pub fn faultless_parts()
    ensures { FaultlessParts }
{}

/// If declarations are numbered by their indices and are few, the numbers of the structs and traits that a line knows are small.
pub fn small_numbers()
    ensures { NumbersAreSmall ENTRY_LIMIT }
{}

/// A text gives what its first 67,108,865 bytes give. So a reader can stop after the first byte too many.
pub fn first_bytes()
    ensures { FirstBytesDecide }
{}

/// A text with one more line behind it gives what the line gives over what the text gave, where both together are no longer than texts
/// may be.
pub fn lines_behind_texts()
    ensures { LinesBehindTexts }
{}

/// A text declares fewer of each kind than tables may hold.
pub fn texts_are_few()
    ensures { TextsAreFew ENTRY_LIMIT }
{}
