//! Diagnostics: messages about parts of a text, as text for people and as JSON.
//!
//! A diagnostic has a level, a code, a message, spans of the text with labels, a proof as rows, and children, like one of rustc. It is
//! data. `render` makes rustc's text of it, and `json_line` an object with rustc's keys. Both work for every diagnostic and fail only if
//! memory is refused. If a span leaves its line, only its part within the line is marked.
//!
//! The text can be any bytes. Each byte takes one column, so columns count bytes.
#![tactic(auto)]

mod answer_parts;
mod cut;
mod diagnostic;
mod excerpt;
mod json;
mod parts;
mod proof_tree;
mod rendering;
mod row;
mod source;
mod span;
mod tokens;
mod window;
mod writer;

pub use answer_parts::own_fault;
pub use cut::{LIST_LIMIT, TYPE_LIMIT, cut_text};
pub use diagnostic::{Diagnostic, ErrCode, Level, ProofRow, SpanLabel, Subdiagnostic};
pub use json::{json_fault, json_line};
pub use parts::{LineParts, bounds_of_question, parts_of_impl};
pub use rendering::render;
pub use source::{OwnLine, Part, SourceFile, own_line};
pub use span::{Place, Span, on_line};
pub use tokens::{text_of, token_places};
pub use writer::{TextWriter, shown_byte};
