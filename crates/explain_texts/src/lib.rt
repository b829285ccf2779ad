//! The texts of explanations: for a header that breaks the orphan rule, and for goals that were traced.
//!
//! The text for a header is made from its orphan error, and the text for a goal from its trace (`explain_traces`). What is stated as checked is claimed of the trace
//! (`explain_sessions::Claims`). A trace is explained through `tell` alone, which takes claims that hold and no others. Contracts say which
//! sentences have the mark of what was not checked. None says that a sentence says no more than its claim.
#![tactic(auto)]

mod doubts;
mod failures;
mod items;
mod lines;
mod links;
mod open_questions;
mod orphans;
mod reasons;
mod refused;
mod refutations;
mod sources;
mod spoken;
mod story;
mod words;

pub use doubts::unsettled;
pub use failures::{Asking, unproved};
pub use items::{
    Texts, crate_name, impl_line, impl_piece, is_companion, is_fundamental, trait_name,
};
pub use lines::{ImplLine, ItemLines, QuestionLine, item_lines};
pub use open_questions::left_open;
pub use orphans::orphan;
pub use reasons::tell_clause;
pub use refutations::refuted;
pub use sources::source_piece;
pub use spoken::{Spoken, speak};
pub use story::{Story, tell};

// The crates below whose names the crates above need too: these list this crate alone.
pub use explain_diagnostics;
pub use explain_sessions;
pub use explain_sessions::{sessions, text_tables, type_terms};
pub use messages;
pub use text_printer;
