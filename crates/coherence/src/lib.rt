//! Checks of crates, and answers to questions, from bytes to bytes, and of a text that is read once and asked at run time.
//!
//! What a caller names of the crates below is passed on from here.
#![tactic(auto)]

mod ask_fault;
mod asker;
mod coherent;
mod groups;
mod impl_numbers;
mod kept;
mod kept_sessions;
mod lines;
mod listener;
mod named_answer;
mod output_lines;
mod outputs;
mod query;
mod status;
mod streams;
mod text_run;

pub use ask_fault::AskFault;
pub use asker::Asker;
pub use coherent::{accepted_lines_tell, held_lines_tell};
pub use listener::Listener;
pub use named_answer::NamedAnswer;
pub use output_lines::OutputLines;
pub use outputs::{Output, answer};
pub use query::{ProveQuery, Query, RefuteQuery};
pub use session_inference;
pub use sessions::text_tables::Workspace;
pub use sessions::type_terms::{CrateId, Fault, ImplId};
pub use sessions::{
    LaterAnswer, Limits, OrphanCheckErr, ProveAnswer, RefuteAnswer, SeenView, Session,
    SupersAnswer, UncoveredTyParams, Verdict,
};
pub use status::{RunFault, Status};
pub use streams::read_text;
pub use text_parser::text_names::FaultKind;
pub use text_parser::{TextError, TextFault, parse};
pub use text_printer::{ValueText, print_type};
pub use text_run::{answer_text, run};
