//! Messages: sentences of fixed words with parts of a text in them, and diagnostics that are written of them.
//!
//! What is said of a faulty text and what is said of answers are written by the same sentences. No contract says what a sentence means.
#![tactic(auto)]

mod lines;
mod names;
mod sentences;
mod telling;

pub use lines::whole_line;
pub use names::{Name, name_in, name_of};
pub use sentences::{
    NONE, Piece, Sentence, plain, sentence_text, with_four, with_one, with_three, with_two,
};
pub use telling::Telling;
