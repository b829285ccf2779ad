//! The library for C, and for languages that call C: whole texts, each in one call, texts that are read once and queried at run time, and
//! inference in their crates.
//!
//! A call returns a status:
//!
//! | Status | Meaning |
//! |---|---|
//! | 0 | success |
//! | 1 | the text or the line has a fault |
//! | 2 | the depth is not from 1 to 255 |
//! | 3 | memory was refused |
//! | 4 | a table of terms, goals or answers is full |
//! | 5 | the buffer is too short: `needed` is the length of the output |
//! | 6 | the line is no query. It has no fault, unless it declares a trait or an impl with types: that is not said |
//! | 7 | the line contains a newline |
//! | 8 | the text and the line together exceed the limit of texts |
//! | 9 | the text has no crate of this number |
//! | 10 | no text was read |
//! | 11 | no inference was begun |
//! | 12 | there is no term, or no obligation, of the number |
//! | 13 | no solution makes the terms equal |
//! | 14 | the crate sees no struct, or no trait, of the name |
//! | 15 | the operation takes other terms |
//! | 16 | there is no such operation |
//!
//! Output is written to the front of the caller's buffer, and `needed` is its length. A call that does not return 0 changes no handle, so
//! it can be repeated.
#![tactic(auto)]

mod asked;
mod call;
mod crossing;
mod handle;
mod inferring;
mod parts;
mod slot;
mod told;
mod whole;

pub use asked::{
    celtisdarts_ask, celtisdarts_check, celtisdarts_close, celtisdarts_name, celtisdarts_new,
    celtisdarts_read,
};
pub use crossing::slots_move;
pub use inferring::{
    celtisdarts_infer, celtisdarts_infer_begin, celtisdarts_infer_end, celtisdarts_infer_text,
};
pub use whole::celtisdarts_run;
