//! The command line of `celtisdarts`: its arguments, its streams, how it says why one of them failed, what a text expects of its answers,
//! and what a line of `--ask` asks.
//!
//! Which arguments there are is in `HELP`, and in `docs/FORMAT.md`.
#![tactic(auto)]

mod depths;
mod expected;
mod help;
mod input;
mod mistake;
mod output;
mod query;
mod request;
mod shown;
mod words;

pub use depths::parse_depth;
pub use expected::{Expectations, Surprise};
pub use help::HELP;
pub use input::{Input, Unread};
pub use mistake::Mistake;
pub use output::{Output, Unwritten};
pub use query::query_of;
pub use request::{Asked, ColorConfig, Command, How, Request};
pub use shown::Shown;
pub use words::{Refusal, read_words};
