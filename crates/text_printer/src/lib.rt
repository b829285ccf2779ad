//! The lines of the output: types, constants and values as text, the names of items, parameters and variables, and each kind of line.
#![tactic(auto)]

mod answer;
mod free;
mod header;
mod items;
mod laws;
mod listed;
mod named_values;
mod names;
mod params;
mod piece;
mod printer;
mod question;
mod shown;

pub use answer::{Answer, ValueText, print_line};
pub use header::HeaderNames;
pub use laws::lines_tell_answers;
pub use named_values::answer_values;
pub use names::{PrintNames, TermKind};
pub use printer::{print_const, print_type, print_type_within};
pub use question::{QuestionNames, Unknown};
pub use shown::ShownNames;
