//! The answer can be read from the line that prints it. This is a law, with no code to run.

ghost use Rattle.text_printer.specs.Told.{LinesTellAnswers, OutputsTellAnswers};

/// Different answers print different lines, and different lists of answers print different texts.
///
/// It holds for answers in which crates, parameters and variables have names, the texts of types have no `=`, and numbers have 32 bits. A
/// crate with the name `a: accepted` would print as the line of another crate.
pub fn lines_tell_answers()
    ensures lines { LinesTellAnswers }
    ensures outputs { OutputsTellAnswers }
{}
