//! What is wrong with arguments.

use crate::shown::Shown;
use std::fmt;

/// Why arguments are wrong. It is printed as one line, without its end.
#[derive(Clone, Copy)]
pub enum Mistake<'w> {
    /// No option has this name.
    NoOption(&'w str),
    /// This number is no depth limit.
    NoDepth(&'w str),
    /// This option comes last, without its value.
    NeedsValue(&'static str),
    /// `--color` has no such value.
    NoColor(&'w str),
    /// `--proof` has no such value.
    NoPicture(&'w str),
    /// A name of a file is empty.
    EmptyName,
    /// Standard input is named twice.
    InputTwice,
    /// This option is about explanations, and none are asked for.
    NeedsExplain(&'static str),
    /// This option takes one text, and there are so many.
    OneText(&'static str, usize),
    /// `--file` names one text, and there are so many.
    OneTitle(usize),
    /// There are no arguments, and standard input is a terminal.
    NoText,
    /// `--ask` with an option for whole texts.
    AskWhole,
    /// `--ask` with a text on standard input, where its lines are.
    AskInput,
    /// `--ask` without a text.
    AskNothing,
    /// `--ask` with so many arguments.
    AskMany(usize),
}

impl fmt::Display for Mistake<'_> {
    fn fmt<W: fmt::Write>(&self, f: &mut fmt::Formatter<W>) -> fmt::Result {
        match *self {
            Mistake::NoOption(word) => write!(f, "`{}` is no option", Shown(word)),
            Mistake::NoDepth(word) => write!(f, "`{}` is no depth: 1 to 255", Shown(word)),
            Mistake::NeedsValue(option) => write!(f, "`{option}` needs a value"),
            Mistake::NoColor(word) => write!(
                f,
                "`--color` takes auto, always or never, and not `{}`",
                Shown(word)
            ),
            Mistake::NoPicture(word) => {
                write!(f, "`--proof` takes dot, and not `{}`", Shown(word))
            }
            Mistake::EmptyName => f.write_str("an empty argument names no file"),
            Mistake::InputTwice => {
                f.write_str("standard input is read once, and is named twice")
            }
            Mistake::NeedsExplain(option) => write!(f, "`{option}` needs `--explain`"),
            Mistake::OneText(option, count) => {
                write!(f, "`{option}` takes one text, not {count} files")
            }
            Mistake::OneTitle(count) => write!(f, "`--file` names one text, not {count} files"),
            Mistake::NoText => f.write_str("there is no text: name a file"),
            Mistake::AskWhole => f.write_str(
                "`--ask` answers line by line: `--proof` and `--check` are for whole texts",
            ),
            Mistake::AskInput => f.write_str(
                "`--ask` reads lines from standard input, and takes its text from a file",
            ),
            Mistake::AskNothing => f.write_str("`--ask` needs a text: name a file"),
            Mistake::AskMany(count) => {
                write!(
                    f,
                    "`--ask` takes one text and one crate, not {count} arguments"
                )
            }
        }
    }
}
