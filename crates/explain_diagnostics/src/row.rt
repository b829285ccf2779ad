//! Rows of an excerpt: columns with a byte each, in colours.

ghost use Rattle.std.specs.Prelude.{◌≡◌, ◌≤◌, ◌+◌, length, false, string_len};

use crate::diagnostic::Level;
use crate::writer::TextWriter;

/// How text is displayed. rustc: `Style`.
#[derive(Clone, Copy, PartialEq, Eq)]
pub(crate) enum Ink {
    Plain,
    /// The ink of headers.
    Bold,
    /// The ink of line numbers and secondary marks.
    Frame,
    /// The ink of the level's name, and of primary marks.
    OfLevel(Level),
}

/// The code that ends each colour.
const RESET: &str = "\x1b[0m";

impl Ink {
    /// The code that a terminal gets, as rustc writes it.
    fn codes(self) -> &'static str {
        match self {
            Ink::Plain => "",
            Ink::Bold => "\x1b[1m",
            Ink::Frame => "\x1b[1m\x1b[94m",
            Ink::OfLevel(Level::Error) => "\x1b[1m\x1b[91m",
            Ink::OfLevel(Level::Note) => "\x1b[1m\x1b[92m",
            Ink::OfLevel(Level::Help) => "\x1b[1m\x1b[96m",
        }
    }
}

/// Appends the code that begins a text in a colour, if there are colours.
pub(crate) fn push_ink(out: &mut TextWriter, has_colors: bool, ink: Ink)
    ensures { has_colors ≡ false → out.new ≡ out.old }
{
    if has_colors {
        out.push_str(ink.codes());
    }
}

/// Appends the code that ends such a text, if there are colours.
pub(crate) fn push_reset(out: &mut TextWriter, has_colors: bool)
    ensures { has_colors ≡ false → out.new ≡ out.old }
{
    if has_colors {
        out.push_str(RESET);
    }
}

/// Appends a text, in a colour if there are colours.
pub(crate) fn push_in(out: &mut TextWriter, has_colors: bool, ink: Ink, text: &str)
    ensures { has_colors ≡ false → string_len out.new.text ≤ string_len out.old.text + length text.now }
{
    push_ink(out, has_colors, ink);
    out.push_str(text);
    push_reset(out, has_colors);
}

/// A byte in its colour.
#[derive(Clone, Copy)]
struct Column {
    byte: u8,
    ink: Ink,
}

/// A column to which nothing was written.
const SPACE: Column = Column {
    byte: b' ',
    ink: Ink::Plain,
};

/// How many columns a row of an excerpt has, with the line number.
pub(crate) const COLUMNS: usize = 100;

/// A row of an excerpt.
#[derive(Clone, Copy)]
pub(crate) struct Row {
    columns: [Column; COLUMNS],
}

impl Row {
    /// A row of spaces.
    pub(crate) fn blank() -> Row {
        Row {
            columns: [SPACE; COLUMNS],
        }
    }

    /// Writes a byte into the columns from `start` to before `end`, as far as the row has them.
    pub(crate) fn mark(&mut self, start: usize, end: usize, byte: u8, ink: Ink) {
        for (place, column) in self.columns.iter_mut().enumerate() {
            if start <= place && place < end {
                *column = Column { byte, ink };
            }
        }
    }

    /// Writes a text into the columns from `start` on. If it does not fit, the last two columns are `..`.
    pub(crate) fn write(&mut self, start: usize, text: &[u8], ink: Ink) {
        for (place, column) in self.columns.iter_mut().enumerate() {
            if start <= place && place - start < text.len() {
                *column = Column {
                    byte: text[place - start],
                    ink,
                };
            }
        }
        if COLUMNS.saturating_sub(start) < text.len() {
            self.mark(COLUMNS - 2, COLUMNS, b'.', ink);
        }
    }

    /// How many columns there are before the spaces at the end.
    fn used(&self) -> usize
        ensures { result ≤ COLUMNS }
    {
        let mut used = 0;
        for (place, column) in self.columns.iter().enumerate() {
            if column.byte != b' ' {
                used = place + 1;
            }
        }
        used
    }

    /// Appends the row without the spaces at its end, and the end of the line. Without colours a line of an excerpt has at most 100
    /// columns.
    pub(crate) fn push_to(&self, out: &mut TextWriter, has_colors: bool)
        ensures { has_colors ≡ false → string_len out.new.text ≤ string_len out.old.text + COLUMNS + 1 }
    {
        let mut ink = Ink::Plain;
        for column in &self.columns[..self.used()] {
            if has_colors && column.ink != ink {
                push_reset(out, ink != Ink::Plain);
                out.push_str(column.ink.codes());
                ink = column.ink;
            }
            out.push_byte(column.byte);
        }
        push_reset(out, ink != Ink::Plain);
        out.push_str("\n");
    }
}
