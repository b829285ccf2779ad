//! The lines of a text.

ghost use Rattle.std.specs.Prelude.{◌≡◌, ◌<◌, ◌≤◌, ◌-◌, length};
ghost use Rattle.std.specs.List.{HoldsAt, IsAfterLastMatch};
ghost use Rattle.explain_diagnostics.specs.Files.{CountsInFile, begins_by};

use crate::span::Place;
use std::alloc::{AllocError, Global};

/// A file of a text, which one or more files make up, one after the other.
#[derive(Clone, Copy)]
pub struct Part<'t> {
    /// The number of its first line in the text, counted from 1.
    pub line: u32,
    /// How many bytes of the text are before it.
    pub start: usize,
    pub name: &'t str,
}

/// A line of a text, as it counts in its own file.
#[derive(Clone, Copy)]
pub struct OwnLine<'t> {
    /// Its number in the text.
    pub line: u32,
    /// Its number in its file.
    pub number: u32,
    /// The name of its file.
    pub name: &'t str,
    /// Whether that is the last one of the text, which needs no name in a sentence.
    pub is_last: bool,
}

/// How many files there are up to the file of a line. That is the last one that begins at the line or before.
fn files_up_to(parts: &[Part<'_>], line: u32) -> usize
    ensures last { IsAfterLastMatch (begins_by line) parts.now result }
    ensures within { result ≤ length parts.now }
{
    let mut count = parts.len();
    while 0 < count && line < parts[count - 1].line {
        count -= 1;
    }
    count
}

/// The last one of so many files. The whole text is one file if there is none.
fn last_part<'t>(parts: &[Part<'t>], count: usize) -> Part<'t>
    requires { count ≤ length parts.now }
    ensures { 0 < count → HoldsAt (λ p. result ≡ p) parts.now (count - 1) }
{
    if count == 0 {
        return Part {
            line: 1,
            start: 0,
            name: "",
        };
    }
    parts[count - 1]
}

/// A line of a text with these files.
pub fn own_line<'t>(parts: &[Part<'t>], line: u32) -> OwnLine<'t>
    ensures line { result.line ≡ line }
    ensures file { CountsInFile parts.now result }
{
    let count = files_up_to(parts, line);
    let part = last_part(parts, count);
    OwnLine {
        line,
        number: line.saturating_add(1).saturating_sub(part.line),
        name: part.name,
        is_last: count == parts.len(),
    }
}

/// A text, its files, and where each of its lines is. rustc: `SourceFile`.
#[derive(Drop)]
pub struct SourceFile<'t> {
    parts: &'t [Part<'t>],
    src: &'t [u8],
    /// The ranges of lines, without their ends.
    lines: Vec<Place>,
}

impl<'t> SourceFile<'t> {
    /// The lines of a text. Each ends with a line feed, and the last one may have none. The files are in their order. Their names are
    /// printed in `--> NAME:LINE:COLUMN`. Fails only if memory is refused.
    pub fn new(
        alloc: Global,
        parts: &'t [Part<'t>],
        src: &'t [u8],
    ) -> Result<SourceFile<'t>, AllocError> {
        let lines = line_places(alloc, src)?;
        Ok(SourceFile { parts, src, lines })
    }

    /// The file of the line with this number.
    pub(crate) fn part(&self, number: u32) -> Part<'t> {
        last_part(self.parts, files_up_to(self.parts, number))
    }

    /// The line with this number, as it counts in its own file.
    pub fn own_line(&self, number: u32) -> OwnLine<'t>
        ensures line { result.line ≡ number }
        ensures file { CountsInFile self.now.parts.now result }
    {
        own_line(self.parts, number)
    }

    /// How many lines there are, with the empty one after the last line feed.
    pub fn count_lines(&self) -> usize {
        self.lines.len()
    }

    /// The line with this number, counted from 1, without its end. It is empty if there is no such line.
    pub fn line(&self, number: u32) -> &'t [u8] {
        let place = self.place_of(number);
        self.src.get(place.start..place.end).unwrap_or(&[])
    }

    /// How many bytes are before the line with this number.
    pub fn line_start(&self, number: u32) -> usize {
        self.place_of(number).start
    }

    fn place_of(&self, number: u32) -> Place {
        // No line has the number 0, and none the index that this wraps to.
        let index = (number as usize).wrapping_sub(1);
        self.lines
            .get(index)
            .copied()
            .unwrap_or(Place { start: 0, end: 0 })
    }
}

/// The ranges of the lines of a text.
fn line_places(alloc: Global, src: &[u8]) -> Result<Vec<Place>, AllocError> {
    let mut lines = Vec::new(alloc);
    let mut start = 0;
    for (at, byte) in src.iter().enumerate() {
        if *byte == b'\n' {
            lines.push(Place { start, end: at })?;
            start = at + 1;
        }
    }
    lines.push(Place {
        start,
        end: src.len(),
    })?;
    Ok(lines)
}
