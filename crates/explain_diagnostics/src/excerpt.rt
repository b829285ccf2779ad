//! Excerpts: the lines that labels belong to, with marks under them.

ghost use Rattle.std.specs.Prelude.{◌≡◌, ◌≤◌, ◌<◌, ◌+◌, ◌-◌, length, min, max, IfSome};
ghost use Rattle.explain_diagnostics.specs.Places.{IsPartOf};

use crate::diagnostic::{Level, SpanLabel};
use crate::row::{COLUMNS, Ink, Row, push_in};
use crate::source::SourceFile;
use crate::span::{Place, place_in};
use crate::window::window;
use crate::writer::TextWriter;
use std::fmt::InlineText;

/// What all excerpts of a diagnostic have in common: colours, and how many columns line numbers take.
#[derive(Clone, Copy)]
pub(crate) struct Frame {
    pub has_colors: bool,
    pub digits: usize,
    ghost short: { digits ≤ 10 },
}

/// A label whose text is below its mark: the mark's column, and the label's index.
#[derive(Clone, Copy)]
struct Hanging {
    column: usize,
    index: usize,
}

/// A bound after all of these.
const BEHIND_ALL: Hanging = Hanging {
    column: usize::MAX,
    index: usize::MAX,
};

impl Hanging {
    /// Whether its bar is next to the text of another one, which is further right, or in the same column with a later label.
    fn is_before(self, other: Hanging) -> bool {
        self.column < other.column || self.column == other.column && self.index < other.index
    }
}

impl Frame {
    /// The first column after the bar.
    fn left(self) -> usize
        ensures { result ≡ self.digits + 3 }
    {
        self.digits + 3
    }

    /// How many columns remain for the text.
    fn width(self) -> usize
        ensures { result + self.digits + 3 ≡ COLUMNS }
    {
        COLUMNS - self.left()
    }

    /// A row with only the bar.
    fn bar(self) -> Row {
        let mut row = Row::blank();
        row.mark(self.digits + 1, self.digits + 2, b'|', Ink::Frame);
        row
    }

    /// Appends a row with only the bar.
    pub(crate) fn push_bar(self, out: &mut TextWriter) {
        self.bar().push_to(out, self.has_colors);
    }
}

/// The first primary label. If there is none, the first label.
fn main_label(labels: &[SpanLabel]) -> Option<&SpanLabel> {
    for label in labels {
        if label.is_primary {
            return Some(label);
        }
    }
    labels.first()
}

/// The smallest line of a label that is greater than this line.
fn next_line(labels: &[SpanLabel], last: u32) -> Option<u32>
    ensures { IfSome result (λ line. last < line) }
{
    let mut found: Option<u32> = None;
    for label in labels {
        let line = label.span.line;
        if line > last && line <= found.unwrap_or(u32::MAX) {
            found = Some(line);
        }
    }
    found
}

/// A line as it is displayed, with its labels.
#[derive(Clone, Copy)]
struct LineView<'d> {
    frame: Frame,
    labels: &'d [SpanLabel],
    line: u32,
    level: Level,
    /// How many bytes the line has.
    length: usize,
    /// Which of them are displayed.
    view: Place,
}

/// The range from the first to the last mark of a line with this many bytes.
fn marked_place(labels: &[SpanLabel], line: u32, length: usize) -> Place
    ensures { IsPartOf length result }
{
    let mut start = length;
    let mut end = 0;
    for label in labels {
        if label.span.line == line {
            let place = place_in(&label.span, length);
            start = start.min(place.start);
            end = end.max(place.end);
        }
    }
    Place {
        start: start.min(end),
        end,
    }
}

/// The first mark of a line with this many bytes, a primary one if there is one.
fn main_place(labels: &[SpanLabel], line: u32, length: usize) -> Place
    ensures { IsPartOf length result }
{
    let mut found: Option<Place> = None;
    for label in labels {
        if label.span.line == line && (found.is_none() || label.is_primary) {
            found = Some(place_in(&label.span, length));
            if label.is_primary {
                break;
            }
        }
    }
    found.unwrap_or(Place { start: 0, end: 0 })
}

/// Which part of a line is displayed: the part with all marks, or else the part with the main mark.
fn view_of(labels: &[SpanLabel], line: u32, length: usize, width: usize) -> Place
    ensures part { IsPartOf length result }
    ensures fits { result.end - result.start ≤ width }
{
    let marked = marked_place(labels, line, length);
    if marked.end - marked.start <= width.saturating_sub(4) {
        window(length, width, marked)
    } else {
        window(length, width, main_place(labels, line, length))
    }
}

/// The row with a line's number and its text.
fn text_row(frame: Frame, number: &[u8], text: &[u8], view: Place) -> Row
    requires { IsPartOf (length text.now) view }
{
    let mut row = frame.bar();
    let left = frame.left();
    row.write(0, number, Ink::Frame);
    row.write(left, &text[view.start..view.end], Ink::Plain);
    if view.start > 0 {
        row.mark(left, left + 2, b'.', Ink::Plain);
    }
    if view.end < text.len() {
        row.mark(COLUMNS - 2, COLUMNS, b'.', Ink::Plain);
    }
    row
}

impl LineView<'_> {
    /// The columns of a label's mark, at least one.
    fn columns_of(self, label: &SpanLabel) -> Place
        ensures { result.start ≤ result.end }
    {
        let place = place_in(&label.span, self.length);
        let start = place.start.saturating_sub(self.view.start);
        let end = place.end.saturating_sub(self.view.start);
        let left = self.frame.left();
        Place {
            start: left.saturating_add(start),
            end: left.saturating_add(end.max(start.saturating_add(1))),
        }
    }

    /// The ink of a label and its mark.
    fn ink_of(self, label: &SpanLabel) -> Ink {
        if label.is_primary {
            Ink::OfLevel(self.level)
        } else {
            Ink::Frame
        }
    }

    /// Puts the marks of the primary labels, or of the others.
    fn mark_these(self, row: &mut Row, are_primary: bool) {
        for label in self.labels {
            if label.span.line == self.line && label.is_primary == are_primary {
                let columns = self.columns_of(label);
                let mark = if are_primary { b'^' } else { b'-' };
                row.mark(columns.start, columns.end, mark, self.ink_of(label));
            }
        }
    }

    /// The label whose text comes after the marks: the one that ends last, if there is room for it.
    fn inline_label(self) -> Option<usize> {
        let mut found = None;
        let mut last = 0;
        for (index, label) in self.labels.iter().enumerate() {
            if label.span.line == self.line {
                let end = self.columns_of(label).end;
                if end > last {
                    let room = COLUMNS.saturating_sub(end).saturating_sub(1);
                    let fits = !label.label.is_empty() && label.label.len() <= room;
                    found = if fits { Some(index) } else { None };
                    last = end;
                }
            }
        }
        found
    }

    /// The row of marks, with a label's text after them.
    fn mark_row(self, inline: Option<usize>) -> Row {
        let mut row = self.frame.bar();
        self.mark_these(&mut row, true);
        self.mark_these(&mut row, false);
        if let Some(index) = inline
            && let Some(label) = self.labels.get(index)
        {
            let start = self.columns_of(label).end.saturating_add(1);
            row.write(start, label.label.as_bytes(), self.ink_of(label));
        }
        row
    }

    /// The position of a label's text below its mark, if it is there.
    fn hanging(self, inline: Option<usize>, index: usize, label: &SpanLabel) -> Option<Hanging> {
        if label.span.line != self.line || label.label.is_empty() || inline == Some(index) {
            return None;
        }
        Some(Hanging {
            column: self.columns_of(label).start,
            index,
        })
    }

    /// The last label before `limit` whose text is below its mark.
    fn last_hanging(self, inline: Option<usize>, limit: Hanging) -> Option<Hanging> {
        let mut found: Option<Hanging> = None;
        for (index, label) in self.labels.iter().enumerate() {
            if let Some(next) = self.hanging(inline, index, label)
                && next.is_before(limit)
            {
                found = match found {
                    Some(last) if next.is_before(last) => found,
                    _ => Some(next),
                };
            }
        }
        found
    }

    /// A row of bars under the marks of labels before `limit` whose texts are below them.
    fn bar_row(self, inline: Option<usize>, limit: Hanging) -> Row {
        let mut row = self.frame.bar();
        for (index, label) in self.labels.iter().enumerate() {
            if let Some(bar) = self.hanging(inline, index, label)
                && bar.is_before(limit)
            {
                let end = bar.column.saturating_add(1);
                row.mark(bar.column, end, b'|', self.ink_of(label));
            }
        }
        row
    }

    /// The row of a label's text, with the bars of the labels before it.
    fn hanging_row(self, inline: Option<usize>, last: Hanging) -> Row {
        let mut row = self.bar_row(inline, last);
        if let Some(label) = self.labels.get(last.index) {
            let room = COLUMNS.saturating_sub(label.label.len());
            let start = last.column.min(room).max(self.frame.left());
            row.write(start, label.label.as_bytes(), self.ink_of(label));
        }
        row
    }

    /// Appends the rows of labels whose texts are below their marks, the last one first. A row with the bars of all comes above them.
    fn push_hanging(self, out: &mut TextWriter, inline: Option<usize>) {
        let mut above = BEHIND_ALL;
        for index in 0..self.labels.len() {
            let Some(last) = self.last_hanging(inline, above) else {
                break;
            };
            if index == 0 {
                self.bar_row(inline, above)
                    .push_to(out, self.frame.has_colors);
            }
            self.hanging_row(inline, last)
                .push_to(out, self.frame.has_colors);
            above = last;
        }
    }

    /// Appends the rows under the text of a line.
    fn push_marks(self, out: &mut TextWriter) {
        let inline = self.inline_label();
        self.mark_row(inline).push_to(out, self.frame.has_colors);
        self.push_hanging(out, inline);
    }
}

/// Appends a line with its labels.
fn push_line(
    out: &mut TextWriter,
    frame: Frame,
    file: &SourceFile<'_>,
    level: Level,
    labels: &[SpanLabel],
    line: u32,
) {
    let text = file.line(line);
    let view = view_of(labels, line, text.len(), frame.width());
    let number = InlineText::<10>::of(file.own_line(line).number);
    let row = text_row(frame, number.as_str().as_bytes(), text, view);
    row.push_to(out, frame.has_colors);
    let shown = LineView {
        frame,
        labels,
        line,
        level,
        length: text.len(),
        view,
    };
    shown.push_marks(out);
}

/// Appends the place of a line behind an arrow: ` --> NAME:LINE`, the name as bytes of the text are shown.
fn push_place(out: &mut TextWriter, frame: Frame, arrow: &str, file: &SourceFile<'_>, line: u32) {
    out.push_spaces(frame.digits);
    push_in(out, frame.has_colors, Ink::Frame, arrow);
    let own = file.own_line(line);
    out.push_shown(own.name.as_bytes());
    out.push_number(":", own.number as usize);
}

/// Appends the lines of the labels, each once, with marks. A line of another file than the one before comes below the name of its file.
/// Without labels it appends nothing.
pub(crate) fn push_excerpt(
    out: &mut TextWriter,
    frame: Frame,
    file: &SourceFile<'_>,
    level: Level,
    labels: &[SpanLabel],
) {
    let Some(main) = main_label(labels) else {
        return;
    };
    push_place(out, frame, "--> ", file, main.span.line);
    out.push_number(":", main.span.start.saturating_add(1));
    out.push_str("\n");
    frame.push_bar(out);
    let mut shown = file.part(main.span.line).line;
    let mut last = 0;
    for _ in labels {
        let Some(line) = next_line(labels, last) else {
            break;
        };
        if last != 0 && line - last > 1 {
            push_in(out, frame.has_colors, Ink::Frame, "...");
            out.push_str("\n");
        }
        let first = file.part(line).line;
        if first != shown {
            push_place(out, frame, "::: ", file, line);
            out.push_str("\n");
            shown = first;
        }
        push_line(out, frame, file, level, labels, line);
        last = line;
    }
}
