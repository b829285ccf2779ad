//! Ranges in a line, and spans of a text.

ghost use Rattle.std.specs.Prelude.{◌≡◌, ◌≤◌};
ghost use Rattle.explain_diagnostics.specs.Places.{IsPartOf};

/// A range of bytes of a line, from `start` to before `end`, both counted from 0.
#[derive(Clone, Copy)]
pub struct Place {
    pub start: usize,
    pub end: usize,
}

/// A range within one line of a text. Lines count from 1, columns in bytes from 0. rustc: `Span`, which may have several lines.
#[derive(Clone, Copy)]
pub struct Span {
    pub line: u32,
    pub start: usize,
    pub end: usize,
}

/// The span of a range in the line with this number.
pub fn on_line(line: u32, place: Place) -> Span
    ensures line { result.line ≡ line }
    ensures start { result.start ≡ place.start }
    ensures end { result.end ≡ place.end }
{
    Span {
        line,
        start: place.start,
        end: place.end,
    }
}

/// The part of a span that is within its line, which has this many bytes.
pub(crate) fn place_in(span: &Span, length: usize) -> Place
    ensures part { IsPartOf length result }
    ensures whole { span.now.start ≤ span.now.end → span.now.end ≤ length → (result.start ≡ span.now.start) × (result.end ≡ span.now.end) }
{
    let end = span.end.min(length);
    Place {
        start: span.start.min(end),
        end,
    }
}
