//! The lines of a text.
ghost use Rattle.std.specs.Prelude.{◌≡◌, ◌==◌, ◌∷◌, ◌+◌, ◌<◌, ◌≤◌, count_by, length, take_while, not, true, false, IfSome};
ghost use Rattle.text_language.specs.Text.{lines_of};
ghost use Rattle.text_language.specs.Promised.Text.{long_line};
ghost use Rattle.text_parser.specs.Behind.{IsOneLine};
ghost use Rattle.text_parser.specs.Lines.{lines_behind, line_too_far};

/// The greatest length of a text, in bytes.
pub const TEXT_LIMIT: usize = 67_108_864;

fn line_end(bytes: &[u8]) -> usize
    ensures { result ≡ length (take_while (λ b. not (b == 10)) bytes.now) }
{
    bytes.iter().take_while(|b| **b != b'\n').count()
}

fn line_ends(bytes: &[u8]) -> usize
    ensures count { result ≡ count_by (λ b. b == 10) bytes.now }
    ensures within { result ≤ length bytes.now }
{
    bytes.iter().filter(|b| **b == b'\n').count()
}

/// The line that holds the first byte too many, counted from 1, if the text is longer than `TEXT_LIMIT`.
pub fn long_line(bytes: &[u8]) -> Option<u32>
    ensures { result ≡ line_too_far bytes.now }
{
    if bytes.len() <= TEXT_LIMIT {
        return None;
    }
    let (front, _rest) = bytes.split_at(TEXT_LIMIT);
    Some(line_ends(front) as u32 + 1)
}

/// Whether the bytes are one line: none of them ends it.
pub fn is_one_line(bytes: &[u8]) -> bool
    ensures one { result ≡ true → IsOneLine bytes.now }
    ensures several { result ≡ false → IsOneLine bytes.now → ⊥ }
{
    let (_line, behind) = split_line(bytes);
    behind.is_none()
}

/// The first line of a text without its end, and all that comes after that end. A line without an end is the last one.
pub fn split_line(bytes: &[u8]) -> (&[u8], Option<&[u8]>)
    ensures lines { lines_of bytes.now ≡ result.0.now ∷ lines_behind result.1 }
    ensures within { length result.0.now ≤ length bytes.now }
    // The rest is shorter by the line and its end.
    ensures left { IfSome result.1 (λ rest. length result.0.now + length rest.now < length bytes.now) }
{
    let (line, after) = bytes.split_at(line_end(bytes));
    match after {
        [] => (line, None),
        [_, rest @ ..] => (line, Some(rest)),
    }
}
