//! The lines of the output.

ghost use Rattle.std.specs.Prelude.{◌<◌, IfSome, length};

/// The first line of a text, without its end, and what comes after it. `None` if no line ends.
pub fn split_line(text: &[u8]) -> Option<(&[u8], &[u8])>
    ensures { IfSome result (λ parts. length parts.1.now < length text.now) }
{
    let end = text.iter().position(|byte| *byte == b'\n')?;
    Some((&text[..end], &text[end + 1..]))
}

/// The last line of lines that end, and its index.
pub fn last_line(lines: &[u8]) -> (usize, &[u8]) {
    let mut index = 0usize;
    let mut rest = lines;
    'lines: while let Some((_, behind)) = split_line(rest) {
        if behind.is_empty() {
            break;
        }
        index = index.saturating_add(1);
        rest = behind;
    }
    (index, rest)
}
