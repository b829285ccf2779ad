//! Words of a call and of a text as a terminal may show them.

use std::fmt;

/// Bytes that are printed for a terminal: each that is no printable ASCII is `?`, as in the lines of a text.
#[derive(Clone, Copy, Drop)]
pub(crate) struct ShownBytes<'w>(pub &'w [u8]);

impl fmt::Display for ShownBytes<'_> {
    fn fmt<W: fmt::Write>(&self, f: &mut fmt::Formatter<W>) -> fmt::Result {
        for byte in self.0 {
            let shown = if byte.is_ascii_graphic() || *byte == b' ' {
                *byte
            } else {
                b'?'
            };
            f.write_char(char::from(shown))?;
        }
        Ok(())
    }
}

/// An argument that is printed for a terminal, in the same way.
#[derive(Clone, Copy, Drop)]
pub struct Shown<'w>(pub &'w str);

impl fmt::Display for Shown<'_> {
    fn fmt<W: fmt::Write>(&self, f: &mut fmt::Formatter<W>) -> fmt::Result {
        fmt::Display::fmt(&ShownBytes(self.0.as_bytes()), f)
    }
}
