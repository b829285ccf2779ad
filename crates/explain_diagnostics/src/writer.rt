//! Texts that are being written.

ghost use Rattle.std.specs.Prelude.{◌≡◌, ◌≤◌, ◌<◌, ◌+◌, ◌++◌, ◌∷◌, [], length, map, min, false, string_bytes, string_len, IfOk};
ghost use Rattle.std.specs.Fmt.{decimal};
ghost use Rattle.explain_diagnostics.specs.Shown.{Appends, shown};

use std::alloc::{AllocError, Global};

/// A byte as it is displayed: a printable byte of ASCII as it is, a tab as a space, any other as `?`.
pub fn shown_byte(byte: u8) -> u8
    ensures value { result ≡ shown byte }
    ensures printable { 32 ≤ result }
    ensures ascii { result < 127 }
{
    match byte {
        b' '..=b'~' => byte,
        b'\t' => b' ',
        _ => b'?',
    }
}

/// A text that is being written. It remembers that a request for memory was refused, and appends nothing from then on. So a writer does not
/// check each call, and asks once, in `finish`.
#[derive(Drop)]
pub struct TextWriter {
    pub(crate) alloc: Global,
    pub(crate) text: String,
    pub(crate) is_refused: bool,
}

impl TextWriter {
    /// An empty text.
    pub fn new(alloc: Global) -> TextWriter
        ensures { string_bytes result.text ≡ [] }
    {
        TextWriter {
            alloc,
            text: String::new(alloc),
            is_refused: false,
        }
    }

    /// The text, if no request for memory was refused.
    pub fn finish(self) -> Result<String, AllocError>
        ensures whole { IfOk result (λ t. t ≡ self.text) }
        ensures granted { IfOk result (λ t. self.is_refused ≡ false) }
    {
        let TextWriter {
            alloc: _,
            text,
            is_refused,
        } = self;
        if is_refused {
            Err(AllocError)
        } else {
            Ok(text)
        }
    }

    /// Remembers that a request for memory was refused.
    pub(crate) fn refuse(&mut self)
        ensures { self.new.text ≡ self.old.text }
    {
        self.is_refused = true;
    }

    /// Appends a text.
    pub fn push_str(&mut self, text: &str)
        ensures bytes { self.new.is_refused ≡ false → string_bytes self.new.text ≡ string_bytes self.old.text ++ text.now }
        ensures stays { self.new.is_refused ≡ false → self.old.is_refused ≡ false }
        ensures len { string_len self.new.text ≤ string_len self.old.text + length text.now }
    {
        if !self.is_refused {
            self.is_refused = self.text.push_str(text).is_err();
        }
    }

    /// Appends `before` and the number.
    pub fn push_number(&mut self, before: &str, number: usize)
        ensures { Appends self.old self.new (before.now ++ decimal number) }
    {
        self.push_str(before);
        if !self.is_refused {
            self.is_refused = self.text.write(number).is_err();
        }
    }

    /// Appends a byte as it is displayed.
    pub fn push_byte(&mut self, byte: u8)
        ensures bytes { self.new.is_refused ≡ false → string_bytes self.new.text ≡ string_bytes self.old.text ++ shown byte ∷ [] }
        ensures stays { self.new.is_refused ≡ false → self.old.is_refused ≡ false }
        ensures len { string_len self.new.text ≤ string_len self.old.text + 1 }
    {
        if !self.is_refused {
            self.is_refused = self.text.push(char::from(shown_byte(byte))).is_err();
        }
    }

    /// Appends the bytes of a text, each as it is displayed.
    pub fn push_shown(&mut self, text: &[u8])
        ensures bytes { self.new.is_refused ≡ false → string_bytes self.new.text ≡ string_bytes self.old.text ++ map shown text.now }
        ensures stays { self.new.is_refused ≡ false → self.old.is_refused ≡ false }
        ensures len { string_len self.new.text ≤ string_len self.old.text + length text.now }
    {
        for byte in text {
            self.push_byte(*byte);
        }
    }

    /// Appends a byte `count` times, as it is displayed.
    fn push_times(&mut self, byte: u8, count: usize)
        ensures { string_len self.new.text ≤ string_len self.old.text + count }
    {
        for _time in 0..count {
            self.push_byte(byte);
        }
    }

    /// Appends `count` spaces.
    pub(crate) fn push_spaces(&mut self, count: usize)
        ensures { string_len self.new.text ≤ string_len self.old.text + count }
    {
        self.push_times(b' ', count);
    }

    /// Appends a text. If it has more bytes than `columns`, it is cut, and its last two columns are `..`. Each byte is appended as it is
    /// displayed.
    pub(crate) fn push_cut(&mut self, text: &str, columns: usize)
        ensures fits { string_len self.new.text ≤ string_len self.old.text + min (length text.now) columns }
        ensures whole { length text.now ≤ columns → self.new.is_refused ≡ false → string_bytes self.new.text ≡ string_bytes self.old.text ++ text.now }
    {
        if text.len() <= columns {
            self.push_str(text);
        } else {
            let kept = columns.saturating_sub(2);
            self.push_shown(&text.as_bytes()[..kept]);
            self.push_times(b'.', columns - kept);
        }
    }
}
