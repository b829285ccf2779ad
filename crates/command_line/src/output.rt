//! A writer that keeps why it failed.

use crate::input::IS_CLOSED;
use std::io;
use std::io::Write;

/// Why a stream could not be written.
#[derive(Clone, Copy, PartialEq, Eq)]
pub enum Unwritten {
    /// It is a pipe that nobody reads any more. Nothing is said of that, as with other commands.
    NoReader,
    Closed,
    Other,
}

/// The reason of an error.
fn reason_of(error: &io::Error) -> Unwritten {
    if error.kind() == io::ErrorKind::BrokenPipe {
        Unwritten::NoReader
    } else if error.raw_os_error() == Some(IS_CLOSED) {
        Unwritten::Closed
    } else {
        Unwritten::Other
    }
}

/// A writer, and the reason of its last error.
#[derive(Drop)]
pub struct Output<W: Write> {
    inner: W,
    /// The reason of the last error, if there was one.
    pub failure: Option<Unwritten>,
}

impl<W: Write> Output<W> {
    pub fn new(inner: W) -> Output<W> {
        Output {
            inner,
            failure: None,
        }
    }
}

impl<W: Write> Write for Output<W> {
    ghost contents = { λ output. W.contents output.inner };

    fn write(&mut self, buf: &[u8]) -> io::Result<usize> {
        let written = self.inner.write(buf);
        if let Err(error) = &written {
            self.failure = Some(reason_of(error));
        }
        written
    }

    fn flush(&mut self) -> io::Result<()> {
        self.inner.flush()
    }
}
