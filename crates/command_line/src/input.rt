//! A reader that keeps why it failed.

use std::io::Read;
use std::{fmt, io};

/// The error number of a stream that is closed: EBADF.
pub const IS_CLOSED: i32 = 9;

/// Why a file or a stream cannot be read. It is printed as words that follow its name.
#[derive(Clone, Copy, PartialEq, Eq)]
pub enum Unread {
    Missing,
    Folder,
    Forbidden,
    Closed,
    Memory,
    Other,
}

impl Unread {
    /// The reason of an error.
    pub fn of_error(error: &io::Error) -> Unread {
        match error.kind() {
            io::ErrorKind::NotFound
            | io::ErrorKind::NotADirectory
            | io::ErrorKind::FilesystemLoop => { Unread::Missing }
            io::ErrorKind::IsADirectory => Unread::Folder,
            io::ErrorKind::PermissionDenied => Unread::Forbidden,
            io::ErrorKind::OutOfMemory => Unread::Memory,
            _ => {
                if error.raw_os_error() == Some(IS_CLOSED) {
                    Unread::Closed
                } else {
                    Unread::Other
                }
            }
        }
    }
}

impl fmt::Display for Unread {
    fn fmt<W: fmt::Write>(&self, f: &mut fmt::Formatter<W>) -> fmt::Result {
        f.write_str(match *self {
            Unread::Missing => "no such file",
            Unread::Folder => "is a folder",
            Unread::Forbidden => "may not be read",
            Unread::Closed => "is closed",
            Unread::Memory => "out of memory",
            Unread::Other => "could not be read",
        })
    }
}

/// A reader, and the reason of its last error.
#[derive(Drop)]
pub struct Input<R: Read> {
    inner: R,
    /// The reason of the last error, if there was one.
    pub failure: Option<Unread>,
}

impl<R: Read> Input<R> {
    pub fn new(inner: R) -> Input<R> {
        Input {
            inner,
            failure: None,
        }
    }
}

impl<R: Read> Read for Input<R> {
    ghost remaining = { λ input. R.remaining input.inner };

    fn read(&mut self, buf: &mut [u8]) -> io::Result<usize> {
        let read = self.inner.read(buf);
        if let Err(error) = &read {
            self.failure = Some(Unread::of_error(error));
        }
        read
    }
}
