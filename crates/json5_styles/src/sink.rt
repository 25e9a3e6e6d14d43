//! A formatter that takes bytes.

use std::io::{self, ErrorKind, Write};
use std::{fmt, str};

/// A formatter that takes bytes, if they are a text.
#[derive(Drop)]
pub(crate) struct Sink<'f, W: fmt::Write> {
    pub(crate) out: &'f mut fmt::Formatter<W>,
}

impl<W: fmt::Write> Write for Sink<'_, W> {
    fn write(&mut self, buf: &[u8]) -> io::Result<usize> {
        let Ok(text) = str::from_utf8(buf) else {
            return Err(io::Error::from(ErrorKind::InvalidData));
        };
        match self.out.write_str(text) {
            Ok(()) => Ok(buf.len()),
            Err(_) => Err(io::Error::from(ErrorKind::Other)),
        }
    }

    /// Does nothing, since no bytes wait.
    fn flush(&mut self) -> io::Result<()> {
        Ok(())
    }
}
