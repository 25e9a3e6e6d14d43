//! A reader that may fail.

use std::io::{self, ErrorKind, Read};

/// Gives its bytes one by one. After them it fails once with this kind, and then it is at its end.
#[derive(Drop)]
pub struct Fails<'b> {
    pub rest: &'b [u8],
    pub fails: Option<ErrorKind>,
}

impl Read for Fails<'_> {
    fn read(&mut self, buf: &mut [u8]) -> io::Result<usize> {
        if self.rest.is_empty() {
            if let Some(kind) = self.fails.take() {
                return Err(io::Error::from(kind));
            }
        }
        let count = buf.len().min(1);
        self.rest.read(&mut buf[..count])
    }
}
