//! A writer that keeps what it is given, and may fail.

use crate::call_results::{Answer, shown, unknown};
use std::alloc::Global;
use std::io::{self, ErrorKind, Write};

/// Takes so many bytes a call, and fails once no call is left. It refuses what the library never asks for: to be flushed, and to
/// take no bytes.
#[derive(Drop)]
pub struct Given {
    pub bytes: Vec<u8>,
    most: usize,
    left: usize,
}

impl Given {
    /// Takes all bytes.
    pub fn new(alloc: Global) -> Given {
        Given {
            bytes: Vec::new(alloc),
            most: usize::MAX,
            left: usize::MAX,
        }
    }

    /// Takes one byte a call, and fails at this call, counted from 1.
    pub fn failing_at(alloc: Global, call: usize) -> Given {
        Given {
            bytes: Vec::new(alloc),
            most: 1,
            left: call.saturating_sub(1),
        }
    }

    /// The bytes as text.
    pub fn held(self, alloc: Global) -> Answer {
        held(alloc, self.bytes)
    }
}

/// The bytes as text.
pub fn held(alloc: Global, bytes: Vec<u8>) -> Answer {
    match String::from_utf8(bytes) {
        Ok(text) => shown(alloc, Ok(text)),
        Err(_) => unknown(alloc),
    }
}

impl Write for Given {
    fn write(&mut self, buf: &[u8]) -> io::Result<usize> {
        if self.left == 0 || buf.is_empty() {
            return Err(io::Error::from(ErrorKind::Interrupted));
        }
        self.left -= 1;
        let count = buf.len().min(self.most);
        self.bytes.extend_from_slice(&buf[..count])?;
        Ok(count)
    }

    fn flush(&mut self) -> io::Result<()> {
        Err(io::Error::from(ErrorKind::Interrupted))
    }
}
