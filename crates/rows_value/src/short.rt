//! A writer with little room.

use std::alloc::Global;
use std::io::{self, ErrorKind, Write};

/// A writer that fails where it is full. It takes one byte a call.
#[derive(Drop)]
pub(crate) struct Short {
    bytes: Vec<u8>,
    room: usize,
}

impl Short {
    pub(crate) fn new(alloc: Global, room: usize) -> Short {
        Short {
            bytes: Vec::new(alloc),
            room,
        }
    }

    pub(crate) fn into_bytes(self) -> Vec<u8> {
        let Short { bytes, room: _ } = self;
        bytes
    }
}

impl Write for Short {
    fn write(&mut self, buf: &[u8]) -> io::Result<usize> {
        if self.bytes.len() >= self.room {
            return Err(io::Error::from(ErrorKind::Other));
        }
        let Some(first) = buf.first() else {
            return Ok(0);
        };
        self.bytes.push(*first)?;
        Ok(1)
    }

    fn flush(&mut self) -> io::Result<()> {
        Ok(())
    }
}
