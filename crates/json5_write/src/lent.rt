//! A writer that is lent.

ghost use Rattle.json5_write.specs.ReferencedWriters.{named};

use crate::joined_write::JoinedWrite;
use crate::write_whole::write_whole;
use itoa::Buffer;
use std::io;
use std::io::Write;

/// A writer that is lent. Its bytes begin with the name of the reference, so that a proof knows which writer they are of.
#[derive(Drop)]
pub struct Lent<'a, W: Write> {
    pub writer: &'a mut W,
}

impl<W: Write> Write for Lent<'_, W> {
    ghost contents = { λ s. named s.writer.ghost_name (W.contents s.writer.now) };

    fn write(&mut self, buf: &[u8]) -> io::Result<usize> {
        self.writer.write(buf)
    }

    fn flush(&mut self) -> io::Result<()> {
        self.writer.flush()
    }
}

impl<W: Write> JoinedWrite for Lent<'_, W> {
    #[inline(always)]
    fn write_between_quotes(&mut self, text: &[u8]) -> io::Result<()> {
        write_whole(self, b"\"")?;
        write_whole(self, text)?;
        write_whole(self, b"\"")
    }

    fn write_quoted_after(&mut self, mark: u8, text: &[u8]) -> io::Result<()> {
        write_whole(self, &[mark])?;
        self.write_between_quotes(text)
    }

    fn write_number_after(&mut self, mark: u8, number: u64) -> io::Result<()> {
        write_whole(self, &[mark])?;
        write_whole(self, Buffer::new().format(number).as_bytes())
    }
}
