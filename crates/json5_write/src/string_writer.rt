//! The writer of a string.

ghost use Rattle.std.specs.Prelude.{◌≡◌, ◌+◌, ◌≤◌, [], Some, take, vec_len, OnOk};

use crate::byte_copies::{copy_between_quotes, copy_number_after, copy_quoted_after, copy_to};
use crate::joined_write::JoinedWrite;
use std::alloc::{AllocError, Global};
use std::io::{self, Write};
use std::marker::Model;

static ZEROS: [u8; 1024] = [0; 1024];

/// Text that grows in memory. What was written is in front, and zeros follow it, so that a piece is stored with one test of
/// the room.
#[derive(Drop)]
pub struct StringWriter {
    bytes: Vec<u8>,
    len: usize,
}

impl Model for StringWriter {
    ghost use Rattle.std.specs.Prelude.{ℕ, List, ◌≤◌, take, length};

    ghost Value = { List ℕ };

    ghost view = { λ s. take s.len s.bytes.items };

    ghost invariant = { λ s. s.len ≤ length s.bytes.items };
}

impl StringWriter {
    /// A writer of an empty text, which takes no memory yet.
    pub fn new(alloc: Global) -> StringWriter
        ensures { result ≡ [] }
    {
        StringWriter {
            bytes: Vec::new(alloc),
            len: 0,
        }
    }

    /// What was written.
    pub fn into_bytes(self) -> Vec<u8>
        ensures { result.items ≡ self }
    {
        let StringWriter { mut bytes, len } = self;
        bytes.truncate(len);
        bytes
    }
}

/// Adds zeros, at least so many.
#[cold]
#[inline(never)]
fn add_zeros(bytes: &mut Vec<u8>, count: usize) -> Result<(), AllocError>
    ensures same { take (vec_len bytes.old) bytes.new.items ≡ bytes.old.items }
    ensures room { OnOk result (vec_len bytes.old + count ≤ vec_len bytes.new) }
{
    bytes.reserve(count)?;
    let end = bytes.len() + count;
    while bytes.len() < end {
        let step = ZEROS.len().min(bytes.capacity() - bytes.len());
        bytes.extend_from_slice(&ZEROS[..step])?;
    }
    Ok(())
}

/// Makes room for so many bytes after the first `len`, where there is too little.
#[inline(always)]
fn make_room(bytes: &mut Vec<u8>, len: usize, count: usize) -> Result<(), AllocError>
    requires { len ≤ vec_len bytes.old }
    ensures same { take (vec_len bytes.old) bytes.new.items ≡ bytes.old.items }
    ensures room { OnOk result (len + count ≤ vec_len bytes.new) }
{
    let room = bytes.len() - len;
    if room < count {
        return add_zeros(bytes, count - room);
    }
    Ok(())
}

impl Write for StringWriter {
    ghost contents = { λ s. Some s };

    #[inline(always)]
    fn write(&mut self, buf: &[u8]) -> io::Result<usize> {
        make_room(&mut self.bytes, self.len, buf.len())?;
        copy_to(&mut self.bytes, self.len, buf);
        self.len += buf.len();
        Ok(buf.len())
    }

    /// Does nothing, since no bytes wait.
    fn flush(&mut self) -> io::Result<()> {
        Ok(())
    }
}

impl JoinedWrite for StringWriter {
    #[inline(always)]
    fn write_between_quotes(&mut self, text: &[u8]) -> io::Result<()> {
        let count = text.len() + 2;
        make_room(&mut self.bytes, self.len, count)?;
        copy_between_quotes(&mut self.bytes, self.len, text);
        self.len += count;
        Ok(())
    }

    #[inline(always)]
    fn write_quoted_after(&mut self, mark: u8, text: &[u8]) -> io::Result<()> {
        let count = text.len() + 3;
        make_room(&mut self.bytes, self.len, count)?;
        copy_quoted_after(&mut self.bytes, self.len, mark, text);
        self.len += count;
        Ok(())
    }

    /// Makes room for the longest number.
    #[inline(always)]
    fn write_number_after(&mut self, mark: u8, number: u64) -> io::Result<()> {
        make_room(&mut self.bytes, self.len, 21)?;
        self.len = copy_number_after(&mut self.bytes, self.len, mark, number);
        Ok(())
    }
}
