//! Bytes that are read. A row spells them in hexadecimal digits.

use crate::answers::{Answer, Shown, found, unknown};
use crate::readers::Fails;
use crate::values::Row;
use json5::{ByteBuf, Value, from_slice, from_str, read_text, text_of_bytes};
use std::alloc::Global;
use std::io::ErrorKind;

/// Reads the row's bytes.
pub fn answer(alloc: Global, row: Row<'_>) -> Answer {
    let spelled = format!(in alloc; "'{}'", row.value)?;
    let bytes: ByteBuf = from_str(alloc, spelled.as_str())?;
    let bytes = bytes.as_slice();
    match row.call {
        "from_slice" => value_of(alloc, row.words, bytes),
        "text_of_bytes" => found(alloc, Some(text_of_bytes(alloc, bytes)?)),
        _ => text_read(alloc, row.words, bytes),
    }
}

/// What the bytes are as a value of any kind, or as a type.
fn value_of(alloc: Global, name: &str, bytes: &[u8]) -> Answer {
    match name {
        "u16" => found(alloc, Some(from_slice::<u16>(alloc, bytes)?)),
        "&str" => found(alloc, Some(from_slice::<&str>(alloc, bytes)?)),
        _ => {
            let value: Value = from_slice(alloc, bytes)?;
            found(alloc, Some(Shown(&value)))
        }
    }
}

/// The text of a reader over the bytes: of all at once, or of one that gives them one by one and may fail after them.
fn text_read(alloc: Global, words: &str, bytes: &[u8]) -> Answer {
    let fails = match words {
        "" => return read_text(alloc, &mut &*bytes),
        "slowly" => None,
        "broken" => Some(ErrorKind::BrokenPipe),
        "interrupted" => Some(ErrorKind::Interrupted),
        "out of memory" => Some(ErrorKind::OutOfMemory),
        _ => return unknown(alloc),
    };
    read_text(alloc, &mut Fails { rest: bytes, fails })
}
