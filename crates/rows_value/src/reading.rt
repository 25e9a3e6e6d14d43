//! Bytes and readers.

use crate::answers::Answer;
use crate::readers::Fails;
use crate::writing::text_of;
use json5::{Layout, Result, Value, from_reader, from_str, text_of_bytes, to_string_in};
use std::alloc::Global;
use std::io::ErrorKind;

/// What is read of the row's text and bytes, on one line.
pub(crate) fn read(alloc: Global, call: &str, row: &Value) -> Answer {
    let bytes = bytes_of(alloc, row)?;
    let value: Value = if call == "bytes" {
        from_str(alloc, text_of_bytes(alloc, &bytes)?)?
    } else {
        let fails = if row.get("fails").is_some() {
            Some(ErrorKind::Other)
        } else {
            None
        };
        from_reader(
            alloc,
            &mut Fails {
                rest: &bytes,
                fails,
            },
        )?
    };
    to_string_in(alloc, Layout::compact(), &value)
}

/// The text of a row, and the bytes after it.
fn bytes_of(alloc: Global, row: &Value) -> Result<Vec<u8>> {
    let mut bytes = Vec::new(alloc);
    bytes.extend_from_slice(text_of(row, "text").as_bytes())?;
    for byte in row.get("bytes").and_then(Value::as_array).unwrap_or(&[]) {
        let number = byte.as_u64().unwrap_or(0);
        bytes.push(u8::try_from(number).unwrap_or(0))?;
    }
    Ok(bytes)
}
