//! Whole texts and values from a reader.

ghost use Rattle.std.specs.Prelude.{None, IfOk, IfErr, MatchResult, codes};
ghost use Rattle.json5_types.specs.Errors.{custom, SaysAt, LacksMemory};
ghost use Rattle.json5_io.specs.Readers.{HoldsAll, IsReadFault, ReadsReader, RefusesReader};

use crate::text_of_bytes;
use json5_read::read_document;
use json5_types::ErrorCode;
use json5_types::error::{Error, Result};
use json5_types::value::Value;
use std::alloc::Global;
use std::io::{self, ErrorKind, Read};

/// Reads a reader to its end, as a text. Its values may borrow from that.
///
/// ```text
/// let text = read_text(alloc, &mut rt.stdin())?;
/// let settings: Settings = json5::from_str(alloc, text.as_str())?;
/// ```
///
/// # Errors
///
/// - A custom fault without a position, `failed read`, where the reader failed.
/// - As [`text_of_bytes`](crate::text_of_bytes).
/// - `OutOfMemory`, without a position, where a request for memory was refused.
pub fn read_text<R: Read>(alloc: Global, reader: &mut R) -> Result<String>
    ensures text { IfOk result (HoldsAll (R.remaining reader.old)) }
    ensures refused { IfErr result (RefusesReader (R.remaining reader.old)) }
{
    let mut bytes = Vec::new(alloc);
    if let Err(fault) = reader.read_to_end(&mut bytes) {
        return Err(failed_read(alloc, &fault)?);
    }
    let _ = text_of_bytes(alloc, &bytes)?;
    Ok(unsafe { String::from_utf8_unchecked(bytes) })
}

/// Reads a reader to its end, as a document of any kind. A type of another kind is read of [`read_text`]'s text, since it may
/// borrow from that.
///
/// ```text
/// let settings = json5::from_reader(alloc, &mut rt.stdin())?;
/// ```
///
/// # Errors
///
/// As [`read_text`], and where that text is no document its fault, as [`read_document`] says it.
pub fn from_reader<R: Read>(alloc: Global, reader: &mut R) -> Result<Value>
    ensures { ReadsReader (R.remaining reader.old) result }
{
    let text = read_text(alloc, reader)?;
    read_document(alloc, text.as_str())
}

/// The fault of a reader that failed.
fn failed_read(alloc: Global, fault: &io::Error) -> Result<Error>
    ensures { MatchResult result IsReadFault LacksMemory }
{
    if fault.kind() == ErrorKind::OutOfMemory {
        return Ok(Error::new(ErrorCode::OutOfMemory));
    }
    let text = String::from_str(alloc, "failed read")?;
    Ok(Error::from_text(text))
}
