//! Types read of bytes and of readers, and written as bytes.
//!
//! ```text
//! let settings = json5::from_reader(alloc, &mut rt.stdin())?;
//! ```
#![tactic(auto)]

ghost use Rattle.std.specs.Prelude.{◌≡◌, Some, MatchResult, take, codes};
ghost use Rattle.std.specs.Str.{chars, IsValidUpTo};
ghost use Rattle.json5_grammar.specs.Faults.Positions.{position_after};
ghost use Rattle.json5_types.specs.Errors.{custom, SaysAt, LacksMemory};
ghost use Rattle.json5_io.specs.Bytes.{ReadsText};

mod readers;
pub mod slices;
mod vectors;

use json5_types::Position;
use json5_types::error::{Error, Result};
pub use readers::{from_reader, read_text};
use simdutf8::compat::from_utf8;
pub use slices::from_slice;
use std::alloc::Global;
use std::str;
pub use vectors::to_vec;

/// Returns the text that the bytes are in UTF-8.
///
/// ```text
/// let text = text_of_bytes(alloc, bytes)?;
/// ```
///
/// # Errors
///
/// - A custom fault, `not UTF-8`, at the position of the first byte with which they aren't.
/// - `OutOfMemory`, without a position, where the request for that fault's memory was refused.
pub fn text_of_bytes(alloc: Global, bytes: &[u8]) -> Result<&str>
    ensures { ReadsText bytes.now result }
{
    match from_utf8(bytes) {
        Ok(text) => Ok(text),
        Err(fault) => Err(not_utf8(alloc, bytes, fault.valid_up_to())?),
    }
}

/// The fault of bytes of which only so many are UTF-8.
fn not_utf8(alloc: Global, bytes: &[u8], count: usize) -> Result<Error>
    requires { IsValidUpTo bytes.now count }
    ensures { MatchResult result (SaysAt (custom (codes "not UTF-8")) (Some (position_after (chars (take count bytes.now))))) LacksMemory }
{
    let front = unsafe { str::from_utf8_unchecked(&bytes[..count]) };
    let text = String::from_str(alloc, "not UTF-8")?;
    Ok(Error::from_text(text).at(Position::after(front)))
}
