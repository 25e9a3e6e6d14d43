//! Types read from bytes and from readers.

ghost use Rattle.json5_grammar.specs.Language.Documents.{max_depth};
ghost use Rattle.json5_serde.specs.Bytes.{ReadsBytes, ReadsReader};

use json5_io::{read_text, text_of_bytes};
use json5_serde_read::{from_str_owned, from_str_within};
use json5_types::error::Result;
use json5_types::nesting::Limit;
use serde::{Deserialize, DeserializeOwned};
use std::alloc::Global;
use std::io::Read;

/// Reads a text that these bytes are in UTF-8, as [`from_str`](json5_serde_read::from_str) does.
///
/// ```text
/// let server: Server = json5_serde::from_slice(alloc, b"{host: 'localhost', port: 80}")?;
/// ```
///
/// # Errors
///
/// As [`from_slice_within`].
pub fn from_slice<'de, T: Deserialize<'de>>(alloc: Global, bytes: &'de [u8]) -> Result<T>
    ensures { ReadsBytes max_depth bytes.now result }
{
    from_slice_within(alloc, Limit::full(), bytes)
}

/// Reads a text that these bytes are in UTF-8, as [`from_str_within`] does.
///
/// ```text
/// let server: Server = json5_serde::from_slice_within(alloc, Limit::new(2).unwrap(), bytes)?;
/// ```
///
/// # Errors
///
/// - `not UTF-8`, a custom fault, at the first bytes that are no character.
/// - As [`from_str_within`].
pub fn from_slice_within<'de, T: Deserialize<'de>>(
    alloc: Global,
    limit: Limit,
    bytes: &'de [u8],
) -> Result<T>
    ensures { ReadsBytes limit bytes.now result }
{
    let text = text_of_bytes(alloc, bytes)?;
    from_str_within(alloc, limit, text)
}

/// Reads all that a reader gives as one text, as [`from_str_within`] does: a `T` that borrows nothing from it.
///
/// It returns Ok only where all that was left of the reader is a document.
///
/// ```text
/// let server: Server = json5_serde::from_reader(alloc, Limit::full(), &mut rt.stdin())?;
/// ```
///
/// # Errors
///
/// - `failed read`, a custom fault without a position, where the reader failed.
/// - `OutOfMemory` where a request for memory was refused.
/// - As [`from_slice_within`].
pub fn from_reader<T: DeserializeOwned, R: Read>(
    alloc: Global,
    limit: Limit,
    reader: &mut R,
) -> Result<T>
    ensures { ReadsReader limit (R.remaining reader.old) result }
{
    let text = read_text(alloc, reader)?;
    from_str_owned(alloc, limit, text.as_str())
}
