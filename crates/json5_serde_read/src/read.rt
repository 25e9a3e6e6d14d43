//! Reading a whole text.

ghost use Rattle.std.specs.Prelude.{OnOk};
ghost use Rattle.json5_walk.specs.Walks.{IsDocument, IsDocumentWithin};

use crate::asking::explained;
use crate::fault::Fault;
use crate::messages::told;
use crate::reader::Json5;
use json5_types::ErrorCode;
use json5_types::error::{Error, Result};
use json5_types::nesting::Limit;
use serde::{Deserialize, DeserializeOwned, Deserializer, Format};
use std::alloc::Global;

/// Reads a whole text as a `T`: one value with blanks and comments around it, nested at most 128 deep.
///
/// It returns Ok only where the text is a document, whatever `T` does.
///
/// ```text
/// let server: Server = json5_serde::from_str(alloc, "{host: 'localhost', port: 0x1F90}")?;
/// ```
///
/// # Errors
///
/// As [`from_str_within`].
pub fn from_str<'de, T: Deserialize<'de>>(alloc: Global, text: &'de str) -> Result<T>
    ensures { OnOk result (IsDocument text.now) }
{
    from_str_within(alloc, Limit::full(), text)
}

/// Reads a whole text as a `T`, with no more brackets open at once than the limit.
///
/// ```text
/// let server: Server = json5_serde::from_str_within(alloc, Limit::new(2).unwrap(), text)?;
/// ```
///
/// # Errors
///
/// - The code of the first fault of the text, as json5 has it, at its place.
/// - `TooDeep` at the bracket past the limit.
/// - A custom fault where the value isn't one of `T`: at the value, the key, or the bracket whose field is missing; where a
///   type refuses what was made of several values (`try_from`), at the last of them. Where a name is unknown or missing,
///   the text is read once more, to tell which names were expected.
/// - `OutOfMemory` where a request for memory was refused.
pub fn from_str_within<'de, T: Deserialize<'de>>(
    alloc: Global,
    limit: Limit,
    text: &'de str,
) -> Result<T>
    ensures { OnOk result (IsDocumentWithin limit text.now) }
{
    let mut format = Json5::new(alloc, limit, text);
    match read_one::<T>(limit, text, &mut format) {
        Ok(value) => Ok(value),
        Err(fault) => Err(refused::<T>(limit, text, &mut format, fault)),
    }
}

/// Reads a `T` to the end of the text.
pub(crate) fn read_one<'de, T: Deserialize<'de>>(
    limit: Limit,
    text: &'de str,
    format: &mut Json5<'_>,
) -> std::result::Result<T, Fault>
    ensures { OnOk result (IsDocumentWithin limit text.now) }
{
    let alloc = format.alloc;
    let value = T::deserialize(alloc, &mut Deserializer::new(text.as_bytes(), format))?;
    format.end(limit, text)?;
    Ok(value)
}

/// The fault of a text. Where a mark wasn't kept since memory ran out, that is the cause of any fault that came after.
#[cold]
fn refused<'de, T: Deserialize<'de>>(
    limit: Limit,
    text: &'de str,
    format: &mut Json5<'_>,
    fault: Fault,
) -> Error {
    if format.is_full {
        return Error::new(ErrorCode::OutOfMemory);
    }
    let fault = explained::<T>(limit, text, format, fault);
    told(format.alloc, text, fault)
}

/// Reads a whole text as a `T` that borrows nothing from it, with no more brackets open at once than the limit.
///
/// ```text
/// let server: Server = json5_serde::from_str_owned(alloc, Limit::full(), &text)?;
/// ```
///
/// # Errors
///
/// As [`from_str_within`].
pub fn from_str_owned<T: DeserializeOwned>(alloc: Global, limit: Limit, text: &str) -> Result<T>
    ensures { OnOk result (IsDocumentWithin limit text.now) }
{
    match from_str_within::<Owned<T>>(alloc, limit, text) {
        Ok(Owned(value)) => Ok(value),
        Err(error) => Err(error),
    }
}

/// A value that borrows nothing, read as one that may.
#[derive(Drop)]
struct Owned<T>(T);

impl<'de, T: DeserializeOwned> Deserialize<'de> for Owned<T> {
    #[inline(always)]
    fn deserialize<F: Format>(
        alloc: Global,
        from: &mut Deserializer<'de, '_, F>,
    ) -> std::result::Result<Owned<T>, F::Error> {
        Ok(Owned(T::deserialize_owned(alloc, from)?))
    }
}
