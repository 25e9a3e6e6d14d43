//! Writing a whole value.

ghost use Rattle.std.specs.Prelude.{string_bytes, IfErr, IfOk, OnOk};
ghost use Rattle.json5_grammar.specs.Language.Documents.{max_depth};
ghost use Rattle.json5_serde_write.specs.WrittenTexts.{IsWrittenWithin, WritesNone, WritesSome};

use crate::fault::{Fault, told};
use crate::pen::WholeText;
use crate::writer::Json5;
use json5_types::error::{Error, Result};
use json5_types::nesting::Limit;
use json5_write::write_whole::write_whole;
use serde::Serialize;
use std::alloc::Global;
use std::io::Write;

/// Returns the text of what a type sends: each element and member on its own line, as [`json5::to_string`] has it.
///
/// It is the written text of some tree, and reads back as that tree.
///
/// ```text
/// let text = json5_serde::to_string(alloc, &server)?;
/// ```
///
/// # Errors
///
/// As [`to_string_within`].
pub fn to_string<T: Serialize>(alloc: Global, value: &T) -> Result<String>
    ensures { IfOk result (λ s. IsWrittenWithin max_depth (string_bytes s)) }
{
    to_string_within(alloc, Limit::full(), value)
}

/// Returns the text of what a type sends, with no more brackets open at once than the limit.
///
/// ```text
/// json5_serde::to_string_within(alloc, Limit::new(1).unwrap(), &server)?
/// ```
///
/// # Errors
///
/// - `TooDeep` for a value that opens more brackets than the limit.
/// - `InvalidKey` for a key that is an array or an object.
/// - A custom fault of the type, or where it sends what is no value.
/// - `Failed` where the type went on after a bracket past the limit or a refused request for memory.
/// - `OutOfMemory` where a request for memory was refused.
pub fn to_string_within<T: Serialize>(alloc: Global, limit: Limit, value: &T) -> Result<String>
    ensures { IfOk result (λ s. IsWrittenWithin limit (string_bytes s)) }
{
    let whole = match sent(alloc, limit, value) {
        Ok(whole) => whole,
        Err(fault) => return Err(told(alloc, fault)),
    };
    // A type may put another writer in the place of its own.
    let WholeText {
        text,
        limit: begun_with,
    } = whole;
    if begun_with.get() == limit.get() {
        return Ok(text);
    }
    Err(told(alloc, Fault::Misplaced))
}

/// The text of what a type sends.
fn sent<T: Serialize>(
    alloc: Global,
    limit: Limit,
    value: &T,
) -> std::result::Result<WholeText, Fault> {
    let mut writer = Json5::new(alloc, limit);
    value.serialize(&mut writer)?;
    writer.finish()
}

/// Returns the bytes of the text of what a type sends, which are UTF-8.
///
/// ```text
/// let bytes = json5_serde::to_vec(alloc, &server)?;
/// ```
///
/// # Errors
///
/// As [`to_string_within`].
pub fn to_vec<T: Serialize>(alloc: Global, value: &T) -> Result<Vec<u8>>
    ensures { IfOk result (λ v. IsWrittenWithin max_depth v.items) }
{
    to_vec_within(alloc, Limit::full(), value)
}

/// Returns the bytes of the text of what a type sends, with no more brackets open at once than the limit.
///
/// ```text
/// json5_serde::to_vec_within(alloc, Limit::new(1).unwrap(), &server)?
/// ```
///
/// # Errors
///
/// As [`to_string_within`].
pub fn to_vec_within<T: Serialize>(alloc: Global, limit: Limit, value: &T) -> Result<Vec<u8>>
    ensures { IfOk result (λ v. IsWrittenWithin limit v.items) }
{
    Ok(to_string_within(alloc, limit, value)?.into_bytes())
}

/// Writes the text of what a type sends to a writer, once it is whole. `flush` isn't called.
///
/// ```text
/// json5_serde::to_writer(alloc, &mut rt.stdout(), &server)?;
/// ```
///
/// # Errors
///
/// As [`to_writer_within`].
pub fn to_writer<T: Serialize, W: Write>(alloc: Global, w: &mut W, value: &T) -> Result<()>
    ensures written { OnOk result (WritesSome max_depth (W.contents w.old) (W.contents w.new)) }
    ensures refused { IfErr result (WritesNone max_depth (W.contents w.old) (W.contents w.new)) }
{
    to_writer_within(alloc, w, Limit::full(), value)
}

/// Writes the text of what a type sends to a writer, once it is whole, with no more brackets open at once than the limit.
/// `flush` isn't called.
///
/// ```text
/// json5_serde::to_writer_within(alloc, &mut rt.stdout(), Limit::new(1).unwrap(), &server)?;
/// ```
///
/// # Errors
///
/// - As [`to_string_within`]: nothing is written then.
/// - A failed write, which has no code, where the writer failed or took no bytes: it holds a prefix of the text.
pub fn to_writer_within<T: Serialize, W: Write>(
    alloc: Global,
    w: &mut W,
    limit: Limit,
    value: &T,
) -> Result<()>
    ensures written { OnOk result (WritesSome limit (W.contents w.old) (W.contents w.new)) }
    ensures refused { IfErr result (WritesNone limit (W.contents w.old) (W.contents w.new)) }
{
    match to_string_within(alloc, limit, value) {
        Ok(text) => match write_whole(w, text.as_bytes()) {
            Ok(()) => Ok(()),
            Err(fault) => Err(Error::from(fault)),
        },
        Err(error) => Err(error),
    }
}
