//! Types read of bytes, and written as bytes.
//!
//! ```text
//! let port: u16 = json5::from_slice(alloc, bytes)?;
//! ```

ghost use Rattle.std.specs.Prelude.{◌≡◌, true, IsUtf8, IsErrAnd, IsOk, IfErr, Some};
ghost use Rattle.std.specs.Str.{chars};
ghost use Rattle.json5_grammar.specs.Language.Documents.{Doc, max_depth};
ghost use Rattle.json5_grammar.specs.Language.Trees.{Tree};
ghost use Rattle.json5_de.specs.WholeInputs.{ReadsWholeText, BlamesRest};
ghost use Rattle.json5_io.specs.Bytes.{RefusesBytes};

use crate::text_of_bytes;
use json5_de::Deserialize;
use json5_types::error::Result;
use std::alloc::Global;

/// Reads the bytes of a whole text as a `T`, as [`from_str`](json5_de::from_str) does its text. A byte order mark is a blank.
///
/// ```text
/// let port: u16 = json5::from_slice(alloc, b"8080")?;
/// ```
///
/// # Errors
///
/// As [`text_of_bytes`], and as [`from_str`](json5_de::from_str).
pub fn from_slice<'de, T: Deserialize<&'de str>>(alloc: Global, bytes: &'de [u8]) -> Result<T>
    ensures text { IsUtf8 bytes.now → ReadsWholeText T.content T.convert T.refuses max_depth (chars bytes.now) result }
    ensures no_memory { IsUtf8 bytes.now → (t : Tree) (c : T.Content) → Doc max_depth (chars bytes.now) t → T.convert t ≡ Some c → T.allocation_free t ≡ true → IsOk result }
    ensures after_value { IsUtf8 bytes.now → IfErr result (BlamesRest T.convert max_depth (chars bytes.now)) }
    ensures no_text { (IsUtf8 bytes.now → ⊥) → IsErrAnd result (RefusesBytes bytes.now) }
{
    let text = text_of_bytes(alloc, bytes)?;
    json5_de::from_str(alloc, text)
}
