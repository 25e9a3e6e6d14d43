//! Writing a whole value: `to_string` and `to_writer`, and within a limit.

ghost use Rattle.std.specs.Prelude.{string_bytes, IfOk, IfErr};
ghost use Rattle.std.specs.Str.{chars};
ghost use Rattle.json5_grammar.specs.Language.Documents.{Doc, max_depth};
ghost use Rattle.json5_write.specs.EscapeFreeMarks.{marks};
ghost use Rattle.json5_write.specs.Out.{written_text, text_within};
ghost use Rattle.json5_write.specs.Writes.{WritesTree, fresh, fresh_within, ended, ended_within};
ghost use Rattle.json5_write.specs.WholeOutputs.{IsText, RefusesToString};

use crate::{Serialize, Serializer};
use json5_types::error::Result;
use json5_types::nesting::Limit;
use json5_write::lent::Lent;
use json5_write::string_writer::StringWriter;
use json5_write::{Printer, text_of};
use std::alloc::Global;
use std::io::Write;

/// Writes the text of a value to a writer, in pieces. `flush` isn't called. It is [`to_writer_within`] at the full limit of 128
/// brackets.
///
/// ```text
/// json5::to_writer(&mut rt.stdout(), &port)?;
/// ```
///
/// # Errors
///
/// As [`to_writer_within`].
pub fn to_writer<T: Serialize, W: Write>(w: &mut W, value: &T) -> Result<()>
    ensures { WritesTree (T.tree value.now) (fresh (W.contents w.old)) result (ended (W.contents w.new) result) }
{
    to_writer_within(w, Limit::full(), value)
}

/// Writes the text of a value to a writer, with no more brackets open at once than the limit. `flush` isn't called.
///
/// ```text
/// json5::to_writer_within(&mut rt.stdout(), Limit::new(1).unwrap(), &ports)?;
/// ```
///
/// # Errors
///
/// None has a position.
/// - `TooDeep` at the bracket past the limit: the writer holds exactly the text before it.
/// - `InvalidKey` at a key that can't be written: the writer holds exactly the text before it.
/// - A failed write, which has no code, where the writer failed or took no bytes: it holds a prefix of the text.
pub fn to_writer_within<T: Serialize, W: Write>(w: &mut W, limit: Limit, value: &T) -> Result<()>
    ensures { WritesTree (T.tree value.now) (fresh_within limit (W.contents w.old)) result (ended_within limit (W.contents w.new) result) }
{
    let mut ser = Serializer::within(Lent { writer: w }, limit);
    let result = value.serialize(&mut ser);
    let Lent { writer } = ser.into_inner();
    let _ = &*writer;
    result
}

/// Returns the text of a value, which is a document (JSON5 section 2) and reads back as the tree that was written. It has one
/// line where it is no array and no object. It is [`to_string_within`] at the full limit of 128 brackets.
///
/// ```text
/// json5::to_string(alloc, &8080u16)?    // 8080
/// json5::to_string(alloc, &"it's")?     // "it's"
/// json5::to_string(alloc, &(1u8, 2u8))? // four lines: `[`, `  1,`, `  2,` and `]`
/// ```
///
/// # Errors
///
/// As [`to_string_within`].
pub fn to_string<T: Serialize>(alloc: Global, value: &T) -> Result<String>
    ensures whole { IfOk result (λ s. IsText (written_text (T.tree value.now)) (string_bytes s)) }
    ensures reads_back { IfOk result (λ s. Doc max_depth (chars (string_bytes s)) (marks (T.tree value.now))) }
    ensures refused { IfErr result (RefusesToString (written_text (T.tree value.now))) }
{
    to_string_within(alloc, Limit::full(), value)
}

/// Returns the text of a value as [`to_string`] does, with no more brackets open at once than the limit.
///
/// ```text
/// json5::to_string_within(alloc, Limit::new(0).unwrap(), &8080u16)?    // 8080
/// ```
///
/// # Errors
///
/// None has a position.
/// - `TooDeep` for a value that opens more brackets than the limit.
/// - `InvalidKey` for a key that can't be written: None, an array or an object.
/// - `OutOfMemory` where a request for memory was refused.
pub fn to_string_within<T: Serialize>(alloc: Global, limit: Limit, value: &T) -> Result<String>
    ensures whole { IfOk result (λ s. IsText (text_within limit (T.tree value.now)) (string_bytes s)) }
    ensures reads_back { IfOk result (λ s. Doc limit (chars (string_bytes s)) (marks (T.tree value.now))) }
    ensures refused { IfErr result (RefusesToString (text_within limit (T.tree value.now))) }
{
    let printer = Printer::within(StringWriter::new(alloc), limit);
    let mut ser = Serializer { printer };
    let printed = value.put(&mut ser);
    text_of(printed, ser.printer.into_inner().into_bytes())
}
