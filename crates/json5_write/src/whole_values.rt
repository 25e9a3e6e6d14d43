//! Writing a whole value of any kind, to a string or to a writer.

ghost use Rattle.std.specs.Prelude.{string_bytes, OnOk, IfOk, IfErr};
ghost use Rattle.std.specs.Str.{IsUtf8};
ghost use Rattle.json5_write.specs.ValueTrees.{value_tree, value_text};
ghost use Rattle.json5_write.specs.Writes.{WritesTree, fresh_within, ended_within};
ghost use Rattle.json5_write.specs.WholeOutputs.{IsText, RefusesToString, IsTextOf, RefusesTextOf};

use crate::Printer;
use crate::lent::Lent;
use crate::refusal::{Put, Refused};
use crate::string_writer::StringWriter;
use crate::value::put_value;
use json5_types::ErrorCode;
use json5_types::error::{Error, Result};
use json5_types::nesting::Limit;
use json5_types::value::Value;
use std::alloc::Global;
use std::io::Write;

/// Writes the text of a value to a writer, with no more brackets open at once than the limit. `flush` isn't called.
///
/// ```text
/// json5_write::to_writer(&mut rt.stdout(), Limit::full(), &value)?;
/// ```
///
/// # Errors
///
/// None has a position.
/// - `TooDeep` at the bracket past the limit: the writer holds exactly the text before it.
/// - A failed write, which has no code, where the writer failed or took no bytes: it holds a prefix of the text.
pub fn to_writer<W: Write>(w: &mut W, limit: Limit, value: &Value) -> Result<()>
    ensures { WritesTree (value_tree value.now) (fresh_within limit (W.contents w.old)) result (ended_within limit (W.contents w.new) result) }
{
    let mut printer = Printer::within(Lent { writer: w }, limit);
    let printed = put_value(value, &mut printer);
    let Lent { writer } = printer.into_inner();
    let _ = &*writer;
    Ok(printed?)
}

/// Returns the text of a value, with no more brackets open at once than the limit.
///
/// ```text
/// json5_write::to_string(alloc, Limit::full(), &value)?
/// ```
///
/// # Errors
///
/// None has a position.
/// - `TooDeep` for a value that opens more brackets than the limit.
/// - `OutOfMemory` where a request for memory was refused.
pub fn to_string(alloc: Global, limit: Limit, value: &Value) -> Result<String>
    ensures whole { IfOk result (λ s. IsText (value_text limit value.now) (string_bytes s)) }
    ensures refused { IfErr result (RefusesToString (value_text limit value.now)) }
{
    let mut printer = Printer::within(StringWriter::new(alloc), limit);
    let printed = put_value(value, &mut printer);
    text_of(printed, printer.into_inner().into_bytes())
}

/// Returns what was written as a string, or why it wasn't: the writer of a string fails only where memory is refused.
///
/// # Errors
///
/// The error of the refusal, without a position; `OutOfMemory` where the writer failed.
pub fn text_of(printed: Put, bytes: Vec<u8>) -> Result<String>
    requires { OnOk printed (IsUtf8 bytes.items) }
    ensures text { IfOk result (IsTextOf printed bytes.items) }
    ensures refused { IfErr result (RefusesTextOf printed) }
{
    match printed {
        Ok(()) => Ok(unsafe { String::from_utf8_unchecked(bytes) }),
        Err(Refused::ByWriter) => Err(Error::new(ErrorCode::OutOfMemory)),
        Err(refused) => Err(Error::from(refused)),
    }
}
