//! One input, from a reader, and formatted to a writer.

ghost use Rattle.std.specs.Prelude.{IfErr, IfSome, MatchResult, OnOk};
ghost use Rattle.json5_write.specs.ValueTrees.{value_tree};
ghost use Rattle.cli_files.specs.Inputs.{ReadFailure};
ghost use Rattle.cli_fmt.specs.Runs.{HoldsValue, HoldsDocument, RunFailure, WritesFormatted, WritesLine};
ghost use Rattle.cli_files.specs.Failures.{NamesMemory};

use cli_files::{Failure, read_text};
use json5_read::{check_document, read_document};
use json5_types::nesting::Limit;
use json5_types::value::Value;
use json5_write::to_writer;
use json5_write::write_whole::write_whole;
use std::alloc::Global;
use std::io::{Read, Write};

/// Reads all of `r`, writes the text of its value and one LF to `w` piece by piece, and flushes `w`.
///
/// ```text
/// run(alloc, &mut rt.stdin(), &mut rt.stdout())?;    // ` +0x1F90 // in hexadecimal` is written as `8080`
/// ```
///
/// # Errors
///
/// - `NotUtf8` where what was read is no UTF-8: nothing was written.
/// - `Text` where it is UTF-8 and no document, with the fault of `json5_format::format`: nothing was written.
/// - `NoMemory` where a request for memory was refused: nothing was written.
/// - `Read` where a read failed, an interrupted one too: nothing was written.
/// - `Write` where a write or the flush failed: a prefix of the output was written.
pub fn run<R: Read, W: Write>(alloc: Global, r: &mut R, w: &mut W) -> Result<(), Failure>
    ensures written { OnOk result (IfSome (R.remaining r.old) (WritesFormatted (W.contents w.old) (W.contents w.new))) }
    ensures stopped { IfErr result (RunFailure (R.remaining r.old) (W.contents w.old) (W.contents w.new)) }
    ensures memory { IfErr result NamesMemory }
{
    let value = read_value(alloc, r)?;
    match write_value(w, &value) {
        Ok(()) => Ok(()),
        Err(_) => Err(Failure::Write),
    }
}

/// Reads all of `r`, and says why it is no document. It writes nothing.
///
/// # Errors
///
/// `NotUtf8`, `Text`, `NoMemory` and `Read`, as [`run`].
pub fn check<R: Read>(alloc: Global, r: &mut R) -> Result<(), Failure>
    ensures read { OnOk result (IfSome (R.remaining r.old) HoldsDocument) }
    ensures stopped { IfErr result (ReadFailure (R.remaining r.old)) }
{
    let text = read_text(alloc, r)?;
    match check_document(alloc, text.as_str()) {
        Ok(()) => Ok(()),
        Err(e) => Err(Failure::at(e)),
    }
}

/// The value of all that is left of the reader. The input isn't kept.
fn read_value<R: Read>(alloc: Global, r: &mut R) -> Result<Value, Failure>
    ensures { MatchResult result (HoldsValue (R.remaining r.old)) (ReadFailure (R.remaining r.old)) }
{
    let text = read_text(alloc, r)?;
    match read_document(alloc, text.as_str()) {
        Ok(value) => Ok(value),
        Err(e) => Err(Failure::at(e)),
    }
}

/// Writes a value and one LF.
fn write_value<W: Write>(w: &mut W, value: &Value) -> json5_types::error::Result<()>
    ensures { WritesLine (value_tree value.now) (W.contents w.old) (W.contents w.new) result }
{
    to_writer(w, Limit::full(), value)?;
    write_whole(w, b"\n")?;
    w.flush()?;
    Ok(())
}
