//! Values written to a writer, in a layout.

ghost use Rattle.std.specs.Prelude.{◌≡◌, true};
ghost use Rattle.json5_types.specs.ValueLookups.{fits};
ghost use Rattle.json5_types.specs.ValueMeanings.{value_of};
ghost use Rattle.json5_styles.specs.Layouts.{laid_in, laid_out, json_text};
ghost use Rattle.json5_styles.specs.WholeTexts.{WritesText, WritesJsonText};
ghost use Rattle.json5_styles.specs.declared.layout.Layout.TheVariants as layout;

use crate::json_values::can_be_written;
use crate::layout::{Form, Layout, Spelling};
use crate::value::put_value;
use crate::whole_texts::json_fault;
use json5_types::ErrorCode;
use json5_types::error::{Error, Result};
use json5_types::nesting::Limit;
use json5_types::value::Value;
use json5_write::Printer;
use json5_write::lent::Lent;
use std::alloc::Global;
use std::io::Write;

/// Writes a value in a form.
fn write_in<W: Write>(w: &mut W, form: Form, value: &Value) -> Result<()>
    requires { fits (value_of value.now) ≡ true }
    ensures { WritesText (laid_in form 0 (value_of value.now)) (value_of value.now) (W.contents w.old) result (W.contents w.new) }
{
    let mut printer = Printer::within(Lent { writer: w }, Limit::full());
    let printed = put_value(value, &form, 0, &mut printer);
    let Lent { writer } = printer.into_inner();
    let _ = &*writer;
    Ok(printed?)
}

/// Writes the text of a value in a layout to a writer, in pieces. `flush` isn't called, and no memory is taken.
///
/// ```text
/// to_writer_in(&mut rt.stdout(), Layout::compact(), &value)?;    // {a:[1,2]}
/// ```
///
/// # Errors
///
/// Neither has a position.
/// - `TooDeep` where more than 128 brackets are open at once in the value: nothing was written.
/// - A failed write, which has no code, where the writer failed or took no bytes: it holds a prefix of the text.
pub fn to_writer_in<W: Write>(w: &mut W, layout: Layout, value: &Value) -> Result<()>
    ensures { WritesText (laid_out layout (value_of value.now)) (value_of value.now) (W.contents w.old) result (W.contents w.new) }
{
    let spelling = Spelling::Json5;
    if !can_be_written(value, spelling) {
        return Err(Error::new(ErrorCode::TooDeep));
    }
    write_in(w, Form { spelling, layout }, value)
}

/// Writes a value as JSON (RFC 8259) in a layout to a writer, in pieces, as [`to_json_in`](crate::to_json_in) returns it. `flush`
/// isn't called, and only the fault of a value that JSON hasn't takes memory.
///
/// ```text
/// to_json_writer_in(alloc, &mut rt.stdout(), Layout::tabbed(), &value)?;
/// ```
///
/// # Errors
///
/// None has a position.
/// - `TooDeep` where more than 128 brackets are open at once in the value: nothing was written.
/// - A custom fault for infinity and for not-a-number, which JSON hasn't: it names the first one's path, and nothing was written.
/// - A failed write, which has no code, where the writer failed or took no bytes: it holds a prefix of the text.
/// - `OutOfMemory` where the request for the custom fault's memory was refused: nothing was written.
pub fn to_json_writer_in<W: Write>(
    alloc: Global,
    w: &mut W,
    layout: Layout,
    value: &Value,
) -> Result<()>
    ensures { WritesJsonText (json_text layout (value_of value.now)) (value_of value.now) (W.contents w.old) result (W.contents w.new) }
{
    let spelling = Spelling::Json;
    if !can_be_written(value, spelling) {
        return Err(json_fault(alloc, value));
    }
    write_in(w, Form { spelling, layout }, value)
}

/// Writes a value as JSON to a writer, with two spaces a level. See [`to_json_writer_in`].
pub fn to_json_writer<W: Write>(alloc: Global, w: &mut W, value: &Value) -> Result<()>
    ensures { WritesJsonText (json_text (layout.Spaces 2) (value_of value.now)) (value_of value.now) (W.contents w.old) result (W.contents w.new) }
{
    to_json_writer_in(alloc, w, Layout::expanded(), value)
}
