//! Documents one after another in one text, as JSON Lines has them.

ghost use Rattle.std.specs.Prelude.{◌≡◌, true, false, IfOk, IfErr, string_bytes};
ghost use Rattle.std.specs.Str.{chars};
ghost use Rattle.json5_read.specs.ModelSteps.{IsUnprompted};
ghost use Rattle.json5_convert.specs.Lines.{AreDocuments, RefusesDocuments, RefusesLines, at_start, lines_of};
ghost use Rattle.json5_convert.specs.Streams.{Fails, IsAtStart, RefusesNext, TakesNext, TakesValue};

use json5_read::read::read_value;
use json5_styles::to_json_compact;
use json5_tokens::input::Input;
use json5_tokens::scanner::Scanner;
use json5_types::ErrorCode;
use json5_types::error::{Error, Result};
use json5_types::value::Value;
use std::alloc::Global;
use std::marker::Model;

/// The documents of a text, one after another: each on its own line, or several on one, or over several lines. Blanks and
/// comments may stand between them.
///
/// ```text
/// let mut values = Values::new(alloc, "{a: 1}\n{a: 2}\n");
/// while let Some(value) = values.next()? {
///     println!(rt; "{}", shown(&value))?;
/// }
/// ```
#[derive(Drop)]
pub struct Values<'t> {
    scanner: Scanner<&'t str>,
    has_failed: bool,
}

impl<'t> Model for Values<'t> {
    ghost use Rattle.json5_convert.specs.Streams.{Stream};

    ghost Value = { Stream };

    ghost view = { λ a. record { cursor = a.scanner; has_failed = a.has_failed } };
}

impl<'t> Values<'t> {
    /// Begins at the start of a text.
    ///
    /// ```text
    /// let mut values = Values::new(alloc, "1 2");
    /// ```
    pub fn new(alloc: Global, text: &'t str) -> Values<'t>
        ensures { IsAtStart text.now result }
    {
        Values {
            scanner: Scanner::new(alloc, text),
            has_failed: false,
        }
    }

    /// Reads the next document, nested at most 128 deep; None after the last. After a refusal every call is refused with
    /// `Failed`.
    ///
    /// ```text
    /// values.next()?    // Some(1), then Some(2), then None of `1 2`
    /// ```
    ///
    /// # Errors
    ///
    /// As `json5_read::read_value`, with positions in the whole text.
    pub fn next(&mut self) -> Result<Option<Value>>
        ensures taken { IfOk result (TakesNext self.old self.new) }
        ensures refused { IfErr result (Fails self.old self.new) }
    {
        if self.has_failed {
            return Err(Error::new(ErrorCode::Failed));
        }
        self.has_failed = true;
        let value = next_value(&mut self.scanner)?;
        self.has_failed = false;
        Ok(value)
    }
}

/// Reads the next document.
pub(crate) fn next_value<I: Input>(scanner: &mut Scanner<I>) -> Result<Option<Value>>
    ensures taken { IfOk result (TakesValue scanner.old scanner.new) }
    ensures unprompted { IfErr result IsUnprompted }
    ensures faulty { IfErr result (RefusesNext scanner.old) }
{
    scanner.skip_blank()?;
    match scanner.peek() {
        None => Ok(None),
        Some(_) => {
            let value = read_value(scanner, 128)?;
            Ok(Some(value))
        }
    }
}

/// Returns the documents of a text, one after another, in their order: see [`Values`].
///
/// ```text
/// from_lines(alloc, "{a: 1}\n{a: 2}\n")?    // two values
/// ```
///
/// # Errors
///
/// As [`Values::next`], of the first document that it refuses.
pub fn from_lines(alloc: Global, text: &str) -> Result<Vec<Value>>
    ensures read { IfOk result (λ values. AreDocuments (chars text.now) values.items) }
    ensures refused { IfErr result (RefusesDocuments (at_start text.now)) }
{
    let mut documents = Values::new(alloc, text);
    let mut values = Vec::new(alloc);
    while let Some(value) = documents.next()? {
        values.push(value)?;
    }
    Ok(values)
}

/// Returns the values as JSON, each on a line of its own.
///
/// ```text
/// to_lines(alloc, &[json5!(1), json5!("a")])?    // 1 and "a", each with a line end
/// ```
///
/// # Errors
///
/// As `json5_styles::to_json_compact`, of the first value that it refuses.
pub fn to_lines(alloc: Global, values: &[Value]) -> Result<String>
    ensures lines { IfOk result (λ made. string_bytes made ≡ lines_of values.now) }
    ensures refused { IfErr result (RefusesLines values.now) }
{
    let mut made = String::new(alloc);
    for value in values {
        let line = to_json_compact(alloc, value)?;
        made.push_str(line.as_str())?;
        made.push('\n')?;
    }
    Ok(made)
}
