//! A text converted.

use crate::formats::{Format, Layout};
use crate::options::Options;
use crate::sorted_keys::sorted;
use json5_convert::{
    RespellError, Spelling, Values, from_lines, from_toml, respell, to_lines, to_toml,
    to_toml_with_dates,
};
use json5_read::read_document;
use json5_styles::{to_json_in, to_string_in};
use json5_types::error::{Error, Result};
use json5_types::value::Value;
use json5_types::{ErrorCode, Position};
use std::alloc::Global;

/// A converted text, and the faults of the lines that were passed over.
#[derive(Drop)]
pub struct Converted {
    pub text: String,
    pub faults: Vec<Error>,
}

/// Returns the text converted as the options and the name say: tokens spelled anew where a document of JSON5 or JSON becomes
/// another, else the value written. An array and the lines of its elements are converted into each other. Where lines are
/// to be passed over that can't be read, their faults come with it, in their order.
///
/// ```text
/// convert(alloc, &Options::usual(), "conf.json5", "{port: 0x50}")?.text    // {"port": 80}
/// ```
///
/// # Errors
///
/// - As `json5_convert::respell`; a number that JSON lacks is refused with a custom fault at its position.
/// - As `Values::next` of json5_convert, where the text has a document a line.
/// - As `json5_convert::from_toml` and `json5_convert::to_toml`.
pub fn convert(alloc: Global, options: &Options, name: &str, text: &str) -> Result<Converted> {
    let mut faults = Vec::new(alloc);
    let target = options.target(name);
    let value = match (options.source(name), target) {
        (Format::Lines, _) if options.keeps_going => Value::Array(lines(alloc, text, &mut faults)?),
        (Format::Lines, _) => Value::Array(from_lines(alloc, text)?),
        (Format::Toml, _) => from_toml(alloc, text)?,
        (_, Format::Lines | Format::Toml) => read_document(alloc, text)?,
        _ => {
            let text = respelled(alloc, options, target, text)?;
            return Ok(Converted { text, faults });
        }
    };
    let text = written(alloc, options, target, value)?;
    Ok(Converted { text, faults })
}

/// The documents of the lines that can be read, each for itself; of the others the faults.
fn lines(alloc: Global, text: &str, faults: &mut Vec<Error>) -> Result<Vec<Value>> {
    let mut list = Vec::new(alloc);
    for (line, part) in text.split('\n').enumerate() {
        let Err(fault) = read_line(alloc, part, &mut list) else {
            continue;
        };
        if fault.code() == Some(ErrorCode::OutOfMemory) {
            return Err(fault);
        }
        faults.push(in_line(line, part, fault))?;
    }
    Ok(list)
}

/// Puts the documents of a line, up to the first that can't be read, to the list.
fn read_line(alloc: Global, line: &str, list: &mut Vec<Value>) -> Result<()> {
    let mut values = Values::new(alloc, line);
    // Each document has a character.
    for _ in 0..=line.len() {
        match values.next()? {
            Some(value) => list.push(value)?,
            None => return Ok(()),
        }
    }
    Ok(())
}

/// The fault of the line with this number at its place in the text; one without a place is at the end of the line.
fn in_line(line: usize, part: &str, fault: Error) -> Error {
    let position = fault.position().unwrap_or(Position::after(part));
    fault.at(Position {
        line: line.saturating_add(position.line),
        column: position.column,
    })
}

/// The value written, with its members in the order that is asked for.
fn written(alloc: Global, options: &Options, target: Format, value: Value) -> Result<String> {
    let layout = options.layout;
    let value = if options.sorts_keys {
        sorted(alloc, &value)?
    } else {
        value
    };
    match (target, value) {
        (Format::Lines, Value::Array(items)) => to_lines(alloc, items.as_slice()),
        (Format::Lines, value) => to_lines(alloc, &[value]),
        (Format::Toml, value) if options.has_dates => to_toml_with_dates(alloc, &value),
        (Format::Toml, value) => to_toml(alloc, &value),
        (Format::Json5, value) => ended(to_string_in(alloc, style_of(layout), &value)?),
        (_, value) => ended(to_json_in(alloc, style_of(layout), &value)?),
    }
}

fn style_of(layout: Layout) -> json5_styles::Layout {
    match layout {
        Layout::Own => json5_styles::Layout::expanded(),
        Layout::Compact => json5_styles::Layout::compact(),
        Layout::Indented(0) => json5_styles::Layout::tabbed(),
        Layout::Indented(spaces) => json5_styles::Layout::indented(spaces),
    }
}

/// The text with a line end.
fn ended(mut text: String) -> Result<String> {
    text.push('\n')?;
    Ok(text)
}

/// The document spelled anew, or its value written in the layout or the order that is asked for.
fn respelled(alloc: Global, options: &Options, target: Format, text: &str) -> Result<String> {
    match options.layout {
        Layout::Own if !options.sorts_keys => spelled(alloc, options.spelling(target), text),
        _ => written(alloc, options, target, read_document(alloc, text)?),
    }
}

/// The document spelled anew.
fn spelled(alloc: Global, spelling: Spelling, text: &str) -> Result<String> {
    match respell(alloc, text, spelling) {
        Ok(made) => Ok(made),
        Err(RespellError::Text(error)) => Err(error),
        Err(RespellError::Number(position)) => Err(Error::custom_at(
            alloc,
            position,
            "JSON has no infinity and no not-a-number",
        )?),
        Err(RespellError::NoMemory) => Err(Error::new(ErrorCode::OutOfMemory)),
        Err(RespellError::Failed) => Err(Error::new(ErrorCode::Failed)),
    }
}
