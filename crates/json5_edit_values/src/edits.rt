//! The edits.

ghost use Rattle.json5_edit_style.specs.declared.habits.Names.TheVariants as layout_names;
ghost use Rattle.json5_edit_values.specs.Refusals.{IsPlaceless};
ghost use Rattle.json5_edit_values.specs.Trees.{InsertsAs, PushesAs, PutsInAs, SetsTo};

use crate::choices::Choices;
use crate::seats::Goes;
use crate::spelled::spelled;
use json5_edit::{EditError, Result, Step, insert_element, insert_in, push, set};
use json5_ser::Serialize;
use json5_types::ErrorCode;
use json5_types::error::Error;
use std::alloc::Global;

/// Returns the text with the value that the path leads to replaced by this one, spelled as the text is: as JSON, if that
/// is JSON but for comments and JSON has the value, else as json5 writes it. It stands on one line, if that has at most
/// 80 characters and the old value stands on one, else on lines that are indented like the document's.
///
/// ```text
/// set_value(alloc, "{ port: 80 } // web", &[Step::Key("port")], &8080u16)?    // { port: 8080 } // web
/// ```
///
/// # Errors
///
/// - `Value` with the error of `json5::to_string`, if the value can't be written; `TooDeep` too, if it is nested too deep
///   for its place. It has no position.
/// - `Text`, `Nowhere` and `NoMemory` as [`set`].
pub fn set_value<T: Serialize>(
    alloc: Global,
    text: &str,
    path: &[Step<'_>],
    value: &T,
) -> Result<String>
    ensures { SetsTo (T.tree value.now) text.now path.now result }
{
    set_value_in(alloc, Choices::of_text(), text, path, value)
}

/// As [`set_value`], with these choices.
///
/// ```text
/// set_value_in(alloc, choices, text, path, value)?    // with Some(Layout::compact()) a list stands as [80,443]
/// ```
///
/// # Errors
///
/// As [`set_value`].
pub fn set_value_in<T: Serialize>(
    alloc: Global,
    choices: Choices,
    text: &str,
    path: &[Step<'_>],
    value: &T,
) -> Result<String>
    ensures { SetsTo (T.tree value.now) text.now path.now result }
{
    let new = spelled(alloc, value, text, path, Goes::Instead, choices.layout)?;
    match set(alloc, text, path, new.as_str()) {
        Ok(made) => Ok(made),
        Err(error) => Err(placeless(error)),
    }
}

/// Returns the text with one more element at the end of the array that the path leads to: this value, spelled and laid
/// out as [`set_value`] does. The rest is as [`push`] has it.
///
/// ```text
/// push_value(alloc, "{ ports: [80] }", &[Step::Key("ports")], &443u16)?    // { ports: [80, 443] }
/// ```
///
/// # Errors
///
/// - `Value` as [`set_value`].
/// - `Text`, `Nowhere`, `NotArray` and `NoMemory` as [`push`].
pub fn push_value<T: Serialize>(
    alloc: Global,
    text: &str,
    path: &[Step<'_>],
    value: &T,
) -> Result<String>
    ensures { PushesAs (T.tree value.now) text.now path.now result }
{
    push_value_in(alloc, Choices::of_text(), text, path, value)
}

/// As [`push_value`], with these choices.
///
/// ```text
/// push_value_in(alloc, choices, text, path, value)?    // with Some(Layout::compact()) a list stands as [80,443]
/// ```
///
/// # Errors
///
/// As [`push_value`].
pub fn push_value_in<T: Serialize>(
    alloc: Global,
    choices: Choices,
    text: &str,
    path: &[Step<'_>],
    value: &T,
) -> Result<String>
    ensures { PushesAs (T.tree value.now) text.now path.now result }
{
    let new = spelled(alloc, value, text, path, Goes::Last(0), choices.layout)?;
    match push(alloc, text, path, new.as_str()) {
        Ok(made) => Ok(made),
        Err(error) => Err(placeless(error)),
    }
}

/// Returns the text with one more element of the array that the path leads to, before that with this index: this value,
/// spelled and laid out as [`set_value`] does. The rest is as [`insert_element`] has it.
///
/// ```text
/// insert_element_value(alloc, "{ ports: [443] }", &[Step::Key("ports")], 0, &80u16)?    // { ports: [80, 443] }
/// ```
///
/// # Errors
///
/// - `Value` as [`set_value`].
/// - `Text`, `Nowhere`, `NotArray` and `NoMemory` as [`insert_element`].
pub fn insert_element_value<T: Serialize>(
    alloc: Global,
    text: &str,
    path: &[Step<'_>],
    index: usize,
    value: &T,
) -> Result<String>
    ensures { PutsInAs (T.tree value.now) text.now path.now index result }
{
    insert_element_value_in(alloc, Choices::of_text(), text, path, index, value)
}

/// As [`insert_element_value`], with these choices.
///
/// ```text
/// insert_element_value_in(alloc, choices, text, path, index, value)?    // with Some(Layout::compact()) a list stands as [80,443]
/// ```
///
/// # Errors
///
/// As [`insert_element_value`].
pub fn insert_element_value_in<T: Serialize>(
    alloc: Global,
    choices: Choices,
    text: &str,
    path: &[Step<'_>],
    index: usize,
    value: &T,
) -> Result<String>
    ensures { PutsInAs (T.tree value.now) text.now path.now index result }
{
    let new = spelled(
        alloc,
        value,
        text,
        path,
        Goes::Before(index),
        choices.layout,
    )?;
    match insert_element(alloc, text, path, index, new.as_str()) {
        Ok(made) => Ok(made),
        Err(error) => Err(placeless(error)),
    }
}

/// Returns the text with one more member, the last, of the object that the path leads to: this key, and this value,
/// spelled and laid out as [`set_value`] does. The rest is as [`insert_in`] has it, with names between quotes.
///
/// ```text
/// insert_value(alloc, "{ host: 'a' }", &[], "port", &80u16)?    // { host: 'a', port: 80 }
/// ```
///
/// # Errors
///
/// - `Value` as [`set_value`].
/// - `Text`, `Nowhere`, `NotObject`, `Taken` and `NoMemory` as [`insert_in`].
pub fn insert_value<T: Serialize>(
    alloc: Global,
    text: &str,
    path: &[Step<'_>],
    key: &str,
    value: &T,
) -> Result<String>
    ensures { InsertsAs layout_names.Quoted (T.tree value.now) text.now path.now key.now result }
{
    insert_value_in(alloc, Choices::of_text(), text, path, key, value)
}

/// As [`insert_value`], with these choices.
///
/// ```text
/// insert_value_in(alloc, choices, text, path, key, value)?    // with Some(Layout::compact()) a list stands as [80,443]
/// ```
///
/// # Errors
///
/// As [`insert_value`].
pub fn insert_value_in<T: Serialize>(
    alloc: Global,
    choices: Choices,
    text: &str,
    path: &[Step<'_>],
    key: &str,
    value: &T,
) -> Result<String>
    ensures { InsertsAs choices.names (T.tree value.now) text.now path.now key.now result }
{
    let new = spelled(
        alloc,
        value,
        text,
        path,
        Goes::Last(key.len()),
        choices.layout,
    )?;
    match insert_in(alloc, text, path, key, new.as_str(), choices.names) {
        Ok(made) => Ok(made),
        Err(error) => Err(placeless(error)),
    }
}

/// The same error; of a value that doesn't fit, without a position in the text that was written of it.
fn placeless(error: EditError) -> EditError
    ensures { IsPlaceless error result }
{
    match error {
        EditError::Value(_) => EditError::Value(Error::new(ErrorCode::TooDeep)),
        other => other,
    }
}
