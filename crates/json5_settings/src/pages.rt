//! A page of settings.

use crate::listed::{Setting, check_paths, settings_of};
use crate::samples::spelled;
use crate::schemas::words_at;
use json5_edit::{EditError, Result};
use json5_styles::{Layout, to_string_in};
use json5_types::value::Value;
use std::alloc::{AllocError, Global};

/// Returns a table in Markdown with a line for each setting of the value: its path, its value as the default, and the words
/// of its path. An object with members has a line if it has words.
///
/// ```text
/// page(alloc, &layers.merged()?, &[("port", "Where it listens.")])?
/// ```
///
/// ```text
/// | Setting | Default | Meaning |
/// |---|---|---|
/// | `port` | `80` | Where it listens. |
/// ```
///
/// # Errors
///
/// As [`schema`](crate::schema).
pub fn page(alloc: Global, value: &Value, comments: &[(&str, &str)]) -> Result<String> {
    spelled(alloc, value)?;
    check_paths(alloc, value, comments)?;
    let mut page = String::from_str(alloc, "| Setting | Default | Meaning |\n|---|---|---|\n")?;
    for setting in &settings_of(alloc, value)? {
        let words = words_at(comments, setting.path.as_str());
        if words.is_some() || is_innermost(setting.value) {
            push_line(alloc, &mut page, setting, words.unwrap_or(""))?;
        }
    }
    Ok(page)
}

/// Whether no setting is inside it.
fn is_innermost(value: &Value) -> bool {
    match value {
        Value::Object(fields) => fields.is_empty(),
        _ => true,
    }
}

/// Appends the line of a setting.
fn push_line(alloc: Global, page: &mut String, setting: &Setting<'_>, words: &str) -> Result<()> {
    page.push_str("| ")?;
    push_code(page, setting.path.as_str())?;
    page.push_str(" |")?;
    if is_innermost(setting.value) {
        page.push_str(" ")?;
        push_code(page, default_text(alloc, setting.value)?.as_str())?;
    }
    page.push_str(" |")?;
    if !words.is_empty() {
        page.push_str(" ")?;
        push_cell(page, words)?;
    }
    Ok(page.push_str(" |\n")?)
}

/// The value as JSON5, on one line.
fn default_text(alloc: Global, value: &Value) -> Result<String> {
    match to_string_in(alloc, Layout::compact(), value) {
        Ok(text) => Ok(text),
        Err(error) => Err(EditError::of_text(error)),
    }
}

/// Appends a text as code.
fn push_code(page: &mut String, text: &str) -> Result<(), AllocError> {
    let quotes = if text.contains('`') {
        ("`` ", " ``")
    } else {
        ("`", "`")
    };
    page.push_str(quotes.0)?;
    push_cell(page, text)?;
    page.push_str(quotes.1)
}

/// Appends a text within a cell: the table's bars have a backslash in front, and line ends are spaces.
fn push_cell(page: &mut String, text: &str) -> Result<(), AllocError> {
    for c in text.chars() {
        match c {
            '|' => page.push_str("\\|")?,
            '\n' | '\r' => page.push(' ')?,
            _ => page.push(c)?,
        }
    }
    Ok(())
}
