//! The path of the value that an offset lies in: `server.routes[1].methods`.

ghost use Rattle.std.specs.Prelude.{◌≡◌, ◌++◌, IfOk, OnOk, string_bytes};
ghost use Rattle.json5_report.specs.Courses.{crumb_of, open_in};
ghost use Rattle.json5_report.specs.Paths.{crumb_text, path_text, point_after, shown_key};

use crate::course::{Course, Crumb, Open};
use crate::lexemes::Lexeme;
use json5_tokens::char::is_json5_identifier;
use json5_write::identifiers::is_identifier;
use std::alloc::{AllocError, Global};

/// The path of what is open; nothing for the document itself.
pub(crate) fn path_of(alloc: Global, course: &Course<'_>) -> Result<String, AllocError>
    ensures { IfOk result (λ path. string_bytes path ≡ path_text (open_in course.now)) }
{
    let mut path = String::new(alloc);
    for part in &course.outer {
        push_step(&mut path, part)?;
    }
    push_step(&mut path, &course.inner)?;
    Ok(path)
}

/// Adds the index or the key of what is open, if it has one.
fn push_step(path: &mut String, part: &Open<'_>) -> Result<(), AllocError>
    ensures { OnOk result (string_bytes path.new ≡ string_bytes path.old ++ crumb_text (string_bytes path.old) (crumb_of part.now)) }
{
    match &part.crumb {
        Crumb::Array(index) => write!(path, "[{index}]"),
        Crumb::Object(Some(key)) => push_key(path, key.as_str()),
        Crumb::Document | Crumb::Object(None) => Ok(()),
    }
}

/// Adds a key: bare if it is a name, and else in quotes.
fn push_key(path: &mut String, key: &str) -> Result<(), AllocError>
    ensures { OnOk result (string_bytes path.new ≡ string_bytes path.old ++ point_after (string_bytes path.old) ++ shown_key key.now) }
{
    if !path.is_empty() {
        path.push('.')?;
    }
    if is_identifier(key) {
        return path.push_str(key);
    }
    write!(path, "'{key}'")
}

/// A string without its quotes; any other token as it is.
pub(crate) fn unquoted(token: &str) -> &str {
    for quote in ['\'', '"'] {
        if let Some(inner) = token.strip_prefix(quote) {
            return inner.strip_suffix(quote).unwrap_or(inner);
        }
    }
    token
}

/// Whether the token, a key or a string, is of these characters.
pub(crate) fn is_named(text: &str, token: Lexeme, name: &str) -> bool {
    unquoted(token.of(text)) == name
}

/// How long the name is that the text begins with.
pub(crate) fn name_len(text: &str) -> usize {
    text.find(|c| !is_json5_identifier(c)).unwrap_or(text.len())
}
