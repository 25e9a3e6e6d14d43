//! Strings and keys between quotes.
//!
//! Plain code: what it makes is read again.

use crate::faults::{RespellError, Result};
use crate::spelling::Quotes;
use json5_lexemes::is_plain_with;
use json5_styles::json_runs::skip_unescaped_within;
use json5_styles::to_json_string;
use json5_tokens::scanner::Scanner;
use json5_types::cow_str::CowStr;
use json5_types::nesting::Limit;
use json5_write::Printer;
use json5_write::string_writer::StringWriter;
use std::alloc::Global;

/// Whether a string without an escape that is spelled so stays, where these quotes are asked for. This and the two below may
/// say no of a string that stays.
#[inline(always)]
pub(crate) fn keeps_short(quotes: Quotes, token: &str) -> bool {
    // Without an escape no quotes make it shorter.
    !matches!(quotes, Quotes::Json) || token.starts_with('"') && ends_unescaped(token)
}

/// The same of a string with escapes.
#[inline(always)]
pub(crate) fn keeps_escapes(quotes: Quotes, token: &str) -> bool {
    match quotes {
        Quotes::Own => true,
        Quotes::Json => false,
        Quotes::Fewest => lacks_double_quotes(token),
    }
}

/// The same of a string of this text.
pub(crate) fn keeps_string(quotes: Quotes, token: &str, text: &str) -> bool {
    token.len() <= text.len().saturating_add(2) && keeps_short(quotes, token)
}

/// Whether a string is in double quotes, and surely has none in its text, escaped or spelled as `\x22` or `\u0022`.
fn lacks_double_quotes(token: &str) -> bool {
    match token.strip_prefix('"') {
        Some(text) => {
            text.find('"') == Some(text.len().saturating_sub(1)) && !text.contains("22")
        }
        None => false,
    }
}

/// Whether a string between double quotes has no escape, and no character that JSON escapes.
#[inline(always)]
fn ends_unescaped(token: &str) -> bool {
    match token.split_at_checked(1) {
        Some((_, inside)) => skip_unescaped_within(inside).len() == 1,
        None => false,
    }
}

/// Whether the text has no character that JSON escapes.
#[inline(always)]
pub(crate) fn needs_no_escape(text: &str) -> bool {
    skip_unescaped_within(text).is_empty()
}

/// Appends a string that is spelled so, between these quotes.
pub(crate) fn push_string(
    alloc: Global,
    made: &mut String,
    quotes: Quotes,
    token: &str,
) -> Result<()> {
    match quotes {
        Quotes::Own => Ok(made.push_str(token)?),
        Quotes::Json if is_plain_with(false, token) => Ok(made.push_str(token)?),
        Quotes::Json => push_json_string(alloc, made, text_of(alloc, token)?.as_str()),
        Quotes::Fewest => push_shorter(alloc, made, token),
    }
}

/// The text of a string that is spelled so.
fn text_of(alloc: Global, token: &str) -> Result<CowStr<'_>> {
    Ok(Scanner::new(alloc, token).string()?)
}

/// Appends a string that is spelled so in other quotes, if it is shorter then.
fn push_shorter(alloc: Global, made: &mut String, token: &str) -> Result<()> {
    let other = quoted(alloc, text_of(alloc, token)?.as_str())?;
    let is_shorter = other.len() < token.len() && !token.starts_with(first(other.as_str()));
    Ok(made.push_str(if is_shorter { other.as_str() } else { token })?)
}

/// Appends a string of this text as JSON has it.
fn push_json_string(alloc: Global, made: &mut String, text: &str) -> Result<()> {
    let json = to_json_string(alloc, text)?;
    Ok(made.push_str(json.as_str())?)
}

/// The text as json5 writes it, between the quotes that are for it.
fn quoted(alloc: Global, text: &str) -> Result<String> {
    let mut printer = Printer::within(StringWriter::new(alloc), Limit::full());
    if printer.put_quoted(text).is_err() {
        return Err(RespellError::NoMemory);
    }
    match String::from_utf8(printer.into_inner().into_bytes()) {
        Ok(made) => Ok(made),
        Err(_) => Err(RespellError::Failed),
    }
}

/// The quote in front.
fn first(token: &str) -> &str {
    if token.starts_with('"') { "\"" } else { "'" }
}

/// Whether the text is a name of ASCII letters, digits, `_` and `$`.
pub(crate) fn is_ascii_name(text: &str) -> bool {
    let mut begun = false;
    for byte in text.bytes() {
        if !matches!(byte, b'a'..=b'z' | b'A'..=b'Z' | b'_' | b'$')
            && !(begun && byte.is_ascii_digit())
        {
            return false;
        }
        begun = true;
    }
    begun
}
