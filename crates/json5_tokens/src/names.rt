//! Identifiers, and keys, which are strings or identifiers (JSON5 section 3, ECMAScript 5.1 section 7.6).

ghost use Rattle.std.specs.Prelude.{◌≡◌, ◌≤◌, length};
ghost use Rattle.std.specs.Str.{chars};
ghost use Rattle.json5_grammar.specs.Model.ReadTexts.{name_escape, identifier};
ghost use Rattle.json5_tokens.specs.TokenResults.{ReturnsReading, AnswersAs, AnswersCow, Passes};
ghost use Rattle.json5_tokens.specs.Scan.{SkipsAll, SkipsSome, in_list};
ghost use Rattle.json5_tokens.specs.ScanTexts.{fits_name, is_raw_part, item_of_name, SkipsRaw};
ghost use Rattle.json5_tokens.specs.ScanKeys.{key_ahead};
ghost use Rattle.json5_tokens.specs.ScanTextTokens.{AnswersToken};

use crate::char::{front, is_json5_identifier, is_json5_identifier_start};
use crate::escapes::unicode_escape;
use crate::refusal::Refusal;
use crate::short_texts::name_len;
use crate::strings::{is_quote, read_string_token};
use crate::strings_and_names::{Kind, read_text, skip_text};
use crate::text_token::TextToken;
use json5_grammar::error_code::ErrorCode;
use json5_types::cow_str::CowStr;
use std::alloc::Global;

/// The name in front, and what follows it (JSON5 section 3, ECMAScript 5.1 section 7.6). It is borrowed where the name holds no
/// backslash.
pub(crate) fn read_name<'t>(alloc: Global, text: &'t str) -> Result<(CowStr<'t>, &'t str), Refusal>
    ensures { AnswersCow (identifier (chars text.now)) result }
{
    read_text(alloc, Kind::Name, text)
}

/// What follows the name in front (ECMAScript 5.1 section 7.6).
pub(crate) fn skip_name(text: &str) -> Result<&str, Refusal>
    ensures { Passes (identifier (chars text.now)) result }
{
    skip_text(Kind::Name, text)
}

/// The character that an escape spells, if a name may have it there, and what follows the escape (ECMAScript 5.1 section
/// 7.6).
pub(crate) fn read_name_item<'t>(
    is_first: bool,
    escape: &str,
    after: &'t str,
) -> Result<(Option<char>, &'t str), Refusal>
    ensures { AnswersAs in_list (item_of_name is_first (chars escape.now) (chars after.now)) result }
{
    let (c, rest) = read_name_escape(escape, after)?;
    if !fits(is_first, c) {
        return Err(Refusal::TokenError {
            code: ErrorCode::ExpectedIdentifier,
            remaining: Some(escape.len()),
        });
    }
    Ok((Some(c), rest))
}

/// Whether a name may have the character there: as its first one, or after that (ECMAScript 5.1 section 7.6).
fn fits(is_first: bool, c: char) -> bool
    ensures { result ≡ fits_name is_first c }
{
    if is_first {
        is_json5_identifier_start(c)
    } else {
        is_json5_identifier(c)
    }
}

/// The character that a name's escape spells, and what follows the escape (ECMAScript 5.1 section 7.6).
fn read_name_escape<'t>(escape: &str, after: &'t str) -> Result<(char, &'t str), Refusal>
    ensures { ReturnsReading (name_escape (chars escape.now) (chars after.now)) result }
{
    let Some((c, digits)) = front(after) else {
        return Err(Refusal::TokenError {
            code: ErrorCode::EofParsingIdentifier,
            remaining: None,
        });
    };
    if c != 'u' {
        return Err(Refusal::TokenError {
            code: ErrorCode::InvalidEscapeSequence,
            remaining: Some(after.len()),
        });
    }
    unicode_escape(escape, digits)
}

/// What follows the ASCII characters in front that continue a name (ECMAScript 5.1 section 7.6).
fn skip_ascii_parts(text: &str) -> &str
    ensures { SkipsSome is_raw_part text.now result.now }
{
    let len = name_len(text.as_bytes());
    text.split_at(len).1
}

/// What follows the characters in front that begin a name and spell themselves (ECMAScript 5.1 section 7.6).
pub(crate) fn skip_start(text: &str) -> &str
    ensures { SkipsRaw Kind.Name text.now result.now }
{
    match front(text) {
        Some((c, rest)) if c != '\\' && is_json5_identifier_start(c) => skip_parts(rest),
        _ => text,
    }
}

/// What follows the characters in front that continue a name and spell themselves (ECMAScript 5.1 section 7.6).
pub(crate) fn skip_parts(text: &str) -> &str
    ensures { SkipsAll is_raw_part text.now result.now }
{
    let mut rest = skip_ascii_parts(text);
    while let Some((c, next)) = front(rest) {
        if !is_raw_part(c) {
            break;
        }
        rest = skip_ascii_parts(next);
    }
    rest
}

/// Whether the character continues a name and spells itself.
fn is_raw_part(c: char) -> bool
    ensures { result ≡ is_raw_part c }
{
    c != '\\' && is_json5_identifier(c)
}

/// The key in front, and what follows it. `end` is the length in bytes of the whole input, of which `text` is the rest.
pub(crate) fn read_key(alloc: Global, end: usize, text: &str) -> Result<(TextToken, &str), Refusal>
    requires { length text.now ≤ end }
    ensures { AnswersToken end (chars text.now) (key_ahead (chars text.now)) result }
{
    let Some((c, _)) = front(text) else {
        return Err(Refusal::TokenError {
            code: ErrorCode::EofParsingIdentifier,
            remaining: None,
        });
    };
    if is_quote(c) {
        return read_string_token(alloc, end, text);
    }
    let (name, rest) = read_name(alloc, text)?;
    Ok((TextToken::new(end, text.len(), name), rest))
}
