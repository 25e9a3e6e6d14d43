//! Strings (JSON5 section 5, ECMAScript 5.1 section 7.8.4).

ghost use Rattle.std.specs.Prelude.{◌≡◌, ◌≤◌, length};
ghost use Rattle.std.specs.Str.{chars};
ghost use Rattle.json5_grammar.specs.Language.Strings.{is_quote, is_raw};
ghost use Rattle.json5_tokens.specs.TokenResults.{AnswersCow, AnswersOwned, Passes};
ghost use Rattle.json5_tokens.specs.Scan.{SkipsAll};
ghost use Rattle.json5_tokens.specs.ScanTextTokens.{AnswersToken};
ghost use Rattle.json5_tokens.specs.ScanTexts.{quote_of, string_at, AnswersQuote};

use crate::byte_runs::raw_end;
use crate::char::front;
use crate::refusal::Refusal;
use crate::strings_and_names::{Kind, Quote, read_text, read_text_owned, skip_escapes, skip_stop};
use crate::text_token::TextToken;
use json5_grammar::error_code::ErrorCode;
use json5_types::cow_str::CowStr;
use std::alloc::Global;

/// What the string in front spells, and what follows the string (JSON5 section 5, ECMAScript 5.1 section 7.8.4). It is borrowed
/// if the string has no backslash.
pub(crate) fn read_string<'t>(
    alloc: Global,
    text: &'t str,
) -> Result<(CowStr<'t>, &'t str), Refusal>
    ensures { AnswersCow (string_at (chars text.now)) result }
{
    let (quote, body) = read_quote(text)?;
    read_text(alloc, Kind::String(quote), body)
}

/// An owned copy of what the string in front spells, and what follows the string (JSON5 section 5).
pub(crate) fn read_string_owned(alloc: Global, text: &str) -> Result<(String, &str), Refusal>
    ensures { AnswersOwned (string_at (chars text.now)) result }
{
    let (quote, body) = read_quote(text)?;
    read_text_owned(alloc, Kind::String(quote), body)
}

/// The token of the string in front, and what follows the string. `end` is the length in bytes of the whole input, of which
/// `text` is the rest.
pub(crate) fn read_string_token(
    alloc: Global,
    end: usize,
    text: &str,
) -> Result<(TextToken, &str), Refusal>
    requires { length text.now ≤ end }
    ensures { AnswersToken end (chars text.now) (string_at (chars text.now)) result }
{
    let (quote, body) = read_quote(text)?;
    let (string, rest) = read_text(alloc, Kind::String(quote), body)?;
    Ok((TextToken::new(end, body.len(), string), rest))
}

/// What follows the string in front (JSON5 section 5).
pub(crate) fn skip_string(text: &str) -> Result<&str, Refusal>
    ensures { Passes (string_at (chars text.now)) result }
{
    let (quote, body) = read_quote(text)?;
    let kind = Kind::String(quote);
    skip_stop(kind, skip_escapes(kind, skip_raw(quote, body)))
}

/// The quote in front, and what follows it (JSON5 section 5).
fn read_quote(text: &str) -> Result<(Quote, &str), Refusal>
    ensures { AnswersQuote (chars text.now) result }
{
    let Some((c, body)) = front(text) else {
        return Err(Refusal::TokenError {
            code: ErrorCode::EofParsingString,
            remaining: None,
        });
    };
    match c {
        '"' => Ok((Quote::Double, body)),
        '\'' => Ok((Quote::Single, body)),
        _ => Err(Refusal::TokenError {
            code: ErrorCode::ExpectedString,
            remaining: Some(text.len()),
        }),
    }
}

/// Says whether the character begins a string: a double or a single quote (JSON5 section 5).
pub fn is_quote(c: char) -> bool
    ensures { result ≡ is_quote c }
{
    matches!(c, '"' | '\'')
}

/// What follows the characters in front that spell themselves between these quotes (JSON5 section 5).
#[inline(always)]
pub(crate) fn skip_raw(quote: Quote, text: &str) -> &str
    ensures { SkipsAll (is_raw (quote_of quote)) text.now result.now }
{
    let end = raw_end(quote.byte(), text.as_bytes());
    text.split_at(end).1
}
