//! Hexadecimal integer literals: ECMAScript 5.1 section 7.8.3.

ghost use Rattle.std.specs.Prelude.{MatchResult};
ghost use Rattle.std.specs.Str.{chars};
ghost use Rattle.json5_grammar.specs.Model.ReadNumbers as model;
ghost use Rattle.json5_tokens.specs.TokenResults.{AnswersAs};
ghost use Rattle.json5_tokens.specs.NumberParts.{scanned_of};
ghost use Rattle.json5_tokens.specs.ScanHexadecimal.{GivesHex, Overflows};

use crate::char::front;
use crate::numbers::slices::{Scanned, one_more};
use crate::refusal::Refusal;
use json5_grammar::error_code::ErrorCode;
use json5_types::whole::Whole;

/// The value of a first hexadecimal digit and those in front, and what follows them; or what begins with the digit that takes it
/// past `u128`.
fn hexadecimal_digits(first: u32, text: &str) -> Result<(u128, &str), &str>
    ensures { MatchResult result (λ p. GivesHex first (chars text.now) p.0 p.1.now) (λ rest. Overflows first (chars text.now) rest.now) }
{
    let mut value = u128::from(first);
    let mut rest = text;
    while let Some(byte) = rest.as_bytes().first() {
        let Some(digit) = char::from(*byte).to_digit(16) else {
            return Ok((value, rest));
        };
        let Some(more) = one_more(16, value, digit) else {
            return Err(rest);
        };
        value = more;
        rest = rest.split_at(1).1;
    }
    Ok((value, rest))
}

/// Reads what follows `0x`; `start` is the input from the number's start (ECMAScript 5.1 section 7.8.3).
pub(crate) fn read_hex_integer<'t>(
    start: &str,
    negative: bool,
    text: &'t str,
) -> Result<(Scanned<'t>, &'t str), Refusal>
    ensures { AnswersAs scanned_of (model.hexadecimal (chars start.now) negative (chars text.now)) result }
{
    let Some((first, digits)) = front(text) else {
        return Err(Refusal::TokenError {
            code: ErrorCode::EofParsingNumber,
            remaining: None,
        });
    };
    let Some(digit) = first.to_digit(16) else {
        return Err(Refusal::TokenError {
            code: ErrorCode::ExpectedNumber,
            remaining: Some(text.len()),
        });
    };
    match hexadecimal_digits(digit, digits) {
        Ok((magnitude, rest)) => match Whole::from_parts(negative, magnitude) {
            Some(whole) => Ok((Scanned::Whole(whole), rest)),
            None => Err(Refusal::TooLarge(start.len())),
        },
        Err(rest) => Err(Refusal::TokenError {
            code: ErrorCode::OverflowParsingNumber,
            remaining: Some(rest.len()),
        }),
    }
}
