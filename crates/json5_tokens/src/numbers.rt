//! Reading numbers: JSON5 section 6, ECMAScript 5.1 section 7.8.3.

ghost use Rattle.std.specs.Prelude.{◌≡◌, ◌∷◌, IfSome};
ghost use Rattle.std.specs.Str.{IsUtf8, chars};
ghost use Rattle.json5_grammar.specs.declared.error_code.ErrorCode.TheVariants.{EofParsingNumber, ExpectedNumber};
ghost use Rattle.json5_grammar.specs.Language.Characters.{digit_zero};
ghost use Rattle.json5_grammar.specs.Language.Numbers as numbers;
ghost use Rattle.json5_grammar.specs.Model.ReadNumbers as model;
ghost use Rattle.json5_grammar.specs.Model.Reading.{word_at};
ghost use Rattle.json5_tokens.specs.TokenResults.{GivesValue, AnswersAs, AnswersNumber, AnswersWhole};
ghost use Rattle.json5_types.specs.NumberMeanings.{number_of};
ghost use Rattle.json5_tokens.specs.NumberParts.{scanned_of};

mod decimal_literals;
mod hexadecimal;
mod short;
mod short_skips;
mod slices;

use crate::char::front;
use crate::numbers::decimal_literals::{read_decimal_literal, split_sign};
use crate::numbers::hexadecimal::read_hex_integer;
use crate::numbers::short::front_whole;
use crate::numbers::slices::{Scanned, judge};
use crate::refusal::Refusal;
use crate::words::skip_word;
use json5_grammar::error_code::ErrorCode;
use json5_types::number::Number;
use json5_types::whole::Whole;
use std::alloc::Global;

/// The decimal run in front, which begins a number, and what follows it.
fn read_decimal_run<'t>(
    start: &str,
    negative: bool,
    text: &'t str,
) -> Result<(Scanned<'t>, &'t str), Refusal>
    ensures { AnswersAs scanned_of (model.decimal_run (chars start.now) negative (chars text.now)) result }
{
    let Some(literal) = read_decimal_literal(text) else {
        return Err(Refusal::InvalidNumber(start.len()));
    };
    let number = judge(start, negative, &literal)?;
    Ok((number, literal.rest))
}

/// What begins with `0`: a hexadecimal number, a decimal literal or zero (ECMAScript 5.1 section 7.8.3); `rest` is what follows
/// the `0`.
fn read_after_zero<'t>(
    start: &str,
    negative: bool,
    text: &'t str,
    rest: &'t str,
) -> Result<(Scanned<'t>, &'t str), Refusal>
    requires zero { chars text.now ≡ digit_zero ∷ chars rest.now }
    requires text { IsUtf8 rest.now }
    ensures { AnswersAs scanned_of (model.at_zero (chars start.now) negative (chars rest.now)) result }
{
    let Some((c, after)) = front(rest) else {
        return Ok((Scanned::Whole(Whole::from_u128(0)), rest));
    };
    match c {
        '0'..='9' => Err(Refusal::TokenError {
            code: ErrorCode::LeadingZero,
            remaining: Some(start.len()),
        }),
        'x' | 'X' => read_hex_integer(start, negative, after),
        '.' | 'e' | 'E' => read_decimal_run(start, negative, text),
        _ => Ok((Scanned::Whole(Whole::from_u128(0)), rest)),
    }
}

/// The number that is a word, `Infinity` or `NaN` (JSON5 section 6), and what follows the word's other letters.
fn read_number_word<'t>(
    number: Scanned<'t>,
    letters: &str,
    text: &'t str,
) -> Result<(Scanned<'t>, &'t str), Refusal>
    ensures { AnswersAs scanned_of (word_at EofParsingNumber ExpectedNumber (scanned_of number.entry) (chars letters.now) (chars text.now)) result }
{
    let rest = skip_word(
        letters,
        text,
        ErrorCode::EofParsingNumber,
        ErrorCode::ExpectedNumber,
    )?;
    Ok((number, rest))
}

/// A number without its sign; `start` is the input from the sign on, if there is one (JSON5 section 6).
fn read_unsigned<'t>(
    start: &str,
    negative: bool,
    text: &'t str,
) -> Result<(Scanned<'t>, &'t str), Refusal>
    ensures { AnswersAs scanned_of (model.unsigned (chars start.now) negative (chars text.now)) result }
{
    let Some((first, rest)) = front(text) else {
        return Err(Refusal::TokenError {
            code: ErrorCode::EofParsingNumber,
            remaining: None,
        });
    };
    match first {
        'I' => read_number_word(Scanned::Infinite(negative), "nfinity", rest),
        'N' => read_number_word(Scanned::NotANumber(negative), "aN", rest),
        '0' => read_after_zero(start, negative, text, rest),
        '1'..='9' | '.' => read_decimal_run(start, negative, text),
        _ => Err(Refusal::TokenError {
            code: ErrorCode::ExpectedNumber,
            remaining: Some(text.len()),
        }),
    }
}

/// The number in front, its digits slices of the input, and what follows it (JSON5 section 6).
fn scan(text: &str) -> Result<(Scanned<'_>, &str), Refusal>
    ensures { AnswersAs scanned_of (model.number (chars text.now)) result }
{
    let (negative, rest) = split_sign(text);
    read_unsigned(text, negative, rest)
}

/// The number in front, if it is a whole one of few digits, and what follows it.
#[inline(always)]
fn whole_of_few_digits(text: &str) -> Option<(Whole, &str)>
    ensures { IfSome result (λ p. GivesValue (model.number (chars text.now)) (numbers.whole p.0) p.1.now) }
{
    let (number, rest) = front_whole(text)?;
    Some((Whole::from_i128(number), rest))
}

/// The number in front, and what follows it (JSON5 section 6). Whole numbers, infinity and not-a-number take no memory.
pub(crate) fn read_number(alloc: Global, text: &str) -> Result<(Number, &str), Refusal>
    ensures { AnswersNumber number_of (model.number (chars text.now)) result }
{
    if let Some((whole, rest)) = whole_of_few_digits(text) {
        return Ok((Number::Whole(whole), rest));
    }
    let (scanned, rest) = scan(text)?;
    let number = scanned.to_number(alloc)?;
    Ok((number, rest))
}

/// The number in front if it is whole, and what follows the number, whole or not (JSON5 section 6).
pub(crate) fn skip_number(text: &str) -> Result<(Option<Whole>, &str), Refusal>
    ensures { AnswersWhole (model.number (chars text.now)) result }
{
    let (scanned, rest) = scan(text)?;
    Ok((scanned.whole(), rest))
}
