//! Numbers whose digits are slices of the input, and the values that digits spell.

ghost use Rattle.std.specs.Prelude.{◌≡◌, MatchResult, IfSome, IsSome, Some, ℕ, List, true, false, pos, ◌-ℤ◌, ◌↔◌, ◌^◌, ◌+◌, ◌*◌, ◌≤◌, ◌<◌, min, MatchOption};
ghost use Rattle.std.specs.Str.{chars};
ghost use Rattle.json5_grammar.specs.Language.Characters.{is_digit, Each};
ghost use Rattle.json5_grammar.specs.Language.Numbers as numbers;
ghost use Rattle.json5_grammar.specs.Model.ReadNumbers as model;
ghost use Rattle.json5_tokens.specs.TokenResults.{JudgesNumber};
ghost use Rattle.json5_types.specs.NumberMeanings.{number_of, keeps_digits, whole_in};
ghost use Rattle.json5_tokens.specs.NumberParts.{scanned_of, parts_of, signed_limited, limited_exponent, is_whole_literal, HasExponentDigits, HasDigits, digits_of, MeansDecimal, MeansFinite};
ghost use Rattle.json5_grammar.specs.Written.NumberText.{IsNormal};
ghost use Rattle.json5_types.specs.Exponents.{IsSmallExponent};
ghost use Rattle.json5_grammar.specs.Language.Numbers.{spelled};
ghost use Rattle.json5_grammar.specs.Model.FixedWidthNumbers.{checked};

use crate::numbers::decimal_literals::{DecimalLiteral, Exponent};
use crate::numbers::short::front_digits;
use crate::refusal::Refusal;
use json5_grammar::error_code::ErrorCode;
use json5_types::decimal::{Decimal, DecimalRef};
use json5_types::inline_digits::InlineDigits;
use json5_types::number::Number;
use json5_types::whole::Whole;
use std::alloc::{AllocError, Global};

/// A number as it is read from the input; a finite decimal's digits are slices of the input.
#[derive(Drop)]
pub(crate) enum Scanned<'t> {
    Whole(Whole),
    /// Infinity, after a minus or not.
    Infinite(bool),
    /// Not-a-number, after a minus or not.
    NotANumber(bool),
    Finite(DecimalRef<'t>),
}

impl<'t> Scanned<'t> {
    /// The same number with owned digits.
    pub(crate) fn to_number(&self, alloc: Global) -> Result<Number, AllocError>
        ensures { MatchResult result (λ n. number_of n ≡ scanned_of self.now) (λ _. keeps_digits (scanned_of self.now) ≡ true) }
    {
        match self {
            Scanned::Whole(whole) => Ok(Number::Whole(*whole)),
            Scanned::Infinite(negative) => Ok(Number::Decimal(Decimal::infinity(*negative))),
            Scanned::NotANumber(negative) => Ok(Number::Decimal(Decimal::nan(*negative))),
            Scanned::Finite(decimal) => Ok(Number::Decimal(decimal.to_decimal(alloc)?)),
        }
    }

    /// The number, if it is whole.
    pub(crate) fn whole(&self) -> Option<Whole>
        ensures { result ≡ whole_in (scanned_of self.now) }
    {
        match self {
            Scanned::Whole(whole) => Some(*whole),
            Scanned::Infinite(_) | Scanned::NotANumber(_) | Scanned::Finite(_) => None,
        }
    }
}

/// The exponent as it is written, or `EXPONENT_LIMIT` with its sign if that is nearer to zero.
fn written_exponent(exponent: &Exponent) -> i128
    requires { HasExponentDigits exponent.now }
    ensures { result ≡ signed_limited EXPONENT_LIMIT exponent.now }
{
    let value = limited_value(exponent.digits) as i128;
    if exponent.negative { -value } else { value }
}

/// The literal's exponent, 0 if it has none, lowered by the count of digits after the point.
fn lowered_exponent(literal: &DecimalLiteral, places: usize) -> i128
    requires { IfSome literal.now.exponent HasExponentDigits }
    ensures value { result ≡ limited_exponent EXPONENT_LIMIT literal.now.exponent -ℤ pos places }
    ensures small { IsSmallExponent result }
{
    let written = match &literal.exponent {
        Some(exponent) => written_exponent(exponent),
        None => 0,
    };
    written - places as i128
}

/// The whole number that a literal without point and exponent means, if it is in range.
fn whole_number(negative: bool, literal: &DecimalLiteral) -> Option<Whole>
    requires { Each is_digit literal.now.before.now }
    ensures whole { IsSome result ↔ (is_whole_literal negative literal.now ≡ true) }
    ensures value { IfSome result (λ z. z ≡ numbers.signed negative (numbers.spelled 10 0 literal.now.before.now)) }
{
    if literal.after.is_some() || literal.exponent.is_some() {
        return None;
    }
    let magnitude = decimal_value(literal.before)?;
    Whole::from_parts(negative, magnitude)
}

/// The decimal that a literal means if it means no whole number in range; None if its exponent is out of range.
pub(crate) fn finite_decimal<'t>(
    negative: bool,
    literal: &DecimalLiteral<'t>,
) -> Option<DecimalRef<'t>>
    requires digits { HasDigits literal.now }
    requires other { is_whole_literal negative literal.now ≡ false }
    ensures { MeansDecimal negative literal.now result }
{
    let after = literal.after.unwrap_or("");
    let exponent = lowered_exponent(literal, after.len());
    DecimalRef::new(negative, literal.before, after, exponent)
}

/// The exponent of the decimal that a literal of these digits means if it means no whole number in range, once the zeros are off
/// their end; None if it is out of range.
#[inline(always)]
pub(crate) fn few_exponent(literal: &DecimalLiteral, digits: &mut InlineDigits) -> Option<i16>
    requires parts { HasDigits literal.now }
    requires gathered { digits.old ≡ numbers.without_front_zeros (digits_of literal.now) }
    ensures means { IfSome result (λ exponent. MeansFinite literal.now digits.new exponent) }
    ensures normal { IfSome result (λ exponent. IsNormal digits.new exponent) }
{
    let after = literal.after.unwrap_or("");
    digits.normalize(lowered_exponent(literal, after.len()))
}

/// The number that a literal means; `start` is the input from the number's start.
pub(crate) fn judge<'t>(
    start: &str,
    negative: bool,
    literal: &DecimalLiteral<'t>,
) -> Result<Scanned<'t>, Refusal>
    requires { HasDigits literal.now }
    ensures { (rest : List ℕ) → JudgesNumber (model.if_literal (chars start.now) negative rest (Some (parts_of literal.now))) rest result }
{
    if let Some(whole) = whole_number(negative, literal) {
        return Ok(Scanned::Whole(whole));
    }
    let Some(decimal) = finite_decimal(negative, literal) else {
        return Err(Refusal::TokenError {
            code: ErrorCode::OverflowParsingNumber,
            remaining: Some(start.len()),
        });
    };
    Ok(Scanned::Finite(decimal))
}

/// An exponent past this is out of range, however many digits an input may have.
pub(crate) const EXPONENT_LIMIT: u128 = 1 << 100;

/// One more digit, if the value stays within `u128`.
pub(crate) fn one_more(radix: u128, value: u128, digit: u32) -> Option<u128>
    ensures value { MatchOption result (2 ^ 128 ≤ value * radix + digit) (λ r. r ≡ value * radix + digit) }
    ensures bound { IfSome result (λ r. r < 2 ^ 128) }
{
    value.checked_mul(radix)?.checked_add(u128::from(digit))
}

/// The value of decimal digits, if it is within `u128`.
pub(crate) fn decimal_value(digits: &str) -> Option<u128>
    requires { Each is_digit digits.now }
    ensures { result ≡ checked (2 ^ 128) 10 0 digits.now }
{
    let mut value: u128 = 0;
    for byte in digits.as_bytes() {
        value = one_more(10, value, u32::from(byte - b'0'))?;
    }
    Some(value)
}

/// The value of decimal digits, or `EXPONENT_LIMIT` where that is less.
pub(crate) fn limited_value(digits: &str) -> u128
    requires { Each is_digit digits.now }
    ensures { result ≡ min EXPONENT_LIMIT (spelled 10 0 digits.now) }
{
    let bytes = digits.as_bytes();
    let few = front_digits(bytes);
    if few.len == bytes.len() {
        return u128::from(few.value);
    }
    let mut value: u128 = 0;
    for byte in bytes {
        value = (value * 10 + u128::from(byte - b'0')).min(EXPONENT_LIMIT);
    }
    value
}
