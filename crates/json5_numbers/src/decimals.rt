//! Floats of decimals.

ghost use Rattle.std.specs.Prelude.{◌≡◌, ◌++◌, ◌∷◌, IfSome, IfOk, MatchResult, string_bytes};
ghost use Rattle.std.specs.Float.{binary64};
ghost use Rattle.std.specs.Float.Ieee.{inf};
ghost use Rattle.std.specs.Fmt.{signed_decimal};
ghost use Rattle.std.specs.Str.Parse.{digits_value};
ghost use Rattle.json5_grammar.specs.Language.Characters.{is_digit, Each, letter_e};
ghost use Rattle.json5_types.specs.Errors.{LacksMemory};
ghost use Rattle.json5_types.specs.NumberDecimals.{digits_in, exponent_in};
ghost use Rattle.json5_numbers.specs.Floats.{nearest_to};

use fast_float::{FastFloat, Numeral};
use json5_types::decimal::Decimal;
use json5_types::error::Result;
use std::alloc::{AllocError, Global};

/// Returns the float nearest to a decimal, with ties to even: an infinity where it is too large, and zero with its sign where it is
/// too small. Only a number of more than 19 digits takes memory.
///
/// ```text
/// to_f64(alloc, settings.get("ratio")?.as_decimal()?)?    // 0.1 of `{ratio: 0.1}`
/// ```
///
/// # Errors
///
/// - `OutOfMemory`, without a position, where a request for memory was refused.
pub fn to_f64(alloc: Global, number: &Decimal) -> Result<f64>
    ensures { MatchResult result (λ x. x ≡ nearest_to binary64 number.now) LacksMemory }
{
    let negative = number.is_negative();
    if number.is_nan() {
        return Ok(f64::not_a_number());
    }
    if number.is_infinite() {
        return Ok(infinity(negative));
    }
    match few_digits(number.digits()) {
        Some(value) => {
            let exponent = i64::from(number.exponent());
            Ok(fast_float::from_parts(negative, value, exponent))
        }
        None => {
            let text = spelled(alloc, number)?;
            Ok(Numeral::scan(text.as_bytes()).to_float(negative))
        }
    }
}

/// Infinity with this sign.
fn infinity(negative: bool) -> f64
    ensures { result ≡ inf negative }
{
    let size = f64::of_bits(f64::INFINITY_BITS);
    if negative { size.negated() } else { size }
}

/// The number that the digits spell, if it has 64 bits; no digits spell 0.
fn few_digits(digits: &str) -> Option<u64>
    requires { Each is_digit digits.now }
    ensures { IfSome result (λ n. n ≡ digits_value 10 digits.now) }
{
    if digits.is_empty() {
        return Some(0);
    }
    fast_float::parse_u64(digits.as_bytes()).ok()
}

/// The digits, an `e` and the exponent.
fn spelled(alloc: Global, number: &Decimal) -> std::result::Result<String, AllocError>
    ensures { IfOk result (λ text. string_bytes text ≡ digits_in number.now ++ letter_e ∷ signed_decimal (exponent_in number.now)) }
{
    let digits = number.digits();
    let exponent = number.exponent();
    format!(in alloc; "{digits}e{exponent}")
}
