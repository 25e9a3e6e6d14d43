//! Multiples of a number, by decimal digits, so that no digit is rounded.

ghost use Rattle.std.specs.Prelude.{◌≡◌, ◌<◌, ◌<ℤ◌, ◌+ℤ◌, ◌^◌, ◌*◌, ◌%◌, pos, Some, IfSome, MatchOption, MatchResult};
ghost use Rattle.std.specs.Str.Parse.{digits_value};
ghost use Rattle.json5_grammar.specs.Language.Characters.{is_digit, Each};
ghost use Rattle.json5_grammar.specs.Written.NumberText.{IsNormal};
ghost use Rattle.json5_types.specs.ValueMeanings.{value_of};
ghost use Rattle.json5_schema.specs.Conformance.{digits_divide, is_multiple, is_multiple_of};
ghost use Rattle.json5_schema.specs.Divisors.{IsSmallDivisor};
ghost use Rattle.json5_schema.specs.Views.{IsRefusal};

use json5_numbers::DecimalExt;
use json5_types::ErrorCode;
use json5_types::decimal::Decimal;
use json5_types::error::{Error, Result};
use json5_types::value::Value;
use std::alloc::Global;

/// What digits leave when they are divided by a number.
fn remainder(digits: &str, divisor: u128) -> u128
    requires digits { Each is_digit digits.now }
    requires divisor { IsSmallDivisor divisor }
    ensures { result ≡ digits_value 10 digits.now % divisor }
{
    let mut rest = 0;
    for digit in digits.as_bytes() {
        rest = (rest * 10 + u128::from(*digit - b'0')) % divisor;
    }
    rest
}

/// What a number with so many zeros behind it leaves.
fn with_zeros(number: u128, zeros: u32, divisor: u128) -> u128
    requires small { divisor < 2 ^ 64 }
    requires below { number < divisor }
    ensures { result ≡ number * 10 ^ zeros % divisor }
{
    let mut rest = number;
    for _ in 0..zeros {
        rest = rest * 10 % divisor;
    }
    rest
}

/// How many zeros an exponent has more than another one, if it isn't below it.
fn zeros_over(exponent: i16, other: i16) -> Option<u32>
    ensures { MatchOption result (exponent <ℤ other) (λ zeros. exponent ≡ other +ℤ pos zeros) }
{
    u32::try_from(i32::from(exponent) - i32::from(other)).ok()
}

/// The number that the digits spell, if it is below 2^64.
fn spelled(digits: &str) -> Option<u128>
    requires { Each is_digit digits.now }
    ensures value { IfSome result (λ number. number ≡ digits_value 10 digits.now) }
    ensures small { IfSome result (λ number. number < 2 ^ 64) }
{
    if digits.is_empty() {
        return Some(0);
    }
    Some(u128::from(digits.parse::<u64>().ok()?))
}

/// Whether digits, times ten to an exponent, divide others; None where they are 2^64 or more.
fn digits_divide(divisor: &str, power: i16, digits: &str, exponent: i16) -> Option<bool>
    requires divisor { IsNormal divisor.now power }
    requires digits { IsNormal digits.now exponent }
    ensures { IfSome result (λ b. b ≡ digits_divide divisor.now power digits.now exponent) }
{
    let number = spelled(divisor)?;
    if number == 0 {
        return Some(false);
    }
    match zeros_over(exponent, power) {
        Some(zeros) => Some(with_zeros(remainder(digits, number), zeros, number) == 0),
        // digits that don't end in zero are no multiple of ten
        None => Some(digits.is_empty()),
    }
}

/// Whether the number is a multiple of another; None where the other's digits are 2^64 or more.
fn is_multiple(number: &Decimal, divisor: &Decimal) -> Option<bool>
    ensures { IfSome result (λ b. b ≡ is_multiple number.now divisor.now) }
{
    if number.is_infinite() || number.is_nan() || divisor.is_infinite() || divisor.is_nan() {
        return Some(false);
    }
    digits_divide(
        divisor.digits(),
        divisor.exponent(),
        number.digits(),
        number.exponent(),
    )
}

/// What is answered of two decimals.
fn answered(multiple: Option<bool>) -> Result<bool>
    ensures { MatchResult result (λ b. multiple ≡ Some b) IsRefusal }
{
    multiple.ok_or(Error::new(ErrorCode::OverflowParsingNumber))
}

/// What `multipleOf` asserts.
pub fn is_multiple_of(alloc: Global, divisor: &Value, value: &Value) -> Result<bool>
    ensures { MatchResult result (λ b. b ≡ is_multiple_of (value_of divisor.now) (value_of value.now)) IsRefusal }
{
    match (divisor, value) {
        (Value::Whole(divisor), Value::Whole(number)) => {
            let divisor = Decimal::from_whole(alloc, *divisor)?;
            answered(is_multiple(&Decimal::from_whole(alloc, *number)?, &divisor))
        }
        (Value::Whole(divisor), Value::Decimal(number)) => {
            answered(is_multiple(number, &Decimal::from_whole(alloc, *divisor)?))
        }
        (Value::Decimal(divisor), Value::Whole(number)) => {
            answered(is_multiple(&Decimal::from_whole(alloc, *number)?, divisor))
        }
        (Value::Decimal(divisor), Value::Decimal(number)) => answered(is_multiple(number, divisor)),
        _ => Ok(true),
    }
}
