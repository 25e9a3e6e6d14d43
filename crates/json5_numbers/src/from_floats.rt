//! Decimals of floats.

ghost use Rattle.std.specs.Prelude.{◌≡◌, ◌+◌, ◌^◌, ◌<◌, ◌≤◌, ◌==◌, length, drop, slice_index, if◌then◌else◌, IsTrue, IfSome, MatchOption, MatchResult};
ghost use Rattle.std.specs.Float.{binary64, float_is_finite};
ghost use Rattle.std.specs.Str.Parse.{AllDigits, digits_value};
ghost use Rattle.fast_float.specs.Text.{nearest};
ghost use Rattle.json5_types.specs.Errors.{LacksMemory};
ghost use Rattle.json5_numbers.specs.Floats.{nearest_to, last_place};

use fast_float::Numeral;
use json5_types::decimal::{Decimal, DecimalRef};
use json5_types::error::Result;
use json5_types::inline_digits::InlineDigits;
use ryu::Buffer;
use std::alloc::Global;
use std::str;

/// Returns the decimal of the digits with which a float is printed: the shortest that read back as this float, at most 17.
/// Infinities and not-a-number stay what they are, and zero keeps its sign. It takes no memory.
///
/// ```text
/// from_f64(alloc, 0.1)?    // 0.1, the digit 1 and the exponent -1
/// ```
///
/// # Errors
///
/// - `OutOfMemory`, without a position, where a request for memory was refused.
pub fn from_f64(alloc: Global, number: f64) -> Result<Decimal>
    ensures { MatchResult result (λ d. nearest_to binary64 d ≡ number) LacksMemory }
{
    if number.is_nan() {
        return Ok(Decimal::nan(false));
    }
    if number.is_infinite() {
        return Ok(Decimal::infinity(number.is_sign_negative()));
    }
    from_finite(alloc, number)
}

/// The decimal of the digits with which a finite float is printed. What is printed with an exponent out of range is zero.
fn from_finite(alloc: Global, number: f64) -> Result<Decimal>
    requires { IsTrue (float_is_finite number) }
    ensures { MatchResult result (λ d. nearest_to binary64 d ≡ number) LacksMemory }
{
    let mut buffer = Buffer::new();
    let text = buffer.format_finite(number);
    let (negative, size) = split_sign(text.as_bytes());
    let numeral = Numeral::scan(size);
    match exact(negative, &numeral) {
        Some(found) => Ok(found.to_decimal(alloc)?),
        None => Ok(InlineDigits::empty().into_decimal(negative, 0)),
    }
}

/// Whether a minus is in front, and what follows it.
fn split_sign(text: &[u8]) -> (bool, &[u8])
    ensures sign { result.0 ≡ (slice_index text.now 0 == 45) }
    ensures rest { result.1.now ≡ drop (if result.0 then 1 else 0) text.now }
{
    if !text.is_empty() && text[0] == b'-' {
        (true, &text[1..])
    } else {
        (false, text)
    }
}

/// The number that the numeral writes, if its exponent is in range.
fn exact<'a>(negative: bool, numeral: &Numeral<'a>) -> Option<DecimalRef<'a>>
    requires { length numeral.now.whole + length numeral.now.fraction ≤ 25 }
    ensures { MatchOption result (400 ≤ digits_value 10 numeral.now.exponent) (λ d. nearest_to binary64 d ≡ nearest binary64 negative numeral.now) }
{
    let exponent = last_place(numeral)?;
    DecimalRef::new(
        negative,
        as_text(numeral.whole()),
        as_text(numeral.fraction()),
        exponent,
    )
}

/// The digits as a text.
fn as_text(digits: &[u8]) -> &str
    requires { AllDigits 10 digits.now }
    ensures { result.now ≡ digits.now }
{
    unsafe { str::from_utf8_unchecked(digits) }
}

/// The power of ten of the last digit, if the size of the exponent has 64 bits.
fn last_place(numeral: &Numeral<'_>) -> Option<i128>
    ensures value { MatchOption result (2 ^ 64 ≤ digits_value 10 numeral.now.exponent) (λ e. e ≡ last_place numeral.now) }
    ensures bound { IfSome result (λ _. digits_value 10 numeral.now.exponent < 2 ^ 64) }
{
    let places = numeral.fraction().len() as i128;
    let digits = numeral.exponent();
    if digits.is_empty() {
        return Some(-places);
    }
    let size = i128::from(fast_float::parse_u64(digits).ok()?);
    if numeral.is_exponent_negative() {
        Some(-size - places)
    } else {
        Some(size - places)
    }
}
