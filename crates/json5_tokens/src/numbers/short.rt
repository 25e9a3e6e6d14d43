//! Short ways of numbers: a whole number of few digits and a decimal that takes no memory are taken at once. Where a call returns
//! None it takes nothing, and the scanner's other calls say what is in front.

ghost use Rattle.std.specs.Prelude.{IfSome, ◌≡◌, [], true, false, drop};
ghost use Rattle.std.specs.Str.{chars};
ghost use Rattle.json5_tokens.specs.ShortWays.{IsWholeOfFewDigits, TakesShortWhole, TakesShortDecimal};
ghost use Rattle.json5_grammar.specs.Language.Numbers as numbers;
ghost use Rattle.json5_grammar.specs.Written.NumberText.{IsNormal};
ghost use Rattle.json5_grammar.specs.Model.ReadNumbers as model;
ghost use Rattle.json5_tokens.specs.TokenResults.{GivesValue};
ghost use Rattle.json5_tokens.specs.NumberParts.{IsAtRun};
ghost use Rattle.json5_tokens.specs.ByteRuns.{lengthens_digits, SpellsFront, SpellsFewDigits};
ghost use Rattle.json5_grammar.specs.Language.Characters.{NotBegun};

use crate::blanks::{is_in_front, skip_ascii};
use crate::input::Input;
use crate::numbers::decimal_literals::{gather_decimal_literal, split_sign};
use crate::numbers::slices::few_exponent;
use crate::scanner::Scanner;
use json5_types::decimal::Decimal;
use json5_types::inline_digits::InlineDigits;

/// A number of at most 19 decimal digits, and how many digits these are.
#[derive(Clone, Copy)]
pub(crate) struct FewDigits {
    pub(crate) value: u64,
    pub(crate) len: usize,
}

/// Digits in front, as many as 64 bits can surely hold.
#[inline(always)]
pub(crate) fn front_digits(bytes: &[u8]) -> FewDigits
    ensures { SpellsFront bytes.now result }
{
    let mut i = 0;
    let mut value: u64 = 0;
    while i < bytes.len() && bytes[i].is_ascii_digit() && value < 1_000_000_000_000_000_000 {
        value = value * 10 + u64::from(bytes[i] - b'0');
        i += 1;
    }
    FewDigits { value, len: i }
}

/// Whether the byte at this index, if there is one, may continue a number after its digits.
#[inline(always)]
pub(crate) fn number_goes_on(bytes: &[u8], place: usize) -> bool
    ensures { result ≡ false → NotBegun lengthens_digits (drop place bytes.now) }
{
    place < bytes.len()
        && matches!(
            bytes[place],
            b'0'..=b'9' | b'+' | b'-' | b'.' | b'e' | b'E' | b'x' | b'X'
        )
}

/// The number that the few digits in front spell, and what follows it. No zero comes before further digits, and nothing that
/// may continue a number comes after them.
#[inline(always)]
fn few_digits(text: &str) -> Option<(u64, &str)>
    ensures { IfSome result (λ p. SpellsFewDigits text.now p.0 p.1.now) }
{
    let bytes = text.as_bytes();
    let found = front_digits(bytes);
    if found.len == 0 || number_goes_on(bytes, found.len) {
        return None;
    }
    if found.len > 1 && bytes[0] == b'0' {
        return None;
    }
    Some((found.value, text.split_at(found.len).1))
}

/// The whole number in front, if it has few digits, and what follows it.
#[inline(always)]
pub(crate) fn front_whole(text: &str) -> Option<(i128, &str)>
    ensures { IfSome result (λ p. IsWholeOfFewDigits text.now p.0 p.1.now) }
{
    if is_in_front(b'-', text) {
        let (magnitude, rest) = few_digits(text.split_at(1).1)?;
        return Some((-i128::from(magnitude), rest));
    }
    let (magnitude, rest) = few_digits(text)?;
    Some((i128::from(magnitude), rest))
}

impl<I: Input> Scanner<I> {
    /// Takes ASCII blanks and a whole number of at most 19 digits from `min` to `max`, up to where a number can't go on. Returns
    /// None where anything else is in front, and takes nothing then.
    #[inline(always)]
    pub fn short_whole(&mut self, min: i128, max: i128) -> Option<i128>
        ensures { TakesShortWhole min max self.old self.new result }
    {
        let (number, rest) = front_whole(skip_ascii(self.rest(self.input.as_text())))?;
        if number < min || max < number {
            return None;
        }
        let left = rest.len();
        self.set_remaining(left);
        Some(number)
    }

    /// Takes ASCII blanks and a decimal with a point or an exponent whose digits take no memory, up to where a number can't go on.
    /// Returns None where anything else is in front, and takes nothing then.
    #[inline(always)]
    pub fn short_decimal(&mut self) -> Option<Decimal>
        ensures { TakesShortDecimal self.old self.new result }
    {
        let mut digits = InlineDigits::empty();
        let text = skip_ascii(self.rest(self.input.as_text()));
        let (negative, exponent, rest) = front_decimal(&mut digits, text)?;
        let left = rest.len();
        self.set_remaining(left);
        Some(digits.into_decimal(negative, exponent))
    }
}

/// Whether a digit or a point is in front that begins a decimal run; after a first `0` goes a point or an exponent.
#[inline(always)]
fn begins_run(text: &str) -> bool
    ensures { result ≡ true → IsAtRun (chars text.now) }
{
    let bytes = text.as_bytes();
    if bytes.is_empty() {
        return false;
    }
    match bytes[0] {
        b'1'..=b'9' | b'.' => true,
        b'0' => bytes.len() > 1 && matches!(bytes[1], b'.' | b'e' | b'E'),
        _ => false,
    }
}

/// Gathers the digits of the decimal with a point or an exponent in front; returns whether it is negative, its exponent, and what
/// follows it. Returns None if there is no room for the digits.
#[inline(always)]
fn front_decimal<'t>(digits: &mut InlineDigits, text: &'t str) -> Option<(bool, i16, &'t str)>
    requires { digits.old ≡ [] }
    ensures read { IfSome result (λ p. GivesValue (model.number (chars text.now)) (numbers.decimal (numbers.finite p.0 digits.new p.1)) p.2.now) }
    ensures normal { IfSome result (λ p. IsNormal digits.new p.1) }
{
    let (negative, body) = split_sign(text);
    if !begins_run(body) {
        return None;
    }
    let literal = gather_decimal_literal(digits, body)?;
    if literal.after.is_none() && literal.exponent.is_none() {
        return None;
    }
    let exponent = few_exponent(&literal, digits)?;
    Some((negative, exponent, literal.rest))
}
