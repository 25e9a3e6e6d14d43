//! Decimal literals: ECMAScript 5.1 section 7.8.3.

ghost use Rattle.std.specs.Prelude.{◌≡◌, ◌||◌, ◌&&◌, not, IfSome};
ghost use Rattle.std.specs.Str.{IsUtf8, chars};
ghost use Rattle.json5_grammar.specs.Language.Characters.{is_digit, Each};
ghost use Rattle.json5_grammar.specs.Language.Numbers as numbers;
ghost use Rattle.json5_grammar.specs.Model.ReadNumbers as model;
ghost use Rattle.json5_tokens.specs.NumberParts.{begun, run_of, split_sign, digits_of, ReadsTail, IsDecimalLiteral, ReadsDecimalLiteral};
ghost use Rattle.json5_types.specs.DigitRuns.{Gathers};

use crate::blanks::is_in_front;
use crate::char::front;
use json5_types::digit_runs::split_digits;
use json5_types::inline_digits::InlineDigits;

/// The exponent of a literal: its sign and its digits.
#[derive(Clone, Copy)]
pub(crate) struct Exponent<'t> {
    pub(crate) negative: bool,
    pub(crate) digits: &'t str,
}

/// The end of a literal: its exponent, if any, and what follows the literal.
#[derive(Clone, Copy)]
struct Tail<'t> {
    exponent: Option<Exponent<'t>>,
    rest: &'t str,
}

/// A decimal literal without its sign: the digits before the point, those after it, and the exponent; and what follows the literal.
#[derive(Clone, Copy)]
pub(crate) struct DecimalLiteral<'t> {
    pub(crate) before: &'t str,
    pub(crate) after: Option<&'t str>,
    pub(crate) exponent: Option<Exponent<'t>>,
    pub(crate) rest: &'t str,
}

/// Whether a minus is in front, and what follows the sign in front, if there is one (JSON5 section 6).
#[inline(always)]
pub(crate) fn split_sign(text: &str) -> (bool, &str)
    ensures sign { split_sign (chars text.now) ≡ (result.0, chars result.1.now) }
    ensures text { IsUtf8 result.1.now }
{
    if is_in_front(b'-', text) {
        return (true, text.split_at(1).1);
    }
    if is_in_front(b'+', text) {
        return (false, text.split_at(1).1);
    }
    (false, text)
}

/// Whether a decimal literal may have the character (ECMAScript 5.1 section 7.8.3).
#[inline(always)]
fn is_in_run(byte: u8) -> bool
    ensures { result ≡ numbers.in_run byte }
{
    matches!(byte, b'0'..=b'9' | b'+' | b'-' | b'.' | b'e' | b'E')
}

/// Whether a decimal run begins or continues in front.
#[inline(always)]
fn run_goes_on(text: &str) -> bool
    ensures { result ≡ begun numbers.in_run (chars text.now) }
{
    let bytes = text.as_bytes();
    !bytes.is_empty() && is_in_run(bytes[0])
}

/// The tail with the exponent whose digits are in front, if the decimal run ends with them (ECMAScript 5.1 section 7.8.3).
#[inline(always)]
fn read_exponent_digits(negative: bool, text: &str) -> Option<Tail>
    ensures { ReadsTail (model.exponent_digits negative (run_of (chars text.now))) text.now result }
{
    let (digits, rest) = split_digits(text);
    if digits.is_empty() {
        return None;
    }
    if run_goes_on(rest) {
        return None;
    }
    Some(Tail {
        exponent: Some(Exponent { negative, digits }),
        rest,
    })
}

/// The tail whose exponent is all of the decimal run in front, or that has no exponent if there is no such run; None if the
/// run is no exponent.
#[inline(always)]
fn read_exponent(text: &str) -> Option<Tail>
    ensures { ReadsTail (model.exponent_at (run_of (chars text.now))) text.now result }
{
    if !run_goes_on(text) {
        return Some(Tail {
            exponent: None,
            rest: text,
        });
    }
    let Some(('e' | 'E', rest)) = front(text) else {
        return None;
    };
    let (negative, digits) = split_sign(rest);
    read_exponent_digits(negative, digits)
}

/// Whether this is `0`, or digits that don't begin with a zero (ECMAScript 5.1 section 7.8.3).
pub(crate) fn is_integer(digits: &str) -> bool
    ensures { result ≡ model.is_integer digits.now }
{
    let bytes = digits.as_bytes();
    bytes.len() == 1 || bytes.len() > 1 && bytes[0] != b'0'
}

/// The literal of these digits and of an exponent, which ends the decimal run (ECMAScript 5.1 section 7.8.3).
#[inline(always)]
fn read_without_point<'t>(before: &'t str, text: &'t str) -> Option<DecimalLiteral<'t>>
    requires { Each is_digit before.now }
    ensures { ReadsDecimalLiteral (model.no_point before.now (run_of (chars text.now))) text.now result }
{
    if !is_integer(before) {
        return None;
    }
    let tail = read_exponent(text)?;
    Some(DecimalLiteral {
        before,
        after: None,
        exponent: tail.exponent,
        rest: tail.rest,
    })
}

/// Whether there is an integer before the point, or digits after it alone (ECMAScript 5.1 section 7.8.3).
fn has_digits(before: &str, after: &str) -> bool
    ensures { result ≡ (model.is_integer before.now || (numbers.is_empty before.now && not (numbers.is_empty after.now))) }
{
    is_integer(before) || before.is_empty() && !after.is_empty()
}

/// The literal of these digits before and after a point, and of an exponent, which ends the decimal run (ECMAScript 5.1 section
/// 7.8.3).
#[inline(always)]
fn read_with_point<'t>(before: &'t str, after: &'t str, text: &'t str) -> Option<DecimalLiteral<'t>>
    requires before { Each is_digit before.now }
    requires after { Each is_digit after.now }
    ensures { ReadsDecimalLiteral (model.at_point before.now after.now (run_of (chars text.now))) text.now result }
{
    if !has_digits(before, after) {
        return None;
    }
    let tail = read_exponent(text)?;
    Some(DecimalLiteral {
        before,
        after: Some(after),
        exponent: tail.exponent,
        rest: tail.rest,
    })
}

/// The literal that is all of the decimal run in front (ECMAScript 5.1 section 7.8.3).
pub(crate) fn read_decimal_literal(text: &str) -> Option<DecimalLiteral>
    ensures { ReadsDecimalLiteral (model.literal_at (run_of (chars text.now))) text.now result }
{
    let (before, rest) = split_digits(text);
    let Some(('.', digits)) = front(rest) else {
        return read_without_point(before, rest);
    };
    let (after, rest) = split_digits(digits);
    read_with_point(before, after, rest)
}

/// The literal that is all of the decimal run in front, whose digits before the exponent are gathered; None too if there is no
/// room for them.
#[inline(always)]
pub(crate) fn gather_decimal_literal<'t>(
    digits: &mut InlineDigits,
    text: &'t str,
) -> Option<DecimalLiteral<'t>>
    ensures literal { IfSome result (IsDecimalLiteral (model.literal_at (run_of (chars text.now))) text.now) }
    ensures gathered { IfSome result (λ literal. Gathers digits.old digits.new (digits_of literal)) }
{
    let (before, rest) = digits.take_digits(text)?;
    if !is_in_front(b'.', rest) {
        return read_without_point(before, rest);
    }
    let (after, rest) = digits.take_digits(rest.split_at(1).1)?;
    read_with_point(before, after, rest)
}
