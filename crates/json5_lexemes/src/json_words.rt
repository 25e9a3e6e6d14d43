//! Numbers and literals of JSON (RFC 8259, sections 3 and 6).

ghost use Rattle.std.specs.Prelude.{◌≡◌, ◌↔◌, ◌∷◌, [], true, false};
ghost use Rattle.std.specs.Str.{chars};
ghost use Rattle.json5_grammar.specs.Language.Characters.{NotBegun};
ghost use Rattle.json5_styles.specs.Json.{Exponent, JsonNumber};
ghost use Rattle.json5_lexemes.specs.PlainSteps.{AfterDigits, AreAscii, Digits, GoesOn, GoesOnIf, IsEmpty, IsPastAll, Leaves, PassesDigits, SignedDigits, Then, Unsigned, is_exponent_letter, is_exponent_sign};
ghost use Rattle.json5_lexemes.specs.SameLexemes.{is_word_part};

use crate::rest::{front, past_byte};
use crate::same::is_word_part;
use json5_types::digit_runs::digits_len;

/// What follows these four characters of ASCII, if they are in front.
#[inline(always)]
pub(crate) fn skip_four(text: &str, first: u8, second: u8, third: u8, fourth: u8) -> Option<&str>
    requires { AreAscii first second third fourth }
    ensures { IsPastAll (first ∷ second ∷ third ∷ fourth ∷ []) text.now result }
{
    let Some(after_first) = past_byte(text, first) else {
        return None;
    };
    let Some(after_second) = past_byte(after_first, second) else {
        return None;
    };
    let Some(after_third) = past_byte(after_second, third) else {
        return None;
    };
    past_byte(after_third, fourth)
}

/// Whether a part of a number, a literal or a name of JSON5 is in front.
#[inline(always)]
pub(crate) fn begins_word(text: &str) -> bool
    ensures { (result ≡ false) ↔ NotBegun is_word_part (chars text.now) }
{
    !ends_word(text) && front_is_part(text)
}

/// The same for any character.
#[inline(never)]
pub(crate) fn front_is_part(text: &str) -> bool
    ensures { (result ≡ false) ↔ NotBegun is_word_part (chars text.now) }
{
    match front(text) {
        Some((c, _)) => is_word_part(c),
        None => false,
    }
}

/// Whether one of the characters that mostly follow a number or a literal is in front, or nothing.
#[inline(always)]
fn ends_word(text: &str) -> bool
    ensures { result ≡ true → NotBegun is_word_part (chars text.now) }
{
    let bytes = text.as_bytes();
    if bytes.is_empty() {
        return true;
    }
    if bytes[0] == b',' {
        return true;
    }
    if bytes[0] == b']' {
        return true;
    }
    if bytes[0] == b'\n' {
        return true;
    }
    bytes[0] == b'}'
}

/// What follows the number in front, which no part of a word may follow; None if it is none.
#[inline(always)]
pub(crate) fn skip_number(text: &str) -> Option<&str>
    ensures { Leaves (Then JsonNumber) text.now result }
{
    let Some(exponent) = skip_decimal(text) else {
        return None;
    };
    end_number(exponent)
}

/// What follows the number in front, but for its exponent; None if it is none.
#[inline(always)]
pub(crate) fn skip_decimal(text: &str) -> Option<&str>
    ensures { GoesOnIf JsonNumber Exponent text.now result }
{
    let Some(fraction) = skip_integer(skip_minus(text)) else {
        return None;
    };
    skip_fraction(fraction)
}

/// What follows an exponent, if there is one, and no part of a word; None if it is none.
#[inline(always)]
pub(crate) fn end_number(text: &str) -> Option<&str>
    ensures { Leaves (Then Exponent) text.now result }
{
    if ends_word(text) {
        return Some(text);
    }
    let Some(rest) = skip_exponent(text) else {
        return None;
    };
    if front_is_part(rest) {
        return None;
    }
    Some(rest)
}

/// What follows a minus, if there is one.
#[inline(always)]
fn skip_minus(text: &str) -> &str
    ensures { GoesOn JsonNumber Unsigned text.now result.now }
{
    match past_byte(text, b'-') {
        Some(after) => after,
        None => text,
    }
}

/// What follows digits of which no zero is in front of others. A digit after such a zero is left.
#[inline(always)]
fn skip_integer(text: &str) -> Option<&str>
    ensures { GoesOnIf Unsigned AfterDigits text.now result }
{
    match past_byte(text, b'0') {
        Some(after) => Some(after),
        None => skip_some_digits(text),
    }
}

/// What follows a point and digits, if there is a point.
#[inline(always)]
fn skip_fraction(text: &str) -> Option<&str>
    ensures { GoesOnIf AfterDigits Exponent text.now result }
{
    match past_byte(text, b'.') {
        Some(after) => skip_some_digits(after),
        None => Some(text),
    }
}

/// What follows an exponent, if there is one.
#[inline(always)]
fn skip_exponent(text: &str) -> Option<&str>
    ensures { GoesOnIf Exponent IsEmpty text.now result }
{
    let Some((c, after)) = front(text) else {
        return Some(text);
    };
    if is_exponent_letter(c) {
        return skip_some_digits(skip_sign(after));
    }
    Some(text)
}

#[inline(always)]
fn is_exponent_letter(c: char) -> bool
    ensures { result ≡ is_exponent_letter c }
{
    c == 'e' || c == 'E'
}

/// What follows a plus or a minus, if there is one.
fn skip_sign(text: &str) -> &str
    ensures { GoesOn SignedDigits Digits text.now result.now }
{
    let Some((c, after)) = front(text) else {
        return text;
    };
    if is_exponent_sign(c) { after } else { text }
}

#[inline(always)]
fn is_exponent_sign(c: char) -> bool
    ensures { result ≡ is_exponent_sign c }
{
    c == '+' || c == '-'
}

/// What follows digits; None where there are none.
#[inline(always)]
fn skip_some_digits(text: &str) -> Option<&str>
    ensures { PassesDigits text.now result }
{
    let len = digits_len(text.as_bytes());
    if len == 0 {
        return None;
    }
    Some(text.split_at(len).1)
}
