//! A short way past numbers: one of few digits is passed over at once, and no number is made of it. Where the call returns false
//! it takes nothing, and the scanner's other calls say what is in front.

ghost use Rattle.std.specs.Prelude.{IfSome};
ghost use Rattle.std.specs.Str.{chars};
ghost use Rattle.json5_grammar.specs.Model.ReadNumbers as model;
ghost use Rattle.json5_tokens.specs.ShortNumberSkips.{FollowsSign, FollowsMantissa, FollowsPower, FollowsExponent, TakesShortNumber};
ghost use Rattle.json5_tokens.specs.TokenResults.{GivesRest};

use crate::blanks::is_in_front;
use crate::input::Input;
use crate::numbers::decimal_literals::is_integer;
use crate::numbers::short::number_goes_on;
use crate::scanner::Scanner;
use json5_types::digit_runs::split_digits;

/// How many digits there may be before the point, and how many after it: so few keep the exponent in range.
const FEW: usize = 1000;

/// What follows the sign in front, if there is one.
#[inline(always)]
fn skip_sign(text: &str) -> &str
    ensures { FollowsSign text.now result.now }
{
    if is_in_front(b'-', text) {
        return text.split_at(1).1;
    }
    if is_in_front(b'+', text) {
        return text.split_at(1).1;
    }
    text
}

/// What follows the digits in front, which begin a decimal literal, and the point and the digits after it.
#[inline(always)]
fn after_mantissa(text: &str) -> Option<&str>
    ensures { IfSome result (λ rest. FollowsMantissa text.now rest.now) }
{
    let (before, rest) = split_digits(text);
    if before.len() > FEW || !is_integer(before) {
        return None;
    }
    if !is_in_front(b'.', rest) {
        return Some(rest);
    }
    let (after, rest) = split_digits(rest.split_at(1).1);
    if after.len() > FEW {
        return None;
    }
    Some(rest)
}

/// What follows the exponent after its letter, if it has at most four digits.
#[inline(always)]
fn after_exponent_digits(text: &str) -> Option<&str>
    ensures { IfSome result (λ rest. FollowsPower text.now rest.now) }
{
    let (digits, rest) = split_digits(skip_sign(text));
    if digits.is_empty() || digits.len() > 4 {
        return None;
    }
    Some(rest)
}

/// What follows the exponent in front, if there is one.
#[inline(always)]
fn after_exponent(text: &str) -> Option<&str>
    ensures { IfSome result (λ rest. FollowsExponent text.now rest.now) }
{
    if is_in_front(b'e', text) {
        return after_exponent_digits(text.split_at(1).1);
    }
    if is_in_front(b'E', text) {
        return after_exponent_digits(text.split_at(1).1);
    }
    Some(text)
}

/// What follows the number in front, if it has few digits.
#[inline(always)]
fn after_number(text: &str) -> Option<&str>
    ensures { IfSome result (λ rest. GivesRest (model.number (chars text.now)) rest.now) }
{
    let rest = after_exponent(after_mantissa(skip_sign(text))?)?;
    if number_goes_on(rest.as_bytes(), 0) {
        return None;
    }
    Some(rest)
}

impl<I: Input> Scanner<I> {
    /// Takes a decimal literal of few digits, up to where a number can't go on, and says whether it was in front. Else takes nothing,
    /// also where blanks are in front.
    #[inline(always)]
    pub fn short_number(&mut self) -> bool
        ensures { TakesShortNumber self.old self.new result }
    {
        let Some(rest) = after_number(self.rest(self.input.as_text())) else {
            return false;
        };
        let left = rest.len();
        self.set_remaining(left);
        true
    }
}
