//! Sums of numbers with units, read part by part.

ghost use Rattle.std.specs.Prelude.{◌≡◌, ◌+◌, ◌*◌, ◌<◌, ◌≤◌, ◌^◌, [], ◌∷◌, ◌++◌, List, length};
ghost use Rattle.std.specs.Option.{SomeIff};
ghost use Rattle.std.specs.Char.{is_ascii_digit};
ghost use Rattle.std.specs.List.{prefix_len};
ghost use Rattle.std.specs.Str.Parse.{IsNumeral, digits_value};
ghost use Rattle.arrayvec.specs.ArrayString.{array_string_len};
ghost use Rattle.json5_settings_types.specs.Sums.{IsCut, Measure, is_no_digit, is_part_of, comes_to, goes_on, measure_of, measures_of, parts_text, amount_of, amount_text};

use crate::units::Unit;
use arrayvec::ArrayString;
use itoa::Buffer;
use std::str;

/// What was read of a text so far: the sum of its parts, and what is left.
#[derive(Clone, Copy)]
pub(crate) struct Sum<'a> {
    total: u64,
    rest: &'a [u8],
}

/// How many digits stand in front.
fn digits_len(text: &[u8]) -> usize
    ensures { result ≡ prefix_len is_ascii_digit text.now }
{
    text.iter().take_while(|c| c.is_ascii_digit()).count()
}

/// How many characters stand before the next digit.
fn word_len(text: &[u8]) -> usize
    ensures { result ≡ prefix_len is_no_digit text.now }
{
    text.iter().take_while(|c| !c.is_ascii_digit()).count()
}

/// The digits in front, what stands between them and the next digit, and what follows that.
fn front_part(text: &[u8]) -> (&[u8], &[u8], &[u8])
    ensures { IsCut text.now result.0.now result.1.now result.2.now }
{
    let (digits, after) = text.split_at(digits_len(text));
    let (word, rest) = after.split_at(word_len(after));
    (digits, word, rest)
}

/// The number that these digits write.
fn number(digits: &[u8]) -> Option<u64>
    requires { IsNumeral 10 digits.now }
    ensures { SomeIff result (digits_value 10 digits.now < 2 ^ 64) (digits_value 10 digits.now) }
{
    match str::from_utf8(digits) {
        Ok(text) => text.parse().ok(),
        Err(_) => None,
    }
}

/// Whether these are the digits and the word of a part of this unit.
fn is_part(digits: &[u8], word: &[u8], unit: &str) -> bool
    ensures { result ≡ is_part_of unit.now digits.now word.now }
{
    !digits.is_empty() && word == unit.as_bytes()
}

/// The sum with one part more, unless it is too large.
fn added(total: u64, digits: &[u8], size: u64) -> Option<u64>
    requires numeral { IsNumeral 10 digits.now }
    requires counts { 0 < size }
    ensures { SomeIff result (total + digits_value 10 digits.now * size < 2 ^ 64) (total + digits_value 10 digits.now * size) }
{
    total.checked_add(number(digits)?.checked_mul(size)?)
}

impl<'a> Sum<'a> {
    /// Nothing is read yet.
    fn of(text: &'a str) -> Sum<'a>
        ensures { (us : List Measure) → comes_to us result.total result.rest.now ≡ comes_to us 0 text.now }
    {
        Sum {
            total: 0,
            rest: text.as_bytes(),
        }
    }

    /// Takes a part of this unit, if one stands in front. None is a sum that is too large.
    fn with(self, unit: &Unit<'_>) -> Option<Sum<'a>>
        ensures { (us : List Measure) → goes_on us result ≡ comes_to (measure_of unit.now ∷ us) self.entry.total self.entry.rest.now }
    {
        let (digits, word, rest) = front_part(self.rest);
        if !is_part(digits, word, unit.name) {
            return Some(self);
        }
        let total = added(self.total, digits, unit.size)?;
        Some(Sum { total, rest })
    }

    /// The sum, if nothing is left.
    fn end(self) -> Option<u64>
        ensures { result ≡ comes_to [] self.entry.total self.entry.rest.now }
    {
        if self.rest.is_empty() {
            Some(self.total)
        } else {
            None
        }
    }
}

/// The sum that the text is of these units.
pub(crate) fn sum_of_parts(text: &str, units: &[Unit<'_>]) -> Option<u64>
    ensures { result ≡ comes_to (measures_of units.now) 0 text.now }
{
    let mut sum = Sum::of(text);
    for unit in units {
        sum = sum.with(unit)?;
    }
    sum.end()
}

/// Adds the part of this unit, if there is one, and returns what is left of the number.
fn push_part(text: &mut ArrayString<192>, number: u64, unit: &Unit<'_>) -> u64
    requires { array_string_len text.old + length unit.now.name.now + 20 ≤ 192 }
    ensures written { (us : List Measure) → text.new.bytes ++ parts_text us result ≡ text.old.bytes ++ parts_text (measure_of unit.now ∷ us) number }
    ensures len { array_string_len text.new ≤ array_string_len text.old + length unit.now.name.now + 20 }
{
    if number < unit.size {
        return number;
    }
    let mut digits = Buffer::new();
    text.push_str(digits.format(number / unit.size));
    text.push_str(unit.name);
    number % unit.size
}

/// The number as a sum of these units, the greatest first.
pub(crate) fn parts_of(number: u64, units: &[Unit<'_>]) -> ArrayString<192>
    requires { length units.now ≤ 7 }
    ensures { result.bytes ≡ parts_text (measures_of units.now) number }
{
    let mut text = ArrayString::new();
    let mut rest = number;
    for unit in units {
        rest = push_part(&mut text, rest, unit);
    }
    text
}

/// What the text is an amount of, in one of these units.
pub(crate) fn amount(text: &str, units: &[Unit<'_>]) -> Option<u64>
    ensures { result ≡ amount_of (measures_of units.now) text.now }
{
    for unit in units {
        if let Some(amount) = sum_of_parts(text, &[*unit]) {
            return Some(amount);
        }
    }
    None
}

/// The number in the first unit of which it is a whole number.
pub(crate) fn in_one_unit(number: u64, units: &[Unit<'_>]) -> ArrayString<192>
    requires { 0 < number }
    ensures { result.bytes ≡ amount_text (measures_of units.now) number }
{
    for unit in units {
        if number % unit.size == 0 {
            let mut text = ArrayString::new();
            push_part(&mut text, number, unit);
            return text;
        }
    }
    ArrayString::new()
}
