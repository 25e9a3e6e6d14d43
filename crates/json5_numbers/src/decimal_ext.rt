//! What can be done with a `Decimal` besides.

ghost use Rattle.std.specs.Prelude.{◌≡◌, MatchResult};
ghost use Rattle.std.specs.Str.{chars};
ghost use Rattle.std.specs.Float.{binary64};
ghost use Rattle.json5_numbers.specs.Floats.{nearest_to};
ghost use Rattle.json5_types.specs.Errors.{LacksMemory};
ghost use Rattle.json5_types.specs.NumberMeanings.{number_of};
ghost use Rattle.json5_numbers.specs.NumberTexts.{IsTextOf, LacksMemoryFor, decimal_of, decimal_of_whole};
ghost use Rattle.json5_numbers.specs.Orders.{decimal_cmp};

use crate::order::order;
use crate::texts::whole_text;
use crate::wholes::sign_and_size;
use itoa::Buffer;
use json5_types::decimal::Decimal;
use json5_types::error::Result;
use json5_types::number::Number;
use json5_types::whole::Whole;
use std::alloc::Global;
use std::cmp::Ordering;

/// Calls of a `Decimal` besides its own.
///
/// ```text
/// use json5::DecimalExt;
/// let limit = Decimal::parse(alloc, "0.75")?;
/// ```
pub trait DecimalExt: Sized {
    /// Returns the value of a text that is a number of JSON5 (section 6) and nothing else, without blanks; None for any other
    /// text. A whole number, also a hexadecimal one, is the decimal with the same value. Only more than 19 digits take memory, and
    /// some texts that are no number.
    ///
    /// ```text
    /// Decimal::parse(alloc, "+1.50e1")?    // Some(15.0)
    /// Decimal::parse(alloc, "1.5 ")?       // None
    /// ```
    ///
    /// # Errors
    ///
    /// - `OutOfMemory`, without a position, where the text is a number and a request for memory was refused.
    fn parse(alloc: Global, text: &str) -> Result<Option<Self>>;

    /// Returns the decimal with the value of a whole number. Only more than 19 digits without the zeros at the end take memory.
    ///
    /// ```text
    /// Decimal::from_whole(alloc, Whole::from_u128(80))?    // 80.0, which isn't equal to the `Value` of 80
    /// ```
    ///
    /// # Errors
    ///
    /// - `OutOfMemory`, without a position, where a request for memory was refused.
    fn from_whole(alloc: Global, number: Whole) -> Result<Self>;

    /// Returns the float nearest to the number, with ties to even: an infinity where it is too large, and zero with its sign where
    /// it is too small. Only a number of more than 19 digits takes memory.
    ///
    /// ```text
    /// price.to_f64(alloc)?    // 1.5
    /// ```
    ///
    /// # Errors
    ///
    /// - `OutOfMemory`, without a position, where a request for memory was refused.
    fn to_f64(&self, alloc: Global) -> Result<f64>;

    /// Returns the decimal of the digits with which a float is printed: the shortest that read back as this float, at most 17.
    /// Infinities and not-a-number stay what they are, and zero keeps its sign.
    ///
    /// ```text
    /// Decimal::from_f64(alloc, 0.1)?    // 0.1, the digit 1 and the exponent -1
    /// ```
    ///
    /// # Errors
    ///
    /// - `OutOfMemory`, without a position, where a request for memory was refused.
    fn from_f64(alloc: Global, number: f64) -> Result<Self>;

    /// Compares two numbers, or returns None where one of them is not-a-number. As for floats, -0 is 0, though `==` tells the two
    /// apart. It takes no memory.
    ///
    /// ```text
    /// price.compare(&limit)    // Some(Ordering::Greater) of 1.5 and 1.25
    /// ```
    fn compare(&self, other: &Self) -> Option<Ordering>;
}

impl DecimalExt for Decimal {
    fn parse(alloc: Global, text: &str) -> Result<Option<Decimal>>
        ensures { MatchResult result (IsTextOf (chars text.now)) (LacksMemoryFor (chars text.now)) }
    {
        match whole_text(alloc, text)? {
            Some(number) => Ok(Some(decimal(alloc, number)?)),
            None => Ok(None),
        }
    }

    fn from_whole(alloc: Global, number: Whole) -> Result<Decimal>
        ensures { MatchResult result (λ d. d ≡ decimal_of_whole number) LacksMemory }
    {
        let (negative, size) = sign_and_size(number);
        let mut buffer = Buffer::new();
        let digits = buffer.format(size);
        let found = Decimal::finite(alloc, negative, digits, 0)?;
        Ok(found.unwrap())
    }

    fn to_f64(&self, alloc: Global) -> Result<f64>
        ensures { MatchResult result (λ x. x ≡ nearest_to binary64 self.now) LacksMemory }
    {
        crate::to_f64(alloc, self)
    }

    fn from_f64(alloc: Global, number: f64) -> Result<Decimal>
        ensures { MatchResult result (λ d. nearest_to binary64 d ≡ number) LacksMemory }
    {
        crate::from_f64(alloc, number)
    }

    fn compare(&self, other: &Decimal) -> Option<Ordering>
        ensures { result ≡ decimal_cmp self.now other.now }
    {
        if self.is_nan() || other.is_nan() {
            None
        } else {
            Some(order(self, other))
        }
    }
}

/// The decimal with the value of a number.
fn decimal(alloc: Global, number: Number) -> Result<Decimal>
    ensures { MatchResult result (λ d. d ≡ decimal_of (number_of number)) LacksMemory }
{
    match number {
        Number::Whole(whole) => Decimal::from_whole(alloc, whole),
        Number::Decimal(decimal) => Ok(decimal),
    }
}
