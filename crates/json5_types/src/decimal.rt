//! Numbers of any count of decimal digits, kept as these digits.

ghost use Rattle.std.specs.Prelude.{◌≡◌, ◌≤◌, ◌-◌, string_bytes, ◌++◌, ◌↔◌, pos, ◌+ℤ◌, reverse, length, IsSome, IfSome, IfOk, MatchResult, Some, true, FitsSigned};
ghost use Rattle.std.specs.Int.{w128};
ghost use Rattle.json5_grammar.specs.Language.Characters.{is_digit, Each};
ghost use Rattle.json5_grammar.specs.Language.Numbers as numbers;
ghost use Rattle.json5_grammar.specs.Written.NumberText.{decimal_text, IsNormal};
ghost use Rattle.json5_types.specs.Errors.{LacksMemory};
ghost use Rattle.json5_types.specs.NumberDecimals.{has_minus, is_infinity, is_not_a_number, digits_in, exponent_in, sized, ShowsDecimal, IsFiniteIfInRange, IsFiniteOf, CanNormalize, Normalizes};
ghost use Rattle.json5_types.specs.Exponents.{raised, IsSmallExponent};
ghost use Rattle.json5_types.specs.NumberMeanings.{keeps_digits};

use crate::decimal_pieces::Pieces;
use crate::digit_runs;
use crate::error::Result;
use crate::inline_digits::InlineDigits;
use std::alloc::{AllocError, Global};
use std::fmt;
use std::hash::{Hash, Hasher};
use std::marker::Model;

/// A decimal as it is kept: whether it is negative and, if it is finite, the power of ten that its digits are multiplied with,
/// and these digits, in ASCII and without zeros at either end.
#[derive(Drop)]
enum Kept {
    Infinite(bool),
    NotANumber(bool),
    Few(bool, i16, InlineDigits),
    /// Digits that don't fit otherwise. The box keeps a decimal small.
    Many(bool, i16, Box<String>),
}

/// How large a decimal is, whatever its sign.
#[derive(Clone, Copy, Debug)]
enum Size<'a> {
    Infinite,
    NotANumber,
    /// The digits, and the power of ten that they are multiplied with.
    Finite(&'a str, i16),
}

/// Infinity, not-a-number or a finite number, each with a sign (JSON5 section 6). It keeps every digit that was read.
///
/// A finite number is its digits times ten to its exponent. The digits are ASCII, without zeros in front and at the end; the
/// exponent is from -32768 to 32767; zero has no digits and the exponent 0. So `1.50` is the digits `15` and the exponent -1.
/// Two decimals are equal when sign, digits and exponent are; not-a-number equals itself, and -0 isn't 0.
///
/// ```text
/// let price: Decimal = json5::from_str(alloc, "-1.50")?;
/// price.digits()         // 15
/// price.exponent()       // -1
/// price.is_negative()    // true
/// ```
#[derive(Drop)]
pub struct Decimal {
    kept: Kept,
}

impl Model for Decimal {
    ghost use Rattle.json5_grammar.specs.Language.Numbers as numbers;
    ghost use Rattle.json5_grammar.specs.Written.NumberText.{Normal};

    ghost Value = { numbers.Decimal };

    ghost use Rattle.json5_types.specs.NumberDecimals.{kept_decimal};

    ghost view = { λ d. kept_decimal d.kept };

    ghost invariant = { λ d. Normal (kept_decimal d.kept) };
}

/// Digits in two parts, without the zeros in front.
fn without_front_zeros<'a>(before: &'a str, after: &'a str) -> (&'a str, &'a str)
    ensures { result.0.now ++ result.1.now ≡ numbers.without_front_zeros (before.now ++ after.now) }
{
    let first = digit_runs::without_front_zeros(before);
    if first.is_empty() {
        (first, digit_runs::without_front_zeros(after))
    } else {
        (first, after)
    }
}

/// Digits in two parts, without the zeros at the end.
fn without_back_zeros<'a>(before: &'a str, after: &'a str) -> (&'a str, &'a str)
    ensures { result.0.now ++ result.1.now ≡ reverse (numbers.without_front_zeros (reverse (before.now ++ after.now))) }
{
    let last = digit_runs::without_back_zeros(after);
    if last.is_empty() {
        (digit_runs::without_back_zeros(before), last)
    } else {
        (before, last)
    }
}

/// The exponent without the zeros at the end, if it is in range: each of them raises it by one, and zero has 0.
fn bare_exponent(exponent: i128, count: usize, bare_count: usize) -> Option<i16>
    requires fewer { bare_count ≤ count }
    requires fits { FitsSigned w128 (exponent +ℤ pos (count - bare_count)) }
    ensures in_range { IsSome result ↔ numbers.InExponents (raised exponent count bare_count) }
    ensures value { IfSome result (λ e. e ≡ raised exponent count bare_count) }
{
    if bare_count == 0 {
        return Some(0);
    }
    let raised = exponent + (count - bare_count) as i128;
    i16::try_from(raised).ok()
}

/// Both strings, one after the other.
fn joined(alloc: Global, first: &str, last: &str) -> std::result::Result<String, AllocError>
    ensures { IfOk result (λ text. string_bytes text ≡ first.now ++ last.now) }
{
    let mut text = String::with_capacity(alloc, first.len() + last.len())?;
    text.push_str(first)?;
    text.push_str(last)?;
    Ok(text)
}

/// The finite decimal with the digits of both strings, one after the other; None if they are more than 19.
fn keep_few(negative: bool, exponent: i16, first: &str, last: &str) -> Option<Decimal>
    requires { IsNormal (first.now ++ last.now) exponent }
    ensures { IfSome result (λ d. d ≡ numbers.finite negative (first.now ++ last.now) exponent) }
{
    let digits = InlineDigits::new(first, last)?;
    Some(digits.into_decimal(negative, exponent))
}

/// The finite decimal with the digits of both strings, one after the other. It takes memory if they are more than 19.
fn keep(
    alloc: Global,
    negative: bool,
    exponent: i16,
    first: &str,
    last: &str,
) -> std::result::Result<Decimal, AllocError>
    requires { IsNormal (first.now ++ last.now) exponent }
    ensures { IfOk result (λ d. d ≡ numbers.finite negative (first.now ++ last.now) exponent) }
{
    if let Some(decimal) = keep_few(negative, exponent, first, last) {
        return Ok(decimal);
    }
    let digits = Box::new(alloc, joined(alloc, first, last)?)?;
    Ok(Decimal {
        kept: Kept::Many(negative, exponent, digits),
    })
}

/// A finite decimal in normal form whose digits are those of two strings, one after the other.
#[derive(Drop)]
pub struct DecimalRef<'a> {
    negative: bool,
    first: &'a str,
    last: &'a str,
    exponent: i16,
}

impl<'a> Model for DecimalRef<'a> {
    ghost use Rattle.std.specs.Prelude.{◌++◌};
    ghost use Rattle.json5_grammar.specs.Language.Numbers as numbers;
    ghost use Rattle.json5_grammar.specs.Written.NumberText.{IsNormal};

    ghost Value = { numbers.Decimal };

    ghost view = { λ d. numbers.finite d.negative (d.first.now ++ d.last.now) d.exponent };

    ghost invariant = { λ d. IsNormal (d.first.now ++ d.last.now) d.exponent };
}

impl<'a> DecimalRef<'a> {
    /// The finite number with these digits, the first part before the second, times ten to the exponent;
    /// None if the exponent is out of range without the outer zeros.
    pub fn new(
        negative: bool,
        before: &'a str,
        after: &'a str,
        exponent: i128,
    ) -> Option<DecimalRef<'a>>
        requires before_digits { Each is_digit before.now }
        requires after_digits { Each is_digit after.now }
        requires small { IsSmallExponent exponent }
        ensures { IsFiniteIfInRange negative (before.now ++ after.now) exponent result }
    {
        let (front, back) = without_front_zeros(before, after);
        let (first, last) = without_back_zeros(front, back);
        let count = front.len() + back.len();
        let exponent = bare_exponent(exponent, count, first.len() + last.len())?;
        Some(DecimalRef {
            negative,
            first,
            last,
            exponent,
        })
    }

    /// The same number with owned digits.
    pub fn to_decimal(&self, alloc: Global) -> std::result::Result<Decimal, AllocError>
        ensures { MatchResult result (λ d. d ≡ self.now) (λ _. keeps_digits (numbers.decimal self.now) ≡ true) }
    {
        keep(alloc, self.negative, self.exponent, self.first, self.last)
    }
}

impl InlineDigits {
    /// Takes off the zeros at the end, and returns the exponent raised by as many; None if it is out of range.
    #[inline(always)]
    pub fn normalize(&mut self, exponent: i128) -> Option<i16>
        requires { CanNormalize self.old exponent }
        ensures { Normalizes self.old exponent self.new result }
    {
        let count = self.as_str().len();
        self.trim_back_zeros();
        bare_exponent(exponent, count, self.as_str().len())
    }

    /// The finite number with these digits times ten to the exponent.
    #[inline(always)]
    pub fn into_decimal(self, negative: bool, exponent: i16) -> Decimal
        requires { IsNormal self exponent }
        ensures { result ≡ numbers.finite negative self exponent }
    {
        Decimal {
            kept: Kept::Few(negative, exponent, self),
        }
    }
}

impl Decimal {
    /// Makes infinity, with a minus if `negative`. Takes no memory.
    ///
    /// ```text
    /// json5::to_string(alloc, &Decimal::infinity(true))?    // -Infinity
    /// ```
    pub fn infinity(negative: bool) -> Decimal
        ensures { result ≡ numbers.infinite negative }
    {
        Decimal {
            kept: Kept::Infinite(negative),
        }
    }

    /// Makes not-a-number, with a minus if `negative`; equality tells the two apart. Takes no memory.
    ///
    /// ```text
    /// Decimal::nan(false) == Decimal::nan(false)    // true
    /// ```
    pub fn nan(negative: bool) -> Decimal
        ensures { result ≡ numbers.nan negative }
    {
        Decimal {
            kept: Kept::NotANumber(negative),
        }
    }

    /// Makes the finite number with these digits times ten to the exponent.
    ///
    /// It is None if `digits` holds anything but ASCII digits, or if the exponent is outside -32768 to 32767 once the outer zeros
    /// are removed. Each zero that is removed at the end raises it by one, and zero has the exponent 0.
    ///
    /// ```text
    /// Decimal::finite(alloc, false, "0150", -2)    // 1.5: the digits 15, the exponent -1
    /// ```
    ///
    /// # Errors
    ///
    /// - `OutOfMemory`, without a position, where a request for memory was refused.
    pub fn finite(
        alloc: Global,
        negative: bool,
        digits: &str,
        exponent: i64,
    ) -> Result<Option<Decimal>>
        ensures { MatchResult result (IsFiniteOf negative digits.now exponent) LacksMemory }
    {
        let (digits, rest) = digit_runs::split_digits(digits);
        if !rest.is_empty() {
            return Ok(None);
        }
        let Some(found) = DecimalRef::new(negative, digits, "", i128::from(exponent)) else {
            return Ok(None);
        };
        Ok(Some(found.to_decimal(alloc)?))
    }

    /// Says whether it has a minus, which zero and not-a-number may have too.
    ///
    /// ```text
    /// let zero: Decimal = json5::from_str(alloc, "-0.0")?;
    /// zero.is_negative()    // true
    /// ```
    pub fn is_negative(&self) -> bool
        ensures { ShowsDecimal has_minus self.now result }
    {
        match &self.kept {
            Kept::Infinite(negative) | Kept::NotANumber(negative) => *negative,
            Kept::Few(negative, _, _) | Kept::Many(negative, _, _) => *negative,
        }
    }

    /// How large it is, whatever its sign.
    fn size(&self) -> Size<'_>
        ensures { ShowsDecimal (λ d. d) self.now (sized (has_minus self.now) result) }
    {
        match &self.kept {
            Kept::Infinite(_) => Size::Infinite,
            Kept::NotANumber(_) => Size::NotANumber,
            Kept::Few(_, exponent, digits) => Size::Finite(digits.as_str(), *exponent),
            Kept::Many(_, exponent, digits) => Size::Finite(digits.as_str(), *exponent),
        }
    }

    /// Says whether it is infinity, of either sign.
    pub fn is_infinite(&self) -> bool
        ensures { result ≡ is_infinity self.now }
    {
        matches!(self.size(), Size::Infinite)
    }

    /// Says whether it is not-a-number, of either sign.
    pub fn is_nan(&self) -> bool
        ensures { result ≡ is_not_a_number self.now }
    {
        matches!(self.size(), Size::NotANumber)
    }

    /// Returns the ASCII digits, without zeros in front and at the end; none for zero, infinity and not-a-number.
    ///
    /// ```text
    /// let price: Decimal = json5::from_str(alloc, "1.50")?;
    /// price.digits()      // 15
    /// price.exponent()    // -1
    /// ```
    pub fn digits(&self) -> &str
        ensures { ShowsDecimal digits_in self.now result.now }
    {
        match self.size() {
            Size::Finite(digits, _) => digits,
            Size::Infinite | Size::NotANumber => "",
        }
    }

    /// Returns the power of ten that the digits are multiplied with; 0 for zero, infinity and not-a-number.
    pub fn exponent(&self) -> i16
        ensures { ShowsDecimal exponent_in self.now result }
    {
        match self.size() {
            Size::Finite(_, exponent) => exponent,
            Size::Infinite | Size::NotANumber => 0,
        }
    }

    /// Returns the text that `Display` prints, in pieces, so that it takes no memory however long it is.
    ///
    /// ```text
    /// let mut pieces = price.pieces();
    /// while let Some(piece) = pieces.next_piece() {
    ///     out.write_str(piece)?;
    /// }
    /// ```
    pub fn pieces(&self) -> Pieces<'_>
        ensures { ShowsDecimal decimal_text self.now result }
    {
        let sign = if self.is_negative() { "-" } else { "" };
        match self.size() {
            Size::Infinite => Pieces::of_word(sign, "Infinity"),
            Size::NotANumber => Pieces::of_word(sign, "NaN"),
            Size::Finite(digits, exponent) => Pieces::of_digits(sign, digits, exponent),
        }
    }

    /// Returns an equal number.
    ///
    /// ```text
    /// let copy = price.clone(alloc)?;    // equal to `price`
    /// ```
    ///
    /// # Errors
    ///
    /// - `OutOfMemory`, without a position, where a request for memory was refused.
    pub fn clone(&self, alloc: Global) -> Result<Decimal>
        ensures { MatchResult result (λ d. d ≡ self.now) LacksMemory }
    {
        match self.size() {
            Size::Infinite => Ok(Decimal::infinity(self.is_negative())),
            Size::NotANumber => Ok(Decimal::nan(self.is_negative())),
            Size::Finite(digits, exponent) => {
                Ok(keep(alloc, self.is_negative(), exponent, digits, "")?)
            }
        }
    }
}

impl PartialEq for Decimal {
    ghost use Rattle.json5_types.specs.NumberDecimals.{decimal_eq};
    ghost use Rattle.json5_types.specs.DecimalEquality.{decimal_partial_equivalence};

    ghost eq = { decimal_eq };

    ghost laws = { decimal_partial_equivalence };

    fn eq(&self, other: &Decimal) -> bool {
        if self.is_negative() != other.is_negative() {
            return false;
        }
        match (self.size(), other.size()) {
            (Size::Infinite, Size::Infinite) => true,
            (Size::NotANumber, Size::NotANumber) => true,
            (Size::Finite(digits, exponent), Size::Finite(others, power)) => {
                digits == others && exponent == power
            }
            _ => false,
        }
    }
}

impl Eq for Decimal {
    ghost use Rattle.json5_types.specs.DecimalEquality.{decimal_equivalence};

    ghost laws = { decimal_equivalence };
}

impl Hash for Decimal {
    ghost use Rattle.json5_types.specs.NumberDecimals.{decimal_hashed};
    ghost use Rattle.json5_types.specs.DecimalEquality.{decimals_alike};

    ghost hash_input = { decimal_hashed };

    ghost respects_eq = { decimals_alike };

    fn hash<H: Hasher>(&self, state: &mut H) {
        self.is_negative().hash(state);
        match self.size() {
            Size::Infinite => 0u8.hash(state),
            Size::NotANumber => 1u8.hash(state),
            Size::Finite(digits, exponent) => {
                2u8.hash(state);
                digits.hash(state);
                exponent.hash(state);
            }
        }
    }
}

/// Prints the sign and the size, with the digits and the exponent where it is finite.
impl fmt::Debug for Decimal {
    fn fmt<W: fmt::Write>(&self, f: &mut fmt::Formatter<W>) -> fmt::Result {
        f.debug_struct("Decimal")
            .field("negative", &self.is_negative())
            .field("size", &self.size())
            .finish()
    }
}

impl fmt::Display for Decimal {
    ghost output = { λ d. Some (decimal_text d) };

    /// Prints plain notation with a point: the digits, as many zeros as the exponent says and `.0`, or the point within the
    /// digits or before them. Zero is `0.0`; the others are `Infinity` and `NaN`. A minus is before what is negative: `1.5`,
    /// `1500.0`, `-0.015`. It reads back as the same decimal.
    fn fmt<W: fmt::Write>(&self, f: &mut fmt::Formatter<W>) -> fmt::Result {
        let mut pieces = self.pieces();
        while let Some(piece) = pieces.next_piece() {
            f.write_str(piece)?;
        }
        Ok(())
    }
}
