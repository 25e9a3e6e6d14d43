//! Reading of numbers. Their faults are listed once, in the comment of `Deserializer`.

ghost use Rattle.std.specs.Prelude.{◌+◌, ◌^◌, ◌≤ℤ◌, pos, nat_abs, Some, IfOk, ◌≡◌, IfErr, IfSome};
ghost use Rattle.json5_de.specs.Convert.{IsUpTo, IsWithin, natural_below, integer_below, same_decimal};
ghost use Rattle.json5_de.specs.TokenKinds.{ReadsAs, ReadsDecimal, whole_kind, natural_kind, integer_kind, decimal_kind};
ghost use Rattle.json5_de.specs.ReaderSteps.{WholeAt};
ghost use Rattle.json5_grammar.specs.Language.Numbers as numbers;
ghost use Rattle.json5_types.specs.Errors.{LacksMemory};
ghost use Rattle.json5_de.specs.ShortWays.{ReadsShort};

use crate::de::Deserializer;
use crate::mismatch::Mismatch;
use itoa::Buffer;
use json5_tokens::input::Input;
use json5_types::decimal::Decimal;
use json5_types::error::Result;
use json5_types::number::Number;
use json5_types::whole::Whole;
use std::alloc::Global;

impl<I: Input> Deserializer<I> {
    /// Reads a whole number of few digits from 0 to `max`, or nothing.
    #[inline(always)]
    pub(crate) fn short_natural(&mut self, max: u64) -> Option<u64>
        ensures reads { ReadsShort (natural_kind (max + 1)) (λ n. n) self.old self.new result }
        ensures fits { IfSome result (IsUpTo max) }
    {
        if self.failed {
            return None;
        }
        let number = self.scanner.short_whole(0, i128::from(max))?;
        Some(number as u64)
    }

    /// Reads a whole number of few digits from `-max - 1` to `max`, or nothing.
    #[inline(always)]
    pub(crate) fn short_integer(&mut self, max: i128) -> Option<i128>
        ensures reads { ReadsShort (integer_kind (nat_abs max + 1)) (λ n. n) self.old self.new result }
        ensures fits { IfSome result (IsWithin max) }
    {
        if self.failed {
            return None;
        }
        self.scanner.short_whole(-1 - max, max)
    }

    /// Reads a decimal with a point or an exponent whose digits take no memory, or returns None.
    #[inline(always)]
    pub(crate) fn short_decimal(&mut self) -> Option<Decimal>
        ensures { ReadsShort decimal_kind (λ d. d) self.old self.new result }
    {
        if self.failed {
            return None;
        }
        self.scanner.short_decimal()
    }

    /// Reads a number of any kind as a decimal (JSON5 section 6). A whole number gives the decimal of the same number, and zero
    /// has no sign then.
    ///
    /// ```text
    /// de.deserialize_decimal()?    // of `1.50` the digits 15 and the exponent -1, of `0x10` the digits 16 and the exponent 0
    /// ```
    ///
    /// # Errors
    ///
    /// As every call that reads a number: see [`Deserializer`].
    #[inline(always)]
    pub fn deserialize_decimal(&mut self) -> Result<Decimal>
        ensures { ReadsDecimal self.old self.new result }
    {
        if let Some(decimal) = self.short_decimal() {
            return Ok(decimal);
        }
        self.skip_blank()?;
        let whole = match self.number()? {
            Number::Decimal(decimal) => return Ok(decimal),
            Number::Whole(whole) => whole,
        };
        match same_decimal(self.allocator(), whole) {
            Ok(decimal) => Ok(decimal),
            Err(e) => self.refuse(e),
        }
    }

    /// Reads a whole number, and returns the count of bytes before it too.
    fn read_whole(&mut self, name: &str) -> Result<(usize, Whole)>
        ensures reads { ReadsAs (whole_kind (λ z. Some z)) (λ read. read.1) self.old self.new result }
        ensures place { IfOk result (λ read. WholeAt self.old self.new read.0 read.1) }
    {
        self.skip_blank()?;
        let start = self.offset();
        let Number::Whole(whole) = self.number()? else {
            return self.refuse_mismatch(start, &Mismatch::NotWhole(name));
        };
        Ok((start, whole))
    }

    /// Reads a whole number from 0 to `max`.
    #[inline(never)]
    pub(crate) fn read_natural(&mut self, max: u128, name: &str) -> Result<u128>
        ensures reads { ReadsAs (natural_kind (max + 1)) (λ n. n) self.old self.new result }
        ensures fits { IfOk result (IsUpTo max) }
    {
        let (start, whole) = self.read_whole(name)?;
        let Some(natural) = unsigned(whole, max) else {
            return self.refuse_mismatch(start, &Mismatch::OutOfRange(whole, name));
        };
        Ok(natural)
    }

    /// Reads a whole number from `-max - 1` to `max`.
    #[inline(never)]
    pub(crate) fn read_signed_integer(&mut self, max: i128, name: &str) -> Result<i128>
        requires { pos 0 ≤ℤ max }
        ensures reads { ReadsAs (integer_kind (nat_abs max + 1)) (λ n. n) self.old self.new result }
        ensures fits { IfOk result (IsWithin max) }
    {
        let (start, whole) = self.read_whole(name)?;
        let Some(integer) = signed(whole, max) else {
            return self.refuse_mismatch(start, &Mismatch::OutOfRange(whole, name));
        };
        Ok(integer)
    }

    /// Reads a whole number from 0 to 255 as `u8`, in decimal or hexadecimal digits (JSON5 section 6). Takes no memory where it
    /// succeeds.
    ///
    /// ```text
    /// de.deserialize_u8()?    // 31 of `31`, of `+31` and of `0x1F`; `256`, `-1` and `31.0` are custom faults at their start
    /// ```
    ///
    /// # Errors
    ///
    /// As every call that reads a whole number: see [`Deserializer`].
    #[inline(always)]
    pub fn deserialize_u8(&mut self) -> Result<u8>
        ensures { ReadsAs (natural_kind (2 ^ 8)) (λ n. n) self.old self.new result }
    {
        if let Some(natural) = self.short_natural(0xff) {
            return Ok(natural as u8);
        }
        match self.read_natural(0xff, "u8") {
            Ok(natural) => Ok(natural as u8),
            Err(e) => Err(e),
        }
    }

    /// Reads a whole number from 0 to 65535 as `u16`. Takes no memory where it succeeds.
    ///
    /// ```text
    /// de.deserialize_u16()?    // 8080 of `8080` and of `0x1F90`; `65536` is a custom fault at its start
    /// ```
    ///
    /// # Errors
    ///
    /// As every call that reads a whole number: see [`Deserializer`].
    #[inline(always)]
    pub fn deserialize_u16(&mut self) -> Result<u16>
        ensures { ReadsAs (natural_kind (2 ^ 16)) (λ n. n) self.old self.new result }
    {
        if let Some(natural) = self.short_natural(0xffff) {
            return Ok(natural as u16);
        }
        match self.read_natural(0xffff, "u16") {
            Ok(natural) => Ok(natural as u16),
            Err(e) => Err(e),
        }
    }

    /// Reads a whole number from 0 to 2^32 - 1 as `u32`. Takes no memory where it succeeds.
    ///
    /// ```text
    /// de.deserialize_u32()?    // 70000 of `70000` and of `0x11170`; `4294967296` is a custom fault at its start
    /// ```
    ///
    /// # Errors
    ///
    /// As every call that reads a whole number: see [`Deserializer`].
    #[inline(always)]
    pub fn deserialize_u32(&mut self) -> Result<u32>
        ensures { ReadsAs (natural_kind (2 ^ 32)) (λ n. n) self.old self.new result }
    {
        if let Some(natural) = self.short_natural(0xffffffff) {
            return Ok(natural as u32);
        }
        match self.read_natural(0xffffffff, "u32") {
            Ok(natural) => Ok(natural as u32),
            Err(e) => Err(e),
        }
    }

    /// Reads a whole number from 0 to 2^64 - 1 as `u64`. Takes no memory where it succeeds.
    ///
    /// ```text
    /// de.deserialize_u64()?    // 5000000000 of `5000000000` and of `0x12A05F200`; `-1` is a custom fault at its start
    /// ```
    ///
    /// # Errors
    ///
    /// As every call that reads a whole number: see [`Deserializer`].
    #[inline(always)]
    pub fn deserialize_u64(&mut self) -> Result<u64>
        ensures { ReadsAs (natural_kind (2 ^ 64)) (λ n. n) self.old self.new result }
    {
        if let Some(natural) = self.short_natural(0xffffffffffffffff) {
            return Ok(natural);
        }
        match self.read_natural(0xffffffffffffffff, "u64") {
            Ok(natural) => Ok(natural as u64),
            Err(e) => Err(e),
        }
    }

    /// Reads a whole number from 0 to 2^128 - 1 as `u128`. Takes no memory where it succeeds.
    ///
    /// ```text
    /// de.deserialize_u128()?    // 5000000000 of `5000000000` and of `0x12A05F200`; `-1` is a custom fault at its start
    /// ```
    ///
    /// # Errors
    ///
    /// As every call that reads a whole number: see [`Deserializer`].
    pub fn deserialize_u128(&mut self) -> Result<u128>
        ensures { ReadsAs (natural_kind (2 ^ 128)) (λ n. n) self.old self.new result }
    {
        self.read_natural(u128::MAX, "u128")
    }

    /// Reads a whole number from -128 to 127 as `i8`. Takes no memory where it succeeds.
    ///
    /// ```text
    /// de.deserialize_i8()?    // -16 of `-16` and of `-0x10`; `128` is a custom fault at its start
    /// ```
    ///
    /// # Errors
    ///
    /// As every call that reads a whole number: see [`Deserializer`].
    #[inline(always)]
    pub fn deserialize_i8(&mut self) -> Result<i8>
        ensures { ReadsAs (integer_kind (2 ^ 7)) (λ n. n) self.old self.new result }
    {
        if let Some(integer) = self.short_integer(0x7f) {
            return Ok(integer as i8);
        }
        match self.read_signed_integer(0x7f, "i8") {
            Ok(integer) => Ok(integer as i8),
            Err(e) => Err(e),
        }
    }

    /// Reads a whole number from -32768 to 32767 as `i16`. Takes no memory where it succeeds.
    ///
    /// ```text
    /// de.deserialize_i16()?    // -300 of `-300` and of `-0x12C`; `32768` is a custom fault at its start
    /// ```
    ///
    /// # Errors
    ///
    /// As every call that reads a whole number: see [`Deserializer`].
    #[inline(always)]
    pub fn deserialize_i16(&mut self) -> Result<i16>
        ensures { ReadsAs (integer_kind (2 ^ 15)) (λ n. n) self.old self.new result }
    {
        if let Some(integer) = self.short_integer(0x7fff) {
            return Ok(integer as i16);
        }
        match self.read_signed_integer(0x7fff, "i16") {
            Ok(integer) => Ok(integer as i16),
            Err(e) => Err(e),
        }
    }

    /// Reads a whole number from -2^31 to 2^31 - 1 as `i32`. Takes no memory where it succeeds.
    ///
    /// ```text
    /// de.deserialize_i32()?    // -70000 of `-70000` and of `-0x11170`; `2147483648` is a custom fault at its start
    /// ```
    ///
    /// # Errors
    ///
    /// As every call that reads a whole number: see [`Deserializer`].
    #[inline(always)]
    pub fn deserialize_i32(&mut self) -> Result<i32>
        ensures { ReadsAs (integer_kind (2 ^ 31)) (λ n. n) self.old self.new result }
    {
        if let Some(integer) = self.short_integer(0x7fffffff) {
            return Ok(integer as i32);
        }
        match self.read_signed_integer(0x7fffffff, "i32") {
            Ok(integer) => Ok(integer as i32),
            Err(e) => Err(e),
        }
    }

    /// Reads a whole number from -2^63 to 2^63 - 1 as `i64`. Takes no memory where it succeeds.
    ///
    /// ```text
    /// de.deserialize_i64()?    // -5000000000 of `-5000000000` and of `-0x12A05F200`; `1.0` is a custom fault at its start
    /// ```
    ///
    /// # Errors
    ///
    /// As every call that reads a whole number: see [`Deserializer`].
    #[inline(always)]
    pub fn deserialize_i64(&mut self) -> Result<i64>
        ensures { ReadsAs (integer_kind (2 ^ 63)) (λ n. n) self.old self.new result }
    {
        if let Some(integer) = self.short_integer(0x7fffffffffffffff) {
            return Ok(integer as i64);
        }
        match self.read_signed_integer(0x7fffffffffffffff, "i64") {
            Ok(integer) => Ok(integer as i64),
            Err(e) => Err(e),
        }
    }

    /// Reads a whole number from -2^127 to 2^127 - 1 as `i128`. Takes no memory where it succeeds.
    ///
    /// ```text
    /// de.deserialize_i128()?    // -5000000000 of `-5000000000` and of `-0x12A05F200`; `1e2` is a custom fault at its start
    /// ```
    ///
    /// # Errors
    ///
    /// As every call that reads a whole number: see [`Deserializer`].
    pub fn deserialize_i128(&mut self) -> Result<i128>
        ensures { ReadsAs (integer_kind (2 ^ 127)) (λ n. n) self.old self.new result }
    {
        self.read_signed_integer(i128::MAX, "i128")
    }
}

/// The number, where it is at most `max` and not below zero.
pub(crate) fn unsigned(whole: Whole, max: u128) -> Option<u128>
    ensures { result ≡ natural_below (max + 1) whole }
{
    let number = whole.as_u128()?;
    if number <= max { Some(number) } else { None }
}

/// The number, where it is at most `max` and not below `-max - 1`. `max` isn't below zero.
pub(crate) fn signed(whole: Whole, max: i128) -> Option<i128>
    ensures { pos 0 ≤ℤ max → result ≡ integer_below (nat_abs max + 1) whole }
{
    let number = whole.as_i128()?;
    if -1 - max <= number && number <= max {
        Some(number)
    } else {
        None
    }
}

/// How far the number is from zero.
fn magnitude(whole: Whole) -> u128
    ensures { result ≡ nat_abs whole }
{
    if let Some(number) = whole.as_u128() {
        return number;
    }
    match whole.as_i128() {
        Some(number) => number.unsigned_abs(),
        None => 0,
    }
}

/// The decimal of the same number; zero has no sign. The only error is that memory ran out.
pub(crate) fn same_decimal(alloc: Global, whole: Whole) -> Result<Decimal>
    ensures ok { IfOk result (λ d. d ≡ same_decimal (numbers.whole whole)) }
    ensures err { IfErr result LacksMemory }
{
    let mut buffer = Buffer::new();
    let digits = buffer.format(magnitude(whole));
    let found = Decimal::finite(alloc, whole.as_u128().is_none(), digits, 0)?;
    Ok(found.unwrap())
}
