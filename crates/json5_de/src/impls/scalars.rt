//! `Deserialize` for literals, numbers, strings, bytes and values of any kind. The machine's width has 64 bits.

ghost use Rattle.std.specs.Prelude.{◌^◌};
ghost use Rattle.json5_types.specs.ValueMeanings.{value_of};
ghost use Rattle.json5_de.specs.TokenKinds.{ReadsAs, ReadsBytes, ReadsCow, ReadsDecimal, ReadsEscapeFree, ReadsNull, ReadsString, bool_kind, char_kind, natural_kind, integer_kind};

use crate::de::{Deserialize, Deserializer};
use json5_tokens::input::{Borrows, Input};
use json5_types::byte_buf::ByteBuf;
use json5_types::cow_str::CowStr;
use json5_types::decimal::Decimal;
use json5_types::error::Result;
use json5_types::value::Value;

/// Reads `null`, as `deserialize_unit`.
impl<I: Input> Deserialize<I> for () {
    ghost use Rattle.json5_de.specs.Convert.{unit_of};
    ghost use Rattle.json5_de.specs.TokenKinds.{null_kind, every_tree, RefusedAs};

    ghost Content = { Unit {0} };

    ghost content = { λ _. tt };

    ghost convert = { unit_of };

    ghost allocation_free = { every_tree };

    ghost refuses = { RefusedAs null_kind };

    fn deserialize(de: &mut Deserializer<I>) -> Result<()>
        ensures { ReadsNull de.old de.new result }
    {
        de.deserialize_unit()
    }
}

/// Reads `true` or `false`, as `deserialize_bool`.
impl<I: Input> Deserialize<I> for bool {
    ghost use Rattle.std.specs.Prelude.{Bool};
    ghost use Rattle.json5_de.specs.Convert.{bool_of};
    ghost use Rattle.json5_de.specs.TokenKinds.{bool_kind, every_tree, RefusedAs};

    ghost Content = { Bool };

    ghost content = { λ b. b };

    ghost convert = { bool_of };

    ghost allocation_free = { every_tree };

    ghost refuses = { RefusedAs bool_kind };

    fn deserialize(de: &mut Deserializer<I>) -> Result<bool>
        ensures { ReadsAs bool_kind (λ b. b) de.old de.new result }
    {
        de.deserialize_bool()
    }
}

/// Reads a number of any kind, as `deserialize_decimal`.
impl<I: Input> Deserialize<I> for Decimal {
    ghost use Rattle.json5_grammar.specs.Language.Numbers as numbers;
    ghost use Rattle.json5_de.specs.Convert.{decimal_of};
    ghost use Rattle.json5_de.specs.TokenKinds.{decimal_kind, RefusedAs};

    ghost Content = { numbers.Decimal };

    ghost content = { λ d. d };

    ghost convert = { decimal_of };

    ghost refuses = { RefusedAs decimal_kind };

    fn deserialize(de: &mut Deserializer<I>) -> Result<Decimal>
        ensures { ReadsDecimal de.old de.new result }
    {
        de.deserialize_decimal()
    }
}

/// Reads a string of one character, as `deserialize_char`.
impl<I: Input> Deserialize<I> for char {
    ghost use Rattle.std.specs.Prelude.{ℕ};
    ghost use Rattle.json5_de.specs.Convert.{char_of};
    ghost use Rattle.json5_de.specs.TokenKinds.{char_kind, escape_free_text, RefusedAs};

    ghost Content = { ℕ };

    ghost content = { λ c. c };

    ghost convert = { char_of };

    ghost allocation_free = { escape_free_text };

    ghost refuses = { RefusedAs char_kind };

    fn deserialize(de: &mut Deserializer<I>) -> Result<char>
        ensures { ReadsAs char_kind (λ c. c) de.old de.new result }
    {
        de.deserialize_char()
    }
}

/// Reads a string into a `String`, as `deserialize_string`.
impl<I: Input> Deserialize<I> for String {
    ghost use Rattle.std.specs.Prelude.{ℕ, List, string_bytes};
    ghost use Rattle.json5_de.specs.Convert.{text_of};
    ghost use Rattle.json5_de.specs.TokenKinds.{string_kind, RefusedAs};

    ghost Content = { List ℕ };

    ghost content = { string_bytes };

    ghost convert = { text_of };

    ghost refuses = { RefusedAs string_kind };

    #[inline(always)]
    fn deserialize(de: &mut Deserializer<I>) -> Result<String>
        ensures { ReadsString de.old de.new result }
    {
        de.deserialize_string()
    }
}

/// Reads a string without an escape as a slice of the input, as `deserialize_str`.
impl<'de, I: Borrows<'de>> Deserialize<I> for &'de str {
    ghost use Rattle.std.specs.Prelude.{ℕ, List};
    ghost use Rattle.json5_de.specs.Convert.{escape_free_of};
    ghost use Rattle.json5_de.specs.TokenKinds.{escape_free_kind, every_tree, RefusedAs};

    ghost Content = { List ℕ };

    ghost content = { λ t. t.now };

    ghost convert = { escape_free_of };

    ghost allocation_free = { every_tree };

    ghost refuses = { RefusedAs escape_free_kind };

    #[inline(always)]
    fn deserialize(de: &mut Deserializer<I>) -> Result<&'de str>
        ensures { ReadsEscapeFree de.old de.new result }
    {
        de.deserialize_str()
    }
}

/// Reads a string, borrowed from the input where it has no escape, as `deserialize_identifier`.
impl<'de, I: Borrows<'de>> Deserialize<I> for CowStr<'de> {
    ghost use Rattle.std.specs.Prelude.{ℕ, List, Bool};
    ghost use Rattle.json5_types.specs.Cows.{cow_bytes, is_borrowed};
    ghost use Rattle.json5_de.specs.Convert.{cow_of};
    ghost use Rattle.json5_de.specs.TokenKinds.{cow_kind, escape_free_text, RefusedAs};

    ghost Content = { List ℕ × Bool };

    ghost content = { λ t. (cow_bytes t, is_borrowed t) };

    ghost convert = { cow_of };

    ghost allocation_free = { escape_free_text };

    ghost refuses = { RefusedAs cow_kind };

    #[inline(always)]
    fn deserialize(de: &mut Deserializer<I>) -> Result<CowStr<'de>>
        ensures { ReadsCow de.old de.new result }
    {
        de.deserialize_identifier()
    }
}

/// Reads a string of hexadecimal digits, two a byte, as `deserialize_byte_buf`.
impl<I: Input> Deserialize<I> for ByteBuf {
    ghost use Rattle.std.specs.Prelude.{ℕ, List};
    ghost use Rattle.json5_types.specs.ByteBufs.{bytes_of};
    ghost use Rattle.json5_de.specs.Convert.{byte_buf_of};
    ghost use Rattle.json5_de.specs.TokenKinds.{bytes_kind, RefusedAs};

    ghost Content = { List ℕ };

    ghost content = { bytes_of };

    ghost convert = { byte_buf_of };

    ghost refuses = { RefusedAs bytes_kind };

    fn deserialize(de: &mut Deserializer<I>) -> Result<ByteBuf>
        ensures { ReadsBytes de.old de.new result }
    {
        de.deserialize_byte_buf()
    }
}

/// Reads a value of any kind, as `deserialize_any`.
impl<I: Input> Deserialize<I> for Value {
    ghost use Rattle.json5_types.specs.ValueMeanings.{Datum, value_of};
    ghost use Rattle.json5_de.specs.AnyTree.{RefusesTree, ReadsTree};
    ghost use Rattle.json5_de.specs.Convert.{every_datum};
    ghost use Rattle.json5_de.specs.TokenKinds.{no_tree};

    ghost Content = { Datum };

    ghost content = { value_of };

    ghost convert = { every_datum };

    ghost refuses = { λ s e t. RefusesTree s e };

    fn deserialize(de: &mut Deserializer<I>) -> Result<Value>
        ensures { ReadsTree value_of every_datum no_tree de.old de.new result }
    {
        de.deserialize_any()
    }
}

/// Reads a whole number in the type's range, as `deserialize_u8`. So do the integers below, each by its call.
impl<I: Input> Deserialize<I> for u8 {
    ghost use Rattle.std.specs.Prelude.{ℕ, ◌^◌};
    ghost use Rattle.json5_de.specs.Convert.{unsigned_below};
    ghost use Rattle.json5_de.specs.TokenKinds.{natural_kind, every_tree, RefusedAs};

    ghost Content = { ℕ };

    ghost content = { λ n. n };

    ghost convert = { unsigned_below (2 ^ 8) };

    ghost allocation_free = { every_tree };

    ghost refuses = { RefusedAs (natural_kind (2 ^ 8)) };

    #[inline(always)]
    fn deserialize(de: &mut Deserializer<I>) -> Result<u8>
        ensures { ReadsAs (natural_kind (2 ^ 8)) (λ n. n) de.old de.new result }
    {
        de.deserialize_u8()
    }
}

impl<I: Input> Deserialize<I> for u16 {
    ghost use Rattle.std.specs.Prelude.{ℕ, ◌^◌};
    ghost use Rattle.json5_de.specs.Convert.{unsigned_below};
    ghost use Rattle.json5_de.specs.TokenKinds.{natural_kind, every_tree, RefusedAs};

    ghost Content = { ℕ };

    ghost content = { λ n. n };

    ghost convert = { unsigned_below (2 ^ 16) };

    ghost allocation_free = { every_tree };

    ghost refuses = { RefusedAs (natural_kind (2 ^ 16)) };

    #[inline(always)]
    fn deserialize(de: &mut Deserializer<I>) -> Result<u16>
        ensures { ReadsAs (natural_kind (2 ^ 16)) (λ n. n) de.old de.new result }
    {
        de.deserialize_u16()
    }
}

impl<I: Input> Deserialize<I> for u32 {
    ghost use Rattle.std.specs.Prelude.{ℕ, ◌^◌};
    ghost use Rattle.json5_de.specs.Convert.{unsigned_below};
    ghost use Rattle.json5_de.specs.TokenKinds.{natural_kind, every_tree, RefusedAs};

    ghost Content = { ℕ };

    ghost content = { λ n. n };

    ghost convert = { unsigned_below (2 ^ 32) };

    ghost allocation_free = { every_tree };

    ghost refuses = { RefusedAs (natural_kind (2 ^ 32)) };

    #[inline(always)]
    fn deserialize(de: &mut Deserializer<I>) -> Result<u32>
        ensures { ReadsAs (natural_kind (2 ^ 32)) (λ n. n) de.old de.new result }
    {
        de.deserialize_u32()
    }
}

impl<I: Input> Deserialize<I> for u64 {
    ghost use Rattle.std.specs.Prelude.{ℕ, ◌^◌};
    ghost use Rattle.json5_de.specs.Convert.{unsigned_below};
    ghost use Rattle.json5_de.specs.TokenKinds.{natural_kind, every_tree, RefusedAs};

    ghost Content = { ℕ };

    ghost content = { λ n. n };

    ghost convert = { unsigned_below (2 ^ 64) };

    ghost allocation_free = { every_tree };

    ghost refuses = { RefusedAs (natural_kind (2 ^ 64)) };

    #[inline(always)]
    fn deserialize(de: &mut Deserializer<I>) -> Result<u64>
        ensures { ReadsAs (natural_kind (2 ^ 64)) (λ n. n) de.old de.new result }
    {
        de.deserialize_u64()
    }
}

impl<I: Input> Deserialize<I> for u128 {
    ghost use Rattle.std.specs.Prelude.{ℕ, ◌^◌};
    ghost use Rattle.json5_de.specs.Convert.{unsigned_below};
    ghost use Rattle.json5_de.specs.TokenKinds.{natural_kind, every_tree, RefusedAs};

    ghost Content = { ℕ };

    ghost content = { λ n. n };

    ghost convert = { unsigned_below (2 ^ 128) };

    ghost allocation_free = { every_tree };

    ghost refuses = { RefusedAs (natural_kind (2 ^ 128)) };

    fn deserialize(de: &mut Deserializer<I>) -> Result<u128>
        ensures { ReadsAs (natural_kind (2 ^ 128)) (λ n. n) de.old de.new result }
    {
        de.deserialize_u128()
    }
}

impl<I: Input> Deserialize<I> for i8 {
    ghost use Rattle.std.specs.Prelude.{ℤ, ◌^◌};
    ghost use Rattle.json5_de.specs.Convert.{signed_below};
    ghost use Rattle.json5_de.specs.TokenKinds.{integer_kind, every_tree, RefusedAs};

    ghost Content = { ℤ };

    ghost content = { λ n. n };

    ghost convert = { signed_below (2 ^ 7) };

    ghost allocation_free = { every_tree };

    ghost refuses = { RefusedAs (integer_kind (2 ^ 7)) };

    #[inline(always)]
    fn deserialize(de: &mut Deserializer<I>) -> Result<i8>
        ensures { ReadsAs (integer_kind (2 ^ 7)) (λ n. n) de.old de.new result }
    {
        de.deserialize_i8()
    }
}

impl<I: Input> Deserialize<I> for i16 {
    ghost use Rattle.std.specs.Prelude.{ℤ, ◌^◌};
    ghost use Rattle.json5_de.specs.Convert.{signed_below};
    ghost use Rattle.json5_de.specs.TokenKinds.{integer_kind, every_tree, RefusedAs};

    ghost Content = { ℤ };

    ghost content = { λ n. n };

    ghost convert = { signed_below (2 ^ 15) };

    ghost allocation_free = { every_tree };

    ghost refuses = { RefusedAs (integer_kind (2 ^ 15)) };

    #[inline(always)]
    fn deserialize(de: &mut Deserializer<I>) -> Result<i16>
        ensures { ReadsAs (integer_kind (2 ^ 15)) (λ n. n) de.old de.new result }
    {
        de.deserialize_i16()
    }
}

impl<I: Input> Deserialize<I> for i32 {
    ghost use Rattle.std.specs.Prelude.{ℤ, ◌^◌};
    ghost use Rattle.json5_de.specs.Convert.{signed_below};
    ghost use Rattle.json5_de.specs.TokenKinds.{integer_kind, every_tree, RefusedAs};

    ghost Content = { ℤ };

    ghost content = { λ n. n };

    ghost convert = { signed_below (2 ^ 31) };

    ghost allocation_free = { every_tree };

    ghost refuses = { RefusedAs (integer_kind (2 ^ 31)) };

    #[inline(always)]
    fn deserialize(de: &mut Deserializer<I>) -> Result<i32>
        ensures { ReadsAs (integer_kind (2 ^ 31)) (λ n. n) de.old de.new result }
    {
        de.deserialize_i32()
    }
}

impl<I: Input> Deserialize<I> for i64 {
    ghost use Rattle.std.specs.Prelude.{ℤ, ◌^◌};
    ghost use Rattle.json5_de.specs.Convert.{signed_below};
    ghost use Rattle.json5_de.specs.TokenKinds.{integer_kind, every_tree, RefusedAs};

    ghost Content = { ℤ };

    ghost content = { λ n. n };

    ghost convert = { signed_below (2 ^ 63) };

    ghost allocation_free = { every_tree };

    ghost refuses = { RefusedAs (integer_kind (2 ^ 63)) };

    #[inline(always)]
    fn deserialize(de: &mut Deserializer<I>) -> Result<i64>
        ensures { ReadsAs (integer_kind (2 ^ 63)) (λ n. n) de.old de.new result }
    {
        de.deserialize_i64()
    }
}

impl<I: Input> Deserialize<I> for i128 {
    ghost use Rattle.std.specs.Prelude.{ℤ, ◌^◌};
    ghost use Rattle.json5_de.specs.Convert.{signed_below};
    ghost use Rattle.json5_de.specs.TokenKinds.{integer_kind, every_tree, RefusedAs};

    ghost Content = { ℤ };

    ghost content = { λ n. n };

    ghost convert = { signed_below (2 ^ 127) };

    ghost allocation_free = { every_tree };

    ghost refuses = { RefusedAs (integer_kind (2 ^ 127)) };

    fn deserialize(de: &mut Deserializer<I>) -> Result<i128>
        ensures { ReadsAs (integer_kind (2 ^ 127)) (λ n. n) de.old de.new result }
    {
        de.deserialize_i128()
    }
}

/// Reads a whole number from 0 to 2^64 - 1, as `deserialize_u64`.
impl<I: Input> Deserialize<I> for usize {
    ghost use Rattle.std.specs.Prelude.{ℕ, ◌^◌};
    ghost use Rattle.json5_de.specs.Convert.{unsigned_below};
    ghost use Rattle.json5_de.specs.TokenKinds.{natural_kind, every_tree, RefusedAs};

    ghost Content = { ℕ };

    ghost content = { λ n. n };

    ghost convert = { unsigned_below (2 ^ 64) };

    ghost allocation_free = { every_tree };

    ghost refuses = { RefusedAs (natural_kind (2 ^ 64)) };

    fn deserialize(de: &mut Deserializer<I>) -> Result<usize>
        ensures { ReadsAs (natural_kind (2 ^ 64)) (λ n. n) de.old de.new result }
    {
        if let Some(natural) = de.short_natural(0xffffffffffffffff) {
            return Ok(natural as usize);
        }
        match de.read_natural(0xffffffffffffffff, "usize") {
            Ok(natural) => Ok(natural as usize),
            Err(e) => Err(e),
        }
    }
}

/// Reads a whole number from -2^63 to 2^63 - 1, as `deserialize_i64`.
impl<I: Input> Deserialize<I> for isize {
    ghost use Rattle.std.specs.Prelude.{ℤ, ◌^◌};
    ghost use Rattle.json5_de.specs.Convert.{signed_below};
    ghost use Rattle.json5_de.specs.TokenKinds.{integer_kind, every_tree, RefusedAs};

    ghost Content = { ℤ };

    ghost content = { λ n. n };

    ghost convert = { signed_below (2 ^ 63) };

    ghost allocation_free = { every_tree };

    ghost refuses = { RefusedAs (integer_kind (2 ^ 63)) };

    fn deserialize(de: &mut Deserializer<I>) -> Result<isize>
        ensures { ReadsAs (integer_kind (2 ^ 63)) (λ n. n) de.old de.new result }
    {
        if let Some(integer) = de.short_integer(0x7fffffffffffffff) {
            return Ok(integer as isize);
        }
        match de.read_signed_integer(0x7fffffffffffffff, "isize") {
            Ok(integer) => Ok(integer as isize),
            Err(e) => Err(e),
        }
    }
}
