//! The types that are written as one token, options and references, and values of any kind.

ghost use Rattle.std.specs.Prelude.{[], ◌∷◌, string_bytes};
ghost use Rattle.std.specs.Str.{chars};
ghost use Rattle.hex.specs.Hex.{encode_lower};
ghost use Rattle.json5_types.specs.ByteBufs.{bytes_of};
ghost use Rattle.json5_types.specs.Cows.{cow_bytes};
ghost use Rattle.json5_grammar.specs.Language.Numbers.{decimal};
ghost use Rattle.json5_write.specs.WrittenTrees.{null, boolean, number, natural, integer, text, option_tree};

use crate::impls::printable::Printable;
use crate::{Serialize, Serializer};
use json5_types::byte_buf::ByteBuf;
use json5_types::cow_str::CowStr;
use json5_types::decimal::Decimal;
use json5_types::error::Result;
use json5_types::value::Value;
use json5_write::literals::bool_name;
use json5_write::refusal::Put;
use json5_write::value::put_value;
use std::io::Write;

/// Writes `null`.
impl Printable for () {
    ghost tree = { λ _. null };

    fn print<W: Write + Drop>(&self, ser: &mut Serializer<W>) -> Put {
        ser.printer.put_piece("null")
    }
}

/// Writes `true` or `false`.
impl Printable for bool {
    ghost tree = { boolean };

    fn print<W: Write + Drop>(&self, ser: &mut Serializer<W>) -> Put {
        ser.printer.put_piece(bool_name(*self))
    }
}

/// Writes the decimal digits. So do the integers below, after a minus where they are negative.
impl Printable for u8 {
    ghost tree = { natural };

    fn print<W: Write + Drop>(&self, ser: &mut Serializer<W>) -> Put {
        ser.printer.put_unsigned(u128::from(*self))
    }
}

impl Printable for u16 {
    ghost tree = { natural };

    fn print<W: Write + Drop>(&self, ser: &mut Serializer<W>) -> Put {
        ser.printer.put_unsigned(u128::from(*self))
    }
}

impl Printable for u32 {
    ghost tree = { natural };

    fn print<W: Write + Drop>(&self, ser: &mut Serializer<W>) -> Put {
        ser.printer.put_unsigned(u128::from(*self))
    }
}

impl Printable for u64 {
    ghost tree = { natural };

    fn print<W: Write + Drop>(&self, ser: &mut Serializer<W>) -> Put {
        ser.printer.put_unsigned(u128::from(*self))
    }
}

impl Printable for u128 {
    ghost tree = { natural };

    fn print<W: Write + Drop>(&self, ser: &mut Serializer<W>) -> Put {
        ser.printer.put_unsigned(*self)
    }
}

/// Written as a `u64`.
impl Printable for usize {
    ghost tree = { natural };

    fn print<W: Write + Drop>(&self, ser: &mut Serializer<W>) -> Put {
        ser.printer.put_unsigned(*self as u128)
    }
}

impl Printable for i8 {
    ghost tree = { integer };

    fn print<W: Write + Drop>(&self, ser: &mut Serializer<W>) -> Put {
        ser.printer.put_signed(i128::from(*self))
    }
}

impl Printable for i16 {
    ghost tree = { integer };

    fn print<W: Write + Drop>(&self, ser: &mut Serializer<W>) -> Put {
        ser.printer.put_signed(i128::from(*self))
    }
}

impl Printable for i32 {
    ghost tree = { integer };

    fn print<W: Write + Drop>(&self, ser: &mut Serializer<W>) -> Put {
        ser.printer.put_signed(i128::from(*self))
    }
}

impl Printable for i64 {
    ghost tree = { integer };

    fn print<W: Write + Drop>(&self, ser: &mut Serializer<W>) -> Put {
        ser.printer.put_signed(i128::from(*self))
    }
}

impl Printable for i128 {
    ghost tree = { integer };

    fn print<W: Write + Drop>(&self, ser: &mut Serializer<W>) -> Put {
        ser.printer.put_signed(*self)
    }
}

/// Written as an `i64`.
impl Printable for isize {
    ghost tree = { integer };

    fn print<W: Write + Drop>(&self, ser: &mut Serializer<W>) -> Put {
        ser.printer.put_signed(*self as i128)
    }
}

/// Writes a string of one character, as `serialize_str` does.
impl Printable for char {
    ghost tree = { λ c. text (c ∷ []) };

    fn print<W: Write + Drop>(&self, ser: &mut Serializer<W>) -> Put {
        ser.put_char(*self)
    }
}

/// Writes a string, as `serialize_str` does.
impl Printable for &str {
    ghost tree = { λ s. text (chars s.now) };

    fn print<W: Write + Drop>(&self, ser: &mut Serializer<W>) -> Put {
        ser.printer.put_str(*self)
    }
}

/// Writes a string, as `serialize_str` does.
impl Printable for String {
    ghost tree = { λ s. text (chars (string_bytes s)) };

    fn print<W: Write + Drop>(&self, ser: &mut Serializer<W>) -> Put {
        ser.printer.put_str(self)
    }
}

/// Writes a string, as `serialize_str` does.
impl Printable for CowStr<'_> {
    ghost tree = { λ s. text (chars (cow_bytes s)) };

    fn print<W: Write + Drop>(&self, ser: &mut Serializer<W>) -> Put {
        ser.printer.put_str(self.as_str())
    }
}

/// Writes a string of the hexadecimal digits in lower case, two a byte.
impl Serialize for ByteBuf {
    ghost tree = { λ b. text (encode_lower (bytes_of b)) };

    fn serialize<W: Write + Drop>(&self, ser: &mut Serializer<W>) -> Result<()> {
        ser.serialize_bytes(self.as_slice())
    }
}

/// Writes plain notation with a point, `Infinity` or `NaN`, as `serialize_decimal` does.
impl Printable for Decimal {
    ghost tree = { λ d. number (decimal d) };

    fn print<W: Write + Drop>(&self, ser: &mut Serializer<W>) -> Put {
        ser.printer.put_decimal(self)
    }
}

/// Writes the value that it refers to.
impl<T: Serialize> Printable for &T {
    ghost tree = { λ r. T.tree r.now };

    fn print<W: Write + Drop>(&self, ser: &mut Serializer<W>) -> Put {
        Serialize::put(*self, ser)
    }
}

/// Writes what is inside, or `null`.
impl<T: Serialize> Printable for Option<T> {
    ghost tree = { option_tree T.tree };

    fn print<W: Write + Drop>(&self, ser: &mut Serializer<W>) -> Put {
        match self {
            Some(value) => value.put(ser),
            None => ().print(ser),
        }
    }
}

/// Writes a value of any kind; equal keys are kept.
impl Printable for Value {
    ghost use Rattle.json5_write.specs.ValueTrees.{value_tree};

    ghost tree = { value_tree };

    fn print<W: Write + Drop>(&self, ser: &mut Serializer<W>) -> Put {
        put_value(self, &mut ser.printer)
    }
}
